//! Rewriting of terms.
#![tactic(auto)]

mod building;
mod equal_lines;
mod equations;
mod function_signs;
mod lines;
mod list_lines;
mod machine;
mod making;
mod matching;
mod number_lines;
mod rewriter;
mod rights;
mod signs;
mod simplifier;
mod stack;
mod struct_lines;
mod tables;
mod truth_lines;
mod views;
mod word_signs;

pub use machine::Normal;
pub use rewriter::{Rewriter, Truth};
pub use simplifier::{AsIs, ByRewriter, Simplifier};
