//! The trees of specifications, and which tokens spell them.
//!
//! Each form of the grammar is a variant with the stretch of text that it was read from. A function for each form makes its
//! tree, and fails for want of memory alone.
#![tactic(auto)]

mod copying;
mod data_list;
mod data_tree;
mod declaration;
mod laws;
mod process_tree;
mod signs;
mod sort_tree;
mod word;
mod word_bytes;
mod word_list;

pub use copying::is_first_copied;
pub use data_list::DataList;
pub use data_tree::{Application, Chain, DataTree, InfixSign, PrefixSign};
pub use declaration::{Constructor, Decl, EquationTree, Field, Section, SectionWord, Spec};
pub use laws::{
    data_are_single, declarations_are_single, labels_are_single, processes_are_single,
    sorts_are_single, specifications_are_single,
};
pub use process_tree::{
    ActionTree, Assignment, CommRule, LabelTree, NameSet, ProcTree, Renaming, VarGroup,
};
pub use signs::{infix_sign, prefix_sign, section_of_kind, sign_level};
pub use sort_tree::SortTree;
pub use word::{Span, Word, joined_spans, token_span};
pub use word_bytes::WordBytes;
pub use word_list::WordList;
