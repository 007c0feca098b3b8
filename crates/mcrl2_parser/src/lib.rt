//! Tokens as the tree of a specification.
//!
//! [`parse`] gives the only tree that the tokens of a text spell, or says which declaration is refused, or that the text hasn't
//! exactly one that starts it. [`declarations`] cuts a list of tokens into its declarations, and [`level`] says how deep the
//! tokens of one nest. [`parse_label`] reads the label that a line is, [`parse_data`] the data expression that a text is, and
//! [`parse_tuple`] the data expressions in brackets that a line is.
//! Sections and declarations are those of the mCRL2 language reference; the levels and their bound are this program's own.
#![tactic(auto)]

mod arrows;
mod boxes;
mod chains;
mod constructor_readers;
mod datas;
mod declaration_readers;
mod declaring;
mod faults;
mod grouping;
mod guards;
mod joining;
mod label_line;
mod laws;
mod levels;
mod lists;
mod operator_parts;
mod operators;
mod parsing;
mod part_spans;
mod parts;
mod processes;
mod readable;
mod reading;
mod sectioning;
mod sections;
mod signature_readers;
mod stack;
mod term_text;
mod together;
mod words;

pub use declaring::{Declaration, declarations};
pub use faults::ParseFault;
pub use label_line::{LabelFault, parse_label};
pub use laws::{
    parse_faults_are_single, sound_tokens_have_no_fault, whole_declarations_spell_a_specification,
};
pub use levels::{MAX_LEVEL, level};
pub use parsing::parse;
pub use term_text::{TermFault, parse_data, parse_tuple};
