//! Texts as tokens.
//!
//! [`lex`] cuts a text into its tokens, each the longest one at its place, or says at which place the text has none or one
//! that isn't accepted. The words and signs are those of the mCRL2 language reference.
#![tactic(auto)]

mod kind;
mod laws;
mod lexing;
mod numerals;
mod scanning;
mod token;
mod words;

pub use kind::Kind;
pub use laws::{faults_are_single, faulty_texts_have_no_tokens, tokens_are_single};
pub use lexing::lex;
pub use numerals::numeral_value;
pub use token::{LexFault, Token, Tokens};
