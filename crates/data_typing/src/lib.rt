//! Typing of data expressions: which term an expression is, and of which sort.
//!
//! The definitions stand in `specs/`, and in plain words in `docs/definitions/typing.md`. The functions of `laws` have empty bodies:
//! the contract of each is a law of these definitions, so that the crates above can cite it.
#![tactic(auto)]

pub mod elaborating;
pub mod expressions;
pub mod finding;
pub mod flat_sorts;
pub mod functions;
pub mod laws;
pub mod making;
pub mod nodes;
pub mod plans;
pub mod reading;
pub mod scope;
pub mod sort_tables;
pub mod standing;
pub mod steps;
pub mod word_table;
pub mod words;
