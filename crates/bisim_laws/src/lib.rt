//! Links and their laws.
//!
//! What a link pairs, when it is good, and what a linear process does stands in `specs/`, and in plain words in
//! `docs/definitions/processes.md`. The functions in the modules of this crate have empty bodies: the contract of each is a law,
//! so that the crates above can cite it.
#![tactic(auto)]

pub mod checks;
pub mod firings;
pub mod links;
pub mod within;
