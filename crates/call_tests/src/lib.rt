//! Tests of calls of `mcrl2_text`, `data_theory`, `term_pool` and `process_terms` that neither a text nor a line of `call_cases` shows.
//!
//! They stand here, since a crate with tests is proved twice: once for the crates above it and once for its tests.
#![tactic(auto)]

#[cfg(test)]
mod copies;
#[cfg(test)]
mod names;
#[cfg(test)]
mod pools;
#[cfg(test)]
mod shelves;
#[cfg(test)]
mod signatures;
