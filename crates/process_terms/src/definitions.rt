//! Process definitions and whole specifications in code.

use crate::processes::Proc;
use data_theory::{NameId, VarId};
use term_pool::Theory;

/// The definition of a process, as `P(x: S, y: T) = p`.
#[derive(Debug, Drop)]
pub struct ProcDef {
    /// The name of the process.
    pub name: NameId,
    /// The parameters, in the order of the text.
    pub params: Vec<VarId>,
    /// The body.
    pub body: Proc,
    /// The number of its declaration in the text, from 1.
    pub declaration: usize,
}

/// A specification: its written equations, the definitions of its processes, and the process that starts.
#[derive(Debug, Drop)]
pub struct Model {
    /// The written equations.
    pub theory: Theory,
    /// The definitions, each at the place that is its process's number.
    pub procs: Vec<ProcDef>,
    /// The process that starts.
    pub init: Proc,
    /// The number of the declaration of `init` in the text, from 1.
    pub init_declaration: usize,
}
