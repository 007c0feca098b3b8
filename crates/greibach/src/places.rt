//! The bodies that a component reaches, as places.

use data_theory::{ProcId, TermId, VarId};
use process_terms::Label;

/// What stands at a place. Its parts stand at places with smaller numbers.
#[derive(Drop)]
pub enum Part<'a> {
    /// `delta`
    Delta,
    /// A label.
    Act(&'a Label),
    /// The operands of `+`.
    Choice(Vec<usize>),
    /// A condition, and the operands of `->` and `<>`.
    Cond(TermId, usize, usize),
    /// A variable of a `sum`, and what stands under it.
    Sum(VarId, usize),
    /// The call of a definition, by its number among the reached ones.
    Call(usize, &'a [TermId]),
    /// All of a definition, which begins at another place.
    Whole(usize),
}

/// A place of a body: a part that isn't a `.` itself, and what follows it up to the end of its body.
#[derive(Drop)]
pub struct Place<'a> {
    pub part: Part<'a>,
    /// The place that follows, which has a smaller number.
    pub rest: Option<usize>,
    /// The variables that occur free from here to the end of the body, in the order of their binding. Of a whole
    /// definition these are all its parameters.
    pub params: Vec<VarId>,
}

/// A reached definition: its number, the place of all of it, and its parameters.
#[derive(Clone, Copy)]
pub struct Entry<'a> {
    pub process: ProcId,
    pub place: usize,
    pub params: &'a [VarId],
}

/// The places of a component's own term and of the definitions that it reaches.
#[derive(Drop)]
pub struct Places<'a> {
    pub places: Vec<Place<'a>>,
    /// Where the component begins.
    pub start: usize,
    /// The reached definitions.
    pub entries: Vec<Entry<'a>>,
}
