//! The processes and the actions of a text by name.

use crate::name_numbers::NameNumbers;
use crate::sorted_actions::SortedActions;
use data_theory::NameId;
use data_typing::flat_sorts::FlatSort;

/// A parameter of a process.
#[derive(Clone, Copy)]
pub(crate) struct Parameter<'a> {
    pub(crate) name: &'a [u8],
    /// The name's number in the table of texts.
    pub(crate) number: NameId,
    pub(crate) sort: FlatSort,
}

/// Under the name of each process its place in the text, and at each place the parameters; and the actions.
#[derive(Drop)]
pub(crate) struct ProcessTable<'a> {
    pub(crate) places: NameNumbers<'a>,
    pub(crate) parameters: Vec<Vec<Parameter<'a>>>,
    pub(crate) actions: SortedActions,
}
