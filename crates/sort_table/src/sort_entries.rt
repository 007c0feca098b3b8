//! The declared sort names, with an index.

ghost use Rattle.sort_table.specs.SortIndexes.{entries_of, KnowsFirstPlaces};

use mcrl2_syntax::SortTree;
use std::collections::BTreeMap;

/// What a sort name is declared as: alone, as a `struct`, or as an alias of a sort expression.
#[derive(Clone, Copy)]
pub(crate) enum Definition<'a> {
    Alone,
    Struct,
    Alias(&'a SortTree),
}

/// The sort names that a text declares, in its order, with how it declares them. The index has the first place of each name;
/// it is ordered, so that no choice of names makes a look-up slow.
#[derive(Drop)]
pub(crate) struct SortIndex<'a> {
    pub(crate) entries: Vec<(&'a [u8], Definition<'a>)>,
    pub(crate) places: BTreeMap<&'a [u8], usize>,
    ghost known: { KnowsFirstPlaces places (entries_of entries.items) },
}
