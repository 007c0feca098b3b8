//! A row of the table of built-in functions.

use crate::functions::FunEntry;
use crate::ids::{NameId, SortId};
use crate::no_memory::NoMemory;
use crate::words::Word;
use std::alloc::Global;

/// A built-in function: its name, the sorts of its arguments, and the sort of its result. A list constant is found by its
/// own sort.
#[derive(Clone, Copy, Debug)]
pub enum Row {
    Constant(Word, SortId),
    ListConstant(Word, SortId),
    One(Word, SortId, SortId),
    Two(Word, SortId, SortId, SortId),
    Three(Word, SortId, SortId, SortId, SortId),
}

impl Row {
    ghost use Rattle.std.specs.Prelude.{◌≡◌, IfOk};
    ghost use Rattle.data_theory.specs.Functions.{function_of};
    ghost use Rattle.data_theory.specs.Rows.{row_word, row_is_list_constant, row_function};

    /// Its name.
    pub fn word(self) -> Word
        ensures { result ≡ row_word self }
    {
        match self {
            Row::Constant(word, _) => word,
            Row::ListConstant(word, _) => word,
            Row::One(word, _, _) => word,
            Row::Two(word, _, _, _) => word,
            Row::Three(word, _, _, _, _) => word,
        }
    }

    /// Whether it is a constant that is found by its own sort.
    pub fn is_list_constant(self) -> bool
        ensures { result ≡ row_is_list_constant self }
    {
        match self {
            Row::Constant(_, _) => false,
            Row::ListConstant(_, _) => true,
            Row::One(_, _, _) => false,
            Row::Two(_, _, _, _) => false,
            Row::Three(_, _, _, _, _) => false,
        }
    }

    /// The function under the place of its name.
    pub fn entry(self, alloc: Global, name: NameId) -> Result<FunEntry, NoMemory>
        ensures { IfOk result (λ entry. function_of entry ≡ row_function name self) }
    {
        let (sorts, to) = match self {
            Row::Constant(_, to) => (Vec::new(alloc), to),
            Row::ListConstant(_, to) => (Vec::from_array(alloc, [to])?, to),
            Row::One(_, first, to) => (Vec::from_array(alloc, [first])?, to),
            Row::Two(_, first, second, to) => (Vec::from_array(alloc, [first, second])?, to),
            Row::Three(_, first, second, third, to) => {
                (Vec::from_array(alloc, [first, second, third])?, to)
            }
        };
        Ok(FunEntry {
            name,
            sorts,
            to,
            word: Some(self.word()),
            is_list_constant: self.is_list_constant(),
            projections: Vec::new(alloc),
            test: None,
        })
    }
}
