//! The declared functions of each name.

use crate::ids::{FunId, NameId};
use crate::no_memory::NoMemory;
use crate::words::Word;
use std::alloc::Global;
use std::marker::Model;

/// For each name the functions that were declared with it, in their order.
#[derive(Drop)]
pub struct NamedFunctions {
    lists: Vec<Vec<FunId>>,
    alloc: Global,
}

impl Model for NamedFunctions {
    ghost use Rattle.std.specs.Prelude.{List};
    ghost use Rattle.data_theory.specs.declared.ids.FunId.{FunId};
    ghost use Rattle.data_theory.specs.NamedFunctions.{lists_of};

    ghost Value = { List (List FunId) };

    ghost view = { λ table. lists_of table.lists.items };
}

impl NamedFunctions {
    ghost use Rattle.std.specs.Prelude.{◌≡◌, ◌++◌, ℕ, List, [], OnOk, OnErr};
    ghost use Rattle.data_theory.specs.declared.ids.NameId.{NameId};
    ghost use Rattle.data_theory.specs.declared.ids.FunId.{FunId};
    ghost use Rattle.data_theory.specs.NamedFunctions.{if_named, list_at};

    /// No functions.
    pub fn new(alloc: Global) -> NamedFunctions
        ensures { result ≡ [] }
    {
        NamedFunctions {
            lists: Vec::new(alloc),
            alloc,
        }
    }

    /// The functions of a name.
    pub fn get(&self, name: NameId) -> &[FunId]
        ensures { result.now ≡ list_at self.now name }
    {
        if name.0 < self.lists.len() {
            self.lists[name.0].as_slice()
        } else {
            &[]
        }
    }

    /// Adds a function behind those of its name, where it has no word.
    pub fn enter(&mut self, name: NameId, word: Option<Word>, fun: FunId) -> Result<(), NoMemory>
        ensures entered { OnOk result ((n : NameId) → list_at self.new n ≡ list_at self.old n ++ if_named n name fun.0 word) }
        ensures unchanged { OnErr result ((n : NameId) → list_at self.new n ≡ list_at self.old n) }
    {
        if word.is_some() {
            return Ok(());
        }
        make_room(&mut self.lists, self.alloc, name.0)?;
        self.lists[name.0].push(fun)?;
        Ok(())
    }

    /// Takes the last function of a name away, where it has no word.
    pub fn forget(&mut self, name: NameId, word: Option<Word>)
        ensures { (n : NameId) (front : List FunId) (number : ℕ) → list_at self.old n ≡ front ++ if_named n name number word → list_at self.new n ≡ front }
    {
        if word.is_some() {
            return;
        }
        if name.0 < self.lists.len() {
            self.lists[name.0].pop();
        }
    }
}

ghost use Rattle.std.specs.Prelude.{◌≡◌, ◌<◌, length, OnOk};
ghost use Rattle.data_theory.specs.declared.ids.NameId.{NameId};
ghost use Rattle.data_theory.specs.NamedFunctions.{lists_of, list_at};

/// Makes an index long enough for a place.
fn make_room(lists: &mut Vec<Vec<FunId>>, alloc: Global, place: usize) -> Result<(), NoMemory>
    ensures kept { (n : NameId) → list_at (lists_of lists.new.items) n ≡ list_at (lists_of lists.old.items) n }
    ensures room { OnOk result (place < length lists.new.items) }
{
    while lists.len() <= place {
        lists.push(Vec::new(alloc))?;
    }
    Ok(())
}
