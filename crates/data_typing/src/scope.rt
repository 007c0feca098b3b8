//! The variables in scope.

ghost use Rattle.std.specs.Prelude.{◌≡◌, ◌<◌, ◌≤◌, ℕ, length, get_or, None, OnOk};

use crate::flat_sorts::FlatSort;
use data_theory::{NameId, NoMemory, VarId};
use std::alloc::Global;
use std::marker::Model;

/// A variable in scope.
#[derive(Clone, Copy)]
pub struct Bound {
    pub name: NameId,
    pub var: VarId,
    pub sort: FlatSort,
}

/// A variable in scope, and the place of the one of its name that it hides.
#[derive(Clone, Copy)]
pub struct Entry {
    pub bound: Bound,
    pub hidden: Option<usize>,
}

/// The variables in scope, the innermost one last. The innermost one of a name is found by the name's number, without a search.
#[derive(Drop)]
pub struct Scope {
    entries: Vec<Entry>,
    innermost: Vec<Option<usize>>,
}

impl Model for Scope {
    ghost use Rattle.std.specs.Prelude.{List, map};
    ghost use Rattle.data_typing.specs.declared.scope.Bound.{Bound};
    ghost use Rattle.data_typing.specs.Scopes.{bounds_of, AreFound};

    ghost Value = { List Bound };

    ghost view = { λ scope. bounds_of scope.entries.items };

    ghost invariant = { λ scope. AreFound scope.entries.items scope.innermost.items };
}

impl Scope {
    ghost use Rattle.std.specs.Prelude.{◌≡◌, ◌<◌, ◌-◌, ◌++◌, ◌∷◌, [], None, length, take, OnOk, OnErr};
    ghost use Rattle.data_typing.specs.CodeWords.{found_behind};

    /// No variables.
    pub fn new(alloc: Global) -> Scope
        ensures { result ≡ [] }
    {
        Scope {
            entries: Vec::new(alloc),
            innermost: Vec::new(alloc),
        }
    }

    /// How many variables are in scope.
    pub fn len(&self) -> usize
        ensures { result ≡ length self.now }
    {
        self.entries.len()
    }

    /// The innermost variable of a name.
    pub fn find(&self, name: NameId) -> Option<Bound>
        ensures { result ≡ found_behind name None self.now }
    {
        if name.0 >= self.innermost.len() {
            return None;
        }
        match self.innermost[name.0] {
            Some(place) => Some(self.entries[place].bound),
            None => None,
        }
    }

    /// Takes a further variable into scope, as the innermost one.
    pub fn enter(&mut self, bound: Bound) -> Result<(), NoMemory>
        ensures entered { OnOk result (self.new ≡ self.old ++ bound ∷ []) }
        ensures unchanged { OnErr result (self.new ≡ self.old) }
    {
        make_room(&mut self.innermost, bound.name.0)?;
        let hidden = self.innermost[bound.name.0];
        let place = self.entries.len();
        self.entries.push(Entry { bound, hidden })?;
        self.innermost[bound.name.0] = Some(place);
        Ok(())
    }

    /// Leaves the scope of the innermost variable, where there is one.
    pub fn leave(&mut self)
        ensures { self.new ≡ take (length self.old - 1) self.old }
    {
        if let Some(entry) = self.entries.pop() {
            self.innermost[entry.bound.name.0] = entry.hidden;
        }
    }
}

/// Makes room for a number. What isn't there and what is empty are the same.
fn make_room(innermost: &mut Vec<Option<usize>>, number: usize) -> Result<(), NoMemory>
    ensures room { OnOk result (number < length innermost.new.items) }
    ensures more { length innermost.old.items ≤ length innermost.new.items }
    ensures same { (n : ℕ) → get_or innermost.new.items n None ≡ get_or innermost.old.items n None }
{
    while innermost.len() <= number {
        innermost.push(None)?;
    }
    Ok(())
}
