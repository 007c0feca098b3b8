//! The functions of a signature, with their index.

use crate::ids::{FunId, NameId, SortId};
use crate::keys::Keys;
use crate::named_functions::NamedFunctions;
use crate::no_memory::NoMemory;
use crate::words::Word;
use std::alloc::Global;
use std::marker::Model;

/// A function. Its sorts are those by which it is found: its arguments' sorts, and for `[]` its list sort.
#[derive(Drop)]
pub struct FunEntry {
    pub name: NameId,
    pub sorts: Vec<SortId>,
    pub to: SortId,
    pub word: Option<Word>,
    pub is_list_constant: bool,
    pub projections: Vec<Option<FunId>>,
    pub test: Option<FunId>,
}

/// The functions of a signature, in the order of their numbers. No two have one name and the same sorts.
#[derive(Drop)]
pub struct Functions {
    entries: Vec<FunEntry>,
    keys: Keys,
    named: NamedFunctions,
}

impl Model for Functions {
    ghost use Rattle.std.specs.Prelude.{List};
    ghost use Rattle.data_theory.specs.Functions.{Function, functions_of};
    ghost use Rattle.data_theory.specs.NamedFunctions.{IsIndexed};

    ghost Value = { List Function };

    ghost view = { λ table. functions_of table.entries.items };

    ghost invariant = { λ table. IsIndexed (functions_of table.entries.items) table.keys table.named };
}

impl Functions {
    ghost use Rattle.std.specs.Prelude.{◌≡◌, ◌<◌, ◌+◌, ◌^◌, ◌++◌, ◌∷◌, ℕ, [], length, IfOk, OnOk, OnErr, MatchOption, slice_get, map, Some, take};
    ghost use Rattle.std.specs.List.{Contains};
    ghost use Rattle.data_theory.specs.Keys.{key};
    ghost use Rattle.data_theory.specs.Functions.{function_of, functions_of, key_of, HasKey, AreNew};
    ghost use Rattle.data_theory.specs.NamedFunctions.{functions_named};

    /// No functions.
    pub fn new(alloc: Global) -> Functions
        ensures { result ≡ [] }
    {
        Functions {
            entries: Vec::new(alloc),
            keys: Keys::new(alloc),
            named: NamedFunctions::new(alloc),
        }
    }

    /// How many there are.
    pub fn len(&self) -> usize
        ensures { result ≡ length self.now }
    {
        self.entries.len()
    }

    /// Makes room for further functions.
    pub fn reserve(&mut self, additional: usize) -> Result<(), NoMemory>
        ensures room { OnOk result (length self.old + additional < 2 ^ 63) }
        ensures kept { self.new ≡ self.old }
    {
        self.entries.reserve(additional)?;
        Ok(())
    }

    /// The function with a number.
    pub fn get(&self, fun: FunId) -> &FunEntry
        requires { fun.0 < length self.now }
        ensures { slice_get self.now fun.0 ≡ Some (function_of result.now) }
    {
        &self.entries[fun.0]
    }

    /// The function with a name and sorts.
    pub fn find(&self, name: NameId, sorts: &[SortId]) -> Option<FunId>
        ensures { MatchOption result ((k : ℕ) → HasKey self.now (key name sorts.now) k → ⊥) (λ fun. HasKey self.now (key name sorts.now) fun.0) }
    {
        let place = self.keys.find(name, sorts)?;
        Some(FunId(place))
    }

    /// The declared functions of a name, in their order.
    pub fn named(&self, name: NameId) -> &[FunId]
        ensures { result.now ≡ functions_named self.now name }
    {
        self.named.get(name)
    }

    /// Adds a function behind the others.
    pub fn push(&mut self, entry: FunEntry) -> Result<FunId, NoMemory>
        requires { (k : ℕ) → HasKey self.old (key_of (function_of entry)) k → ⊥ }
        ensures number { IfOk result (λ fun. fun.0 ≡ length self.old) }
        ensures pushed { IfOk result (λ _. self.new ≡ self.old ++ function_of entry ∷ []) }
        ensures unchanged { OnErr result (self.new ≡ self.old) }
    {
        let fun = FunId(self.entries.len());
        self.entries.reserve(1)?;
        self.keys.push(entry.name, entry.sorts.as_slice())?;
        if self.named.enter(entry.name, entry.word, fun).is_err() {
            self.keys.truncate(fun.0);
            return Err(NoMemory);
        }
        let _ = self.entries.push(entry);
        Ok(fun)
    }

    /// Adds functions behind the others, all or none.
    pub fn push_all(&mut self, added: Vec<FunEntry>) -> Result<(), NoMemory>
        requires { AreNew self.old (functions_of added.items) }
        ensures pushed { OnOk result (self.new ≡ self.old ++ functions_of added.items) }
        ensures unchanged { OnErr result (self.new ≡ self.old) }
    {
        let length = self.len();
        for entry in added {
            if self.push(entry).is_err() {
                self.truncate(length);
                return Err(NoMemory);
            }
        }
        Ok(())
    }

    /// Keeps the first functions alone.
    pub fn truncate(&mut self, length: usize)
        ensures { self.new ≡ take length self.old }
    {
        cut(&mut self.entries, &mut self.named, length);
        self.keys.truncate(length);
    }
}

ghost use Rattle.std.specs.Prelude.{◌≡◌, take};
ghost use Rattle.data_theory.specs.Functions.{functions_of};
ghost use Rattle.data_theory.specs.NamedFunctions.{AreNamedLists};

/// Keeps the first functions alone, also in the lists of their names.
fn cut(entries: &mut Vec<FunEntry>, named: &mut NamedFunctions, length: usize)
    requires { AreNamedLists (functions_of entries.old.items) named.old }
    ensures entries { functions_of entries.new.items ≡ take length (functions_of entries.old.items) }
    ensures named { AreNamedLists (functions_of entries.new.items) named.new }
{
    while entries.len() > length {
        let entry = entries.pop().unwrap();
        named.forget(entry.name, entry.word);
    }
}
