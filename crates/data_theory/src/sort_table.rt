//! The sorts of a signature, with the list sort over each.

use crate::ids::{FunId, NameId, SortId};
use crate::no_memory::NoMemory;
use std::alloc::Global;
use std::marker::Model;

/// What a sort is. A declared sort has no constructors, has them from `cons` declarations, or is a `struct`.
#[derive(Drop)]
pub enum SortKind {
    Bool,
    Pos,
    Nat,
    Int,
    List(SortId),
    Abstract,
    Cons(Vec<FunId>),
    Struct(Vec<FunId>),
}

/// A sort, with its first name if it is declared.
#[derive(Drop)]
pub struct SortEntry {
    pub kind: SortKind,
    pub name: Option<NameId>,
}

/// The sorts of a signature, in the order of their numbers. Over a sort there is one list sort at most.
#[derive(Drop)]
pub struct SortTable {
    entries: Vec<SortEntry>,
    lists: Vec<Option<SortId>>,
}

impl Model for SortTable {
    ghost use Rattle.std.specs.Prelude.{◌≡◌, List, length};
    ghost use Rattle.data_theory.specs.Sorts.{SortInfo, sorts_of, AreLists};

    ghost Value = { List SortInfo };

    ghost view = { λ table. sorts_of table.entries.items };

    ghost invariant = { λ table. AreLists (sorts_of table.entries.items) table.lists.items };
}

impl SortTable {
    ghost use Rattle.std.specs.Prelude.{◌≡◌, ◌<◌, ◌≤◌, ◌++◌, ◌∷◌, [], take, length, IfOk, OnErr, MatchOption, slice_get, Some, ℕ};
    ghost use Rattle.data_theory.specs.Sorts.{SortInfo, info_of, first_sorts, abstract_sort, list_sort, kind_of, with_kind, IsBare, IsListKind, IsListOver, IsAnyListOver};

    /// Bool, Pos, Nat and Int.
    pub fn new(alloc: Global) -> Result<SortTable, NoMemory>
        ensures { IfOk result (λ table. table ≡ first_sorts) }
    {
        let entries = Vec::from_array(
            alloc,
            [
                SortEntry {
                    kind: SortKind::Bool,
                    name: None,
                },
                SortEntry {
                    kind: SortKind::Pos,
                    name: None,
                },
                SortEntry {
                    kind: SortKind::Nat,
                    name: None,
                },
                SortEntry {
                    kind: SortKind::Int,
                    name: None,
                },
            ],
        )?;
        Ok(SortTable {
            entries,
            lists: Vec::new(alloc),
        })
    }

    /// How many there are.
    pub fn len(&self) -> usize
        ensures { result ≡ length self.now }
    {
        self.entries.len()
    }

    /// The sort with a number.
    pub fn get(&self, sort: SortId) -> &SortEntry
        requires { sort.0 < length self.now }
        ensures { slice_get self.now sort.0 ≡ Some (info_of result.now) }
    {
        &self.entries[sort.0]
    }

    /// The list sort over a sort.
    pub fn list_of(&self, element: SortId) -> Option<SortId>
        requires { element.0 < length self.now }
        ensures { MatchOption result (¬ (IsAnyListOver self.now element)) (λ list. IsListOver self.now element list) }
    {
        list_at(self.lists.as_slice(), element.0)
    }

    /// Adds a declared sort without constructors behind the others.
    pub fn push_abstract(&mut self, name: NameId) -> Result<SortId, NoMemory>
        ensures number { IfOk result (λ sort. sort.0 ≡ length self.old) }
        ensures pushed { IfOk result (λ _. self.new ≡ self.old ++ abstract_sort name ∷ []) }
        ensures unchanged { OnErr result (self.new ≡ self.old) }
    {
        let sort = SortId(self.entries.len());
        self.entries.push(SortEntry {
            kind: SortKind::Abstract,
            name: Some(name),
        })?;
        Ok(sort)
    }

    /// Adds the list sort over a sort that has none behind the others.
    pub fn push_list(&mut self, element: SortId) -> Result<SortId, NoMemory>
        requires within { element.0 < length self.old }
        requires absent { ¬ (IsAnyListOver self.old element) }
        ensures number { IfOk result (λ sort. sort.0 ≡ length self.old) }
        ensures pushed { IfOk result (λ _. self.new ≡ self.old ++ list_sort element ∷ []) }
        ensures unchanged { OnErr result (self.new ≡ self.old) }
    {
        make_room(&mut self.lists, element.0)?;
        let sort = SortId(self.entries.len());
        self.entries.push(SortEntry {
            kind: SortKind::List(element),
            name: None,
        })?;
        self.lists[element.0] = Some(sort);
        Ok(sort)
    }

    /// Keeps the first sorts alone, where those behind are no list sorts.
    pub fn truncate(&mut self, length: usize)
        requires { (i : ℕ) (sort : SortInfo) → length ≤ i → slice_get self.old i ≡ Some sort → ¬ (IsListKind sort.kind) }
        ensures { self.new ≡ take length self.old }
    {
        self.entries.truncate(length);
    }

    /// Says what a declared sort without constructors is.
    pub fn set_kind(&mut self, sort: SortId, kind: SortKind)
        requires bare { IsBare self.old sort }
        requires no_list { ¬ (IsListKind (kind_of kind)) }
        ensures { self.new ≡ with_kind self.old sort.0 (kind_of kind) }
    {
        self.entries[sort.0].kind = kind;
    }
}

ghost use Rattle.std.specs.Prelude.{◌≡◌, ◌<◌, ℕ, length, get_or, None, OnOk};

/// What an index that may be too short has at a place.
fn list_at(lists: &[Option<SortId>], place: usize) -> Option<SortId>
    ensures { result ≡ get_or lists.now place None }
{
    if place < lists.len() {
        lists[place]
    } else {
        None
    }
}

/// Makes an index long enough for a place.
fn make_room(lists: &mut Vec<Option<SortId>>, place: usize) -> Result<(), NoMemory>
    ensures kept { (k : ℕ) → get_or lists.new.items k None ≡ get_or lists.old.items k None }
    ensures room { OnOk result (place < length lists.new.items) }
{
    while lists.len() <= place {
        lists.push(None)?;
    }
    Ok(())
}
