//! The table of texts.

use crate::ids::NameId;
use crate::no_memory::NoMemory;
use std::alloc::Global;
use std::collections::BTreeMap;
use std::marker::Model;

/// A table of different texts. A text keeps its place, and two places have two texts. The index is ordered, so that no
/// choice of texts makes a look-up slow. It knows the place of each text, and may still know texts that were cut off.
#[derive(Drop)]
pub struct Names {
    texts: Vec<String>,
    index: BTreeMap<String, usize>,
    alloc: Global,
}

impl Model for Names {
    ghost use Rattle.std.specs.Prelude.{List, ℕ, map};
    ghost use Rattle.std.specs.String.{string_bytes};
    ghost use Rattle.std.specs.BTreeMap.{get_by_text};
    ghost use Rattle.data_theory.specs.Places.{KnowsPlaces};

    ghost Value = { List (List ℕ) };

    ghost view = { λ table. map string_bytes table.texts.items };

    ghost invariant = { λ table. KnowsPlaces (get_by_text table.index) (map string_bytes table.texts.items) };
}

impl Names {
    ghost use Rattle.std.specs.Prelude.{◌≡◌, ◌<◌, [], length, IfOk, MatchOption, OnOk, OnErr, slice_get, Some, take};
    ghost use Rattle.std.specs.List.{Contains};
    ghost use Rattle.data_theory.specs.Names.{AreDifferent, Enters};

    /// The empty table.
    pub fn new(alloc: Global) -> Names
        ensures { result ≡ [] }
    {
        Names {
            texts: Vec::new(alloc),
            index: BTreeMap::new(alloc),
            alloc,
        }
    }

    /// The place of a text, where the table has it.
    pub fn find(&self, text: &str) -> Option<NameId>
        ensures found { MatchOption result (¬ (Contains self.now text.now)) (λ name. slice_get self.now name.0 ≡ Some text.now) }
        ensures different { AreDifferent self.now }
    {
        let place = *self.index.get(text)?;
        if place < self.texts.len() && self.texts[place].as_str() == text {
            Some(NameId(place))
        } else {
            None
        }
    }

    /// The text at a place.
    pub fn text(&self, name: NameId) -> &str
        requires { name.0 < length self.now }
        ensures { slice_get self.now name.0 ≡ Some result.now }
    {
        self.texts[name.0].as_str()
    }

    /// The place of a text, which is added behind the others where the table hasn't it.
    pub fn enter(&mut self, text: &str) -> Result<NameId, NoMemory>
        ensures entered { OnOk result (Enters self.old text.now self.new) }
        ensures place { IfOk result (λ name. slice_get self.new name.0 ≡ Some text.now) }
        ensures different { AreDifferent self.new }
        ensures unchanged { OnErr result (self.new ≡ self.old) }
    {
        if let Some(name) = self.find(text) {
            return Ok(name);
        }
        let place = self.texts.len();
        let key = String::from_str(self.alloc, text)?;
        let stored = String::from_str(self.alloc, text)?;
        self.index.insert(key, place)?;
        self.texts.push(stored)?;
        Ok(NameId(place))
    }

    /// Says what each table keeps: no text stands at two places.
    pub(crate) fn differ(&self)
        ensures { AreDifferent self.now }
    {
        let _texts = &self.texts;
    }

    /// How many there are.
    pub(crate) fn len(&self) -> usize
        ensures { result ≡ length self.now }
    {
        self.texts.len()
    }

    /// Keeps the first texts alone.
    pub(crate) fn truncate(&mut self, length: usize)
        ensures { self.new ≡ take length self.old }
    {
        self.texts.truncate(length);
    }
}
