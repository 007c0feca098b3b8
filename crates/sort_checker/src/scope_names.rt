//! The names of the variables in scope.

use crate::name_numbers::NameNumbers;
use data_theory::NoMemory;
use std::alloc::Global;
use std::marker::Model;

/// The names of the variables in scope, the innermost last. What left the scope stays in the map, whose places are looked at again.
#[derive(Drop)]
pub(crate) struct ScopeNames<'a> {
    names: Vec<&'a [u8]>,
    places: NameNumbers<'a>,
}

impl<'a> Model for ScopeNames<'a> {
    ghost use Rattle.std.specs.Prelude.{List, ℕ, map};
    ghost use Rattle.sort_checker.specs.ScopeNames.{KnowsPlaces};

    ghost Value = { List (List ℕ) };

    ghost view = { λ s. map (λ n. n.now) s.names.items };

    ghost invariant = { λ s. KnowsPlaces s.places (map (λ n. n.now) s.names.items) };
}

impl<'a> ScopeNames<'a> {
    ghost use Rattle.std.specs.Prelude.{◌≡◌, ◌++◌, ◌∷◌, ◌-◌, [], length, take, OnOk};
    ghost use Rattle.sort_checker.specs.Operators.{stands_in};

    /// No variables.
    pub(crate) fn new(alloc: Global) -> ScopeNames<'a>
        ensures { result ≡ [] }
    {
        ScopeNames {
            names: Vec::new(alloc),
            places: NameNumbers::new(alloc),
        }
    }

    /// Whether a variable of this name is in scope.
    pub(crate) fn has(&self, name: &'a [u8]) -> bool
        ensures { result ≡ stands_in name.now self.now }
    {
        let Some(place) = self.places.get(name) else {
            return false;
        };
        if place >= self.names.len() {
            return false;
        }
        self.names[place] == name
    }

    /// A variable of this name comes into scope.
    ///
    /// # Errors
    ///
    /// `NoMemory` where there is none for it.
    pub(crate) fn enter(&mut self, name: &'a [u8]) -> Result<(), NoMemory>
        ensures { OnOk result (self.new ≡ self.old ++ name.now ∷ []) }
    {
        if self.has(name) {
            self.names.push(name)?;
            return Ok(());
        }
        self.places.put(name, self.names.len())?;
        self.names.push(name)?;
        Ok(())
    }

    /// So many variables leave the scope, the innermost first.
    pub(crate) fn leave(&mut self, count: usize)
        ensures { self.new ≡ take (length self.old - count) self.old }
    {
        let left = self.names.len().saturating_sub(count);
        self.names.truncate(left);
    }
}
