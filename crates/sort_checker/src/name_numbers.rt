//! Numbers under names.

ghost use Rattle.std.specs.Prelude.{◌≡◌, None, Some, cond, bytes_eq, OnOk, OnErr};
ghost use Rattle.sort_table.specs.Expressions.{Name};
ghost use Rattle.sort_checker.specs.NameNumbers.{number_under};

use data_theory::NoMemory;
use std::alloc::Global;
use std::collections::BTreeMap;

/// A number under each of some names. It is ordered, so that no choice of names makes a look-up slow.
#[derive(Drop)]
pub(crate) struct NameNumbers<'a> {
    pub(crate) numbers: BTreeMap<&'a [u8], usize>,
}

impl<'a> NameNumbers<'a> {
    /// No names.
    pub(crate) fn new(alloc: Global) -> NameNumbers<'a>
        ensures { (n : Name) → number_under result n ≡ None }
    {
        NameNumbers {
            numbers: BTreeMap::new(alloc),
        }
    }

    /// The number under a name.
    pub(crate) fn get(&self, name: &'a [u8]) -> Option<usize>
        ensures { result ≡ number_under self.now name.now }
    {
        match self.numbers.get(&name) {
            Some(number) => Some(*number),
            None => None,
        }
    }

    /// Puts a number under a name, in the place of the one that it had.
    ///
    /// # Errors
    ///
    /// `NoMemory` where there is none for it.
    pub(crate) fn put(&mut self, name: &'a [u8], number: usize) -> Result<(), NoMemory>
        ensures put { OnOk result ((n : Name) → number_under self.new n ≡ cond (bytes_eq name.now n) (Some number) (number_under self.old n)) }
        ensures unchanged { OnErr result ((n : Name) → number_under self.new n ≡ number_under self.old n) }
    {
        self.numbers.insert(name, number)?;
        Ok(())
    }
}
