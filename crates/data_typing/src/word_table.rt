//! What words are looked up in, and the functions of those that were.

ghost use Rattle.std.specs.Prelude.{◌≡◌, None, Some, cond, bytes_eq, option_map, IfOk, OnOk};
ghost use Rattle.std.specs.Rc.{rc_value};
ghost use Rattle.sort_table.specs.Expressions.{Name};
ghost use Rattle.data_typing.specs.WordTables.{functions_under};

use crate::flat_sorts::FlatSort;
use crate::nodes::WordFunctions;
use crate::scope::Scope;
use data_theory::{NoMemory, Signature};
use std::alloc::Global;
use std::collections::BTreeMap;
use std::rc::Rc;

/// What words are looked up in: a signature, what its sorts are, and the variables in scope.
#[derive(Clone, Copy)]
pub struct WordContext<'c> {
    pub sig: &'c Signature,
    pub flats: &'c [FlatSort],
    pub scope: &'c Scope,
}

/// The functions of words, so that all nodes of a word share them. It is ordered, so that no choice of words makes a look-up slow.
#[derive(Drop)]
pub struct WordTable<'a> {
    pub(crate) functions: BTreeMap<&'a str, Rc<WordFunctions>>,
}

impl<'a> WordTable<'a> {
    /// No words.
    pub fn new(alloc: Global) -> WordTable<'a>
        ensures { (x : Name) → functions_under result x ≡ None }
    {
        WordTable {
            functions: BTreeMap::new(alloc),
        }
    }

    /// The functions of a word, where the table has them.
    pub fn get(&self, text: &'a str) -> Result<Option<Rc<WordFunctions>>, NoMemory>
        ensures { IfOk result (λ found. option_map rc_value found ≡ functions_under self.now text.now) }
    {
        match self.functions.get(&text) {
            Some(functions) => {
                let shared = functions.clone()?;
                Ok(Some(shared))
            }
            None => Ok(None),
        }
    }

    /// Puts the functions of a word into the table, and shares them.
    pub fn enter(
        &mut self,
        alloc: Global,
        text: &'a str,
        functions: WordFunctions,
    ) -> Result<Rc<WordFunctions>, NoMemory>
        ensures shared { IfOk result (λ shared. rc_value shared ≡ functions) }
        ensures entered { OnOk result ((x : Name) → functions_under self.new x ≡ cond (bytes_eq text.now x) (Some functions) (functions_under self.old x)) }
    {
        let shared = Rc::new(alloc, functions)?;
        let kept = shared.clone()?;
        self.functions.insert(text, kept)?;
        Ok(shared)
    }
}
