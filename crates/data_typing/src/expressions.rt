//! Expressions that were read, and what they are asked.

ghost use Rattle.std.specs.Prelude.{IfOk};
ghost use Rattle.mcrl2_syntax.specs.DataTrees.{plain_data};
ghost use Rattle.sort_table.specs.BareData.{bare_data};
ghost use Rattle.sort_table.specs.SignatureVocabularies.{vocabulary_of};
ghost use Rattle.data_typing.specs.Meanings.{typing_in};
ghost use Rattle.data_typing.specs.CodeWords.{scope_of};
ghost use Rattle.data_typing.specs.Readings.{IsReadable};
ghost use Rattle.data_typing.specs.Contexts.{AreTablesOf, IsScopeOver, IsReadingOf};

use crate::nodes::{Reading, infer_all, no_nodes};
use crate::reading::read;
use crate::scope::Scope;
use crate::sort_tables::SortTables;
use crate::word_table::{WordContext, WordTable};
use data_theory::{NoMemory, Signature};
use mcrl2_syntax::DataTree;
use std::alloc::Global;

/// Reads an expression over a signature, where these variables are in scope. Nothing is added to the signature.
pub fn read_expression(
    alloc: Global,
    sig: &Signature,
    tables: &SortTables,
    scope: &Scope,
    tree: &DataTree,
) -> Result<Reading, NoMemory>
    requires tables { AreTablesOf sig.now tables.now }
    requires scope { IsScopeOver sig.now scope.now }
    requires tree { IsReadable (plain_data tree.now) }
    ensures { IfOk result (λ r. IsReadingOf sig.now r (typing_in (vocabulary_of sig.now) (scope_of sig.now.texts scope.now) (bare_data (plain_data tree.now)))) }
{
    let context = WordContext {
        sig,
        flats: tables.flats.as_slice(),
        scope,
    };
    let mut nodes = no_nodes(alloc);
    let mut words = WordTable::new(alloc);
    let at = read(alloc, &context, &mut nodes, &mut words, tree)?;
    let known = infer_all(alloc, nodes.as_slice())?;
    Ok(Reading { nodes, known, at })
}
