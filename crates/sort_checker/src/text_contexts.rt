//! What is looked up of a text when its parts are typed.

ghost use Rattle.std.specs.Prelude.{◌≡◌, IfOk};
ghost use Rattle.mcrl2_syntax.specs.Declarations.{spec_of};
ghost use Rattle.sort_table.specs.BareDeclarations.{bare_sections};
ghost use Rattle.sort_checker.specs.FullVocabularies.{FullVocabulary, IsOver};
ghost use Rattle.sort_checker.specs.ReadyTrees.{AreReadySections};
ghost use Rattle.sort_checker.specs.TextContexts.{IsContext, IsContextOver};

use crate::action_tables::ActionTable;
use crate::parameter_tables::{ParameterTable, parameter_table};
use data_theory::{NoMemory, Signature};
use data_typing::sort_tables::{SortTables, sort_tables};
use mcrl2_syntax::Spec;
use std::alloc::Global;

/// The signature of a text, with its sorts as typing takes them, and its processes and actions by name.
#[derive(Drop)]
pub(crate) struct TextContext<'a> {
    pub(crate) sig: &'a Signature,
    pub(crate) sorts: SortTables,
    pub(crate) processes: ParameterTable<'a>,
    pub(crate) actions: ActionTable<'a>,
}

/// The context of a text over its signature.
///
/// # Errors
///
/// `NoMemory` where there is none for the tables.
pub(crate) fn text_context<'a>(
    alloc: Global,
    sig: &'a Signature,
    spec: &'a Spec,
) -> Result<TextContext<'a>, NoMemory>
    requires { AreReadySections sig.now.texts spec.now.sections.items }
    ensures sig { IfOk result (λ context. context.sig.now ≡ sig.now) }
    ensures context { IfOk result IsContext }
    ensures over { IfOk result (λ context. (v : FullVocabulary) → IsOver sig.now (bare_sections (spec_of spec.now)) v → IsContextOver v context) }
{
    let sorts = sort_tables(alloc, sig)?;
    let processes = parameter_table(alloc, sig, &sorts, spec)?;
    let actions = ActionTable::new(alloc, sig)?;
    Ok(TextContext {
        sig,
        sorts,
        processes,
        actions,
    })
}
