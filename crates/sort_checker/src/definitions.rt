//! The definitions of a text's processes in code, and its `init`.

ghost use Rattle.std.specs.Prelude.{◌≡◌, ◌++◌, List, [], map, option_map, IfOk, IfSome, OnOk};
ghost use Rattle.std.specs.List.{AllByRecursion, flat_map};
ghost use Rattle.mcrl2_syntax.specs.Declarations.{plain_decl};
ghost use Rattle.process_terms.specs.PlainProcesses.{plain_definition, plain_process};
ghost use Rattle.sort_table.specs.DeclarationTrees.{declaration_of};
ghost use Rattle.sort_table.specs.Expressions.{Name};
ghost use Rattle.sort_checker.specs.Additions.{GoesOn};
ghost use Rattle.sort_checker.specs.FullVocabularies.{FullVocabulary, Written, process_by, processes_in};
ghost use Rattle.sort_checker.specs.Refusals.{first_from};
ghost use Rattle.sort_checker.specs.ReadyTrees.{IsReadyDeclaration};
ghost use Rattle.sort_checker.specs.CodeContexts.{IsReady, IsTableOver, Sees};
ghost use Rattle.sort_checker.specs.ElaboratedTexts.{IsReadyScoped, IsReadyProcess, declarations_listed, processes_at, numbered_processes, CanElaborateDefinitions, AreElaboratedDefinitions, initial_in, initial_term, initial_found, CanElaborateStart, IsElaboratedStart};

use crate::binders::{enter_groups, leave_to};
use crate::process_elaborating::process_of;
use crate::process_tables::ProcessTable;
use crate::scoped_declarations::ScopedDecl;
use crate::word_numbers::word_number;
use data_theory::{NoMemory, Signature};
use data_typing::scope::Scope;
use data_typing::sort_tables::SortTables;
use mcrl2_syntax::{Decl, ProcTree};
use process_terms::{Proc, ProcDef};
use std::alloc::Global;
use term_pool::Pool;

/// Puts the definition of a declaration with this number behind the others, where it defines a process.
fn add_definition<'a>(
    alloc: Global,
    sig: &mut Signature,
    pool: &mut Pool,
    tables: &mut SortTables,
    scope: &mut Scope,
    processes: &ProcessTable<'a>,
    definitions: &mut Vec<ProcDef>,
    number: usize,
    declaration: &'a Decl,
) -> Result<(), NoMemory>
    requires ready { IsReady sig.old pool.old tables.old scope.old }
    requires empty { scope.old ≡ [] }
    requires table { IsTableOver sig.old processes.now }
    requires words { IsReadyDeclaration sig.old.texts (plain_decl declaration.now) }
    requires elaborates { CanElaborateDefinitions sig.old processes.now (process_by (declaration_of declaration.now)) }
    ensures kept { GoesOn sig.old pool.old sig.new pool.new }
    ensures ready { OnOk result (IsReady sig.new pool.new tables.new scope.new) }
    ensures empty { OnOk result (scope.new ≡ []) }
    ensures means { OnOk result ((v : FullVocabulary) (ws : List (_ × Written)) → Sees sig.old processes.now [] v [] → AreElaboratedDefinitions v sig.old pool.old ws (map plain_definition definitions.old.items) → AreElaboratedDefinitions v sig.new pool.new (ws ++ processes_at (number, declaration_of declaration.now)) (map plain_definition definitions.new.items)) }
{
    let Decl::Proc(_, name, groups, body) = declaration else {
        return Ok(());
    };
    let params = enter_groups(alloc, sig, pool, tables, scope, groups.as_slice())?;
    let body = process_of(alloc, sig, pool, tables, scope, processes, body)?;
    leave_to(scope, 0);
    let name = word_number(sig, name);
    definitions.push(ProcDef {
        name,
        params,
        body,
        declaration: number,
    })?;
    Ok(())
}

/// The definitions of these declarations, of which the first has the number 1.
///
/// # Errors
///
/// `NoMemory` where there is none for them.
pub(crate) fn definitions<'a>(
    alloc: Global,
    sig: &mut Signature,
    pool: &mut Pool,
    tables: &mut SortTables,
    processes: &ProcessTable<'a>,
    list: &[ScopedDecl<'a>],
) -> Result<Vec<ProcDef>, NoMemory>
    requires ready { IsReady sig.old pool.old tables.old [] }
    requires table { IsTableOver sig.old processes.now }
    requires words { AllByRecursion (IsReadyScoped sig.old.texts) list.now }
    requires elaborate { CanElaborateDefinitions sig.old processes.now (processes_in (declarations_listed list.now)) }
    ensures kept { GoesOn sig.old pool.old sig.new pool.new }
    ensures ready { OnOk result (IsReady sig.new pool.new tables.new []) }
    ensures means { IfOk result (λ made. (v : FullVocabulary) → Sees sig.old processes.now [] v [] → AreElaboratedDefinitions v sig.new pool.new (numbered_processes 1 (declarations_listed list.now)) (map plain_definition made.items)) }
{
    let mut scope = Scope::new(alloc);
    let mut made = Vec::new(alloc);
    for i in 0..list.len() {
        let declaration = list[i].declaration;
        add_definition(
            alloc,
            sig,
            pool,
            tables,
            &mut scope,
            processes,
            &mut made,
            i + 1,
            declaration,
        )?;
    }
    Ok(made)
}

/// The process term of an `init`.
fn initial_of<'a>(declaration: &'a Decl) -> Option<&'a ProcTree>
    ensures term { option_map initial_term result ≡ initial_in (declaration_of declaration.now) }
    ensures ready { IfSome result (λ p. (texts : List Name) → IsReadyDeclaration texts (plain_decl declaration.now) → IsReadyProcess texts p.now) }
{
    match declaration {
        Decl::Init(_, process) => Some(process),
        _ => None,
    }
}

/// The first `init` of these declarations, with its number. The first declaration has the number 1.
fn first_initial<'a>(list: &[ScopedDecl<'a>]) -> Option<(usize, &'a ProcTree)>
    ensures found { option_map initial_found result ≡ first_from initial_in 1 (declarations_listed list.now) }
    ensures ready { IfSome result (λ r. (texts : List Name) → AllByRecursion (IsReadyScoped texts) list.now → IsReadyProcess texts r.1.now) }
{
    for i in 0..list.len() {
        if let Some(process) = initial_of(list[i].declaration) {
            return Some((i + 1, process));
        }
    }
    None
}

/// The process term that starts, which is that of the first `init`, with the number of its declaration.
///
/// # Errors
///
/// `NoMemory` where there is none for it.
pub(crate) fn start<'a>(
    alloc: Global,
    sig: &mut Signature,
    pool: &mut Pool,
    tables: &mut SortTables,
    processes: &ProcessTable<'a>,
    list: &[ScopedDecl<'a>],
) -> Result<(usize, Proc), NoMemory>
    requires ready { IsReady sig.old pool.old tables.old [] }
    requires table { IsTableOver sig.old processes.now }
    requires words { AllByRecursion (IsReadyScoped sig.old.texts) list.now }
    requires elaborates { CanElaborateStart sig.old processes.now (declarations_listed list.now) }
    ensures kept { GoesOn sig.old pool.old sig.new pool.new }
    ensures ready { OnOk result (IsReady sig.new pool.new tables.new []) }
    ensures means { IfOk result (λ made. (v : FullVocabulary) → Sees sig.old processes.now [] v [] → IsElaboratedStart v sig.new pool.new (declarations_listed list.now) made.0 (plain_process made.1)) }
{
    let Some((number, tree)) = first_initial(list) else {
        unreachable!();
    };
    let mut scope = Scope::new(alloc);
    let process = process_of(alloc, sig, pool, tables, &mut scope, processes, tree)?;
    Ok((number, process))
}
