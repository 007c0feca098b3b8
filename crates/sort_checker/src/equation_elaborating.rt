//! Equations in code, from trees.

ghost use Rattle.std.specs.Prelude.{◌≡◌, ◌++◌, ◌∷◌, [], map, IfOk, OnOk};
ghost use Rattle.mcrl2_syntax.specs.DataTrees.{plain_data};
ghost use Rattle.mcrl2_syntax.specs.Declarations.{plain_decl, some_data};
ghost use Rattle.mcrl2_syntax.specs.TreeWords.{IsDataOfWords, IsConditionOfWords};
ghost use Rattle.process_terms.specs.PlainProcesses.{plain_equation};
ghost use Rattle.sort_table.specs.BareData.{bare_data};
ghost use Rattle.sort_table.specs.BareDeclarations.{bare_condition};
ghost use Rattle.sort_table.specs.DeclarationTrees.{declaration_of};
ghost use Rattle.sort_table.specs.SignatureVocabularies.{vocabulary_of};
ghost use Rattle.data_typing.specs.Contexts.{AreTablesOf, IsFlatOver, IsScopeOver, IsWantedOver};
ghost use Rattle.sort_checker.specs.Additions.{GoesOn};
ghost use Rattle.sort_checker.specs.FullVocabularies.{FullVocabulary};
ghost use Rattle.sort_checker.specs.Parts.{variables_by};
ghost use Rattle.sort_checker.specs.PartTypings.{condition_at};
ghost use Rattle.sort_checker.specs.ReadyTrees.{IsReadyDeclaration, AreReadyDeclarations};
ghost use Rattle.sort_checker.specs.ScopedTrees.{variables_under};
ghost use Rattle.sort_checker.specs.SoundTexts.{HaveSorts};
ghost use Rattle.sort_checker.specs.CodeContexts.{IsReady, AreBound, EnterBehind};
ghost use Rattle.sort_checker.specs.ElaboratedTexts.{HasTermHere, IsTermHere, HaveSidesHere, IsSideSort, AreSidesHere, written_equation, CanElaborateEquations, IsElaboratedEquation};

use crate::binders::{enter_groups, leave_to};
use crate::wished_terms::{condition_term, typed_term};
use data_theory::{FunId, NoMemory, Signature, TermId, VarId};
use data_typing::expressions::read_expression;
use data_typing::flat_sorts::FlatSort;
use data_typing::scope::Scope;
use data_typing::sort_tables::SortTables;
use data_typing::steps::Wanted;
use mcrl2_syntax::{DataTree, Decl, EquationTree};
use std::alloc::Global;
use term_pool::{Equation, Head, Pool};

/// `true`
const TRUE: FunId = FunId(6);

/// The variables that a declaration declares come into scope, and stand behind the others that did. Each gets a new number.
fn enter_declaration(
    alloc: Global,
    sig: &mut Signature,
    pool: &Pool,
    tables: &mut SortTables,
    scope: &mut Scope,
    variables: &mut Vec<VarId>,
    declaration: &Decl,
) -> Result<(), NoMemory>
    requires ready { IsReady sig.old pool.now tables.old scope.old }
    requires words { IsReadyDeclaration sig.old.texts (plain_decl declaration.now) }
    requires sorts { HaveSorts (vocabulary_of sig.old) (variables_by (declaration_of declaration.now)) }
    ensures kept { GoesOn sig.old pool.now sig.new pool.now }
    ensures ready { OnOk result (IsReady sig.new pool.now tables.new scope.new) }
    ensures bound { OnOk result (EnterBehind sig.old scope.old variables.old.items (variables_by (declaration_of declaration.now)) sig.new scope.new variables.new.items) }
{
    let Decl::Vars(_, groups) = declaration else {
        return Ok(());
    };
    let mut more = enter_groups(alloc, sig, pool, tables, scope, groups.as_slice())?;
    variables.append(&mut more)?;
    Ok(())
}

/// The variables that these declarations declare come into scope. Each gets a new number.
fn enter_section(
    alloc: Global,
    sig: &mut Signature,
    pool: &Pool,
    tables: &mut SortTables,
    scope: &mut Scope,
    declarations: &[Decl],
) -> Result<Vec<VarId>, NoMemory>
    requires ready { IsReady sig.old pool.now tables.old scope.old }
    requires words { AreReadyDeclarations sig.old.texts declarations.now }
    requires sorts { HaveSorts (vocabulary_of sig.old) (variables_under declarations.now) }
    ensures kept { GoesOn sig.old pool.now sig.new pool.now }
    ensures ready { OnOk result (IsReady sig.new pool.now tables.new scope.new) }
    ensures bound { IfOk result (λ ids. AreBound sig.old scope.old (variables_under declarations.now) sig.new scope.new ids.items) }
{
    let mut variables = Vec::new(alloc);
    for declaration in declarations {
        enter_declaration(alloc, sig, pool, tables, scope, &mut variables, declaration)?;
    }
    Ok(variables)
}

/// The term of an equation's condition. One that isn't written is `true`.
fn condition_or_true(
    alloc: Global,
    sig: &mut Signature,
    pool: &mut Pool,
    tables: &mut SortTables,
    scope: &Scope,
    condition: &Option<Box<DataTree>>,
) -> Result<TermId, NoMemory>
    requires ready { IsReady sig.old pool.old tables.old scope.now }
    requires words { IsConditionOfWords (some_data condition.now) }
    requires typed { HasTermHere sig.old scope.now (λ v variables. condition_at v variables (bare_condition (some_data condition.now))) }
    ensures kept { GoesOn sig.old pool.old sig.new pool.new }
    ensures ready { OnOk result (IsReady sig.new pool.new tables.new scope.now) }
    ensures means { IfOk result (IsTermHere sig.old scope.now (λ v variables. condition_at v variables (bare_condition (some_data condition.now))) sig.new pool.new) }
{
    match condition {
        Some(tree) => condition_term(alloc, sig, pool, tables, scope, tree),
        None => {
            let _ = sig.next_sort();
            let term = pool.intern(Head::Fun(TRUE), &[])?;
            Ok(term)
        }
    }
}

/// The sort of both sides of an equation, and how the left side is wanted: the sort is what the left side infers, or else what the
/// right side infers.
fn side_sort(
    alloc: Global,
    sig: &Signature,
    tables: &SortTables,
    scope: &Scope,
    left: &DataTree,
    right: &DataTree,
) -> Result<(Wanted, FlatSort), NoMemory>
    requires tables { AreTablesOf sig.now tables.now }
    requires scope { IsScopeOver sig.now scope.now }
    requires left { IsDataOfWords (plain_data left.now) }
    requires right { IsDataOfWords (plain_data right.now) }
    requires typed { HaveSidesHere sig.now scope.now (bare_data (plain_data left.now)) (bare_data (plain_data right.now)) }
    ensures means { IfOk result (IsSideSort sig.now scope.now (bare_data (plain_data left.now)) (bare_data (plain_data right.now))) }
    ensures within { IfOk result (λ r. IsWantedOver sig.now r.0 × IsFlatOver sig.now r.1) }
{
    let reading = read_expression(alloc, sig, tables, scope, left)?;
    if let Some(sort) = reading.sort() {
        return Ok((Wanted::Inferred, sort));
    }
    let other = read_expression(alloc, sig, tables, scope, right)?;
    let Some(sort) = other.sort() else {
        unreachable!();
    };
    Ok((Wanted::At(sort), sort))
}

/// The terms of both sides of an equation.
fn sides_of(
    alloc: Global,
    sig: &mut Signature,
    pool: &mut Pool,
    tables: &mut SortTables,
    scope: &Scope,
    left: &DataTree,
    right: &DataTree,
) -> Result<(TermId, TermId), NoMemory>
    requires ready { IsReady sig.old pool.old tables.old scope.now }
    requires left { IsDataOfWords (plain_data left.now) }
    requires right { IsDataOfWords (plain_data right.now) }
    requires typed { HaveSidesHere sig.old scope.now (bare_data (plain_data left.now)) (bare_data (plain_data right.now)) }
    ensures kept { GoesOn sig.old pool.old sig.new pool.new }
    ensures ready { OnOk result (IsReady sig.new pool.new tables.new scope.now) }
    ensures means { IfOk result (AreSidesHere sig.old scope.now (bare_data (plain_data left.now)) (bare_data (plain_data right.now)) sig.new pool.new) }
{
    let (wanted, sort) = side_sort(alloc, sig, tables, scope, left, right)?;
    let left = typed_term(alloc, sig, pool, tables, scope, left, wanted)?;
    let right = typed_term(alloc, sig, pool, tables, scope, right, Wanted::At(sort))?;
    Ok((left, right))
}

/// The equation that a tree elaborates to, where these declarations stand in the section in front. No variable is in scope before, and
/// none behind.
///
/// # Errors
///
/// `NoMemory` where there is none for it.
pub(crate) fn equation_of(
    alloc: Global,
    sig: &mut Signature,
    pool: &mut Pool,
    tables: &mut SortTables,
    scope: &mut Scope,
    before: &[Decl],
    tree: &EquationTree,
) -> Result<Equation, NoMemory>
    requires ready { IsReady sig.old pool.old tables.old scope.old }
    requires empty { scope.old ≡ [] }
    requires before { AreReadyDeclarations sig.old.texts before.now }
    requires condition { IsConditionOfWords (some_data tree.now.condition) }
    requires left { IsDataOfWords (plain_data tree.now.left) }
    requires right { IsDataOfWords (plain_data tree.now.right) }
    requires elaborates { CanElaborateEquations sig.old (written_equation before.now tree.now ∷ []) }
    ensures kept { GoesOn sig.old pool.old sig.new pool.new }
    ensures ready { OnOk result (IsReady sig.new pool.new tables.new scope.new) }
    ensures empty { OnOk result (scope.new ≡ []) }
    ensures means { IfOk result (λ made. (v : FullVocabulary) → v.declared ≡ vocabulary_of sig.old → IsElaboratedEquation v sig.new pool.new (written_equation before.now tree.now) (plain_equation made)) }
{
    let vars = enter_section(alloc, sig, pool, tables, scope, before)?;
    let cond = condition_or_true(alloc, sig, pool, tables, scope, &tree.condition)?;
    let (left, right) = sides_of(alloc, sig, pool, tables, scope, &tree.left, &tree.right)?;
    leave_to(scope, 0);
    Ok(Equation {
        vars,
        cond,
        left,
        right,
    })
}
