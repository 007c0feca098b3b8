//! Arguments that are read before it is known at which sorts they are wanted, and their terms.

ghost use Rattle.std.specs.Prelude.{◌≡◌, List, Some, map, option_map, IfOk, OnOk};
ghost use Rattle.std.specs.List.{AllByRecursion};
ghost use Rattle.data_theory.specs.Environments.{list_of};
ghost use Rattle.data_theory.specs.Terms.{Term};
ghost use Rattle.data_theory.specs.Signature.{Sig};
ghost use Rattle.mcrl2_syntax.specs.DataTrees.{plain_data};
ghost use Rattle.mcrl2_syntax.specs.TreeWords.{IsDataOfWords};
ghost use Rattle.sort_table.specs.SignatureVocabularies.{vocabulary_of};
ghost use Rattle.data_typing.specs.declared.scope.Bound.{Bound};
ghost use Rattle.data_typing.specs.CodeSteps.{wish_of};
ghost use Rattle.data_typing.specs.CodeWords.{scope_of};
ghost use Rattle.data_typing.specs.Contexts.{AreTablesOf, IsScopeOver, IsFlatOver, IsWantedOver, IsRead, IsReadOver, IsReadingOf};
ghost use Rattle.data_typing.specs.FlatSorts.{flat_sort};
ghost use Rattle.data_typing.specs.Making.{wished};
ghost use Rattle.data_typing.specs.Meanings.{typing_in};
ghost use Rattle.data_typing.specs.Readings.{bare_trees};
ghost use Rattle.data_typing.specs.Typings.{Typing, all_at};
ghost use Rattle.sort_checker.specs.Additions.{GoesOn};
ghost use Rattle.sort_checker.specs.CodeContexts.{IsReady, IsWished};
ghost use Rattle.sort_checker.specs.ElaboratedParts.{AreTerms};
ghost use Rattle.sort_checker.specs.ReadArguments.{HaveTermsAt};
ghost use Rattle.sort_checker.specs.TypedTrees.{AreReadings, how_of};
ghost use Rattle.sort_checker.specs.TypedLabels.{AreFoundIn};

use crate::typed_parts::Way;
use data_theory::{NoMemory, Signature, TermId};
use data_typing::elaborating::term_of;
use data_typing::expressions::read_expression;
use data_typing::flat_sorts::FlatSort;
use data_typing::nodes::Reading;
use data_typing::scope::Scope;
use data_typing::sort_tables::SortTables;
use data_typing::standing::term_over;
use data_typing::steps::Wanted;
use mcrl2_syntax::DataTree;
use std::alloc::Global;
use term_pool::Pool;

/// Reads expressions over a signature, where these variables are in scope.
///
/// # Errors
///
/// `NoMemory` where there is none for what is read.
pub(crate) fn readings_of(
    alloc: Global,
    sig: &Signature,
    tables: &SortTables,
    scope: &Scope,
    trees: &[DataTree],
) -> Result<Vec<Reading>, NoMemory>
    requires tables { AreTablesOf sig.now tables.now }
    requires scope { IsScopeOver sig.now scope.now }
    requires words { AllByRecursion IsDataOfWords (map plain_data trees.now) }
    ensures { IfOk result (λ list. AreReadings sig.now list.items (map (typing_in (vocabulary_of sig.now) (scope_of sig.now.texts scope.now)) (bare_trees trees.now))) }
{
    let mut list = Vec::new(alloc);
    for tree in trees {
        list.push(read_expression(alloc, sig, tables, scope, tree)?)?;
    }
    Ok(list)
}

/// The term of an expression that was read, at the sort that it infers or at the one that is wanted, where it has one there.
///
/// # Errors
///
/// `NoMemory` where there is none for the term.
pub(crate) fn reading_term(
    alloc: Global,
    sig: &mut Signature,
    pool: &mut Pool,
    tables: &mut SortTables,
    reading: &Reading,
    wanted: Wanted,
) -> Result<Option<TermId>, NoMemory>
    requires ready { (bs : List Bound) × IsReady sig.old pool.old tables.old bs }
    requires reading { IsReadOver sig.old reading.now }
    requires wanted { IsWantedOver sig.old wanted }
    ensures kept { GoesOn sig.old pool.old sig.new pool.new }
    ensures ready { OnOk result ((bs : List Bound) → IsReady sig.old pool.old tables.old bs → IsReady sig.new pool.new tables.new bs) }
    ensures means { IfOk result (λ found. (t : Typing) → IsReadingOf sig.old reading.now t → IsWished sig.new pool.new (wished (wish_of wanted) t) found) }
{
    let _ = sig.next_sort();
    let term = term_of(alloc, sig, pool, tables, reading, wanted)?;
    Ok(term)
}

/// What is wanted of an argument that fits its sort in this way.
fn wanted_in(way: Way, sort: FlatSort) -> Wanted
    ensures over { (g : Sig) → IsFlatOver g sort → IsWantedOver g result }
    ensures wished { (t : Typing) (u : Term) → how_of way (flat_sort sort) t ≡ Some u → wished (wish_of result) t ≡ Some u }
{
    match way {
        Way::Exactly => Wanted::Inferred,
        Way::Checked => Wanted::At(sort),
    }
}

/// The terms of arguments that were read, each of which fits its sort in this way.
///
/// # Errors
///
/// `NoMemory` where there is none for the terms.
pub(crate) fn terms_at(
    alloc: Global,
    sig: &mut Signature,
    pool: &mut Pool,
    tables: &mut SortTables,
    readings: &[Reading],
    sorts: &[FlatSort],
    way: Way,
) -> Result<Vec<TermId>, NoMemory>
    requires ready { (bs : List Bound) × IsReady sig.old pool.old tables.old bs }
    requires sorts { AllByRecursion (IsFlatOver sig.old) sorts.now }
    requires fit { (ts : List Typing) × AreReadings sig.old readings.now ts × (us : List Term) × HaveTermsAt (how_of way) (map flat_sort sorts.now) ts us }
    ensures kept { GoesOn sig.old pool.old sig.new pool.new }
    ensures ready { OnOk result ((bs : List Bound) → IsReady sig.old pool.old tables.old bs → IsReady sig.new pool.new tables.new bs) }
    ensures means { IfOk result (λ ids. (ts : List Typing) (us : List Term) → AreReadings sig.old readings.now ts → HaveTermsAt (how_of way) (map flat_sort sorts.now) ts us → AreTerms sig.new pool.new ids.items us) }
{
    let mut terms = Vec::new(alloc);
    for i in 0..readings.len() {
        let wanted = wanted_in(way, sorts[i]);
        let Some(term) = reading_term(alloc, sig, pool, tables, &readings[i], wanted)? else {
            unreachable!();
        };
        terms.push(term)?;
    }
    Ok(terms)
}

/// The terms of arguments that were read, each of which fits its sort in this way, over a signature to which nothing is added. There are none
/// where the sort of a subterm isn't in the signature.
///
/// # Errors
///
/// `NoMemory` where there is none for the terms.
pub(crate) fn terms_over(
    alloc: Global,
    sig: &Signature,
    pool: &mut Pool,
    tables: &SortTables,
    readings: &[Reading],
    sorts: &[FlatSort],
    way: Way,
) -> Result<Option<Vec<TermId>>, NoMemory>
    requires ready { (bs : List Bound) × IsReady sig.now pool.old tables.now bs }
    requires sorts { AllByRecursion (IsFlatOver sig.now) sorts.now }
    requires fit { (ts : List Typing) × AreReadings sig.now readings.now ts × (us : List Term) × HaveTermsAt (how_of way) (map flat_sort sorts.now) ts us }
    ensures kept { GoesOn sig.now pool.old sig.now pool.new }
    ensures ready { OnOk result ((bs : List Bound) → IsReady sig.now pool.old tables.now bs → IsReady sig.now pool.new tables.now bs) }
    ensures means { IfOk result (λ found. (ts : List Typing) (us : List Term) → AreReadings sig.now readings.now ts → HaveTermsAt (how_of way) (map flat_sort sorts.now) ts us → AreFoundIn sig.now pool.new (map flat_sort sorts.now) us (option_map (λ ids. ids.items) found)) }
{
    let mut terms = Vec::new(alloc);
    for i in 0..readings.len() {
        let wanted = wanted_in(way, sorts[i]);
        let Some(term) = term_over(alloc, sig, pool, tables, &readings[i], wanted)? else {
            return Ok(None);
        };
        terms.push(term)?;
    }
    Ok(Some(terms))
}
