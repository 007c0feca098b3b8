//! The first `comm` whose rules don't fit.

ghost use Rattle.std.specs.Prelude.{◌≡◌, ◌<◌, ◌&&◌, length, map, IfOk};
ghost use Rattle.std.specs.List.{All};
ghost use Rattle.data_theory.specs.IdTerms.{sort_under};
ghost use Rattle.mcrl2_syntax.specs.Declarations.{spec_of};
ghost use Rattle.mcrl2_syntax.specs.Words.{word_of};
ghost use Rattle.mcrl2_syntax.specs.ProcessTrees.{plain_process};
ghost use Rattle.sort_table.specs.BareProcesses.{bare_names, bare_process};
ghost use Rattle.sort_table.specs.BareDeclarations.{bare_sections};
ghost use Rattle.sort_table.specs.DeclarationTrees.{declaration_of};
ghost use Rattle.sort_table.specs.NamedLists.{all_named};
ghost use Rattle.sort_table.specs.SignatureVocabularies.{vocabulary_of};
ghost use Rattle.sort_checker.specs.FullVocabularies.{FullVocabulary};
ghost use Rattle.sort_checker.specs.Faults.{operators_of};
ghost use Rattle.sort_checker.specs.Operators.{operators_in, has_action, are_apart, rule_fits_at, rule_fits};
ghost use Rattle.sort_checker.specs.Refusals.{comm_fault};
ghost use Rattle.sort_checker.specs.NameNumbers.{has_name};
ghost use Rattle.sort_checker.specs.ActionTables.{GroupsActions};
ghost use Rattle.sort_checker.specs.CommTrees.{rule_at, rules_at, fault_among, fault_at, fault_along};
ghost use Rattle.sort_checker.specs.declared.stops.StopTree.TheVariants.{At};
ghost use Rattle.std.specs.List.{list_any, list_all};

use crate::action_tables::ActionTable;
use crate::left_sides::add_words;
use crate::name_numbers::NameNumbers;
use crate::scoped_declarations::scoped_list;
use crate::stops::{PartTree, StopTree, stops};
use data_theory::{NoMemory, Signature, SortId};
use mcrl2_syntax::{CommRule, Decl, ProcTree, Spec, Word};
use std::alloc::Global;

/// The first declaration with a `comm` in which a name stands in two left sides, or whose result isn't declared with sorts with which
/// all names of its left side are, as its number from 1.
///
/// # Errors
///
/// `NoMemory` where there is none for the names.
pub fn comm_shape<'a>(
    alloc: Global,
    sig: &'a Signature,
    spec: &'a Spec,
) -> Result<Option<usize>, NoMemory>
    ensures { IfOk result (λ found. (v : FullVocabulary) → v.declared ≡ vocabulary_of sig.now → found ≡ comm_fault v (bare_sections (spec_of spec.now))) }
{
    let table = ActionTable::new(alloc, sig)?;
    let declarations = scoped_list(alloc, spec)?;
    let mut number = 0;
    for declaration in declarations.as_slice() {
        number += 1;
        if fault_in_declaration(alloc, sig, &table, declaration.declaration)? {
            return Ok(Some(number));
        }
    }
    Ok(None)
}

/// Whether a declaration has a `comm` whose rules don't fit.
fn fault_in_declaration<'a>(
    alloc: Global,
    sig: &'a Signature,
    table: &ActionTable<'a>,
    declaration: &'a Decl,
) -> Result<bool, NoMemory>
    requires { GroupsActions sig.now sig.now.actions table.now.groups }
    ensures { IfOk result (λ found. found ≡ fault_among (vocabulary_of sig.now) (operators_of (declaration_of declaration.now))) }
{
    match declaration {
        Decl::Proc(_, _, _, process) | Decl::Init(_, process) => {
            fault_in_process(alloc, sig, table, process)
        }
        _ => Ok(false),
    }
}

/// Whether a process term has a `comm` whose rules don't fit.
fn fault_in_process<'a>(
    alloc: Global,
    sig: &'a Signature,
    table: &ActionTable<'a>,
    process: &'a ProcTree,
) -> Result<bool, NoMemory>
    requires { GroupsActions sig.now sig.now.actions table.now.groups }
    ensures { IfOk result (λ found. found ≡ fault_among (vocabulary_of sig.now) (operators_in (bare_process (plain_process process.now)))) }
{
    let list = stops(alloc, process)?;
    fault_along(alloc, sig, table, list.as_slice())
}

/// Whether one of these stops is a `comm` whose rules don't fit.
fn fault_along<'a>(
    alloc: Global,
    sig: &'a Signature,
    table: &ActionTable<'a>,
    stops: &[StopTree<'a>],
) -> Result<bool, NoMemory>
    requires { GroupsActions sig.now sig.now.actions table.now.groups }
    ensures { IfOk result (λ found. found ≡ fault_along (vocabulary_of sig.now) stops.now) }
{
    for stop in stops {
        if fault_at(alloc, sig, table, *stop)? {
            return Ok(true);
        }
    }
    Ok(false)
}

/// Whether a stop is a `comm` whose rules don't fit.
fn fault_at<'a>(
    alloc: Global,
    sig: &'a Signature,
    table: &ActionTable<'a>,
    stop: StopTree<'a>,
) -> Result<bool, NoMemory>
    requires { GroupsActions sig.now sig.now.actions table.now.groups }
    ensures { IfOk result (λ found. found ≡ fault_at (vocabulary_of sig.now) stop.entry) }
{
    match stop {
        StopTree::At(part) => fault_in_part(alloc, sig, table, part),
        StopTree::Enter(_) => Ok(false),
        StopTree::Leave(_) => Ok(false),
    }
}

/// Whether a part is a `comm` whose rules don't fit.
fn fault_in_part<'a>(
    alloc: Global,
    sig: &'a Signature,
    table: &ActionTable<'a>,
    part: PartTree<'a>,
) -> Result<bool, NoMemory>
    requires { GroupsActions sig.now sig.now.actions table.now.groups }
    ensures { IfOk result (λ found. found ≡ fault_at (vocabulary_of sig.now) (At part.entry)) }
{
    match part {
        PartTree::Comm(rules) => {
            let fit = rules_fit(alloc, sig, table, rules)?;
            Ok(!fit)
        }
        PartTree::Action(_) => Ok(false),
        PartTree::Multi(_) => Ok(false),
        PartTree::Call(_, _) => Ok(false),
        PartTree::Condition(_) => Ok(false),
        PartTree::Allow(_) => Ok(false),
        PartTree::Block(_) => Ok(false),
        PartTree::Hide(_) => Ok(false),
        PartTree::Rename(_) => Ok(false),
    }
}

/// Whether no name stands in two left sides, and each rule fits.
fn rules_fit<'a>(
    alloc: Global,
    sig: &'a Signature,
    table: &ActionTable<'a>,
    rules: &'a [CommRule],
) -> Result<bool, NoMemory>
    requires { GroupsActions sig.now sig.now.actions table.now.groups }
    ensures { IfOk result (λ fit. fit ≡ (are_apart (rules_at rules.now) && list_all (rule_fits (vocabulary_of sig.now)) (rules_at rules.now))) }
{
    if !are_apart(alloc, rules)? {
        return Ok(false);
    }
    for rule in rules {
        if !rule_fits(sig, table, rule) {
            return Ok(false);
        }
    }
    Ok(true)
}

/// Whether no name stands in two left sides. The rules are read from the last to the first.
fn are_apart<'a>(alloc: Global, rules: &'a [CommRule]) -> Result<bool, NoMemory>
    ensures { IfOk result (λ apart. apart ≡ are_apart (rules_at rules.now)) }
{
    let mut behind = NameNumbers::new(alloc);
    let mut left = rules.len();
    while left > 0 {
        left -= 1;
        let names = rules[left].names.as_slice();
        if has_one(&behind, names) {
            return Ok(false);
        }
        add_words(&mut behind, names)?;
    }
    Ok(true)
}

/// Whether one of these words is among the names.
fn has_one<'a>(names: &NameNumbers<'a>, words: &'a [Word]) -> bool
    ensures { result ≡ list_any (has_name names.now) (bare_names (map word_of words.now)) }
{
    for word in words {
        if names.get(word.bytes.as_slice()).is_some() {
            return true;
        }
    }
    false
}

/// Whether the result of a rule is declared with all sorts with which each name of its left side is.
fn rule_fits<'a>(sig: &'a Signature, table: &ActionTable<'a>, rule: &'a CommRule) -> bool
    requires { GroupsActions sig.now sig.now.actions table.now.groups }
    ensures { result ≡ rule_fits (vocabulary_of sig.now) (rule_at rule.now) }
{
    match rule.names.as_slice().first() {
        Some(first) => fits_with(sig, table, rule, first.bytes.as_slice()),
        None => fits_everywhere(sig, table, rule),
    }
}

/// The same, by the sorts of the actions of one name of the left side.
fn fits_with<'a>(
    sig: &'a Signature,
    table: &ActionTable<'a>,
    rule: &'a CommRule,
    name: &'a [u8],
) -> bool
    requires groups { GroupsActions sig.now sig.now.actions table.now.groups }
    ensures { result ≡ list_all (rule_fits_at (vocabulary_of sig.now) (rule_at rule.now)) (all_named name.now (vocabulary_of sig.now).actions) }
{
    let Some(group) = table.groups.get(&name) else {
        return true;
    };
    let _ = sig.next_sort();
    let actions = group.as_slice();
    for action in actions {
        if !fits_at(sig, table, rule, action.sorts.as_slice()) {
            return false;
        }
    }
    true
}

/// The same, by the sorts of all actions.
fn fits_everywhere<'a>(sig: &'a Signature, table: &ActionTable<'a>, rule: &'a CommRule) -> bool
    requires { GroupsActions sig.now sig.now.actions table.now.groups }
    ensures { result ≡ rule_fits (vocabulary_of sig.now) (rule_at rule.now) }
{
    let _ = sig.next_sort();
    for action in sig.acts() {
        if !fits_at(sig, table, rule, action.sorts.as_slice()) {
            return false;
        }
    }
    true
}

/// Whether the result is declared with these sorts, where all names of the left side are.
fn fits_at<'a>(
    sig: &'a Signature,
    table: &ActionTable<'a>,
    rule: &'a CommRule,
    sorts: &[SortId],
) -> bool
    requires groups { GroupsActions sig.now sig.now.actions table.now.groups }
    requires sorts { All (λ s. s.0 < length sig.now.sorts) sorts.now }
    ensures { result ≡ rule_fits_at (vocabulary_of sig.now) (rule_at rule.now) (map (sort_under sig.now) sorts.now) }
{
    for name in rule.names.as_slice() {
        if !has_action(sig, table, name.bytes.as_slice(), sorts) {
            return true;
        }
    }
    has_action(sig, table, rule.outcome.bytes.as_slice(), sorts)
}

/// Whether an action of this name is declared with these sorts.
pub(crate) fn has_action<'a>(
    sig: &'a Signature,
    table: &ActionTable<'a>,
    name: &'a [u8],
    sorts: &[SortId],
) -> bool
    requires groups { GroupsActions sig.now sig.now.actions table.now.groups }
    requires sorts { All (λ s. s.0 < length sig.now.sorts) sorts.now }
    ensures { result ≡ has_action (vocabulary_of sig.now) name.now (map (sort_under sig.now) sorts.now) }
{
    let Some(group) = table.groups.get(&name) else {
        return false;
    };
    let _ = sig.next_sort();
    match group.as_slice() {
        [action, ..] => sig.act(action.name, sorts).is_some(),
        [] => false,
    }
}
