//! The first name that isn't known.

ghost use Rattle.std.specs.Prelude.{◌≡◌, ◌∷◌, ◌++◌, ◌-◌, [], map, length, take, IfOk, OnOk, option_map};
ghost use Rattle.mcrl2_syntax.specs.Declarations.{plain_decl, spec_of};
ghost use Rattle.mcrl2_syntax.specs.DataTrees.{plain_data, plain_operands, operands_of};
ghost use Rattle.mcrl2_syntax.specs.ProcessParts.{plain_action, assignment_of, name_set_of, renaming_of, comm_rule_of};
ghost use Rattle.mcrl2_syntax.specs.Words.{word_of};
ghost use Rattle.sort_table.specs.BareProcesses.{bare_names};
ghost use Rattle.sort_table.specs.Identifiers.{in_operands, in_renaming, in_rule};
ghost use Rattle.mcrl2_syntax.specs.ProcessParts.{var_group_of};
ghost use Rattle.mcrl2_syntax.specs.ProcessTrees.{plain_process};
ghost use Rattle.sort_table.specs.BareProcesses.{Variables, bare_process, bare_variables};
ghost use Rattle.sort_table.specs.BareDeclarations.{bare_sections};
ghost use Rattle.sort_table.specs.DeclarationTrees.{declaration_of};
ghost use Rattle.data_typing.specs.Typings.{first_of};
ghost use Rattle.sort_checker.specs.FullVocabularies.{FullVocabulary, IsOver};
ghost use Rattle.sort_checker.specs.Parts.{parts_in};
ghost use Rattle.sort_checker.specs.Faults.{names_of_variables, unknown_name};
ghost use Rattle.sort_checker.specs.Refusals.{first_from, unknown_fault};
ghost use Rattle.sort_checker.specs.ScopedTrees.{scoped_under};
ghost use Rattle.sort_checker.specs.RenamedTrees.{named_fault};
ghost use Rattle.sort_checker.specs.LeftTrees.{names_of_groups, names_of_words, names_before};
ghost use Rattle.sort_checker.specs.UnknownTrees.{unknown_word, unknown_process, unknown_action, names_in_sets, unknown_in_data, unknown_in_datas, unknown_in_action, unknown_in_actions, unknown_in_values, unknown_in_part, unknown_along, unknown_in_equation, IsKnown, unknown_in};
ghost use Rattle.std.specs.List.{flat_map};

use crate::known_names::{KnownNames, known_names};
use crate::left_sides::number_behind;
use crate::scope_names::ScopeNames;
use crate::stops::{PartTree, StopTree, stops};
use data_theory::{NoMemory, Signature};
use mcrl2_syntax::{
    ActionTree, Assignment, CommRule, DataTree, Decl, EquationTree, InfixSign, NameSet, ProcTree,
    Renaming, Spec, VarGroup, Word,
};
use std::alloc::Global;

/// The name, where no variable in scope and no function has it.
fn unknown_word<'a>(
    known: &KnownNames<'a>,
    scope: &ScopeNames<'a>,
    name: &'a [u8],
) -> Option<&'a [u8]>
    ensures { option_map (λ n. n.now) result ≡ unknown_word known.now scope.now (name.now ∷ []) }
{
    if scope.has(name) || known.functions.get(name).is_some() {
        None
    } else {
        Some(name)
    }
}

/// The name, where no action and no process has it.
fn unknown_process<'a>(known: &KnownNames<'a>, name: &'a [u8]) -> Option<&'a [u8]>
    ensures { option_map (λ n. n.now) result ≡ unknown_process known.now name.now }
{
    if known.actions.get(name).is_some() || known.processes.get(name).is_some() {
        None
    } else {
        Some(name)
    }
}

/// The first unknown name of an expression.
#[cycle(unknown_data)]
fn unknown_in_data<'a>(
    known: &KnownNames<'a>,
    scope: &ScopeNames<'a>,
    tree: &'a DataTree,
) -> Option<&'a [u8]>
    ensures { option_map (λ n. n.now) result ≡ unknown_in_data known.now scope.now (plain_data tree.now) }
{
    match tree {
        DataTree::Numeral(_) | DataTree::True(_) | DataTree::False(_) => None,
        DataTree::Name(name) => unknown_word(known, scope, name.bytes.as_slice()),
        DataTree::List(_, parts) | DataTree::And(_, parts) | DataTree::Or(_, parts) => {
            unknown_in_datas(known, scope, parts.as_slice())
        }
        DataTree::Apply(_, application) => {
            match unknown_word(known, scope, application.name.bytes.as_slice()) {
                Some(name) => Some(name),
                None => unknown_in_datas(known, scope, application.arguments.as_slice()),
            }
        }
        DataTree::Brackets(_, inner) => unknown_in_data(known, scope, inner),
        DataTree::Prefix(_, _, inner) => unknown_in_data(known, scope, inner),
        DataTree::Infix(_, _, left, right) => match unknown_in_data(known, scope, left) {
            Some(name) => Some(name),
            None => unknown_in_data(known, scope, right),
        },
        DataTree::Sum(_, chain) => match unknown_in_data(known, scope, &chain.first) {
            Some(name) => Some(name),
            None => unknown_in_operands(known, scope, chain.further.as_slice()),
        },
        DataTree::Product(_, chain) => match unknown_in_data(known, scope, &chain.first) {
            Some(name) => Some(name),
            None => unknown_in_operands(known, scope, chain.further.as_slice()),
        },
    }
}

/// The first unknown name of expressions.
#[cycle(unknown_data)]
fn unknown_in_datas<'a>(
    known: &KnownNames<'a>,
    scope: &ScopeNames<'a>,
    trees: &'a [DataTree],
) -> Option<&'a [u8]>
    ensures { option_map (λ n. n.now) result ≡ unknown_in_datas known.now scope.now (map plain_data trees.now) }
{
    for tree in trees {
        if let Some(name) = unknown_in_data(known, scope, tree) {
            return Some(name);
        }
    }
    None
}

/// The first unknown name of operands behind their signs.
#[cycle(unknown_data)]
fn unknown_in_operands<'a>(
    known: &KnownNames<'a>,
    scope: &ScopeNames<'a>,
    operands: &'a [(InfixSign, DataTree)],
) -> Option<&'a [u8]>
    ensures { option_map (λ n. n.now) result ≡ unknown_word known.now scope.now (in_operands (operands_of (plain_operands operands.now))) }
{
    for operand in operands {
        if let Some(name) = unknown_in_data(known, scope, &operand.1) {
            return Some(name);
        }
    }
    None
}

/// The first unknown name of an action, or of a call with arguments in order.
fn unknown_in_action<'a>(
    known: &KnownNames<'a>,
    scope: &ScopeNames<'a>,
    action: &'a ActionTree,
) -> Option<&'a [u8]>
    ensures { option_map (λ n. n.now) result ≡ unknown_in_action known.now scope.now (plain_action action.now) }
{
    match action {
        ActionTree::Tau(_) => None,
        ActionTree::Named(_, name, arguments) => {
            match unknown_process(known, name.bytes.as_slice()) {
                Some(name) => Some(name),
                None => unknown_in_datas(known, scope, arguments.as_slice()),
            }
        }
    }
}

/// The first unknown name of a multi-action.
fn unknown_in_actions<'a>(
    known: &KnownNames<'a>,
    scope: &ScopeNames<'a>,
    actions: &'a [ActionTree],
) -> Option<&'a [u8]>
    ensures { option_map (λ n. n.now) result ≡ unknown_in_actions known.now scope.now (map plain_action actions.now) }
{
    for action in actions {
        if let Some(name) = unknown_in_action(known, scope, action) {
            return Some(name);
        }
    }
    None
}

/// The first unknown name of values that are assigned.
fn unknown_in_values<'a>(
    known: &KnownNames<'a>,
    scope: &ScopeNames<'a>,
    assignments: &'a [Assignment],
) -> Option<&'a [u8]>
    ensures { option_map (λ n. n.now) result ≡ unknown_in_values known.now scope.now (map assignment_of assignments.now) }
{
    for assignment in assignments {
        if let Some(name) = unknown_in_data(known, scope, &assignment.value) {
            return Some(name);
        }
    }
    None
}

/// The name, where no action has it.
fn unknown_action<'a>(known: &KnownNames<'a>, name: &'a Word) -> Option<&'a [u8]>
    ensures { option_map (λ n. n.now) result ≡ unknown_action known.now (name.now.bytes.items ∷ []) }
{
    if known.actions.get(name.bytes.as_slice()).is_some() {
        None
    } else {
        Some(name.bytes.as_slice())
    }
}

/// The first of these names that no action has.
fn unknown_among<'a>(known: &KnownNames<'a>, names: &'a [Word]) -> Option<&'a [u8]>
    ensures { option_map (λ n. n.now) result ≡ unknown_action known.now (bare_names (map word_of names.now)) }
{
    for word in names {
        if let Some(name) = unknown_action(known, word) {
            return Some(name);
        }
    }
    None
}

/// The first name of a set that no action has.
fn unknown_in_set<'a>(known: &KnownNames<'a>, set: &'a NameSet) -> Option<&'a [u8]>
    ensures { option_map (λ n. n.now) result ≡ unknown_action known.now (bare_names (map word_of set.now.names.items)) }
{
    unknown_among(known, set.names.as_slice())
}

/// The first name of sets that no action has.
fn unknown_in_sets<'a>(known: &KnownNames<'a>, sets: &'a [NameSet]) -> Option<&'a [u8]>
    ensures { option_map (λ n. n.now) result ≡ unknown_action known.now (names_in_sets (map name_set_of sets.now)) }
{
    for set in sets {
        if let Some(name) = unknown_in_set(known, set) {
            return Some(name);
        }
    }
    None
}

/// The first name of a renaming that no action has.
fn unknown_in_renaming<'a>(known: &KnownNames<'a>, renaming: &'a Renaming) -> Option<&'a [u8]>
    ensures { option_map (λ n. n.now) result ≡ unknown_action known.now (in_renaming (renaming_of renaming.now)) }
{
    match unknown_action(known, &renaming.old) {
        Some(name) => Some(name),
        None => unknown_action(known, &renaming.renamed),
    }
}

/// The first name of renamings that no action has.
fn unknown_in_renamings<'a>(known: &KnownNames<'a>, renamings: &'a [Renaming]) -> Option<&'a [u8]>
    ensures { option_map (λ n. n.now) result ≡ unknown_action known.now (flat_map in_renaming (map renaming_of renamings.now)) }
{
    for renaming in renamings {
        if let Some(name) = unknown_in_renaming(known, renaming) {
            return Some(name);
        }
    }
    None
}

/// The first name of a rule that no action has.
fn unknown_in_rule<'a>(known: &KnownNames<'a>, rule: &'a CommRule) -> Option<&'a [u8]>
    ensures { option_map (λ n. n.now) result ≡ unknown_action known.now (in_rule (comm_rule_of rule.now)) }
{
    match unknown_among(known, rule.names.as_slice()) {
        Some(name) => Some(name),
        None => unknown_action(known, &rule.outcome),
    }
}

/// The first name of rules that no action has.
fn unknown_in_rules<'a>(known: &KnownNames<'a>, rules: &'a [CommRule]) -> Option<&'a [u8]>
    ensures { option_map (λ n. n.now) result ≡ unknown_action known.now (flat_map in_rule (map comm_rule_of rules.now)) }
{
    for rule in rules {
        if let Some(name) = unknown_in_rule(known, rule) {
            return Some(name);
        }
    }
    None
}

/// The first unknown name of a part.
fn unknown_in_part<'a>(
    known: &KnownNames<'a>,
    scope: &ScopeNames<'a>,
    part: PartTree<'a>,
) -> Option<&'a [u8]>
    ensures { option_map (λ n. n.now) result ≡ unknown_in_part known.now scope.now part.entry }
{
    match part {
        PartTree::Action(action) => unknown_in_action(known, scope, action),
        PartTree::Multi(actions) => unknown_in_actions(known, scope, actions),
        PartTree::Call(name, assignments) => match unknown_process(known, name.bytes.as_slice()) {
            Some(name) => Some(name),
            None => unknown_in_values(known, scope, assignments),
        },
        PartTree::Condition(condition) => unknown_in_data(known, scope, condition),
        PartTree::Allow(sets) => unknown_in_sets(known, sets),
        PartTree::Block(names) => unknown_among(known, names),
        PartTree::Hide(names) => unknown_among(known, names),
        PartTree::Rename(renamings) => unknown_in_renamings(known, renamings),
        PartTree::Comm(rules) => unknown_in_rules(known, rules),
    }
}

/// The first unknown name along the stops of a process term, where these variables are in scope.
fn unknown_along<'a>(
    known: &KnownNames<'a>,
    scope: &mut ScopeNames<'a>,
    stops: &[StopTree<'a>],
) -> Result<Option<&'a [u8]>, NoMemory>
    ensures { IfOk result (λ found. option_map (λ n. n.now) found ≡ unknown_along known.now scope.old stops.now) }
{
    for stop in stops {
        match *stop {
            StopTree::Enter(groups) => enter_groups(scope, groups)?,
            StopTree::Leave(groups) => leave_groups(scope, groups),
            StopTree::At(part) => {
                if let Some(name) = unknown_in_part(known, scope, part) {
                    return Ok(Some(name));
                }
            }
        }
    }
    Ok(None)
}

/// Variables come into scope.
fn enter_groups<'a>(scope: &mut ScopeNames<'a>, groups: &'a [VarGroup]) -> Result<(), NoMemory>
    ensures { OnOk result (scope.new ≡ scope.old ++ names_of_groups groups.now) }
{
    for group in groups {
        enter_words(scope, group.names.as_slice())?;
    }
    Ok(())
}

/// Variables of these names come into scope.
fn enter_words<'a>(scope: &mut ScopeNames<'a>, words: &'a [Word]) -> Result<(), NoMemory>
    ensures { OnOk result (scope.new ≡ scope.old ++ names_of_words words.now) }
{
    for word in words {
        scope.enter(word.bytes.as_slice())?;
    }
    Ok(())
}

/// They leave it again.
fn leave_groups<'a>(scope: &mut ScopeNames<'a>, groups: &'a [VarGroup])
    ensures { scope.new ≡ take (length scope.old - length (names_of_groups groups.now)) scope.old }
{
    for group in groups {
        scope.leave(group.names.as_slice().len());
    }
}

/// The first unknown name of a process term, where variables of these groups are in scope.
fn unknown_in_process<'a>(
    alloc: Global,
    known: &KnownNames<'a>,
    groups: &'a [VarGroup],
    process: &'a ProcTree,
) -> Result<Option<&'a [u8]>, NoMemory>
    ensures { IfOk result (λ found. (v : FullVocabulary) → IsKnown v known.now → option_map (λ n. n.now) found ≡ first_of (unknown_name v) (parts_in (bare_variables (map var_group_of groups.now)) (bare_process (plain_process process.now)))) }
{
    let mut scope = ScopeNames::new(alloc);
    enter_groups(&mut scope, groups)?;
    let list = stops(alloc, process)?;
    unknown_along(known, &mut scope, list.as_slice())
}

/// The first unknown name of an equation.
fn unknown_in_equation<'a>(
    known: &KnownNames<'a>,
    scope: &ScopeNames<'a>,
    equation: &'a EquationTree,
) -> Option<&'a [u8]>
    ensures { option_map (λ n. n.now) result ≡ unknown_in_equation known.now scope.now equation.now }
{
    if let Some(condition) = &equation.condition {
        if let Some(name) = unknown_in_data(known, scope, condition) {
            return Some(name);
        }
    }
    match unknown_in_data(known, scope, &equation.left) {
        Some(name) => Some(name),
        None => unknown_in_data(known, scope, &equation.right),
    }
}

/// The first unknown name of a declaration. Only equations use the variables of the section in front.
fn unknown_in_declaration<'a>(
    alloc: Global,
    known: &KnownNames<'a>,
    scope: &ScopeNames<'a>,
    declaration: &'a Decl,
) -> Result<Option<&'a [u8]>, NoMemory>
    ensures { IfOk result (λ found. (v : FullVocabulary) (xs : Variables) → IsKnown v known.now → scope.now ≡ names_of_variables xs → option_map (λ n. n.now) found ≡ unknown_in v (record { variables = xs; declaration = declaration_of declaration.now })) }
{
    match declaration {
        Decl::Equation(_, equation) => Ok(unknown_in_equation(known, scope, equation)),
        Decl::Proc(_, _, groups, process) => {
            unknown_in_process(alloc, known, groups.as_slice(), process)
        }
        Decl::Init(_, process) => unknown_in_process(alloc, known, &[], process),
        _ => Ok(None),
    }
}

/// The names of the variables that these declarations declare.
fn section_scope<'a>(alloc: Global, declarations: &'a [Decl]) -> Result<ScopeNames<'a>, NoMemory>
    ensures { IfOk result (λ scope. scope ≡ names_before declarations.now) }
{
    let mut scope = ScopeNames::new(alloc);
    for declaration in declarations {
        if let Decl::Vars(_, groups) = declaration {
            enter_groups(&mut scope, groups.as_slice())?;
        }
    }
    Ok(scope)
}

/// The first of these declarations with an unknown name, numbered from this number on, and the name.
fn unknown_in_section<'a>(
    alloc: Global,
    known: &KnownNames<'a>,
    first: usize,
    before: &'a [Decl],
    declarations: &'a [Decl],
) -> Result<Option<(usize, &'a [u8])>, NoMemory>
    ensures { IfOk result (λ found. (v : FullVocabulary) → IsKnown v known.now → option_map named_fault found ≡ first_from (unknown_in v) first (scoped_under before.now declarations.now)) }
{
    let scope = section_scope(alloc, before)?;
    let mut number = first;
    for declaration in declarations {
        if let Some(name) = unknown_in_declaration(alloc, known, &scope, declaration)? {
            return Ok(Some((number, name)));
        }
        number = number_behind(number, 1)?;
    }
    Ok(None)
}

/// The first declaration with a name that isn't known, as its number from 1, with the first such name in it. In a data place a name
/// is known that is that of a variable in scope or of a function, as that of an action or a call one of an action or a process, and
/// in a set, a renaming or a rule one of an action.
///
/// # Errors
///
/// `NoMemory` where there is none for the names, and where no `usize` counts the declarations.
pub fn unknown_name<'a>(
    alloc: Global,
    sig: &'a Signature,
    spec: &'a Spec,
) -> Result<Option<(usize, &'a [u8])>, NoMemory>
    ensures { IfOk result (λ found. (v : FullVocabulary) → IsOver sig.now (bare_sections (spec_of spec.now)) v → option_map named_fault found ≡ unknown_fault v (bare_sections (spec_of spec.now))) }
{
    let known = known_names(alloc, sig, spec)?;
    let mut number = 1;
    let mut before: &'a [Decl] = &[];
    for section in &spec.sections {
        let declarations = section.declarations.as_slice();
        if let Some(found) = unknown_in_section(alloc, &known, number, before, declarations)? {
            return Ok(Some(found));
        }
        number = number_behind(number, declarations.len())?;
        before = declarations;
    }
    Ok(None)
}
