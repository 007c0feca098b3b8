//! The identifiers of a text.

ghost use Rattle.std.specs.Prelude.{◌≡◌, ◌++◌, ◌∷◌, [], List, map, IfOk, OnOk};
ghost use Rattle.std.specs.List.{flat_map};
ghost use Rattle.mcrl2_syntax.specs.Words.{word_of};
ghost use Rattle.mcrl2_syntax.specs.SortTrees.{plain_sort};
ghost use Rattle.mcrl2_syntax.specs.DataTrees.{plain_data, datas_of, operands_of, plain_operands};
ghost use Rattle.mcrl2_syntax.specs.ProcessParts.{plain_action, assignment_of, name_set_of, renaming_of, comm_rule_of, var_group_of};
ghost use Rattle.mcrl2_syntax.specs.ProcessTrees.{plain_process, processes_of};
ghost use Rattle.mcrl2_syntax.specs.Declarations.{some_word, some_data, field_of, constructor_of, plain_decl, spec_of};
ghost use Rattle.sort_table.specs.BareProcesses.{bare_names};
ghost use Rattle.sort_table.specs.Identifiers.{name_where, in_sort, in_sorts, in_data, in_datas, in_operands, in_condition, in_group, in_action, in_assignment, in_set, in_renaming, in_rule, in_process, in_processes, in_field, in_constructor, in_declaration, identifiers_in, copied_identifiers};
ghost use Rattle.sort_table.specs.LentTexts.{texts_of};

use crate::unknown_sorts::tree_name;
use data_theory::NoMemory;
use mcrl2_syntax::{
    ActionTree, Assignment, CommRule, Constructor, DataTree, Decl, EquationTree, Field, InfixSign,
    NameSet, ProcTree, Renaming, SortTree, Spec, VarGroup, Word, is_first_copied,
};
use std::alloc::Global;

/// All identifiers of a specification, in the order of the text.
///
/// # Errors
///
/// `NoMemory` where there is none for the list.
pub(crate) fn identifiers<'a>(alloc: Global, spec: &'a Spec) -> Result<Vec<&'a [u8]>, NoMemory>
    ensures { IfOk result (λ list. texts_of list.items ≡ identifiers_in (spec_of spec.now)) }
{
    let mut list = Vec::new(alloc);
    for section in &spec.sections {
        add_declarations(&mut list, section.declarations.as_slice())?;
    }
    Ok(list)
}

/// The identifiers of the sections that are copied, in the order of the text.
///
/// # Errors
///
/// `NoMemory` where there is none for the list.
pub(crate) fn copied_identifiers<'a>(
    alloc: Global,
    spec: &'a Spec,
) -> Result<Vec<&'a [u8]>, NoMemory>
    ensures { IfOk result (λ list. texts_of list.items ≡ copied_identifiers (spec_of spec.now)) }
{
    let mut list = Vec::new(alloc);
    let sections = spec.sections.as_slice();
    for place in 0..sections.len() {
        if is_first_copied(&sections[place..]) {
            add_declarations(&mut list, sections[place].declarations.as_slice())?;
        }
    }
    Ok(list)
}

/// Puts the identifiers of declarations behind the others.
fn add_declarations<'a>(list: &mut Vec<&'a [u8]>, declarations: &'a [Decl]) -> Result<(), NoMemory>
    ensures { OnOk result (texts_of list.new.items ≡ texts_of list.old.items ++ flat_map in_declaration (map plain_decl declarations.now)) }
{
    for declaration in declarations {
        add_declaration(list, declaration)?;
    }
    Ok(())
}

/// Puts the identifiers of a declaration behind the others.
fn add_declaration<'a>(list: &mut Vec<&'a [u8]>, declaration: &'a Decl) -> Result<(), NoMemory>
    ensures { OnOk result (texts_of list.new.items ≡ texts_of list.old.items ++ in_declaration (plain_decl declaration.now)) }
{
    match declaration {
        Decl::Sorts(_, names) => add_words(list, names.as_slice()),
        Decl::Alias(_, name, sort) => add_alias(list, name, sort),
        Decl::Struct(_, name, constructors) => add_struct(list, name, constructors.as_slice()),
        Decl::Cons(_, names, domain, sort) => {
            add_functions(list, names.as_slice(), domain.as_slice(), sort)
        }
        Decl::Map(_, names, domain, sort) => {
            add_functions(list, names.as_slice(), domain.as_slice(), sort)
        }
        Decl::Vars(_, groups) => add_groups(list, groups.as_slice()),
        Decl::Equation(_, equation) => add_equation(list, equation),
        Decl::Act(_, names, domain) => add_acts(list, names.as_slice(), domain.as_slice()),
        Decl::Proc(_, name, parameters, body) => {
            add_definition(list, name, parameters.as_slice(), body)
        }
        Decl::Init(_, body) => add_process(list, body),
    }
}

/// Puts an alias and the name in its sort expression behind the others.
fn add_alias<'a>(
    list: &mut Vec<&'a [u8]>,
    name: &'a Word,
    sort: &'a SortTree,
) -> Result<(), NoMemory>
    ensures { OnOk result (texts_of list.new.items ≡ texts_of list.old.items ++ name.now.bytes.items ∷ in_sort (plain_sort sort.now)) }
{
    list.push(name.bytes.as_slice())?;
    add_sort(list, sort)
}

/// Puts the identifiers of a `struct` behind the others.
fn add_struct<'a>(
    list: &mut Vec<&'a [u8]>,
    name: &'a Word,
    constructors: &'a [Constructor],
) -> Result<(), NoMemory>
    ensures { OnOk result (texts_of list.new.items ≡ texts_of list.old.items ++ name.now.bytes.items ∷ flat_map in_constructor (map constructor_of constructors.now)) }
{
    list.push(name.bytes.as_slice())?;
    for constructor in constructors {
        add_constructor(list, constructor)?;
    }
    Ok(())
}

/// Puts the identifiers of a `cons` or a `map` behind the others.
fn add_functions<'a>(
    list: &mut Vec<&'a [u8]>,
    names: &'a [Word],
    domain: &'a [SortTree],
    sort: &'a SortTree,
) -> Result<(), NoMemory>
    ensures { OnOk result (texts_of list.new.items ≡ texts_of list.old.items ++ bare_names (map word_of names.now) ++ (in_sorts (map plain_sort domain.now) ++ in_sort (plain_sort sort.now))) }
{
    add_words(list, names)?;
    add_sorts(list, domain)?;
    add_sort(list, sort)
}

/// Puts the identifiers of an equation behind the others.
fn add_equation<'a>(list: &mut Vec<&'a [u8]>, equation: &'a EquationTree) -> Result<(), NoMemory>
    ensures { OnOk result (texts_of list.new.items ≡ texts_of list.old.items ++ in_condition (some_data equation.now.condition) ++ (in_data (plain_data equation.now.left) ++ in_data (plain_data equation.now.right))) }
{
    add_condition(list, &equation.condition)?;
    add_data(list, &equation.left)?;
    add_data(list, &equation.right)
}

/// Puts the identifiers of an `act` behind the others.
fn add_acts<'a>(
    list: &mut Vec<&'a [u8]>,
    names: &'a [Word],
    domain: &'a [SortTree],
) -> Result<(), NoMemory>
    ensures { OnOk result (texts_of list.new.items ≡ texts_of list.old.items ++ bare_names (map word_of names.now) ++ in_sorts (map plain_sort domain.now)) }
{
    add_words(list, names)?;
    add_sorts(list, domain)
}

/// Puts the identifiers of a definition behind the others.
fn add_definition<'a>(
    list: &mut Vec<&'a [u8]>,
    name: &'a Word,
    parameters: &'a [VarGroup],
    body: &'a ProcTree,
) -> Result<(), NoMemory>
    ensures { OnOk result (texts_of list.new.items ≡ texts_of list.old.items ++ name.now.bytes.items ∷ (flat_map in_group (map var_group_of parameters.now) ++ in_process (plain_process body.now))) }
{
    list.push(name.bytes.as_slice())?;
    add_groups(list, parameters)?;
    add_process(list, body)
}

/// Puts words behind the others.
fn add_words<'a>(list: &mut Vec<&'a [u8]>, words: &'a [Word]) -> Result<(), NoMemory>
    ensures { OnOk result (texts_of list.new.items ≡ texts_of list.old.items ++ bare_names (map word_of words.now)) }
{
    for word in words {
        list.push(word.bytes.as_slice())?;
    }
    Ok(())
}

/// Puts a word, where there is one, behind the others.
fn add_option<'a>(list: &mut Vec<&'a [u8]>, word: &'a Option<Word>) -> Result<(), NoMemory>
    ensures { OnOk result (texts_of list.new.items ≡ texts_of list.old.items ++ name_where (some_word word.now)) }
{
    if let Some(word) = word {
        list.push(word.bytes.as_slice())?;
    }
    Ok(())
}

/// Puts the name in a sort expression behind the others.
fn add_sort<'a>(list: &mut Vec<&'a [u8]>, tree: &'a SortTree) -> Result<(), NoMemory>
    ensures { OnOk result (texts_of list.new.items ≡ texts_of list.old.items ++ in_sort (plain_sort tree.now)) }
{
    if let Some(name) = tree_name(tree) {
        list.push(name)?;
    }
    Ok(())
}

/// Puts the names in sort expressions behind the others.
fn add_sorts<'a>(list: &mut Vec<&'a [u8]>, trees: &'a [SortTree]) -> Result<(), NoMemory>
    ensures { OnOk result (texts_of list.new.items ≡ texts_of list.old.items ++ in_sorts (map plain_sort trees.now)) }
{
    for tree in trees {
        add_sort(list, tree)?;
    }
    Ok(())
}

/// Puts the identifiers of a constructor of a `struct` behind the others.
fn add_constructor<'a>(
    list: &mut Vec<&'a [u8]>,
    constructor: &'a Constructor,
) -> Result<(), NoMemory>
    ensures { OnOk result (texts_of list.new.items ≡ texts_of list.old.items ++ in_constructor (constructor_of constructor.now)) }
{
    list.push(constructor.name.bytes.as_slice())?;
    add_fields(list, constructor.fields.as_slice())?;
    add_option(list, &constructor.recogniser)
}

/// Puts the identifiers of arguments of a constructor behind the others.
fn add_fields<'a>(list: &mut Vec<&'a [u8]>, fields: &'a [Field]) -> Result<(), NoMemory>
    ensures { OnOk result (texts_of list.new.items ≡ texts_of list.old.items ++ flat_map in_field (map field_of fields.now)) }
{
    for field in fields {
        add_option(list, &field.name)?;
        add_sort(list, &field.sort)?;
    }
    Ok(())
}

/// Puts the identifiers of variables behind the others.
fn add_groups<'a>(list: &mut Vec<&'a [u8]>, groups: &'a [VarGroup]) -> Result<(), NoMemory>
    ensures { OnOk result (texts_of list.new.items ≡ texts_of list.old.items ++ flat_map in_group (map var_group_of groups.now)) }
{
    for group in groups {
        add_words(list, group.names.as_slice())?;
        add_sort(list, &group.sort)?;
    }
    Ok(())
}

/// Puts the identifiers of a condition, where there is one, behind the others.
fn add_condition<'a>(
    list: &mut Vec<&'a [u8]>,
    condition: &'a Option<Box<DataTree>>,
) -> Result<(), NoMemory>
    ensures { OnOk result (texts_of list.new.items ≡ texts_of list.old.items ++ in_condition (some_data condition.now)) }
{
    match condition {
        Some(condition) => add_data(list, condition),
        None => Ok(()),
    }
}

/// Puts the identifiers of an expression behind the others.
#[cycle(datas)]
fn add_data<'a>(list: &mut Vec<&'a [u8]>, tree: &'a DataTree) -> Result<(), NoMemory>
    ensures { OnOk result (texts_of list.new.items ≡ texts_of list.old.items ++ in_data (plain_data tree.now)) }
{
    match tree {
        DataTree::Name(name) => {
            list.push(name.bytes.as_slice())?;
            Ok(())
        }
        DataTree::Numeral(_) | DataTree::True(_) | DataTree::False(_) => Ok(()),
        DataTree::List(_, parts) | DataTree::And(_, parts) | DataTree::Or(_, parts) => {
            add_datas(list, parts.as_slice())
        }
        DataTree::Apply(_, application) => {
            list.push(application.name.bytes.as_slice())?;
            add_datas(list, application.arguments.as_slice())
        }
        DataTree::Brackets(_, inner) | DataTree::Prefix(_, _, inner) => add_data(list, inner),
        DataTree::Infix(_, _, left, right) => {
            add_data(list, left)?;
            add_data(list, right)
        }
        DataTree::Sum(_, chain) | DataTree::Product(_, chain) => {
            add_data(list, &chain.first)?;
            add_operands(list, chain.further.as_slice())
        }
    }
}

/// Puts the identifiers of expressions behind the others.
#[cycle(datas)]
fn add_datas<'a>(list: &mut Vec<&'a [u8]>, trees: &'a [DataTree]) -> Result<(), NoMemory>
    ensures { OnOk result (texts_of list.new.items ≡ texts_of list.old.items ++ in_datas (datas_of (map plain_data trees.now))) }
{
    for tree in trees {
        add_data(list, tree)?;
    }
    Ok(())
}

/// Puts the identifiers of operands behind the others.
#[cycle(datas)]
fn add_operands<'a>(
    list: &mut Vec<&'a [u8]>,
    operands: &'a [(InfixSign, DataTree)],
) -> Result<(), NoMemory>
    ensures { OnOk result (texts_of list.new.items ≡ texts_of list.old.items ++ in_operands (operands_of (plain_operands operands.now))) }
{
    for operand in operands {
        add_data(list, &operand.1)?;
    }
    Ok(())
}

/// Puts the identifiers of an action behind the others.
fn add_action<'a>(list: &mut Vec<&'a [u8]>, action: &'a ActionTree) -> Result<(), NoMemory>
    ensures { OnOk result (texts_of list.new.items ≡ texts_of list.old.items ++ in_action (plain_action action.now)) }
{
    match action {
        ActionTree::Tau(_) => Ok(()),
        ActionTree::Named(_, name, arguments) => {
            list.push(name.bytes.as_slice())?;
            add_datas(list, arguments.as_slice())
        }
    }
}

/// Puts the identifiers of actions behind the others.
fn add_actions<'a>(list: &mut Vec<&'a [u8]>, actions: &'a [ActionTree]) -> Result<(), NoMemory>
    ensures { OnOk result (texts_of list.new.items ≡ texts_of list.old.items ++ flat_map in_action (map plain_action actions.now)) }
{
    for action in actions {
        add_action(list, action)?;
    }
    Ok(())
}

/// Puts the identifiers of a call with assignments behind the others.
fn add_call<'a>(
    list: &mut Vec<&'a [u8]>,
    name: &'a Word,
    assignments: &'a [Assignment],
) -> Result<(), NoMemory>
    ensures { OnOk result (texts_of list.new.items ≡ texts_of list.old.items ++ name.now.bytes.items ∷ flat_map in_assignment (map assignment_of assignments.now)) }
{
    list.push(name.bytes.as_slice())?;
    for assignment in assignments {
        list.push(assignment.name.bytes.as_slice())?;
        add_data(list, &assignment.value)?;
    }
    Ok(())
}

/// Puts the names of sets behind the others.
fn add_sets<'a>(list: &mut Vec<&'a [u8]>, sets: &'a [NameSet]) -> Result<(), NoMemory>
    ensures { OnOk result (texts_of list.new.items ≡ texts_of list.old.items ++ flat_map in_set (map name_set_of sets.now)) }
{
    for set in sets {
        add_words(list, set.names.as_slice())?;
    }
    Ok(())
}

/// Puts the names of renamings behind the others.
fn add_renamings<'a>(list: &mut Vec<&'a [u8]>, renamings: &'a [Renaming]) -> Result<(), NoMemory>
    ensures { OnOk result (texts_of list.new.items ≡ texts_of list.old.items ++ flat_map in_renaming (map renaming_of renamings.now)) }
{
    for renaming in renamings {
        list.push(renaming.old.bytes.as_slice())?;
        list.push(renaming.renamed.bytes.as_slice())?;
    }
    Ok(())
}

/// Puts the names of rules behind the others.
fn add_rules<'a>(list: &mut Vec<&'a [u8]>, rules: &'a [CommRule]) -> Result<(), NoMemory>
    ensures { OnOk result (texts_of list.new.items ≡ texts_of list.old.items ++ flat_map in_rule (map comm_rule_of rules.now)) }
{
    for rule in rules {
        add_words(list, rule.names.as_slice())?;
        list.push(rule.outcome.bytes.as_slice())?;
    }
    Ok(())
}

/// Puts the identifiers of a process term behind the others.
#[cycle(processes)]
fn add_process<'a>(list: &mut Vec<&'a [u8]>, process: &'a ProcTree) -> Result<(), NoMemory>
    ensures { OnOk result (texts_of list.new.items ≡ texts_of list.old.items ++ in_process (plain_process process.now)) }
{
    match process {
        ProcTree::Delta(_) => Ok(()),
        ProcTree::Action(action) => add_action(list, action),
        ProcTree::Multi(_, actions) => add_actions(list, actions.as_slice()),
        ProcTree::Call(_, name, assignments) => add_call(list, name, assignments.as_slice()),
        ProcTree::Brackets(_, inner) => add_process(list, inner),
        ProcTree::Allow(_, sets, inner) => {
            add_sets(list, sets.as_slice())?;
            add_process(list, inner)
        }
        ProcTree::Block(_, names, inner) | ProcTree::Hide(_, names, inner) => {
            add_words(list, names.as_slice())?;
            add_process(list, inner)
        }
        ProcTree::Rename(_, renamings, inner) => {
            add_renamings(list, renamings.as_slice())?;
            add_process(list, inner)
        }
        ProcTree::Comm(_, rules, inner) => {
            add_rules(list, rules.as_slice())?;
            add_process(list, inner)
        }
        ProcTree::Sum(_, groups, inner) => {
            add_groups(list, groups.as_slice())?;
            add_process(list, inner)
        }
        ProcTree::When(_, condition, then) => {
            add_data(list, condition)?;
            add_process(list, then)
        }
        ProcTree::Either(_, condition, then, other) => {
            add_data(list, condition)?;
            add_process(list, then)?;
            add_process(list, other)
        }
        ProcTree::Sequence(_, parts)
        | ProcTree::Sync(_, parts)
        | ProcTree::Parallel(_, parts)
        | ProcTree::Choice(_, parts) => add_processes(list, parts.as_slice()),
        ProcTree::LeftMerge(_, first, second) => {
            add_process(list, first)?;
            add_process(list, second)
        }
    }
}

/// Puts the identifiers of process terms behind the others.
#[cycle(processes)]
fn add_processes<'a>(list: &mut Vec<&'a [u8]>, processes: &'a [ProcTree]) -> Result<(), NoMemory>
    ensures { OnOk result (texts_of list.new.items ≡ texts_of list.old.items ++ in_processes (processes_of (map plain_process processes.now))) }
{
    for process in processes {
        add_process(list, process)?;
    }
    Ok(())
}
