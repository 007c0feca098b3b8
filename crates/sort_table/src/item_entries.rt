//! The entries of what declarations declare.

ghost use Rattle.std.specs.Prelude.{◌≡◌, ◌++◌, ◌∷◌, [], ℕ, List, Some, map, IfOk, OnOk, option_map};
ghost use Rattle.sort_table.specs.DeclarationTrees.{declaration_of};
ghost use Rattle.sort_table.specs.Duplicates.{items_of};
ghost use Rattle.sort_table.specs.Domains.{domain_under, domains_by};
ghost use Rattle.sort_table.specs.BareDeclarations.{bare_word};
ghost use Rattle.mcrl2_syntax.specs.Declarations.{some_word};
ghost use Rattle.sort_table.specs.Repeats.{marks_of};
ghost use Rattle.sort_table.specs.ItemMarks.{key_of, same_mark, named_key, key, known_function_marks, function_marks, action_marks, process_marks, items_marks, marks_of_sorts, marks_of_functions, marks_of_actions, marks_of_names, marks_of_groups, marks_of_struct, where_marked, marks_of_constructors, marks_of_fields, marks_of_projections, marks_of_recognisers};

use crate::built_in_tests::is_built_in;
use crate::domains::{Domain, DomainTable};
use crate::repeats::Entry;
use data_theory::NoMemory;
use mcrl2_syntax::{Constructor, Decl, Field, VarGroup, Word};
use std::alloc::Global;

/// What a key is made of: what kind of thing, which group of them, and its name. The functions with one list of argument sorts are
/// a group, as are the actions with one, and the variables of one section.
#[derive(Clone, Copy)]
pub(crate) struct KeyParts<'b> {
    pub(crate) kind: usize,
    pub(crate) group: usize,
    pub(crate) name: &'b [u8],
}

/// The key of these parts.
fn make_key(alloc: Global, parts: KeyParts) -> Result<Vec<usize>, NoMemory>
    ensures { IfOk result (λ key. key.items ≡ key_of parts.entry) }
{
    let mut key = Vec::from_array(alloc, [parts.kind, parts.group])?;
    push_bytes(&mut key, parts.name)?;
    Ok(key)
}

/// Puts the bytes of a name behind the numbers of a key.
fn push_bytes(key: &mut Vec<usize>, name: &[u8]) -> Result<(), NoMemory>
    ensures { OnOk result (key.new.items ≡ key.old.items ++ name.now) }
{
    for byte in name {
        key.push(usize::from(*byte))?;
    }
    Ok(())
}

/// Puts an entry behind the others.
fn push_entry(
    alloc: Global,
    entries: &mut Vec<Entry>,
    number: usize,
    left: KeyParts,
    met: KeyParts,
) -> Result<(), NoMemory>
    ensures { OnOk result (marks_of entries.new.items ≡ marks_of entries.old.items ++ record { left = key_of left.entry; met = key_of met.entry; number = number } ∷ []) }
{
    let left = make_key(alloc, left)?;
    let met = make_key(alloc, met)?;
    entries.push(Entry { left, met, number })?;
    Ok(())
}

/// What a key is made of.
fn key_parts<'b>(kind: usize, group: usize, name: &'b [u8]) -> KeyParts<'b>
    ensures { key_of result ≡ key kind group name.now }
{
    KeyParts { kind, group, name }
}

/// Adds the entries of sort names.
fn add_sorts(
    alloc: Global,
    entries: &mut Vec<Entry>,
    number: usize,
    names: &[Word],
) -> Result<(), NoMemory>
    ensures { OnOk result (marks_of entries.new.items ≡ marks_of entries.old.items ++ marks_of_sorts number names.now) }
{
    for name in names {
        add_sort(alloc, entries, number, name)?;
    }
    Ok(())
}

/// Adds the entry of a sort name.
fn add_sort(
    alloc: Global,
    entries: &mut Vec<Entry>,
    number: usize,
    name: &Word,
) -> Result<(), NoMemory>
    ensures { OnOk result (marks_of entries.new.items ≡ marks_of entries.old.items ++ same_mark number (named_key 0 name.now.bytes.items) ∷ []) }
{
    let parts = key_parts(0, 0, name.bytes.as_slice());
    push_entry(alloc, entries, number, parts, parts)
}

/// Adds the entries of a function.
fn add_function(
    alloc: Global,
    entries: &mut Vec<Entry>,
    number: usize,
    name: &[u8],
    domain: &Domain,
) -> Result<(), NoMemory>
    ensures { OnOk result (marks_of entries.new.items ≡ marks_of entries.old.items ++ known_function_marks number (domain_under domain.now) name.now) }
{
    let parts = key_parts(1, domain.number, name);
    push_entry(alloc, entries, number, parts, parts)?;
    if is_built_in(alloc, name, domain.sorts.as_slice())? {
        push_entry(alloc, entries, number, parts, parts)?;
    }
    Ok(())
}

/// Adds the entries of a function, where its sorts are known.
fn add_typed(
    alloc: Global,
    entries: &mut Vec<Entry>,
    number: usize,
    name: &Word,
    domain: &Option<Domain>,
) -> Result<(), NoMemory>
    ensures { OnOk result (marks_of entries.new.items ≡ marks_of entries.old.items ++ function_marks number (option_map domain_under domain.now) name.now.bytes.items) }
{
    match domain {
        None => Ok(()),
        Some(domain) => add_function(alloc, entries, number, name.bytes.as_slice(), domain),
    }
}

/// Adds the entries of functions of the same sorts.
fn add_functions(
    alloc: Global,
    entries: &mut Vec<Entry>,
    number: usize,
    names: &[Word],
    domain: &Option<Domain>,
) -> Result<(), NoMemory>
    ensures { OnOk result (marks_of entries.new.items ≡ marks_of entries.old.items ++ marks_of_functions number (option_map domain_under domain.now) names.now) }
{
    for name in names {
        add_typed(alloc, entries, number, name, domain)?;
    }
    Ok(())
}

/// Adds the entries of an action.
fn add_action(
    alloc: Global,
    entries: &mut Vec<Entry>,
    number: usize,
    name: &Word,
    domain: &Option<Domain>,
) -> Result<(), NoMemory>
    ensures { OnOk result (marks_of entries.new.items ≡ marks_of entries.old.items ++ action_marks number (option_map domain_under domain.now) name.now.bytes.items) }
{
    let name = name.bytes.as_slice();
    if let Some(domain) = domain {
        let parts = key_parts(2, domain.number, name);
        push_entry(alloc, entries, number, parts, parts)?;
    }
    push_entry(
        alloc,
        entries,
        number,
        key_parts(3, 0, name),
        key_parts(4, 0, name),
    )
}

/// Adds the entries of actions of the same sorts.
fn add_actions(
    alloc: Global,
    entries: &mut Vec<Entry>,
    number: usize,
    names: &[Word],
    domain: &Option<Domain>,
) -> Result<(), NoMemory>
    ensures { OnOk result (marks_of entries.new.items ≡ marks_of entries.old.items ++ marks_of_actions number (option_map domain_under domain.now) names.now) }
{
    for name in names {
        add_action(alloc, entries, number, name, domain)?;
    }
    Ok(())
}

/// Adds the entries of a process.
fn add_process(
    alloc: Global,
    entries: &mut Vec<Entry>,
    number: usize,
    name: &Word,
) -> Result<(), NoMemory>
    ensures { OnOk result (marks_of entries.new.items ≡ marks_of entries.old.items ++ process_marks number name.now.bytes.items) }
{
    let process = key_parts(4, 0, name.bytes.as_slice());
    let action = key_parts(3, 0, name.bytes.as_slice());
    push_entry(alloc, entries, number, process, process)?;
    push_entry(alloc, entries, number, process, action)
}

/// Adds the entries of the variables of a section.
pub(crate) fn add_groups(
    alloc: Global,
    entries: &mut Vec<Entry>,
    number: usize,
    section: usize,
    groups: &[VarGroup],
) -> Result<(), NoMemory>
    ensures { OnOk result (marks_of entries.new.items ≡ marks_of entries.old.items ++ marks_of_groups number section groups.now) }
{
    for group in groups {
        add_variables(alloc, entries, number, section, group.names.as_slice())?;
    }
    Ok(())
}

/// Adds the entries of variables of one sort.
fn add_variables(
    alloc: Global,
    entries: &mut Vec<Entry>,
    number: usize,
    section: usize,
    names: &[Word],
) -> Result<(), NoMemory>
    ensures { OnOk result (marks_of entries.new.items ≡ marks_of entries.old.items ++ marks_of_names number section names.now) }
{
    for name in names {
        add_variable(alloc, entries, number, section, name)?;
    }
    Ok(())
}

/// Adds the entry of a variable of a section.
fn add_variable(
    alloc: Global,
    entries: &mut Vec<Entry>,
    number: usize,
    section: usize,
    name: &Word,
) -> Result<(), NoMemory>
    ensures { OnOk result (marks_of entries.new.items ≡ marks_of entries.old.items ++ same_mark number (key 5 section name.now.bytes.items) ∷ []) }
{
    let parts = key_parts(5, section, name.bytes.as_slice());
    push_entry(alloc, entries, number, parts, parts)
}

/// Adds the entries of constructors.
fn add_constructors<'a>(
    alloc: Global,
    table: &DomainTable<'a>,
    entries: &mut Vec<Entry>,
    number: usize,
    constructors: &'a [Constructor],
) -> Result<(), NoMemory>
    ensures { OnOk result (marks_of entries.new.items ≡ marks_of entries.old.items ++ marks_of_constructors (domains_by table.now) number constructors.now) }
{
    for constructor in constructors {
        let domain = table.of_fields(alloc, constructor.fields.as_slice())?;
        add_typed(alloc, entries, number, &constructor.name, &domain)?;
    }
    Ok(())
}

/// Adds the entries of a function, where it has a name.
fn add_named(
    alloc: Global,
    entries: &mut Vec<Entry>,
    number: usize,
    name: &Option<Word>,
    domain: &Option<Domain>,
) -> Result<(), NoMemory>
    ensures { OnOk result (marks_of entries.new.items ≡ marks_of entries.old.items ++ where_marked number (option_map domain_under domain.now) (bare_word (some_word name.now))) }
{
    match name {
        None => Ok(()),
        Some(word) => add_typed(alloc, entries, number, word, domain),
    }
}

/// Adds the entries of a constructor's projections.
fn add_fields(
    alloc: Global,
    entries: &mut Vec<Entry>,
    number: usize,
    fields: &[Field],
    domain: &Option<Domain>,
) -> Result<(), NoMemory>
    ensures { OnOk result (marks_of entries.new.items ≡ marks_of entries.old.items ++ marks_of_fields number (option_map domain_under domain.now) fields.now) }
{
    for field in fields {
        add_named(alloc, entries, number, &field.name, domain)?;
    }
    Ok(())
}

/// Adds the entries of the projections of constructors.
fn add_projections(
    alloc: Global,
    entries: &mut Vec<Entry>,
    number: usize,
    constructors: &[Constructor],
    domain: &Option<Domain>,
) -> Result<(), NoMemory>
    ensures { OnOk result (marks_of entries.new.items ≡ marks_of entries.old.items ++ marks_of_projections number (option_map domain_under domain.now) constructors.now) }
{
    for constructor in constructors {
        add_fields(
            alloc,
            entries,
            number,
            constructor.fields.as_slice(),
            domain,
        )?;
    }
    Ok(())
}

/// Adds the entries of the recognisers of constructors.
fn add_recognisers(
    alloc: Global,
    entries: &mut Vec<Entry>,
    number: usize,
    constructors: &[Constructor],
    domain: &Option<Domain>,
) -> Result<(), NoMemory>
    ensures { OnOk result (marks_of entries.new.items ≡ marks_of entries.old.items ++ marks_of_recognisers number (option_map domain_under domain.now) constructors.now) }
{
    for constructor in constructors {
        add_named(alloc, entries, number, &constructor.recogniser, domain)?;
    }
    Ok(())
}

/// Adds the entries of a structured sort.
fn add_struct<'a>(
    alloc: Global,
    table: &DomainTable<'a>,
    entries: &mut Vec<Entry>,
    number: usize,
    name: &'a Word,
    constructors: &'a [Constructor],
) -> Result<(), NoMemory>
    ensures { OnOk result (marks_of entries.new.items ≡ marks_of entries.old.items ++ marks_of_struct (domains_by table.now) number name.now constructors.now) }
{
    let own = table.of_name(alloc, name.bytes.as_slice())?;
    add_sort(alloc, entries, number, name)?;
    add_constructors(alloc, table, entries, number, constructors)?;
    add_projections(alloc, entries, number, constructors, &own)?;
    add_recognisers(alloc, entries, number, constructors, &own)
}

/// Adds the entries of a declaration, which stands in this section.
pub(crate) fn add_declaration<'a>(
    alloc: Global,
    table: &DomainTable<'a>,
    entries: &mut Vec<Entry>,
    number: usize,
    section: usize,
    declaration: &'a Decl,
) -> Result<(), NoMemory>
    ensures { OnOk result (marks_of entries.new.items ≡ marks_of entries.old.items ++ items_marks (domains_by table.now) number (items_of section (declaration_of declaration.now))) }
{
    match declaration {
        Decl::Sorts(_, names) => add_sorts(alloc, entries, number, names.as_slice()),
        Decl::Alias(_, name, _) => add_sort(alloc, entries, number, name),
        Decl::Struct(_, name, constructors) => {
            add_struct(alloc, table, entries, number, name, constructors.as_slice())
        }
        Decl::Cons(_, names, trees, _) => {
            let domain = table.of_trees(alloc, trees.as_slice())?;
            add_functions(alloc, entries, number, names.as_slice(), &domain)
        }
        Decl::Map(_, names, trees, _) => {
            let domain = table.of_trees(alloc, trees.as_slice())?;
            add_functions(alloc, entries, number, names.as_slice(), &domain)
        }
        Decl::Vars(_, groups) => add_groups(alloc, entries, number, section, groups.as_slice()),
        Decl::Act(_, names, trees) => {
            let domain = table.of_trees(alloc, trees.as_slice())?;
            add_actions(alloc, entries, number, names.as_slice(), &domain)
        }
        Decl::Proc(_, name, _, _) => add_process(alloc, entries, number, name),
        Decl::Equation(_, _) | Decl::Init(_, _) => Ok(()),
    }
}
