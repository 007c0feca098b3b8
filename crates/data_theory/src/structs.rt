//! What a structured sort declares.

use crate::ids::{FunId, NameId, SortId};

/// A constructor of a `struct`: its name, its fields, which may have names, and its recogniser, if it has one.
#[derive(Drop)]
pub struct ConDecl {
    pub name: NameId,
    pub fields: Vec<(Option<NameId>, SortId)>,
    pub test: Option<NameId>,
}

ghost use Rattle.std.specs.Prelude.{◌≡◌, ◌+◌, ◌++◌, ◌∷◌, ◌<◌, ◌^◌, [], length, map, IfOk, OnOk, vec_len};
ghost use Rattle.data_theory.specs.Functions.{declared_function, function_of, functions_of};
ghost use Rattle.data_theory.specs.Structs.{con_of, cons_of, count_of, named_fields, named_function, projections_of, recogniser_of, all_projections, all_recognisers, number_of, numbers_of, constructor_of, constructors_of, struct_functions, numbers_from};

use crate::functions::{FunEntry, Functions};
use crate::no_memory::NoMemory;
use crate::table::BOOL;
use std::alloc::Global;

/// Adds a declared function of one argument behind others, where it has a name.
fn push_named(
    entries: &mut Vec<FunEntry>,
    alloc: Global,
    from: SortId,
    name: Option<NameId>,
    to: SortId,
) -> Result<(), NoMemory>
    ensures { OnOk result (functions_of entries.new.items ≡ functions_of entries.old.items ++ named_function from name to) }
{
    if let Some(name) = name {
        entries.push(FunEntry {
            name,
            sorts: Vec::from_array(alloc, [from])?,
            to,
            word: None,
            is_list_constant: false,
            projections: Vec::new(alloc),
            test: None,
        })?;
    }
    Ok(())
}

/// Adds the projections of fields behind others.
fn push_projections(
    entries: &mut Vec<FunEntry>,
    alloc: Global,
    sort: SortId,
    fields: &[(Option<NameId>, SortId)],
) -> Result<(), NoMemory>
    ensures { OnOk result (functions_of entries.new.items ≡ functions_of entries.old.items ++ projections_of sort fields.now) }
{
    for field in fields {
        push_named(entries, alloc, sort, field.0, field.1)?;
    }
    Ok(())
}

/// The projections of constructors, one constructor after the other.
fn projections(alloc: Global, sort: SortId, cons: &[ConDecl]) -> Result<Vec<FunEntry>, NoMemory>
    ensures { IfOk result (λ entries. functions_of entries.items ≡ all_projections sort (cons_of cons.now)) }
{
    let mut entries = Vec::new(alloc);
    for con in cons {
        push_projections(&mut entries, alloc, sort, con.fields.as_slice())?;
    }
    Ok(entries)
}

/// The recognisers of constructors.
fn recognisers(alloc: Global, sort: SortId, cons: &[ConDecl]) -> Result<Vec<FunEntry>, NoMemory>
    ensures { IfOk result (λ entries. functions_of entries.items ≡ all_recognisers sort (cons_of cons.now)) }
{
    let mut entries = Vec::new(alloc);
    for con in cons {
        push_named(&mut entries, alloc, sort, con.test, BOOL)?;
    }
    Ok(entries)
}

/// The sorts of fields.
fn sorts_of(alloc: Global, fields: &[(Option<NameId>, SortId)]) -> Result<Vec<SortId>, NoMemory>
    ensures { IfOk result (λ sorts. sorts.items ≡ map (λ field. field.1) fields.now) }
{
    let mut sorts = Vec::new(alloc);
    for field in fields {
        sorts.push(field.1)?;
    }
    Ok(sorts)
}

/// The number of a function that comes next, where it has a name. The next number is then one more.
fn next_number(next: &mut usize, name: Option<NameId>) -> Option<FunId>
    requires { next.old + count_of name < 2 ^ 64 }
    ensures number { result ≡ number_of next.old name }
    ensures next { next.new ≡ next.old + count_of name }
{
    match name {
        Some(_) => {
            let number = FunId(*next);
            *next += 1;
            Some(number)
        }
        None => None,
    }
}

/// The numbers of the projections of fields, from the next one on.
fn numbers_of(
    alloc: Global,
    fields: &[(Option<NameId>, SortId)],
    next: &mut usize,
) -> Result<Vec<Option<FunId>>, NoMemory>
    requires { next.old + named_fields fields.now < 2 ^ 64 }
    ensures numbers { IfOk result (λ numbers. numbers.items ≡ numbers_of next.old fields.now) }
    ensures next { OnOk result (next.new ≡ next.old + named_fields fields.now) }
{
    let mut numbers = Vec::new(alloc);
    for field in fields {
        numbers.push(next_number(next, field.0))?;
    }
    Ok(numbers)
}

/// A constructor, whose projections and recogniser get the next numbers.
fn constructor(
    alloc: Global,
    sort: SortId,
    con: &ConDecl,
    projection: &mut usize,
    test: &mut usize,
) -> Result<FunEntry, NoMemory>
    requires projections { projection.old + named_fields con.now.fields.items < 2 ^ 64 }
    requires tests { test.old + count_of con.now.test < 2 ^ 64 }
    ensures constructor { IfOk result (λ entry. function_of entry ≡ constructor_of sort projection.old test.old (con_of con.now)) }
    ensures projections { OnOk result (projection.new ≡ projection.old + named_fields con.now.fields.items) }
    ensures tests { OnOk result (test.new ≡ test.old + count_of con.now.test) }
{
    let sorts = sorts_of(alloc, con.fields.as_slice())?;
    let projections = numbers_of(alloc, con.fields.as_slice(), projection)?;
    Ok(FunEntry {
        name: con.name,
        sorts,
        to: sort,
        word: None,
        is_list_constant: false,
        projections,
        test: next_number(test, con.test),
    })
}

/// The constructors, whose projections and recognisers get the numbers from the given ones on.
fn constructors(
    alloc: Global,
    sort: SortId,
    cons: &[ConDecl],
    projection: usize,
    test: usize,
) -> Result<Vec<FunEntry>, NoMemory>
    requires projections { projection + length (all_projections sort (cons_of cons.now)) < 2 ^ 64 }
    requires tests { test + length (all_recognisers sort (cons_of cons.now)) < 2 ^ 64 }
    ensures { IfOk result (λ entries. functions_of entries.items ≡ constructors_of sort projection test (cons_of cons.now)) }
{
    let (mut next_projection, mut next_test) = (projection, test);
    let mut entries = Vec::new(alloc);
    for con in cons {
        entries.push(constructor(alloc, sort, con, &mut next_projection, &mut next_test)?)?;
    }
    Ok(entries)
}

/// The functions that a struct declares, with room for them behind the others.
pub fn struct_entries(
    functions: &mut Functions,
    alloc: Global,
    sort: SortId,
    cons: &[ConDecl],
) -> Result<Vec<FunEntry>, NoMemory>
    ensures entries { IfOk result (λ entries. functions_of entries.items ≡ struct_functions sort (length functions.old) (cons_of cons.now)) }
    ensures kept { functions.new ≡ functions.old }
{
    functions.reserve(cons.len())?;
    let projection = functions.len() + cons.len();
    let mut projections = projections(alloc, sort, cons)?;
    functions.reserve(cons.len() + projections.len())?;
    let test = projection + projections.len();
    let mut recognisers = recognisers(alloc, sort, cons)?;
    let mut entries = constructors(alloc, sort, cons, projection, test)?;
    entries.append(&mut projections)?;
    entries.append(&mut recognisers)?;
    Ok(entries)
}

/// So many numbers of functions, from one on.
pub fn numbers_from(alloc: Global, first: usize, count: usize) -> Result<Vec<FunId>, NoMemory>
    requires { first + count < 2 ^ 64 }
    ensures { IfOk result (λ numbers. numbers.items ≡ numbers_from first count) }
{
    let mut numbers = Vec::new(alloc);
    for number in first..first + count {
        numbers.push(FunId(number))?;
    }
    Ok(numbers)
}
