//! The sorts of arguments, with a number for each list of them.

ghost use Rattle.std.specs.Prelude.{◌≡◌, ◌∷◌, [], option_map, option_and_then, IfOk, OnOk};
ghost use Rattle.std.specs.Option.{IsSome};
ghost use Rattle.sort_table.specs.BareSorts.{a_name};
ghost use Rattle.sort_table.specs.DeclarationTrees.{declaration_of, declarations_under};
ghost use Rattle.sort_table.specs.IndexedKinds.{kinds_of_index};
ghost use Rattle.sort_table.specs.FlatSorts.{expressions_of};
ghost use Rattle.sort_table.specs.Domains.{sorts_code, value_under, number_under, IsNumbering, KeepsNumbers, with_number, domain_under, flats_by, domains_by, fields_in, domains_of_constructors, domains_of, domains_in, HaveNumbers, NumbersList, AddsNumbers};

use crate::flat_sorts::{FlatSort, FlatTable, flat_named, flat_sort, flat_sorts};
use data_theory::NoMemory;
use mcrl2_syntax::{Constructor, Decl, Field, SortTree};
use std::alloc::Global;
use std::collections::BTreeMap;

/// The sorts of the arguments of a function or an action, with the number of all lists of these sorts.
#[derive(Drop)]
pub(crate) struct Domain {
    pub(crate) number: usize,
    pub(crate) sorts: Vec<FlatSort>,
}

/// The sorts of the declared names, and a number for each list of argument sorts. The map has the number of a list under its code;
/// it is ordered, so that no choice of lists makes a look-up slow.
#[derive(Drop)]
pub(crate) struct DomainTable<'a> {
    pub(crate) flats: FlatTable<'a>,
    pub(crate) numbers: BTreeMap<Vec<usize>, usize>,
}

/// The table of the domains of what these declarations declare.
///
/// # Errors
///
/// `NoMemory` where there is none for the map.
pub(crate) fn domain_table<'a>(
    alloc: Global,
    flats: FlatTable<'a>,
    declarations: &[&'a Decl],
) -> Result<DomainTable<'a>, NoMemory>
    ensures kinds { IfOk result (λ table. kinds_of_index table.flats.index ≡ kinds_of_index flats.entry.index) }
    ensures sorts { IfOk result (λ table. table.flats.sorts.items ≡ flats.entry.sorts.items) }
    ensures numbers { IfOk result (λ table. IsNumbering table.numbers) }
    ensures all { IfOk result (λ table. HaveNumbers (number_under table.numbers) (flats_by flats.entry) (domains_in (declarations_under declarations.now))) }
{
    let mut numbers = BTreeMap::new(alloc);
    for declaration in declarations {
        number_declaration(alloc, &flats, &mut numbers, declaration)?;
    }
    Ok(DomainTable { flats, numbers })
}

/// Numbers the domains of what a declaration declares.
fn number_declaration<'a>(
    alloc: Global,
    flats: &FlatTable<'a>,
    numbers: &mut BTreeMap<Vec<usize>, usize>,
    declaration: &'a Decl,
) -> Result<(), NoMemory>
    ensures { OnOk result (AddsNumbers (flats_by flats.now) (domains_of (declaration_of declaration.now)) numbers.old numbers.new) }
{
    match declaration {
        Decl::Struct(_, name, constructors) => {
            let own = flats_of_name(alloc, flats, name.bytes.as_slice())?;
            number_where_known(alloc, numbers, &own)?;
            number_constructors(alloc, flats, numbers, constructors.as_slice())
        }
        Decl::Cons(_, _, domain, _) | Decl::Map(_, _, domain, _) | Decl::Act(_, _, domain) => {
            let sorts = flats_of_trees(alloc, flats, domain.as_slice())?;
            number_where_known(alloc, numbers, &sorts)
        }
        _ => Ok(()),
    }
}

/// Numbers the domains of constructors.
fn number_constructors<'a>(
    alloc: Global,
    flats: &FlatTable<'a>,
    numbers: &mut BTreeMap<Vec<usize>, usize>,
    constructors: &'a [Constructor],
) -> Result<(), NoMemory>
    ensures { OnOk result (AddsNumbers (flats_by flats.now) (domains_of_constructors constructors.now) numbers.old numbers.new) }
{
    for constructor in constructors {
        let sorts = flats_of_fields(alloc, flats, constructor.fields.as_slice())?;
        number_where_known(alloc, numbers, &sorts)?;
    }
    Ok(())
}

/// Numbers a list of sorts, where they are known.
fn number_where_known(
    alloc: Global,
    numbers: &mut BTreeMap<Vec<usize>, usize>,
    sorts: &Option<Vec<FlatSort>>,
) -> Result<(), NoMemory>
    ensures { OnOk result (NumbersList (option_map (λ list. list.items) sorts.now) numbers.old numbers.new) }
{
    match sorts {
        None => Ok(()),
        Some(list) => number_list(alloc, numbers, list.as_slice()),
    }
}

/// Numbers a list of sorts, where it has no number.
fn number_list(
    alloc: Global,
    numbers: &mut BTreeMap<Vec<usize>, usize>,
    sorts: &[FlatSort],
) -> Result<(), NoMemory>
    ensures sound { OnOk result (IsNumbering numbers.old → IsNumbering numbers.new) }
    ensures kept { OnOk result (KeepsNumbers numbers.old numbers.new) }
    ensures has { OnOk result (IsSome (number_under numbers.new sorts.now)) }
{
    let code = code_of(alloc, sorts)?;
    if numbers.contains_key(code.as_slice()) {
        return Ok(());
    }
    let number = numbers.len();
    numbers.insert(code, number)?;
    Ok(())
}

/// The code of a list of sorts: the numbers of each, one after the other.
fn code_of(alloc: Global, sorts: &[FlatSort]) -> Result<Vec<usize>, NoMemory>
    ensures { IfOk result (λ code. code.items ≡ sorts_code sorts.now) }
{
    let mut code = Vec::new(alloc);
    for sort in sorts {
        code.push(sort.depth)?;
        code.push(sort.kind)?;
        code.push(sort.place)?;
    }
    Ok(code)
}

/// The sorts of sort expressions, where the name of each has one.
fn flats_of_trees<'a>(
    alloc: Global,
    flats: &FlatTable<'a>,
    trees: &'a [SortTree],
) -> Result<Option<Vec<FlatSort>>, NoMemory>
    ensures { IfOk result (λ found. option_map (λ list. list.items) found ≡ flats_by flats.now (expressions_of trees.now)) }
{
    flat_sorts(alloc, &flats.index, flats.sorts.as_slice(), trees)
}

/// The sorts of a constructor's arguments, where the name of each has one.
fn flats_of_fields<'a>(
    alloc: Global,
    flats: &FlatTable<'a>,
    fields: &'a [Field],
) -> Result<Option<Vec<FlatSort>>, NoMemory>
    ensures { IfOk result (λ found. option_map (λ list. list.items) found ≡ flats_by flats.now (fields_in fields.now)) }
{
    let mut list = Vec::new(alloc);
    for field in fields {
        let Some(sort) = flat_sort(&flats.index, flats.sorts.as_slice(), &field.sort)? else {
            return Ok(None);
        };
        list.push(sort)?;
    }
    Ok(Some(list))
}

/// The sort of a name, as a list of one.
fn flats_of_name<'a>(
    alloc: Global,
    flats: &FlatTable<'a>,
    name: &'a [u8],
) -> Result<Option<Vec<FlatSort>>, NoMemory>
    ensures { IfOk result (λ found. option_map (λ list. list.items) found ≡ flats_by flats.now (a_name name.now ∷ [])) }
{
    match flat_named(&flats.index, flats.sorts.as_slice(), name) {
        None => Ok(None),
        Some(sort) => Ok(Some(Vec::from_array(alloc, [sort])?)),
    }
}

/// A list of sorts with its number, where it is known and has one.
fn numbered(
    alloc: Global,
    numbers: &BTreeMap<Vec<usize>, usize>,
    sorts: Option<Vec<FlatSort>>,
) -> Result<Option<Domain>, NoMemory>
    ensures { IfOk result (λ found. option_map domain_under found ≡ option_and_then (with_number (number_under numbers.now)) (option_map (λ list. list.items) sorts)) }
{
    let Some(sorts) = sorts else {
        return Ok(None);
    };
    let code = code_of(alloc, sorts.as_slice())?;
    match numbers.get(code.as_slice()) {
        None => Ok(None),
        Some(number) => Ok(Some(Domain {
            number: *number,
            sorts,
        })),
    }
}

impl<'a> DomainTable<'a> {
    /// The domain that sort expressions are, where it is known and has a number.
    ///
    /// # Errors
    ///
    /// `NoMemory` where there is none for the list.
    pub(crate) fn of_trees(
        &self,
        alloc: Global,
        trees: &'a [SortTree],
    ) -> Result<Option<Domain>, NoMemory>
        ensures { IfOk result (λ found. option_map domain_under found ≡ domains_by self.now (expressions_of trees.now)) }
    {
        let sorts = flats_of_trees(alloc, &self.flats, trees)?;
        numbered(alloc, &self.numbers, sorts)
    }

    /// The domain of a constructor, where it is known and has a number.
    ///
    /// # Errors
    ///
    /// `NoMemory` where there is none for the list.
    pub(crate) fn of_fields(
        &self,
        alloc: Global,
        fields: &'a [Field],
    ) -> Result<Option<Domain>, NoMemory>
        ensures { IfOk result (λ found. option_map domain_under found ≡ domains_by self.now (fields_in fields.now)) }
    {
        let sorts = flats_of_fields(alloc, &self.flats, fields)?;
        numbered(alloc, &self.numbers, sorts)
    }

    /// The domain of one argument, of the sort with this name, where it is known and has a number.
    ///
    /// # Errors
    ///
    /// `NoMemory` where there is none for the list.
    pub(crate) fn of_name(&self, alloc: Global, name: &'a [u8]) -> Result<Option<Domain>, NoMemory>
        ensures { IfOk result (λ found. option_map domain_under found ≡ domains_by self.now (a_name name.now ∷ [])) }
    {
        let sorts = flats_of_name(alloc, &self.flats, name)?;
        numbered(alloc, &self.numbers, sorts)
    }
}
