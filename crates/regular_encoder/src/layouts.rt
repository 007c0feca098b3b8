//! Columns, and the place of each equation's parameters among them.

ghost use Rattle.std.specs.Prelude.{◌≡◌, ◌<◌, ◌≤◌, length, map, slice_get, Some, IfOk, OnOk};
ghost use Rattle.std.specs.List.{All, AllZip, Contains};
ghost use Rattle.data_theory.specs.Declarations.{NoSortIsEmpty};
ghost use Rattle.data_theory.specs.IdData.{data_meant};
ghost use Rattle.data_theory.specs.IdTerms.{IsGrown};
ghost use Rattle.data_theory.specs.Taken.{with_name};
ghost use Rattle.data_theory.specs.WholeSignatures.{IsSignature};
ghost use Rattle.term_pool.specs.ConstructorValues.{HasValue};
ghost use Rattle.term_pool.specs.Constants.{AreConstants, KeepsConstants};
ghost use Rattle.term_pool.specs.Pools.{Extends};
ghost use Rattle.lps_core.specs.Fitting.{sort_of_variable, IsVariable};
ghost use Rattle.lps_core.specs.Naming.{name_of, GrowsByNames, ParamsHaveOwnNames};
ghost use Rattle.greibach.specs.FittingForms.{FormFits};
ghost use Rattle.greibach.specs.PlainForms.{plain_equation, plain_form, PlainEquation};
ghost use Rattle.regular_encoder.specs.FormColumns.{all_params, kind_of, layout_params, places_in, with_kinds, AreColumns, AreFirstTerms, AreKindsAt, HasItsColumns, IsColumn, IsControl, IsFirstTerm, IsKindIn, IsOwnName, ServesTheEncoding};
ghost use Rattle.regular_encoder.specs.Layouts.{LaidOut};
ghost use Rattle.regular_encoder.specs.TreeEncoding.{plain_layout, plain_place};

use data_theory::{NameId, NoMemory, Signature, SortId, TermId, VarId};
use greibach::{Greibach, GreibachEquation};
use indexmap::IndexSet;
use lps_core::{fresh_from, has_name, signature_stands, used_names};
use std::alloc::Global;
use term_pool::Pool;

/// The columns, for each equation the columns of its parameters, in their order, the control parameter where there are several
/// equations, and the first values of the columns.
#[derive(Debug, Drop)]
pub struct Layout {
    pub columns: Vec<VarId>,
    pub places: Vec<Vec<VarId>>,
    pub control: Option<VarId>,
    pub firsts: Vec<TermId>,
}

const POS: SortId = SortId(1);

/// The places of parameters' names and sorts among these. Those that aren't there are added.
fn add_kinds(
    alloc: Global,
    sig: &Signature,
    params: &[VarId],
    kinds: &mut IndexSet<(NameId, SortId)>,
) -> Result<Vec<usize>, NoMemory>
    requires { All (IsVariable sig.now) params.now }
    ensures kinds { OnOk result (kinds.new.keys ≡ with_kinds kinds.old.keys (map (kind_of sig.now) params.now)) }
    ensures places { IfOk result (λ places. AreKindsAt sig.now kinds.new.keys params.now places.items) }
{
    let mut places = Vec::new(alloc);
    for param in params {
        let kind = (sig.var_name(*param), sig.var_sort(*param));
        let (place, _) = kinds.insert_full(kind)?;
        places.push(place)?;
    }
    Ok(places)
}

/// For each equation the places of its parameters' names and sorts. Those that aren't there are added.
pub fn add_all_kinds(
    alloc: Global,
    sig: &Signature,
    equations: &[GreibachEquation],
    kinds: &mut IndexSet<(NameId, SortId)>,
) -> Result<Vec<Vec<usize>>, NoMemory>
    requires { All (λ (q : PlainEquation). All (IsVariable sig.now) q.params) (map plain_equation equations.now) }
    ensures kinds { OnOk result (kinds.new.keys ≡ with_kinds kinds.old.keys (map (kind_of sig.now) (all_params (map plain_equation equations.now)))) }
    ensures places { IfOk result (λ places. AllZip (λ (q : PlainEquation) at. AreKindsAt sig.now kinds.new.keys q.params at) (map plain_equation equations.now) (places_in places.items)) }
{
    let mut places = Vec::new(alloc);
    for equation in equations {
        places.push(add_kinds(alloc, sig, equation.params.as_slice(), kinds)?)?;
    }
    Ok(places)
}

/// A name that is none of these, or a fresh one with it as the base.
fn own_name(
    alloc: Global,
    sig: &mut Signature,
    names: &IndexSet<NameId>,
    name: NameId,
) -> Result<NameId, NoMemory>
    requires { name.0 < length sig.old.texts }
    ensures named { IfOk result (λ own. IsOwnName (λ n. Contains names.now.keys n) sig.old name sig.new own) }
    ensures grown { GrowsByNames sig.old sig.new }
{
    signature_stands(sig);
    if !has_name(names, name) {
        return Ok(name);
    }
    Ok(fresh_from(alloc, sig, name)?)
}

/// Adds a column of this name and sort, with another name where these have its own, and then its name to these.
fn add_column(
    alloc: Global,
    sig: &mut Signature,
    names: &mut IndexSet<NameId>,
    kind: (NameId, SortId),
) -> Result<VarId, NoMemory>
    requires name { kind.0.0 < length sig.old.texts }
    requires sort { kind.1.0 < length sig.old.sorts }
    ensures column { IfOk result (λ column. IsColumn (λ n. Contains names.old.keys n) sig.old kind sig.new column) }
    ensures names { IfOk result (λ column. names.new.keys ≡ with_name names.old.keys (name_of sig.new column)) }
    ensures grown { GrowsByNames sig.old sig.new }
{
    let name = own_name(alloc, sig, names, kind.0)?;
    let column = sig.add_var(name, kind.1)?;
    names.insert(name)?;
    Ok(column)
}

/// Adds a column for each name and sort.
fn add_columns(
    alloc: Global,
    sig: &mut Signature,
    kinds: &IndexSet<(NameId, SortId)>,
) -> Result<Vec<VarId>, NoMemory>
    requires { All (IsKindIn sig.old) kinds.now.keys }
    ensures columns { IfOk result (λ columns. AreColumns sig.old kinds.now.keys sig.new columns.items) }
    ensures grown { GrowsByNames sig.old sig.new }
{
    signature_stands(sig);
    let mut names = used_names(alloc, sig, &[])?;
    let mut columns = Vec::new(alloc);
    for number in 0..kinds.len() {
        columns.push(add_column(alloc, sig, &mut names, kinds[number])?)?;
    }
    Ok(columns)
}

/// The columns at these places.
fn columns_at(alloc: Global, columns: &[VarId], places: &[usize]) -> Result<Vec<VarId>, NoMemory>
    requires { All (λ i. i < length columns.now) places.now }
    ensures { IfOk result (λ found. AllZip (λ i c. slice_get columns.now i ≡ Some c) places.now found.items) }
{
    let mut found = Vec::new(alloc);
    for place in places {
        found.push(columns[*place])?;
    }
    Ok(found)
}

/// For each equation the columns at its places.
fn all_columns_at(
    alloc: Global,
    columns: &[VarId],
    places: &[Vec<usize>],
) -> Result<Vec<Vec<VarId>>, NoMemory>
    requires { All (All (λ i. i < length columns.now)) (places_in places.now) }
    ensures { IfOk result (λ found. AllZip (AllZip (λ i c. slice_get columns.now i ≡ Some c)) (places_in places.now) (map plain_place found.items)) }
{
    let mut found = Vec::new(alloc);
    for at in places {
        found.push(columns_at(alloc, columns, at.as_slice())?)?;
    }
    Ok(found)
}

/// Adds the control parameter, where there are several equations.
fn add_control(sig: &mut Signature, equations: usize) -> Result<Option<VarId>, NoMemory>
    requires { 1 ≤ equations }
    ensures control { IfOk result (λ control. IsControl sig.old equations sig.new control) }
    ensures grown { GrowsByNames sig.old sig.new }
{
    signature_stands(sig);
    if equations == 1 {
        return Ok(None);
    }
    let name = sig.fresh("s")?;
    Ok(Some(sig.add_var(name, POS)?))
}

/// The first value of a column: the argument at its place, or its sort's closed term.
fn first_value(
    sig: &mut Signature,
    pool: &mut Pool,
    column: VarId,
    place: &[VarId],
    args: &[TermId],
) -> Result<TermId, NoMemory>
    requires variable { IsVariable sig.old column }
    requires long { length place.now ≡ length args.now }
    requires inhabited { HasValue sig.old (sort_of_variable sig.old column) }
    requires constants { AreConstants sig.old pool.old.constants }
    ensures value { IfOk result (λ term. IsFirstTerm place.now args.now sig.old pool.old column sig.new pool.new term) }
    ensures grown { IsGrown sig.old sig.new }
    ensures kept { Extends pool.old.trees pool.new.trees }
    ensures constants { AreConstants sig.new pool.new.constants }
    ensures constants_kept { KeepsConstants pool.old.constants pool.new.constants }
{
    for number in 0..place.len() {
        if place[number].0 == column.0 {
            return Ok(args[number]);
        }
    }
    let sort = sig.var_sort(column);
    Ok(pool.closed_term(sig, sort)?)
}

/// The first values of columns.
fn first_values(
    alloc: Global,
    sig: &mut Signature,
    pool: &mut Pool,
    columns: &[VarId],
    place: &[VarId],
    args: &[TermId],
) -> Result<Vec<TermId>, NoMemory>
    requires variables { All (IsVariable sig.old) columns.now }
    requires long { length place.now ≡ length args.now }
    requires inhabited { All (λ c. HasValue sig.old (sort_of_variable sig.old c)) columns.now }
    requires constants { AreConstants sig.old pool.old.constants }
    ensures values { IfOk result (λ firsts. AreFirstTerms place.now args.now sig.old pool.old columns.now sig.new pool.new firsts.items) }
    ensures grown { IsGrown sig.old sig.new }
    ensures kept { Extends pool.old.trees pool.new.trees }
    ensures constants { AreConstants sig.new pool.new.constants }
    ensures constants_kept { KeepsConstants pool.old.constants pool.new.constants }
{
    let mut firsts = Vec::new(alloc);
    for column in columns {
        firsts.push(first_value(sig, pool, *column, place, args)?)?;
    }
    Ok(firsts)
}

/// Adds the columns of a form: one for each name and sort of its parameters, in their order, with a name that no function and no
/// earlier column has. Where the form has several equations, it adds a control parameter of sort Pos too. The first values of the first
/// equation's columns are its arguments, and those of the others their sorts' closed terms.
///
/// After `NoMemory` the pool and the signature may have got some of this. What was there stays, then too.
pub fn lay_out(
    alloc: Global,
    form: &Greibach,
    sig: &mut Signature,
    pool: &mut Pool,
) -> Result<Layout, NoMemory>
    requires fits { FormFits sig.old pool.old.trees (plain_form form.now) }
    requires inhabited { NoSortIsEmpty (data_meant sig.old) }
    requires constants { AreConstants sig.old pool.old.constants }
    ensures columns { IfOk result (λ layout. HasItsColumns sig.old pool.old (plain_form form.now) sig.new pool.new (plain_layout layout) layout.firsts.items) }
    ensures laid { IfOk result (λ layout. LaidOut (length sig.old.variables) sig.new (plain_form form.now) (plain_layout layout)) }
    ensures serves { IfOk result (λ layout. ServesTheEncoding sig.new pool.new.trees (plain_form form.now) (plain_layout layout) layout.firsts.items) }
    ensures names { IfOk result (λ layout. ParamsHaveOwnNames sig.new (layout_params (plain_layout layout))) }
    ensures stands { OnOk result (IsSignature sig.new) }
    ensures inhabited { OnOk result (NoSortIsEmpty (data_meant sig.new)) }
    ensures grown { IsGrown sig.old sig.new }
    ensures kept { Extends pool.old.trees pool.new.trees }
    ensures constants { AreConstants sig.new pool.new.constants }
    ensures constants_kept { KeepsConstants pool.old.constants pool.new.constants }
{
    signature_stands(sig);
    let equations = form.equations.as_slice();
    let mut kinds = IndexSet::new(alloc);
    let kinds_at = add_all_kinds(alloc, sig, equations, &mut kinds)?;
    let columns = add_columns(alloc, sig, &kinds)?;
    let places = all_columns_at(alloc, columns.as_slice(), kinds_at.as_slice())?;
    let control = add_control(sig, equations.len())?;
    let place = places[0].as_slice();
    let firsts = first_values(
        alloc,
        sig,
        pool,
        columns.as_slice(),
        place,
        form.init.as_slice(),
    )?;
    signature_stands(sig);
    Ok(Layout {
        columns,
        places,
        control,
        firsts,
    })
}
