//! Reading the bodies that a component reaches.

ghost use Rattle.std.specs.Prelude.{◌≡◌, ◌<◌, ◌++◌, ◌↔◌, ◌⊎◌, [], ◌∷◌, map, length, Some, slice_get, IfOk, IfSome, MatchOption, OnOk};
ghost use Rattle.std.specs.List.{All, Contains};
ghost use Rattle.data_theory.specs.declared.ids.VarId.{VarId};
ghost use Rattle.data_theory.specs.Complete.{BeginsWith};
ghost use Rattle.term_pool.specs.HeadTrees.{AreIn};
ghost use Rattle.process_terms.specs.PlainProcesses.{plain_component, plain_definition, plain_label, plain_model, plain_process, processes_of, act, call, choice, cond, delta, merge, sync, seq, sum, more_processes, no_processes};
ghost use Rattle.greibach.specs.PlacesInCode.{PlainEntry, plain_entry, plain_part, plain_place, plain_places};
ghost use Rattle.greibach.specs.OccurringVariables.{label_terms, params_at, rest_params, those_among};
ghost use Rattle.lps_core.specs.Fitting.{IsVariable};
ghost use Rattle.proc_unfold.specs.FittingModels.{DefinitionFits, ModelFits, ComponentFits, ProcessFits};
ghost use Rattle.greibach.specs.TablesRead.{Begins, IsTableOf, ReadsWhole};
ghost use Rattle.greibach.specs.FittingPlaces.{PlacesFit, StartsAt};
ghost use Rattle.greibach.specs.Readings.{HasBegun, ReadsDefinition, definitions_in, places_in, IsReading, RestIsRead, CanRead, CanReadAll, ReadsAs, ReadsOn, IsPushed, AreNeeded};

use crate::places::{Entry, Part, Place, Places};
use crate::variables::{add_terms, add_variables, among};
use data_theory::{NoMemory, ProcId, Signature, TermId, VarId};
use indexmap::IndexSet;
use process_terms::{Component, Label, Model, Proc, ProcDef};
use std::alloc::Global;
use term_pool::Pool;

/// What is read from: a specification over a pool and a signature.
#[derive(Clone, Copy)]
pub struct Source<'s, 'a> {
    pub model: &'a Model,
    pub sig: &'s Signature,
    pub pool: &'s Pool,
    pub alloc: Global,
}

/// What was read so far: the places, the reached definitions, and the variables in scope in the order of their binding.
#[derive(Drop)]
pub struct Reader<'a> {
    pub places: Vec<Place<'a>>,
    pub reached: IndexSet<ProcId>,
    pub scope: Vec<VarId>,
}

/// Adds a place, and gives its number. Its parameters are those variables in scope that are needed there.
fn push<'a>(
    alloc: Global,
    reader: &mut Reader<'a>,
    part: Part<'a>,
    rest: Option<usize>,
    needed: &IndexSet<VarId>,
) -> Result<usize, NoMemory>
    ensures scope { OnOk result (reader.new.scope.items ≡ reader.old.scope.items) }
    ensures reached { OnOk result (reader.new.reached.keys ≡ reader.old.reached.keys) }
    ensures pushed { IfOk result (λ n. IsPushed (places_in reader.old) (plain_part part.entry) rest (those_among reader.old.scope.items needed.now.keys) (places_in reader.new) n) }
{
    let place = reader.places.len();
    let params = among(alloc, reader.scope.as_slice(), needed)?;
    reader.places.push(Place { part, rest, params })?;
    Ok(place)
}

/// Adds the parameters of a place to a set.
fn add_params(places: &[Place<'_>], place: usize, set: &mut IndexSet<VarId>) -> Result<(), NoMemory>
    requires { place < length places.now }
    ensures { OnOk result ((v : VarId) → Contains set.new.keys v ↔ (Contains set.old.keys v ⊎ Contains (params_at (map plain_place places.now) place) v)) }
{
    add_variables(places[place].params.as_slice(), set)
}

/// Adds the parameters of a rest, where there is one, to a set.
fn add_rest_params(
    places: &[Place<'_>],
    rest: Option<usize>,
    set: &mut IndexSet<VarId>,
) -> Result<(), NoMemory>
    requires { IfSome rest (λ n. n < length places.now) }
    ensures { OnOk result ((v : VarId) → Contains set.new.keys v ↔ (Contains set.old.keys v ⊎ Contains (rest_params (map plain_place places.now) rest) v)) }
{
    match rest {
        Some(place) => add_params(places, place, set),
        None => Ok(()),
    }
}

/// The variables of terms, and the parameters of a rest.
fn needed_for(
    source: Source<'_, '_>,
    places: &[Place<'_>],
    terms: &[TermId],
    rest: Option<usize>,
) -> Result<IndexSet<VarId>, NoMemory>
    requires within { AreIn source.pool.now.trees terms.now }
    requires there { IfSome rest (λ n. n < length places.now) }
    ensures { IfOk result (λ needed. AreNeeded source.entry.pool.now.trees terms.now (map plain_place places.now) rest needed.keys) }
{
    let mut needed = IndexSet::new(source.alloc);
    add_terms(source.alloc, source.pool, terms, &mut needed)?;
    add_rest_params(places, rest, &mut needed)?;
    Ok(needed)
}

/// Reads `delta`.
fn read_delta<'a>(
    source: Source<'_, 'a>,
    reader: &mut Reader<'a>,
    rest: Option<usize>,
) -> Result<usize, NoMemory>
    requires so_far { IsReading source reader.old }
    requires rest { RestIsRead reader.old rest }
    ensures scope { OnOk result (reader.new.scope.items ≡ reader.old.scope.items) }
    ensures read { IfOk result (λ n. ReadsOn source.entry reader.old reader.new reader.old.scope.items n) }
    ensures reads { IfOk result (λ n. ReadsAs source.entry reader.old reader.new reader.old.scope.items delta rest n) }
{
    let needed = needed_for(source, reader.places.as_slice(), &[], rest)?;
    push(source.alloc, reader, Part::Delta, rest, &needed)
}

/// The arguments of all actions of a label.
fn arguments_of(alloc: Global, label: &Label) -> Result<Vec<TermId>, NoMemory>
    ensures { IfOk result (λ terms. terms.items ≡ label_terms (plain_label label.now)) }
{
    let mut terms = Vec::new(alloc);
    for action in &label.actions {
        terms.extend_from_slice(action.args.as_slice())?;
    }
    Ok(terms)
}

/// Reads a label.
fn read_label<'a>(
    source: Source<'_, 'a>,
    reader: &mut Reader<'a>,
    label: &'a Label,
    rest: Option<usize>,
) -> Result<usize, NoMemory>
    requires fits { CanRead source reader.old (act (plain_label label.now)) }
    requires so_far { IsReading source reader.old }
    requires rest { RestIsRead reader.old rest }
    ensures scope { OnOk result (reader.new.scope.items ≡ reader.old.scope.items) }
    ensures read { IfOk result (λ n. ReadsOn source.entry reader.old reader.new reader.old.scope.items n) }
    ensures reads { IfOk result (λ n. ReadsAs source.entry reader.old reader.new reader.old.scope.items (act (plain_label label.now)) rest n) }
{
    let terms = arguments_of(source.alloc, label)?;
    let needed = needed_for(source, reader.places.as_slice(), terms.as_slice(), rest)?;
    push(source.alloc, reader, Part::Act(label), rest, &needed)
}

/// Counts a process among the reached ones, and gives its number.
fn reach(callee: ProcId, reached: &mut IndexSet<ProcId>) -> Result<usize, NoMemory>
    ensures known { IfOk result (λ k. slice_get reached.new.keys k ≡ Some callee) }
    ensures begins { OnOk result (BeginsWith reached.old.keys reached.new.keys) }
    ensures only { OnOk result ((x : ProcId) → Contains reached.new.keys x → Contains reached.old.keys x ⊎ (callee ≡ x)) }
{
    let (number, _) = reached.insert_full(callee)?;
    Ok(number)
}

/// Reads a call.
fn read_call<'a>(
    source: Source<'_, 'a>,
    reader: &mut Reader<'a>,
    callee: ProcId,
    args: &'a [TermId],
    rest: Option<usize>,
) -> Result<usize, NoMemory>
    requires fits { CanRead source reader.old (call callee args.now) }
    requires so_far { IsReading source reader.old }
    requires rest { RestIsRead reader.old rest }
    ensures scope { OnOk result (reader.new.scope.items ≡ reader.old.scope.items) }
    ensures read { IfOk result (λ n. ReadsOn source.entry reader.old reader.new reader.old.scope.items n) }
    ensures reads { IfOk result (λ n. ReadsAs source.entry reader.old reader.new reader.old.scope.items (call callee args.now) rest n) }
{
    let number = reach(callee, &mut reader.reached)?;
    let needed = needed_for(source, reader.places.as_slice(), args, rest)?;
    push(
        source.alloc,
        reader,
        Part::Call(number, args),
        rest,
        &needed,
    )
}

/// Reads the operands of a `.` from the last one on.
#[cycle(read)]
fn read_chain<'a>(
    source: Source<'_, 'a>,
    reader: &mut Reader<'a>,
    parts: &'a [Proc],
    rest: Option<usize>,
) -> Result<usize, NoMemory>
    requires fits { CanReadAll source reader.old (processes_of (map plain_process parts.now)) }
    requires so_far { IsReading source reader.old }
    requires rest { RestIsRead reader.old rest }
    ensures scope { OnOk result (reader.new.scope.items ≡ reader.old.scope.items) }
    ensures read { IfOk result (λ n. ReadsOn source.entry reader.old reader.new reader.old.scope.items n) }
    ensures reads { IfOk result (λ n. ReadsAs source.entry reader.old reader.new reader.old.scope.items (seq (processes_of (map plain_process parts.now))) rest n) }
{
    if parts.is_empty() {
        return read_delta(source, reader, rest);
    }
    let mut left = parts.len() - 1;
    let mut place = read(source, reader, &parts[left], rest)?;
    while left > 0 {
        left -= 1;
        place = read(source, reader, &parts[left], Some(place))?;
    }
    Ok(place)
}

/// Reads the operands of a `+`.
#[cycle(read)]
fn read_choice<'a>(
    source: Source<'_, 'a>,
    reader: &mut Reader<'a>,
    parts: &'a [Proc],
    rest: Option<usize>,
) -> Result<usize, NoMemory>
    requires fits { CanReadAll source reader.old (processes_of (map plain_process parts.now)) }
    requires so_far { IsReading source reader.old }
    requires rest { RestIsRead reader.old rest }
    ensures scope { OnOk result (reader.new.scope.items ≡ reader.old.scope.items) }
    ensures read { IfOk result (λ n. ReadsOn source.entry reader.old reader.new reader.old.scope.items n) }
    ensures reads { IfOk result (λ n. ReadsAs source.entry reader.old reader.new reader.old.scope.items (choice (processes_of (map plain_process parts.now))) rest n) }
{
    if parts.len() == 1 {
        return read(source, reader, &parts[0], rest);
    }
    let mut operands = Vec::new(source.alloc);
    let mut needed = needed_for(source, reader.places.as_slice(), &[], rest)?;
    for part in parts {
        let place = read(source, reader, part, rest)?;
        add_params(reader.places.as_slice(), place, &mut needed)?;
        operands.push(place)?;
    }
    push(source.alloc, reader, Part::Choice(operands), rest, &needed)
}

/// Reads the operand of a `||` that has only one. Without operands it does nothing.
#[cycle(read)]
fn read_merge<'a>(
    source: Source<'_, 'a>,
    reader: &mut Reader<'a>,
    parts: &'a [Proc],
    rest: Option<usize>,
) -> Result<usize, NoMemory>
    requires fits { CanReadAll source reader.old (processes_of (map plain_process parts.now)) }
    requires so_far { IsReading source reader.old }
    requires rest { RestIsRead reader.old rest }
    ensures scope { OnOk result (reader.new.scope.items ≡ reader.old.scope.items) }
    ensures read { IfOk result (λ n. ReadsOn source.entry reader.old reader.new reader.old.scope.items n) }
    ensures reads { IfOk result (λ n. ReadsAs source.entry reader.old reader.new reader.old.scope.items (merge (processes_of (map plain_process parts.now))) rest n) }
{
    if parts.len() == 1 {
        return read(source, reader, &parts[0], rest);
    }
    read_delta(source, reader, rest)
}

/// Reads the operand of a `|` that has only one. Without operands it does nothing.
#[cycle(read)]
fn read_sync<'a>(
    source: Source<'_, 'a>,
    reader: &mut Reader<'a>,
    parts: &'a [Proc],
    rest: Option<usize>,
) -> Result<usize, NoMemory>
    requires fits { CanReadAll source reader.old (processes_of (map plain_process parts.now)) }
    requires so_far { IsReading source reader.old }
    requires rest { RestIsRead reader.old rest }
    ensures scope { OnOk result (reader.new.scope.items ≡ reader.old.scope.items) }
    ensures read { IfOk result (λ n. ReadsOn source.entry reader.old reader.new reader.old.scope.items n) }
    ensures reads { IfOk result (λ n. ReadsAs source.entry reader.old reader.new reader.old.scope.items (sync (processes_of (map plain_process parts.now))) rest n) }
{
    if parts.len() == 1 {
        return read(source, reader, &parts[0], rest);
    }
    read_delta(source, reader, rest)
}

/// Reads the operand of a sum, with the sum's variables in scope.
#[cycle(read)]
fn read_sum<'a>(
    source: Source<'_, 'a>,
    reader: &mut Reader<'a>,
    vars: &[VarId],
    part: &'a Proc,
    rest: Option<usize>,
) -> Result<usize, NoMemory>
    requires fits { CanRead source reader.old (sum vars.now (plain_process part.now)) }
    requires so_far { IsReading source reader.old }
    requires rest { RestIsRead reader.old rest }
    ensures scope { OnOk result (reader.new.scope.items ≡ reader.old.scope.items) }
    ensures read { IfOk result (λ n. ReadsOn source.entry reader.old reader.new reader.old.scope.items n) }
    ensures reads { IfOk result (λ n. ReadsAs source.entry reader.old reader.new reader.old.scope.items (sum vars.now (plain_process part.now)) rest n) }
{
    let outer = reader.scope.len();
    reader.scope.extend_from_slice(vars)?;
    let mut place = read(source, reader, part, rest)?;
    let mut left = vars.len();
    while left > 0 {
        left -= 1;
        reader.scope.truncate(outer + left);
        let mut needed = needed_for(source, reader.places.as_slice(), &[], rest)?;
        add_params(reader.places.as_slice(), place, &mut needed)?;
        let sum = Part::Sum(vars[left], place);
        place = push(source.alloc, reader, sum, rest, &needed)?;
    }
    Ok(place)
}

/// Reads the operands of a condition.
#[cycle(read)]
fn read_cond<'a>(
    source: Source<'_, 'a>,
    reader: &mut Reader<'a>,
    condition: TermId,
    then: &'a Proc,
    other: &'a Proc,
    rest: Option<usize>,
) -> Result<usize, NoMemory>
    requires fits { CanRead source reader.old (cond condition (plain_process then.now) (plain_process other.now)) }
    requires so_far { IsReading source reader.old }
    requires rest { RestIsRead reader.old rest }
    ensures scope { OnOk result (reader.new.scope.items ≡ reader.old.scope.items) }
    ensures read { IfOk result (λ n. ReadsOn source.entry reader.old reader.new reader.old.scope.items n) }
    ensures reads { IfOk result (λ n. ReadsAs source.entry reader.old reader.new reader.old.scope.items (cond condition (plain_process then.now) (plain_process other.now)) rest n) }
{
    let first = read(source, reader, then, rest)?;
    let second = read(source, reader, other, rest)?;
    let mut needed = needed_for(source, reader.places.as_slice(), &[condition], rest)?;
    add_params(reader.places.as_slice(), first, &mut needed)?;
    add_params(reader.places.as_slice(), second, &mut needed)?;
    push(
        source.alloc,
        reader,
        Part::Cond(condition, first, second),
        rest,
        &needed,
    )
}

/// Reads a process term before a rest, and gives the place where it begins.
#[cycle(read)]
fn read<'a>(
    source: Source<'_, 'a>,
    reader: &mut Reader<'a>,
    process: &'a Proc,
    rest: Option<usize>,
) -> Result<usize, NoMemory>
    requires fits { CanRead source reader.old (plain_process process.now) }
    requires so_far { IsReading source reader.old }
    requires rest { RestIsRead reader.old rest }
    ensures scope { OnOk result (reader.new.scope.items ≡ reader.old.scope.items) }
    ensures read { IfOk result (λ n. ReadsOn source.entry reader.old reader.new reader.old.scope.items n) }
    ensures reads { IfOk result (λ n. ReadsAs source.entry reader.old reader.new reader.old.scope.items (plain_process process.now) rest n) }
{
    match process {
        Proc::Act(label) => read_label(source, reader, label, rest),
        Proc::Call(callee, args) => read_call(source, reader, *callee, args.as_slice(), rest),
        Proc::Choice(parts) => read_choice(source, reader, parts.as_slice(), rest),
        Proc::Seq(parts) => read_chain(source, reader, parts.as_slice(), rest),
        Proc::Cond(condition, then, other) => read_cond(
            source, reader, *condition, then, other, rest,
        ),
        Proc::Sum(vars, part) => read_sum(source, reader, vars.as_slice(), part, rest),
        Proc::Merge(parts) => read_merge(source, reader, parts.as_slice(), rest),
        Proc::Sync(parts) => read_sync(source, reader, parts.as_slice(), rest),
        _ => read_delta(source, reader, rest),
    }
}

/// Reads a process term over these parameters, and gives the place of all of it. All the parameters count as free in it.
fn read_whole<'a>(
    source: Source<'_, 'a>,
    reader: &mut Reader<'a>,
    params: &[VarId],
    process: &'a Proc,
) -> Result<usize, NoMemory>
    requires params { All (IsVariable source.sig.now) params.now }
    requires fits { ProcessFits source.sig.now source.pool.now.trees (definitions_in source) params.now (plain_process process.now) }
    requires so_far { IsReading source reader.old }
    ensures scope { OnOk result (reader.new.scope.items ≡ params.now) }
    ensures read { IfOk result (λ n. ReadsOn source.entry reader.old reader.new params.now n) }
    ensures whole { IfOk result (λ n. ReadsWhole source.entry.pool.now.trees (places_in reader.old) (places_in reader.new) reader.old.reached.keys reader.new.reached.keys params.now (plain_process process.now) n) }
{
    reader.scope = params.to_vec(source.alloc)?;
    let body = read(source, reader, process, None)?;
    let place = reader.places.len();
    reader.places.push(Place {
        part: Part::Whole(body),
        rest: None,
        params: params.to_vec(source.alloc)?,
    })?;
    Ok(place)
}

/// Reads a definition.
fn read_definition<'a>(
    source: Source<'_, 'a>,
    reader: &mut Reader<'a>,
    process: ProcId,
    definition: &'a ProcDef,
) -> Result<Entry<'a>, NoMemory>
    requires definition { DefinitionFits source.sig.now source.pool.now.trees (definitions_in source) (plain_definition definition.now) }
    requires so_far { IsReading source reader.old }
    ensures read { IfOk result (λ e. ReadsDefinition source.entry reader.old reader.new process (plain_definition definition.now) (plain_entry e)) }
    ensures whole { IfOk result (λ e. ReadsWhole source.entry.pool.now.trees (places_in reader.old) (places_in reader.new) reader.old.reached.keys reader.new.reached.keys definition.now.params.items (plain_process definition.now.body) e.place) }
{
    let params = definition.params.as_slice();
    let place = read_whole(source, reader, params, &definition.body)?;
    Ok(Entry {
        process,
        place,
        params,
    })
}

/// Reads the term that a component is, if it is one. Else its definition is reached.
fn read_start<'a>(
    source: Source<'_, 'a>,
    reader: &mut Reader<'a>,
    start: &'a Component,
) -> Result<Option<usize>, NoMemory>
    requires fits { ComponentFits source.sig.now source.pool.now.trees (definitions_in source) (plain_component start.now) }
    requires so_far { IsReading source reader.old }
    requires places { places_in reader.old ≡ [] }
    requires none { reader.old.reached.keys ≡ [] }
    ensures so_far { OnOk result (IsReading source.entry reader.new) }
    ensures begun { IfOk result (HasBegun (places_in reader.new) reader.new.reached.keys (plain_component start.now)) }
    ensures begins { IfOk result (Begins source.entry.pool.now.trees (plain_component start.now) (places_in reader.new) reader.new.reached.keys) }
{
    match start {
        Component::Call(process, _) => {
            let _ = reach(*process, &mut reader.reached)?;
            Ok(None)
        }
        Component::Term(process) => Ok(Some(read_whole(source, reader, &[], process)?)),
    }
}

/// Where a component begins: at its own term, or at the first definition.
fn first_place(own: Option<usize>, entries: &[Entry<'_>]) -> usize
    requires { MatchOption own (0 < length entries.now) (λ n. Unit {0}) }
    ensures { MatchOption own ((e : PlainEntry) → slice_get (map plain_entry entries.now) 0 ≡ Some e → result ≡ e.place) (λ n. result ≡ n) }
{
    match own {
        Some(place) => place,
        None => entries[0].place,
    }
}

/// Reads a component's start and the definitions that it reaches.
pub fn read_places<'a>(source: Source<'_, 'a>, start: &'a Component) -> Result<Places<'a>, NoMemory>
    requires model { ModelFits source.sig.now source.pool.now.trees (plain_model source.model.now) }
    requires fits { ComponentFits source.sig.now source.pool.now.trees (definitions_in source) (plain_component start.now) }
    ensures fit { IfOk result (λ t. PlacesFit source.entry.sig.now source.entry.pool.now.trees (plain_places t)) }
    ensures starts { IfOk result (λ t. StartsAt (definitions_in source.entry) (plain_component start.now) (plain_places t)) }
    ensures table { IfOk result (λ t. IsTableOf source.entry.pool.now.trees (definitions_in source.entry) (plain_component start.now) (plain_places t)) }
{
    let alloc = source.alloc;
    let procs: &'a [ProcDef] = source.model.procs.as_slice();
    let mut reader = Reader {
        places: Vec::new(alloc),
        reached: IndexSet::new(alloc),
        scope: Vec::new(alloc),
    };
    let own = read_start(source, &mut reader, start)?;
    let mut entries: Vec<Entry<'a>> = Vec::new(alloc);
    while entries.len() < reader.reached.len() {
        let process = reader.reached[entries.len()];
        let entry = read_definition(source, &mut reader, process, &procs[process.0])?;
        entries.push(entry)?;
    }
    let start = first_place(own, entries.as_slice());
    Ok(Places {
        places: reader.places,
        start,
        entries,
    })
}
