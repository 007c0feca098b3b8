//! The summands of what stands at a place.

ghost use Rattle.std.specs.Prelude.{◌≡◌, ◌<◌, ◌++◌, ◌∷◌, [], map, length, IfOk, IfSome, OnOk};
ghost use Rattle.std.specs.List.{All, Contains};
ghost use Rattle.data_theory.specs.declared.ids.VarId.{VarId};
ghost use Rattle.data_theory.specs.Table.{bool_sort};
ghost use Rattle.term_pool.specs.HeadTrees.{AreIn};
ghost use Rattle.term_pool.specs.Pools.{Extends};
ghost use Rattle.term_pool.specs.Bindings.{listed_terms};
ghost use Rattle.process_terms.specs.PlainProcesses.{plain_label};
ghost use Rattle.lps_core.specs.Fitting.{IsVariable};
ghost use Rattle.lps_core.specs.Naming.{GrowsByNames};
ghost use Rattle.lps_core.specs.TreeSummands.{IsActionIn};
ghost use Rattle.greibach.specs.PlacesInCode.{plain_places};
ghost use Rattle.greibach.specs.ListedVariables.{listed_variables};
ghost use Rattle.greibach.specs.OnwardCalls.{OnwardIsListed};
ghost use Rattle.greibach.specs.AddedLabels.{LabelAdded};
ghost use Rattle.proc_unfold.specs.FittingModels.{TermFits};
ghost use Rattle.greibach.specs.Surroundings.{plain_around, plain_unfolding, Added, CanAdd, IsCovered, IsCoveredBut, CallStands};
ghost use Rattle.greibach.specs.AddedHeads.{Adds, AddsBranches, AddsCalled, AddsEach, AddsEntered, AddsGuarded, AddsSummed, Grew};

use crate::calls::{Call, add_waiting, onward_calls};
use crate::environments::{bound_to, terms_for, with_first};
use crate::forms::GreibachSummand;
use crate::lists::with_last;
use crate::places::{Part, Place, Places};
use crate::renewing::renew;
use data_theory::{FunId, NoMemory, Signature, TermId, VarId};
use indexmap::IndexSet;
use lps_core::{conjoined, parts_of, put_all, put_label, variable_term};
use process_terms::Label;
use std::alloc::Global;
use term_pool::{Head, Pool};

/// `!`
const NOT: FunId = FunId(8);

/// What stands around a place on the way down from its equation: the equation's parameters, the sums, the terms for the variables
/// of the body, the parts of the conditions, and how many levels there is still room for.
#[derive(Clone, Copy)]
pub struct Around<'s> {
    pub params: &'s [VarId],
    pub sums: &'s [VarId],
    pub by: &'s [(VarId, TermId)],
    pub parts: &'s [TermId],
    pub room: usize,
}

/// An equation under way: the places that were met, the calls of places that wait behind entered calls, the innermost last, and the
/// summands so far.
#[derive(Drop)]
pub struct Unfolding {
    pub met: IndexSet<usize>,
    pub waiting: Vec<Call>,
    pub summands: Vec<GreibachSummand>,
}

/// Adds the summand of a label.
fn add_label(
    alloc: Global,
    places: &Places<'_>,
    pool: &mut Pool,
    around: Around<'_>,
    label: &Label,
    rest: Option<usize>,
    under_way: &mut Unfolding,
) -> Result<(), NoMemory>
    requires parts { AreIn pool.old.trees around.parts.now }
    requires listed { AreIn pool.old.trees (listed_terms around.by.now) }
    requires label { All (IsActionIn pool.old.trees) (plain_label label.now) }
    requires onward { OnwardIsListed (plain_places places.now) pool.old.trees around.by.now rest }
    ensures kept { Extends pool.old.trees pool.new.trees }
    ensures constants { pool.new.constants ≡ pool.old.constants }
    ensures added { OnOk result (LabelAdded pool.old.trees pool.new.trees (plain_places places.now) (plain_around around.entry) (plain_label label.now) rest (plain_unfolding under_way.old) (plain_unfolding under_way.new)) }
{
    let cond = conjoined(pool, around.parts.to_vec(alloc)?)?;
    let label = put_label(alloc, pool, label, around.by)?;
    let mut next = onward_calls(alloc, places, pool, rest, around.by, &mut under_way.met)?;
    add_waiting(
        alloc,
        under_way.waiting.as_slice(),
        &mut under_way.met,
        &mut next,
    )?;
    let sums = around.sums.to_vec(alloc)?;
    under_way.summands.push(GreibachSummand {
        sums,
        cond,
        label,
        next,
    })?;
    Ok(())
}

/// Adds the summands of a place under a further condition.
#[cycle(heads)]
fn add_guarded(
    alloc: Global,
    places: &Places<'_>,
    sig: &mut Signature,
    pool: &mut Pool,
    around: Around<'_>,
    cond: TermId,
    place: usize,
    under_way: &mut Unfolding,
) -> Result<(), NoMemory>
    requires can { CanAdd sig.old pool.old.trees (plain_places places.now) (plain_around around) (plain_unfolding under_way.old) }
    requires condition { TermFits sig.old pool.old.trees (around.sums.now ++ around.params.now) bool_sort cond }
    requires place { IsCovered (plain_places places.now).places around.by.now place }
    ensures grown { GrowsByNames sig.old sig.new }
    ensures kept { Extends pool.old.trees pool.new.trees }
    ensures constants { pool.new.constants ≡ pool.old.constants }
    ensures added { OnOk result (Added sig.old sig.new pool.old.trees pool.new.trees (plain_places places.now) around.entry.params.now (plain_unfolding under_way.old) (plain_unfolding under_way.new)) }
    ensures heads { OnOk result (Grew sig.new pool.new.trees (plain_unfolding under_way.old) (plain_unfolding under_way.new) (λ e. AddsGuarded e (plain_places places.now) (plain_around around.entry) (plain_unfolding under_way.old).waiting cond place)) }
{
    let mut parts = around.parts.to_vec(alloc)?;
    parts_of(pool, cond, &mut parts)?;
    let inside = Around {
        params: around.params,
        sums: around.sums,
        by: around.by,
        parts: parts.as_slice(),
        room: around.room,
    };
    add(alloc, places, sig, pool, inside, place, under_way)
}

/// Adds the summands of a sum's operand, with another variable for its own.
#[cycle(heads)]
fn add_summed(
    alloc: Global,
    places: &Places<'_>,
    sig: &mut Signature,
    pool: &mut Pool,
    around: Around<'_>,
    var: VarId,
    place: usize,
    under_way: &mut Unfolding,
) -> Result<(), NoMemory>
    requires can { CanAdd sig.old pool.old.trees (plain_places places.now) (plain_around around) (plain_unfolding under_way.old) }
    requires variable { IsVariable sig.old var }
    requires place { IsCoveredBut (plain_places places.now).places around.by.now var place }
    ensures grown { GrowsByNames sig.old sig.new }
    ensures kept { Extends pool.old.trees pool.new.trees }
    ensures constants { pool.new.constants ≡ pool.old.constants }
    ensures added { OnOk result (Added sig.old sig.new pool.old.trees pool.new.trees (plain_places places.now) around.entry.params.now (plain_unfolding under_way.old) (plain_unfolding under_way.new)) }
    ensures heads { OnOk result (Grew sig.new pool.new.trees (plain_unfolding under_way.old) (plain_unfolding under_way.new) (λ e. AddsSummed e (plain_places places.now) (plain_around around.entry) (plain_unfolding under_way.old).waiting var place)) }
{
    let other = renew(sig, var)?;
    let term = variable_term(pool, other)?;
    let by = with_first(alloc, var, term, around.by)?;
    let sums = with_last(alloc, around.sums, other)?;
    let inside = Around {
        params: around.params,
        sums: sums.as_slice(),
        by: by.as_slice(),
        parts: around.parts,
        room: around.room,
    };
    add(alloc, places, sig, pool, inside, place, under_way)
}

/// Adds the summands of a called definition.
#[cycle(heads)]
fn add_entered(
    alloc: Global,
    places: &Places<'_>,
    sig: &mut Signature,
    pool: &mut Pool,
    around: Around<'_>,
    callee: usize,
    args: &[TermId],
    under_way: &mut Unfolding,
) -> Result<(), NoMemory>
    requires can { CanAdd sig.old pool.old.trees (plain_places places.now) (plain_around around) (plain_unfolding under_way.old) }
    requires call { CallStands sig.old pool.old.trees (plain_places places.now) around.by.now callee args.now }
    ensures grown { GrowsByNames sig.old sig.new }
    ensures kept { Extends pool.old.trees pool.new.trees }
    ensures constants { pool.new.constants ≡ pool.old.constants }
    ensures added { OnOk result (Added sig.old sig.new pool.old.trees pool.new.trees (plain_places places.now) around.entry.params.now (plain_unfolding under_way.old) (plain_unfolding under_way.new)) }
    ensures heads { OnOk result (Grew sig.new pool.new.trees (plain_unfolding under_way.old) (plain_unfolding under_way.new) (λ e. AddsEntered e (plain_places places.now) (plain_around around.entry) (plain_unfolding under_way.old).waiting callee args.now)) }
{
    let entry = places.entries[callee];
    let args = put_all(alloc, pool, args, around.by)?;
    let by = bound_to(alloc, entry.params, args.as_slice())?;
    let inside = Around {
        params: around.params,
        sums: around.sums,
        by: by.as_slice(),
        parts: around.parts,
        room: around.room,
    };
    add(alloc, places, sig, pool, inside, entry.place, under_way)
}

/// Adds the summands of a called definition, with what follows the call waiting behind them.
#[cycle(heads)]
fn add_called(
    alloc: Global,
    places: &Places<'_>,
    sig: &mut Signature,
    pool: &mut Pool,
    around: Around<'_>,
    callee: usize,
    args: &[TermId],
    rest: Option<usize>,
    under_way: &mut Unfolding,
) -> Result<(), NoMemory>
    requires can { CanAdd sig.old pool.old.trees (plain_places places.now) (plain_around around) (plain_unfolding under_way.old) }
    requires call { CallStands sig.old pool.old.trees (plain_places places.now) around.by.now callee args.now }
    requires rest { IfSome rest (IsCovered (plain_places places.now).places around.by.now) }
    ensures grown { GrowsByNames sig.old sig.new }
    ensures kept { Extends pool.old.trees pool.new.trees }
    ensures constants { pool.new.constants ≡ pool.old.constants }
    ensures added { OnOk result (Added sig.old sig.new pool.old.trees pool.new.trees (plain_places places.now) around.entry.params.now (plain_unfolding under_way.old) (plain_unfolding under_way.new)) }
    ensures heads { OnOk result (Grew sig.new pool.new.trees (plain_unfolding under_way.old) (plain_unfolding under_way.new) (λ e. AddsCalled e (plain_places places.now) (plain_around around.entry) (plain_unfolding under_way.old).waiting callee args.now rest)) }
{
    let Some(place) = rest else {
        return add_entered(alloc, places, sig, pool, around, callee, args, under_way);
    };
    let params = places.places[place].params.as_slice();
    let behind = terms_for(alloc, params, around.by)?;
    let depth = under_way.waiting.len();
    under_way.waiting.push((place, behind))?;
    add_entered(alloc, places, sig, pool, around, callee, args, under_way)?;
    under_way.waiting.truncate(depth);
    Ok(())
}

/// Adds the summands of the operands of a `+`, from the left.
#[cycle(heads)]
fn add_operands(
    alloc: Global,
    places: &Places<'_>,
    sig: &mut Signature,
    pool: &mut Pool,
    around: Around<'_>,
    operands: &[usize],
    under_way: &mut Unfolding,
) -> Result<(), NoMemory>
    requires can { CanAdd sig.old pool.old.trees (plain_places places.now) (plain_around around) (plain_unfolding under_way.old) }
    requires operands { All (IsCovered (plain_places places.now).places around.by.now) operands.now }
    ensures grown { GrowsByNames sig.old sig.new }
    ensures kept { Extends pool.old.trees pool.new.trees }
    ensures constants { pool.new.constants ≡ pool.old.constants }
    ensures added { OnOk result (Added sig.old sig.new pool.old.trees pool.new.trees (plain_places places.now) around.entry.params.now (plain_unfolding under_way.old) (plain_unfolding under_way.new)) }
    ensures heads { OnOk result (Grew sig.new pool.new.trees (plain_unfolding under_way.old) (plain_unfolding under_way.new) (λ e. AddsEach e (plain_places places.now) (plain_around around.entry) (plain_unfolding under_way.old).waiting operands.now)) }
{
    for operand in operands {
        add(alloc, places, sig, pool, around, *operand, under_way)?;
    }
    Ok(())
}

/// Adds the summands of the operands of a condition.
#[cycle(heads)]
fn add_branches(
    alloc: Global,
    places: &Places<'_>,
    sig: &mut Signature,
    pool: &mut Pool,
    around: Around<'_>,
    condition: TermId,
    then: usize,
    other: usize,
    under_way: &mut Unfolding,
) -> Result<(), NoMemory>
    requires can { CanAdd sig.old pool.old.trees (plain_places places.now) (plain_around around) (plain_unfolding under_way.old) }
    requires condition { TermFits sig.old pool.old.trees (listed_variables around.by.now) bool_sort condition }
    requires then { IsCovered (plain_places places.now).places around.by.now then }
    requires other { IsCovered (plain_places places.now).places around.by.now other }
    ensures grown { GrowsByNames sig.old sig.new }
    ensures kept { Extends pool.old.trees pool.new.trees }
    ensures constants { pool.new.constants ≡ pool.old.constants }
    ensures added { OnOk result (Added sig.old sig.new pool.old.trees pool.new.trees (plain_places places.now) around.entry.params.now (plain_unfolding under_way.old) (plain_unfolding under_way.new)) }
    ensures heads { OnOk result (Grew sig.new pool.new.trees (plain_unfolding under_way.old) (plain_unfolding under_way.new) (λ e. AddsBranches e (plain_places places.now) (plain_around around.entry) (plain_unfolding under_way.old).waiting condition then other)) }
{
    let holds = pool.subst(condition, around.by)?;
    add_guarded(alloc, places, sig, pool, around, holds, then, under_way)?;
    let fails = pool.intern(Head::Fun(NOT), &[holds])?;
    add_guarded(alloc, places, sig, pool, around, fails, other, under_way)
}

/// Adds the summands of what stands at a place, from the left.
#[cycle(heads)]
pub fn add(
    alloc: Global,
    places: &Places<'_>,
    sig: &mut Signature,
    pool: &mut Pool,
    around: Around<'_>,
    place: usize,
    under_way: &mut Unfolding,
) -> Result<(), NoMemory>
    requires can { CanAdd sig.old pool.old.trees (plain_places places.now) (plain_around around) (plain_unfolding under_way.old) }
    requires place { IsCovered (plain_places places.now).places around.by.now place }
    ensures grown { GrowsByNames sig.old sig.new }
    ensures kept { Extends pool.old.trees pool.new.trees }
    ensures constants { pool.new.constants ≡ pool.old.constants }
    ensures added { OnOk result (Added sig.old sig.new pool.old.trees pool.new.trees (plain_places places.now) around.entry.params.now (plain_unfolding under_way.old) (plain_unfolding under_way.new)) }
    ensures heads { OnOk result (Grew sig.new pool.new.trees (plain_unfolding under_way.old) (plain_unfolding under_way.new) (λ e. Adds e (plain_places places.now) (plain_around around.entry) (plain_unfolding under_way.old).waiting place)) }
{
    if around.room == 0 {
        return Err(NoMemory);
    }
    let inside = Around {
        params: around.params,
        sums: around.sums,
        by: around.by,
        parts: around.parts,
        room: around.room - 1,
    };
    let here: &Place<'_> = &places.places[place];
    match &here.part {
        Part::Delta => Ok(()),
        Part::Act(label) => add_label(alloc, places, pool, inside, *label, here.rest, under_way),
        Part::Choice(operands) => add_operands(
            alloc,
            places,
            sig,
            pool,
            inside,
            operands.as_slice(),
            under_way,
        ),
        Part::Cond(condition, then, other) => add_branches(
            alloc, places, sig, pool, inside, *condition, *then, *other, under_way,
        ),
        Part::Sum(var, operand) => add_summed(
            alloc, places, sig, pool, inside, *var, *operand, under_way,
        ),
        Part::Call(callee, args) => add_called(
            alloc, places, sig, pool, inside, *callee, *args, here.rest, under_way,
        ),
        Part::Whole(body) => add(alloc, places, sig, pool, inside, *body, under_way),
    }
}
