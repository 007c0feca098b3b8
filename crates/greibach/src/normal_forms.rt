//! The Greibach form of a component.

ghost use Rattle.std.specs.Prelude.{◌≡◌, ◌<◌, [], map, length, IfOk, OnOk};
ghost use Rattle.std.specs.List.{All};
ghost use Rattle.data_theory.specs.WholeSignatures.{IsSignature};
ghost use Rattle.data_theory.specs.IdTrees.{variable};
ghost use Rattle.term_pool.specs.HeadTrees.{trees_at, AreIn};
ghost use Rattle.term_pool.specs.Pools.{Extends};
ghost use Rattle.process_terms.specs.PlainProcesses.{plain_component, plain_definition, plain_model};
ghost use Rattle.lps_core.specs.Fitting.{IsVariable};
ghost use Rattle.lps_core.specs.Naming.{GrowsByNames};
ghost use Rattle.proc_unfold.specs.FittingModels.{ComponentFits, ModelFits};
ghost use Rattle.greibach.specs.FittingForms.{FormFits};
ghost use Rattle.greibach.specs.ComponentForms.{arguments_of, IsBisimilarForm, IsFormOf};
ghost use Rattle.greibach.specs.LinearShapes.{KeepsLinearShape};
ghost use Rattle.greibach.specs.PlainComponents.{IsPlainForm};
ghost use Rattle.greibach.specs.Scopes.{BindsItsVariablesOnce, HasSequentialBodies};
ghost use Rattle.greibach.specs.PlainForms.{plain_equation, plain_form};
ghost use Rattle.greibach.specs.PlacesInCode.{plain_places};
ghost use Rattle.greibach.specs.FittingPlaces.{PlacesFitSince};
ghost use Rattle.greibach.specs.AddedHeads.{Later};
ghost use Rattle.greibach.specs.MadeEquations.{IsEquationAt, MakesAll};
ghost use Rattle.greibach.specs.Surroundings.{plain_unfolding, EquationMade, FormMade, HasUsableNames, ParametersStand};

use crate::environments::bound_to;
use crate::forms::{Greibach, GreibachEquation};
use crate::heads::{Around, Unfolding, add};
use crate::numbers::number;
use crate::places::Places;
use crate::reading::{Source, read_places};
use crate::renewing::renewed;
use data_theory::{NoMemory, Signature, TermId, VarId};
use guard_check::Guarded;
use indexmap::IndexSet;
use lps_core::{name_all, signature_stands, variable_term};
use process_terms::Component;
use std::alloc::Global;
use term_pool::Pool;

/// How many levels the stack has room for: each operator that isn't a `.` is one, and each call in head position.
const MAX_DEPTH: usize = 5_000;

/// Other variables of the same sorts with the same names. One that has the name of an earlier one gets a fresh name.
fn parameters(alloc: Global, sig: &mut Signature, vars: &[VarId]) -> Result<Vec<VarId>, NoMemory>
    requires stands { IsSignature sig.old }
    requires names { HasUsableNames sig.old }
    requires variables { All (IsVariable sig.old) vars.now }
    ensures grown { GrowsByNames sig.old sig.new }
    ensures params { IfOk result (λ params. ParametersStand sig.old sig.new vars.now params.items) }
{
    let others = renewed(alloc, sig, vars)?;
    let names = IndexSet::new(alloc);
    name_all(alloc, sig, &names, others.as_slice())
}

/// The terms of variables.
fn variable_terms(alloc: Global, pool: &mut Pool, vars: &[VarId]) -> Result<Vec<TermId>, NoMemory>
    ensures kept { Extends pool.old.trees pool.new.trees }
    ensures constants { pool.new.constants ≡ pool.old.constants }
    ensures within { IfOk result (λ terms. AreIn pool.new.trees terms.items) }
    ensures trees { IfOk result (λ terms. trees_at pool.new.trees terms.items ≡ map variable vars.now) }
{
    let mut terms = Vec::new(alloc);
    for var in vars {
        terms.push(variable_term(pool, *var)?)?;
    }
    Ok(terms)
}

/// The equation of a place.
fn equation(
    alloc: Global,
    places: &Places<'_>,
    sig: &mut Signature,
    pool: &mut Pool,
    place: usize,
    under_way: &mut Unfolding,
) -> Result<GreibachEquation, NoMemory>
    requires stands { IsSignature sig.old }
    requires names { HasUsableNames sig.old }
    requires table { PlacesFitSince sig.old pool.old.trees (plain_places places.now) }
    requires place { place < length places.now.places.items }
    requires met { All (λ n. n < length places.now.places.items) under_way.old.met.keys }
    requires waiting { under_way.old.waiting.items ≡ [] }
    requires summands { under_way.old.summands.items ≡ [] }
    ensures grown { GrowsByNames sig.old sig.new }
    ensures kept { Extends pool.old.trees pool.new.trees }
    ensures constants { pool.new.constants ≡ pool.old.constants }
    ensures made { IfOk result (λ made. EquationMade sig.new pool.new.trees (plain_places places.now).places place (plain_unfolding under_way.old) (plain_unfolding under_way.new) (plain_equation made)) }
    ensures heads { IfOk result (λ made. Later sig.new pool.new.trees (λ e. IsEquationAt e (plain_places places.now) place (plain_equation made) under_way.old.met.keys under_way.new.met.keys)) }
{
    let vars = places.places[place].params.as_slice();
    let params = parameters(alloc, sig, vars)?;
    let terms = variable_terms(alloc, pool, params.as_slice())?;
    let by = bound_to(alloc, vars, terms.as_slice())?;
    let around = Around {
        params: params.as_slice(),
        sums: &[],
        by: by.as_slice(),
        parts: &[],
        room: MAX_DEPTH,
    };
    add(alloc, places, sig, pool, around, place, under_way)?;
    let mut summands = Vec::new(alloc);
    std::mem::swap(&mut summands, &mut under_way.summands);
    Ok(GreibachEquation { params, summands })
}

/// The equations of the places that are met from the component's start on.
fn equations(
    alloc: Global,
    places: &Places<'_>,
    sig: &mut Signature,
    pool: &mut Pool,
) -> Result<Vec<GreibachEquation>, NoMemory>
    requires stands { IsSignature sig.old }
    requires names { HasUsableNames sig.old }
    requires table { PlacesFitSince sig.old pool.old.trees (plain_places places.now) }
    requires start { places.now.start < length places.now.places.items }
    ensures grown { GrowsByNames sig.old sig.new }
    ensures kept { Extends pool.old.trees pool.new.trees }
    ensures constants { pool.new.constants ≡ pool.old.constants }
    ensures made { IfOk result (λ made. FormMade sig.new pool.new.trees (plain_places places.now) (map plain_equation made.items)) }
    ensures heads { IfOk result (λ made. Later sig.new pool.new.trees (λ e. MakesAll e (plain_places places.now) (map plain_equation made.items))) }
{
    let mut under_way = Unfolding {
        met: IndexSet::new(alloc),
        waiting: Vec::new(alloc),
        summands: Vec::new(alloc),
    };
    number(places.start, &mut under_way.met)?;
    let mut equations = Vec::new(alloc);
    while equations.len() < under_way.met.len() {
        let place = under_way.met[equations.len()];
        let made = equation(alloc, places, sig, pool, place, &mut under_way)?;
        equations.push(made)?;
    }
    Ok(equations)
}

/// The arguments with which a component starts.
fn first_arguments(alloc: Global, start: &Component) -> Result<Vec<TermId>, NoMemory>
    ensures { IfOk result (λ args. args.items ≡ arguments_of (plain_component start.now)) }
{
    match start {
        Component::Call(_, args) => Ok(args.to_vec(alloc)?),
        Component::Term(_) => Ok(Vec::new(alloc)),
    }
}

/// The Greibach normal form of a component (book, guarded recursion).
///
/// Equation 1 is where the component starts: the called definition, or the term as an equation without parameters. What follows a
/// label in its body goes on as equations: a call at its beginning is kept, and the rest has an equation of its own, whose
/// parameters are the variables that occur free in it. A call in head position is replaced by the summands of its definition. The
/// equations are numbered in the order in which they are met. A definition in the shape of a linear process becomes one equation that
/// keeps its summands, and what the form writes is made of what the specification writes.
///
/// # Errors
///
/// `NoMemory` where there is none for the form, or where operators and calls in head position nest deeper than the stack has room for.
pub fn normal_form(
    alloc: Global,
    guarded: &Guarded<'_>,
    sig: &mut Signature,
    pool: &mut Pool,
    start: &Component,
) -> Result<Greibach, NoMemory>
    requires stands { IsSignature sig.old }
    requires names { HasUsableNames sig.old }
    requires model { ModelFits sig.old pool.old.trees (plain_model guarded.now.model.now) }
    requires component { ComponentFits sig.old pool.old.trees (plain_model guarded.now.model.now).definitions (plain_component start.now) }
    requires sequential { HasSequentialBodies (plain_model guarded.now.model.now) (plain_component start.now) }
    requires scopes { BindsItsVariablesOnce (plain_model guarded.now.model.now) (plain_component start.now) }
    ensures grown { GrowsByNames sig.old sig.new }
    ensures kept { Extends pool.old.trees pool.new.trees }
    ensures constants { pool.new.constants ≡ pool.old.constants }
    ensures names { OnOk result (HasUsableNames sig.new) }
    ensures fits { IfOk result (λ form. FormFits sig.new pool.new.trees (plain_form form)) }
    ensures unfolds { IfOk result (λ form. IsFormOf sig.new pool.new.trees (plain_model guarded.now.model.now) (plain_component start.now) (plain_form form)) }
    ensures bisimilar { IfOk result (λ form. IsBisimilarForm sig.new pool.new.trees (plain_model guarded.now.model.now) (plain_component start.now) (plain_form form)) }
    ensures linear { IfOk result (λ form. KeepsLinearShape sig.new pool.new.trees (plain_model guarded.now.model.now) (plain_component start.now) (plain_form form)) }
    ensures plain { IfOk result (λ form. IsPlainForm sig.new pool.new (plain_model guarded.now.model.now) (plain_component start.now) (plain_form form)) }
{
    let source = Source {
        model: guarded.model,
        sig,
        pool,
        alloc,
    };
    let places = read_places(source, start)?;
    let equations = equations(alloc, &places, sig, pool)?;
    let init = first_arguments(alloc, start)?;
    Ok(Greibach { equations, init })
}
