//! Terms of one pool, entered into another.

ghost use Rattle.std.specs.Prelude.{◌≡◌, ◌<◌, ◌+◌, ◌++◌, List, [], ◌∷◌, map, length, take, IfErr, IfOk};
ghost use Rattle.std.specs.List.{All};
ghost use Rattle.data_theory.specs.Signature.{Sig};
ghost use Rattle.process_terms.specs.PlainProcesses.{plain_action, plain_label};
ghost use Rattle.term_pool.specs.HeadTrees.{IsIn};
ghost use Rattle.term_pool.specs.Pools.{Extends};
ghost use Rattle.trace_replay.specs.Entering.{entered_action, entered_line, number_in, ActionHasPlaces, AreEntered, HavePlaces, IsTraceOver, LineHasPlaces};
ghost use Rattle.trace_replay.specs.ReadingFaults.{IsTraceFault};
ghost use Rattle.trace_replay.specs.ReadTraces.{plain_line};
ghost use Rattle.trace_replay.specs.Replays.{Entry};
ghost use Rattle.trace_replay.specs.Verdicts.{LinesAre};

use crate::reading::{Line, read_trace};
use crate::replaying::ReplayFault;
use data_theory::{NoMemory, Signature, TermId};
use process_terms::{Action, Label};
use std::alloc::Global;
use term_pool::Pool;

/// The number that stands at the place of a term.
fn number_in(ids: &[TermId], term: TermId) -> TermId
    requires { term.0 < length ids.now }
    ensures { result ≡ number_in ids.now term }
{
    ids[term.0]
}

/// The numbers that stand at the places of terms.
///
/// # Errors
///
/// `NoMemory` where there is none for them.
pub fn numbers_in(alloc: Global, ids: &[TermId], terms: &[TermId]) -> Result<Vec<TermId>, NoMemory>
    requires { HavePlaces ids.now terms.now }
    ensures { IfOk result (λ numbers. numbers.items ≡ map (number_in ids.now) terms.now) }
{
    let mut numbers = Vec::new(alloc);
    for term in terms {
        numbers.push(number_in(ids, *term))?;
    }
    Ok(numbers)
}

/// Enters a term of one pool into another, where those before it have their numbers there.
fn enter_one(
    alloc: Global,
    from: &Pool,
    to: &mut Pool,
    ids: &[TermId],
    term: TermId,
) -> Result<TermId, NoMemory>
    requires inside { IsIn from.now.trees term }
    requires many { length ids.now ≡ term.0 }
    requires before { AreEntered (take term.0 from.now.trees) to.old.trees ids.now }
    ensures kept { Extends to.old.trees to.new.trees }
    ensures entered { IfOk result (λ id. AreEntered (take (term.0 + 1) from.now.trees) to.new.trees (ids.now ++ id ∷ [])) }
{
    let root = from.node(term);
    let args = numbers_in(alloc, ids, root.args.as_slice())?;
    to.intern(root.head, args.as_slice())
}

/// Enters the terms of one pool into another. Each has its number there at its own place.
///
/// # Errors
///
/// `NoMemory` where there is none for the terms or their numbers.
pub fn enter_all(alloc: Global, from: &Pool, to: &mut Pool) -> Result<Vec<TermId>, NoMemory>
    ensures kept { Extends to.old.trees to.new.trees }
    ensures entered { IfOk result (λ ids. AreEntered from.now.trees to.new.trees ids.items) }
{
    let mut ids = Vec::new(alloc);
    for place in 0..from.len() {
        let id = enter_one(alloc, from, to, ids.as_slice(), TermId(place))?;
        ids.push(id)?;
    }
    Ok(ids)
}

/// An action over the numbers that stand at the places of its arguments.
fn entered_action(alloc: Global, ids: &[TermId], action: &Action) -> Result<Action, NoMemory>
    requires { ActionHasPlaces ids.now (plain_action action.now) }
    ensures { IfOk result (λ made. plain_action made ≡ entered_action ids.now (plain_action action.now)) }
{
    let args = numbers_in(alloc, ids, action.args.as_slice())?;
    Ok(Action {
        act: action.act,
        args,
    })
}

/// A label over these numbers.
///
/// # Errors
///
/// `NoMemory` where there is none for it.
pub fn entered_label(alloc: Global, ids: &[TermId], label: &Label) -> Result<Label, NoMemory>
    requires { All (ActionHasPlaces ids.now) (plain_label label.now) }
    ensures { IfOk result (λ made. plain_label made ≡ map (entered_action ids.now) (plain_label label.now)) }
{
    let mut actions = Vec::new(alloc);
    for action in &label.actions {
        actions.push(entered_action(alloc, ids, action)?)?;
    }
    Ok(Label { actions })
}

/// Lines over these numbers.
fn entered_lines(alloc: Global, ids: &[TermId], lines: &[Line]) -> Result<Vec<Line>, NoMemory>
    requires { All (LineHasPlaces ids.now) (map plain_line lines.now) }
    ensures { IfOk result (λ made. map plain_line made.items ≡ map (entered_line ids.now) (map plain_line lines.now)) }
{
    let mut made = Vec::new(alloc);
    for line in lines {
        made.push(Line {
            number: line.number,
            label: entered_label(alloc, ids, &line.label)?,
        })?;
    }
    Ok(made)
}

/// Lines whose labels are over one pool, over another that gets their terms.
fn enter_lines(
    alloc: Global,
    from: &Pool,
    lines: &[Line],
    to: &mut Pool,
) -> Result<Vec<Line>, NoMemory>
    requires { (g : Sig) × (es : List Entry) × LinesAre g from.now.trees (map plain_line lines.now) es }
    ensures kept { Extends to.old.trees to.new.trees }
    ensures lines { IfOk result (λ made. (g : Sig) (es : List Entry) → LinesAre g from.now.trees (map plain_line lines.now) es → LinesAre g to.new.trees (map plain_line made.items) es) }
{
    let ids = enter_all(alloc, from, to)?;
    entered_lines(alloc, ids.as_slice(), lines)
}

/// The labels of a trace, each with the number of its line, over a pool that gets their terms. They are read over a pool of their own, so that nothing
/// is asked of the other one.
///
/// # Errors
///
/// Those of [`read_trace`].
pub(crate) fn trace_lines(
    alloc: Global,
    sig: &Signature,
    pool: &mut Pool,
    trace: &[u8],
) -> Result<Vec<Line>, ReplayFault>
    ensures kept { Extends pool.old.trees pool.new.trees }
    ensures read { IfOk result (λ lines. IsTraceOver sig.now pool.new.trees trace.now (map plain_line lines.items)) }
    ensures fault { IfErr result (IsTraceFault sig.now trace.now) }
{
    let mut own = Pool::new(alloc)?;
    let read = read_trace(alloc, sig, &mut own, trace)?;
    let lines = enter_lines(alloc, &own, read.as_slice(), pool)?;
    Ok(lines)
}
