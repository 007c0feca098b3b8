//! The check of written equations.

ghost use Rattle.std.specs.Prelude.{◌≡◌, ◌<◌, false, length, IfOk, Some};
ghost use Rattle.std.specs.Bool.{Decides};
ghost use Rattle.std.specs.List.{All};
ghost use Rattle.data_theory.specs.Terms.{variables_of};
ghost use Rattle.data_theory.specs.Environments.{AreDistinct};
ghost use Rattle.data_theory.specs.Signature.{Sig};
ghost use Rattle.term_pool.specs.HeadTrees.{IsIn};
ghost use Rattle.eqn_check.specs.CallTables.{AreCalls};
ghost use Rattle.eqn_check.specs.Earlier.{AreEarlier, ArePrevious, IsChain, Key, TellsAlong};
ghost use Rattle.eqn_check.specs.Judged.{IsAnswerFor, IsEquationOver, IsReasonFor, DecidesOverlap, TellsOverlap, term_at};

use crate::alike::are_alike;
use crate::answers::{Answer, Reason};
use crate::earlier::{Earlier, begin_apart, find_earlier};
use crate::exclusion::exclude;
use crate::linear::has_distinct_variables;
use crate::patterns::is_left_side;
use crate::recursion::{Calls, find_calls, goes_around};
use data_theory::{NoMemory, Signature, TermId};
use std::alloc::Global;
use term_pool::{Equation, Pool, Theory};

/// Whether no variable stands twice in a term.
fn is_linear(alloc: Global, pool: &Pool, term: TermId) -> Result<bool, NoMemory>
    requires { IsIn pool.now.trees term }
    ensures { IfOk result (λ b. (sig : Sig) → Decides b (AreDistinct (variables_of
        (term_at sig pool.now.trees term)))) }
{
    let distinct = has_distinct_variables(alloc, pool, term)?;
    Ok(distinct)
}

/// Whether the left sides of two equations meet, and they don't exclude one another; where both left sides are linear.
fn overlap(
    alloc: Global,
    sig: &Signature,
    pool: &Pool,
    one: &Equation,
    other: &Equation,
) -> Result<bool, NoMemory>
    requires one { IsEquationOver sig.now pool.now.trees one.now }
    requires other { IsEquationOver sig.now pool.now.trees other.now }
    ensures { IfOk result (DecidesOverlap sig.now pool.now.trees one.now other.now) }
{
    if begin_apart(sig, pool, one.left, other.left) {
        return Ok(false);
    }
    let alike = are_alike(alloc, sig, pool, one.left, other.left)?;
    if !alike {
        return Ok(false);
    }
    let excluded = exclude(alloc, sig, pool, one, other)?;
    Ok(!excluded)
}

/// Whether an equation overlaps with one of those before it with the key that is asked for there, from the last one on;
/// where the left sides of all of these are linear.
fn overlaps_along(
    alloc: Global,
    sig: &Signature,
    theory: &Theory,
    pool: &Pool,
    keys: &[Option<(usize, usize)>],
    asked: &[Option<(usize, usize)>],
    previous: &[Option<usize>],
    number: usize,
) -> Result<bool, NoMemory>
    requires equations { All (IsEquationOver sig.now pool.now.trees) theory.now.equations.items }
    requires keys { length keys.now ≡ length theory.now.equations.items }
    requires chain { IsChain keys.now asked.now }
    requires previous { ArePrevious keys.now asked.now previous.now }
    requires number { number < length theory.now.equations.items }
    ensures { IfOk result (TellsAlong sig.now pool.now.trees theory.now.equations.items keys.now
        asked.now number) }
{
    let mut next = previous[number];
    while let Some(earlier) = next {
        let both = overlap(
            alloc,
            sig,
            pool,
            &theory.equations[earlier],
            &theory.equations[number],
        )?;
        if both {
            return Ok(true);
        }
        next = previous[earlier];
    }
    Ok(false)
}

/// Whether an equation overlaps with an earlier one of its mapping.
fn overlaps_in_mapping(
    alloc: Global,
    sig: &Signature,
    theory: &Theory,
    pool: &Pool,
    earlier: &Earlier,
    number: usize,
) -> Result<bool, NoMemory>
    requires equations { All (IsEquationOver sig.now pool.now.trees) theory.now.equations.items }
    requires earlier { AreEarlier pool.now.trees theory.now.equations.items earlier.now.count
        earlier.now.starts.items earlier.now.opens.items earlier.now.of_mapping.items
        earlier.now.of_start.items earlier.now.of_open.items }
    requires number { number < length theory.now.equations.items }
    ensures { IfOk result (TellsAlong sig.now pool.now.trees theory.now.equations.items
        earlier.now.opens.items earlier.now.opens.items number) }
{
    let opens = earlier.opens.as_slice();
    let previous = earlier.of_mapping.as_slice();
    let found = overlaps_along(alloc, sig, theory, pool, opens, opens, previous, number)?;
    Ok(found)
}

/// Whether an equation overlaps with an earlier one that begins like it.
fn overlaps_alike(
    alloc: Global,
    sig: &Signature,
    theory: &Theory,
    pool: &Pool,
    earlier: &Earlier,
    number: usize,
) -> Result<bool, NoMemory>
    requires equations { All (IsEquationOver sig.now pool.now.trees) theory.now.equations.items }
    requires earlier { AreEarlier pool.now.trees theory.now.equations.items earlier.now.count
        earlier.now.starts.items earlier.now.opens.items earlier.now.of_mapping.items
        earlier.now.of_start.items earlier.now.of_open.items }
    requires number { number < length theory.now.equations.items }
    ensures { IfOk result (TellsAlong sig.now pool.now.trees theory.now.equations.items
        earlier.now.starts.items earlier.now.starts.items number) }
{
    let starts = earlier.starts.as_slice();
    let previous = earlier.of_start.as_slice();
    let found = overlaps_along(alloc, sig, theory, pool, starts, starts, previous, number)?;
    Ok(found)
}

/// Whether an equation overlaps with an earlier one of its mapping that begins with no function.
fn overlaps_with_open(
    alloc: Global,
    sig: &Signature,
    theory: &Theory,
    pool: &Pool,
    earlier: &Earlier,
    number: usize,
) -> Result<bool, NoMemory>
    requires equations { All (IsEquationOver sig.now pool.now.trees) theory.now.equations.items }
    requires earlier { AreEarlier pool.now.trees theory.now.equations.items earlier.now.count
        earlier.now.starts.items earlier.now.opens.items earlier.now.of_mapping.items
        earlier.now.of_start.items earlier.now.of_open.items }
    requires number { number < length theory.now.equations.items }
    ensures { IfOk result (TellsAlong sig.now pool.now.trees theory.now.equations.items
        earlier.now.starts.items earlier.now.opens.items number) }
{
    let starts = earlier.starts.as_slice();
    let opens = earlier.opens.as_slice();
    let previous = earlier.of_open.as_slice();
    let found = overlaps_along(alloc, sig, theory, pool, starts, opens, previous, number)?;
    Ok(found)
}

/// Whether an equation begins with no function.
fn begins_open(start: Option<(usize, usize)>, count: usize) -> bool
    ensures { result ≡ false → (key : Key) → start ≡ Some key → key.1 ≡ count → ⊥ }
{
    match start {
        Some((_, first)) => first == count,
        None => true,
    }
}

/// Whether an equation overlaps with an earlier one, where the left sides of all of these are linear.
fn overlaps(
    alloc: Global,
    sig: &Signature,
    theory: &Theory,
    pool: &Pool,
    earlier: &Earlier,
    number: usize,
) -> Result<bool, NoMemory>
    requires equations { All (IsEquationOver sig.now pool.now.trees) theory.now.equations.items }
    requires earlier { AreEarlier pool.now.trees theory.now.equations.items earlier.now.count
        earlier.now.starts.items earlier.now.opens.items earlier.now.of_mapping.items
        earlier.now.of_start.items earlier.now.of_open.items }
    requires number { number < length theory.now.equations.items }
    ensures { IfOk result (TellsOverlap sig.now pool.now.trees theory.now.equations.items number) }
{
    sig.next_sort();
    let is_open = begins_open(earlier.starts[number], earlier.count);
    if is_open {
        let found = overlaps_in_mapping(alloc, sig, theory, pool, earlier, number)?;
        return Ok(found);
    }
    let same = overlaps_alike(alloc, sig, theory, pool, earlier, number)?;
    if same {
        return Ok(true);
    }
    let with_open = overlaps_with_open(alloc, sig, theory, pool, earlier, number)?;
    Ok(with_open)
}

/// The first rule that an equation breaks, where those in front of it keep all rules.
fn broken_rule(
    alloc: Global,
    sig: &Signature,
    theory: &Theory,
    pool: &Pool,
    earlier: &Earlier,
    calls: &Calls,
    number: usize,
) -> Result<Option<Reason>, NoMemory>
    requires equations { All (IsEquationOver sig.now pool.now.trees) theory.now.equations.items }
    requires earlier { AreEarlier pool.now.trees theory.now.equations.items earlier.now.count
        earlier.now.starts.items earlier.now.opens.items earlier.now.of_mapping.items
        earlier.now.of_start.items earlier.now.of_open.items }
    requires calls { AreCalls sig.now pool.now.trees theory.now.equations.items
        calls.now.lists.items calls.now.edges.items calls.now.cyclic calls.now.falling.items }
    requires number { number < length theory.now.equations.items }
    ensures { IfOk result (IsReasonFor sig.now pool.now.trees theory.now.equations.items number) }
{
    let left = theory.equations[number].left;
    let shaped = is_left_side(alloc, sig, pool, left)?;
    if !shaped {
        return Ok(Some(Reason::Shape));
    }
    let linear = is_linear(alloc, pool, left)?;
    if !linear {
        return Ok(Some(Reason::Repeat));
    }
    let overlapping = overlaps(alloc, sig, theory, pool, earlier, number)?;
    if overlapping {
        return Ok(Some(Reason::Overlap));
    }
    let around = goes_around(alloc, sig, theory, pool, calls, number)?;
    if around {
        return Ok(Some(Reason::Recursion));
    }
    Ok(None)
}

/// Whether all written equations keep the rules; or the first one that breaks a rule, and the first rule that it breaks.
///
/// Where the answer is `Consistent`, the equations are well formed and no sort is empty, the data are consistent.
///
/// # Errors
///
/// Want of memory.
pub fn check(
    alloc: Global,
    sig: &Signature,
    theory: &Theory,
    pool: &Pool,
) -> Result<Answer, NoMemory>
    requires { All (IsEquationOver sig.now pool.now.trees) theory.now.equations.items }
    ensures { IfOk result (IsAnswerFor sig.now pool.now.trees theory.now.equations.items) }
{
    let earlier = find_earlier(alloc, sig, theory, pool)?;
    let calls = find_calls(alloc, sig, theory, pool)?;
    for number in 0..theory.equations.len() {
        let broken = broken_rule(alloc, sig, theory, pool, &earlier, &calls, number)?;
        if let Some(reason) = broken {
            return Ok(Answer::Unproved(number + 1, reason));
        }
    }
    Ok(Answer::Consistent)
}
