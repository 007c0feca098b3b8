//! Linear processes of which some parameters are left.

ghost use Rattle.std.specs.Prelude.{◌≡◌, length, option_map, IfOk, IfSome};
ghost use Rattle.lps_core.specs.PlainLinears.{plain_linear, plain_next, plain_summand};
ghost use Rattle.lps_parelm.specs.Keeping.{fates_of, keep, kept_linear, kept_summand};
ghost use Rattle.lps_parelm.specs.Uses.{HaveNextTerms};

use data_theory::{NoMemory, TermId};
use lps_core::{Linear, Summand};
use std::alloc::Global;

/// What stands at the marked places.
pub fn kept<T: Copy>(alloc: Global, items: &[T], marks: &[bool]) -> Result<Vec<T>, NoMemory>
    requires { length items.now ≡ length marks.now }
    ensures { IfOk result (λ left. left.items ≡ keep (fates_of marks.now) items.now) }
{
    let mut left = Vec::new(alloc);
    for place in 0..items.len() {
        if !marks[place] {
            continue;
        }
        left.push(items[place])?;
    }
    Ok(left)
}

fn kept_next(
    alloc: Global,
    next: &Option<Vec<TermId>>,
    marks: &[bool],
) -> Result<Option<Vec<TermId>>, NoMemory>
    requires { IfSome (plain_next next.now) (λ ids. length ids ≡ length marks.now) }
    ensures { IfOk result (λ left. plain_next left ≡ option_map (keep (fates_of marks.now)) (plain_next next.now)) }
{
    match next {
        Some(terms) => Ok(Some(kept(alloc, terms.as_slice(), marks)?)),
        None => Ok(None),
    }
}

fn kept_summand(alloc: Global, summand: &Summand, marks: &[bool]) -> Result<Summand, NoMemory>
    requires { IfSome (plain_next summand.now.next) (λ ids. length ids ≡ length marks.now) }
    ensures { IfOk result (λ left. plain_summand left ≡ kept_summand (fates_of marks.now) (plain_summand summand.now)) }
{
    Ok(Summand {
        sums: summand.sums.to_vec(alloc)?,
        cond: summand.cond,
        label: summand.label.copy(alloc)?,
        next: kept_next(alloc, &summand.next, marks)?,
    })
}

/// The linear process with the marked parameters, and with their initial and next terms.
pub fn keep_marked(alloc: Global, lin: &Linear, marks: &[bool]) -> Result<Linear, NoMemory>
    requires params { length (plain_linear lin.now).params ≡ length marks.now }
    requires init { length (plain_linear lin.now).init ≡ length marks.now }
    requires next { HaveNextTerms (length marks.now) (plain_linear lin.now).summands }
    ensures { IfOk result (λ left. plain_linear left ≡ kept_linear (fates_of marks.now) (plain_linear lin.now)) }
{
    let mut summands = Vec::new(alloc);
    for summand in &lin.summands {
        summands.push(kept_summand(alloc, summand, marks)?)?;
    }
    Ok(Linear {
        params: kept(alloc, lin.params.as_slice(), marks)?,
        init: kept(alloc, lin.init.as_slice(), marks)?,
        summands,
    })
}
