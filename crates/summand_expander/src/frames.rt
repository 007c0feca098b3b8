//! A side of a product from a linear process and its flag.

ghost use Rattle.std.specs.Prelude.{◌≡◌, ◌++◌, [], ◌∷◌, map, option_map, option_to_list, IfOk, IfSome, Some};
ghost use Rattle.std.specs.List.{All, AllZip};
ghost use Rattle.data_theory.specs.declared.ids.VarId.{VarId as MeantVariable};
ghost use Rattle.data_theory.specs.IdTrees.{variable};
ghost use Rattle.data_theory.specs.Signature.{Sig};
ghost use Rattle.data_theory.specs.WholeSignatures.{IsSignature};
ghost use Rattle.term_pool.specs.HeadTrees.{trees_at, AreIn};
ghost use Rattle.term_pool.specs.Pools.{Extends};
ghost use Rattle.process_terms.specs.SignatureEntries.{entries_of};
ghost use Rattle.lps_core.specs.Fitting.{sort_of_variable, Fits};
ghost use Rattle.lps_core.specs.PlainLinears.{linear_of, plain_linear, plain_next, plain_summand};
ghost use Rattle.lps_core.specs.TreeSummands.{IsSummandIn};
ghost use Rattle.summand_expander.specs.Drafts.{plain_move, plain_side};
ghost use Rattle.summand_expander.specs.Frames.{columns_after, plain_frame, IsFrame, IsMoveOf};
ghost use Rattle.summand_expander.specs.SideFits.{IsFlagOf, SideFits};
ghost use Rattle.summand_expander.specs.SideMeanings.{IsSideIn, SideMeans};

use crate::drafts::joined;
use crate::sides::{Frame, Move, Side};
use data_theory::{FunId, NoMemory, TermId, VarId};
use lps_core::{Linear, Summand, parts_of, variable_term};
use std::alloc::Global;
use term_pool::{Head, Pool};

/// `true`
const TRUE: FunId = FunId(6);

/// `!`
const NOT: FunId = FunId(8);

/// The terms of variables.
fn variable_terms(alloc: Global, pool: &mut Pool, vars: &[VarId]) -> Result<Vec<TermId>, NoMemory>
    ensures kept { Extends pool.old.trees pool.new.trees }
    ensures constants { pool.new.constants ≡ pool.old.constants }
    ensures within { IfOk result (λ terms. AreIn pool.new.trees terms.items) }
    ensures trees { IfOk result (λ terms. trees_at pool.new.trees terms.items ≡ map variable vars.now) }
{
    let mut terms = Vec::new(alloc);
    for var in vars {
        terms.push(variable_term(pool, *var)?)?;
    }
    Ok(terms)
}

/// A list of one term.
fn single(alloc: Global, term: TermId) -> Result<Vec<TermId>, NoMemory>
    ensures { IfOk result (λ terms. terms.items ≡ term ∷ []) }
{
    let mut terms = Vec::new(alloc);
    terms.push(term)?;
    Ok(terms)
}

/// The frame of a side with a flag.
fn flagged(
    alloc: Global,
    pool: &mut Pool,
    params: Vec<TermId>,
    flag: VarId,
) -> Result<Frame, NoMemory>
    requires { AreIn pool.old.trees params.items }
    ensures kept { Extends pool.old.trees pool.new.trees }
    ensures constants { pool.new.constants ≡ pool.old.constants }
    ensures frame { IfOk result (λ frame. IsFrame pool.new.trees (trees_at pool.old.trees params.items) (Some flag) (plain_frame frame)) }
{
    let own = variable_term(pool, flag)?;
    let running = pool.intern(Head::Fun(NOT), &[own])?;
    let set = pool.intern(Head::Fun(TRUE), &[])?;
    let column = single(alloc, own)?;
    let part = single(alloc, running)?;
    let ended = single(alloc, set)?;
    Ok(Frame {
        params,
        flag: Some(own),
        own: column,
        running: part,
        set: ended,
    })
}

/// The frame of a side.
fn frame_of(
    alloc: Global,
    pool: &mut Pool,
    params: &[VarId],
    flag: Option<VarId>,
) -> Result<Frame, NoMemory>
    ensures kept { Extends pool.old.trees pool.new.trees }
    ensures constants { pool.new.constants ≡ pool.old.constants }
    ensures frame { IfOk result (λ frame. IsFrame pool.new.trees (map variable params.now) flag (plain_frame frame)) }
{
    let params = variable_terms(alloc, pool, params)?;
    let Some(flag) = flag else {
        return Ok(Frame {
            params,
            flag: None,
            own: Vec::new(alloc),
            running: Vec::new(alloc),
            set: Vec::new(alloc),
        });
    };
    flagged(alloc, pool, params, flag)
}

/// The columns after a summand: it goes on and the flag stays, or it ends and the flag is set.
fn after(alloc: Global, frame: &Frame, next: &Option<Vec<TermId>>) -> Result<Vec<TermId>, NoMemory>
    ensures { IfOk result (λ all. all.items ≡ columns_after (plain_frame frame.now) (plain_next next.now)) }
{
    match next {
        Some(terms) => joined(alloc, terms.as_slice(), frame.own.as_slice()),
        None => joined(alloc, frame.params.as_slice(), frame.set.as_slice()),
    }
}

/// A summand of the side.
fn move_of(alloc: Global, pool: &Pool, frame: &Frame, summand: &Summand) -> Result<Move, NoMemory>
    requires { IsSummandIn pool.now.trees (plain_summand summand.now) }
    ensures { IfOk result (λ made. IsMoveOf pool.now.trees (plain_frame frame.now) (plain_move made) (plain_summand summand.now)) }
{
    let mut parts = Vec::new(alloc);
    parts_of(pool, summand.cond, &mut parts)?;
    Ok(Move {
        sums: summand.sums.to_vec(alloc)?,
        parts,
        label: summand.label.copy(alloc)?,
        onward: after(alloc, frame, &summand.next)?,
        ends: summand.next.is_none(),
    })
}

/// The summands of the side.
fn moves_of(
    alloc: Global,
    pool: &Pool,
    frame: &Frame,
    summands: &[Summand],
) -> Result<Vec<Move>, NoMemory>
    requires { All (IsSummandIn pool.now.trees) (map plain_summand summands.now) }
    ensures { IfOk result (λ made. AllZip (IsMoveOf pool.now.trees (plain_frame frame.now)) (map plain_move made.items) (map plain_summand summands.now)) }
{
    let mut made = Vec::new(alloc);
    for summand in summands {
        made.push(move_of(alloc, pool, frame, summand)?)?;
    }
    Ok(made)
}

/// A linear process as a side of a product, with this flag if it can end.
///
/// # Errors
///
/// `NoMemory` where there is none for it.
pub fn side_of(
    alloc: Global,
    lin: &Linear,
    flag: Option<VarId>,
    pool: &mut Pool,
) -> Result<Side, NoMemory>
    requires { All (IsSummandIn pool.old.trees) (map plain_summand lin.now.summands.items) }
    ensures kept { Extends pool.old.trees pool.new.trees }
    ensures constants { pool.new.constants ≡ pool.old.constants }
    ensures within { IfOk result (λ side. IsSideIn pool.new.trees (plain_side side)) }
    ensures means { IfOk result (λ side. (g : Sig) → IsSignature g → Fits g pool.new.trees (plain_linear lin.now) → SideMeans (entries_of g pool.new.trees) (plain_side side) (record { process = linear_of (entries_of g pool.new.trees) (plain_linear lin.now); flag = option_map (λ (v : MeantVariable). v.0) flag })) }
    ensures fits { IfOk result (λ side. (g : Sig) → IsSignature g → Fits g pool.new.trees (plain_linear lin.now) → IfSome flag (IsFlagOf g) → SideFits g pool.new.trees (map (sort_of_variable g) (lin.now.params.items ++ option_to_list flag)) (plain_side side)) }
{
    let frame = frame_of(alloc, pool, lin.params.as_slice(), flag)?;
    let moves = moves_of(alloc, pool, &frame, lin.summands.as_slice())?;
    let columns = joined(alloc, frame.params.as_slice(), frame.own.as_slice())?;
    Ok(Side {
        columns,
        running: frame.running,
        flag: frame.flag,
        moves,
    })
}
