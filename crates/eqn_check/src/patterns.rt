//! Left sides of the right shape.

ghost use Rattle.std.specs.Prelude.{◌≡◌, ◌<◌, length, IfOk};
ghost use Rattle.std.specs.Bool.{Decides};
ghost use Rattle.std.specs.List.{All};
ghost use Rattle.data_theory.specs.IdData.{data_meant};
ghost use Rattle.data_theory.specs.IdTerms.{symbol_under};
ghost use Rattle.eqn_check.specs.Judged.{term_at, IsTerm};
ghost use Rattle.eqn_check.specs.Patterns.{IsConstructor, IsLeftSide};
ghost use Rattle.eqn_check.specs.Roles.{ArePatternsAt, IsMappingSymbol};

use crate::linear::push_all;
use crate::roles::{Role, what_is};
use data_theory::{FunId, NoMemory, Signature, TermId};
use std::alloc::Global;
use term_pool::{Head, Pool};

/// Whether a function counts as a constructor.
pub fn is_constructor(sig: &Signature, fun: FunId) -> bool
    requires { fun.0 < length sig.now.functions }
    ensures { Decides result (IsConstructor (data_meant sig.now) (symbol_under sig.now fun)) }
{
    match what_is(sig, fun) {
        Role::Constructor => true,
        _ => false,
    }
}

/// Whether a function is a mapping.
pub fn is_mapping(sig: &Signature, fun: FunId) -> bool
    requires { fun.0 < length sig.now.functions }
    ensures { Decides result (IsMappingSymbol (data_meant sig.now) (symbol_under sig.now fun)) }
{
    match what_is(sig, fun) {
        Role::Mapping => true,
        _ => false,
    }
}

/// Whether terms are patterns.
fn are_patterns(
    alloc: Global,
    sig: &Signature,
    pool: &Pool,
    terms: &[TermId],
) -> Result<bool, NoMemory>
    requires { All (IsTerm sig.now pool.now.trees) terms.now }
    ensures { IfOk result (λ b. Decides b (ArePatternsAt sig.now pool.now.trees terms.now)) }
{
    let mut waiting = Vec::new(alloc);
    push_all(&mut waiting, terms)?;
    for _ in 0..u64::MAX {
        let Some(next) = waiting.pop() else {
            return Ok(true);
        };
        let node = pool.node(next);
        let Head::Fun(fun) = node.head else {
            continue;
        };
        if !is_constructor(sig, fun) {
            return Ok(false);
        }
        push_all(&mut waiting, node.args.as_slice())?;
    }
    Err(NoMemory)
}

/// Whether a term is a mapping applied to patterns.
pub fn is_left_side(
    alloc: Global,
    sig: &Signature,
    pool: &Pool,
    term: TermId,
) -> Result<bool, NoMemory>
    requires { IsTerm sig.now pool.now.trees term }
    ensures { IfOk result (λ b. Decides b (IsLeftSide (data_meant sig.now)
        (term_at sig.now pool.now.trees term))) }
{
    let node = pool.node(term);
    let Head::Fun(fun) = node.head else {
        return Ok(false);
    };
    if !is_mapping(sig, fun) {
        return Ok(false);
    }
    let shaped = are_patterns(alloc, sig, pool, node.args.as_slice())?;
    Ok(shaped)
}
