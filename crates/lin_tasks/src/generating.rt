//! The task `generate`: how large the linear process of a line of buffers is.
ghost use Rattle.std.specs.Prelude.{◌≡◌, ◌≢◌, ◌++◌, ℕ, List, codes, decimal, length, map, IfErr, IfOk, OnOk};
ghost use Rattle.mcrl2_syntax.specs.Declarations.{spec_of};
ghost use Rattle.process_terms.specs.PlainProcesses.{plain_equation};
ghost use Rattle.lps_core.specs.Fitting.{Fits};
ghost use Rattle.lps_core.specs.PlainLinears.{plain_linear};
ghost use Rattle.lin_driver.specs.Accepted.{CanBeLinearised};
ghost use Rattle.lin_driver.specs.Eliminations.{equations_at, equations_in, CanRewrite};
ghost use Rattle.lin_driver.specs.Faults.{IsFaultBy};
ghost use Rattle.lin_driver.specs.Linearised.{IsMadeOf};
ghost use Rattle.lin_driver.specs.Refusals.{IsRefusedWith};
ghost use Rattle.lin_driver.specs.declared.ending.Ending.TheVariants.{End};
ghost use Rattle.lin_driver.specs.declared.methods.Method.TheVariants.{Auto};
ghost use Rattle.lin_tasks.specs.Counts.{count_line, counts_text, AreCounts, HasFirstMoves, ShowsCounts};

use crate::decimals::push_number;
use data_rewriter::Rewriter;
use data_theory::{Names, NoMemory, Signature};
use lin_driver::{LinFault, Linearised, Method, linearise};
use lps_core::{Linear, signature_stands};
use lps_simulator::Session;
use number_rules::NumberRules;
use number_rules::operations::exact;
use std::alloc::Global;
use term_pool::{Pool, Theory};

/// How many moves a linear process has in its initial state, by 100,000 uses of equations for each term and for the first 16 values of each sum.
fn first_moves(
    alloc: Global,
    sig: &Signature,
    pool: &mut Pool,
    theory: &Theory,
    lin: Linear,
) -> Result<usize, NoMemory>
    requires fits { Fits sig.now pool.old.trees (plain_linear lin) }
    requires equations { CanRewrite sig.now pool.old.trees theory.now }
    ensures { IfOk result (λ count. HasFirstMoves sig.now (equations_in sig.now pool.old.trees theory.now) pool.old.trees (plain_linear lin) count) }
{
    signature_stands(sig);
    let rules = NumberRules::new(exact);
    let mut rewriter = Rewriter::new(alloc, sig, pool, theory, rules)?;
    let mut session = Session::new(alloc, lin)?;
    let found = session.options(sig, pool, &mut rewriter, 100_000, 16)?;
    Ok(found.moves.len())
}

/// Puts a count behind a text, on a line with its name.
fn push_count(text: &mut Vec<u8>, name: &[u8], count: usize) -> Result<(), NoMemory>
    ensures { OnOk result (text.new.items ≡ text.old.items ++ count_line name.now count) }
{
    text.extend_from_slice(name)?;
    text.extend_from_slice(b" ")?;
    push_number(text, count as u64)?;
    text.extend_from_slice(b"\n")?;
    Ok(())
}

/// How many components, parameters, summands and moves there are.
fn counts_text(
    alloc: Global,
    components: usize,
    parameters: usize,
    summands: usize,
    steps: usize,
) -> Result<Vec<u8>, NoMemory>
    ensures { IfOk result (λ text. text.items ≡ counts_text components parameters summands steps) }
{
    let mut text = Vec::new(alloc);
    push_count(&mut text, b"components", components)?;
    push_count(&mut text, b"parameters", parameters)?;
    push_count(&mut text, b"summands", summands)?;
    push_count(&mut text, b"steps", steps)?;
    Ok(text)
}

/// How large a linear process is, as it is shown.
fn shown_counts(
    alloc: Global,
    sig: &Signature,
    pool: &mut Pool,
    theory: &Theory,
    lin: Linear,
    components: usize,
) -> Result<Vec<u8>, NoMemory>
    requires fits { Fits sig.now pool.old.trees (plain_linear lin) }
    requires equations { CanRewrite sig.now pool.old.trees theory.now }
    ensures { IfOk result (λ shown. ShowsCounts sig.now (equations_in sig.now pool.old.trees theory.now) pool.old.trees (plain_linear lin) components shown.items) }
{
    let parameters = lin.params().len();
    let summands = lin.summands().len();
    let steps = first_moves(alloc, sig, pool, theory, lin)?;
    let text = counts_text(alloc, components, parameters, summands, steps)?;
    Ok(text)
}

/// How large the linear process is that was made of a text, as it is shown.
fn counts_of(alloc: Global, made: Linearised) -> Result<Vec<u8>, NoMemory>
    requires { (text : List ℕ) × IsMadeOf End text (spec_of made.spec) made.sig made.pool.trees (map plain_equation made.theory.equations.items) made.name (plain_linear made.lin) }
    ensures { IfOk result (λ shown. ShowsCounts made.sig (equations_at made.sig made.pool.trees (map plain_equation made.theory.equations.items)) made.pool.trees (plain_linear made.lin) made.components shown.items) }
{
    let Linearised {
        spec: _,
        sig,
        pool,
        theory,
        name: _,
        lin,
        components,
    } = made;
    let mut pool = pool;
    shown_counts(alloc, &sig, &mut pool, &theory, lin, components)
}

/// How large the linear process of a text is: the number of its components, of the parameters and the summands of the linear process, and of
/// the moves that this has in its initial state.
///
/// # Errors
///
/// Those of [`linearise`] with the method `Auto`.
pub fn counts(alloc: Global, text: &[u8], names: &mut Names) -> Result<Vec<u8>, LinFault>
    ensures accepted { OnOk result (CanBeLinearised text.now) }
    ensures counted { IfOk result (λ shown. AreCounts text.now shown.items) }
    ensures refused { IfErr result (λ fault. fault ≢ LinFault.NoMemory → IsRefusedWith text.now names.new fault) }
    ensures by { IfErr result (IsFaultBy End Auto) }
{
    let made = linearise(alloc, text, names, Method::Auto)?;
    let shown = counts_of(alloc, made)?;
    Ok(shown)
}
