//! What may be eliminated from a linear process, and what is left of it then.

ghost use Rattle.std.specs.Prelude.{◌≡◌, List, IfOk};
ghost use Rattle.data_theory.specs.Provable.{Equation};
ghost use Rattle.data_rewriter.specs.Rewriters.{number_rules};
ghost use Rattle.data_rewriter.specs.Rewriters as rewriters;
ghost use Rattle.lps_core.specs.Fitting.{Fits};
ghost use Rattle.lps_core.specs.PlainLinears.{plain_linear};
ghost use Rattle.lin_driver.specs.Eliminations.{equations_in, CanRewrite, IsLeft};
ghost use Rattle.lin_driver.specs.declared.eliminations.Elimination.TheVariants.{Constants, Parameters, Sums};

use data_rewriter::{ByRewriter, Rewriter};
use data_theory::{NoMemory, Num, Signature};
use lps_core::{Linear, signature_stands};
use number_rules::operations::exact;
use number_rules::{NumOp, NumberRules};
use std::alloc::Global;
use term_pool::{Pool, Theory};

/// What is eliminated from a linear process.
#[derive(Clone, Copy, Debug, PartialEq, Eq)]
pub enum Elimination {
    /// Parameters that keep their initial values, which are put in for them. Terms are simplified with this fuel.
    Constants(u64),
    /// Parameters that nothing needs.
    Parameters,
    /// Sums that an equality solves or that don't occur. Terms are simplified with this fuel.
    Sums(u64),
}

/// A simplifier by the written equations, with this fuel for each term.
///
/// # Errors
///
/// `NoMemory` where there is none for its tables.
fn simplifier_by<F: Fn(NumOp, Num, Num) -> Option<Num>>(
    alloc: Global,
    sig: &Signature,
    pool: &Pool,
    theory: &Theory,
    rules: NumberRules<F>,
    fuel: u64,
) -> Result<ByRewriter<F>, NoMemory>
    requires { CanRewrite sig.now pool.now.trees theory.now }
    ensures fits { IfOk result (λ simplifier. rewriters.Fits simplifier.rewriter sig.now (equations_in sig.now pool.now.trees theory.now) pool.now.trees) }
    ensures rules { IfOk result (λ simplifier. number_rules simplifier.rewriter ≡ rules) }
    ensures fuel { IfOk result (λ simplifier. simplifier.fuel ≡ fuel) }
{
    let rewriter = Rewriter::new(alloc, sig, pool, theory, rules)?;
    Ok(ByRewriter { rewriter, fuel })
}

/// The linear process without the parameters that keep their initial values, with its terms simplified by the written equations.
fn without_constants(
    alloc: Global,
    lin: Linear,
    sig: &Signature,
    pool: &mut Pool,
    theory: &Theory,
    fuel: u64,
) -> Result<Linear, NoMemory>
    requires fits { Fits sig.now pool.old.trees (plain_linear lin) }
    requires equations { CanRewrite sig.now pool.old.trees theory.now }
    ensures { IfOk result (λ left. IsLeft (Constants fuel) sig.now (equations_in sig.now pool.old.trees theory.now) pool.old.trees pool.new.trees (plain_linear lin) (plain_linear left)) }
{
    signature_stands(sig);
    let rules = NumberRules::new(exact);
    let mut simplifier = simplifier_by(alloc, sig, pool, theory, rules, fuel)?;
    lps_constelm::eliminate(alloc, lin, pool, &mut simplifier)
}

/// The linear process without the parameters that nothing needs.
fn without_parameters(
    alloc: Global,
    lin: Linear,
    sig: &Signature,
    pool: &mut Pool,
) -> Result<Linear, NoMemory>
    requires fits { Fits sig.now pool.old.trees (plain_linear lin) }
    ensures { IfOk result (λ left. (own : List Equation) → IsLeft Parameters sig.now own pool.old.trees pool.new.trees (plain_linear lin) (plain_linear left)) }
{
    signature_stands(sig);
    lps_parelm::eliminate(alloc, lin, pool)
}

/// The linear process without the sums that an equality solves or that don't occur, with the terms of its summands simplified by the written equations.
fn without_sums(
    alloc: Global,
    lin: Linear,
    sig: &Signature,
    pool: &mut Pool,
    theory: &Theory,
    fuel: u64,
) -> Result<Linear, NoMemory>
    requires fits { Fits sig.now pool.old.trees (plain_linear lin) }
    requires equations { CanRewrite sig.now pool.old.trees theory.now }
    ensures { IfOk result (λ left. IsLeft (Sums fuel) sig.now (equations_in sig.now pool.old.trees theory.now) pool.old.trees pool.new.trees (plain_linear lin) (plain_linear left)) }
{
    signature_stands(sig);
    let rules = NumberRules::new(exact);
    let mut simplifier = simplifier_by(alloc, sig, pool, theory, rules, fuel)?;
    lps_sumelm::eliminate(alloc, lin, sig, pool, &mut simplifier)
}

/// What the elimination leaves of the linear process.
///
/// # Errors
///
/// `NoMemory` where there is none for the tables of the rewriter, for new terms or for the result.
pub fn left_of(
    alloc: Global,
    lin: Linear,
    sig: &Signature,
    pool: &mut Pool,
    theory: &Theory,
    elimination: Elimination,
) -> Result<Linear, NoMemory>
    requires fits { Fits sig.now pool.old.trees (plain_linear lin) }
    requires equations { CanRewrite sig.now pool.old.trees theory.now }
    ensures { IfOk result (λ left. IsLeft elimination sig.now (equations_in sig.now pool.old.trees theory.now) pool.old.trees pool.new.trees (plain_linear lin) (plain_linear left)) }
{
    match elimination {
        Elimination::Constants(fuel) => without_constants(alloc, lin, sig, pool, theory, fuel),
        Elimination::Parameters => without_parameters(alloc, lin, sig, pool),
        Elimination::Sums(fuel) => without_sums(alloc, lin, sig, pool, theory, fuel),
    }
}
