//! The listed values of sum variables.

ghost use Rattle.std.specs.Prelude.{◌≡◌, ◌||◌, not, IfOk};
ghost use Rattle.std.specs.List.{All};
ghost use Rattle.term_pool.specs.Pools.{Extends};
ghost use Rattle.lps_core.specs.Fitting.{IsVariable};
ghost use Rattle.lps_simulator.specs.Combinations.{rows};
ghost use Rattle.lps_simulator.specs.SumValues.{AreSumValues};

use data_theory::{NoMemory, Signature, TermId, VarId};
use lps_core::signature_stands;
use std::alloc::Global;
use term_pool::Pool;
use value_enum::values;

/// The first values of each sum variable.
#[derive(Debug, Drop)]
pub struct SumValues {
    pub lists: Vec<Vec<TermId>>,
    /// Whether a variable has others, or some with unknown parts.
    pub cut: bool,
}

/// Whether values are cut: some were, or these aren't all.
fn is_cut(cut: bool, whole: bool) -> bool
    ensures { result ≡ (cut || not whole) }
{
    cut || !whole
}

/// The first constructor values of each of these variables, as many as the bound, or all where there are fewer.
///
/// # Errors
///
/// `NoMemory` where there is none for them. The pool may have got some of them then.
pub fn sum_values(
    alloc: Global,
    sig: &Signature,
    pool: &mut Pool,
    sums: &[VarId],
    bound: u64,
) -> Result<SumValues, NoMemory>
    requires { All (IsVariable sig.now) sums.now }
    ensures kept { Extends pool.old.trees pool.new.trees }
    ensures listed { IfOk result (λ found. AreSumValues sig.now bound pool.new.trees sums.now (rows found.lists.items) found.cut) }
{
    signature_stands(sig);
    let mut lists = Vec::new(alloc);
    let mut cut = false;
    for sum in sums {
        let found = values(alloc, sig, pool, sig.var_sort(*sum), bound)?;
        cut = is_cut(cut, found.whole);
        lists.push(found.list)?;
    }
    Ok(SumValues { lists, cut })
}
