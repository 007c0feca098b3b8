//! The names of variables, and those of the sums.

ghost use Rattle.std.specs.Prelude.{◌≡◌, ◌⊎◌, ◌↔◌, ◌<◌, ℕ, List, map, length, option_map, slice_get, Some, IfOk, IfSome, OnOk, IsTrue};
ghost use Rattle.std.specs.List.{All, Contains};
ghost use Rattle.data_theory.specs.declared.ids.NameId.{NameId};
ghost use Rattle.data_theory.specs.Fresh.{IsFreshIn};
ghost use Rattle.data_theory.specs.IdTrees.{put_tree};
ghost use Rattle.data_theory.specs.Names.{place_in};
ghost use Rattle.data_theory.specs.Taken.{with_name};
ghost use Rattle.data_theory.specs.WholeSignatures.{IsSignature};
ghost use Rattle.term_pool.specs.HeadTrees.{trees_at, AreIn};
ghost use Rattle.term_pool.specs.Pools.{Extends};
ghost use Rattle.term_pool.specs.Bindings.{listed, listed_terms};
ghost use Rattle.lps_core.specs.Fitting.{Fits, IsVariable};
ghost use Rattle.lps_core.specs.Naming.{list_names, names_of, table_names, AreNamed, GrowsByNames, HasOtherSums, HaveOwnNames, IsNamed, IsUsed, NamesSummands, NamingIsGood, SumsAreNamed};
ghost use Rattle.lps_core.specs.PlainLinears.{plain_linear, plain_next, plain_summand};
ghost use Rattle.lps_core.specs.TreeSummands.{IsSummandIn};

use crate::linears::{Linear, Summand};
use crate::moving::{put_all, put_label, renaming};
use data_theory::{FunId, NameId, NoMemory, Signature, TermId, VarId};
use indexmap::IndexSet;
use std::alloc::Global;
use term_pool::Pool;

/// Adds the names of variables.
pub fn add_variable_names(
    sig: &Signature,
    vars: &[VarId],
    names: &mut IndexSet<NameId>,
) -> Result<(), NoMemory>
    requires { All (IsVariable sig.now) vars.now }
    ensures { OnOk result ((n : NameId) → Contains names.new.keys n ↔ (Contains names.old.keys n ⊎ Contains (names_of sig.now vars.now) n)) }
{
    for var in vars {
        names.insert(sig.var_name(*var))?;
    }
    Ok(())
}

/// Adds the names of the functions in the table.
fn add_function_names(sig: &Signature, names: &mut IndexSet<NameId>) -> Result<(), NoMemory>
    ensures { OnOk result ((n : NameId) → Contains names.new.keys n ↔ (Contains names.old.keys n ⊎ Contains (table_names sig.now) n)) }
{
    for fun in 0..sig.fun_count() {
        names.insert(sig.fun_name_id(FunId(fun)))?;
    }
    Ok(())
}

/// Adds the name with this text.
fn add_word(sig: &Signature, word: &str, names: &mut IndexSet<NameId>) -> Result<(), NoMemory>
    requires { Contains sig.now.texts word.now }
    ensures { OnOk result (names.new.keys ≡ with_name names.old.keys (place_in sig.now.texts word.now)) }
{
    if let Some(name) = sig.names().find(word) {
        names.insert(name)?;
    }
    Ok(())
}

/// Adds the names of the functions over lists. Without a list sort these functions aren't in the table.
fn add_list_names(sig: &Signature, names: &mut IndexSet<NameId>) -> Result<(), NoMemory>
    ensures { OnOk result ((n : NameId) → Contains names.new.keys n ↔ (Contains names.old.keys n ⊎ Contains (list_names sig.now.texts) n)) }
{
    signature_stands(sig);
    add_word(sig, "head", names)?;
    add_word(sig, "rhead", names)?;
    add_word(sig, "tail", names)?;
    add_word(sig, "rtail", names)?;
    Ok(())
}

/// The names that no sum may have: those of the parameters and of all functions, declared or built in.
pub fn used_names(
    alloc: Global,
    sig: &Signature,
    params: &[VarId],
) -> Result<IndexSet<NameId>, NoMemory>
    requires { All (IsVariable sig.now) params.now }
    ensures { IfOk result (λ names. (n : NameId) → Contains names.keys n ↔ IsUsed sig.now params.now n) }
{
    let mut names = IndexSet::new(alloc);
    add_variable_names(sig, params, &mut names)?;
    add_list_names(sig, &mut names)?;
    add_function_names(sig, &mut names)?;
    Ok(names)
}

/// Whether a name is among these.
pub fn has_name(names: &IndexSet<NameId>, name: NameId) -> bool
    ensures { IsTrue result ↔ Contains names.now.keys name }
{
    names.contains(&name)
}

/// Whether a name is among the ones or the others.
fn is_used(used: &IndexSet<NameId>, mine: &IndexSet<NameId>, name: NameId) -> bool
    ensures { IsTrue result ↔ (Contains used.now.keys name ⊎ Contains mine.now.keys name) }
{
    if has_name(used, name) {
        return true;
    }
    has_name(mine, name)
}

/// States what each signature keeps.
pub fn signature_stands(sig: &Signature)
    ensures { IsSignature sig.now }
{
    let _ = sig.names();
}

/// A fresh name with the text of a name as its base.
pub fn fresh_from(alloc: Global, sig: &mut Signature, name: NameId) -> Result<NameId, NoMemory>
    requires { name.0 < length sig.old.texts }
    ensures fresh { IfOk result (λ fresh. (base : List ℕ) × (slice_get sig.old.texts name.0 ≡ Some base) × IsFreshIn sig.old base fresh sig.new) }
    ensures grown { GrowsByNames sig.old sig.new }
{
    let names = sig.names();
    let base = String::from_str(alloc, names.text(name))?;
    Ok(sig.fresh(base.as_str())?)
}

/// A sum, or a new variable of its sort with a fresh name where its own is one of these.
fn name_sum(
    alloc: Global,
    sig: &mut Signature,
    used: &IndexSet<NameId>,
    mine: &IndexSet<NameId>,
    sum: VarId,
) -> Result<VarId, NoMemory>
    requires variable { IsVariable sig.old sum }
    requires stands { IsSignature sig.old }
    ensures named { IfOk result (λ named. IsNamed (λ n. Contains used.now.keys n ⊎ Contains mine.now.keys n) sig.old sum sig.new named) }
    ensures grown { GrowsByNames sig.old sig.new }
{
    let name = sig.var_name(sum);
    if !is_used(used, mine, name) {
        return Ok(sum);
    }
    let sort = sig.var_sort(sum);
    let fresh = fresh_from(alloc, sig, name)?;
    Ok(sig.add_var(fresh, sort)?)
}

/// The sums of a summand with their names.
pub fn name_all(
    alloc: Global,
    sig: &mut Signature,
    used: &IndexSet<NameId>,
    sums: &[VarId],
) -> Result<Vec<VarId>, NoMemory>
    requires variables { All (IsVariable sig.old) sums.now }
    requires stands { IsSignature sig.old }
    ensures named { IfOk result (λ named. AreNamed (λ n. Contains used.now.keys n) sig.old sums.now sig.new named.items) }
    ensures grown { GrowsByNames sig.old sig.new }
{
    let mut mine = IndexSet::new(alloc);
    let mut named = Vec::new(alloc);
    for sum in sums {
        let new = name_sum(alloc, sig, used, &mine, *sum)?;
        mine.insert(sig.var_name(new))?;
        named.push(new)?;
    }
    Ok(named)
}

/// Next terms with those listed put in.
pub fn put_next(
    alloc: Global,
    pool: &mut Pool,
    next: &Option<Vec<TermId>>,
    by: &[(VarId, TermId)],
) -> Result<Option<Vec<TermId>>, NoMemory>
    requires within { IfSome (plain_next next.now) (AreIn pool.old.trees) }
    requires listed { AreIn pool.old.trees (listed_terms by.now) }
    ensures kept { Extends pool.old.trees pool.new.trees }
    ensures constants { pool.new.constants ≡ pool.old.constants }
    ensures within { IfOk result (λ made. IfSome (plain_next made) (AreIn pool.new.trees)) }
    ensures next { IfOk result (λ made. option_map (trees_at pool.new.trees) (plain_next made) ≡ option_map (map (put_tree (listed pool.old.trees by.now))) (option_map (trees_at pool.old.trees) (plain_next next.now))) }
{
    match next {
        Some(terms) => Ok(Some(put_all(alloc, pool, terms.as_slice(), by)?)),
        None => Ok(None),
    }
}

/// The summand with these sums in place of its own.
fn with_sums(
    alloc: Global,
    pool: &mut Pool,
    summand: &Summand,
    sums: Vec<VarId>,
) -> Result<Summand, NoMemory>
    requires within { IsSummandIn pool.old.trees (plain_summand summand.now) }
    requires long { length sums.items ≡ length summand.now.sums.items }
    ensures kept { Extends pool.old.trees pool.new.trees }
    ensures constants { pool.new.constants ≡ pool.old.constants }
    ensures sums { IfOk result (λ made. made.sums.items ≡ sums.items) }
    ensures within { IfOk result (λ made. IsSummandIn pool.new.trees (plain_summand made)) }
    ensures other { IfOk result (λ made. HasOtherSums pool.old.trees pool.new.trees (plain_summand summand.now) (plain_summand made)) }
{
    let by = renaming(alloc, pool, summand.sums.as_slice(), sums.as_slice())?;
    let cond = pool.subst(summand.cond, by.as_slice())?;
    let label = put_label(alloc, pool, &summand.label, by.as_slice())?;
    let next = put_next(alloc, pool, &summand.next, by.as_slice())?;
    Ok(Summand {
        sums,
        cond,
        label,
        next,
    })
}

/// The summand with its sums named.
fn name_summand(
    alloc: Global,
    used: &IndexSet<NameId>,
    summand: &Summand,
    sig: &mut Signature,
    pool: &mut Pool,
) -> Result<Summand, NoMemory>
    requires stands { IsSignature sig.old }
    requires sums { All (IsVariable sig.old) summand.now.sums.items }
    requires within { IsSummandIn pool.old.trees (plain_summand summand.now) }
    ensures grown { GrowsByNames sig.old sig.new }
    ensures kept { Extends pool.old.trees pool.new.trees }
    ensures constants { pool.new.constants ≡ pool.old.constants }
    ensures named { IfOk result (λ made. AreNamed (λ n. Contains used.now.keys n) sig.old summand.now.sums.items sig.new made.sums.items) }
    ensures within { IfOk result (λ made. IsSummandIn pool.new.trees (plain_summand made)) }
    ensures other { IfOk result (λ made. HasOtherSums pool.old.trees pool.new.trees (plain_summand summand.now) (plain_summand made)) }
{
    let sums = name_all(alloc, sig, used, summand.sums.as_slice())?;
    with_sums(alloc, pool, summand, sums)
}

/// The summands with their sums named, in their order.
fn name_summands(
    alloc: Global,
    used: &IndexSet<NameId>,
    summands: &[Summand],
    sig: &mut Signature,
    pool: &mut Pool,
) -> Result<Vec<Summand>, NoMemory>
    requires stands { IsSignature sig.old }
    requires sums { All (λ s. All (IsVariable sig.old) s.sums) (map plain_summand summands.now) }
    requires within { All (IsSummandIn pool.old.trees) (map plain_summand summands.now) }
    ensures grown { GrowsByNames sig.old sig.new }
    ensures kept { Extends pool.old.trees pool.new.trees }
    ensures constants { pool.new.constants ≡ pool.old.constants }
    ensures named { IfOk result (λ named. NamesSummands (λ n. Contains used.now.keys n) sig.old sig.new pool.old.trees pool.new.trees (map plain_summand summands.now) (map plain_summand named.items)) }
{
    let mut named = Vec::new(alloc);
    for summand in summands {
        named.push(name_summand(alloc, used, summand, sig, pool)?)?;
    }
    Ok(named)
}

/// The linear process with its sums named, as the last step before it is printed. A sum that has the name of a parameter, of an
/// earlier sum of its summand or of a function, declared or built in, gets a fresh name with its own as the base, in the order of the
/// summands and in each from the left. Nothing else changes.
///
/// After `NoMemory` the pool and the signature may have got some of this. What was there stays, then too.
pub fn name_sums(
    alloc: Global,
    lin: Linear,
    sig: &mut Signature,
    pool: &mut Pool,
) -> Result<Linear, NoMemory>
    requires { Fits sig.old pool.old.trees (plain_linear lin) }
    ensures grown { GrowsByNames sig.old sig.new }
    ensures kept { Extends pool.old.trees pool.new.trees }
    ensures constants { pool.new.constants ≡ pool.old.constants }
    ensures named { IfOk result (λ named. SumsAreNamed sig.old sig.new pool.old.trees pool.new.trees (plain_linear lin) (plain_linear named)) }
    ensures fits { IfOk result (λ named. Fits sig.new pool.new.trees (plain_linear named)) }
    ensures names { IfOk result (λ named. HaveOwnNames sig.new (plain_linear named)) }
    ensures bisimilar { IfOk result (λ named. NamingIsGood sig.new pool.new.trees (plain_linear lin) (plain_linear named)) }
{
    signature_stands(sig);
    let used = used_names(alloc, sig, lin.params.as_slice())?;
    let summands = name_summands(alloc, &used, lin.summands.as_slice(), sig, pool)?;
    let Linear { params, init, .. } = lin;
    Ok(Linear {
        params,
        init,
        summands,
    })
}
