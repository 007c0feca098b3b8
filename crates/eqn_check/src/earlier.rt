//! Earlier equations whose left sides may meet. Each equation has the number of the last one before it
//! of its mapping; of those that begin like it; and of those that begin with no function, as a
//! variable or a numeral.

ghost use Rattle.std.specs.Prelude.{◌≡◌, length, true, IfOk, OnOk};
ghost use Rattle.std.specs.List.{All};
ghost use Rattle.term_pool.specs.HeadTrees.{tree_at, IsIn};
ghost use Rattle.eqn_check.specs.Alike.{AreAlike};
ghost use Rattle.eqn_check.specs.Earlier.{last_if, open_at, start_at, AreEarlier, AreOpens, ArePrevious, AreStarts, Enters};
ghost use Rattle.eqn_check.specs.Judged.{term_at, IsEquationOver, IsTerm};
ghost use Rattle.eqn_check.specs.LeftHeads.{AreApart, IsOtherFunction, IsOtherNumber};

use crate::comparisons::differ;
use data_theory::{FunId, NoMemory, Num, Signature, TermId};
use std::alloc::Global;
use std::collections::HashMap;
use term_pool::{Head, Pool, Theory};

/// The function of a left side, and the one that its first argument begins with, or this number.
fn start_of(pool: &Pool, count: usize, left: TermId) -> Option<(usize, usize)>
    requires { IsIn pool.now.trees left }
    ensures { result ≡ start_at count (tree_at pool.now.trees left) }
{
    let node = pool.node(left);
    let Head::Fun(fun) = node.head else {
        return None;
    };
    if node.args.len() == 0 {
        return Some((fun.0, count));
    }
    let Head::Fun(first) = pool.node(node.args[0]).head else {
        return Some((fun.0, count));
    };
    Some((fun.0, first.0))
}

/// The function of a left side, and this number.
fn open_of(pool: &Pool, count: usize, left: TermId) -> Option<(usize, usize)>
    requires { IsIn pool.now.trees left }
    ensures { result ≡ open_at count (tree_at pool.now.trees left) }
{
    let Head::Fun(fun) = pool.node(left).head else {
        return None;
    };
    Some((fun.0, count))
}

/// How the left side of each equation begins.
fn starts_of(
    alloc: Global,
    sig: &Signature,
    theory: &Theory,
    pool: &Pool,
    count: usize,
) -> Result<Vec<Option<(usize, usize)>>, NoMemory>
    requires { All (IsEquationOver sig.now pool.now.trees) theory.now.equations.items }
    ensures { IfOk result (λ keys. AreStarts pool.now.trees count theory.now.equations.items
        keys.items) }
{
    sig.next_sort();
    let mut keys = Vec::new(alloc);
    for number in 0..theory.equations.len() {
        keys.push(start_of(pool, count, theory.equations[number].left))?;
    }
    Ok(keys)
}

/// How the left side of each equation would begin, if it began with no function.
fn opens_of(
    alloc: Global,
    sig: &Signature,
    theory: &Theory,
    pool: &Pool,
    count: usize,
) -> Result<Vec<Option<(usize, usize)>>, NoMemory>
    requires { All (IsEquationOver sig.now pool.now.trees) theory.now.equations.items }
    ensures { IfOk result (λ keys. AreOpens pool.now.trees count theory.now.equations.items
        keys.items) }
{
    sig.next_sort();
    let mut keys = Vec::new(alloc);
    for number in 0..theory.equations.len() {
        keys.push(open_of(pool, count, theory.equations[number].left))?;
    }
    Ok(keys)
}

/// What a map has for a key, if there is one.
fn last_with(last: &HashMap<(usize, usize), usize>, key: Option<(usize, usize)>) -> Option<usize>
    ensures { result ≡ last_if last.now key }
{
    match key {
        Some(key) => last.get(&key).copied(),
        None => None,
    }
}

/// Gives a key, if there is one, this number.
fn enter(
    last: &mut HashMap<(usize, usize), usize>,
    key: Option<(usize, usize)>,
    number: usize,
) -> Result<(), NoMemory>
    ensures { OnOk result (Enters last.old last.new key number) }
{
    if let Some(key) = key {
        last.insert(key, number)?;
    }
    Ok(())
}

/// For each equation the last one before it with the key that is asked for there.
fn previous_ones(
    alloc: Global,
    keys: &[Option<(usize, usize)>],
    asked: &[Option<(usize, usize)>],
) -> Result<Vec<Option<usize>>, NoMemory>
    requires { length keys.now ≡ length asked.now }
    ensures { IfOk result (λ previous. ArePrevious keys.now asked.now previous.items) }
{
    let mut last = HashMap::new(alloc);
    let mut previous = Vec::new(alloc);
    for number in 0..keys.len() {
        previous.push(last_with(&last, asked[number]))?;
        enter(&mut last, keys[number], number)?;
    }
    Ok(previous)
}

/// Earlier equations.
#[derive(Drop)]
pub struct Earlier {
    /// A number that no function has.
    pub count: usize,
    /// How the left side of each equation begins.
    pub starts: Vec<Option<(usize, usize)>>,
    /// How it would begin, if it began with no function.
    pub opens: Vec<Option<(usize, usize)>>,
    /// For each equation the last one before it of its mapping.
    pub of_mapping: Vec<Option<usize>>,
    /// The last one before it that begins like it.
    pub of_start: Vec<Option<usize>>,
    /// The last one before it of its mapping that begins with no function.
    pub of_open: Vec<Option<usize>>,
}

/// Earlier equations.
pub fn find_earlier(
    alloc: Global,
    sig: &Signature,
    theory: &Theory,
    pool: &Pool,
) -> Result<Earlier, NoMemory>
    requires { All (IsEquationOver sig.now pool.now.trees) theory.now.equations.items }
    ensures number { IfOk result (λ earlier. earlier.count ≡ length sig.now.functions) }
    ensures are { IfOk result (λ earlier. AreEarlier pool.now.trees theory.now.equations.items
        earlier.count earlier.starts.items earlier.opens.items earlier.of_mapping.items
        earlier.of_start.items earlier.of_open.items) }
{
    let count = sig.fun_count();
    let starts = starts_of(alloc, sig, theory, pool, count)?;
    let opens = opens_of(alloc, sig, theory, pool, count)?;
    let of_mapping = previous_ones(alloc, opens.as_slice(), opens.as_slice())?;
    let of_start = previous_ones(alloc, starts.as_slice(), starts.as_slice())?;
    let of_open = previous_ones(alloc, starts.as_slice(), opens.as_slice())?;
    Ok(Earlier {
        count,
        starts,
        opens,
        of_mapping,
        of_start,
        of_open,
    })
}
/// Whether a head is a numeral of another number.
fn is_another_number(number: Num, other: Head) -> bool
    ensures { result ≡ true → IsOtherNumber number other }
{
    let Head::Num(_, than) = other else {
        return false;
    };
    differ(number, than)
}

/// Whether a head is another function.
fn is_another_function(fun: FunId, other: Head) -> bool
    ensures { result ≡ true → IsOtherFunction fun other }
{
    let Head::Fun(than) = other else {
        return false;
    };
    fun != than
}

/// Whether two heads are different functions, or numerals of different numbers.
fn are_apart(one: Head, other: Head) -> bool
    ensures { result ≡ true → AreApart one other }
{
    match one {
        Head::Var(_) => false,
        Head::Num(_, number) => is_another_number(number, other),
        Head::Fun(fun) => is_another_function(fun, other),
    }
}

/// Whether the first arguments of two left sides can't be alike.
pub fn begin_apart(sig: &Signature, pool: &Pool, one: TermId, other: TermId) -> bool
    requires one { IsTerm sig.now pool.now.trees one }
    requires other { IsTerm sig.now pool.now.trees other }
    ensures { result ≡ true → AreAlike (term_at sig.now pool.now.trees one)
        (term_at sig.now pool.now.trees other) → ⊥ }
{
    sig.next_sort();
    let node = pool.node(one);
    let under = pool.node(other);
    if node.args.len() == 0 {
        return false;
    }
    if under.args.len() == 0 {
        return false;
    }
    are_apart(pool.node(node.args[0]).head, pool.node(under.args[0]).head)
}
