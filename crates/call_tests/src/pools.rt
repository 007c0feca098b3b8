//! Terms by number. Each test lends its pool to its body: to prove that a pool is dropped at each of many ends takes minutes.

use data_theory::{FunId, TermId, VarId};
use std::alloc::Global;
use std::process::Abort;
use std::test::Fail;
use term_pool::{Head, Pool};

const X: VarId = VarId(0);

const Y: VarId = VarId(1);

// Functions of the signature that the tests think of: no built-in one has such a number.
const LEAF: FunId = FunId(300);

const ONE: FunId = FunId(301);

const TWO: FunId = FunId(302);

fn leaf(pool: &mut Pool) -> Result<TermId, Fail> {
    Ok(pool.intern(Head::Fun(LEAF), &[])?)
}

fn variable(pool: &mut Pool, var: VarId) -> Result<TermId, Fail> {
    Ok(pool.intern(Head::Var(var), &[])?)
}

fn one(rt: &impl Abort, pool: &mut Pool, fun: FunId, term: TermId) -> Result<TermId, Fail> {
    assert!(rt; term.0 < pool.len());
    Ok(pool.intern(Head::Fun(fun), &[term])?)
}

fn two(rt: &impl Abort, pool: &mut Pool, left: TermId, right: TermId) -> Result<TermId, Fail> {
    assert!(rt; left.0 < pool.len());
    assert!(rt; right.0 < pool.len());
    Ok(pool.intern(Head::Fun(TWO), &[left, right])?)
}

// A term with one term put in for X and another for Y.
fn put(
    rt: &impl Abort,
    pool: &mut Pool,
    term: TermId,
    for_x: TermId,
    for_y: TermId,
) -> Result<TermId, Fail> {
    assert!(rt; term.0 < pool.len());
    assert!(rt; for_x.0 < pool.len());
    assert!(rt; for_y.0 < pool.len());
    Ok(pool.subst(term, &[(X, for_x), (Y, for_y)])?)
}

// The trees over the three functions that are one deeper at most.
fn deeper(
    rt: &impl Abort,
    alloc: Global,
    pool: &mut Pool,
    terms: &[TermId],
) -> Result<Vec<TermId>, Fail> {
    let mut all = Vec::new(alloc);
    all.push(leaf(pool)?)?;
    for term in terms {
        all.push(one(rt, pool, ONE, *term)?)?;
    }
    for left in terms {
        for right in terms {
            all.push(two(rt, pool, *left, *right)?)?;
        }
    }
    Ok(all)
}

fn trees_have_one_id(rt: &impl Abort, alloc: Global, pool: &mut Pool) -> Result<(), Fail> {
    let first = deeper(rt, alloc, pool, &[])?;
    let second = deeper(rt, alloc, pool, first.as_slice())?;
    let third = deeper(rt, alloc, pool, second.as_slice())?;
    assert_eq!(rt; third.len(), 13);
    assert_eq!(rt; pool.len(), 13);
    let again = deeper(rt, alloc, pool, second.as_slice())?;
    assert_eq!(rt; pool.len(), 13);
    assert!(rt; third.as_slice() == again.as_slice());
    let mut seen = Vec::new(alloc);
    for term in &third {
        assert!(rt; !seen.as_slice().contains(term));
        seen.push(*term)?;
    }
    Ok(())
}

#[test]
fn equal_trees_have_one_id(rt: HostRuntime) -> Result<(), Fail> {
    let mut pool = Pool::new(rt.alloc())?;
    trees_have_one_id(&rt, rt.alloc(), &mut pool)
}

fn shared_subterm_is_read(rt: &impl Abort, pool: &mut Pool) -> Result<(), Fail> {
    let x = variable(pool, X)?;
    let mut doubled = x;
    for _ in 0..60 {
        doubled = two(rt, pool, doubled, doubled)?;
    }
    let mut wanted = leaf(pool)?;
    let put_in = wanted;
    for _ in 0..60 {
        wanted = two(rt, pool, wanted, wanted)?;
    }
    let count = pool.len();
    let made = put(rt, pool, doubled, put_in, put_in)?;
    assert_eq!(rt; made.0, wanted.0);
    assert_eq!(rt; pool.len(), count);
    Ok(())
}

#[test]
fn a_shared_subterm_is_read_once(rt: HostRuntime) -> Result<(), Fail> {
    let mut pool = Pool::new(rt.alloc())?;
    shared_subterm_is_read(&rt, &mut pool)
}

fn deep_term_takes(rt: &impl Abort, pool: &mut Pool) -> Result<(), Fail> {
    let x = variable(pool, X)?;
    let mut deep = x;
    for _ in 0..1_000 {
        deep = one(rt, pool, ONE, deep)?;
    }
    let put_in = leaf(pool)?;
    let made = put(rt, pool, deep, put_in, put_in)?;
    assert_eq!(rt; made.0, 2 * 1_000 + 1);
    Ok(())
}

#[test]
fn a_deep_term_is_put_into(rt: HostRuntime) -> Result<(), Fail> {
    let mut pool = Pool::new(rt.alloc())?;
    deep_term_takes(&rt, &mut pool)
}
