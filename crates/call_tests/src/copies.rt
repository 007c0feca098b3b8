//! Copies of labels, rules and process terms.

use data_theory::{ActId, NameId, NoMemory, ProcId, TermId, VarId};
use process_terms::{Action, CommRule, CommSet, Component, Label, Proc};
use std::alloc::Global;
use std::fmt::Debug;
use std::test::Fail;

// a3(t1, t4, t1)|a5
fn label(alloc: Global) -> Result<Label, NoMemory> {
    let first = Action {
        act: ActId(3),
        args: Vec::from_array(alloc, [TermId(1), TermId(4), TermId(1)])?,
    };
    let second = Action {
        act: ActId(5),
        args: Vec::new(alloc),
    };
    let actions = Vec::from_array(alloc, [first, second])?;
    Ok(Label { actions })
}

// n1|n2|n1 -> n7, n3|n4 -> n8
fn rules(alloc: Global) -> Result<CommSet, NoMemory> {
    let first = CommRule {
        left: Vec::from_array(alloc, [NameId(1), NameId(2), NameId(1)])?,
        result: NameId(7),
    };
    let second = CommRule {
        left: Vec::from_array(alloc, [NameId(3), NameId(4)])?,
        result: NameId(8),
    };
    let rules = Vec::from_array(alloc, [first, second])?;
    Ok(CommSet { rules })
}

// P2(t6, t7)
fn call(alloc: Global) -> Result<Proc, NoMemory> {
    let args = Vec::from_array(alloc, [TermId(6), TermId(7)])?;
    Ok(Proc::Call(ProcId(2), args))
}

// a label, delta and a call
fn operands(alloc: Global) -> Result<Vec<Proc>, NoMemory> {
    let act = Proc::Act(label(alloc)?);
    let call = call(alloc)?;
    Ok(Vec::from_array(alloc, [act, Proc::Delta, call])?)
}

fn names(alloc: Global) -> Result<Vec<NameId>, NoMemory> {
    Ok(Vec::from_array(alloc, [NameId(2), NameId(5)])?)
}

// t9 -> P2(t6, t7) <> delta
fn conditional(alloc: Global) -> Result<Proc, NoMemory> {
    let then = Box::new(alloc, call(alloc)?)?;
    let other = Box::new(alloc, Proc::Delta)?;
    Ok(Proc::Cond(TermId(9), then, other))
}

// sum x3, x0 . (t9 -> P2(t6, t7) <> delta)
fn summed(alloc: Global) -> Result<Proc, NoMemory> {
    let variables = Vec::from_array(alloc, [VarId(3), VarId(0)])?;
    let inner = Box::new(alloc, conditional(alloc)?)?;
    Ok(Proc::Sum(variables, inner))
}

fn communicating(alloc: Global) -> Result<Proc, NoMemory> {
    let inner = Box::new(alloc, Proc::Merge(operands(alloc)?))?;
    Ok(Proc::Comm(rules(alloc)?, inner))
}

fn renaming(alloc: Global) -> Result<Proc, NoMemory> {
    let pairs = [(NameId(1), NameId(2)), (NameId(2), NameId(1))];
    let renamings = Vec::from_array(alloc, pairs)?;
    let inner = Box::new(alloc, communicating(alloc)?)?;
    Ok(Proc::Rename(renamings, inner))
}

fn hiding(alloc: Global) -> Result<Proc, NoMemory> {
    let inner = Box::new(alloc, renaming(alloc)?)?;
    Ok(Proc::Hide(names(alloc)?, inner))
}

fn blocking(alloc: Global) -> Result<Proc, NoMemory> {
    let inner = Box::new(alloc, hiding(alloc)?)?;
    Ok(Proc::Block(names(alloc)?, inner))
}

fn allowing(alloc: Global) -> Result<Proc, NoMemory> {
    let first = names(alloc)?;
    let sets = Vec::from_array(alloc, [first, Vec::new(alloc)])?;
    let inner = Box::new(alloc, blocking(alloc)?)?;
    Ok(Proc::Allow(sets, inner))
}

/// Whether two values are printed alike.
fn look_alike<T: Debug>(alloc: Global, one: &T, other: &T) -> Result<bool, NoMemory> {
    let printed = format!(in alloc; "{one:?}")?;
    Ok(printed == format!(in alloc; "{other:?}")?)
}

#[test]
fn copies_of_labels_and_rules_are_equal(rt: HostRuntime) -> Result<(), Fail> {
    let alloc = rt.alloc();
    let original = label(alloc)?;
    let copy = original.copy(alloc)?;
    assert!(rt; look_alike(alloc, &original, &copy)?);
    for action in &original.actions {
        let copy = action.copy(alloc)?;
        assert!(rt; look_alike(alloc, action, &copy)?);
    }
    let original = rules(alloc)?;
    let copy = original.copy(alloc)?;
    assert!(rt; look_alike(alloc, &original, &copy)?);
    Ok(())
}

/// Whether the copy of a process term is printed as the term is.
fn is_copied(alloc: Global, term: &Proc) -> Result<bool, NoMemory> {
    let copy = term.copy(alloc)?;
    look_alike(alloc, term, &copy)
}

// chains, a sum of a condition, and each operator around another one
#[test]
fn copies_of_process_terms_are_equal(rt: HostRuntime) -> Result<(), Fail> {
    let alloc = rt.alloc();
    assert!(rt; is_copied(alloc, &Proc::Choice(operands(alloc)?))?);
    assert!(rt; is_copied(alloc, &Proc::Seq(operands(alloc)?))?);
    assert!(rt; is_copied(alloc, &Proc::Choice(Vec::new(alloc)))?);
    assert!(rt; is_copied(alloc, &summed(alloc)?)?);
    assert!(rt; is_copied(alloc, &allowing(alloc)?)?);
    Ok(())
}

/// Whether the copy of a component is printed as the component is.
fn is_component_copied(alloc: Global, component: &Component) -> Result<bool, NoMemory> {
    let copy = component.copy(alloc)?;
    look_alike(alloc, component, &copy)
}

#[test]
fn copies_of_components_are_equal(rt: HostRuntime) -> Result<(), Fail> {
    let alloc = rt.alloc();
    let args = Vec::from_array(alloc, [TermId(6), TermId(7)])?;
    assert!(rt; is_component_copied(alloc, &Component::Call(ProcId(2), args))?);
    assert!(rt; is_component_copied(alloc, &Component::Term(summed(alloc)?))?);
    Ok(())
}
