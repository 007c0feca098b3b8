//! Terms that are put in for variables, in labels and in lists of terms.

ghost use Rattle.std.specs.Prelude.{◌≡◌, length, map, IfOk};
ghost use Rattle.std.specs.List.{All};
ghost use Rattle.data_theory.specs.declared.ids.VarId.{VarId};
ghost use Rattle.data_theory.specs.IdTrees.{put_tree, variable};
ghost use Rattle.term_pool.specs.HeadTrees.{tree_at, trees_at, AreIn, IsIn};
ghost use Rattle.term_pool.specs.Pools.{Extends};
ghost use Rattle.term_pool.specs.Bindings.{listed, listed_terms};
ghost use Rattle.process_terms.specs.PlainProcesses.{plain_label};
ghost use Rattle.lps_core.specs.TreeSummands.{put_actions, renaming_tree, trees_of_label, IsActionIn};

use data_theory::{NoMemory, TermId, VarId};
use process_terms::{Action, Label};
use std::alloc::Global;
use term_pool::{Head, Pool};

/// The term of a variable.
pub fn variable_term(pool: &mut Pool, var: VarId) -> Result<TermId, NoMemory>
    ensures kept { Extends pool.old.trees pool.new.trees }
    ensures constants { pool.new.constants ≡ pool.old.constants }
    ensures within { IfOk result (λ id. IsIn pool.new.trees id) }
    ensures tree { IfOk result (λ id. tree_at pool.new.trees id ≡ variable var) }
{
    pool.intern(Head::Var(var), &[])
}

/// Variables with the terms of others, place by place, to be put in.
pub fn renaming(
    alloc: Global,
    pool: &mut Pool,
    from: &[VarId],
    to: &[VarId],
) -> Result<Vec<(VarId, TermId)>, NoMemory>
    requires { length to.now ≡ length from.now }
    ensures kept { Extends pool.old.trees pool.new.trees }
    ensures constants { pool.new.constants ≡ pool.old.constants }
    ensures within { IfOk result (λ by. AreIn pool.new.trees (listed_terms by.items)) }
    ensures moves { IfOk result (λ by. (v : VarId) → listed pool.new.trees by.items v ≡ renaming_tree from.now to.now v) }
{
    let mut by = Vec::new(alloc);
    for number in 0..from.len() {
        by.push((from[number], variable_term(pool, to[number])?))?;
    }
    Ok(by)
}

/// The terms with those listed put in.
pub fn put_all(
    alloc: Global,
    pool: &mut Pool,
    terms: &[TermId],
    by: &[(VarId, TermId)],
) -> Result<Vec<TermId>, NoMemory>
    requires within { AreIn pool.old.trees terms.now }
    requires listed { AreIn pool.old.trees (listed_terms by.now) }
    ensures kept { Extends pool.old.trees pool.new.trees }
    ensures constants { pool.new.constants ≡ pool.old.constants }
    ensures within { IfOk result (λ made. AreIn pool.new.trees made.items) }
    ensures terms { IfOk result (λ made. trees_at pool.new.trees made.items ≡ map (put_tree (listed pool.old.trees by.now)) (trees_at pool.old.trees terms.now)) }
{
    let mut made = Vec::new(alloc);
    for term in terms {
        made.push(pool.subst(*term, by)?)?;
    }
    Ok(made)
}

/// The label with those listed put in.
pub fn put_label(
    alloc: Global,
    pool: &mut Pool,
    label: &Label,
    by: &[(VarId, TermId)],
) -> Result<Label, NoMemory>
    requires within { All (IsActionIn pool.old.trees) (plain_label label.now) }
    requires listed { AreIn pool.old.trees (listed_terms by.now) }
    ensures kept { Extends pool.old.trees pool.new.trees }
    ensures constants { pool.new.constants ≡ pool.old.constants }
    ensures within { IfOk result (λ made. All (IsActionIn pool.new.trees) (plain_label made)) }
    ensures label { IfOk result (λ made. trees_of_label pool.new.trees (plain_label made) ≡ put_actions (listed pool.old.trees by.now) (trees_of_label pool.old.trees (plain_label label.now))) }
{
    let mut actions = Vec::new(alloc);
    for action in &label.actions {
        let args = put_all(alloc, pool, action.args.as_slice(), by)?;
        actions.push(Action {
            act: action.act,
            args,
        })?;
    }
    Ok(Label { actions })
}
