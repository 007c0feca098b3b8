//! Process terms in code of the form that a tree has, once those inside it are made.

ghost use Rattle.std.specs.Prelude.{◌≡◌, map, Some, IfOk};
ghost use Rattle.std.specs.Global.{Box, Vec};
ghost use Rattle.mcrl2_syntax.specs.declared.process_tree.ProcTree.{ProcTree};
ghost use Rattle.mcrl2_syntax.specs.ProcessTrees.{plain_process};
ghost use Rattle.mcrl2_syntax.specs.TreeWords.{IsProcessOfWords};
ghost use Rattle.data_theory.specs.Signature.{Sig};
ghost use Rattle.data_theory.specs.WholeSignatures.{IsSignature};
ghost use Rattle.term_pool.specs.Pools.{PoolContents};
ghost use Rattle.process_terms.specs.PlainProcesses as code;
ghost use Rattle.process_terms.specs.Processes.{Around};
ghost use Rattle.sort_table.specs.BareProcesses.{bare_process};
ghost use Rattle.data_typing.specs.Meanings.{Scope};
ghost use Rattle.sort_checker.specs.FullVocabularies.{FullVocabulary};
ghost use Rattle.sort_checker.specs.NumberedWords.{StandIn};
ghost use Rattle.sort_checker.specs.CodeContexts.{IsElaborated, AreElaborated};
ghost use Rattle.sort_checker.specs.FormTrees.{StandsAround, IsChain, operator_of, operator_names, IsUnder, parts_of};

use crate::word_numbers::{renaming_numbers, rule_numbers, set_numbers, word_numbers};
use data_theory::{NoMemory, Signature};
use mcrl2_syntax::ProcTree;
use process_terms::Proc;
use std::alloc::Global;

/// The operator that a tree is, around a process term in code.
///
/// # Errors
///
/// `NoMemory` where there is none for the numbers of its names.
#[inline(never)]
pub(crate) fn around(
    alloc: Global,
    sig: &Signature,
    tree: &ProcTree,
    inner: Box<Proc>,
) -> Result<Proc, NoMemory>
    requires signature { IsSignature sig.now }
    requires operator { (part : Box ProcTree) × StandsAround tree.now part }
    requires words { IsProcessOfWords (plain_process tree.now) }
    requires there { StandIn sig.now (operator_names (operator_of (bare_process (plain_process tree.now)))) }
    ensures { IfOk result (λ made. (o : Around) → operator_of (bare_process (plain_process tree.now)) ≡ Some o → IsUnder sig.now o (code.plain_process inner.value) (code.plain_process made)) }
{
    match tree {
        ProcTree::Allow(_, sets, _) => {
            let sets = set_numbers(alloc, sig, sets.as_slice())?;
            Ok(Proc::Allow(sets, inner))
        }
        ProcTree::Block(_, names, _) => {
            let names = word_numbers(alloc, sig, names.as_slice())?;
            Ok(Proc::Block(names, inner))
        }
        ProcTree::Hide(_, names, _) => {
            let names = word_numbers(alloc, sig, names.as_slice())?;
            Ok(Proc::Hide(names, inner))
        }
        ProcTree::Rename(_, renamings, _) => {
            let renamings = renaming_numbers(alloc, sig, renamings.as_slice())?;
            Ok(Proc::Rename(renamings, inner))
        }
        ProcTree::Comm(_, rules, _) => {
            let rules = rule_numbers(alloc, sig, rules.as_slice())?;
            Ok(Proc::Comm(rules, inner))
        }
        _ => unreachable!(),
    }
}

/// The chain that a tree is, of process terms in code: one behind the other, side by side, at once, or else a choice of them.
#[inline(never)]
pub(crate) fn joined(tree: &ProcTree, parts: Vec<Proc>) -> Proc
    ensures { (list : Vec ProcTree) → IsChain tree.now list → (v : FullVocabulary) (variables : Scope) (g : Sig) (p : PoolContents) → AreElaborated v variables (parts_of list.items) g p (map code.plain_process parts.items) → IsElaborated v variables (bare_process (plain_process tree.now)) g p (code.plain_process result) }
{
    match tree {
        ProcTree::Sequence(_, _) => Proc::Seq(parts),
        ProcTree::Parallel(_, _) => Proc::Merge(parts),
        ProcTree::Sync(_, _) => Proc::Sync(parts),
        _ => Proc::Choice(parts),
    }
}
