//! Which empty lists stand in open places.

ghost use Rattle.std.specs.Prelude.{◌≡◌, ◌∷◌, ◌++◌, ◌+◌, [], cond, true, map, option_map, IfSome, OnOk, Vec};
ghost use Rattle.std.specs.Global.{Global};
ghost use Rattle.std.specs.List.{All, flat_map};
ghost use Rattle.data_theory.specs.declared.ids.TermId.{TermId};
ghost use Rattle.data_theory.specs.declared.words.ListWord.TheVariants as lists;
ghost use Rattle.data_theory.specs.declared.words.Word.TheVariants as words;
ghost use Rattle.process_terms.specs.Meanings.{action_of, label_of, term_at};
ghost use Rattle.process_terms.specs.PlainProcesses.{plain_action};
ghost use Rattle.lps_core.specs.PlainLinears.{plain_next, plain_summand, summand_of};
ghost use Rattle.lps_printer.specs.CodeProcesses.{entries_by, AreNextBy, IsActionBy, IsSummandBy};
ghost use Rattle.lps_printer.specs.CodeWordings.{application_by, term_by, terms_by, HasWord, IsApplicationBy, IsTermBy};
ghost use Rattle.lps_printer.specs.NeededConstants.{action_nils, all_nils, label_nils, nil_sort, next_nils, nils, nils_of, summand_nils, FindsBy, FindsText};
ghost use Rattle.lps_printer.specs.PendingParts.{size, sizes};
ghost use Rattle.lps_printer.specs.UnseenTerms.{nils_left, unseen_nils, unseen_weight, IsUnseen, LooksInto};

use crate::forms::{is_element, is_empty_list};
use crate::process_writer::ProcessWriter;
use crate::term_writer::TermWriter;
use data_theory::{FunId, NoMemory, TermId};
use indexmap::IndexSet;
use lps_core::Summand;
use process_terms::Action;
use term_pool::Head;

/// Terms that are still to be looked into: whether the first one stands in a place of declared sort, and whether the others do.
#[derive(Clone, Copy)]
pub(crate) struct Unseen<'p> {
    pub(crate) ids: &'p [TermId],
    pub(crate) first_placed: bool,
    pub(crate) others_placed: bool,
}

/// Leaves these terms.
fn leave<'p>(
    ids: &'p [TermId],
    first_placed: bool,
    others_placed: bool,
    left: &mut Vec<Unseen<'p>>,
) -> Result<(), NoMemory>
    ensures { OnOk result (left.new.items ≡ left.old.items ++ record { ids = ids.entry; first_placed = first_placed; others_placed = others_placed } ∷ []) }
{
    left.push(Unseen {
        ids,
        first_placed,
        others_placed,
    })?;
    Ok(())
}

impl TermWriter<'_> {
    /// Notes a `[]` in an open place.
    fn note_empty(
        &self,
        fun: FunId,
        placed: bool,
        found: &mut IndexSet<FunId>,
    ) -> Result<(), NoMemory>
        requires { HasWord self.now fun (words.List lists.Empty) }
        ensures { OnOk result (FindsBy self.now found.old.keys found.new.keys (λ w. cond placed [] (nil_sort self.now.sig.now fun ∷ []))) }
    {
        let _ = self.sig.names();
        if placed {
            return Ok(());
        }
        found.insert(fun)?;
        Ok(())
    }

    /// Notes `[]` where a term is one in an open place. Its arguments are left.
    fn look_into<'p>(
        &'p self,
        id: TermId,
        placed: bool,
        left: &mut Vec<Unseen<'p>>,
        found: &mut IndexSet<FunId>,
    ) -> Result<(), NoMemory>
        requires { IsTermBy self.now id }
        ensures { OnOk result (LooksInto self.now (size (term_by self.now id)) found.old.keys found.new.keys left.old.items left.new.items (λ w. nils w.names.once placed (term_by self.now id))) }
    {
        let _ = self.sig.names();
        let node = self.pool.node(id);
        match node.head {
            Head::Fun(fun) => {
                self.look_into_application(fun, node.args.as_slice(), placed, left, found)
            }
            Head::Var(_) => Ok(()),
            Head::Num(_, _) => Ok(()),
        }
    }

    /// The same of a function with its arguments.
    fn look_into_application<'p>(
        &'p self,
        fun: FunId,
        args: &'p [TermId],
        placed: bool,
        left: &mut Vec<Unseen<'p>>,
        found: &mut IndexSet<FunId>,
    ) -> Result<(), NoMemory>
        requires { IsApplicationBy self.now fun args.now }
        ensures { OnOk result (LooksInto self.now (4 + sizes (terms_by self.now args.now)) found.old.keys found.new.keys left.old.items left.new.items (λ w. nils w.names.once placed (application_by self.now fun args.now))) }
    {
        let _ = self.sig.names();
        let Some(word) = self.sig.word_of(fun) else {
            let once = self.is_once(fun);
            return leave(args, once, once, left);
        };
        if is_empty_list(word) {
            return self.note_empty(fun, placed, found);
        }
        if is_element(word) {
            return leave(args, false, true, left);
        }
        leave(args, false, false, left)
    }

    /// Looks into the first of these terms. The others are left.
    fn look_at_first<'p>(
        &'p self,
        unseen: Unseen<'p>,
        left: &mut Vec<Unseen<'p>>,
        found: &mut IndexSet<FunId>,
    ) -> Result<(), NoMemory>
        requires { All (IsTermBy self.now) unseen.ids.now }
        ensures { OnOk result (LooksInto self.now (unseen_weight self.now unseen.entry) found.old.keys found.new.keys left.old.items left.new.items (λ w. unseen_nils self.now w.names.once unseen.entry)) }
    {
        let [first, others @ ..] = unseen.ids else {
            return Ok(());
        };
        leave(others, unseen.others_placed, unseen.others_placed, left)?;
        self.look_into(*first, unseen.first_placed, left, found)
    }

    /// Looks into all that is left.
    fn look_at_all<'p>(
        &'p self,
        left: &mut Vec<Unseen<'p>>,
        found: &mut IndexSet<FunId>,
    ) -> Result<(), NoMemory>
        requires { All (IsUnseen self.now) left.old.items }
        ensures { OnOk result (FindsBy self.now found.old.keys found.new.keys (λ w. nils_left self.now w.names.once left.old.items)) }
    {
        while let Some(unseen) = left.pop() {
            self.look_at_first(unseen, left, found)?;
        }
        Ok(())
    }

    /// Notes each `[]` that stands in an open place of a term, which itself stands in a place of declared sort, or in an open one.
    pub(crate) fn nils(
        &self,
        id: TermId,
        placed: bool,
        found: &mut IndexSet<FunId>,
    ) -> Result<(), NoMemory>
        requires { IsTermBy self.now id }
        ensures { OnOk result (FindsBy self.now found.old.keys found.new.keys (λ w. nils w.names.once placed (term_by self.now id))) }
    {
        let mut left = Vec::new(*found.allocator());
        self.look_into(id, placed, &mut left, found)?;
        self.look_at_all(&mut left, found)
    }

    /// Those of terms, in their order.
    fn all_nils<'p>(
        &'p self,
        ids: &'p [TermId],
        placed: bool,
        found: &mut IndexSet<FunId>,
    ) -> Result<(), NoMemory>
        requires { All (IsTermBy self.now) ids.now }
        ensures { OnOk result (FindsBy self.now found.old.keys found.new.keys (λ w. all_nils w.names.once placed (terms_by self.now ids.now))) }
    {
        let mut left = Vec::new(*found.allocator());
        leave(ids, placed, placed, &mut left)?;
        self.look_at_all(&mut left, found)
    }
}

impl ProcessWriter<'_> {
    /// Those of an action, by whether its name is declared once.
    fn action_nils(&self, action: &Action, found: &mut IndexSet<FunId>) -> Result<(), NoMemory>
        requires { IsActionBy self.now (plain_action action.now) }
        ensures { OnOk result (FindsText self.now found.old.keys found.new.keys (λ t. action_nils t.names (action_of (entries_by self.now) (plain_action action.now)))) }
    {
        let once = self.is_declared_once(action.act);
        self.terms.all_nils(action.args.as_slice(), once, found)
    }

    /// Those of actions.
    fn label_nils(&self, actions: &[Action], found: &mut IndexSet<FunId>) -> Result<(), NoMemory>
        requires { All (IsActionBy self.now) (map plain_action actions.now) }
        ensures { OnOk result (FindsText self.now found.old.keys found.new.keys (λ t. label_nils t.names (label_of (entries_by self.now) (map plain_action actions.now)))) }
    {
        for action in actions {
            self.action_nils(action, found)?;
        }
        Ok(())
    }

    /// Those of next terms.
    fn next_nils(
        &self,
        next: &Option<Vec<TermId>>,
        found: &mut IndexSet<FunId>,
    ) -> Result<(), NoMemory>
        requires { IfSome next.now (λ (ids : Vec TermId Global). AreNextBy self.now ids.items) }
        ensures { OnOk result (FindsText self.now found.old.keys found.new.keys (λ t. next_nils t.names (option_map (map (term_at (entries_by self.now))) (plain_next next.now)))) }
    {
        match next {
            Some(ids) => self.terms.all_nils(ids.as_slice(), true, found),
            None => Ok(()),
        }
    }

    /// Those of a summand.
    fn summand_nils(&self, summand: &Summand, found: &mut IndexSet<FunId>) -> Result<(), NoMemory>
        requires { IsSummandBy self.now summand.now }
        ensures { OnOk result (FindsText self.now found.old.keys found.new.keys (λ t. summand_nils t.names (summand_of (entries_by self.now) (plain_summand summand.now)))) }
    {
        self.terms.nils(summand.cond, false, found)?;
        self.label_nils(summand.label.actions.as_slice(), found)?;
        self.next_nils(&summand.next, found)
    }

    /// Those of summands.
    pub(crate) fn summands_nils(
        &self,
        summands: &[Summand],
        found: &mut IndexSet<FunId>,
    ) -> Result<(), NoMemory>
        requires { All (IsSummandBy self.now) summands.now }
        ensures { OnOk result (FindsText self.now found.old.keys found.new.keys (λ t. flat_map (summand_nils t.names) (map (summand_of (entries_by self.now)) (map plain_summand summands.now)))) }
    {
        for summand in summands {
            self.summand_nils(summand, found)?;
        }
        Ok(())
    }

    /// Those of terms in places of declared sort.
    pub(crate) fn initial_nils(
        &self,
        init: &[TermId],
        found: &mut IndexSet<FunId>,
    ) -> Result<(), NoMemory>
        requires { All (IsTermBy self.now.terms) init.now }
        ensures { OnOk result (FindsText self.now found.old.keys found.new.keys (λ t. nils_of t.names true (map (term_at (entries_by self.now)) init.now))) }
    {
        self.terms.all_nils(init, true, found)
    }
}
