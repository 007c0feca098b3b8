//! Process terms, actions and labels.

ghost use Rattle.std.specs.Prelude.{◌≡◌, IfOk, map};
ghost use Rattle.mcrl2_syntax.specs.Words.{word_of};
ghost use Rattle.mcrl2_syntax.specs.SortTrees.{plain_sort};
ghost use Rattle.mcrl2_syntax.specs.DataTrees.{plain_data};
ghost use Rattle.mcrl2_syntax.specs.ProcessParts.{tau_action, named_action, plain_action, action_span, assignment_of, name_set_of, renaming_of, comm_rule_of, var_group_of, label_of};
ghost use Rattle.mcrl2_syntax.specs.ProcessTrees.{delta, acts, multi, sync, left_merge, call, within, allow, block, hide, rename, comm, sequence, sum, when, either, parallel, choice, processes_of, plain_process, process_span};

use crate::data_list::DataList;
use crate::data_tree::DataTree;
use crate::sort_tree::SortTree;
use crate::word::{Span, Word};
use crate::word_list::WordList;
use std::alloc::{AllocFailed, Global};

/// An action, or none.
#[derive(Debug, Drop)]
pub enum ActionTree {
    /// `tau`
    Tau(Span),
    /// `a` or `a(d, e)`, and the place behind its last byte; without brackets there are no arguments.
    Named(u32, Word, DataList),
}

impl ActionTree {
    /// The empty label.
    pub fn tau_at(span: Span) -> ActionTree
        ensures { plain_action result ≡ tau_action span }
    {
        ActionTree::Tau(span)
    }

    /// A name with arguments, up to that place.
    pub fn named_to(end: u32, name: Word, arguments: DataList) -> ActionTree
        ensures { plain_action result ≡ named_action (record { start = name.span.start; end = end }) (word_of name) (map plain_data arguments.items) }
    {
        ActionTree::Named(end, name, arguments)
    }

    /// Where the action stands.
    pub fn span(&self) -> Span
        ensures { result ≡ action_span (plain_action self.now) }
    {
        match self {
            ActionTree::Tau(span) => *span,
            ActionTree::Named(end, name, _) => Span {
                start: name.span.start,
                end: *end,
            },
        }
    }
}

/// A parameter and its value, as `x = d`.
#[derive(Debug, Drop)]
pub struct Assignment {
    /// Where it stands.
    pub span: Span,
    /// The name.
    pub name: Word,
    /// The value.
    pub value: DataTree,
}

impl Assignment {
    /// A parameter and its value, as `x = d`.
    pub fn new(span: Span, name: Word, value: DataTree) -> Assignment
        ensures { assignment_of result ≡ record { span = span; name = word_of name; value = plain_data value } }
    {
        Assignment { span, name, value }
    }
}

/// Names that act together, as `a|b`.
#[derive(Debug, Drop)]
pub struct NameSet {
    /// Where it stands.
    pub span: Span,
    /// The names.
    pub names: WordList,
}

impl NameSet {
    /// Names that act together, as `a|b`.
    pub fn new(span: Span, names: WordList) -> NameSet
        ensures { name_set_of result ≡ record { span = span; names = map word_of names.items } }
    {
        NameSet { span, names }
    }
}

/// A name and its new name, as `a -> b`.
#[derive(Debug, Drop)]
pub struct Renaming {
    /// Where it stands.
    pub span: Span,
    /// The name that is replaced.
    pub old: Word,
    /// The name that stands in its place.
    pub renamed: Word,
}

impl Renaming {
    /// A name and its new name, as `a -> b`.
    pub fn new(span: Span, old: Word, renamed: Word) -> Renaming
        ensures { renaming_of result ≡ record { span = span; old = word_of old; renamed = word_of renamed } }
    {
        Renaming { span, old, renamed }
    }
}

/// Names that communicate, and their result, as `a|b -> c`.
#[derive(Debug, Drop)]
pub struct CommRule {
    /// Where it stands.
    pub span: Span,
    /// The names.
    pub names: WordList,
    /// The name of the result.
    pub outcome: Word,
}

impl CommRule {
    /// Names that communicate, and their result, as `a|b -> c`.
    pub fn new(span: Span, names: WordList, outcome: Word) -> CommRule
        ensures { comm_rule_of result ≡ record { span = span; names = map word_of names.items; outcome = word_of outcome } }
    {
        CommRule {
            span,
            names,
            outcome,
        }
    }
}

/// Variables of a sort, as `x, y: S`.
#[derive(Debug, Drop)]
pub struct VarGroup {
    /// Where it stands.
    pub span: Span,
    /// The names.
    pub names: WordList,
    /// The sort.
    pub sort: SortTree,
}

impl VarGroup {
    /// Variables of a sort, as `x, y: S`.
    pub fn new(span: Span, names: WordList, sort: SortTree) -> VarGroup
        ensures { var_group_of result ≡ record { span = span; names = map word_of names.items; sort = plain_sort sort } }
    {
        VarGroup { span, names, sort }
    }
}

/// The label of a step, as `a(1)|b`.
#[derive(Debug, Drop)]
pub struct LabelTree {
    /// Where it stands.
    pub span: Span,
    /// The actions.
    pub actions: Vec<ActionTree>,
}

impl LabelTree {
    /// The label of a step, as `a(1)|b`.
    pub fn new(span: Span, actions: Vec<ActionTree>) -> LabelTree
        ensures { label_of result ≡ record { span = span; actions = map plain_action actions.items } }
    {
        LabelTree { span, actions }
    }
}

/// A process term.
#[derive(Debug, Drop)]
pub enum ProcTree {
    /// `delta`
    Delta(Span),
    /// `tau`, `a` or `a(d)`
    Action(ActionTree),
    /// `a|b(d)`
    Multi(Span, Vec<ActionTree>),
    /// `p|q`, where one of them isn't an action
    Sync(Span, Vec<ProcTree>),
    /// `P()` or `P(x = d)`
    Call(Span, Word, Box<Vec<Assignment>>),
    /// `(p)`
    Brackets(Span, Box<ProcTree>),
    /// `allow({a|b}, p)`
    Allow(Span, Vec<NameSet>, Box<ProcTree>),
    /// `block({a}, p)`
    Block(Span, Vec<Word>, Box<ProcTree>),
    /// `hide({a}, p)`
    Hide(Span, Vec<Word>, Box<ProcTree>),
    /// `rename({a -> b}, p)`
    Rename(Span, Vec<Renaming>, Box<ProcTree>),
    /// `comm({a|b -> c}, p)`
    Comm(Span, Vec<CommRule>, Box<ProcTree>),
    /// `p . q`
    Sequence(Span, Vec<ProcTree>),
    /// `sum x: S . p`
    Sum(Span, Vec<VarGroup>, Box<ProcTree>),
    /// `c -> p`
    When(Span, Box<DataTree>, Box<ProcTree>),
    /// `c -> p <> q`
    Either(Span, Box<DataTree>, Box<ProcTree>, Box<ProcTree>),
    /// `p ||_ q`
    LeftMerge(Span, Box<ProcTree>, Box<ProcTree>),
    /// `p || q`
    Parallel(Span, Vec<ProcTree>),
    /// `p + q`
    Choice(Span, Vec<ProcTree>),
}

impl ProcTree {
    /// The process that does nothing.
    pub fn delta_at(span: Span) -> ProcTree
        ensures { plain_process result ≡ delta span }
    {
        ProcTree::Delta(span)
    }

    /// One action; also the call of a process without assignments.
    pub fn action_at(action: ActionTree) -> ProcTree
        ensures { plain_process result ≡ acts (plain_action action) }
    {
        ProcTree::Action(action)
    }

    /// Actions at once.
    pub fn multi_at(span: Span, actions: Vec<ActionTree>) -> ProcTree
        ensures { plain_process result ≡ multi span (map plain_action actions.items) }
    {
        ProcTree::Multi(span, actions)
    }

    /// Processes at once.
    pub fn sync_at(span: Span, parts: Vec<ProcTree>) -> ProcTree
        ensures { plain_process result ≡ sync span (processes_of (map plain_process parts.items)) }
    {
        ProcTree::Sync(span, parts)
    }

    /// A call with assignments.
    ///
    /// # Errors
    ///
    /// The assignments again, where no memory is left.
    pub fn call_at(
        alloc: Global,
        span: Span,
        name: Word,
        assignments: Vec<Assignment>,
    ) -> Result<ProcTree, AllocFailed<Vec<Assignment>>>
        ensures { IfOk result (λ tree. plain_process tree ≡ call span (word_of name) (map assignment_of assignments.items)) }
    {
        let assignments = Box::new(alloc, assignments)?;
        Ok(ProcTree::Call(span, name, assignments))
    }

    /// A process in brackets.
    pub fn brackets_at(span: Span, inner: Box<ProcTree>) -> ProcTree
        ensures { plain_process result ≡ within span (plain_process inner.value) }
    {
        ProcTree::Brackets(span, inner)
    }

    /// The steps with these names.
    pub fn allow_at(span: Span, sets: Vec<NameSet>, inner: Box<ProcTree>) -> ProcTree
        ensures { plain_process result ≡ allow span (map name_set_of sets.items) (plain_process inner.value) }
    {
        ProcTree::Allow(span, sets, inner)
    }

    /// The steps without these names.
    pub fn block_at(span: Span, names: Vec<Word>, inner: Box<ProcTree>) -> ProcTree
        ensures { plain_process result ≡ block span (map word_of names.items) (plain_process inner.value) }
    {
        ProcTree::Block(span, names, inner)
    }

    /// The steps, with the actions of these names left out.
    pub fn hide_at(span: Span, names: Vec<Word>, inner: Box<ProcTree>) -> ProcTree
        ensures { plain_process result ≡ hide span (map word_of names.items) (plain_process inner.value) }
    {
        ProcTree::Hide(span, names, inner)
    }

    /// The steps under other names.
    pub fn rename_at(span: Span, renamings: Vec<Renaming>, inner: Box<ProcTree>) -> ProcTree
        ensures { plain_process result ≡ rename span (map renaming_of renamings.items) (plain_process inner.value) }
    {
        ProcTree::Rename(span, renamings, inner)
    }

    /// The steps, with actions that communicate.
    pub fn comm_at(span: Span, rules: Vec<CommRule>, inner: Box<ProcTree>) -> ProcTree
        ensures { plain_process result ≡ comm span (map comm_rule_of rules.items) (plain_process inner.value) }
    {
        ProcTree::Comm(span, rules, inner)
    }

    /// One process after the other.
    pub fn sequence_at(span: Span, parts: Vec<ProcTree>) -> ProcTree
        ensures { plain_process result ≡ sequence span (processes_of (map plain_process parts.items)) }
    {
        ProcTree::Sequence(span, parts)
    }

    /// A process for each value of the variables.
    pub fn sum_at(span: Span, variables: Vec<VarGroup>, inner: Box<ProcTree>) -> ProcTree
        ensures { plain_process result ≡ sum span (map var_group_of variables.items) (plain_process inner.value) }
    {
        ProcTree::Sum(span, variables, inner)
    }

    /// A process under a condition.
    pub fn when_at(span: Span, condition: Box<DataTree>, then: Box<ProcTree>) -> ProcTree
        ensures { plain_process result ≡ when span (plain_data condition.value) (plain_process then.value) }
    {
        ProcTree::When(span, condition, then)
    }

    /// A process under a condition, and another one where it doesn't hold.
    pub fn either_at(
        span: Span,
        condition: Box<DataTree>,
        then: Box<ProcTree>,
        other: Box<ProcTree>,
    ) -> ProcTree
        ensures { plain_process result ≡ either span (plain_data condition.value) (plain_process then.value) (plain_process other.value) }
    {
        ProcTree::Either(span, condition, then, other)
    }

    /// Processes side by side, of which the first one goes first.
    pub fn left_merge_at(span: Span, first: Box<ProcTree>, second: Box<ProcTree>) -> ProcTree
        ensures { plain_process result ≡ left_merge span (plain_process first.value) (plain_process second.value) }
    {
        ProcTree::LeftMerge(span, first, second)
    }

    /// Processes side by side.
    pub fn parallel_at(span: Span, parts: Vec<ProcTree>) -> ProcTree
        ensures { plain_process result ≡ parallel span (processes_of (map plain_process parts.items)) }
    {
        ProcTree::Parallel(span, parts)
    }

    /// A choice of processes.
    pub fn choice_at(span: Span, parts: Vec<ProcTree>) -> ProcTree
        ensures { plain_process result ≡ choice span (processes_of (map plain_process parts.items)) }
    {
        ProcTree::Choice(span, parts)
    }

    /// Where the process term stands.
    pub fn span(&self) -> Span
        ensures { result ≡ process_span (plain_process self.now) }
    {
        match self {
            ProcTree::Delta(span) => *span,
            ProcTree::Action(action) => action.span(),
            ProcTree::Multi(span, _) => *span,
            ProcTree::Sync(span, _) => *span,
            ProcTree::Call(span, _, _) => *span,
            ProcTree::Brackets(span, _) => *span,
            ProcTree::Allow(span, _, _) => *span,
            ProcTree::Block(span, _, _) => *span,
            ProcTree::Hide(span, _, _) => *span,
            ProcTree::Rename(span, _, _) => *span,
            ProcTree::Comm(span, _, _) => *span,
            ProcTree::Sequence(span, _) => *span,
            ProcTree::Sum(span, _, _) => *span,
            ProcTree::When(span, _, _) => *span,
            ProcTree::Either(span, _, _, _) => *span,
            ProcTree::LeftMerge(span, _, _) => *span,
            ProcTree::Parallel(span, _) => *span,
            ProcTree::Choice(span, _) => *span,
        }
    }
}
