//! The steps by which the term of an expression is made.

ghost use Rattle.std.specs.Prelude.{◌≡◌, ◌<◌, ◌+◌, ◌∷◌, [], ℕ, length, map, get_or, Option, Some, None, Vec, IfOk, IfSome, option_map, option_and_then};
ghost use Rattle.std.specs.Global.{Global};
ghost use Rattle.data_typing.specs.declared.steps.Step.{Step};
ghost use Rattle.data_typing.specs.Plans.{planned};
ghost use Rattle.data_typing.specs.CodePlans.{plan_of};
ghost use Rattle.data_theory.specs.declared.ids.FunId.{FunId};
ghost use Rattle.data_theory.specs.Terms.{Symbol, empty, cons};
ghost use Rattle.data_theory.specs.IdSymbols.{word_symbol};
ghost use Rattle.data_theory.specs.declared.words.Word.TheVariants.{Number};
ghost use Rattle.data_typing.specs.FlatSorts.{flat_sort, place_of};
ghost use Rattle.data_typing.specs.Typings as typings;
ghost use Rattle.data_typing.specs.Typings.{Inferred};
ghost use Rattle.data_typing.specs.Nodes.{AreBelow, AreKnown};
ghost use Rattle.data_typing.specs.NodeTypings.{signature_of, scheme_of, node_typings, typing_at};
ghost use Rattle.data_typing.specs.Making.{wished};
ghost use Rattle.data_typing.specs.CodeSteps.{kind_by_sort, kind_infers, term_in, wish_of, typings_at, items_of, list_items, task_inferred, task_at, tasks_at, weights, task_weight, parts_limit, Comes, AreSteps, IsStepWithin, IsPlanWithin, IsWantedWithin, IsSomeExpansionWithin, AreSomeStepsWithin, IsUpcastRow};
ghost use Rattle.data_typing.specs.Within.{IsFlatWithin, IsOverloadWithin, IsAnyWithin, IsSomeAnyWithin, IsKindWithin, AreNodesWithin};
ghost use Rattle.std.specs.List.{AllByRecursion};

use crate::flat_sorts::{Base, FlatSort, SortPlace};
use crate::nodes::{
    AnyOverload, Callee, Kind, Node, Overload, all_check_sorts, are_exactly, each_checks_at,
    first_exact, widest_of,
};
use crate::plans::{CallPlan, plan_call};
use data_theory::{ListWord, NoMemory, NumberWord, VarId, Word};
use std::alloc::Global;

/// The sort at which an expression is wanted.
#[derive(Clone, Copy)]
pub enum Wanted {
    /// The sort that it infers.
    Inferred,
    At(FlatSort),
}

/// A node whose term is still to be made.
#[derive(Clone, Copy)]
pub struct Task {
    pub at: usize,
    pub wanted: Wanted,
}

/// A part of a term: a variable, a numeral at its least sort, or a function over the last so many of the terms that are made.
#[derive(Drop)]
pub enum Step {
    Variable(VarId),
    Numeral(u128),
    Apply(Overload, usize),
}

/// The steps that make the term of a node, behind the terms of other nodes. Steps are read from their end.
#[derive(Drop)]
pub struct Expansion {
    pub steps: Vec<Step>,
    pub tasks: Vec<Task>,
}

/// A function, once more.
fn copy_overload(alloc: Global, overload: &Overload) -> Result<Overload, NoMemory>
    ensures means { IfOk result (λ f. (y : FunId → Symbol) → signature_of y f ≡ signature_of y overload.now) }
    ensures within { IfOk result (λ f. (n c : ℕ) → IsOverloadWithin n c overload.now → IsOverloadWithin n c f) }
{
    let arguments = overload.arguments.as_slice().to_vec(alloc)?;
    Ok(Overload {
        callee: overload.callee,
        arguments,
        result: overload.result,
    })
}

/// The sorts of places over a sort.
fn sorts_over(
    alloc: Global,
    places: &[SortPlace],
    sort: FlatSort,
) -> Result<Vec<FlatSort>, NoMemory>
    ensures { IfOk result (λ sorts. map flat_sort sorts.items ≡ map (λ p. typings.over (flat_sort sort) (place_of p)) places.now) }
{
    let mut sorts: Vec<FlatSort> = Vec::new(alloc);
    for place in places {
        let there = sort.over(*place)?;
        sorts.push(there)?;
    }
    Ok(sorts)
}

/// A function over any sort, at a sort.
fn overload_at(alloc: Global, any: &AnyOverload, sort: FlatSort) -> Result<Overload, NoMemory>
    ensures within { IfOk result (λ overload. (n c : ℕ) → IsAnyWithin n any.now → IsFlatWithin n sort → IsOverloadWithin n c overload) }
    ensures means { IfOk result (λ overload. (y : FunId → Symbol) → signature_of y overload ≡ typings.scheme_at (scheme_of any.now) (flat_sort sort)) }
{
    let arguments = sorts_over(alloc, any.arguments.as_slice(), sort)?;
    let result = sort.over(any.result)?;
    Ok(Overload {
        callee: Callee::BuiltIn(any.word),
        arguments,
        result,
    })
}

/// The list sort over a sort.
fn list_over(element: FlatSort) -> Result<FlatSort, NoMemory>
    ensures within { IfOk result (λ list. (n : ℕ) → IsFlatWithin n element → IsFlatWithin n list) }
    ensures means { IfOk result (λ list. flat_sort list ≡ typings.over (flat_sort element) typings.elements) }
{
    let list = element.over(SortPlace::Elements)?;
    Ok(list)
}

/// The function `|>` over a sort.
fn cons_overload(alloc: Global, element: FlatSort) -> Result<Overload, NoMemory>
    ensures within { IfOk result (λ overload. (n c : ℕ) → IsFlatWithin n element → IsOverloadWithin n c overload) }
    ensures means { IfOk result (λ overload. (y : FunId → Symbol) → (signature_of y overload).symbol ≡ cons (flat_sort element)) }
{
    let list = list_over(element)?;
    let arguments = Vec::from_array(alloc, [element, list])?;
    Ok(Overload {
        callee: Callee::BuiltIn(Word::List(ListWord::Cons)),
        arguments,
        result: list,
    })
}

/// The function `[]` over a sort. It is found by its list sort.
fn empty_overload(alloc: Global, element: FlatSort) -> Result<Overload, NoMemory>
    ensures within { IfOk result (λ overload. (n c : ℕ) → IsFlatWithin n element → IsOverloadWithin n c overload) }
    ensures means { IfOk result (λ overload. (y : FunId → Symbol) → (signature_of y overload).symbol ≡ empty (flat_sort element)) }
{
    let list = list_over(element)?;
    let arguments = Vec::from_array(alloc, [list])?;
    Ok(Overload {
        callee: Callee::BuiltIn(Word::List(ListWord::Empty)),
        arguments,
        result: list,
    })
}

/// The word of the upcast from a sort to another one, where there is one.
fn upcast_word(from: FlatSort, to: FlatSort) -> Option<NumberWord>
    ensures row { IfSome result (λ w. IsUpcastRow w from to) }
    ensures means { option_map (λ w. word_symbol (Number w) (flat_sort from ∷ []) (flat_sort to)) result ≡ typings.upcast_to (flat_sort from) (flat_sort to) }
{
    if from.depth > 0 || to.depth > 0 {
        return None;
    }
    match (from.base, to.base) {
        (Base::Pos, Base::Nat) => Some(NumberWord::PosToNat),
        (Base::Nat, Base::Int) => Some(NumberWord::NatToInt),
        (Base::Pos, Base::Int) => Some(NumberWord::PosToInt),
        _ => None,
    }
}

/// The upcast from a sort to another one, where there is one.
fn upcast_overload(
    alloc: Global,
    from: FlatSort,
    to: FlatSort,
) -> Result<Option<Overload>, NoMemory>
    ensures within { IfOk result (λ o. IfSome o (λ overload. (n c : ℕ) → IsOverloadWithin n c overload)) }
    ensures means { IfOk result (λ o. (y : FunId → Symbol) → option_map (λ overload. (signature_of y overload).symbol) o ≡ typings.upcast_to (flat_sort from) (flat_sort to)) }
{
    match upcast_word(from, to) {
        Some(word) => {
            let arguments = Vec::from_array(alloc, [from])?;
            Ok(Some(Overload {
                callee: Callee::BuiltIn(Word::Number(word)),
                arguments,
                result: to,
            }))
        }
        None => Ok(None),
    }
}

/// Parts at the sorts that they infer.
fn inferred_tasks(alloc: Global, arguments: &[usize]) -> Result<Vec<Task>, NoMemory>
    ensures { IfOk result (λ tasks. tasks.items ≡ map task_inferred arguments.now) }
{
    let mut tasks: Vec<Task> = Vec::new(alloc);
    for at in arguments {
        tasks.push(Task {
            at: *at,
            wanted: Wanted::Inferred,
        })?;
    }
    Ok(tasks)
}

/// Parts at a sort.
fn element_tasks(alloc: Global, arguments: &[usize], sort: FlatSort) -> Result<Vec<Task>, NoMemory>
    ensures { IfOk result (λ tasks. tasks.items ≡ map (task_at sort) arguments.now) }
{
    let mut tasks: Vec<Task> = Vec::new(alloc);
    for at in arguments {
        tasks.push(Task {
            at: *at,
            wanted: Wanted::At(sort),
        })?;
    }
    Ok(tasks)
}

/// Parts at their sorts.
fn argument_tasks(
    alloc: Global,
    arguments: &[usize],
    sorts: &[FlatSort],
) -> Result<Vec<Task>, NoMemory>
    ensures { IfOk result (λ tasks. tasks.items ≡ tasks_at arguments.now sorts.now) }
{
    let mut tasks: Vec<Task> = Vec::new(alloc);
    for (k, sort) in sorts.iter().enumerate() {
        if k >= arguments.len() {
            return Ok(tasks);
        }
        tasks.push(Task {
            at: arguments[k],
            wanted: Wanted::At(*sort),
        })?;
    }
    Ok(tasks)
}

/// A list in brackets over so many elements.
fn list_steps(alloc: Global, element: FlatSort, count: usize) -> Result<Vec<Step>, NoMemory>
    ensures within { IfOk result (λ steps. (n c : ℕ) → IsFlatWithin n element → AllByRecursion (IsStepWithin n c) steps.items) }
    ensures items { IfOk result (λ steps. (y : FunId → Symbol) → items_of y steps.items ≡ list_items (flat_sort element) count) }
{
    let mut steps: Vec<Step> = Vec::new(alloc);
    for _k in 0..count {
        let cons = cons_overload(alloc, element)?;
        steps.push(Step::Apply(cons, 2))?;
    }
    let empty = empty_overload(alloc, element)?;
    steps.push(Step::Apply(empty, 0))?;
    Ok(steps)
}

/// A function over parts with the terms that these infer, where each infers exactly its sort.
fn exact_expansion(
    alloc: Global,
    nodes: &[Node],
    known: &[Option<FlatSort>],
    arguments: &[usize],
    overload: &Overload,
) -> Result<Option<Expansion>, NoMemory>
    requires known { AreKnown nodes.now known.now }
    requires there { AreBelow (length known.now) arguments.now }
    ensures within { IfOk result (λ o. (n c : ℕ) → IsOverloadWithin n c overload.now → IsSomeExpansionWithin n c o) }
    ensures comes { IfOk result (λ o. (y : FunId → Symbol) → Comes y nodes.now (parts_limit nodes.now arguments.now) o (term_in (typings.applied typings.exactly (typings_at y nodes.now arguments.now) (signature_of y overload.now)))) }
{
    if !are_exactly(nodes, known, arguments, &overload.arguments) {
        return Ok(None);
    }
    let tasks = inferred_tasks(alloc, arguments)?;
    let copy = copy_overload(alloc, overload)?;
    let steps = Vec::from_array(alloc, [Step::Apply(copy, arguments.len())])?;
    Ok(Some(Expansion { steps, tasks }))
}

/// A function over parts, where each checks at its sort.
fn checked_expansion(
    alloc: Global,
    nodes: &[Node],
    known: &[Option<FlatSort>],
    arguments: &[usize],
    overload: &Overload,
) -> Result<Option<Expansion>, NoMemory>
    requires known { AreKnown nodes.now known.now }
    requires there { AreBelow (length known.now) arguments.now }
    ensures within { IfOk result (λ o. (n c : ℕ) → IsOverloadWithin n c overload.now → IsSomeExpansionWithin n c o) }
    ensures comes { IfOk result (λ o. (y : FunId → Symbol) → Comes y nodes.now (parts_limit nodes.now arguments.now) o (term_in (typings.applied typings.checked (typings_at y nodes.now arguments.now) (signature_of y overload.now)))) }
{
    if !all_check_sorts(nodes, known, arguments, &overload.arguments)? {
        return Ok(None);
    }
    let tasks = argument_tasks(alloc, arguments, &overload.arguments)?;
    let copy = copy_overload(alloc, overload)?;
    let steps = Vec::from_array(alloc, [Step::Apply(copy, arguments.len())])?;
    Ok(Some(Expansion { steps, tasks }))
}

/// The function over any sort at this one, where each part checks at its sort.
fn any_expansion(
    alloc: Global,
    nodes: &[Node],
    known: &[Option<FlatSort>],
    arguments: &[usize],
    any: &AnyOverload,
    sort: FlatSort,
) -> Result<Option<Expansion>, NoMemory>
    requires known { AreKnown nodes.now known.now }
    requires there { AreBelow (length known.now) arguments.now }
    ensures within { IfOk result (λ o. (n c : ℕ) → IsAnyWithin n any.now → IsFlatWithin n sort → IsSomeExpansionWithin n c o) }
    ensures comes { IfOk result (λ o. (y : FunId → Symbol) → Comes y nodes.now (parts_limit nodes.now arguments.now) o (term_in (typings.applied typings.checked (typings_at y nodes.now arguments.now) (typings.scheme_at (scheme_of any.now) (flat_sort sort))))) }
{
    let overload = overload_at(alloc, any, sort)?;
    let expansion = checked_expansion(alloc, nodes, known, arguments, &overload)?;
    Ok(expansion)
}

/// A list in brackets, where each element checks at the sort.
fn list_expansion(
    alloc: Global,
    nodes: &[Node],
    known: &[Option<FlatSort>],
    arguments: &[usize],
    element: FlatSort,
) -> Result<Option<Expansion>, NoMemory>
    requires known { AreKnown nodes.now known.now }
    requires there { AreBelow (length known.now) arguments.now }
    ensures within { IfOk result (λ o. (n c : ℕ) → IsFlatWithin n element → IsSomeExpansionWithin n c o) }
    ensures comes { IfOk result (λ o. (y : FunId → Symbol) → Comes y nodes.now (parts_limit nodes.now arguments.now) o (typings.list_of (typings_at y nodes.now arguments.now) (flat_sort element))) }
{
    if !each_checks_at(nodes, known, known.len(), arguments, element)? {
        return Ok(None);
    }
    let tasks = element_tasks(alloc, arguments, element)?;
    let steps = list_steps(alloc, element, arguments.len())?;
    Ok(Some(Expansion { steps, tasks }))
}

/// A call by the function of a plan.
fn planned_expansion(
    alloc: Global,
    nodes: &[Node],
    known: &[Option<FlatSort>],
    arguments: &[usize],
    signatures: &[Overload],
    any: &Option<AnyOverload>,
    plan: CallPlan,
) -> Result<Option<Expansion>, NoMemory>
    requires known { AreKnown nodes.now known.now }
    requires there { AreBelow (length known.now) arguments.now }
    ensures within { IfOk result (λ o. (n c : ℕ) → AllByRecursion (IsOverloadWithin n c) signatures.now → IsSomeAnyWithin n any.now → IsPlanWithin n plan → IsSomeExpansionWithin n c o) }
    ensures comes { IfOk result (λ o. (y : FunId → Symbol) → Comes y nodes.now (parts_limit nodes.now arguments.now) o (term_in (planned (map (signature_of y) signatures.now) (option_map scheme_of any.now) (typings_at y nodes.now arguments.now) (plan_of plan)))) }
{
    match plan {
        CallPlan::Exact(k) => match signatures.get(k) {
            Some(overload) => exact_expansion(alloc, nodes, known, arguments, overload),
            None => Ok(None),
        },
        CallPlan::Fitting(k) => match signatures.get(k) {
            Some(overload) => checked_expansion(alloc, nodes, known, arguments, overload),
            None => Ok(None),
        },
        CallPlan::Over(sort) => match any {
            Some(any) => any_expansion(alloc, nodes, known, arguments, any, sort),
            None => Ok(None),
        },
    }
}

/// A call at the sort that it infers.
fn call_expansion(
    alloc: Global,
    nodes: &[Node],
    known: &[Option<FlatSort>],
    arguments: &[usize],
    signatures: &[Overload],
    any: &Option<AnyOverload>,
) -> Result<Option<Expansion>, NoMemory>
    requires known { AreKnown nodes.now known.now }
    requires there { AreBelow (length known.now) arguments.now }
    ensures within { IfOk result (λ o. (n c : ℕ) → AreNodesWithin n c nodes.now → AllByRecursion (IsOverloadWithin n c) signatures.now → IsSomeAnyWithin n any.now → IsSomeExpansionWithin n c o) }
    ensures comes { IfOk result (λ o. (y : FunId → Symbol) → Comes y nodes.now (parts_limit nodes.now arguments.now) o (term_in (typings.call_infers (map (signature_of y) signatures.now) (option_map scheme_of any.now) (typings_at y nodes.now arguments.now)))) }
{
    match plan_call(nodes, known, arguments, signatures, any)? {
        Some(plan) => planned_expansion(alloc, nodes, known, arguments, signatures, any, plan),
        None => Ok(None),
    }
}

/// The function over any sort whose result is the wanted sort.
fn any_by_result(
    alloc: Global,
    nodes: &[Node],
    known: &[Option<FlatSort>],
    arguments: &[usize],
    any: &AnyOverload,
    sort: FlatSort,
) -> Result<Option<Expansion>, NoMemory>
    requires known { AreKnown nodes.now known.now }
    requires there { AreBelow (length known.now) arguments.now }
    ensures within { IfOk result (λ o. (n c : ℕ) → IsAnyWithin n any.now → IsFlatWithin n sort → IsSomeExpansionWithin n c o) }
    ensures comes { IfOk result (λ o. (y : FunId → Symbol) → Comes y nodes.now (parts_limit nodes.now arguments.now) o (typings.by_result (typings_at y nodes.now arguments.now) (scheme_of any.now) (flat_sort sort))) }
{
    if !any.by_result {
        return Ok(None);
    }
    match sort.read_off(any.result) {
        Some(over) => any_expansion(alloc, nodes, known, arguments, any, over),
        None => Ok(None),
    }
}

/// A call by the sort that is wanted.
fn call_by_sort(
    alloc: Global,
    nodes: &[Node],
    known: &[Option<FlatSort>],
    arguments: &[usize],
    signatures: &[Overload],
    any: &Option<AnyOverload>,
    sort: FlatSort,
) -> Result<Option<Expansion>, NoMemory>
    requires known { AreKnown nodes.now known.now }
    requires there { AreBelow (length known.now) arguments.now }
    ensures within { IfOk result (λ o. (n c : ℕ) → IsSomeAnyWithin n any.now → IsFlatWithin n sort → IsSomeExpansionWithin n c o) }
    ensures comes { IfOk result (λ o. (y : FunId → Symbol) → Comes y nodes.now (parts_limit nodes.now arguments.now) o (typings.call_by_sort (map (signature_of y) signatures.now) (option_map scheme_of any.now) (typings_at y nodes.now arguments.now) (flat_sort sort))) }
{
    if first_exact(nodes, known, arguments, signatures).is_some() {
        return Ok(None);
    }
    match any {
        Some(any) => any_by_result(alloc, nodes, known, arguments, any, sort),
        None => Ok(None),
    }
}

/// A node by the sort that is wanted.
fn expansion_by_sort(
    alloc: Global,
    nodes: &[Node],
    known: &[Option<FlatSort>],
    node: &Node,
    sort: FlatSort,
) -> Result<Option<Expansion>, NoMemory>
    requires known { AreKnown nodes.now known.now }
    requires there { AreBelow (length known.now) node.now.arguments.items }
    ensures within { IfOk result (λ o. (n c : ℕ) → IsKindWithin n c node.now.kind → IsFlatWithin n sort → IsSomeExpansionWithin n c o) }
    ensures comes { IfOk result (λ o. (y : FunId → Symbol) → Comes y nodes.now (parts_limit nodes.now node.now.arguments.items) o (kind_by_sort y node.now.kind (typings_at y nodes.now node.now.arguments.items) (flat_sort sort))) }
{
    let arguments = node.arguments.as_slice();
    match &node.kind {
        Kind::Variable(_, _) => Ok(None),
        Kind::Numeral(_) => Ok(None),
        Kind::Call(functions) => call_by_sort(
            alloc,
            nodes,
            known,
            arguments,
            &functions.signatures,
            &functions.any,
            sort,
        ),
        Kind::List => match sort.read_off(SortPlace::Elements) {
            Some(element) => list_expansion(alloc, nodes, known, arguments, element),
            None => Ok(None),
        },
    }
}

/// One step, without parts.
fn one_step(alloc: Global, step: Step) -> Result<Expansion, NoMemory>
    ensures { IfOk result (λ e. (e.steps.items ≡ step ∷ []) × (e.tasks.items ≡ [])) }
{
    let steps = Vec::from_array(alloc, [step])?;
    Ok(Expansion {
        steps,
        tasks: Vec::new(alloc),
    })
}

/// A node at the sort that it infers.
fn inferred_expansion(
    alloc: Global,
    nodes: &[Node],
    known: &[Option<FlatSort>],
    node: &Node,
) -> Result<Option<Expansion>, NoMemory>
    requires known { AreKnown nodes.now known.now }
    requires there { AreBelow (length known.now) node.now.arguments.items }
    ensures within { IfOk result (λ o. (n c : ℕ) → AreNodesWithin n c nodes.now → IsKindWithin n c node.now.kind → IsSomeExpansionWithin n c o) }
    ensures comes { IfOk result (λ o. (y : FunId → Symbol) → Comes y nodes.now (parts_limit nodes.now node.now.arguments.items) o (term_in (kind_infers y node.now.kind (typings_at y nodes.now node.now.arguments.items)))) }
{
    let arguments = node.arguments.as_slice();
    match &node.kind {
        Kind::Variable(var, _) => {
            let expansion = one_step(alloc, Step::Variable(*var))?;
            Ok(Some(expansion))
        }
        Kind::Numeral(value) => {
            let expansion = one_step(alloc, Step::Numeral(*value))?;
            Ok(Some(expansion))
        }
        Kind::Call(functions) => call_expansion(
            alloc,
            nodes,
            known,
            arguments,
            &functions.signatures,
            &functions.any,
        ),
        Kind::List => match widest_of(nodes, known, arguments) {
            Some(element) => list_expansion(alloc, nodes, known, arguments, element),
            None => Ok(None),
        },
    }
}

/// A node with the term that it infers, where that has the wanted sort or one that embeds in it.
fn embedded_expansion(
    alloc: Global,
    nodes: &[Node],
    known: &[Option<FlatSort>],
    at: usize,
    sort: FlatSort,
) -> Result<Option<Expansion>, NoMemory>
    requires known { AreKnown nodes.now known.now }
    requires there { at < length known.now }
    ensures within { IfOk result (λ o. (n c : ℕ) → IsFlatWithin n sort → IsSomeExpansionWithin n c o) }
    ensures comes { IfOk result (λ o. (y : FunId → Symbol) → Comes y nodes.now (get_or (weights nodes.now) at 0 + 1) o (option_and_then (typings.embedded (flat_sort sort)) (typing_at (node_typings y nodes.now) at).infers)) }
{
    let _ = nodes;
    let Some(inferred) = known[at] else {
        return Ok(None);
    };
    let tasks = Vec::from_array(
        alloc,
        [Task {
            at,
            wanted: Wanted::Inferred,
        }],
    )?;
    if inferred.is(sort) {
        let steps = Vec::new(alloc);
        return Ok(Some(Expansion { steps, tasks }));
    }
    match upcast_overload(alloc, inferred, sort)? {
        Some(upcast) => {
            let steps = Vec::from_array(alloc, [Step::Apply(upcast, 1)])?;
            Ok(Some(Expansion { steps, tasks }))
        }
        None => Ok(None),
    }
}

/// The steps of one node, as it is wanted.
fn expansion_of(
    alloc: Global,
    nodes: &[Node],
    known: &[Option<FlatSort>],
    task: Task,
) -> Result<Option<Expansion>, NoMemory>
    requires known { AreKnown nodes.now known.now }
    requires all { length known.now ≡ length nodes.now }
    requires there { task.at < length nodes.now }
    ensures within { IfOk result (λ o. (n c : ℕ) → AreNodesWithin n c nodes.now → IsWantedWithin n task.wanted → IsSomeExpansionWithin n c o) }
    ensures comes { IfOk result (λ o. (y : FunId → Symbol) → Comes y nodes.now (task_weight (weights nodes.now) task) o (wished (wish_of task.wanted) (typing_at (node_typings y nodes.now) task.at))) }
{
    let node = &nodes[task.at];
    match task.wanted {
        Wanted::Inferred => inferred_expansion(alloc, nodes, known, node),
        Wanted::At(sort) => {
            if let Some(expansion) = expansion_by_sort(alloc, nodes, known, node, sort)? {
                return Ok(Some(expansion));
            }
            embedded_expansion(alloc, nodes, known, task.at, sort)
        }
    }
}

/// The steps that make the term of a node, as it is wanted. There are none where it has no such term.
pub fn steps_of(
    alloc: Global,
    nodes: &[Node],
    known: &[Option<FlatSort>],
    task: Task,
) -> Result<Option<Vec<Step>>, NoMemory>
    requires known { AreKnown nodes.now known.now }
    requires all { length known.now ≡ length nodes.now }
    requires there { task.at < length nodes.now }
    ensures within { IfOk result (λ o. (n c : ℕ) → AreNodesWithin n c nodes.now → IsWantedWithin n task.wanted → AreSomeStepsWithin n c o) }
    ensures steps { IfOk result (λ o. (y : FunId → Symbol) → AreSteps y (option_map (λ (v : Vec Step Global). v.items) o) (wished (wish_of task.wanted) (typing_at (node_typings y nodes.now) task.at))) }
{
    let Some(first) = expansion_of(alloc, nodes, known, task)? else {
        return Ok(None);
    };
    let Expansion {
        mut steps,
        mut tasks,
    } = first;
    while let Some(next) = tasks.pop() {
        let Some(mut expansion) = expansion_of(alloc, nodes, known, next)? else {
            return Ok(None);
        };
        steps.append(&mut expansion.steps)?;
        tasks.append(&mut expansion.tasks)?;
    }
    Ok(Some(steps))
}
