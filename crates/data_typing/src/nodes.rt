//! Expressions as nodes, each behind its parts, and the sorts of their elaboration.

use crate::flat_sorts::{Base, FlatSort, SortPlace};
use data_theory::{FunId, NoMemory, VarId, Word};
use std::alloc::Global;
use std::rc::Rc;

/// What is called: a declared function, or a built-in one by its name.
#[derive(Clone, Copy)]
pub enum Callee {
    Declared(FunId),
    BuiltIn(Word),
}

/// A function of fixed sorts.
#[derive(Drop)]
pub struct Overload {
    pub callee: Callee,
    pub arguments: Vec<FlatSort>,
    pub result: FlatSort,
}

/// A built-in function over any sort S, and whether the wanted sort may choose S.
#[derive(Drop)]
pub struct AnyOverload {
    pub word: Word,
    pub arguments: Vec<SortPlace>,
    pub result: SortPlace,
    pub by_result: bool,
}

/// The functions of a word, in the order in which they are tried.
#[derive(Drop)]
pub struct WordFunctions {
    pub signatures: Vec<Overload>,
    pub any: Option<AnyOverload>,
}

/// What stands at a node.
#[derive(Drop)]
pub enum Kind {
    /// A variable of this sort.
    Variable(VarId, FlatSort),
    Numeral(u128),
    /// A word with its arguments, by the functions of its name. The nodes of a word share them.
    Call(Rc<WordFunctions>),
    /// A list in brackets.
    List,
}

/// A part of an expression, and the numbers of its own parts.
#[derive(Drop)]
pub struct Node {
    pub kind: Kind,
    pub arguments: Vec<usize>,
}

ghost use Rattle.std.specs.Prelude.{◌≡◌, ◌<◌, ◌≤◌, ◌+◌, length, map, IfOk, is_some, option_map};
ghost use Rattle.data_typing.specs.FlatSorts.{flat_sort, place_of};
ghost use Rattle.data_typing.specs.Nodes.{profile_of, any_profile_of, checks_by, kind_sorting, node_sorting, sorting_at, sortings_at, sortings, AreBelow, AreNodes, AreKnown};
ghost use Rattle.data_typing.specs.Sortings.{is_at, fits_in, all_same, all_check, all_check_over, each_checks, checks_by_result, may_check, first_exact_sort, first_fitting_sort, first_candidate_sort, result_over, result_by, call_sort, widest_sort, list_sorting};
ghost use Rattle.std.specs.Prelude.{cond, false, ◌++◌, ◌∷◌, []};
ghost use Rattle.data_typing.specs.Typings.{Inferred, Typing, least_sort};

/// An expression that was read, with the sorts that its parts infer.
#[derive(Drop)]
pub struct Reading {
    pub(crate) nodes: Vec<Node>,
    pub(crate) known: Vec<Option<FlatSort>>,
    pub(crate) at: usize,
}

/// Whether a part infers exactly this sort.
fn is_exactly(nodes: &[Node], known: &[Option<FlatSort>], at: usize, sort: FlatSort) -> bool
    requires known { AreKnown nodes.now known.now }
    requires there { at < length known.now }
    ensures { result ≡ is_at (flat_sort sort) (sorting_at (sortings nodes.now) at).infers }
{
    let _ = nodes;
    match known[at] {
        Some(inferred) => inferred.is(sort),
        None => false,
    }
}

/// Whether each argument infers exactly its sort.
pub fn are_exactly(
    nodes: &[Node],
    known: &[Option<FlatSort>],
    arguments: &[usize],
    sorts: &[FlatSort],
) -> bool
    requires known { AreKnown nodes.now known.now }
    requires there { AreBelow (length known.now) arguments.now }
    ensures { result ≡ all_same (map flat_sort sorts.now) (sortings_at (sortings nodes.now) arguments.now) }
{
    if arguments.len() != sorts.len() {
        return false;
    }
    for (k, at) in arguments.iter().enumerate() {
        if !is_exactly(nodes, known, *at, sorts[k]) {
            return false;
        }
    }
    true
}

/// The result of the first function whose arguments are exactly of the inferred sorts.
pub fn first_exact(
    nodes: &[Node],
    known: &[Option<FlatSort>],
    arguments: &[usize],
    signatures: &[Overload],
) -> Option<FlatSort>
    requires known { AreKnown nodes.now known.now }
    requires there { AreBelow (length known.now) arguments.now }
    ensures { option_map flat_sort result ≡ first_exact_sort (sortings_at (sortings nodes.now) arguments.now) (map profile_of signatures.now) }
{
    for signature in signatures {
        if are_exactly(nodes, known, arguments, &signature.arguments) {
            return Some(signature.result);
        }
    }
    None
}

/// Whether a part checks at a sort.
#[cycle(checking)]
fn checks(
    nodes: &[Node],
    known: &[Option<FlatSort>],
    at: usize,
    sort: FlatSort,
) -> Result<bool, NoMemory>
    requires known { AreKnown nodes.now known.now }
    requires there { at < length known.now }
    ensures { IfOk result (λ b. b ≡ (sorting_at (sortings nodes.now) at).checks (flat_sort sort)) }
{
    if checks_by_sort(nodes, known, at, &nodes[at], sort)? {
        return Ok(true);
    }
    match known[at] {
        Some(inferred) => Ok(inferred.fits(sort)),
        None => Ok(false),
    }
}

/// Whether a part checks by the sort that is wanted.
#[cycle(checking)]
fn checks_by_sort(
    nodes: &[Node],
    known: &[Option<FlatSort>],
    bound: usize,
    node: &Node,
    sort: FlatSort,
) -> Result<bool, NoMemory>
    requires known { AreKnown nodes.now known.now }
    requires bound { bound ≤ length known.now }
    requires there { AreBelow bound node.now.arguments.items }
    ensures { IfOk result (λ b. b ≡ checks_by node.now.kind (sortings_at (sortings nodes.now) node.now.arguments.items) (flat_sort sort)) }
{
    match &node.kind {
        Kind::Variable(_, _) => Ok(false),
        Kind::Numeral(_) => Ok(false),
        Kind::Call(functions) => call_checks_by_sort(
            nodes,
            known,
            bound,
            &node.arguments,
            &functions.signatures,
            &functions.any,
            sort,
        ),
        Kind::List => match sort.read_off(SortPlace::Elements) {
            Some(element) => each_checks_at(nodes, known, bound, &node.arguments, element),
            None => Ok(false),
        },
    }
}

/// Whether a call checks by the sort that is wanted: no function has exactly the inferred sorts, and the one over any sort
/// whose result is that sort fits.
#[cycle(checking)]
fn call_checks_by_sort(
    nodes: &[Node],
    known: &[Option<FlatSort>],
    bound: usize,
    arguments: &[usize],
    signatures: &[Overload],
    any: &Option<AnyOverload>,
    sort: FlatSort,
) -> Result<bool, NoMemory>
    requires known { AreKnown nodes.now known.now }
    requires bound { bound ≤ length known.now }
    requires there { AreBelow bound arguments.now }
    ensures { IfOk result (λ b. b ≡ cond (is_some (first_exact_sort (sortings_at (sortings nodes.now) arguments.now) (map profile_of signatures.now))) false (may_check (sortings_at (sortings nodes.now) arguments.now) (option_map any_profile_of any.now) (flat_sort sort))) }
{
    if first_exact(nodes, known, arguments, signatures).is_some() {
        return Ok(false);
    }
    match any {
        Some(any) => any_checks_by_sort(nodes, known, bound, arguments, any, sort),
        None => Ok(false),
    }
}

/// Whether the function over any sort whose result is the sort that is wanted may be chosen so, and fits.
#[cycle(checking)]
fn any_checks_by_sort(
    nodes: &[Node],
    known: &[Option<FlatSort>],
    bound: usize,
    arguments: &[usize],
    any: &AnyOverload,
    sort: FlatSort,
) -> Result<bool, NoMemory>
    requires known { AreKnown nodes.now known.now }
    requires bound { bound ≤ length known.now }
    requires there { AreBelow bound arguments.now }
    ensures { IfOk result (λ b. b ≡ checks_by_result (sortings_at (sortings nodes.now) arguments.now) (any_profile_of any.now) (flat_sort sort)) }
{
    if !any.by_result {
        return Ok(false);
    }
    match sort.read_off(any.result) {
        Some(over) => all_check_at(nodes, known, bound, arguments, &any.arguments, over),
        None => Ok(false),
    }
}

/// Whether each argument checks at the sort of its place, where S is the sort.
#[cycle(checking)]
pub fn all_check_at(
    nodes: &[Node],
    known: &[Option<FlatSort>],
    bound: usize,
    arguments: &[usize],
    places: &[SortPlace],
    sort: FlatSort,
) -> Result<bool, NoMemory>
    requires known { AreKnown nodes.now known.now }
    requires bound { bound ≤ length known.now }
    requires there { AreBelow bound arguments.now }
    ensures { IfOk result (λ b. b ≡ all_check_over (map place_of places.now) (sortings_at (sortings nodes.now) arguments.now) (flat_sort sort)) }
{
    if arguments.len() != places.len() {
        return Ok(false);
    }
    for (k, at) in arguments.iter().enumerate() {
        let wanted = sort.over(places[k])?;
        if !checks(nodes, known, *at, wanted)? {
            return Ok(false);
        }
    }
    Ok(true)
}

/// Whether each element checks at the sort.
#[cycle(checking)]
pub fn each_checks_at(
    nodes: &[Node],
    known: &[Option<FlatSort>],
    bound: usize,
    arguments: &[usize],
    sort: FlatSort,
) -> Result<bool, NoMemory>
    requires known { AreKnown nodes.now known.now }
    requires bound { bound ≤ length known.now }
    requires there { AreBelow bound arguments.now }
    ensures { IfOk result (λ b. b ≡ each_checks (sortings_at (sortings nodes.now) arguments.now) (flat_sort sort)) }
{
    for at in arguments {
        if !checks(nodes, known, *at, sort)? {
            return Ok(false);
        }
    }
    Ok(true)
}

/// Whether each argument checks at its sort.
pub fn all_check_sorts(
    nodes: &[Node],
    known: &[Option<FlatSort>],
    arguments: &[usize],
    sorts: &[FlatSort],
) -> Result<bool, NoMemory>
    requires known { AreKnown nodes.now known.now }
    requires there { AreBelow (length known.now) arguments.now }
    ensures { IfOk result (λ b. b ≡ all_check (map flat_sort sorts.now) (sortings_at (sortings nodes.now) arguments.now)) }
{
    if arguments.len() != sorts.len() {
        return Ok(false);
    }
    for (k, at) in arguments.iter().enumerate() {
        if !checks(nodes, known, *at, sorts[k])? {
            return Ok(false);
        }
    }
    Ok(true)
}

/// The result of the first function at which every argument checks.
fn first_fitting(
    nodes: &[Node],
    known: &[Option<FlatSort>],
    arguments: &[usize],
    signatures: &[Overload],
) -> Result<Option<FlatSort>, NoMemory>
    requires known { AreKnown nodes.now known.now }
    requires there { AreBelow (length known.now) arguments.now }
    ensures { IfOk result (λ o. option_map flat_sort o ≡ first_fitting_sort (sortings_at (sortings nodes.now) arguments.now) (map profile_of signatures.now)) }
{
    for signature in signatures {
        if all_check_sorts(nodes, known, arguments, &signature.arguments)? {
            return Ok(Some(signature.result));
        }
    }
    Ok(None)
}

/// The result of a function over any sort, where all arguments check over this one.
fn result_over_sort(
    nodes: &[Node],
    known: &[Option<FlatSort>],
    arguments: &[usize],
    any: &AnyOverload,
    sort: FlatSort,
) -> Result<Option<FlatSort>, NoMemory>
    requires known { AreKnown nodes.now known.now }
    requires there { AreBelow (length known.now) arguments.now }
    ensures { IfOk result (λ o. option_map flat_sort o ≡ result_over (sortings_at (sortings nodes.now) arguments.now) (any_profile_of any.now) (flat_sort sort)) }
{
    if all_check_at(nodes, known, known.len(), arguments, &any.arguments, sort)? {
        let result = sort.over(any.result)?;
        Ok(Some(result))
    } else {
        Ok(None)
    }
}

/// The result of a function over any sort, where the inferred sort of the part at this place tells the sort.
fn result_by_part(
    nodes: &[Node],
    known: &[Option<FlatSort>],
    arguments: &[usize],
    any: &AnyOverload,
    place: SortPlace,
    at: usize,
) -> Result<Option<FlatSort>, NoMemory>
    requires known { AreKnown nodes.now known.now }
    requires there { AreBelow (length known.now) arguments.now }
    requires at { at < length known.now }
    ensures { IfOk result (λ o. option_map flat_sort o ≡ result_by (sortings_at (sortings nodes.now) arguments.now) (any_profile_of any.now) (place_of place) (sorting_at (sortings nodes.now) at)) }
{
    match known[at] {
        Some(inferred) => match inferred.read_off(place) {
            Some(sort) => result_over_sort(nodes, known, arguments, any, sort),
            None => Ok(None),
        },
        None => Ok(None),
    }
}

/// The result of a function over any sort at the first sort that an argument tells and at which all check.
fn first_candidate(
    nodes: &[Node],
    known: &[Option<FlatSort>],
    arguments: &[usize],
    any: &AnyOverload,
) -> Result<Option<FlatSort>, NoMemory>
    requires known { AreKnown nodes.now known.now }
    requires there { AreBelow (length known.now) arguments.now }
    ensures { IfOk result (λ o. option_map flat_sort o ≡ first_candidate_sort (sortings_at (sortings nodes.now) arguments.now) (any_profile_of any.now)) }
{
    let places = any.arguments.as_slice();
    for (k, at) in arguments.iter().enumerate() {
        if k >= places.len() {
            return Ok(None);
        }
        let told = result_by_part(nodes, known, arguments, any, places[k], *at)?;
        if told.is_some() {
            return Ok(told);
        }
    }
    Ok(None)
}

/// The sort that a call infers.
fn call_sort_of(
    nodes: &[Node],
    known: &[Option<FlatSort>],
    arguments: &[usize],
    signatures: &[Overload],
    any: &Option<AnyOverload>,
) -> Result<Option<FlatSort>, NoMemory>
    requires known { AreKnown nodes.now known.now }
    requires there { AreBelow (length known.now) arguments.now }
    ensures { IfOk result (λ o. option_map flat_sort o ≡ call_sort (map profile_of signatures.now) (option_map any_profile_of any.now) (sortings_at (sortings nodes.now) arguments.now)) }
{
    let exact = first_exact(nodes, known, arguments, signatures);
    if exact.is_some() {
        return Ok(exact);
    }
    if let Some(any) = any {
        let told = first_candidate(nodes, known, arguments, any)?;
        if told.is_some() {
            return Ok(told);
        }
    }
    first_fitting(nodes, known, arguments, signatures)
}

/// The widest of the sorts that the elements infer.
pub fn widest_of(
    nodes: &[Node],
    known: &[Option<FlatSort>],
    arguments: &[usize],
) -> Option<FlatSort>
    requires known { AreKnown nodes.now known.now }
    requires there { AreBelow (length known.now) arguments.now }
    ensures { option_map flat_sort result ≡ widest_sort (sortings_at (sortings nodes.now) arguments.now) }
{
    let _ = nodes;
    if arguments.is_empty() {
        return None;
    }
    let mut widest = match known[arguments[0]] {
        Some(first) => first,
        None => return None,
    };
    for k in 1..arguments.len() {
        let next = match known[arguments[k]] {
            Some(next) => next,
            None => return None,
        };
        widest = match widest.wider(next) {
            Some(wider) => wider,
            None => return None,
        };
    }
    Some(widest)
}

/// The sort that a list in brackets infers.
fn list_sort_of(
    nodes: &[Node],
    known: &[Option<FlatSort>],
    arguments: &[usize],
) -> Result<Option<FlatSort>, NoMemory>
    requires known { AreKnown nodes.now known.now }
    requires there { AreBelow (length known.now) arguments.now }
    ensures { IfOk result (λ o. option_map flat_sort o ≡ (list_sorting (sortings_at (sortings nodes.now) arguments.now)).infers) }
{
    match widest_of(nodes, known, arguments) {
        Some(element) => {
            if each_checks_at(nodes, known, known.len(), arguments, element)? {
                let sort = element.over(SortPlace::Elements)?;
                Ok(Some(sort))
            } else {
                Ok(None)
            }
        }
        None => Ok(None),
    }
}

/// The least sort of a numeral.
fn least_sort_of(value: u128) -> FlatSort
    ensures { flat_sort result ≡ least_sort value }
{
    let base = if value == 0 { Base::Nat } else { Base::Pos };
    FlatSort { depth: 0, base }
}

/// The sort that a node infers, where those of its parts are known.
fn infer(
    nodes: &[Node],
    known: &[Option<FlatSort>],
    node: &Node,
) -> Result<Option<FlatSort>, NoMemory>
    requires known { AreKnown nodes.now known.now }
    requires there { AreBelow (length known.now) node.now.arguments.items }
    ensures { IfOk result (λ o. option_map flat_sort o ≡ (node_sorting (sortings nodes.now) node.now).infers) }
{
    match &node.kind {
        Kind::Variable(_, sort) => Ok(Some(*sort)),
        Kind::Numeral(value) => Ok(Some(least_sort_of(*value))),
        Kind::Call(functions) => call_sort_of(
            nodes,
            known,
            &node.arguments,
            &functions.signatures,
            &functions.any,
        ),
        Kind::List => list_sort_of(nodes, known, &node.arguments),
    }
}

/// The sorts that all nodes infer.
pub fn infer_all(alloc: Global, nodes: &[Node]) -> Result<Vec<Option<FlatSort>>, NoMemory>
    requires { AreNodes nodes.now }
    ensures known { IfOk result (λ v. AreKnown nodes.now v.items) }
    ensures all { IfOk result (λ v. length v.items ≡ length nodes.now) }
{
    let mut known: Vec<Option<FlatSort>> = Vec::new(alloc);
    for node in nodes {
        let sort = infer(nodes, known.as_slice(), node)?;
        known.push(sort)?;
    }
    Ok(known)
}

/// A node behind the others, and its number.
pub fn add(nodes: &mut Vec<Node>, node: Node) -> Result<usize, NoMemory>
    requires nodes { AreNodes nodes.old.items }
    requires below { AreBelow (length nodes.old.items) node.arguments.items }
    ensures added { IfOk result (λ at. nodes.new.items ≡ nodes.old.items ++ node ∷ []) }
    ensures at { IfOk result (λ at. at ≡ length nodes.old.items) }
    ensures nodes { AreNodes nodes.new.items }
{
    let at = nodes.len();
    nodes.push(node)?;
    Ok(at)
}

/// No nodes.
pub fn no_nodes(alloc: Global) -> Vec<Node>
    ensures nodes { AreNodes result.items }
    ensures none { result.items ≡ [] }
{
    Vec::new(alloc)
}

impl Reading {
    ghost use Rattle.data_theory.specs.Signature.{Sig};
    ghost use Rattle.data_typing.specs.Contexts.{IsRead, IsReadingOf};

    /// The sort that the expression infers.
    pub fn sort(&self) -> Option<FlatSort>
        requires { IsRead self.now }
        ensures { (g : Sig) (t : Typing) → IsReadingOf g self.now t → option_map flat_sort result ≡ option_map (λ (i : Inferred). i.sort) t.infers }
    {
        let known = self.known.as_slice();
        known[self.at]
    }

    /// Whether the expression checks at a sort.
    pub fn checks(&self, sort: FlatSort) -> Result<bool, NoMemory>
        requires { IsRead self.now }
        ensures { IfOk result (λ b. (g : Sig) (t : Typing) → IsReadingOf g self.now t → b ≡ is_some (t.checks (flat_sort sort))) }
    {
        let checks = checks(self.nodes.as_slice(), self.known.as_slice(), self.at, sort)?;
        Ok(checks)
    }
}
