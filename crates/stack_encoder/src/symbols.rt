//! The structured sort of stacks, with fresh names, and the parameter of that sort.

ghost use Rattle.std.specs.Prelude.{◌≡◌, ◌<◌, ◌+◌, ◌^◌, map, length, IfOk};
ghost use Rattle.std.specs.List.{All};
ghost use Rattle.data_theory.specs.Fresh.{IsFreshIn};
ghost use Rattle.data_theory.specs.IdTerms.{IsGrown};
ghost use Rattle.data_theory.specs.Structs.{cons_of, numbers_from};
ghost use Rattle.data_theory.specs.Table.{pos_sort};
ghost use Rattle.lps_core.specs.Naming.{GrowsByNames};
ghost use Rattle.regular_encoder.specs.FormColumns.{IsKindIn};
ghost use Rattle.stack_encoder.specs.AddedSort.{column_bases, constructors_declared, AddsParameter, AddsStackSort, AreFreshNames, AreWords, DeclaresStack};
ghost use Rattle.stack_encoder.specs.Frames.{plain_symbols, plain_words};
ghost use Rattle.stack_encoder.specs.StackEntries.{ids_behind, push_declared};

use data_theory::{ConDecl, FunId, NameId, NoMemory, Signature, SortId, SortKind, VarId};
use indexmap::IndexSet;
use lps_core::{fresh_from, signature_stands};
use std::alloc::Global;

const POS: SortId = SortId(1);

/// The sort of the stack with its functions, and the parameter.
#[derive(Debug, Drop)]
pub struct Symbols {
    pub sort: SortId,
    pub push: FunId,
    pub empty: FunId,
    pub is_push: FunId,
    pub pc: FunId,
    pub fields: Vec<FunId>,
    pub rest: FunId,
    pub stack: VarId,
}

/// The names of the sort and of its functions. A column's field has the column's sort.
#[derive(Debug, Drop)]
pub struct Words {
    pub sort: NameId,
    pub push: NameId,
    pub pc: NameId,
    pub fields: Vec<(NameId, SortId)>,
    pub rest: NameId,
    pub is_push: NameId,
    pub empty: NameId,
}

/// A fresh name with this base.
fn fresh_name(sig: &mut Signature, base: &str) -> Result<NameId, NoMemory>
    ensures fresh { IfOk result (λ name. IsFreshIn sig.old base.now name sig.new) }
    ensures grown { GrowsByNames sig.old sig.new }
{
    signature_stands(sig);
    Ok(sig.fresh(base)?)
}

/// The fields of the columns: a fresh name with the column's as its base, and the column's sort.
fn column_fields(
    alloc: Global,
    sig: &mut Signature,
    kinds: &IndexSet<(NameId, SortId)>,
) -> Result<Vec<(NameId, SortId)>, NoMemory>
    requires { All (IsKindIn sig.old) kinds.now.keys }
    ensures names { IfOk result (λ fields. AreFreshNames sig.old (column_bases sig.old kinds.now.keys) sig.new (map (λ (f : NameId × SortId). f.0) fields.items)) }
    ensures sorts { IfOk result (λ fields. map (λ (f : NameId × SortId). f.1) fields.items ≡ map (λ (k : NameId × SortId). k.1) kinds.now.keys) }
    ensures grown { GrowsByNames sig.old sig.new }
{
    signature_stands(sig);
    let mut fields = Vec::new(alloc);
    for number in 0..kinds.len() {
        let (base, sort) = kinds[number];
        fields.push((fresh_from(alloc, sig, base)?, sort))?;
    }
    Ok(fields)
}

/// All names, made in the order of the declaration's text.
fn new_words(
    alloc: Global,
    sig: &mut Signature,
    kinds: &IndexSet<(NameId, SortId)>,
) -> Result<Words, NoMemory>
    requires { All (IsKindIn sig.old) kinds.now.keys }
    ensures words { IfOk result (λ words. AreWords sig.old kinds.now.keys sig.new (plain_words words)) }
    ensures grown { GrowsByNames sig.old sig.new }
{
    let sort = fresh_name(sig, "Stack")?;
    let push = fresh_name(sig, "push")?;
    let pc = fresh_name(sig, "pc")?;
    let fields = column_fields(alloc, sig, kinds)?;
    let rest = fresh_name(sig, "rest")?;
    let is_push = fresh_name(sig, "is_push")?;
    let empty = fresh_name(sig, "empty")?;
    Ok(Words {
        sort,
        push,
        pc,
        fields,
        rest,
        is_push,
        empty,
    })
}

/// The fields of `push`: the number, one for each column, and the rest.
fn push_fields(
    alloc: Global,
    words: &Words,
    sort: SortId,
) -> Result<Vec<(Option<NameId>, SortId)>, NoMemory>
    ensures { IfOk result (λ fields. fields.items ≡ (push_declared words.now.push words.now.pc words.now.fields.items words.now.rest words.now.is_push sort).fields) }
{
    let mut fields = Vec::new(alloc);
    fields.push((Some(words.pc), POS))?;
    for number in 0..words.fields.len() {
        let (name, column_sort) = words.fields[number];
        fields.push((Some(name), column_sort))?;
    }
    fields.push((Some(words.rest), sort))?;
    Ok(fields)
}

/// The constructors.
fn constructors(alloc: Global, words: &Words, sort: SortId) -> Result<Vec<ConDecl>, NoMemory>
    ensures { IfOk result (λ cons. cons_of cons.items ≡ constructors_declared (plain_words words.now) sort) }
{
    let mut cons = Vec::new(alloc);
    cons.push(ConDecl {
        name: words.push,
        fields: push_fields(alloc, words, sort)?,
        test: Some(words.is_push),
    })?;
    cons.push(ConDecl {
        name: words.empty,
        fields: Vec::new(alloc),
        test: None,
    })?;
    Ok(cons)
}

/// So many functions from a number on.
fn numbered(alloc: Global, first: usize, count: usize) -> Result<Vec<FunId>, NoMemory>
    requires { first + count < 2 ^ 64 }
    ensures { IfOk result (λ found. found.items ≡ numbers_from first count) }
{
    let mut found = Vec::new(alloc);
    for number in 0..count {
        found.push(FunId(first + number))?;
    }
    Ok(found)
}

/// The functions behind a number: the constructors, then the projections, then the recogniser.
fn symbols_behind(
    alloc: Global,
    sort: SortId,
    first: usize,
    columns: usize,
    stack: VarId,
) -> Result<Symbols, NoMemory>
    requires { first + columns + 5 < 2 ^ 64 }
    ensures symbols { IfOk result (λ made. plain_symbols made ≡ ids_behind sort.0 first columns) }
    ensures stack { IfOk result (λ made. made.stack ≡ stack) }
{
    Ok(Symbols {
        sort,
        push: FunId(first),
        empty: FunId(first + 1),
        pc: FunId(first + 2),
        fields: numbered(alloc, first + 3, columns)?,
        rest: FunId(first + 3 + columns),
        is_push: FunId(first + 4 + columns),
        stack,
    })
}

/// Adds the sort, with its names made before.
fn add_sort(
    alloc: Global,
    sig: &mut Signature,
    kinds: &IndexSet<(NameId, SortId)>,
) -> Result<SortId, NoMemory>
    requires { All (IsKindIn sig.old) kinds.now.keys }
    ensures added { IfOk result (λ sort. AddsStackSort sig.old kinds.now.keys sig.new sort) }
    ensures grown { IsGrown sig.old sig.new }
{
    signature_stands(sig);
    let words = new_words(alloc, sig, kinds)?;
    let cons = constructors(alloc, &words, sig.next_sort())?;
    Ok(sig.add_struct(words.sort, cons)?)
}

/// Adds the parameter, whose name is made last.
fn add_parameter(sig: &mut Signature, sort: SortId) -> Result<VarId, NoMemory>
    requires { sort.0 < length sig.old.sorts }
    ensures added { IfOk result (λ stack. AddsParameter sig.old sort sig.new stack) }
    ensures grown { GrowsByNames sig.old sig.new }
{
    let name = fresh_name(sig, "q")?;
    Ok(sig.add_var(name, sort)?)
}

/// Adds the sort of the stack, and its parameter.
pub fn add_stack(
    alloc: Global,
    sig: &mut Signature,
    kinds: &IndexSet<(NameId, SortId)>,
) -> Result<Symbols, NoMemory>
    requires { All (IsKindIn sig.old) kinds.now.keys }
    ensures added { IfOk result (λ made. DeclaresStack sig.old kinds.now.keys sig.new (plain_symbols made) made.stack) }
    ensures grown { IsGrown sig.old sig.new }
{
    let sort = add_sort(alloc, sig, kinds)?;
    let columns = kinds.len();
    let first = sig.fun_count() - 5 - columns;
    let stack = add_parameter(sig, sort)?;
    let made = symbols_behind(alloc, sort, first, columns, stack)?;
    Ok(made)
}
