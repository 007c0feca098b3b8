//! What words mean, in code.

ghost use Rattle.std.specs.Prelude.{◌≡◌, ◌<◌, ◌++◌, ◌∷◌, ℕ, length, map, List, [], IfOk, IfSome, OnOk, option_map, option_to_list, slice_get};
ghost use Rattle.std.specs.List.{All, AllByRecursion, Contains, filter, list_any};
ghost use Rattle.data_theory.specs.declared.ids.FunId.{FunId};
ghost use Rattle.data_theory.specs.Terms.{Symbol, boolean};
ghost use Rattle.data_theory.specs.Rows.{row_result};
ghost use Rattle.data_theory.specs.Table.{language_table};
ghost use Rattle.data_theory.specs.IdSorts.{meant_by};
ghost use Rattle.data_theory.specs.IdTerms.{symbol_under};
ghost use Rattle.sort_table.specs.Duplicates.{any_sort, lists_of_any};
ghost use Rattle.sort_table.specs.NamedLists.{first_named};
ghost use Rattle.sort_table.specs.NamedSorts.{sort_count};
ghost use Rattle.sort_table.specs.SignatureVocabularies.{vocabulary_of};
ghost use Rattle.data_typing.specs.Within.{IsFlatWithin, IsPlaceWithin, IsAnyWithin, IsSomeAnyWithin, IsOverloadWithin, AreFunctionsWithin, IsKindWithin};
ghost use Rattle.data_typing.specs.BuiltIns as built_in;
ghost use Rattle.data_typing.specs.BuiltIns.{hangs, row_places, row_scheme, row_signature};
ghost use Rattle.data_typing.specs.FlatSorts.{flat_sort, place_of};
ghost use Rattle.data_typing.specs.Typings as typings;
ghost use Rattle.data_typing.specs.Typings.{Typing, over, scheme_at, word_typing};
ghost use Rattle.data_typing.specs.Meanings.{bound_row, signatures_named};
ghost use Rattle.data_typing.specs.NodeTypings.{signature_of, scheme_of, meaning_of_functions, kind_typing};
ghost use Rattle.data_typing.specs.CodeWords.{bound_of, scope_of, meaning_in, fun_signature, IsAlone, AreFlat};
ghost use Rattle.data_typing.specs.Contexts.{IsScopeOver};
ghost use Rattle.data_typing.specs.WordTables.{IsWordContext, HasFunctions};

use crate::flat_sorts::{Base, FlatSort, SortPlace};
use crate::nodes::{AnyOverload, Callee, Kind, Overload, WordFunctions};
use crate::scope::{Bound, Scope};
use crate::word_table::{WordContext, WordTable};
use data_theory::{FunId, ListWord, NoMemory, Row, Signature, SortId, Word, rows_of};
use std::alloc::Global;
use std::rc::Rc;

/// A sort that is no list.
fn plain(base: Base) -> FlatSort
    ensures { result ≡ record { depth = 0; base = base } }
{
    FlatSort { depth: 0, base }
}

/// The place of a sort of the table of built-in functions, where 4 stands for any sort S and 5 for the lists over it.
fn place_numbered(sort: SortId) -> SortPlace
    ensures means { place_of result ≡ built_in.place_numbered sort }
    ensures within { IsPlaceWithin 0 result }
{
    match sort.0 {
        0 => SortPlace::Settled(plain(Base::Bool)),
        1 => SortPlace::Settled(plain(Base::Pos)),
        2 => SortPlace::Settled(plain(Base::Nat)),
        3 => SortPlace::Settled(plain(Base::Int)),
        5 => SortPlace::Elements,
        _ => SortPlace::Itself,
    }
}

/// Whether a place hangs on S.
fn hangs_on_sort(place: SortPlace) -> bool
    ensures { result ≡ hangs (place_of place) }
{
    match place {
        SortPlace::Itself => true,
        SortPlace::Elements => true,
        SortPlace::Settled(_) => false,
    }
}

/// Whether the wanted sort may choose S for a built-in function.
fn may_go_by_result(word: Word) -> bool
    ensures { result ≡ built_in.may_go_by_result word }
{
    match word {
        Word::If => true,
        Word::List(word) => match word {
            ListWord::Cons => true,
            ListWord::Snoc => true,
            ListWord::Concat => true,
            ListWord::Tail => true,
            ListWord::Rtail => true,
            _ => false,
        },
        _ => false,
    }
}

/// The places of a row's arguments.
fn places_of(alloc: Global, row: Row) -> Result<Vec<SortPlace>, NoMemory>
    ensures mean { IfOk result (λ places. map place_of places.items ≡ row_places row) }
    ensures within { IfOk result (λ places. AllByRecursion (IsPlaceWithin 0) places.items) }
{
    let places = match row {
        Row::Constant(_, _) => Vec::new(alloc),
        Row::ListConstant(_, to) => Vec::from_array(alloc, [place_numbered(to)])?,
        Row::One(_, first, _) => Vec::from_array(alloc, [place_numbered(first)])?,
        Row::Two(_, first, second, _) => {
            Vec::from_array(alloc, [place_numbered(first), place_numbered(second)])?
        }
        Row::Three(_, first, second, third, _) => Vec::from_array(
            alloc,
            [
                place_numbered(first),
                place_numbered(second),
                place_numbered(third),
            ],
        )?,
    };
    Ok(places)
}

/// The sort of a row's result in the table.
fn result_of(row: Row) -> SortId
    ensures { result ≡ row_result row }
{
    match row {
        Row::Constant(_, to) => to,
        Row::ListConstant(_, to) => to,
        Row::One(_, _, to) => to,
        Row::Two(_, _, _, to) => to,
        Row::Three(_, _, _, _, to) => to,
    }
}

/// The function of a row over any sort S.
fn any_overload(alloc: Global, row: Row) -> Result<AnyOverload, NoMemory>
    requires { Contains (language_table any_sort lists_of_any) row }
    ensures within { IfOk result (IsAnyWithin 0) }
    ensures means { IfOk result (λ any. scheme_of any ≡ row_scheme row) }
    ensures places { IfOk result (λ any. map place_of any.arguments.items ≡ row_places row) }
{
    let word = row.word();
    Ok(AnyOverload {
        word,
        arguments: places_of(alloc, row)?,
        result: place_numbered(result_of(row)),
        by_result: may_go_by_result(word),
    })
}

/// Whether one of the places hangs on S.
fn one_hangs(places: &[SortPlace]) -> bool
    ensures { result ≡ list_any (λ p. hangs (place_of p)) places.now }
{
    places.iter().any(|place| hangs_on_sort(*place))
}

/// The sorts of places that don't hang on S.
fn settled_arguments(alloc: Global, places: &[SortPlace]) -> Result<Vec<FlatSort>, NoMemory>
    ensures { IfOk result (λ sorts. map flat_sort sorts.items ≡ map (λ p. over boolean (place_of p)) places.now) }
{
    let boolean = FlatSort {
        depth: 0,
        base: Base::Bool,
    };
    let mut sorts: Vec<FlatSort> = Vec::new(alloc);
    for place in places {
        let sort = boolean.over(*place)?;
        sorts.push(sort)?;
    }
    Ok(sorts)
}

/// A function that doesn't hang on S.
fn settled_overload(alloc: Global, any: &AnyOverload) -> Result<Overload, NoMemory>
    requires { IsAnyWithin 0 any.now }
    ensures within { IfOk result (IsOverloadWithin 0 0) }
    ensures means { IfOk result (λ overload. (y : FunId → Symbol) → signature_of y overload ≡ scheme_at (scheme_of any.now) boolean) }
{
    let boolean = FlatSort {
        depth: 0,
        base: Base::Bool,
    };
    let arguments = settled_arguments(alloc, any.arguments.as_slice())?;
    let result = boolean.over(any.result)?;
    Ok(Overload {
        callee: Callee::BuiltIn(any.word),
        arguments,
        result,
    })
}

/// The function of a row, where it is one of fixed sorts.
fn settled_row(alloc: Global, row: Row) -> Result<Option<Overload>, NoMemory>
    requires { Contains (language_table any_sort lists_of_any) row }
    ensures within { IfOk result (λ o. IfSome o (IsOverloadWithin 0 0)) }
    ensures means { IfOk result (λ o. (y : FunId → Symbol) → option_to_list (option_map (signature_of y) o) ≡ map row_signature (filter built_in.is_settled (row ∷ []))) }
{
    if row.is_list_constant() {
        return Ok(None);
    }
    let any = any_overload(alloc, row)?;
    if one_hangs(any.arguments.as_slice()) {
        return Ok(None);
    }
    let overload = settled_overload(alloc, &any)?;
    Ok(Some(overload))
}

/// The function of a row, where it is one over any sort.
fn any_row(alloc: Global, row: Row) -> Result<Option<AnyOverload>, NoMemory>
    requires { Contains (language_table any_sort lists_of_any) row }
    ensures within { IfOk result (IsSomeAnyWithin 0) }
    ensures means { IfOk result (λ o. option_to_list (option_map scheme_of o) ≡ map row_scheme (filter built_in.is_over_any (row ∷ []))) }
{
    if row.is_list_constant() {
        return Ok(None);
    }
    let any = any_overload(alloc, row)?;
    if one_hangs(any.arguments.as_slice()) {
        return Ok(Some(any));
    }
    Ok(None)
}

/// Puts a function behind others, where there is one.
fn push_some(overloads: &mut Vec<Overload>, overload: Option<Overload>) -> Result<(), NoMemory>
    ensures { OnOk result (overloads.new.items ≡ overloads.old.items ++ option_to_list overload) }
{
    match overload {
        Some(overload) => {
            overloads.push(overload)?;
            Ok(())
        }
        None => Ok(()),
    }
}

/// The built-in functions of fixed sorts among rows.
fn settled_overloads(alloc: Global, rows: &[Row]) -> Result<Vec<Overload>, NoMemory>
    requires { All (Contains (language_table any_sort lists_of_any)) rows.now }
    ensures within { IfOk result (λ overloads. AllByRecursion (IsOverloadWithin 0 0) overloads.items) }
    ensures mean { IfOk result (λ overloads. (y : FunId → Symbol) → map (signature_of y) overloads.items ≡ map row_signature (filter built_in.is_settled rows.now)) }
{
    let mut overloads: Vec<Overload> = Vec::new(alloc);
    for row in rows {
        let settled = settled_row(alloc, *row)?;
        push_some(&mut overloads, settled)?;
    }
    Ok(overloads)
}

/// The first built-in function over any sort among rows.
fn first_over_any(alloc: Global, rows: &[Row]) -> Result<Option<AnyOverload>, NoMemory>
    requires { All (Contains (language_table any_sort lists_of_any)) rows.now }
    ensures within { IfOk result (IsSomeAnyWithin 0) }
    ensures means { IfOk result (λ any. option_map scheme_of any ≡ slice_get (map row_scheme (filter built_in.is_over_any rows.now)) 0) }
{
    for row in rows {
        let any = any_row(alloc, *row)?;
        if any.is_some() {
            return Ok(any);
        }
    }
    Ok(None)
}

/// What the sort of a number means; Bool stands for one that isn't there.
fn flat_at(flats: &[FlatSort], sort: SortId) -> FlatSort
    ensures { flat_sort result ≡ meant_by (map flat_sort flats.now) sort }
{
    if sort.0 < flats.len() {
        flats[sort.0]
    } else {
        plain(Base::Bool)
    }
}

/// What sorts mean.
fn flat_arguments(
    alloc: Global,
    flats: &[FlatSort],
    sorts: &[SortId],
) -> Result<Vec<FlatSort>, NoMemory>
    ensures { IfOk result (λ them. map flat_sort them.items ≡ map (meant_by (map flat_sort flats.now)) sorts.now) }
{
    let mut them: Vec<FlatSort> = Vec::new(alloc);
    for sort in sorts {
        let flat = flat_at(flats, *sort);
        them.push(flat)?;
    }
    Ok(them)
}

/// A declared function.
fn declared_overload(
    alloc: Global,
    sig: &Signature,
    flats: &[FlatSort],
    fun: FunId,
) -> Result<Overload, NoMemory>
    requires flats { AreFlat sig.now flats.now }
    requires within { fun.0 < length sig.now.functions }
    ensures within { IfOk result (IsOverloadWithin (sort_count sig.now) (length sig.now.functions)) }
    ensures means { IfOk result (λ overload. signature_of (symbol_under sig.now) overload ≡ fun_signature sig.now fun) }
{
    let arguments = flat_arguments(alloc, flats, sig.args_of(fun))?;
    let result = flat_at(flats, sig.sort_of(fun));
    Ok(Overload {
        callee: Callee::Declared(fun),
        arguments,
        result,
    })
}

/// The declared functions of a name behind the built-in ones.
fn declared_overloads(
    alloc: Global,
    sig: &Signature,
    flats: &[FlatSort],
    funs: &[FunId],
    overloads: Vec<Overload>,
) -> Result<Vec<Overload>, NoMemory>
    requires flats { AreFlat sig.now flats.now }
    requires within { All (λ fun. fun.0 < length sig.now.functions) funs.now }
    requires built_in { AllByRecursion (IsOverloadWithin 0 0) overloads.items }
    ensures within { IfOk result (λ all. AllByRecursion (IsOverloadWithin (sort_count sig.now) (length sig.now.functions)) all.items) }
    ensures mean { IfOk result (λ all. map (signature_of (symbol_under sig.now)) all.items ≡ map (signature_of (symbol_under sig.now)) overloads.items ++ map (fun_signature sig.now) funs.now) }
{
    let mut all = overloads;
    for fun in funs {
        let overload = declared_overload(alloc, sig, flats, *fun)?;
        all.push(overload)?;
    }
    Ok(all)
}

/// The functions of a word that is no variable: the built-in ones, and behind them the declared ones.
fn word_functions(
    alloc: Global,
    sig: &Signature,
    flats: &[FlatSort],
    text: &str,
) -> Result<WordFunctions, NoMemory>
    requires { AreFlat sig.now flats.now }
    ensures within { IfOk result (AreFunctionsWithin (sort_count sig.now) (length sig.now.functions)) }
    ensures mean { IfOk result (λ them. meaning_of_functions (symbol_under sig.now) them ≡ typings.functions (signatures_named (vocabulary_of sig.now) text.now) (built_in.scheme_named text.now)) }
{
    let rows = rows_of(alloc, text, SortId(4), SortId(5))?;
    let any = first_over_any(alloc, rows.as_slice())?;
    let overloads = settled_overloads(alloc, rows.as_slice())?;
    let Some(name) = sig.names().find(text) else {
        let signatures = overloads;
        return Ok(WordFunctions { signatures, any });
    };
    let funs = sig.funs_named(name);
    let signatures = declared_overloads(alloc, sig, flats, funs, overloads)?;
    Ok(WordFunctions { signatures, any })
}

/// The innermost variable of a name.
fn variable_named(sig: &Signature, scope: &Scope, text: &str) -> Option<Bound>
    requires { IsScopeOver sig.now scope.now }
    ensures found { option_map (bound_of sig.now.texts) result ≡ first_named text.now (map bound_row (scope_of sig.now.texts scope.now)) }
    ensures within { IfSome result (λ b. IsFlatWithin (sort_count sig.now) b.sort) }
{
    let name = sig.names().find(text)?;
    scope.find(name)
}

/// A variable, with no arguments or with some. Over arguments it is a call that has no function.
fn variable_kind(alloc: Global, bound: Bound, alone: bool) -> Result<Kind, NoMemory>
    ensures within { IfOk result (λ kind. (n c : ℕ) → IsFlatWithin n bound.sort → IsKindWithin n c kind) }
    ensures means { IfOk result (λ kind. (y : FunId → Symbol) (ts : List Typing) → IsAlone alone ts → kind_typing y kind ts ≡ word_typing (typings.bound bound.var.0 (flat_sort bound.sort)) ts) }
{
    if alone {
        return Ok(Kind::Variable(bound.var, bound.sort));
    }
    let none = WordFunctions {
        signatures: Vec::new(alloc),
        any: None,
    };
    let functions = Rc::new(alloc, none)?;
    Ok(Kind::Call(functions))
}

/// What a word means, with no arguments or with some. Its functions are looked up once, and from then on stand in the table.
pub fn word_kind<'a>(
    alloc: Global,
    context: &WordContext<'_>,
    words: &mut WordTable<'a>,
    text: &'a str,
    alone: bool,
) -> Result<Kind, NoMemory>
    requires context { IsWordContext context.now }
    requires words { HasFunctions context.now words.old }
    ensures words { OnOk result (HasFunctions context.now words.new) }
    ensures within { IfOk result (IsKindWithin (sort_count context.now.sig.now) (length context.now.sig.now.functions)) }
    ensures means { IfOk result (λ kind. (ts : List Typing) → IsAlone alone ts → kind_typing (symbol_under context.now.sig.now) kind ts ≡ word_typing (meaning_in context.now.sig.now context.now.scope.now text.now) ts) }
{
    if let Some(functions) = words.get(text)? {
        return Ok(Kind::Call(functions));
    }
    if let Some(bound) = variable_named(context.sig, context.scope, text) {
        return variable_kind(alloc, bound, alone);
    }
    let functions = word_functions(alloc, context.sig, context.flats, text)?;
    let shared = words.enter(alloc, text, functions)?;
    Ok(Kind::Call(shared))
}
