//! Where lists of parts stand.

ghost use Rattle.std.specs.Prelude.{◌≡◌, map};
ghost use Rattle.mcrl2_syntax.specs.Words.{word_of, word_span, last_of, spanned};
ghost use Rattle.mcrl2_syntax.specs.SortTrees.{plain_sort, sort_span};
ghost use Rattle.mcrl2_syntax.specs.ProcessParts.{var_group_of};
ghost use Rattle.mcrl2_syntax.specs.Declarations.{constructor_of};
ghost use Rattle.mcrl2_syntax.specs.SpelledDeclarations.{group_span, constructor_span};

use mcrl2_syntax::{Constructor, SortTree, Span, VarGroup, Word, joined_spans};

// Where the last name stands, behind a part that stands here.
fn last_name(here: Span, names: &[Word]) -> Span
    ensures { result ≡ last_of word_span here (map word_of names.now) }
{
    let mut span = here;
    for name in names {
        span = name.span;
    }
    span
}

// Where the last sort stands, behind a part that stands here.
fn last_sort(here: Span, sorts: &[SortTree]) -> Span
    ensures { result ≡ last_of sort_span here (map plain_sort sorts.now) }
{
    let mut span = here;
    for sort in sorts {
        span = sort.span();
    }
    span
}

// Where the last variables stand, behind a part that stands here.
fn last_group(here: Span, groups: &[VarGroup]) -> Span
    ensures { result ≡ last_of group_span here (map var_group_of groups.now) }
{
    let mut span = here;
    for group in groups {
        span = group.span;
    }
    span
}

// Where the last constructor stands, behind a part that stands here.
fn last_constructor(here: Span, constructors: &[Constructor]) -> Span
    ensures { result ≡ last_of constructor_span here (map constructor_of constructors.now) }
{
    let mut span = here;
    for constructor in constructors {
        span = constructor.span;
    }
    span
}

/// From the first byte of the first name to the last byte of the last one.
pub fn names_span(names: &[Word]) -> Span
    ensures { result ≡ spanned word_span (map word_of names.now) }
{
    match names {
        [] => Span { start: 0, end: 0 },
        [first, rest @ ..] => joined_spans(first.span, last_name(first.span, rest)),
    }
}

/// From the first byte of the first sort to the last byte of the last one.
pub fn sorts_span(sorts: &[SortTree]) -> Span
    ensures { result ≡ spanned sort_span (map plain_sort sorts.now) }
{
    match sorts {
        [] => Span { start: 0, end: 0 },
        [first, rest @ ..] => joined_spans(first.span(), last_sort(first.span(), rest)),
    }
}

/// From the first byte of the first variables to the last byte of the last ones.
pub fn groups_span(groups: &[VarGroup]) -> Span
    ensures { result ≡ spanned group_span (map var_group_of groups.now) }
{
    match groups {
        [] => Span { start: 0, end: 0 },
        [first, rest @ ..] => joined_spans(first.span, last_group(first.span, rest)),
    }
}

/// From the first byte of the first constructor to the last byte of the last one.
pub fn constructors_span(constructors: &[Constructor]) -> Span
    ensures { result ≡ spanned constructor_span (map constructor_of constructors.now) }
{
    match constructors {
        [] => Span { start: 0, end: 0 },
        [first, rest @ ..] => joined_spans(first.span, last_constructor(first.span, rest)),
    }
}
