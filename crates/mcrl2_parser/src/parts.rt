//! The readers of names, variables, actions, labels, calls and operators.

ghost use Rattle.std.specs.Prelude.{◌≡◌, ◌<◌, List, IfOk, MatchResult, length, map};
ghost use Rattle.mcrl2_lexer.specs.declared.kind.Kind.TheVariants.{LeftParen};
ghost use Rattle.mcrl2_lexer.specs.declared.token.Token.{Token};
ghost use Rattle.mcrl2_syntax.specs.Words.{PlainWord, word_of, Begins, last_of, spanned};
ghost use Rattle.mcrl2_syntax.specs.ProcessParts.{PlainAction, PlainAssignment, PlainVarGroup, PlainLabel, plain_action, action_span, assignment_of, var_group_of, label_of};
ghost use Rattle.mcrl2_syntax.specs.ProcessTrees.{PlainProcess, plain_process};
ghost use Rattle.mcrl2_syntax.specs.DataTrees.{PlainData, plain_data};
ghost use Rattle.mcrl2_syntax.specs.Follow.{Stops, Closed, NoAction};
ghost use Rattle.mcrl2_syntax.specs.SpelledWords.{SpellsName, SpellsList};
ghost use Rattle.mcrl2_syntax.specs.SpelledData.{SpellsItems};
ghost use Rattle.mcrl2_syntax.specs.SpelledLabels.{SpellsVarGroup, SpellsVars, SpellsAction, SpellsActions, SpellsLabel, SpellsAssignment, SpellsCall};

use crate::datas::{data, items};
use crate::lists::{Part, list};
use crate::part_spans::names_span;
use crate::reading::sort;
use crate::words::{Fault, expect, word};
use mcrl2_lexer::{Kind, Token};
use mcrl2_syntax::{
    ActionTree, Assignment, DataList, LabelTree, ProcTree, Span, VarGroup, Word, WordList,
    joined_spans, token_span,
};
use std::alloc::Global;

/// An identifier.
impl Part for Word {
    ghost Plain = { PlainWord };

    ghost plain = { word_of };

    ghost spells = { SpellsName };

    ghost stops = { λ _. Unit {0} };

    fn read<'a>(
        alloc: Global,
        text: &[u8],
        tokens: &'a [Token],
    ) -> Result<(Word, &'a [Token]), Fault> {
        let (token, rest) = expect(tokens, Kind::Identifier)?;
        Ok((word(alloc, text, token)?, rest))
    }
}

/// `x, y: S`
impl Part for VarGroup {
    ghost Plain = { PlainVarGroup };

    ghost plain = { var_group_of };

    ghost spells = { SpellsVarGroup };

    ghost stops = { λ _. Unit {0} };

    fn read<'a>(
        alloc: Global,
        text: &[u8],
        tokens: &'a [Token],
    ) -> Result<(VarGroup, &'a [Token]), Fault> {
        let (names, behind) = names(alloc, text, tokens, Kind::Comma)?;
        let (_, behind) = expect(behind, Kind::Colon)?;
        let (sort, rest) = sort(alloc, text, behind)?;
        let span = joined_spans(names_span(names.as_slice()), sort.span());
        Ok((VarGroup::new(span, names, sort), rest))
    }
}

// The arguments that a front of the tokens spells, and the rest.
fn arguments<'a>(
    alloc: Global,
    text: &[u8],
    tokens: &'a [Token],
) -> Result<(DataList, &'a [Token]), Fault>
    ensures shorter { IfOk result (λ x. length x.1.now < length tokens.now) }
    ensures found { IfOk result (λ x. SpellsItems text.now (map plain_data x.0.items) tokens.now x.1.now) }
    ensures only { (ds : List PlainData) (r : List Token) → SpellsItems text.now ds tokens.now r → Closed r
        → MatchResult result (λ x. (map plain_data x.0.items ≡ ds) × (x.1.now ≡ r)) (λ e. e ≡ Fault.NoMemory) }
{
    let (first, rest) = data(alloc, text, tokens)?;
    let Ok((_, behind)) = expect(rest, Kind::Comma) else {
        return Ok((DataList::lone(alloc, first)?, rest));
    };
    let (others, rest) = items(alloc, text, behind)?;
    Ok((DataList::led(alloc, first, others)?, rest))
}

/// `tau`, `a` or `a(d, e)`
impl Part for ActionTree {
    ghost Plain = { PlainAction };

    ghost plain = { plain_action };

    ghost spells = { SpellsAction };

    ghost stops = { λ r. Begins LeftParen r → ⊥ };

    fn read<'a>(
        alloc: Global,
        text: &[u8],
        tokens: &'a [Token],
    ) -> Result<(ActionTree, &'a [Token]), Fault> {
        if let Ok((tau, rest)) = expect(tokens, Kind::Tau) {
            return Ok((ActionTree::tau_at(token_span(tau, tau)), rest));
        }
        let (token, rest) = expect(tokens, Kind::Identifier)?;
        let name = word(alloc, text, token)?;
        let Ok((_, inner)) = expect(rest, Kind::LeftParen) else {
            let tree = ActionTree::named_to(token.end, name, DataList::none());
            return Ok((tree, rest));
        };
        let (arguments, behind) = arguments(alloc, text, inner)?;
        let (close, rest) = expect(behind, Kind::RightParen)?;
        Ok((ActionTree::named_to(close.end, name, arguments), rest))
    }
}

/// `x = d`
impl Part for Assignment {
    ghost Plain = { PlainAssignment };

    ghost plain = { assignment_of };

    ghost spells = { SpellsAssignment };

    ghost stops = { Stops 11 };

    fn read<'a>(
        alloc: Global,
        text: &[u8],
        tokens: &'a [Token],
    ) -> Result<(Assignment, &'a [Token]), Fault> {
        let (token, behind) = expect(tokens, Kind::Identifier)?;
        let (_, behind) = expect(behind, Kind::Equals)?;
        let name = word(alloc, text, token)?;
        let (value, rest) = data(alloc, text, behind)?;
        let span = joined_spans(token_span(token, token), value.span());
        Ok((Assignment::new(span, name, value), rest))
    }
}

/// The names with that separator between them that a front of the tokens spells, and the rest.
///
/// # Errors
///
/// `Syntax` where no front of them spells any.
pub fn names<'a>(
    alloc: Global,
    text: &[u8],
    tokens: &'a [Token],
    separator: Kind,
) -> Result<(WordList, &'a [Token]), Fault>
    ensures shorter { IfOk result (λ x. length x.1.now < length tokens.now) }
    ensures found { IfOk result (λ x. SpellsList (SpellsName text.now) separator (map word_of x.0.items) tokens.now x.1.now) }
    ensures only { (ws : List PlainWord) (r : List Token) → SpellsList (SpellsName text.now) separator ws tokens.now r → (Begins separator r → ⊥)
        → MatchResult result (λ x. (map word_of x.0.items ≡ ws) × (x.1.now ≡ r)) (λ e. e ≡ Fault.NoMemory) }
{
    let (first, rest) = Word::read(alloc, text, tokens)?;
    let Ok((_, behind)) = expect(rest, separator) else {
        return Ok((WordList::lone(first), rest));
    };
    let (others, rest) = list::<Word>(alloc, text, behind, separator)?;
    Ok((WordList::led(first, others)?, rest))
}

/// The variables with their sorts that a front of the tokens spells, and the rest.
///
/// # Errors
///
/// `Syntax` where no front of them spells any.
#[inline(never)]
pub fn vars<'a>(
    alloc: Global,
    text: &[u8],
    tokens: &'a [Token],
) -> Result<(Vec<VarGroup>, &'a [Token]), Fault>
    ensures shorter { IfOk result (λ x. length x.1.now < length tokens.now) }
    ensures found { IfOk result (λ x. SpellsVars text.now (map var_group_of x.0.items) tokens.now x.1.now) }
    ensures only { (gs : List PlainVarGroup) (r : List Token) → SpellsVars text.now gs tokens.now r → (Begins Kind.Comma r → ⊥)
        → MatchResult result (λ x. (map var_group_of x.0.items ≡ gs) × (x.1.now ≡ r)) (λ e. e ≡ Fault.NoMemory) }
{
    list::<VarGroup>(alloc, text, tokens, Kind::Comma)
}

/// The action that a front of the tokens spells, and the rest.
///
/// # Errors
///
/// `Syntax` where no front of them spells one.
pub fn action<'a>(
    alloc: Global,
    text: &[u8],
    tokens: &'a [Token],
) -> Result<(ActionTree, &'a [Token]), Fault>
    ensures shorter { IfOk result (λ x. length x.1.now < length tokens.now) }
    ensures found { IfOk result (λ x. SpellsAction text.now (plain_action x.0) tokens.now x.1.now) }
    ensures only { (a : PlainAction) (r : List Token) → SpellsAction text.now a tokens.now r → (Begins Kind.LeftParen r → ⊥)
        → MatchResult result (λ x. (plain_action x.0 ≡ a) × (x.1.now ≡ r)) (λ e. e ≡ Fault.NoMemory) }
{
    ActionTree::read(alloc, text, tokens)
}

/// The actions with `|` between them that a front of the tokens spells, and the rest.
///
/// # Errors
///
/// `Syntax` where no front of them spells any.
pub fn actions<'a>(
    alloc: Global,
    text: &[u8],
    tokens: &'a [Token],
) -> Result<(Vec<ActionTree>, &'a [Token]), Fault>
    ensures shorter { IfOk result (λ x. length x.1.now < length tokens.now) }
    ensures found { IfOk result (λ x. SpellsActions text.now (map plain_action x.0.items) tokens.now x.1.now) }
    ensures only { (as_ : List PlainAction) (r : List Token) → SpellsActions text.now as_ tokens.now r → NoAction r
        → MatchResult result (λ x. (map plain_action x.0.items ≡ as_) × (x.1.now ≡ r)) (λ e. e ≡ Fault.NoMemory) }
{
    list::<ActionTree>(alloc, text, tokens, Kind::Bar)
}

// Where the last action stands, behind a part that stands here.
fn last_action(here: Span, actions: &[ActionTree]) -> Span
    ensures { result ≡ last_of action_span here (map plain_action actions.now) }
{
    let mut span = here;
    for action in actions {
        span = action.span();
    }
    span
}

/// From the first byte of the first action to the last byte of the last one.
pub fn actions_span(actions: &[ActionTree]) -> Span
    ensures { result ≡ spanned action_span (map plain_action actions.now) }
{
    match actions {
        [] => Span { start: 0, end: 0 },
        [first, rest @ ..] => joined_spans(first.span(), last_action(first.span(), rest)),
    }
}

/// The label that a front of the tokens spells, and the rest.
///
/// # Errors
///
/// `Syntax` where no front of them spells one.
#[inline(never)]
pub fn label<'a>(
    alloc: Global,
    text: &[u8],
    tokens: &'a [Token],
) -> Result<(LabelTree, &'a [Token]), Fault>
    ensures shorter { IfOk result (λ x. length x.1.now < length tokens.now) }
    ensures found { IfOk result (λ x. SpellsLabel text.now (label_of x.0) tokens.now x.1.now) }
    ensures only { (l : PlainLabel) (r : List Token) → SpellsLabel text.now l tokens.now r → NoAction r
        → MatchResult result (λ x. (label_of x.0 ≡ l) × (x.1.now ≡ r)) (λ e. e ≡ Fault.NoMemory) }
{
    let (actions, rest) = actions(alloc, text, tokens)?;
    Ok((LabelTree::new(actions_span(&actions), actions), rest))
}

/// The call with assignments that a front of the tokens spells, and the rest.
///
/// # Errors
///
/// `Syntax` where no front of them spells one.
#[inline(never)]
pub fn call<'a>(
    alloc: Global,
    text: &[u8],
    tokens: &'a [Token],
) -> Result<(ProcTree, &'a [Token]), Fault>
    ensures shorter { IfOk result (λ x. length x.1.now < length tokens.now) }
    ensures found { IfOk result (λ x. SpellsCall text.now (plain_process x.0) tokens.now x.1.now) }
    ensures only { (p : PlainProcess) (r : List Token) → SpellsCall text.now p tokens.now r
        → MatchResult result (λ x. (plain_process x.0 ≡ p) × (x.1.now ≡ r)) (λ e. e ≡ Fault.NoMemory) }
{
    let (token, behind) = expect(tokens, Kind::Identifier)?;
    let (_, inner) = expect(behind, Kind::LeftParen)?;
    let name = word(alloc, text, token)?;
    if let Ok((close, rest)) = expect(inner, Kind::RightParen) {
        let span = token_span(token, close);
        let tree = ProcTree::call_at(alloc, span, name, Vec::new(alloc))?;
        return Ok((tree, rest));
    }
    let (assignments, behind) = list::<Assignment>(alloc, text, inner, Kind::Comma)?;
    let (close, rest) = expect(behind, Kind::RightParen)?;
    let tree = ProcTree::call_at(alloc, token_span(token, close), name, assignments)?;
    Ok((tree, rest))
}
