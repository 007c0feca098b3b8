//! The parts of a chain of process terms in one tree.

ghost use Rattle.std.specs.Prelude.{◌≡◌, ◌≢◌, ◌∷◌, [], IfOk, IfErr, length, map};
ghost use Rattle.mcrl2_syntax.specs.Words.{spanned};
ghost use Rattle.mcrl2_syntax.specs.ProcessTrees.{plain_process, process_span};
ghost use Rattle.mcrl2_syntax.specs.SpelledProcesses.{sequenced, merged, chosen};

use mcrl2_syntax::{ProcTree, Span, joined_spans};

/// The only item, or the items where there isn't just one, in a list without spare room.
pub fn single<T: Drop>(items: Vec<T>) -> Result<T, Vec<T>>
    ensures one { IfOk result (λ item. items.items ≡ item ∷ []) }
    ensures others { IfErr result (λ same. (same.items ≡ items.items) × (length items.items ≢ 1)) }
{
    let mut items = items;
    if items.len() != 1 {
        items.shrink_to_fit();
        return Err(items);
    }
    match items.pop() {
        Some(item) => Ok(item),
        None => Err(items),
    }
}

/// From the first byte of the first part to the last byte of the last one.
pub fn parts_span(parts: &[ProcTree]) -> Span
    ensures { result ≡ spanned process_span (map plain_process parts.now) }
{
    match parts {
        [] => Span { start: 0, end: 0 },
        [only] => joined_spans(only.span(), only.span()),
        [first, .., last] => joined_spans(first.span(), last.span()),
    }
}

/// Parts of a sequence in one tree: one part is itself.
pub fn in_sequence(parts: Vec<ProcTree>) -> ProcTree
    ensures { plain_process result ≡ sequenced (map plain_process parts.items) }
{
    match single(parts) {
        Ok(part) => part,
        Err(parts) => {
            let span = parts_span(&parts);
            ProcTree::sequence_at(span, parts)
        }
    }
}

/// Operands of `||` in one tree: one operand is itself.
pub fn in_parallel(parts: Vec<ProcTree>) -> ProcTree
    ensures { plain_process result ≡ merged (map plain_process parts.items) }
{
    match single(parts) {
        Ok(part) => part,
        Err(parts) => {
            let span = parts_span(&parts);
            ProcTree::parallel_at(span, parts)
        }
    }
}

/// Operands of `+` in one tree: one operand is itself.
pub fn in_choice(parts: Vec<ProcTree>) -> ProcTree
    ensures { plain_process result ≡ chosen (map plain_process parts.items) }
{
    match single(parts) {
        Ok(part) => part,
        Err(parts) => {
            let span = parts_span(&parts);
            ProcTree::choice_at(span, parts)
        }
    }
}
