//! Bytes, token by token.

ghost use Rattle.std.specs.Prelude.{◌∷◌, OnOk};
ghost use Rattle.mcrl2_lexer.specs.declared.kind.Kind.{Kind};
ghost use Rattle.lps_printer.specs.Adding.{Adds};
ghost use Rattle.lps_printer.specs.DataLayout.{piece};
ghost use Rattle.std.specs.Fmt.{decimal};

use data_theory::NoMemory;
use itoa::Buffer;

/// Puts a token last, behind white space.
pub(crate) fn push_token(out: &mut Vec<u8>, gap: &[u8], token: &[u8]) -> Result<(), NoMemory>
    ensures { OnOk result ((kind : Kind) → Adds out.old.items out.new.items (λ rest. piece gap.now kind token.now ∷ rest)) }
{
    out.extend_from_slice(gap)?;
    out.extend_from_slice(token)?;
    Ok(())
}

/// Puts the digits of a number last, behind white space.
pub(crate) fn push_digits(out: &mut Vec<u8>, gap: &[u8], number: u128) -> Result<(), NoMemory>
    ensures { OnOk result ((kind : Kind) → Adds out.old.items out.new.items (λ rest. piece gap.now kind (decimal number) ∷ rest)) }
{
    let mut buffer = Buffer::new();
    push_token(out, gap, buffer.format(number).as_bytes())
}
