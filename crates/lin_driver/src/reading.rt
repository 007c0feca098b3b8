//! The specification that a text spells, and what it declares.

ghost use Rattle.std.specs.Prelude.{◌≢◌, IfErr, IfOk};
ghost use Rattle.mcrl2_syntax.specs.Declarations.{spec_of};
ghost use Rattle.mcrl2_syntax.specs.TreeWords.{IsSpecOfWords};
ghost use Rattle.sort_table.specs.BareDeclarations.{bare_sections};
ghost use Rattle.sort_table.specs.Built.{IsBuilt};
ghost use Rattle.sort_checker.specs.TextModels.{HasOneStart};
ghost use Rattle.lin_driver.specs.Accepted.{IsOfTheText};
ghost use Rattle.lin_driver.specs.Refusals.{IsParsedAs, IsRefusedWith};

use crate::fault::LinFault;
use data_theory::{Names, Signature};
use mcrl2_lexer::lex;
use mcrl2_parser::parse;
use mcrl2_syntax::Spec;
use sort_table::build;
use std::alloc::Global;

/// The specification that a text spells, with the signature of what it declares.
///
/// # Errors
///
/// The first of these: `Lex` where the text has no tokens that are accepted; `Parse` where one of its declarations nests too deeply or
/// spells none, or where not exactly one is in an `init` section; `Sort` where what they declare has a fault. `names`, which is to be
/// empty, then has the text of each name that the fault lists. `NoMemory` comes only where memory runs out.
pub(crate) fn read_text(
    alloc: Global,
    text: &[u8],
    names: &mut Names,
) -> Result<(Spec, Signature), LinFault>
    ensures parsed { IfOk result (λ read. IsParsedAs text.now (spec_of read.0)) }
    ensures words { IfOk result (λ read. IsSpecOfWords (spec_of read.0)) }
    ensures start { IfOk result (λ read. HasOneStart (bare_sections (spec_of read.0))) }
    ensures built { IfOk result (λ read. IsBuilt (spec_of read.0) read.1) }
    ensures of_the_text { IfErr result (λ fault. fault ≢ LinFault.NoMemory → IsOfTheText fault) }
    ensures refused { IfErr result (λ fault. fault ≢ LinFault.NoMemory → IsRefusedWith text.now names.new fault) }
{
    let tokens = lex(alloc, text)?;
    let spec = parse(alloc, &tokens)?;
    let sig = build(alloc, &spec, names)?;
    Ok((spec, sig))
}
