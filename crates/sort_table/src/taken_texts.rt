//! Texts whose names are taken.

ghost use Rattle.std.specs.Prelude.{OnOk};
ghost use Rattle.std.specs.List.{AllByRecursion, Contains};
ghost use Rattle.std.specs.Str.{IsUtf8};
ghost use Rattle.sort_table.specs.Expressions.{Name};
ghost use Rattle.sort_table.specs.LentTexts.{texts_of};
ghost use Rattle.sort_table.specs.TakenTexts.{TakesTexts};

use data_theory::{NoMemory, Signature};

/// Takes texts that a signature has, given by their bytes.
///
/// # Errors
///
/// `NoMemory` where there is none for them.
pub(crate) fn take_all(signature: &mut Signature, texts: &[&[u8]]) -> Result<(), NoMemory>
    requires text { AllByRecursion IsUtf8 (texts_of texts.now) }
    requires there { (text : Name) → Contains (texts_of texts.now) text → Contains signature.old.texts text }
    ensures { OnOk result (TakesTexts (texts_of texts.now) signature.old signature.new) }
{
    for bytes in texts {
        let Ok(text) = str::from_utf8(bytes) else {
            unreachable!();
        };
        signature.take_name(text)?;
    }
    Ok(())
}
