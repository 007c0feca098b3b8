//! Texts that are entered into a table.

ghost use Rattle.std.specs.Prelude.{◌≡◌, map, IfOk, OnOk};
ghost use Rattle.std.specs.List.{AllByRecursion};
ghost use Rattle.std.specs.Str.{IsUtf8};
ghost use Rattle.data_theory.specs.Names.{with_texts};
ghost use Rattle.sort_table.specs.Built.{AreNamesOfAll};

use crate::sort_declaring::enter_bytes;
use data_theory::{NameId, Names, NoMemory};
use std::alloc::Global;

/// Enters texts that are given by their bytes.
///
/// # Errors
///
/// `NoMemory` where there is none for them.
pub(crate) fn enter_all(
    alloc: Global,
    names: &mut Names,
    texts: &[&[u8]],
) -> Result<Vec<NameId>, NoMemory>
    requires { AllByRecursion IsUtf8 (map (λ text. text.now) texts.now) }
    ensures ids { IfOk result (λ ids. AreNamesOfAll names.new ids.items (map (λ text. text.now) texts.now)) }
    ensures entered { OnOk result (names.new ≡ with_texts names.old (map (λ text. text.now) texts.now)) }
{
    let mut ids = Vec::new(alloc);
    for text in texts {
        ids.push(enter_bytes(names, text)?)?;
    }
    Ok(ids)
}
