//! The first sort that has constructors and no value.

ghost use Rattle.std.specs.Prelude.{List, IfOk, IfSome, MatchOption, Contains, ⊤};
ghost use Rattle.sort_table.specs.BareDeclarations.{Declaration};
ghost use Rattle.sort_table.specs.SortMeanings.{under_names};
ghost use Rattle.sort_table.specs.Vocabularies.{IsVocabularyOf};
ghost use Rattle.sort_table.specs.SignatureVocabularies.{vocabulary_of, text_under};
ghost use Rattle.sort_table.specs.EmptySorts.{NoEmptySort, IsFirstEmptySort};
ghost use Rattle.data_theory.specs.Declarations.{NoSortIsEmpty};
ghost use Rattle.data_theory.specs.IdData.{data_meant};
ghost use Rattle.sort_table.specs.DeclaredNames.{AreNamesOf};

use data_theory::{NameId, NoMemory, Signature};
use std::alloc::Global;
use term_pool::inhabited_sorts;

/// Of the names of the declared sorts but for aliases, in the order of the text, the first whose sort has constructors and no finite
/// value.
///
/// The time is linear in the signature. `NoMemory` comes only where memory runs out. Structured sorts and their values are those of
/// Groote and Mousavi's book, data types.
pub fn empty_sort(
    alloc: Global,
    sig: &Signature,
    names: &[NameId],
) -> Result<Option<NameId>, NoMemory>
    ensures found { IfOk result (λ found. (ds : List Declaration) → IsVocabularyOf (under_names ds) (vocabulary_of sig.now) → AreNamesOf sig.now names.now ds
        → MatchOption found (NoEmptySort ds) (λ name. IsFirstEmptySort ds (text_under sig.now name))) }
    ensures inhabited { IfOk result (λ found. (ds : List Declaration) → IsVocabularyOf (under_names ds) (vocabulary_of sig.now) → AreNamesOf sig.now names.now ds
        → MatchOption found (NoSortIsEmpty (data_meant sig.now)) (λ _. ⊤)) }
    ensures among { IfOk result (λ found. IfSome found (λ name. Contains names.now name)) }
{
    let inhabited = inhabited_sorts(alloc, sig)?;
    for name in names {
        let Some(sort) = sig.sort(*name) else {
            continue
        };
        if !inhabited[sort.0] {
            return Ok(Some(*name));
        }
    }
    Ok(None)
}
