//! The numbers of words in the table of texts.

ghost use Rattle.std.specs.Prelude.{◌≡◌, ◌<◌, Some, map, length, slice_get, IfOk};
ghost use Rattle.std.specs.List.{All, AllByRecursion, Contains};
ghost use Rattle.std.specs.Str.{IsUtf8};
ghost use Rattle.data_theory.specs.declared.ids.NameId.{NameId};
ghost use Rattle.mcrl2_syntax.specs.Words.{word_of};
ghost use Rattle.mcrl2_syntax.specs.ProcessParts.{name_set_of, renaming_of, comm_rule_of};
ghost use Rattle.mcrl2_syntax.specs.TreeWords.{IsName, AreNames, IsNameSetOfWords, IsRenamingOfWords, IsRuleOfWords};
ghost use Rattle.process_terms.specs.PlainProcesses.{items_of_each, plain_rule, plain_rules};
ghost use Rattle.sort_table.specs.BareProcesses.{bare_names};
ghost use Rattle.sort_table.specs.SignatureVocabularies.{text_under};
ghost use Rattle.sort_checker.specs.CommTrees.{rule_at};
ghost use Rattle.sort_checker.specs.NumberedWords.{set_names, renaming_names, written_renaming, rule_names, AreNumbersOf, AreSetsOf, AreRenamingsOf, IsRuleOf, AreRulesOf, StandIn};

use crate::variable_sorts::name_number;
use data_theory::{NameId, NoMemory, Signature};
use mcrl2_syntax::{CommRule, NameSet, Renaming, Word};
use process_terms::CommSet;
use std::alloc::Global;
use std::str::from_utf8;

/// A name as text.
pub(crate) fn text_of(name: &[u8]) -> &str
    requires { IsUtf8 name.now }
    ensures { result.now ≡ name.now }
{
    match from_utf8(name) {
        Ok(text) => text,
        Err(_) => unreachable!(),
    }
}

/// The number of a word that stands in the table of texts.
pub(crate) fn word_number(sig: &Signature, word: &Word) -> NameId
    requires name { IsName (word_of word.now) }
    requires there { Contains sig.now.texts word.now.bytes.items }
    ensures { slice_get sig.now.texts result.0 ≡ Some word.now.bytes.items }
{
    name_number(sig, word.bytes.as_slice())
}

/// The numbers of words.
///
/// # Errors
///
/// `NoMemory` where there is none for the list.
pub(crate) fn word_numbers(
    alloc: Global,
    sig: &Signature,
    words: &[Word],
) -> Result<Vec<NameId>, NoMemory>
    requires names { AreNames (map word_of words.now) }
    requires there { StandIn sig.now (bare_names (map word_of words.now)) }
    ensures { IfOk result (λ numbers. AreNumbersOf sig.now (bare_names (map word_of words.now)) numbers.items) }
{
    let mut numbers = Vec::new(alloc);
    for word in words {
        numbers.push(word_number(sig, word))?;
    }
    Ok(numbers)
}

/// The numbers of the names of each set.
///
/// # Errors
///
/// `NoMemory` where there is none for the lists.
pub(crate) fn set_numbers(
    alloc: Global,
    sig: &Signature,
    sets: &[NameSet],
) -> Result<Vec<Vec<NameId>>, NoMemory>
    requires names { AllByRecursion IsNameSetOfWords (map name_set_of sets.now) }
    requires there { AllByRecursion (λ s. StandIn sig.now (set_names s)) sets.now }
    ensures { IfOk result (λ numbers. AreSetsOf sig.now (map set_names sets.now) (items_of_each numbers.items)) }
{
    let mut numbers = Vec::new(alloc);
    for set in sets {
        numbers.push(word_numbers(alloc, sig, set.names.as_slice())?)?;
    }
    Ok(numbers)
}

/// The numbers of the old name and of the new one of each renaming.
///
/// # Errors
///
/// `NoMemory` where there is none for the list.
pub(crate) fn renaming_numbers(
    alloc: Global,
    sig: &Signature,
    renamings: &[Renaming],
) -> Result<Vec<(NameId, NameId)>, NoMemory>
    requires names { AllByRecursion IsRenamingOfWords (map renaming_of renamings.now) }
    requires there { AllByRecursion (λ r. StandIn sig.now (renaming_names r)) renamings.now }
    ensures { IfOk result (λ numbers. AreRenamingsOf sig.now (map written_renaming renamings.now) numbers.items) }
{
    let mut numbers = Vec::new(alloc);
    for renaming in renamings {
        let old = word_number(sig, &renaming.old);
        let renamed = word_number(sig, &renaming.renamed);
        numbers.push((old, renamed))?;
    }
    Ok(numbers)
}

/// The numbers of the names of a rule.
fn rule_number(
    alloc: Global,
    sig: &Signature,
    rule: &CommRule,
) -> Result<process_terms::CommRule, NoMemory>
    requires names { IsRuleOfWords (comm_rule_of rule.now) }
    requires there { StandIn sig.now (rule_names rule.now) }
    ensures { IfOk result (λ numbers. IsRuleOf sig.now (rule_at rule.now) (plain_rule numbers)) }
{
    let left = word_numbers(alloc, sig, rule.names.as_slice())?;
    let result = word_number(sig, &rule.outcome);
    Ok(process_terms::CommRule { left, result })
}

/// The numbers of the names of rules.
///
/// # Errors
///
/// `NoMemory` where there is none for the lists.
pub(crate) fn rule_numbers(
    alloc: Global,
    sig: &Signature,
    rules: &[CommRule],
) -> Result<CommSet, NoMemory>
    requires names { AllByRecursion IsRuleOfWords (map comm_rule_of rules.now) }
    requires there { AllByRecursion (λ r. StandIn sig.now (rule_names r)) rules.now }
    ensures { IfOk result (λ numbers. AreRulesOf sig.now (map rule_at rules.now) (plain_rules numbers)) }
{
    let mut numbers = Vec::new(alloc);
    for rule in rules {
        numbers.push(rule_number(alloc, sig, rule)?)?;
    }
    Ok(CommSet { rules: numbers })
}
