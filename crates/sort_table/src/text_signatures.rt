//! The signature of what a sound text declares.

ghost use Rattle.std.specs.Prelude.{◌≡◌, Some, IfOk, OnOk};
ghost use Rattle.std.specs.List.{AllByRecursion, Contains, flat_map};
ghost use Rattle.std.specs.Str.{IsUtf8};
ghost use Rattle.mcrl2_syntax.specs.Declarations.{spec_of};
ghost use Rattle.data_theory.specs.Names.{with_texts};
ghost use Rattle.sort_table.specs.Expressions.{Name};
ghost use Rattle.sort_table.specs.BareSorts.{SortExpression};
ghost use Rattle.sort_table.specs.SortMeanings.{kinds_in};
ghost use Rattle.sort_table.specs.UsedNames.{leaf_of};
ghost use Rattle.sort_table.specs.DeclarationTrees.{declarations_under, declarations_of_text};
ghost use Rattle.sort_table.specs.IndexedKinds.{kinds_of_index};
ghost use Rattle.sort_table.specs.NamedSorts.{AreIdsOf, IsNamed, ReadsSorts};
ghost use Rattle.sort_table.specs.Identifiers.{identifiers_in, copied_identifiers};
ghost use Rattle.sort_table.specs.TakenTexts.{TakesTexts};
ghost use Rattle.sort_table.specs.WrittenSorts.{AddsWritten};
ghost use Rattle.sort_table.specs.DeclaredNames.{AreNamesOf};
ghost use Rattle.sort_table.specs.Built.{IsDeclared, expressions_in};
ghost use Rattle.sort_table.specs.TextSignatures.{IsSoundText, IsBegun, HasTextSorts};

use crate::constructor_marks::constructor_marks;
use crate::constructor_sorts::give_constructors;
use crate::declaration_lists::declaration_list;
use crate::entered_texts::enter_all;
use crate::identifiers::{copied_identifiers, identifiers};
use crate::sort_declaring::{SortNames, enter_sort_names};
use crate::sort_indexes::sort_index;
use crate::sort_trees::sort_trees;
use crate::taken_texts::take_all;
use data_theory::{NameId, Names, NoMemory, Signature};
use mcrl2_syntax::{Decl, Spec};
use std::alloc::Global;

/// A signature with what a specification declares, with the ids of the declared sort names that are no aliases, in the order of the
/// text.
///
/// # Errors
///
/// `NoMemory` where there is none for the signature.
pub(crate) fn declared_signature(
    alloc: Global,
    spec: &Spec,
    names: Names,
) -> Result<(Signature, Vec<NameId>), NoMemory>
    requires { IsSoundText (spec_of spec.now) }
    ensures declared { IfOk result (λ built. IsDeclared (spec_of spec.now) built.0) }
    ensures names { IfOk result (λ built. AreNamesOf built.0 built.1.items (declarations_of_text spec.now)) }
{
    let declarations = declaration_list(alloc, spec)?;
    signature_of(alloc, spec, declarations.as_slice(), names)
}

/// A signature with what these declarations of a specification declare, with the ids of the sort names that are no aliases.
fn signature_of<'a>(
    alloc: Global,
    spec: &Spec,
    declarations: &[&'a Decl],
    names: Names,
) -> Result<(Signature, Vec<NameId>), NoMemory>
    requires sound { IsSoundText (spec_of spec.now) }
    requires all { declarations_under declarations.now ≡ declarations_of_text spec.now }
    ensures declared { IfOk result (λ built. IsDeclared (spec_of spec.now) built.0) }
    ensures names { IfOk result (λ built. AreNamesOf built.0 built.1.items (declarations_of_text spec.now)) }
{
    let mut names = names;
    let sorts = text_names(alloc, spec, declarations, &mut names)?;
    named_signature(alloc, spec, &sorts, declarations, names)
}

/// The declared sort names, with their ids in a table that has all identifiers of a specification.
fn text_names<'a>(
    alloc: Global,
    spec: &Spec,
    declarations: &[&'a Decl],
    names: &mut Names,
) -> Result<SortNames<'a>, NoMemory>
    requires text { AllByRecursion IsUtf8 (identifiers_in (spec_of spec.now)) }
    requires all { declarations_under declarations.now ≡ declarations_of_text spec.now }
    ensures kinds { IfOk result (λ sorts. kinds_of_index sorts.index ≡ kinds_in (declarations_of_text spec.now)) }
    ensures ids { IfOk result (λ sorts. AreIdsOf names.new (kinds_in (declarations_of_text spec.now)) sorts.ids.items) }
    ensures entered { OnOk result ((t : Name) → Contains (identifiers_in (spec_of spec.now)) t → Contains names.new t) }
{
    enter_identifiers(alloc, spec, names)?;
    let index = sort_index(alloc, declarations)?;
    enter_sort_names(alloc, index, names)
}

/// Enters all identifiers of a specification.
fn enter_identifiers(alloc: Global, spec: &Spec, names: &mut Names) -> Result<(), NoMemory>
    requires { AllByRecursion IsUtf8 (identifiers_in (spec_of spec.now)) }
    ensures { OnOk result (names.new ≡ with_texts names.old (identifiers_in (spec_of spec.now))) }
{
    let texts = identifiers(alloc, spec)?;
    enter_all(alloc, names, texts.as_slice())?;
    Ok(())
}

/// A signature with what these declarations of a specification declare, over a table with all its identifiers, with the ids of the
/// sort names that are no aliases.
fn named_signature<'a>(
    alloc: Global,
    spec: &Spec,
    sorts: &SortNames<'a>,
    declarations: &[&'a Decl],
    names: Names,
) -> Result<(Signature, Vec<NameId>), NoMemory>
    requires sound { IsSoundText (spec_of spec.now) }
    requires all { declarations_under declarations.now ≡ declarations_of_text spec.now }
    requires kinds { kinds_of_index sorts.now.index ≡ kinds_in (declarations_of_text spec.now) }
    requires ids { AreIdsOf names (kinds_in (declarations_of_text spec.now)) sorts.now.ids.items }
    requires entered { (t : Name) → Contains (identifiers_in (spec_of spec.now)) t → Contains names t }
    ensures declared { IfOk result (λ built. IsDeclared (spec_of spec.now) built.0) }
    ensures names { IfOk result (λ built. AreNamesOf built.0 built.1.items (declarations_of_text spec.now)) }
{
    let mut signature = Signature::new(alloc, names)?;
    let own = fill(alloc, spec, sorts, declarations, &mut signature)?;
    Ok((signature, own))
}

/// Adds what these declarations of a specification declare to a signature that has only its identifiers. The ids of the sort names
/// that are no aliases come back.
fn fill<'a>(
    alloc: Global,
    spec: &Spec,
    sorts: &SortNames<'a>,
    declarations: &[&'a Decl],
    signature: &mut Signature,
) -> Result<Vec<NameId>, NoMemory>
    requires sound { IsSoundText (spec_of spec.now) }
    requires all { declarations_under declarations.now ≡ declarations_of_text spec.now }
    requires kinds { kinds_of_index sorts.now.index ≡ kinds_in (declarations_of_text spec.now) }
    requires begun { IsBegun (spec_of spec.now) sorts.now.ids.items signature.old }
    ensures declared { OnOk result (IsDeclared (spec_of spec.now) signature.new) }
    ensures names { IfOk result (λ own. AreNamesOf signature.new own.items (declarations_of_text spec.now)) }
{
    add_sorts(alloc, spec, sorts, declarations, signature)?;
    add_functions(alloc, spec, sorts, declarations, signature)?;
    sorts.own_ids(alloc)
}

/// Adds the sorts that a specification declares and those of all its sort expressions.
fn add_sorts<'a>(
    alloc: Global,
    spec: &Spec,
    sorts: &SortNames<'a>,
    declarations: &[&'a Decl],
    signature: &mut Signature,
) -> Result<(), NoMemory>
    requires sound { IsSoundText (spec_of spec.now) }
    requires all { declarations_under declarations.now ≡ declarations_of_text spec.now }
    requires kinds { kinds_of_index sorts.now.index ≡ kinds_in (declarations_of_text spec.now) }
    requires begun { IsBegun (spec_of spec.now) sorts.now.ids.items signature.old }
    ensures { OnOk result (HasTextSorts (spec_of spec.now) (kinds_of_index sorts.now.index) sorts.now.ids.items signature.new) }
{
    sorts.declare(alloc, signature)?;
    let _ = signature.names();
    take_copied(alloc, spec, signature)?;
    let _ = signature.names();
    add_expressions(alloc, sorts, declarations, signature)?;
    Ok(())
}

/// Takes the identifiers of copied declarations.
fn take_copied(alloc: Global, spec: &Spec, signature: &mut Signature) -> Result<(), NoMemory>
    requires text { AllByRecursion IsUtf8 (copied_identifiers (spec_of spec.now)) }
    requires there { (t : Name) → Contains (copied_identifiers (spec_of spec.now)) t → Contains signature.old.texts t }
    ensures { OnOk result (TakesTexts (copied_identifiers (spec_of spec.now)) signature.old signature.new) }
{
    let copied = copied_identifiers(alloc, spec)?;
    take_all(signature, copied.as_slice())
}

/// Adds the list sorts that the sort expressions in declarations need.
fn add_expressions<'a>(
    alloc: Global,
    sorts: &SortNames<'a>,
    declarations: &[&'a Decl],
    signature: &mut Signature,
) -> Result<(), NoMemory>
    requires reads { ReadsSorts (kinds_of_index sorts.now.index) sorts.now.ids.items signature.old }
    requires named { (e : SortExpression) → Contains (flat_map expressions_in (declarations_under declarations.now)) e → (n : Name) → leaf_of e ≡ Some n → IsNamed signature.old n }
    ensures written { OnOk result (AddsWritten (flat_map expressions_in (declarations_under declarations.now)) signature.old signature.new) }
    ensures reads { OnOk result (ReadsSorts (kinds_of_index sorts.now.index) sorts.now.ids.items signature.new) }
{
    let trees = sort_trees(alloc, declarations)?;
    sorts.add_written(signature, trees.as_slice())
}

/// Adds the functions and actions of a specification to a signature with its sorts.
fn add_functions<'a>(
    alloc: Global,
    spec: &Spec,
    sorts: &SortNames<'a>,
    declarations: &[&'a Decl],
    signature: &mut Signature,
) -> Result<(), NoMemory>
    requires sound { IsSoundText (spec_of spec.now) }
    requires all { declarations_under declarations.now ≡ declarations_of_text spec.now }
    requires has { HasTextSorts (spec_of spec.now) (kinds_of_index sorts.now.index) sorts.now.ids.items signature.old }
    ensures declared { OnOk result (IsDeclared (spec_of spec.now) signature.new) }
    ensures texts { OnOk result (signature.new.texts ≡ signature.old.texts) }
{
    let _ = signature.names();
    sorts.add_declared_functions(alloc, signature, declarations)?;
    let _ = signature.names();
    sorts.add_actions(alloc, signature, declarations)?;
    let _ = signature.names();
    let marks = constructor_marks(alloc, declarations)?;
    give_constructors(alloc, signature, marks.as_slice())?;
    let _ = signature.names();
    Ok(())
}
