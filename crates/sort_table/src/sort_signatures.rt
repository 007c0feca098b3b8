//! The signature of a text's sorts.

ghost use Rattle.std.specs.Prelude.{IfOk};
ghost use Rattle.std.specs.List.{All};
ghost use Rattle.std.specs.Str.{IsUtf8};
ghost use Rattle.sort_table.specs.SortMeanings.{kinds_in, under_names};
ghost use Rattle.sort_table.specs.DeclarationTrees.{declarations_of_text};
ghost use Rattle.sort_table.specs.UnknownSorts.{AllAreKnown};
ghost use Rattle.sort_table.specs.SortCycles.{NoCycle};
ghost use Rattle.sort_table.specs.NamedSorts.{HaveSortNames, sort_names_of, sort_count};

use crate::declaration_lists::declaration_list;
use crate::sort_declaring::enter_sort_names;
use crate::sort_indexes::sort_index;
use data_theory::{Names, NoMemory, Signature};
use mcrl2_syntax::Spec;
use std::alloc::Global;

/// A signature with the sorts and aliases that a specification declares, and no functions of its own. The first declaration
/// of a name counts.
///
/// # Errors
///
/// `NoMemory` where there is none for the signature.
pub fn sort_signature(alloc: Global, spec: &Spec, names: Names) -> Result<Signature, NoMemory>
    requires text { All (λ r. IsUtf8 r.0) (kinds_in (declarations_of_text spec.now)) }
    requires known { AllAreKnown (declarations_of_text spec.now) }
    requires no_cycle { NoCycle (declarations_of_text spec.now) }
    ensures { IfOk result (λ signature. HaveSortNames (under_names (declarations_of_text spec.now)) (sort_names_of signature) (sort_count signature)) }
{
    let mut names = names;
    let declarations = declaration_list(alloc, spec)?;
    let index = sort_index(alloc, declarations.as_slice())?;
    let sorts = enter_sort_names(alloc, index, &mut names)?;
    let mut signature = Signature::new(alloc, names)?;
    sorts.declare(alloc, &mut signature)?;
    Ok(signature)
}
