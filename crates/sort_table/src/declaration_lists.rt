//! The declarations of a specification in one list.

ghost use Rattle.std.specs.Prelude.{◌≡◌, ◌++◌, map, IfOk, OnOk};
ghost use Rattle.sort_table.specs.DeclarationTrees.{declarations_under, declarations_of_text, declaration_of};

use data_theory::NoMemory;
use mcrl2_syntax::{Decl, Spec};
use std::alloc::Global;

/// The declarations of all sections, in the order of the text.
///
/// # Errors
///
/// `NoMemory` where there is none for the list.
pub(crate) fn declaration_list<'a>(alloc: Global, spec: &'a Spec) -> Result<Vec<&'a Decl>, NoMemory>
    ensures { IfOk result (λ list. declarations_under list.items ≡ declarations_of_text spec.now) }
{
    let mut list = Vec::new(alloc);
    for section in &spec.sections {
        add_declarations(&mut list, section.declarations.as_slice())?;
    }
    Ok(list)
}

/// Puts these declarations behind the others.
fn add_declarations<'a>(list: &mut Vec<&'a Decl>, declarations: &'a [Decl]) -> Result<(), NoMemory>
    ensures { OnOk result (declarations_under list.new.items ≡ declarations_under list.old.items ++ map declaration_of declarations.now) }
{
    for declaration in declarations {
        list.push(declaration)?;
    }
    Ok(())
}
