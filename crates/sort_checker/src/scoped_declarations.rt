//! The declarations of a specification, each with those of the section in front.

ghost use Rattle.std.specs.Prelude.{◌≡◌, ◌++◌, List, map, IfOk, OnOk};
ghost use Rattle.std.specs.List.{AllByRecursion};
ghost use Rattle.mcrl2_syntax.specs.Declarations.{spec_of};
ghost use Rattle.sort_table.specs.BareDeclarations.{bare_sections};
ghost use Rattle.sort_table.specs.Expressions.{Name};
ghost use Rattle.sort_checker.specs.Parts.{scoped_declarations};
ghost use Rattle.sort_checker.specs.ReadyTrees.{AreReadyDeclarations, AreReadySections};
ghost use Rattle.sort_checker.specs.ElaboratedTexts.{IsReadyScoped};
ghost use Rattle.sort_checker.specs.ScopedTrees.{scoped_items, scoped_under};

use data_theory::NoMemory;
use mcrl2_syntax::{Decl, Spec};
use std::alloc::Global;

/// A declaration with the declarations of the section in front of its own one.
#[derive(Clone, Copy)]
pub(crate) struct ScopedDecl<'a> {
    pub(crate) before: &'a [Decl],
    pub(crate) declaration: &'a Decl,
}

/// The declarations of all sections, in the order of the text.
///
/// # Errors
///
/// `NoMemory` where there is none for the list.
pub(crate) fn scoped_list<'a>(
    alloc: Global,
    spec: &'a Spec,
) -> Result<Vec<ScopedDecl<'a>>, NoMemory>
    ensures items { IfOk result (λ list. scoped_items list.items ≡ scoped_declarations (bare_sections (spec_of spec.now))) }
    ensures ready { IfOk result (λ list. (texts : List Name) → AreReadySections texts spec.now.sections.items → AllByRecursion (IsReadyScoped texts) list.items) }
{
    let mut list = Vec::new(alloc);
    let mut before: &'a [Decl] = &[];
    for section in &spec.sections {
        add_section(&mut list, before, section.declarations.as_slice())?;
        before = section.declarations.as_slice();
    }
    Ok(list)
}

/// Puts the declarations of a section behind the others.
fn add_section<'a>(
    list: &mut Vec<ScopedDecl<'a>>,
    before: &'a [Decl],
    declarations: &'a [Decl],
) -> Result<(), NoMemory>
    ensures items { OnOk result (scoped_items list.new.items ≡ scoped_items list.old.items ++ scoped_under before.now declarations.now) }
    ensures ready { OnOk result ((texts : List Name) → AreReadyDeclarations texts before.now → AreReadyDeclarations texts declarations.now → AllByRecursion (IsReadyScoped texts) list.old.items → AllByRecursion (IsReadyScoped texts) list.new.items) }
{
    for declaration in declarations {
        list.push(ScopedDecl {
            before,
            declaration,
        })?;
    }
    Ok(())
}
