//! Which functions of a text `cons` declares.

ghost use Rattle.std.specs.Prelude.{◌≡◌, ◌++◌, List, map, IfOk, OnOk};
ghost use Rattle.mcrl2_syntax.specs.Declarations.{field_of, constructor_of, some_word};
ghost use Rattle.sort_table.specs.BareSorts.{SortExpression};
ghost use Rattle.sort_table.specs.BareDeclarations.{bare_word, bare_field, bare_constructor};
ghost use Rattle.sort_table.specs.TextFunctions.{TextRole, functions_by, functions_in};
ghost use Rattle.sort_table.specs.DeclarationTrees.{declaration_of, declarations_under};
ghost use Rattle.sort_table.specs.NamedFunctions.{functions_named};
ghost use Rattle.sort_table.specs.ConstructorMarks.{marks_of, is_declared_role, mark_where, field_marks, own_marks, projection_marks, recogniser_marks, struct_marks};

use data_theory::NoMemory;
use mcrl2_syntax::{Constructor, Decl, Field, Word};
use std::alloc::Global;

/// For each function that declarations declare, in their order, whether a `cons` declares it.
///
/// # Errors
///
/// `NoMemory` where there is none for the list.
pub(crate) fn constructor_marks(
    alloc: Global,
    declarations: &[&Decl],
) -> Result<Vec<bool>, NoMemory>
    ensures { IfOk result (λ marks. marks.items ≡ marks_of (functions_in (declarations_under declarations.now))) }
{
    let mut marks = Vec::new(alloc);
    for declaration in declarations {
        mark_declaration(&mut marks, declaration)?;
    }
    Ok(marks)
}

/// Marks the functions of a declaration, behind the others.
fn mark_declaration(marks: &mut Vec<bool>, declaration: &Decl) -> Result<(), NoMemory>
    ensures { OnOk result (marks.new.items ≡ marks.old.items ++ marks_of (functions_by (declaration_of declaration.now))) }
{
    match declaration {
        Decl::Struct(_, _, constructors) => mark_struct(marks, constructors.as_slice()),
        Decl::Cons(_, words, _, _) => mark_words(marks, words.as_slice(), true),
        Decl::Map(_, words, _, _) => mark_words(marks, words.as_slice(), false),
        _ => Ok(()),
    }
}

/// Marks one function for each name.
fn mark_words(marks: &mut Vec<bool>, words: &[Word], mark: bool) -> Result<(), NoMemory>
    ensures { OnOk result ((es : List SortExpression) (to : SortExpression) (role : TextRole) → is_declared_role role ≡ mark → marks.new.items ≡ marks.old.items ++ marks_of (functions_named es to role words.now)) }
{
    for _word in words {
        marks.push(mark)?;
    }
    Ok(())
}

/// Marks the functions of a `struct`: none is one of a `cons`.
fn mark_struct(marks: &mut Vec<bool>, constructors: &[Constructor]) -> Result<(), NoMemory>
    ensures { OnOk result (marks.new.items ≡ marks.old.items ++ struct_marks (map bare_constructor (map constructor_of constructors.now))) }
{
    mark_constructors(marks, constructors)?;
    mark_projections(marks, constructors)?;
    mark_recognisers(marks, constructors)
}

/// Marks the constructors of a `struct`.
fn mark_constructors(marks: &mut Vec<bool>, constructors: &[Constructor]) -> Result<(), NoMemory>
    ensures { OnOk result (marks.new.items ≡ marks.old.items ++ own_marks (map bare_constructor (map constructor_of constructors.now))) }
{
    for _constructor in constructors {
        marks.push(false)?;
    }
    Ok(())
}

/// Marks the projections of the constructors of a `struct`.
fn mark_projections(marks: &mut Vec<bool>, constructors: &[Constructor]) -> Result<(), NoMemory>
    ensures { OnOk result (marks.new.items ≡ marks.old.items ++ projection_marks (map bare_constructor (map constructor_of constructors.now))) }
{
    for constructor in constructors {
        mark_fields(marks, constructor.fields.as_slice())?;
    }
    Ok(())
}

/// Marks the projections of a constructor.
fn mark_fields(marks: &mut Vec<bool>, fields: &[Field]) -> Result<(), NoMemory>
    ensures { OnOk result (marks.new.items ≡ marks.old.items ++ field_marks (map bare_field (map field_of fields.now))) }
{
    for field in fields {
        mark_option(marks, &field.name)?;
    }
    Ok(())
}

/// Marks the recognisers of the constructors of a `struct`.
fn mark_recognisers(marks: &mut Vec<bool>, constructors: &[Constructor]) -> Result<(), NoMemory>
    ensures { OnOk result (marks.new.items ≡ marks.old.items ++ recogniser_marks (map bare_constructor (map constructor_of constructors.now))) }
{
    for constructor in constructors {
        mark_option(marks, &constructor.recogniser)?;
    }
    Ok(())
}

/// Marks a function, where it has a name.
fn mark_option(marks: &mut Vec<bool>, word: &Option<Word>) -> Result<(), NoMemory>
    ensures { OnOk result (marks.new.items ≡ marks.old.items ++ mark_where (bare_word (some_word word.now))) }
{
    if word.is_some() {
        marks.push(false)?;
    }
    Ok(())
}
