//! The declared functions in a signature.

ghost use Rattle.std.specs.Prelude.{◌≡◌, ◌∷◌, [], List, map, IfOk, OnOk};
ghost use Rattle.std.specs.List.{AllByRecursion};
ghost use Rattle.mcrl2_syntax.specs.SortTrees.{plain_sort};
ghost use Rattle.mcrl2_syntax.specs.Declarations.{field_of, constructor_of, some_word};
ghost use Rattle.data_theory.specs.Structs.{con_of, cons_of};
ghost use Rattle.sort_table.specs.BareSorts.{SortExpression, bare_sort};
ghost use Rattle.sort_table.specs.BareDeclarations.{struct, bare_word, bare_field, bare_constructor};
ghost use Rattle.sort_table.specs.Vocabularies.{EachPair};
ghost use Rattle.sort_table.specs.IndexedKinds.{kinds_of_index};
ghost use Rattle.sort_table.specs.NamedSorts.{IsNamed, ReadsSorts};
ghost use Rattle.sort_table.specs.EnteredFunctions.{HaveSortsOf, IsReadable, IsKnownName, IsKnownOption, IsReadyField, IsReadyConstructor, IsNameId, IsOptionalId, IsFieldOf, IsConOf, HasSortOf};
ghost use Rattle.sort_table.specs.TextFunctions.{TextRole, functions_by, functions_in};
ghost use Rattle.sort_table.specs.DeclarationTrees.{declaration_of, declarations_under};
ghost use Rattle.sort_table.specs.FunctionStates.{AddsFunctions, AddsDeclarations, AddsStruct, AreBare, CanEnter, HasBareSort, IsReadyDeclaration, StructsDiffer, IsPlain};
ghost use Rattle.sort_table.specs.NamedFunctions.{names_of, functions_named, SomeCanEnter};

use crate::sort_declaring::SortNames;
use data_theory::{ConDecl, NameId, NoMemory, Signature, SortId};
use mcrl2_syntax::{Constructor, Decl, Field, SortTree, Word};
use std::alloc::Global;

/// The id of a name that a signature has taken.
pub(crate) fn name_id(signature: &Signature, bytes: &[u8]) -> NameId
    requires { IsKnownName signature.now bytes.now }
    ensures { IsNameId signature.now bytes.now result }
{
    let Ok(text) = str::from_utf8(bytes) else {
        unreachable!();
    };
    let Some(name) = signature.names().find(text) else {
        unreachable!();
    };
    name
}

/// The id of a name, where there is one.
fn optional_id(signature: &Signature, word: &Option<Word>) -> Option<NameId>
    requires { IsKnownOption signature.now (bare_word (some_word word.now)) }
    ensures { IsOptionalId signature.now (bare_word (some_word word.now)) result }
{
    match word {
        None => None,
        Some(word) => Some(name_id(signature, word.bytes.as_slice())),
    }
}

/// A copy of these sorts.
pub(crate) fn copied(alloc: Global, sorts: &[SortId]) -> Result<Vec<SortId>, NoMemory>
    ensures { IfOk result (λ copy. copy.items ≡ sorts.now) }
{
    let mut copy = Vec::new(alloc);
    for sort in sorts {
        copy.push(*sort)?;
    }
    Ok(copy)
}

/// Adds functions of these names with given sorts, in their order.
fn add_each(
    alloc: Global,
    signature: &mut Signature,
    words: &[Word],
    args: &[SortId],
    to: SortId,
) -> Result<(), NoMemory>
    requires known { AllByRecursion (IsKnownName signature.old) (names_of words.now) }
    requires next { SomeCanEnter signature.old words.now args.now to }
    ensures sorts { OnOk result (signature.new.sorts ≡ signature.old.sorts) }
    ensures entered { OnOk result ((es : List SortExpression) (e : SortExpression) (r : TextRole) → IsPlain r → HaveSortsOf signature.old es args.now → HasSortOf signature.old e to → AddsFunctions (functions_named es e r words.now) signature.old signature.new) }
{
    for word in words {
        let _ = signature.names();
        let name = name_id(signature, word.bytes.as_slice());
        signature.add_fun(name, copied(alloc, args)?, to)?;
    }
    Ok(())
}

impl<'a> SortNames<'a> {
    /// The arguments of a constructor, with the sorts of their expressions.
    fn fields(
        &self,
        alloc: Global,
        signature: &Signature,
        fields: &'a [Field],
    ) -> Result<Vec<(Option<NameId>, SortId)>, NoMemory>
        requires reads { ReadsSorts (kinds_of_index self.now.index) self.now.ids.items signature.now }
        requires ready { AllByRecursion (IsReadyField signature.now) (map bare_field (map field_of fields.now)) }
        ensures { IfOk result (λ made. EachPair (IsFieldOf signature.now) (map bare_field (map field_of fields.now)) made.items) }
    {
        let mut made = Vec::new(alloc);
        for field in fields {
            let name = optional_id(signature, &field.name);
            let sort = self.sort_there(signature, &field.sort);
            made.push((name, sort))?;
        }
        Ok(made)
    }

    /// A constructor of a `struct`.
    fn constructor(
        &self,
        alloc: Global,
        signature: &Signature,
        constructor: &'a Constructor,
    ) -> Result<ConDecl, NoMemory>
        requires reads { ReadsSorts (kinds_of_index self.now.index) self.now.ids.items signature.now }
        requires ready { IsReadyConstructor signature.now (bare_constructor (constructor_of constructor.now)) }
        ensures { IfOk result (λ made. IsConOf signature.now (bare_constructor (constructor_of constructor.now)) (con_of made)) }
    {
        let name = name_id(signature, constructor.name.bytes.as_slice());
        let test = optional_id(signature, &constructor.recogniser);
        let fields = self.fields(alloc, signature, constructor.fields.as_slice())?;
        Ok(ConDecl { name, fields, test })
    }

    /// The constructors of a `struct`.
    ///
    /// # Errors
    ///
    /// `NoMemory` where there is none for them.
    pub(crate) fn struct_constructors(
        &self,
        alloc: Global,
        signature: &Signature,
        constructors: &'a [Constructor],
    ) -> Result<Vec<ConDecl>, NoMemory>
        requires reads { ReadsSorts (kinds_of_index self.now.index) self.now.ids.items signature.now }
        requires ready { AllByRecursion (IsReadyConstructor signature.now) (map bare_constructor (map constructor_of constructors.now)) }
        ensures { IfOk result (λ made. EachPair (IsConOf signature.now) (map bare_constructor (map constructor_of constructors.now)) (cons_of made.items)) }
    {
        let mut made = Vec::new(alloc);
        for constructor in constructors {
            made.push(self.constructor(alloc, signature, constructor)?)?;
        }
        Ok(made)
    }

    /// Adds the functions of a `cons` or a `map`, in their order.
    fn add_functions(
        &self,
        alloc: Global,
        signature: &mut Signature,
        words: &'a [Word],
        domain: &'a [SortTree],
        sort: &'a SortTree,
    ) -> Result<(), NoMemory>
        requires reads { ReadsSorts (kinds_of_index self.now.index) self.now.ids.items signature.old }
        requires domain { AllByRecursion (IsReadable signature.old) (map bare_sort (map plain_sort domain.now)) }
        requires sort { IsReadable signature.old (bare_sort (plain_sort sort.now)) }
        requires known { AllByRecursion (IsKnownName signature.old) (names_of words.now) }
        requires next { (r : TextRole) × IsPlain r × CanEnter signature.old (functions_named (map bare_sort (map plain_sort domain.now)) (bare_sort (plain_sort sort.now)) r words.now) }
        ensures entered { OnOk result ((r : TextRole) → IsPlain r → AddsFunctions (functions_named (map bare_sort (map plain_sort domain.now)) (bare_sort (plain_sort sort.now)) r words.now) signature.old signature.new) }
        ensures sorts { OnOk result (signature.new.sorts ≡ signature.old.sorts) }
    {
        let _ = signature.names();
        let args = self.sorts_of_trees(alloc, signature, domain)?;
        let to = self.sort_there(signature, sort);
        add_each(alloc, signature, words, args.as_slice(), to)
    }

    /// Gives the sort of a `struct` its constructors, with their projections and recognisers.
    fn add_struct(
        &self,
        alloc: Global,
        signature: &mut Signature,
        name: &'a [u8],
        constructors: &'a [Constructor],
    ) -> Result<(), NoMemory>
        requires reads { ReadsSorts (kinds_of_index self.now.index) self.now.ids.items signature.old }
        requires named { IsNamed signature.old name.now }
        requires bare { HasBareSort signature.old name.now }
        requires ready { AllByRecursion (IsReadyConstructor signature.old) (map bare_constructor (map constructor_of constructors.now)) }
        requires next { CanEnter signature.old (functions_by (struct name.now (map bare_constructor (map constructor_of constructors.now)))) }
        ensures entered { OnOk result (AddsStruct name.now (map bare_constructor (map constructor_of constructors.now)) signature.old signature.new) }
    {
        let _ = signature.names();
        let sort = self.sort_named(signature, name);
        let made = self.struct_constructors(alloc, signature, constructors)?;
        signature.set_struct(sort, made)
    }

    /// Adds the functions that a declaration declares, in their order.
    fn add_declaration(
        &self,
        alloc: Global,
        signature: &mut Signature,
        declaration: &'a Decl,
    ) -> Result<(), NoMemory>
        requires reads { ReadsSorts (kinds_of_index self.now.index) self.now.ids.items signature.old }
        requires ready { IsReadyDeclaration signature.old (declaration_of declaration.now) }
        requires bare { AreBare signature.old (declaration_of declaration.now ∷ []) }
        requires next { CanEnter signature.old (functions_by (declaration_of declaration.now)) }
        ensures { OnOk result (AddsDeclarations (declaration_of declaration.now ∷ []) signature.old signature.new) }
    {
        match declaration {
            Decl::Struct(_, name, constructors) => self.add_struct(
                alloc,
                signature,
                name.bytes.as_slice(),
                constructors.as_slice(),
            ),
            Decl::Cons(_, words, domain, sort) => {
                self.add_functions(alloc, signature, words.as_slice(), domain.as_slice(), sort)
            }
            Decl::Map(_, words, domain, sort) => {
                self.add_functions(alloc, signature, words.as_slice(), domain.as_slice(), sort)
            }
            _ => Ok(()),
        }
    }

    /// Adds the functions that declarations declare, in their order. Structs get their constructors; those of `cons` are mappings.
    ///
    /// # Errors
    ///
    /// `NoMemory` where there is none for them.
    pub(crate) fn add_declared_functions(
        &self,
        alloc: Global,
        signature: &mut Signature,
        declarations: &[&'a Decl],
    ) -> Result<(), NoMemory>
        requires reads { ReadsSorts (kinds_of_index self.now.index) self.now.ids.items signature.old }
        requires ready { AllByRecursion (IsReadyDeclaration signature.old) (declarations_under declarations.now) }
        requires bare { AreBare signature.old (declarations_under declarations.now) }
        requires differ { StructsDiffer (declarations_under declarations.now) signature.old }
        requires next { CanEnter signature.old (functions_in (declarations_under declarations.now)) }
        ensures { OnOk result (AddsDeclarations (declarations_under declarations.now) signature.old signature.new) }
    {
        let _ = signature.names();
        for declaration in declarations {
            self.add_declaration(alloc, signature, declaration)?;
            let _ = signature.names();
        }
        Ok(())
    }
}
