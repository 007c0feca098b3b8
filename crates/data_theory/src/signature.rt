//! The signature: the sorts, functions, actions and variables of a text.

use crate::actions::{ActEntry, Actions};
use crate::built_ins::add_rows;
use crate::declaring::declare;
use crate::functions::{FunEntry, Functions};
use crate::ids::{ActId, FunId, NameId, SortId, VarId};
use crate::names::Names;
use crate::no_memory::NoMemory;
use crate::sort_names::{SortNames, declare_sort};
use crate::sort_table::{SortKind, SortTable};
use crate::structs::{ConDecl, numbers_from, struct_entries};
use crate::table::{first_table, list_table, sort_rows};
use crate::taken::take_first_names;
use crate::words::Word;
use indexmap::IndexSet;
use std::alloc::Global;
use std::marker::Model;

/// A variable with its sort.
#[derive(Clone, Copy, Debug)]
pub struct Variable {
    pub name: NameId,
    pub sort: SortId,
}

/// The sorts, functions, actions and variables of a text, with its table of texts.
#[derive(Drop)]
pub struct Signature {
    names: Names,
    taken: IndexSet<NameId>,
    sorts: SortTable,
    sort_names: SortNames,
    functions: Functions,
    declared: Vec<FunId>,
    actions: Actions,
    variables: Vec<Variable>,
    alloc: Global,
}

impl Model for Signature {
    ghost use Rattle.data_theory.specs.Signature.{Sig};

    ghost Value = { Sig };

    ghost use Rattle.data_theory.specs.SignatureView.{sig_of};
    ghost use Rattle.data_theory.specs.WholeSignatures.{IsSignature};

    ghost view = { sig_of };

    ghost invariant = { λ s. IsSignature (sig_of s) };
}

impl Signature {
    ghost use Rattle.std.specs.Prelude.{◌≡◌, ◌<◌, ◌+◌, ◌⊎◌, ◌↔◌, ℕ, [], length, IsTrue, IsSome, IfOk, IfSome, OnOk, OnErr, MatchOption, slice_get, Some};
    ghost use Rattle.std.specs.List.{All, Contains};
    ghost use Rattle.data_theory.specs.Keys.{key};
    ghost use Rattle.data_theory.specs.Functions.{HasKey, AreNew, arguments_of, declared_function};
    ghost use Rattle.data_theory.specs.NamedFunctions.{functions_named};
    ghost use Rattle.data_theory.specs.Structs.{cons_of, struct_functions, IsConWithin};
    ghost use Rattle.data_theory.specs.Places.{HaveOnePlace};
    ghost use Rattle.data_theory.specs.Sorts.{kind_of, IsBare, IsListOver, IsAnyListOver};
    ghost use Rattle.data_theory.specs.SortNames.{IsName, IsSortName};
    ghost use Rattle.data_theory.specs.Actions.{actions_of};
    ghost use Rattle.data_theory.specs.Signature.{Sig, IsFun, IsTaken, first_signature, with_taken, with_variable, with_function, with_alias, with_sort, with_list, with_constructors, with_struct, with_struct_sort, IsNewStruct, IsAct, with_action};
    ghost use Rattle.data_theory.specs.Fresh.{IsFreshIn};
    ghost use Rattle.data_theory.specs.IdRoles.{HasNoRole};
    ghost use Rattle.data_theory.specs.WholeSignatures.{IsSignature};

    /// The sorts Bool, Pos, Nat and Int with their built-in functions, over the given names. The words that are no
    /// identifiers and the names of the built-in functions come behind these, and are taken.
    pub fn new(alloc: Global, names: Names) -> Result<Signature, NoMemory>
        ensures { IfOk result (λ signature. signature ≡ first_signature names) }
    {
        let mut names = names;
        let mut taken = IndexSet::new(alloc);
        let mut functions = Functions::new(alloc);
        names.differ();
        let rows = first_table(alloc)?;
        take_first_names(&mut names, &mut taken, &rows)?;
        add_rows(&mut functions, &names, alloc, &rows)?;
        Ok(Signature {
            names,
            taken,
            sorts: SortTable::new(alloc)?,
            sort_names: SortNames::new(alloc),
            functions,
            declared: Vec::new(alloc),
            actions: Actions::new(alloc),
            variables: Vec::new(alloc),
            alloc,
        })
    }

    /// The sort of a function's result.
    pub fn sort_of(&self, fun: FunId) -> SortId
        requires { fun.0 < length self.now.functions }
        ensures { IfSome (slice_get self.now.functions fun.0) (λ f. f.result ≡ result) }
    {
        self.functions.get(fun).to
    }

    /// The sorts of a function's arguments.
    pub fn args_of(&self, fun: FunId) -> &[SortId]
        requires { fun.0 < length self.now.functions }
        ensures { IfSome (slice_get self.now.functions fun.0) (λ f. arguments_of f ≡ result.now) }
    {
        let entry = self.functions.get(fun);
        if entry.is_list_constant {
            return &[];
        }
        entry.sorts.as_slice()
    }

    /// For each field of a `struct`'s constructor, its projection if there is one.
    pub fn projections(&self, cons: FunId) -> &[Option<FunId>]
        requires { cons.0 < length self.now.functions }
        ensures { IfSome (slice_get self.now.functions cons.0) (λ f. f.projections ≡ result.now) }
    {
        self.functions.get(cons).projections.as_slice()
    }

    /// The recogniser of a `struct`'s constructor, if there is one.
    pub fn test(&self, cons: FunId) -> Option<FunId>
        requires { cons.0 < length self.now.functions }
        ensures { IfSome (slice_get self.now.functions cons.0) (λ f. f.test ≡ result) }
    {
        self.functions.get(cons).test
    }

    /// The declared functions, in their order.
    pub fn funs(&self) -> &[FunId]
        ensures { result.now ≡ self.now.declared }
    {
        self.declared.as_slice()
    }

    /// How many functions there are, built-in and declared. Their ids are those below it.
    pub fn fun_count(&self) -> usize
        ensures { result ≡ length self.now.functions }
    {
        self.functions.len()
    }

    /// The id of a function's name.
    pub fn fun_name_id(&self, fun: FunId) -> NameId
        requires { fun.0 < length self.now.functions }
        ensures { IfSome (slice_get self.now.functions fun.0) (λ f. f.name ≡ result) }
    {
        self.functions.get(fun).name
    }

    /// The declared functions of a name, in their order.
    pub fn funs_named(&self, name: NameId) -> &[FunId]
        ensures { result.now ≡ functions_named self.now.functions name }
    {
        self.functions.named(name)
    }

    /// The word of a built-in function; a declared one has none.
    pub fn word_of(&self, fun: FunId) -> Option<Word>
        requires { fun.0 < length self.now.functions }
        ensures { IfSome (slice_get self.now.functions fun.0) (λ f. f.word ≡ result) }
    {
        self.functions.get(fun).word
    }

    /// The name of a function.
    pub fn fun_name(&self, fun: FunId) -> &str
        requires { fun.0 < length self.now.functions }
        ensures { IfSome (slice_get self.now.functions fun.0) (λ f. slice_get self.now.texts f.name.0 ≡ Some result.now) }
    {
        self.names.text(self.functions.get(fun).name)
    }

    /// The function, built-in or declared, with a name and argument sorts. `[]` is found by its list sort.
    pub fn fun(&self, name: &str, args: &[SortId]) -> Option<FunId>
        ensures { MatchOption result ((k : ℕ) → IsFun self.now name.now args.now k → ⊥) (λ fun. IsFun self.now name.now args.now fun.0) }
    {
        let name = self.names.find(name)?;
        self.functions.find(name, args)
    }

    /// What a sort is.
    pub fn kind(&self, sort: SortId) -> &SortKind
        requires { sort.0 < length self.now.sorts }
        ensures kind { IfSome (slice_get self.now.sorts sort.0) (λ s. s.kind ≡ kind_of result.now) }
        ensures stands { IsSignature self.now }
    {
        &self.sorts.get(sort).kind
    }

    /// The first name of a declared sort.
    pub fn sort_name(&self, sort: SortId) -> NameId
        requires within { sort.0 < length self.now.sorts }
        requires declared { IfSome (slice_get self.now.sorts sort.0) (λ s. IsSome s.name) }
        ensures { IfSome (slice_get self.now.sorts sort.0) (λ s. s.name ≡ Some result) }
    {
        self.sorts.get(sort).name.unwrap()
    }

    /// The sort with a name or alias.
    pub fn sort(&self, name: NameId) -> Option<SortId>
        ensures { MatchOption result (¬ (IsName self.now.sort_names name)) (λ sort. IsSortName self.now.sort_names name sort) }
    {
        self.sort_names.find(name)
    }

    /// The list sort over a sort.
    pub fn list_of(&self, element: SortId) -> Option<SortId>
        requires { element.0 < length self.now.sorts }
        ensures { MatchOption result (¬ (IsAnyListOver self.now.sorts element)) (λ list. IsListOver self.now.sorts element list) }
    {
        self.sorts.list_of(element)
    }

    /// The id that the next sort gets.
    pub fn next_sort(&self) -> SortId
        ensures number { result.0 ≡ length self.now.sorts }
        ensures stands { IsSignature self.now }
    {
        SortId(self.sorts.len())
    }

    /// The actions, in the order of their numbers.
    pub fn acts(&self) -> &[ActEntry]
        ensures { actions_of result.now ≡ self.now.actions }
    {
        self.actions.as_slice()
    }

    /// The action with a name and sorts.
    pub fn act(&self, name: NameId, sorts: &[SortId]) -> Option<ActId>
        ensures { MatchOption result (¬ (Contains self.now.actions (key name sorts.now))) (λ act. slice_get self.now.actions act.0 ≡ Some (key name sorts.now)) }
    {
        self.actions.find(name, sorts)
    }

    /// The name of a variable.
    pub fn var_name(&self, var: VarId) -> NameId
        requires { var.0 < length self.now.variables }
        ensures { IfSome (slice_get self.now.variables var.0) (λ v. v.name ≡ result) }
    {
        self.variables[var.0].name
    }

    /// The sort of a variable.
    pub fn var_sort(&self, var: VarId) -> SortId
        requires { var.0 < length self.now.variables }
        ensures { IfSome (slice_get self.now.variables var.0) (λ v. v.sort ≡ result) }
    {
        self.variables[var.0].sort
    }

    /// The table of texts.
    pub fn names(&self) -> &Names
        ensures texts { result.now ≡ self.now.texts }
        ensures stands { IsSignature self.now }
    {
        &self.names
    }

    /// Gives the table of texts up.
    pub fn into_names(self) -> Names
        ensures { result ≡ self.texts }
    {
        let Signature {
            names,
            taken: _,
            sorts: _,
            sort_names: _,
            functions: _,
            declared: _,
            actions: _,
            variables: _,
            alloc: _,
        } = self;
        names
    }

    /// Adds a declared sort without constructors, with the functions over it. Its name is taken from then on.
    pub fn add_sort(&mut self, name: NameId) -> Result<SortId, NoMemory>
        requires name { name.0 < length self.old.texts }
        requires absent { ¬ (IsName self.old.sort_names name) }
        ensures number { IfOk result (λ sort. sort.0 ≡ length self.old.sorts) }
        ensures added { OnOk result (self.new ≡ with_sort self.old name) }
        ensures unchanged { OnErr result (self.new ≡ self.old) }
    {
        let count = self.functions.len();
        let rows = sort_rows(SortId(self.sorts.len()));
        self.taken.reserve(1)?;
        add_rows(&mut self.functions, &self.names, self.alloc, &rows)?;
        let Ok(sort) = declare_sort(&mut self.sorts, &mut self.sort_names, name) else {
            self.functions.truncate(count);
            return Err(NoMemory);
        };
        let _ = self.taken.insert(name);
        Ok(sort)
    }

    /// The list sort over a sort, which is added with the functions over it where it isn't there.
    pub fn add_list(&mut self, element: SortId) -> Result<SortId, NoMemory>
        requires { element.0 < length self.old.sorts }
        ensures list { IfOk result (λ list. IsListOver self.new.sorts element list) }
        ensures kept { OnOk result (IsAnyListOver self.old.sorts element → self.new ≡ self.old) }
        ensures added { OnOk result (¬ (IsAnyListOver self.old.sorts element) → self.new ≡ with_list self.old element) }
        ensures unchanged { OnErr result (self.new ≡ self.old) }
    {
        if let Some(list) = self.sorts.list_of(element) {
            return Ok(list);
        }
        let count = self.functions.len();
        let rows = list_table(self.alloc, element, SortId(self.sorts.len()))?;
        add_rows(&mut self.functions, &self.names, self.alloc, &rows)?;
        let Ok(list) = self.sorts.push_list(element) else {
            self.functions.truncate(count);
            return Err(NoMemory);
        };
        Ok(list)
    }

    /// Gives a declared sort without constructors its constructors, which are declared functions into it that are mappings.
    pub fn set_cons(&mut self, sort: SortId, cons: Vec<FunId>)
        requires bare { IsBare self.old.sorts sort }
        requires declared { All (Contains self.old.declared) cons.items }
        requires results { All (λ fun. IfSome (slice_get self.old.functions fun.0) (λ f. f.result ≡ sort)) cons.items }
        requires different { HaveOnePlace cons.items }
        requires free { All (HasNoRole self.old) cons.items }
        ensures { self.new ≡ with_constructors self.old sort cons.items }
    {
        self.sorts.set_kind(sort, SortKind::Cons(cons));
    }

    /// Gives a declared sort without constructors those of a `struct`, with their projections and recognisers. The names
    /// of all these are taken from then on.
    pub fn set_struct(&mut self, sort: SortId, cons: Vec<ConDecl>) -> Result<(), NoMemory>
        requires bare { IsBare self.old.sorts sort }
        requires within { All (IsConWithin (length self.old.texts) (length self.old.sorts)) (cons_of cons.items) }
        requires new { AreNew self.old.functions (struct_functions sort (length self.old.functions) (cons_of cons.items)) }
        ensures set { OnOk result (self.new ≡ with_struct self.old sort (cons_of cons.items)) }
        ensures unchanged { OnErr result (self.new ≡ self.old) }
    {
        self.functions.reserve(cons.len())?;
        let numbers = numbers_from(self.alloc, self.functions.len(), cons.len())?;
        let entries = struct_entries(&mut self.functions, self.alloc, sort, cons.as_slice())?;
        declare(
            &mut self.functions,
            &mut self.declared,
            &mut self.taken,
            self.alloc,
            entries,
        )?;
        self.sorts.set_kind(sort, SortKind::Struct(numbers));
        Ok(())
    }

    /// Adds a sort that is a `struct`, whose fields may be of this sort. Its number is that of `next_sort`.
    pub fn add_struct(&mut self, name: NameId, cons: Vec<ConDecl>) -> Result<SortId, NoMemory>
        requires name { name.0 < length self.old.texts }
        requires absent { ¬ (IsName self.old.sort_names name) }
        requires within { All (IsConWithin (length self.old.texts) (length self.old.sorts + 1)) (cons_of cons.items) }
        requires new { IsNewStruct self.old name (cons_of cons.items) }
        ensures number { IfOk result (λ sort. sort.0 ≡ length self.old.sorts) }
        ensures added { OnOk result (self.new ≡ with_struct_sort self.old name (cons_of cons.items)) }
        ensures unchanged { OnErr result (self.new ≡ self.old) }
    {
        let functions = self.functions.len();
        let sorts = self.sorts.len();
        let names = self.sort_names.len();
        let taken = self.taken.len();
        let sort = self.add_sort(name)?;
        if self.set_struct(sort, cons).is_err() {
            self.functions.truncate(functions);
            self.sorts.truncate(sorts);
            self.sort_names.truncate(names);
            self.taken.truncate(taken);
            return Err(NoMemory);
        }
        Ok(sort)
    }

    /// Adds an action that isn't there.
    pub fn add_act(&mut self, name: &str, sorts: Vec<SortId>) -> Result<ActId, NoMemory>
        requires sorts { All (λ sort. sort.0 < length self.old.sorts) sorts.items }
        requires absent { ¬ (IsAct self.old name.now sorts.items) }
        ensures number { IfOk result (λ act. act.0 ≡ length self.old.actions) }
        ensures added { OnOk result (self.new ≡ with_action self.old name.now sorts.items) }
        ensures unchanged { OnErr result (self.new ≡ self.old) }
    {
        let count = self.names.len();
        let id = self.names.enter(name)?;
        let Ok(act) = self.actions.push(id, sorts) else {
            self.names.truncate(count);
            return Err(NoMemory);
        };
        Ok(act)
    }

    /// Adds a variable of any name and sort.
    pub fn add_var(&mut self, name: NameId, sort: SortId) -> Result<VarId, NoMemory>
        requires name { name.0 < length self.old.texts }
        requires sort { sort.0 < length self.old.sorts }
        ensures number { IfOk result (λ var. var.0 ≡ length self.old.variables) }
        ensures added { IfOk result (λ _. self.new ≡ with_variable self.old (record { name = name; sort = sort })) }
        ensures unchanged { OnErr result (self.new ≡ self.old) }
    {
        let var = VarId(self.variables.len());
        self.variables.push(Variable { name, sort })?;
        Ok(var)
    }

    /// Adds a function that isn't there. Its name is taken from then on.
    pub fn add_fun(
        &mut self,
        name: NameId,
        args: Vec<SortId>,
        to: SortId,
    ) -> Result<FunId, NoMemory>
        requires name { name.0 < length self.old.texts }
        requires sorts { All (λ sort. sort.0 < length self.old.sorts) args.items }
        requires to { to.0 < length self.old.sorts }
        requires absent { (k : ℕ) → HasKey self.old.functions (key name args.items) k → ⊥ }
        ensures number { IfOk result (λ fun. fun.0 ≡ length self.old.functions) }
        ensures added { IfOk result (λ _. self.new ≡ with_function self.old (declared_function name args.items to)) }
        ensures unchanged { OnErr result (self.new ≡ self.old) }
    {
        self.taken.reserve(1)?;
        self.declared.reserve(1)?;
        let fun = self.functions.push(FunEntry {
            name,
            sorts: args,
            to,
            word: None,
            is_list_constant: false,
            projections: Vec::new(self.alloc),
            test: None,
        })?;
        let _ = self.declared.push(fun);
        let _ = self.taken.insert(name);
        Ok(fun)
    }

    /// Adds a function without arguments that isn't there.
    pub fn add_map(&mut self, name: NameId, sort: SortId) -> Result<FunId, NoMemory>
        requires name { name.0 < length self.old.texts }
        requires to { sort.0 < length self.old.sorts }
        requires absent { (k : ℕ) → HasKey self.old.functions (key name []) k → ⊥ }
        ensures number { IfOk result (λ fun. fun.0 ≡ length self.old.functions) }
        ensures added { IfOk result (λ _. self.new ≡ with_function self.old (declared_function name [] sort)) }
        ensures unchanged { OnErr result (self.new ≡ self.old) }
    {
        self.add_fun(name, Vec::new(self.alloc), sort)
    }

    /// Adds a further name of a sort. The name is taken from then on.
    pub fn add_alias(&mut self, name: NameId, sort: SortId) -> Result<(), NoMemory>
        requires name { name.0 < length self.old.texts }
        requires sort { sort.0 < length self.old.sorts }
        requires absent { ¬ (IsName self.old.sort_names name) }
        ensures added { OnOk result (self.new ≡ with_alias self.old name sort) }
        ensures unchanged { OnErr result (self.new ≡ self.old) }
    {
        self.taken.reserve(1)?;
        self.sort_names.push(name, sort)?;
        let _ = self.taken.insert(name);
        Ok(())
    }

    /// Whether a text is taken.
    pub fn is_taken(&self, text: &str) -> bool
        ensures { IsTrue result ↔ IsTaken self.now text.now }
    {
        match self.names.find(text) {
            Some(name) => self.taken.contains(&name),
            None => false,
        }
    }

    /// Enters a text, whose name is taken from then on.
    pub fn take_name(&mut self, text: &str) -> Result<NameId, NoMemory>
        ensures named { IfOk result (λ name. slice_get self.new.texts name.0 ≡ Some text.now) }
        ensures taken { OnOk result (self.new ≡ with_taken self.old text.now) }
        ensures unchanged { OnErr result (self.new ≡ self.old) }
    {
        self.taken.reserve(1)?;
        let name = self.names.enter(text)?;
        let _ = self.taken.insert(name);
        Ok(name)
    }

    /// Takes the first of a base, the base with `_1`, with `_2` and so on behind it that isn't taken.
    pub fn fresh(&mut self, base: &str) -> Result<NameId, NoMemory>
        ensures fresh { IfOk result (λ name. IsFreshIn self.old base.now name self.new) }
        ensures unchanged { OnErr result (self.new ≡ self.old) }
    {
        let alloc = self.alloc;
        // Among one more than the taken names one is free.
        for number in 0..self.taken.len() + 1 {
            let text = numbered(alloc, base, number)?;
            if !self.is_taken(text.as_str()) {
                return self.take_name(text.as_str());
            }
        }
        unreachable!()
    }
}

ghost use Rattle.std.specs.Prelude.{◌≡◌, IfOk};
ghost use Rattle.std.specs.String.{string_bytes};
ghost use Rattle.data_theory.specs.Fresh.{candidate};

/// The base alone at 0, and otherwise with `_` and the number behind it.
fn numbered(alloc: Global, base: &str, number: usize) -> Result<String, NoMemory>
    ensures { IfOk result (λ text. string_bytes text ≡ candidate base.now number) }
{
    if number == 0 {
        return Ok(String::from_str(alloc, base)?);
    }
    Ok(format!(in alloc; "{base}_{number}")?)
}
