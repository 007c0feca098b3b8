//! Declarations, sections and specifications.

ghost use Rattle.std.specs.Prelude.{◌≡◌, Some, None, IfOk, map};
ghost use Rattle.mcrl2_syntax.specs.Words.{word_of};
ghost use Rattle.mcrl2_syntax.specs.SortTrees.{plain_sort};
ghost use Rattle.mcrl2_syntax.specs.DataTrees.{plain_data};
ghost use Rattle.mcrl2_syntax.specs.ProcessParts.{var_group_of};
ghost use Rattle.mcrl2_syntax.specs.ProcessTrees.{plain_process};
ghost use Rattle.mcrl2_syntax.specs.Declarations.{some_word, some_data, field_of, constructor_of, sorts_decl, alias_decl, struct_decl, cons_decl, map_decl, vars_decl, equation_decl, act_decl, proc_decl, init_decl, plain_decl, decl_span, section_of, spec_of};

use crate::data_tree::DataTree;
use crate::process_tree::{ProcTree, VarGroup};
use crate::sort_tree::SortTree;
use crate::word::{Span, Word};
use crate::word_list::WordList;
use std::alloc::{AllocFailed, Global};

/// The word that begins a section.
#[derive(Clone, Copy, Debug, PartialEq, Eq)]
pub enum SectionWord {
    Sort,
    Cons,
    Map,
    Var,
    Eqn,
    Act,
    Proc,
    Init,
}

/// An argument of a constructor, as `p: S` or `S`.
#[derive(Debug, Drop)]
pub struct Field {
    /// Where it stands.
    pub span: Span,
    /// The name.
    pub name: Option<Word>,
    /// The sort.
    pub sort: SortTree,
}

impl Field {
    /// An argument of a constructor, as `p: S` or `S`.
    pub fn new(span: Span, name: Option<Word>, sort: SortTree) -> Field
        ensures { field_of result ≡ record { span = span; name = some_word name; sort = plain_sort sort } }
    {
        Field { span, name, sort }
    }
}

/// A constructor of a structured sort, as `c(p: S)?r`.
#[derive(Debug, Drop)]
pub struct Constructor {
    /// Where it stands.
    pub span: Span,
    /// The name.
    pub name: Word,
    /// The arguments.
    pub fields: Vec<Field>,
    /// The name of its recogniser.
    pub recogniser: Option<Word>,
}

impl Constructor {
    /// A constructor of a structured sort, as `c(p: S)?r`.
    pub fn new(span: Span, name: Word, fields: Vec<Field>, recogniser: Option<Word>) -> Constructor
        ensures { constructor_of result ≡ record { span = span; name = word_of name; fields = map field_of fields.items; recogniser = some_word recogniser } }
    {
        Constructor {
            span,
            name,
            fields,
            recogniser,
        }
    }
}

/// An equation, as `c -> d = e` or `d = e`.
#[derive(Debug, Drop)]
pub struct EquationTree {
    /// Under which condition it holds.
    pub condition: Option<Box<DataTree>>,
    /// Its left side.
    pub left: DataTree,
    /// Its right side.
    pub right: DataTree,
}

/// A declaration, without the semicolon behind it.
///
/// Process terms and sorts stand in a box, so that each declaration of a long list takes little. An equation stands in none, and a
/// name alone neither, so that a long list of them takes no memory but its own.
#[derive(Debug, Drop)]
pub enum Decl {
    /// `sort S, T;`
    Sorts(Span, WordList),
    /// `sort S = List(T);`
    Alias(Span, Word, Box<SortTree>),
    /// `sort S = struct c(p: T)?r | d;`
    Struct(Span, Word, Vec<Constructor>),
    /// `cons c, d: S # T -> U;`; without an arrow the domain is empty.
    Cons(Span, WordList, Vec<SortTree>, Box<SortTree>),
    /// `map f, g: S # T -> U;`; without an arrow the domain is empty.
    Map(Span, WordList, Vec<SortTree>, Box<SortTree>),
    /// `var x, y: S, z: T;`
    Vars(Span, Vec<VarGroup>),
    /// `eqn c -> d = e;` or `eqn d = e;`
    Equation(Span, EquationTree),
    /// `act a, b: S # T;`; without a colon the domain is empty.
    Act(Span, WordList, Vec<SortTree>),
    /// `proc P(x: S) = p;`
    Proc(Span, Word, Vec<VarGroup>, Box<ProcTree>),
    /// `init p;`
    Init(Span, Box<ProcTree>),
}

impl Decl {
    /// Names of sorts.
    pub fn sorts_at(span: Span, names: WordList) -> Decl
        ensures { plain_decl result ≡ sorts_decl span (map word_of names.items) }
    {
        Decl::Sorts(span, names)
    }

    /// A name for a sort expression.
    ///
    /// # Errors
    ///
    /// The sort expression again, where no memory is left.
    pub fn alias_at(
        alloc: Global,
        span: Span,
        name: Word,
        sort: SortTree,
    ) -> Result<Decl, AllocFailed<SortTree>>
        ensures { IfOk result (λ tree. plain_decl tree ≡ alias_decl span (word_of name) (plain_sort sort)) }
    {
        let sort = Box::new(alloc, sort)?;
        Ok(Decl::Alias(span, name, sort))
    }

    /// A structured sort.
    pub fn struct_at(span: Span, name: Word, constructors: Vec<Constructor>) -> Decl
        ensures { plain_decl result ≡ struct_decl span (word_of name) (map constructor_of constructors.items) }
    {
        Decl::Struct(span, name, constructors)
    }

    /// Constructors of a sort.
    ///
    /// # Errors
    ///
    /// The sort again, where no memory is left.
    pub fn cons_at(
        alloc: Global,
        span: Span,
        names: WordList,
        domain: Vec<SortTree>,
        sort: SortTree,
    ) -> Result<Decl, AllocFailed<SortTree>>
        ensures { IfOk result (λ tree. plain_decl tree ≡ cons_decl span (map word_of names.items) (map plain_sort domain.items) (plain_sort sort)) }
    {
        let sort = Box::new(alloc, sort)?;
        Ok(Decl::Cons(span, names, domain, sort))
    }

    /// Functions.
    ///
    /// # Errors
    ///
    /// The sort again, where no memory is left.
    pub fn map_at(
        alloc: Global,
        span: Span,
        names: WordList,
        domain: Vec<SortTree>,
        sort: SortTree,
    ) -> Result<Decl, AllocFailed<SortTree>>
        ensures { IfOk result (λ tree. plain_decl tree ≡ map_decl span (map word_of names.items) (map plain_sort domain.items) (plain_sort sort)) }
    {
        let sort = Box::new(alloc, sort)?;
        Ok(Decl::Map(span, names, domain, sort))
    }

    /// Variables of equations.
    pub fn vars_at(span: Span, groups: Vec<VarGroup>) -> Decl
        ensures { plain_decl result ≡ vars_decl span (map var_group_of groups.items) }
    {
        Decl::Vars(span, groups)
    }

    /// An equation, with its condition.
    pub fn equation_at(
        span: Span,
        condition: Option<Box<DataTree>>,
        left: DataTree,
        right: DataTree,
    ) -> Decl
        ensures { plain_decl result ≡ equation_decl span (some_data condition) (plain_data left) (plain_data right) }
    {
        let equation = EquationTree {
            condition,
            left,
            right,
        };
        Decl::Equation(span, equation)
    }

    /// Actions.
    pub fn act_at(span: Span, names: WordList, domain: Vec<SortTree>) -> Decl
        ensures { plain_decl result ≡ act_decl span (map word_of names.items) (map plain_sort domain.items) }
    {
        Decl::Act(span, names, domain)
    }

    /// A process definition.
    pub fn proc_at(span: Span, name: Word, parameters: Vec<VarGroup>, body: Box<ProcTree>) -> Decl
        ensures { plain_decl result ≡ proc_decl span (word_of name) (map var_group_of parameters.items) (plain_process body.value) }
    {
        Decl::Proc(span, name, parameters, body)
    }

    /// The initial process.
    pub fn init_at(span: Span, body: Box<ProcTree>) -> Decl
        ensures { plain_decl result ≡ init_decl span (plain_process body.value) }
    {
        Decl::Init(span, body)
    }

    /// Where the declaration stands.
    pub fn span(&self) -> Span
        ensures { result ≡ decl_span (plain_decl self.now) }
    {
        match self {
            Decl::Sorts(span, _) => *span,
            Decl::Alias(span, _, _) => *span,
            Decl::Struct(span, _, _) => *span,
            Decl::Cons(span, _, _, _) => *span,
            Decl::Map(span, _, _, _) => *span,
            Decl::Vars(span, _) => *span,
            Decl::Equation(span, _) => *span,
            Decl::Act(span, _, _) => *span,
            Decl::Proc(span, _, _, _) => *span,
            Decl::Init(span, _) => *span,
        }
    }
}

/// A section: its word, where that stands, and its declarations.
#[derive(Debug, Drop)]
pub struct Section {
    /// Where it stands.
    pub span: Span,
    /// Which section it is.
    pub word: SectionWord,
    /// Its declarations, in the order of the text.
    pub declarations: Vec<Decl>,
}

impl Section {
    /// A section: its word, where that stands, and its declarations.
    pub fn new(span: Span, word: SectionWord, declarations: Vec<Decl>) -> Section
        ensures { section_of result ≡ record { span = span; word = word; declarations = map plain_decl declarations.items } }
    {
        Section {
            span,
            word,
            declarations,
        }
    }
}

/// A specification.
#[derive(Debug, Drop)]
pub struct Spec {
    /// The sections, in the order of the text.
    pub sections: Vec<Section>,
}

impl Spec {
    /// A specification.
    pub fn new(sections: Vec<Section>) -> Spec
        ensures { spec_of result ≡ record { sections = map section_of sections.items } }
    {
        Spec { sections }
    }
}
