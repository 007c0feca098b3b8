//! Copied declarations.

ghost use Rattle.std.specs.Prelude.{◌∷◌, ◌≢◌, [], map, OnOk};
ghost use Rattle.mcrl2_lexer.specs.declared.kind.Kind.TheVariants as kinds;
ghost use Rattle.mcrl2_syntax.specs.Words.{word_of};
ghost use Rattle.mcrl2_syntax.specs.SortTrees.{plain_sort};
ghost use Rattle.mcrl2_syntax.specs.DataTrees.{plain_data};
ghost use Rattle.mcrl2_syntax.specs.ProcessParts.{var_group_of};
ghost use Rattle.mcrl2_syntax.specs.Declarations.{constructor_of, field_of, plain_decl, some_data, some_word};
ghost use Rattle.lps_printer.specs.CopiedPlaces.{AddsCopied};
ghost use Rattle.lps_printer.specs.TreeTokens.{action_sorts_tokens, arguments_tokens, condition_tokens, constructor_tokens, data_tokens, declaration_tokens, domain_tokens, equals, field_name_tokens, field_tokens, fields_tokens, group_tokens, name_token, names_tokens, recogniser_tokens, signature_tokens, sort_tokens};

use crate::copied_parts::Part;
use crate::copied_tokens::CopiedText;
use data_theory::NoMemory;
use mcrl2_lexer::Kind;
use mcrl2_syntax::{Constructor, DataTree, Decl, EquationTree, Field, SortTree, VarGroup, Word};

impl Part for Word {
    ghost tokens = { λ w rest. name_token (word_of w) ∷ rest };

    fn add(&self, text: &mut CopiedText) -> Result<(), NoMemory> {
        text.name(self)
    }
}

impl Part for SortTree {
    ghost tokens = { λ s rest. sort_tokens (plain_sort s) rest };

    fn add(&self, text: &mut CopiedText) -> Result<(), NoMemory> {
        text.sort(self)
    }
}

impl Part for Field {
    ghost tokens = { λ f rest. field_tokens (field_of f) rest };

    fn add(&self, text: &mut CopiedText) -> Result<(), NoMemory> {
        text.field_name(&self.name)?;
        text.sort(&self.sort)
    }
}

impl Part for Constructor {
    ghost tokens = { λ c rest. constructor_tokens (constructor_of c) rest };

    fn add(&self, text: &mut CopiedText) -> Result<(), NoMemory> {
        text.name(&self.name)?;
        text.fields(self.fields.as_slice())?;
        text.recogniser(&self.recogniser)
    }
}

impl Part for VarGroup {
    ghost tokens = { λ g rest. group_tokens (var_group_of g) rest };

    fn add(&self, text: &mut CopiedText) -> Result<(), NoMemory> {
        text.names(self.names.as_slice())?;
        text.token(Kind::Colon, b":")?;
        text.sort(&self.sort)
    }
}

impl CopiedText {
    /// A name.
    fn name(&mut self, name: &Word) -> Result<(), NoMemory>
        ensures { OnOk result (AddsCopied self.old self.new (λ rest. name_token (word_of name.now) ∷ rest)) }
    {
        self.token(Kind::Identifier, name.bytes.as_slice())
    }

    /// `a, b`
    fn names(&mut self, names: &[Word]) -> Result<(), NoMemory>
        ensures { OnOk result (AddsCopied self.old self.new (names_tokens (map word_of names.now))) }
    {
        self.parts::<Word>(Kind::Comma, b",", names)
    }

    /// `S # T`
    fn domain(&mut self, sorts: &[SortTree]) -> Result<(), NoMemory>
        ensures { OnOk result (AddsCopied self.old self.new (domain_tokens (map plain_sort sorts.now))) }
    {
        self.parts::<SortTree>(Kind::Hash, b"#", sorts)
    }

    /// `p:`, or nothing where there is no name.
    fn field_name(&mut self, name: &Option<Word>) -> Result<(), NoMemory>
        ensures { OnOk result (AddsCopied self.old self.new (field_name_tokens (some_word name.now))) }
    {
        match name {
            Some(name) => {
                self.name(name)?;
                self.token(Kind::Colon, b":")
            }
            None => Ok(()),
        }
    }

    /// `(p: S, T)`, or nothing where there are no fields.
    fn fields(&mut self, fields: &[Field]) -> Result<(), NoMemory>
        ensures { OnOk result (AddsCopied self.old self.new (fields_tokens (map field_of fields.now))) }
    {
        if fields.is_empty() {
            return Ok(());
        }
        self.token(Kind::LeftParen, b"(")?;
        self.parts::<Field>(Kind::Comma, b",", fields)?;
        self.token(Kind::RightParen, b")")
    }

    /// `?r`, or nothing where there is no recogniser.
    fn recogniser(&mut self, recogniser: &Option<Word>) -> Result<(), NoMemory>
        ensures { OnOk result (AddsCopied self.old self.new (recogniser_tokens (some_word recogniser.now))) }
    {
        match recogniser {
            Some(name) => {
                self.token(Kind::Question, b"?")?;
                self.name(name)
            }
            None => Ok(()),
        }
    }

    /// `S # T ->`, or nothing where there are no arguments.
    fn arguments(&mut self, sorts: &[SortTree]) -> Result<(), NoMemory>
        ensures { OnOk result (AddsCopied self.old self.new (arguments_tokens (map plain_sort sorts.now))) }
    {
        if sorts.is_empty() {
            return Ok(());
        }
        self.domain(sorts)?;
        self.token(Kind::Arrow, b"->")
    }

    /// `f, g: S # T -> U`
    fn signature(
        &mut self,
        names: &[Word],
        domain: &[SortTree],
        sort: &SortTree,
    ) -> Result<(), NoMemory>
        ensures { OnOk result (AddsCopied self.old self.new (signature_tokens (map word_of names.now) (map plain_sort domain.now) (plain_sort sort.now))) }
    {
        self.names(names)?;
        self.token(Kind::Colon, b":")?;
        self.arguments(domain)?;
        self.sort(sort)
    }

    /// `c ->`, or nothing where there is no condition.
    fn condition(&mut self, condition: &Option<Box<DataTree>>) -> Result<(), NoMemory>
        ensures { OnOk result (AddsCopied self.old self.new (condition_tokens (some_data condition.now))) }
    {
        match condition {
            Some(condition) => {
                self.data(condition)?;
                self.token(Kind::Arrow, b"->")
            }
            None => Ok(()),
        }
    }

    /// `c -> d = e`
    fn equation(&mut self, equation: &EquationTree) -> Result<(), NoMemory>
        ensures { OnOk result (AddsCopied self.old self.new (λ rest. condition_tokens (some_data equation.now.condition) (data_tokens (plain_data equation.now.left) (equals ∷ data_tokens (plain_data equation.now.right) rest)))) }
    {
        self.condition(&equation.condition)?;
        self.data(&equation.left)?;
        self.token(Kind::Equals, b"=")?;
        self.data(&equation.right)
    }

    /// `: S # T`, or nothing where there are no sorts.
    fn action_sorts(&mut self, sorts: &[SortTree]) -> Result<(), NoMemory>
        ensures { OnOk result (AddsCopied self.old self.new (action_sorts_tokens (map plain_sort sorts.now))) }
    {
        if sorts.is_empty() {
            return Ok(());
        }
        self.token(Kind::Colon, b":")?;
        self.domain(sorts)
    }

    /// A sort with its expression or its constructors, up to these.
    fn definition(&mut self, name: &Word) -> Result<(), NoMemory>
        ensures { OnOk result (AddsCopied self.old self.new (λ rest. name_token (word_of name.now) ∷ equals ∷ rest)) }
    {
        self.name(name)?;
        self.token(Kind::Equals, b"=")
    }

    /// A declaration without its semicolon. Those of processes aren't copied.
    pub(crate) fn declaration(&mut self, decl: &Decl) -> Result<(), NoMemory>
        ensures { OnOk result (AddsCopied self.old self.new (declaration_tokens (plain_decl decl.now))) }
    {
        match decl {
            Decl::Sorts(_, names) => self.names(names.as_slice()),
            Decl::Alias(_, name, sort) => {
                self.definition(name)?;
                self.sort(sort)
            }
            Decl::Struct(_, name, constructors) => {
                self.definition(name)?;
                self.token(Kind::Struct, b"struct")?;
                self.parts::<Constructor>(Kind::Bar, b"|", constructors.as_slice())
            }
            Decl::Cons(_, names, domain, sort) => {
                self.signature(names.as_slice(), domain.as_slice(), sort)
            }
            Decl::Map(_, names, domain, sort) => {
                self.signature(names.as_slice(), domain.as_slice(), sort)
            }
            Decl::Vars(_, groups) => self.parts::<VarGroup>(Kind::Comma, b",", groups.as_slice()),
            Decl::Equation(_, equation) => self.equation(equation),
            Decl::Act(_, names, domain) => {
                self.names(names.as_slice())?;
                self.action_sorts(domain.as_slice())
            }
            Decl::Proc(_, _, _, _) => Ok(()),
            Decl::Init(_, _) => Ok(()),
        }
    }
}
