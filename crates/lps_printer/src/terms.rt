//! Terms, by the place where they stand.

ghost use Rattle.std.specs.Prelude.{◌≡◌, ◌≤◌, ◌+◌, ℕ, List, option_map, OnOk, IfSome, true, false};
ghost use Rattle.std.specs.List.{All};
ghost use Rattle.data_theory.specs.declared.words.ListWord.TheVariants as lists;
ghost use Rattle.data_theory.specs.declared.words.Word.TheVariants as words;
ghost use Rattle.mcrl2_syntax.specs.declared.data_tree.InfixSign.TheVariants.{Prepend};
ghost use Rattle.lps_core.specs.Fitting.{IsVariable};
ghost use Rattle.lps_printer.specs.Adding.{Adds};
ghost use Rattle.lps_printer.specs.Pieces.{Piece};
ghost use Rattle.lps_printer.specs.DataLayout.{operand, print, print_more, right_needs, space};
ghost use Rattle.lps_printer.specs.PrintedExpressions.{binary, listed, none};
ghost use Rattle.data_theory.specs.Terms.{Symbol, application};
ghost use Rattle.lps_printer.specs.WrittenTerms.{an_element, before, between, build, call, manner, shape};
ghost use Rattle.lps_printer.specs.WordForms.{is_of_cast, is_of_element, is_of_empty, word_class, word_shape, IsOutermost};
ghost use Rattle.lps_printer.specs.Wordings.{Wording, opened, in_place};
ghost use Rattle.lps_printer.specs.TermParts.{both_of, ends_in_empty, rest_of, variable_under, worded};
ghost use Rattle.lps_printer.specs.CodeWordings.{application_by, term_by, terms_by, AddsExpression, HasWord, IsApplicationBy, IsTermBy, IsWording};
ghost use Rattle.lps_printer.specs.PendingParts.{elements_or_none, part_pieces, part_weight, pieces_left, size, sizes, Leaves, LeavesExpression, PartStands};

use crate::forms::{
    Form, Outermost, form_of, infix_text, is_cast, is_element, is_empty_list, prefix_text,
};
use crate::numbers::{outermost_of_number, push_number};
use crate::parts::Part;
use crate::term_writer::TermWriter;
use crate::tokens::push_token;
use data_theory::{FunId, NoMemory, TermId, VarId, Word};
use mcrl2_syntax::{InfixSign, PrefixSign};
use term_pool::Head;

impl TermWriter<'_> {
    /// The variable directly under an upcast in a place of declared sort.
    fn uncast(&self, word: Word, args: &[TermId], placed: bool) -> Option<VarId>
        requires { All (IsTermBy self.now) args.now }
        ensures variable { option_map (λ v. v.0) result ≡ variable_under placed (is_of_cast (word_class word)) (terms_by self.now args.now) }
        ensures within { IfSome result (IsVariable self.now.sig.now) }
    {
        if !placed {
            return None;
        }
        if !is_cast(word) {
            return None;
        }
        if args.len() != 1 {
            return None;
        }
        self.as_variable(args[0])
    }

    /// What stands outermost in the text of an application of a built-in function in an open place.
    fn outermost_of(&self, fun: FunId, word: Word, args: &[TermId]) -> Outermost
        requires application { IsApplicationBy self.now fun args.now }
        requires word { HasWord self.now fun word }
        requires no_empty_list { is_of_empty (word_class word) ≡ false }
        requires no_element { is_of_element (word_class word) ≡ false }
        ensures { (w : Wording) → IsWording self.now w → IsOutermost result (opened w (application_by self.now fun args.now)) }
    {
        let _ = self.sig.names();
        let form = form_of(word, self.sig.args_of(fun).len());
        form.outermost(args.len())
    }

    /// What stands outermost in the text of `|>` with its arguments in an open place. A term that fits its functions' sorts has two.
    fn outermost_of_chain(&self, args: &[TermId]) -> Outermost
        requires { All (IsTermBy self.now) args.now }
        ensures { (w : Wording) → (y : Symbol) → manner y ≡ an_element → shape w.names y ≡ between Prepend → IsOutermost result (opened w (application y (terms_by self.now args.now))) }
    {
        if args.len() != 2 {
            return Outermost::Closed;
        }
        if self.ends_in_empty(args[1]) {
            Outermost::Closed
        } else {
            Outermost::Infix(InfixSign::Prepend)
        }
    }

    /// What stands outermost in the text of a function with its arguments in an open place.
    fn outermost_with(&self, fun: FunId, args: &[TermId]) -> Outermost
        requires { IsApplicationBy self.now fun args.now }
        ensures { (w : Wording) → IsWording self.now w → IsOutermost result (opened w (application_by self.now fun args.now)) }
    {
        let _ = self.sig.names();
        let Some(word) = self.sig.word_of(fun) else {
            return Outermost::Closed;
        };
        if is_empty_list(word) {
            return Outermost::Closed;
        }
        if is_element(word) {
            return self.outermost_of_chain(args);
        }
        self.outermost_of(fun, word, args)
    }

    /// What stands outermost in the text of a term in an open place.
    fn outermost(&self, id: TermId) -> Outermost
        requires { IsTermBy self.now id }
        ensures { (w : Wording) → IsWording self.now w → IsOutermost result (opened w (term_by self.now id)) }
    {
        let _ = self.sig.names();
        let node = self.pool.node(id);
        match node.head {
            Head::Var(_) => Outermost::Closed,
            Head::Num(_, num) => outermost_of_number(num),
            Head::Fun(fun) => self.outermost_with(fun, node.args.as_slice()),
        }
    }

    /// `[]`, behind white space.
    fn push_empty(&self, gap: &[u8], out: &mut Vec<u8>) -> Result<(), NoMemory>
        ensures { OnOk result (Adds out.old.items out.new.items (λ rest. print (listed none) gap.now rest)) }
    {
        push_token(out, gap, b"[")?;
        push_token(out, b"", b"]")
    }

    /// An empty list: in an open place its constant, where there is one.
    fn empty_list(
        &self,
        fun: FunId,
        args: &[TermId],
        placed: bool,
        gap: &[u8],
        out: &mut Vec<u8>,
    ) -> Result<(), NoMemory>
        requires application { IsApplicationBy self.now fun args.now }
        requires word { HasWord self.now fun (words.List lists.Empty) }
        ensures { OnOk result (AddsExpression self.now out.old.items out.new.items gap.now (λ w. in_place w placed (application_by self.now fun args.now))) }
    {
        let _ = self.sig.names();
        if placed {
            return self.push_empty(gap, out);
        }
        match self.constant(fun) {
            Some(constant) => push_token(out, gap, self.function(constant)),
            None => self.push_empty(gap, out),
        }
    }

    /// What a term begins with, behind white space: in a place of declared sort, or in an open one. The rest is left.
    fn begin<'p>(
        &'p self,
        id: TermId,
        placed: bool,
        gap: &'p [u8],
        left: &mut Vec<Part<'p>>,
        out: &mut Vec<u8>,
    ) -> Result<(), NoMemory>
        requires { IsTermBy self.now id }
        ensures { OnOk result (LeavesExpression self.now (size (term_by self.now id)) out.old.items out.new.items left.old.items left.new.items gap.now (λ w. in_place w placed (term_by self.now id))) }
    {
        let _ = self.sig.names();
        let node = self.pool.node(id);
        match node.head {
            Head::Var(var) => push_token(out, gap, self.variable(var)),
            Head::Num(sort, num) => push_number(sort, num, placed, gap, out),
            Head::Fun(fun) => {
                self.begin_application(fun, node.args.as_slice(), placed, gap, left, out)
            }
        }
    }

    /// What a function with its arguments begins with.
    fn begin_application<'p>(
        &'p self,
        fun: FunId,
        args: &'p [TermId],
        placed: bool,
        gap: &'p [u8],
        left: &mut Vec<Part<'p>>,
        out: &mut Vec<u8>,
    ) -> Result<(), NoMemory>
        requires { IsApplicationBy self.now fun args.now }
        ensures { OnOk result (LeavesExpression self.now (4 + sizes (terms_by self.now args.now)) out.old.items out.new.items left.old.items left.new.items gap.now (λ w. in_place w placed (application_by self.now fun args.now))) }
    {
        let _ = self.sig.names();
        let Some(word) = self.sig.word_of(fun) else {
            let once = self.is_once(fun);
            return self.begin_call(self.function(fun), args, once, gap, left, out);
        };
        if is_empty_list(word) {
            return self.empty_list(fun, args, placed, gap, out);
        }
        if is_element(word) {
            if args.len() != 2 {
                return push_token(out, gap, b"true");
            }
            return self.begin_chain(args[0], args[1], gap, left, out);
        }
        self.begin_built_in(fun, word, args, placed, gap, left, out)
    }

    /// What a built-in function with its arguments begins with, but `[]` and `|>`. In a place of declared sort an upcast directly
    /// over a variable is left out.
    fn begin_built_in<'p>(
        &'p self,
        fun: FunId,
        word: Word,
        args: &'p [TermId],
        placed: bool,
        gap: &'p [u8],
        left: &mut Vec<Part<'p>>,
        out: &mut Vec<u8>,
    ) -> Result<(), NoMemory>
        requires application { IsApplicationBy self.now fun args.now }
        requires word { HasWord self.now fun word }
        requires no_empty_list { is_of_empty (word_class word) ≡ false }
        requires no_element { is_of_element (word_class word) ≡ false }
        ensures { OnOk result (LeavesExpression self.now (4 + sizes (terms_by self.now args.now)) out.old.items out.new.items left.old.items left.new.items gap.now (λ w. in_place w placed (application_by self.now fun args.now))) }
    {
        let _ = self.sig.names();
        let count = self.sig.args_of(fun).len();
        match self.uncast(word, args, placed) {
            Some(var) => push_token(out, gap, self.variable(var)),
            None => self.begin_formed(word, count, args, gap, left, out),
        }
    }

    /// What a word with its arguments in open places begins with.
    fn begin_formed<'p>(
        &'p self,
        word: Word,
        count: usize,
        args: &'p [TermId],
        gap: &'p [u8],
        left: &mut Vec<Part<'p>>,
        out: &mut Vec<u8>,
    ) -> Result<(), NoMemory>
        requires { All (IsTermBy self.now) args.now }
        ensures { OnOk result (LeavesExpression self.now (4 + sizes (terms_by self.now args.now)) out.old.items out.new.items left.old.items left.new.items gap.now (λ w. build (word_shape word count) (worded w false (terms_by self.now args.now)))) }
    {
        let text = word.text().as_bytes();
        match form_of(word, count) {
            Form::Truth => push_token(out, gap, b"true"),
            Form::Falsity => push_token(out, gap, b"false"),
            Form::Before(sign) => self.begin_prefix(sign, args, gap, left, out),
            Form::Between(sign) => self.begin_infix(sign, args, gap, left, out),
            Form::Called => self.begin_call(text, args, false, gap, left, out),
        }
    }

    /// A sign directly before its operand, which is left. A term that fits its functions' sorts has one.
    fn begin_prefix<'p>(
        &'p self,
        sign: PrefixSign,
        args: &'p [TermId],
        gap: &'p [u8],
        left: &mut Vec<Part<'p>>,
        out: &mut Vec<u8>,
    ) -> Result<(), NoMemory>
        requires { All (IsTermBy self.now) args.now }
        ensures { OnOk result (LeavesExpression self.now (4 + sizes (terms_by self.now args.now)) out.old.items out.new.items left.old.items left.new.items gap.now (λ w. build (before sign) (worded w false (terms_by self.now args.now)))) }
    {
        if args.len() != 1 {
            return push_token(out, gap, b"true");
        }
        push_token(out, gap, prefix_text(sign).as_bytes())?;
        let brackets = self.outermost(args[0]).needs_brackets();
        left.push(Part::Operand(args[0], brackets, b""))?;
        Ok(())
    }

    /// A sign between its operands: all is left. A term that fits its functions' sorts has two.
    fn begin_infix<'p>(
        &'p self,
        sign: InfixSign,
        args: &'p [TermId],
        gap: &'p [u8],
        left: &mut Vec<Part<'p>>,
        out: &mut Vec<u8>,
    ) -> Result<(), NoMemory>
        requires { All (IsTermBy self.now) args.now }
        ensures { OnOk result (LeavesExpression self.now (4 + sizes (terms_by self.now args.now)) out.old.items out.new.items left.old.items left.new.items gap.now (λ w. build (between sign) (worded w false (terms_by self.now args.now)))) }
    {
        if args.len() != 2 {
            return push_token(out, gap, b"true");
        }
        let behind = self.outermost(args[1]).needs_brackets_behind(sign);
        left.push(Part::Operand(args[1], behind, b" "))?;
        left.push(Part::Sign(sign))?;
        let before = self.outermost(args[0]).needs_brackets();
        left.push(Part::Operand(args[0], before, gap))?;
        Ok(())
    }

    /// What a term in an open place begins with, in brackets where it needs them.
    fn begin_operand<'p>(
        &'p self,
        id: TermId,
        brackets: bool,
        gap: &'p [u8],
        left: &mut Vec<Part<'p>>,
        out: &mut Vec<u8>,
    ) -> Result<(), NoMemory>
        requires { IsTermBy self.now id }
        ensures { OnOk result (Leaves self.now (1 + size (term_by self.now id)) out.old.items out.new.items left.old.items left.new.items (λ w rest. operand brackets (λ g r. print (opened w (term_by self.now id)) g r) gap.now rest)) }
    {
        if !brackets {
            return self.begin(id, false, gap, left, out);
        }
        push_token(out, gap, b"(")?;
        left.push(Part::CloseBracket)?;
        self.begin(id, false, b"", left, out)
    }

    /// What `first |> rest` begins with: a list in brackets where the chain ends in `[]`.
    fn begin_chain<'p>(
        &'p self,
        first: TermId,
        rest: TermId,
        gap: &'p [u8],
        left: &mut Vec<Part<'p>>,
        out: &mut Vec<u8>,
    ) -> Result<(), NoMemory>
        requires first { IsTermBy self.now first }
        requires rest { IsTermBy self.now rest }
        ensures { OnOk result (LeavesExpression self.now (4 + (size (term_by self.now first) + size (term_by self.now rest))) out.old.items out.new.items left.old.items left.new.items gap.now (λ w. (both_of w (term_by self.now first) (term_by self.now rest)).opened)) }
    {
        if !self.ends_in_empty(rest) {
            return self.begin_pair(first, rest, gap, left);
        }
        push_token(out, gap, b"[")?;
        left.push(Part::CloseList)?;
        left.push(Part::Elements(rest))?;
        left.push(Part::Term(first, false, b""))?;
        Ok(())
    }

    /// The first of the elements of a chain that ends in `[]`, behind a comma. The others are left.
    fn begin_elements<'p>(
        &'p self,
        id: TermId,
        left: &mut Vec<Part<'p>>,
        out: &mut Vec<u8>,
    ) -> Result<(), NoMemory>
        requires term { IsTermBy self.now id }
        requires ends { ends_in_empty (term_by self.now id) ≡ true }
        ensures { OnOk result (Leaves self.now (1 + size (term_by self.now id)) out.old.items out.new.items left.old.items left.new.items (λ w r. print_more (elements_or_none (rest_of w (term_by self.now id)).chain) r)) }
    {
        let Some((first, behind)) = self.element(id) else {
            return Ok(());
        };
        push_token(out, b"", b",")?;
        left.push(Part::Elements(behind))?;
        left.push(Part::Term(first, false, b" "))?;
        Ok(())
    }

    /// `first |> rest`, where the chain doesn't end in `[]`: all is left.
    fn begin_pair<'p>(
        &'p self,
        first: TermId,
        rest: TermId,
        gap: &'p [u8],
        left: &mut Vec<Part<'p>>,
    ) -> Result<(), NoMemory>
        requires first { IsTermBy self.now first }
        requires rest { IsTermBy self.now rest }
        requires goes_on { ends_in_empty (term_by self.now rest) ≡ false }
        ensures { OnOk result ((out : List ℕ) → LeavesExpression self.now (4 + (size (term_by self.now first) + size (term_by self.now rest))) out out left.old.items left.new.items gap.now (λ w. binary Prepend (opened w (term_by self.now first)) (opened w (term_by self.now rest)))) }
    {
        left.push(self.behind_element(rest))?;
        left.push(Part::Sign(InfixSign::Prepend))?;
        let brackets = self.outermost(first).needs_brackets();
        left.push(Part::Operand(first, brackets, gap))?;
        Ok(())
    }

    /// What stands behind `|>` where the chain doesn't end in `[]`.
    fn behind_element<'p>(&'p self, rest: TermId) -> Part<'p>
        requires rest { IsTermBy self.now rest }
        requires goes_on { ends_in_empty (term_by self.now rest) ≡ false }
        ensures stands { PartStands self.now result }
        ensures less { part_weight self.now result ≤ 1 + size (term_by self.now rest) }
        ensures pieces { (w : Wording) → IsWording self.now w → (behind : List Piece) → operand (right_needs Prepend (opened w (term_by self.now rest))) (λ g r. print (opened w (term_by self.now rest)) g r) space behind ≡ part_pieces self.now w result behind }
    {
        match self.element(rest) {
            Some((next, behind)) => Part::Pair(next, behind),
            None => Part::Operand(rest, self.outermost(rest).needs_brackets(), b" "),
        }
    }

    /// What a name with its arguments in brackets begins with, where there are any: in places of declared sort, or in open ones.
    fn begin_call<'p>(
        &'p self,
        name: &[u8],
        args: &'p [TermId],
        placed: bool,
        gap: &[u8],
        left: &mut Vec<Part<'p>>,
        out: &mut Vec<u8>,
    ) -> Result<(), NoMemory>
        requires { All (IsTermBy self.now) args.now }
        ensures { OnOk result (LeavesExpression self.now (4 + sizes (terms_by self.now args.now)) out.old.items out.new.items left.old.items left.new.items gap.now (λ w. call name.now (worded w placed (terms_by self.now args.now)))) }
    {
        push_token(out, gap, name)?;
        let [first, others @ ..] = args else {
            return Ok(());
        };
        push_token(out, b"", b"(")?;
        left.push(Part::CloseBracket)?;
        left.push(Part::Further(others, placed))?;
        left.push(Part::Term(*first, placed, b""))?;
        Ok(())
    }

    /// The first of these terms, behind a comma. The others are left.
    fn begin_further<'p>(
        &'p self,
        ids: &'p [TermId],
        placed: bool,
        left: &mut Vec<Part<'p>>,
        out: &mut Vec<u8>,
    ) -> Result<(), NoMemory>
        requires { All (IsTermBy self.now) ids.now }
        ensures { OnOk result (Leaves self.now (1 + sizes (terms_by self.now ids.now)) out.old.items out.new.items left.old.items left.new.items (λ w r. print_more (worded w placed (terms_by self.now ids.now)) r)) }
    {
        let [first, others @ ..] = ids else {
            return Ok(());
        };
        push_token(out, b"", b",")?;
        left.push(Part::Further(others, placed))?;
        left.push(Part::Term(*first, placed, b" "))?;
        Ok(())
    }

    /// What a part begins with. The rest is left.
    fn begin_part<'p>(
        &'p self,
        part: Part<'p>,
        left: &mut Vec<Part<'p>>,
        out: &mut Vec<u8>,
    ) -> Result<(), NoMemory>
        requires { PartStands self.now part }
        ensures { OnOk result (Leaves self.now (part_weight self.now part.entry) out.old.items out.new.items left.old.items left.new.items (λ w rest. part_pieces self.now w part.entry rest)) }
    {
        match part {
            Part::Term(id, placed, gap) => self.begin(id, placed, gap, left, out),
            Part::Operand(id, brackets, gap) => self.begin_operand(id, brackets, gap, left, out),
            Part::Pair(first, rest) => {
                push_token(out, b" ", b"(")?;
                left.push(Part::CloseBracket)?;
                self.begin_pair(first, rest, b"", left)
            }
            Part::Sign(sign) => push_token(out, b" ", infix_text(sign).as_bytes()),
            Part::Further(ids, placed) => self.begin_further(ids, placed, left, out),
            Part::Elements(id) => self.begin_elements(id, left, out),
            Part::CloseBracket => push_token(out, b"", b")"),
            Part::CloseList => push_token(out, b"", b"]"),
        }
    }

    /// All that is left.
    fn finish<'p>(&'p self, left: &mut Vec<Part<'p>>, out: &mut Vec<u8>) -> Result<(), NoMemory>
        requires { All (PartStands self.now) left.old.items }
        ensures { OnOk result ((w : Wording) → IsWording self.now w → Adds out.old.items out.new.items (λ rest. pieces_left self.now w left.old.items rest)) }
    {
        while let Some(part) = left.pop() {
            self.begin_part(part, left, out)?;
        }
        Ok(())
    }

    /// A term, behind white space: in a place of declared sort, or in an open one.
    pub(crate) fn term<'p>(
        &'p self,
        id: TermId,
        placed: bool,
        gap: &'p [u8],
        out: &mut Vec<u8>,
    ) -> Result<(), NoMemory>
        requires { IsTermBy self.now id }
        ensures { OnOk result (AddsExpression self.now out.old.items out.new.items gap.now (λ w. in_place w placed (term_by self.now id))) }
    {
        let mut left = Vec::new(*out.allocator());
        self.begin(id, placed, gap, &mut left, out)?;
        self.finish(&mut left, out)
    }

    /// A name with its arguments in brackets, where there are any: in places of declared sort, or in open ones.
    pub(crate) fn call<'p>(
        &'p self,
        name: &[u8],
        args: &'p [TermId],
        placed: bool,
        gap: &[u8],
        out: &mut Vec<u8>,
    ) -> Result<(), NoMemory>
        requires { All (IsTermBy self.now) args.now }
        ensures { OnOk result (AddsExpression self.now out.old.items out.new.items gap.now (λ w. call name.now (worded w placed (terms_by self.now args.now)))) }
    {
        let mut left = Vec::new(*out.allocator());
        self.begin_call(name, args, placed, gap, &mut left, out)?;
        self.finish(&mut left, out)
    }
}
