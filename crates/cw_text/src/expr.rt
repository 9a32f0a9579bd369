ghost use Rattle.std.specs.Prelude.{◌≡◌, ◌≤◌, ◌<◌, ◌∷◌, [], true, false, List, OnOk, IfOk, IfSome, IfNone};
ghost use Rattle.cw_text.specs.Cursor.{count_of_lexemes};
ghost use Rattle.cw_text.specs.Lexemes.{rest_of};
ghost use Rattle.cw_text.specs.Grammar.{Symbol, Values, a_term, act, arg_done, args, brackets, call_done, closing, comparison, expr, index_done, join, lifted, more_args, operand, pending, products, push, read, read_from, some_terms, sums, word_at};
ghost use Rattle.cw_text.specs.Lexemes.{Lexemes};
ghost use Rattle.cw_text.specs.Parser.{Begins, GoesOn, Parses, Skips, ahead, taken};
ghost use Rattle.cw_text.specs.Syntax.{height as height_of, height_of_all, name as a_name, none, term_of, terms_of};
ghost use Rattle.cw_text.specs.declared.terminal.Terminal.TheVariants as Terminal;

use crate::cursor::Token;
use crate::letters::Letters;
use crate::parser::{DEEPEST, Parser, refusal};
use crate::terminal::{comparison_of, prefix_of, product_of, sum_of};
use crate::{Expr, Op, Terminal, TextKind, TextRefusal, Word};
use cw_base::OutOfMemory;
use std::alloc::Global;

/// An expression that is not too high, and its height.
#[derive(Drop)]
pub(crate) struct Measured {
    pub expr: Expr,
    pub height: u32,
    ghost exact: { height ≡ height_of (term_of expr) },
    ghost low: { height ≤ 200 },
}

/// The arguments of a call, none of which is too high, and the greatest height.
#[derive(Drop)]
pub(crate) struct Arguments {
    pub list: Vec<Expr>,
    pub height: u32,
    ghost exact: { height ≡ height_of_all (terms_of list.items) },
    ghost low: { height ≤ 200 },
}

impl<'a> Parser<'a> {
    /// Reads an operand: a number, a name with its index, its arguments or neither, an expression in round brackets, or
    /// an operator and its operand.
    #[cycle(expression)]
    #[tactic(auto, using(crate::proofs::Steps::steps))]
    fn operand(&mut self) -> Result<Measured, TextRefusal>
        requires { self.old.depth ≤ 200 }
        ensures same { OnOk result (self.new.depth ≡ self.old.depth) }
        ensures shorter { OnOk result (count_of_lexemes (ahead self.new) < count_of_lexemes (ahead self.old)) }
        ensures read { Parses result self.old.depth (operand ∷ [])
            (λ e. push (a_term (term_of e.expr))) (ahead self.old) (ahead self.new) }
    {
        match self.cursor.token {
            Token::Number(number) => {
                self.cursor.advance();
                Ok(Measured {
                    expr: Expr::Number(number.value as i64),
                    height: 1,
                })
            }
            Token::Name(letters) => self.named(letters),
            Token::Terminal(Terminal::ParenOpen) => self.bracketed(Terminal::ParenClose),
            Token::Terminal(terminal) => match prefix_of(terminal) {
                Some(op) => self.prefixed(op),
                None => Err(self.unexpected()),
            },
            _ => Err(self.unexpected()),
        }
    }

    /// Reads a name, which is next, and its index or its arguments if it has any.
    #[cycle(expression)]
    #[tactic(auto, using(crate::proofs::Steps::steps))]
    fn named(&mut self, letters: Letters<'a>) -> Result<Measured, TextRefusal>
        requires { self.old.depth ≤ 200 }
        ensures same { OnOk result (self.new.depth ≡ self.old.depth) }
        ensures shorter { OnOk result (count_of_lexemes (ahead self.new) ≤ count_of_lexemes (rest_of (ahead self.old))) }
        ensures read { let line = self.old.cursor.line in
            let word = word_at letters.entry.bytes.now line in
            Parses result self.old.depth (act (push (a_term (a_name word))) ∷ brackets line ∷ [])
            (λ e. push (a_term (term_of e.expr))) (rest_of (ahead self.old)) (ahead self.new) }
    {
        let line = self.cursor.line;
        let name = self.word_of(letters)?;
        match self.cursor.token {
            Token::Terminal(Terminal::SquareOpen) => {
                match self.bracketed(Terminal::SquareClose) {
                    Ok(at) => indexed(self.alloc, line, name, at),
                    Err(fault) => {
                        drop(name);
                        Err(fault)
                    }
                }
            }
            Token::Terminal(Terminal::ParenOpen) => {
                match self.arguments() {
                    Ok(args) => called(line, name, args),
                    Err(fault) => {
                        drop(name);
                        Err(fault)
                    }
                }
            }
            _ => Ok(Measured {
                expr: Expr::Name(name),
                height: 1,
            }),
        }
    }

    /// Reads the arguments of a call. Their bracket is next.
    #[cycle(expression)]
    #[tactic(auto, using(crate::proofs::Steps::steps))]
    pub(crate) fn arguments(&mut self) -> Result<Arguments, TextRefusal>
        requires { self.old.depth ≤ 200 }
        ensures same { OnOk result (self.new.depth ≡ self.old.depth) }
        ensures shorter { OnOk result (count_of_lexemes (ahead self.new) < count_of_lexemes (rest_of (ahead self.old))) }
        ensures read { (k : List Symbol) (vs : Values) → pending k ≡ self.old.depth →
            let line = self.old.cursor.line in
            GoesOn result (taken (act (push (some_terms none)) ∷ args ∷ closing Terminal.ParenClose ∷ k) vs line (ahead self.old))
            (λ a. read k (some_terms (terms_of a.list.items) ∷ vs)) (ahead self.new) }
    {
        self.enter()?;
        let args = self.argument_list()?;
        match self.expect(Terminal::ParenClose) {
            Ok(_) => {
                self.depth -= 1;
                Ok(args)
            }
            Err(fault) => {
                drop(args);
                Err(fault)
            }
        }
    }

    /// Reads expressions with commas between them, or none.
    #[cycle(expression)]
    #[tactic(auto, using(crate::proofs::Steps::steps))]
    fn argument_list(&mut self) -> Result<Arguments, TextRefusal>
        requires { self.old.depth ≤ 200 }
        ensures same { OnOk result (self.new.depth ≡ self.old.depth) }
        ensures shorter { OnOk result (count_of_lexemes (ahead self.new) ≤ count_of_lexemes (ahead self.old)) }
        ensures read { (k : List Symbol) (vs : Values) → pending k ≡ self.old.depth →
            GoesOn result (read (args ∷ k) (some_terms none ∷ vs) (ahead self.old))
            (λ a. read k (some_terms (terms_of a.list.items) ∷ vs)) (ahead self.new) }
    {
        if self.has_no_argument() {
            return Ok(Arguments {
                list: Vec::new(self.alloc),
                height: 0,
            });
        }
        let first = self.expr()?;
        let mut height = first.height;
        let mut list = Vec::new(self.alloc);
        match list.push(first.expr) {
            Ok(_) => {}
            Err(fault) => {
                drop(list);
                return Err(TextRefusal::from(fault));
            }
        }
        while let Token::Terminal(Terminal::Comma) = self.cursor.token {
            self.cursor.advance();
            let next = match self.expr() {
                Ok(next) => next,
                Err(fault) => {
                    drop(list);
                    return Err(fault);
                }
            };
            height = height.max(next.height);
            match list.push(next.expr) {
                Ok(_) => {}
                Err(fault) => {
                    drop(list);
                    return Err(TextRefusal::from(fault));
                }
            }
        }
        Ok(Arguments { list, height })
    }

    /// Whether the bracket closes before the first argument.
    fn has_no_argument(&self) -> bool
        ensures none { result ≡ true → Skips self.now args }
        ensures some { result ≡ false → (k : List Symbol) (vs : Values) →
            read (args ∷ k) vs (ahead self.now) ≡ read (expr ∷ act arg_done ∷ more_args ∷ k) vs (ahead self.now) }
    {
        match self.cursor.token {
            Token::Terminal(Terminal::ParenClose) => true,
            _ => false,
        }
    }

    /// Reads the operator `op`, which is next, and its operand.
    #[cycle(expression)]
    #[tactic(auto, using(crate::proofs::Steps::steps))]
    fn prefixed(&mut self, op: Op) -> Result<Measured, TextRefusal>
        requires { self.old.depth ≤ 200 }
        ensures same { OnOk result (self.new.depth ≡ self.old.depth) }
        ensures shorter { OnOk result (count_of_lexemes (ahead self.new) < count_of_lexemes (rest_of (ahead self.old))) }
        ensures read { (k : List Symbol) (vs : Values) → pending k ≡ self.old.depth →
            let line = self.old.cursor.line in
            GoesOn result (taken (operand ∷ lifted op line ∷ k) vs line (ahead self.old))
            (λ e. read k (a_term (term_of e.expr) ∷ vs)) (ahead self.new) }
    {
        let line = self.cursor.line;
        self.enter()?;
        let of = self.operand()?;
        self.depth -= 1;
        if of.height == DEEPEST {
            drop(of);
            return Err(refusal(TextKind::TooDeep, line));
        }
        let height = of.height + 1;
        let of = boxed(self.alloc, of.expr)?;
        Ok(Measured {
            height,
            expr: Expr::Unary { op, of },
        })
    }

    /// Reads an expression in brackets: the opening one comes next, and `close` is the closing one.
    #[cycle(expression)]
    #[tactic(auto, using(crate::proofs::Steps::steps))]
    pub(crate) fn bracketed(&mut self, close: Terminal) -> Result<Measured, TextRefusal>
        requires { self.old.depth ≤ 200 }
        ensures same { OnOk result (self.new.depth ≡ self.old.depth) }
        ensures shorter { OnOk result (count_of_lexemes (ahead self.new) < count_of_lexemes (rest_of (ahead self.old))) }
        ensures read { (k : List Symbol) (vs : Values) → pending k ≡ self.old.depth →
            let line = self.old.cursor.line in
            GoesOn result (taken (expr ∷ closing close ∷ k) vs line (ahead self.old))
            (λ e. read k (a_term (term_of e.expr) ∷ vs)) (ahead self.new) }
    {
        self.enter()?;
        let inner = self.expr()?;
        match self.expect(close) {
            Ok(_) => {
                self.depth -= 1;
                Ok(inner)
            }
            Err(fault) => {
                drop(inner);
                Err(fault)
            }
        }
    }

    /// Reads an expression.
    #[cycle(expression)]
    #[tactic(auto, using(crate::proofs::Steps::steps))]
    pub(crate) fn expr(&mut self) -> Result<Measured, TextRefusal>
        requires { self.old.depth ≤ 200 }
        ensures same { OnOk result (self.new.depth ≡ self.old.depth) }
        ensures shorter { OnOk result (count_of_lexemes (ahead self.new) < count_of_lexemes (ahead self.old)) }
        ensures read { Parses result self.old.depth (expr ∷ [])
            (λ e. push (a_term (term_of e.expr))) (ahead self.old) (ahead self.new) }
    {
        let left = self.sum()?;
        match self.comparison_sign() {
            Some(op) => {
                let line = self.cursor.line;
                self.cursor.advance();
                match self.sum() {
                    Ok(right) => joined(self.alloc, op, line, left, right),
                    Err(fault) => {
                        drop(left);
                        Err(fault)
                    }
                }
            }
            None => Ok(left),
        }
    }

    /// Reads products with `+` or `-` between them.
    #[cycle(expression)]
    #[tactic(auto, using(crate::proofs::Steps::steps))]
    fn sum(&mut self) -> Result<Measured, TextRefusal>
        requires { self.old.depth ≤ 200 }
        ensures same { OnOk result (self.new.depth ≡ self.old.depth) }
        ensures shorter { OnOk result (count_of_lexemes (ahead self.new) < count_of_lexemes (ahead self.old)) }
        ensures read { Parses result self.old.depth (operand ∷ products ∷ sums ∷ [])
            (λ e. push (a_term (term_of e.expr))) (ahead self.old) (ahead self.new) }
    {
        let mut left = self.product()?;
        while let Some(op) = self.sum_sign() {
            let line = self.cursor.line;
            self.cursor.advance();
            let right = match self.product() {
                Ok(right) => right,
                Err(fault) => {
                    drop(left);
                    return Err(fault);
                }
            };
            left = joined(self.alloc, op, line, left, right)?;
        }
        Ok(left)
    }

    /// Reads operands with `*`, `/` or `%` between them.
    #[cycle(expression)]
    #[tactic(auto, using(crate::proofs::Steps::steps))]
    fn product(&mut self) -> Result<Measured, TextRefusal>
        requires { self.old.depth ≤ 200 }
        ensures same { OnOk result (self.new.depth ≡ self.old.depth) }
        ensures shorter { OnOk result (count_of_lexemes (ahead self.new) < count_of_lexemes (ahead self.old)) }
        ensures read { Parses result self.old.depth (operand ∷ products ∷ [])
            (λ e. push (a_term (term_of e.expr))) (ahead self.old) (ahead self.new) }
    {
        let mut left = self.operand()?;
        while let Some(op) = self.product_sign() {
            let line = self.cursor.line;
            self.cursor.advance();
            let right = match self.operand() {
                Ok(right) => right,
                Err(fault) => {
                    drop(left);
                    return Err(fault);
                }
            };
            left = joined(self.alloc, op, line, left, right)?;
        }
        Ok(left)
    }

    /// The operator of a product, if it is next.
    fn product_sign(&self) -> Option<Op>
        ensures met { IfSome result (λ op. let line = self.now.cursor.line in
            Begins self.now products (operand ∷ act (join op) ∷ read_from line ∷ products ∷ [])) }
        ensures none { IfNone result (Skips self.now products) }
    {
        match self.cursor.token {
            Token::Terminal(terminal) => product_of(terminal),
            _ => None,
        }
    }

    /// The operator of a sum, if it is next.
    fn sum_sign(&self) -> Option<Op>
        ensures met { IfSome result (λ op. let line = self.now.cursor.line in
            Begins self.now sums (operand ∷ products ∷ act (join op) ∷ read_from line ∷ sums ∷ [])) }
        ensures none { IfNone result (Skips self.now sums) }
    {
        match self.cursor.token {
            Token::Terminal(terminal) => sum_of(terminal),
            _ => None,
        }
    }

    /// The operator of a comparison, if it is next.
    fn comparison_sign(&self) -> Option<Op>
        ensures met { IfSome result (λ op. let line = self.now.cursor.line in
            Begins self.now comparison (operand ∷ products ∷ sums ∷ act (join op) ∷ read_from line ∷ [])) }
        ensures none { IfNone result (Skips self.now comparison) }
    {
        match self.cursor.token {
            Token::Terminal(terminal) => comparison_of(terminal),
            _ => None,
        }
    }
}

/// Returns an element of the array `name`, at the index `at`, or `TooDeep` on line `line` if it would be too high.
#[tactic(auto, using(crate::proofs::Steps::steps))]
fn indexed(alloc: Global, line: u32, name: Word, at: Measured) -> Result<Measured, TextRefusal>
    ensures { (k : List Symbol) (vs : Values) (xs : Lexemes) →
        let parts = a_term (term_of at.expr) ∷ a_term (a_name name) ∷ vs in
        GoesOn result (read (act index_done ∷ read_from line ∷ k) parts xs)
        (λ e. read k (a_term (term_of e.expr) ∷ vs)) xs }
{
    if at.height == DEEPEST {
        drop(at);
        drop(name);
        return Err(refusal(TextKind::TooDeep, line));
    }
    let height = at.height + 1;
    match boxed(alloc, at.expr) {
        Ok(at) => Ok(Measured {
            height,
            expr: Expr::At { name, at },
        }),
        Err(fault) => {
            drop(name);
            Err(TextRefusal::from(fault))
        }
    }
}

/// Returns a call of `name` with `args`, or `TooDeep` on line `line` if it would be too high.
#[tactic(auto, using(crate::proofs::Blocks::inner_is_terms, crate::proofs::Steps::steps))]
fn called(line: u32, name: Word, args: Arguments) -> Result<Measured, TextRefusal>
    ensures { (k : List Symbol) (vs : Values) (xs : Lexemes) →
        let parts = some_terms (terms_of args.list.items) ∷ a_term (a_name name) ∷ vs in
        GoesOn result (read (act call_done ∷ read_from line ∷ k) parts xs)
        (λ e. read k (a_term (term_of e.expr) ∷ vs)) xs }
{
    if args.height == DEEPEST {
        drop(args);
        drop(name);
        return Err(refusal(TextKind::TooDeep, line));
    }
    Ok(Measured {
        height: args.height + 1,
        expr: Expr::Call {
            name,
            args: args.list,
        },
    })
}

/// Returns `left` and `right` joined by `op`, whose line is `line`.
#[tactic(auto, using(crate::proofs::Steps::steps))]
fn joined(
    alloc: Global,
    op: Op,
    line: u32,
    left: Measured,
    right: Measured,
) -> Result<Measured, TextRefusal>
    ensures { (k : List Symbol) (vs : Values) (xs : Lexemes) →
        let operands = a_term (term_of right.expr) ∷ a_term (term_of left.expr) ∷ vs in
        GoesOn result (read (act (join op) ∷ read_from line ∷ k) operands xs)
        (λ e. read k (a_term (term_of e.expr) ∷ vs)) xs }
{
    let height = left.height.max(right.height) + 1;
    if height > DEEPEST {
        drop(left);
        drop(right);
        return Err(refusal(TextKind::TooDeep, line));
    }
    let left = boxed(alloc, left.expr);
    let right = boxed(alloc, right.expr)?;
    Ok(Measured {
        expr: Expr::Binary {
            op,
            left: left?,
            right,
        },
        height,
    })
}

/// Returns `expr` in a box.
fn boxed(alloc: Global, expr: Expr) -> Result<Box<Expr>, OutOfMemory>
    ensures { IfOk result (λ b. b.value ≡ expr) }
{
    Ok(Box::new(alloc, expr)?)
}
