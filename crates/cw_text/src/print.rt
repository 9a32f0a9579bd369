ghost use Rattle.std.specs.Prelude.{◌≡◌, ◌∷◌, [], ◌++◌, if◌then◌else◌, IfOk, OnOk, pos};
ghost use Rattle.cw_text.specs.Lexemes.{terminal as terminal_token};
ghost use Rattle.cw_text.specs.Printed.{declaration_tokens, else_tokens, heading_tokens, in_braces, in_parens, in_squares, init_tokens, name_on_line, number_tokens, of_left, of_right, sign, size_tokens, statement_tokens, statements_tokens, term_tokens, terms_tokens, terminal_of, tightness, value_tokens, word_tokens, words_tokens};
ghost use Rattle.cw_text.specs.PrintedText.{blank_behind, printed_text, with_tokens};
ghost use Rattle.cw_text.specs.Syntax.{block_of, declaration_of, statement_of, term_of, terms_of, source_of, cell, func};
ghost use Rattle.cw_text.specs.declared.terminal.Terminal.TheVariants as Terminal;

use crate::spelling::spelling;
use crate::{Ast, Expr, Item, Op, Stmt, Terminal, Word};
use cw_base::{OutOfMemory, Text};
use std::alloc::Global;
use std::marker::Model;

/// A text that is being printed, token by token. After an `Err` it is not used again.
#[derive(Drop)]
struct Printer {
    text: Vec<u8>,
}

impl Model for Printer {
    ghost use Rattle.std.specs.Prelude.{List, ℕ};

    ghost Value = { List ℕ };

    ghost view = { λ p. p.text.items };
}

/// The blank behind a keyword or a sign: a newline behind `;`, `{` and `}`, otherwise a space.
fn blank_behind(terminal: Terminal) -> u8
    ensures { result ≡ blank_behind (terminal_token terminal) }
{
    match terminal {
        Terminal::Semicolon | Terminal::BraceOpen | Terminal::BraceClose => b'\n',
        _ => b' ',
    }
}

/// The terminal that an operator is written as.
fn terminal_of(op: Op) -> Terminal
    ensures { result ≡ terminal_of op }
{
    match op {
        Op::Add => Terminal::Plus,
        Op::Sub | Op::Neg => Terminal::Minus,
        Op::Mul => Terminal::Star,
        Op::Div => Terminal::Slash,
        Op::Rem => Terminal::Percent,
        Op::Not => Terminal::Bang,
        Op::Eq => Terminal::EqEq,
        Op::Ne => Terminal::BangEq,
        Op::Lt => Terminal::Less,
        Op::Le => Terminal::LessEq,
        Op::Gt => Terminal::Greater,
        Op::Ge => Terminal::GreaterEq,
    }
}

/// How tightly an operator binds: a comparison 0, a sum 1, a product 2, a unary operator 3.
fn tightness(op: Op) -> u32
    ensures { result ≡ tightness op }
{
    match op {
        Op::Eq | Op::Ne | Op::Lt | Op::Le | Op::Gt | Op::Ge => 0,
        Op::Add | Op::Sub => 1,
        Op::Mul | Op::Div | Op::Rem => 2,
        Op::Neg | Op::Not => 3,
    }
}

impl Printer {
    // Prints a token and the blank behind it.
    fn token(&mut self, spelled: &[u8], blank: u8) -> Result<(), OutOfMemory>
        ensures { OnOk result (self.new ≡ self.old ++ (spelled.now ++ blank ∷ [])) }
    {
        self.text.extend_from_slice(spelled)?;
        self.text.push(blank)?;
        Ok(())
    }

    fn sign(&mut self, terminal: Terminal) -> Result<(), OutOfMemory>
        ensures { OnOk result (self.new ≡ with_tokens self.old (sign terminal)) }
    {
        self.token(spelling(terminal), blank_behind(terminal))
    }

    fn name(&mut self, name: &Text, line: u32) -> Result<(), OutOfMemory>
        ensures { OnOk result (self.new ≡ with_tokens self.old (name_on_line name.now line)) }
    {
        self.token(name.as_bytes(), b' ')
    }

    fn word(&mut self, word: &Word) -> Result<(), OutOfMemory>
        ensures { OnOk result (self.new ≡ with_tokens self.old (word_tokens word.now)) }
    {
        self.name(&word.name, word.line)
    }

    // Prints a number without its sign.
    fn digits(&mut self, value: u64) -> Result<(), OutOfMemory>
        ensures { OnOk result (self.new ≡ with_tokens self.old (number_tokens (pos value))) }
    {
        let digits = format!(in *self.text.allocator(); "{value}")?;
        self.token(digits.as_bytes(), b' ')
    }

    fn number(&mut self, value: i64) -> Result<(), OutOfMemory>
        ensures { OnOk result (self.new ≡ with_tokens self.old (number_tokens value)) }
    {
        if value < 0 {
            self.sign(Terminal::Minus)?;
        }
        self.digits(value.unsigned_abs())
    }

    // Prints `bracket` if it is needed.
    fn bracket(&mut self, needed: bool, bracket: Terminal) -> Result<(), OutOfMemory>
        ensures { OnOk result (self.new ≡ with_tokens self.old (if needed then sign bracket else [])) }
    {
        if needed {
            self.sign(bracket)?;
        }
        Ok(())
    }

    /// Prints an expression, in brackets if its operator binds less tightly than `wanted`.
    #[cycle(expression)]
    #[tactic(auto, using(crate::proofs::Printing::with_tokens_append))]
    fn term(&mut self, wanted: u32, term: &Expr) -> Result<(), OutOfMemory>
        ensures { OnOk result (self.new ≡ with_tokens self.old (term_tokens wanted (term_of term.now))) }
    {
        match term {
            Expr::Number(value) => self.number(*value),
            Expr::Name(word) => self.word(word),
            Expr::At { name, at } => {
                self.word(name)?;
                self.index(at)
            }
            Expr::Call { name, args } => {
                self.word(name)?;
                self.arguments(args.as_slice())
            }
            Expr::Unary { op, of } => {
                self.sign(terminal_of(*op))?;
                self.term(3, of)
            }
            Expr::Binary { op, left, right } => {
                let needed = tightness(*op) < wanted;
                self.bracket(needed, Terminal::ParenOpen)?;
                self.term(tightness(*op).max(1), left)?;
                self.sign(terminal_of(*op))?;
                self.term(tightness(*op) + 1, right)?;
                self.bracket(needed, Terminal::ParenClose)
            }
        }
    }

    /// Prints the index of an element, in its brackets.
    #[cycle(expression)]
    #[tactic(auto, using(crate::proofs::Printing::with_tokens_append))]
    fn index(&mut self, at: &Expr) -> Result<(), OutOfMemory>
        ensures { OnOk result (self.new ≡ with_tokens self.old (in_squares (term_tokens 0 (term_of at.now)))) }
    {
        self.sign(Terminal::SquareOpen)?;
        self.term(0, at)?;
        self.sign(Terminal::SquareClose)
    }

    /// Prints the arguments of a call, in their brackets.
    #[cycle(expression)]
    #[tactic(auto, using(crate::proofs::Printing::with_tokens_append))]
    fn arguments(&mut self, args: &[Expr]) -> Result<(), OutOfMemory>
        ensures { OnOk result (self.new ≡ with_tokens self.old (in_parens (terms_tokens (terms_of args.now)))) }
    {
        self.sign(Terminal::ParenOpen)?;
        self.argument_list(args)?;
        self.sign(Terminal::ParenClose)
    }

    /// Prints arguments with commas between them.
    #[cycle(expression)]
    #[tactic(auto, using(crate::proofs::Printing::with_tokens_append))]
    fn argument_list(&mut self, args: &[Expr]) -> Result<(), OutOfMemory>
        ensures { OnOk result (self.new ≡ with_tokens self.old (terms_tokens (terms_of args.now))) }
    {
        if let [first, rest @ ..] = args {
            self.term(0, first)?;
            for arg in rest {
                self.sign(Terminal::Comma)?;
                self.term(0, arg)?;
            }
        }
        Ok(())
    }

    // Prints `=`, a value and the end of a statement.
    #[tactic(auto, using(crate::proofs::Printing::with_tokens_append))]
    fn value(&mut self, value: &Expr) -> Result<(), OutOfMemory>
        ensures { OnOk result (self.new ≡ with_tokens self.old (value_tokens (term_of value.now))) }
    {
        self.sign(Terminal::Assign)?;
        self.term(0, value)?;
        self.sign(Terminal::Semicolon)
    }

    // Prints the value of an `out` or a `return`, and the end of the statement.
    #[tactic(auto, using(crate::proofs::Printing::with_tokens_append))]
    fn value_alone(&mut self, value: &Expr) -> Result<(), OutOfMemory>
        ensures { OnOk result (self.new ≡ with_tokens self.old (term_tokens 0 (term_of value.now) ++ sign Terminal.Semicolon)) }
    {
        self.term(0, value)?;
        self.sign(Terminal::Semicolon)
    }

    #[cycle(block)]
    #[tactic(auto, using(crate::proofs::Blocks::inner_is_block, crate::proofs::Printing::with_tokens_append))]
    fn statement(&mut self, statement: &Stmt) -> Result<(), OutOfMemory>
        ensures { OnOk result (self.new ≡ with_tokens self.old (statement_tokens (statement_of statement.now))) }
    {
        match statement {
            Stmt::Let { name, value } => {
                self.sign(Terminal::Let)?;
                self.word(name)?;
                self.value(value)
            }
            Stmt::Assign { name, value } => {
                self.word(name)?;
                self.value(value)
            }
            Stmt::AssignAt { name, at, value } => {
                self.word(name)?;
                self.index(at)?;
                self.value(value)
            }
            Stmt::Call { name, args } => {
                self.word(name)?;
                self.arguments(args.as_slice())?;
                self.sign(Terminal::Semicolon)
            }
            Stmt::Out(value) => {
                self.sign(Terminal::Out)?;
                self.value_alone(value)
            }
            Stmt::If { test, then, other } => {
                self.sign(Terminal::If)?;
                self.term(0, test)?;
                self.block(then.as_slice())?;
                self.otherwise(other.as_slice())
            }
            Stmt::While { test, body } => {
                self.sign(Terminal::While)?;
                self.term(0, test)?;
                self.block(body.as_slice())
            }
            Stmt::Atomic(body) => {
                self.sign(Terminal::Atomic)?;
                self.block(body.as_slice())
            }
            Stmt::Spawn(body) => {
                self.sign(Terminal::Spawn)?;
                self.block(body.as_slice())
            }
            Stmt::Sync => {
                self.sign(Terminal::Sync)?;
                self.sign(Terminal::Semicolon)
            }
            Stmt::Cancel { .. } => {
                self.sign(Terminal::Cancel)?;
                self.sign(Terminal::Semicolon)
            }
            Stmt::Return { value, .. } => {
                self.sign(Terminal::Return)?;
                self.value_alone(value)
            }
        }
    }

    // Prints the `else` part, which is left out if it is empty.
    #[cycle(block)]
    fn otherwise(&mut self, other: &[Stmt]) -> Result<(), OutOfMemory>
        ensures { OnOk result (self.new ≡ with_tokens self.old (else_tokens (block_of other.now))) }
    {
        if other.is_empty() {
            return Ok(());
        }
        self.sign(Terminal::Else)?;
        self.block(other)
    }

    // Prints the statements of a block, in braces.
    #[cycle(block)]
    #[tactic(auto, using(crate::proofs::Printing::with_tokens_append))]
    fn block(&mut self, body: &[Stmt]) -> Result<(), OutOfMemory>
        ensures { OnOk result (self.new ≡ with_tokens self.old (in_braces (statements_tokens (block_of body.now)))) }
    {
        self.sign(Terminal::BraceOpen)?;
        for statement in body {
            self.statement(statement)?;
        }
        self.sign(Terminal::BraceClose)
    }

    // Prints names with commas between them.
    #[tactic(auto, using(crate::proofs::Printing::with_tokens_append))]
    fn words(&mut self, words: &[Word]) -> Result<(), OutOfMemory>
        ensures { OnOk result (self.new ≡ with_tokens self.old (words_tokens words.now)) }
    {
        if let [first, rest @ ..] = words {
            self.word(first)?;
            for word in rest {
                self.sign(Terminal::Comma)?;
                self.word(word)?;
            }
        }
        Ok(())
    }

    // Prints the length of an array, and nothing for a plain cell.
    fn size(&mut self, len: u64) -> Result<(), OutOfMemory>
        ensures { OnOk result (self.new ≡ with_tokens self.old (size_tokens len)) }
    {
        if len == 0 {
            return Ok(());
        }
        self.sign(Terminal::SquareOpen)?;
        self.digits(len)?;
        self.sign(Terminal::SquareClose)
    }

    // Prints the initial value of a cell, and nothing if it is 0.
    fn initial_value(&mut self, value: i64) -> Result<(), OutOfMemory>
        ensures { OnOk result (self.new ≡ with_tokens self.old (init_tokens value)) }
    {
        if value == 0 {
            return Ok(());
        }
        self.sign(Terminal::Assign)?;
        self.number(value)
    }

    // Prints a cell.
    #[tactic(auto, using(crate::proofs::Printing::with_tokens_append))]
    fn cell(&mut self, name: &Text, line: u32, len: u64, init: i64) -> Result<(), OutOfMemory>
        ensures { OnOk result (self.new ≡ with_tokens self.old (declaration_tokens (cell name.now line len init))) }
    {
        self.sign(Terminal::Cell)?;
        self.name(name, line)?;
        self.size(len)?;
        self.initial_value(init)?;
        self.sign(Terminal::Semicolon)
    }

    // Prints a function.
    #[tactic(auto, using(crate::proofs::Printing::with_tokens_append))]
    fn function(
        &mut self,
        name: &Text,
        line: u32,
        params: &[Word],
        body: &[Stmt],
    ) -> Result<(), OutOfMemory>
        ensures { OnOk result (self.new ≡ with_tokens self.old (declaration_tokens (func name.now line params.now (block_of body.now)))) }
    {
        self.sign(Terminal::Fn)?;
        self.name(name, line)?;
        self.sign(Terminal::ParenOpen)?;
        self.words(params)?;
        self.sign(Terminal::ParenClose)?;
        self.block(body)
    }

    // Prints the line that names the language, and nothing for language 1.
    fn heading(&mut self, language: u32) -> Result<(), OutOfMemory>
        ensures { OnOk result (self.new ≡ with_tokens self.old (heading_tokens language)) }
    {
        if language != 2 {
            return Ok(());
        }
        self.token(b"language".as_slice(), b' ')?;
        self.digits(2)?;
        self.sign(Terminal::Semicolon)
    }

    fn item(&mut self, item: &Item) -> Result<(), OutOfMemory>
        ensures { OnOk result (self.new ≡ with_tokens self.old (declaration_tokens (declaration_of item.now))) }
    {
        match item {
            Item::Cell {
                name,
                line,
                len,
                init,
            } => self.cell(name, *line, *len, *init),
            Item::Func {
                name,
                line,
                params,
                body,
            } => self.function(name, *line, params.as_slice(), body.as_slice()),
        }
    }
}

/// Returns the text of a program: the tokens of its tree, with a newline behind each `;`, `{` and `}` and a space
/// behind each other token.
///
/// Brackets are written only if the tree needs them. An initial value 0 is left out, and so is an `else` without
/// statements. What `read_program` returned is read from its printed text again, except for the lines, if the text is
/// not too long.
pub fn print_program(alloc: Global, ast: &Ast) -> Result<Vec<u8>, OutOfMemory>
    ensures { IfOk result (λ text. text.items ≡ printed_text (source_of ast.now)) }
{
    let mut printer = Printer {
        text: Vec::new(alloc),
    };
    printer.heading(ast.language)?;
    for item in &ast.items {
        printer.item(item)?;
    }
    Ok(printer.text)
}
