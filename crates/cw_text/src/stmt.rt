ghost use Rattle.std.specs.Prelude.{◌≡◌, ◌≤◌, ◌<◌, ◌∷◌, [], List, OnOk, IfNone, IfOk, OnSome};
ghost use Rattle.cw_text.specs.Cursor.{count_of_lexemes};
ghost use Rattle.cw_text.specs.Lexemes.{rest_of};
ghost use Rattle.cw_text.specs.Grammar.{Symbol, Values, a_block, a_line, a_term, a_word, act, assignment, atomic_done, block, choose_done, exactly, expr, let_done, otherwise, out_done, pending, push, read, repeat_done, return_done, cancel_done, spawn_done, stated, stmts, sync_done, word, word_at};
ghost use Rattle.cw_text.specs.Parser.{GoesOn, Parses, ahead, statement_read};
ghost use Rattle.cw_text.specs.Syntax.{block_of, empty, statement_of, term_of};
ghost use Rattle.cw_text.specs.declared.terminal.Terminal.TheVariants as Terminal;

use crate::cursor::Token;
use crate::letters::Letters;
use crate::parser::Parser;
use crate::{Expr, Stmt, Terminal, TextRefusal};

impl<'a> Parser<'a> {
    /// Reads statements in braces.
    #[cycle(statement)]
    #[tactic(auto, using(crate::proofs::Steps::steps))]
    pub(crate) fn block(&mut self) -> Result<Vec<Stmt>, TextRefusal>
        requires { self.old.depth ≤ 200 }
        ensures same { OnOk result (self.new.depth ≡ self.old.depth) }
        ensures shorter { OnOk result (count_of_lexemes (ahead self.new) < count_of_lexemes (ahead self.old)) }
        ensures read { Parses result self.old.depth (block ∷ [])
            (λ b. push (a_block (block_of b.items))) (ahead self.old) (ahead self.new) }
    {
        match self.cursor.token {
            Token::Terminal(Terminal::BraceOpen) => self.enter()?,
            _ => return Err(self.unexpected()),
        }
        let mut body = Vec::new(self.alloc);
        while let Some(statement) = self.statement()? {
            body.push(statement)?;
        }
        self.expect(Terminal::BraceClose)?;
        self.depth -= 1;
        Ok(body)
    }

    /// Reads the next statement. Returns `None` if none begins here.
    #[cycle(statement)]
    #[tactic(auto, using(crate::proofs::Steps::steps))]
    fn statement(&mut self) -> Result<Option<Stmt>, TextRefusal>
        requires { self.old.depth ≤ 200 }
        ensures same { OnOk result (self.new.depth ≡ self.old.depth) }
        ensures shorter { IfOk result (λ s. OnSome s
            (count_of_lexemes (ahead self.new) < count_of_lexemes (ahead self.old))) }
        ensures unmoved { IfOk result (λ s. IfNone s (self.new ≡ self.old)) }
        ensures read { (k : List Symbol) (vs : Values) → pending k ≡ self.old.depth →
            GoesOn result (read (stmts ∷ k) vs (ahead self.old)) (statement_read k vs) (ahead self.new) }
    {
        match self.cursor.token {
            Token::Terminal(Terminal::Let) => Ok(Some(self.let_statement()?)),
            Token::Terminal(Terminal::Out) => Ok(Some(self.out_statement()?)),
            Token::Terminal(Terminal::If) => Ok(Some(self.if_statement()?)),
            Token::Terminal(Terminal::While) => Ok(Some(self.while_statement()?)),
            Token::Terminal(Terminal::Atomic) => Ok(Some(self.atomic_statement()?)),
            Token::Terminal(Terminal::Spawn) => Ok(Some(self.spawn_statement()?)),
            Token::Terminal(Terminal::Sync) => Ok(Some(self.sync_statement()?)),
            Token::Terminal(Terminal::Cancel) => Ok(Some(self.cancel_statement()?)),
            Token::Terminal(Terminal::Return) => Ok(Some(self.return_statement()?)),
            Token::Name(letters) => Ok(Some(self.named_statement(letters)?)),
            _ => Ok(None),
        }
    }

    /// Reads a new local. Its keyword is next.
    fn let_statement(&mut self) -> Result<Stmt, TextRefusal>
        requires { self.old.depth ≤ 200 }
        ensures same { OnOk result (self.new.depth ≡ self.old.depth) }
        ensures shorter { OnOk result (count_of_lexemes (ahead self.new) < count_of_lexemes (rest_of (ahead self.old))) }
        ensures read { Parses result self.old.depth
            (word ∷ exactly Terminal.Assign ∷ expr ∷ exactly Terminal.Semicolon ∷ act let_done ∷ [])
            (λ s. stated (statement_of s)) (rest_of (ahead self.old)) (ahead self.new) }
    {
        self.cursor.advance();
        let name = self.word()?;
        match self.assigned_value() {
            Ok(value) => Ok(Stmt::Let { name, value }),
            Err(fault) => {
                drop(name);
                Err(fault)
            }
        }
    }

    /// Reads an output. Its keyword is next.
    fn out_statement(&mut self) -> Result<Stmt, TextRefusal>
        requires { self.old.depth ≤ 200 }
        ensures same { OnOk result (self.new.depth ≡ self.old.depth) }
        ensures shorter { OnOk result (count_of_lexemes (ahead self.new) < count_of_lexemes (rest_of (ahead self.old))) }
        ensures read { Parses result self.old.depth (expr ∷ exactly Terminal.Semicolon ∷ act out_done ∷ [])
            (λ s. stated (statement_of s)) (rest_of (ahead self.old)) (ahead self.new) }
    {
        self.cursor.advance();
        let value = self.expr()?.expr;
        match self.expect(Terminal::Semicolon) {
            Ok(_) => Ok(Stmt::Out(value)),
            Err(fault) => {
                drop(value);
                Err(fault)
            }
        }
    }

    /// Reads a choice. Its keyword is next.
    #[cycle(statement)]
    #[tactic(auto, using(crate::proofs::Blocks::inner_is_block, crate::proofs::Steps::steps))]
    fn if_statement(&mut self) -> Result<Stmt, TextRefusal>
        requires { self.old.depth ≤ 200 }
        ensures same { OnOk result (self.new.depth ≡ self.old.depth) }
        ensures shorter { OnOk result (count_of_lexemes (ahead self.new) < count_of_lexemes (rest_of (ahead self.old))) }
        ensures read { Parses result self.old.depth
            (expr ∷ block ∷ act (push (a_block empty)) ∷ otherwise ∷ act choose_done ∷ [])
            (λ s. stated (statement_of s)) (rest_of (ahead self.old)) (ahead self.new) }
    {
        self.cursor.advance();
        let test = self.expr()?.expr;
        let then = match self.block() {
            Ok(then) => then,
            Err(fault) => {
                drop(test);
                return Err(fault);
            }
        };
        match self.otherwise() {
            Ok(other) => Ok(Stmt::If { test, then, other }),
            Err(fault) => {
                drop(then);
                drop(test);
                Err(fault)
            }
        }
    }

    /// Reads the `else` part of a choice: a block behind `else`, or nothing.
    #[cycle(statement)]
    #[tactic(auto, using(crate::proofs::Steps::steps))]
    fn otherwise(&mut self) -> Result<Vec<Stmt>, TextRefusal>
        requires { self.old.depth ≤ 200 }
        ensures same { OnOk result (self.new.depth ≡ self.old.depth) }
        ensures shorter { OnOk result (count_of_lexemes (ahead self.new) ≤ count_of_lexemes (ahead self.old)) }
        ensures read { (k : List Symbol) (vs : Values) → pending k ≡ self.old.depth →
            GoesOn result (read (otherwise ∷ k) (a_block empty ∷ vs) (ahead self.old))
            (λ b. read k (a_block (block_of b.items) ∷ vs)) (ahead self.new) }
    {
        match self.cursor.token {
            Token::Terminal(Terminal::Else) => {
                self.cursor.advance();
                self.block()
            }
            _ => Ok(Vec::new(self.alloc)),
        }
    }

    /// Reads a loop. Its keyword is next.
    #[cycle(statement)]
    #[tactic(auto, using(crate::proofs::Blocks::inner_is_block, crate::proofs::Steps::steps))]
    fn while_statement(&mut self) -> Result<Stmt, TextRefusal>
        requires { self.old.depth ≤ 200 }
        ensures same { OnOk result (self.new.depth ≡ self.old.depth) }
        ensures shorter { OnOk result (count_of_lexemes (ahead self.new) < count_of_lexemes (rest_of (ahead self.old))) }
        ensures read { Parses result self.old.depth (expr ∷ block ∷ act repeat_done ∷ [])
            (λ s. stated (statement_of s)) (rest_of (ahead self.old)) (ahead self.new) }
    {
        self.cursor.advance();
        let test = self.expr()?.expr;
        match self.block() {
            Ok(body) => Ok(Stmt::While { test, body }),
            Err(fault) => {
                drop(test);
                Err(fault)
            }
        }
    }

    /// Reads an atomic block. Its keyword is next.
    #[cycle(statement)]
    #[tactic(auto, using(crate::proofs::Blocks::inner_is_block, crate::proofs::Steps::steps))]
    fn atomic_statement(&mut self) -> Result<Stmt, TextRefusal>
        requires { self.old.depth ≤ 200 }
        ensures same { OnOk result (self.new.depth ≡ self.old.depth) }
        ensures shorter { OnOk result (count_of_lexemes (ahead self.new) < count_of_lexemes (rest_of (ahead self.old))) }
        ensures read { Parses result self.old.depth (block ∷ act atomic_done ∷ [])
            (λ s. stated (statement_of s)) (rest_of (ahead self.old)) (ahead self.new) }
    {
        self.cursor.advance();
        let body = self.block()?;
        Ok(Stmt::Atomic(body))
    }

    /// Reads a block for a strand of its own. Its keyword is next.
    #[cycle(statement)]
    #[tactic(auto, using(crate::proofs::Blocks::inner_is_block, crate::proofs::Steps::steps))]
    fn spawn_statement(&mut self) -> Result<Stmt, TextRefusal>
        requires { self.old.depth ≤ 200 }
        ensures same { OnOk result (self.new.depth ≡ self.old.depth) }
        ensures shorter { OnOk result (count_of_lexemes (ahead self.new) < count_of_lexemes (rest_of (ahead self.old))) }
        ensures read { Parses result self.old.depth (block ∷ act spawn_done ∷ [])
            (λ s. stated (statement_of s)) (rest_of (ahead self.old)) (ahead self.new) }
    {
        self.cursor.advance();
        let body = self.block()?;
        Ok(Stmt::Spawn(body))
    }

    /// Reads a `sync`. Its keyword is next.
    fn sync_statement(&mut self) -> Result<Stmt, TextRefusal>
        requires { self.old.depth ≤ 200 }
        ensures same { OnOk result (self.new.depth ≡ self.old.depth) }
        ensures shorter { OnOk result (count_of_lexemes (ahead self.new) < count_of_lexemes (rest_of (ahead self.old))) }
        ensures read { Parses result self.old.depth (exactly Terminal.Semicolon ∷ act sync_done ∷ [])
            (λ s. stated (statement_of s)) (rest_of (ahead self.old)) (ahead self.new) }
    {
        self.cursor.advance();
        self.expect(Terminal::Semicolon)?;
        Ok(Stmt::Sync)
    }

    /// Reads a `cancel`. Its keyword is next.
    #[tactic(auto, using(crate::proofs::Steps::steps))]
    fn cancel_statement(&mut self) -> Result<Stmt, TextRefusal>
        requires { self.old.depth ≤ 200 }
        ensures same { OnOk result (self.new.depth ≡ self.old.depth) }
        ensures shorter { OnOk result (count_of_lexemes (ahead self.new) < count_of_lexemes (rest_of (ahead self.old))) }
        ensures read { Parses result self.old.depth
            (act (push (a_line self.old.cursor.line)) ∷ exactly Terminal.Semicolon ∷ act cancel_done ∷ [])
            (λ s. stated (statement_of s)) (rest_of (ahead self.old)) (ahead self.new) }
    {
        let line = self.cursor.line;
        self.cursor.advance();
        self.expect(Terminal::Semicolon)?;
        Ok(Stmt::Cancel { line })
    }

    /// Reads a `return` and its value. Its keyword is next.
    #[tactic(auto, using(crate::proofs::Steps::steps))]
    fn return_statement(&mut self) -> Result<Stmt, TextRefusal>
        requires { self.old.depth ≤ 200 }
        ensures same { OnOk result (self.new.depth ≡ self.old.depth) }
        ensures shorter { OnOk result (count_of_lexemes (ahead self.new) < count_of_lexemes (rest_of (ahead self.old))) }
        ensures read { Parses result self.old.depth
            (act (push (a_line self.old.cursor.line)) ∷ expr ∷ exactly Terminal.Semicolon ∷ act return_done ∷ [])
            (λ s. stated (statement_of s)) (rest_of (ahead self.old)) (ahead self.new) }
    {
        let line = self.cursor.line;
        self.cursor.advance();
        let value = self.expr()?.expr;
        match self.expect(Terminal::Semicolon) {
            Ok(_) => Ok(Stmt::Return { line, value }),
            Err(fault) => {
                drop(value);
                Err(fault)
            }
        }
    }

    /// Reads an assignment or a call. Its name is next.
    #[tactic(auto, using(crate::proofs::Steps::steps, crate::proofs::Steps::value_begins))]
    fn named_statement(&mut self, letters: Letters<'a>) -> Result<Stmt, TextRefusal>
        requires { self.old.depth ≤ 200 }
        ensures same { OnOk result (self.new.depth ≡ self.old.depth) }
        ensures shorter { OnOk result (count_of_lexemes (ahead self.new) < count_of_lexemes (rest_of (ahead self.old))) }
        ensures read { let name = word_at letters.entry.bytes.now self.old.cursor.line in
            Parses result self.old.depth
            (act (push (a_word name)) ∷ assignment ∷ [])
            (λ s. stated (statement_of s)) (rest_of (ahead self.old)) (ahead self.new) }
    {
        let name = self.word_of(letters)?;
        match self.cursor.token {
            Token::Terminal(Terminal::Assign) => {
                match self.assigned_value() {
                    Ok(value) => Ok(Stmt::Assign { name, value }),
                    Err(fault) => {
                        drop(name);
                        Err(fault)
                    }
                }
            }
            Token::Terminal(Terminal::SquareOpen) => {
                let at = match self.bracketed(Terminal::SquareClose) {
                    Ok(at) => at.expr,
                    Err(fault) => {
                        drop(name);
                        return Err(fault);
                    }
                };
                match self.assigned_value() {
                    Ok(value) => Ok(Stmt::AssignAt { name, at, value }),
                    Err(fault) => {
                        drop(at);
                        drop(name);
                        Err(fault)
                    }
                }
            }
            Token::Terminal(Terminal::ParenOpen) => {
                let args = match self.arguments() {
                    Ok(args) => args.list,
                    Err(fault) => {
                        drop(name);
                        return Err(fault);
                    }
                };
                match self.expect(Terminal::Semicolon) {
                    Ok(_) => Ok(Stmt::Call { name, args }),
                    Err(fault) => {
                        drop(args);
                        drop(name);
                        Err(fault)
                    }
                }
            }
            _ => {
                drop(name);
                Err(self.unexpected())
            }
        }
    }

    /// Reads `=`, a value and the end of a statement.
    fn assigned_value(&mut self) -> Result<Expr, TextRefusal>
        requires { self.old.depth ≤ 200 }
        ensures same { OnOk result (self.new.depth ≡ self.old.depth) }
        ensures shorter { OnOk result (count_of_lexemes (ahead self.new) < count_of_lexemes (ahead self.old)) }
        ensures read { Parses result self.old.depth (exactly Terminal.Assign ∷ expr ∷ exactly Terminal.Semicolon ∷ [])
            (λ e. push (a_term (term_of e))) (ahead self.old) (ahead self.new) }
    {
        self.expect(Terminal::Assign)?;
        let value = self.expr()?.expr;
        match self.expect(Terminal::Semicolon) {
            Ok(_) => Ok(value),
            Err(fault) => {
                drop(value);
                Err(fault)
            }
        }
    }
}
