ghost use Rattle.std.specs.Prelude.{◌≡◌, ◌≤◌, ◌<◌, ◌++◌, ◌∷◌, [], List, OnOk, IfOk, OnSome, pos};
ghost use Rattle.cw_text.specs.Cursor.{count_of_lexemes};
ghost use Rattle.cw_text.specs.Lexemes.{rest_of};
ghost use Rattle.cw_text.specs.Grammar.{Symbol, Values, a_size, act, an_init, block, cell_done, cell_init, cell_size, closing, declared, exactly, func_done, init, items, negated, params, pending, push, read, size, some_words, word};
ghost use Rattle.cw_text.specs.Parser.{GoesOn, ahead, item_read};
ghost use Rattle.cw_text.specs.Syntax.{Declaration, declaration_of};
ghost use Rattle.cw_text.specs.declared.terminal.Terminal.TheVariants as Terminal;

use crate::cursor::Token;
use crate::parser::{Parser, refusal};
use crate::{Item, Terminal, TextKind, TextRefusal, Word};

impl<'a> Parser<'a> {
    /// Reads the next cell or function. Returns `None` at the end of the text.
    #[tactic(auto, using(crate::proofs::Steps::steps))]
    pub(crate) fn item(&mut self) -> Result<Option<Item>, TextRefusal>
        requires { self.old.depth < 200 }
        ensures same { OnOk result (self.new.depth ≡ self.old.depth) }
        ensures shorter { IfOk result (λ i. OnSome i
            (count_of_lexemes (ahead self.new) < count_of_lexemes (ahead self.old))) }
        ensures read { (k : List Symbol) (vs : Values) (ds : List Declaration) → pending k ≡ self.old.depth →
            GoesOn result (read (items ∷ k) (declared ds ∷ vs) (ahead self.old))
            (item_read k vs ds) (ahead self.new) }
    {
        match self.cursor.token {
            Token::Terminal(Terminal::Cell) => Ok(Some(self.cell()?)),
            Token::Terminal(Terminal::Fn) => Ok(Some(self.function()?)),
            Token::End => Ok(None),
            _ => Err(self.unexpected()),
        }
    }

    /// Reads a cell. Its keyword is next.
    #[tactic(auto, using(crate::proofs::Steps::steps))]
    fn cell(&mut self) -> Result<Item, TextRefusal>
        requires { self.old.depth < 200 }
        ensures same { OnOk result (self.new.depth ≡ self.old.depth) }
        ensures shorter { OnOk result (count_of_lexemes (ahead self.new) < count_of_lexemes (rest_of (ahead self.old))) }
        ensures read { (k : List Symbol) (vs : Values) (ds : List Declaration) → pending k ≡ self.old.depth →
            let parts = word ∷ act (push (a_size 0)) ∷ cell_size ∷ act (push (an_init (pos 0))) ∷ cell_init ∷ exactly Terminal.Semicolon ∷ act cell_done ∷ k in
            GoesOn result (read parts (declared ds ∷ vs) (rest_of (ahead self.old)))
            (λ i. read k (declared (ds ++ declaration_of i ∷ []) ∷ vs)) (ahead self.new) }
    {
        self.cursor.advance();
        let Word { name, line } = self.word()?;
        let len = self.cell_size()?;
        let init = self.initial_value()?;
        self.expect(Terminal::Semicolon)?;
        Ok(Item::Cell {
            name,
            line,
            len,
            init,
        })
    }

    /// Reads the length of an array in its brackets, or returns 0 for a plain cell.
    #[tactic(auto, using(crate::proofs::Steps::steps))]
    fn cell_size(&mut self) -> Result<u64, TextRefusal>
        requires { self.old.depth < 200 }
        ensures same { OnOk result (self.new.depth ≡ self.old.depth) }
        ensures shorter { OnOk result (count_of_lexemes (ahead self.new) ≤ count_of_lexemes (ahead self.old)) }
        ensures read { (k : List Symbol) (vs : Values) → pending k ≡ self.old.depth →
            GoesOn result (read (cell_size ∷ k) (a_size 0 ∷ vs) (ahead self.old))
            (λ n. read k (a_size n ∷ vs)) (ahead self.new) }
    {
        match self.cursor.token {
            Token::Terminal(Terminal::SquareOpen) => {
                self.enter()?;
                let size = self.size()?;
                self.expect(Terminal::SquareClose)?;
                self.depth -= 1;
                Ok(size)
            }
            _ => Ok(0),
        }
    }

    /// Reads an array length, which is at least 1.
    fn size(&mut self) -> Result<u64, TextRefusal>
        requires { self.old.depth ≤ 200 }
        ensures same { OnOk result (self.new.depth ≡ self.old.depth) }
        ensures shorter { OnOk result (count_of_lexemes (ahead self.new) < count_of_lexemes (ahead self.old)) }
        ensures read { (k : List Symbol) (vs : Values) → pending k ≡ self.old.depth →
            GoesOn result (read (size ∷ k) (a_size 0 ∷ vs) (ahead self.old))
            (λ n. read k (a_size n ∷ vs)) (ahead self.new) }
    {
        match self.cursor.token {
            Token::Number(number) => {
                if number.value == 0 {
                    return Err(refusal(TextKind::BadNumber, self.cursor.line));
                }
                self.cursor.advance();
                Ok(number.value)
            }
            _ => Err(self.unexpected()),
        }
    }

    /// Reads the initial value of a cell, or returns 0 if none is given.
    fn initial_value(&mut self) -> Result<i64, TextRefusal>
        requires { self.old.depth < 200 }
        ensures same { OnOk result (self.new.depth ≡ self.old.depth) }
        ensures shorter { OnOk result (count_of_lexemes (ahead self.new) ≤ count_of_lexemes (ahead self.old)) }
        ensures read { (k : List Symbol) (vs : Values) → pending k ≡ self.old.depth →
            GoesOn result (read (cell_init ∷ k) (an_init (pos 0) ∷ vs) (ahead self.old))
            (λ n. read k (an_init n ∷ vs)) (ahead self.new) }
    {
        match self.cursor.token {
            Token::Terminal(Terminal::Assign) => {
                self.cursor.advance();
                Ok(self.signed()?)
            }
            _ => Ok(0),
        }
    }

    /// Reads a number, with or without `-` before it.
    fn signed(&mut self) -> Result<i64, TextRefusal>
        requires { self.old.depth < 200 }
        ensures same { OnOk result (self.new.depth ≡ self.old.depth) }
        ensures shorter { OnOk result (count_of_lexemes (ahead self.new) ≤ count_of_lexemes (ahead self.old)) }
        ensures read { (k : List Symbol) (vs : Values) → pending k ≡ self.old.depth →
            GoesOn result (read (init ∷ k) (an_init (pos 0) ∷ vs) (ahead self.old))
            (λ n. read k (an_init n ∷ vs)) (ahead self.new) }
    {
        match self.cursor.token {
            Token::Number(number) => {
                self.cursor.advance();
                Ok(number.value as i64)
            }
            Token::Terminal(Terminal::Minus) => {
                self.cursor.advance();
                Ok(self.negated()?)
            }
            _ => Err(self.unexpected()),
        }
    }

    /// Reads the number behind a `-` and returns its negative.
    fn negated(&mut self) -> Result<i64, TextRefusal>
        requires { self.old.depth < 200 }
        ensures same { OnOk result (self.new.depth ≡ self.old.depth) }
        ensures shorter { OnOk result (count_of_lexemes (ahead self.new) ≤ count_of_lexemes (ahead self.old)) }
        ensures read { (k : List Symbol) (vs : Values) → pending k ≡ self.old.depth →
            GoesOn result (read (negated ∷ k) (an_init (pos 0) ∷ vs) (ahead self.old))
            (λ n. read k (an_init n ∷ vs)) (ahead self.new) }
    {
        match self.cursor.token {
            Token::Number(number) => {
                self.cursor.advance();
                Ok(-(number.value as i64))
            }
            _ => Err(self.unexpected()),
        }
    }

    /// Reads a function. Its keyword is next.
    #[tactic(auto, using(crate::proofs::Steps::steps))]
    fn function(&mut self) -> Result<Item, TextRefusal>
        requires { self.old.depth < 200 }
        ensures same { OnOk result (self.new.depth ≡ self.old.depth) }
        ensures shorter { OnOk result (count_of_lexemes (ahead self.new) < count_of_lexemes (rest_of (ahead self.old))) }
        ensures read { (k : List Symbol) (vs : Values) (ds : List Declaration) → pending k ≡ self.old.depth →
            let parts = word ∷ exactly Terminal.ParenOpen ∷ act (push (some_words [])) ∷ params ∷ closing Terminal.ParenClose ∷ block ∷ act func_done ∷ k in
            GoesOn result (read parts (declared ds ∷ vs) (rest_of (ahead self.old)))
            (λ i. read k (declared (ds ++ declaration_of i ∷ []) ∷ vs)) (ahead self.new) }
    {
        self.cursor.advance();
        let Word { name, line } = self.word()?;
        match self.expect(Terminal::ParenOpen) {
            Ok(_) => {}
            Err(fault) => {
                drop(name);
                return Err(fault);
            }
        }
        let params = match self.params() {
            Ok(params) => params,
            Err(fault) => {
                drop(name);
                return Err(fault);
            }
        };
        match self.expect(Terminal::ParenClose) {
            Ok(_) => {}
            Err(fault) => {
                drop(params);
                drop(name);
                return Err(fault);
            }
        }
        match self.block() {
            Ok(body) => Ok(Item::Func {
                name,
                line,
                params,
                body,
            }),
            Err(fault) => {
                drop(params);
                drop(name);
                Err(fault)
            }
        }
    }

    /// Reads names with commas between them, or none.
    #[tactic(auto, using(crate::proofs::Steps::steps))]
    fn params(&mut self) -> Result<Vec<Word>, TextRefusal>
        ensures same { OnOk result (self.new.depth ≡ self.old.depth) }
        ensures shorter { OnOk result (count_of_lexemes (ahead self.new) ≤ count_of_lexemes (ahead self.old)) }
        ensures read { (k : List Symbol) (vs : Values) → pending k ≤ 200 →
            GoesOn result (read (params ∷ k) (some_words [] ∷ vs) (ahead self.old))
            (λ ws. read k (some_words ws.items ∷ vs)) (ahead self.new) }
    {
        let mut list = Vec::new(self.alloc);
        let Token::Name(letters) = self.cursor.token else {
            return Ok(list);
        };
        list.push(self.word_of(letters)?)?;
        while let Token::Terminal(Terminal::Comma) = self.cursor.token {
            self.cursor.advance();
            list.push(self.word()?)?;
        }
        Ok(list)
    }
}
