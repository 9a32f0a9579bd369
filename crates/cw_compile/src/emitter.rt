ghost use Rattle.std.specs.Prelude.{◌≡◌, ◌<◌, ◌+◌, ◌∷◌, ◌++◌, [], length, max, slice_set, OnOk, IfOk};
ghost use Rattle.cw_strand.specs.Meaning.{cell_of};
ghost use Rattle.cw_text.specs.Syntax.{term_of, terms_of, statement_of, block_of};
ghost use Rattle.cw_strand.specs.Compilation.{jump, jump_zero, set, discard, show, wait, cancel, ret, loads_at, stores_at, reads, writes, slot_of, calls, term_code, terms_code, slots_with_params, function_code, most};

use crate::elements::Elements;
use crate::functions::Functions;
use crate::instructions::{
    BEGIN, CANCEL, DISCARD, DONE, END, RET, SHOW, TICK, WAIT, arithmetic, call, fork, join, jump,
    jump_zero, lifted, load, load_at, local, plain, push, set, store, store_at,
};
use crate::lengths;
use crate::listing::Listing;
use crate::slots::Slots;
use cw_base::{OutOfMemory, Text};
use cw_code::{Func, Instr};
use cw_text::{Expr, Stmt, Word};
use std::alloc::Global;

/// The code that was emitted so far, the visible locals, the most that were visible at once in this function, the
/// cells, and the functions.
#[derive(Drop)]
pub(crate) struct Emitter<'a> {
    pub(crate) elements: Elements<'a>,
    pub(crate) functions: Functions<'a>,
    pub(crate) code: Listing,
    pub(crate) slots: Slots<'a>,
    pub(crate) most: u32,
}

impl<'a> Emitter<'a> {
    ghost use Rattle.cw_compile.specs.Emitted.{with_code, with_statement_code, with_block};

    /// Returns an emitter without code, over these cells and functions.
    pub(crate) fn new(
        alloc: Global,
        elements: Elements<'a>,
        functions: Functions<'a>,
    ) -> Emitter<'a>
        ensures { result ≡ record { elements = elements.entry; functions = functions.entry; code = []; slots = []; most = 0 } }
    {
        Emitter {
            elements,
            functions,
            code: Listing::new(alloc),
            slots: Slots::new(alloc),
            most: 0,
        }
    }

    /// Emits an instruction.
    pub(crate) fn emit(&mut self, instr: Instr) -> Result<(), OutOfMemory>
        ensures { OnOk result (self.new ≡ with_code self.old (instr ∷ [])) }
    {
        self.code.push(instr)
    }

    /// The instruction that reads the local or cell called `name`.
    fn read(&self, name: &Text) -> Instr
        ensures { result ≡ reads self.now.elements self.now.functions (slot_of self.now.slots name.now) name.now }
    {
        match self.slots.find(name.as_str()) {
            Some(number) => local(number),
            None => load(self.elements.get(name.as_str()).unwrap_or(0)),
        }
    }

    /// The instruction that writes the local or cell called `name`.
    fn write(&self, name: &Text) -> Instr
        ensures { result ≡ writes self.now.elements self.now.functions (slot_of self.now.slots name.now) name.now }
    {
        match self.slots.find(name.as_str()) {
            Some(number) => set(number),
            None => store(self.elements.get(name.as_str()).unwrap_or(0)),
        }
    }

    /// The instruction that reads an element of the array called `name`.
    fn read_at(&self, name: &Text) -> Instr
        ensures { result ≡ loads_at self.now.elements self.now.functions (cell_of self.now.elements name.now) }
    {
        match self.elements.find(name.as_str()) {
            Some(extent) => load_at(extent.base, extent.len),
            None => load_at(0, 0),
        }
    }

    /// The instruction that writes an element of the array called `name`.
    fn write_at(&self, name: &Text) -> Instr
        ensures { result ≡ stores_at self.now.elements self.now.functions (cell_of self.now.elements name.now) }
    {
        match self.elements.find(name.as_str()) {
            Some(extent) => store_at(extent.base, extent.len),
            None => store_at(0, 0),
        }
    }

    /// The instruction that calls the function called `name`.
    fn call_of(&self, name: &Text) -> Instr
        ensures { result ≡ calls self.now.elements self.now.functions name.now }
    {
        call(self.functions.number(name.as_str()))
    }

    /// Emits an expression.
    #[cycle(expression)]
    fn term(&mut self, term: &Expr) -> Result<(), OutOfMemory>
        ensures { OnOk result (self.new ≡ with_code self.old (term_code self.old.elements self.old.functions self.old.slots (term_of term.now))) }
    {
        match term {
            Expr::Number(number) => self.emit(push(*number)),
            Expr::Name(word) => self.emit(self.read(&word.name)),
            Expr::At { name, at } => {
                self.term(at)?;
                self.emit(self.read_at(&name.name))
            }
            Expr::Call { name, args } => self.call(name, args.as_slice()),
            Expr::Unary { op, of } => {
                self.term(of)?;
                match lifted(*op) {
                    Some(operator) => self.emit(arithmetic(operator)),
                    None => Ok(()),
                }
            }
            Expr::Binary { op, left, right } => {
                self.term(left)?;
                self.term(right)?;
                self.emit(join(*op))
            }
        }
    }

    /// Emits a call: its arguments from left to right, and then the call itself.
    #[cycle(expression)]
    fn call(&mut self, name: &Word, args: &[Expr]) -> Result<(), OutOfMemory>
        ensures { OnOk result (self.new ≡ with_code self.old (terms_code self.old.elements self.old.functions self.old.slots (terms_of args.now)
            ++ calls self.old.elements self.old.functions name.now.name ∷ [])) }
    {
        for arg in args {
            self.term(arg)?;
        }
        self.emit(self.call_of(&name.name))
    }

    /// Emits a `let`, behind its tick.
    fn declare(&mut self, name: &'a Word, value: &Expr) -> Result<(), OutOfMemory>
        ensures { OnOk result (self.new ≡ record self.old {
          code = self.old.code ++ (term_code self.old.elements self.old.functions self.old.slots (term_of value.now) ++ set (length self.old.slots) ∷ []);
          slots = name.now.name ∷ self.old.slots;
          most = max self.old.most (length self.old.slots + 1);
        }) }
    {
        self.term(value)?;
        let number = self.slots.add(name.name.as_str())?;
        self.most = self.most.max(self.slots.count());
        self.emit(set(number))
    }

    /// Emits an assignment, behind its tick.
    fn assign(&mut self, name: &Word, value: &Expr) -> Result<(), OutOfMemory>
        ensures { OnOk result (self.new ≡ with_code self.old (term_code self.old.elements self.old.functions self.old.slots (term_of value.now)
            ++ writes self.old.elements self.old.functions (slot_of self.old.slots name.now.name) name.now.name ∷ [])) }
    {
        self.term(value)?;
        self.emit(self.write(&name.name))
    }

    /// Emits an assignment to an element, behind its tick: the index comes before the value.
    fn assign_at(&mut self, name: &Word, at: &Expr, value: &Expr) -> Result<(), OutOfMemory>
        ensures { OnOk result (self.new ≡ with_code self.old (term_code self.old.elements self.old.functions self.old.slots (term_of at.now)
            ++ (term_code self.old.elements self.old.functions self.old.slots (term_of value.now)
            ++ stores_at self.old.elements self.old.functions (cell_of self.old.elements name.now.name) ∷ []))) }
    {
        self.term(at)?;
        self.term(value)?;
        self.emit(self.write_at(&name.name))
    }

    /// Emits a call whose value is dropped, behind its tick.
    fn run(&mut self, name: &Word, args: &[Expr]) -> Result<(), OutOfMemory>
        ensures { OnOk result (self.new ≡ with_code self.old (terms_code self.old.elements self.old.functions self.old.slots (terms_of args.now)
            ++ (calls self.old.elements self.old.functions name.now.name ∷ discard ∷ []))) }
    {
        self.call(name, args)?;
        self.emit(plain(DISCARD))
    }

    /// Emits an output, behind its tick.
    fn show(&mut self, value: &Expr) -> Result<(), OutOfMemory>
        ensures { OnOk result (self.new ≡ with_code self.old (term_code self.old.elements self.old.functions self.old.slots (term_of value.now) ++ show ∷ [])) }
    {
        self.term(value)?;
        self.emit(plain(SHOW))
    }

    /// Emits a `return`, behind its tick: behind the value it waits for what the function spawned.
    fn return_value(&mut self, value: &Expr) -> Result<(), OutOfMemory>
        ensures { OnOk result (self.new ≡ with_code self.old (term_code self.old.elements self.old.functions self.old.slots (term_of value.now)
            ++ (wait ∷ ret ∷ []))) }
    {
        self.term(value)?;
        self.emit(plain(WAIT))?;
        self.emit(plain(RET))
    }

    /// Emits a test and the jump behind it, which has no target yet. Returns the place of the jump.
    fn test(&mut self, test: &Expr) -> Result<u32, OutOfMemory>
        ensures code { OnOk result (self.new ≡ with_code self.old (term_code self.old.elements self.old.functions self.old.slots (term_of test.now) ++ jump_zero 0 ∷ [])) }
        ensures last { IfOk result (λ place. place + 1 ≡ length self.new.code) }
    {
        self.term(test)?;
        let place = self.code.place();
        self.emit(jump_zero(0))?;
        Ok(place)
    }

    /// Emits the jump behind the first block of a choice, which has no target yet, and returns its place. The jump at
    /// `skip` gets the place behind it as target.
    fn pass(&mut self, skip: u32) -> Result<u32, OutOfMemory>
        requires { skip < length self.old.code }
        ensures code { OnOk result (self.new ≡ record self.old {
          code = slice_set (self.old.code ++ jump 0 ∷ []) skip (jump_zero (length self.old.code + 1));
        }) }
        ensures last { IfOk result (λ place. place ≡ length self.old.code) }
    {
        let place = self.code.place();
        self.emit(jump(0))?;
        self.code.put(skip, jump_zero(self.code.place()));
        Ok(place)
    }

    /// Emits a `cancel`, behind its tick: it waits for what the block spawned, and ends the block after its cells are written back.
    fn cancel(&mut self, ending: u32) -> Result<(), OutOfMemory>
        ensures { OnOk result (self.new ≡ with_code self.old (wait ∷ cancel ∷ jump ending ∷ [])) }
    {
        self.emit(plain(WAIT))?;
        self.emit(plain(CANCEL))?;
        self.emit(jump(ending))
    }

    /// Emits a statement. The innermost atomic block of its function has its end at the place `ending`. What the
    /// statement declares is visible afterwards.
    #[cycle(walk)]
    fn statement(&mut self, statement: &'a Stmt, ending: u32) -> Result<(), OutOfMemory>
        ensures { OnOk result (self.new ≡ with_statement_code self.old ending (statement_of statement.now)) }
    {
        let start = self.code.place();
        self.emit(plain(TICK))?;
        match statement {
            Stmt::Let { name, value } => self.declare(name, value),
            Stmt::Assign { name, value } => self.assign(name, value),
            Stmt::AssignAt { name, at, value } => self.assign_at(name, at, value),
            Stmt::Call { name, args } => self.run(name, args.as_slice()),
            Stmt::Out(value) => self.show(value),
            Stmt::If { test, then, other } => {
                let skip = self.test(test)?;
                self.block(then.as_slice(), ending)?;
                let pass = self.pass(skip)?;
                self.block(other.as_slice(), ending)?;
                self.code.put(pass, jump(self.code.place()));
                Ok(())
            }
            Stmt::While { test, body } => {
                let skip = self.test(test)?;
                self.block(body.as_slice(), ending)?;
                self.emit(jump(start))?;
                self.code.put(skip, jump_zero(self.code.place()));
                Ok(())
            }
            Stmt::Atomic(body) => {
                let body = body.as_slice();
                self.emit(plain(BEGIN))?;
                let last = lengths::place_behind(self.code.place(), body)?;
                self.block(body, last)?;
                self.emit(plain(WAIT))?;
                self.emit(plain(END))
            }
            Stmt::Spawn(body) => {
                let place = self.code.place();
                self.emit(fork(0))?;
                self.block(body.as_slice(), ending)?;
                self.emit(plain(WAIT))?;
                self.emit(plain(DONE))?;
                self.code.put(place, fork(self.code.place()));
                Ok(())
            }
            Stmt::Sync => self.emit(plain(WAIT)),
            Stmt::Cancel { .. } => self.cancel(ending),
            Stmt::Return { value, .. } => self.return_value(value),
        }
    }

    /// Emits the statements of a block. What they declare is visible to the block's end.
    #[cycle(walk)]
    fn block(&mut self, body: &'a [Stmt], ending: u32) -> Result<(), OutOfMemory>
        ensures { OnOk result (self.new ≡ with_block self.old ending (block_of body.now)) }
    {
        let outer = self.slots.count();
        for statement in body {
            self.statement(statement, ending)?;
        }
        self.slots.forget(outer)
    }

    /// Makes parameters visible from now on.
    fn params(&mut self, params: &'a [Word]) -> Result<(), OutOfMemory>
        ensures { OnOk result (self.new ≡ record self.old { slots = slots_with_params params.now self.old.slots }) }
    {
        for word in params {
            self.slots.add(word.name.as_str())?;
        }
        Ok(())
    }

    /// Emits a function.
    pub(crate) fn function(
        &mut self,
        params: &'a [Word],
        body: &'a [Stmt],
    ) -> Result<Func, OutOfMemory>
        ensures elements { OnOk result (self.new.elements ≡ self.old.elements) }
        ensures functions { OnOk result (self.new.functions ≡ self.old.functions) }
        ensures code { OnOk result (self.new.code ≡ self.old.code
            ++ function_code self.old.elements self.old.functions (length self.old.code) params.now (block_of body.now)) }
        ensures func { IfOk result (λ f. f ≡ record {
          params = length params.now;
          locals = most (length params.now) (block_of body.now);
          start = length self.old.code;
          end = length self.new.code;
        }) }
    {
        let start = self.code.place();
        self.slots.forget(0)?;
        self.params(params)?;
        let params = self.slots.count();
        self.most = params;
        self.block(body, 0)?;
        self.emit(plain(WAIT))?;
        self.emit(push(0))?;
        self.emit(plain(RET))?;
        Ok(Func {
            params,
            locals: self.most,
            start,
            end: self.code.place(),
        })
    }
}
