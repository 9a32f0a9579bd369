//! Boards and tokens whose types name their table. So the types say that a token belongs to a board.
ghost use Rattle.std.specs.Prelude.{◌≡◌, IfOk, IfErr};
ghost use Rattle.cw_course.specs.Closings.{IsPutTogether};
ghost use Rattle.cw_log.specs.Tokens.{logs};
ghost use Rattle.cw_steps.specs.Stands.{token_of};
ghost use Rattle.cw_board.specs.Boards.{budget_of, cells_in, columns_of, table_of, AreOfCells, IsOf};

use crate::Board;
use cw_base::{OutOfMemory, Seq};
use cw_code::Back;
use cw_log::{Access, Forked, SharedBoard};
use cw_steps::StrandToken;
use cw_trace::Early;
use cw_tree::{Closed, Halt, Node};
use std::marker::{Brand, Model, PhantomData};
use std::sync::Wait;

/// Names a table, and the number of columns that its tier may have. Each run picks it.
pub trait BoardName: Send + Sync {
    ghost use Rattle.std.specs.Prelude.{ℕ};
    ghost use Rattle.atomic_table.specs.Seated.{TableId};

    ghost table: { TableId };

    ghost columns: { ℕ };
}

impl BoardName for Brand {
    ghost use Rattle.cw_board.specs.Boards.{no_table};

    ghost table = { no_table };

    ghost columns = { 0 };
}

/// A board whose table is `N.table`. Contracts see the number of its cells, and the most attempts of a block or an access.
#[derive(Drop)]
pub struct NamedBoard<N: BoardName> {
    board: Board,
    of: PhantomData<N>,
}

/// A token of the board whose table is `N.table`. Contracts see what it stands for.
#[derive(Drop)]
pub struct NamedToken<N: BoardName> {
    token: StrandToken,
    of: PhantomData<N>,
}

impl<N: BoardName> Model for NamedToken<N> {
    ghost use Rattle.cw_log.specs.declared.token.Token.{Token};
    ghost use Rattle.cw_steps.specs.Stands.{token_of};
    ghost use Rattle.cw_board.specs.Boards.{IsAt};

    ghost Value = { Token };

    ghost view = { λ t. token_of t.token };

    ghost invariant = { λ t. IsAt N.table N.columns t.token };
}

impl<N: BoardName> Model for NamedBoard<N> {
    ghost use Rattle.std.specs.Prelude.{◌≡◌};
    ghost use Rattle.cw_board.specs.Boards.{budget_of, cells_in, columns_of, table_of, Extent};

    ghost Value = { Extent };

    ghost view = { λ b. record { cells = cells_in b.board; budget = budget_of b.board } };

    ghost invariant = { λ b. (table_of b.board ≡ N.table) × (columns_of b.board ≡ N.columns) };
}

impl Board {
    /// Returns the board and a token of it with the name of their table in their types.
    pub fn named<N: BoardName>(self, token: StrandToken) -> (NamedBoard<N>, NamedToken<N>)
        requires of { IsOf self token }
        requires name { (table_of self ≡ N.table) × (columns_of self ≡ N.columns) }
        ensures board { result.0 ≡ record { cells = cells_in self; budget = budget_of self } }
        ensures token { result.1 ≡ token_of token }
    {
        let board = NamedBoard {
            board: self,
            of: PhantomData,
        };
        let token = NamedToken {
            token,
            of: PhantomData,
        };
        (board, token)
    }
}

impl<N: BoardName> NamedBoard<N> {
    /// Closes the board with the root's token, to which all others were joined, as `Board::close` does. If memory runs out, it
    /// gives back board and token.
    pub fn close(
        self,
        token: NamedToken<N>,
    ) -> Result<Closed, (NamedBoard<N>, NamedToken<N>, OutOfMemory)>
        ensures together { IfOk result (λ c. IsPutTogether (logs token) token.stop c) }
        ensures journals { IfOk result (λ c. AreOfCells self.cells c.journals) }
        ensures err { IfErr result (λ e. (e.0 ≡ self) × (e.1 ≡ token)) }
    {
        let NamedBoard { board, .. } = self;
        let NamedToken { token, .. } = token;
        match board.close(token) {
            Ok(closed) => Ok(closed),
            Err((board, token, error)) => {
                let board = NamedBoard {
                    board,
                    of: PhantomData,
                };
                let token = NamedToken {
                    token,
                    of: PhantomData,
                };
                Err((board, token, error))
            }
        }
    }
}

impl<N: BoardName> SharedBoard for NamedBoard<N> {
    type Token = NamedToken<N>;

    ghost of = { λ t. t };

    ghost cells = { λ b. b.cells };

    ghost budget = { λ b. b.budget };

    fn begin(&self, token: &mut NamedToken<N>) -> Result<(), OutOfMemory> {
        let NamedToken { token, .. } = token;
        self.board.begin(token)
    }

    fn commit(&self, token: &mut NamedToken<N>) {
        let NamedToken { token, .. } = token;
        self.board.commit(token);
    }

    fn out(&self, token: &mut NamedToken<N>, value: i64) -> Result<(), OutOfMemory> {
        let NamedToken { token, .. } = token;
        self.board.out(token, value)?;
        Ok(())
    }

    fn access<R: Wait>(
        &self,
        rt: &R,
        token: &mut NamedToken<N>,
        cell: u32,
        write: Option<i64>,
    ) -> Result<Access, OutOfMemory> {
        let NamedToken { token, .. } = token;
        self.board.access(rt, token, cell, write)
    }

    fn cancel<R: Wait>(&self, rt: &R, token: &mut NamedToken<N>) -> Result<Seq<Back>, OutOfMemory> {
        let NamedToken { token, .. } = token;
        self.board.cancel(rt, token)
    }

    fn fork<R: Wait>(
        &self,
        rt: &R,
        token: NamedToken<N>,
    ) -> Result<Forked<NamedToken<N>>, (NamedToken<N>, OutOfMemory)> {
        let NamedToken { token, .. } = token;
        match self.board.fork(rt, token) {
            Ok(Forked::Two { fork, left, right }) => {
                let left = NamedToken {
                    token: left,
                    of: PhantomData,
                };
                let right = NamedToken {
                    token: right,
                    of: PhantomData,
                };
                Ok(Forked::Two { fork, left, right })
            }
            Ok(Forked::Inline { token }) => {
                let token = NamedToken {
                    token,
                    of: PhantomData,
                };
                Ok(Forked::Inline { token })
            }
            Err((token, error)) => {
                let token = NamedToken {
                    token,
                    of: PhantomData,
                };
                Err((token, error))
            }
        }
    }

    fn next_branch(&self, token: &mut NamedToken<N>) {
        let NamedToken { token, .. } = token;
        self.board.next_branch(token);
    }

    fn roll<R: Wait>(&self, rt: &R, token: &mut NamedToken<N>) {
        let NamedToken { token, .. } = token;
        self.board.roll(rt, token);
    }

    fn split<R: Wait>(&self, rt: &R, token: &mut NamedToken<N>, fork: u32) -> Result<(), Early> {
        let NamedToken { token, .. } = token;
        self.board.split(rt, token, fork)
    }

    fn take_back(&self, left: &mut NamedToken<N>, right: &mut NamedToken<N>) {
        let NamedToken { token: left, .. } = left;
        let NamedToken { token: right, .. } = right;
        self.board.take_back(left, right);
    }

    fn join(&self, left: NamedToken<N>, right: NamedToken<N>) -> NamedToken<N> {
        let NamedToken { token: left, .. } = left;
        let NamedToken { token: right, .. } = right;
        NamedToken {
            token: self.board.join(left, right),
            of: PhantomData,
        }
    }

    fn merge<R: Wait>(&self, rt: &R, token: &mut NamedToken<N>, fork: u32) {
        let NamedToken { token, .. } = token;
        self.board.merge(rt, token, fork);
    }

    fn halt(&self, token: &mut NamedToken<N>, halt: Halt) {
        let NamedToken { token, .. } = token;
        self.board.halt(token, halt);
    }

    fn halted(&self, token: &mut NamedToken<N>) -> bool {
        let NamedToken { token, .. } = token;
        self.board.halted(token)
    }

    fn place(&self, token: &NamedToken<N>) -> u32 {
        self.board.place(&token.token)
    }

    fn nodes<'a>(&self, token: &'a NamedToken<N>) -> &'a [Node] {
        self.board.nodes(&token.token)
    }
}
