//! Strands that a test leads on a board. What a call asks is looked up in the token, or known from the calls before. If it is not
//! met, the test gets `OutOfMemory`.
ghost use Rattle.std.specs.Prelude.{◌≡◌, ◌<◌, ◌∷◌, [], All, Contains, IsTrue, IfOk, true, false, if◌then◌else◌};
ghost use Rattle.cw_log.specs.declared.log.Above.{Above};
ghost use Rattle.cw_log.specs.declared.token.Phase.TheVariants.{Going, Parted, Waiting};
ghost use Rattle.cw_log.specs.Tokens.{conflicts_in, logs, root_token, Fells, GoesFree};
ghost use Rattle.cw_steps.specs.Stands.{token_of};
ghost use Rattle.cw_tree.specs.declared.conflict.Conflict.{Conflict};
ghost use Rattle.cw_board.specs.Boards.{budget_of, cells_in, columns_of, table_of, IsAt, IsOf};
ghost use Rattle.tests_board.specs.Led.{IsLed};

use cw_base::{OutOfMemory, Seq, Stack};
use cw_board::{Board, BoardName, Moved};
use cw_code::Back;
use cw_log::{Above, Access, Forked, Logs, Phase};
use cw_order::Steps;
use cw_steps::StrandToken;
use cw_trace::Verdict;
use cw_tree::{Closed, Conflict, Mark};
use std::alloc::Global;
use std::marker::{Brand, Model, PhantomData};
use std::sync::Wait;
use std::sync::ledger::{Blank, Ledger};

/// A board whose table is `N.table`.
#[derive(Drop)]
pub(super) struct Scene<N: BoardName> {
    board: Board,
    alloc: Global,
    cells: u32,
    budget: u32,
    of: PhantomData<N>,
}

/// Where a strand stands: its number in its log, the fork as whose right strand its token began, whether that fork is split, the
/// token's phase, and the forks in whose left strands it stands, each with the strand that waits.
#[derive(Drop)]
struct Stand {
    strand: u32,
    fork: u32,
    split: bool,
    phase: Phase,
    forks: Stack<u32>,
    strands: Stack<u32>,
}

/// A strand, with its token of the board whose table is `N.table`. It has not stopped.
#[derive(Drop)]
pub(super) struct Strand<N: BoardName> {
    token: StrandToken,
    stand: Stand,
    of: PhantomData<N>,
}

impl<N: BoardName> Model for Scene<N> {
    ghost use Rattle.std.specs.Prelude.{◌≡◌, ℕ};
    ghost use Rattle.cw_board.specs.Boards.{budget_of, cells_in, columns_of, table_of};

    ghost Value = { ℕ };

    ghost view = { λ s. 0 };

    ghost invariant = { λ s. (table_of s.board ≡ N.table) × (columns_of s.board ≡ N.columns) × (budget_of s.board ≡ s.budget) × (cells_in s.board ≡ s.cells) };
}

impl<N: BoardName> Model for Strand<N> {
    ghost use Rattle.std.specs.Prelude.{ℕ};
    ghost use Rattle.cw_steps.specs.Stands.{token_of};
    ghost use Rattle.cw_board.specs.Boards.{IsAt};
    ghost use Rattle.tests_board.specs.Led.{IsLed};

    ghost Value = { ℕ };

    ghost view = { λ s. 0 };

    ghost invariant = { λ s. IsAt N.table N.columns s.token × IsLed (token_of s.token) s.stand.strand s.stand.fork s.stand.split s.stand.phase s.stand.forks s.stand.strands };
}

/// Makes a strand that stands there.
fn strand_of<N: BoardName>(token: StrandToken, stand: Stand) -> Strand<N>
    requires at { IsAt N.table N.columns token }
    requires led { IsLed (token_of token) stand.strand stand.fork stand.split stand.phase stand.forks stand.strands }
{
    let led = Strand {
        token,
        stand,
        of: PhantomData,
    };
    led
}

// ## What calls ask

fn are_unspent(conflicts: &[Conflict], budget: u32) -> bool
    ensures { IsTrue result → All (λ c. c.attempt ≡ budget → ⊥) conflicts.now }
{
    conflicts.iter().all(|c| c.attempt != budget)
}

fn all_unspent(logs: &Logs, budget: u32) -> bool
    ensures { IsTrue result → All (λ l. All (λ c. c.attempt ≡ budget → ⊥) l.conflicts) logs.now }
{
    logs.iter()
        .all(|log| are_unspent(log.conflicts.as_slice(), budget))
}

/// Whether no block has this begin stamp.
fn is_none_of(begin: u64, blocks: &[Above]) -> bool
    ensures { IsTrue result → All (λ (a : Above). a.begin ≡ begin → ⊥) blocks.now }
{
    blocks.iter().all(|block| block.begin != begin)
}

fn are_free(conflicts: &[Conflict], blocks: &[Above]) -> bool
    ensures { IsTrue result → All (λ c. All (λ (a : Above). a.begin ≡ c.victim → ⊥) blocks.now) conflicts.now }
{
    conflicts.iter().all(|c| is_none_of(c.victim, blocks))
}

fn all_free(logs: &Logs, blocks: &[Above]) -> bool
    ensures { IsTrue result → All (λ l. All (λ c. All (λ (a : Above). a.begin ≡ c.victim → ⊥) blocks.now) l.conflicts) logs.now }
{
    logs.iter()
        .all(|log| are_free(log.conflicts.as_slice(), blocks))
}

fn both(a: bool, b: bool) -> bool
    ensures { IsTrue result → IsTrue a × IsTrue b }
{
    a && b
}

/// Whether no conflict in the token's logs is from the last attempt.
fn is_unspent(token: &StrandToken, budget: u32) -> bool
    ensures { IsTrue result → All (λ c. c.attempt ≡ budget → ⊥) (conflicts_in (logs (token_of token.now))) }
{
    both(
        are_unspent(token.conflicts(), budget),
        all_unspent(token.joined_logs(), budget),
    )
}

/// Whether no pending block around the token's place is the victim of a conflict in its logs.
fn is_free(token: &StrandToken) -> bool
    ensures { IsTrue result → All (λ c. Fells (token_of token.now) c → ⊥) (conflicts_in (logs (token_of token.now))) }
{
    let blocks = token.pending();
    both(
        are_free(token.conflicts(), blocks),
        all_free(token.joined_logs(), blocks),
    )
}

fn has_block(blocks: &[Above], begin: u64) -> bool
    ensures { IsTrue result → (a : Above) × Contains blocks.now a × (a.begin ≡ begin) }
{
    for block in blocks {
        if block.begin == begin {
            return true;
        }
    }
    false
}

fn has_victim(conflicts: &[Conflict], blocks: &[Above]) -> bool
    ensures { IsTrue result → (c : Conflict) × Contains conflicts.now c × ((a : Above) × Contains blocks.now a × (a.begin ≡ c.victim)) }
{
    for conflict in conflicts {
        if has_block(blocks, conflict.victim) {
            return true;
        }
    }
    false
}

/// Whether a pending block around the token's place is the victim of a conflict in its own log.
fn is_felled(token: &StrandToken) -> bool
    ensures { IsTrue result → (c : Conflict) × Contains (conflicts_in (logs (token_of token.now))) c × Fells (token_of token.now) c }
{
    has_victim(token.conflicts(), token.pending())
}

fn goes(token: &StrandToken, stand: &Stand, budget: u32) -> bool
    requires { IsLed (token_of token.now) stand.now.strand stand.now.fork stand.now.split stand.now.phase stand.now.forks stand.now.strands }
    ensures { IsTrue result → GoesFree budget (token_of token.now) }
{
    both(
        stand.is_going(),
        both(is_unspent(token, budget), is_free(token)),
    )
}

/// What is answered where a strand goes no further.
fn lost(token: StrandToken, stand: Stand) -> OutOfMemory {
    drop(token);
    drop(stand);
    OutOfMemory
}

impl Stand {
    /// Where the right strand of a fork begins.
    fn right(alloc: Global, fork: u32) -> Stand
        ensures { result ≡ record { strand = 0; fork = fork; split = false; phase = Waiting; forks = []; strands = [] } }
    {
        Stand {
            strand: 0,
            fork,
            split: false,
            phase: Phase::Waiting,
            forks: Stack::new(alloc),
            strands: Stack::new(alloc),
        }
    }

    /// Where the left strand of the fork goes on.
    fn left(self, strand: u32, fork: u32) -> Result<Stand, OutOfMemory>
        ensures { IfOk result (λ s. s ≡ record self { strand = strand; forks = fork ∷ self.forks; strands = self.strand ∷ self.strands }) }
    {
        let mut stand = self;
        match stand.forks.push(fork) {
            Ok(()) => {}
            Err(fault) => {
                drop(stand);
                return Err(fault);
            }
        }
        match stand.strands.push(stand.strand) {
            Ok(()) => {}
            Err(fault) => {
                drop(stand);
                return Err(fault);
            }
        }
        stand.strand = strand;
        Ok(stand)
    }

    fn split(self) -> Stand
        ensures { result ≡ record self { split = true; phase = Going } }
    {
        let mut stand = self;
        stand.split = true;
        stand.phase = Phase::Going;
        stand
    }

    fn going(self) -> Stand
        ensures { result ≡ record self { phase = Going } }
    {
        let mut stand = self;
        stand.phase = Phase::Going;
        stand
    }

    /// Where the strand that forked stands, if these are the two strands of a fork.
    fn behind(self, right: Stand) -> Result<Stand, OutOfMemory>
        ensures fork { IfOk result (λ s. (right.forks ≡ []) × (self.forks ≡ right.fork ∷ s.forks)) }
        ensures strand { IfOk result (λ s. self.strands ≡ s.strand ∷ s.strands) }
        ensures kept { IfOk result (λ s. (s.fork ≡ self.fork) × (s.split ≡ self.split)) }
        ensures phase { IfOk result (λ s. s.phase ≡ (if right.split then Parted right.fork else Going)) }
    {
        let mut stand = self;
        let fork = stand.forks.pop();
        let strand = stand.strands.pop();
        let (Some(fork), Some(strand)) = (fork, strand) else {
            drop(stand);
            drop(right);
            return Err(OutOfMemory);
        };
        if fork != right.fork || right.forks.len() > 0 {
            drop(stand);
            drop(right);
            return Err(OutOfMemory);
        }
        stand.strand = strand;
        stand.phase = if right.split {
            Phase::Parted(fork)
        } else {
            Phase::Going
        };
        drop(right);
        Ok(stand)
    }

    fn is_going(&self) -> bool
        ensures { IsTrue result → self.now.phase ≡ Going }
    {
        matches!(self.phase, Phase::Going)
    }

    fn waits(&self) -> bool
        ensures { IsTrue result → self.now.phase ≡ Waiting }
    {
        matches!(self.phase, Phase::Waiting)
    }

    /// Whether no block that its strand began is pending at `place`, and nothing has to be merged.
    fn is_done(&self, place: u32) -> bool
        ensures { IsTrue result → (place ≡ self.now.strand) × (self.now.phase ≡ Going) }
    {
        both(place == self.strand, self.is_going())
    }
}

/// Returns the verdict on the access `last` and the token's next one, or `Moved` if the tier was changing.
fn asks_counted<K: Ledger, L: Ledger>(
    board: &Board,
    blanks: (Blank, Blank),
    token: &mut StrandToken,
    last: Mark,
) -> Result<Verdict, Moved>
    requires looks { (blanks.0.name ≡ K.name) × (blanks.0.parts ≡ K.parts) × (0 < K.parts) }
    requires compares { (blanks.1.name ≡ L.name) × (blanks.1.parts ≡ L.parts) × (0 < L.parts) }
    requires of { IsOf board.now token.old }
    ensures of { IsOf board.now token.new }
    ensures token { token_of token.new ≡ token_of token.old }
{
    let mut looks = Steps::<K>::new(blanks.0);
    let mut compares = Steps::<L>::new(blanks.1);
    board.ask(token, last, &mut looks, &mut compares)
}

fn asks(board: &Board, token: &mut StrandToken, last: Mark) -> Result<Verdict, Moved>
    requires of { IsOf board.now token.old }
    ensures of { IsOf board.now token.new }
    ensures token { token_of token.new ≡ token_of token.old }
{
    let blanks = (Blank::new(1), Blank::new(1));
    asks_counted::<Brand, Brand>(board, blanks, token, last)
}

// ## Calls

impl<N: BoardName> Scene<N> {
    /// Takes the board, and its root's strand.
    pub(super) fn new(
        alloc: Global,
        board: Board,
        token: StrandToken,
        cells: u32,
        budget: u32,
    ) -> (Scene<N>, Strand<N>)
        requires name { (table_of board ≡ N.table) × (columns_of board ≡ N.columns) }
        requires size { (budget_of board ≡ budget) × (cells_in board ≡ cells) }
        requires of { IsOf board token }
        requires root { token_of token ≡ root_token }
    {
        let stand = Stand {
            strand: 0,
            fork: 0,
            split: false,
            phase: Phase::Going,
            forks: Stack::new(alloc),
            strands: Stack::new(alloc),
        };
        let scene = Scene {
            board,
            alloc,
            cells,
            budget,
            of: PhantomData,
        };
        (scene, strand_of(token, stand))
    }

    pub(super) fn close(self, root: Strand<N>) -> Result<Closed, OutOfMemory> {
        let Scene { board, .. } = self;
        let Strand { token, stand, .. } = root;
        drop(stand);
        match board.close(token) {
            Ok(closed) => Ok(closed),
            Err((board, token, error)) => {
                drop(board);
                drop(token);
                Err(error)
            }
        }
    }

    pub(super) fn begin(&self, led: Strand<N>) -> Result<Strand<N>, OutOfMemory> {
        let Strand { token, stand, .. } = led;
        let mut token = token;
        if !goes(&token, &stand, self.budget) {
            return Err(lost(token, stand));
        }
        match self.board.begin(&mut token) {
            Ok(()) => Ok(strand_of(token, stand)),
            Err(_) => Err(lost(token, stand)),
        }
    }

    pub(super) fn commit(&self, led: Strand<N>) -> Result<Strand<N>, OutOfMemory> {
        let Strand { token, stand, .. } = led;
        let mut token = token;
        if !goes(&token, &stand, self.budget) {
            return Err(lost(token, stand));
        }
        if token.place() == stand.strand {
            return Err(lost(token, stand));
        }
        self.board.commit(&mut token);
        Ok(strand_of(token, stand))
    }

    pub(super) fn out(&self, led: Strand<N>, value: i64) -> Result<Strand<N>, OutOfMemory> {
        let Strand { token, stand, .. } = led;
        let mut token = token;
        if !goes(&token, &stand, self.budget) {
            return Err(lost(token, stand));
        }
        match self.board.out(&mut token, value) {
            Ok(()) => Ok(strand_of(token, stand)),
            Err(_) => Err(lost(token, stand)),
        }
    }

    pub(super) fn access<R: Wait>(
        &self,
        rt: &R,
        led: Strand<N>,
        cell: u32,
        write: Option<i64>,
    ) -> Result<(Strand<N>, Access), OutOfMemory> {
        let Strand { token, stand, .. } = led;
        let mut token = token;
        if !goes(&token, &stand, self.budget) {
            return Err(lost(token, stand));
        }
        if cell >= self.cells {
            return Err(lost(token, stand));
        }
        match self.board.access(rt, &mut token, cell, write) {
            Ok(access) => Ok((strand_of(token, stand), access)),
            Err(_) => Err(lost(token, stand)),
        }
    }

    /// Gives up a block. Returns what is put back.
    pub(super) fn cancel<R: Wait>(
        &self,
        rt: &R,
        led: Strand<N>,
    ) -> Result<(Strand<N>, Seq<Back>), OutOfMemory> {
        let Strand { token, stand, .. } = led;
        let mut token = token;
        if !goes(&token, &stand, self.budget) {
            return Err(lost(token, stand));
        }
        if token.place() == stand.strand {
            return Err(lost(token, stand));
        }
        match self.board.cancel(rt, &mut token) {
            Ok(back) => Ok((strand_of(token, stand), back)),
            Err(_) => Err(lost(token, stand)),
        }
    }

    pub(super) fn chain<R: Wait>(
        &self,
        rt: &R,
        led: Strand<N>,
        cell: u32,
    ) -> Result<(Strand<N>, Vec<u64>), OutOfMemory> {
        let Strand { token, stand, .. } = led;
        let mut token = token;
        if cell >= self.cells {
            return Err(lost(token, stand));
        }
        match self.board.chain(rt, &mut token, cell) {
            Ok(chain) => Ok((strand_of(token, stand), chain)),
            Err(_) => Err(lost(token, stand)),
        }
    }

    pub(super) fn ask(&self, led: Strand<N>, last: Mark) -> (Strand<N>, Result<Verdict, Moved>) {
        let Strand { token, stand, .. } = led;
        let mut token = token;
        let answer = asks(&self.board, &mut token, last);
        (strand_of(token, stand), answer)
    }

    /// Forks a strand. Returns both strands, the right one with a token of its own.
    pub(super) fn fork<R: Wait>(
        &self,
        rt: &R,
        led: Strand<N>,
    ) -> Result<(Strand<N>, Strand<N>), OutOfMemory> {
        let Strand { token, stand, .. } = led;
        if !goes(&token, &stand, self.budget) {
            return Err(lost(token, stand));
        }
        match self.board.fork(rt, token) {
            Ok(Forked::Two { fork, left, right }) => {
                let strand = self.board.place(&left);
                match stand.left(strand, fork) {
                    Ok(inner) => {
                        let begin = Stand::right(self.alloc, fork);
                        Ok((strand_of(left, inner), strand_of(right, begin)))
                    }
                    Err(error) => {
                        drop(left);
                        drop(right);
                        Err(error)
                    }
                }
            }
            Ok(Forked::Inline { token }) => Err(lost(token, stand)),
            Err((token, _)) => Err(lost(token, stand)),
        }
    }

    pub(super) fn split<R: Wait>(&self, rt: &R, led: Strand<N>) -> Result<Strand<N>, OutOfMemory> {
        let Strand { token, stand, .. } = led;
        let mut token = token;
        if !stand.waits() {
            return Err(lost(token, stand));
        }
        if !is_unspent(&token, self.budget) {
            return Err(lost(token, stand));
        }
        match self.board.split(rt, &mut token, stand.fork) {
            Ok(()) => Ok(strand_of(token, stand.split())),
            Err(_) => Err(lost(token, stand)),
        }
    }

    pub(super) fn join(&self, left: Strand<N>, right: Strand<N>) -> Result<Strand<N>, OutOfMemory> {
        let Strand { token, stand, .. } = left;
        let Strand {
            token: ending,
            stand: ended,
            ..
        } = right;
        if !stand.is_done(token.place()) {
            let _ = lost(ending, ended);
            return Err(lost(token, stand));
        }
        if !ended.is_done(ending.place()) {
            let _ = lost(ending, ended);
            return Err(lost(token, stand));
        }
        match stand.behind(ended) {
            Ok(outer) => {
                let token = self.board.join(token, ending);
                Ok(strand_of(token, outer))
            }
            Err(error) => {
                drop(token);
                drop(ending);
                Err(error)
            }
        }
    }

    pub(super) fn merge<R: Wait>(&self, rt: &R, led: Strand<N>) -> Result<Strand<N>, OutOfMemory> {
        let Strand { token, stand, .. } = led;
        let mut token = token;
        if !is_unspent(&token, self.budget) {
            return Err(lost(token, stand));
        }
        let Phase::Parted(fork) = stand.phase else {
            return Err(lost(token, stand));
        };
        self.board.merge(rt, &mut token, fork);
        Ok(strand_of(token, stand.going()))
    }

    pub(super) fn roll<R: Wait>(&self, rt: &R, led: Strand<N>) -> Result<Strand<N>, OutOfMemory> {
        let Strand { token, stand, .. } = led;
        let mut token = token;
        if token.place() == stand.strand {
            return Err(lost(token, stand));
        }
        if !stand.is_going() {
            return Err(lost(token, stand));
        }
        if !is_unspent(&token, self.budget) {
            return Err(lost(token, stand));
        }
        if !is_felled(&token) {
            return Err(lost(token, stand));
        }
        self.board.roll(rt, &mut token);
        Ok(strand_of(token, stand))
    }
}
