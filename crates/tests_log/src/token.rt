//! A token that keeps what it stands for, with what every board does to it.
ghost use Rattle.std.specs.Prelude.{◌≡◌, ◌<◌, IsTrue, All, ◌≤◌, ◌^◌, [], ◌∷◌, ◌++◌, length, OnOk, OnErr, IfOk};
ghost use Rattle.cw_tree.specs.declared.node.Kind.TheVariants.{Strand};
ghost use Rattle.cw_tree.specs.Nodes as nodes;
ghost use Rattle.cw_log.specs.Tokens.{AreOfOneFork, began, branched, ended, forked, halted, left_behind, made, once_split, refused, right_of, root_token, taken_in, turned, was_told, IsInline, IsLater};
ghost use Rattle.tests_log.specs.Kept.{logs_of, StandsBeside};

use crate::kept::{Kept, Promise, Spot, Twice};
use cw_base::{OutOfMemory, Seq, Stack};
use cw_log::{Log, LogRoom, Logs, Phase, Stop};
use cw_tree::{BlockState, Conflict, Halt, Kind, Node};
use std::alloc::Global;
use std::marker::Model;

/// The most nodes of a log.
const NODES: usize = 1 << 31;

/// The most logs that the root's token may come to have.
const LOGS: u64 = 1 << 40;

/// A token, with its logs. A fork's number is the most logs that the token of its right strand may come to have. So there are never
/// more logs than a list holds.
#[derive(Drop)]
pub struct StrandToken {
    pub column: u32,
    pub from: u32,
    pub at: u32,
    pub nodes: Vec<Node>,
    pub conflicts: Vec<Conflict>,
    pub joined: Logs,
    pub strand: u32,
    pub place: u32,
    pub around: Stack<u64>,
    pub forks: Vec<Kept>,
    pub fork: u32,
    pub split: bool,
    pub phase: Phase,
    pub stop: Option<Stop>,
    pub told: bool,
    /// The number of logs that may still be joined to it.
    pub room: u64,
    /// Room for its own log in the list of the token to which it is joined.
    pub place_in_list: LogRoom,
}

impl Model for StrandToken {
    ghost use Rattle.cw_log.specs.declared.token.Token.{Token};
    ghost use Rattle.std.specs.Prelude.{◌≡◌, ◌+◌, length};
    ghost use Rattle.tests_log.specs.Kept.{logs_of, opens, promised};

    ghost Value = { Token };

    ghost view = { λ t. record {
      own = record { column = t.column; from = t.from; fork = t.at; nodes = t.nodes.items; conflicts = t.conflicts.items };
      joined = t.joined;
      strand = t.strand;
      place = t.place;
      around = t.around;
      forks = opens t.forks.items;
      fork = t.fork;
      split = t.split;
      phase = t.phase;
      stop = t.stop;
      told = t.told;
    } };

    ghost invariant = { λ t. length t.joined + 1 + promised t.forks.items + t.room ≡ logs_of t.fork };
}

fn first_state(kind: &Kind) -> BlockState
    ensures { result ≡ nodes.first_state kind.now }
{
    match kind {
        Kind::Block => BlockState::Pending,
        _ => BlockState::Committed,
    }
}

fn fresh_node(parent: u32, kind: Kind, stamp: u64) -> Node
    ensures { result ≡ nodes.fresh_node parent kind stamp }
{
    let state = first_state(&kind);
    Node {
        parent,
        kind,
        state,
        stamp,
        end: 0,
    }
}

fn are_before(blocks: Stack<u64>, stamp: u64) -> bool
    ensures { IsTrue result → All (λ b. b < stamp) blocks }
{
    let mut left = blocks;
    for _ in 0..u64::MAX {
        match left.pop() {
            None => return true,
            Some(block) => {
                if block >= stamp {
                    return false;
                }
            }
        }
    }
    false
}

fn victims_before(conflicts: &[Conflict], stamp: u64) -> bool
    ensures { IsTrue result → All (λ c. c.victim < stamp) conflicts.now }
{
    conflicts.iter().all(|c| c.victim < stamp)
}

fn joined_before(logs: &Logs, stamp: u64) -> bool
    ensures { IsTrue result → All (λ l. All (λ c. c.victim < stamp) l.conflicts) logs.now }
{
    logs.iter()
        .all(|log| victims_before(log.conflicts.as_slice(), stamp))
}

fn all_three(a: bool, b: bool, c: bool) -> bool
    ensures { IsTrue result → IsTrue a × IsTrue b × IsTrue c }
{
    a && b && c
}

/// The nodes with which a log begins, and the room for it in a list.
fn fresh_log(alloc: Global) -> Result<(Vec<Node>, LogRoom), OutOfMemory>
    ensures { IfOk result (λ r. r.0.items ≡ nodes.fresh_node 0 Strand 0 ∷ []) }
{
    let place_in_list = LogRoom::new(alloc)?;
    let mut nodes = Vec::new(alloc);
    match nodes.push(fresh_node(0, Kind::Strand, 0)) {
        Ok(()) => Ok((nodes, place_in_list)),
        Err(fault) => {
            drop(nodes);
            drop(place_in_list);
            Err(fault.into())
        }
    }
}

impl StrandToken {
    /// Makes the root's token.
    pub fn root(alloc: Global) -> Result<StrandToken, OutOfMemory>
        ensures { IfOk result (λ t. t ≡ root_token) }
    {
        let (nodes, place_in_list) = fresh_log(alloc)?;
        Ok(StrandToken {
            column: 0,
            from: 0,
            at: 0,
            nodes,
            conflicts: Vec::new(alloc),
            joined: Logs::new(alloc),
            strand: 0,
            place: 0,
            around: Stack::new(alloc),
            forks: Vec::new(alloc),
            fork: 0,
            split: false,
            phase: Phase::Going,
            stop: None,
            told: false,
            room: LOGS - 1,
            place_in_list,
        })
    }

    /// Adds a node in the token's place.
    pub fn make(&mut self, kind: Kind, stamp: u64) -> Result<(), OutOfMemory>
        ensures ok { OnOk result (self.new ≡ made self.old kind stamp) }
        ensures err { OnErr result (self.new ≡ self.old) }
    {
        let node = fresh_node(self.place, kind, stamp);
        self.nodes.push(node)?;
        Ok(())
    }

    /// Adds a block in the token's place, and goes on inside.
    pub fn begin(&mut self, stamp: u64) -> Result<(), OutOfMemory>
        ensures ok { OnOk result (self.new ≡ began self.old stamp) }
        ensures err { OnErr result (self.new ≡ self.old) }
    {
        let place = self.nodes.len();
        if place >= NODES {
            return Err(OutOfMemory);
        }
        self.nodes.reserve(1)?;
        self.around.push(stamp)?;
        let node = fresh_node(self.place, Kind::Block, stamp);
        self.nodes.push_reserved(node);
        self.place = place as u32;
        Ok(())
    }

    /// Ends the block in the token's place.
    pub fn end(&mut self, state: BlockState, end: u64)
        ensures { self.new ≡ ended self.old state end }
    {
        let place = self.place as usize;
        if place < self.nodes.len() {
            let node = &mut self.nodes[place];
            node.state = state;
            node.end = end;
            self.place = node.parent;
        } else {
            self.place = 0;
        }
        let _ = self.around.pop();
    }

    /// Adds an inline fork, and goes on in its left strand.
    pub fn branch(&mut self, stamp: u64) -> Result<(), OutOfMemory>
        ensures ok { OnOk result (self.new ≡ branched self.old stamp) }
        ensures err { OnErr result (self.new ≡ self.old) }
    {
        let fork = self.nodes.len();
        if fork >= NODES {
            return Err(OutOfMemory);
        }
        self.nodes.reserve(3)?;
        self.forks.reserve(1)?;
        let one = self.around.copy()?;
        let other = self.around.copy()?;
        let fork = fork as u32;
        let at = Spot {
            strand: self.strand,
            place: self.place,
        };
        self.forks.push_reserved(Kept::First {
            right: fork + 2,
            at,
            twice: Twice { one, other },
        });
        let node = fresh_node(self.place, Kind::Fork, stamp);
        self.nodes.push_reserved(node);
        self.nodes.push_reserved(fresh_node(fork, Kind::Strand, 0));
        self.nodes.push_reserved(fresh_node(fork, Kind::Strand, 0));
        self.strand = fork + 1;
        self.place = fork + 1;
        Ok(())
    }

    /// Moves from the left strand of an inline fork to the right one, or from the right one to the strand that forked.
    pub fn turn(&mut self)
        requires { IsInline self.old }
        ensures { self.new ≡ turned self.old }
    {
        match self.forks.pop() {
            Some(Kept::First { right, at, twice }) => {
                let Twice { one, other } = twice;
                self.forks.push_reserved(Kept::Second { at, around: one });
                self.strand = right;
                self.place = right;
                self.around = other;
            }
            Some(Kept::Second { at, around }) => {
                self.strand = at.strand;
                self.place = at.place;
                self.around = around;
            }
            _ => unreachable!(),
        }
    }

    pub fn stop(&mut self, halt: Halt)
        ensures { self.new ≡ halted self.old halt }
    {
        self.stop = Some(Stop {
            halt,
            column: self.column,
            strand: self.strand,
        });
    }

    pub fn tell(&mut self, halted: bool)
        ensures { self.new ≡ was_told self.old halted }
    {
        self.told = self.told || halted;
    }

    /// Adds a refused access, with its conflict. The board returns another conflict, which is equal.
    pub fn refuse(&mut self, conflict: Conflict) -> Result<(), OutOfMemory>
        ensures ok { OnOk result (self.new ≡ refused self.old conflict) }
        ensures err { OnErr result (self.new ≡ self.old) }
    {
        self.conflicts.reserve(1)?;
        let node = fresh_node(
            self.place,
            Kind::Tried {
                cell: conflict.cell,
            },
            0,
        );
        self.nodes.push(node)?;
        self.conflicts.push_reserved(conflict);
        Ok(())
    }

    /// Makes the token of a right strand.
    fn right(&self, column: u32, fork: u32) -> Result<StrandToken, OutOfMemory>
        requires some { 0 < fork }
        requires few { length self.now.own.nodes < 2 ^ 31 }
        ensures { IfOk result (λ r. r ≡ right_of self.now fork column) }
    {
        let alloc = *self.nodes.allocator();
        let around = self.around.copy()?;
        let (nodes, place_in_list) = fresh_log(alloc)?;
        Ok(StrandToken {
            column,
            from: self.column,
            at: self.nodes.len() as u32,
            nodes,
            conflicts: Vec::new(alloc),
            joined: Logs::new(alloc),
            strand: 0,
            place: 0,
            around,
            forks: Vec::new(alloc),
            fork,
            split: false,
            phase: Phase::Waiting,
            stop: None,
            told: false,
            room: u64::from(fork) - 1,
            place_in_list,
        })
    }

    pub fn room(&self) -> u64 {
        self.room
    }

    /// Adds a fork, goes on in its left strand, and returns the token of the right one. Changes nothing if there is no room for it.
    pub fn fork(&mut self, stamp: u64, fork: u32, column: u32) -> Result<StrandToken, OutOfMemory>
        requires { 0 < fork }
        ensures left { OnOk result (self.new ≡ forked self.old stamp fork) }
        ensures right { IfOk result (λ r. r ≡ right_of self.old fork column) }
        ensures err { OnErr result (self.new ≡ self.old) }
    {
        let node = self.nodes.len();
        if node >= NODES || u64::from(fork) > self.room {
            return Err(OutOfMemory);
        }
        self.nodes.reserve(2)?;
        self.forks.reserve(1)?;
        let around = self.around.copy()?;
        let right = self.right(column, fork)?;
        let node = node as u32;
        let at = Spot {
            strand: self.strand,
            place: self.place,
        };
        self.forks.push_reserved(Kept::Beside {
            promise: Promise { fork },
            at,
            around,
        });
        self.room -= u64::from(fork);
        let forked = fresh_node(self.place, Kind::Fork, stamp);
        self.nodes.push_reserved(forked);
        self.nodes.push_reserved(fresh_node(node, Kind::Strand, 0));
        self.strand = node + 1;
        self.place = node + 1;
        Ok(right)
    }

    /// Returns its own log and the joined ones, and what else a join needs.
    fn all_logs(self) -> (Logs, u32, bool, Option<Stop>, bool)
        ensures logs { result.0 ≡ self.own ∷ self.joined }
        ensures rest { (result.1 ≡ self.fork) × (result.2 ≡ self.split) × (result.3 ≡ self.stop) × (result.4 ≡ self.told) }
        ensures few { length result.0 ≤ logs_of self.fork }
    {
        let StrandToken {
            column,
            from,
            at,
            nodes,
            conflicts,
            joined,
            fork,
            split,
            stop,
            told,
            place_in_list,
            ..
        } = self;
        let mut all = place_in_list.fill(Log {
            column,
            from,
            fork: at,
            nodes: Seq::from_vec(nodes),
            conflicts: Seq::from_vec(conflicts),
        });
        all.append(joined);
        (all, fork, split, stop, told)
    }

    /// Goes back to where the strand that forked stands, with the logs of the right strand's token.
    fn leave(&mut self, fork: u32, logs: Logs)
        requires beside { StandsBeside self.old.forks fork }
        requires few { length logs ≤ logs_of fork }
        ensures { self.new ≡ record (left_behind self.old self.old.forks) { joined = self.old.joined ++ logs } }
    {
        match self.forks.pop() {
            Some(
                Kept::Beside {
                    promise,
                    at,
                    around,
                },
            ) => {
                self.strand = at.strand;
                self.place = at.place;
                self.around = around;
                self.room += u64::from(promise.fork) - logs.len() as u64;
                self.joined.append(logs);
            }
            _ => unreachable!(),
        }
    }

    /// Joins the two strands of a fork. Returns the token of the strand that forked, with the logs of both.
    pub fn join(self, right: StrandToken) -> StrandToken
        requires { AreOfOneFork self right }
        ensures { result ≡ taken_in self right }
    {
        let mut left = self;
        let (logs, fork, split, stop, told) = right.all_logs();
        left.leave(fork, logs);
        left.phase = if split {
            Phase::Parted(fork)
        } else {
            Phase::Going
        };
        if left.stop.is_none() {
            left.stop = stop;
        }
        left.told = left.told || told;
        left
    }

    /// Whether `stamp` exceeds those of the blocks around and of all victims of conflicts.
    pub fn is_before(&self, stamp: u64) -> Result<bool, OutOfMemory>
        requires { 0 < stamp }
        ensures { IfOk result (λ b. IsTrue b → IsLater self.now stamp) }
    {
        let around = self.around.copy()?;
        let around = are_before(around, stamp);
        let own = victims_before(self.conflicts.as_slice(), stamp);
        let joined = joined_before(&self.joined, stamp);
        Ok(all_three(around, own, joined))
    }

    pub fn set_split(&mut self)
        ensures { self.new ≡ once_split self.old }
    {
        self.split = true;
        self.phase = Phase::Going;
    }

    pub fn set_phase(&mut self, phase: Phase)
        ensures { self.new ≡ record self.old { phase = phase } }
    {
        self.phase = phase;
    }
}
