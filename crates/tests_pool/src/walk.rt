//! Walks through the logs of the root's token, from main on: each want is met by its node, and each log is used once.
ghost use Rattle.std.specs.Prelude.{length};
ghost use Rattle.cw_job.specs.Jobs.{TakesWords};

use crate::walker::{Fallen, Walker};
use cw_base::{OutOfMemory, Stack};
use cw_code::{Limits, Program};
use cw_log::{Log, Logs, LogsIter, Stop};
use cw_strand::Want;
use cw_tree::{BlockState, Conflict, Halt, Kind, Node};
use std::alloc::Global;

/// What is wrong with a log.
#[derive(Clone, Copy, Drop, Debug)]
pub enum Why {
    Memory,
    /// The strand wants something else, or nothing more.
    Want,
    /// The strand had broken off before.
    Off,
    /// A fork has no left strand behind it.
    Fork,
    /// A fork has no log for its right strand, or a log hangs from elsewhere.
    Log,
    /// A conflict has no refused access.
    Conflict,
    /// There are more nodes or logs than strands made.
    More,
    /// The run did not end as its halt tells.
    End,
}

impl From<OutOfMemory> for Why {
    fn from(_: OutOfMemory) -> Why {
        Why::Memory
    }
}

/// Where a walk found something wrong: at `node` of the log with `column`.
#[derive(Clone, Copy, Drop, Debug)]
pub struct Wrong {
    pub why: Why,
    pub column: u32,
    pub node: u32,
}

/// A log that is walked through.
#[derive(Clone, Copy, Drop)]
struct Page<'a> {
    column: u32,
    nodes: &'a [Node],
}

#[derive(Drop)]
enum Legs<'a> {
    Goes(Walker<'a>),
    Fell(Fallen<'a>),
}

impl<'a> Legs<'a> {
    fn want(&self) -> Option<Want> {
        match self {
            Legs::Goes(walker) => walker.want(),
            Legs::Fell(fallen) => fallen.want(),
        }
    }

    /// Whether the strand goes on, and has come to its end.
    fn is_over(&self) -> bool {
        match self {
            Legs::Goes(walker) => walker.is_over(),
            Legs::Fell(_) => false,
        }
    }

    fn fallen(self) -> Fallen<'a> {
        match self {
            Legs::Goes(walker) => walker.falls(),
            Legs::Fell(fallen) => fallen,
        }
    }
}

/// Joins two strands: the strand that forked goes on if both have come to their ends.
fn joined<'a>(left: Legs<'a>, right: Legs<'a>) -> Result<Legs<'a>, Why> {
    let are_over = left.is_over() && right.is_over();
    match (left, right) {
        (Legs::Goes(left), Legs::Goes(right)) => {
            if are_over {
                Ok(Legs::Goes(right.joins(left)?))
            } else {
                drop(left);
                Ok(Legs::Fell(right.falls()))
            }
        }
        (Legs::Goes(left), Legs::Fell(right)) => {
            drop(left);
            Ok(Legs::Fell(right))
        }
        (Legs::Fell(left), right) => {
            drop(left);
            Ok(Legs::Fell(right.fallen()))
        }
    }
}

/// What is open around the strand that is walked.
#[derive(Drop)]
enum Open<'a> {
    /// A block that was begun in the place `outer`.
    Block {
        outer: u32,
    },
    /// The left strand of a fork that was made in the place `outer`. The right strand comes next, in the same log if `inline` has
    /// its number.
    Left {
        fork: u32,
        outer: u32,
        right: Walker<'a>,
        inline: Option<u32>,
    },
    /// The right strand of a fork. If it has a log of its own, the walk goes back to the log and node in `before`.
    Right {
        outer: u32,
        left: Legs<'a>,
        before: Option<(Page<'a>, u32)>,
    },
}

/// Returns the cell of a refused access.
fn tried(node: &Node) -> Option<u32> {
    match node.kind {
        Kind::Tried { cell } => Some(cell),
        _ => None,
    }
}

/// Whether each conflict is that of a refused access in the log, and each of these has one.
fn are_asked(nodes: &[Node], conflicts: &[Conflict]) -> bool {
    let mut askers = 0usize;
    for node in nodes {
        if tried(node).is_some() {
            askers = askers.saturating_add(1);
        }
    }
    if askers != conflicts.len() {
        return false;
    }
    for conflict in conflicts {
        let Some(node) = nodes.get(conflict.asker as usize) else {
            return false;
        };
        if tried(node) != Some(conflict.cell) {
            return false;
        }
    }
    true
}

/// Returns the strand, if it wants to read or write the cell of a refused access.
fn tries<'a>(walker: Walker<'a>, cell: u32) -> Result<Walker<'a>, Why> {
    if walker.is_at(cell) {
        Ok(walker)
    } else {
        drop(walker);
        Err(Why::Want)
    }
}

/// Moves a strand behind a block that was committed.
fn committed<'a>(legs: Legs<'a>) -> Result<Legs<'a>, Why> {
    match legs {
        Legs::Goes(walker) => Ok(Legs::Goes(walker.ends()?)),
        Legs::Fell(fallen) => {
            drop(fallen);
            Err(Why::Off)
        }
    }
}

/// Adds `more` to a number.
fn after(number: u32, more: u32) -> Result<u32, Why> {
    match number.checked_add(more) {
        Some(next) => Ok(next),
        None => Err(Why::Memory),
    }
}

/// Whether this halt stops a strand at this want.
fn stops(halt: Halt, want: Option<Want>) -> bool {
    match (halt, want) {
        (Halt::Fault { kind, .. }, Some(Want::Fault(wanted))) => kind == wanted,
        (Halt::Budget { .. }, Some(Want::Load(_) | Want::Store(_, _))) => true,
        (Halt::Memory, _) => true,
        _ => false,
    }
}

#[derive(Drop)]
struct Walk<'a> {
    alloc: Global,
    logs: LogsIter<'a>,
    page: Page<'a>,
    next: u32,
    place: u32,
    open: Stack<Open<'a>>,
    stop: Option<Stop>,
    /// Whether the strand that stopped was met.
    met: bool,
    is_over: bool,
}

impl<'a> Walk<'a> {
    /// Makes a step of the strand, or of what is open around it.
    fn step(&mut self, legs: Legs<'a>) -> Result<Legs<'a>, Why> {
        let nodes = self.page.nodes;
        match nodes.get(self.next as usize) {
            Some(node) if node.parent == self.place => match legs {
                Legs::Goes(walker) => self.enters(walker, node),
                Legs::Fell(fallen) => {
                    drop(fallen);
                    Err(Why::Off)
                }
            },
            _ => self.leaves(legs),
        }
    }

    fn enters(&mut self, walker: Walker<'a>, node: &'a Node) -> Result<Legs<'a>, Why> {
        let next = match after(self.next, 1) {
            Ok(next) => next,
            Err(why) => {
                drop(walker);
                return Err(why);
            }
        };
        let walker = match &node.kind {
            Kind::Strand => {
                drop(walker);
                return Err(Why::Fork);
            }
            Kind::Fork => return self.forks(walker),
            Kind::Block => self.blocks(walker)?,
            Kind::Tried { cell } => tries(walker, *cell)?,
            Kind::Cancel { back } => walker.cancels(self.alloc, back.as_slice())?,
            kind => walker.acts(kind)?,
        };
        self.next = next;
        Ok(Legs::Goes(walker))
    }

    fn blocks(&mut self, walker: Walker<'a>) -> Result<Walker<'a>, Why> {
        let walker = walker.begins()?;
        match self.open.push(Open::Block { outer: self.place }) {
            Ok(()) => {}
            Err(_) => {
                drop(walker);
                return Err(Why::Memory);
            }
        }
        self.place = self.next;
        Ok(walker)
    }

    /// Whether the node `number` is a strand of this fork.
    fn is_branch(&self, number: u32, fork: u32) -> bool {
        match self.page.nodes.get(number as usize) {
            Some(node) => matches!(node.kind, Kind::Strand) && node.parent == fork,
            None => false,
        }
    }

    /// Goes to the left strand of a fork, and answers which the right one is, where that is in the same log.
    fn branches(&mut self) -> Result<Option<u32>, Why> {
        let fork = self.next;
        let first = after(fork, 1)?;
        let second = after(fork, 2)?;
        if !self.is_branch(first, fork) {
            return Err(Why::Fork);
        }
        let mut inline = None;
        self.next = second;
        if self.is_branch(second, fork) {
            inline = Some(second);
            self.next = after(fork, 3)?;
        }
        self.place = first;
        Ok(inline)
    }

    fn forks(&mut self, walker: Walker<'a>) -> Result<Legs<'a>, Why> {
        let (left, right) = walker.forks(self.alloc)?;
        let fork = self.next;
        let outer = self.place;
        let inline = match self.branches() {
            Ok(inline) => inline,
            Err(why) => {
                drop(left);
                drop(right);
                return Err(why);
            }
        };
        match self.open.push(Open::Left {
            fork,
            outer,
            right,
            inline,
        }) {
            Ok(()) => Ok(Legs::Goes(left)),
            Err(_) => {
                drop(left);
                Err(Why::Memory)
            }
        }
    }

    /// Leaves the strand's place, in which nothing more follows.
    fn leaves(&mut self, legs: Legs<'a>) -> Result<Legs<'a>, Why> {
        match self.open.pop() {
            None => self.ends(legs),
            Some(Open::Block { outer }) => self.leaves_block(legs, outer),
            Some(
                Open::Left {
                    fork,
                    outer,
                    right,
                    inline,
                },
            ) => {
                self.looks(&legs);
                self.turns(legs, fork, outer, right, inline)
            }
            Some(
                Open::Right {
                    outer,
                    left,
                    before,
                },
            ) => {
                self.looks(&legs);
                self.joins(legs, outer, left, before)
            }
        }
    }

    /// Notes whether the strand that ends here is the one that stopped.
    fn looks(&mut self, legs: &Legs<'a>) {
        if let Some(stop) = self.stop {
            if stop.column == self.page.column && stop.strand == self.place {
                self.met = stops(stop.halt, legs.want());
            }
        }
    }

    fn leaves_block(&mut self, legs: Legs<'a>, outer: u32) -> Result<Legs<'a>, Why> {
        let Some(node) = self.page.nodes.get(self.place as usize) else {
            drop(legs);
            return Err(Why::Want);
        };
        let state = node.state;
        self.place = outer;
        match state {
            BlockState::Committed => committed(legs),
            BlockState::Aborted => Ok(Legs::Goes(legs.fallen().back()?)),
            BlockState::Pending => Ok(Legs::Fell(legs.fallen().leaves()?)),
        }
    }

    /// Goes to the right strand of a fork. If that has a log of its own, returns where to go on behind it.
    fn turned(&mut self, fork: u32, inline: Option<u32>) -> Result<Option<(Page<'a>, u32)>, Why> {
        if let Some(strand) = inline {
            self.place = strand;
            return Ok(None);
        }
        let Some(log) = self.logs.next() else {
            return Err(Why::Log);
        };
        let before = (self.page, self.next);
        self.opens(log, fork)?;
        Ok(Some(before))
    }

    /// Goes from the left strand of a fork to the right one.
    fn turns(
        &mut self,
        left: Legs<'a>,
        fork: u32,
        outer: u32,
        right: Walker<'a>,
        inline: Option<u32>,
    ) -> Result<Legs<'a>, Why> {
        let before = match self.turned(fork, inline) {
            Ok(before) => before,
            Err(why) => {
                drop(left);
                drop(right);
                return Err(why);
            }
        };
        match self.open.push(Open::Right {
            outer,
            left,
            before,
        }) {
            Ok(()) => Ok(Legs::Goes(right)),
            Err(_) => {
                drop(right);
                Err(Why::Memory)
            }
        }
    }

    /// Goes on at the begin of the log of a fork's right strand.
    fn opens(&mut self, log: &'a Log, fork: u32) -> Result<(), Why> {
        if log.from != self.page.column || log.fork != fork {
            return Err(Why::Log);
        }
        let nodes = log.nodes.as_slice();
        if !are_asked(nodes, log.conflicts.as_slice()) {
            return Err(Why::Conflict);
        }
        self.page = Page {
            column: log.column,
            nodes,
        };
        self.next = 1;
        self.place = 0;
        Ok(())
    }

    /// Joins both strands of a fork, in which nothing more follows.
    fn joins(
        &mut self,
        right: Legs<'a>,
        outer: u32,
        left: Legs<'a>,
        before: Option<(Page<'a>, u32)>,
    ) -> Result<Legs<'a>, Why> {
        let legs = joined(left, right)?;
        if let Some((page, next)) = before {
            if self.next as usize != self.page.nodes.len() {
                drop(legs);
                return Err(Why::More);
            }
            self.page = page;
            self.next = next;
        }
        self.place = outer;
        Ok(legs)
    }

    /// Ends the walk at the end of main's strand.
    fn ends(&mut self, legs: Legs<'a>) -> Result<Legs<'a>, Why> {
        self.looks(&legs);
        if self.next as usize != self.page.nodes.len() || self.logs.next().is_some() {
            drop(legs);
            return Err(Why::More);
        }
        let ended = if self.stop.is_some() {
            self.met
        } else {
            legs.is_over()
        };
        if !ended {
            drop(legs);
            return Err(Why::End);
        }
        self.is_over = true;
        Ok(legs)
    }

    fn all(&mut self, legs: Legs<'a>) -> Result<(), Why> {
        let mut legs = legs;
        for _ in 0..u64::MAX {
            legs = self.step(legs)?;
            if self.is_over {
                break;
            }
        }
        drop(legs);
        if self.is_over {
            Ok(())
        } else {
            Err(Why::Memory)
        }
    }
}

/// The logs of the root's token, and how it was stopped.
#[derive(Clone, Copy, Drop)]
pub struct Told<'a> {
    pub nodes: &'a [Node],
    pub conflicts: &'a [Conflict],
    pub joined: &'a Logs,
    pub stop: Option<Stop>,
}

/// Walks through the logs of a run.
pub fn walked(
    alloc: Global,
    program: &Program,
    words: &[i64],
    limits: Limits,
    told: Told,
) -> Result<(), Wrong>
    requires { TakesWords program.now (length words.now) }
{
    let mut walk = Walk {
        alloc,
        logs: told.joined.iter(),
        page: Page {
            column: 0,
            nodes: told.nodes,
        },
        next: 1,
        place: 0,
        open: Stack::new(alloc),
        stop: told.stop,
        met: false,
        is_over: false,
    };
    let begun = if are_asked(told.nodes, told.conflicts) {
        Walker::main(alloc, program, words, limits)
    } else {
        Err(Why::Conflict)
    };
    let done = match begun {
        Ok(walker) => walk.all(Legs::Goes(walker)),
        Err(why) => Err(why),
    };
    let column = walk.page.column;
    let node = walk.next;
    drop(walk);
    match done {
        Ok(()) => Ok(()),
        Err(why) => Err(Wrong { why, column, node }),
    }
}
