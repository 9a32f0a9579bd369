//! What is added to a log.
ghost use Rattle.std.specs.Prelude.{◌≡◌, ℕ, ◌+◌, ◌<◌, ◌^◌, true, false, OnOk};
ghost use Rattle.cw_tree.specs.Nodes as nodes;
ghost use Rattle.cw_steps.specs.declared.draw.Home.TheVariants as home_of;
ghost use Rattle.cw_steps.specs.Tracks as tracks;
ghost use Rattle.cw_steps.specs.Tracks.{added, added_home, brought, drawn, track_in_block, closed_at, forked_at, made_at, refused_at, settled, track_of, kind_of_access, IsReady};

use super::pending::{count, one_more, pop_innermost, tail_behind, tail_tried};
use super::{Ahead, PLAIN, Stood, Track};
use crate::{Draw, Home};
use cw_base::{OutOfMemory, put};
use cw_log::{Above, Side};
use cw_tree::{BlockState, Conflict, Kind, Node};

fn first_state(kind: &Kind) -> BlockState
    ensures { result ≡ nodes.first_state kind.now }
{
    match kind {
        Kind::Block => BlockState::Pending,
        _ => BlockState::Committed,
    }
}

pub(crate) fn fresh_node(parent: u32, kind: Kind, stamp: u64) -> Node
    ensures { result ≡ nodes.fresh_node parent kind stamp }
{
    let state = first_state(&kind);
    Node {
        parent,
        kind,
        state,
        stamp,
        end: 0,
    }
}

fn access_kind(cell: u32, wrote: bool, value: i64) -> Kind
    ensures { result ≡ kind_of_access cell wrote value }
{
    if wrote {
        Kind::Write { cell, value }
    } else {
        Kind::Read { cell, value }
    }
}

impl Track {
    /// Reserves memory for `count` nodes, conflicts, forks and pending blocks.
    pub(crate) fn reserve_nodes(&mut self, count: u32) -> Result<(), OutOfMemory>
        ensures ok { OnOk result (IsReady self.new count) }
        ensures same { track_of self.new ≡ track_of self.old }
        ensures kept { (self.new.spare ≡ self.old.spare) × (self.new.room ≡ self.old.room) }
    {
        let Track {
            nodes,
            conflicts,
            outer,
            pending,
            ..
        } = self;
        if nodes.len() + count as usize > u32::MAX as usize {
            return Err(OutOfMemory);
        }
        nodes.reserve(count as usize)?;
        conflicts.reserve(count as usize)?;
        outer.reserve(count as usize)?;
        pending.reserve(count as usize)?;
        Ok(())
    }

    fn add(&mut self, kind: Kind, stamp: u64)
        requires { IsReady self.old 1 }
        ensures track { track_of self.new ≡ made_at (track_of self.old) kind stamp }
        ensures ready { (n : ℕ) → IsReady self.old (1 + n) → IsReady self.new n }
        ensures kept { (self.new.spare ≡ self.old.spare) × (self.new.room ≡ self.old.room) }
    {
        let Track {
            nodes,
            place,
            tail,
            ..
        } = self;
        put(nodes, fresh_node(*place, kind, stamp));
        *tail = PLAIN;
    }

    fn begin(&mut self, stamp: u64)
        requires { IsReady self.old 1 }
        ensures track { track_of self.new ≡ track_in_block (track_of self.old) stamp }
        ensures ready { (n : ℕ) → IsReady self.old (1 + n) → IsReady self.new n }
        ensures kept { (self.new.spare ≡ self.old.spare) × (self.new.room ≡ self.old.room) }
    {
        let Track {
            nodes,
            place,
            column,
            pending,
            tail,
            ..
        } = self;
        let block = nodes.len() as u32;
        put(nodes, fresh_node(*place, Kind::Block, stamp));
        let attempt = one_more(tail.aborted);
        put(
            pending,
            Above {
                begin: stamp,
                column: *column,
                attempt,
            },
        );
        *place = block;
        *tail = PLAIN;
    }

    fn close(&mut self, state: BlockState, end: u64)
        ensures track { track_of self.new ≡ closed_at (track_of self.old) state end }
        ensures ready { (n : ℕ) → IsReady self.old n → IsReady self.new n }
        ensures kept { (self.new.spare ≡ self.old.spare) × (self.new.room ≡ self.old.room) }
    {
        let Track {
            nodes,
            place,
            pending,
            tail,
            ..
        } = self;
        *tail = tail_behind(&state, pop_innermost(pending));
        *place = match nodes.get_mut(*place as usize) {
            Some(node) => {
                node.state = state;
                node.end = end;
                node.parent
            }
            None => 0,
        };
    }

    /// Returns where its strand stands while it waits on this side of a fork.
    fn position(&self, side: Side) -> Stood
        ensures { result ≡ tracks.stood_in side (track_of self.now) }
    {
        Stood {
            side,
            strand: self.strand,
            place: self.place,
            column: self.column,
            gap: self.gap,
            word: self.word,
            pending: count(&self.pending),
        }
    }

    /// Adds a fork whose strands share a column.
    fn fork_shared(&mut self, left: u32, gap: u32, stamp: u64)
        requires { IsReady self.old 3 }
        ensures track { track_of self.new ≡ tracks.forked_in true (track_of self.old) left left gap stamp }
        ensures ready { (n : ℕ) → IsReady self.old (3 + n) → IsReady self.new n }
        ensures kept { (self.new.spare ≡ self.old.spare) × (self.new.room ≡ self.old.room) }
    {
        let node = self.nodes.len() as u32;
        let stood = self.position(Side::First(node + 2));
        let Track {
            nodes,
            strand,
            place,
            column,
            gap: own_gap,
            outer,
            tail,
            ..
        } = self;
        put(outer, stood);
        put(nodes, fresh_node(*place, Kind::Fork, stamp));
        put(nodes, fresh_node(node, Kind::Strand, 0));
        put(nodes, fresh_node(node, Kind::Strand, 0));
        *strand = node + 1;
        *place = node + 1;
        *column = left;
        *own_gap = gap;
        *tail = PLAIN;
    }

    /// Adds a fork whose strands have two columns. The right strand's token is yet to be split off.
    fn fork_apart(&mut self, left: u32, right: u32, gap: u32, stamp: u64)
        requires { IsReady self.old 3 }
        ensures track { track_of self.new ≡ tracks.forked_in false (track_of self.old) left right gap stamp }
        ensures ready { (n : ℕ) → IsReady self.old (3 + n) → IsReady self.new n }
        ensures kept { (self.new.spare ≡ self.old.spare) × (self.new.room ≡ self.old.room) }
    {
        let node = self.nodes.len() as u32;
        let stood = self.position(Side::Beside(left));
        let Track {
            nodes,
            strand,
            place,
            column,
            gap: own_gap,
            word,
            outer,
            tail,
            ahead,
            ..
        } = self;
        put(outer, stood);
        put(nodes, fresh_node(*place, Kind::Fork, stamp));
        put(nodes, fresh_node(node, Kind::Strand, 0));
        *strand = node + 1;
        *place = node + 1;
        *column = left;
        *own_gap = gap;
        *word = 0;
        *tail = PLAIN;
        *ahead = Some(Ahead {
            fork: left,
            node,
            column: right,
            gap,
        });
    }

    fn fork(&mut self, left: u32, right: u32, gap: u32, stamp: u64)
        requires { IsReady self.old 3 }
        ensures track { track_of self.new ≡ forked_at (track_of self.old) left right gap stamp }
        ensures ready { (n : ℕ) → IsReady self.old (3 + n) → IsReady self.new n }
        ensures kept { (self.new.spare ≡ self.old.spare) × (self.new.room ≡ self.old.room) }
    {
        if left == right {
            self.fork_shared(left, gap, stamp);
        } else {
            self.fork_apart(left, right, gap, stamp);
        }
    }

    fn settle(&mut self)
        ensures track { track_of self.new ≡ settled (track_of self.old) }
        ensures ready { (n : ℕ) → IsReady self.old n → IsReady self.new n }
        ensures kept { (self.new.spare ≡ self.old.spare) × (self.new.room ≡ self.old.room) }
    {
        let Track { behind, second, .. } = self;
        *behind = 0;
        *second = false;
    }

    fn draw_settled(&mut self, what: Draw, number: u64)
        requires settled { track_of self.old ≡ settled (track_of self.old) }
        requires ready { IsReady self.old (added what) }
        ensures track { track_of self.new ≡ drawn what number (track_of self.old) }
        ensures ready { (n : ℕ) → IsReady self.old (added what + n) → IsReady self.new n }
        ensures kept { (self.new.spare ≡ self.old.spare) × (self.new.room ≡ self.old.room) }
    {
        match what {
            Draw::Access { cell, wrote, value } => self.add(
                access_kind(cell, wrote, value),
                number,
            ),
            Draw::Out { value } => self.add(Kind::Out { value }, number),
            Draw::Cancel { back } => self.add(Kind::Cancel { back }, number),
            Draw::Begin => self.begin(number),
            Draw::End { aborted: true } => self.close(BlockState::Aborted, number),
            Draw::End { aborted: false } => self.close(BlockState::Committed, number),
            Draw::Fork { left, right, gap } => self.fork(left, right, gap, number),
        }
    }

    /// Adds what a draw shows, with the number that was drawn.
    pub(crate) fn draw(&mut self, what: Draw, number: u64)
        requires { IsReady self.old (added what) }
        ensures track { track_of self.new ≡ drawn what number (track_of self.old) }
        ensures ready { (n : ℕ) → IsReady self.old (added what + n) → IsReady self.new n }
        ensures kept { (self.new.spare ≡ self.old.spare) × (self.new.room ≡ self.old.room) }
    {
        self.settle();
        self.draw_settled(what, number);
    }

    fn refuse(&mut self, conflict: Conflict)
        requires { IsReady self.old 1 }
        ensures track { track_of self.new ≡ refused_at (track_of self.old) conflict }
        ensures ready { (n : ℕ) → IsReady self.old (1 + n) → IsReady self.new n }
        ensures kept { (self.new.spare ≡ self.old.spare) × (self.new.room ≡ self.old.room) }
    {
        let Track {
            nodes,
            conflicts,
            place,
            tail,
            ..
        } = self;
        *tail = tail_tried(conflict.cell, *tail);
        let asker = nodes.len() as u32;
        let kind = Kind::Tried {
            cell: conflict.cell,
        };
        put(nodes, fresh_node(*place, kind, 0));
        put(conflicts, Conflict { asker, ..conflict });
    }

    /// Adds what comes with a released lock.
    pub(crate) fn bring(&mut self, home: Home)
        requires { IsReady self.old (added_home home) }
        ensures track { track_of self.new ≡ brought home (track_of self.old) }
        ensures plain { home ≡ home_of.Plain → self.new ≡ self.old }
        ensures ready { (n : ℕ) → IsReady self.old (added_home home + n) → IsReady self.new n }
        ensures kept { (self.new.spare ≡ self.old.spare) × (self.new.room ≡ self.old.room) }
    {
        match home {
            Home::Refused(conflict) => self.refuse(conflict),
            Home::Split { .. } => self.gap = self.column,
            _ => {}
        }
    }

    /// Returns the attempt number of the next refused access of `cell`.
    pub(crate) fn attempt(&self, cell: u32) -> u32
        ensures { result ≡ tracks.one_more (tracks.tries_of (track_of self.now).tail cell) }
    {
        one_more(self.tail.tries(cell))
    }

    /// Returns the stamp of the node at its place.
    pub(crate) fn stamp(&self) -> u64
        ensures { result ≡ nodes.stamp_of (track_of self.now).own.nodes (track_of self.now).place }
    {
        match self.nodes.get(self.place as usize) {
            Some(node) => node.stamp,
            None => 0,
        }
    }
}
