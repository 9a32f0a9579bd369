//! What a right strand begins with, and what a strand that ends leaves.
ghost use Rattle.std.specs.Prelude.{◌≡◌, ◌<◌, ◌≤◌, ◌+◌, ◌^◌, [], ◌∷◌, IfOk, OnOk, None, Some, length, reverse, vec_capacity};
ghost use Rattle.cw_tree.specs.declared.node.Kind.TheVariants as kinds;
ghost use Rattle.cw_tree.specs.Nodes as nodes;
ghost use Rattle.cw_steps.specs.Tracks.{fresh_track, note_track, parted, right_track, settled, stood_by, joined_track, track_of, CanPart, HasRoom, IsReady};

use super::moves::fresh_node;
use super::pending::{copy, cut};
use super::{Ahead, PLAIN, Spare, Track};
use cw_base::{OutOfMemory, Seq, put};
use cw_log::{Above, Log, LogRoom, Logs};
use cw_tree::{Kind, Node};
use std::alloc::Global;

fn fresh_nodes(alloc: Global) -> Result<Vec<Node>, OutOfMemory>
    ensures { IfOk result (λ v. v.items ≡ nodes.fresh_node 0 kinds.Strand 0 ∷ []) }
{
    let mut nodes = Vec::with_capacity(alloc, 1)?;
    put(&mut nodes, fresh_node(0, Kind::Strand, 0));
    Ok(nodes)
}

impl Spare {
    fn new(alloc: Global, around: usize) -> Result<Spare, OutOfMemory>
        ensures { IfOk result (λ s. around ≤ vec_capacity s.pending) }
    {
        let nodes = fresh_nodes(alloc)?;
        let room = LogRoom::new(alloc)?;
        let pending = Vec::with_capacity(alloc, around)?;
        Ok(Spare {
            nodes,
            pending,
            room,
        })
    }

    /// Reserves memory for `around` pending blocks around the strand.
    fn reserve(&mut self, around: usize) -> Result<(), OutOfMemory>
        ensures { OnOk result (around ≤ vec_capacity self.new.pending) }
    {
        let Spare { pending, .. } = self;
        pending.reserve(around)?;
        Ok(())
    }
}

fn right_strand(alloc: Global, from: u32, around: &[Above], right: Ahead, begin: Spare) -> Track
    requires { length around.now ≤ vec_capacity begin.pending }
    ensures track { track_of result ≡ right_track from (reverse around.now) (Some right) }
    ensures given { HasRoom result }
{
    let Spare {
        nodes,
        pending,
        room,
    } = begin;
    let mut pending = pending;
    copy(&mut pending, around);
    Track {
        first: right.column,
        from,
        fork: right.node,
        nodes,
        conflicts: Vec::new(alloc),
        joined: Logs::new(alloc),
        strand: 0,
        place: 0,
        column: right.column,
        gap: right.gap,
        word: 0,
        outer: Vec::new(alloc),
        pending,
        tail: PLAIN,
        ahead: None,
        behind: 0,
        second: false,
        room: Some(room),
        spare: None,
    }
}

impl Track {
    /// Makes the track of the root's strand, which has done nothing.
    pub(crate) fn new(alloc: Global) -> Result<Track, OutOfMemory>
        ensures track { IfOk result (λ c. track_of c ≡ fresh_track 0 0 0 0) }
        ensures room { IfOk result HasRoom }
    {
        let nodes = fresh_nodes(alloc)?;
        let room = LogRoom::new(alloc)?;
        Ok(Track {
            first: 0,
            from: 0,
            fork: 0,
            nodes,
            conflicts: Vec::new(alloc),
            joined: Logs::new(alloc),
            strand: 0,
            place: 0,
            column: 0,
            gap: 0,
            word: 0,
            outer: Vec::new(alloc),
            pending: Vec::new(alloc),
            tail: PLAIN,
            ahead: None,
            behind: 0,
            second: false,
            room: Some(room),
            spare: None,
        })
    }

    /// Reserves memory for `count` nodes, conflicts and forks, and for what one right strand begins with.
    pub(crate) fn reserve(&mut self, count: u32) -> Result<(), OutOfMemory>
        ensures ok { OnOk result (IsReady self.new count × CanPart self.new) }
        ensures same { track_of self.new ≡ track_of self.old }
        ensures room { self.new.room ≡ self.old.room }
    {
        self.reserve_nodes(count)?;
        let Track {
            nodes,
            pending,
            spare,
            ..
        } = self;
        match spare {
            Some(begin) => begin.reserve(pending.len()),
            None => {
                *spare = Some(Spare::new(*nodes.allocator(), pending.len())?);
                Ok(())
            }
        }
    }

    /// Makes the track of the right strand that is ahead.
    pub(crate) fn part(&mut self) -> Track
        requires spare { CanPart self.old }
        requires ahead { (a : _) × (self.old.ahead ≡ Some a) }
        ensures left { track_of self.new ≡ parted (track_of self.old) }
        ensures room { self.new.room ≡ self.old.room }
        ensures right { track_of result ≡ right_track (track_of self.old).own.column (track_of self.old).pending (track_of self.old).ahead }
        ensures given { HasRoom result }
    {
        let Track {
            first,
            nodes,
            pending,
            ahead,
            behind,
            second,
            spare,
            ..
        } = self;
        *behind = 0;
        *second = false;
        let (Some(right), Some(begin)) = (ahead.take(), spare.take()) else {
            unreachable!()
        };
        right_strand(*nodes.allocator(), *first, pending.as_slice(), right, begin)
    }

    /// Makes the track of a token that only carries a note.
    pub(crate) fn note(&self) -> Track
        ensures track { track_of result ≡ note_track self.now.column self.now.gap }
        ensures room { result.room ≡ None }
    {
        let alloc = *self.nodes.allocator();
        Track {
            first: self.column,
            from: 0,
            fork: 0,
            nodes: Vec::new(alloc),
            conflicts: Vec::new(alloc),
            joined: Logs::new(alloc),
            strand: 0,
            place: 0,
            column: self.column,
            gap: self.gap,
            word: 0,
            outer: Vec::new(alloc),
            pending: Vec::new(alloc),
            tail: PLAIN,
            ahead: None,
            behind: 0,
            second: false,
            room: None,
            spare: None,
        }
    }

    /// Takes in the logs of a right strand that ended, and goes on where the strand that forked stands.
    pub(crate) fn take_in(&mut self, ended: Track)
        requires given { HasRoom ended }
        requires long { length self.old.joined + length ended.joined + 1 < 2 ^ 63 }
        ensures track { track_of self.new ≡ joined_track (track_of self.old) (track_of ended) }
        ensures room { self.new.room ≡ self.old.room }
    {
        let Track { joined, .. } = self;
        joined.append(ended.into_logs());
        self.stand_outside();
    }

    fn into_logs(self) -> Logs
        requires given { HasRoom self }
        requires long { length self.joined + 1 < 2 ^ 63 }
        ensures { result ≡ (track_of self).own ∷ (track_of self).joined }
    {
        let Track {
            first,
            from,
            fork,
            nodes,
            conflicts,
            joined,
            room,
            ..
        } = self;
        let Some(room) = room else { unreachable!() };
        let mut logs = room.fill(Log {
            column: first,
            from,
            fork,
            nodes: Seq::from_vec(nodes),
            conflicts: Seq::from_vec(conflicts),
        });
        logs.append(joined);
        logs
    }

    fn stand_outside(&mut self)
        ensures track { track_of self.new ≡ stood_by (settled (track_of self.old)) (track_of self.old).outer }
        ensures room { self.new.room ≡ self.old.room }
    {
        let Track {
            strand,
            place,
            column,
            gap,
            word,
            outer,
            pending,
            tail,
            behind,
            second,
            ..
        } = self;
        *behind = 0;
        *second = false;
        if let Some(stood) = outer.pop() {
            *strand = stood.strand;
            *place = stood.place;
            *column = stood.column;
            *gap = stood.gap;
            *word = stood.word;
            cut(pending, stood.pending);
            *tail = PLAIN;
        }
    }
}
