//! What a token shows, and the memory that it reserves ahead.
ghost use Rattle.std.specs.Prelude.{◌≡◌, OnOk, reverse};
ghost use Rattle.cw_steps.specs.Tracks.{begins, column_of_strand, halt_of, one_more, track_of, tries_of, turned_track, CanPart, IsReady};
ghost use Rattle.cw_tree.specs.Nodes.{stamp_of};
ghost use Rattle.cw_log.specs.Tokens as tokens;
ghost use Rattle.cw_steps.specs.Stands.{token_of};

use super::StrandToken;
use cw_base::OutOfMemory;
use cw_log::{Above, Logs};
use cw_tree::{Conflict, Halt, Node};

impl StrandToken {
    /// Reserves memory for `nodes` more nodes, and as many conflicts and forks, and for what one right strand begins with.
    pub fn reserve(&mut self, nodes: u32) -> Result<(), OutOfMemory>
        ensures ok { OnOk result (IsReady self.new.track nodes × CanPart self.new.track) }
        ensures track { track_of self.new.track ≡ track_of self.old.track }
        ensures seat { self.new.seat ≡ self.old.seat }
        ensures stop { self.new.stop ≡ self.old.stop }
        ensures room { self.new.track.room ≡ self.old.track.room }
    {
        let StrandToken { track, .. } = self;
        track.reserve(nodes)
    }

    /// Returns the nodes of the token's own log.
    pub fn nodes(&self) -> &[Node]
        ensures { result.now ≡ (track_of self.now.track).own.nodes }
    {
        self.track.nodes.as_slice()
    }

    /// Returns the conflicts of the token's own log.
    pub fn conflicts(&self) -> &[Conflict]
        ensures { result.now ≡ (track_of self.now.track).own.conflicts }
    {
        self.track.conflicts.as_slice()
    }

    /// Returns the node of its log beneath which the next node goes.
    pub fn place(&self) -> u32
        ensures { result ≡ (track_of self.now.track).place }
    {
        self.track.place
    }

    /// Returns the begin stamp of the block in which the next node goes, or 0 if it goes in no block.
    pub fn begin_stamp(&self) -> u64
        ensures { result ≡ stamp_of (track_of self.now.track).own.nodes (track_of self.now.track).place }
    {
        self.track.stamp()
    }

    /// Returns the column of its strand.
    pub fn column(&self) -> u32
        ensures { result ≡ (track_of self.now.track).column }
    {
        self.track.column
    }

    /// Returns the gap that its strand uses.
    pub fn gap(&self) -> u32
        ensures { result ≡ (track_of self.now.track).gap }
    {
        self.track.gap
    }

    /// Returns the word of that gap.
    pub fn word(&self) -> u64
        ensures { result ≡ (track_of self.now.track).word }
    {
        self.track.word
    }

    /// Returns the pending blocks around its place, including those of other seats, outermost first.
    pub fn pending(&self) -> &[Above]
        ensures blocks { reverse result.now ≡ (track_of self.now.track).pending }
        ensures around { begins (reverse result.now) ≡ (token_of self.now).around }
    {
        self.track.pending.as_slice()
    }

    /// Returns the attempt number of the next refused access of `cell`: one more than the refused accesses of that cell right
    /// before it.
    pub fn attempt(&self, cell: u32) -> u32
        ensures { result ≡ one_more (tries_of (track_of self.now.track).tail cell) }
    {
        self.track.attempt(cell)
    }

    /// Returns the logs of the tokens that were joined to this one, in their order.
    pub fn joined_logs(&self) -> &Logs
        ensures { result.now ≡ (track_of self.now.track).joined }
    {
        &self.track.joined
    }

    /// Returns the column of `strand`, a strand of its own log in which it stands: its own, or one that waits for a fork.
    pub fn column_of(&self, strand: u32) -> u32
        ensures { result ≡ column_of_strand (track_of self.now.track) strand }
    {
        self.track.column_of(strand)
    }

    /// Returns how the token was stopped, if it was.
    pub fn halt(&self) -> Option<Halt>
        ensures { result ≡ halt_of self.now.stop }
    {
        match self.stop {
            Some(stop) => Some(stop.halt),
            None => None,
        }
    }

    /// Moves from the left strand of an inline fork to the right one, or from the right one to the strand that forked.
    pub fn next_branch(&mut self)
        ensures seat { self.new.seat ≡ self.old.seat }
        ensures track { track_of self.new.track ≡ turned_track (track_of self.old.track) }
        ensures stop { self.new.stop ≡ self.old.stop }
        ensures room { self.new.track.room ≡ self.old.track.room }
        ensures token { token_of self.new ≡ tokens.turned (token_of self.old) }
    {
        let StrandToken { track, .. } = self;
        track.turn();
    }
}
