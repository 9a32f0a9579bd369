//! From one strand of an inline fork to the next.
ghost use Rattle.std.specs.Prelude.{◌≡◌};
ghost use Rattle.cw_steps.specs.Tracks.{column_of_strand, track_of, turned_track};

use super::pending::cut;
use super::{PLAIN, Stood, Track};
use cw_base::put;
use cw_log::Side;

impl Track {
    /// Moves from the left strand of an inline fork to the right one, or from the right one to the strand that forked.
    pub(crate) fn turn(&mut self)
        ensures track { track_of self.new ≡ turned_track (track_of self.old) }
        ensures kept { (self.new.spare ≡ self.old.spare) × (self.new.room ≡ self.old.room) }
    {
        let Track {
            strand,
            place,
            outer,
            pending,
            tail,
            behind,
            second,
            ..
        } = self;
        let Some(stood) = outer.pop() else {
            return;
        };
        match stood.side {
            Side::Beside(_) => put(outer, stood),
            Side::First(right) => {
                put(
                    outer,
                    Stood {
                        side: Side::Second,
                        ..stood
                    },
                );
                *strand = right;
                *place = right;
                cut(pending, stood.pending);
                *tail = PLAIN;
                *second = true;
            }
            Side::Second => {
                *strand = stood.strand;
                *place = stood.place;
                cut(pending, stood.pending);
                *tail = PLAIN;
                *behind += 1;
                *second = false;
            }
        }
    }

    /// Returns the column of `strand`, in which the token stands: its own, or one that waits; otherwise 0.
    pub(crate) fn column_of(&self, strand: u32) -> u32
        ensures { result ≡ column_of_strand (track_of self.now) strand }
    {
        if strand == self.strand {
            return self.column;
        }
        let mut column = 0;
        for stood in &self.outer {
            if stood.strand == strand {
                column = stood.column;
            }
        }
        column
    }
}
