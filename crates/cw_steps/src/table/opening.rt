//! A new table.
ghost use Rattle.std.specs.Prelude.{◌≡◌, ◌<◌, ℕ, [], length, map, replicate, slice_index, IfOk};
ghost use Rattle.cw_steps.specs.Tracks.{track_of, fresh_track, HasRoom};
ghost use Rattle.cw_log.specs.Tokens.{root_token};
ghost use Rattle.cw_steps.specs.Stands.{token_of};
ghost use Rattle.cw_steps.specs.declared.places.Place.{Place};
ghost use Rattle.cw_steps.specs.Places.{all_words, column_words, word_of_place};
ghost use Rattle.cw_steps.specs.Words.{IsInRow};
ghost use Rattle.cw_steps.specs.Views.{fresh_slot, held_by, key_of, root_view, view_of, IsTokenOf};

use super::{Shared, StrandToken};
use crate::Track;
use crate::law::BoardTable;
use crate::places::{Place, as_word, word_of_place};
use crate::view::{Key, Slot};
use cw_base::{OutOfMemory, Seq};
use cw_code::Limits;
use cw_stack::Cell;
use cw_trace::{Row, Tier};
use std::alloc::Global;

/// A tier has fewer columns than this.
const MOST_COLUMNS: u32 = 1 << 31;

fn fresh_slots(alloc: Global, init: &[i64]) -> Result<Vec<Slot>, OutOfMemory>
    ensures { IfOk result (λ slots. slots.items ≡ map fresh_slot init.now) }
{
    let mut slots = Vec::new(alloc);
    for value in init {
        slots.push(Slot::Cell(Cell::new(alloc, *value)))?;
    }
    Ok(slots)
}

fn fresh_words(alloc: Global, cells: u32, columns: u32) -> Result<Vec<u64>, OutOfMemory>
    ensures { IfOk result (λ words. words.items ≡ replicate (all_words cells columns) 0) }
{
    let count = cells as usize + 4 + 6 * columns as usize;
    Ok(vec![in alloc; 0u64; count]?)
}

/// Writes the row of the root's column.
fn show_root(words: &mut [u64], cells: u32, columns: u32, row: &Row)
    requires { (0 < columns) × (length words.old ≡ all_words cells columns) }
    ensures long { length words.new ≡ length words.old }
    ensures low { (k : ℕ) → k < column_words cells columns → slice_index words.new k ≡ slice_index words.old k }
    ensures row { (at : Place) → (n : ℕ) → IsInRow 0 row.now at n → slice_index words.new (word_of_place cells columns at) ≡ n }
{
    words[word_of_place(cells, columns, Place::Owner(0))] = row.owner as u64;
    words[word_of_place(cells, columns, Place::Lead(0))] = as_word(row.lead);
    words[word_of_place(cells, columns, Place::Up(0))] = as_word(row.up);
    words[word_of_place(cells, columns, Place::Opening(0))] = row.opening;
    words[word_of_place(cells, columns, Place::Closing(0))] = row.closing;
}

impl Shared {
    /// Makes a table with the cells `init` and as many columns as `limits` say, and the root's token.
    pub fn new(
        alloc: Global,
        init: &[i64],
        limits: Limits,
    ) -> Result<(Shared, StrandToken), OutOfMemory>
        requires { 0 < limits.strands }
        ensures table { IfOk result (λ r. IsTokenOf r.0 r.1) }
        ensures key { IfOk result (λ r. key_of r.0 ≡ record { first = init.now; columns = limits.strands; aborts = limits.aborts }) }
        ensures token { IfOk result (λ r. (view_of r.1 ≡ root_view) × (held_by r.1 ≡ []) × (track_of r.1.track ≡ fresh_track 0 0 0 0)) }
        ensures room { IfOk result (λ r. HasRoom r.1.track) }
        ensures stands { IfOk result (λ r. token_of r.1 ≡ root_token) }
    {
        if limits.strands >= MOST_COLUMNS {
            return Err(OutOfMemory);
        }
        let Ok(cells) = u32::try_from(init.len()) else {
            return Err(OutOfMemory);
        };
        let key = Key {
            first: Seq::from_vec(Vec::from_slice(alloc, init)?),
            columns: limits.strands,
            aborts: limits.aborts,
        };
        let columns = limits.strands;
        let mut words = fresh_words(alloc, cells, columns)?;
        let mut slots = fresh_slots(alloc, init)?;
        let tier = Tier::with_strands(alloc, columns)?;
        show_root(words.as_mut_slice(), cells, columns, &tier.row(0));
        slots.push(Slot::Tier(tier))?;
        let track = Track::new(alloc)?;
        let made = BoardTable::new(alloc, words.as_slice(), slots, &key);
        match made {
            Ok((table, seat)) => {
                let token = StrandToken {
                    seat,
                    track,
                    stop: None,
                };
                let shared = Shared {
                    table,
                    cells,
                    columns,
                };
                Ok((shared, token))
            }
            Err(fault) => {
                drop(fault);
                drop(track);
                Err(OutOfMemory)
            }
        }
    }
}
