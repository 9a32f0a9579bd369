ghost use Rattle.std.specs.Prelude.{◌≡◌, false, codes};
ghost use Rattle.std.specs.Str.{bytes_eq};
ghost use Rattle.cw_sheet.specs.Items.{exactly};
ghost use Rattle.cw_sheet.specs.Reading.{conflict_row, conflicts, end_named, fault_named, finished, last, run_end};
ghost use Rattle.cw_sheet.specs.Taking.{LeadsTo, Takes, conflict_of, fault_end, outcome, place_of};

use crate::cursor::Cursor;
use crate::lines::{numbers_behind, values};
use crate::{SheetFault, SheetKind, SheetRefusal};
use cw_base::Seq;
use cw_code::{FaultKind, fault_name};
use cw_record::RecordEnd;
use cw_tree::Conflict;
use std::alloc::Global;

// All kinds of faults.
const KINDS: [FaultKind; 6] = [
    FaultKind::Zero,
    FaultKind::Overflow,
    FaultKind::Range,
    FaultKind::Depth,
    FaultKind::Fuel,
    FaultKind::Size,
];

/// The numbers of a conflict that come before its chain.
#[derive(Clone, Copy)]
pub(crate) struct Numbers {
    pub cell: u32,
    pub last: u64,
    pub asker: u32,
    pub block: u64,
    pub victim: u64,
    pub attempt: u32,
}

// The first of `kinds` that `word` names.
fn fault_named(word: &[u8], kinds: &[FaultKind]) -> Option<FaultKind>
    ensures { result ≡ fault_named word.now kinds.now }
{
    for kind in kinds {
        if word == fault_name(*kind).as_bytes() {
            return Some(*kind);
        }
    }
    None
}

impl Cursor<'_> {
    // Takes what a conflict's line has before the chain.
    fn numbers(&mut self) -> Result<Numbers, SheetFault>
        ensures { LeadsTo result (conflict_row (place_of self.old)) (λ n. conflict_of n (place_of self.new)) }
    {
        let cell = self.first_number32()?;
        let last = self.number64()?;
        let asker = self.number32()?;
        let block = self.number64()?;
        let victim = self.number64()?;
        let attempt = self.number32()?;
        Ok(Numbers {
            cell,
            last,
            asker,
            block,
            victim,
            attempt,
        })
    }

    // Takes the strand and the kind of a fault.
    fn fault_end(&mut self) -> Result<RecordEnd, SheetFault>
        ensures { fault_end (place_of self.old) ≡ outcome result (place_of self.new) }
    {
        let strand = self.number32()?;
        let word = self.next_item()?;
        match fault_named(word, &KINDS) {
            Some(kind) => {
                self.newline()?;
                Ok(RecordEnd::Fault { strand, kind })
            }
            None => Err(self.fault(SheetKind::Unexpected)),
        }
    }

    // Takes the rest of the line of an end that is not `finished`, by its first word.
    fn short_end(&mut self, word: &[u8]) -> Result<RecordEnd, SheetFault>
        requires { bytes_eq word.now (codes "finished") ≡ false }
        ensures { end_named word.now (place_of self.old) ≡ outcome result (place_of self.new) }
    {
        if word == b"fault".as_slice() {
            return self.fault_end();
        }
        if word == b"budget".as_slice() {
            let strand = self.number32()?;
            self.newline()?;
            return Ok(RecordEnd::Budget { strand });
        }
        if word == b"moves".as_slice() {
            self.newline()?;
            return Ok(RecordEnd::Moves);
        }
        Err(self.fault(SheetKind::Unexpected))
    }

    /// Takes the last line, behind which nothing may come.
    pub fn last(&mut self) -> Result<(), SheetFault>
        ensures { last (place_of self.old) ≡ outcome result (place_of self.new) }
    {
        self.word("end")?;
        self.next_word("record")?;
        self.newline()?;
        if self.len() != 0 {
            return Err(self.fault(SheetKind::Unexpected));
        }
        Ok(())
    }
}

// Takes the line of a conflict.
fn conflict_row(alloc: Global, cursor: &mut Cursor<'_>) -> Result<Conflict, SheetRefusal>
    ensures { Takes result (λ k. k) (conflict_row (place_of cursor.old)) (place_of cursor.new) }
{
    let numbers = cursor.numbers()?;
    let chain = numbers_behind(alloc, cursor)?;
    cursor.newline()?;
    Ok(Conflict {
        cell: numbers.cell,
        last: numbers.last,
        asker: numbers.asker,
        block: numbers.block,
        victim: numbers.victim,
        attempt: numbers.attempt,
        chain: Seq::from_vec(chain),
    })
}

// Takes the lines of `count` conflicts.
fn conflicts_of(
    alloc: Global,
    cursor: &mut Cursor<'_>,
    count: usize,
) -> Result<Vec<Conflict>, SheetRefusal>
    ensures { Takes result (λ v. v.items) (exactly count 0 (λ k q. conflict_row q) (place_of cursor.old)) (place_of cursor.new) }
{
    let mut conflicts = Vec::new(alloc);
    for _number in 0..count {
        conflicts.push(conflict_row(alloc, cursor)?)?;
    }
    Ok(conflicts)
}

/// Takes the conflicts, behind the line that says how many.
pub(crate) fn conflicts(
    alloc: Global,
    cursor: &mut Cursor<'_>,
) -> Result<Vec<Conflict>, SheetRefusal>
    ensures { Takes result (λ v. v.items) (conflicts (place_of cursor.old)) (place_of cursor.new) }
{
    let count = cursor.count_line("conflicts")?;
    conflicts_of(alloc, cursor, count)
}

// Takes the two lines behind `finished`.
fn finished(alloc: Global, cursor: &mut Cursor<'_>) -> Result<RecordEnd, SheetRefusal>
    ensures { Takes result (λ e. e) (finished (place_of cursor.old)) (place_of cursor.new) }
{
    let memory = values(alloc, cursor, "memory")?;
    let outputs = values(alloc, cursor, "outputs")?;
    Ok(RecordEnd::Finished { memory, outputs })
}

/// Takes the lines of the end of the run.
pub(crate) fn run_end(alloc: Global, cursor: &mut Cursor<'_>) -> Result<RecordEnd, SheetRefusal>
    ensures { Takes result (λ e. e) (run_end (place_of cursor.old)) (place_of cursor.new) }
{
    let word = cursor.item();
    if word == b"finished".as_slice() {
        cursor.newline()?;
        return finished(alloc, cursor);
    }
    Ok(cursor.short_end(word)?)
}
