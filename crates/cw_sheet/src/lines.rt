ghost use Rattle.std.specs.Prelude.{◌≡◌, ◌≤◌, ◌<◌, length, IfOk, OnOk};
ghost use Rattle.cw_sheet.specs.Items.{all_behind, number64, value};
ghost use Rattle.cw_sheet.specs.Reading.{back, heading, limits, values};
ghost use Rattle.cw_sheet.specs.Taking.{Takes, count_line, outcome, place_of};

use crate::cursor::Cursor;
use crate::{SheetFault, SheetRefusal};
use cw_base::Seq;
use cw_code::{Back, Limits};
use std::alloc::Global;

impl Cursor<'_> {
    /// Takes the first line.
    pub fn heading(&mut self) -> Result<(), SheetFault>
        ensures { heading (place_of self.old) ≡ outcome result (place_of self.new) }
    {
        self.word("cwstm")?;
        self.next_word("record")?;
        self.next_word("1")?;
        self.newline()
    }

    /// Takes the line that says how many of a kind follow.
    pub fn count_line(&mut self, word: &str) -> Result<usize, SheetFault>
        ensures taken { count_line word.now (place_of self.old) ≡ outcome result (place_of self.new) }
        ensures few { IfOk result (λ n. n ≤ 100000000) }
    {
        self.word(word)?;
        let count = self.count()?;
        self.newline()?;
        Ok(count)
    }

    /// Takes the line of the limits.
    pub fn limits(&mut self) -> Result<Limits, SheetFault>
        ensures { limits (place_of self.old) ≡ outcome result (place_of self.new) }
    {
        self.word("limits")?;
        let fuel = self.number64()?;
        let size = self.number32()?;
        let aborts = self.number32()?;
        let strands = self.number32()?;
        let moves = self.number64()?;
        self.newline()?;
        Ok(Limits {
            fuel,
            size,
            aborts,
            strands,
            moves,
        })
    }

    // Takes a space, a cell, and the value that is put back there.
    fn back(&mut self) -> Result<Back, SheetFault>
        ensures taken { back (place_of self.old) ≡ outcome result (place_of self.new) }
        ensures shorter { OnOk result (length self.new.rest.now < length self.old.rest.now) }
    {
        let cell = self.number32()?;
        let value = self.value()?;
        Ok(Back { cell, value })
    }
}

// Takes values, as many as the line has.
fn values_behind(alloc: Global, cursor: &mut Cursor<'_>) -> Result<Vec<i64>, SheetRefusal>
    ensures { Takes result (λ v. v.items) (all_behind value (place_of cursor.old)) (place_of cursor.new) }
{
    let mut values = Vec::new(alloc);
    while cursor.is_at_space() {
        values.push(cursor.value()?)?;
    }
    Ok(values)
}

/// Takes numbers, as many as the line has.
pub(crate) fn numbers_behind(
    alloc: Global,
    cursor: &mut Cursor<'_>,
) -> Result<Vec<u64>, SheetRefusal>
    ensures { Takes result (λ v. v.items) (all_behind number64 (place_of cursor.old)) (place_of cursor.new) }
{
    let mut numbers = Vec::new(alloc);
    while cursor.is_at_space() {
        numbers.push(cursor.number64()?)?;
    }
    Ok(numbers)
}

/// Takes cells with their values, as many as the line has.
pub(crate) fn backs_behind(
    alloc: Global,
    cursor: &mut Cursor<'_>,
) -> Result<Vec<Back>, SheetRefusal>
    ensures { Takes result (λ v. v.items) (all_behind back (place_of cursor.old)) (place_of cursor.new) }
{
    let mut backs = Vec::new(alloc);
    while cursor.is_at_space() {
        backs.push(cursor.back()?)?;
    }
    Ok(backs)
}

/// Takes the line of a word and values.
pub(crate) fn values(
    alloc: Global,
    cursor: &mut Cursor<'_>,
    word: &str,
) -> Result<Seq<i64>, SheetRefusal>
    ensures { Takes result (λ s. s) (values word.now (place_of cursor.old)) (place_of cursor.new) }
{
    cursor.word(word)?;
    let values = values_behind(alloc, cursor)?;
    cursor.newline()?;
    Ok(Seq::from_vec(values))
}
