//! The words of the table, by position: the clock, a turn for each slot, the stop flag, the version, a gap word for each column, and
//! the rows of the columns.
ghost use Rattle.std.specs.Prelude.{◌≡◌, suc, ◌+◌, ◌*◌};
ghost use Rattle.cw_steps.specs.Places as places;
ghost use Rattle.cw_steps.specs.Words as words;

/// A word that `load` reads: the word of a gap; of a column its owner, and lead, `up` and the labels of both brackets of the trace
/// that it names; or the version of these rows, which is odd while they change.
#[derive(Clone, Copy, Debug)]
pub enum Place {
    Gap(u32),
    Owner(u32),
    Lead(u32),
    Up(u32),
    Opening(u32),
    Closing(u32),
    Version,
}

pub(crate) const CLOCK: usize = 0;

pub(crate) const fn turn_word(slot: u32) -> usize
    ensures { result ≡ places.turn_word slot }
{
    slot as usize + 1
}

pub(crate) const fn stop_word(cells: u32) -> usize
    ensures { result ≡ places.stop_word cells }
{
    cells as usize + 2
}

pub(crate) const fn version_word(cells: u32) -> usize
    ensures { result ≡ places.version_word cells }
{
    cells as usize + 3
}

pub(crate) const fn gap_word(cells: u32, gap: u32) -> usize
    ensures { result ≡ places.gap_word cells gap }
{
    cells as usize + 4 + gap as usize
}

pub(crate) fn word_of_place(cells: u32, columns: u32, at: Place) -> usize
    ensures { result ≡ places.word_of_place cells columns at }
{
    let columns = columns as usize;
    let rows = cells as usize + 4 + columns;
    match at {
        Place::Gap(gap) => gap_word(cells, gap),
        Place::Owner(column) => rows + column as usize,
        Place::Lead(trace) => rows + columns + trace as usize,
        Place::Up(trace) => rows + 2 * columns + trace as usize,
        Place::Opening(trace) => rows + 3 * columns + trace as usize,
        Place::Closing(trace) => rows + 4 * columns + trace as usize,
        Place::Version => version_word(cells),
    }
}

/// A number plus 1, and 0 for none.
pub(crate) fn as_word(number: Option<u32>) -> u64
    ensures { result ≡ words.as_word number }
{
    match number {
        Some(number) => number as u64 + 1,
        None => 0,
    }
}
