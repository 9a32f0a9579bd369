ghost use Rattle.std.specs.Prelude.{◌≡◌};
ghost use Rattle.cw_record.specs.Checking.{first_disagreement, differing_cell, differing_output, first_difference, end_kind, other_kind};

use crate::RecordEnd;
use cw_job::value_at;
use cw_serial::SerialEnd;

/// What differs first between the kept end and the end of the replay.
#[derive(Clone, Copy)]
pub(crate) enum Disagreement {
    /// A cell, with its two values.
    Cell {
        cell: usize,
        kept: i64,
        replayed: i64,
    },
    /// No cell that both memories have, but an output: its place, and the two outputs there.
    Output {
        place: usize,
        kept: i64,
        replayed: i64,
    },
    /// Anything else: the variants of the two ends, the second one only if it tells something.
    End {
        kept: EndKind,
        replayed: Option<EndKind>,
    },
}

/// The variants of `RecordEnd`.
#[derive(Clone, Copy)]
pub(crate) enum EndKind {
    Finished,
    Fault,
    Budget,
    Moves,
}

/// Returns what differs first between the kept end and the end of the replay.
pub(crate) fn first_disagreement(kept: &RecordEnd, end: &SerialEnd) -> Disagreement
    ensures { result ≡ first_disagreement kept.now end.now }
{
    if let Some(cell) = differing_cell(kept, end) {
        return cell;
    }
    if let Some(output) = differing_output(kept, end) {
        return output;
    }
    Disagreement::End {
        kept: end_kind(kept),
        replayed: other_kind(kept, end),
    }
}

/// Returns the first cell at which the memories of two finished ends differ, with its values.
fn differing_cell(kept: &RecordEnd, end: &SerialEnd) -> Option<Disagreement>
    ensures { result ≡ differing_cell kept.now end.now }
{
    let (RecordEnd::Finished { memory, .. }, SerialEnd::Finished { memory: values, .. }) = (
        kept, end,
    ) else {
        return None;
    };
    let cell = first_difference(memory.as_slice(), values.as_slice())?;
    Some(Disagreement::Cell {
        cell,
        kept: value_at(memory.as_slice(), cell),
        replayed: value_at(values.as_slice(), cell),
    })
}

/// Returns the first place at which the outputs of two finished ends differ, with the outputs there.
fn differing_output(kept: &RecordEnd, end: &SerialEnd) -> Option<Disagreement>
    ensures { result ≡ differing_output kept.now end.now }
{
    let (RecordEnd::Finished { outputs, .. }, SerialEnd::Finished { outputs: shown, .. }) = (
        kept, end,
    ) else {
        return None;
    };
    let place = first_difference(outputs.as_slice(), shown.as_slice())?;
    Some(Disagreement::Output {
        place,
        kept: value_at(outputs.as_slice(), place),
        replayed: value_at(shown.as_slice(), place),
    })
}

/// Returns the first position at which two lists differ, among those that both have.
fn first_difference(kept: &[i64], replayed: &[i64]) -> Option<usize>
    ensures { result ≡ first_difference kept.now replayed.now }
{
    kept.iter().zip(replayed.iter()).position(|(k, r)| k != r)
}

/// Returns the variant of an end.
fn end_kind(end: &RecordEnd) -> EndKind
    ensures { result ≡ end_kind end.now }
{
    match end {
        RecordEnd::Finished { .. } => EndKind::Finished,
        RecordEnd::Fault { .. } => EndKind::Fault,
        RecordEnd::Budget { .. } => EndKind::Budget,
        RecordEnd::Moves => EndKind::Moves,
    }
}

/// Returns the variant of the replay's end if it tells something: it is another than that of the kept end.
fn other_kind(kept: &RecordEnd, end: &SerialEnd) -> Option<EndKind>
    ensures { result ≡ other_kind kept.now end.now }
{
    match (kept, end) {
        (RecordEnd::Fault { .. } | RecordEnd::Budget { .. }, SerialEnd::Finished { .. }) => {
            Some(EndKind::Finished)
        }
        (RecordEnd::Finished { .. } | RecordEnd::Budget { .. }, SerialEnd::Fault { .. }) => {
            Some(EndKind::Fault)
        }
        (RecordEnd::Finished { .. } | RecordEnd::Fault { .. }, SerialEnd::At { .. }) => {
            Some(EndKind::Budget)
        }
        _ => None,
    }
}
