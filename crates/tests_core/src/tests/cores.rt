ghost use Rattle.std.specs.Prelude.{◌<◌};

use cw_code::{Back, Limits};
use cw_core::{Core, Event, Reply};
use cw_tree::{Closed, Conflict, Halt, Node};
use std::alloc::Global;
use std::test::Fail;

/// Writes a reply.
fn told(alloc: Global, reply: &Reply) -> Result<String, Fail> {
    Ok(match reply {
        Reply::Done => format!(in alloc; "done ")?,
        Reply::Value(value) => format!(in alloc; "{value} ")?,
        Reply::Conflict(conflict) => conflict_told(alloc, conflict)?,
        Reply::Back(list) => back_told(alloc, list.as_slice())?,
        Reply::Forked { left, right, fork } => format!(in alloc; "fork {fork} {left} {right} ")?,
        Reply::Inline { left, right } => format!(in alloc; "inline {left} {right} ")?,
        Reply::Early { before } => format!(in alloc; "early {before} ")?,
    })
}

fn conflict_told(alloc: Global, conflict: &Conflict) -> Result<String, Fail> {
    let Conflict {
        cell,
        last,
        asker,
        ..
    } = conflict;
    let mut text = format!(in alloc; "conflict {cell} {last} {asker} ")?;
    let rest = cause_told(alloc, conflict)?;
    text.push_str(rest.as_str())?;
    Ok(text)
}

/// Writes the block that was met, the victim, the attempt, and the newest accesses of the cell.
fn cause_told(alloc: Global, conflict: &Conflict) -> Result<String, Fail> {
    let Conflict {
        block,
        victim,
        attempt,
        ..
    } = conflict;
    let mut text = format!(in alloc; "{block} {victim} {attempt} of ")?;
    for stamp in conflict.chain.as_slice() {
        let line = format!(in alloc; "{stamp} ")?;
        text.push_str(line.as_str())?;
    }
    Ok(text)
}

fn back_told(alloc: Global, list: &[Back]) -> Result<String, Fail> {
    let mut text = format!(in alloc; "back ")?;
    for back in list {
        let line = format!(in alloc; "{}={} ", back.cell, back.value)?;
        text.push_str(line.as_str())?;
    }
    Ok(text)
}

/// Returns the stamp of the newest node.
fn newest_stamp(nodes: &[Node]) -> u64 {
    let mut stamp = 0;
    for node in nodes {
        stamp = node.stamp;
    }
    stamp
}

/// Writes the replies to a list of events, each of which is made if it fits, and then the stamp of the newest node.
fn replies(
    alloc: Global,
    first: &[i64],
    strands: u32,
    aborts: u32,
    events: &[Event],
) -> Result<String, Fail>
    requires { 0 < strands }
{
    let limits = Limits {
        fuel: 0,
        size: 0,
        aborts,
        strands,
        moves: 0,
    };
    let mut core = Core::new(alloc, first, limits)?;
    let told = replies_of(alloc, &mut core, events);
    drop(core);
    told
}

/// The same of a core.
fn replies_of(alloc: Global, core: &mut Core, events: &[Event]) -> Result<String, Fail> {
    let mut text = all_made(alloc, core, events)?;
    let stamp = stamp_told(alloc, core)?;
    text.push_str(stamp.as_str())?;
    Ok(text)
}

/// Writes the replies to these events.
fn all_made(alloc: Global, core: &mut Core, events: &[Event]) -> Result<String, Fail> {
    let mut text = String::new(alloc);
    for event in events {
        let line = made(alloc, core, *event)?;
        text.push_str(line.as_str())?;
    }
    Ok(text)
}

fn stamp_told(alloc: Global, core: &Core) -> Result<String, Fail> {
    let stamp = newest_stamp(core.tree().nodes());
    Ok(format!(in alloc; "{stamp} ")?)
}

/// Writes the reply to an event, or `no` if it does not fit.
fn made(alloc: Global, core: &mut Core, event: Event) -> Result<String, Fail> {
    if !core.fits(&event) {
        return Ok(format!(in alloc; "no ")?);
    }
    let reply = core.step(event)?;
    let line = told(alloc, &reply);
    drop(reply);
    line
}

// Macros and not functions, so that the tables are constants.
macro_rules! reads {
    ($strand:literal, $cell:literal) => {
        Event::Access {
            strand: $strand,
            cell: $cell,
            write: None,
        }
    };
}

macro_rules! writes {
    ($strand:literal, $cell:literal, $value:literal) => {
        Event::Access {
            strand: $strand,
            cell: $cell,
            write: Some($value),
        }
    };
}

const CANCEL_0: Event = Event::Cancel { strand: 0 };

const CANCEL_3: Event = Event::Cancel { strand: 3 };

#[test]
fn replies_to_cancels(rt: HostRuntime) -> Result<(), Fail> {
    let table: &[(&[i64], &[Event], &str)] = &[
        // the writes of joined strands are put back, too, and again as long as the block is pending
        (
            &[1, 2],
            &[
                Event::Begin { strand: 0 },
                Event::Fork { strand: 0 },
                Event::Split { fork: 2 },
                Event::Begin { strand: 4 },
                writes!(4, 1, 8),
                Event::Commit { strand: 4 },
                Event::Finish {
                    strand: 4,
                    dead: false,
                },
                writes!(3, 0, 7),
                Event::Finish {
                    strand: 3,
                    dead: false,
                },
                Event::Join { fork: 2 },
                CANCEL_0,
                CANCEL_0,
                writes!(0, 0, 1),
                CANCEL_0,
            ],
            "done fork 2 3 4 done done 8 done done 7 done done back 0=1 1=2 back 0=1 1=2 1 back 0=1 1=2 10 ",
        ),
        // the value is that from before the block, whose first access may be a read; what is only read is not put back
        (
            &[5],
            &[
                writes!(0, 0, 6),
                Event::Begin { strand: 0 },
                reads!(0, 0),
                writes!(0, 0, 7),
                Event::Begin { strand: 0 },
                writes!(0, 0, 8),
                Event::Commit { strand: 0 },
                CANCEL_0,
                writes!(0, 0, 6),
                Event::Commit { strand: 0 },
                Event::Begin { strand: 0 },
                reads!(0, 0),
                CANCEL_0,
            ],
            "6 done 6 7 done 8 done back 0=6 6 done done 6 back 13 ",
        ),
        // a block that is rolled back leaves nothing to put back
        (
            &[0, 0],
            &[
                Event::Fork { strand: 0 },
                Event::Split { fork: 1 },
                Event::Begin { strand: 2 },
                writes!(2, 0, 9),
                Event::Begin { strand: 3 },
                Event::Begin { strand: 3 },
                writes!(3, 1, 5),
                CANCEL_3,
                writes!(3, 1, 0),
                Event::Commit { strand: 3 },
                writes!(3, 0, 1),
                CANCEL_3,
                Event::Roll { strand: 3 },
                Event::Begin { strand: 3 },
                CANCEL_3,
                reads!(3, 1),
            ],
            "fork 1 2 3 done done 9 done done 5 back 1=0 0 done conflict 0 3 11 2 4 1 of 3 no done done back 0 13 ",
        ),
        // nor does an attempt that was rolled back beneath it
        (
            &[1, 2],
            &[
                Event::Begin { strand: 0 },
                Event::Fork { strand: 0 },
                Event::Split { fork: 2 },
                Event::Begin { strand: 3 },
                writes!(3, 0, 7),
                Event::Begin { strand: 4 },
                writes!(4, 1, 8),
                writes!(4, 0, 9),
                Event::Roll { strand: 4 },
                Event::Commit { strand: 3 },
                Event::Finish {
                    strand: 3,
                    dead: false,
                },
                Event::Begin { strand: 4 },
                writes!(4, 0, 9),
                Event::Commit { strand: 4 },
                Event::Finish {
                    strand: 4,
                    dead: false,
                },
                Event::Join { fork: 2 },
                CANCEL_0,
            ],
            "done fork 2 3 4 done done 7 done 8 conflict 0 4 9 3 5 1 of 4 done done done done 9 done done done back 0=1 12 ",
        ),
        // before any begin; by a left strand in its parent's block; by a strand that waits; after a stop
        (
            &[0],
            &[
                CANCEL_0,
                Event::Begin { strand: 0 },
                Event::Fork { strand: 0 },
                CANCEL_3,
                CANCEL_0,
                Event::Begin { strand: 3 },
                CANCEL_3,
                Event::Stop { halt: Halt::Memory },
                CANCEL_3,
            ],
            "no done fork 2 3 4 no no done back done no 4 ",
        ),
    ];
    for &(first, events, wanted) in table {
        let text = replies(rt.alloc(), first, 5, 9, events)?;
        assert!(rt; text.as_str() == wanted);
    }
    Ok(())
}

#[test]
fn replies_to_events(rt: HostRuntime) -> Result<(), Fail> {
    let table: &[(&[i64], u32, u32, &[Event], &str)] = &[
        // a fork outward has to be split first; a fork without columns
        (
            &[0],
            5,
            100000,
            &[
                Event::Fork { strand: 0 },
                Event::Fork { strand: 2 },
                Event::Split { fork: 4 },
                Event::Split { fork: 1 },
                Event::Split { fork: 4 },
                Event::Fork { strand: 5 },
                Event::Split { fork: 7 },
                Event::Begin { strand: 9 },
                Event::Begin { strand: 8 },
            ],
            "fork 1 2 3 fork 4 5 6 early 1 done done inline 8 9 no no done 4 ",
        ),
        // what a block committed within wrote is rolled back
        (
            &[7, 8, 0],
            100,
            100000,
            &[
                Event::Fork { strand: 0 },
                Event::Split { fork: 1 },
                Event::Begin { strand: 2 },
                writes!(2, 2, 1),
                Event::Begin { strand: 3 },
                Event::Begin { strand: 3 },
                reads!(3, 0),
                writes!(3, 0, 8),
                Event::Commit { strand: 3 },
                reads!(3, 1),
                writes!(3, 1, 9),
                writes!(3, 2, 2),
                Event::Commit { strand: 3 },
                Event::Roll { strand: 3 },
                reads!(2, 2),
                Event::Begin { strand: 3 },
                reads!(3, 0),
                reads!(3, 1),
            ],
            "fork 1 2 3 done done 1 done done 7 8 done 8 9 conflict 2 3 12 2 4 1 of 3 no done 1 done 7 8 15 ",
        ),
        // a write in a split fork joined in a block
        (
            &[0, 0],
            100,
            100000,
            &[
                Event::Fork { strand: 0 },
                Event::Split { fork: 1 },
                Event::Begin { strand: 2 },
                Event::Fork { strand: 2 },
                Event::Split { fork: 5 },
                writes!(7, 0, 1),
                writes!(6, 1, 5),
                Event::Finish {
                    strand: 7,
                    dead: false,
                },
                Event::Finish {
                    strand: 6,
                    dead: false,
                },
                Event::Join { fork: 5 },
                writes!(3, 0, 2),
                writes!(2, 1, 1),
                writes!(3, 0, 2),
                Event::Commit { strand: 2 },
                writes!(3, 0, 2),
            ],
            "fork 1 2 3 done done fork 5 6 7 done 1 5 done done done conflict 0 4 10 2 0 1 of 4 1 conflict 0 4 12 2 0 2 of 4 done 2 8 ",
        ),
        // a write in a split fork joined before a block
        (
            &[0, 0],
            100,
            100000,
            &[
                Event::Fork { strand: 0 },
                Event::Split { fork: 1 },
                Event::Fork { strand: 2 },
                Event::Split { fork: 4 },
                writes!(6, 0, 1),
                writes!(5, 1, 5),
                Event::Finish {
                    strand: 6,
                    dead: false,
                },
                Event::Finish {
                    strand: 5,
                    dead: false,
                },
                Event::Join { fork: 4 },
                Event::Begin { strand: 2 },
                writes!(3, 0, 2),
            ],
            "fork 1 2 3 done fork 4 5 6 done 1 5 done done done done 2 6 ",
        ),
        // a budget is spent beneath a strand that waits
        (
            &[0],
            100,
            1,
            &[
                Event::Fork { strand: 0 },
                Event::Split { fork: 1 },
                Event::Begin { strand: 2 },
                writes!(2, 0, 1),
                Event::Begin { strand: 3 },
                Event::Fork { strand: 3 },
                writes!(8, 0, 2),
                Event::Stop {
                    halt: Halt::Budget { strand: 8 },
                },
                Event::Commit { strand: 2 },
                Event::Finish {
                    strand: 8,
                    dead: true,
                },
                Event::Stop {
                    halt: Halt::Budget { strand: 3 },
                },
                Event::Stop { halt: Halt::Memory },
            ],
            "fork 1 2 3 done done 1 done fork 7 8 9 conflict 0 3 10 2 4 1 of 3 no no no done no 0 ",
        ),
        // strands die, and their parent rolls back
        (
            &[0],
            100,
            2,
            &[
                Event::Fork { strand: 0 },
                Event::Split { fork: 1 },
                Event::Begin { strand: 2 },
                writes!(2, 0, 1),
                Event::Begin { strand: 3 },
                Event::Fork { strand: 3 },
                writes!(8, 0, 2),
                Event::Stop {
                    halt: Halt::Budget { strand: 3 },
                },
                Event::Finish {
                    strand: 8,
                    dead: true,
                },
                Event::Finish {
                    strand: 9,
                    dead: true,
                },
                Event::Join { fork: 7 },
                Event::Commit { strand: 3 },
                Event::Roll { strand: 3 },
                Event::Begin { strand: 3 },
            ],
            "fork 1 2 3 done done 1 done fork 7 8 9 conflict 0 3 10 2 4 1 of 3 no done done done no done done 7 ",
        ),
    ];
    for &(first, strands, aborts, events, wanted) in table {
        if strands > 0 {
            let text = replies(rt.alloc(), first, strands, aborts, events)?;
            assert!(rt; text.as_str() == wanted);
        }
    }
    Ok(())
}

/// Makes the events of `depth` nested blocks with a write in the innermost one, and of an access that it refuses.
fn refused_by_a_deep_write(alloc: Global, depth: u32) -> Result<Vec<Event>, Fail> {
    let mut events = Vec::new(alloc);
    events.push(Event::Fork { strand: 0 })?;
    events.push(Event::Split { fork: 1 })?;
    for _ in 0..depth {
        events.push(Event::Begin { strand: 2 })?;
    }
    events.push(writes!(2, 0, 1))?;
    events.push(reads!(3, 0))?;
    events.push(Event::Out {
        strand: 3,
        value: 0,
    })?;
    Ok(events)
}

#[test]
fn a_refusal_draws_no_stamp(rt: HostRuntime) -> Result<(), Fail> {
    let events = refused_by_a_deep_write(rt.alloc(), 5_000)?;
    let text = replies(rt.alloc(), &[0], 100, 100_000, events.as_slice())?;
    let last = "done 1 conflict 0 5002 5005 2 0 1 of 5002 done 5003 ";
    assert!(rt; text.as_str().ends_with(last));
    Ok(())
}

/// Writes the parents of the nodes, the askers of the conflicts, and the stamps of each cell's accesses.
fn closed_told(alloc: Global, closed: &Closed) -> Result<String, Fail> {
    let mut text = String::new(alloc);
    for node in closed.tree.nodes() {
        let line = format!(in alloc; "{} ", node.parent)?;
        text.push_str(line.as_str())?;
    }
    for conflict in closed.conflicts.as_slice() {
        let line = format!(in alloc; "asker {} ", conflict.asker)?;
        text.push_str(line.as_str())?;
    }
    for journal in closed.journals.as_slice() {
        for entry in journal.as_slice() {
            let line = format!(in alloc; "stamp {} ", entry.mark.stamp)?;
            text.push_str(line.as_str())?;
        }
    }
    Ok(text)
}

/// Writes what is left of a core after these events, each of which is made if it fits.
fn closed_after(alloc: Global, events: &[Event]) -> Result<String, Fail> {
    let limits = Limits {
        fuel: 0,
        size: 0,
        aborts: 9,
        strands: 9,
        moves: 0,
    };
    let mut core = Core::new(alloc, &[0], limits)?;
    match all_made(alloc, &mut core, events) {
        Ok(text) => {
            drop(text);
            closed_of(alloc, core)
        }
        Err(fault) => {
            drop(core);
            Err(fault)
        }
    }
}

/// What is left of a core.
fn closed_of(alloc: Global, core: Core) -> Result<String, Fail> {
    match core.close() {
        Ok(closed) => {
            let told = closed_told(alloc, &closed);
            drop(closed);
            told
        }
        Err((core, error)) => {
            drop(core);
            Err(error.into())
        }
    }
}

#[test]
fn a_core_is_closed_in_order(rt: HostRuntime) -> Result<(), Fail> {
    let events = [
        Event::Fork { strand: 0 },
        Event::Split { fork: 1 },
        Event::Begin { strand: 3 },
        writes!(3, 0, 1),
        writes!(2, 0, 2),
        Event::Commit { strand: 3 },
        writes!(2, 0, 2),
    ];
    let text = closed_after(rt.alloc(), &events)?;
    assert!(rt; text.as_str() == "0 0 1 2 2 1 5 6 asker 3 stamp 3 stamp 5 ");
    Ok(())
}
