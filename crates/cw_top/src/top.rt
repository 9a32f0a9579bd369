ghost use Rattle.std.specs.Prelude.{◌≡◌, ◌≢◌, ◌≤◌, ◌↔◌, Some, IfSome, IsSomeAnd, OnSome, []};
ghost use Rattle.cw_io.specs.Outside.{Appends, TakesNothing, Rose};
ghost use Rattle.cw_record.specs.Records.{IsReplayed};
ghost use Rattle.cw_top.specs.declared.outcome.Note.{Note};
ghost use Rattle.cw_top.specs.declared.outcome.Note.TheVariants.{Nothing};
ghost use Rattle.cw_top.specs.Audited.{FindsBroken, EndsWell, TellsBy};
ghost use Rattle.cw_top.specs.Outcome.{FailsToRead, HasCause, IsMisused, IsRefusedWith, IsStatus, IsStatusOfRun, IsSurelyMisused, IsSurelyRefused, MayBeMisusedWith, MayEndWith};
ghost use Rattle.cw_top.specs.OneMemory.{IsOneMemory};
ghost use Rattle.cw_top.specs.OverSource.{IsRunOfSource};
ghost use Rattle.cw_top.specs.Runs.{HasSeveralThreads, HasSeveralWorkers, IsDoneAs, IsDoneBy, IsReady, IsRunOf, RunsProgram};
ghost use Rattle.cw_top.specs.Spent.{HasSpentMoves, IsSpentBy, IsSpentOn};
ghost use Rattle.cw_top.specs.Taken.{Accepts, HasAnswered, HasRead, IsRefusedFor, IsUnreadFor, RisesAtMost, TakesAtMost, most_ends, most_read};
ghost use Rattle.cw_top.specs.Written.{IsTextBy, Tells, telling_of};
ghost use Rattle.cw_words.specs.Words.{command_in};

use crate::checking::check_source;
use crate::reasons::NoRun;
use crate::running::{has_several_threads, run_of};
use crate::telling::{Telling, reply_to, without_run};
use crate::{Note, Reply};
use cw_io::{Gate, Sink, Source};
use cw_words::{Command, command_of};
use std::alloc::Global;
use std::sync::Wait;
use std::thread::Threads;

// Returns what a command writes of its run.
fn telling_of(command: &Command) -> Telling
    requires { RunsProgram command.now }
    ensures { result ≡ telling_of command.now }
{
    match command {
        Command::Run { report, .. } | Command::Sim { report, .. } => Telling::Results {
            report: *report,
        },
        Command::Load { transfers, .. } => Telling::Summary {
            transfers: *transfers,
        },
        Command::Keep { .. } => Telling::Sheet,
        Command::Races { .. } => Telling::Races,
        Command::Check => unreachable!(),
    }
}

// Runs the program of a command, and writes its text.
fn do_run<R: Threads + Wait + Sync, S: Source, K: Sink, G: Gate>(
    rt: &R,
    alloc: Global,
    command: Command,
    source: &mut S,
    sink: &mut K,
    gate: &G,
) -> Reply
    requires ready { IsReady command }
    requires runs { RunsProgram command }
    ensures read_later { S.faults source.old ≤ S.faults source.new }
    ensures write_later { K.faults sink.old ≤ K.faults sink.new }
    ensures status { IsStatusOfRun result.kept result.status result.note }
    ensures cause { HasCause (Some command) result.note (S.left source.old) (Rose (S.faults source.old) (S.faults source.new)) (Rose (K.faults sink.old) (K.faults sink.new)) }
    ensures taken { TakesAtMost (most_read (Some command)) (S.left source.old) (S.left source.new) }
    ensures whole { OnSome result.kept (HasRead (Some command) (S.left source.old) (S.left source.new)) }
    ensures judged { result.status ≡ 2 → HasRead (Some command) (S.left source.old) (S.left source.new) }
    ensures once { RisesAtMost (most_ends (Some command)) (S.ends source.old) (S.ends source.new) }
    ensures run { IfSome result.kept (IsRunOf (Some command) (S.left source.old)) }
    ensures done { IfSome result.kept (IsDoneBy command) }
    ensures written { Tells (IsTextBy command (S.left source.old)) result.kept result.status result.note (K.written sink.old) (K.written sink.new) (K.tells_for sink.old) (K.tells_for sink.new) }
{
    let telling = telling_of(&command);
    let is_unsure = has_several_threads(&command);
    match run_of(rt, alloc, command, source, gate) {
        Ok(ran) => reply_to(alloc, ran, is_unsure, telling, sink),
        Err(why) => without_run(why),
    }
}

// Does what a command asks for.
fn do_command<R: Threads + Wait + Sync, S: Source, K: Sink, G: Gate>(
    rt: &R,
    alloc: Global,
    command: Command,
    source: &mut S,
    sink: &mut K,
    gate: &G,
) -> Reply
    requires ready { IsReady command }
    ensures read_later { S.faults source.old ≤ S.faults source.new }
    ensures write_later { K.faults sink.old ≤ K.faults sink.new }
    ensures status { IsStatus (Some command) result.kept result.status result.note }
    ensures cause { HasCause (Some command) result.note (S.left source.old) (Rose (S.faults source.old) (S.faults source.new)) (Rose (K.faults sink.old) (K.faults sink.new)) }
    ensures taken { TakesAtMost (most_read (Some command)) (S.left source.old) (S.left source.new) }
    ensures whole { OnSome result.kept (HasRead (Some command) (S.left source.old) (S.left source.new)) }
    ensures judged { result.status ≡ 2 → HasRead (Some command) (S.left source.old) (S.left source.new) }
    ensures answered { HasAnswered (Some command) result.note → HasRead (Some command) (S.left source.old) (S.left source.new) }
    ensures once { RisesAtMost (most_ends (Some command)) (S.ends source.old) (S.ends source.new) }
    ensures run { IfSome result.kept (IsRunOf (Some command) (S.left source.old)) }
    ensures done { IfSome result.kept (IsDoneBy command) }
    ensures written { TellsBy (Some command) (S.left source.old) result.kept result.status result.note (K.written sink.old) (K.written sink.new) (K.tells_for sink.old) (K.tells_for sink.new) }
{
    match command {
        Command::Check => check_source(alloc, source, sink),
        _ => do_run(rt, alloc, command, source, sink, gate),
    }
}

// Does all that the top call does, once the words are read.
fn answer<R: Threads + Wait + Sync, S: Source, K: Sink, G: Gate>(
    rt: &R,
    alloc: Global,
    command: Option<Command>,
    source: &mut S,
    sink: &mut K,
    gate: &G,
) -> Reply
    requires ready { IfSome command IsReady }
    ensures read_later { S.faults source.old ≤ S.faults source.new }
    ensures write_later { K.faults sink.old ≤ K.faults sink.new }
    ensures status { IsStatus command result.kept result.status result.note }
    ensures cause { HasCause command result.note (S.left source.old) (Rose (S.faults source.old) (S.faults source.new)) (Rose (K.faults sink.old) (K.faults sink.new)) }
    ensures taken { TakesAtMost (most_read command) (S.left source.old) (S.left source.new) }
    ensures whole { OnSome result.kept (HasRead command (S.left source.old) (S.left source.new)) }
    ensures judged { result.status ≡ 2 → OnSome command (HasRead command (S.left source.old) (S.left source.new)) }
    ensures answered { HasAnswered command result.note → HasRead command (S.left source.old) (S.left source.new) }
    ensures once { RisesAtMost (most_ends command) (S.ends source.old) (S.ends source.new) }
    ensures run { IfSome result.kept (IsRunOf command (S.left source.old)) }
    ensures done { IfSome result.kept (IsDoneAs command) }
    ensures written { TellsBy command (S.left source.old) result.kept result.status result.note (K.written sink.old) (K.written sink.new) (K.tells_for sink.old) (K.tells_for sink.new) }
{
    match command {
        None => Reply {
            status: 2,
            note: Note::Usage,
            kept: None,
        },
        Some(command) => do_command(rt, alloc, command, source, sink, gate),
    }
}

/// Does all that the program does. `words` are the command's words without the program's name. `run` and `sim` read a program from
/// the source, run it with the words of main, and write its result (`result_text`) to the sink; with `--report 1` the report on it
/// follows (`report_text`), and with `--report 2` its second version. `run` has as many workers as `--workers` says, or four without that option. Each is on a thread of its
/// own if one can be started; a single worker runs depth first. `sim` does the moves of that many virtual workers. Both have the
/// options `--fuel`, `--size`, `--aborts` and `--strands`; `sim` also has `--moves`, and `--schedule` or `--seed`. `load N` reads
/// nothing. It runs the program of N transfers (`load_program`), from 1 to 20,000, as `run` does with the default limits, and
/// writes N and the sum of all cells. Its one option is `--workers`. `keep` runs as `run` does, without a report, and writes the whole
/// run as a record sheet (`sheet_text`). `check` has neither options nor words. It reads such a sheet, runs nothing, and writes `sound` or
/// `broken PART` (`audit`).
///
/// A run of several threads is written only once one memory has done the same in its order; status 8 says that it did not. Each of
/// these threads calls the gate before it looks for a task of another one, and before each try of a begin, an access or a commit.
///
/// The statuses are those of `Reply`. At most 1,048,577 bytes are read, one more than a text may have, of a sheet 67,108,865, and
/// never more are asked for. Errors are looked for in this order: words, read, text, names, number of words, run, write; memory may
/// run out anywhere.
pub fn cwstm<R: Threads + Wait + Sync, S: Source, K: Sink, G: Gate>(
    rt: &R,
    alloc: Global,
    words: &[String],
    source: &mut S,
    sink: &mut K,
    gate: &G,
) -> Reply
    // The status is that of the run that is kept. Without a run it is that of the note. A check keeps no run.
    ensures status { IsStatus (command_in words.now) result.kept result.status result.note }

    // Each answer has its cause, by the command.
    ensures cause { HasCause (command_in words.now) result.note (S.left source.old) (Rose (S.faults source.old) (S.faults source.new)) (Rose (K.faults sink.old) (K.faults sink.new)) }

    // Status 2 comes only if the words are of no use. If they surely are, only status 1 may come before it.
    ensures usage { result.status ≡ 2 → IsMisused (command_in words.now) (S.left source.old) }
    ensures misused { IsSurelyMisused (command_in words.now) (S.left source.old)
        → (Rose (S.faults source.old) (S.faults source.new) → ⊥) → MayBeMisusedWith (command_in words.now) result.status }
    ensures judged { result.status ≡ 2 → OnSome (command_in words.now) (HasRead (command_in words.now) (S.left source.old) (S.left source.new)) }

    ensures read_fault { result.status ≡ 3 → Rose (S.faults source.old) (S.faults source.new) }
    ensures write_fault { result.status ≡ 4 → Rose (K.faults sink.old) (K.faults sink.new) }
    ensures refused { result.status ≡ 5 → IsRefusedFor (command_in words.now) result.note (S.left source.old) }
    ensures unreadable { result.status ≡ 10 → IsUnreadFor (command_in words.now) result.note (S.left source.old) }

    // A source that is refused gives status 5, or 10 for a sheet, and its first fault, unless a read fails. Only status 1 may come before
    // it.
    ensures refuses { (fault : Note) → IsSurelyRefused (command_in words.now) (S.left source.old) fault
        → (Rose (S.faults source.old) (S.faults source.new) → ⊥) → IsRefusedWith (command_in words.now) fault result.status result.note }
    ensures complete { Accepts (command_in words.now) (S.left source.old)
        → (FailsToRead (command_in words.now) (Rose (S.faults source.old) (S.faults source.new)) → ⊥) → (Rose (K.faults sink.old) (K.faults sink.new) → ⊥)
        → MayEndWith (command_in words.now) result.status }

    // The run that is kept is one of the command: of what the source spells, or of the program of a load. With one thread it is the
    // depth-first run, without refusals. With several its tree is put together from what strands did. For `sim` it is the record of
    // the moves of the command's workers, in the turns of its schedule; with one worker that has no refusals either, and is the
    // depth-first run unless the moves were spent. The runs of one thread and all simulations are coherent.
    ensures run { IfSome result.kept (IsRunOf (command_in words.now) (S.left source.old)) }
    ensures done { IfSome result.kept (IsDoneAs (command_in words.now)) }
    ensures whole { OnSome result.kept (HasRead (command_in words.now) (S.left source.old) (S.left source.new)) }

    // Except with status 8, one memory does the same, over the program's code and over its syntax tree. That tree is spelled by the
    // source, or is that of a load.
    ensures replays { result.status ≢ 8 → IfSome result.kept IsReplayed }
    ensures source { result.status ≢ 8 → IfSome result.kept (IsRunOfSource (command_in words.now) (S.left source.old)) }

    // With status 8 it does not, and nothing was written or noted. Only several threads give status 8.
    ensures disagrees { result.status ≡ 8 → IsSomeAnd result.kept (λ r. IsReplayed r → ⊥) }
    ensures silent { result.status ≡ 8 → (result.note ≡ Nothing) × Appends (K.written sink.old) (K.written sink.new) [] }
    ensures threads { result.status ≡ 8 → HasSeveralThreads (command_in words.now) }

    // With status 0 the text of what one memory comes to was written; for a check, that the sheet is sound, and it is.
    ensures finished { result.status ≡ 0 → EndsWell (command_in words.now) (S.left source.old) result.kept (K.written sink.old) (K.written sink.new) }

    // Status 11 is that of a check. The first part of the sheet that is broken was written.
    ensures broken { result.status ≡ 11 → FindsBroken (command_in words.now) (S.left source.old) (K.written sink.old) (K.written sink.new) }
    ensures answered { HasAnswered (command_in words.now) result.note → HasRead (command_in words.now) (S.left source.old) (S.left source.new) }

    // The same without a word of records. If the source tells its bytes and the sink what it got, there is an order of picks under which one
    // memory, running the strands of the syntax tree that the bytes spell, ends finished, and what was written is the text of its outputs and
    // its cells; a report may follow. No atomic block is interrupted in that order. For a load it is the tree of its own program, and its summary.
    ensures one_memory { result.status ≡ 0 → IsOneMemory (command_in words.now) (S.left source.old) (K.written sink.old) (K.written sink.new) }

    // With status 7 a strand spent its budget, and one memory comes to where it stands. In a simulation each of its attempts is
    // kept.
    ensures spent { result.status ≡ 7 → IsSomeAnd result.kept (IsSpentBy (command_in words.now)) }

    // Only several workers give status 7, and in a simulation only a source with a `spawn`.
    ensures several { result.status ≡ 7 → HasSeveralWorkers (command_in words.now) }
    ensures spawns { result.status ≡ 7 → IsSpentOn (command_in words.now) (S.left source.old) }

    // Status 9 comes exactly if all moves of a simulation were made without an end, and the text was written.
    ensures moves { result.status ≡ 9 ↔ ((result.note ≡ Nothing) × IsSomeAnd result.kept (HasSpentMoves (command_in words.now))) }

    ensures unread { most_read (command_in words.now) ≡ 0 → TakesNothing (S.left source.old) (S.left source.new) }
    ensures taken { TakesAtMost (most_read (command_in words.now)) (S.left source.old) (S.left source.new) }

    // Reading ends with the first read that gives no byte: at the end of the source, at a failure, or into an empty buffer. So the
    // source is asked at most once at its end, and not again after it failed. Words that are no command, and a load, ask for
    // nothing.
    ensures once { RisesAtMost (most_ends (command_in words.now)) (S.ends source.old) (S.ends source.new) }

    // The owed text was written, or a front of it if a write failed; nothing, if none is owed. A check owes its answer. Unless a write
    // failed, a sink that goes on telling for at least as many bytes as the text has still tells, and goes on for the rest.
    ensures written { TellsBy (command_in words.now) (S.left source.old) result.kept result.status result.note (K.written sink.old) (K.written sink.new) (K.tells_for sink.old) (K.tells_for sink.new) }

    // Counts of faults never fall.
    ensures read_later { S.faults source.old ≤ S.faults source.new }
    ensures write_later { K.faults sink.old ≤ K.faults sink.new }
{
    let Ok(command) = command_of(alloc, words) else {
        return without_run(NoRun::OutOfMemory);
    };
    answer(rt, alloc, command, source, sink, gate)
}
