ghost use Rattle.std.specs.Prelude.{◌≡◌, ◌≤◌, ◌↔◌, None, false, length, IfOk, IfSome, IsTrue};
ghost use Rattle.cw_io.specs.Outside.{Rose};
ghost use Rattle.cw_text.specs.Syntax.{source_of};
ghost use Rattle.cw_tree.specs.Nodes.{is_strand};
ghost use Rattle.cw_job.specs.Jobs.{TakesWords};
ghost use Rattle.cw_record.specs.Order.{ending_strand};
ghost use Rattle.cw_record.specs.Records.{IsNumberedDepthFirst, IsReplayed};
ghost use Rattle.cw_pool.specs.Recorded.{IsOfOneWorker};
ghost use Rattle.cw_report.specs.Report.{IsVersion};
ghost use Rattle.cw_sheet.specs.SheetText.{sheet_text};
ghost use Rattle.cw_top.specs.declared.reasons.NoRun.TheVariants.{Misfit};
ghost use Rattle.cw_top.specs.declared.telling.Telling.TheVariants.{Races};
ghost use Rattle.cw_top.specs.Outcome.{IsCauseOfTelling, IsStatusOfRun, status_of_end};
ghost use Rattle.cw_top.specs.Reasons.{note_of};
ghost use Rattle.cw_top.specs.Written.{IsTextIn, StillTells, Tells, Writes, load_text, sheet_of_run, text_by, text_owed, version_number};

use crate::loading::summary;
use crate::racing::races_of_run;
use crate::reasons::{NoRun, Refusal, Stop};
use crate::running::Ran;
use crate::{Note, Reply};
use cw_base::OutOfMemory;
use cw_io::{Sink, write_all};
use cw_record::{Checked, Record, RecordEnd, check};
use cw_report::{report_text, result_text};
use cw_sheet::{Sheet, sheet_text};
use cw_words::ReportVersion;
use std::alloc::Global;

/// What a command writes of its run.
#[derive(Clone, Copy)]
pub enum Telling {
    /// Its result, followed by the report if it is asked for.
    Results { report: Option<ReportVersion> },
    /// The summary of a load of `transfers` transfers.
    Summary { transfers: u32 },
    /// Its record sheet.
    Sheet,
    /// The races of a run of one worker.
    Races,
}

// A run, and the text that is owed for it.
#[derive(Drop)]
struct Told {
    run: Record,
    text: Vec<u8>,
}

fn status_of_end(end: &RecordEnd) -> u8
    ensures { result ≡ status_of_end end.now }
{
    match end {
        RecordEnd::Finished { .. } => 0,
        RecordEnd::Fault { .. } => 6,
        RecordEnd::Budget { .. } => 7,
        RecordEnd::Moves => 9,
    }
}

fn version_number(version: ReportVersion) -> u32
    ensures number { result ≡ version_number version }
    ensures version { IsVersion result }
{
    match version {
        ReportVersion::First => 1,
        ReportVersion::Second => 2,
    }
}

// Returns the text of a run: its result, followed by the report if it is asked for.
fn text_by(
    alloc: Global,
    run: &Record,
    report: Option<ReportVersion>,
) -> Result<Vec<u8>, OutOfMemory>
    requires { IsTrue (is_strand run.now.tree (ending_strand run.now.end)) }
    ensures { IfOk result (λ text. text.items ≡ text_by report run.now) }
{
    let mut text = result_text(alloc, run)?;
    if let Some(version) = report {
        let behind = report_text(alloc, run, version_number(version))?;
        text.extend_from_slice(behind.as_slice())?;
    }
    Ok(text)
}

// Returns the text of a load: its summary, or how it ended if it did not finish.
fn load_text(alloc: Global, run: &Record, transfers: u32) -> Result<Vec<u8>, OutOfMemory>
    requires { IsTrue (is_strand run.now.tree (ending_strand run.now.end)) }
    ensures { IfOk result (λ text. text.items ≡ load_text transfers run.now) }
{
    match &run.end {
        RecordEnd::Finished { memory, .. } => summary(alloc, transfers, memory.as_slice()),
        _ => result_text(alloc, run),
    }
}

// Makes the sheet of a run, and takes it apart again.
fn with_sheet(alloc: Global, ran: Ran) -> Result<Told, OutOfMemory>
    ensures run { IfOk result (λ told. told.run ≡ ran.run) }
    ensures text { IfOk result (λ told. told.text.items ≡ sheet_text (sheet_of_run (source_of ran.ast) ran.run)) }
{
    let Ran { run, ast } = ran;
    let Record {
        program,
        words,
        limits,
        tree,
        journals,
        conflicts,
        order,
        end,
    } = run;
    let sheet = Sheet {
        ast,
        words,
        limits,
        tree,
        conflicts,
        end,
    };
    let text = sheet_text(alloc, &sheet)?;
    let run = Record {
        program,
        words: sheet.words,
        limits: sheet.limits,
        tree: sheet.tree,
        journals,
        conflicts: sheet.conflicts,
        order,
        end: sheet.end,
    };
    Ok(Told { run, text })
}

// Makes the text of a run, as `telling` says.
fn with_text(alloc: Global, ran: Ran, telling: Telling) -> Result<Told, OutOfMemory>
    requires strand { IsTrue (is_strand ran.run.tree (ending_strand ran.run.end)) }
    requires one { telling ≡ Races → IsOfOneWorker ran.run }
    requires numbered { IsNumberedDepthFirst ran.run.tree }
    ensures run { IfOk result (λ told. told.run ≡ ran.run) }
    ensures text { IfOk result (λ told. IsTextIn telling (source_of ran.ast) ran.run told.text.items) }
{
    match telling {
        Telling::Results { report } => {
            let text = text_by(alloc, &ran.run, report)?;
            Ok(Told { run: ran.run, text })
        }
        Telling::Summary { transfers } => {
            let text = load_text(alloc, &ran.run, transfers)?;
            Ok(Told { run: ran.run, text })
        }
        Telling::Sheet => with_sheet(alloc, ran),
        Telling::Races => {
            let text = races_of_run(alloc, &ran.run)?;
            Ok(Told { run: ran.run, text })
        }
    }
}

/// Returns the reply if there is no run.
pub fn without_run(why: NoRun) -> Reply
    ensures status { IsStatusOfRun result.kept result.status result.note }
    ensures note { result.note ≡ note_of why }
    ensures misfit { result.status ≡ 2 → why ≡ Misfit }
    ensures none { result.kept ≡ None }
{
    let (status, note) = match why {
        NoRun::Stopped(Stop::ReadFault) => (3, Note::Read),
        NoRun::Refused(Refusal::Text(fault)) => (5, Note::Text(fault)),
        NoRun::Refused(Refusal::Name(fault)) => (5, Note::Name(fault)),
        NoRun::Misfit => (2, Note::Usage),
        _ => (1, Note::Memory),
    };
    Reply {
        status,
        note,
        kept: None,
    }
}

// Writes the text of a run that replays, and returns the reply.
fn write_reply<K: Sink>(told: Told, sink: &mut K) -> Reply
    requires { IsReplayed told.run }
    ensures later { K.faults sink.old ≤ K.faults sink.new }
    ensures kept { IfSome result.kept (λ r. r ≡ told.run) }
    ensures status { IsStatusOfRun result.kept result.status result.note }
    ensures cause { IsCauseOfTelling result.note (Rose (K.faults sink.old) (K.faults sink.new)) }
    ensures written { Writes (text_owed result.kept result.status told.text.items) result.note (K.written sink.old) (K.written sink.new) }
    ensures tells { (result.status ≡ 4 → ⊥) → StillTells (text_owed result.kept result.status told.text.items) (K.tells_for sink.old) (K.tells_for sink.new) (K.written sink.old) (K.written sink.new) }
{
    let Told { run, text } = told;
    match write_all(sink, text.as_slice()) {
        Ok(()) => Reply {
            status: status_of_end(&run.end),
            note: Note::Nothing,
            kept: Some(run),
        },
        Err(_) => Reply {
            status: 4,
            note: Note::Write,
            kept: Some(run),
        },
    }
}

// Makes the text of a run that replays, writes it, and returns the reply.
fn tell_reply<K: Sink>(alloc: Global, ran: Ran, telling: Telling, sink: &mut K) -> Reply
    requires replays { IsReplayed ran.run }
    requires one { telling ≡ Races → IsOfOneWorker ran.run }
    requires numbered { IsNumberedDepthFirst ran.run.tree }
    ensures later { K.faults sink.old ≤ K.faults sink.new }
    ensures kept { IfSome result.kept (λ r. r ≡ ran.run) }
    ensures status { IsStatusOfRun result.kept result.status result.note }
    ensures cause { IsCauseOfTelling result.note (Rose (K.faults sink.old) (K.faults sink.new)) }
    ensures written { Tells (IsTextIn telling (source_of ran.ast)) result.kept result.status result.note (K.written sink.old) (K.written sink.new) (K.tells_for sink.old) (K.tells_for sink.new) }
{
    match with_text(alloc, ran, telling) {
        Ok(told) => write_reply(told, sink),
        Err(_) => without_run(NoRun::OutOfMemory),
    }
}

// Whether the run replays. One that is already known to replay is not checked.
fn is_replayed(alloc: Global, run: &Record, is_unsure: bool) -> Result<bool, OutOfMemory>
    requires takes { TakesWords run.now.program (length run.now.words) }
    requires sure { is_unsure ≡ false → IsReplayed run.now }
    ensures { IfOk result (λ b. IsTrue b ↔ IsReplayed run.now) }
{
    if !is_unsure {
        return Ok(true);
    }
    match check(alloc, run)? {
        Checked::Agrees => Ok(true),
        Checked::Disagree { .. } => Ok(false),
    }
}

/// Writes the text of a run if it replays, and returns the reply.
pub fn reply_to<K: Sink>(
    alloc: Global,
    ran: Ran,
    is_unsure: bool,
    telling: Telling,
    sink: &mut K,
) -> Reply
    requires takes { TakesWords ran.run.program (length ran.run.words) }
    requires sure { is_unsure ≡ false → IsReplayed ran.run }
    requires one { telling ≡ Races → IsOfOneWorker ran.run }
    requires numbered { IsNumberedDepthFirst ran.run.tree }
    ensures later { K.faults sink.old ≤ K.faults sink.new }
    ensures kept { IfSome result.kept (λ r. r ≡ ran.run) }
    ensures status { IsStatusOfRun result.kept result.status result.note }
    ensures cause { IsCauseOfTelling result.note (Rose (K.faults sink.old) (K.faults sink.new)) }
    ensures written { Tells (IsTextIn telling (source_of ran.ast)) result.kept result.status result.note (K.written sink.old) (K.written sink.new) (K.tells_for sink.old) (K.tells_for sink.new) }
{
    match is_replayed(alloc, &ran.run, is_unsure) {
        Ok(true) => tell_reply(alloc, ran, telling, sink),
        Ok(false) => Reply {
            status: 8,
            note: Note::Nothing,
            kept: Some(ran.run),
        },
        Err(_) => without_run(NoRun::OutOfMemory),
    }
}
