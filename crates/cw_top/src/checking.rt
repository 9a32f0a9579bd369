ghost use Rattle.std.specs.Prelude.{◌≡◌, ◌≤◌, None, Some, IfOk, IfErr, IfSome, OnOk};
ghost use Rattle.cw_io.specs.Outside.{Rose, RunsDry};
ghost use Rattle.cw_words.specs.declared.command.Command.TheVariants.{Check};
ghost use Rattle.cw_top.specs.Audited.{IsAuditOf, TellsAnswer, TellsAudit, audit_status, audit_text};
ghost use Rattle.cw_top.specs.Outcome.{IsCauseOfCheck, IsCauseOfTelling, IsStatusOfCheck};
ghost use Rattle.cw_top.specs.Reasons.{WhyNoAudit, WhyUnread, note_without_audit};
ghost use Rattle.cw_top.specs.Taken.{HasAnswered, RisesAtMost, TakesAtMost, most_sheet_bytes};

use crate::reading::{MOST_SHEET_BYTES, read_all};
use crate::reasons::{NoAudit, Stop};
use crate::{Note, Reply};
use cw_audit::{Audit, audit};
use cw_base::OutOfMemory;
use cw_io::{Sink, Source, write_all};
use cw_sheet::{read_is_text, read_sheet};
use std::alloc::Global;

// Judges the sheet that bytes are.
fn audit_of(alloc: Global, bytes: &[u8]) -> Result<Audit, NoAudit>
    ensures audit { IfOk result (IsAuditOf bytes.now) }
    ensures why { IfErr result (λ n. WhyUnread n bytes.now) }
{
    // A hint to the prover: a sheet that was read has a text.
    read_is_text();
    let sheet = read_sheet(alloc, bytes)?;
    Ok(audit(alloc, &sheet)?)
}

// Judges the sheet that a source gives.
fn audit_from<S: Source>(alloc: Global, source: &mut S) -> Result<Audit, NoAudit>
    ensures later { S.faults source.old ≤ S.faults source.new }
    ensures audit { IfOk result (λ a. IfSome (S.left source.old) (λ bytes. IsAuditOf bytes a)) }
    ensures why { IfErr result (λ n. WhyNoAudit n (Rose (S.faults source.old) (S.faults source.new)) (S.left source.old)) }
    ensures taken { TakesAtMost most_sheet_bytes (S.left source.old) (S.left source.new) }
    ensures whole { OnOk result (RunsDry (S.left source.old) (S.left source.new)) }
    ensures once { RisesAtMost 1 (S.ends source.old) (S.ends source.new) }
{
    let bytes = read_all(alloc, source, MOST_SHEET_BYTES)?;
    let audit = audit_of(alloc, bytes.as_slice())?;
    Ok(audit)
}

fn audit_text(alloc: Global, audit: Audit) -> Result<Vec<u8>, OutOfMemory>
    ensures { IfOk result (λ text. text.items ≡ audit_text audit) }
{
    let text = match audit {
        Audit::Sound => format!(in alloc; "sound\n")?,
        Audit::Broken { part } => format!(in alloc; "broken {part}\n")?,
    };
    Ok(text.into_bytes())
}

fn audit_status(audit: Audit) -> u8
    ensures { result ≡ audit_status audit }
{
    match audit {
        Audit::Sound => 0,
        Audit::Broken { .. } => 11,
    }
}

// Returns the reply if no sheet is judged.
fn without_audit(why: NoAudit) -> Reply
    ensures none { result.kept ≡ None }
    ensures status { IsStatusOfCheck result.status result.note }
    ensures note { result.note ≡ note_without_audit why }
{
    let (status, note) = match why {
        NoAudit::Stopped(Stop::ReadFault) => (3, Note::Read),
        NoAudit::Refused(fault) => (10, Note::Sheet(fault)),
        _ => (1, Note::Memory),
    };
    Reply {
        status,
        note,
        kept: None,
    }
}

// Writes what an audit answers, and returns the reply.
fn write_audit<K: Sink>(alloc: Global, audit: Audit, sink: &mut K) -> Reply
    ensures later { K.faults sink.old ≤ K.faults sink.new }
    ensures none { result.kept ≡ None }
    ensures status { IsStatusOfCheck result.status result.note }
    ensures cause { IsCauseOfTelling result.note (Rose (K.faults sink.old) (K.faults sink.new)) }
    ensures written { TellsAnswer audit result.status result.note (K.written sink.old) (K.written sink.new) (K.tells_for sink.old) (K.tells_for sink.new) }
{
    let Ok(text) = audit_text(alloc, audit) else {
        return without_audit(NoAudit::OutOfMemory);
    };
    let (status, note) = match write_all(sink, text.as_slice()) {
        Ok(()) => (audit_status(audit), Note::Nothing),
        Err(_) => (4, Note::Write),
    };
    Reply {
        status,
        note,
        kept: None,
    }
}

/// Judges the sheet that a source gives, and writes the answer: whether it is sound, or the first part that is broken.
pub fn check_source<S: Source, K: Sink>(alloc: Global, source: &mut S, sink: &mut K) -> Reply
    ensures read_later { S.faults source.old ≤ S.faults source.new }
    ensures write_later { K.faults sink.old ≤ K.faults sink.new }
    ensures none { result.kept ≡ None }
    ensures status { IsStatusOfCheck result.status result.note }
    ensures cause { IsCauseOfCheck result.note (S.left source.old) (Rose (S.faults source.old) (S.faults source.new)) (Rose (K.faults sink.old) (K.faults sink.new)) }
    ensures taken { TakesAtMost most_sheet_bytes (S.left source.old) (S.left source.new) }
    ensures whole { HasAnswered (Some Check) result.note → RunsDry (S.left source.old) (S.left source.new) }
    ensures once { RisesAtMost 1 (S.ends source.old) (S.ends source.new) }
    ensures written { TellsAudit (S.left source.old) result.status result.note (K.written sink.old) (K.written sink.new) (K.tells_for sink.old) (K.tells_for sink.new) }
{
    match audit_from(alloc, source) {
        Ok(audit) => write_audit(alloc, audit, sink),
        Err(why) => without_audit(why),
    }
}
