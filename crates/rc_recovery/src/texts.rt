//! Recovery from the texts of the two files, the file of a session and its run log, to a new text.
ghost use Rattle.std.specs.Prelude.{◌≡◌, ◌≢◌, ◌++◌, ℕ, List, [], map, IfNone, IfOk, IfSome};
ghost use Rattle.std.specs.Prelude.{IsErrOf, IsTrue, MatchBool, MatchOption};
ghost use Rattle.rc_model.specs.Headline.{HasRun};
ghost use Rattle.rc_model.specs.Session.{IsLineOf, events_of};
ghost use Rattle.rc_livetext.specs.Spelling.{Spells};
ghost use Rattle.rc_session.specs.Commands.{command_of};
ghost use Rattle.rc_recovery.specs.RunLog.{AreLines, AreNone, AreUnfit, EntersOne, HasNothing};
ghost use Rattle.rc_recovery.specs.RunLog.{IsEntered, IsEnteredAs, IsOther, IsRefusedIn, IsUnfit};
ghost use Rattle.rc_recovery.specs.RunLog.{IsUnfitFor, session_on};

use crate::entering::recover;
use memchr::memrchr;
use rc_db::Db;
use rc_livetext::{LiveFault, read_live, write_live};
use rc_render::report_text;
use rc_script::{ScriptFault, read_script};
use rc_session::{Refusal, Session, Step};
use std::alloc::{AllocError, Global};
use thiserror::Error;

/// What a command that was cut short has moved.
#[derive(Drop)]
pub struct Recovered {
    /// The text of the session in which the command is entered.
    pub text: Vec<u8>,
    /// The report, as of a command that was not cut short.
    pub report: Vec<u8>,
}

/// Why nothing can be entered. Services have moved that the session does not know of.
#[derive(Clone, Copy, PartialEq, Eq, Debug, Error)]
pub enum RecoverFault {
    /// The log is not that of a run of this database from where the session stands.
    #[error("the run log does not fit the session or the database")]
    Log,
    #[error("out of memory")]
    Memory,
}

impl From<AllocError> for RecoverFault {
    ghost use Rattle.rc_recovery.specs.declared.texts.RecoverFault.TheVariants.{Memory};

    ghost from_gives = { λ _ fault. fault ≡ Memory };

    fn from(_: AllocError) -> RecoverFault {
        RecoverFault::Memory
    }
}

/// Enters what a run log says in the session of a text. Returns `None` if there is nothing to
/// enter. A log is the text from which the run began, its step, and its events. A log of another
/// text is of a run that was entered. A line that was not written whole says nothing.
pub fn recover_text(
    alloc: Global,
    db: Db,
    text: &[u8],
    log: &[u8],
) -> Result<Option<Recovered>, RecoverFault>
    ensures entered { IfOk result (λ made. IfSome made (λ one.
        IsEntered db text.now log.now one.text.items one.report.items)) }
    ensures nothing { IfOk result (λ made. IfNone made (HasNothing db text.now log.now)) }
    ensures unfit { IsErrOf result RecoverFault.Log → IsUnfit db text.now log.now }
{
    let Some(rest) = behind(text, log) else {
        drop(db);
        return Ok(None);
    };
    let script = whole_lines(rest);
    match read_script(alloc, db.names(), script) {
        Ok(steps) => enter(alloc, db, text, &steps),
        Err(ScriptFault::Memory) => {
            drop(db);
            Err(RecoverFault::Memory)
        }
        Err(ScriptFault::BadLine(_)) => {
            drop(db);
            Err(RecoverFault::Log)
        }
    }
}

/// Returns what stands in a log after the given text, or `None` if the log does not begin with it.
pub(crate) fn behind<'a>(text: &[u8], log: &'a [u8]) -> Option<&'a [u8]>
    ensures { MatchOption result (IsOther text.now log.now)
        (λ rest. log.now ≡ text.now ++ rest.now) }
{
    log.strip_prefix(text)
}

/// Returns the lines that end in a newline.
pub(crate) fn whole_lines(bytes: &[u8]) -> &[u8]
    ensures { AreLines bytes.now result.now }
{
    match memrchr(b'\n', bytes) {
        Some(end) => &bytes[..end + 1],
        None => &[],
    }
}

/// Enters the one step that was logged.
fn enter(
    alloc: Global,
    db: Db,
    text: &[u8],
    steps: &[Step],
) -> Result<Option<Recovered>, RecoverFault>
    ensures entered { IfOk result (λ made. IfSome made (λ one. EntersOne db text.now
        (map command_of steps.now) one.text.items one.report.items)) }
    ensures nothing { IfOk result (λ made. IfNone made (AreNone (map command_of steps.now))) }
    ensures unfit { IsErrOf result RecoverFault.Log →
        AreUnfit db text.now (map command_of steps.now) }
{
    match steps {
        [step] => enter_one(alloc, db, text, step),
        [] => {
            drop(db);
            Ok(None)
        }
        _ => {
            drop(db);
            Err(RecoverFault::Log)
        }
    }
}

/// Enters a step, if events of it were logged.
fn enter_one(
    alloc: Global,
    db: Db,
    text: &[u8],
    step: &Step,
) -> Result<Option<Recovered>, RecoverFault>
    ensures entered { IfOk result (λ made. IfSome made (λ one.
        (events_of (command_of step.now) ≢ []) × IsEnteredAs db text.now (command_of step.now)
        one.text.items one.report.items)) }
    ensures nothing { IfOk result (λ made. IfNone made (events_of (command_of step.now) ≡ [])) }
    ensures unfit { IsErrOf result RecoverFault.Log → (events_of (command_of step.now) ≢ [])
        × IsUnfitFor db text.now (command_of step.now) }
{
    if !has_events(step) {
        drop(db);
        return Ok(None);
    }
    let line = match read_live(alloc, text, &db) {
        Ok((line, _)) => line,
        Err(fault) => {
            drop(db);
            return Err(fault_of(fault));
        }
    };
    let Ok(mut session) = Session::resume(db, line) else {
        unreachable!();
    };
    let entered = entered_in(alloc, &mut session, step);
    drop(session);
    match entered {
        Ok(made) => Ok(Some(made)),
        Err(fault) => Err(fault),
    }
}

/// Returns true if an event of a step was logged.
fn has_events(step: &Step) -> bool
    ensures some { IsTrue result → HasRun (command_of step.now) }
    ensures events { MatchBool result (events_of (command_of step.now) ≢ [])
        (events_of (command_of step.now) ≡ []) }
{
    match step {
        Step::Change(_, events) => !events.is_empty(),
        Step::Undo(_, events) => !events.is_empty(),
        Step::Redo(_, events) => !events.is_empty(),
        Step::Add(..) | Step::Delete(..) => false,
    }
}

/// Returns the fault of a recovery for a fault of the session's text.
fn fault_of(fault: LiveFault) -> RecoverFault
    ensures { result ≡ RecoverFault.Log → fault ≢ LiveFault.Memory }
{
    match fault {
        LiveFault::Memory => RecoverFault::Memory,
        _ => RecoverFault::Log,
    }
}

/// Enters a step in a session, and returns the new text and the report.
fn entered_in(alloc: Global, session: &mut Session, step: &Step) -> Result<Recovered, RecoverFault>
    requires fresh { session.old ≡ session_on session.old.database session.old.line }
    requires line { IsLineOf session.old.database session.old.line }
    requires run { HasRun (command_of step.now) }
    ensures entered { IfOk result (λ one. (text : List ℕ) →
        Spells session.old.database text session.old.line → IsEnteredAs session.old.database text
        (command_of step.now) one.text.items one.report.items) }
    ensures refused { IsErrOf result RecoverFault.Log → (text : List ℕ) →
        Spells session.old.database text session.old.line →
        IsRefusedIn session.old.database text (command_of step.now) }
{
    match recover(alloc, session, step) {
        Ok(done) => {
            let report = report_text(alloc, session.db().names(), &done)?;
            let text = write_live(alloc, session)?;
            Ok(Recovered { text, report })
        }
        Err(refusal) => Err(fault_by(refusal)),
    }
}

/// Returns the fault of a recovery for a refusal of the command.
fn fault_by(refusal: Refusal) -> RecoverFault
    ensures { result ≡ RecoverFault.Log → refusal ≢ Refusal.Memory }
{
    match refusal {
        Refusal::Memory => RecoverFault::Memory,
        _ => RecoverFault::Log,
    }
}
