//! What a script of commands comes to, as text.
ghost use Rattle.std.specs.Prelude.{◌≡◌, false, map, IfOk, IfErr};
ghost use Rattle.rc_session.specs.Commands.{command_of};
ghost use Rattle.rc_session.specs.Report.{answer_of};
ghost use Rattle.rc_render.specs.AnswerText.{answers_text};
ghost use Rattle.rc_cli.specs.Played.{IsTold, IsPlayed, IsReplay};
ghost use Rattle.rc_cli.specs.Replay.{IsReplayFault};

use crate::fault::Fault;
use rc_db::Db;
use rc_names::Names;
use rc_render::{answer_text, journal_text, live_text};
use rc_script::{NoMem, read_script};
use rc_session::{Refusal, Report, Session, Step};
use std::alloc::Global;

/// Returns the answers to the commands of a script, carried out on a database from nothing, then
/// what is live, then the journal.
pub(crate) fn replay_text(alloc: Global, db: Db, script: &[u8]) -> Result<Vec<u8>, Fault>
    ensures text { IfOk result (λ text. IsReplay db script.now text.items) }
    ensures fault { IfErr result (IsReplayFault db.names script.now) }
{
    let steps = read_script(alloc, db.names(), script)?;
    let text = played_text(alloc, db, &steps)?;
    Ok(text)
}

/// Carries out commands on a database from nothing. Returns their answers, then what is live, then
/// the journal.
fn played_text(alloc: Global, db: Db, steps: &[Step]) -> Result<Vec<u8>, NoMem>
    ensures { IfOk result (λ text. IsPlayed db (map command_of steps.now) text.items) }
{
    let mut session = Session::new(alloc, db)?;
    match session.play(alloc, steps) {
        Ok(played) => {
            let text = told_text(alloc, &session, steps, &played.answers);
            drop(session);
            text
        }
        Err(short) => {
            drop(session);
            Err(short)
        }
    }
}

/// Returns the answers to commands, then what is live, then the journal.
fn told_text(
    alloc: Global,
    session: &Session,
    steps: &[Step],
    answers: &[Result<Report, Refusal>],
) -> Result<Vec<u8>, NoMem>
    requires { session.now.begun ≡ false }
    ensures { IfOk result (λ text. IsTold session.now.database (map command_of steps.now)
        (map answer_of answers.now) session.now text.items) }
{
    let names = session.db().names();
    let mut text = answers_text(alloc, names, steps, answers)?;
    let live = live_text(alloc, names, session.live())?;
    let journal = journal_text(alloc, session.db(), session.journal())?;
    text.extend_from_slice(&live)?;
    text.extend_from_slice(&journal)?;
    Ok(text)
}

/// Returns the answers to commands, one after the other.
fn answers_text(
    alloc: Global,
    names: &Names,
    steps: &[Step],
    answers: &[Result<Report, Refusal>],
) -> Result<Vec<u8>, NoMem>
    ensures { IfOk result (λ text. text.items
        ≡ answers_text names.now (map command_of steps.now) (map answer_of answers.now)) }
{
    let mut text = Vec::new(alloc);
    for (place, step) in steps.iter().enumerate() {
        if place >= answers.len() {
            return Ok(text);
        }
        let line = answer_text(alloc, names, step, &answers[place])?;
        text.extend_from_slice(&line)?;
    }
    Ok(text)
}
