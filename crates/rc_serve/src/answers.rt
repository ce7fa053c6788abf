//! What a session line does, and its answer.
ghost use Rattle.std.specs.Prelude.{◌≡◌, false, IfOk, IfErr};
ghost use Rattle.rc_model.specs.Session.{Command as Does};
ghost use Rattle.rc_board.specs.Crew.{IsCrew};
ghost use Rattle.rc_script.specs.Says.{SaysStep, saying_of};
ghost use Rattle.rc_serve.specs.Faults.{EndsSession, IsSpoiledBy};
ghost use Rattle.rc_serve.specs.Ending.{Ends, IsDoneAs, IsEditedAs};
ghost use Rattle.rc_serve.specs.Meeting.{IsDoneBy, MayMeetSaying, WantsWork};
ghost use Rattle.rc_serve.specs.Serving.{Stays};

use crate::edits::{add_answer, delete_answer};
use crate::ending::{Answer, done, refused};
use crate::fault::ServeFault;
use crate::runs::told;
use crate::shows::{bundles_answer, dry_answer, journal_answer, live_answer};
use rc_board::{Executor, Gate, NoWatch, change, redo, undo};
use rc_script::SessionLine;
use rc_session::{Command, Session};
use std::alloc::Global;
use std::sync::Wait;
use std::thread::Threads;

/// Does what a line says, and returns the answer.
///
/// An empty line and a comment have no answer.
pub(crate) fn step_answer<T: Threads + Wait + Sync, G: Gate>(
    executor: &Executor<'_, T, G>,
    session: &mut Session,
    said: &SessionLine,
) -> Result<Answer, ServeFault>
    requires closed { session.old.begun ≡ false }
    requires crew { IsCrew executor.now.workers }
    ensures met { IfOk result (λ answer. Ends
        (IsDoneAs executor.now.workers (G.answers executor.now.gate.now)
        (G.gives executor.now.gate.now)) answer.ending
        session.old.database session.old.line (saying_of said.now) answer.text.items
        session.new.line) }
    ensures may { MayMeetSaying (IsDoneBy executor.now.workers (G.answers executor.now.gate.now)
        (G.gives executor.now.gate.now))
        session.old.database session.old.line (saying_of said.now) session.new.line }
    ensures stays { Stays session.old session.new }
    ensures fault { IfErr result (EndsSession
        (WantsWork session.old.database session.old.line (saying_of said.now))
        session.old session.new) }
    ensures whole { IsSpoiledBy result session.old session.new }
{
    let SessionLine::Command(command) = said else {
        return shown(executor.alloc, session, said);
    };
    let (rt, alloc) = (executor.rt, executor.alloc);
    let (gate, workers) = (executor.gate, executor.workers);
    match command {
        Command::Change(request) => {
            let outcome = change(rt, alloc, session, request, gate, workers, &NoWatch);
            told(alloc, session.db().names(), &request.names, outcome)
        }
        Command::Undo(limit) => {
            let outcome = undo(rt, alloc, session, *limit, gate, workers, &NoWatch);
            told(alloc, session.db().names(), &[], outcome)
        }
        Command::Redo(limit) => {
            let outcome = redo(rt, alloc, session, *limit, gate, workers, &NoWatch);
            told(alloc, session.db().names(), &[], outcome)
        }
        Command::Add(name, contents, force) => add_answer(alloc, session, name, contents, *force),
        Command::Delete(names, force) => delete_answer(alloc, session, names, *force),
    }
}

/// Returns the answer to a line that is not a command, and changes nothing.
fn shown(alloc: Global, session: &Session, said: &SessionLine) -> Result<Answer, ServeFault>
    requires closed { session.now.begun ≡ false }
    requires shows { (command : Does) → saying_of said.now ≡ SaysStep command → ⊥ }
    ensures met { IfOk result (λ answer. Ends IsEditedAs answer.ending session.now.database
        session.now.line (saying_of said.now) answer.text.items session.now.line) }
    ensures fault { IfErr result (EndsSession ⊥ session.now session.now) }
{
    match said {
        SessionLine::Nothing => Ok(done(Vec::new(alloc))),
        SessionLine::Wrong => Ok(refused(Vec::from_slice(alloc, b"refused BadLine\n")?)),
        SessionLine::Command(_) => unreachable!(),
        SessionLine::Dry(request) => dry_answer(alloc, session, request),
        SessionLine::Live => Ok(done(live_answer(alloc, session)?)),
        SessionLine::Bundles => Ok(done(bundles_answer(alloc, session)?)),
        SessionLine::Journal => Ok(done(journal_answer(alloc, session)?)),
    }
}
