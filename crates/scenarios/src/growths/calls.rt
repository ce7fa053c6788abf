//! How a call is made.

ghost use Rattle.std.specs.Prelude.{◌≡◌, false};

use crate::growths::begun::{abandoned, all_moved, is_stopped, recovered};
use crate::growths::lines::{is_of_states, is_stepped_on};
use crate::growths::made::is_made;
use crate::growths::queries::{is_answer, is_fall_of_root, is_planned};
use crate::growths::rows::How;
use crate::growths::serving::{is_gate, is_locked, is_telling, served};
use crate::growths::texts::is_text;
use crate::growths::told::came_of;
use crate::growths::trees::{is_from_folder, is_from_memory};
use crate::growths::values::is_value;
use crate::growths::workers::{by_workers, within};
use crate::samples::is_due;
use rc_board::Fault;
use rc_session::{Refusal, Report, Session, Step};
use rc_set::NoMem;
use std::alloc::{AllocGlobal, Global};
use std::io::Print;
use std::sync::Wait;
use std::thread::Threads;
use std::time::Clock;

/// Makes a call on a session that has the given text. Reports a wrong answer as strange, or as the
/// refusal `WRONG`.
pub(crate) fn made<R: Print + AllocGlobal + Threads + Wait + Clock + Sync>(
    rt: &R,
    host: &HostRuntime,
    session: &mut Session,
    how: How,
    steps: &[Step],
    text: &[u8],
) -> Result<(), Fault>
    requires { session.old.begun ≡ false }
    ensures { session.new.begun ≡ false }
{
    match how {
        How::Workers(workers) => by_workers(rt, session, workers, steps.first()),
        How::Within => within(rt, session, steps.first()),
        How::Serve(serving) => served(rt, session, serving),
        How::Of(_) | How::Text(..) | How::Stop | How::States | How::StepOn => {
            came_of(is_right(host, session, how, text))
        }
        How::Make(_) | How::Memory | How::Folder | How::Lock => {
            came_of(is_own(host, session, how))
        }
        How::Ask(_) | How::Plan | How::Shell | How::Tell => {
            came_of(is_asked(host, session, how, steps.first()))
        }
        _ => match played(host, session, how, steps) {
            Ok(()) => Ok(()),
            Err(refusal) => Err(Fault::Refused(refusal)),
        },
    }
}

/// Returns true if a call that alters nothing answers as it must.
fn is_right(
    rt: &(impl Print + AllocGlobal),
    session: &Session,
    how: How,
    text: &[u8],
) -> Result<bool, NoMem>
    requires { session.now.begun ≡ false }
{
    match how {
        How::Of(value) => is_value(rt.alloc(), session, value, text),
        How::Text(text, due) => is_text(rt.alloc(), session, text, due),
        How::Stop => is_stopped(rt, session.db().graph()),
        How::States => is_of_states(rt, session.db().table(), session.table()),
        _ => is_stepped_on(rt, session.journal(), session.table()),
    }
}

/// Returns true if values that a call makes of its own are right.
fn is_own(rt: &HostRuntime, session: &Session, how: How) -> Result<bool, NoMem> {
    match how {
        How::Make(made) => is_made(rt, session.db(), made),
        How::Memory => is_from_memory(rt),
        How::Lock => is_locked(rt),
        _ => is_from_folder(rt, "tree"),
    }
}

/// The refusal for a wrong answer: no call here is refused for it.
pub(crate) const WRONG: Refusal = Refusal::Full;

/// Makes a call by the first of the given steps, or by all of them.
fn played(rt: &HostRuntime, session: &mut Session, how: How, steps: &[Step]) -> Result<(), Refusal>
    requires { session.old.begun ≡ false }
    ensures { session.new.begun ≡ false }
{
    let Some(step) = steps.first() else {
        return Err(WRONG);
    };
    match how {
        How::Play => played_all(rt.alloc(), session, steps),
        How::Complete => all_moved(rt, session, step),
        How::Abandon => abandoned(rt, session, step, false),
        How::Spoil => abandoned(rt, session, step, true),
        How::By => by_events(rt.alloc(), session, step),
        How::Recover => recovered(rt.alloc(), session, step),
        How::Edit => edited(rt.alloc(), session, step),
        How::Dry => planned(rt.alloc(), session, step),
        _ => Err(WRONG),
    }
}

/// Plays steps, each of which moves all services or is an edit, and checks that the answers say so.
fn played_all(alloc: Global, session: &mut Session, steps: &[Step]) -> Result<(), Refusal>
    requires { session.old.begun ≡ false }
    ensures { session.new.begun ≡ false }
{
    match session.play(alloc, steps) {
        Ok(played) => {
            let is_right = are_due(steps, &played.answers);
            drop(played);
            if is_right { Ok(()) } else { Err(WRONG) }
        }
        Err(_) => Err(Refusal::Memory),
    }
}

fn are_due(steps: &[Step], answers: &[Result<Report, Refusal>]) -> bool {
    for (step, answer) in steps.iter().zip(answers) {
        match answer {
            Ok(report) if is_due(step, report) => {}
            _ => return false,
        }
    }
    steps.len() == answers.len()
}

/// Makes the call that carries out a step of this kind. Reports a wrong answer as the refusal
/// `WRONG`.
pub(crate) fn by_events(alloc: Global, session: &mut Session, step: &Step) -> Result<(), Refusal>
    requires { session.old.begun ≡ false }
    ensures { session.new.begun ≡ false }
{
    let answer = match step {
        Step::Change(request, events) => session.change_by(alloc, request, events),
        Step::Undo(limit, events) => session.undo_by(alloc, *limit, events),
        Step::Redo(limit, events) => session.redo_by(alloc, *limit, events),
        Step::Add(name, contents, force) => {
            return session.bundle_add(alloc, name, contents, *force);
        }
        Step::Delete(names, force) => return session.bundle_delete(alloc, names, *force),
    };
    match answer {
        Ok(report) => {
            let is_right = is_due(step, &report);
            drop(report);
            if is_right { Ok(()) } else { Err(WRONG) }
        }
        Err(refusal) => Err(refusal),
    }
}

fn edited(alloc: Global, session: &mut Session, step: &Step) -> Result<(), Refusal>
    requires { session.old.begun ≡ false }
    ensures { session.new.begun ≡ false }
{
    match step {
        Step::Undo(..) => session.undo_edit(alloc),
        Step::Redo(..) => session.redo_edit(alloc),
        _ => Err(WRONG),
    }
}

/// Returns true if a call by the request of a change, or by its names, answers as it must.
fn is_asked(
    rt: &HostRuntime,
    session: &Session,
    how: How,
    step: Option<&Step>,
) -> Result<bool, NoMem> {
    let Some(Step::Change(request, _)) = step else {
        return Ok(false);
    };
    let (alloc, db) = (rt.alloc(), session.db());
    match how {
        How::Ask(query) => is_answer(alloc, db, query, &request.names),
        How::Plan => is_planned(alloc, db, session.live(), request),
        How::Tell => is_telling(rt, db),
        _ => is_gate(rt, db, &request.names),
    }
}

/// Makes a plan alone, and checks that it is the one by which `root` would go down where all are
/// up.
pub(crate) fn planned(alloc: Global, session: &Session, step: &Step) -> Result<(), Refusal> {
    let Step::Change(request, _) = step else {
        return Err(WRONG);
    };
    match session.dry(alloc, request) {
        Ok(plan) => {
            let is_right = is_fall_of_root(&plan);
            drop(plan);
            if is_right { Ok(()) } else { Err(WRONG) }
        }
        Err(refusal) => Err(refusal),
    }
}
