//! Shows what an undo or a redo would move.
ghost use Rattle.std.specs.Prelude.{◌≡◌, ◌<◌, ◌++◌, [], ℕ, List, false, IfErr, IfOk, OnOk, Some};
ghost use Rattle.std.specs.Prelude.{length, slice_get};
ghost use Rattle.std.specs.Io.KnownBytes.{Appends};
ghost use Rattle.rc_model.specs.Names.{Has};
ghost use Rattle.rc_model.specs.Line.{states, State};
ghost use Rattle.rc_model.specs.Plan.{IsPlanTo};
ghost use Rattle.rc_model.specs.Session.{Redo, Undo, Nothing};
ghost use Rattle.rc_render.specs.Names.{ok_line};
ghost use Rattle.rc_render.specs.PlanText.{IsPlanText};
ghost use Rattle.rc_serve.specs.declared.ending.Ending.TheVariants.{Done};
ghost use Rattle.rc_streams.specs.Noting.{HasFailed, inner_of};
ghost use Rattle.rc_serve.specs.Ending.{EndsWay, FailsShowing};
ghost use Rattle.rc_serve.specs.Faults.{IsServeFault};

use crate::ending::{Answer, Ending, done, refused};
use crate::fault::ServeFault;
use rc_names::Names;
use rc_render::{plan_text, refusal_text, with_ok};
use rc_select::{Plan, between};
use rc_session::{NoMem, Refusal, Session};
use rc_streams::Noted;
use rc_streams::writing::write_answer;
use std::alloc::Global;
use std::io::Write;

/// Writes the plan that an undo would carry out, or that there is nothing to undo.
pub fn show_undo<W: Write>(
    alloc: Global,
    session: &Session,
    writer: &mut Noted<W>,
) -> Result<Ending, ServeFault>
    requires closed { session.now.begun ≡ false }
    requires writer { HasFailed writer.old → ⊥ }

    // What was written is the plan of the undo, or why it could not be begun.
    ensures shown { IfOk result (λ ending. (text : List ℕ)
        × EndsWay ending session.now.database session.now.line (Undo 0 []) text
        × Appends (W.contents (inner_of writer.old)) (W.contents (inner_of writer.new)) text) }
    ensures failed { IfErr result (λ fault. FailsShowing fault session.now.database
        session.now.line (Undo 0 []) (W.contents (inner_of writer.old))
        (W.contents (inner_of writer.new))) }
    ensures fault { IfErr result (IsServeFault ⊥ (HasFailed writer.new) ⊥) }
    ensures sound { OnOk result (HasFailed writer.new → ⊥) }
{
    let answer = undo_answer(alloc, session)?;
    write_answer(writer, &answer.text)?;
    Ok(answer.ending)
}

/// Writes the plan that a redo would carry out, or that there is nothing to redo.
pub fn show_redo<W: Write>(
    alloc: Global,
    session: &Session,
    writer: &mut Noted<W>,
) -> Result<Ending, ServeFault>
    requires closed { session.now.begun ≡ false }
    requires writer { HasFailed writer.old → ⊥ }

    // What was written is the plan of the redo, or why it could not be begun.
    ensures shown { IfOk result (λ ending. (text : List ℕ)
        × EndsWay ending session.now.database session.now.line (Redo 0 []) text
        × Appends (W.contents (inner_of writer.old)) (W.contents (inner_of writer.new)) text) }
    ensures failed { IfErr result (λ fault. FailsShowing fault session.now.database
        session.now.line (Redo 0 []) (W.contents (inner_of writer.old))
        (W.contents (inner_of writer.new))) }
    ensures fault { IfErr result (IsServeFault ⊥ (HasFailed writer.new) ⊥) }
    ensures sound { OnOk result (HasFailed writer.new → ⊥) }
{
    let answer = redo_answer(alloc, session)?;
    write_answer(writer, &answer.text)?;
    Ok(answer.ending)
}

// Returns the plan of an undo with `ok`, or that there is nothing to undo.
fn undo_answer(alloc: Global, session: &Session) -> Result<Answer, NoMem>
    requires closed { session.now.begun ≡ false }
    ensures { IfOk result (λ answer. EndsWay answer.ending session.now.database session.now.line
        (Undo 0 []) answer.text.items) }
{
    let line = session.journal();
    let cursor = line.cursor();
    if cursor == 0 {
        return Ok(refused(refusal_text(alloc, &[], Refusal::NothingToUndo)?));
    }
    // The entry tells that there is a state before.
    let _entry = line.entry(cursor - 1);
    let plan = plan_to(alloc, session, cursor - 1)?;
    planned(alloc, session.db().names(), plan)
}

// Returns the plan of a redo with `ok`, or that there is nothing to redo.
fn redo_answer(alloc: Global, session: &Session) -> Result<Answer, NoMem>
    requires closed { session.now.begun ≡ false }
    ensures { IfOk result (λ answer. EndsWay answer.ending session.now.database session.now.line
        (Redo 0 []) answer.text.items) }
{
    let line = session.journal();
    let cursor = line.cursor();
    let states = line.states();
    if cursor + 1 == states {
        return Ok(refused(refusal_text(alloc, &[], Refusal::NothingToRedo)?));
    }
    // The entry tells that there is a state after.
    let _entry = line.entry(cursor);
    let plan = plan_to(alloc, session, cursor + 1)?;
    planned(alloc, session.db().names(), plan)
}

// Returns the plan from the current state to the one at a place.
fn plan_to(alloc: Global, session: &Session, place: usize) -> Result<Plan, NoMem>
    requires closed { session.now.begun ≡ false }
    requires place { place < length (states session.now.line) }
    ensures { IfOk result (λ plan. (to : State)
        × (slice_get (states session.now.line) place ≡ Some to)
        × IsPlanTo session.now.line.current.live (Has to.live) Nothing plan) }
{
    let _graph = session.db().graph();
    let line = session.journal();
    let (live, table) = line.state(alloc, place)?;
    drop(table);
    let plan = between(alloc, session.db().graph(), line.live(), &live);
    drop(live);
    plan
}

// Returns a plan as it is shown, with `ok`.
fn planned(alloc: Global, names: &Names, plan: Plan) -> Result<Answer, NoMem>
    requires { length plan.opening ≡ length names.now }
    ensures ending { IfOk result (λ answer. answer.ending ≡ Done) }
    ensures text { IfOk result (λ answer. (lines : List ℕ) × IsPlanText names.now plan lines
        × (answer.text.items ≡ lines ++ ok_line)) }
{
    let lines = plan_text(alloc, names, &plan);
    drop(plan);
    Ok(done(with_ok(lines?)?))
}
