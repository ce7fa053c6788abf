//! What is shown of a session in one line, besides what a session line shows.
ghost use Rattle.std.specs.Prelude.{◌≡◌, ◌<◌, ◌++◌, [], ℕ, List, false, length, map, string_bytes};
ghost use Rattle.std.specs.Prelude.{IfErr, IfOk, OnOk};
ghost use Rattle.std.specs.Io.KnownBytes.{Appends};
ghost use Rattle.rc_model.specs.Plan.{CanPlan, IsPlanOf};
ghost use Rattle.rc_model.specs.Session.{Change, IsOwnFault};
ghost use Rattle.rc_model.specs.declared.Mode.TheVariants.{DownAll};
ghost use Rattle.rc_render.specs.Names.{ok_line};
ghost use Rattle.rc_session.specs.Holding.{IsHindrance};
ghost use Rattle.rc_streams.specs.Noting.{HasFailed, inner_of};
ghost use Rattle.rc_serve.specs.Faults.{IsServeFault};
ghost use Rattle.rc_cli.specs.Showing.{AreBothPlans, EndsDown, EndsDryRestart, FailsToShow};
ghost use Rattle.rc_cli.specs.Showing.{IsPlanBack, down_name, down_text};
ghost use Rattle.rc_cli.specs.Steps.{step_ask};

use crate::sessions::steps::copied;
use rc_names::Names;
use rc_render::{plan_text, refusal_text, with_ok};
use rc_select::{Mode, Plan, Request, between};
use rc_serve::{Ending, ServeFault};
use rc_session::{Refusal, Session};
use rc_set::{NoMem, Set};
use rc_streams::Noted;
use rc_streams::writing::write_answer;
use std::alloc::{AllocError, Global};
use std::io::Write;

/// An answer, and how the command ends with it.
#[derive(Drop)]
struct Shown {
    ending: Ending,
    text: Vec<u8>,
}

/// Writes which services are down.
pub(crate) fn show_down<W: Write>(
    alloc: Global,
    session: &Session,
    writer: &mut Noted<W>,
) -> Result<Ending, ServeFault>
    requires closed { session.now.begun ≡ false }
    requires writer { HasFailed writer.old → ⊥ }
    ensures shown { IfOk result (λ ending. (text : List ℕ)
        × EndsDown ending session.now.database session.now.line text
        × Appends (W.contents (inner_of writer.old)) (W.contents (inner_of writer.new)) text) }
    ensures failed { IfErr result (λ fault. FailsToShow fault
        (λ ending text. EndsDown ending session.now.database session.now.line text)
        (W.contents (inner_of writer.old)) (W.contents (inner_of writer.new))) }
    ensures fault { IfErr result (IsServeFault ⊥ (HasFailed writer.new) ⊥) }
{
    let text = down_answer(alloc, session)?;
    write_answer(writer, &text)?;
    Ok(Ending::Done)
}

// Returns the line of the services that are not live, followed by `ok`.
fn down_answer(alloc: Global, session: &Session) -> Result<Vec<u8>, NoMem>
    requires closed { session.now.begun ≡ false }
    ensures { IfOk result (λ text. text.items
        ≡ down_text session.now.database.names session.now.line.current.live ++ ok_line) }
{
    let _states = session.journal();
    with_ok(down_text(alloc, session.db().names(), session.live())?)
}

// Returns the line of the services that are not live.
fn down_text(alloc: Global, names: &Names, live: &Set) -> Result<Vec<u8>, NoMem>
    requires live { length live.now ≡ length names.now }
    ensures { IfOk result (λ text. text.items ≡ down_text names.now live.now) }
{
    let mut text = Vec::from_slice(alloc, b"down")?;
    for id in 0..names.len() {
        add_down(&mut text, names, id, live)?;
    }
    text.push(b'\n')?;
    Ok(text)
}

// Appends the name of a service after a space, if the service is not live.
fn add_down(text: &mut Vec<u8>, names: &Names, id: u16, live: &Set) -> Result<(), NoMem>
    requires id { id < length names.now }
    requires live { length live.now ≡ length names.now }
    ensures { OnOk result (text.new.items
        ≡ text.old.items ++ down_name names.now live.now id) }
{
    if live.contains(id) {
        return Ok(());
    }
    text.push(b' ')?;
    text.extend_from_slice(names.name_of(id).text().as_bytes())
}

/// Writes what a restart of these names would move, or why it would be refused.
pub(crate) fn show_restart<W: Write>(
    alloc: Global,
    session: &Session,
    names: &[String],
    writer: &mut Noted<W>,
) -> Result<Ending, ServeFault>
    requires closed { session.now.begun ≡ false }
    requires whole { session.now.spoiled ≡ false }
    requires writer { HasFailed writer.old → ⊥ }
    ensures shown { IfOk result (λ ending. (text : List ℕ)
        × EndsDryRestart ending session.now.database session.now.line
        (map string_bytes names.now) text
        × Appends (W.contents (inner_of writer.old)) (W.contents (inner_of writer.new)) text) }
    ensures failed { IfErr result (λ fault. FailsToShow fault
        (λ ending text. EndsDryRestart ending session.now.database session.now.line
        (map string_bytes names.now) text)
        (W.contents (inner_of writer.old)) (W.contents (inner_of writer.new))) }
    ensures fault { IfErr result (IsServeFault ⊥ (HasFailed writer.new) ⊥) }
{
    let answer = restart_answer(alloc, session, names)?;
    write_answer(writer, &answer.text)?;
    Ok(answer.ending)
}

// Returns the answer of a restart that is only shown.
fn restart_answer(alloc: Global, session: &Session, names: &[String]) -> Result<Shown, NoMem>
    requires closed { session.now.begun ≡ false }
    requires whole { session.now.spoiled ≡ false }
    ensures { IfOk result (λ answer. EndsDryRestart answer.ending session.now.database
        session.now.line (map string_bytes names.now) answer.text.items) }
{
    let request = Request::plain(Mode::DownAll, copied(alloc, names)?, u32::MAX);
    let outcome = session.dry(alloc, &request);
    drop(request);
    told_restart(alloc, session, names, outcome)
}

// Returns the answer of a restart that is only shown, by the outcome of its first step.
fn told_restart(
    alloc: Global,
    session: &Session,
    names: &[String],
    outcome: Result<Plan, Refusal>,
) -> Result<Shown, NoMem>
    requires closed { session.now.begun ≡ false }
    requires whole { session.now.spoiled ≡ false }
    requires plan { IfOk outcome (IsPlanOf session.now.database session.now.line.current.table
        session.now.line.current.live (step_ask DownAll (map string_bytes names.now))) }
    requires can { OnOk outcome (CanPlan session.now.database.names session.now.line.current.table
        (step_ask DownAll (map string_bytes names.now))) }
    requires refused { IfErr outcome (IsHindrance (IsOwnFault session.now.database
        session.now.line (Change (step_ask DownAll (map string_bytes names.now)) []))
        session.now) }
    ensures { IfOk result (λ answer. EndsDryRestart answer.ending session.now.database
        session.now.line (map string_bytes names.now) answer.text.items) }
{
    match outcome {
        Ok(plan) => {
            let text = both_plans(alloc, session, names, &plan);
            drop(plan);
            Ok(Shown {
                ending: Ending::Done,
                text: text?,
            })
        }
        Err(Refusal::Memory) => Err(AllocError),
        Err(refusal) => Ok(Shown {
            ending: Ending::Refused,
            text: refusal_text(alloc, names, refusal)?,
        }),
    }
}

// Returns both plans of a restart of these names, whose first step has the given plan.
fn both_plans(
    alloc: Global,
    session: &Session,
    names: &[String],
    plan: &Plan,
) -> Result<Vec<u8>, NoMem>
    requires closed { session.now.begun ≡ false }
    requires plan { IsPlanOf session.now.database session.now.line.current.table
        session.now.line.current.live (step_ask DownAll (map string_bytes names.now)) plan.now }
    requires can { CanPlan session.now.database.names session.now.line.current.table
        (step_ask DownAll (map string_bytes names.now)) }
    ensures { IfOk result (λ text. AreBothPlans session.now.database session.now.line
        (map string_bytes names.now) text.items) }
{
    let _states = session.journal();
    let back = plan_back(alloc, session, names, plan)?;
    let raised = plan_text(alloc, session.db().names(), &back);
    drop(back);
    let raised = with_ok(raised?)?;
    let mut text = with_ok(plan_text(alloc, session.db().names(), plan)?)?;
    text.extend_from_slice(&raised)?;
    Ok(text)
}

// Returns the plan that brings back what a plan lowers.
fn plan_back(alloc: Global, session: &Session, names: &[String], plan: &Plan) -> Result<Plan, NoMem>
    requires closed { session.now.begun ≡ false }
    requires plan { IsPlanOf session.now.database session.now.line.current.table
        session.now.line.current.live (step_ask DownAll (map string_bytes names.now)) plan.now }
    ensures { IfOk result (IsPlanBack session.now.line.current.live plan.now) }
{
    let _states = session.journal();
    let _graph = session.db().graph();
    let mut left = session.live().copy(alloc)?;
    left.without(plan.lower());
    let back = between(alloc, session.db().graph(), &left, session.live());
    drop(left);
    back
}
