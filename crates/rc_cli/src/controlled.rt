//! Whether a command would move a longrun that no program controls.
ghost use Rattle.std.specs.Prelude.{◌≡◌, ◌≢◌, ◌<◌, ◌↔◌, ℕ, List, None, Some, false, length};
ghost use Rattle.std.specs.Prelude.{map, slice_get};
ghost use Rattle.std.specs.Prelude.{string_bytes, IfErr, IfNone, IfOk, IfSome, IsTrue, MatchOption};
ghost use Rattle.std.specs.Prelude.{OnErr, OnOk};
ghost use Rattle.rc_args.specs.OnceAsked.{Said};
ghost use Rattle.rc_args.specs.SessionAsked.{session_ask_of};
ghost use Rattle.rc_dbtext.specs.Base.{bytes_of};
ghost use Rattle.rc_model.specs.Beside.{IsCourse};
ghost use Rattle.rc_model.specs.Database.{IsKind};
ghost use Rattle.rc_model.specs.Headline.{HasRun};
ghost use Rattle.rc_model.specs.Names.{Has};
ghost use Rattle.rc_model.specs.declared.Kind.TheVariants.{Longrun};
ghost use Rattle.rc_model.specs.Run.{course_of};
ghost use Rattle.rc_model.specs.Session.{IsOwnFault};
ghost use Rattle.rc_script.specs.Says.{saying_of};
ghost use Rattle.rc_session.specs.Commands.{plain_of};
ghost use Rattle.rc_session.specs.Holding.{IsBegun, IsHindrance, with_run};
ghost use Rattle.rc_cli.specs.Controlled.{IsLongrunOf, LacksController, MovesAhead};
ghost use Rattle.rc_cli.specs.Controlled.{MovesByService, MovesBySaying, MovesLongrunOn};
ghost use Rattle.rc_cli.specs.Steps.{lowering};

use crate::sessions::{Service, copied, step_line};
use crate::updating::Ahead;
use rc_args::{Making, Once, SessionRequest};
use rc_db::Db;
use rc_names::Kind;
use rc_script::SessionLine;
use rc_select::{Mode, Plan};
use rc_session::{Begun, Command, Refusal, Session};
use rc_set::{NoMem, Set};
use std::alloc::{AllocError, Global};

/// Returns a longrun that the first line of a service would move, if programs are started and none
/// controls longruns. Returns `None` if there is no such longrun, the line is refused, or the
/// database is read from the input.
pub(crate) fn uncontrolled(
    alloc: Global,
    request: &SessionRequest<'_>,
    service: Service<'_>,
    base: Option<&[u8]>,
    session: &mut Session,
) -> Result<Option<String>, NoMem>
    requires closed { session.old.begun ≡ false }
    requires whole { session.old.spoiled ≡ false }
    ensures some { IfOk result (λ found. IfSome found (λ name.
        (bytes_of base.entry ≢ None) × LacksController (session_ask_of request.now)
        × MovesByService service.entry session.old.database session.old.line
        (string_bytes name))) }
    ensures none { IfOk result (λ found. IfNone found (bytes_of base.entry ≢ None →
        LacksController (session_ask_of request.now) → (name : List ℕ) →
        MovesByService service.entry session.old.database session.old.line name → ⊥)) }
    ensures same { session.new ≡ session.old }
{
    if base.is_none() || !lacks_controller(request) {
        return Ok(None);
    }
    match service {
        Service::Line(Once::Line(line)) => moved_by(alloc, session, line),
        Service::Lines | Service::Line(_) => Ok(None),
        Service::Restart(names) => moved_down(alloc, session, names),
    }
}

// Returns a longrun that the first step of a restart would move.
fn moved_down(
    alloc: Global,
    session: &mut Session,
    names: &[String],
) -> Result<Option<String>, NoMem>
    requires closed { session.old.begun ≡ false }
    requires whole { session.old.spoiled ≡ false }
    ensures some { IfOk result (λ found. IfSome found (λ name.
        MovesBySaying session.old.database session.old.line
        (lowering false (map string_bytes names.now)) (string_bytes name))) }
    ensures none { IfOk result (λ found. IfNone found ((name : List ℕ) →
        MovesBySaying session.old.database session.old.line
        (lowering false (map string_bytes names.now)) name → ⊥)) }
    ensures same { session.new ≡ session.old }
{
    let names = copied(alloc, names)?;
    let line = step_line(false, Mode::DownAll, names);
    let found = moved_by(alloc, session, &line);
    drop(line);
    found
}

/// Returns a longrun that either step of an update would move, if programs are started and none
/// controls longruns. Returns `None` if there is no such longrun, or that step is refused.
pub(crate) fn uncontrolled_step(
    alloc: Global,
    request: &SessionRequest<'_>,
    from: &mut Session,
    ahead: &mut Ahead,
) -> Result<Option<String>, NoMem>
    requires from { (from.old.begun ≡ false) × (from.old.spoiled ≡ false) }
    requires to { (ahead.old.to.begun ≡ false) × (ahead.old.to.spoiled ≡ false) }
    ensures some { IfOk result (λ found. IfSome found (λ name.
        LacksController (session_ask_of request.now)
        × MovesAhead from.old ahead.old (string_bytes name))) }
    ensures none { IfOk result (λ found. IfNone found (
        LacksController (session_ask_of request.now) → (name : List ℕ) →
        MovesAhead from.old ahead.old name → ⊥)) }
    ensures from { from.new ≡ from.old }
    ensures ahead { ahead.new ≡ ahead.old }
{
    if !lacks_controller(request) {
        return Ok(None);
    }
    match moved_by(alloc, from, &ahead.lowering) {
        Ok(None) => moved_by(alloc, &mut ahead.to, &ahead.raising),
        found => found,
    }
}

/// Returns true if programs are started and none controls longruns.
pub(crate) fn lacks_controller(request: &SessionRequest<'_>) -> bool
    ensures { IsTrue result ↔ LacksController (session_ask_of request.now) }
{
    match &request.making {
        Making::Table(_) => false,
        Making::Programs(programs) => programs.controller.is_none(),
    }
}

// Returns a longrun that a line would move.
fn moved_by(
    alloc: Global,
    session: &mut Session,
    line: &SessionLine,
) -> Result<Option<String>, NoMem>
    requires closed { session.old.begun ≡ false }
    requires whole { session.old.spoiled ≡ false }
    ensures some { IfOk result (λ found. IfSome found (λ name.
        MovesBySaying session.old.database session.old.line (Said (saying_of line.now))
        (string_bytes name))) }
    ensures none { IfOk result (λ found. IfNone found ((name : List ℕ)
        → MovesBySaying session.old.database session.old.line (Said (saying_of line.now)) name
        → ⊥)) }
    ensures same { session.new ≡ session.old }
{
    match line {
        SessionLine::Command(command) => moved_longrun(alloc, session, command),
        _ => Ok(None),
    }
}

// Returns a longrun that a command would move.
fn moved_longrun(
    alloc: Global,
    session: &mut Session,
    command: &Command,
) -> Result<Option<String>, NoMem>
    requires closed { session.old.begun ≡ false }
    requires whole { session.old.spoiled ≡ false }
    ensures some { IfOk result (λ found. IfSome found (λ name.
        MovesLongrunOn session.old.database session.old.line (plain_of command.now)
        (string_bytes name))) }
    ensures none { IfOk result (λ found. IfNone found ((name : List ℕ)
        → MovesLongrunOn session.old.database session.old.line (plain_of command.now) name
        → ⊥)) }
    ensures same { session.new ≡ session.old }
{
    match command {
        Command::Add(..) | Command::Delete(..) => Ok(None),
        Command::Change(_) | Command::Undo(_) | Command::Redo(_) => {
            begun_longrun(alloc, session, command)
        }
    }
}

// Returns a longrun that the run of a command would move.
fn begun_longrun(
    alloc: Global,
    session: &mut Session,
    command: &Command,
) -> Result<Option<String>, NoMem>
    requires closed { session.old.begun ≡ false }
    requires whole { session.old.spoiled ≡ false }
    requires run { HasRun (plain_of command.now) }
    ensures some { IfOk result (λ found. IfSome found (λ name.
        MovesLongrunOn session.old.database session.old.line (plain_of command.now)
        (string_bytes name))) }
    ensures none { IfOk result (λ found. IfNone found ((name : List ℕ)
        → MovesLongrunOn session.old.database session.old.line (plain_of command.now) name
        → ⊥)) }
    ensures same { session.new ≡ session.old }
{
    let begun = match begin_run(alloc, session, command) {
        Ok(begun) => begun,
        Err(refusal) => return none_by(refusal),
    };
    let found = longrun_of(alloc, session.db(), begun.plan());
    session.abandon(begun);
    found
}

// Begins the run of a command at moment 0, as `Session::begin` begins that of a step.
fn begin_run(alloc: Global, session: &mut Session, command: &Command) -> Result<Begun, Refusal>
    requires closed { session.old.begun ≡ false }
    requires run { HasRun (plain_of command.now) }
    ensures task { IfOk result (IsBegun session.new (plain_of command.now) 0) }
    ensures course { IfOk result (λ begun.
        IsCourse (course_of session.old.database.needs begun.plan begun.deadline)) }
    ensures begun { OnOk result (session.new ≡ with_run session.old) }
    ensures err { IfErr result (IsHindrance
        (IsOwnFault session.old.database session.old.line (plain_of command.now)) session.old) }
    ensures same { OnErr result (session.new ≡ session.old) }
{
    match command {
        Command::Change(request) => session.begin_change(alloc, request, 0),
        Command::Undo(limit) => session.begin_undo(alloc, *limit, 0),
        Command::Redo(limit) => session.begin_redo(alloc, *limit, 0),
        Command::Add(..) | Command::Delete(..) => unreachable!(),
    }
}

// Returns `None`, since a refused command moves nothing. Fails if memory ran out, since then it is
// not known what would move.
fn none_by(refusal: Refusal) -> Result<Option<String>, NoMem>
    ensures { IfOk result (λ found. (found ≡ None) × (refusal ≢ Refusal.Memory)) }
{
    match refusal {
        Refusal::Memory => Err(AllocError),
        _ => Ok(None),
    }
}

// Returns a longrun that a plan moves.
fn longrun_of(alloc: Global, db: &Db, plan: &Plan) -> Result<Option<String>, NoMem>
    requires raise { length plan.now.raise ≡ length db.now.names }
    requires lower { length plan.now.lower ≡ length db.now.names }
    ensures some { IfOk result (λ found. IfSome found (λ name.
        IsLongrunOf db.now plan.now (string_bytes name))) }
    ensures none { IfOk result (λ found. IfNone found ((name : List ℕ)
        → IsLongrunOf db.now plan.now name → ⊥)) }
{
    match longrun_in(db, plan.raise()) {
        Some(service) => name_in(alloc, db, service),
        None => match longrun_in(db, plan.lower()) {
            Some(service) => name_in(alloc, db, service),
            None => Ok(None),
        },
    }
}

/// Returns the name of a service.
pub(crate) fn name_in(alloc: Global, db: &Db, service: u16) -> Result<Option<String>, NoMem>
    requires { service < length db.now.names }
    ensures { IfOk result (λ found. MatchOption found ⊥
        (λ name. slice_get db.now.names service ≡ Some (string_bytes name))) }
{
    Ok(Some(String::from_str(alloc, db.names().name_of(service).text())?))
}

// Returns the least longrun of a set.
fn longrun_in(db: &Db, set: &Set) -> Option<u16>
    requires { length set.now ≡ length db.now.names }
    ensures member { IfSome result (λ s. Has set.now s × IsKind db.now s Longrun) }
    ensures known { IfSome result (λ s. s < length db.now.names) }
    ensures none { IfNone result ((s : ℕ) → Has set.now s → IsKind db.now s Longrun → ⊥) }
{
    for service in 0..set.bound() {
        if set.contains(service) && is_longrun(db, service) {
            return Some(service);
        }
    }
    None
}

/// Returns true if a service is a longrun.
pub(crate) fn is_longrun(db: &Db, service: u16) -> bool
    requires { service < length db.now.names }
    ensures { IsTrue result ↔ IsKind db.now service Longrun }
{
    db.service(service).kind == Kind::Longrun
}
