//! The two steps of an update: how their transitions are made, what they move, and that they are
//! kept.
ghost use Rattle.std.specs.Prelude.{◌≡◌, ◌≢◌, ◌≤◌, ◌++◌, ℕ, List, [], None, false, length, map};
ghost use Rattle.std.specs.Prelude.{IfErr, IfOk, MatchOption, OnOk};
ghost use Rattle.rc_graph.specs.declared.Way.TheVariants.{Lower, Raise};
ghost use Rattle.rc_model.specs.Graph.{IsClosed};
ghost use Rattle.rc_model.specs.Names.{Has};
ghost use Rattle.rc_streams.specs.Noting.{HasFailed, inner_of};
ghost use Rattle.rc_script.specs.Says.{saying_of};
ghost use Rattle.rc_serve.specs.Ending.{IsDoneAs};
ghost use Rattle.rc_serve.specs.Faults.{IsServeFault};
ghost use Rattle.rc_args.specs.Making.{making_ask_of};
ghost use Rattle.rc_args.specs.OnceAsked.{Said};
ghost use Rattle.rc_args.specs.Reading.{listed_of};
ghost use Rattle.rc_args.specs.SessionAsked.{session_ask_of};
ghost use Rattle.rc_args.specs.UpdateAsked.{update_ask_of};
ghost use Rattle.rc_cli.specs.Filing.{CannotKeep};
ghost use Rattle.rc_cli.specs.Gating.{IsGateFor, IsGateless};
ghost use Rattle.rc_cli.specs.Putting.{IsLineSound, LeadsSteps};
ghost use Rattle.rc_cli.specs.Serving.{session_on};
ghost use Rattle.rc_cli.specs.SessionFaults.{IsRefusal};
ghost use Rattle.rc_cli.specs.Steps.{ended_by, ending_behind};
ghost use Rattle.rc_cli.specs.Storing.{store_of};
ghost use Rattle.rc_update.specs.Conversions.{conversions_of};
ghost use Rattle.rc_update.specs.Knowing.{AreKnown, IsFirstStranger};
ghost use Rattle.rc_cli.specs.Updating.{IsAhead, ServedBoth, carried_line, listed_by, listed_on};
ghost use Rattle.rc_cli.specs.Updating.{making_on};
ghost use Rattle.rc_cli.specs.Controlled.{LacksController, MovesAhead};
ghost use Rattle.rc_cli.specs.UpdateEnds.{AreGateless, IsNoneAhead, LeadsOn, UpdatesOn};

use crate::controlled::uncontrolled_step;
use crate::moving::update_of;
use crate::sessions::{
    Host, LiveFile, Outputs, Remembering, SessionFault, Store, begin, gate_for, line_once,
    step_line,
};
use log::Log;
use rc_args::{Making, SessionRequest, Transition, UpdateRequest, Verbosity};
use rc_board::Gate;
use rc_db::Db;
use rc_graph::Way;
use rc_line::Line;
use rc_livetext::laws as live_laws;
use rc_runner::{SessionGate, Telling};
use rc_script::SessionLine;
use rc_select::Mode;
use rc_serve::{Ending, ServeFault};
use rc_session::Session;
use rc_set::{NoMem, Set};
use rc_update::first_unknown;
use std::alloc::{AllocError, Global};
use std::io::Write;
use std::sync::Wait;
use std::thread::Threads;

/// The gates of both steps.
#[derive(Drop)]
struct Gates<G> {
    lowers: G,
    raises: G,
}

/// What is ahead of an update: the session of the new database, and the lines of both steps.
#[derive(Drop)]
pub(crate) struct Ahead {
    pub to: Session,
    pub lowering: SessionLine,
    pub raising: SessionLine,
}

/// Carries what is live over from one database to another, through the gates of both steps. It
/// starts from where the session of the old database begins. `host` starts the programs.
pub(crate) fn update_on<'a, T: Threads + Wait + Sync, W: Write, S: Store, L: Log + Sync>(
    host: &Host<'_, T, L>,
    request: &UpdateRequest<'a>,
    old: Db,
    new: Db,
    live: LiveFile<'_>,
    outputs: &mut Outputs<W, S>,
) -> Result<Ending, SessionFault<'a>>
    requires writer { HasFailed outputs.old.writer → ⊥ }
    ensures ended { UpdatesOn result (update_ask_of request.now) live.entry old new
        (S.holds (store_of outputs.old.keeper)) (S.holds (store_of outputs.new.keeper))
        (W.contents (inner_of outputs.old.writer)) (W.contents (inner_of outputs.new.writer))
        (HasFailed outputs.new.writer) (CannotKeep (session_ask_of request.now.session) live.entry
        (S.failed (store_of outputs.new.keeper))) }
    ensures led { IfOk result (λ ending. LeadsOn S.put S.entered (update_ask_of request.now)
        live.entry ending old new (store_of outputs.old.keeper) (store_of outputs.new.keeper)) }
    ensures alone { IfErr result (λ fault. IsRefusal fault
        → store_of outputs.new.keeper ≡ store_of outputs.old.keeper) }
{
    live_laws::spelling_is_unique();
    let _names = old.names();
    if let Some(name) = stranger(request, &old, &new) {
        drop((old, new));
        return Err(SessionFault::Unknown(name));
    }
    let asked = &request.session;
    let gates = match gates_of(host, &old, &new, asked) {
        Ok(gates) => gates,
        Err(fault) => {
            drop((old, new));
            return Err(fault);
        }
    };
    let mut from = match begin(host.alloc, old, asked, live) {
        Ok(from) => from,
        Err(fault) => {
            drop((new, gates));
            return Err(fault);
        }
    };
    let mut ahead = match ahead_controlled(host.alloc, request, &mut from, new) {
        Ok(ahead) => ahead,
        Err(fault) => {
            drop((gates, from));
            return Err(fault);
        }
    };
    let ended = serve_both(host, asked, &mut from, &mut ahead, &gates, outputs);
    drop((gates, from, ahead));
    match ended {
        Ok(ending) => Ok(ending),
        Err(fault) => Err(SessionFault::Failed(fault)),
    }
}

/// Returns the first name of a conversion that its database lacks.
pub(crate) fn stranger<'a>(request: &UpdateRequest<'a>, old: &Db, new: &Db) -> Option<&'a [u8]>
    ensures { MatchOption result (AreKnown old.now.names new.now.names
        (conversions_of request.now.conversions.items))
        (λ name. IsFirstStranger old.now.names new.now.names
        (conversions_of request.now.conversions.items) name.now) }
{
    first_unknown(request.conversions.as_slice(), old.names(), new.names())
}

// Creates the gates of both steps. Transitions that are listed as failing belong to the old
// database on the way down, and to the new one on the way up.
fn gates_of<'h, 'a, T, L: Log + Sync>(
    host: &Host<'h, T, L>,
    old: &Db,
    new: &Db,
    asked: &SessionRequest<'a>,
) -> Result<
    Gates<Telling<'h, L, Remembering<'h, SessionGate<'h, HostRuntime, L>>>>,
    SessionFault<'a>,
>
    ensures made { IfOk result (λ gates.
        IsGateFor old.now (making_on Lower (making_ask_of asked.now.making)) gates.lowers
        × IsGateFor new.now (making_on Raise (making_ask_of asked.now.making)) gates.raises) }
    ensures fault { IfErr result (AreGateless old.now new.now (making_ask_of asked.now.making)) }
{
    let lowers = match gate_on(host, old, &asked.making, asked.verbosity, Way::Lower) {
        Ok(gate) => gate,
        Err(fault) => return Err(fault),
    };
    match gate_on(host, new, &asked.making, asked.verbosity, Way::Raise) {
        Ok(raises) => Ok(Gates { lowers, raises }),
        Err(fault) => {
            drop(lowers);
            Err(fault)
        }
    }
}

// Creates the gate of one step.
fn gate_on<'h, 'a, T, L: Log + Sync>(
    host: &Host<'h, T, L>,
    db: &Db,
    making: &Making<'a>,
    verbosity: Verbosity,
    way: Way,
) -> Result<Telling<'h, L, Remembering<'h, SessionGate<'h, HostRuntime, L>>>, SessionFault<'a>>
    ensures made { IfOk result (λ gate.
        IsGateFor db.now (making_on way (making_ask_of making.now)) gate) }
    ensures fault { IfErr result (IsGateless db.now (making_on way (making_ask_of making.now))) }
{
    match making {
        Making::Table(failing) => {
            let Ok(those) = failing_on(host.alloc, failing, way) else {
                return Err(SessionFault::Failed(ServeFault::Memory));
            };
            let those = Making::Table(those);
            let gate = gate_for(host, db, &those, verbosity);
            drop(those);
            gate
        }
        Making::Programs(_) => gate_for(host, db, making, verbosity),
    }
}

// Returns the listed transitions of one way.
fn failing_on<'a>(
    alloc: Global,
    failing: &[Transition<'a>],
    way: Way,
) -> Result<Vec<Transition<'a>>, AllocError>
    ensures { IfOk result (λ those.
        map listed_of those.items ≡ listed_on way (map listed_of failing.now)) }
{
    let mut those = Vec::new(alloc);
    for one in failing {
        push_on(&mut those, *one, way)?;
    }
    Ok(those)
}

// Appends a transition to others, if it goes the given way.
fn push_on<'a>(
    those: &mut Vec<Transition<'a>>,
    one: Transition<'a>,
    way: Way,
) -> Result<(), AllocError>
    ensures { OnOk result (map listed_of those.new.items
        ≡ map listed_of those.old.items
        ++ listed_by way (listed_of one.entry).way (listed_of one.entry) []) }
{
    if one.way == way {
        those.push(one)?;
    }
    Ok(())
}

// Returns what is ahead of an update from where the session of the old database stands. Fails if
// either step moves a longrun that no program controls.
fn ahead_controlled<'a>(
    alloc: Global,
    request: &UpdateRequest<'_>,
    from: &mut Session,
    new: Db,
) -> Result<Ahead, SessionFault<'a>>
    requires closed { from.old.begun ≡ false }
    requires whole { from.old.spoiled ≡ false }
    ensures ahead { IfOk result (IsAhead (update_ask_of request.now) from.old new) }
    ensures controlled { IfOk result (λ ahead.
        LacksController (session_ask_of request.now.session) → (name : List ℕ)
        → MovesAhead from.old ahead name → ⊥) }
    ensures fault { IfErr result (IsNoneAhead (update_ask_of request.now) from.old new) }
    ensures same { from.new ≡ from.old }
{
    let mut ahead = ahead_of(alloc, request, from, new)?;
    match uncontrolled_step(alloc, &request.session, from, &mut ahead) {
        Ok(None) => Ok(ahead),
        Ok(Some(name)) => {
            drop(ahead);
            Err(SessionFault::NoController(name))
        }
        Err(_) => {
            drop(ahead);
            Err(SessionFault::Failed(ServeFault::Memory))
        }
    }
}

// Returns what is ahead of an update from where the session of the old database stands.
fn ahead_of(
    alloc: Global,
    request: &UpdateRequest<'_>,
    from: &Session,
    new: Db,
) -> Result<Ahead, NoMem>
    requires closed { from.now.begun ≡ false }
    ensures ahead { IfOk result (IsAhead (update_ask_of request.now) from.now new) }
    ensures stands { IfOk result (λ ahead.
        (ahead.to.begun ≡ false) × (ahead.to.spoiled ≡ false)) }
{
    let bound = from.journal().bound();
    let list = request.conversions.as_slice();
    let update = match update_of(alloc, from, &new, list) {
        Ok(update) => update,
        Err(short) => {
            drop(new);
            return Err(short);
        }
    };
    let lowering = step_line(request.dry, Mode::DownAll, update.lower);
    let raising = step_line(request.dry, Mode::Up, update.raise);
    match session_of(alloc, new, update.kept, bound) {
        Ok(to) => Ok(Ahead {
            to,
            lowering,
            raising,
        }),
        Err(short) => {
            drop((lowering, raising));
            Err(short)
        }
    }
}

/// Creates a session of a database whose line has one state, in which the given services are live.
pub(crate) fn session_of(alloc: Global, db: Db, live: Set, bound: u32) -> Result<Session, NoMem>
    requires length { length live ≡ length db.names }
    requires closed { IsClosed db.needs (Has live) }
    requires bound { 3 ≤ bound }
    ensures { IfOk result (λ session. session ≡ session_on db (carried_line db live bound)) }
{
    let Ok(table) = db.table().copy(alloc) else {
        drop((db, live));
        return Err(AllocError);
    };
    Session::resume(db, Line::with_bound(alloc, live, table, bound))
}

// Serves the line of the first step and, if all of it is done, that of the second one.
fn serve_both<T: Threads + Wait + Sync, W: Write, G: Gate, S: Store, L>(
    host: &Host<'_, T, L>,
    request: &SessionRequest<'_>,
    from: &mut Session,
    ahead: &mut Ahead,
    gates: &Gates<G>,
    outputs: &mut Outputs<W, S>,
) -> Result<Ending, ServeFault>
    requires from { (from.old.begun ≡ false) × (from.old.spoiled ≡ false) }
    requires to { (ahead.old.to.begun ≡ false) × (ahead.old.to.spoiled ≡ false) }
    requires writer { HasFailed outputs.old.writer → ⊥ }
    ensures served { ServedBoth result (session_ask_of request.now).live
        (S.holds (store_of outputs.old.keeper)) (S.holds (store_of outputs.new.keeper))
        (IsDoneAs request.now.workers (G.answers gates.now.lowers) (G.gives gates.now.lowers))
        (IsDoneAs request.now.workers (G.answers gates.now.raises) (G.gives gates.now.raises))
        (Said (saying_of ahead.old.lowering)) (Said (saying_of ahead.old.raising))
        (W.contents (inner_of outputs.old.writer)) (W.contents (inner_of outputs.new.writer))
        from.old ahead.old.to }
    ensures fault { IfErr result (IsServeFault ⊥ (HasFailed outputs.new.writer)
        (((session_ask_of request.now).live ≢ None) × S.failed (store_of outputs.new.keeper))) }
    ensures led { IsLineSound from.old (Said (saying_of ahead.old.lowering))
        → IsLineSound ahead.old.to (Said (saying_of ahead.old.raising))
        → IfOk result (λ ending. LeadsSteps S.put S.entered (session_ask_of request.now).live ending
        (Said (saying_of ahead.old.lowering)) (Said (saying_of ahead.old.raising))
        from.old ahead.old.to (store_of outputs.old.keeper) (store_of outputs.new.keeper)) }
{
    match line_once(host, request, from, &gates.lowers, &ahead.lowering, outputs) {
        Ok(Ending::Done) => {
            outputs.keeper.enter();
            let to = &mut ahead.to;
            behind(line_once(host, request, to, &gates.raises, &ahead.raising, outputs))
        }
        Ok(Ending::Refused) => Ok(Ending::Refused),
        Ok(Ending::Hindered) => Ok(Ending::Hindered),
        Err(fault) => Err(fault),
    }
}

// Returns the ending of an update whose first step is done, by the result of its second step.
fn behind(raised: Result<Ending, ServeFault>) -> Result<Ending, ServeFault>
    ensures { result ≡ ended_by ending_behind raised }
{
    match raised {
        Ok(Ending::Done) => Ok(Ending::Done),
        Ok(Ending::Refused | Ending::Hindered) => Ok(Ending::Hindered),
        Err(fault) => Err(fault),
    }
}
