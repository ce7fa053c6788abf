//! Strays, which were found up and are not live, are brought down.
ghost use Rattle.std.specs.Prelude.{◌≡◌, [], false, length, map, string_bytes, Some, IfErr, IfOk};
ghost use Rattle.std.specs.Prelude.{MatchResult, OnOk};
ghost use Rattle.rc_model.specs.Database.{Selected};
ghost use Rattle.rc_model.specs.Graph.{IsClosed, UpFrom};
ghost use Rattle.rc_model.specs.Names.{Has, Holds};
ghost use Rattle.rc_streams.specs.Noting.{HasFailed, inner_of};
ghost use Rattle.rc_serve.specs.Ending.{IsDoneAs};
ghost use Rattle.rc_serve.specs.Faults.{IsServeFault};
ghost use Rattle.rc_serve.specs.declared.fault.ServeFault.TheVariants.{Memory, Strange};
ghost use Rattle.rc_args.specs.SessionAsked.{session_ask_of};
ghost use Rattle.rc_cli.specs.SessionFaults.{IsUnspelled};
ghost use Rattle.rc_cli.specs.Straying.{IsStraySession, LowersBy, LowersFor, LowersOn};
ghost use Rattle.rc_cli.specs.Straying.{LowersStrays};
ghost use Rattle.rc_cli.specs.declared.sessions.session_fault.SessionFault.TheVariants.{Failed};

use crate::sessions::{
    Devices, Host, SessionFault, copied, gate_for, spelled, step_line, tell_ended,
};
use crate::updating::session_of;
use log::Log;
use rc_args::SessionRequest;
use rc_board::{Executor, Gate};
use rc_db::{Db, QueryFault};
use rc_select::Mode;
use rc_serve::{Ending, ServeFault, Unkept, answer_once};
use rc_session::Session;
use rc_set::Set;
use rc_streams::Noted;
use std::alloc::Global;
use std::io::Write;
use std::sync::Wait;
use std::thread::Threads;

/// The bound on the states of the session in which strays are lowered.
const BOUND: u32 = 3;

/// Brings services down that were found up and are not live, those that need others first, and
/// writes the answer. Returns the exit status: 0 if all are down; 2 if something failed, was
/// blocked or was not tried; 1 if the database is refused; 111 for a failure.
///
/// They are lowered in a session of their own, in which they and what they need are live. So what
/// needs one of them and is needed by another one is lowered, too. Nothing is kept.
pub fn lower_strays<T: Threads + Wait + Sync, R, W: Write, F: Write, S, L: Log + Sync>(
    host: &Host<'_, T, L>,
    request: &SessionRequest<'_>,
    strays: &[String],
    base: &[u8],
    devices: &mut Devices<R, W, F, S>,
) -> u8
    requires writer { HasFailed devices.old.outputs.writer → ⊥ }
    ensures told { LowersStrays base.now (session_ask_of request.now)
        (map string_bytes strays.now) result (HasFailed devices.new.outputs.writer)
        (W.contents (inner_of devices.old.outputs.writer))
        (W.contents (inner_of devices.new.outputs.writer))
        (F.contents devices.old.faults) (F.contents devices.new.faults) }
    ensures unread { devices.new.reader ≡ devices.old.reader }
    ensures unkept { devices.new.outputs.keeper ≡ devices.old.outputs.keeper }
{
    let ended = lowered_by(host, request, strays, base, &mut devices.outputs.writer);
    tell_ended(host.alloc, &mut devices.faults, ended)
}

// Lowers strays on the database of a text.
fn lowered_by<'a, T: Threads + Wait + Sync, W: Write, L: Log + Sync>(
    host: &Host<'_, T, L>,
    request: &SessionRequest<'a>,
    strays: &[String],
    base: &[u8],
    writer: &mut Noted<W>,
) -> Result<Ending, SessionFault<'a>>
    requires writer { HasFailed writer.old → ⊥ }
    ensures { LowersBy result base.now (session_ask_of request.now) (map string_bytes strays.now)
        (HasFailed writer.new) (W.contents (inner_of writer.old))
        (W.contents (inner_of writer.new)) }
{
    match spelled(host.alloc, Some(base), &[]) {
        Ok((db, _none)) => lowered_on(host, request, strays, db, writer),
        Err(fault) => Err(fault),
    }
}

// Lowers strays on a database.
#[tactic(auto, using(crate::proofs::StrayingLemmas::stray_closed))]
fn lowered_on<'a, T: Threads + Wait + Sync, W: Write, L: Log + Sync>(
    host: &Host<'_, T, L>,
    request: &SessionRequest<'a>,
    strays: &[String],
    db: Db,
    writer: &mut Noted<W>,
) -> Result<Ending, SessionFault<'a>>
    requires writer { HasFailed writer.old → ⊥ }
    ensures { LowersFor result db (session_ask_of request.now) (map string_bytes strays.now)
        (HasFailed writer.new) (W.contents (inner_of writer.old))
        (W.contents (inner_of writer.new)) }
{
    let gate = match gate_for(host, &db, &request.making, request.verbosity) {
        Ok(gate) => gate,
        Err(fault) => {
            drop(db);
            return Err(fault);
        }
    };
    let mut session = match stray_session(host.alloc, db, strays) {
        Ok(session) => session,
        Err(fault) => {
            drop(gate);
            return Err(SessionFault::Failed(fault));
        }
    };
    let ended = lower_in(host, request, strays, &mut session, &gate, writer);
    drop((gate, session));
    match ended {
        Ok(ending) => Ok(ending),
        Err(fault) => Err(SessionFault::Failed(fault)),
    }
}

// Creates the session in which strays are lowered. `Strange` is a name that is unknown.
fn stray_session(alloc: Global, db: Db, strays: &[String]) -> Result<Session, ServeFault>
    ensures session { IfOk result (IsStraySession db (map string_bytes strays.now)) }
    ensures fault { IfErr result (IsServeFault ⊥ ⊥ ⊥) }
{
    match live_with(alloc, &db, strays) {
        Ok(live) => match session_of(alloc, db, live, BOUND) {
            Ok(session) => Ok(session),
            Err(_) => Err(ServeFault::Memory),
        },
        Err(fault) => {
            drop(db);
            Err(fault)
        }
    }
}

// Returns strays with all that they need.
fn live_with(alloc: Global, db: &Db, strays: &[String]) -> Result<Set, ServeFault>
    ensures bound { IfOk result (λ live. length live ≡ length db.now.names) }
    ensures members { IfOk result (λ live. Holds live (UpFrom db.now.needs
        (Selected db.now.names db.now.table (map string_bytes strays.now)))) }
    ensures closed { IfOk result (λ live. IsClosed db.now.needs (Has live)) }
    ensures fault { IfErr result (IsServeFault ⊥ ⊥ ⊥) }
{
    let wanted = match db.selected(alloc, db.table(), strays) {
        Ok(wanted) => wanted,
        Err(QueryFault::Unknown(_)) => return Err(ServeFault::Strange),
        Err(_) => return Err(ServeFault::Memory),
    };
    let live = db.graph().up_of(alloc, &wanted);
    drop(wanted);
    match live {
        Ok(live) => Ok(live),
        Err(_) => Err(ServeFault::Memory),
    }
}

// Lowers strays with all that needs them in a session that is not kept.
fn lower_in<T: Threads + Wait + Sync, W: Write, G: Gate, L>(
    host: &Host<'_, T, L>,
    request: &SessionRequest<'_>,
    strays: &[String],
    session: &mut Session,
    gate: &G,
    writer: &mut Noted<W>,
) -> Result<Ending, ServeFault>
    requires closed { session.old.begun ≡ false }
    requires writer { HasFailed writer.old → ⊥ }
    ensures ended { IfOk result (λ ending. LowersOn
        (IsDoneAs request.now.workers (G.answers gate.now) (G.gives gate.now)) ending
        (map string_bytes strays.now) (W.contents (inner_of writer.old))
        (W.contents (inner_of writer.new)) session.old session.new) }
    ensures fault { IfErr result (IsServeFault ⊥ (HasFailed writer.new) ⊥) }
{
    let Ok(names) = copied(host.alloc, strays) else {
        return Err(ServeFault::Memory);
    };
    let line = step_line(false, Mode::DownAll, names);
    let executor = Executor {
        rt: host.threads,
        alloc: host.alloc,
        gate,
        workers: request.workers,
    };
    let ended = answer_once(&executor, session, &mut Unkept, &line, writer);
    drop(line);
    ended
}
