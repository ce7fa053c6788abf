//! A restart: services go down with all that depends on them, and what went down comes up again.
ghost use Rattle.std.specs.Prelude.{◌≡◌, ◌≢◌, ◌↔◌, None, false, length, map, string_bytes, IfErr};
ghost use Rattle.std.specs.Prelude.{IfOk, IsTrue, OnOk};
ghost use Rattle.rc_serve.specs.Ending.{IsDoneAs};
ghost use Rattle.rc_serve.specs.Faults.{IsServeFault};
ghost use Rattle.rc_streams.specs.Noting.{HasFailed, inner_of};
ghost use Rattle.rc_script.specs.Says.{saying_of};
ghost use Rattle.rc_args.specs.OnceAsked.{Said};
ghost use Rattle.rc_args.specs.SessionAsked.{session_ask_of};
ghost use Rattle.rc_cli.specs.Once.{ServedOnce};
ghost use Rattle.rc_cli.specs.Putting.{PutsLine};
ghost use Rattle.rc_cli.specs.Restarting.{LeadsBack, Restarted, coming_back, ending_with};
ghost use Rattle.rc_cli.specs.Steps.{lowering};
ghost use Rattle.rc_cli.specs.Storing.{store_of};

use crate::sessions::host::Host;
use crate::sessions::keeping::Store;
use crate::sessions::one_line::line_once;
use crate::sessions::service::Outputs;
use crate::sessions::steps::{copied, step_line};
use rc_args::SessionRequest;
use rc_board::Gate;
use rc_script::SessionLine;
use rc_select::Mode;
use rc_serve::{Ending, ServeFault};
use rc_session::{Command, Session};
use rc_set::Set;
use std::io::Write;
use std::sync::Wait;
use std::thread::Threads;

/// What is there before the first step: what is live, and the line of the step.
#[derive(Drop)]
struct First {
    before: Set,
    line: SessionLine,
}

/// Restarts services on a session, in two lines, and writes the answer of each. The first one
/// lowers what is named, as `change -D`. If that has moved something, the second one is an `undo`:
/// what went down comes up again, and the session is where it was before.
pub(crate) fn restart_in<T: Threads + Wait + Sync, W: Write, G: Gate, S: Store, L>(
    host: &Host<'_, T, L>,
    request: &SessionRequest<'_>,
    names: &[String],
    session: &mut Session,
    gate: &G,
    outputs: &mut Outputs<W, S>,
) -> Result<Ending, ServeFault>
    requires closed { session.old.begun ≡ false }
    requires whole { session.old.spoiled ≡ false }
    requires writer { HasFailed outputs.old.writer → ⊥ }
    ensures served { Restarted result (session_ask_of request.now).live
        (S.holds (store_of outputs.old.keeper)) (S.holds (store_of outputs.new.keeper))
        (IsDoneAs request.now.workers (G.answers gate.now) (G.gives gate.now))
        (lowering false (map string_bytes names.now))
        (W.contents (inner_of outputs.old.writer)) (W.contents (inner_of outputs.new.writer))
        session.old }
    ensures fault { IfErr result (IsServeFault ⊥ (HasFailed outputs.new.writer)
        (((session_ask_of request.now).live ≢ None) × S.failed (store_of outputs.new.keeper))) }
    ensures led { IfOk result (λ ending. LeadsBack S.put (session_ask_of request.now).live ending
        (lowering false (map string_bytes names.now)) session.old.database session.old.line
        (store_of outputs.old.keeper) (store_of outputs.new.keeper)) }
{
    let Ok(before) = session.live().copy(host.alloc) else {
        return Err(ServeFault::Memory);
    };
    let Ok(names) = copied(host.alloc, names) else {
        drop(before);
        return Err(ServeFault::Memory);
    };
    let line = step_line(false, Mode::DownAll, names);
    let first = First { before, line };
    let ended = serve_steps(host, request, session, gate, &first, outputs);
    drop(first);
    ended
}

// Serves the first step and, if that has moved something, the second one.
fn serve_steps<T: Threads + Wait + Sync, W: Write, G: Gate, S: Store, L>(
    host: &Host<'_, T, L>,
    request: &SessionRequest<'_>,
    session: &mut Session,
    gate: &G,
    first: &First,
    outputs: &mut Outputs<W, S>,
) -> Result<Ending, ServeFault>
    requires closed { session.old.begun ≡ false }
    requires whole { session.old.spoiled ≡ false }
    requires before { first.now.before ≡ session.old.line.current.live }
    requires writer { HasFailed outputs.old.writer → ⊥ }
    ensures served { Restarted result (session_ask_of request.now).live
        (S.holds (store_of outputs.old.keeper)) (S.holds (store_of outputs.new.keeper))
        (IsDoneAs request.now.workers (G.answers gate.now) (G.gives gate.now))
        (Said (saying_of first.now.line))
        (W.contents (inner_of outputs.old.writer)) (W.contents (inner_of outputs.new.writer))
        session.old }
    ensures fault { IfErr result (IsServeFault ⊥ (HasFailed outputs.new.writer)
        (((session_ask_of request.now).live ≢ None) × S.failed (store_of outputs.new.keeper))) }
    ensures led { IfOk result (λ ending. LeadsBack S.put (session_ask_of request.now).live ending
        (Said (saying_of first.now.line)) session.old.database session.old.line
        (store_of outputs.old.keeper) (store_of outputs.new.keeper)) }
{
    let _states = session.journal();
    let lowered = match line_once(host, request, session, gate, &first.line, outputs) {
        Ok(Ending::Refused) => return Ok(Ending::Refused),
        Ok(lowered) => lowered,
        Err(fault) => return Err(fault),
    };
    if is_live(session, &first.before) {
        return Ok(lowered);
    }
    match come_back(host, request, session, gate, outputs) {
        Ok(raised) => Ok(ending_with(lowered, raised)),
        Err(fault) => Err(fault),
    }
}

// Serves the second step: an undo, which can be called off.
fn come_back<T: Threads + Wait + Sync, W: Write, G: Gate, S: Store, L>(
    host: &Host<'_, T, L>,
    request: &SessionRequest<'_>,
    session: &mut Session,
    gate: &G,
    outputs: &mut Outputs<W, S>,
) -> Result<Ending, ServeFault>
    requires closed { session.old.begun ≡ false }
    requires whole { session.old.spoiled ≡ false }
    requires writer { HasFailed outputs.old.writer → ⊥ }
    ensures served { ServedOnce result (session_ask_of request.now).live
        (S.holds (store_of outputs.old.keeper)) (S.holds (store_of outputs.new.keeper))
        (IsDoneAs request.now.workers (G.answers gate.now) (G.gives gate.now)) coming_back
        (W.contents (inner_of outputs.old.writer)) (W.contents (inner_of outputs.new.writer))
        session.old session.new }
    ensures fault { IfErr result (IsServeFault ⊥ (HasFailed outputs.new.writer)
        (((session_ask_of request.now).live ≢ None) × S.failed (store_of outputs.new.keeper))) }
    ensures led { OnOk result (PutsLine S.put (session_ask_of request.now).live
        session.old.database coming_back session.old.line session.new.line
        (store_of outputs.old.keeper) (store_of outputs.new.keeper)) }
{
    let back = SessionLine::Command(Command::Undo(u32::MAX));
    let raised = line_once(host, request, session, gate, &back, outputs);
    drop(back);
    raised
}

// Returns true if this is what is live.
fn is_live(session: &Session, before: &Set) -> bool
    requires closed { session.now.begun ≡ false }
    requires bound { length before.now ≡ length session.now.database.names }
    ensures { IsTrue result ↔ (session.now.line.current.live ≡ before.now) }
{
    let _states = session.journal();
    session.live().same(before)
}

// Returns how a restart ends whose steps end so.
fn ending_with(lowered: Ending, raised: Ending) -> Ending
    ensures { result ≡ ending_with lowered raised }
{
    match (lowered, raised) {
        (Ending::Done, Ending::Done) => Ending::Done,
        (Ending::Refused, _) => Ending::Refused,
        _ => Ending::Hindered,
    }
}
