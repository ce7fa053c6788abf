//! One line is served, as a command of its own, and it is kept.
ghost use Rattle.std.specs.Prelude.{◌≡◌, ◌≢◌, ◌⊎◌, None, false, IsTrue, IfErr, OnOk};
ghost use Rattle.rc_streams.specs.Noting.{HasFailed, inner_of};
ghost use Rattle.rc_script.specs.Says.{saying_of};
ghost use Rattle.rc_serve.specs.Ending.{IsDoneAs};
ghost use Rattle.rc_serve.specs.Faults.{IsServeFault};
ghost use Rattle.rc_serve.specs.Serving.{Stays};
ghost use Rattle.rc_args.specs.OnceAsked.{Said, once_saying_of};
ghost use Rattle.rc_args.specs.SessionAsked.{session_ask_of};
ghost use Rattle.rc_cli.specs.Once.{IsCommand, ServedOnce};
ghost use Rattle.rc_cli.specs.Putting.{PutsLine};
ghost use Rattle.rc_cli.specs.Storing.{store_of};

use crate::sessions::host::Host;
use crate::sessions::keeping::Store;
use crate::sessions::service::Outputs;
use crate::sessions::showing::{show_down, show_restart};
use rc_args::{Once, SessionRequest};
use rc_board::{Executor, Gate};
use rc_script::SessionLine;
use rc_serve::{Ending, Keeper, ServeFault, Unkept, answer_once, show_redo, show_undo};
use rc_session::Session;
use std::io::Write;
use std::sync::Wait;
use std::thread::Threads;

// Serves one line on a session. What is only shown is not kept, since a user who looks need not
// have the right to write.
pub(crate) fn serve_once<T: Threads + Wait + Sync, W: Write, G: Gate, S: Store, L>(
    host: &Host<'_, T, L>,
    request: &SessionRequest<'_>,
    session: &mut Session,
    gate: &G,
    once: &Once,
    outputs: &mut Outputs<W, S>,
) -> Result<Ending, ServeFault>
    requires closed { session.old.begun ≡ false }
    requires whole { session.old.spoiled ≡ false }
    requires writer { HasFailed outputs.old.writer → ⊥ }
    ensures served { ServedOnce result (session_ask_of request.now).live
        (S.holds (store_of outputs.old.keeper)) (S.holds (store_of outputs.new.keeper))
        (IsDoneAs request.now.workers (G.answers gate.now) (G.gives gate.now))
        (once_saying_of once.now)
        (W.contents (inner_of outputs.old.writer)) (W.contents (inner_of outputs.new.writer))
        session.old session.new }
    ensures fault { IfErr result (IsServeFault ⊥ (HasFailed outputs.new.writer)
        (((session_ask_of request.now).live ≢ None) × S.failed (store_of outputs.new.keeper))) }
    ensures led { OnOk result (PutsLine S.put (session_ask_of request.now).live
        session.old.database (once_saying_of once.now) session.old.line session.new.line
        (store_of outputs.old.keeper) (store_of outputs.new.keeper)) }
{
    match once {
        Once::DryUndo => show_undo(host.alloc, session, &mut outputs.writer),
        Once::DryRedo => show_redo(host.alloc, session, &mut outputs.writer),
        Once::DryRestart(names) => { show_restart(host.alloc, session, names, &mut outputs.writer) }
        Once::Down => show_down(host.alloc, session, &mut outputs.writer),
        Once::Line(said) => line_once(host, request, session, gate, said, outputs),
    }
}

/// Does what a line says. Only a command is kept, and only if a file is named. The session is kept
/// first of all where it begins, so that a store that fails is found before anything is done.
pub fn line_once<T: Threads + Wait + Sync, W: Write, G: Gate, S: Store, L>(
    host: &Host<'_, T, L>,
    request: &SessionRequest<'_>,
    session: &mut Session,
    gate: &G,
    said: &SessionLine,
    outputs: &mut Outputs<W, S>,
) -> Result<Ending, ServeFault>
    requires closed { session.old.begun ≡ false }
    requires whole { session.old.spoiled ≡ false }
    requires writer { HasFailed outputs.old.writer → ⊥ }
    ensures served { ServedOnce result (session_ask_of request.now).live
        (S.holds (store_of outputs.old.keeper)) (S.holds (store_of outputs.new.keeper))
        (IsDoneAs request.now.workers (G.answers gate.now) (G.gives gate.now))
        (Said (saying_of said.now))
        (W.contents (inner_of outputs.old.writer)) (W.contents (inner_of outputs.new.writer))
        session.old session.new }
    ensures fault { IfErr result (IsServeFault ⊥ (HasFailed outputs.new.writer)
        (((session_ask_of request.now).live ≢ None) × S.failed (store_of outputs.new.keeper))) }

    // A command is put where the session stands before it is done, and again where it alters that.
    ensures led { OnOk result (PutsLine S.put (session_ask_of request.now).live
        session.old.database (Said (saying_of said.now)) session.old.line session.new.line
        (store_of outputs.old.keeper) (store_of outputs.new.keeper)) }
    ensures sound { OnOk result (HasFailed outputs.new.writer → ⊥) }
    ensures stays { Stays session.old session.new }
    ensures whole { OnOk result (session.new.spoiled ≡ false) }
{
    let executor = Executor {
        rt: host.threads,
        alloc: host.alloc,
        gate,
        workers: request.workers,
    };
    if is_kept(request, said) {
        return match outputs.keeper.keep(host.alloc, session) {
            Ok(()) => answer_once(
                &executor,
                session,
                &mut outputs.keeper,
                said,
                &mut outputs.writer,
            ),
            Err(fault) => Err(ServeFault::from(fault)),
        };
    }
    answer_once(&executor, session, &mut Unkept, said, &mut outputs.writer)
}

// Returns true if a line is kept: it is a command, and a file is named.
fn is_kept(request: &SessionRequest<'_>, said: &SessionLine) -> bool
    ensures kept { IsTrue result → ((session_ask_of request.now).live ≢ None)
        × IsCommand (saying_of said.now) }
    ensures alone { (IsTrue result → ⊥) → ((session_ask_of request.now).live ≡ None)
        ⊎ (IsCommand (saying_of said.now) → ⊥) }
{
    matches!(said, SessionLine::Command(_)) && request.live.is_some()
}
