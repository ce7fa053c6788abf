//! The lines of an input are served on a session, and it is kept.
ghost use Rattle.std.specs.Prelude.{◌≡◌, ◌≢◌, ◌+◌, ℕ, Bool, Option, false, Err, None, IfErr};
ghost use Rattle.rc_graph.specs.declared.Way.{Way};
ghost use Rattle.rc_streams.specs.Exchange.{exchanged};
ghost use Rattle.rc_streams.specs.Noting.{HasFailed, inner_of};
ghost use Rattle.rc_streams.specs.Input.{ConsumesAtMost};
ghost use Rattle.rc_serve.specs.Ending.{IsDoneAs};
ghost use Rattle.rc_serve.specs.Faults.{IsServeFault};
ghost use Rattle.rc_args.specs.SessionAsked.{session_ask_of};
ghost use Rattle.rc_cli.specs.Serving.{as_done};
ghost use Rattle.rc_cli.specs.Services.{ComesFor, Lets, done_by};
ghost use Rattle.rc_cli.specs.Storing.{store_of};
ghost use Rattle.rc_cli.specs.declared.sessions.service.Service.TheVariants.{Lines};

use crate::sessions::host::Host;
use crate::sessions::keeping::Store;
use crate::sessions::service::Outputs;
use rc_args::SessionRequest;
use rc_board::{Executor, Gate};
use rc_serve::{Ending, Keeper, ServeFault, serve, serve_kept};
use rc_session::Session;
use rc_streams::{MAX_INPUT, Noted};
use std::io::{Read, Write};
use std::sync::Wait;
use std::thread::Threads;

/// Serves the lines of an input on a whole session. If a file is named, the session is kept, first
/// of all where it begins, so that a store that fails is found before anything is done.
pub(crate) fn serve_lines<T: Threads + Wait + Sync, R: Read, W: Write, G: Gate, S: Store, L>(
    host: &Host<'_, T, L>,
    request: &SessionRequest<'_>,
    session: &mut Session,
    gate: &G,
    reader: &mut Noted<R>,
    outputs: &mut Outputs<W, S>,
) -> Result<Ending, ServeFault>
    requires closed { session.old.begun ≡ false }
    requires whole { session.old.spoiled ≡ false }
    requires reader { HasFailed reader.old → ⊥ }
    requires writer { HasFailed outputs.old.writer → ⊥ }
    ensures served { (fails : Option (ℕ → Way → Bool)) →
        Lets (G.answers gate.now) (G.gives gate.now) (R.remaining (inner_of reader.old)) fails →
        ComesFor Lines result (session_ask_of request.now).live
        (S.holds (store_of outputs.old.keeper)) (S.holds (store_of outputs.new.keeper))
        (done_by request.now.workers (G.answers gate.now) (G.gives gate.now) fails)
        (IsDoneAs request.now.workers (G.answers gate.now) (G.gives gate.now))
        (exchanged R.remaining W.contents reader.old reader.new
        outputs.old.writer outputs.new.writer) session.old session.new }
    ensures fault { IfErr result (IsServeFault (HasFailed reader.new) (HasFailed outputs.new.writer)
        (((session_ask_of request.now).live ≢ None) × S.failed (store_of outputs.new.keeper))) }
    ensures told { HasFailed reader.new → result ≡ Err ServeFault.Read }
    ensures taken { ConsumesAtMost (R.remaining (inner_of reader.old))
        (R.remaining (inner_of reader.new)) (MAX_INPUT + 1) }
{
    let executor = Executor {
        rt: host.threads,
        alloc: host.alloc,
        gate,
        workers: request.workers,
    };
    match request.live {
        None => as_done(serve(
            host.threads,
            host.alloc,
            reader,
            &mut outputs.writer,
            session,
            gate,
            request.workers,
        )),
        Some(_) => match outputs.keeper.keep(host.alloc, session) {
            Ok(()) => as_done(serve_kept(
                &executor,
                reader,
                &mut outputs.writer,
                session,
                &mut outputs.keeper,
            )),
            Err(fault) => Err(ServeFault::from(fault)),
        },
    }
}

// Returns `Done` if the lines were served, and the fault otherwise.
fn as_done(served: Result<(), ServeFault>) -> Result<Ending, ServeFault>
    ensures { result ≡ as_done served }
{
    match served {
        Ok(()) => Ok(Ending::Done),
        Err(fault) => Err(fault),
    }
}
