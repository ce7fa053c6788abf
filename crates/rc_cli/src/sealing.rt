//! `seal`: the history around the current state of a session is forgotten.
ghost use Rattle.std.specs.Prelude.{◌≡◌, ◌≤◌, false, All, IfErr, IfOk, OnOk};
ghost use Rattle.std.specs.Io.KnownBytes.{Appends};
ghost use Rattle.rc_render.specs.Names.{ok_line};
ghost use Rattle.rc_model.specs.Line.{IsLine, Line as States, states};
ghost use Rattle.rc_model.specs.Session.{IsLineOf, IsStateOf};
ghost use Rattle.rc_livetext.specs.Spelling.{Spells};
ghost use Rattle.rc_serve.specs.Faults.{IsServeFault};
ghost use Rattle.rc_streams.specs.Noting.{HasFailed, inner_of};
ghost use Rattle.rc_cli.specs.Serving.{session_on};
ghost use Rattle.rc_cli.specs.SessionFaults.{IsFileFault, IsTextFaultOf};
ghost use Rattle.rc_cli.specs.Storing.{HoldsText, store_of};
ghost use Rattle.rc_cli.specs.Sealing.{IsSealedBy, SealsAs, SealsBy, SealsOn, StopsKeeping, sealed};

use crate::sessions::{Devices, LiveFile, Outputs, SessionFault, Store, spelled, tell_ended};
use rc_args::SessionRequest;
use rc_db::Db;
use rc_line::Line;
use rc_livetext::read_live;
use rc_serve::{Ending, Keeper, ServeFault};
use rc_session::Session;
use rc_set::NoMem;
use rc_streams::writing::write_answer;
use std::alloc::Global;
use std::io::Write;

/// Forgets the history around the current state of the session that stood in its file, and returns
/// the exit status: 0 if that is done, 1 if it is refused, 111 for a failure.
///
/// The file then holds the text of a line of one state. What is live, the bundles, and the bound
/// are as they were, and there is nothing to undo or redo. `live` is what stood in the file.
/// Nothing is read. The writer must not have failed before.
pub fn seal_as_asked<R, W: Write, F: Write, S: Store>(
    alloc: Global,
    request: &SessionRequest<'_>,
    base: &[u8],
    live: LiveFile<'_>,
    devices: &mut Devices<R, W, F, S>,
) -> u8
    requires writer { HasFailed devices.old.outputs.writer → ⊥ }
    ensures ended { SealsAs base.now request.now.bound live.entry result
        (S.holds (store_of devices.old.outputs.keeper))
        (S.holds (store_of devices.new.outputs.keeper))
        (W.contents (inner_of devices.old.outputs.writer))
        (W.contents (inner_of devices.new.outputs.writer))
        (HasFailed devices.new.outputs.writer) (S.failed (store_of devices.new.outputs.keeper))
        (F.contents devices.old.faults) (F.contents devices.new.faults) }
    ensures unread { devices.new.reader ≡ devices.old.reader }
{
    let ended = seal_text(alloc, request, base, live, &mut devices.outputs);
    tell_ended(alloc, &mut devices.faults, ended)
}

// Forgets the history around the current state of a session, on the database of a text.
fn seal_text<'a, W: Write, S: Store>(
    alloc: Global,
    request: &SessionRequest<'_>,
    base: &[u8],
    live: LiveFile<'_>,
    outputs: &mut Outputs<W, S>,
) -> Result<Ending, SessionFault<'a>>
    requires writer { HasFailed outputs.old.writer → ⊥ }
    ensures ended { SealsBy result base.now request.now.bound live.entry
        (S.holds (store_of outputs.old.keeper)) (S.holds (store_of outputs.new.keeper))
        (W.contents (inner_of outputs.old.writer)) (W.contents (inner_of outputs.new.writer))
        (HasFailed outputs.new.writer) (S.failed (store_of outputs.new.keeper)) }
{
    match spelled(alloc, Some(base), &[]) {
        Ok((db, _none)) => seal_on(alloc, request, db, live, outputs),
        Err(fault) => Err(fault),
    }
}

// Forgets the history around the current state of a session, on a database.
fn seal_on<'a, W: Write, S: Store>(
    alloc: Global,
    request: &SessionRequest<'_>,
    db: Db,
    live: LiveFile<'_>,
    outputs: &mut Outputs<W, S>,
) -> Result<Ending, SessionFault<'a>>
    requires writer { HasFailed outputs.old.writer → ⊥ }
    ensures ended { SealsOn result db request.now.bound live.entry
        (S.holds (store_of outputs.old.keeper)) (S.holds (store_of outputs.new.keeper))
        (W.contents (inner_of outputs.old.writer)) (W.contents (inner_of outputs.new.writer))
        (HasFailed outputs.new.writer) (S.failed (store_of outputs.new.keeper)) }
{
    let session = match sealed_session(alloc, db, request.bound, live) {
        Ok(session) => session,
        Err(fault) => return Err(fault),
    };
    let kept = keep_sealed(alloc, &session, outputs);
    drop(session);
    match kept {
        Ok(()) => Ok(Ending::Done),
        Err(fault) => Err(SessionFault::Failed(fault)),
    }
}

// Creates a session of a database that has only the current state of the line in its file.
fn sealed_session<'a>(
    alloc: Global,
    db: Db,
    bound: u32,
    live: LiveFile<'_>,
) -> Result<Session, SessionFault<'a>>
    requires bound { 3 ≤ bound }
    ensures sealed { IfOk result (λ session. IsSealedBy db bound live.entry session) }
    ensures fault { IfErr result (IsFileFault live.entry db) }
{
    match live {
        LiveFile::Missing => match Session::with_bound(alloc, db, bound) {
            Ok(session) => Ok(session),
            Err(_) => Err(SessionFault::Failed(ServeFault::Memory)),
        },
        LiveFile::Text(bytes) => sealed_text(alloc, db, bytes),
        LiveFile::Unread(fault) => {
            drop(db);
            Err(SessionFault::Failed(ServeFault::from(fault)))
        }
    }
}

// Creates a session of a database that has only the current state of the line in a text.
fn sealed_text<'a>(alloc: Global, db: Db, bytes: &[u8]) -> Result<Session, SessionFault<'a>>
    ensures sealed { IfOk result (λ session. (start : States)
        × IsLineOf db start × Spells db bytes.now start
        × (session ≡ session_on db (sealed start))) }
    ensures fault { IfErr result (IsTextFaultOf db bytes.now) }
{
    let (line, _states) = match read_live(alloc, bytes, &db) {
        Ok(read) => read,
        Err(fault) => {
            drop(db);
            return Err(SessionFault::from(fault));
        }
    };
    let current = current_of(alloc, &line);
    drop(line);
    match current {
        Ok(current) => Ok(resumed(db, current)),
        Err(_) => {
            drop(db);
            Err(SessionFault::Failed(ServeFault::Memory))
        }
    }
}

// Creates a session that goes on with a line.
fn resumed(db: Db, line: Line) -> Session
    requires closed { line.is_open ≡ false }
    requires states { All (IsStateOf db) (states line.line) }
    ensures { result ≡ session_on db line.line }
{
    match Session::resume(db, line) {
        Ok(session) => session,
        Err(_) => unreachable!(),
    }
}

// Creates a line of the current state alone, under the same bound.
fn current_of(alloc: Global, line: &Line) -> Result<Line, NoMem>
    requires line { IsLine line.now.line }
    ensures { IfOk result (λ current. current ≡ record {
      line = sealed line.now.line;
      is_open = false;
    }) }
{
    let live = line.live().copy(alloc)?;
    match line.table().copy(alloc) {
        Ok(table) => Ok(Line::with_bound(alloc, live, table, line.bound())),
        Err(fault) => {
            drop(live);
            Err(fault)
        }
    }
}

// Keeps a session, and then answers that this is done.
fn keep_sealed<W: Write, S: Store>(
    alloc: Global,
    session: &Session,
    outputs: &mut Outputs<W, S>,
) -> Result<(), ServeFault>
    requires closed { session.now.begun ≡ false }
    requires writer { HasFailed outputs.old.writer → ⊥ }
    ensures kept { OnOk result (HoldsText (S.holds (store_of outputs.new.keeper))
        session.now.database session.now.line) }
    ensures told { OnOk result (Appends (W.contents (inner_of outputs.old.writer))
        (W.contents (inner_of outputs.new.writer)) ok_line) }
    ensures stopped { IfErr result (λ fault. StopsKeeping fault session.now.database
        session.now.line (S.holds (store_of outputs.old.keeper))
        (S.holds (store_of outputs.new.keeper))
        (W.contents (inner_of outputs.old.writer)) (W.contents (inner_of outputs.new.writer))) }
    ensures fault { IfErr result (IsServeFault ⊥ (HasFailed outputs.new.writer)
        (S.failed (store_of outputs.new.keeper))) }
{
    match outputs.keeper.keep(alloc, session) {
        Ok(()) => match write_answer(&mut outputs.writer, b"ok\n") {
            Ok(()) => Ok(()),
            Err(failure) => Err(ServeFault::from(failure)),
        },
        Err(fault) => Err(ServeFault::from(fault)),
    }
}
