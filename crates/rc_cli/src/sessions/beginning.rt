//! A session begins with nothing up, or where the text of its file stands; and its gate.
ghost use Rattle.std.specs.Prelude.{◌≡◌, ◌≤◌, IfErr, IfOk, OnOk};
ghost use Rattle.rc_session.specs.Holding.{first_line};
ghost use Rattle.rc_dbtext.specs.Base.{bytes_of};
ghost use Rattle.rc_args.specs.Making.{making_ask_of};
ghost use Rattle.rc_args.specs.SessionAsked.{session_ask_of};
ghost use Rattle.rc_cli.specs.Filing.{BeginsBy, file_named};
ghost use Rattle.rc_cli.specs.Gating.{IsGateFor};
ghost use Rattle.rc_cli.specs.Serving.{session_on};
ghost use Rattle.rc_cli.specs.Session.{asked_with};
ghost use Rattle.rc_cli.specs.SessionFaults.{IsControlled, IsFileFault, IsTextFaultOf, IsUnbegun};
ghost use Rattle.rc_cli.specs.SessionFaults.{IsUnready};
ghost use Rattle.rc_cli.specs.declared.sessions.session_fault.SessionFault.TheVariants.{Failed};
ghost use Rattle.rc_serve.specs.declared.fault.ServeFault.TheVariants.{Memory};
ghost use Rattle.rc_model.specs.Line.{Line};
ghost use Rattle.rc_livetext.specs.Spelling.{Spells};
ghost use Rattle.rc_model.specs.Session.{IsLineOf};

use crate::controlled::uncontrolled;
use crate::sessions::gates::gate_for;
use crate::sessions::host::Host;
use crate::sessions::keeping::LiveFile;
use crate::sessions::remembering::Remembering;
use crate::sessions::service::Service;
use crate::sessions::session_fault::SessionFault;
use log::Log;
use rc_args::SessionRequest;
use rc_db::Db;
use rc_livetext::{laws as live_laws, read_live};
use rc_runner::{SessionGate, Telling};
use rc_serve::ServeFault;
use rc_session::Session;
use std::alloc::Global;

/// Creates the gate that the options ask for, and the session of a service on a database, where it
/// begins. Fails if the service moves a longrun that no program controls.
pub(crate) fn begin_gated<'h, 'a, T, L: Log + Sync>(
    host: &Host<'h, T, L>,
    db: Db,
    request: &SessionRequest<'a>,
    service: Service<'_>,
    base: Option<&[u8]>,
    live: LiveFile<'_>,
) -> Result<
    (
        Telling<'h, L, Remembering<'h, SessionGate<'h, HostRuntime, L>>>,
        Session,
    ),
    SessionFault<'a>,
>
    ensures gate { IfOk result (λ both. IsGateFor db (making_ask_of request.now.making) both.0) }
    ensures begun { IfOk result (λ both. (start : Line) × BeginsBy db request.now.bound
        (file_named (session_ask_of request.now).live live.entry) start
        × (both.1 ≡ session_on db start)) }
    ensures controlled { OnOk result (IsControlled service.entry
        (asked_with (session_ask_of request.now) (bytes_of base.entry) live.entry) db) }
    ensures fault { IfErr result (IsUnready service.entry
        (asked_with (session_ask_of request.now) (bytes_of base.entry) live.entry) db) }
{
    let gate = match gate_for(host, &db, &request.making, request.verbosity) {
        Ok(gate) => gate,
        Err(fault) => {
            drop(db);
            return Err(fault);
        }
    };
    match begin_controlled(host.alloc, db, request, service, base, live) {
        Ok(session) => Ok((gate, session)),
        Err(fault) => {
            drop(gate);
            Err(fault)
        }
    }
}

// Creates the session of a service on a database, where it begins. Fails if the service moves a
// longrun that no program controls.
fn begin_controlled<'a>(
    alloc: Global,
    db: Db,
    request: &SessionRequest<'_>,
    service: Service<'_>,
    base: Option<&[u8]>,
    live: LiveFile<'_>,
) -> Result<Session, SessionFault<'a>>
    ensures begun { IfOk result (λ session. (start : Line) × BeginsBy db request.now.bound
        (file_named (session_ask_of request.now).live live.entry) start
        × (session ≡ session_on db start)) }
    ensures controlled { OnOk result (IsControlled service.entry
        (asked_with (session_ask_of request.now) (bytes_of base.entry) live.entry) db) }
    ensures fault { IfErr result (IsUnbegun service.entry
        (asked_with (session_ask_of request.now) (bytes_of base.entry) live.entry) db) }
{
    live_laws::spelling_is_unique();
    let _names = db.names();
    let mut session = begin(alloc, db, request, live)?;
    match uncontrolled(alloc, request, service, base, &mut session) {
        Ok(None) => Ok(session),
        Ok(Some(name)) => {
            drop(session);
            Err(SessionFault::NoController(name))
        }
        Err(_) => {
            drop(session);
            Err(SessionFault::Failed(ServeFault::Memory))
        }
    }
}

/// Creates a session on a database, which begins with nothing up or where its file stands.
pub fn begin<'a>(
    alloc: Global,
    db: Db,
    request: &SessionRequest<'_>,
    live: LiveFile<'_>,
) -> Result<Session, SessionFault<'a>>
    ensures begun { IfOk result (λ session. (start : Line) × BeginsBy db request.now.bound
        (file_named (session_ask_of request.now).live live.entry) start
        × (session ≡ session_on db start)) }
    ensures fault { IfErr result (IsFileFault
        (file_named (session_ask_of request.now).live live.entry) db) }
{
    match request.live {
        None => fresh(alloc, db, request.bound),
        Some(_) => go_on(alloc, db, request.bound, live),
    }
}

// Creates a session that begins where its file stands.
fn go_on<'a>(
    alloc: Global,
    db: Db,
    bound: u32,
    live: LiveFile<'_>,
) -> Result<Session, SessionFault<'a>>
    requires bound { 3 ≤ bound }
    ensures begun { IfOk result (λ session. (start : Line)
        × BeginsBy db bound live.entry start × (session ≡ session_on db start)) }
    ensures fault { IfErr result (IsFileFault live.entry db) }
{
    match live {
        LiveFile::Missing => fresh(alloc, db, bound),
        LiveFile::Text(bytes) => resumed(alloc, db, bytes),
        LiveFile::Unread(fault) => {
            drop(db);
            Err(SessionFault::Failed(ServeFault::from(fault)))
        }
    }
}

// Creates a session that begins with nothing up.
fn fresh<'a>(alloc: Global, db: Db, bound: u32) -> Result<Session, SessionFault<'a>>
    requires bound { 3 ≤ bound }
    ensures begun { IfOk result (λ session. session ≡ session_on db (first_line db bound)) }
    ensures fault { IfErr result (λ fault. fault ≡ Failed Memory) }
{
    match Session::with_bound(alloc, db, bound) {
        Ok(session) => Ok(session),
        Err(_) => Err(SessionFault::Failed(ServeFault::Memory)),
    }
}

// Creates a session that goes on with the line of a text.
fn resumed<'a>(alloc: Global, db: Db, bytes: &[u8]) -> Result<Session, SessionFault<'a>>
    ensures begun { IfOk result (λ session. (start : Line)
        × IsLineOf db start × Spells db bytes.now start × (session ≡ session_on db start)) }
    ensures fault { IfErr result (IsTextFaultOf db bytes.now) }
{
    let (line, _states) = match read_live(alloc, bytes, &db) {
        Ok(read) => read,
        Err(fault) => {
            drop(db);
            return Err(SessionFault::from(fault));
        }
    };
    match Session::resume(db, line) {
        Ok(session) => Ok(session),
        Err(_) => unreachable!(),
    }
}
