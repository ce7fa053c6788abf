//! A session is launched: its database, its gate and where it begins are found, it is served, and
//! its status is returned.
ghost use Rattle.std.specs.Prelude.{◌≡◌, ◌+◌, Err, IfErr, IfOk, OnOk};
ghost use Rattle.rc_streams.specs.Input.{AppendsFront, ConsumesAtMost, fault_line};
ghost use Rattle.rc_streams.specs.Noting.{HasFailed, inner_of};
ghost use Rattle.rc_dbtext.specs.Base.{Spells, bytes_of};
ghost use Rattle.rc_dbtext.specs.Opening.{Reads};
ghost use Rattle.rc_args.specs.SessionAsked.{session_ask_of};
ghost use Rattle.rc_cli.specs.Launching.{Launches, LeadsLaunched};
ghost use Rattle.rc_cli.specs.Session.{asked_with, dealt};
ghost use Rattle.rc_cli.specs.SessionFaults.{IsEndTold, IsUnserved, IsUnspelled, reading_fault};
ghost use Rattle.rc_cli.specs.SessionFaults.{serve_word, session_end, status_of};
ghost use Rattle.rc_cli.specs.Storing.{store_of};
ghost use Rattle.rc_serve.specs.declared.ending.Ending.{Ending};
ghost use Rattle.rc_serve.specs.Faults.{IsServeFault};
ghost use Rattle.rc_serve.specs.declared.fault.ServeFault.TheVariants.{Read as Unread};

use crate::sessions::beginning::begin_gated;
use crate::sessions::host::Host;
use crate::sessions::keeping::{LiveFile, Store};
use crate::sessions::one_line::serve_once;
use crate::sessions::restarting::restart_in;
use crate::sessions::service::{Devices, Service};
use crate::sessions::serving::serve_lines;
use crate::sessions::session_fault::{SessionFault, tell_session_fault};
use log::Log;
use rc_args::SessionRequest;
use rc_db::Db;
use rc_dbtext::database_of;
use rc_serve::{Ending, ServeFault};
use rc_streams::ending::{DONE, REFUSED};
use rc_streams::{Failure, MAX_INPUT, Noted, read_all};
use std::alloc::Global;
use std::io::{Read, Write};
use std::sync::Wait;
use std::thread::Threads;

/// Something failed, was blocked or was not tried.
const HINDERED: u8 = 2;

/// Launches a session, and returns the exit status: 0 if all is done or shown; 1 if it is refused,
/// and nothing has moved; 2 if one line or a restart was carried out, and something failed, was
/// blocked or was not tried; 111 for a failure.
///
/// With a base, each line of the input is answered before the next one is waited for, and one line
/// or a restart reads nothing. Without a base, the input is read whole first: the database stands
/// at its beginning, and the lines after it. The session goes on with the text that was found in
/// its file. It is kept there before its first line, and what each line alters is kept before its
/// answer. If the session ends before its input does, the reason is written to `faults`. The reader
/// and the writer must not have failed before.
pub fn launch<T: Threads + Wait + Sync, R: Read, W: Write, F: Write, S: Store, L: Log + Sync>(
    host: &Host<'_, T, L>,
    request: &SessionRequest<'_>,
    service: Service<'_>,
    base: Option<&[u8]>,
    live: LiveFile<'_>,
    devices: &mut Devices<R, W, F, S>,
) -> u8
    requires reader { HasFailed devices.old.reader → ⊥ }
    requires writer { HasFailed devices.old.outputs.writer → ⊥ }
    ensures ended { Launches service.entry
        (asked_with (session_ask_of request.now) (bytes_of base.entry) live.entry) result
        (dealt R.remaining W.contents S.holds devices.old.reader devices.new.reader
        devices.old.outputs devices.new.outputs)
        (HasFailed devices.new.reader) (HasFailed devices.new.outputs.writer)
        (S.failed (store_of devices.new.outputs.keeper))
        (F.contents devices.old.faults) (F.contents devices.new.faults) }

    // With status 0, 1 or 2, one line or a restart ended as that says, and has led the store so.
    ensures led { (ending : Ending) → result ≡ status_of ending →
        LeadsLaunched S.put service.entry
        (asked_with (session_ask_of request.now) (bytes_of base.entry) live.entry) ending
        (R.remaining (inner_of devices.old.reader)) (R.remaining (inner_of devices.new.reader))
        (store_of devices.old.outputs.keeper) (store_of devices.new.outputs.keeper) }

    // Where the reader has failed, that is the cause that is reported.
    ensures cause { HasFailed devices.new.reader → (result ≡ 111)
        × AppendsFront (F.contents devices.old.faults) (F.contents devices.new.faults)
        (fault_line (serve_word Unread)) }

    // Whatever the status, one byte past the bound is the last that is taken.
    ensures taken { ConsumesAtMost (R.remaining (inner_of devices.old.reader))
        (R.remaining (inner_of devices.new.reader)) (MAX_INPUT + 1) }
{
    let reader = &mut devices.reader;
    let outputs = &mut devices.outputs;
    let input = match whole_input(host.alloc, base, reader) {
        Ok(input) => input,
        Err(fault) => return tell_served(host.alloc, &mut devices.faults, Err(fault)),
    };
    let (db, lines) = match spelled(host.alloc, base, &input) {
        Ok(read) => read,
        Err(fault) => return tell_ended(host.alloc, &mut devices.faults, Err(fault)),
    };
    let (gate, mut session) = match begin_gated(host, db, request, service, base, live) {
        Ok(begun) => begun,
        Err(fault) => return tell_ended(host.alloc, &mut devices.faults, Err(fault)),
    };
    let mut rest = Noted::new(lines);
    let served = match service {
        Service::Line(once) => serve_once(host, request, &mut session, &gate, once, outputs),
        Service::Restart(names) => restart_in(host, request, names, &mut session, &gate, outputs),
        Service::Lines => match base {
            Some(_) => serve_lines(host, request, &mut session, &gate, reader, outputs),
            None => serve_lines(host, request, &mut session, &gate, &mut rest, outputs),
        },
    };
    drop((session, gate));
    tell_served(host.alloc, &mut devices.faults, served)
}

// Reads the whole input, if the database stands at its beginning. With a base reads nothing.
fn whole_input<R: Read>(
    alloc: Global,
    base: Option<&[u8]>,
    reader: &mut Noted<R>,
) -> Result<Vec<u8>, ServeFault>
    requires { HasFailed reader.old → ⊥ }
    ensures read { IfOk result (λ input. Reads (bytes_of base.entry)
        (R.remaining (inner_of reader.old)) (R.remaining (inner_of reader.new)) input.items) }
    ensures sound { OnOk result (HasFailed reader.new → ⊥) }
    ensures fault { IfErr result (IsServeFault (HasFailed reader.new) ⊥ ⊥) }
    ensures unserved { IfErr result (λ fault.
        IsUnserved fault (bytes_of base.entry) (R.remaining (inner_of reader.old))) }
    ensures told { HasFailed reader.new → result ≡ Err ServeFault.Read }
    ensures taken { ConsumesAtMost (R.remaining (inner_of reader.old))
        (R.remaining (inner_of reader.new)) (MAX_INPUT + 1) }
{
    match base {
        Some(_) => Ok(Vec::new(alloc)),
        None => match read_all(alloc, reader) {
            Ok(input) => Ok(input),
            Err(failure) => Err(reading_fault(failure)),
        },
    }
}

// Reports the fault of serving, if there is one, and returns the exit status.
fn tell_served<F: Write>(alloc: Global, faults: &mut F, served: Result<Ending, ServeFault>) -> u8
    ensures { IsEndTold (session_end served) result
        (F.contents faults.old) (F.contents faults.new) }
{
    match served {
        Ok(ending) => status_of(ending),
        Err(fault) => tell_session_fault(alloc, faults, SessionFault::Failed(fault)),
    }
}

/// Reports a fault, if there is one, and returns the exit status.
pub fn tell_ended<F: Write>(
    alloc: Global,
    faults: &mut F,
    ended: Result<Ending, SessionFault<'_>>,
) -> u8
    ensures { IsEndTold ended.entry result (F.contents faults.old) (F.contents faults.new) }
{
    match ended {
        Ok(ending) => status_of(ending),
        Err(fault) => tell_session_fault(alloc, faults, fault),
    }
}

// Returns the exit status of a line that was answered.
fn status_of(ending: Ending) -> u8
    ensures { result ≡ status_of ending }
{
    match ending {
        Ending::Done => DONE,
        Ending::Refused => REFUSED,
        Ending::Hindered => HINDERED,
    }
}

/// Reads the database of a text of its own, or the one at the beginning of an input. Returns it and
/// what follows it in the input.
pub fn spelled<'a, 'b>(
    alloc: Global,
    base: Option<&[u8]>,
    input: &'a [u8],
) -> Result<(Db, &'a [u8]), SessionFault<'b>>
    ensures spelled { IfOk result (λ read.
        Spells (bytes_of base.entry) input.entry.now read.0 read.1.now) }
    ensures fault { IfErr result (IsUnspelled (bytes_of base.entry) input.entry.now) }
{
    match database_of(alloc, base, input) {
        Ok(read) => Ok(read),
        Err(fault) => Err(SessionFault::from(fault)),
    }
}

// Converts a failure to read the whole input into a fault of serving. Reading never fails with
// `Write`.
fn reading_fault(failure: Failure) -> ServeFault
    ensures { result ≡ reading_fault failure }
{
    match failure {
        Failure::TooLong => ServeFault::TooLong,
        Failure::Memory => ServeFault::Memory,
        Failure::Read | Failure::Write => ServeFault::Read,
    }
}
