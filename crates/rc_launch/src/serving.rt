//! Carries a command out on its files.
ghost use Rattle.std.specs.Prelude.{◌≡◌, map, option_map, string_bytes, None, Some};
ghost use Rattle.rc_streams.specs.Noting.{HasFailed, inner_of};
ghost use Rattle.rc_args.specs.SessionAsked.{session_ask_of};
ghost use Rattle.rc_args.specs.UpdateAsked.{update_ask_of};
ghost use Rattle.rc_serve.specs.declared.ending.Ending.{Ending};
ghost use Rattle.rc_cli.specs.Launching.{Launches, LeadsLaunched};
ghost use Rattle.rc_cli.specs.Session.{asked_with, dealt};
ghost use Rattle.rc_cli.specs.Status.{run_log_of};
ghost use Rattle.rc_cli.specs.SessionFaults.{status_of};
ghost use Rattle.rc_cli.specs.Storing.{store_of};
ghost use Rattle.rc_cli.specs.Straying.{LowersStrays};
ghost use Rattle.rc_cli.specs.UpdateEnds.{Leads};
ghost use Rattle.log.specs.Handle.{max_level};
ghost use Rattle.rc_launch.specs.Serving.{Carries, IsLogFor, IsReadAs};
ghost use Rattle.rc_launch.specs.Serving.{is_restart, logged_of, takes_steps};
ghost use Rattle.rc_launch.specs.Loading.{bytes_in, bytes_of, session_in};
ghost use Rattle.rc_cli.specs.declared.sessions.keeping.LiveFile.{LiveFile};

use crate::execution::Execution;
use crate::loading::{Loaded, bytes_of};
use crate::opened::{Note, Opened};
use crate::texts::FileText;
use log::Logged;
use rc_args::{SessionCommand, UpdateRequest};
use rc_cli::sessions::{Devices, Host, LiveFile, Service, Store, launch, live_file, log_for};
use rc_cli::{
    RunLog, check_as_asked, lower_strays, seal_as_asked, status_as_asked, update_as_asked,
};
use rc_streams::messages::Messages;
use rc_streams::output_folder::OutputFolder;
use std::io::{Read, Write};
use std::sync::Wait;
use std::thread::Threads;

/// The status of a command that was carried out, and of no other.
#[derive(Clone, Copy)]
pub struct Status {
    code: u8,
}

impl Status {
    /// Returns the number of the status.
    pub fn code(self) -> u8
        ensures { result ≡ self.code }
    {
        self.code
    }
}

/// Carries a command out on the files that were opened for it, and returns the status: 0 if all is
/// done or shown; 1 if it is refused, and nothing has moved; 2 if it was carried out, and something
/// failed, was blocked or was not tried; 3 if a service is elsewhere; 111 for a failure. The
/// devices must not have failed before.
pub fn serve<'x, T: Threads + Wait + Sync, R: Read, W: Write, F: Write, S: Store>(
    rt: &'x HostRuntime,
    threads: &'x T,
    opened: &'x Opened<'_>,
    devices: &mut Devices<R, W, F, S>,
) -> Status
    requires reader { HasFailed devices.old.reader → ⊥ }
    requires writer { HasFailed devices.old.outputs.writer → ⊥ }
    ensures { (file : LiveFile) × IsReadAs (λ bytes. bytes.items) opened.now.live.found file
        × Carries opened.now.loaded (logged_of opened.now.note) file result.code
        (dealt R.remaining W.contents S.holds devices.old.reader devices.new.reader
        devices.old.outputs devices.new.outputs)
        (HasFailed devices.new.reader) (HasFailed devices.new.outputs.writer)
        (S.failed (store_of devices.new.outputs.keeper))
        (F.contents devices.old.faults) (F.contents devices.new.faults) }
{
    let log = log_of(&*rt, opened);
    let is_step = takes_steps(&opened.loaded.command);
    let host = host_of(&*rt, &*threads, &log, &*opened, is_step);
    let live = read_of(opened);
    let Loaded {
        command,
        base,
        new,
        other: _,
    } = &opened.loaded;
    let code = match command {
        SessionCommand::Lines(request) => {
            launch(&host, request, Service::Lines, base_in(base), live, devices)
        }
        SessionCommand::Line(request) => {
            let (session, service) = (&request.session, Service::Line(&request.once));
            launch(&host, session, service, base_in(base), live, devices)
        }
        SessionCommand::Update(request) => {
            update_as_asked(&host, request, bytes_of(base), bytes_of(new), live, devices)
        }
        SessionCommand::Restart(request) => {
            let (session, service) = (&request.session, Service::Restart(&request.names));
            launch(&host, session, service, base_in(base), live, devices)
        }
        SessionCommand::Seal(request) => {
            seal_as_asked(rt.alloc(), request, bytes_of(base), live, devices)
        }
        SessionCommand::Status(request) => {
            let log = logged_in(&opened.note);
            status_as_asked(rt, request, bytes_of(base), live, log, devices)
        }
        SessionCommand::Check(request) => {
            check_as_asked(rt, request, bytes_of(base), live, devices)
        }
    };
    Status { code }
}

/// Creates the status of a command that was carried out in several steps.
pub(crate) fn status_of(code: u8) -> Status
    ensures { result.code ≡ code }
{
    Status { code }
}

/// Serves the line or the restart of a command on these texts of a database and of a session, in
/// place of those that were opened for it, and returns the status.
pub(crate) fn serve_on<'x, T: Threads + Wait + Sync, R: Read, W: Write, F: Write, S: Store>(
    execution: &Execution<'x, '_, T>,
    service: Service<'_>,
    base: &[u8],
    live: LiveFile<'_>,
    devices: &mut Devices<R, W, F, S>,
) -> u8
    requires reader { HasFailed devices.old.reader → ⊥ }
    requires writer { HasFailed devices.old.outputs.writer → ⊥ }
    ensures ended { Launches service.entry
        (asked_with (session_ask_of (session_in execution.now.opened.now.loaded)) (Some base.now)
        live.entry) result
        (dealt R.remaining W.contents S.holds devices.old.reader devices.new.reader
        devices.old.outputs devices.new.outputs)
        (HasFailed devices.new.reader) (HasFailed devices.new.outputs.writer)
        (S.failed (store_of devices.new.outputs.keeper))
        (F.contents devices.old.faults) (F.contents devices.new.faults) }
    ensures led { (ending : Ending) → result ≡ status_of ending →
        LeadsLaunched S.put service.entry
        (asked_with (session_ask_of (session_in execution.now.opened.now.loaded)) (Some base.now)
        live.entry) ending (R.remaining (inner_of devices.old.reader))
        (R.remaining (inner_of devices.new.reader))
        (store_of devices.old.outputs.keeper) (store_of devices.new.outputs.keeper) }
{
    let opened = execution.opened;
    let log = log_of(execution.rt, opened);
    let host = host_of(
        execution.rt,
        execution.threads,
        &log,
        opened,
        is_restart(service),
    );
    launch(&host, opened.session(), service, Some(base), live, devices)
}

/// Carries out an update from these texts of a database and of a session, and returns the status.
pub(crate) fn serve_update<'x, T: Threads + Wait + Sync, R: Read, W: Write, F: Write, S: Store>(
    execution: &Execution<'x, '_, T>,
    request: &UpdateRequest<'_>,
    base: &[u8],
    live: LiveFile<'_>,
    devices: &mut Devices<R, W, F, S>,
) -> u8
    requires writer { HasFailed devices.old.outputs.writer → ⊥ }
    ensures { (ending : Ending) → result ≡ status_of ending → Leads S.put S.entered base.now
        (bytes_of execution.now.opened.now.loaded.new) (update_ask_of request.now) live.entry ending
        (store_of devices.old.outputs.keeper) (store_of devices.new.outputs.keeper) }
{
    let opened = execution.opened;
    let log = log_of(execution.rt, opened);
    let host = host_of(execution.rt, execution.threads, &log, opened, true);
    let new = bytes_of(&opened.loaded.new);
    update_as_asked(&host, request, base, new, live, devices)
}

/// Brings strays down by the programs of the command, on this text of a database, and returns the
/// status. The run log and the failures of the session, of which strays are no part, get nothing of
/// it.
pub(crate) fn serve_strays<'x, T: Threads + Wait + Sync, R: Read, W: Write, F: Write, S: Store>(
    execution: &Execution<'x, '_, T>,
    strays: &[String],
    base: &[u8],
    devices: &mut Devices<R, W, F, S>,
) -> u8
    requires writer { HasFailed devices.old.outputs.writer → ⊥ }
    ensures told { LowersStrays base.now
        (session_ask_of (session_in execution.now.opened.now.loaded))
        (map string_bytes strays.now) result (HasFailed devices.new.outputs.writer)
        (W.contents (inner_of devices.old.outputs.writer))
        (W.contents (inner_of devices.new.outputs.writer))
        (F.contents devices.old.faults) (F.contents devices.new.faults) }
    ensures unkept { devices.new.outputs.keeper ≡ devices.old.outputs.keeper }
{
    let opened = execution.opened;
    let log = log_of(execution.rt, opened);
    let host = host_apart(execution.rt, execution.threads, &log, opened);
    lower_strays(&host, opened.session(), strays, base, devices)
}

/// Returns the content of the file of the session, as it was read.
pub(crate) fn read_of<'x>(opened: &'x Opened<'_>) -> LiveFile<'x>
    ensures { IsReadAs (λ bytes. bytes.items) opened.now.live.found result }
{
    live_file(opened.live.found())
}

// Returns the log for the transitions that the command reports.
fn log_of<'h>(
    rt: &'h HostRuntime,
    opened: &Opened<'_>,
) -> Logged<&'h HostRuntime, Messages<&'h HostRuntime>>
    ensures { IsLogFor opened.now.loaded (max_level result) }
{
    log_for(rt, opened.session())
}

// Returns true if a command has several steps: the halves of an update, or the steps of a restart.
fn takes_steps(command: &SessionCommand<'_>) -> bool
    ensures { result ≡ takes_steps command.now }
{
    matches!(
        command,
        SessionCommand::Update(_) | SessionCommand::Restart(_)
    )
}

// Returns true if a restart is served.
fn is_restart(service: Service<'_>) -> bool
    ensures { result ≡ is_restart service.entry }
{
    matches!(service, Service::Restart(_))
}

// Creates the host on which the command runs, with the files of its runs, if it has any, and with
// whether they are steps of a command of several.
fn host_of<'h, T, L>(
    rt: &'h HostRuntime,
    threads: &'h T,
    log: &'h L,
    opened: &'h Opened<'_>,
    is_step: bool,
) -> Host<'h, T, L>
    ensures runs { option_map (λ files. files.now) result.run_files
        ≡ option_map (λ runs. runs.files) opened.now.runs }
    ensures step { result.is_step ≡ is_step }
    ensures outputs { option_map (λ folder. folder.path) result.outputs
        ≡ (session_in opened.now.loaded).output }
{
    let remembers = remembered_path(opened);
    let run_files = match opened.runs() {
        Some(runs) => Some(runs.files()),
        None => None,
    };
    Host {
        threads,
        runtime: rt,
        log,
        run_files,
        is_step,
        remembers,
        outputs: outputs_of(rt, opened),
        alloc: rt.alloc(),
    }
}

// Creates a host for what is no part of the session: without the files of runs.
fn host_apart<'h, T, L>(
    rt: &'h HostRuntime,
    threads: &'h T,
    log: &'h L,
    opened: &'h Opened<'_>,
) -> Host<'h, T, L>
    ensures runs { result.run_files ≡ None }
    ensures outputs { option_map (λ folder. folder.path) result.outputs
        ≡ (session_in opened.now.loaded).output }
{
    Host {
        threads,
        runtime: rt,
        log,
        run_files: None,
        is_step: false,
        remembers: None,
        outputs: outputs_of(rt, opened),
        alloc: rt.alloc(),
    }
}

// Returns the path of the file whose failures are remembered, if the command has runs.
fn remembered_path<'h>(opened: &'h Opened<'_>) -> Option<&'h str> {
    match opened.runs() {
        Some(runs) => Some(runs.path()),
        None => None,
    }
}

// Returns the directory that keeps what the programs of the command write, if it names one.
fn outputs_of<'h>(rt: &'h HostRuntime, opened: &'h Opened<'_>) -> Option<OutputFolder<'h>>
    ensures { option_map (λ folder. folder.path) result ≡ (session_in opened.now.loaded).output }
{
    match opened.session().output {
        Some(path) => Some(OutputFolder::at(rt, path)),
        None => None,
    }
}

// Returns what was read of the run log.
fn logged_in<'b>(note: &'b Note<'_>) -> RunLog<'b>
    ensures { run_log_of result ≡ logged_of note.now }
{
    match note {
        Note::Logged(seen) => RunLog {
            text: seen.log.bytes(),
            is_cut: seen.is_cut,
        },
        _ => RunLog {
            text: &[],
            is_cut: false,
        },
    }
}

// Returns the bytes of a database, if there is one.
fn base_in<'b>(base: &'b Option<FileText<'_>>) -> Option<&'b [u8]>
    ensures { option_map (λ bytes. bytes.now) result ≡ option_map bytes_in base.now }
{
    match base {
        Some(text) => Some(text.bytes()),
        None => None,
    }
}
