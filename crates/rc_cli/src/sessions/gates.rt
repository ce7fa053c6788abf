//! The gate of a session, which makes its transitions as its options say.
ghost use Rattle.std.specs.Prelude.{◌≡◌, option_map, IfErr, IfOk};
ghost use Rattle.rc_runner.specs.Shell.{scripts_of};
ghost use Rattle.rc_args.specs.Making.{making_ask_of};
ghost use Rattle.rc_args.specs.Programs.{controller_in, runner_in};
ghost use Rattle.rc_cli.specs.Gating.{IsGateFor, IsGateless, IsOnFiles, shows_writes};

use crate::sessions::failing::gate_of;
use crate::sessions::host::Host;
use crate::sessions::remembering::Remembering;
use crate::sessions::session_fault::SessionFault;
use log::Log;
use rc_args::{Making, Programs, Verbosity};
use rc_db::{Db, NoMem};
use rc_runner::{SessionGate, ShellGate, Telling};
use rc_serve::ServeFault;

/// Creates the gate that makes the transitions of a database as its options say. `host` starts its
/// programs. If each transition is reported, what the programs write is shown. If there is a
/// directory for it, it is kept there.
pub fn gate_for<'h, 'a, T, L: Log + Sync>(
    host: &Host<'h, T, L>,
    db: &Db,
    making: &Making<'a>,
    verbosity: Verbosity,
) -> Result<Telling<'h, L, Remembering<'h, SessionGate<'h, HostRuntime, L>>>, SessionFault<'a>>
    ensures made { IfOk result (λ gate. IsGateFor db.now (making_ask_of making.now) gate) }
    ensures files { IfOk result
        (IsOnFiles verbosity host.now.outputs
        (option_map (λ files. files.now) host.now.run_files) host.now.is_step) }
    ensures fault { IfErr result (IsGateless db.now (making_ask_of making.now)) }
{
    let gate = match quiet_gate(host, db, making, verbosity) {
        Ok(gate) => gate,
        Err(fault) => return Err(fault),
    };
    let gate = Remembering::new(host.runtime, host.remembers, gate);
    match Telling::new(host.runtime, host.log, host.alloc, db, gate, host.outputs) {
        Ok(gate) => Ok(gate),
        Err(_) => Err(SessionFault::Failed(ServeFault::Memory)),
    }
}

// Creates the gate that makes the transitions of a database as its options say, without a report of
// how they end.
fn quiet_gate<'h, 'a, T, L: Log + Sync>(
    host: &Host<'h, T, L>,
    db: &Db,
    making: &Making<'a>,
    verbosity: Verbosity,
) -> Result<SessionGate<'h, HostRuntime, L>, SessionFault<'a>>
    ensures made { IfOk result (λ gate. IsGateFor db.now (making_ask_of making.now) gate) }
    ensures files { IfOk result
        (IsOnFiles verbosity host.now.outputs
        (option_map (λ files. files.now) host.now.run_files) host.now.is_step) }
    ensures fault { IfErr result (IsGateless db.now (making_ask_of making.now)) }
{
    match making {
        Making::Table(failing) => match gate_of(host.alloc, db.names(), failing) {
            Ok(gate) => Ok(SessionGate::Table(gate)),
            Err(fault) => Err(SessionFault::from(fault)),
        },
        Making::Programs(programs) => match shell_gate(host, db, programs, verbosity) {
            Ok(gate) => Ok(SessionGate::Shell(gate)),
            Err(_) => Err(SessionFault::Failed(ServeFault::Memory)),
        },
    }
}

// Creates the gate that runs the given programs. If each transition is reported, what the programs
// write is shown, and kept if there is a directory for it. If there is a file for it, what is done
// is logged, as a step if the host says so.
fn shell_gate<'h, T, L: Log + Sync>(
    host: &Host<'h, T, L>,
    db: &Db,
    programs: &Programs<'_>,
    verbosity: Verbosity,
) -> Result<ShellGate<'h, HostRuntime, L>, NoMem>
    ensures scripts { IfOk result (λ gate. gate.scripts ≡ scripts_of db.now
        (runner_in (option_map (λ text. text.now) programs.now.runner))
        (controller_in (option_map (λ text. text.now) programs.now.controller))
        programs.now.limit) }
    ensures shows { IfOk result (λ gate. gate.shows ≡ shows_writes verbosity) }
    ensures outputs { IfOk result (λ gate. gate.outputs ≡ host.now.outputs) }
    ensures log { IfOk result (λ gate. gate.log
        ≡ option_map (λ files. files.now.log) host.now.run_files) }
    ensures steps { IfOk result (λ gate. gate.steps
        ≡ option_map (λ files. host.now.is_step) host.now.run_files) }
    ensures stop { IfOk result (λ gate. gate.stop
        ≡ option_map (λ files. files.now.stop) host.now.run_files) }
{
    let runner = programs.runner_words(host.alloc)?;
    let controller = programs.controller_words(host.alloc)?;
    let gate = ShellGate::new(host.runtime, host.alloc, db, &runner, &controller)?
        .with_limit(programs.limit)
        .with_log(host.log);
    let gate = match verbosity {
        Verbosity::Transitions => gate.with_errors(host.runtime.stderr()),
        Verbosity::Failures | Verbosity::Quiet => gate,
    };
    let gate = match host.outputs {
        Some(outputs) => gate.with_outputs(outputs),
        None => gate,
    };
    match host.run_files {
        Some(files) => gate
            .with_stop_file(&files.stop)
            .with_run_log(&files.log, db, host.is_step),
        None => Ok(gate),
    }
}
