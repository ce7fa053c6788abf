//! A gate that starts programs.

ghost use Rattle.std.specs.Prelude.{◌≡◌, IfOk, OnErr, Some, true, map, string_bytes, option_map};
ghost use Rattle.std.specs.Prelude.{slice_get};
ghost use Rattle.rc_db.specs.Service.{limit_of};
ghost use Rattle.rc_runner.specs.Orders.{IsControl, IsMoveFor, IsMoveOf, IsTextRun};
ghost use Rattle.rc_runner.specs.Shell.{MayAnswer, MayCall, MayEnd, MayMove, MayRun, limit_or};
ghost use Rattle.rc_runner.specs.Shell.{quiet, scripts_of, seconds_of, text_of};

use crate::copy::{names_of, services_of, words_of};
use crate::messages::tell;
use crate::no_log::NoLog;
use crate::order::{Move, Order, call_to_move, call_to_run};
use crate::outputs::show_output;
use crate::progress::Event;
use crate::run_log::RunLog;
use crate::start::{Output, end_of, millis_since, start};
use crate::task::Task;
use log::{Level, Log, log_enabled, warn};
use rc_board::Gate;
use rc_core::{Event as RunEvent, Job, Outcome};
use rc_db::{Db, NoMem, Service};
use rc_graph::Way;
use rc_names::Kind;
use rc_script::Process;
use rc_session::{Command, Session};
use rc_streams::messages::MESSAGE;
use rc_streams::output_folder::OutputFolder;
use rc_streams::process_start::start_of;
use rc_streams::run_file::RunFile;
use rc_streams::stop_file::StopFile;
use std::alloc::{AllocError, Global};
use std::fs::Files;
use std::io::{self, Stderr};
use std::marker::Model;
use std::process::Processes;
use std::time::{Clock, Instant};

/// A gate that starts a program for each transition: a runner gets a oneshot's text, and a
/// controller moves a longrun. Nothing is known of what the programs answer.
///
/// A program is started with nothing to read, and its environment says what it is to do. Its output
/// is discarded, goes where this program's errors go, or is kept in a file of its service. The gate
/// waits for the program, but not for what it leaves behind. A limit is rounded up to whole
/// seconds. When it is reached, the program gets TERM, and KILL if it has not ended five seconds
/// later.
#[derive(Drop)]
pub struct ShellGate<'a, R, L> {
    rt: &'a R,
    alloc: Global,
    /// When it was made, where the clock could be read.
    start: Option<Instant>,
    names: Vec<String>,
    services: Vec<Service>,
    runner: Vec<String>,
    controller: Vec<String>,
    /// The limit of services without one of their own, in milliseconds; 0 for none.
    limit: u32,
    /// The log that gets a record for each program that starts, or can't be started.
    log: &'a L,
    /// Where the output of the programs is shown, if anywhere.
    errors: Option<Stderr>,
    /// Where it is kept, if anywhere.
    outputs: Option<OutputFolder<'a>>,
    /// Where its runs are logged, if anywhere.
    run_log: Option<RunLog<'a>>,
    /// What calls its runs off, if anything may.
    stop_file: Option<&'a StopFile>,
}

impl<'a, R, L> Model for ShellGate<'a, R, L> {
    ghost use Rattle.std.specs.Prelude.{is_some, map, option_map, string_bytes};
    ghost use Rattle.rc_runner.specs.Shell.{Starting};

    ghost Value = { Starting };

    ghost view = { λ g. record {
      scripts = record {
        names = map string_bytes g.names.items;
        services = g.services.items;
        runner = map string_bytes g.runner.items;
        controller = map string_bytes g.controller.items;
        limit = g.limit;
      };
      shows = is_some g.errors;
      outputs = g.outputs;
      log = option_map (λ run_log. run_log.file.now) g.run_log;
      steps = option_map (λ run_log. run_log.is_step) g.run_log;
      stop = option_map (λ file. file.now) g.stop_file;
    } };
}

impl<'a, R: Processes + Clock + Files> ShellGate<'a, R, NoLog> {
    /// Creates a gate for the services of a database, with the words of a runner and of a
    /// controller. Without a word there is no such program. A service without a limit of its own
    /// has none, and nothing is reported.
    pub fn new(
        rt: &'a R,
        alloc: Global,
        db: &Db,
        runner: &[String],
        controller: &[String],
    ) -> Result<ShellGate<'a, R, NoLog>, NoMem>
        ensures { IfOk result (λ gate. gate ≡ quiet (scripts_of db.now
            (map string_bytes runner.now) (map string_bytes controller.now) 0)) }
    {
        let names = names_of(alloc, db)?;
        let services = services_of(alloc, db)?;
        let runner = words_of(alloc, runner)?;
        let controller = words_of(alloc, controller)?;
        Ok(ShellGate {
            rt,
            log: &NoLog,
            alloc,
            start: Instant::now(rt).ok(),
            names,
            services,
            runner,
            controller,
            limit: 0,
            errors: None,
            outputs: None,
            run_log: None,
            stop_file: None,
        })
    }
}

impl<'a, R: Processes + Clock + Files, L: Log> ShellGate<'a, R, L> {
    /// Returns this gate with a limit, in milliseconds, for services without one of their own. 0 is
    /// no limit.
    pub fn with_limit(mut self, limit: u32) -> ShellGate<'a, R, L>
        ensures { result ≡ record self.entry {
          scripts = record self.entry.scripts { limit = limit };
        } }
    {
        self.limit = limit;
        self
    }

    /// Returns this gate with a log, which records each program that the gate starts, and each that
    /// cannot be started.
    pub fn with_log<M: Log>(self, log: &'a M) -> ShellGate<'a, R, M>
        ensures { result ≡ self.entry }
    {
        let ShellGate {
            rt,
            alloc,
            start,
            names,
            services,
            runner,
            controller,
            limit,
            log: _,
            errors,
            outputs,
            run_log,
            stop_file,
        } = self;
        ShellGate {
            rt,
            alloc,
            start,
            names,
            services,
            runner,
            controller,
            limit,
            log,
            errors,
            outputs,
            run_log,
            stop_file,
        }
    }

    /// Returns this gate with a stream to which each program writes.
    pub fn with_errors(mut self, errors: Stderr) -> ShellGate<'a, R, L>
        ensures { result ≡ record {
          scripts = self.entry.scripts;
          shows = true;
          outputs = self.entry.outputs;
          log = self.entry.log;
          steps = self.entry.steps;
          stop = self.entry.stop;
        } }
    {
        self.errors = Some(errors);
        self
    }

    /// Returns this gate with a directory that keeps what each program writes.
    pub fn with_outputs(mut self, outputs: OutputFolder<'a>) -> ShellGate<'a, R, L>
        ensures { result ≡ record {
          scripts = self.entry.scripts;
          shows = self.entry.shows;
          outputs = Some outputs.entry;
          log = self.entry.log;
          steps = self.entry.steps;
          stop = self.entry.stop;
        } }
    {
        self.outputs = Some(outputs);
        self
    }

    /// Returns this gate with a run log in the given file. The gate logs each event of a run of the
    /// database: a take before its program is started, and an end before it counts. A program whose
    /// take cannot be logged is not started. `is_step` says whether the runs are those of a command
    /// of several steps, which the log then says too.
    pub fn with_run_log(
        mut self,
        file: &'a RunFile,
        db: &Db,
        is_step: bool,
    ) -> Result<ShellGate<'a, R, L>, NoMem>
        ensures { IfOk result (λ gate. gate ≡ record {
          scripts = self.entry.scripts;
          shows = self.entry.shows;
          outputs = self.entry.outputs;
          log = Some file.now;
          steps = Some is_step;
          stop = self.entry.stop;
        }) }
    {
        match RunLog::new(self.alloc, file, db, is_step) {
            Ok(run_log) => {
                self.run_log = Some(run_log);
                Ok(self)
            }
            Err(fault) => {
                drop(self);
                Err(fault)
            }
        }
    }

    /// Returns this gate with a file that calls its runs off. Once a run is called off, the gate's
    /// clock stands at the last moment.
    pub fn with_stop_file(mut self, file: &'a StopFile) -> ShellGate<'a, R, L>
        ensures { result ≡ record {
          scripts = self.entry.scripts;
          shows = self.entry.shows;
          outputs = self.entry.outputs;
          log = self.entry.log;
          steps = self.entry.steps;
          stop = Some file.now;
        } }
    {
        self.stop_file = Some(file);
        self
    }

    /// Logs an event if runs are logged. Returns false if it could not be logged.
    fn log_event(&self, event: RunEvent) -> bool {
        match &self.run_log {
            Some(run_log) => run_log.log(event),
            None => true,
        }
    }

    /// Makes the transition of a service. Starts nothing if the take was not logged.
    fn make(&self, service: u16, way: Way, is_logged: bool) -> Outcome
        ensures { MayAnswer self.now.scripts service way result }
    {
        match self.move_for(service, way) {
            Ok(Move::Known(outcome)) => outcome,
            Ok(Move::Start(order)) => self.carry_out(order, is_logged),
            Err(_) => Outcome::NotStarted,
        }
    }

    /// Returns the move for the transition of a service.
    fn move_for(&self, service: u16, way: Way) -> Result<Move<'_>, AllocError>
        ensures exact { IfOk result (IsMoveFor self.now.scripts service way) }
        ensures unmade { OnErr result (MayAnswer self.now.scripts service way Outcome.NotStarted) }
    {
        match self.services.get(service as usize) {
            Some(facts) => self.move_of(service, facts, way),
            None => Ok(Move::Known(Outcome::NotStarted)),
        }
    }

    /// Returns the move for the transition of a service with the given facts.
    fn move_of(&self, service: u16, facts: &Service, way: Way) -> Result<Move<'_>, AllocError>
        ensures exact { IfOk result (IsMoveOf self.now.scripts
            (slice_get self.now.scripts.names service) facts.now.kind facts.now way) }
        ensures unmade { OnErr result
            (MayMove self.now.scripts facts.now.kind facts.now way Outcome.NotStarted) }
    {
        let limit = limit_unless(limit_towards(facts, way), self.limit);
        match facts.kind {
            Kind::Oneshot => self.run_text(service, text_towards(facts, way), way, limit),
            Kind::Longrun => self.control(service, way, limit),
            Kind::Bundle => Ok(Move::Known(Outcome::NotStarted)),
        }
    }

    /// Returns the move by which the runner runs a text.
    fn run_text(
        &self,
        service: u16,
        text: &Option<String>,
        way: Way,
        limit: u32,
    ) -> Result<Move<'_>, AllocError>
        ensures exact { IfOk result (IsTextRun self.now.scripts.runner
            (option_map string_bytes text.now) (slice_get self.now.scripts.names service)
            way limit) }
        ensures unmade { OnErr result (MayRun self.now.scripts.runner
            (option_map string_bytes text.now) limit Outcome.NotStarted) }
    {
        let Some(text) = text else {
            return Ok(Move::Known(Outcome::Ok));
        };
        let Some(name) = self.names.get(service as usize) else {
            return Ok(Move::Known(Outcome::NotStarted));
        };
        let task = Task {
            name: name.as_str(),
            way,
            limit,
        };
        call_to_run(self.alloc, &self.runner, text.as_str(), task)
    }

    /// Returns the move by which the controller moves a longrun.
    fn control(&self, service: u16, way: Way, limit: u32) -> Result<Move<'_>, AllocError>
        ensures exact { IfOk result (IsControl self.now.scripts.controller
            (slice_get self.now.scripts.names service) way limit) }
        ensures unmade { OnErr result
            (MayCall self.now.scripts.controller limit Outcome.NotStarted) }
    {
        let Some(name) = self.names.get(service as usize) else {
            return Ok(Move::Known(Outcome::NotStarted));
        };
        let task = Task {
            name: name.as_str(),
            way,
            limit,
        };
        call_to_move(self.alloc, &self.controller, task)
    }

    /// Reports that a program is started, starts it, and waits for it under the limit of its task.
    /// Does nothing of this if the take was not logged.
    fn carry_out(&self, order: Order<'_>, is_logged: bool) -> Outcome
        ensures { MayEnd (seconds_of order.entry.task.limit) result }
    {
        let (mut command, task) = order.into_parts();
        if !is_logged {
            drop(command);
            return Outcome::NotStarted;
        }
        self.tell_start(&task);
        let output = self.output_of(task.name);
        let started = start(self.rt, &mut command, &output);
        if let Err(error) = &started {
            self.tell_unstarted(task.name, command.get_program(), error);
        }
        drop(command);
        let outcome = match started {
            Ok(mut child) => {
                self.note_process(&task, child.id());
                end_of(self.rt, self.alloc, &mut child, seconds(task.limit))
            }
            Err(_) => Outcome::NotStarted,
        };
        self.show(task.name, output);
        outcome
    }

    /// Returns what the program of a service writes to: its file if outputs are kept, and the place
    /// where they are shown otherwise. Warns if its file can't be opened.
    fn output_of(&self, name: &str) -> Output {
        if let Some(folder) = self.outputs {
            match folder.begin(name) {
                Ok(file) => return Output::Kept(file),
                Err(error) => self.tell_unkept(folder.path(), name, &error),
            }
        }
        match self.errors {
            Some(errors) => Output::Errors(errors),
            None => Output::Null,
        }
    }

    /// Shows what the program of a service wrote, if that is to be shown and was kept.
    fn show(&self, name: &str, output: Output) {
        let is_kept = matches!(&output, Output::Kept(_));
        drop(output);
        if let (Some(folder), true) = (self.outputs, is_kept && self.errors.is_some()) {
            show_output(self.log, self.alloc, folder, name);
        }
    }

    /// Reports why what a program writes is not kept.
    fn tell_unkept(&self, folder: &str, name: &str, error: &io::Error) {
        warn!(self.log; target: MESSAGE, "{folder}/{name}: {error}: its output is not kept");
    }

    /// Notes in the run log which program was started for a task. If this command is killed, the
    /// next one finds that program.
    fn note_process(&self, task: &Task<'_>, id: u32) {
        let Some(run_log) = &self.run_log else {
            return;
        };
        let id = id as u64;
        if let Some(start) = start_of(self.rt, self.alloc, id) {
            let limit = task.limit as u64;
            run_log.note(task.name, Process { id, start, limit });
        }
    }

    /// Reports why a program can't be started.
    fn tell_unstarted(&self, name: &str, program: &str, error: &io::Error) {
        warn!(self.log; target: MESSAGE, "{name}: {program} can't be started: {error}");
    }

    /// Reports that a program is started, before it can write anything.
    fn tell_start(&self, task: &Task<'_>) {
        if log_enabled!(self.log; target: MESSAGE, Level::Info) {
            let moment = millis_since(self.rt, self.start).unwrap_or(0);
            let event = Event::Started;
            tell(self.log, self.alloc, moment, task.way, task.name, event);
        }
    }
}

impl<'a, R: Processes + Clock + Files + Sync, L: Log + Sync> Gate for ShellGate<'a, R, L> {
    ghost use Rattle.rc_runner.specs.Shell.{MayAnswer};

    ghost answers = { λ gate service way outcome. MayAnswer gate.scripts service way outcome };

    // No clause speaks of a clock.
    ghost gives = { λ gate moment. Unit {0} };

    #[inline(never)]
    fn run(&self, job: Job) -> Outcome {
        let worker = job.worker();
        let service = job.service();
        let is_logged = self.log_event(RunEvent::Take(worker, service));
        let outcome = self.make(service, job.way(), is_logged);
        self.log_event(RunEvent::Done(worker, service, outcome));
        outcome
    }

    /// Returns the milliseconds since the gate was made, or 0 if the clock cannot be read. If the
    /// run is called off, returns the last moment that there is, at which each limit is over.
    fn now(&self) -> u64 {
        if let Some(file) = self.stop_file {
            if file.is_called_off() {
                return u64::MAX;
            }
        }
        millis_since(self.rt, self.start).unwrap_or(0)
    }

    fn begin(&self, session: &Session, command: &Command) {
        if let Some(file) = self.stop_file {
            file.begin();
        }
        if let Some(run_log) = &self.run_log {
            run_log.begin(session, command);
        }
    }

    fn end(&self) {
        if let Some(file) = self.stop_file {
            file.end();
        }
        if let Some(run_log) = &self.run_log {
            run_log.end();
        }
    }
}

/// Returns the limit of a service on its way, in milliseconds.
fn limit_towards(service: &Service, way: Way) -> u32
    ensures { result ≡ limit_of service.now way }
{
    match way {
        Way::Raise => service.limit_up,
        Way::Lower => service.limit_down,
    }
}

/// Returns the text that is run for a service on its way.
fn text_towards(service: &Service, way: Way) -> &Option<String>
    ensures { option_map string_bytes result.now ≡ text_of service.now way }
{
    match way {
        Way::Raise => &service.text_up,
        Way::Lower => &service.text_down,
    }
}

/// Returns a service's own limit, or the usual one if it has none.
fn limit_unless(own: u32, usual: u32) -> u32
    ensures { result ≡ limit_or own usual }
{
    if own == 0 { usual } else { own }
}

/// Converts milliseconds to whole seconds, rounded up.
fn seconds(limit: u32) -> u64
    ensures { result ≡ seconds_of limit }
{
    (limit as u64 + 999) / 1000
}
