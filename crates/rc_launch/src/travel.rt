//! An undo and a redo on a history: they go on from states that are passed, across borders.
ghost use Rattle.std.specs.Prelude.{◌≡◌, ◌≢◌, ℕ, List, [], Some, false, IfErr, IfOk, OnOk};
ghost use Rattle.rc_streams.specs.Noting.{HasFailed};
ghost use Rattle.rc_args.specs.OnceAsked.{Said, once_saying_of};
ghost use Rattle.rc_script.specs.Says.{SaysStep};
ghost use Rattle.rc_cli.specs.Storing.{store_of};
ghost use Rattle.rc_historytext.specs.Halting.{Halts};
ghost use Rattle.rc_historytext.specs.Travelling.{RunsInside, Travels, way_command};
ghost use Rattle.rc_historytext.specs.Updating.{IsCrossed};
ghost use Rattle.rc_launch.specs.Halted.{HasHalted, IsRefusedOn, StepEndsBy, StepsBy};
ghost use Rattle.rc_launch.specs.HeldHistory.{KeepsIn, Leads, LeadsOn, history_held};
ghost use Rattle.rc_launch.specs.Loading.{NamesFile};

use crate::borders::{first_unjoined, goes_on_behind, is_border};
use crate::controllers::uncontrolled_ahead;
use crate::execution::Execution;
use crate::live_store::LiveStore;
use crate::outcomes::{fail_on, hindered, say_done, tell_refused, tell_unjoined, word_of};
use crate::serving::serve_on;
use rc_args::Once;
use rc_cli::sessions::{Devices, LiveFile, Service, SessionFault};
use rc_historytext::present_of;
use rc_script::SessionLine;
use rc_session::Command;
use rc_streams::Failure;
use rc_streams::ending::{DONE, FAILED};
use std::io::{Read, Write};
use std::sync::Wait;
use std::thread::Threads;

/// The most steps of an undo: inside each generation, and across each border.
pub(crate) const MAX_STEPS: usize = 16;

/// An undo (not `is_on`) or a redo.
#[derive(Clone, Copy)]
pub(crate) struct Way {
    pub is_on: bool,
    /// The limit of each of its runs in milliseconds, or 0 if it has none.
    pub limit: u32,
}

impl Way {
    /// Returns the line of one step.
    pub fn line(self) -> Once
        ensures { once_saying_of result ≡ Said (SaysStep (way_command self.is_on self.limit [])) }
    {
        let command = if self.is_on {
            Command::Redo(self.limit)
        } else {
            Command::Undo(self.limit)
        };
        Once::Line(SessionLine::Command(command))
    }
}

/// Carries out an undo or a redo, and returns the status. All borders on its way are tested first,
/// and whether it would move a longrun that no program controls.
pub(crate) fn travel<'x, T: Threads + Wait + Sync, R: Read, W: Write, F: Write>(
    execution: &Execution<'x, '_, T>,
    way: Way,
    devices: &mut Devices<R, W, F, LiveStore<'x>>,
) -> u8
    requires reader { HasFailed devices.old.reader → ⊥ }
    requires writer { HasFailed devices.old.outputs.writer → ⊥ }
    ensures done { result ≡ 0 → NamesFile execution.now.opened.now.loaded →
        Leads (store_of devices.old.outputs.keeper) (store_of devices.new.outputs.keeper)
        (Travels way.is_on) }
    ensures halted { HasHalted result → NamesFile execution.now.opened.now.loaded →
        Leads (store_of devices.old.outputs.keeper) (store_of devices.new.outputs.keeper)
        (Halts way.is_on) }
    ensures refused { result ≡ 1 → NamesFile execution.now.opened.now.loaded →
        Leads (store_of devices.old.outputs.keeper) (store_of devices.new.outputs.keeper)
        (IsRefusedOn way.is_on) }
{
    let (alloc, request) = (execution.rt.alloc(), execution.opened.session());
    match first_unjoined(alloc, history_in(devices), way.is_on) {
        Ok(None) => {}
        Ok(Some(border)) => return tell_unjoined(alloc, border, devices),
        Err(_) => return fail_on(b"Memory", devices),
    }
    match uncontrolled_ahead(alloc, request, history_in(devices), way.is_on) {
        Ok(None) => steps(execution, way, devices),
        Ok(Some(name)) => tell_refused(alloc, SessionFault::NoController(name), devices),
        Err(_) => fail_on(b"Memory", devices),
    }
}

// Takes the steps of an undo or a redo, and returns the status.
fn steps<'x, T: Threads + Wait + Sync, R: Read, W: Write, F: Write>(
    execution: &Execution<'x, '_, T>,
    way: Way,
    devices: &mut Devices<R, W, F, LiveStore<'x>>,
) -> u8
    ensures done { result ≡ 0 → NamesFile execution.now.opened.now.loaded →
        Leads (store_of devices.old.outputs.keeper) (store_of devices.new.outputs.keeper)
        (Travels way.is_on) }
    ensures halted { HasHalted result → NamesFile execution.now.opened.now.loaded →
        Leads (store_of devices.old.outputs.keeper) (store_of devices.new.outputs.keeper)
        (Halts way.is_on) }
    ensures refused { result ≡ 1 → NamesFile execution.now.opened.now.loaded →
        Leads (store_of devices.old.outputs.keeper) (store_of devices.new.outputs.keeper)
        (IsRefusedOn way.is_on) }
{
    let mut has_run = false;
    for _ in 0..MAX_STEPS {
        match step(execution, way, devices) {
            Ok(is_run) => has_run |= is_run,
            Err(code) => return if has_run { hindered(code) } else { code },
        }
        match goes_on_behind(execution.rt.alloc(), history_in(devices), way.is_on) {
            Ok(true) => {}
            Ok(false) if has_run => return DONE,
            Ok(false) => return say_done(b"ok\n", devices),
            Err(_) => return fail_on(b"Memory", devices),
        }
    }
    fail_on(b"Strange", devices)
}

// Takes one step: crosses a border, or serves a line in the present generation. Returns true if a
// line was served, or the status if the step was not done.
fn step<'x, T: Threads + Wait + Sync, R: Read, W: Write, F: Write>(
    execution: &Execution<'x, '_, T>,
    way: Way,
    devices: &mut Devices<R, W, F, LiveStore<'x>>,
) -> Result<bool, u8>
    ensures ok { IfOk result (λ is_run. NamesFile execution.now.opened.now.loaded →
        Leads (store_of devices.old.outputs.keeper) (store_of devices.new.outputs.keeper)
        (StepsBy is_run way.is_on)) }
    ensures fault { IfErr result (λ code. code ≢ 0) }
    ensures halted { IfErr result (λ code. HasHalted code →
        NamesFile execution.now.opened.now.loaded →
        Leads (store_of devices.old.outputs.keeper) (store_of devices.new.outputs.keeper)
        (StepEndsBy code way.is_on)) }
{
    if devices.reader.failed() || devices.outputs.writer.failed() {
        return Err(FAILED);
    }
    match is_border(execution.rt.alloc(), history_in(devices), way.is_on) {
        Ok(true) => cross(way.is_on, devices),
        Ok(false) => match run_inside(execution, way, devices) {
            DONE => Ok(true),
            code => Err(code),
        },
        Err(_) => Err(fail_on(b"Memory", devices)),
    }
}

// Crosses a border. Returns false, since no line is served, or the status if that fails.
fn cross<R, W, F: Write>(
    is_on: bool,
    devices: &mut Devices<R, W, F, LiveStore<'_>>,
) -> Result<bool, u8>
    ensures ok { OnOk result (Leads (store_of devices.old.outputs.keeper)
        (store_of devices.new.outputs.keeper) (IsCrossed is_on)) }
    ensures run { IfOk result (λ is_run. is_run ≡ false) }
    ensures fault { IfErr result (λ code. code ≡ 111) }
{
    match devices.outputs.keeper.store.cross(is_on) {
        Ok(()) => Ok(false),
        Err(fault) => Err(fail_on(word_of(fault), devices)),
    }
}

// Serves the line of an undo or a redo in the present generation, and returns the status.
fn run_inside<'x, T: Threads + Wait + Sync, R: Read, W: Write, F: Write>(
    execution: &Execution<'x, '_, T>,
    way: Way,
    devices: &mut Devices<R, W, F, LiveStore<'x>>,
) -> u8
    requires reader { HasFailed devices.old.reader → ⊥ }
    requires writer { HasFailed devices.old.outputs.writer → ⊥ }
    ensures done { result ≡ 0 → NamesFile execution.now.opened.now.loaded →
        Leads (store_of devices.old.outputs.keeper) (store_of devices.new.outputs.keeper)
        (RunsInside way.is_on) }
    ensures halted { HasHalted result → NamesFile execution.now.opened.now.loaded →
        Leads (store_of devices.old.outputs.keeper) (store_of devices.new.outputs.keeper)
        (StepEndsBy result way.is_on) }
{
    let Ok(history) = Vec::from_slice(execution.rt.alloc(), history_in(devices)) else {
        return fail_on(b"Memory", devices);
    };
    match devices.outputs.keeper.store.begin_way() {
        Ok(()) => {
            let code = run_on(execution, way, &history, devices);
            drop(history);
            code
        }
        Err(fault) => {
            drop(history);
            fail_on(word_of(fault), devices)
        }
    }
}

// Serves the line of an undo or a redo on the texts of the present generation of this history, in
// which its session is then kept. Returns the status.
fn run_on<'x, T: Threads + Wait + Sync, R: Read, W: Write, F: Write>(
    execution: &Execution<'x, '_, T>,
    way: Way,
    history: &[u8],
    devices: &mut Devices<R, W, F, LiveStore<'x>>,
) -> u8
    requires reader { HasFailed devices.old.reader → ⊥ }
    requires writer { HasFailed devices.old.outputs.writer → ⊥ }
    ensures done { result ≡ 0 → NamesFile execution.now.opened.now.loaded →
        LeadsOn history.now (store_of devices.new.outputs.keeper) (RunsInside way.is_on) }
    ensures halted { HasHalted result → NamesFile execution.now.opened.now.loaded →
        KeepsIn history.now (store_of devices.old.outputs.keeper) →
        LeadsOn history.now (store_of devices.new.outputs.keeper) (StepEndsBy result way.is_on) }
{
    let Ok(present) = present_of(execution.rt.alloc(), history) else {
        return fail_on(b"Memory", devices);
    };
    let once = way.line();
    let (service, live) = (Service::Line(&once), LiveFile::Text(present.session));
    let code = serve_on(execution, service, present.database, live, devices);
    drop(once);
    if devices.outputs.keeper.store.was_led_from(history) {
        code
    } else {
        fail_on(b"Strange", devices)
    }
}

/// Returns the text of the history that is kept, or an empty text if there is none.
pub(crate) fn history_in<'d, R, W, F>(devices: &'d Devices<R, W, F, LiveStore<'_>>) -> &'d [u8]
    ensures { (bytes : List ℕ) → history_held (store_of devices.now.outputs.keeper) ≡ Some bytes
        → result.now ≡ bytes }
{
    devices.outputs.keeper.store.history().unwrap_or(&[])
}
