//! An undo that goes back to a state of the journal, by one undo after the other.
ghost use Rattle.std.specs.Prelude.{◌≡◌, List, ℕ, None, Some, false, IfOk, IfSome};
ghost use Rattle.std.specs.Borrow.{Bor};
ghost use Rattle.rc_streams.specs.Noting.{HasFailed};
ghost use Rattle.rc_cli.specs.Storing.{store_of};
ghost use Rattle.rc_historytext.specs.Halting.{Halts};
ghost use Rattle.rc_historytext.specs.Travelling.{Travels};
ghost use Rattle.rc_launch.specs.Halted.{HasHalted, IsRefusedOn};
ghost use Rattle.rc_launch.specs.HeldHistory.{Leads, history_held};
ghost use Rattle.rc_launch.specs.Loading.{NamesFile, session_in};
ghost use Rattle.rc_launch.specs.Readable.{AreRead, AreRefused, IsOpenedRead, IsPresentRead};
ghost use Rattle.rc_launch.specs.Readable.{IsUnreadFault};
ghost use Rattle.rc_launch.specs.Back.{ArrivesBy, ComesBackTo, CountsBack, StopsBack, StopsBefore};
ghost use Rattle.rc_launch.specs.Back.{UndoesTo, is_stop, steps_by};

use crate::controllers::uncontrolled_back;
use crate::execution::Execution;
use crate::live_store::LiveStore;
use crate::loading::bytes_of;
use crate::numbers::{GenerationFault, Numbered, numbered_of};
use crate::outcomes::{fail_on, hindered, say_done, tell_refused, tell_unkept, tell_untold};
use crate::serving::read_of;
use crate::travel::{Way, history_in, travel};
use rc_args::SessionRequest;
use rc_cli::sessions::{Devices, LiveFile, SessionFault, begin, spelled};
use rc_historytext::present_of;
use rc_serve::ServeFault;
use rc_streams::Failure;
use rc_streams::ending::{DONE, FAILED};
use std::alloc::Global;
use std::io::{Read, Write};
use std::sync::Wait;
use std::thread::Threads;

/// The state to which an undo goes back, and the limit of each of its runs in milliseconds, or 0 if
/// it has none.
#[derive(Clone, Copy)]
pub(crate) struct Aim {
    pub state: u32,
    pub limit: u32,
}

/// Goes back to a state of the journal, and returns the status. Nothing moves if an undo would not
/// stop there.
pub(crate) fn go_back<'x, T: Threads + Wait + Sync, R: Read, W: Write, F: Write>(
    execution: &Execution<'x, '_, T>,
    aim: Aim,
    devices: &mut Devices<R, W, F, LiveStore<'x>>,
) -> u8
    ensures done { result ≡ 0 → NamesFile execution.now.opened.now.loaded →
        Leads (store_of devices.old.outputs.keeper) (store_of devices.new.outputs.keeper)
        (ComesBackTo aim.state) }
    ensures refused { result ≡ 1 → NamesFile execution.now.opened.now.loaded →
        Leads (store_of devices.old.outputs.keeper) (store_of devices.new.outputs.keeper)
        (IsRefusedOn false) }
    ensures stopped { result ≡ 2 → NamesFile execution.now.opened.now.loaded →
        Leads (store_of devices.old.outputs.keeper) (store_of devices.new.outputs.keeper)
        (StopsBack aim.state) }
    ensures bare { result ≡ 0 → history_held (store_of devices.old.outputs.keeper) ≡ None →
        (aim.state ≡ 0) × IsOpenedRead execution.now.opened.now }
    ensures read { result ≡ 0 → (bytes : List ℕ) →
        history_held (store_of devices.old.outputs.keeper) ≡ Some bytes →
        IsPresentRead (session_in execution.now.opened.now.loaded) bytes }
{
    match unread(execution, devices.outputs.keeper.store.history()) {
        Some(fault) => tell_refused(execution.rt.alloc(), fault, devices),
        None => match devices.outputs.keeper.store.history() {
            Some(_) => go_back_on(execution, aim, devices),
            None if aim.state == 0 => say_done(b"ok\n", devices),
            None => tell_unkept(execution.rt.alloc(), aim.state, devices),
        },
    }
}

/// Returns why the texts of a session and of its database are refused, if they are: those of the
/// present generation of a history, or, where there is none, those that were read.
pub(crate) fn unread<'f, T>(
    execution: &Execution<'_, '_, T>,
    history: Option<&[u8]>,
) -> Option<SessionFault<'f>>
    ensures bare { history.entry ≡ None → result ≡ None →
        IsOpenedRead execution.now.opened.now }
    ensures read { (bytes : Bor (List ℕ)) → history.entry ≡ Some bytes → result ≡ None →
        IsPresentRead (session_in execution.now.opened.now.loaded) bytes.now }
    ensures refused { (bytes : Bor (List ℕ)) → history.entry ≡ Some bytes →
        IfSome result (IsUnreadFault (session_in execution.now.opened.now.loaded) bytes.now) }
{
    let (alloc, opened) = (execution.rt.alloc(), execution.opened);
    let Some(history) = history else {
        let base = bytes_of(&opened.loaded.base);
        return unread_texts(alloc, opened.session(), base, read_of(opened));
    };
    match present_of(alloc, history) {
        Ok(present) => {
            let live = LiveFile::Text(present.session);
            unread_texts(alloc, opened.session(), present.database, live)
        }
        Err(_) => Some(SessionFault::Failed(ServeFault::Memory)),
    }
}

// Returns why the text of a database or that of a session of it is refused, if one is.
fn unread_texts<'f>(
    alloc: Global,
    request: &SessionRequest<'_>,
    base: &[u8],
    live: LiveFile<'_>,
) -> Option<SessionFault<'f>>
    ensures read { result ≡ None → AreRead base.now request.now live.entry }
    ensures refused { IfSome result (AreRefused base.now request.now live.entry) }
{
    let db = match spelled(alloc, Some(base), &[]) {
        Ok((db, _none)) => db,
        Err(fault) => return Some(fault),
    };
    match begin(alloc, db, request, live) {
        Ok(session) => {
            drop(session);
            None
        }
        Err(fault) => Some(fault),
    }
}

// Goes back to a state of the history that is kept, and returns the status.
fn go_back_on<'x, T: Threads + Wait + Sync, R: Read, W: Write, F: Write>(
    execution: &Execution<'x, '_, T>,
    aim: Aim,
    devices: &mut Devices<R, W, F, LiveStore<'x>>,
) -> u8
    ensures done { result ≡ 0 → NamesFile execution.now.opened.now.loaded →
        Leads (store_of devices.old.outputs.keeper) (store_of devices.new.outputs.keeper)
        (ComesBackTo aim.state) }
    ensures refused { result ≡ 1 → NamesFile execution.now.opened.now.loaded →
        Leads (store_of devices.old.outputs.keeper) (store_of devices.new.outputs.keeper)
        (IsRefusedOn false) }
    ensures stopped { result ≡ 2 → NamesFile execution.now.opened.now.loaded →
        Leads (store_of devices.old.outputs.keeper) (store_of devices.new.outputs.keeper)
        (StopsBack aim.state) }
{
    let alloc = execution.rt.alloc();
    match steps_back(alloc, history_in(devices), aim.state) {
        Ok(Some(steps)) if steps == 0 => say_done(b"ok\n", devices),
        Ok(Some(steps)) => arrive(execution, aim, steps, devices),
        Ok(None) => tell_unkept(alloc, aim.state, devices),
        Err(fault) => tell_untold(alloc, fault, devices),
    }
}

// Undoes so many times, unless that would move a longrun that no program controls. Tests whether it
// has led to a state, and returns the status.
fn arrive<'x, T: Threads + Wait + Sync, R: Read, W: Write, F: Write>(
    execution: &Execution<'x, '_, T>,
    aim: Aim,
    steps: usize,
    devices: &mut Devices<R, W, F, LiveStore<'x>>,
) -> u8
    ensures done { result ≡ 0 → NamesFile execution.now.opened.now.loaded →
        Leads (store_of devices.old.outputs.keeper) (store_of devices.new.outputs.keeper)
        (ArrivesBy aim.state steps) }
    ensures refused { result ≡ 1 → NamesFile execution.now.opened.now.loaded →
        Leads (store_of devices.old.outputs.keeper) (store_of devices.new.outputs.keeper)
        (IsRefusedOn false) }
    ensures stopped { result ≡ 2 → NamesFile execution.now.opened.now.loaded →
        Leads (store_of devices.old.outputs.keeper) (store_of devices.new.outputs.keeper)
        (StopsBefore steps) }
{
    let (alloc, request) = (execution.rt.alloc(), execution.opened.session());
    match uncontrolled_back(alloc, request, history_in(devices), aim.state as usize) {
        Ok(None) => {}
        Ok(Some(name)) => {
            return tell_refused(alloc, SessionFault::NoController(name), devices);
        }
        Err(_) => return fail_on(b"Memory", devices),
    }
    match undo_times(execution, aim.limit, steps, devices) {
        DONE => {}
        code => return code,
    }
    match steps_back(alloc, history_in(devices), aim.state) {
        Ok(Some(left)) if left == 0 => DONE,
        _ => fail_on(b"Strange", devices),
    }
}

// Undoes so many times, until an undo is not done, and returns the status.
fn undo_times<'x, T: Threads + Wait + Sync, R: Read, W: Write, F: Write>(
    execution: &Execution<'x, '_, T>,
    limit: u32,
    steps: usize,
    devices: &mut Devices<R, W, F, LiveStore<'x>>,
) -> u8
    ensures done { result ≡ 0 → NamesFile execution.now.opened.now.loaded →
        Leads (store_of devices.old.outputs.keeper) (store_of devices.new.outputs.keeper)
        (UndoesTo steps) }
    ensures refused { result ≡ 1 → NamesFile execution.now.opened.now.loaded →
        Leads (store_of devices.old.outputs.keeper) (store_of devices.new.outputs.keeper)
        (IsRefusedOn false) }
    ensures stopped { result ≡ 2 → NamesFile execution.now.opened.now.loaded →
        Leads (store_of devices.old.outputs.keeper) (store_of devices.new.outputs.keeper)
        (StopsBefore steps) }
{
    for done in 0..steps {
        match undo_once(execution, limit, devices) {
            DONE => {}
            code => return if done == 0 { code } else { hindered(code) },
        }
    }
    DONE
}

// Undoes once, and returns the status.
fn undo_once<'x, T: Threads + Wait + Sync, R: Read, W: Write, F: Write>(
    execution: &Execution<'x, '_, T>,
    limit: u32,
    devices: &mut Devices<R, W, F, LiveStore<'x>>,
) -> u8
    ensures done { result ≡ 0 → NamesFile execution.now.opened.now.loaded →
        Leads (store_of devices.old.outputs.keeper) (store_of devices.new.outputs.keeper)
        (Travels false) }
    ensures halted { HasHalted result → NamesFile execution.now.opened.now.loaded →
        Leads (store_of devices.old.outputs.keeper) (store_of devices.new.outputs.keeper)
        (Halts false) }
    ensures refused { result ≡ 1 → NamesFile execution.now.opened.now.loaded →
        Leads (store_of devices.old.outputs.keeper) (store_of devices.new.outputs.keeper)
        (IsRefusedOn false) }
{
    if devices.reader.failed() || devices.outputs.writer.failed() {
        return FAILED;
    }
    let way = Way {
        is_on: false,
        limit,
    };
    travel(execution, way, devices)
}

// Returns how many undos lead from where a history stands back to a state, or none if an undo would
// not stop there.
fn steps_back(alloc: Global, history: &[u8], state: u32) -> Result<Option<usize>, GenerationFault>
    ensures { IfOk result (CountsBack state history.now) }
{
    match numbered_of(alloc, history) {
        Ok(numbered) => {
            let steps = steps_by(&numbered, state as usize);
            drop(numbered);
            Ok(steps)
        }
        Err(fault) => Err(fault),
    }
}

// Returns how many undos lead back to a state, or none if an undo would not stop there.
fn steps_by(numbered: &Numbered, state: usize) -> Option<usize>
    ensures { result ≡ steps_by state numbered.now.at numbered.now.marks.items }
{
    let (at, marks) = (numbered.at, &numbered.marks);
    if at == state {
        return Some(0);
    }
    if at < state || !is_stop(marks, state) {
        return None;
    }
    let mut steps = 0;
    for count in 0..at - state {
        if is_stop(marks, state + count) {
            steps += 1;
        }
    }
    Some(steps)
}

// Returns true if an undo stops at a state.
fn is_stop(marks: &[bool], state: usize) -> bool
    ensures { result ≡ is_stop marks.now state }
{
    state == 0 || !marks.get(state).copied().unwrap_or(false)
}
