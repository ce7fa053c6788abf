//! A session of one line, over a reader and a writer in memory, or a line by itself; a gate that
//! starts programs; and the lock of a session's file.

ghost use Rattle.std.specs.Prelude.{◌≡◌, false};

use crate::growths::devices::Due;
use rc_board::{Executor, Fault, Gate};
use rc_db::Db;
use rc_runner::{ShellGate, StepClock, TableGate, Telling};
use rc_script::SessionLine;
use rc_serve::{Ending, ServeFault, Unkept, answer_once, serve, show_redo, show_undo};
use rc_session::{Command, Refusal, Session};
use rc_set::NoMem;
use rc_streams::Noted;
use rc_streams::live_lock::{LiveLock, LockFault};
use rc_streams::messages::Messages;
use rc_streams::run_file::{Room, RunFile};
use std::alloc::{AllocError, AllocGlobal};
use std::io::ErrorKind;
use std::sync::Wait;
use std::thread::Threads;

/// The line that is read.
const LINE: &[u8] = b"-u change site\n";

/// What is served.
#[derive(Clone, Copy)]
pub(crate) enum Serving {
    /// An input of one line, by so many workers.
    Input(u8),
    /// An undo.
    Once,
    /// What an undo would move.
    ShowUndo,
    /// What a redo would move.
    ShowRedo,
}

/// Returns the text that is due.
fn answer_of(serving: Serving) -> &'static str {
    match serving {
        Serving::Input(_) => "raised db log net root web\nok\n",
        Serving::Once => "lowered db log net root web\nok\n",
        Serving::ShowUndo => "lower db log net root web\nok\n",
        Serving::ShowRedo => "raise db log net root web\nok\n",
    }
}

/// The milliseconds within which a gate is made.
const MOST: u64 = 60_000;

/// Serves a session, and checks that the answer is whole.
pub(crate) fn served<R: AllocGlobal + Threads + Wait + Sync>(
    rt: &R,
    session: &mut Session,
    serving: Serving,
) -> Result<(), Fault>
    requires { session.old.begun ≡ false }
    ensures { session.new.begun ≡ false }
{
    let mut due = Due::new(answer_of(serving));
    let ended = ended(rt, session, serving, &mut due);
    let is_whole = due.is_whole();
    drop(due);
    match ended {
        Ok(_) if is_whole => Ok(()),
        Err(ServeFault::Memory) => Err(Fault::Refused(Refusal::Memory)),
        Err(ServeFault::NoThread) => Err(Fault::NoThread),
        Err(ServeFault::Workers) => Err(Fault::Workers),
        _ => Err(Fault::Strange),
    }
}

fn ended<R: AllocGlobal + Threads + Wait + Sync>(
    rt: &R,
    session: &mut Session,
    serving: Serving,
    due: &mut Due,
) -> Result<Ending, ServeFault>
    requires { session.old.begun ≡ false }
    ensures { session.new.begun ≡ false }
{
    match serving {
        Serving::Input(workers) => input_ended(rt, session, workers, due),
        Serving::Once => once_ended(rt, session, due),
        Serving::ShowUndo => show_undo(rt.alloc(), session, &mut Noted::new(due)),
        Serving::ShowRedo => show_redo(rt.alloc(), session, &mut Noted::new(due)),
    }
}

fn input_ended<R: AllocGlobal + Threads + Wait + Sync>(
    rt: &R,
    session: &mut Session,
    workers: u8,
    due: &mut Due,
) -> Result<Ending, ServeFault>
    requires { session.old.begun ≡ false }
    ensures { session.new.begun ≡ false }
{
    let alloc = rt.alloc();
    let gate = TableGate::new(Vec::new(alloc), StepClock::new(Vec::new(alloc)));
    let mut reader = Noted::new(LINE);
    let mut writer = Noted::new(due);
    let ended = serve(rt, alloc, &mut reader, &mut writer, session, &gate, workers);
    drop(gate);
    match ended {
        Ok(()) => Ok(Ending::Done),
        Err(fault) => Err(fault),
    }
}

/// Carries an undo out by one worker, and returns how that ended.
fn once_ended<R: AllocGlobal + Threads + Wait + Sync>(
    rt: &R,
    session: &mut Session,
    due: &mut Due,
) -> Result<Ending, ServeFault>
    requires { session.old.begun ≡ false }
    ensures { session.new.begun ≡ false }
{
    let alloc = rt.alloc();
    let gate = TableGate::new(Vec::new(alloc), StepClock::new(Vec::new(alloc)));
    let said = SessionLine::Command(Command::Undo(0));
    let mut writer = Noted::new(due);
    let mut keeper = Unkept;
    let executor = Executor {
        rt,
        alloc,
        gate: &gate,
        workers: 1,
    };
    let ended = answer_once(&executor, session, &mut keeper, &said, &mut writer);
    drop(executor);
    drop((gate, said));
    ended
}

/// Returns true if a gate for a database is made, which logs its runs, and its clock starts then.
pub(crate) fn is_gate(rt: &HostRuntime, db: &Db, words: &[String]) -> Result<bool, NoMem> {
    let log = Messages(rt);
    let gate = ShellGate::new(rt, rt.alloc(), db, words, words)?
        .with_limit(7)
        .with_log(&log);
    // The log is opened between the two parts, where no growth is refused.
    let _ = print!(rt; "done; ");
    match RunFile::open(rt, "live", Room::of(0, 0)) {
        Ok(file) => {
            let is_logging = is_logging(rt, db, gate, &file);
            drop(file);
            is_logging
        }
        Err(_) => {
            drop(gate);
            Ok(false)
        }
    }
}

fn is_logging(
    rt: &HostRuntime,
    db: &Db,
    gate: ShellGate<'_, HostRuntime, Messages<&HostRuntime>>,
    file: &RunFile,
) -> Result<bool, NoMem> {
    let _ = print!(rt; "with_run_log: ");
    let gate = gate.with_run_log(file, db, false)?;
    let is_new = gate.now() < MOST;
    drop(gate);
    Ok(is_new)
}

/// Returns true if a gate that reports outcomes answers by the clock of its inner gate.
pub(crate) fn is_telling(rt: &HostRuntime, db: &Db) -> Result<bool, NoMem> {
    let log = Messages(rt);
    let alloc = rt.alloc();
    let inner = TableGate::new(Vec::new(alloc), StepClock::new(Vec::new(alloc)));
    let gate = Telling::new(rt, &log, alloc, db, inner, None)?;
    let is_new = gate.now() == 0;
    drop(gate);
    Ok(is_new)
}

/// Returns true if a file in which no session is kept yet can be locked.
pub(crate) fn is_locked(rt: &HostRuntime) -> Result<bool, NoMem> {
    match LiveLock::take(rt, "live", false, false) {
        Ok(lock) => {
            let is_locked = lock.is_some();
            drop(lock);
            Ok(is_locked)
        }
        Err(LockFault::Failed(error)) if error.kind() == ErrorKind::OutOfMemory => Err(AllocError),
        Err(_) => Ok(false),
    }
}
