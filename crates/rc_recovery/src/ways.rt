//! What was under way when a command was cut short, and the ends that are logged of it.
ghost use Rattle.std.specs.Prelude.{◌≡◌, ◌⊎◌, ◌++◌, ◌∷◌, ℕ, List, [], false, IfOk, OnOk};
ghost use Rattle.std.specs.Prelude.{IsErrOf, MatchBool, slice_index_or};
ghost use Rattle.rc_model.specs.declared.Event.{Event};
ghost use Rattle.rc_script.specs.RunLines.{IsEventLine};
ghost use Rattle.rc_recovery.specs.Files.{AfterCrash, Append, Files, after};
ghost use Rattle.rc_recovery.specs.Logged.{AreLogged};
ghost use Rattle.rc_recovery.specs.RunLog.{EndsWhole};
ghost use Rattle.rc_recovery.specs.UnderWay.{AreUnderWay, MayLog, end_of, unended, with_taken};

use crate::ends::has_end;
use crate::logged::logged_events;
use crate::two_files::{FileFault, TwoFiles};
use rc_core::{Event, Outcome};
use rc_db::Db;
use rc_livetext::{LiveFault, read_live};
use rc_names::Names;
use rc_script::event_line;
use rc_session::NoMem;
use rc_set::Set;
use std::alloc::{AllocError, Global};

/// A transition that was under way when a command was cut short: a worker began it, and was not
/// seen to end it.
#[derive(Clone, Copy, PartialEq, Eq, Debug)]
pub struct UnderWay {
    pub worker: u8,
    pub service: u16,
    /// Whether the service was up before it.
    pub was_up: bool,
}

/// Returns the transitions that the run log of a text leaves under way. Returns none if the log
/// ends in a part of a line, since nothing can be appended to it, or if the text is not that of a
/// session on the database.
///
/// Time grows with the takes times the events.
pub fn under_way(alloc: Global, db: &Db, text: &[u8], log: &[u8]) -> Result<Vec<UnderWay>, NoMem>
    ensures { IfOk result (λ found. AreUnderWay db.now text.now log.now found.items) }
{
    if !ends_whole(log) {
        return Ok(Vec::new(alloc));
    }
    let line = match read_live(alloc, text, db) {
        Ok((line, _)) => line,
        Err(LiveFault::Memory) => return Err(AllocError),
        Err(_) => return Ok(Vec::new(alloc)),
    };
    let found = logged_under_way(alloc, db.names(), line.live(), text, log);
    drop(line);
    found
}

/// Returns true if bytes end with a newline, or there are none.
fn ends_whole(bytes: &[u8]) -> bool
    ensures { MatchBool result (EndsWhole bytes.now) (EndsWhole bytes.now → ⊥) }
{
    match bytes.split_last() {
        Some((last, _)) => *last == b'\n',
        None => true,
    }
}

/// Returns the transitions under way by the events of a log, where the given services were live
/// before.
fn logged_under_way(
    alloc: Global,
    names: &Names,
    live: &Set,
    text: &[u8],
    log: &[u8],
) -> Result<Vec<UnderWay>, NoMem>
    ensures { IfOk result (λ found. (events : List Event)
        × AreLogged names.now text.now log.now events
        × (found.items ≡ unended live.now events)) }
{
    let events = logged_events(alloc, names, text, log)?;
    let found = unended(alloc, live, &events);
    drop(events);
    found
}

/// Returns the transitions that events begin and do not end.
fn unended(alloc: Global, live: &Set, logged: &[Event]) -> Result<Vec<UnderWay>, NoMem>
    ensures { IfOk result (λ found. found.items ≡ unended live.now logged.now) }
{
    let mut found = Vec::new(alloc);
    for event in logged {
        add_taken(&mut found, live, logged, *event)?;
    }
    Ok(found)
}

/// Adds the transition that an event begins, if no event ends it.
fn add_taken(
    found: &mut Vec<UnderWay>,
    live: &Set,
    logged: &[Event],
    event: Event,
) -> Result<(), NoMem>
    ensures { OnOk result (found.new.items
        ≡ with_taken live.now logged.now found.old.items event) }
{
    let Event::Take(worker, service) = event else {
        return Ok(());
    };
    if has_end(logged, worker, service) {
        return Ok(());
    }
    let was_up = is_live(live, service);
    Ok(found.push(UnderWay {
        worker,
        service,
        was_up,
    })?)
}

/// Returns true if a service is in a set.
fn is_live(live: &Set, service: u16) -> bool
    ensures { result ≡ slice_index_or live.now service false }
{
    service < live.bound() && live.contains(service)
}

/// Appends to a log that a transition under way has come to its end. Returns false if no line can
/// state that, because the service has no name; then nothing is written.
pub fn log_end<F: TwoFiles>(
    alloc: Global,
    names: &Names,
    files: &mut F,
    ended: UnderWay,
) -> Result<bool, FileFault>
    ensures done { IfOk result (λ logged. MatchBool logged ((line : List ℕ)
        × IsEventLine names.now (end_of ended) line
        × (F.holds files.new ≡ after (F.holds files.old) (Append line)))
        (F.holds files.new ≡ F.holds files.old)) }
    ensures moment { MayLog names.now (end_of ended) (F.holds files.old) (F.holds files.new)
        ⊎ (F.holds files.new ≡ F.holds files.old) }
    ensures crash { (g : Files) → F.left files.new g →
        F.left files.old g ⊎ MayLog names.now (end_of ended) (F.holds files.old) g }
    ensures io { IsErrOf result FileFault.Io → F.failed files.new }
{
    let event = Event::Done(ended.worker, ended.service, Outcome::Ok);
    let line = match event_line(alloc, names, event) {
        Ok(Some(line)) => line,
        Ok(None) => return Ok(false),
        Err(_) => return Err(FileFault::Memory),
    };
    let written = files.append_log(line.as_bytes());
    drop(line);
    match written {
        Ok(()) => Ok(true),
        Err(fault) => Err(fault),
    }
}
