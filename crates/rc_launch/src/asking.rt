//! What became of the transitions that were under way when a command was cut short. Waits for their
//! programs, asks the controller, and logs the end of each transition that has come to it.
ghost use Rattle.std.specs.Prelude.{◌≡◌, IfOk};
ghost use Rattle.rc_launch.specs.Asking.{has_ended};

use crate::fault::OpenFault;
use crate::held_files::HeldFiles;
use crate::left_programs::await_left;
use crate::loading::Loaded;
use crate::texts::{LogText, ReadFiles};
use rc_cli::controller_of;
use rc_db::Db;
use rc_dbtext::{TextFault, database_of};
use rc_names::{Names, NoMem};
use rc_recovery::{FileFault, UnderWay, log_end, under_way};
use rc_runner::{Found, ask, question_for};
use std::alloc::AllocError;

/// Waits until no program of a command that was cut short runs. Then logs the end of each
/// transition that was under way and that has come to its end, by what the controller of a command
/// says. Returns what the two files hold after that. A command without a controller asks nothing.
///
/// An end that can't be logged is not known.
pub(crate) fn ask_first<'a>(
    rt: &HostRuntime,
    loaded: &Loaded<'_>,
    read: ReadFiles<'a>,
) -> Result<ReadFiles<'a>, OpenFault<'a>>
    ensures { IfOk result (λ now. now.logged.path ≡ read.entry.logged.path) }
{
    let path = read.path();
    match asks(rt, loaded, &read) {
        Ok(false) => Ok(read),
        Ok(true) => {
            drop(read);
            read_anew(rt, path)
        }
        Err(_) => {
            drop(read);
            Err(OpenFault::Memory)
        }
    }
}

// Reads the two files of a session again.
fn read_anew<'a>(rt: &HostRuntime, path: &'a str) -> Result<ReadFiles<'a>, OpenFault<'a>>
    ensures { IfOk result (λ now. now.logged.path ≡ path.entry) }
{
    match LogText::read(rt, path) {
        Ok(log) => ReadFiles::read(rt, log),
        Err(fault) => Err(fault),
    }
}

// Asks about what a log leaves under way. Returns true if anything was written to the log.
fn asks(rt: &HostRuntime, loaded: &Loaded<'_>, read: &ReadFiles<'_>) -> Result<bool, NoMem> {
    let Some(base) = &loaded.base else {
        return Ok(false);
    };
    if !read.is_cut() {
        return Ok(false);
    }
    let controller = controller_of(rt.alloc(), &loaded.session().making)?;
    let asked = asks_by(rt, base.bytes(), read, &controller);
    drop(controller);
    asked
}

// Asks about what is under way by the text of a database. If that is none, the recovery says so.
fn asks_by(
    rt: &HostRuntime,
    base: &[u8],
    read: &ReadFiles<'_>,
    controller: &[String],
) -> Result<bool, NoMem> {
    let db = match database_of(rt.alloc(), Some(base), &[]) {
        Ok((db, _none)) => db,
        Err(TextFault::Memory) => return Err(AllocError),
        Err(_) => return Ok(false),
    };
    let logged = asks_on(rt, &db, read, controller);
    drop(db);
    logged
}

// Asks about what is under way on a database.
fn asks_on(
    rt: &HostRuntime,
    db: &Db,
    read: &ReadFiles<'_>,
    controller: &[String],
) -> Result<bool, NoMem> {
    let begun = under_way(rt.alloc(), db, read.text(), read.log())?;
    if let Err(fault) = await_left(rt, db.names(), read.log(), &begun) {
        drop(begun);
        return Err(fault);
    }
    let ended = ended_of(rt, db, controller, &begun);
    drop(begun);
    let ended = ended?;
    let logged = log_ends(rt, db.names(), read, &ended);
    drop(ended);
    logged
}

// Returns the transitions that have come to their end, of those that were under way.
fn ended_of(
    rt: &HostRuntime,
    db: &Db,
    controller: &[String],
    begun: &[UnderWay],
) -> Result<Vec<UnderWay>, NoMem> {
    let mut ended = Vec::new(rt.alloc());
    for way in begun {
        if has_ended(way, found_of(rt, db, controller, way.service)) {
            ended.push(*way)?;
        }
    }
    Ok(ended)
}

// Returns true if a transition has come to its end, by where its service was found: it was up and
// is down, or it was down and is up.
fn has_ended(way: &UnderWay, found: Found) -> bool
    ensures { result ≡ has_ended way.now found }
{
    match found {
        Found::Up => !way.was_up,
        Found::Down => way.was_up,
        Found::Unknown => false,
    }
}

// Asks the controller where a service stands.
fn found_of(rt: &HostRuntime, db: &Db, controller: &[String], service: u16) -> Found {
    let names = db.names();
    if service >= names.len() {
        return Found::Unknown;
    }
    let name = names.name_of(service).text();
    match question_for(db.service(service).kind) {
        Some(question) => ask(rt, rt.alloc(), controller, question, name),
        None => Found::Unknown,
    }
}

// Logs that these transitions have come to their end. Returns true if anything was written.
fn log_ends(
    rt: &HostRuntime,
    names: &Names,
    read: &ReadFiles<'_>,
    ended: &[UnderWay],
) -> Result<bool, NoMem> {
    if ended.is_empty() {
        return Ok(false);
    }
    let mut held = HeldFiles::new(rt, read)?;
    let logged = log_each(rt, names, &mut held, ended);
    drop(held);
    logged
}

// Logs these ends one after the other, up to the first that can't be logged.
fn log_each(
    rt: &HostRuntime,
    names: &Names,
    held: &mut HeldFiles<'_>,
    ended: &[UnderWay],
) -> Result<bool, NoMem> {
    for way in ended {
        match log_end(rt.alloc(), names, held, *way) {
            Ok(_) => {}
            Err(FileFault::Memory) => return Err(AllocError),
            Err(FileFault::Io) => return Ok(true),
        }
    }
    Ok(true)
}
