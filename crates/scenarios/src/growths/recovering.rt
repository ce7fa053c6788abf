//! Recovery of a change that was cut short, from its run log.

ghost use Rattle.std.specs.Prelude.{◌≡◌, false};

use crate::growths::told::{came_of, go_on_to, show_came, show_same};
use crate::samples::MemoryFiles;
use rc_db::Db;
use rc_livetext::write_live;
use rc_recovery::{
    FilesFault, RecoverFault, Recovered, begin_log, logged_events, recover_files, recover_text,
};
use rc_session::Session;
use rc_set::NoMem;
use std::alloc::{AllocError, AllocGlobal, Global};
use std::io;
use std::io::Print;

/// From what a session is recovered.
#[derive(Clone, Copy)]
pub enum Recovering {
    /// From the texts of its two files.
    Texts,
    /// From the files.
    Files,
}

/// What a run log has after the text from which the run began: a change, and that one service came
/// up.
const LOGGED: &[u8] = b"-t 5 -u change site\ntake 1 root\ndone 1 root ok\n";

/// More steps than the files are asked for.
const MOST_STEPS: usize = 1_000;

/// The report that the recovery returns.
const REPORT: &[u8] = b"raised root\nuntried db log net web\nok\n";

/// Recovers a change of a session, by its database, and prints whether the log is as it was.
pub fn show_recovered(
    rt: &(impl Print + AllocGlobal),
    what: &str,
    db: Db,
    session: &Session,
    recovering: Recovering,
) -> io::Result<()>
    requires { session.now.begun ≡ false }
{
    match files_of(rt.alloc(), session) {
        Ok(mut files) => {
            let shown = show_on(rt, what, db, &mut files, recovering);
            drop(files);
            shown
        }
        Err(short) => {
            drop(db);
            Err(io::Error::from(short))
        }
    }
}

/// Creates the file of a session, and the log of the change.
fn files_of(alloc: Global, session: &Session) -> Result<MemoryFiles, NoMem>
    requires { session.now.begun ≡ false }
{
    let file = write_live(alloc, session)?;
    let mut head = Vec::from_slice(alloc, &file)?;
    head.extend_from_slice(LOGGED)?;
    let mut files = MemoryFiles {
        alloc,
        file,
        log: Vec::new(alloc),
        steps: MOST_STEPS,
    };
    match begin_log(&mut files, &head) {
        Ok(()) => Ok(files),
        Err(_) => {
            drop(files);
            Err(AllocError)
        }
    }
}

fn show_on(
    rt: &(impl Print + AllocGlobal),
    what: &str,
    db: Db,
    files: &mut MemoryFiles,
    recovering: Recovering,
) -> io::Result<()> {
    let _ = print!(rt; "{what}: ");
    let is_right = match recovering {
        Recovering::Texts => is_by_texts(rt, db, files),
        Recovering::Files => is_by_files(rt.alloc(), db, files),
    };
    show_came(rt, came_of(is_right))?;
    show_same(rt, files.log.ends_with(LOGGED))
}

/// Returns true if the logged events are read, and the change is entered.
fn is_by_texts(
    rt: &(impl Print + AllocGlobal),
    db: Db,
    files: &MemoryFiles,
) -> Result<bool, NoMem> {
    match logged_events(rt.alloc(), db.names(), &files.file, &files.log) {
        Ok(events) => {
            go_on_to(rt, "recover_text");
            let made = recover_text(rt.alloc(), db, &files.file, &files.log);
            Ok(is_entered(made)? && events.len() == 2)
        }
        Err(short) => {
            drop(db);
            Err(short)
        }
    }
}

fn is_entered(made: Result<Option<Recovered>, RecoverFault>) -> Result<bool, NoMem> {
    match made {
        Ok(Some(made)) => Ok(made.report.as_slice() == REPORT),
        Ok(None) => Ok(false),
        Err(RecoverFault::Memory) => Err(AllocError),
        Err(RecoverFault::Log) => Ok(false),
    }
}

/// Returns true if the change is entered in the files.
fn is_by_files(alloc: Global, db: Db, files: &mut MemoryFiles) -> Result<bool, NoMem> {
    match recover_files(alloc, db, files) {
        Ok(Some(report)) => Ok(report.as_slice() == REPORT && files.log.is_empty()),
        Ok(None) => Ok(false),
        Err(FilesFault::Memory) => Err(AllocError),
        Err(_) => Ok(false),
    }
}
