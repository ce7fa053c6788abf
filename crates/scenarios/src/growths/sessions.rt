//! Sessions that begin.

ghost use Rattle.std.specs.Prelude.{◌≡◌, false, IfOk};
ghost use Rattle.rc_model.specs.Session.{IsLineOf};

use crate::growths::told::show_end;
use rc_db::Db;
use rc_line::Line;
use rc_livetext::{read_live, write_live};
use rc_session::Session;
use rc_set::NoMem;
use std::alloc::{AllocError, AllocGlobal, Global};
use std::io;
use std::io::Print;

/// Begins a session over a database, and prints the result. Its journal has at most so many states,
/// or the usual number if that is 0.
pub fn show_begun(
    rt: &(impl Print + AllocGlobal),
    what: &str,
    db: Db,
    bound: u32,
) -> io::Result<()> {
    let _ = print!(rt; "{what}: ");
    match begun(rt.alloc(), db, bound) {
        Ok(is_right) => show_end(rt, Ok(()), is_right),
        Err(short) => show_end(rt, Err(short), true),
    }
}

/// Returns true if a session begins on its first state, within its bound.
fn begun(alloc: Global, db: Db, bound: u32) -> Result<bool, NoMem> {
    if bound < 3 {
        let session = Session::new(alloc, db)?;
        return Ok(is_fresh(&session, 1024));
    }
    let session = Session::with_bound(alloc, db, bound)?;
    Ok(is_fresh(&session, bound))
}

fn is_fresh(session: &Session, bound: u32) -> bool {
    let journal = session.journal();
    journal.states() == 1 && journal.bound() == bound && session.live().is_empty()
}

/// Resumes the line of a session over an equal database, and prints the result.
pub fn show_resumed(
    rt: &(impl Print + AllocGlobal),
    what: &str,
    db: Db,
    session: &Session,
) -> io::Result<()>
    requires { session.now.begun ≡ false }
{
    match line_of(rt.alloc(), session, &db) {
        Ok(line) => {
            let _ = print!(rt; "{what}: ");
            let came = resumed(db, line);
            show_end(rt, came, true)
        }
        Err(short) => {
            drop(db);
            Err(io::Error::from(short))
        }
    }
}

/// Returns the line of a session, for a database.
fn line_of(alloc: Global, session: &Session, db: &Db) -> Result<Line, NoMem>
    requires { session.now.begun ≡ false }
    ensures { IfOk result (λ line. IsLineOf db.now line.line × (line.is_open ≡ false)) }
{
    let text = write_live(alloc, session)?;
    let read = read_live(alloc, &text, db);
    drop(text);
    match read {
        Ok((line, _)) => Ok(line),
        Err(_) => Err(AllocError),
    }
}

/// Resumes a session with a line. Fails unless the session has the states of the line.
fn resumed(db: Db, line: Line) -> Result<(), NoMem>
    requires { IsLineOf db line.line × (line.is_open ≡ false) }
{
    let states = line.states();
    let session = Session::resume(db, line)?;
    let is_right = session.journal().states() == states;
    drop(session);
    if is_right { Ok(()) } else { Err(AllocError) }
}
