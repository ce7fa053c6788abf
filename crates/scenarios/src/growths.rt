//! Calls that may want memory, and calls that take none, each made on values of its own. The output
//! names a call, `: `, and what it came to: between the two nothing else takes memory, so that a
//! library that is preloaded can count and refuse the growths of the calls alone.

ghost use Rattle.std.specs.Prelude.{◌≡◌, false};

mod asked;
mod begun;
mod calls;
mod devices;
mod lines;
mod made;
mod openings;
mod own;
mod pushed;
mod queries;
mod recovering;
mod rows;
mod serving;
mod sessions;
mod tables;
mod texts;
mod told;
mod trees;
mod values;
mod workers;

use crate::growths::asked::{show_asked, show_command};
use crate::growths::calls::{by_events, made};
use crate::growths::openings::show_opening;
use crate::growths::own::show_own;
use crate::growths::pushed::show_pushed;
use crate::growths::recovering::show_recovered;
use crate::growths::rows::{How, ROWS, Row, parts_of};
use crate::growths::sessions::{show_begun, show_resumed};
use crate::growths::tables::show_table;
use crate::growths::told::{show_came, show_line};
use crate::growths::trees::{show_compiled, show_tree};
use crate::samples::{is_same_line, sample, session_after, steps_of};
use rc_livetext::write_live;
use rc_session::{Session, Step};
use rc_set::NoMem;
use std::alloc::{AllocGlobal, Global};
use std::io;
use std::io::Print;
use std::sync::Wait;
use std::test::Fail;
use std::thread::Threads;
use std::time::Clock;

/// Makes the call of each row, and prints the results.
pub fn show_growths<R: Print + AllocGlobal + Threads + Wait + Clock + Sync>(
    rt: &R,
    host: &HostRuntime,
) -> Result<(), Fail> {
    for row in &ROWS {
        show_row(rt, host, row)?;
    }
    Ok(())
}

/// Makes the row's call on a session over the sample, and prints the result.
fn show_row<R: Print + AllocGlobal + Threads + Wait + Clock + Sync>(
    rt: &R,
    host: &HostRuntime,
    row: &Row,
) -> Result<(), Fail> {
    let (call, how) = *row;
    let (what, after, by) = parts_of(call);
    if let How::Session(bound) = how {
        return show_new(rt, what, bound);
    }
    let mut session = session_after(rt.alloc(), after)?;
    let shown = match how {
        How::Resume | How::Recovered(_) => show_goes_on(rt, &session, what, how),
        _ => show_on(rt, host, &mut session, row),
    };
    drop(session);
    shown
}

fn show_new(rt: &(impl Print + AllocGlobal), what: &str, bound: u32) -> Result<(), Fail> {
    let db = sample(rt.alloc())?;
    Ok(show_begun(rt, what, db, bound)?)
}

/// Resumes the session's line over a database, or recovers the session from its files, and prints
/// the result.
fn show_goes_on(
    rt: &(impl Print + AllocGlobal),
    session: &Session,
    what: &str,
    how: How,
) -> Result<(), Fail>
    requires { session.now.begun ≡ false }
{
    let db = sample(rt.alloc())?;
    let shown = match how {
        How::Recovered(way) => show_recovered(rt, what, db, session, way),
        _ => show_resumed(rt, what, db, session),
    };
    Ok(shown?)
}

/// Makes the row's call by the row's steps, and prints the result.
fn show_on<R: Print + AllocGlobal + Threads + Wait + Clock + Sync>(
    rt: &R,
    host: &HostRuntime,
    session: &mut Session,
    row: &Row,
) -> Result<(), Fail>
    requires { session.old.begun ≡ false }
{
    let (call, how) = *row;
    let (what, after, by) = parts_of(call);
    let steps = steps_of(rt.alloc(), by)?;
    let shown = match how {
        How::Table(_) | How::Push(_) | How::Own(_) | How::Alter(_) | How::Compile(..) => {
            Ok(show_apart(rt, session, what, how, steps.first())?)
        }
        How::Opening(opening) => {
            let graph = session.db().graph();
            Ok(show_opening(rt, graph, session.journal(), what, opening)?)
        }
        How::Command(command) => show_command(rt, what, &command),
        How::Asked(line) => show_asked(rt, what, line),
        _ => {
            show_call(rt, host, session, what, how, &steps)?;
            show_left(rt, session, after, by)
        }
    };
    drop(steps);
    shown
}

/// Makes the call on a value of its own, and prints the result.
fn show_apart(
    rt: &(impl Print + AllocGlobal),
    session: &Session,
    what: &str,
    how: How,
    step: Option<&Step>,
) -> io::Result<()> {
    match how {
        How::Table(given) => show_table(rt, session.db(), what, step, given),
        How::Push(pushed) => show_pushed(rt, session.db(), what, pushed),
        How::Own(given) => show_own(rt, what, given),
        How::Alter(altering) => show_tree(rt, what, altering),
        How::Compile(files, written, said) => show_compiled(rt, what, files, written, said),
        _ => show_line(rt, "no such call"),
    }
}

/// Makes the call, and prints its name and its result.
fn show_call<R: Print + AllocGlobal + Threads + Wait + Clock + Sync>(
    rt: &R,
    host: &HostRuntime,
    session: &mut Session,
    what: &str,
    how: How,
    steps: &[Step],
) -> io::Result<()>
    requires { session.old.begun ≡ false }
    ensures { session.new.begun ≡ false }
{
    let text = write_live(rt.alloc(), session)?;
    let _ = print!(rt; "{what}: ");
    let came = made(rt, host, session, how, steps, &text);
    drop(text);
    show_came(rt, came)
}

/// Prints what the session is in the end. Compares it with a session after the steps before the
/// call, and with one after the steps by which the call is made as well.
fn show_left(
    rt: &(impl Print + AllocGlobal),
    session: &mut Session,
    after: &str,
    by: &str,
) -> Result<(), Fail>
    requires { session.old.begun ≡ false }
{
    if is_left_so(rt.alloc(), session, after)? {
        let is_alike = goes_on_alike(rt.alloc(), session, after)?;
        let left = if is_alike {
            "as before"
        } else {
            "as before, poisoned"
        };
        return Ok(show_line(rt, left)?);
    }
    let words = format!(in rt.alloc(); "{after} {by}")?;
    let journal = session.journal();
    let (cursor, states, live) = (journal.cursor(), journal.states(), session.live().len());
    let is_played = is_left_so(rt.alloc(), session, &words)?
        && goes_on_alike(rt.alloc(), session, &words)?;
    let left = if is_played { "as played" } else { "now" };
    Ok(println!(rt; "{left} at {cursor} of {states}, {live} live")?)
}

/// Returns true if a session has the line that the given steps leave.
fn is_left_so(alloc: Global, session: &Session, words: &str) -> Result<bool, Fail>
    requires { session.now.begun ≡ false }
{
    let other = session_after(alloc, words)?;
    let is_same = !session.is_open() && is_same_line(session.journal(), other.journal());
    drop(other);
    Ok(is_same)
}

/// Returns true if one more edit is answered, and moves the line, as after the given steps.
fn goes_on_alike(alloc: Global, session: &mut Session, words: &str) -> Result<bool, Fail>
    requires { session.old.begun ≡ false }
    ensures { session.new.begun ≡ false }
{
    let mut other = session_after(alloc, words)?;
    let is_alike = is_moved_alike(alloc, session, &mut other);
    drop(other);
    Ok(is_alike?)
}

fn is_moved_alike(alloc: Global, one: &mut Session, other: &mut Session) -> Result<bool, NoMem>
    requires one { one.old.begun ≡ false }
    requires other { other.old.begun ≡ false }
    ensures { one.new.begun ≡ false }
{
    let steps = steps_of(alloc, "next")?;
    let Some(step) = steps.first() else {
        return Ok(false);
    };
    let is_answered = by_events(alloc, one, step) == by_events(alloc, other, step);
    Ok(is_answered && is_same_line(one.journal(), other.journal()))
}
