//! Values that calls make one after the other: a graph of a draft, a database of its text, an input
//! and its lines, names of a line, and the end of a run.

ghost use Rattle.std.specs.Prelude.{◌≡◌, length};

use crate::growths::told::go_on_to;
use crate::samples::{LOG, NET, is_same};
use rc_core::{Event, Outcome};
use rc_db::Db;
use rc_dbtext::lexer::{NameWord, ascend, names_of};
use rc_dbtext::syntax::{FormFault, read_form};
use rc_dbtext::{
    OpenFault, TextFault, database_of, known_set, open, read_db, read_db_front, write_db,
};
use rc_graph::{Draft, Graph, GraphFault};
use rc_names::Names;
use rc_recovery::{with_ends, with_stop};
use rc_script::{texts_of, words_of};
use rc_set::NoMem;
use rc_streams::{Failure, Lines, Noted, read_all};
use std::alloc::{AllocError, AllocGlobal, Global};
use std::io::Print;

/// An input of two lines, the first of which has two names.
const INPUT: &[u8] = b"db log\nnet";

/// Two transitions that are under way.
const TAKEN: [Event; 2] = [Event::Take(1, NET), Event::Take(2, LOG)];

/// The two transitions, and their ends.
const ENDED: [Event; 4] = [
    Event::Take(1, NET),
    Event::Take(2, LOG),
    Event::Done(1, NET, Outcome::NotStarted),
    Event::Done(2, LOG, Outcome::NotStarted),
];

/// What calls make, one after the other.
#[derive(Clone, Copy)]
pub enum Made {
    /// A graph in which each of three services but the last needs the next.
    Chain,
    /// No graph, since the last needs the first too.
    Circle,
    /// The text of a database, and the database of that text.
    Text,
    /// What an input has, and its first line.
    Input,
    /// The names of a line, the first of them by itself, and their services.
    Names,
    /// The words of a line, and their texts.
    Words,
    /// The ends of transitions that were under way, and a stop after them.
    Ends,
}

/// Makes a value, and returns true if it is right.
pub fn is_made(rt: &(impl Print + AllocGlobal), db: &Db, made: Made) -> Result<bool, NoMem> {
    match made {
        Made::Chain => is_drafted(rt, false, &[2, 1, 0]),
        Made::Circle => is_drafted(rt, true, &[0, 1, 2]),
        Made::Text => is_read_back(rt, db),
        Made::Input => is_input(rt),
        Made::Names => are_names(rt, db),
        Made::Words => are_words(rt.alloc()),
        Made::Ends => are_ends(rt),
    }
}

/// Returns true if the given services are those of the graph in their order, or those of the
/// circle.
fn is_drafted(
    rt: &(impl Print + AllocGlobal),
    is_circle: bool,
    ids: &[u16],
) -> Result<bool, NoMem> {
    let finished = finished(rt, is_circle);
    let is_right = match &finished {
        Ok(graph) => Ok(!is_circle && graph.order() == ids),
        Err(GraphFault::Cycle(cycle)) => Ok(is_circle && cycle.ids() == ids),
        Err(GraphFault::Memory) => Err(AllocError),
    };
    drop(finished);
    is_right
}

fn finished(rt: &(impl Print + AllocGlobal), is_circle: bool) -> Result<Graph, GraphFault> {
    let mut draft = Draft::new(rt.alloc(), 3)?;
    go_on_to(rt, "need");
    let needed = need_next(&mut draft, is_circle);
    match needed {
        Ok(()) => {
            go_on_to(rt, "finish");
            draft.finish()
        }
        Err(_) => {
            drop(draft);
            Err(GraphFault::Memory)
        }
    }
}

fn need_next(draft: &mut Draft, is_circle: bool) -> Result<(), NoMem>
    requires { length draft.old ≡ 3 }
{
    draft.need(0, 1)?;
    draft.need(1, 2)?;
    if is_circle {
        draft.need(2, 0)?;
    }
    Ok(())
}

/// Returns true if the text of a database is read back as that database, also if more bytes follow.
fn is_read_back(rt: &(impl Print + AllocGlobal), db: &Db) -> Result<bool, NoMem> {
    let mut text = write_db(rt.alloc(), db)?;
    is_text_of(rt, &mut text, db)
}

fn is_text_of(rt: &(impl Print + AllocGlobal), text: &mut Vec<u8>, db: &Db) -> Result<bool, NoMem> {
    go_on_to(rt, "read_db");
    let is_whole = is_read(read_db(rt.alloc(), text), db)?;
    go_on_to(rt, "more bytes");
    let long = text.len();
    text.push(b'\n')?;
    go_on_to(rt, "read_db_front");
    let is_front = is_at_front(rt.alloc(), text, long, db)?;
    go_on_to(rt, "rc_dbtext::syntax::read_form");
    let is_form = is_form(rt.alloc(), text)?;
    go_on_to(rt, "database_of");
    let is_before = is_before(rt.alloc(), text, db)?;
    go_on_to(rt, "rc_dbtext::open");
    Ok(is_opened(rt.alloc(), text, long, db)? && is_before && is_whole && is_front && is_form)
}

/// Returns true if a text at the front of an input is read as a database, before a byte that is
/// left.
fn is_before(alloc: Global, bytes: &[u8], db: &Db) -> Result<bool, NoMem> {
    match database_of(alloc, None, bytes) {
        Ok((other, rest)) => Ok(is_read(Ok(other), db)? && rest.len() == 1),
        Err(fault) => is_read(Err(fault), db),
    }
}

/// Returns true if an input is read whole, and so many bytes at its beginning are read as a
/// database.
fn is_opened(alloc: Global, bytes: &[u8], long: usize, db: &Db) -> Result<bool, NoMem> {
    match open(alloc, None, &mut Noted::new(bytes)) {
        Ok(opened) => {
            let is_whole = opened.input.as_slice() == bytes && opened.start == long;
            let is_right = is_whole && is_same(db, &opened.db);
            drop(opened);
            Ok(is_right)
        }
        Err(OpenFault::OfText(TextFault::Memory) | OpenFault::Failed(Failure::Memory)) => {
            Err(AllocError)
        }
        Err(_) => Ok(false),
    }
}

/// Returns true if a text says five services and a bundle, and one byte follows.
fn is_form(alloc: Global, bytes: &[u8]) -> Result<bool, NoMem> {
    let read = read_form(alloc, bytes);
    let is_right = match &read {
        Ok((form, rest)) => {
            Ok(form.services.len() == 5 && form.bundles.len() == 1 && rest.len() == 1)
        }
        Err(FormFault::Memory) => Err(AllocError),
        Err(_) => Ok(false),
    };
    drop(read);
    is_right
}

fn is_read(read: Result<Db, TextFault>, db: &Db) -> Result<bool, NoMem> {
    let is_right = match &read {
        Ok(other) => Ok(is_same(db, other)),
        Err(TextFault::Memory) => Err(AllocError),
        Err(_) => Ok(false),
    };
    drop(read);
    is_right
}

/// Returns true if so many bytes at the beginning are read as a database.
fn is_at_front(alloc: Global, bytes: &[u8], long: usize, db: &Db) -> Result<bool, NoMem> {
    match read_db_front(alloc, bytes) {
        Ok((other, taken)) => Ok(is_read(Ok(other), db)? && taken == long),
        Err(fault) => is_read(Err(fault), db),
    }
}

/// Returns true if the whole input is read, and its first line.
fn is_input(rt: &(impl Print + AllocGlobal)) -> Result<bool, NoMem> {
    let is_whole = is_read_whole(read_all(rt.alloc(), &mut Noted::new(INPUT)))?;
    go_on_to(rt, "Lines::next");
    let mut lines = Lines::new(rt.alloc());
    let next = lines.next(rt.alloc(), &mut Noted::new(INPUT));
    drop(lines);
    Ok(is_whole && is_first_line(next)?)
}

fn is_read_whole(read: Result<Vec<u8>, Failure>) -> Result<bool, NoMem> {
    match read {
        Ok(bytes) => Ok(bytes.as_slice() == INPUT),
        Err(Failure::Memory) => Err(AllocError),
        Err(_) => Ok(false),
    }
}

fn is_first_line(next: Result<Option<(Vec<u8>, bool)>, Failure>) -> Result<bool, NoMem> {
    match next {
        Ok(Some((line, is_ended))) => Ok(is_ended && line.as_slice() == b"db log".as_slice()),
        Ok(None) => Ok(false),
        Err(Failure::Memory) => Err(AllocError),
        Err(_) => Ok(false),
    }
}

/// Returns true if the words of a line are two names of services, and the first of them is copied.
fn are_names(rt: &(impl Print + AllocGlobal), db: &Db) -> Result<bool, NoMem> {
    let Some((words, _)) = rc_dbtext::lexer::words_of(INPUT) else {
        return Ok(false);
    };
    match names_of(rt.alloc(), words)? {
        Some(words) => are_known(rt, &words, db.names()),
        None => Ok(false),
    }
}

fn are_known(
    rt: &(impl Print + AllocGlobal),
    words: &[NameWord<'_>],
    names: &Names,
) -> Result<bool, NoMem> {
    go_on_to(rt, "NameWord::copy");
    if !is_copied(rt.alloc(), words)? || !ascend(words) {
        return Ok(false);
    }
    go_on_to(rt, "known_set");
    match known_set(rt.alloc(), words, names)? {
        Some(set) => Ok(set.len() == 2),
        None => Ok(false),
    }
}

/// Returns true if the copy of the first name says the same.
fn is_copied(alloc: Global, words: &[NameWord<'_>]) -> Result<bool, NoMem> {
    match words.first() {
        Some(word) => Ok(matches!(word.copy(alloc)?.text(), "db")),
        None => Ok(false),
    }
}

/// Returns true if a line has two words, which are texts.
fn are_words(alloc: Global) -> Result<bool, NoMem> {
    let words = words_of(alloc, INPUT)?;
    match texts_of(alloc, &words)? {
        Some(texts) => Ok(matches!(texts.as_slice(), ["db", _])),
        None => Ok(false),
    }
}

/// Returns true if the ends of two takes are added, and then a stop.
fn are_ends(rt: &(impl Print + AllocGlobal)) -> Result<bool, NoMem> {
    let ended = with_ends(rt.alloc(), &TAKEN)?;
    let is_ended = ended.as_slice() == ENDED.as_slice();
    go_on_to(rt, "with_stop");
    let stopped = with_stop(ended)?;
    Ok(is_ended && matches!(stopped.last(), Some(Event::Stop(1, u64::MAX))))
}
