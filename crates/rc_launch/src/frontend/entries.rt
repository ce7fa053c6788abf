//! Reports which entries of the journal an undo takes back, and which a redo makes again.
use crate::journal::journal_of;
use crate::numbers::{Numbered, numbered_of};
use crate::texts::LiveText;
use log::info;
use rc_dbtext::database_of;
use rc_livetext::read_live;
use rc_render::journal_text;
use rc_streams::messages::{MESSAGE, Messages};
use std::alloc::Global;

/// The mark of an entry that leads to a state which is passed.
const PASSED: &str = " ..";

/// The journal of a session: its text, in which each line after the first is an entry, and where
/// the session stands.
#[derive(Drop)]
struct Journal {
    text: Vec<u8>,
    numbered: Numbered,
}

/// Reports the entries that an undo takes back from where a session stood, or those that a redo
/// (`is_on`) makes again, in this order. The database of a session without a history is the given
/// one, or else the one at the beginning of the input. Reports nothing if a text can't be read.
pub fn tell_entries(
    rt: &HostRuntime,
    live: &LiveText<'_>,
    base: Option<&[u8]>,
    input: &[u8],
    is_on: bool,
) {
    let journal = match live.history() {
        Some(history) => journal_in(rt.alloc(), history),
        None => journal_alone(rt.alloc(), base, input, live.bytes().unwrap_or(&[])),
    };
    let Some(journal) = journal else {
        return;
    };
    if let Ok(text) = std::str::from_utf8(&journal.text) {
        if is_on {
            tell_forth(rt, text, &journal.numbered);
        } else {
            tell_back(rt, text, &journal.numbered);
        }
    }
    drop(journal);
}

/// Returns the journal of a history, if it can be made.
fn journal_in(alloc: Global, history: &[u8]) -> Option<Journal> {
    let numbered = numbered_of(alloc, history).ok()?;
    match journal_of(alloc, history) {
        Ok(text) => Some(Journal { text, numbered }),
        Err(_) => {
            drop(numbered);
            None
        }
    }
}

/// Returns the journal of a session without a history, if it can be made. None of its states is
/// passed.
fn journal_alone(
    alloc: Global,
    base: Option<&[u8]>,
    input: &[u8],
    session: &[u8],
) -> Option<Journal> {
    let (db, _rest) = database_of(alloc, base, input).ok()?;
    let Ok((line, _states)) = read_live(alloc, session, &db) else {
        drop(db);
        return None;
    };
    let at = line.cursor();
    let text = journal_text(alloc, &db, &line);
    drop((db, line));
    let numbered = Numbered {
        at,
        marks: Vec::new(alloc),
    };
    match text {
        Ok(text) => Some(Journal { text, numbered }),
        Err(_) => {
            drop(numbered);
            None
        }
    }
}

/// Reports the entries that an undo takes back: it goes on from each state that is passed.
fn tell_back(rt: &HostRuntime, journal: &str, numbered: &Numbered) {
    for state in (0..numbered.at).rev() {
        if let Some(line) = journal.lines().nth(state.saturating_add(1)) {
            let entry = entry_in(line);
            info!(Messages(rt); target: MESSAGE, "takes back {entry}");
        }
        if !is_passed(numbered, state) {
            return;
        }
    }
}

/// Reports the entries that a redo makes again: it goes on from each state that is passed.
fn tell_forth(rt: &HostRuntime, journal: &str, numbered: &Numbered) {
    let mut state = numbered.at;
    for line in journal.lines().skip(numbered.at.saturating_add(1)) {
        let entry = entry_in(line);
        info!(Messages(rt); target: MESSAGE, "makes again {entry}");
        state = state.saturating_add(1);
        if !is_passed(numbered, state) {
            return;
        }
    }
}

/// Returns the entry in a line of a journal, without the mark of a state that is passed.
fn entry_in(line: &str) -> &str {
    line.strip_suffix(PASSED).unwrap_or(line)
}

/// Returns true if a state is passed.
fn is_passed(numbered: &Numbered, state: usize) -> bool {
    numbered.marks.get(state).copied().unwrap_or(false)
}
