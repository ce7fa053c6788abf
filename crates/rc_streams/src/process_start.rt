//! When a process was started. This and its process id name it: another process that gets the same
//! id later was started later.

use std::alloc::Global;
use std::fs::{File, Files};
use std::io::Read;

/// The places of the state and of the start time among the words after the name of the program, in
/// the system's account of a process.
const STATE: usize = 0;

const START: usize = 19;

/// The states of a process that has ended and was not waited for.
const ENDED: [&str; 2] = ["Z", "X"];

/// The system's account of this program.
const OWN: &str = "/proc/self/stat";

/// What the system's account says of a process.
#[derive(Clone, Copy)]
struct Account {
    has_ended: bool,
    /// In ticks since the system was started.
    start: u64,
}

/// Returns the time at which this program was started, in ticks since the system was. Returns none
/// if that cannot be seen.
pub(crate) fn own_start<R: Files>(rt: &R) -> Option<u64> {
    Some(account_at(rt, OWN)?.start)
}

/// Returns the time at which the process with the given id was started, in ticks since the system
/// was. Returns none if there is no such process, or if that cannot be seen.
pub fn start_of<R: Files>(rt: &R, alloc: Global, id: u64) -> Option<u64> {
    Some(account_of(rt, alloc, id)?.start)
}

/// Returns true if the process that got the given id at the given time still runs.
pub fn is_running<R: Files>(rt: &R, alloc: Global, id: u64, start: u64) -> bool {
    match account_of(rt, alloc, id) {
        Some(account) => account.start == start && !account.has_ended,
        None => false,
    }
}

/// Returns what the system says of the process with the given id.
fn account_of<R: Files>(rt: &R, alloc: Global, id: u64) -> Option<Account> {
    let path = format!(in alloc; "/proc/{id}/stat").ok()?;
    let account = account_at(rt, path.as_str());
    drop(path);
    account
}

/// Returns what the system says of a process, by the path of its account.
fn account_at<R: Files>(rt: &R, path: &str) -> Option<Account> {
    let mut file = File::open(rt, path).ok()?;
    let mut buffer = [0; 1024];
    let read = file.read(&mut buffer);
    drop(file);
    let count = read.ok()?;
    account_in(&buffer[..count.min(1024)])
}

/// Returns what the text of an account says.
fn account_in(text: &[u8]) -> Option<Account> {
    let words = str::from_utf8(text.get(behind_name(text)..)?).ok()?;
    let state = words.split_ascii_whitespace().nth(STATE)?;
    let start = words.split_ascii_whitespace().nth(START)?.parse().ok()?;
    Some(Account {
        has_ended: ENDED.contains(&state),
        start,
    })
}

/// Returns the place after the name of the program, which ends with the last `)`.
fn behind_name(text: &[u8]) -> usize {
    let mut behind = 0;
    for place in 0..text.len() {
        if text[place] == b')' {
            behind = place + 1;
        }
    }
    behind
}
