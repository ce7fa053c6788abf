//! The file beside that of a session in which a run is logged while it is under way: `FILE.run`
//! beside `FILE`. The program that has the lock of `FILE` creates it and removes it.
//!
//! Before a run begins, its log gets the room that it may need, and the room for the text that will
//! replace the file of the session: blanks after its head. They are no line, since no newline ends
//! them. Each line is written over blanks, within a page. So a program that is killed leaves all of
//! a line, a part that no newline ends, or nothing.

ghost use Rattle.std.specs.Prelude.{◌≤◌};

use crate::beside_file::{
    Access, open_there, open_to_append, open_to_write, path_beside, read_beside,
};
use crate::replaced_file::clear;
use crate::umask::new_rights;
use std::fs::{self, File};
use std::io::{self, ErrorKind, Write};
use std::os::unix::fs::FileExt;
use std::sync::atomic::{AtomicBool, AtomicU64, Ordering};

/// The ending that follows the path of a session's file in the path of its run log.
const ENDING: &str = ".run";

/// The number of bytes that a write of the system moves at once.
const PAGE: u64 = 4096;

/// How many bytes the three lines of a service have at most, without its name.
const LINES: u64 = 88;

/// The end of a log without room: its lines stand one behind the other, as far as they fit.
const UNBOUND: u64 = u64::MAX;

/// How many bytes a file is read or filled by at once.
const PIECE: usize = 4096;

/// The room for the runs of a session: how many bytes its services may add to a log, and to a text.
#[derive(Clone, Copy)]
pub struct Room {
    lines: u64,
    names: u64,
    /// How many bytes of databases come into the file of the session.
    texts: u64,
    /// Whether a run is refused without it.
    is_needed: bool,
}

impl Room {
    /// Creates the room for a number of services whose names have so many bytes in all.
    pub fn of(services: u64, names: u64) -> Room {
        let lines = services
            .saturating_mul(LINES)
            .saturating_add(names.saturating_mul(3));
        Room {
            // A line that does not fit on a page any more begins the next one.
            lines: lines.saturating_add(lines / 10).saturating_add(PAGE),
            names: names.saturating_add(services),
            texts: 0,
            is_needed: true,
        }
    }

    /// Returns this room for a file of a session into which so many bytes of databases come.
    pub fn with_texts(self, texts: u64) -> Room {
        Room {
            lines: self.lines,
            names: self.names,
            texts,
            is_needed: self.is_needed,
        }
    }

    /// Returns this room for a run that continues without it, as far as its lines can be written.
    pub fn if_there(self) -> Room {
        Room {
            lines: self.lines,
            names: self.names,
            texts: self.texts,
            is_needed: false,
        }
    }

    /// Returns the number of bytes that a disk must have for this room and a text of so many bytes.
    /// That is one page if the room is not needed.
    fn needed(self, text: u64) -> u64 {
        if self.is_needed {
            text.saturating_add(self.behind(text))
        } else {
            PAGE
        }
    }

    /// Returns the number of bytes to reserve after the text of a session. They hold the lines of a
    /// run, and that text with one more state, whose bundles are at most those that stand there.
    fn behind(self, text: u64) -> u64 {
        self.lines
            .saturating_add(self.names)
            .saturating_add(text.saturating_mul(2))
            .saturating_add(PAGE)
    }
}

/// A run log that is open.
#[derive(Drop)]
pub struct RunFile {
    file: File,
    /// Where the next line goes, and where the room ends that was reserved.
    place: AtomicU64,
    end: AtomicU64,
    /// Whether a run has begun, and each of its lines so far was written whole.
    is_open: AtomicBool,
    /// Whether the log of a run stands there.
    has_run: AtomicBool,
    /// Whether a line could not be written.
    has_failed: AtomicBool,
    /// How many bytes the file of the session has that is to be replaced, with its databases.
    whole: u64,
}

impl RunFile {
    /// Opens the run log of the session in the file at `path`, and creates it if it is missing.
    /// Fails if the disk lacks the room that a run needs. The log gets the permissions of that
    /// file, so that the same users may read it, or those of a new file if that file does not exist
    /// yet.
    pub fn open(rt: &HostRuntime, path: &str, room: Room) -> io::Result<RunFile> {
        let file = open_to_write(rt, path, ENDING)?;
        let (rights, length) = match fs::metadata(rt, path) {
            Ok(found) => (found.permissions(), found.len()),
            Err(_) => (new_rights(rt), 0),
        };
        let whole = length.saturating_add(room.texts);
        if let Err(error) = check_room(&file, room.needed(whole)) {
            drop(file);
            return Err(error);
        }
        let _ = file.set_permissions(rights);
        let has_run = match file.metadata() {
            Ok(found) => found.len() > 0,
            Err(_) => true,
        };
        Ok(RunFile {
            file,
            place: AtomicU64::new(0),
            end: AtomicU64::new(0),
            is_open: AtomicBool::new(false),
            has_run: AtomicBool::new(has_run),
            has_failed: AtomicBool::new(false),
            whole,
        })
    }

    /// Begins the log anew with the given bytes, the text of a session and a step, and reserves
    /// room. If the log of an earlier run cannot be emptied, writes nothing: the next recovery
    /// would find the new run after the earlier one, and enter neither. If there is no room and it
    /// is needed, nothing stays, and no line is written.
    pub fn begin(&self, head: &[u8], room: Room) {
        if !self.clear() || self.file.write_all_at(head, 0).is_err() {
            self.fail();
            return;
        }
        self.has_run.store(true, Ordering::SeqCst);
        let length = head.len() as u64;
        match reserve(&self.file, length, self.whole, room) {
            Ok(end) => {
                self.place.store(length, Ordering::SeqCst);
                self.end.store(end, Ordering::SeqCst);
                self.is_open.store(true, Ordering::SeqCst);
            }
            Err(_) => {
                let _ = self.clear();
                self.fail();
            }
        }
    }

    /// Writes a line after the earlier ones, and returns true if all of it was written. After a
    /// line that was not, writes nothing more.
    pub fn append(&self, line: &[u8]) -> bool {
        if !self.is_open.load(Ordering::SeqCst) {
            return false;
        }
        if let Some(place) = self.take_place(line.len() as u64) {
            if self.file.write_all_at(line, place).is_ok() {
                return true;
            }
        }
        self.fail();
        false
    }

    /// Writes a line that may be missing after the earlier ones, if room was reserved for it.
    pub fn note(&self, line: &[u8]) {
        let has_room = self.end.load(Ordering::SeqCst) != UNBOUND;
        if !has_room || !self.is_open.load(Ordering::SeqCst) {
            return;
        }
        if let Some(place) = self.take_place(line.len() as u64) {
            if self.file.write_all_at(line, place).is_err() {
                self.fail();
            }
        }
    }

    /// Notes that a line could not be written.
    fn fail(&self) {
        self.is_open.store(false, Ordering::SeqCst);
        self.has_failed.store(true, Ordering::SeqCst);
    }

    /// Takes a place for a line of so many bytes, which no other line gets. Returns none if there
    /// is no room any more.
    fn take_place(&self, length: u64) -> Option<u64> {
        for _ in 0..u64::MAX {
            let now = self.place.load(Ordering::SeqCst);
            let end = self.end.load(Ordering::SeqCst);
            let place = if end == UNBOUND {
                now
            } else {
                place_from(now, length)
            };
            let behind = place.saturating_add(length);
            if behind > end {
                return None;
            }
            let (taken, failed) = (Ordering::SeqCst, Ordering::SeqCst);
            if self
                .place
                .compare_exchange(now, behind, taken, failed)
                .is_ok()
            {
                return Some(place);
            }
        }
        None
    }

    /// Empties the log, and returns true if that could be done. Appends nothing until the next run
    /// begins.
    pub fn clear(&self) -> bool {
        self.is_open.store(false, Ordering::SeqCst);
        let is_empty = self.file.set_len(0).is_ok();
        if is_empty {
            self.has_run.store(false, Ordering::SeqCst);
        }
        is_empty
    }

    /// Returns true if the log of a run stands in the file. The session may not know of that run.
    pub fn has_run(&self) -> bool {
        self.has_run.load(Ordering::SeqCst)
    }

    /// Returns true if a line could not be written.
    pub fn has_failed(&self) -> bool {
        self.has_failed.load(Ordering::SeqCst)
    }
}

/// Returns the first place from which a line of so many bytes does not go over the end of a page.
fn place_from(place: u64, length: u64) -> u64
    ensures later { place ≤ result }
{
    let left = PAGE - place % PAGE;
    if length <= left {
        place
    } else {
        place.saturating_add(left)
    }
}

/// Fails if the disk has no room for so many bytes. Leaves the log of an earlier run untouched, and
/// checks nothing then.
fn check_room(file: &File, room: u64) -> io::Result<()> {
    if file.metadata()?.len() > 0 {
        return Ok(());
    }
    let filled = fill(file, 0, room);
    file.set_len(0)?;
    filled
}

/// Reserves room after the first `length` bytes of a log, and returns its end. It covers the file
/// of the session with its databases, which has `whole` bytes. If the room is missing and not
/// needed, returns `UNBOUND`.
fn reserve(file: &File, length: u64, whole: u64, room: Room) -> io::Result<u64> {
    let end = length
        .saturating_add(room.behind(length))
        .saturating_add(whole);
    match fill(file, length, end) {
        Ok(()) => Ok(end),
        Err(error) if room.is_needed => Err(error),
        Err(_) => {
            file.set_len(length)?;
            Ok(UNBOUND)
        }
    }
}

/// Fills a file with blanks, from a place to its new end.
fn fill(file: &File, from: u64, end: u64) -> io::Result<()> {
    let blanks = [b' '; PIECE];
    let mut place = from;
    for _ in 0..u64::MAX {
        if place >= end {
            break;
        }
        let count = (end - place).min(PIECE as u64) as usize;
        file.write_all_at(&blanks[..count], place)?;
        place = place.saturating_add(count as u64);
    }
    Ok(())
}

/// Gives back the room that is reserved in the run log of a session's file, if there is one. That
/// file is about to be replaced, and no more lines are written.
pub fn give_room(rt: &HostRuntime, path: &str) -> io::Result<()> {
    let beside = path_beside(rt, path, ENDING)?;
    let opened = open_there(rt, beside.as_str(), Access::Write);
    drop(beside);
    let file = match opened {
        Ok(file) => file,
        Err(error) if error.kind() == ErrorKind::NotFound => return Ok(()),
        Err(error) => return Err(error),
    };
    let given = match unfilled(&file) {
        Ok(end) => file.set_len(end),
        Err(error) => Err(error),
    };
    drop(file);
    given
}

/// Returns the length of a file without the blanks at its end.
fn unfilled(file: &File) -> io::Result<u64> {
    let mut end = file.metadata()?.len();
    let mut buffer = [0; PIECE];
    for _ in 0..u64::MAX {
        if end == 0 {
            break;
        }
        let start = (end - 1) / PAGE * PAGE;
        let count = file.read_at(&mut buffer, start)?;
        let used = used_in(&buffer[..count.min(PIECE)]);
        if used > 0 {
            return Ok(start.saturating_add(used as u64));
        }
        end = start;
    }
    Ok(0)
}

/// Returns the number of bytes without the blanks at the end.
fn used_in(bytes: &[u8]) -> usize {
    let mut used = 0;
    for place in 0..bytes.len() {
        if bytes[place] != b' ' {
            used = place + 1;
        }
    }
    used
}

/// Reads the run log of a session's file. Returns none if there is none. Fails unless the log
/// belongs to a user whose files are read there.
pub fn read(rt: &HostRuntime, path: &str) -> io::Result<Option<Vec<u8>>> {
    read_beside(rt, path, ENDING)
}

/// Appends bytes to the run log of a session's file, by one write.
pub fn append(rt: &HostRuntime, path: &str, bytes: &[u8]) -> io::Result<()> {
    let mut file = open_to_append(rt, path, ENDING)?;
    file.write_all(bytes)
}

/// Removes the run log of a session's file, if there is one.
pub fn remove(rt: &HostRuntime, path: &str) -> io::Result<()> {
    let beside = path_beside(rt, path, ENDING)?;
    let removed = clear(rt, beside.as_str());
    drop(beside);
    removed
}
