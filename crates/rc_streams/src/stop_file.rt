//! What calls a run off: a line in a file beside that of its session, `FILE.stop` beside `FILE`, or
//! a pending signal. A run that is called off begins no further transition.
//!
//! The line names the program that it means, as the lock of the session does. If that program
//! serves lines, it also names the number of the run. So it calls off no later command and no later
//! line, and may be written before the program looks for it. It begins with a newline, so that a
//! partial line before it does not spoil it.

use crate::beside_file::{
    Access, above_streams, open_own, open_there, open_to_append, path_beside, stands_at,
};
use crate::live_lock::{Owner, owner_at};
use crate::messages::{MESSAGE, Messages};
use crate::replaced_file::clear;
use crate::umask::STATUS;
use log::info;
use std::fs::File;
use std::io::{self, ErrorKind, Write};
use std::os::unix::fs::FileExt;
use std::sync::atomic::{AtomicU64, Ordering};

/// The ending that follows the path of a session's file in the path of this file.
const ENDING: &str = ".stop";

/// The first word of a line that calls a run off, and of one that says which run is under way.
const STOP: &str = "stop";

const RUN: &str = "run";

/// How many bytes of the file are looked at, from its end.
const MOST: usize = 4096;

/// How often the file may be removed while a line is written there.
const MOST_FILES: u32 = 100;

/// The text before the signals that are pending for the program, which are a hexadecimal number.
const WAITING: &[u8] = b"ShdPnd:\t";

/// HUP, INT and TERM in such a number, in which signal N is bit N - 1.
const CALLING_OFF: u64 = 0x4003;

/// The file, and the system's account of the program. A signal is pending there only if the program
/// was started with it blocked.
#[derive(Drop)]
pub struct StopFile {
    rt: HostRuntime,
    /// Where the file stands. Another one stands there where somebody has removed it.
    path: String,
    file: File,
    status: Option<File>,
    owner: Owner,
    /// The number of the run that is under way, or was last; always 0 of a program that serves no
    /// lines.
    run: AtomicU64,
}

impl StopFile {
    /// Opens the stop file of the session in the file at `path`, and creates it if it is missing.
    /// The program has the lock of that session. `is_of_lines` says whether it serves the lines of
    /// an input.
    pub fn open(rt: &HostRuntime, path: &str, is_of_lines: bool) -> io::Result<StopFile> {
        let path = path_beside(rt, path, ENDING)?;
        match open_own(rt, path.as_str(), Access::Append) {
            Ok(file) => Ok(StopFile {
                rt: *rt,
                path,
                file,
                status: account(rt).ok(),
                owner: Owner::own(rt, is_of_lines),
                run: AtomicU64::new(0),
            }),
            Err(error) => {
                drop(path);
                Err(error)
            }
        }
    }

    /// Begins the next run if lines are served, and writes its number into the file.
    pub fn begin(&self) {
        if self.owner.is_of_lines {
            let run = self.run.load(Ordering::SeqCst).saturating_add(1);
            self.run.store(run, Ordering::SeqCst);
            match self.other() {
                Some(file) => {
                    tell_run(&self.rt, &file, &self.owner, run);
                    drop(file);
                }
                None => tell_run(&self.rt, &self.file, &self.owner, run),
            }
        }
    }

    /// Empties the file if lines are served, which says that no run is under way.
    pub fn end(&self) {
        if self.owner.is_of_lines {
            match self.other() {
                Some(file) => {
                    let _ = file.set_len(0);
                    drop(file);
                }
                None => {
                    let _ = self.file.set_len(0);
                }
            }
        }
    }

    /// Returns true if the run is called off, by a line of the file or by a signal.
    pub fn is_called_off(&self) -> bool {
        self.is_named() || self.is_signalled()
    }

    /// Returns true if a line of the file calls the run off.
    fn is_named(&self) -> bool {
        match self.other() {
            Some(file) => {
                let is_named = self.is_named_in(&file);
                drop(file);
                is_named
            }
            None => self.is_named_in(&self.file),
        }
    }

    /// Returns true if a line of the given open file calls the run off.
    fn is_named_in(&self, file: &File) -> bool {
        match number_in(file, STOP, &self.owner) {
            Some(run) => run == self.run.load(Ordering::SeqCst),
            None => false,
        }
    }

    /// Opens the file that stands at the path now, if somebody has removed the first one. If lines
    /// are served, creates it: without it no run is under way.
    fn other(&self) -> Option<File> {
        let path = self.path.as_str();
        if stands_at(&self.rt, path, &self.file) {
            None
        } else if self.owner.is_of_lines {
            open_own(&self.rt, path, Access::Append).ok()
        } else {
            open_there(&self.rt, path, Access::Append).ok()
        }
    }

    /// Returns true if a signal that calls the run off is pending.
    fn is_signalled(&self) -> bool {
        match &self.status {
            Some(status) => is_told_in(status),
            None => false,
        }
    }
}

/// Replaces the text of a file with a line that says which run of a program is under way.
fn tell_run(rt: &HostRuntime, file: &File, owner: &Owner, run: u64) {
    let _ = file.set_len(0);
    let _ = write_line(rt, file, RUN, owner, run);
}

/// Writes a line on a run of a program in one write, so that lines that are written at once do not
/// mix. Writes a newline before it, since the file may end in a partial line.
fn write_line(
    rt: &HostRuntime,
    file: &File,
    word: &str,
    owner: &Owner,
    run: u64,
) -> io::Result<()> {
    let (id, started) = (owner.id, owner.started);
    let line = format!(in rt.alloc(); "\n{word} {id} {started} {run}\n")?;
    let mut out = file;
    let written = out.write_all(line.as_bytes());
    drop(line);
    written
}

/// Returns the number of the run in the last line of a file that begins with the given word and
/// names the given program.
fn number_in(file: &File, word: &str, owner: &Owner) -> Option<u64> {
    let length = file.metadata().ok()?.len();
    if length == 0 {
        return None;
    }
    let mut buffer = [0; MOST];
    let count = file
        .read_at(&mut buffer, length.saturating_sub(MOST as u64))
        .ok()?;
    last_number(&buffer[..count.min(MOST)], word, owner)
}

/// Returns the number of the run in the last line of a text that begins with the given word and
/// names the given program.
fn last_number(text: &[u8], word: &str, owner: &Owner) -> Option<u64> {
    let mut last = None;
    for line in text.split(|byte| *byte == b'\n') {
        if let Some(run) = number_by(line, word, owner) {
            last = Some(run);
        }
    }
    last
}

/// Returns the number of the run in a line, if it begins with the given word and names the given
/// program.
fn number_by(line: &[u8], word: &str, owner: &Owner) -> Option<u64> {
    let mut words = str::from_utf8(line).ok()?.split(' ');
    let is_so = words.next()? == word
        && words.next()?.parse() == Ok(owner.id)
        && words.next()?.parse() == Ok(owner.started);
    let run = words.next()?.parse().ok()?;
    if is_so && words.next().is_none() {
        Some(run)
    } else {
        None
    }
}

/// Opens the system's account of the program. The file is no stream that a script gets.
fn account(rt: &HostRuntime) -> io::Result<File> {
    above_streams(File::open(rt, STATUS)?)
}

/// Returns true if a signal that calls a run off is pending for the program.
pub(crate) fn is_signal_waiting(rt: &HostRuntime) -> bool {
    match File::open(rt, STATUS) {
        Ok(status) => {
            let is_waiting = is_told_in(&status);
            drop(status);
            is_waiting
        }
        Err(_) => false,
    }
}

/// Returns true if a signal is pending, by the file of the system's account.
fn is_told_in(status: &File) -> bool {
    let mut buffer = [0; 4096];
    match status.read_at(&mut buffer, 0) {
        Ok(count) => is_waiting(&buffer[..count.min(4096)]),
        Err(_) => false,
    }
}

/// Calls off the command that continues the session in the file at `path`, and returns true if
/// there is one. A program that serves lines has one only while it runs a line. The command begins
/// no further transition. Calls off no other command.
pub fn call_off(rt: &HostRuntime, path: &str) -> io::Result<bool> {
    let Some(owner) = owner_at(rt, path)? else {
        return Ok(false);
    };
    for _ in 0..MOST_FILES {
        let beside = path_beside(rt, path, ENDING)?;
        let called = call_off_at(rt, path, beside.as_str(), &owner);
        drop(beside);
        match called? {
            Called::Off => return Ok(true),
            Called::Idle => return Ok(false),
            Called::Removed => {}
        }
        if owner_at(rt, path)? != Some(owner) {
            return Ok(true);
        }
    }
    Ok(true)
}

/// What came of a line that calls a run off.
#[derive(Clone, Copy)]
enum Called {
    /// It stands there.
    Off,
    /// No run is under way.
    Idle,
    /// It stands in a file that was removed meanwhile, as by a command that is over.
    Removed,
}

/// Calls off the run of a program by a line of the file at `beside`.
fn call_off_at(rt: &HostRuntime, path: &str, beside: &str, owner: &Owner) -> io::Result<Called> {
    let file = match open_for(rt, path, beside, owner) {
        Ok(file) => file,
        Err(error) if error.kind() == ErrorKind::NotFound => return Ok(Called::Idle),
        Err(error) => return Err(error),
    };
    let run = if owner.is_of_lines {
        number_in(&file, RUN, owner)
    } else {
        Some(0)
    };
    let Some(run) = run else {
        drop(file);
        return Ok(Called::Idle);
    };
    if number_in(&file, STOP, owner) == Some(run) {
        drop(file);
        info!(Messages(rt); target: MESSAGE,
            "{path} is being stopped: what is under way there ends");
        return Ok(Called::Off);
    }
    let written = write_line(rt, &file, STOP, owner, run);
    let stands = stands_at(rt, beside, &file);
    drop(file);
    written?;
    Ok(if stands { Called::Off } else { Called::Removed })
}

/// Opens the file. Creates it if it is missing, unless the program serves lines: then it creates
/// the file before its first run.
fn open_for(rt: &HostRuntime, path: &str, beside: &str, owner: &Owner) -> io::Result<File> {
    if owner.is_of_lines {
        open_there(rt, beside, Access::Append)
    } else {
        open_to_append(rt, path, ENDING)
    }
}

/// Removes what stands in the place of a session's stop file, unless it calls this program off. The
/// program has the lock of that session. `is_of_lines` says whether it serves the lines of an
/// input.
pub fn clear_others(rt: &HostRuntime, path: &str, is_of_lines: bool) -> io::Result<()> {
    let beside = path_beside(rt, path, ENDING)?;
    let owner = Owner::own(rt, is_of_lines);
    let cleared = match open_there(rt, beside.as_str(), Access::Append) {
        Ok(file) => {
            let cleared = clear_unless_named(rt, path, beside.as_str(), &file, &owner);
            drop(file);
            cleared
        }
        Err(_) => clear(rt, beside.as_str()),
    };
    drop(beside);
    cleared
}

/// Removes the open file, unless it calls off a program that serves no lines. Copies a line that is
/// written before the removal into the next file. A program that writes later sees that the file
/// was removed.
fn clear_unless_named(
    rt: &HostRuntime,
    path: &str,
    beside: &str,
    file: &File,
    owner: &Owner,
) -> io::Result<()> {
    if number_in(file, STOP, owner) == Some(0) {
        return Ok(());
    }
    clear(rt, beside)?;
    if number_in(file, STOP, owner) == Some(0) {
        let next = open_to_append(rt, path, ENDING)?;
        let written = write_line(rt, &next, STOP, owner, 0);
        drop(next);
        return written;
    }
    Ok(())
}

/// Removes the stop file of the session in the file at `path`, if there is one.
pub fn remove(rt: &HostRuntime, path: &str) -> io::Result<()> {
    let beside = path_beside(rt, path, ENDING)?;
    let removed = clear(rt, beside.as_str());
    drop(beside);
    removed
}

/// Returns true if HUP, INT or TERM is pending, by the system's account of the program.
fn is_waiting(account: &[u8]) -> bool {
    account
        .split(|byte| *byte == b'\n')
        .any(|line| match line.strip_prefix(WAITING) {
            Some(number) => number_of(number) & CALLING_OFF != 0,
            None => false,
        })
}

/// Parses a hexadecimal number of at most 64 bits. Returns 0 for any other text.
fn number_of(digits: &[u8]) -> u64 {
    match str::from_utf8(digits) {
        Ok(text) => u64::from_str_radix(text.trim(), 16).unwrap_or(0),
        Err(_) => 0,
    }
}
