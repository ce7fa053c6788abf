//! The comments of a run log that name the program of a transition.
ghost use Rattle.std.specs.Prelude.{◌≡◌, Some, All, Contains, IfOk, IfSome, IsTrue, map};
ghost use Rattle.std.specs.Prelude.{MatchOption, None, string_bytes};
ghost use Rattle.rc_script.specs.Processes.{IsProcessLine, IsProcessOf, NamesProcess, process_by};
ghost use Rattle.rc_script.specs.Processes.{process_in};
ghost use Rattle.rc_script.specs.Script.{lines_in};
ghost use Rattle.rc_script.specs.Words.{words_in};

use crate::numbers::moment_in;
use crate::run_lines::ended;
use crate::script::lines_of;
use crate::words::{texts_of, words_of};
use rc_names::NoMem;
use std::alloc::Global;

/// The program that was started for a transition.
#[derive(Clone, Copy, PartialEq, Eq, Debug)]
pub struct Process {
    /// Its process id.
    pub id: u64,
    /// When it was started, in ticks since the system was.
    pub start: u64,
    /// Its limit in milliseconds, 0 for none. Under a limit it leads a process group.
    pub limit: u64,
}

/// Returns the program of a service as a comment with a newline at its end. Returns `None` if no
/// comment can name the service.
pub fn process_line(alloc: Global, name: &str, process: Process) -> Result<Option<String>, NoMem>
    ensures { IfOk result (λ line. IfSome line (λ text.
        IsProcessLine name.now process (string_bytes text))) }
{
    let line = plain_line(alloc, name, process)?;
    if tells_process(alloc, name, line.as_bytes(), process)? {
        ended(line)
    } else {
        Ok(None)
    }
}

/// Returns the program of a service as a comment, without its newline.
fn plain_line(alloc: Global, name: &str, process: Process) -> Result<String, NoMem> {
    let Process { id, start, limit } = process;
    format!(in alloc; "# process {name} {id} {start} {limit}")
}

/// Returns true if a line has no newline and names the given program of a service.
fn tells_process(alloc: Global, name: &str, line: &[u8], process: Process) -> Result<bool, NoMem>
    ensures { IfOk result (λ tells. IsTrue tells → (Contains line.now 10 → ⊥)
        × IsProcessOf name.now line.now (Some process)) }
{
    if line.contains(&b'\n') {
        return Ok(false);
    }
    match process_of(alloc, name, line)? {
        Some(told) => Ok(told == process),
        None => Ok(false),
    }
}

/// Returns the program of a service that a line of a text names. Returns none if no line does.
///
/// Time grows with the text.
pub fn named_process(alloc: Global, name: &str, text: &[u8]) -> Result<Option<Process>, NoMem>
    ensures { IfOk result (λ found. MatchOption found
        (All (λ line. IsProcessOf name.now line None) (lines_in text.now))
        (NamesProcess name.now (lines_in text.now))) }
{
    let lines = lines_of(alloc, text)?;
    for line in &lines {
        if let Some(process) = process_of(alloc, name, line)? {
            return Ok(Some(process));
        }
    }
    Ok(None)
}

/// Returns the program of a service that a line names.
fn process_of(alloc: Global, name: &str, line: &[u8]) -> Result<Option<Process>, NoMem>
    ensures { IfOk result (IsProcessOf name.now line.now) }
{
    let words = words_of(alloc, line)?;
    match texts_of(alloc, &words)? {
        Some(texts) => Ok(process_in(name, &texts)),
        None => Ok(None),
    }
}

/// Returns the program of a service that the words of a line name.
fn process_in(name: &str, words: &[&str]) -> Option<Process>
    ensures { result ≡ process_in name.now (map (λ word. word.now) words.now) }
{
    match words {
        [mark, verb, named, numbers @ ..] => {
            if *mark == "#" && *verb == "process" && *named == name {
                process_by(numbers)
            } else {
                None
            }
        }
        _ => None,
    }
}

/// Returns the program of these three numbers.
fn process_by(words: &[&str]) -> Option<Process>
    ensures { result ≡ process_by (map (λ word. word.now) words.now) }
{
    match words {
        [id, start, limit] => {
            let id = moment_in(id)?;
            let start = moment_in(start)?;
            let limit = moment_in(limit)?;
            Some(Process { id, start, limit })
        }
        _ => None,
    }
}
