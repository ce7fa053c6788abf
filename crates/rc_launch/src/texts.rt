//! Texts that were read from files. Only a read makes these values, so a command is carried out on
//! what the files had.
ghost use Rattle.std.specs.Prelude.{◌≡◌, ◌↔◌, [], ℕ, List, IfErr, IfOk, IfSome, IsTrue, Some};
ghost use Rattle.std.specs.Prelude.{option_map, unwrap_or};
ghost use Rattle.rc_launch.specs.Back.{StandsOn};
ghost use Rattle.rc_launch.specs.Loading.{IsNoDatabase, base_file, history_read};
ghost use Rattle.rc_launch.specs.HeldHistory.{history_found};
ghost use Rattle.rc_launch.specs.Logs.{IsCutBy, text_in};

use crate::fault::OpenFault;
use crate::fronts::is_of;
use crate::numbers::numbered_of;
use rc_historytext::{HistoryFault, is_history, present_of};
use rc_streams::{run_file, whole_file};
use std::alloc::Global;
use std::io;

/// The path of a file, and its bytes.
#[derive(Drop)]
pub struct FileText<'a> {
    path: &'a str,
    bytes: Vec<u8>,
}

impl<'a> FileText<'a> {
    /// Reads a file whole.
    pub(crate) fn read(rt: &HostRuntime, path: &'a str) -> Result<FileText<'a>, OpenFault<'a>>
        ensures path { IfOk result (λ text. text.path ≡ path.entry) }
        ensures fault { IfErr result (λ fault. IsNoDatabase fault → ⊥) }
    {
        match whole_file::read(rt, path) {
            Ok(bytes) => Ok(FileText { path, bytes }),
            Err(error) => Err(OpenFault::File(path, error)),
        }
    }

    /// Creates the text of the database that stands in the file of a session.
    pub(crate) fn inside(
        alloc: Global,
        path: &'a str,
        database: &[u8],
    ) -> Result<FileText<'a>, OpenFault<'a>>
        ensures path { IfOk result (λ text. text.path ≡ path.entry) }
        ensures bytes { IfOk result (λ text. text.bytes.items ≡ database.now) }
        ensures fault { IfErr result (λ fault. IsNoDatabase fault → ⊥) }
    {
        match Vec::from_slice(alloc, database) {
            Ok(bytes) => Ok(FileText { path, bytes }),
            Err(_) => Err(OpenFault::Memory),
        }
    }

    /// Returns the path of the file.
    pub fn path(&self) -> &'a str
        ensures { result ≡ self.now.path }
    {
        self.path
    }

    /// Returns the bytes of the file.
    pub fn bytes(&self) -> &[u8]
        ensures { result.now ≡ self.now.bytes.items }
    {
        &self.bytes
    }
}

/// A history that stood in the file of a session: its text, and the database of its present
/// generation.
#[derive(Drop)]
pub struct FoundHistory {
    text: Vec<u8>,
    database: Vec<u8>,
}

/// The path of the file of a session, if one is named, and what stood there: the text of a session,
/// alone or in a history, nothing, or what can't be read.
#[derive(Drop)]
pub struct LiveText<'a> {
    path: Option<&'a str>,
    found: io::Result<Option<Vec<u8>>>,
    history: Option<FoundHistory>,
}

impl<'a> LiveText<'a> {
    /// Reads the file of a session, if one is named.
    pub fn read(rt: &HostRuntime, path: Option<&'a str>) -> Result<LiveText<'a>, OpenFault<'a>>
        ensures { IfOk result (λ live. live.path ≡ path.entry) }
    {
        match whole_file::read_optional(rt, path) {
            Ok(Some(bytes)) if is_history(&bytes) => match split(rt.alloc(), bytes) {
                Ok((session, history)) => Ok(LiveText {
                    path,
                    found: Ok(Some(session)),
                    history: Some(history),
                }),
                Err(HistoryFault::Memory) => Err(OpenFault::Memory),
                Err(fault) => Err(OpenFault::History(path.unwrap_or(""), fault)),
            },
            found => Ok(LiveText {
                path,
                found,
                history: None,
            }),
        }
    }

    /// Returns the path of the file, if one is named.
    pub fn path(&self) -> Option<&'a str>
        ensures { result ≡ self.now.path }
    {
        self.path
    }

    /// Returns the result of reading the text of the session.
    pub fn found(&self) -> &io::Result<Option<Vec<u8>>>
        ensures { result.now ≡ self.now.found }
    {
        &self.found
    }

    /// Returns the text of the session that was found.
    pub fn bytes(&self) -> Option<&[u8]>
        ensures { option_map (λ bytes. bytes.now) result
            ≡ text_in (λ bytes. bytes.items) self.now.found }
    {
        match &self.found {
            Ok(Some(bytes)) => Some(bytes),
            _ => None,
        }
    }

    /// Returns the text of the history that was found, if it was one.
    pub fn history(&self) -> Option<&[u8]>
        ensures { option_map (λ text. text.now) result ≡ history_found self.now }
    {
        match &self.history {
            Some(history) => Some(&history.text),
            None => None,
        }
    }

    /// Returns the number of the current state of the history that was found, if it was one and its
    /// states can be counted.
    pub fn number(&self, alloc: Global) -> Option<usize>
        ensures { IfSome result (λ number. (history : List ℕ)
            × (history_found self.now ≡ Some history) × StandsOn number history) }
    {
        let numbered = numbered_of(alloc, self.history()?).ok()?;
        let number = numbered.at;
        drop(numbered);
        Some(number)
    }

    /// Returns the path of the database of a command: this file if a history stood there, else the
    /// given file.
    pub(crate) fn base_path(&self, file: Option<&'a str>) -> Option<&'a str>
        ensures { result ≡ base_file self.now file.entry }
    {
        match (&self.history, self.path) {
            (Some(_), Some(path)) => Some(path),
            (Some(_), None) => file,
            (None, _) => file,
        }
    }

    /// Returns the database of the present generation, if a history stood there.
    pub fn database(&self) -> Option<&[u8]> {
        match &self.history {
            Some(history) => Some(&history.database),
            None => None,
        }
    }
}

// Splits a history into the text of its present session and the history itself.
fn split(alloc: Global, text: Vec<u8>) -> Result<(Vec<u8>, FoundHistory), HistoryFault> {
    match copies(alloc, &text) {
        Ok((session, database)) => Ok((session, FoundHistory { text, database })),
        Err(fault) => {
            drop(text);
            Err(fault)
        }
    }
}

// Copies the session and the database of the present generation.
fn copies(alloc: Global, text: &[u8]) -> Result<(Vec<u8>, Vec<u8>), HistoryFault> {
    let present = match present_of(alloc, text) {
        Ok(present) => present,
        Err(fault) => return Err(fault),
    };
    let Ok(session) = Vec::from_slice(alloc, present.session) else {
        return Err(HistoryFault::Memory);
    };
    match Vec::from_slice(alloc, present.database) {
        Ok(database) => Ok((session, database)),
        Err(_) => {
            drop(session);
            Err(HistoryFault::Memory)
        }
    }
}

/// The path of the file of a session, and the bytes of its run log. There are none where there is
/// no log.
#[derive(Drop)]
pub struct LogText<'a> {
    path: &'a str,
    bytes: Vec<u8>,
}

impl<'a> LogText<'a> {
    /// Reads the log.
    pub(crate) fn read(rt: &HostRuntime, path: &'a str) -> Result<LogText<'a>, OpenFault<'a>>
        ensures { IfOk result (λ log. log.path ≡ path.entry) }
    {
        match run_file::read(rt, path) {
            Ok(Some(mut bytes)) => {
                blank_holes(&mut bytes);
                Ok(LogText { path, bytes })
            }
            Ok(None) => Ok(LogText {
                path,
                bytes: Vec::new(rt.alloc()),
            }),
            Err(error) => Err(OpenFault::Log(path, error)),
        }
    }

    /// Returns the path of the file of the session.
    pub fn path(&self) -> &'a str
        ensures { result ≡ self.now.path }
    {
        self.path
    }

    /// Returns the bytes of the log.
    pub fn bytes(&self) -> &[u8]
        ensures { result.now ≡ self.now.bytes.items }
    {
        &self.bytes
    }
}

/// Puts blanks where a log has a hole. A worker leaves one if it is killed after it has taken the
/// place of a line, and before it has written the line.
fn blank_holes(bytes: &mut [u8]) {
    for place in 0..bytes.len() {
        if bytes[place] == 0 {
            bytes[place] = b' ';
        }
    }
}

/// The two files of a session: the text that stood in its own, alone or in a history, if there is
/// one, and its run log, which was read before it.
#[derive(Drop)]
pub struct ReadFiles<'a> {
    found: Option<Vec<u8>>,
    history: Option<FoundHistory>,
    logged: LogText<'a>,
}

impl<'a> ReadFiles<'a> {
    /// Reads the file of a session whose log was read before.
    pub(crate) fn read(
        rt: &HostRuntime,
        logged: LogText<'a>,
    ) -> Result<ReadFiles<'a>, OpenFault<'a>>
        ensures { IfOk result (λ read. read.logged ≡ logged.entry) }
    {
        let path = logged.path();
        let live = match LiveText::read(rt, Some(path)) {
            Ok(live) => live,
            Err(fault) => {
                drop(logged);
                return Err(fault);
            }
        };
        let LiveText {
            path: _,
            found,
            history,
        } = live;
        match found {
            Ok(found) => Ok(ReadFiles {
                found,
                history,
                logged,
            }),
            Err(error) => {
                drop((logged, history));
                Err(OpenFault::File(path, error))
            }
        }
    }

    /// Returns the text of the history that stood in the file, if it was one.
    pub(crate) fn history(&self) -> Option<&[u8]>
        ensures { option_map (λ text. text.now) result ≡ history_read self.now }
    {
        match &self.history {
            Some(history) => Some(&history.text),
            None => None,
        }
    }

    /// Returns the path of the file.
    pub fn path(&self) -> &'a str
        ensures { result ≡ self.now.logged.path }
    {
        self.logged.path()
    }

    /// Returns the text of the session that stood in the file, or an empty text if there was none.
    pub fn text(&self) -> &[u8]
        ensures { result.now
            ≡ unwrap_or (option_map (λ bytes. bytes.items) self.now.found) [] }
    {
        match &self.found {
            Some(bytes) => bytes,
            None => &[],
        }
    }

    /// Returns the bytes of the log.
    pub fn log(&self) -> &[u8]
        ensures { result.now ≡ self.now.logged.bytes.items }
    {
        self.logged.bytes()
    }

    /// Returns true if the log is that of a command on the text that stood in the file: the log
    /// begins with that text, and has more.
    pub fn is_cut(&self) -> bool
        ensures { IsTrue result ↔ IsCutBy (option_map (λ bytes. bytes.items) self.now.found)
            self.now.logged.bytes.items }
    {
        match &self.found {
            Some(text) => is_of(text, self.logged.bytes()),
            None => false,
        }
    }
}
