//! The two files of a session on a disk, as they were read while it was locked.
ghost use Rattle.std.specs.Prelude.{◌≡◌, IfOk, IsSome, option_map, unwrap_or, []};
ghost use Rattle.rc_launch.specs.Held.{IsUnwritten, WasLeft, files_held};
ghost use Rattle.rc_launch.specs.Keeping.{KeepsAs, keeping_by};
ghost use Rattle.rc_launch.specs.Loading.{history_read};

use crate::texts::ReadFiles;
use rc_cli::{logs_step, logs_way};
use rc_historytext::{HistoryFault, Keeping, keep_session};
use rc_recovery::{FileFault, TwoFiles};
use rc_streams::replaced_file::replace;
use rc_streams::run_file;
use std::alloc::{AllocError, Global};
use std::io::ErrorKind;
use std::{io, mem};

/// A write that was begun, with what the files held before it, or with what a failed write may have
/// made of them.
#[derive(Drop)]
pub(crate) enum Begun {
    /// The file was replaced. It had this text before.
    Replaced(Vec<u8>),
    /// The log was emptied. It had these bytes before.
    Emptied(Vec<u8>),
    /// Bytes were appended to the log, which had so many before.
    Appended(usize),
    /// Replacing the file by this text failed.
    FailedReplace(Vec<u8>),
    /// Appending these bytes to the log failed, so a part of them may stand there.
    FailedAppend(Vec<u8>),
    /// Emptying the log failed.
    FailedEmpty,
}

/// The file of a session and its run log, with what they hold since they were read, the writes
/// that were begun and, after a call that failed, why. Contracts see what was read and written:
/// nobody else writes them while they are locked.
#[derive(Drop)]
pub struct HeldFiles<'a> {
    rt: &'a HostRuntime,
    path: &'a str,
    file: Vec<u8>,
    log: Vec<u8>,
    /// The text of the history that the file is, if it is one.
    history: Option<Vec<u8>>,
    /// What the command of the log does to the states of the session.
    keeping: Keeping,
    /// The last one stands last.
    begun: Vec<Begun>,
    error: Option<io::Error>,
}

impl<'a> HeldFiles<'a> {
    /// Creates the held files from what was read of them while they were locked.
    pub(crate) fn new(
        rt: &'a HostRuntime,
        read: &ReadFiles<'a>,
    ) -> Result<HeldFiles<'a>, AllocError>
        ensures path { IfOk result (λ held. held.path ≡ read.now.logged.path) }
        ensures file { IfOk result (λ held. held.file.items
            ≡ unwrap_or (option_map (λ bytes. bytes.items) read.now.found) []) }
        ensures log { IfOk result (λ held. held.log.items ≡ read.now.logged.bytes.items) }
        ensures history { IfOk result (λ held.
            option_map (λ text. text.items) held.history ≡ history_read read.now) }
        ensures keeping { IfOk result (λ held. KeepsAs
            (unwrap_or (option_map (λ bytes. bytes.items) read.now.found) [])
            read.now.logged.bytes.items held.keeping) }
        ensures unwritten { IfOk result IsUnwritten }
    {
        let keeping = keeping_of(rt.alloc(), read)?;
        let history = copy_of(rt.alloc(), read.history())?;
        match copies(rt.alloc(), read) {
            Ok((file, log)) => Ok(HeldFiles {
                rt,
                path: read.path(),
                file,
                log,
                history,
                keeping,
                begun: Vec::new(rt.alloc()),
                error: None,
            }),
            Err(short) => {
                drop(history);
                Err(short)
            }
        }
    }

    /// Returns the error of the call that failed, if there is one.
    pub fn into_error(self) -> Option<io::Error>
        ensures { result ≡ self.entry.error }
    {
        self.error
    }
}

// Copies what was read of both files.
fn copies(alloc: Global, read: &ReadFiles<'_>) -> Result<(Vec<u8>, Vec<u8>), AllocError>
    ensures file { IfOk result (λ both. both.0.items
        ≡ unwrap_or (option_map (λ bytes. bytes.items) read.now.found) []) }
    ensures log { IfOk result (λ both. both.1.items ≡ read.now.logged.bytes.items) }
{
    let file = Vec::from_slice(alloc, read.text())?;
    match Vec::from_slice(alloc, read.log()) {
        Ok(log) => Ok((file, log)),
        Err(short) => {
            drop(file);
            Err(short)
        }
    }
}

// Copies a text, if there is one.
fn copy_of(alloc: Global, text: Option<&[u8]>) -> Result<Option<Vec<u8>>, AllocError>
    ensures { IfOk result (λ copy.
        option_map (λ bytes. bytes.items) copy ≡ option_map (λ bytes. bytes.now) text.entry) }
{
    match text {
        Some(bytes) => Ok(Some(Vec::from_slice(alloc, bytes)?)),
        None => Ok(None),
    }
}

// Returns the effect of the command of a log on the states of the session.
fn keeping_of(alloc: Global, read: &ReadFiles<'_>) -> Result<Keeping, AllocError>
    ensures { IfOk result (KeepsAs
        (unwrap_or (option_map (λ bytes. bytes.items) read.now.found) [])
        read.now.logged.bytes.items) }
{
    let step = logs_step(read.text(), read.log());
    match logs_way(alloc, read.text(), read.log()) {
        Ok(way) => Ok(keeping_by(step, way)),
        Err(short) => Err(short),
    }
}

// Returns its effect. A step that is marked is kept as one, even if it is an undo.
fn keeping_by(step: bool, way: bool) -> Keeping
    ensures { result ≡ keeping_by step way }
{
    if step {
        Keeping::Step
    } else if way {
        Keeping::Way
    } else {
        Keeping::Command
    }
}

impl HeldFiles<'_> {
    // Puts a text into the file, in place of the present session if the file is a history.
    fn put(&self, text: &[u8]) -> io::Result<()> {
        let Some(history) = &self.history else {
            return replace(self.rt, self.path, text);
        };
        match keep_session(self.rt.alloc(), history, text, self.keeping) {
            Ok(whole) => {
                let put = replace(self.rt, self.path, &whole);
                drop(whole);
                put
            }
            Err(HistoryFault::Memory) => Err(io::Error::from(ErrorKind::OutOfMemory)),
            Err(_) => Err(io::Error::from(ErrorKind::InvalidData)),
        }
    }
}

impl TwoFiles for HeldFiles<'_> {
    ghost holds = { files_held };

    ghost left = { WasLeft };

    ghost failed = { λ f. IsSome f.error };

    fn read_file(&self, alloc: Global) -> Result<Vec<u8>, FileFault> {
        match Vec::from_slice(alloc, &self.file) {
            Ok(bytes) => Ok(bytes),
            Err(_) => Err(FileFault::Memory),
        }
    }

    fn read_log(&self, alloc: Global) -> Result<Vec<u8>, FileFault> {
        match Vec::from_slice(alloc, &self.log) {
            Ok(bytes) => Ok(bytes),
            Err(_) => Err(FileFault::Memory),
        }
    }

    fn append_log(&mut self, bytes: &[u8]) -> Result<(), FileFault> {
        let Ok(copy) = Vec::from_slice(self.rt.alloc(), bytes) else {
            return Err(FileFault::Memory);
        };
        if self.begun.reserve(1).is_err() {
            drop(copy);
            return Err(FileFault::Memory);
        }
        if let Err(error) = run_file::append(self.rt, self.path, bytes) {
            self.begun.push_reserved(Begun::FailedAppend(copy));
            self.error = Some(error);
            return Err(FileFault::Io);
        }
        let length = self.log.len();
        if self.log.extend_from_slice(bytes).is_err() {
            self.begun.push_reserved(Begun::FailedAppend(copy));
            return Err(FileFault::Memory);
        }
        drop(copy);
        self.begun.push_reserved(Begun::Appended(length));
        Ok(())
    }

    fn replace_file(&mut self, text: &[u8]) -> Result<(), FileFault> {
        let Ok(copy) = Vec::from_slice(self.rt.alloc(), text) else {
            return Err(FileFault::Memory);
        };
        if self.begun.reserve(1).is_err() {
            drop(copy);
            return Err(FileFault::Memory);
        }
        if let Err(error) = self.put(text) {
            self.begun.push_reserved(Begun::FailedReplace(copy));
            self.error = Some(error);
            return Err(FileFault::Io);
        }
        let before = mem::replace(&mut self.file, copy);
        self.begun.push_reserved(Begun::Replaced(before));
        Ok(())
    }

    fn empty_log(&mut self) -> Result<(), FileFault> {
        if self.begun.reserve(1).is_err() {
            return Err(FileFault::Memory);
        }
        if let Err(error) = run_file::remove(self.rt, self.path) {
            self.begun.push_reserved(Begun::FailedEmpty);
            self.error = Some(error);
            return Err(FileFault::Io);
        }
        let before = mem::replace(&mut self.log, Vec::new(self.rt.alloc()));
        self.begun.push_reserved(Begun::Emptied(before));
        Ok(())
    }
}
