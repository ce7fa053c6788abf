//! What a session runs on.
use rc_streams::output_folder::OutputFolder;
use rc_streams::run_file::{self, RunFile};
use rc_streams::stop_file::{self, StopFile};
use std::alloc::Global;

/// What a session runs on: the threads of its workers, the runtime that starts programs, the log
/// that takes messages, the files of its runs, if it has any, whether these are steps of a command
/// of several, the path of the file whose failures are remembered, if there is one, the directory
/// that keeps what programs write, if there is one, and memory.
#[derive(Drop)]
pub struct Host<'h, T, L> {
    pub threads: &'h T,
    pub runtime: &'h HostRuntime,
    pub log: &'h L,
    pub run_files: Option<&'h RunFiles>,
    pub is_step: bool,
    pub remembers: Option<&'h str>,
    pub outputs: Option<OutputFolder<'h>>,
    pub alloc: Global,
}

/// The files beside that of a session by which its runs are logged and called off. They are there
/// while a command runs, and after one that was cut short.
#[derive(Drop)]
pub struct RunFiles {
    pub log: RunFile,
    pub stop: StopFile,
}

impl RunFiles {
    /// Removes the files, except the log of a run of which the session may not know. The lock of
    /// the session is still held.
    pub fn remove(&self, rt: &HostRuntime, path: &str) {
        let _ = stop_file::remove(rt, path);
        if !self.log.has_run() {
            let _ = run_file::remove(rt, path);
        }
    }
}
