//! The files of the runs of a session.
ghost use Rattle.std.specs.Prelude.{◌≡◌, IfOk};

use crate::loading::Loaded;
use rc_cli::sessions::RunFiles;
use rc_streams::run_file::RunFile;
use rc_streams::stop_file::StopFile;
use std::io;

/// Why the files of the runs of a session can't be used.
#[derive(Debug, Drop)]
pub(crate) enum RunsFault {
    Log(io::Error),
    Stop(io::Error),
}

/// The files by which the runs of a session are logged and called off, beside the file of this
/// path. Nothing but opening them makes one.
#[derive(Drop)]
pub struct Runs<'a> {
    path: &'a str,
    files: RunFiles,
}

impl<'a> Runs<'a> {
    /// Opens the files beside that of a session that is locked, for the runs of a command.
    pub(crate) fn open(
        rt: &HostRuntime,
        path: &'a str,
        loaded: &Loaded<'_>,
    ) -> Result<Runs<'a>, RunsFault>
        ensures { IfOk result (λ runs. runs.path ≡ path.entry) }
    {
        let log = match RunFile::open(rt, path, loaded.room()) {
            Ok(log) => log,
            Err(error) => return Err(RunsFault::Log(error)),
        };
        match StopFile::open(rt, path, loaded.is_of_lines()) {
            Ok(stop) => Ok(Runs {
                path,
                files: RunFiles { log, stop },
            }),
            Err(error) => {
                drop(log);
                Err(RunsFault::Stop(error))
            }
        }
    }

    /// Returns the path of the file of the session.
    pub fn path(&self) -> &'a str
        ensures { result ≡ self.now.path }
    {
        self.path
    }

    /// Returns the files.
    pub fn files(&self) -> &RunFiles
        ensures { result.now ≡ self.now.files }
    {
        &self.files
    }

    /// Removes the files, except for the log of a run of which the session may not know. The lock
    /// of the session is still held.
    pub fn remove(&self, rt: &HostRuntime) {
        self.files.remove(rt, self.path);
    }
}
