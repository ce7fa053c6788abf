//! A recovery over the two files of a session.
ghost use Rattle.std.specs.Prelude.{◌≡◌, ◌≢◌, ◌⊎◌, [], Option, None, Some, IfOk};
ghost use Rattle.std.specs.Prelude.{IfNone, IfSome, IsErrOf, MatchOption, option_map};
ghost use Rattle.rc_recovery.specs.Files.{AfterCrash, Files};
ghost use Rattle.rc_recovery.specs.RunLog.{HasNothing, IsEntered, IsUnfit};
ghost use Rattle.rc_recovery.specs.Recoveries.{IsCutRecovery, recovery_writes};

use crate::texts::{RecoverFault, Recovered, recover_text};
use crate::two_files::{FileFault, TwoFiles, replace_and_empty};
use rc_db::Db;
use std::alloc::Global;
use thiserror::Error;

/// Why the two files were not recovered. If the log does not fit, it is left as it is.
#[derive(Clone, Copy, PartialEq, Eq, Debug, Error)]
pub enum FilesFault {
    /// The log is not that of a run of this database from where the session stands.
    #[error("the run log does not fit the session or the database")]
    Log,
    #[error("out of memory")]
    Memory,
    #[error("a file could not be read or written")]
    Io,
}

impl From<FileFault> for FilesFault {
    ghost use Rattle.rc_recovery.specs.declared.crash.recovering.FilesFault.TheVariants as fault;
    ghost use Rattle.rc_recovery.specs.declared.two_files.FileFault.TheVariants as file;

    ghost from_gives = { λ from to. (to ≢ fault.Log) × (to ≡ fault.Io → from ≡ file.Io) };

    fn from(fault: FileFault) -> FilesFault {
        match fault {
            FileFault::Memory => FilesFault::Memory,
            FileFault::Io => FilesFault::Io,
        }
    }
}

/// Enters what a command that was cut short has moved, and empties its log. Returns the report, or
/// `None` if there was nothing to enter. If a recovery fails or is cut short, the next one makes it
/// again.
pub fn recover_files<F: TwoFiles>(
    alloc: Global,
    db: Db,
    files: &mut F,
) -> Result<Option<Vec<u8>>, FilesFault>
    requires opened { (g : Files) → F.left files.old g → g ≡ F.holds files.old }
    ensures entered { IfOk result (λ made. IfSome made (λ report.
        IsEntered db (F.holds files.old).file (F.holds files.old).log (F.holds files.new).file
        report.items × ((F.holds files.new).log ≡ []))) }
    ensures nothing { IfOk result (λ made. IfNone made (
        HasNothing db (F.holds files.old).file (F.holds files.old).log
        × (F.holds files.new ≡ record { file = (F.holds files.old).file; log = [] }))) }
    ensures unfit { IsErrOf result FilesFault.Log →
        IsUnfit db (F.holds files.old).file (F.holds files.old).log
        × (F.holds files.new ≡ F.holds files.old) }
    ensures same { IsErrOf result FilesFault.Log → files.new ≡ files.old }
    ensures moment { IsCutRecovery db (F.holds files.old) (F.holds files.new) }
    ensures crash { (g : Files) → F.left files.new g → IsCutRecovery db (F.holds files.old) g }
    ensures io { IsErrOf result FilesFault.Io → F.failed files.new }
{
    let file = files.read_file(alloc)?;
    let log = files.read_log(alloc)?;
    match entry_of(alloc, db, &file, &log) {
        Ok(made) => put_made(files, made),
        Err(fault) => Err(fault),
    }
}

/// Replaces the file with a new text, if there is one, and empties the log. Returns the report, if
/// there is one.
fn put_made<F: TwoFiles>(
    files: &mut F,
    made: Option<Recovered>,
) -> Result<Option<Vec<u8>>, FilesFault>
    ensures done { IfOk result (λ told. MatchOption made
        ((told ≡ None) × (F.holds files.new
        ≡ record { file = (F.holds files.old).file; log = [] }))
        (λ one. (told ≡ Some one.report) × (F.holds files.new
        ≡ record { file = one.text.items; log = [] }))) }
    ensures moment { AfterCrash (recovery_writes (option_map (λ one. one.text.items) made))
        (F.holds files.old) (F.holds files.new) }
    ensures crash { (g : Files) → F.left files.new g → F.left files.old g
        ⊎ AfterCrash (recovery_writes (option_map (λ one. one.text.items) made))
        (F.holds files.old) g }
    ensures fault { IsErrOf result FilesFault.Log → ⊥ }
    ensures io { IsErrOf result FilesFault.Io → F.failed files.new }
{
    match made {
        Some(made) => put_entry(files, made),
        None => {
            files.empty_log()?;
            Ok(None)
        }
    }
}

/// Returns the new text and the report that the bytes of the two files lead to, or `None` if there
/// is nothing to enter.
fn entry_of(alloc: Global, db: Db, file: &[u8], log: &[u8]) -> Result<Option<Recovered>, FilesFault>
    ensures entered { IfOk result (λ made. IfSome made (λ one.
        IsEntered db file.now log.now one.text.items one.report.items)) }
    ensures nothing { IfOk result (λ made. IfNone made (HasNothing db file.now log.now)) }
    ensures unfit { IsErrOf result FilesFault.Log → IsUnfit db file.now log.now }
    ensures fault { IsErrOf result FilesFault.Io → ⊥ }
{
    match recover_text(alloc, db, file, log) {
        Ok(made) => Ok(made),
        Err(fault) => Err(fault_of(fault)),
    }
}

/// Returns the fault of the two files for a fault of their texts.
fn fault_of(fault: RecoverFault) -> FilesFault
    ensures log { result ≡ FilesFault.Log → fault ≡ RecoverFault.Log }
    ensures io { result ≢ FilesFault.Io }
{
    match fault {
        RecoverFault::Log => FilesFault::Log,
        RecoverFault::Memory => FilesFault::Memory,
    }
}

/// Replaces the file with the recovered text, empties the log, and returns the report.
fn put_entry<F: TwoFiles>(files: &mut F, made: Recovered) -> Result<Option<Vec<u8>>, FilesFault>
    ensures done { IfOk result (λ report. (report ≡ Some made.report) × (F.holds files.new
        ≡ record { file = made.text.items; log = [] })) }
    ensures moment { AfterCrash (recovery_writes (Some made.text.items)) (F.holds files.old)
        (F.holds files.new) }
    ensures crash { (g : Files) → F.left files.new g → F.left files.old g
        ⊎ AfterCrash (recovery_writes (Some made.text.items)) (F.holds files.old) g }
    ensures fault { IsErrOf result FilesFault.Log → ⊥ }
    ensures io { IsErrOf result FilesFault.Io → F.failed files.new }
{
    let Recovered { text, report } = made;
    replace_and_empty(files, &text)?;
    Ok(Some(report))
}
