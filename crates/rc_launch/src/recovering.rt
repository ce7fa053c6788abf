//! A recovery of the two files of a session, by the text of a database.
ghost use Rattle.std.specs.Prelude.{◌≡◌, ◌≢◌, ℕ, List, IfNone, IfOk, IfSome, IsErrOf};
ghost use Rattle.rc_recovery.specs.RunLog.{HasNothing, IsEntered, IsUnfit};
ghost use Rattle.rc_recovery.specs.Files.{Files};
ghost use Rattle.rc_launch.specs.Recovering.{IsNoBase, IsOn, IsUnread, Leaves, LeavesCut};
ghost use Rattle.rc_launch.specs.Recovering.{LeavesNothing, LeavesUnfit};

use rc_dbtext::{TextFault, database_of};
use rc_recovery::{FilesFault, RecoverFault, Recovered, TwoFiles, recover_files, recover_text};
use std::alloc::Global;
use thiserror::Error;

/// Why what a command has moved is not entered.
#[derive(Clone, Copy, PartialEq, Eq, Debug, Error)]
pub enum Unrecovered {
    /// The text is not that of a database. Nothing was looked at.
    #[error("the database can't be read")]
    Database,
    /// The log is not that of a run of this database from the current state of the session. It
    /// stays.
    #[error("the run log does not fit the session or the database")]
    Log,
    #[error("out of memory")]
    Memory,
    /// A file could not be read or written. The next recovery is as good as this one.
    #[error("a file could not be read or written")]
    Io,
}

impl From<FilesFault> for Unrecovered {
    ghost use Rattle.rc_recovery.specs.declared.crash.recovering.FilesFault.TheVariants as from;
    ghost use Rattle.rc_launch.specs.declared.recovering.Unrecovered.TheVariants as to;

    ghost from_gives = { λ fault given. (given ≡ to.Log → fault ≡ from.Log)
        × (given ≡ to.Io → fault ≡ from.Io) × (given ≢ to.Database) };

    fn from(fault: FilesFault) -> Unrecovered {
        match fault {
            FilesFault::Log => Unrecovered::Log,
            FilesFault::Memory => Unrecovered::Memory,
            FilesFault::Io => Unrecovered::Io,
        }
    }
}

/// Enters what the run log of a session leaves, by the text of a database, and empties the log.
/// Returns the report, or `None` if there is nothing to enter. If a recovery is cut short, the next
/// one leads to the same text.
pub fn recover_by<F: TwoFiles>(
    alloc: Global,
    base: &[u8],
    files: &mut F,
) -> Result<Option<Vec<u8>>, Unrecovered>
    requires opened { (g : Files) → F.left files.old g → g ≡ F.holds files.old }
    ensures entered { IfOk result (λ made. IfSome made (λ report.
        Leaves base.now (F.holds files.old) (F.holds files.new) report.items)) }
    ensures nothing { IfOk result (λ made. IfNone made (
        LeavesNothing base.now (F.holds files.old) (F.holds files.new))) }
    ensures unfit { IsErrOf result Unrecovered.Log →
        LeavesUnfit base.now (F.holds files.old) (F.holds files.new) }
    ensures same { IsErrOf result Unrecovered.Log → files.new ≡ files.old }
    ensures no_base { IsErrOf result Unrecovered.Database →
        IsNoBase base.now × (F.holds files.new ≡ F.holds files.old) }
    ensures io { IsErrOf result Unrecovered.Io → F.failed files.new }
    ensures crash { (g : Files) → F.left files.new g → LeavesCut base.now (F.holds files.old) g }
{
    let db = match database_of(alloc, Some(base), &[]) {
        Ok((db, _none)) => db,
        Err(fault) => return Err(unread(fault)),
    };
    match recover_files(alloc, db, files) {
        Ok(made) => Ok(made),
        Err(fault) => Err(Unrecovered::from(fault)),
    }
}

/// Returns the report of what a recovery would enter, from the bytes of the two files. Returns
/// `None` if there is nothing to enter.
pub fn left_report(
    alloc: Global,
    base: &[u8],
    file: &[u8],
    log: &[u8],
) -> Result<Option<Vec<u8>>, Unrecovered>
    ensures entered { IfOk result (λ made. IfSome made (λ report. IsOn base.now
        (λ d. (entered : List ℕ) × IsEntered d file.now log.now entered report.items))) }
    ensures nothing { IfOk result (λ made. IfNone made (
        IsOn base.now (λ d. HasNothing d file.now log.now))) }
    ensures unfit { IsErrOf result Unrecovered.Log →
        IsOn base.now (λ d. IsUnfit d file.now log.now) }
    ensures no_base { IsErrOf result Unrecovered.Database → IsNoBase base.now }
    ensures quiet { IsErrOf result Unrecovered.Io → ⊥ }
{
    let db = match database_of(alloc, Some(base), &[]) {
        Ok((db, _none)) => db,
        Err(fault) => return Err(unread(fault)),
    };
    match recover_text(alloc, db, file, log) {
        Ok(Some(Recovered { text, report })) => {
            drop(text);
            Ok(Some(report))
        }
        Ok(None) => Ok(None),
        Err(RecoverFault::Log) => Err(Unrecovered::Log),
        Err(RecoverFault::Memory) => Err(Unrecovered::Memory),
    }
}

// Returns the fault for a database that is not read.
fn unread(fault: TextFault) -> Unrecovered
    ensures { IsUnread fault result }
{
    match fault {
        TextFault::Memory => Unrecovered::Memory,
        _ => Unrecovered::Database,
    }
}
