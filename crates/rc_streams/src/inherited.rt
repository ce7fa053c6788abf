//! What a program inherits from the one that starts it, and with which scripts can't be run.

ghost use Rattle.std.specs.Prelude.{◌≡◌};
ghost use Rattle.rc_streams.specs.Inheriting.{unfit_of};

use crate::umask::STATUS;
use libc::types::rlimit;
use std::fs::File;
use std::os::unix::fs::FileExt;

/// What stands in the system's account before the signals that the program ignores, as a
/// hexadecimal number in which signal N is bit N - 1.
const IGNORED: &[u8] = b"SigIgn:\t";

/// SIGCHLD and SIGXFSZ in such a number.
const CHILD: u64 = 1 << 16;

const SIZE: u64 = 1 << 24;

/// The argument for which getrlimit returns the most bytes that a file may have.
const FILE_SIZE: i32 = 1;

/// Why a program can't run scripts as it was started.
#[derive(Clone, Copy, PartialEq, Eq, Debug)]
pub enum Unfit {
    /// It ignores SIGCHLD: the system keeps no status of a script for it.
    ChildIgnored,
    /// Files are limited in size, and it does not ignore the signal that ends it at that limit.
    SizeLimited,
}

/// Returns the reason why this program cannot run scripts, or none if it can. If the system gives
/// no account of the program, ignored signals are not seen.
pub fn unfit_for_scripts(rt: &HostRuntime) -> Option<Unfit> {
    let ignored = ignored_signals(rt);
    unfit_by(ignored & CHILD != 0, is_size_limited(), ignored & SIZE != 0)
}

/// Returns the reason why a program cannot run scripts, by its ignored signals and its limit on the
/// size of files.
fn unfit_by(ignores_child: bool, is_limited: bool, ignores_size: bool) -> Option<Unfit>
    ensures { result ≡ unfit_of ignores_child is_limited ignores_size }
{
    if ignores_child {
        return Some(Unfit::ChildIgnored);
    }
    if is_limited && !ignores_size {
        return Some(Unfit::SizeLimited);
    }
    None
}

/// Returns the signals that this program ignores, or 0 if they cannot be seen.
fn ignored_signals(rt: &HostRuntime) -> u64 {
    match File::open(rt, STATUS) {
        Ok(status) => {
            let ignored = ignored_in(&status).unwrap_or(0);
            drop(status);
            ignored
        }
        Err(_) => 0,
    }
}

/// Reads the ignored signals from the file of the system's account.
fn ignored_in(status: &File) -> Option<u64> {
    let mut buffer = [0; 4096];
    let count = status.read_at(&mut buffer, 0).ok()?;
    ignored_of(&buffer[..count.min(4096)])
}

/// Parses the ignored signals from the text of the system's account.
fn ignored_of(account: &[u8]) -> Option<u64> {
    for line in account.split(|byte| *byte == b'\n') {
        if let Some(number) = line.strip_prefix(IGNORED) {
            let digits = str::from_utf8(number).ok()?;
            return u64::from_str_radix(digits.trim(), 16).ok();
        }
    }
    None
}

/// Returns true if the files that the program writes are limited in size.
fn is_size_limited() -> bool {
    let mut limit = rlimit {
        rlim_cur: u64::MAX,
        rlim_max: u64::MAX,
    };
    let _ = libc::getrlimit(FILE_SIZE, &mut limit);
    limit.rlim_cur != u64::MAX
}
