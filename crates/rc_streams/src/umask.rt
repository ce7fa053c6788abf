//! The rights of a file that the program makes.

use std::fs::{File, Permissions};
use std::os::unix::fs::{FileExt, PermissionsExt};

/// The system's account of the program.
pub(crate) const STATUS: &str = "/proc/self/status";

/// The text there before the umask, which is an octal number.
const UMASK: &[u8] = b"Umask:\t";

/// The most permissions of a new file: all may read it, and its owner may write it.
const MOST: u32 = 0o644;

/// Returns the permissions of a new file, less those that the program's umask takes. If the umask
/// cannot be seen, only the owner gets any.
pub(crate) fn new_rights(rt: &HostRuntime) -> Permissions {
    let taken = match File::open(rt, STATUS) {
        Ok(status) => {
            let taken = umask_in(&status);
            drop(status);
            taken
        }
        Err(_) => None,
    };
    match taken {
        Some(taken) => Permissions::from_mode(MOST & !taken | 0o600),
        None => Permissions::from_mode(0o600),
    }
}

/// Reads the umask from the file of the system's account.
fn umask_in(status: &File) -> Option<u32> {
    let mut buffer = [0; 4096];
    let count = status.read_at(&mut buffer, 0).ok()?;
    umask_of(&buffer[..count.min(4096)])
}

/// Parses the umask from the text of the system's account.
fn umask_of(account: &[u8]) -> Option<u32> {
    for line in account.split(|byte| *byte == b'\n') {
        if let Some(number) = line.strip_prefix(UMASK) {
            let digits = str::from_utf8(number).ok()?;
            return u32::from_str_radix(digits, 8).ok();
        }
    }
    None
}
