//! The lock of the file of a session, once it was asked for.
ghost use Rattle.std.specs.Prelude.{◌≡◌, ◌↔◌, IfOk, IsSome, IsTrue};

use rc_streams::live_lock::{LiveLock, LockFault};

/// What came of asking for a lock: it is held until this is dropped, or there is none, since a
/// device or a folder stands there. Nothing but asking makes one.
#[derive(Drop)]
pub(crate) struct TriedLock<'a> {
    path: &'a str,
    lock: Option<LiveLock>,
}

impl<'a> TriedLock<'a> {
    /// Asks for the lock of the session of this file. If another program holds it, `waits` says
    /// whether to wait for it. `is_of_lines` says whether this program serves the lines of an
    /// input.
    pub fn take(
        rt: &HostRuntime,
        path: &'a str,
        waits: bool,
        is_of_lines: bool,
    ) -> Result<TriedLock<'a>, LockFault>
        ensures { IfOk result (λ tried. tried.path ≡ path.entry) }
    {
        Ok(TriedLock {
            path,
            lock: LiveLock::take(rt, path, waits, is_of_lines)?,
        })
    }

    /// Returns the path of the file.
    pub fn path(&self) -> &'a str
        ensures { result ≡ self.now.path }
    {
        self.path
    }

    /// Returns true if the lock is held.
    pub fn is_held(&self) -> bool
        ensures { IsTrue result ↔ IsSome self.now.lock }
    {
        self.lock.is_some()
    }
}
