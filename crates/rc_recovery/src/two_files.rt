//! The two files in which a session is kept, as a program reads and writes them.
ghost use Rattle.std.specs.Prelude.{◌≡◌, ◌⊎◌, ◌∷◌, [], IfOk, IsErrOf, OnOk};
ghost use Rattle.rc_recovery.specs.Files.{AfterCrash, Append, Empty, Files, Replace, after};

use std::alloc::Global;
use thiserror::Error;

/// Why a file was not read or not written.
#[derive(Clone, Copy, PartialEq, Eq, Debug, Error)]
pub enum FileFault {
    #[error("out of memory")]
    Memory,
    #[error("a file could not be read or written")]
    Io,
}

/// The file of a session, and its run log. A write that fails has done what a crash within it may
/// do: nothing, or a part.
pub trait TwoFiles {
    /// Returns the contents of the two files.
    ghost holds: { Self → Files };

    /// States that a crash may have left these contents of the files, at some moment since they
    /// were opened. What they hold is among these contents, as each call says.
    ghost left: { Self → Files → Type 0 };

    /// States that a call has failed because of the device, or that a call that reads may fail so.
    ghost failed: { Self → Type 0 };

    /// Reads the bytes of the file.
    fn read_file(&self, alloc: Global) -> Result<Vec<u8>, FileFault>
        ensures held { left self.now (holds self.now) }
        ensures bytes { IfOk result (λ bytes. bytes.items ≡ (holds self.now).file) }
        ensures io { IsErrOf result FileFault.Io → failed self.now };

    /// Reads the bytes of the log.
    fn read_log(&self, alloc: Global) -> Result<Vec<u8>, FileFault>
        ensures held { left self.now (holds self.now) }
        ensures bytes { IfOk result (λ bytes. bytes.items ≡ (holds self.now).log) }
        ensures io { IsErrOf result FileFault.Io → failed self.now };

    /// Appends bytes to the log, by one write.
    fn append_log(&mut self, bytes: &[u8]) -> Result<(), FileFault>
        ensures done { OnOk result (holds self.new ≡ after (holds self.old) (Append bytes.now)) }
        ensures held { left self.new (holds self.new) }
        ensures moment { AfterCrash (Append bytes.now ∷ []) (holds self.old) (holds self.new) }
        ensures crash { (g : Files) → left self.new g →
            left self.old g ⊎ AfterCrash (Append bytes.now ∷ []) (holds self.old) g }
        ensures io { IsErrOf result FileFault.Io → failed self.new };

    /// Replaces the file whole.
    fn replace_file(&mut self, text: &[u8]) -> Result<(), FileFault>
        ensures done { OnOk result (holds self.new ≡ after (holds self.old) (Replace text.now)) }
        ensures held { left self.new (holds self.new) }
        ensures moment { AfterCrash (Replace text.now ∷ []) (holds self.old) (holds self.new) }
        ensures crash { (g : Files) → left self.new g →
            left self.old g ⊎ AfterCrash (Replace text.now ∷ []) (holds self.old) g }
        ensures io { IsErrOf result FileFault.Io → failed self.new };

    /// Empties the log.
    fn empty_log(&mut self) -> Result<(), FileFault>
        ensures done { OnOk result (holds self.new ≡ after (holds self.old) Empty) }
        ensures held { left self.new (holds self.new) }
        ensures moment { AfterCrash (Empty ∷ []) (holds self.old) (holds self.new) }
        ensures crash { (g : Files) → left self.new g →
            left self.old g ⊎ AfterCrash (Empty ∷ []) (holds self.old) g }
        ensures io { IsErrOf result FileFault.Io → failed self.new };
}

/// Begins the log of a command anew, with the text of the file and the line of the step.
pub fn begin_log<F: TwoFiles>(files: &mut F, head: &[u8]) -> Result<(), FileFault>
    ensures done { OnOk result (F.holds files.new
        ≡ record { file = (F.holds files.old).file; log = head.now }) }
    ensures moment { AfterCrash (Empty ∷ Append head.now ∷ []) (F.holds files.old)
        (F.holds files.new) }
    ensures crash { (g : Files) → F.left files.new g → F.left files.old g
        ⊎ AfterCrash (Empty ∷ Append head.now ∷ []) (F.holds files.old) g }
    ensures io { IsErrOf result FileFault.Io → F.failed files.new }
{
    files.empty_log()?;
    files.append_log(head)
}

/// Replaces the file, and then empties the log, which belongs to the text before.
pub fn replace_and_empty<F: TwoFiles>(files: &mut F, text: &[u8]) -> Result<(), FileFault>
    ensures done { OnOk result (F.holds files.new ≡ record { file = text.now; log = [] }) }
    ensures moment { AfterCrash (Replace text.now ∷ Empty ∷ []) (F.holds files.old)
        (F.holds files.new) }
    ensures crash { (g : Files) → F.left files.new g → F.left files.old g
        ⊎ AfterCrash (Replace text.now ∷ Empty ∷ []) (F.holds files.old) g }
    ensures io { IsErrOf result FileFault.Io → F.failed files.new }
{
    files.replace_file(text)?;
    files.empty_log()
}
