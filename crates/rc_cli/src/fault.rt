//! Why a command has no answer, and how it ends then: `Fault`, with the words that are printed for
//! it and its exit status in one `match` each.
ghost use Rattle.std.specs.Prelude.{◌≡◌, IfOk};
ghost use Rattle.rc_streams.specs.declared.input.Failure.TheVariants.{Memory};
ghost use Rattle.rc_cli.specs.Faults.{IsFromLive, IsFromName, IsFromOpen, IsFromScript};
ghost use Rattle.rc_cli.specs.Faults.{IsFromText};
ghost use Rattle.rc_cli.specs.Faults.{IsReported, fault_status, fault_word};
ghost use Rattle.rc_cli.specs.declared.fault.Fault.TheVariants.{Device};

use rc_db::NoMem;
use rc_dbtext::{OpenFault, TextFault, text_word};
use rc_livetext::{LiveFault, live_word};
use rc_render::unknown_word;
use rc_script::ScriptFault;
use rc_streams::ending::{FAILED, REFUSED, fail};
use rc_streams::{Failure, failure_word, tell};
use std::alloc::{AllocError, Global};
use std::io::Write;

/// Why a command has no answer.
#[derive(Drop)]
pub(crate) enum Fault {
    /// The text of the database is refused.
    Text(TextFault),
    /// The text of the session is refused.
    Live(LiveFault),
    /// Nothing has this name.
    Unknown(Vec<u8>),
    /// Services are up without one that they depend on.
    NotClosed,
    /// A change that lowers does not prune.
    PruneNeedsUp,
    /// The name of a bundle stands where that of a service is due.
    NotAtomic,
    /// The name of a service stands where that of a bundle is due.
    NotBundle,
    /// The name of a oneshot stands where that of a longrun is due.
    NotLongrun,
    /// The name of a longrun stands where that of a oneshot is due.
    NotOneshot,
    /// The line of this number after the database may not stand where it does.
    BadLine(usize),
    /// A device failed, the input is too long, or memory ran out.
    Device(Failure),
}

impl From<AllocError> for Fault {
    ghost from_gives = { λ _ fault. fault ≡ Device Memory };

    fn from(_: AllocError) -> Self {
        Fault::Device(Failure::Memory)
    }
}

impl From<TextFault> for Fault {
    ghost from_gives = { IsFromText };

    fn from(fault: TextFault) -> Self {
        match fault {
            TextFault::Memory => Fault::Device(Failure::Memory),
            fault => Fault::Text(fault),
        }
    }
}

impl From<OpenFault> for Fault {
    ghost from_gives = { IsFromOpen };

    fn from(fault: OpenFault) -> Self {
        match fault {
            OpenFault::OfText(wrong) => Fault::from(wrong),
            OpenFault::Failed(failure) => Fault::Device(failure),
        }
    }
}

impl From<LiveFault> for Fault {
    ghost from_gives = { IsFromLive };

    fn from(fault: LiveFault) -> Self {
        match fault {
            LiveFault::Memory => Fault::Device(Failure::Memory),
            fault => Fault::Live(fault),
        }
    }
}

impl From<ScriptFault> for Fault {
    ghost from_gives = { IsFromScript };

    fn from(fault: ScriptFault) -> Self {
        match fault {
            ScriptFault::BadLine(number) => Fault::BadLine(number),
            ScriptFault::Memory => Fault::Device(Failure::Memory),
        }
    }
}

/// Creates the fault of a name that nothing has.
pub(crate) fn unknown_name(alloc: Global, name: &[u8]) -> Fault
    ensures { IsFromName name.now result }
{
    match Vec::from_slice(alloc, name) {
        Ok(name) => Fault::Unknown(name),
        Err(_) => Fault::Device(Failure::Memory),
    }
}

/// Prints the line of a fault, and returns the exit status. If there is no memory for the line, it
/// prints that.
pub(crate) fn print_fault<F: Write>(alloc: Global, faults: &mut F, fault: &Fault) -> u8
    ensures { IsReported fault.now result (F.contents faults.old) (F.contents faults.new) }
{
    if let Fault::Device(failure) = fault {
        return fail(faults, *failure);
    }
    match fault_word(alloc, fault) {
        Ok(word) => {
            tell(faults, &word);
            fault_status(fault)
        }
        Err(_) => fail(faults, Failure::Memory),
    }
}

/// Returns the words that are printed for a fault.
fn fault_word(alloc: Global, fault: &Fault) -> Result<Vec<u8>, NoMem>
    ensures { IfOk result (λ word. word.items ≡ fault_word fault.now) }
{
    match fault {
        Fault::Text(fault) => text_word(alloc, *fault),
        Fault::Live(fault) => live_word(alloc, *fault),
        Fault::Unknown(name) => unknown_word(alloc, name),
        Fault::NotClosed => Vec::from_slice(alloc, b"NotClosed"),
        Fault::PruneNeedsUp => Vec::from_slice(alloc, b"PruneNeedsUp"),
        Fault::NotAtomic => Vec::from_slice(alloc, b"NotAtomic"),
        Fault::NotBundle => Vec::from_slice(alloc, b"NotBundle"),
        Fault::NotLongrun => Vec::from_slice(alloc, b"NotLongrun"),
        Fault::NotOneshot => Vec::from_slice(alloc, b"NotOneshot"),
        Fault::BadLine(number) => Ok(format!(in alloc; "BadLine {number}")?.into_bytes()),
        Fault::Device(failure) => Vec::from_slice(alloc, failure_word(*failure)),
    }
}

/// Returns the exit status of a fault.
fn fault_status(fault: &Fault) -> u8
    ensures { result ≡ fault_status fault.now }
{
    match fault {
        Fault::Device(_) => FAILED,
        _ => REFUSED,
    }
}
