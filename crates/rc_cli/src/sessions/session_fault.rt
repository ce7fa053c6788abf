//! Why a session of the program ends, and how that is reported.
ghost use Rattle.std.specs.Prelude.{◌≡◌, ◌++◌, codes, IfOk};
ghost use Rattle.rc_streams.specs.Input.{AppendsFront, fault_line};
ghost use Rattle.rc_cli.specs.SessionFaults.{IsGateFailing, IsLiveFailing, IsRefusal};
ghost use Rattle.rc_cli.specs.SessionFaults.{IsTextFailing, IsTold, serve_word};
ghost use Rattle.rc_cli.specs.SessionFaults.{session_fault_text};
ghost use Rattle.rc_cli.specs.declared.sessions.session_fault.SessionFault.TheVariants.{Failed};
ghost use Rattle.rc_serve.specs.declared.fault.ServeFault.TheVariants.{Memory};

use crate::sessions::failing::GateFault;
use rc_db::NoMem;
use rc_dbtext::{TextFault, text_word};
use rc_livetext::{LiveFault, live_word};
use rc_render::unknown_word;
use rc_serve::ServeFault;
use rc_streams::ending::{FAILED, REFUSED};
use rc_streams::tell;
use std::alloc::{AllocError, Global};
use std::io::Write;
use thiserror::Error;

/// Why a session ends before its input does, or is not begun.
#[derive(Debug, Drop, Error)]
pub enum SessionFault<'a> {
    /// The database text is none.
    #[error(transparent)]
    OfText(TextFault),
    /// This name stands in `-x` or in a conversion, and no service has it.
    #[error("no service is named {}", .0.escape_ascii())]
    Unknown(&'a [u8]),
    /// The file's text is none of a session on the database.
    #[error(transparent)]
    OfLive(LiveFault),
    /// The longrun of this name would be moved, and no program is named that controls it.
    #[error("no program controls {0}")]
    NoController(String),
    /// A device, memory or a thread failed.
    #[error(transparent)]
    Failed(ServeFault),
}

impl From<AllocError> for SessionFault<'_> {
    ghost from_gives = { λ _ fault. fault ≡ Failed Memory };

    fn from(_: AllocError) -> Self {
        SessionFault::Failed(ServeFault::Memory)
    }
}

impl From<TextFault> for SessionFault<'_> {
    ghost from_gives = { IsTextFailing };

    fn from(fault: TextFault) -> Self {
        match fault {
            TextFault::Memory => SessionFault::Failed(ServeFault::Memory),
            fault => SessionFault::OfText(fault),
        }
    }
}

impl From<LiveFault> for SessionFault<'_> {
    ghost from_gives = { IsLiveFailing };

    fn from(fault: LiveFault) -> Self {
        match fault {
            LiveFault::Memory => SessionFault::Failed(ServeFault::Memory),
            fault => SessionFault::OfLive(fault),
        }
    }
}

impl<'a> From<GateFault<'a>> for SessionFault<'a> {
    ghost from_gives = { IsGateFailing };

    fn from(fault: GateFault<'a>) -> Self {
        match fault {
            GateFault::Unknown(word) => SessionFault::Unknown(word),
            GateFault::Memory => SessionFault::Failed(ServeFault::Memory),
        }
    }
}

impl From<ServeFault> for SessionFault<'_> {
    ghost from_gives = { λ from fault. fault ≡ Failed from };

    fn from(fault: ServeFault) -> Self {
        SessionFault::Failed(fault)
    }
}

/// Reports why a session ended, and returns the exit status.
pub(crate) fn tell_session_fault<F: Write>(
    alloc: Global,
    faults: &mut F,
    fault: SessionFault<'_>,
) -> u8
    ensures { IsTold fault.entry result (F.contents faults.old) (F.contents faults.new) }
{
    match fault {
        SessionFault::Failed(failing) => fail_serving(faults, failing),
        SessionFault::OfText(_) => tell_refusal(alloc, faults, fault),
        SessionFault::Unknown(_) => tell_refusal(alloc, faults, fault),
        SessionFault::OfLive(_) => tell_refusal(alloc, faults, fault),
        SessionFault::NoController(_) => tell_refusal(alloc, faults, fault),
    }
}

// Reports a refusal, or that there was no memory to report it, and returns the exit status.
fn tell_refusal<F: Write>(alloc: Global, faults: &mut F, fault: SessionFault<'_>) -> u8
    requires { IsRefusal fault }
    ensures { IsTold fault.entry result (F.contents faults.old) (F.contents faults.new) }
{
    let text = text_of(alloc, &fault);
    drop(fault);
    match text {
        Ok(text) => {
            tell(faults, &text);
            REFUSED
        }
        Err(_) => fail_serving(faults, ServeFault::Memory),
    }
}

// Reports a fault of serving, and returns the exit status.
fn fail_serving<F: Write>(faults: &mut F, fault: ServeFault) -> u8
    ensures status { result ≡ 111 }
    ensures told { AppendsFront (F.contents faults.old) (F.contents faults.new)
        (fault_line (serve_word fault)) }
{
    tell(faults, serve_word(fault));
    FAILED
}

// Returns the word for a fault of serving.
fn serve_word(fault: ServeFault) -> &'static [u8]
    ensures { result.now ≡ serve_word fault }
{
    match fault {
        ServeFault::Read => b"Read",
        ServeFault::Write => b"Write",
        ServeFault::TooLong => b"TooLong",
        ServeFault::Memory => b"Memory",
        ServeFault::NoThread => b"NoThread",
        ServeFault::Strange => b"Strange",
        ServeFault::Workers => b"Workers",
        ServeFault::Io => b"Io",
    }
}

// Returns the words for a fault, with the name if it is about an unknown name or a longrun.
fn text_of(alloc: Global, fault: &SessionFault<'_>) -> Result<Vec<u8>, NoMem>
    ensures { IfOk result (λ text. text.items ≡ session_fault_text fault.now) }
{
    match fault {
        SessionFault::OfText(fault) => text_word(alloc, *fault),
        SessionFault::Unknown(word) => unknown_word(alloc, word),
        SessionFault::OfLive(fault) => live_word(alloc, *fault),
        SessionFault::NoController(name) => uncontrolled_word(alloc, name),
        SessionFault::Failed(fault) => Vec::from_slice(alloc, serve_word(*fault)),
    }
}

// Returns the words for a longrun of the given name that no program controls.
fn uncontrolled_word(alloc: Global, name: &str) -> Result<Vec<u8>, NoMem>
    ensures { IfOk result (λ text. text.items ≡ codes "NoController " ++ name.now) }
{
    let mut text = Vec::from_slice(alloc, b"NoController ")?;
    text.extend_from_slice(name.as_bytes())?;
    Ok(text)
}
