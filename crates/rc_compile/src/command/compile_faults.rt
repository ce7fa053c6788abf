//! Why `compile` writes nothing, and how that is reported.
ghost use Rattle.std.specs.Prelude.{◌≡◌, ◌⊎◌, ◌∷◌, [], ◌++◌, IfOk, OnOk};
ghost use Rattle.rc_compile.specs.CompileRefusals.{IsDeviceFault, IsRefusal, compile_text};
ghost use Rattle.rc_compile.specs.CompileRefusals.{flaw_text, flaw_word, word_with_names};
ghost use Rattle.rc_compile.specs.CompileRefusals.{trees_text};
ghost use Rattle.rc_streams.specs.Input.{AppendsFront, failure_text, fault_line};

use crate::CompileFault;
use rc_names::{Name, NoMem};
use rc_source::{Flaw, SourceFault};
use rc_streams::ending::{FAILED, REFUSED, fail};
use rc_streams::{Failure, tell};
use std::alloc::{AllocError, Global};
use std::io::Write;
use std::slice;
use thiserror::Error;

/// Why trees give no text.
#[derive(Debug, Drop, Error)]
pub enum TreesFault {
    /// A file is not what it is to be, or a device failed.
    #[error(transparent)]
    Source(SourceFault),
    /// What the files say does not fit together.
    #[error(transparent)]
    Definitions(CompileFault),
    #[error("out of memory")]
    Memory,
}

impl From<AllocError> for TreesFault {
    ghost use Rattle.rc_compile.specs.declared.command.compile_faults.TreesFault.TheVariants.{Memory};

    ghost from_gives = { λ _ fault. fault ≡ Memory };

    fn from(_: AllocError) -> Self {
        TreesFault::Memory
    }
}

/// Reports why there is no text, and returns the exit status.
pub fn tell_trees<F: Write>(alloc: Global, faults: &mut F, fault: &TreesFault) -> u8
    ensures statuses { (result ≡ 1) ⊎ (result ≡ 111) }
    ensures refused { result ≡ 1 → IsRefusal fault.now
        × AppendsFront (F.contents faults.old) (F.contents faults.new)
        (fault_line (trees_text fault.now)) }
    ensures failed { result ≡ 111 → (IsDeviceFault fault.now
        × AppendsFront (F.contents faults.old) (F.contents faults.new)
        (fault_line (trees_text fault.now)))
        ⊎ AppendsFront (F.contents faults.old) (F.contents faults.new)
        (fault_line (failure_text Failure.Memory)) }
{
    let status = status_of(fault);
    match trees_text(alloc, fault) {
        Ok(text) => {
            tell(faults, &text);
            status
        }
        Err(_) => fail(faults, Failure::Memory),
    }
}

/// Returns the exit status of a fault.
fn status_of(fault: &TreesFault) -> u8
    ensures statuses { (result ≡ 1) ⊎ (result ≡ 111) }
    ensures refused { result ≡ 1 → IsRefusal fault.now }
    ensures failed { result ≡ 111 → IsDeviceFault fault.now
        ⊎ (trees_text fault.now ≡ failure_text Failure.Memory) }
{
    match fault {
        TreesFault::Source(fault) => match fault.flaw() {
            Flaw::Io | Flaw::Memory => FAILED,
            _ => REFUSED,
        },
        TreesFault::Definitions(CompileFault::Memory) | TreesFault::Memory => FAILED,
        TreesFault::Definitions(_) => REFUSED,
    }
}

/// Returns a fault in words.
fn trees_text(alloc: Global, fault: &TreesFault) -> Result<Vec<u8>, NoMem>
    ensures { IfOk result (λ text. text.items ≡ trees_text fault.now) }
{
    match fault {
        TreesFault::Source(fault) => flaw_text(alloc, fault.flaw(), fault.entry()),
        TreesFault::Definitions(fault) => compile_text(alloc, fault),
        TreesFault::Memory => Vec::from_slice(alloc, b"Memory"),
    }
}

/// Returns the word of a flaw, with the name of its entry after it, if it has one.
fn flaw_text(alloc: Global, flaw: Flaw, entry: &str) -> Result<Vec<u8>, NoMem>
    ensures { IfOk result (λ text. text.items ≡ flaw_text flaw entry.now) }
{
    let mut text = Vec::from_slice(alloc, flaw_word(flaw))?;
    if !entry.is_empty() {
        add_word(&mut text, entry)?;
    }
    Ok(text)
}

/// Returns the word of a flaw.
fn flaw_word(flaw: Flaw) -> &'static [u8]
    ensures { result.now ≡ flaw_word flaw }
{
    match flaw {
        Flaw::Io => b"Io",
        Flaw::NotText => b"NotText",
        Flaw::TooLong => b"TooLong",
        Flaw::BadName => b"BadName",
        Flaw::Twice => b"Twice",
        Flaw::NoType => b"NoType",
        Flaw::BadType => b"BadType",
        Flaw::NoUp => b"NoUp",
        Flaw::NoRun => b"NoRun",
        Flaw::BadTimeout => b"BadTimeout",
        Flaw::Memory => b"Memory",
    }
}

/// Returns the word of a fault of definitions, with its names after it.
fn compile_text(alloc: Global, fault: &CompileFault) -> Result<Vec<u8>, NoMem>
    ensures { IfOk result (λ text. text.items ≡ compile_text fault.now) }
{
    match fault {
        CompileFault::TooMany => Vec::from_slice(alloc, b"TooMany"),
        CompileFault::UnknownIn(entry, name) => told_two(alloc, b"UnknownIn", entry, name),
        CompileFault::BundleCycle(names) => told_all(alloc, b"BundleCycle", names),
        CompileFault::PipelineType(entry) => told_one(alloc, b"PipelineType", entry),
        CompileFault::PipelineMismatch(entry) => told_one(alloc, b"PipelineMismatch", entry),
        CompileFault::PipelineName(entry) => told_one(alloc, b"PipelineName", entry),
        CompileFault::Cycle(names) => told_all(alloc, b"Cycle", names),
        CompileFault::Memory => Vec::from_slice(alloc, b"Memory"),
    }
}

/// Returns a word with a name after it.
fn told_one(alloc: Global, word: &[u8], name: &Name) -> Result<Vec<u8>, NoMem>
    ensures { IfOk result (λ text. text.items ≡ word_with_names word.now (name.now ∷ [])) }
{
    told_all(alloc, word, slice::from_ref(name))
}

/// Returns a word with two names after it.
fn told_two(alloc: Global, word: &[u8], first: &Name, second: &Name) -> Result<Vec<u8>, NoMem>
    ensures { IfOk result (λ text. text.items
        ≡ word_with_names word.now (first.now ∷ second.now ∷ [])) }
{
    let mut text = told_one(alloc, word, first)?;
    add_word(&mut text, second.text())?;
    Ok(text)
}

/// Returns a word with names after it.
fn told_all(alloc: Global, word: &[u8], names: &[Name]) -> Result<Vec<u8>, NoMem>
    ensures { IfOk result (λ text. text.items ≡ word_with_names word.now names.now) }
{
    let mut text = Vec::from_slice(alloc, word)?;
    for name in names {
        add_word(&mut text, name.text())?;
    }
    Ok(text)
}

/// Appends a space and a word to a text.
fn add_word(text: &mut Vec<u8>, word: &str) -> Result<(), NoMem>
    ensures { OnOk result (text.new.items ≡ text.old.items ++ 32 ∷ word.now) }
{
    text.push(b' ')?;
    text.extend_from_slice(word.as_bytes())
}
