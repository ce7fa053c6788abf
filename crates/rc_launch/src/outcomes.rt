//! The statuses of a command of several steps, and what it writes beside the answers of its steps.
ghost use Rattle.std.specs.Prelude.{◌≡◌, ◌≢◌, ◌⊎◌};
ghost use Rattle.std.specs.Io.KnownBytes.{Appends};
ghost use Rattle.rc_streams.specs.Noting.{inner_of};
ghost use Rattle.rc_cli.specs.SessionFaults.{IsTold};
ghost use Rattle.rc_cli.specs.Storing.{store_of};
ghost use Rattle.rc_launch.specs.Halted.{IsBehindRun};
ghost use Rattle.rc_launch.specs.declared.numbers.GenerationFault.TheVariants as generation;

use crate::numbers::GenerationFault;
use rc_cli::sessions::{Devices, SessionFault, tell_ended};
use rc_serve::KeepFault;
use rc_streams::ending::{DONE, FAILED, REFUSED};
use rc_streams::tell;
use rc_streams::writing::write_answer;
use std::alloc::Global;
use std::io::Write;

/// Something was carried out, and not all of it is done.
const HINDERED: u8 = 2;

/// Returns the status of a command that ended with this code after a part of it was carried out.
pub(crate) fn hindered(code: u8) -> u8
    ensures { IsBehindRun code result }
{
    if code == REFUSED { HINDERED } else { code }
}

/// Writes the answer of a command that moved nothing, and returns the status.
pub(crate) fn say_done<R, W: Write, F: Write, S>(
    answer: &[u8],
    devices: &mut Devices<R, W, F, S>,
) -> u8
    ensures same { store_of devices.new.outputs.keeper ≡ store_of devices.old.outputs.keeper }
    ensures kept { devices.new.outputs.keeper ≡ devices.old.outputs.keeper }
    ensures statuses { (result ≡ 0) ⊎ (result ≡ 111) }
    ensures written { result ≡ 0 → Appends (W.contents (inner_of devices.old.outputs.writer))
        (W.contents (inner_of devices.new.outputs.writer)) answer.now }
{
    match write_answer(&mut devices.outputs.writer, answer) {
        Ok(()) => DONE,
        Err(_) => fail_on(b"Write", devices),
    }
}

/// Reports a border at which services would have to move, and returns the status. Nothing has
/// moved.
pub(crate) fn tell_unjoined<R, W, F: Write, S>(
    alloc: Global,
    border: usize,
    devices: &mut Devices<R, W, F, S>,
) -> u8
    ensures refused { result ≢ 0 }
    ensures statuses { (result ≡ 1) ⊎ (result ≡ 111) }
    ensures outputs { devices.new.outputs ≡ devices.old.outputs }
    ensures same { store_of devices.new.outputs.keeper ≡ store_of devices.old.outputs.keeper }
{
    match format!(in alloc; "NotJoined {border}") {
        Ok(text) => {
            tell(&mut devices.faults, text.as_bytes());
            drop(text);
            REFUSED
        }
        Err(_) => fail_on(b"Memory", devices),
    }
}

/// Reports a generation whose texts are not those of a database and of a session of it, by the
/// border beside it, and returns the status. Nothing has moved.
pub(crate) fn tell_untold<R, W, F: Write, S>(
    alloc: Global,
    fault: GenerationFault,
    devices: &mut Devices<R, W, F, S>,
) -> u8
    ensures refused { (result ≡ 1) ⊎ (result ≡ 111) }
    ensures untold { result ≡ 1 → fault ≢ generation.Memory }
    ensures outputs { devices.new.outputs ≡ devices.old.outputs }
    ensures same { store_of devices.new.outputs.keeper ≡ store_of devices.old.outputs.keeper }
{
    match fault {
        GenerationFault::Untold(place) => tell_unjoined(alloc, place.max(1), devices),
        GenerationFault::Memory => fail_on(b"Memory", devices),
    }
}

/// Reports a state to which no undo goes back, and returns the status. Nothing has moved.
pub(crate) fn tell_unkept<R, W, F: Write, S>(
    alloc: Global,
    state: u32,
    devices: &mut Devices<R, W, F, S>,
) -> u8
    ensures refused { (result ≡ 1) ⊎ (result ≡ 111) }
    ensures same { store_of devices.new.outputs.keeper ≡ store_of devices.old.outputs.keeper }
{
    match format!(in alloc; "NoState {state}") {
        Ok(text) => {
            tell(&mut devices.faults, text.as_bytes());
            drop(text);
            REFUSED
        }
        Err(_) => fail_on(b"Memory", devices),
    }
}

/// Reports why a session is not begun, and returns the status. Nothing has moved.
pub(crate) fn tell_refused<R, W, F: Write, S>(
    alloc: Global,
    fault: SessionFault<'_>,
    devices: &mut Devices<R, W, F, S>,
) -> u8
    ensures refused { (result ≡ 1) ⊎ (result ≡ 111) }
    ensures told { IsTold fault.entry result (F.contents devices.old.faults)
        (F.contents devices.new.faults) }
    ensures outputs { devices.new.outputs ≡ devices.old.outputs }
    ensures same { store_of devices.new.outputs.keeper ≡ store_of devices.old.outputs.keeper }
{
    tell_ended(alloc, &mut devices.faults, Err(fault))
}

/// Reports a failure, and returns the status.
pub(crate) fn fail_on<R, W, F: Write, S>(word: &[u8], devices: &mut Devices<R, W, F, S>) -> u8
    ensures failed { result ≡ 111 }
    ensures outputs { devices.new.outputs ≡ devices.old.outputs }
    ensures same { store_of devices.new.outputs.keeper ≡ store_of devices.old.outputs.keeper }
{
    tell(&mut devices.faults, word);
    FAILED
}

/// Returns the word for a write that failed.
pub(crate) fn word_of(fault: KeepFault) -> &'static [u8] {
    match fault {
        KeepFault::Io => b"Io",
        KeepFault::Memory => b"Memory",
    }
}
