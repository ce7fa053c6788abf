//! What a run log says while its command is under way.
ghost use Rattle.std.specs.Prelude.{◌≡◌, map, IfOk};
ghost use Rattle.rc_session.specs.Commands.{command_of};
ghost use Rattle.rc_recovery.specs.Logged.{AreLogged, events_logged};

use crate::entering::logged;
use crate::texts::{behind, whole_lines};
use rc_core::Event;
use rc_names::Names;
use rc_script::{ScriptFault, read_script};
use rc_session::{NoMem, Step};
use std::alloc::{AllocError, Global};

/// Returns the events that the run log of a text has for its command, over the services of the
/// given names. Returns none if the log is of another text, or fits no command.
pub fn logged_events(
    alloc: Global,
    names: &Names,
    text: &[u8],
    log: &[u8],
) -> Result<Vec<Event>, NoMem>
    ensures { IfOk result (λ events. AreLogged names.now text.now log.now events.items) }
{
    let Some(rest) = behind(text, log) else {
        return Ok(Vec::new(alloc));
    };
    match read_script(alloc, names, whole_lines(rest)) {
        Ok(steps) => events_of(alloc, &steps),
        Err(ScriptFault::Memory) => Err(AllocError),
        Err(ScriptFault::BadLine(_)) => Ok(Vec::new(alloc)),
    }
}

/// Returns the events of one step, and none if there is no step or there are several.
fn events_of(alloc: Global, steps: &[Step]) -> Result<Vec<Event>, NoMem>
    ensures { IfOk result (λ events. events.items ≡ events_logged (map command_of steps.now)) }
{
    match steps {
        [step] => Vec::from_slice(alloc, logged(step)),
        _ => Ok(Vec::new(alloc)),
    }
}
