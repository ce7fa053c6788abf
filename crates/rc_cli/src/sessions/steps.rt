//! The lines of a command of several steps.
ghost use Rattle.std.specs.Prelude.{◌≡◌, map, string_bytes, IfOk};
ghost use Rattle.rc_script.specs.Says.{saying_of};
ghost use Rattle.rc_cli.specs.Steps.{step_ask, step_by};

use rc_script::SessionLine;
use rc_select::{Mode, Request};
use rc_session::Command;
use rc_set::NoMem;
use std::alloc::Global;

/// Creates the line of a step: the change of the given names or, if it is only shown, its plan. The
/// line has the greatest limit that there is, so that it can be called off.
pub fn step_line(dry: bool, mode: Mode, names: Vec<String>) -> SessionLine
    ensures says { saying_of result ≡ step_by dry (step_ask mode (map string_bytes names.items)) }
{
    let request = Request::plain(mode, names, u32::MAX);
    if dry {
        return SessionLine::Dry(request);
    }
    SessionLine::Command(Command::Change(request))
}

/// Returns a copy of names.
pub fn copied(alloc: Global, names: &[String]) -> Result<Vec<String>, NoMem>
    ensures { IfOk result (λ copy. map string_bytes copy.items ≡ map string_bytes names.now) }
{
    let mut copy = Vec::new(alloc);
    for name in names {
        let string = String::from_str(alloc, name.as_str())?;
        copy.push(string)?;
    }
    Ok(copy)
}
