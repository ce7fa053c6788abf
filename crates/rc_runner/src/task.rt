//! What a program that is started is to do, as its environment tells it.

ghost use Rattle.std.specs.Prelude.{◌≡◌, OnOk};
ghost use Rattle.std.specs.Process.{SameProgramAndArgs};
ghost use Rattle.rc_runner.specs.Shell.{IsTold, word_of};

use rc_graph::Way;
use std::alloc::{AllocError, Global};
use std::process::Command;

/// A service, the way that it is to go, and how long it may take, in milliseconds; 0 is no limit.
#[derive(Clone, Copy)]
pub(crate) struct Task<'a> {
    pub(crate) name: &'a str,
    pub(crate) way: Way,
    pub(crate) limit: u32,
}

/// Returns the word for the way that a service is to go.
pub(crate) fn word_towards(way: Way) -> &'static str
    ensures { result.now ≡ word_of way }
{
    match way {
        Way::Raise => "up",
        Way::Lower => "down",
    }
}

/// Puts a task into the environment of a command.
pub(crate) fn tell_task(
    alloc: Global,
    command: &mut Command,
    task: &Task<'_>,
) -> Result<(), AllocError>
    ensures told { OnOk result
        (IsTold task.now.name.now task.now.way task.now.limit command.new) }
    ensures same { OnOk result (SameProgramAndArgs command.old command.new) }
{
    let limit = task.limit;
    let limit = format!(in alloc; "{limit}")?;
    command.env("UNDORC_NAME", task.name)?;
    command.env("UNDORC_WAY", word_towards(task.way))?;
    command.env("UNDORC_LIMIT", limit.as_str())?;
    Ok(())
}
