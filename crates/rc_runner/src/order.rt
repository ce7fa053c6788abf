//! What is to be done for a transition, as a value: what is started is what is described here.

ghost use Rattle.std.specs.Prelude.{◌≡◌, ◌∷◌, [], IfOk, map, string_bytes};
ghost use Rattle.rc_runner.specs.Shell.{word_of};
ghost use Rattle.rc_runner.specs.Orders.{IsCall};

use crate::start::{add_two, command_under};
use crate::task::{Task, tell_task, word_towards};
use rc_core::Outcome;
use std::alloc::{AllocError, Global};
use std::process::Command;

/// A program that is to be started, and the task that it is for.
#[derive(Drop)]
pub(crate) struct Order<'a> {
    command: Command,
    task: Task<'a>,
}

/// What is to be done for a transition.
#[derive(Drop)]
pub(crate) enum Move<'a> {
    /// Nothing is started, and the transition has this outcome.
    Known(Outcome),
    Start(Order<'a>),
}

impl<'a> Order<'a> {
    /// Returns the command and the task.
    pub(crate) fn into_parts(self) -> (Command, Task<'a>)
        ensures command { result.0 ≡ self.entry.command }
        ensures task { result.1 ≡ self.entry.task }
    {
        let Order { command, task } = self;
        (command, task)
    }
}

/// Creates a call of the runner, with a text as its last argument.
pub(crate) fn call_to_run<'a>(
    alloc: Global,
    runner: &[String],
    text: &str,
    task: Task<'a>,
) -> Result<Move<'a>, AllocError>
    ensures { IfOk result (IsCall (map string_bytes runner.now) (text.now ∷ []) task.entry.name.now
        task.entry.way task.entry.limit) }
{
    let Some(mut command) = command_under(alloc, runner, task.limit)? else {
        return Ok(Move::Known(Outcome::NotStarted));
    };
    let Ok(_) = command.arg(text) else {
        drop(command);
        return Err(AllocError);
    };
    let Ok(()) = tell_task(alloc, &mut command, &task) else {
        drop(command);
        return Err(AllocError);
    };
    Ok(Move::Start(Order { command, task }))
}

/// Creates a call of the controller, with the way and the name as its last two arguments.
pub(crate) fn call_to_move<'a>(
    alloc: Global,
    controller: &[String],
    task: Task<'a>,
) -> Result<Move<'a>, AllocError>
    ensures { IfOk result (IsCall (map string_bytes controller.now)
        (word_of task.entry.way ∷ task.entry.name.now ∷ []) task.entry.name.now
        task.entry.way task.entry.limit) }
{
    let Some(mut command) = command_under(alloc, controller, task.limit)? else {
        return Ok(Move::Known(Outcome::NotStarted));
    };
    let Ok(()) = add_two(&mut command, word_towards(task.way), task.name) else {
        drop(command);
        return Err(AllocError);
    };
    let Ok(()) = tell_task(alloc, &mut command, &task) else {
        drop(command);
        return Err(AllocError);
    };
    Ok(Move::Start(Order { command, task }))
}
