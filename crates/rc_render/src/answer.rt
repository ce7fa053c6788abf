ghost use Rattle.std.specs.Prelude.{◌≡◌, IfOk};
ghost use Rattle.rc_session.specs.Commands.{command_of};
ghost use Rattle.rc_session.specs.Report.{answer_of};
ghost use Rattle.rc_render.specs.AnswerText.{answer_text};

use crate::refusal::step_refusal_text;
use crate::report::report_text;
use rc_names::Names;
use rc_session::{Refusal, Report, Step};
use rc_set::NoMem;
use std::alloc::Global;

/// Returns the answer to a step: what it has done, or why it is refused.
pub fn answer_text(
    alloc: Global,
    names: &Names,
    step: &Step,
    answer: &Result<Report, Refusal>,
) -> Result<Vec<u8>, NoMem>
    ensures { IfOk result (λ text. text.items
        ≡ answer_text names.now (command_of step.now) (answer_of answer.now)) }
{
    match answer {
        Ok(report) => report_text(alloc, names, report),
        Err(refusal) => step_refusal_text(alloc, step, *refusal),
    }
}
