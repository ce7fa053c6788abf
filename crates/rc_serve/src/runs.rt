//! The answers to a change, an undo or a redo by workers.
ghost use Rattle.std.specs.Prelude.{◌≡◌, map, string_bytes, Err, IfOk, IfErr};
ghost use Rattle.rc_serve.specs.Faults.{IsInner, IsStrange};
ghost use Rattle.rc_serve.specs.Telling.{IsToldAs};

use crate::ending::{Answer, ending_of, refused};
use crate::fault::{ServeFault, answered};
use rc_board::Fault;
use rc_names::Names;
use rc_render::{refusal_text, report_text};
use rc_session::Report;
use std::alloc::Global;

/// Returns the answer to a command, from its outcome. `words` are those that a refusal may name.
pub(crate) fn told(
    alloc: Global,
    names: &Names,
    words: &[String],
    outcome: Result<Report, Fault>,
) -> Result<Answer, ServeFault>
    requires { outcome ≡ Err Fault.Workers → ⊥ }
    ensures told { IfOk result (λ answer. IsToldAs names.now (map string_bytes words.now) outcome
        answer.ending answer.text.items) }
    ensures strange { outcome ≡ Err Fault.Strange → result ≡ Err ServeFault.Strange }
    ensures fault { IfErr result (IsInner (IsStrange outcome) (outcome ≡ Err Fault.NoThread)) }
{
    match outcome {
        Ok(report) => {
            let ending = ending_of(&report);
            let text = report_text(alloc, names, &report)?;
            Ok(Answer { text, ending })
        }
        Err(Fault::Refused(refusal)) => {
            let refusal = answered(refusal)?;
            let text = refusal_text(alloc, words, refusal)?;
            Ok(refused(text))
        }
        Err(Fault::NoThread) => Err(ServeFault::NoThread),
        Err(Fault::Strange) => Err(ServeFault::Strange),
        Err(Fault::Workers) => unreachable!(),
    }
}
