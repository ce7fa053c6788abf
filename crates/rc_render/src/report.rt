ghost use Rattle.std.specs.Prelude.{◌≡◌, IfOk};
ghost use Rattle.rc_session.specs.Report.{told_of};
ghost use Rattle.rc_render.specs.ReportText.{report_text};

use crate::told::{add_line, with_ok};
use rc_names::Names;
use rc_session::Report;
use rc_set::NoMem;
use std::alloc::Global;

/// Returns the answer to a command that was carried out.
pub fn report_text(alloc: Global, names: &Names, report: &Report) -> Result<Vec<u8>, NoMem>
    ensures { IfOk result (λ text. text.items ≡ report_text names.now (told_of report.now)) }
{
    let mut text = Vec::new(alloc);
    add_line(&mut text, b"lowered", names, &report.lowered)?;
    add_line(&mut text, b"raised", names, &report.raised)?;
    add_line(&mut text, b"failed", names, &report.failed)?;
    add_line(&mut text, b"blocked", names, &report.blocked)?;
    add_line(&mut text, b"untried", names, &report.untried)?;
    add_line(&mut text, b"kept", names, &report.kept)?;
    with_ok(text)
}
