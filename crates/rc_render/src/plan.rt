ghost use Rattle.std.specs.Prelude.{◌≡◌, length, IfOk};
ghost use Rattle.rc_render.specs.PlanText.{IsPlanText};

use crate::lines::set_line;
use rc_names::Names;
use rc_select::{NoMem, Plan};
use std::alloc::Global;

/// Returns the lines of a plan that have at least one name.
pub fn plan_text(alloc: Global, names: &Names, plan: &Plan) -> Result<Vec<u8>, NoMem>
    requires { length plan.now.opening ≡ length names.now }
    ensures { IfOk result (λ text. IsPlanText names.now plan.now text.items) }
{
    let _opening = plan.opening();
    let mut text = set_line(alloc, b"lower", names, plan.lower())?;
    let raise = set_line(alloc, b"raise", names, plan.raise())?;
    let kept = set_line(alloc, b"kept", names, plan.kept())?;
    text.extend_from_slice(&raise)?;
    text.extend_from_slice(&kept)?;
    Ok(text)
}
