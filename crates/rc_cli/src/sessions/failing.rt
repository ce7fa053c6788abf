//! The gate at which listed transitions fail, found by the names of their services.

ghost use Rattle.std.specs.Prelude.{◌≡◌, ◌++◌, ◌∷◌, [], map, IfOk, OnOk, IfErr};
ghost use Rattle.rc_args.specs.Reading.{listed_of};
ghost use Rattle.rc_cli.specs.Finding.{AreFound, IsGateFault};

use rc_args::Transition;
use rc_graph::Way;
use rc_names::Names;
use rc_runner::{StepClock, TableGate};
use std::alloc::{AllocError, Global};

/// Why there is no gate.
#[derive(Clone, Copy)]
pub enum GateFault<'a> {
    /// The first name that is no service's.
    Unknown(&'a [u8]),
    Memory,
}

impl From<AllocError> for GateFault<'_> {
    ghost use Rattle.std.specs.Prelude.{◌≡◌};
    ghost use Rattle.rc_cli.specs.declared.sessions.failing.GateFault.TheVariants.{Memory};

    ghost from_gives = { λ _ fault. fault ≡ Memory };

    fn from(_: AllocError) -> Self {
        GateFault::Memory
    }
}

/// Creates the gate at which the given transitions fail, and no others. Its clock stands at 0.
pub fn gate_of<'a>(
    alloc: Global,
    names: &Names,
    listed: &[Transition<'a>],
) -> Result<TableGate, GateFault<'a>>
    ensures found { IfOk result (λ gate. AreFound names.now
        (map listed_of listed.now) gate.failing) }
    ensures clock { IfOk result (λ gate. gate.moments ≡ []) }
    ensures fault { IfErr result (IsGateFault names.now (map listed_of listed.now)) }
{
    let mut failing = Vec::new(alloc);
    for one in listed {
        match names.find_bytes(one.name) {
            Some(service) => add(&mut failing, service, one.way)?,
            None => return Err(GateFault::Unknown(one.name)),
        }
    }
    Ok(TableGate::new(failing, StepClock::new(Vec::new(alloc))))
}

/// Appends a transition to others.
fn add(failing: &mut Vec<(u16, Way)>, service: u16, way: Way) -> Result<(), AllocError>
    ensures { OnOk result (failing.new.items ≡ failing.old.items ++ (service, way) ∷ []) }
{
    Ok(failing.push((service, way))?)
}
