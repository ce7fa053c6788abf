//! The events of a run that was cut short, and what settles it.
ghost use Rattle.std.specs.Prelude.{◌≡◌, ◌++◌, ◌∷◌, [], IfOk, OnOk};
ghost use Rattle.std.specs.List.{list_any};
ghost use Rattle.rc_recovery.specs.Ends.{ends, last_stop, with_end, with_ends};

use rc_model::{Event, Outcome};
use std::alloc::{AllocError, Global};

/// Returns the events of a run that was cut short, and after them the end of each transition that
/// was under way. Such a transition counts as failed, since it was never seen to end.
///
/// Time grows with the takes times the events.
pub fn with_ends(alloc: Global, logged: &[Event]) -> Result<Vec<Event>, AllocError>
    ensures { IfOk result (λ all. all.items ≡ with_ends logged.now) }
{
    let mut all = Vec::from_slice(alloc, logged)?;
    for event in logged {
        add_end(&mut all, *event)?;
    }
    Ok(all)
}

/// Adds the end of the transition that an event begins, if it has none.
fn add_end(all: &mut Vec<Event>, event: Event) -> Result<(), AllocError>
    ensures { OnOk result (all.new.items ≡ with_end all.old.items event) }
{
    let Event::Take(worker, service) = event else {
        return Ok(());
    };
    if has_end(all, worker, service) {
        return Ok(());
    }
    Ok(all.push(Event::Done(worker, service, Outcome::NotStarted))?)
}

/// Returns true if one of the events ends the transition that the given worker makes of the given
/// service.
pub(crate) fn has_end(events: &[Event], worker: u8, service: u16) -> bool
    ensures { result ≡ list_any (ends worker service) events.now }
{
    events.iter().any(|event| ends(worker, service, *event))
}

/// Returns true if an event ends the transition that the given worker makes of the given service.
fn ends(worker: u8, service: u16, event: Event) -> bool
    ensures { result ≡ ends worker service event }
{
    match event {
        Event::Done(other, of, _) => other == worker && of == service,
        Event::Take(..) | Event::Stop(..) => false,
    }
}

/// Adds a stop to events, at the last moment that there is.
pub fn with_stop(events: Vec<Event>) -> Result<Vec<Event>, AllocError>
    ensures { IfOk result (λ all. all.items ≡ events.items ++ last_stop ∷ []) }
{
    let mut all = events;
    all.push(Event::Stop(1, u64::MAX))?;
    Ok(all)
}
