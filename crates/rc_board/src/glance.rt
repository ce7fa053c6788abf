//! What is seen of a run.

ghost use Rattle.std.specs.Prelude.{◌≡◌, ◌<◌, ◌≤◌, ◌+◌, ◌*◌, [], length, slice_index_or, IfOk};
ghost use Rattle.std.specs.Prelude.{vec_capacity};
ghost use Rattle.rc_model.specs.Beside.{planned_count};

use rc_core::{Event, Run, Standing};
use rc_set::NoMem;
use std::alloc::Global;
use std::marker::Model;

/// What is seen of a run: its events so far, and where each service stands after them.
#[derive(Drop)]
pub struct Glance {
    standings: Vec<Standing>,
    events: Vec<Event>,
    /// How many services are to move in the runs that it can show.
    planned: usize,
}

impl Model for Glance {
    ghost use Rattle.std.specs.Prelude.{◌≤◌, ◌+◌, ◌*◌, vec_capacity};
    ghost use Rattle.rc_board.specs.Sight.{Sight, IsOfRun, HasRoom};

    ghost Value = { Sight };

    ghost view = { λ g. record {
      standings = g.standings.items;
      events = g.events.items;
      planned = g.planned;
      room = vec_capacity g.events;
    } };

    ghost invariant = { λ g.
        let sight : Sight = record {
          standings = g.standings.items;
          events = g.events.items;
          planned = g.planned;
          room = vec_capacity g.events;
        } in
        IsOfRun sight × HasRoom sight };
}

impl Glance {
    ghost use Rattle.rc_board.specs.Sight.{IsOfRun, IsShown};

    /// Creates a glance at a run in which nothing has happened, with room for all that may happen.
    pub(crate) fn new(alloc: Global, run: &Run) -> Result<Glance, NoMem>
        requires { run.now.events ≡ [] }
        ensures shown { IfOk result (IsShown run.now.course []) }
        ensures planned { IfOk result (λ glance. glance.planned ≡ planned_count run.now.course) }
    {
        // What the trace tells of the course is what the clauses stand on.
        let _ = run.trace();
        let planned = run.planned();
        let standings = run.standings().to_vec(alloc)?;
        Ok(Glance {
            standings,
            events: Vec::with_capacity(alloc, 2 * planned + 1)?,
            planned,
        })
    }

    /// Returns the number of services.
    pub fn services(&self) -> usize
        ensures { result ≡ length self.now.standings }
    {
        self.standings.len()
    }

    /// Returns the standing of a service.
    pub fn standing(&self, service: u16) -> Standing
        requires { service < length self.now.standings }
        ensures { result ≡ slice_index_or self.now.standings service Standing.Down }
    {
        self.standings[service as usize]
    }

    /// Returns the events so far, in order. They are a run of some course, and the services stand
    /// as they stand after these events.
    pub fn events(&self) -> &[Event]
        ensures events { result.now ≡ self.now.events }
        ensures run { IsOfRun self.now }
    {
        self.events.as_slice()
    }

    /// Returns the number of services that are to move in the runs that the glance can show.
    pub(crate) fn planned(&self) -> usize
        ensures { result ≡ self.now.planned }
    {
        self.planned
    }

    /// Fills the glance with all of a run. Takes no memory.
    pub(crate) fn refill(&mut self, run: &Run)
        requires bound { length run.now.course.needs ≡ length self.old.standings }
        requires planned { planned_count run.now.course ≡ self.old.planned }
        ensures { IsShown run.now.course run.now.events self.new }
    {
        self.standings.copy_from_slice(run.standings());
        refill_events(&mut self.events, run.trace());
    }
}

/// Replaces the events of a list by others, for which it has the room.
fn refill_events(to: &mut Vec<Event>, from: &[Event])
    requires { length from.now ≤ vec_capacity to.old }
    ensures items { to.new.items ≡ from.now }
    ensures room { vec_capacity to.new ≡ vec_capacity to.old }
{
    to.clear();
    for event in from {
        to.push_reserved(*event);
    }
}
