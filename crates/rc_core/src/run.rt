ghost use Rattle.std.specs.Prelude.{◌≡◌, ◌<◌, ◌≤◌, ◌↔◌, ℕ, Bool, [], length, slice_index_or, take};
ghost use Rattle.std.specs.Prelude.{vec_len, vec_capacity, IsTrue, IfOk, OnOk, OnErr};
ghost use Rattle.rc_model.specs.Names.{Has};
ghost use Rattle.rc_model.specs.Graph.{IsClosed};
ghost use Rattle.rc_graph.specs.declared.Way.{Way};
ghost use Rattle.rc_model.specs.declared.Event.{Event};
ghost use Rattle.rc_model.specs.Run.{course_of, standing_of, IsWorker, IsFree, HasFailed};
ghost use Rattle.rc_model.specs.Run.{IsStopped, IsLegal, IsRun, IsStrictlyClosed, IsLive};
ghost use Rattle.rc_model.specs.Run.{IsSettled};
ghost use Rattle.rc_model.specs.Beside.{planned_count, IsCourse, TargetOf};
ghost use Rattle.rc_core.specs.End.{EndOf};
ghost use Rattle.rc_core.specs.Failing.{WouldFail, EndsAs};
ghost use Rattle.rc_core.specs.Settled.{with_event};
ghost use Rattle.rc_core.specs.Taking.{IsAnswered};
ghost use Rattle.rc_core.specs.Tables.{IsRoomFor};

use crate::ended::Ended;
use crate::event::{Event, Outcome, went_well};
use crate::job::Job;
use crate::ready::Ready;
use crate::standing::Standing;
use crate::tables::Tables;
use crate::took::Took;
use rc_graph::Graph;
use rc_select::Plan;
use rc_set::{NoMem, Set};
use std::alloc::{AllocError, Global};
use std::marker::Model;
use thiserror::Error;

/// The event may not come now. Nothing has changed.
#[derive(Clone, Copy, Debug, PartialEq, Eq, Error)]
#[error("the event is not legal now")]
pub struct NotLegal;

/// A change on its way: what was to move, and the events so far.
///
/// It borrows nothing. No call but `open` can be refused as out of memory. Time: `open` grows with
/// the services that move and their pairs, `take_apart` with the services that do not arrive, and
/// both pass over sets and lists a word at a time; `done` grows with those that the service needs
/// or that need it; the others take one step. So a whole run looks at each service and pair once.
#[derive(Drop)]
pub struct Run {
    pub(crate) graph: Graph,
    pub(crate) opening: Set,
    pub(crate) lower: Set,
    pub(crate) raise: Set,
    pub(crate) deadline: Option<u64>,
    pub(crate) tables: Tables,
    pub(crate) ready: Ready,
    pub(crate) trace: Vec<Event>,
    /// Room for the second list of the end. The first stands where the queue stood.
    pub(crate) left_room: Vec<u16>,
}

impl Model for Run {
    ghost use Rattle.std.specs.Prelude.{◌≤◌, length, vec_capacity};
    ghost use Rattle.rc_core.specs.Ready.{AreReady, IsPlaced};
    ghost use Rattle.rc_core.specs.Settled.{RunSoFar};
    ghost use Rattle.rc_core.specs.Tables.{IsKept, IsRoomFor};

    ghost Value = { RunSoFar };

    ghost view = { λ r. record {
      course = record {
        needs = r.graph;
        up = r.opening;
        lower = r.lower;
        raise = r.raise;
        deadline = r.deadline;
      };
      events = r.trace.items;
    } };

    ghost invariant = { λ r. IsKept (record {
      needs = r.graph;
      up = r.opening;
      lower = r.lower;
      raise = r.raise;
      deadline = r.deadline;
    })
        r.trace r.tables
        × IsPlaced r.ready × IsRoomFor (length r.graph) r.left_room
        × AreReady
        (record {
          needs = r.graph;
          up = r.opening;
          lower = r.lower;
          raise = r.raise;
          deadline = r.deadline;
        })
        r.trace.items r.ready.waits.items r.ready.queue.items
        × (length r.graph ≤ vec_capacity r.ready.queue) };
}

impl Run {
    /// Creates a run of a plan, in which nothing has happened yet. With a deadline, the run may be
    /// stopped from that moment on. Allocates all the room that the run will need: two events for
    /// each service that is to move, and one to stop.
    pub fn open(
        alloc: Global,
        graph: &Graph,
        plan: &Plan,
        deadline: Option<u64>,
    ) -> Result<Run, NoMem>
        requires bound { length plan.now.opening ≡ length graph.now }
        requires opening { IsClosed graph.now (Has plan.now.opening) }
        requires target { IsClosed graph.now (TargetOf (course_of graph.now plan.now deadline)) }
        ensures { IfOk result (λ run. run
            ≡ record { course = course_of graph.now plan.now deadline; events = [] }) }
    {
        let up = plan.opening();
        let lower = plan.lower();
        let raise = plan.raise();
        let tables = Tables::new(alloc, up, lower, raise)?;
        let events = 2 * tables.left.len() as usize + 1;
        let services = graph.len() as usize;
        let Ok(ready) = Ready::new(alloc, graph, up, lower, raise, &tables.left) else {
            drop(tables);
            return Err(AllocError);
        };
        let Ok(rooms) = rooms_of(alloc, events, services) else {
            drop((tables, ready));
            return Err(AllocError);
        };
        let Ok(sets) = sets_of(alloc, plan) else {
            drop((tables, ready, rooms));
            return Err(AllocError);
        };
        let Ok(graph) = graph.share() else {
            drop((tables, ready, rooms, sets));
            return Err(AllocError);
        };
        let (trace, left_room) = rooms;
        let (opening, lower, raise) = sets;
        Ok(Run {
            graph,
            opening,
            lower,
            raise,
            deadline,
            tables,
            ready,
            trace,
            left_room,
        })
    }

    /// Asks for a job on behalf of a worker, from 1 to 64, that holds nothing. If there are several
    /// jobs, returns any of them.
    #[inline(always)]
    pub fn take(&mut self, worker: u8) -> Result<Took, NotLegal>
        ensures answer { IfOk result (λ took. IsAnswered self.old worker took self.new) }
        ensures ok { OnOk result (IsWorker worker × IsFree self.old.events worker) }
        ensures err { OnErr result (IsWorker worker × IsFree self.old.events worker → ⊥) }
        ensures same { OnErr result (self.new ≡ self.old) }
    {
        if !self.is_free(worker) {
            return Err(NotLegal);
        }
        match self.next_move() {
            Some(next) => {
                self.add_take(worker, next.service);
                Ok(Took::Job(Job::new(worker, next.service, next.way)))
            }
            None if self.holds_some() => Ok(Took::Wait),
            None => Ok(Took::Settled),
        }
    }

    /// Reports how the transition of the service that a worker holds ended.
    #[inline(always)]
    pub fn done(&mut self, worker: u8, service: u16, outcome: Outcome) -> Result<(), NotLegal>
        ensures ok { OnOk result (IsLegal self.old.course self.old.events
            (Event.Done worker service outcome)) }
        ensures made { OnOk result (self.new
            ≡ with_event self.old (Event.Done worker service outcome)) }
        ensures err { OnErr result (IsLegal self.old.course self.old.events
            (Event.Done worker service outcome) → ⊥) }
        ensures same { OnErr result (self.new ≡ self.old) }
    {
        if !self.holds(worker, service) {
            return Err(NotLegal);
        }
        self.add_done(worker, service, outcome);
        Ok(())
    }

    /// Stops the run on behalf of a worker, from 1 to 64, at a moment, in milliseconds, that has
    /// reached the deadline. Nothing is taken from then on. A run that is settled may still be
    /// stopped, and then counts as stopped.
    pub fn stop(&mut self, worker: u8, moment: u64) -> Result<(), NotLegal>
        ensures ok { OnOk result (IsLegal self.old.course self.old.events
            (Event.Stop worker moment)) }
        ensures made { OnOk result (self.new ≡ with_event self.old (Event.Stop worker moment)) }
        ensures err { OnErr result (IsLegal self.old.course self.old.events
            (Event.Stop worker moment) → ⊥) }
        ensures same { OnErr result (self.new ≡ self.old) }
    {
        self.step(Event::Stop(worker, moment))
    }

    /// Makes one event, if it is legal now.
    pub fn step(&mut self, event: Event) -> Result<(), NotLegal>
        ensures ok { OnOk result (IsLegal self.old.course self.old.events event) }
        ensures made { OnOk result (self.new ≡ with_event self.old event) }
        ensures err { OnErr result (IsLegal self.old.course self.old.events event → ⊥) }
        ensures same { OnErr result (self.new ≡ self.old) }
    {
        if !self.is_legal(event) {
            return Err(NotLegal);
        }
        self.add(event);
        Ok(())
    }

    /// Returns the present standing of a service.
    pub fn standing(&self, service: u16) -> Standing
        requires { service < length self.now.course.needs }
        ensures { result ≡ standing_of self.now.course self.now.events service }
    {
        self.tables.standings[service as usize]
    }

    /// Returns the present standings of the services, each at the place of its number.
    pub fn standings(&self) -> &[Standing]
        ensures bound { length result.now ≡ length self.now.course.needs }
        ensures stands { (s : ℕ) → slice_index_or result.now s Standing.Down
            ≡ standing_of self.now.course self.now.events s }
    {
        &self.tables.standings
    }

    /// Returns the number of services that are to move.
    pub fn planned(&self) -> usize
        ensures { result ≡ planned_count self.now.course }
    {
        self.lower.len() as usize + self.raise.len() as usize
    }

    /// Returns true if nothing is held, and nothing may be taken any more.
    pub fn settled(&self) -> bool
        ensures { IsTrue result ↔ IsSettled self.now.course self.now.events }
    {
        !self.holds_some() && self.next_move().is_none()
    }

    /// Returns the events so far, in order.
    pub fn trace(&self) -> &[Event]
        ensures events { result.now ≡ self.now.events }
        ensures course { IsCourse self.now.course }
        ensures run { IsRun self.now.course self.now.events }
        ensures closed { (k : ℕ) → IsStrictlyClosed self.now.course (take k self.now.events) }
    {
        self.trace.as_slice()
    }

    /// Returns the end of a settled run, from which the fate of each service can be read. Without a
    /// stop, what is live depends only on what failed, and not on the order of events.
    pub fn finish(self) -> Ended
        requires { IsSettled self.course self.events }
        ensures run { result ≡ self }
        ensures end { (IsStopped self.events → ⊥) →
            (s : ℕ) → IsLive self.course self.events s
            ↔ EndOf self.course (HasFailed self.events) s }
        ensures end_as { (fails : ℕ → Way → Bool) → EndsAs self.course fails self.events →
            (IsStopped self.events → ⊥) →
            (s : ℕ) → IsLive self.course self.events s
            ↔ EndOf self.course (WouldFail self.course fails) s }
    {
        // The clauses on the end rest on what the contract of `trace` says of the course.
        let _ = self.trace();
        Ended { run: self }
    }

    /// Adds a legal event. Takes no memory.
    fn add(&mut self, event: Event)
        requires { IsLegal self.old.course self.old.events event }
        ensures { self.new ≡ with_event self.old event }
    {
        match event {
            Event::Take(worker, service) => self.add_take(worker, service),
            Event::Done(worker, service, outcome) => self.add_done(worker, service, outcome),
            Event::Stop(worker, moment) => self.add_stop(worker, moment),
        }
    }

    /// Adds a legal take. Takes no memory.
    #[inline(always)]
    fn add_take(&mut self, worker: u8, service: u16)
        requires { IsLegal self.old.course self.old.events (Event.Take worker service) }
        ensures { self.new ≡ with_event self.old (Event.Take worker service) }
    {
        self.tables.note_take(worker, service);
        self.ready.take_out(service);
        self.trace.push_reserved(Event::Take(worker, service));
    }

    /// Adds the legal end of a transition. Takes no memory.
    #[inline(always)]
    fn add_done(&mut self, worker: u8, service: u16, outcome: Outcome)
        requires { IsLegal self.old.course self.old.events (Event.Done worker service outcome) }
        ensures { self.new ≡ with_event self.old (Event.Done worker service outcome) }
    {
        let well = went_well(outcome);
        self.tables.note_done(worker, service, well);
        self.ready
            .note_end(&self.graph, &self.lower, &self.raise, service, well);
        self.trace
            .push_reserved(Event::Done(worker, service, outcome));
    }

    /// Adds a legal stop. Takes no memory.
    fn add_stop(&mut self, worker: u8, moment: u64)
        requires { IsLegal self.old.course self.old.events (Event.Stop worker moment) }
        ensures { self.new ≡ with_event self.old (Event.Stop worker moment) }
    {
        self.tables.note_stop();
        self.trace.push_reserved(Event::Stop(worker, moment));
    }
}

/// Returns copies of the sets of the services that are up, those that are to go down and those that
/// are to come up.
fn sets_of(alloc: Global, plan: &Plan) -> Result<(Set, Set, Set), NoMem>
    ensures opening { IfOk result (λ sets. sets.0 ≡ plan.now.opening) }
    ensures lower { IfOk result (λ sets. sets.1 ≡ plan.now.lower) }
    ensures raise { IfOk result (λ sets. sets.2 ≡ plan.now.raise) }
{
    let opening = plan.opening().copy(alloc)?;
    let Ok(lower) = plan.lower().copy(alloc) else {
        drop(opening);
        return Err(AllocError);
    };
    let Ok(raise) = plan.raise().copy(alloc) else {
        drop((opening, lower));
        return Err(AllocError);
    };
    Ok((opening, lower, raise))
}

/// Room for the events of a run, and for a list of its end.
type Rooms = (Vec<Event>, Vec<u16>);

/// Creates two empty lists, one with room for `events` events, and one with room for `services`
/// services.
fn rooms_of(alloc: Global, events: usize, services: usize) -> Result<Rooms, NoMem>
    ensures trace { IfOk result (λ rooms. (rooms.0.items ≡ []) × (vec_len rooms.0 ≡ 0)
        × (events ≤ vec_capacity rooms.0)) }
    ensures left { IfOk result (λ rooms. IsRoomFor services rooms.1) }
{
    let trace = Vec::with_capacity(alloc, events)?;
    let left = Vec::with_capacity(alloc, services)?;
    Ok((trace, left))
}
