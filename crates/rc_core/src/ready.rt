//! How many others each service waits for, and the queue of those that may be taken.

ghost use Rattle.std.specs.Prelude.{false, ◌≡◌, ◌≢◌, ℕ, ◌-◌, ◌<◌, ◌≤◌, ◌↔◌, ◌++◌, ◌∷◌, []};
ghost use Rattle.std.specs.Prelude.{IsTrue, IfSome, IfNone, IfOk, All, Contains};
ghost use Rattle.std.specs.Prelude.{length, slice_index, slice_index_or, slice_set, vec_len};
ghost use Rattle.std.specs.Prelude.{vec_capacity};
ghost use Rattle.rc_model.specs.Names.{IsAscending};
ghost use Rattle.rc_model.specs.Graph.{AreNeeds};
ghost use Rattle.rc_graph.specs.Order.{AreDistinct};
ghost use Rattle.rc_core.specs.Ready.{AreAlike, IsCount, HasQueue, Arrives, TakesOut, IsFirstReady};
ghost use Rattle.rc_core.specs.Ready.{IsFirstCount, IsNext, NotesArrival, Queues, CanArrive};
ghost use Rattle.rc_core.specs.Ready.{IsPlaced, ArePlaces, Counts, IsCountUp, IsCountDown};

use rc_graph::Graph;
use rc_set::{NoMem, Set};
use std::alloc::Global;

/// How many others each service waits for, and the services that wait for none.
#[derive(Drop)]
pub(crate) struct Ready {
    /// How many must still arrive before a service may be taken: of those that it needs, where
    /// it is to come up; of those that need it, where it is to go down.
    pub(crate) waits: Vec<u16>,
    /// The services that are to move, were never taken and wait for none. The last is taken next.
    pub(crate) queue: Vec<u16>,
    /// Where each service of the queue stands in it.
    pub(crate) places: Vec<u16>,
}

impl Ready {
    /// Creates the counts before the first event, and the queue, with room for all services.
    pub(crate) fn new(
        alloc: Global,
        graph: &Graph,
        up: &Set,
        lower: &Set,
        raise: &Set,
        planned: &Set,
    ) -> Result<Ready, NoMem>
        requires lists { AreNeeds graph.now }
        requires planned { length planned.now ≡ length graph.now }
        requires up { length up.now ≡ length graph.now }
        requires lower { length lower.now ≡ length graph.now }
        requires raise { length raise.now ≡ length graph.now }
        ensures { IfOk result (IsFirstReady graph.now up.now lower.now raise.now planned.now) }
    {
        let waits = waits_of(alloc, graph, up, lower, raise)?;
        let queue = queue_of(alloc, &waits, planned)?;
        let places = places_of(alloc, &queue, graph.len())?;
        Ok(Ready {
            waits,
            queue,
            places,
        })
    }

    /// Returns the service that is to be taken next, if there is one.
    #[inline(always)]
    pub(crate) fn first(&self) -> Option<u16>
        ensures some { IfSome result (λ s. Contains self.now.queue.items s) }
        ensures none { IfNone result (self.now.queue.items ≡ []) }
    {
        match self.queue.last() {
            Some(service) => Some(*service),
            None => None,
        }
    }

    /// Returns true if a service waits for none.
    pub(crate) fn waits_for_none(&self, service: u16) -> bool
        requires { service < length self.now.waits.items }
        ensures { IsTrue result ↔ (slice_index self.now.waits.items service ≡ 0) }
    {
        self.waits[service as usize] == 0
    }

    /// Returns true if a service waits for any.
    #[inline(always)]
    fn waits_for_some(&self, service: u16) -> bool
        requires { service < length self.now.waits.items }
        ensures { IsTrue result ↔ (0 < slice_index self.now.waits.items service) }
    {
        0 < self.waits[service as usize]
    }

    /// Notes that the transition of a service has ended. If it went well, the service has arrived.
    #[inline(always)]
    pub(crate) fn note_end(
        &mut self,
        graph: &Graph,
        lower: &Set,
        raise: &Set,
        service: u16,
        well: bool,
    )
        requires lists { AreNeeds graph.now }
        requires lower { length lower.now ≡ length graph.now }
        requires raise { length raise.now ≡ length graph.now }
        requires can { IsTrue well → CanArrive graph.now lower.now raise.now service self.old }
        requires placed { IsPlaced self.old }
        ensures placed { IsPlaced self.new }
        ensures arrived { IsTrue well →
            NotesArrival graph.now lower.now raise.now service self.old self.new }
        ensures failed { well ≡ false → self.new ≡ self.old }
    {
        if well {
            self.note_arrival(graph, lower, raise, service);
        }
    }

    /// Removes a service from the queue. The last service of the queue takes its place.
    #[inline(always)]
    pub(crate) fn take_out(&mut self, service: u16)
        requires queued { Contains self.old.queue.items service }
        requires placed { IsPlaced self.old }
        ensures taken { TakesOut self.old service self.new }
        ensures placed { IsPlaced self.new }
    {
        let at = self.places[service as usize];
        self.queue.swap_remove(at as usize);
        if (at as usize) < self.queue.len() {
            let moved = self.queue[at as usize];
            self.places[moved as usize] = at;
        }
    }

    /// Notes that a service has arrived. Each service of the list that waits for any waits for one
    /// less.
    #[inline(always)]
    fn arrive(&mut self, list: &[u16])
        requires list { IsAscending list.now }
        requires known { All (λ t. t < length self.old.waits.items) list.now }
        requires queue { HasQueue self.old.waits.items self.old.queue }
        requires placed { IsPlaced self.old }
        ensures arrived { Arrives list.now self.old self.new }
        ensures placed { IsPlaced self.new }
    {
        for service in list {
            if self.waits_for_some(*service) {
                self.wait_for_less(*service);
            }
        }
    }

    /// Notes that a service has gone where it was to go.
    #[inline(always)]
    fn note_arrival(&mut self, graph: &Graph, lower: &Set, raise: &Set, service: u16)
        requires lists { AreNeeds graph.now }
        requires lower { length lower.now ≡ length graph.now }
        requires raise { length raise.now ≡ length graph.now }
        requires can { CanArrive graph.now lower.now raise.now service self.old }
        requires placed { IsPlaced self.old }
        ensures arrived { NotesArrival graph.now lower.now raise.now service self.old self.new }
        ensures placed { IsPlaced self.new }
    {
        if lower.contains(service) {
            self.arrive(graph.needs(service));
        } else {
            self.arrive(graph.needed_by(service));
        }
    }

    /// Makes a service wait for one less, and puts it into the queue if that was the last.
    #[inline(always)]
    fn wait_for_less(&mut self, service: u16)
        requires known { service < length self.old.waits.items }
        requires missing { 0 < slice_index self.old.waits.items service }
        requires room { slice_index self.old.waits.items service ≡ 1 →
            vec_len self.old.queue < vec_capacity self.old.queue }
        requires few { slice_index self.old.waits.items service ≡ 1 →
            vec_len self.old.queue < length self.old.waits.items }
        requires out { Contains self.old.queue.items service → ⊥ }
        requires placed { IsPlaced self.old }
        ensures missing { self.new.waits.items ≡ slice_set self.old.waits.items service
            (slice_index self.old.waits.items service - 1) }
        ensures last { slice_index self.old.waits.items service ≡ 1 →
            self.new.queue.items ≡ self.old.queue.items ++ service ∷ [] }
        ensures more { slice_index self.old.waits.items service ≢ 1 →
            self.new.queue.items ≡ self.old.queue.items }
        ensures capacity { vec_capacity self.new.queue ≡ vec_capacity self.old.queue }
        ensures placed { IsPlaced self.new }
    {
        let left = self.waits[service as usize] - 1;
        self.waits[service as usize] = left;
        if left == 0 {
            self.places[service as usize] = self.queue.len() as u16;
            self.queue.push_reserved(service);
        }
    }
}

/// Returns for each service the number of services that must arrive before it may be taken.
fn waits_of(
    alloc: Global,
    graph: &Graph,
    up: &Set,
    lower: &Set,
    raise: &Set,
) -> Result<Vec<u16>, NoMem>
    requires lists { AreNeeds graph.now }
    requires up { length up.now ≡ length graph.now }
    requires lower { length lower.now ≡ length graph.now }
    requires raise { length raise.now ≡ length graph.now }
    ensures bound { IfOk result (λ waits. length waits.items ≡ length graph.now) }
    ensures counts { IfOk result (λ waits. (s : ℕ) → s < length graph.now →
        IsFirstCount graph.now up.now lower.now raise.now s (slice_index waits.items s)) }
{
    let alike = alike(up);
    let mut waits = vec![in alloc; 0; graph.len() as usize]?;
    count_needing(&mut waits, graph, up, alike, lower);
    count_needed(&mut waits, graph, up, alike, raise);
    Ok(waits)
}

/// Returns `Some(true)` if all services are in a set, `Some(false)` if none are, and `None` if only
/// some are.
fn alike(set: &Set) -> Option<bool>
    ensures { IfSome result (AreAlike set.now) }
{
    if set.is_empty() {
        Some(false)
    } else if set.len() == set.bound() {
        Some(true)
    } else {
        None
    }
}

/// Writes down for each service of a set the number of services that need it and are up.
fn count_needing(waits: &mut Vec<u16>, graph: &Graph, up: &Set, alike: Option<bool>, lower: &Set)
    requires bound { length waits.old.items ≡ length graph.now }
    requires lists { AreNeeds graph.now }
    requires up { length up.now ≡ length graph.now }
    requires lower { length lower.now ≡ length graph.now }
    requires alike { IfSome alike (AreAlike up.now) }
    ensures { Counts (IsCountDown graph.now up.now) lower.now waits.old.items waits.new.items }
{
    let mut at = 0;
    while let Some(service) = lower.next_from(at) {
        waits[service as usize] = count_in(graph.needed_by(service), up, alike, true);
        at = service + 1;
    }
}

/// Writes down for each service of a set the number of services that it needs and that are not up.
fn count_needed(waits: &mut Vec<u16>, graph: &Graph, up: &Set, alike: Option<bool>, raise: &Set)
    requires bound { length waits.old.items ≡ length graph.now }
    requires lists { AreNeeds graph.now }
    requires up { length up.now ≡ length graph.now }
    requires raise { length raise.now ≡ length graph.now }
    requires alike { IfSome alike (AreAlike up.now) }
    ensures { Counts (IsCountUp graph.now up.now) raise.now waits.old.items waits.new.items }
{
    let mut at = 0;
    while let Some(service) = raise.next_from(at) {
        waits[service as usize] = count_in(graph.needs(service), up, alike, false);
        at = service + 1;
    }
}

/// Counts the services of a list that are in a set, or those that are not. It may be known from
/// `alike` that all services are in the set, or none.
fn count_in(list: &[u16], set: &Set, alike: Option<bool>, inside: bool) -> u16
    requires list { IsAscending list.now }
    requires known { All (λ t. t < length set.now) list.now }
    requires few { length set.now ≤ 4096 }
    requires alike { IfSome alike (AreAlike set.now) }
    ensures { IsCount (λ t. Contains list.now t × (slice_index_or set.now t false ≡ inside))
        result }
{
    match alike {
        Some(all) => count_alike(list, set, all, inside),
        None => count_of(list, set, inside),
    }
}

/// Counts the services of a list that are in a set, or those that are not. Either all services are
/// in the set, or none.
fn count_alike(list: &[u16], set: &Set, all: bool, inside: bool) -> u16
    requires list { IsAscending list.now }
    requires known { All (λ t. t < length set.now) list.now }
    requires few { length set.now ≤ 4096 }
    requires alike { AreAlike set.now all }
    ensures { IsCount (λ t. Contains list.now t × (slice_index_or set.now t false ≡ inside))
        result }
{
    // What the list and the bound of the set say is all that is looked at.
    let _bound = set.bound();
    if all == inside { list.len() as u16 } else { 0 }
}

/// Counts the services of a list that are in a set, or those that are not.
fn count_of(list: &[u16], set: &Set, inside: bool) -> u16
    requires list { IsAscending list.now }
    requires known { All (λ t. t < length set.now) list.now }
    requires few { length set.now ≤ 4096 }
    ensures { IsCount (λ t. Contains list.now t × (slice_index_or set.now t false ≡ inside))
        result }
{
    let mut count = 0;
    for service in list {
        if set.contains(*service) == inside {
            count += 1;
        }
    }
    count
}

/// Creates the queue of the services that are to move and wait for none, the first of them last.
fn queue_of(alloc: Global, waits: &[u16], planned: &Set) -> Result<Vec<u16>, NoMem>
    requires few { length waits.now ≤ 4096 }
    requires planned { length planned.now ≡ length waits.now }
    ensures { IfOk result (λ queue. Queues waits.now planned.now queue) }
{
    let mut queue = Vec::with_capacity(alloc, waits.len())?;
    let mut at = 0;
    while let Some(service) = planned.next_from(at) {
        if waits[service as usize] == 0 {
            queue.push_reserved(service);
        }
        at = service + 1;
    }
    queue.reverse();
    Ok(queue)
}

/// Returns the place of each service of a queue.
fn places_of(alloc: Global, queue: &[u16], services: u16) -> Result<Vec<u16>, NoMem>
    requires once { AreDistinct queue.now }
    requires known { All (λ s. s < services) queue.now }
    requires few { length queue.now ≤ 4096 }
    ensures bound { IfOk result (λ places. length places.items ≡ services) }
    ensures places { IfOk result (λ places. ArePlaces queue.now places.items) }
{
    let mut places = vec![in alloc; 0; services as usize]?;
    for (place, service) in queue.iter().enumerate() {
        places[*service as usize] = place as u16;
    }
    Ok(places)
}
