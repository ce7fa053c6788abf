//! Whether the events of a run are an interleaving of what its workers wrote down.

ghost use Rattle.std.specs.Prelude.{◌≡◌, ◌≤◌, ◌↔◌, [], replicate, length, IsTrue};
ghost use Rattle.rc_board.specs.Interleaving.{IsOfCrew, AreInterleaved};
ghost use Rattle.rc_board.specs.Reading.{AreLeft, IsNext, ReadsOn};
ghost use Rattle.rc_board.specs.Pads.{events_on, own, way_of};

use crate::made::{is_way_of, worker_of};
use crate::note::Note;
use crate::pad::Pad;
use rc_core::Event;
use rc_set::Set;

/// Returns true if the events are an interleaving of the pads. `up` is what is up at first. Looks
/// at each event once.
#[inline(never)]
pub(crate) fn are_interleaved(up: &Set, pads: &[Pad], events: &[Event]) -> bool
    requires { length pads.now ≤ 64 }
    ensures { IsTrue result ↔ AreInterleaved up.now pads.now events.now }
{
    // How far each pad is read.
    let mut read = unread();
    let mut events = events;
    while let Some((event, later)) = events.split_first() {
        events = later;
        if !read_on(up, pads, &mut read, *event) {
            return false;
        }
    }
    are_read(pads, &read)
}

/// Returns the place before the first note, for each pad that there may be.
fn unread() -> [usize; 64]
    ensures { result ≡ replicate 64 0 }
{
    [0; 64]
}

/// Reads one event further. Returns false if no worker of the crew made it, or if it is not next on
/// the pad of its worker with the way of its service.
#[inline(always)]
fn read_on(up: &Set, pads: &[Pad], read: &mut [usize], event: Event) -> bool
    requires room { length pads.now ≤ length read.old }
    ensures room { length read.new ≡ length read.old }
    ensures step { ReadsOn up.now pads.now read.old event result read.new }
{
    if !is_of_crew(event, pads.len()) {
        return false;
    }
    let k = worker_of(event) as usize - 1;
    if !is_next(up, pads[k].notes(), read[k], event) {
        return false;
    }
    read[k] += 1;
    true
}

/// Returns true if a worker up to this number made an event.
#[inline(always)]
fn is_of_crew(event: Event, workers: usize) -> bool
    ensures { IsTrue result ↔ IsOfCrew workers event }
{
    1 <= worker_of(event) && worker_of(event) as usize <= workers
}

/// Returns true if an event is noted at this place, with the way of its service. `up` is what is up
/// at first.
#[inline(always)]
fn is_next(up: &Set, notes: &[Note], at: usize, event: Event) -> bool
    ensures { IsTrue result ↔ IsNext notes.now at event (way_of up.now event) }
{
    at < notes.len() && notes[at].event == event && is_way_of(up, event, notes[at].way)
}

/// Returns true if nothing is left on the pads after these places.
fn are_read(pads: &[Pad], read: &[usize]) -> bool
    requires { length pads.now ≤ length read.now }
    ensures { IsTrue result ↔ AreLeft pads.now read.now [] }
{
    for (k, pad) in pads.iter().enumerate() {
        if read[k] < pad.notes().len() {
            return false;
        }
    }
    true
}

/// Returns true if the events of this worker are those that it noted.
pub(crate) fn is_own(events: &[Event], notes: &[Note], worker: u8) -> bool
    ensures { IsTrue result ↔ (own worker events.now ≡ events_on notes.now) }
{
    let mut events = events;
    let mut notes = notes;
    while let Some((event, later)) = events.split_first() {
        events = later;
        if worker_of(*event) == worker {
            let Some((note, rest)) = notes.split_first() else {
                return false;
            };
            if note.event != *event {
                return false;
            }
            notes = rest;
        }
    }
    notes.is_empty()
}
