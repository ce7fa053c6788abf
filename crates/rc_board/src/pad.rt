//! What a worker writes down.

ghost use Rattle.std.specs.Prelude.{◌≡◌, ◌<◌, ◌≤◌, ◌+◌, ◌*◌, [], IfOk};
ghost use Rattle.rc_board.specs.Pads.{with_note};

use crate::note::Note;
use rc_core::Event;
use rc_graph::Way;
use rc_set::NoMem;
use std::alloc::Global;
use std::marker::Model;

/// The pad of one worker: its own events, in order.
#[derive(Drop)]
pub struct Pad {
    notes: Vec<Note>,
}

impl Model for Pad {
    ghost use Rattle.std.specs.Prelude.{◌-◌, vec_len, vec_capacity};
    ghost use Rattle.rc_board.specs.Pads.{Written};

    ghost Value = { Written };

    ghost view = { λ p. record {
      notes = p.notes.items;
      room = vec_capacity p.notes - vec_len p.notes;
    } };
}

impl Pad {
    /// Creates an empty pad, with room for all that one worker may do in a run that moves this many
    /// services.
    pub fn new(alloc: Global, planned: usize) -> Result<Pad, NoMem>
        requires { planned ≤ 8192 }
        ensures empty { IfOk result (λ pad. pad.notes ≡ []) }
        ensures room { IfOk result (λ pad. 2 * planned + 1 ≤ pad.room) }
    {
        let notes = Vec::with_capacity(alloc, 2 * planned + 1)?;
        Ok(Pad { notes })
    }

    /// Returns the number of events for which there is still room.
    #[inline(always)]
    pub fn room(&self) -> usize
        ensures { result ≡ self.now.room }
    {
        self.notes.capacity() - self.notes.len()
    }

    /// Returns what is written down.
    pub fn notes(&self) -> &[Note]
        ensures { result.now ≡ self.now.notes }
    {
        self.notes.as_slice()
    }

    /// Writes one more event down. Takes no memory.
    #[inline(always)]
    pub(crate) fn note(&mut self, event: Event, way: Option<Way>)
        requires { 0 < self.old.room }
        ensures { self.new ≡ with_note self.old event way }
    {
        self.notes.push_reserved(Note { event, way });
    }
}
