//! Lines that are made of whole states.

ghost use Rattle.std.specs.Prelude.{◌≡◌, ◌<◌, ◌≤◌, ℕ, [], false, length, All, IfOk, OnOk};
ghost use Rattle.rc_line.specs.State.{states_of};
ghost use Rattle.rc_model.specs.Line.{DifferInTurn, states, cursor};
ghost use Rattle.rc_line.specs.Opening.{table_or};

use crate::line::Line;
use rc_db::Table;
use rc_set::{NoMem, Set};
use std::alloc::{AllocError, Global};

impl Line {
    /// Creates the line of some states, with the cursor at a place. If memory runs out, the states
    /// are lost.
    pub fn from_states(
        alloc: Global,
        mut held: Vec<(Set, Table)>,
        place: usize,
        bound: u32,
    ) -> Result<Line, NoMem>
        requires three { 3 ≤ bound }
        requires few { length held.items ≤ bound }
        requires cursor { place < length held.items }
        requires differ { DifferInTurn (states_of held.items) }
        requires sets { (bound : ℕ)
            × All (λ state. length state.live ≡ bound) (states_of held.items) }
        ensures states { IfOk result (λ line. states line.line ≡ states_of held.items) }
        ensures cursor { IfOk result (λ line. cursor line.line ≡ place) }
        ensures bound { IfOk result (λ line. line.line.bound ≡ bound) }
        ensures closed { IfOk result (λ line. line.is_open ≡ false) }
    {
        let (live, table) = held.take_last();
        let mut line = Line::with_bound(alloc, live, table, bound);
        while let Some((live, table)) = held.pop() {
            line.prepend(alloc, live, table)?;
        }
        go_to(alloc, &mut line, place)?;
        Ok(line)
    }

    /// Creates another line of the same states, with the cursor at the same place. It is not open.
    pub fn copy(&self, alloc: Global) -> Result<Line, NoMem>
        ensures { IfOk result (λ line. line ≡ record { line = self.now.line; is_open = false }) }
    {
        let mut at = self.states() - 1;
        let live = self.live().copy(alloc)?;
        let Ok(table) = self.table().copy(alloc) else {
            drop(live);
            return Err(AllocError);
        };
        let (live, table) = self.walk_on(alloc, at, live, table)?;
        let mut line = Line::with_bound(alloc, live, table, self.bound());
        while at > 0 {
            at -= 1;
            let (live, table) = self.step_at(at).before(alloc, line.live(), line.table())?;
            let Ok(table) = table_of(alloc, table, line.table()) else {
                drop(live);
                return Err(AllocError);
            };
            line.prepend(alloc, live, table)?;
        }
        go_to(alloc, &mut line, self.cursor())?;
        Ok(line)
    }
}

/// Goes on to a place.
fn go_to(alloc: Global, line: &mut Line, place: usize) -> Result<(), NoMem>
    requires closed { line.old.is_open ≡ false }
    requires first { line.old.line.before ≡ [] }
    requires place { place < length (states line.old.line) }
    ensures states { OnOk result (states line.new.line ≡ states line.old.line) }
    ensures cursor { OnOk result (cursor line.new.line ≡ place) }
    ensures bound { OnOk result (line.new.line.bound ≡ line.old.line.bound) }
    ensures closed { line.new.is_open ≡ false }
{
    while line.cursor() < place {
        line.go_on(alloc)?;
    }
    Ok(())
}

/// Returns the table that a move leads to, which is a copy of the one at hand if the move has none.
fn table_of(alloc: Global, next: Option<Table>, table: &Table) -> Result<Table, NoMem>
    ensures { IfOk result (λ whole. whole ≡ table_or next table.now) }
{
    match next {
        Some(next) => Ok(next),
        None => table.copy(alloc),
    }
}
