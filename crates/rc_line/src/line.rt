ghost use Rattle.std.specs.Prelude.{◌≡◌, ◌≢◌, ◌⊎◌, ◌<◌, ◌≤◌, ◌+◌, ◌↔◌, true, false, [], ◌∷◌, Some};
ghost use Rattle.std.specs.Prelude.{None, Err, length, slice_get, IfOk, OnOk, OnErr};
ghost use Rattle.rc_model.specs.Names.{Has};
ghost use Rattle.rc_model.specs.Database.{Bundles};
ghost use Rattle.rc_model.specs.Plan.{IsPlanTo};
ghost use Rattle.rc_model.specs.Line.{IsEdit, states, cursor, IsLine, IsNext, IsEntryAt};
ghost use Rattle.rc_model.specs.Line.{MovesByChange, MovesByEdit, MovesByUndo, MovesByRedo};
ghost use Rattle.rc_line.specs.Opening.{target_of, IsOpened, Closes, IsEditFrom};
ghost use Rattle.rc_line.specs.Keeping.{state, IsStepAt};

use crate::aim::Aim;
use crate::entry::Entry;
use crate::fault::LineFault;
use crate::opening::Open;
use crate::room::Room;
use crate::stack::{fit, make_room, nearest, spend_all, take_last};
use crate::step::{Reached, end_step};
use crate::tables::{led, replace};
use rc_bundle::Edit;
use rc_db::Table;
use rc_select::Plan;
use rc_set::{NoMem, Set};
use std::alloc::{AllocError, Global};
use std::collections::VecDeque;
use std::marker::Model;

/// The bound on the number of states of a line, if no other is given.
pub const USUAL_BOUND: u32 = 1024;

/// A line of states with a cursor on the current one, and a bound on how many there may be.
///
/// Time: an opening and a closing grow with the entry beside the cursor, with the services and,
/// where bundles alter, with the table; none grows with the number of states. `state` walks from
/// the cursor, and `copy` and `from_states` go through all states.
pub struct Line {
    live: Set,
    table: Table,
    /// What leads to the current state, the nearest last.
    done: VecDeque<Entry>,
    /// What leads on from it, the nearest last.
    undone: VecDeque<Entry>,
    /// Whether a move is under way.
    is_open: bool,
    /// How many states there may be.
    bound: u32,
}

impl Model for Line {
    ghost use Rattle.rc_line.specs.Opening.{Journal};
    ghost use Rattle.rc_line.specs.Keeping.{state, line_of, IsKept};
    ghost use Rattle.std.specs.VecDeque.{deque_capacity};

    ghost Value = { Journal };

    ghost view = { λ l. record {
      line = line_of l.bound l.done.items l.undone.items (state l.live l.table);
      is_open = l.is_open;
    } };

    ghost invariant = { λ l. IsKept l.bound l.done.items l.undone.items (state l.live l.table)
        l.is_open (deque_capacity l.done) (deque_capacity l.undone) };
}

impl Drop for Line {
    fn drop(self) {
        let Line {
            live: _,
            table: _,
            mut done,
            mut undone,
            is_open: _,
            bound: _,
        } = self;
        spend_all(&mut done);
        done.destroy_empty();
        spend_all(&mut undone);
        undone.destroy_empty();
    }
}

impl Line {
    /// Creates a line of one state, with a bound of 1,024 states.
    pub fn new(alloc: Global, live: Set, table: Table) -> Line
        ensures { result ≡ record {
          line = record {
            before = [];
            current = record { live = live; table = table };
            after = [];
            bound = 1024;
          };
          is_open = false;
        } }
    {
        Line::with_bound(alloc, live, table, USUAL_BOUND)
    }

    /// Creates a line of one state, with a bound of `bound` states.
    pub fn with_bound(alloc: Global, live: Set, table: Table, bound: u32) -> Line
        requires { 3 ≤ bound }
        ensures { result ≡ record {
          line = record {
            before = [];
            current = record { live = live; table = table };
            after = [];
            bound = bound;
          };
          is_open = false;
        } }
    {
        // The contract of `len` gives that this is a table.
        let _ = table.len();
        Line {
            live,
            table,
            done: VecDeque::new(alloc),
            undone: VecDeque::new(alloc),
            is_open: false,
            bound,
        }
    }

    /// Returns the services that are live in the current state.
    pub fn live(&self) -> &Set
        ensures { result.now ≡ self.now.line.current.live }
    {
        &self.live
    }

    /// Returns the bundles of the current state.
    pub fn table(&self) -> &Table
        ensures { result.now ≡ self.now.line.current.table }
    {
        &self.table
    }

    /// Returns the number of states of the line.
    pub fn states(&self) -> usize
        ensures count { result ≡ length (states self.now.line) }
        ensures line { IsLine self.now.line }
    {
        self.done.len() + self.undone.len() + 1
    }

    /// Returns the maximum number of states of the line.
    pub fn bound(&self) -> u32
        ensures { result ≡ self.now.line.bound }
    {
        self.bound
    }

    /// Returns the place of the current state.
    pub fn cursor(&self) -> usize
        ensures { result ≡ cursor self.now.line }
    {
        self.done.len()
    }

    /// Returns true if a move is under way.
    pub fn is_open(&self) -> bool
        ensures { result ≡ self.now.is_open }
    {
        self.is_open
    }

    /// Returns the entry from the state at a place to the one after it.
    pub fn entry(&self, place: usize) -> &Entry
        requires closed { self.now.is_open ≡ false }
        requires place { place + 1 < length (states self.now.line) }
        ensures { IsEntryAt self.now.line place result.now }
    {
        self.step_at(place)
    }

    /// Returns the state at a place.
    pub fn state(&self, alloc: Global, place: usize) -> Result<(Set, Table), NoMem>
        requires closed { self.now.is_open ≡ false }
        requires place { place < length (states self.now.line) }
        ensures { IfOk result (λ s. slice_get (states self.now.line) place
            ≡ Some (record { live = s.0; table = s.1 })) }
    {
        let live = self.live().copy(alloc)?;
        let table = self.table().copy(alloc)?;
        if place < self.cursor() {
            self.walk_back(alloc, place, live, table)
        } else {
            self.walk_on(alloc, place, live, table)
        }
    }

    /// Opens a change by a plan. Makes all the room that its end needs.
    pub fn open_new(&mut self, alloc: Global, plan: &Plan) -> Result<Open, LineFault>
        requires closed { self.old.is_open ≡ false }
        requires bound { length plan.now.opening ≡ length self.old.line.current.live }
        ensures opened { IfOk result (IsOpened self.new) }
        ensures aim { IfOk result (λ opening. opening.aim ≡ Aim.Change) }
        ensures live { IfOk result (λ opening.
            IsPlanTo plan.now.opening (Has opening.live) (Has plan.now.kept) plan.now) }
        ensures line { self.new.line ≡ self.old.line }
        ensures memory { OnErr result (result ≡ Err LineFault.Memory) }
        ensures err { OnErr result (self.new ≡ self.old) }
    {
        let Ok(mut live) = plan.opening().copy(alloc) else {
            return Err(LineFault::Memory);
        };
        live.join(plan.raise());
        live.without(plan.lower());
        self.opened(alloc, Aim::Change, live, None)
    }

    /// Opens an edit that was made from the current table. Makes all the room that its end needs.
    pub fn open_edit(&mut self, alloc: Global, edit: &Edit) -> Result<Open, LineFault>
        requires closed { self.old.is_open ≡ false }
        requires made { (table : Bundles) × IsEditFrom self.old.line edit.now table }
        ensures opened { IfOk result (IsOpened self.new) }
        ensures aim { IfOk result (λ opening. opening.aim ≡ Aim.Edit) }
        ensures edit { IfOk result (λ opening.
            IsEditFrom self.old.line edit.now (target_of opening self.old.line.current).table) }
        ensures line { self.new.line ≡ self.old.line }
        ensures memory { OnErr result (result ≡ Err LineFault.Memory) }
        ensures err { OnErr result (self.new ≡ self.old) }
    {
        let Ok(live) = self.live.copy(alloc) else {
            return Err(LineFault::Memory);
        };
        let Ok(table) = led(alloc, &self.table, edit, true) else {
            drop(live);
            return Err(LineFault::Memory);
        };
        self.opened(alloc, Aim::Edit, live, table)
    }

    /// Opens the way to the state before. Makes all the room that its end needs.
    pub fn open_undo(&mut self, alloc: Global) -> Result<Open, LineFault>
        requires { self.old.is_open ≡ false }
        ensures opened { IfOk result (IsOpened self.new) }
        ensures aim { IfOk result (λ opening. opening.aim ≡ Aim.Undo) }
        ensures line { self.new.line ≡ self.old.line }
        ensures nothing { (result ≡ Err LineFault.NothingToUndo) ↔ (self.old.line.before ≡ []) }
        ensures faults { OnErr result ((result ≡ Err LineFault.NothingToUndo)
            ⊎ (result ≡ Err LineFault.Memory)) }
        ensures err { OnErr result (self.new ≡ self.old) }
    {
        let Some(entry) = nearest(&self.done) else {
            return Err(LineFault::NothingToUndo);
        };
        let Ok((live, table)) = entry.before(alloc, &self.live, &self.table) else {
            return Err(LineFault::Memory);
        };
        self.opened(alloc, Aim::Undo, live, table)
    }

    /// Opens the way to the state after. Makes all the room that its end needs.
    pub fn open_redo(&mut self, alloc: Global) -> Result<Open, LineFault>
        requires { self.old.is_open ≡ false }
        ensures opened { IfOk result (IsOpened self.new) }
        ensures aim { IfOk result (λ opening. opening.aim ≡ Aim.Redo) }
        ensures line { self.new.line ≡ self.old.line }
        ensures nothing { (result ≡ Err LineFault.NothingToRedo) ↔ (self.old.line.after ≡ []) }
        ensures faults { OnErr result ((result ≡ Err LineFault.NothingToRedo)
            ⊎ (result ≡ Err LineFault.Memory)) }
        ensures err { OnErr result (self.new ≡ self.old) }
    {
        let Some(entry) = nearest(&self.undone) else {
            return Err(LineFault::NothingToRedo);
        };
        let Ok((live, table)) = entry.after(alloc, &self.live, &self.table) else {
            return Err(LineFault::Memory);
        };
        self.opened(alloc, Aim::Redo, live, table)
    }

    /// Ends a change, an undo or a redo with what is live now. Takes no memory.
    pub fn close(&mut self, opening: Open, live: &Set)
        requires opened { IsOpened self.old opening }
        requires aim { opening.aim ≢ Aim.Edit }
        requires bound { length live.now ≡ length self.old.line.current.live }
        ensures moved { Closes opening.aim self.old.line live.now self.new.line }
        ensures closed { self.new.is_open ≡ false }
    {
        match opening.aim {
            Aim::Change | Aim::Edit => self.close_change(opening, live),
            Aim::Undo => self.close_undo(opening, live),
            Aim::Redo => self.close_redo(opening, live),
        }
    }

    /// Ends an edit. Takes no memory.
    pub fn close_edit(&mut self, opening: Open, edit: Edit)
        requires opened { IsOpened self.old opening }
        requires aim { opening.aim ≡ Aim.Edit }
        requires edit { IsEdit self.old.line.current.table
            (target_of opening self.old.line.current).table edit }
        ensures moved { MovesByEdit self.old.line
            (target_of opening self.old.line.current).table self.new.line }
        ensures closed { self.new.is_open ≡ false }
    {
        let Open {
            aim: _,
            live: _,
            table,
            near,
            far: _,
            no_edit: _,
        } = opening;
        self.is_open = false;
        if edit.len() == 0 {
            drop((table, near, edit));
            return;
        }
        let Room { raised, lowered } = near;
        spend_all(&mut self.undone);
        self.done.push_back_reserved(Entry {
            raised,
            lowered,
            edit,
        });
        fit(&mut self.done, &mut self.undone, self.bound);
        replace(&mut self.table, table);
    }

    /// Leaves the line as it was before the opening. Takes no memory.
    pub fn give_up(&mut self, opening: Open)
        requires { IsOpened self.old opening }
        ensures line { self.new.line ≡ self.old.line }
        ensures closed { self.new.is_open ≡ false }
    {
        opening.spend();
        self.is_open = false;
    }

    /// Opens a move that aims at a state. `None` for its table stands for the current one.
    fn opened(
        &mut self,
        alloc: Global,
        aim: Aim,
        live: Set,
        table: Option<Table>,
    ) -> Result<Open, LineFault>
        requires { self.old.is_open ≡ false }
        ensures opening { IfOk result (λ opening.
            opening ≡ record { aim = aim; live = live; table = table }) }
        ensures open { OnOk result (self.new.is_open ≡ true) }
        ensures line { self.new.line ≡ self.old.line }
        ensures memory { OnErr result (result ≡ Err LineFault.Memory) }
        ensures err { OnErr result (self.new ≡ self.old) }
    {
        let Ok(opening) = Open::new(alloc, aim, live, table) else {
            return Err(LineFault::Memory);
        };
        let Ok(()) = make_room(&mut self.done, &mut self.undone) else {
            opening.spend();
            return Err(LineFault::Memory);
        };
        self.is_open = true;
        Ok(opening)
    }

    fn close_change(&mut self, opening: Open, live: &Set)
        requires opened { IsOpened self.old opening }
        requires aim { opening.aim ≡ Aim.Change }
        requires bound { length live.now ≡ length self.old.line.current.live }
        ensures moved { MovesByChange self.old.line live.now self.new.line }
        ensures closed { self.new.is_open ≡ false }
    {
        let Open {
            aim: _,
            live: target,
            table,
            near,
            far,
            no_edit,
        } = opening;
        drop((target, table, far));
        self.is_open = false;
        if self.live.same(live) {
            return;
        }
        let entry = near.entry(&self.live, live, no_edit);
        spend_all(&mut self.undone);
        self.done.push_back_reserved(entry);
        fit(&mut self.done, &mut self.undone, self.bound);
        self.live.overwrite(live);
    }

    fn close_undo(&mut self, opening: Open, live: &Set)
        requires opened { IsOpened self.old opening }
        requires aim { opening.aim ≡ Aim.Undo }
        requires bound { length live.now ≡ length self.old.line.current.live }
        ensures moved { MovesByUndo self.old.line live.now self.new.line }
        ensures closed { self.new.is_open ≡ false }
    {
        self.is_open = false;
        end_step(
            &mut self.done,
            &mut self.undone,
            &mut self.live,
            &mut self.table,
            opening,
            Reached {
                end: live,
                ahead: false,
            },
        );
        fit(&mut self.done, &mut self.undone, self.bound);
    }

    fn close_redo(&mut self, opening: Open, live: &Set)
        requires opened { IsOpened self.old opening }
        requires aim { opening.aim ≡ Aim.Redo }
        requires bound { length live.now ≡ length self.old.line.current.live }
        ensures moved { MovesByRedo self.old.line live.now self.new.line }
        ensures closed { self.new.is_open ≡ false }
    {
        self.is_open = false;
        end_step(
            &mut self.undone,
            &mut self.done,
            &mut self.live,
            &mut self.table,
            opening,
            Reached {
                end: live,
                ahead: true,
            },
        );
        fit(&mut self.done, &mut self.undone, self.bound);
    }

    /// Puts a state in front of a line that stands on its first one, and stands on it.
    pub(crate) fn prepend(&mut self, alloc: Global, live: Set, table: Table) -> Result<(), NoMem>
        requires closed { self.old.is_open ≡ false }
        requires first { self.old.line.before ≡ [] }
        requires bound { length live ≡ length self.old.line.current.live }
        requires differ { state live table ≢ self.old.line.current }
        requires few { length (states self.old.line) < self.old.line.bound }
        ensures line { OnOk result (self.new.line ≡ record {
          before = [];
          current = state live table;
          after = self.old.line.current ∷ self.old.line.after;
          bound = self.old.line.bound;
        }) }
        ensures closed { self.new.is_open ≡ false }
    {
        // The contract of `len` gives that this is a table.
        let _ = table.len();
        let Ok(()) = self.undone.reserve(1) else {
            drop((live, table));
            return Err(AllocError);
        };
        let Ok(entry) = Entry::between(alloc, &live, &table, &self.live, &self.table) else {
            drop((live, table));
            return Err(AllocError);
        };
        self.undone.push_back_reserved(entry);
        self.live = live;
        self.table = table;
        Ok(())
    }

    /// Goes one state on.
    pub(crate) fn go_on(&mut self, alloc: Global) -> Result<(), NoMem>
        requires closed { self.old.is_open ≡ false }
        requires more { self.old.line.after ≢ [] }
        ensures line { OnOk result (IsNext self.old.line self.new.line) }
        ensures closed { self.new.is_open ≡ false }
    {
        let entry = self.step_at(self.cursor());
        let (live, table) = entry.after(alloc, self.live(), self.table())?;
        let Ok(()) = self.done.reserve(1) else {
            drop((live, table));
            return Err(AllocError);
        };
        let entry = take_last(&mut self.undone);
        self.done.push_back_reserved(entry);
        self.live = live;
        replace(&mut self.table, table);
        Ok(())
    }

    /// Returns the entry at a place, also while the line is open.
    pub(crate) fn step_at(&self, place: usize) -> &Entry
        requires { place + 1 < length (states self.now.line) }
        ensures { IsStepAt self.now.line place result.now }
    {
        let done = self.done.len();
        if place < done {
            &self.done[place]
        } else {
            &self.undone[self.undone.len() - 1 - (place - done)]
        }
    }

    /// Turns the state at a place into the one after it. If memory runs out, it stays as it was.
    pub fn step_on(
        &self,
        alloc: Global,
        place: usize,
        live: &mut Set,
        table: &mut Table,
    ) -> Result<(), NoMem>
        requires place { place + 1 < length (states self.now.line) }
        requires here { slice_get (states self.now.line) place
            ≡ Some (record { live = live.old; table = table.old }) }
        ensures next { OnOk result (slice_get (states self.now.line) (place + 1)
            ≡ Some (record { live = live.new; table = table.new })) }
        ensures same { OnErr result ((live.new ≡ live.old) × (table.new ≡ table.old)) }
    {
        let (next, other) = self.step_at(place).after(alloc, live, table)?;
        *live = next;
        replace(table, other);
        Ok(())
    }

    /// Returns the state at a place up to the cursor, going back from the current one.
    fn walk_back(
        &self,
        alloc: Global,
        place: usize,
        mut live: Set,
        mut table: Table,
    ) -> Result<(Set, Table), NoMem>
        requires place { place ≤ cursor self.now.line }
        requires from { state live table ≡ self.now.line.current }
        ensures { IfOk result (λ s. slice_get (states self.now.line) place ≡ Some (state s.0 s.1)) }
    {
        let mut at = self.cursor();
        while at > place {
            at -= 1;
            self.step_at(at).turn_back(alloc, &mut live, &mut table)?;
        }
        Ok((live, table))
    }

    /// Returns the state at a place from the cursor on, going on from the current one.
    pub(crate) fn walk_on(
        &self,
        alloc: Global,
        place: usize,
        mut live: Set,
        mut table: Table,
    ) -> Result<(Set, Table), NoMem>
        requires low { cursor self.now.line ≤ place }
        requires high { place < length (states self.now.line) }
        requires from { state live table ≡ self.now.line.current }
        ensures { IfOk result (λ s. slice_get (states self.now.line) place ≡ Some (state s.0 s.1)) }
    {
        let mut at = self.cursor();
        while at < place {
            self.step_at(at).turn_on(alloc, &mut live, &mut table)?;
            at += 1;
        }
        Ok((live, table))
    }
}
