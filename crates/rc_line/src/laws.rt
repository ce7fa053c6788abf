//! Laws of the definitions, for the crates above. The functions do nothing when they run.

ghost use Rattle.std.specs.Prelude.{◌≡◌, ◌⊎◌, ◌≤◌, ◌<◌, [], suc, length, List, Bool, ◌++◌, ◌∷◌};
ghost use Rattle.std.specs.Prelude.{take, drop, Some, slice_get};
ghost use Rattle.rc_model.specs.Database.{IsTable};
ghost use Rattle.rc_model.specs.Line.{State, Entry, IsEntry, entry_back, Line, IsLine, IsNext};
ghost use Rattle.rc_model.specs.Line.{states, cursor, within_bound, MovesTo, MovesByUndo};
ghost use Rattle.rc_model.specs.Line.{MovesByRedo};

/// The inverse of an entry is the entry back.
pub fn entries_turn_round()
    ensures { (from to : State) (entry : Entry) → IsEntry from to entry →
        IsEntry to from (entry_back entry) }
{}

/// The current state is the one at the cursor.
pub fn cursor_is_on_the_current_state()
    ensures { (line : Line) → slice_get (states line) (cursor line) ≡ Some line.current }
{}

/// Going one state on leaves the states alone.
pub fn next_has_the_same_states()
    ensures states { (line next : Line) → IsNext line next → states next ≡ states line }
    ensures cursor { (line next : Line) → IsNext line next → cursor next ≡ suc (cursor line) }
{}

/// A line within its bound stays as it is.
pub fn fitting_leaves_short_lines()
    ensures { (line : Line) → length (states line) ≤ line.bound → within_bound line ≡ line }
{}

/// A line that has one state too many drops exactly one, the oldest or the last. The current one
/// stays.
pub fn fitting_takes_one()
    ensures gone { (line : Line) → 3 ≤ line.bound → line.bound < length (states line) →
        ((gone : State) × (states line ≡ gone ∷ states (within_bound line))
        × (cursor line ≡ suc (cursor (within_bound line))) × (2 ≤ cursor line))
        ⊎ ((gone : State) × (states line ≡ states (within_bound line) ++ gone ∷ [])
        × (cursor (within_bound line) ≡ cursor line) × (cursor line < 2)) }
    ensures current { (line : Line) → (within_bound line).current ≡ line.current }
    ensures bound { (line : Line) → (within_bound line).bound ≡ line.bound }
{}

/// The state before the current one and the one after it are never dropped.
pub fn fitting_keeps_neighbours()
    ensures before { (line back : Line) → 3 ≤ line.bound → IsNext back line →
        (other : Line) × IsNext other (within_bound line) × (other.current ≡ back.current) }
    ensures after { (line on : Line) → 3 ≤ line.bound → IsNext line on →
        (other : Line) × IsNext (within_bound line) other × (other.current ≡ on.current) }
    ensures first { (line : Line) → 3 ≤ line.bound → line.before ≡ [] →
        (within_bound line).before ≡ [] }
    ensures last { (line : Line) → 3 ≤ line.bound → line.after ≡ [] →
        (within_bound line).after ≡ [] }
{}

/// An undo goes one state back, or changes nothing, or puts its end in front of where the cursor
/// was, with the cursor on it. If the line then has one state too many, one is dropped.
pub fn undo_goes_back_or_stays_or_splits()
    ensures { (line new : Line) (live : List Bool) → MovesByUndo line live new →
        ((states new ≡ states line) × (cursor line ≡ suc (cursor new)))
        ⊎ (new ≡ line)
        ⊎ ((full : Line)
        × (states full ≡ take (cursor line) (states line)
        ++ new.current ∷ drop (cursor line) (states line))
        × (cursor full ≡ cursor line) × (full.bound ≡ line.bound) × (new ≡ within_bound full)) }
{}

/// A redo goes one state on, or changes nothing, or puts its end after where the cursor was, with
/// the cursor on it. If the line then has one state too many, one is dropped.
pub fn redo_goes_on_or_stays_or_splits()
    ensures { (line new : Line) (live : List Bool) → MovesByRedo line live new →
        ((states new ≡ states line) × (cursor new ≡ suc (cursor line)))
        ⊎ (new ≡ line)
        ⊎ ((full : Line)
        × (states full ≡ take (suc (cursor line)) (states line)
        ++ new.current ∷ drop (suc (cursor line)) (states line))
        × (cursor full ≡ suc (cursor line)) × (full.bound ≡ line.bound)
        × (new ≡ within_bound full)) }
{}

/// Each move leads from a line to a line.
pub fn moves_keep_lines()
    ensures change { (line new : Line) (end : State) → IsLine line →
        length end.live ≡ length line.current.live → IsTable end.table → MovesTo line end new →
        IsLine new }
    ensures undo { (line new : Line) (live : List Bool) → IsLine line →
        length live ≡ length line.current.live → MovesByUndo line live new → IsLine new }
    ensures redo { (line new : Line) (live : List Bool) → IsLine line →
        length live ≡ length line.current.live → MovesByRedo line live new → IsLine new }
{}

/// A line is its states, the place of its cursor, and its bound.
pub fn line_is_states_and_cursor()
    ensures { (a b : Line) → states a ≡ states b → cursor a ≡ cursor b → a.bound ≡ b.bound →
        a ≡ b }
{}

/// An entry leads from a state to one state only. So what is redone is exact, and so is what is
/// undone, by the inverse of the entry.
pub fn entries_lead_to_one_state()
    ensures { (from one other : State) (entry : Entry) → IsEntry from one entry →
        IsEntry from other entry → IsTable one.table → IsTable other.table →
        length one.live ≡ length other.live → one ≡ other }
{}
