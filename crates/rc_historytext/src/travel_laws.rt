//! Laws of an undo and a redo that lead across borders, each the contract of a function that does
//! nothing. What goes well on the text of a history goes well in the history that the text gives.
ghost use Rattle.std.specs.Prelude.{ℕ, Bool, List, false, true};
ghost use Rattle.rc_history.specs.History.{History, IsHistory};
ghost use Rattle.rc_history.specs.Stops.{Redoes, StandsAfter, StandsBefore, Undoes};
ghost use Rattle.rc_historytext.specs.Halting.{Halts, LeavesIn};
ghost use Rattle.rc_historytext.specs.Places.{GivesHistory};
ghost use Rattle.rc_historytext.specs.Travelling.{Travels};

use rc_history::laws::{commands_keep_histories, crossing_keeps_histories, undos_stand_on_stops};

/// An undo or a redo that goes well on the text of a history is one in the history that the text
/// gives. The text that it leaves gives the history afterwards, with the same marks. One that does
/// not go well has gone by whole steps, and left exactly what remains of one more: what goes well
/// from where the steps led is what goes well from the beginning.
pub fn travels_undo_and_redo()
    ensures undo { (bytes next : List ℕ) (h : History) (marks : List Bool) → IsHistory h
        → GivesHistory bytes h marks → Travels false bytes next
        → (new : History) × GivesHistory next new marks × IsHistory new × Undoes marks h new }
    ensures redo { (bytes next : List ℕ) (h : History) (marks : List Bool) → IsHistory h
        → GivesHistory bytes h marks → Travels true bytes next
        → (new : History) × GivesHistory next new marks × IsHistory new × Redoes marks h new }
    ensures undo_left { (bytes next : List ℕ) (h : History) (marks : List Bool) → IsHistory h
        → GivesHistory bytes h marks → Halts false bytes next
        → (there : History) × LeavesIn false there marks next
        × ((old : History) → Undoes marks there old → Undoes marks h old) }
    ensures redo_left { (bytes next : List ℕ) (h : History) (marks : List Bool) → IsHistory h
        → GivesHistory bytes h marks → Halts true bytes next
        → (there : History) × LeavesIn true there marks next
        × ((old : History) → Redoes marks there old → Redoes marks h old) }
{
    rc_dbtext::laws::spelling_is_unique();
    rc_livetext::form_laws::text_is_unique();
    rc_livetext::laws::lines_are_texts();
    rc_livetext::laws::spelling_is_unique();
    crossing_keeps_histories();
    commands_keep_histories();
}

/// An undo that goes well on the text of a history moves only the cursor, back to the nearest stop
/// before, and restores what stood there: database, live set and bundles. A redo that goes well
/// does the same forwards.
pub fn travels_stand_on_stops()
    ensures undo { (bytes next : List ℕ) (h : History) (marks : List Bool) → IsHistory h
        → GivesHistory bytes h marks → Travels false bytes next
        → (new : History) × GivesHistory next new marks × IsHistory new
        × StandsBefore marks h new }
    ensures redo { (bytes next : List ℕ) (h : History) (marks : List Bool) → IsHistory h
        → GivesHistory bytes h marks → Travels true bytes next
        → (new : History) × GivesHistory next new marks × IsHistory new
        × StandsAfter marks h new }
{
    travels_undo_and_redo();
    undos_stand_on_stops();
}
