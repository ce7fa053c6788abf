//! Laws of the moves, each the contract of a function that does nothing. A move on the text of a
//! history is the same move on the history that the text describes.
ghost use Rattle.std.specs.Prelude.{◌≡◌, ◌≢◌, ◌+◌, ◌<◌, ℕ, Bool, [], List, length, map};
ghost use Rattle.rc_model.specs.Database.{Database};
ghost use Rattle.rc_history.specs.History.{History, IsHistory};
ghost use Rattle.rc_history.specs.Moves.{Enters, IsAcross, cut_after};
ghost use Rattle.rc_history.specs.Promises.{DropsLater, DropsOldest};
ghost use Rattle.rc_historytext.specs.Text.{GenerationText, HistoryText, IsGenerationText};
ghost use Rattle.rc_historytext.specs.Text.{IsHistoryText, IsShort};
ghost use Rattle.rc_historytext.specs.Moves.{begun, crossed_back, crossed_on, without_later};
ghost use Rattle.rc_historytext.specs.Moves.{with_session, without_earlier, without_oldest};
ghost use Rattle.rc_historytext.specs.Telling.{IsMovedInside, Tells, TellsStates, conversion_of};

/// Each move leaves a history that has a text.
pub fn moves_keep_texts()
    ensures back { (t : HistoryText) → IsHistoryText t → IsHistoryText (crossed_back t) }
    ensures on { (t : HistoryText) → IsHistoryText t → t.present + 1 < length t.generations
        → IsHistoryText (crossed_on t) }
    ensures later { (t : HistoryText) → IsHistoryText t → IsHistoryText (without_later t) }
    ensures earlier { (t : HistoryText) → IsHistoryText t → IsHistoryText (without_earlier t) }
    ensures oldest { (t : HistoryText) → IsHistoryText t → 0 < t.present
        → IsHistoryText (without_oldest t) }
    ensures session { (t : HistoryText) (session : List ℕ) (first last : Bool) → IsHistoryText t
        → IsShort session → IsHistoryText (with_session t session first last) }
    ensures begun { (t : HistoryText) (g : GenerationText) → IsHistoryText t → IsGenerationText g
        → IsHistoryText (begun t g) }
{}

/// A history crosses a border back from the first state of its present generation, and on from its
/// last state.
pub fn borders_are_crossed()
    ensures back { (t : HistoryText) (h : History) → IsHistory h → Tells t h → 0 < t.present
        → h.present.line.before ≡ []
        → (next : History) × Tells (crossed_back t) next × IsAcross next h }
    ensures on { (t : HistoryText) (h : History) → IsHistory h → Tells t h
        → t.present + 1 < length t.generations → h.present.line.after ≡ []
        → (next : History) × Tells (crossed_on t) next × IsAcross h next }
{}

/// A command of the present generation replaces its line, and drops the generations that lie beyond
/// a dropped state.
pub fn commands_replace_sessions()
    ensures all { (t : HistoryText) (session : List ℕ) (first last : Bool) (h new : History)
        → Tells t h → IsMovedInside h new session → new.earlier ≡ h.earlier → new.later ≡ h.later
        → Tells (with_session t session first last) new }
    ensures no_later { (t : HistoryText) (session : List ℕ) (first last : Bool) (h new : History)
        → Tells t h → IsMovedInside h new session → new.earlier ≡ h.earlier → new.later ≡ []
        → Tells (without_later (with_session t session first last)) new }
    ensures no_earlier { (t : HistoryText) (session : List ℕ) (first last : Bool) (h new : History)
        → Tells t h → IsMovedInside h new session → new.earlier ≡ [] → new.later ≡ h.later
        → Tells (without_earlier (with_session t session first last)) new }
    ensures alone { (t : HistoryText) (session : List ℕ) (first last : Bool) (h new : History)
        → Tells t h → IsMovedInside h new session → new.earlier ≡ [] → new.later ≡ []
        → Tells (without_earlier (without_later (with_session t session first last))) new }
{}

/// Dropping the oldest generation of a text, or the later ones, drops them from the history.
pub fn ends_are_dropped()
    ensures oldest { (t : HistoryText) (h new : History) → Tells t h → DropsOldest h new
        → Tells (without_oldest t) new }
    ensures later { (t : HistoryText) (h new : History) → Tells t h → DropsLater h new
        → Tells (without_later t) new }
{}

/// An update enters its database, if no state comes after the current one in the text of the
/// present generation. If there are eight generations before the new one, the oldest one is
/// dropped.
pub fn updates_begin_generations()
    ensures room { (t : HistoryText) (g : GenerationText) (d : Database) (h new : History)
        → Tells t (record h { present = cut_after h.present })
        → Enters h (map conversion_of g.renames) d new → TellsStates g new.present
        → length (without_later t).generations ≢ 8 → Tells (begun t g) new }
    ensures full { (t : HistoryText) (g : GenerationText) (d : Database) (h new rest : History)
        → Tells t (record h { present = cut_after h.present })
        → Enters h (map conversion_of g.renames) d new → TellsStates g new.present
        → length (without_later t).generations ≡ 8 → DropsOldest new rest
        → Tells (begun t g) rest }
{}
