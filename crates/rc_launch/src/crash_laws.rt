//! Laws about a crash at any point of a command on a history. Each is the contract of an empty
//! function.
ghost use Rattle.std.specs.Prelude.{◌≡◌, ◌⊎◌, ◌++◌, ◌∷◌, ℕ, Bool, List, [], false, true};
ghost use Rattle.rc_model.specs.declared.Event.{Event};
ghost use Rattle.rc_model.specs.declared.Event.TheVariants.{Done};
ghost use Rattle.rc_model.specs.declared.Outcome.TheVariants as outcome;
ghost use Rattle.rc_model.specs.Database.{Database};
ghost use Rattle.rc_model.specs.Line.{IsNext, Line};
ghost use Rattle.rc_model.specs.Plan.{Ask};
ghost use Rattle.rc_model.specs.Run.{IsHeldBy};
ghost use Rattle.rc_model.specs.Session.{Change, Does, Reported};
ghost use Rattle.rc_update.specs.Conversions.{Conversion};
ghost use Rattle.rc_update.specs.Distinct.{AreDistinct};
ghost use Rattle.rc_livetext.specs.Spelling.{spelling};
ghost use Rattle.rc_history.specs.History.{History, IsHistory, Place, place_in, place_now};
ghost use Rattle.rc_historytext.specs.declared.keeping.Keeping.{Keeping};
ghost use Rattle.rc_historytext.specs.declared.keeping.Keeping.TheVariants.{Command};
ghost use Rattle.rc_historytext.specs.Halting.{MayDo};
ghost use Rattle.rc_historytext.specs.Keeping.{IsKept};
ghost use Rattle.rc_historytext.specs.Places.{GivesHistory};
ghost use Rattle.rc_historytext.specs.Travelling.{GoesOn, PassesTo};
ghost use Rattle.rc_historytext.specs.Updates.{StandsOn};
ghost use Rattle.rc_recovery.specs.Files.{AfterCrash, Files, Write};
ghost use Rattle.rc_recovery.specs.Logging.{HoldEvents, Logged};
ghost use Rattle.rc_recovery.specs.Recoveries.{IsCrash};
ghost use Rattle.rc_recovery.specs.RunLog.{EndsWhole};
ghost use Rattle.rc_script.specs.RunLines.{IsEventLine};
ghost use Rattle.rc_launch.specs.HistoryCrashes.{EndsInOneHistory, IsHistoryCrash, IsHistoryMore};
ghost use Rattle.rc_launch.specs.HistoryCrashes.{IsOfRun};
ghost use Rattle.rc_launch.specs.HistoryRecoveries.{EndsWithHistory, EntersOnce, HasPresent};
ghost use Rattle.rc_launch.specs.HistoryRecoveries.{beside};
ghost use Rattle.rc_launch.specs.UpdateCrashes.{IsTakenBack, StandsOnPlace, UndoRestores};
ghost use Rattle.rc_launch.specs.UpdateCrashes.{WritesChange, WritesUpdate};
ghost use Rattle.rc_launch.specs.WayCrashes.{LeavesWay, LineHasRoom, StopsBehind, WritesRun};
ghost use Rattle.rc_launch.specs.WayCrashes.{WritesWay};

use rc_history::laws::one_undo_takes_an_update_back;
use rc_historytext::travel_laws::travels_undo_and_redo;
use rc_historytext::update_laws::updates_of_texts_are_updates;
use rc_recovery::crash::laws::{
    crashes_leave_one_line, empty_logs_are_at_rest, found_ends_are_logged_ends,
};

/// Recoveries of a history may be cut short, and each may be that of another command. In the end
/// the history is as it was, and there was nothing to enter; or what the log of its present session
/// says is entered once, and kept as the log says.
pub fn recoveries_enter_once()
    ensures { (d : Database) (session : List ℕ) (f : Files) (end : List ℕ) →
        HasPresent f.file d session → EndsWithHistory f end → EntersOnce d session f end }
{
    rc_historytext::laws::text_is_unique();
    rc_dbtext::laws::spelling_is_unique();
    rc_livetext::form_laws::text_is_unique();
    empty_logs_are_at_rest();
}

/// A command on a history crashes at any point. Recoveries follow, each of any command, and each
/// crashes at any point. The next one that is not cut short leaves the history as it was; or with
/// the line that exactly the events of the log lead to, kept as the mark and the step of the log
/// say; or the history that the command was to write. Whatever the recoveries were, it is the same
/// history. No recovery finds a log that can't be entered.
pub fn crashes_leave_one_history()
    ensures { (d : Database) (line new : Line) (keeping : Keeping) (l : Logged)
        (kept : List ℕ) (f g : Files) → IsHistoryCrash d line new keeping l kept f g
        → EndsInOneHistory d line l kept f g }
{
    rc_historytext::laws::text_is_unique();
    rc_dbtext::laws::spelling_is_unique();
    rc_livetext::form_laws::text_is_unique();
    rc_livetext::laws::spelling_is_unique();
    rc_script::laws::lines_say_one_thing();
    empty_logs_are_at_rest();
    crashes_leave_one_line();
}

/// The end of a transition that was under way is appended to the log of a command that was cut
/// short. A crash within that leaves what a crash leaves of a command that has logged this end,
/// too. So `crashes_leave_one_history` holds of the files, whichever ends are appended, one after
/// the other.
pub fn found_ends_are_logged_beside_histories()
    ensures { (d : Database) (line new : Line) (keeping : Keeping) (l : Logged)
        (kept : List ℕ) (events : List Event) (w s : ℕ) (text : List ℕ) (f g : Files)
        → IsHistoryCrash d line new keeping l kept f g → g.file ≡ f.file
        → HoldEvents d line l events (beside (spelling d line) g) → EndsWhole g.log
        → IsHeldBy events w s → IsEventLine d.names (Done w s outcome.Ok) text → (more : Logged)
        × IsHistoryMore d line new keeping l kept (events ++ Done w s outcome.Ok ∷ []) text f g
        more }
{
    found_ends_are_logged_ends();
}

/// A change begins on a state from which an undo would not go on, and crashes at any point. After
/// any recoveries, the history is the one before, or one undo that goes well restores what stood
/// there: database, live set and bundles.
pub fn crashed_changes_are_taken_back()
    ensures { (d : Database) (line new : Line) (ask : Ask) (events : List Event)
        (report : Reported) (keeping : Keeping) (marked : Bool) (bytes kept : List ℕ)
        (writes : List Write)
        (g : Files) (end : List ℕ) → StandsOn bytes d line → GoesOn false bytes false
        → Does d line (Change ask events) report new → IsOfRun keeping
        → IsKept keeping bytes (spelling d new) kept
        → WritesChange marked d line ask kept writes
        → AfterCrash writes (record { file = bytes; log = [] }) g → EndsWithHistory g end
        → IsTakenBack bytes (place_in d line.current) end }
{
    rc_historytext::laws::text_is_unique();
    rc_dbtext::laws::spelling_is_unique();
    rc_livetext::form_laws::text_is_unique();
    rc_livetext::laws::spelling_is_unique();
    rc_livetext::laws::lines_are_texts();
    rc_script::laws::lines_say_one_thing();
    empty_logs_are_at_rest();
    crashes_leave_one_line();
}

/// An update begins on a state from which an undo would not go on, and crashes at any point: in its
/// first half, at the border, in its second half, or at its end. After any recoveries, each of any
/// command and cut short at any point, the history is the one that the update found, or one undo
/// that goes well restores what the update found: database, live set and bundles.
pub fn crashed_updates_are_taken_back()
    ensures { (list : List Conversion) (d : Database) (bytes next : List ℕ) (h : History)
        (marks : List Bool) (writes : List Write) (g : Files) (end : List ℕ) → AreDistinct list
        → IsHistory h → GivesHistory bytes h marks → GoesOn false bytes false
        → WritesUpdate list d bytes next writes
        → AfterCrash writes (record { file = bytes; log = [] }) g → EndsWithHistory g end
        → IsTakenBack bytes (place_now h) end }
{
    rc_historytext::laws::text_is_unique();
    rc_dbtext::laws::spelling_is_unique();
    rc_livetext::form_laws::text_is_unique();
    rc_livetext::laws::spelling_is_unique();
    rc_livetext::laws::lines_are_texts();
    rc_script::laws::lines_say_one_thing();
    empty_logs_are_at_rest();
    crashes_leave_one_line();
    updates_of_texts_are_updates();
    travels_undo_and_redo();
    one_undo_takes_an_update_back();
}

/// An undo or a redo crashes at any point, within a generation or at a border. After any
/// recoveries, whole steps lead on. Behind them the history is as it was; or the border is crossed;
/// or a line is kept that an undo or a redo leaves there.
pub fn crashed_ways_go_by_steps()
    ensures { (on : Bool) (bytes next : List ℕ) (writes : List Write) (g : Files)
        (end : List ℕ) → WritesWay on bytes next writes
        → AfterCrash writes (record { file = bytes; log = [] }) g → EndsWithHistory g end
        → LeavesWay on bytes end }
{
    rc_historytext::laws::text_is_unique();
    rc_dbtext::laws::spelling_is_unique();
    rc_livetext::form_laws::text_is_unique();
    rc_livetext::laws::spelling_is_unique();
    rc_script::laws::lines_say_one_thing();
    empty_logs_are_at_rest();
    crashes_leave_one_line();
}

/// A redo inside a generation begins on a state from which an undo would not go on, and crashes at
/// any point. Its line has room for one state more. After any recoveries, the history is the one
/// before, or one undo that goes well restores what stood there.
pub fn crashed_redos_are_taken_back()
    ensures { (d : Database) (line new : Line) (keeping : Keeping) (marked : Bool)
        (bytes kept : List ℕ) (writes : List Write) (g : Files) (end : List ℕ)
        → StandsOn bytes d line → GoesOn false bytes false → LineHasRoom line
        → MayDo d true line new → IsOfRun keeping → IsKept keeping bytes (spelling d new) kept
        → WritesRun marked true d line kept writes
        → AfterCrash writes (record { file = bytes; log = [] }) g → EndsWithHistory g end
        → IsTakenBack bytes (place_in d line.current) end }
{
    rc_historytext::laws::text_is_unique();
    rc_dbtext::laws::spelling_is_unique();
    rc_livetext::form_laws::text_is_unique();
    rc_livetext::laws::spelling_is_unique();
    rc_livetext::laws::lines_are_texts();
    rc_script::laws::lines_say_one_thing();
    empty_logs_are_at_rest();
    crashes_leave_one_line();
}

/// An undo inside a generation crashes at any point. Its line has room for one state more, and it
/// would not go on from the state before. After any recoveries, the history stands on that state,
/// or one undo that goes well restores it: database, live set and bundles.
pub fn crashed_undos_go_on()
    ensures { (d : Database) (line back new : Line) (keeping : Keeping) (marked : Bool)
        (bytes kept : List ℕ) (writes : List Write) (g : Files) (end : List ℕ)
        → StandsOn bytes d line → IsNext back line → StopsBehind bytes → LineHasRoom line
        → MayDo d false line new → IsOfRun keeping → IsKept keeping bytes (spelling d new) kept
        → WritesRun marked false d line kept writes
        → AfterCrash writes (record { file = bytes; log = [] }) g → EndsWithHistory g end
        → StandsOnPlace end (place_in d back.current)
        ⊎ UndoRestores (place_in d back.current) end }
{
    rc_historytext::laws::text_is_unique();
    rc_dbtext::laws::spelling_is_unique();
    rc_livetext::form_laws::text_is_unique();
    rc_livetext::laws::spelling_is_unique();
    rc_livetext::laws::lines_are_texts();
    rc_script::laws::lines_say_one_thing();
    empty_logs_are_at_rest();
    crashes_leave_one_line();
}

/// If one undo that goes well restores a place, one does from where whole steps of it have led.
pub fn undos_go_on_behind_whole_steps()
    ensures { (place : Place) (bytes between : List ℕ) (n : ℕ) → UndoRestores place bytes
        → PassesTo n false bytes between → UndoRestores place between }
{}

/// What a crash leaves of a session that is alone, one leaves of each history on which it stands.
/// So the premises of `crashes_leave_one_history` can hold wherever those of
/// `crashes_leave_one_line` do.
pub fn crashes_of_sessions_are_of_histories()
    ensures { (d : Database) (line : Line) (l : Logged) (bytes : List ℕ) (f g : Files)
        → StandsOn bytes d line → IsCrash d line line l f g
        → IsHistoryCrash d line line Command l bytes (beside bytes f) (beside bytes g) }
{}

/// A recovery that finds an empty log comes to an end, and leaves the history as it was.
pub fn recoveries_of_empty_logs_end()
    ensures { (d : Database) (line : Line) (bytes : List ℕ) → StandsOn bytes d line
        → EndsWithHistory (record { file = bytes; log = [] }) bytes }
{}
