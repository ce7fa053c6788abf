//! Laws of the definitions, the headline first. The functions do nothing when they run.

ghost use Rattle.std.specs.Prelude.{◌≡◌, ◌↔◌, ℕ, List, [], Option, Some, take};
ghost use Rattle.std.specs.Prelude.{drop, slice_get, Result};
ghost use Rattle.rc_model.specs.Database.{Database, IsDatabase};
ghost use Rattle.rc_model.specs.Plan.{PlanSets};
ghost use Rattle.rc_model.specs.declared.Event.{Event};
ghost use Rattle.rc_model.specs.Run.{course_of, IsSettled};
ghost use Rattle.rc_model.specs.Beside.{IsCourse, IsEditOnly, TargetOf};
ghost use Rattle.rc_model.specs.Line.{Line, IsNext};
ghost use Rattle.rc_model.specs.declared.Refusal.{Refusal};
ghost use Rattle.rc_model.specs.Session.{Command, Undo, Redo, Reported, IsTask};
ghost use Rattle.rc_model.specs.Session.{deadline_of, DoesByRun, IsLineOf, Answers, Plays};
ghost use Rattle.rc_session.specs.Alike.{EndsAlike};
ghost use Rattle.rc_session.specs.Existence.{WaysBack, WaysOn, EachIsAnswered};
ghost use Rattle.rc_model.specs.Headline.{TargetOfCommand, RunsAreOrderly, ChangesAreEntered};
ghost use Rattle.rc_model.specs.Headline.{EditsAreEntered, UndosRestore, RedosRestore};
ghost use Rattle.rc_model.specs.Headline.{UndosLeaveWhatRemains, RedosLeaveWhatRemains};
ghost use Rattle.rc_model.specs.Headline.{HistoryIsKept, UndosGoOn, RedosGoOn, Headline};

/// The headline. For every database, every line of it and every list of commands, with whatever
/// events, the following holds. Each change runs in dependency order and keeps what is live
/// strictly closed. Its entry names exactly what it altered. No history is lost, except for the
/// state that a full line drops. Undos that all go well restore, one after the other, each state
/// that the line keeps, live set and bundles; redos do the same forwards. A failed undo leaves
/// exactly the inverse of what remains, and a failed redo leaves what remains. The next one that
/// goes well ends where the failed one was to end.
pub fn headline()
    ensures { Headline }
{}

/// Each run is a settled run of its command's task, strictly closed at each moment. The new state
/// has what is live in the end. If all went well, that is the target of the command.
pub fn told_runs_are_settled()
    ensures { (d : Database) (line : Line) → IsDatabase d → IsLineOf d line →
        RunsAreOrderly d line }
{}

/// The entry of a change names exactly what the change is reported to have altered, and not what
/// was planned.
pub fn change_enters_what_it_altered()
    ensures { (d : Database) (line : Line) → IsLineOf d line → ChangesAreEntered d line }
{}

/// The entry of an edit names exactly the bundles that it altered.
pub fn edit_enters_what_it_altered()
    ensures { (d : Database) (line : Line) → IsLineOf d line → EditsAreEntered d line }
{}

/// Undos that all go well restore, one after the other, the states that the line keeps, and leave
/// the line's states alone.
pub fn undos_restore()
    ensures { (d : Database) (line : Line) → IsDatabase d → IsLineOf d line → UndosRestore d line }
{}

/// Redos that all go well restore, one after the other, the states that the line keeps after the
/// current one, and leave the line's states alone.
pub fn redos_restore()
    ensures { (d : Database) (line : Line) → IsDatabase d → IsLineOf d line → RedosRestore d line }
{}

/// An undo that does not come to the state before leaves, before the cursor, exactly the
/// inverse of what remains to be undone.
pub fn failed_undo_leaves_what_remains()
    ensures { (d : Database) (line : Line) → IsLineOf d line → UndosLeaveWhatRemains d line }
{}

/// Every command keeps history. A change or an edit keeps each state up to the cursor. An undo or a
/// redo, failed or not, keeps each state. If that is one state more than there may be, one is
/// dropped.
pub fn history_is_kept()
    ensures { (d : Database) (line : Line) → IsLineOf d line → HistoryIsKept d line }
{}

/// A redo that does not come to the state after leaves, after the cursor,
/// exactly what remains to be redone.
pub fn failed_redo_leaves_what_remains()
    ensures { (d : Database) (line : Line) → IsLineOf d line → RedosLeaveWhatRemains d line }
{}

/// If an undo or a redo failed, the next one that goes well ends where the failed one was to end.
pub fn next_goes_on()
    ensures undo { (d : Database) (line : Line) → IsDatabase d → IsLineOf d line →
        UndosGoOn d line }
    ensures redo { (d : Database) (line : Line) → IsDatabase d → IsLineOf d line →
        RedosGoOn d line }
{}

/// Each command that names what it defines either cannot be begun, for a fault of its own, or can
/// go well. So there is always an answer.
pub fn each_command_is_answered()
    ensures { (d : Database) (line : Line) → IsDatabase d → IsLineOf d line →
        EachIsAnswered d line }
{}

/// If there is a state before the current one, an undo can go well, and then the line stands on
/// that state. The same holds for a redo and the state after the current one.
pub fn ways_lead_back_and_on()
    ensures back { (d : Database) (line : Line) → IsDatabase d → IsLineOf d line → WaysBack d line }
    ensures on { (d : Database) (line : Line) → IsDatabase d → IsLineOf d line → WaysOn d line }
{}

/// A play is its steps: what holds for one command, from a line of the database, holds for each
/// command of a list.
pub fn plays_go_step_by_step()
    ensures parts { (d : Database) (line new : Line) (commands : List Command)
        (answers : List (Result Reported Refusal)) (k : ℕ) →
        Plays d line commands answers new →
        (here : Line) × Plays d line (take k commands) (take k answers) here
        × Plays d here (drop k commands) (drop k answers) new }
    ensures step { (d : Database) (line new : Line) (commands : List Command)
        (answers : List (Result Reported Refusal)) (k : ℕ) (command : Command)
        (answer : Result Reported Refusal) →
        IsLineOf d line → Plays d line commands answers new → slice_get commands k ≡ Some command →
        slice_get answers k ≡ Some answer →
        (here : Line) × (next : Line) × IsLineOf d here
        × Plays d line (take k commands) (take k answers) here
        × Answers d here command answer next }
{}

/// Each command, done or refused, leads from a line of the database to a line of the database, and
/// so do several commands.
pub fn commands_keep_lines()
    ensures one { (d : Database) (line new : Line) (command : Command)
        (answer : Result Reported Refusal) →
        IsLineOf d line → Answers d line command answer new → IsLineOf d new }
    ensures several { (d : Database) (line new : Line) (commands : List Command)
        (answers : List (Result Reported Refusal)) →
        IsLineOf d line → Plays d line commands answers new → IsLineOf d new }
{}

/// Where the line stands determines what a command comes to: one answer, and one line from then on.
/// So a command that is done has no cause to be refused, and the lines of which the headline speaks
/// are those on which the session stood.
pub fn answers_are_one()
    ensures one { (d : Database) (line a b : Line) (command : Command)
        (x y : Result Reported Refusal) →
        Answers d line command x a → Answers d line command y b → (x ≡ y) × (a ≡ b) }
    ensures several { (d : Database) (line a b : Line) (commands : List Command)
        (xs ys : List (Result Reported Refusal)) →
        Plays d line commands xs a → Plays d line commands ys b → (xs ≡ ys) × (a ≡ b) }
{}

/// The run that a command asks for is a course, so it can be opened. If nothing hinders the run, it
/// ends in its target, which is the target of the command.
pub fn tasks_are_courses()
    ensures course { (d : Database) (line : Line) (command : Command) (start : ℕ) (plan : PlanSets)
        (deadline : Option ℕ) →
        IsDatabase d → IsLineOf d line → IsTask d line command start plan deadline →
        IsCourse (course_of d.needs plan deadline) }
    ensures target { (d : Database) (line : Line) (command : Command) (start : ℕ) (plan : PlanSets)
        (deadline : Option ℕ) →
        IsDatabase d → IsLineOf d line → IsTask d line command start plan deadline →
        (s : ℕ) → TargetOf (course_of d.needs plan deadline) s ↔ TargetOfCommand d line command s }
{}

/// A settled run that begins at a later moment is also one that begins at the moment 0.
pub fn later_runs_are_runs()
    ensures { (needs : List (List ℕ)) (plan : PlanSets) (start limit : ℕ) (events : List Event) →
        IsSettled (course_of needs plan (deadline_of start limit)) events →
        IsSettled (course_of needs plan (deadline_of 0 limit)) events }
{}

/// The undo or redo of an edit takes no events, whatever limit it is given.
pub fn ways_of_edits_take_no_events()
    ensures undo { (d : Database) (line back new : Line) (limit : ℕ) (events : List Event)
        (told : Reported) →
        IsNext back line → IsEditOnly line.current back.current →
        DoesByRun d line (Undo limit events) told new → events ≡ [] }
    ensures redo { (d : Database) (line on new : Line) (limit : ℕ) (events : List Event)
        (told : Reported) →
        IsNext line on → IsEditOnly line.current on.current →
        DoesByRun d line (Redo limit events) told new → events ≡ [] }
{}

/// The end of a run that was not stopped depends on what failed, and on nothing else: not on which
/// worker was quicker, nor on how many worked. This holds for each run that a play reports.
pub fn runs_end_alike()
    ensures { (d : Database) (line new : Line) (command : Command) (told : Reported) →
        IsDatabase d → IsLineOf d line → DoesByRun d line command told new →
        EndsAlike d line command told new }
{}
