//! Laws about a crash at any point. Each is the contract of an empty function.
ghost use Rattle.std.specs.Prelude.{◌≡◌, ◌⊎◌, ◌++◌, ◌∷◌, ℕ, List, [], Option};
ghost use Rattle.rc_model.specs.declared.Event.{Event};
ghost use Rattle.rc_model.specs.declared.Event.TheVariants.{Done};
ghost use Rattle.rc_model.specs.declared.Outcome.TheVariants as outcome;
ghost use Rattle.rc_model.specs.Database.{Database};
ghost use Rattle.rc_model.specs.Line.{Line};
ghost use Rattle.rc_model.specs.Plan.{PlanSets};
ghost use Rattle.rc_model.specs.Run.{IsHeldBy, IsRun, course_of};
ghost use Rattle.rc_model.specs.Session.{Command, DoesByRun, IsTask, Reported, events_of};
ghost use Rattle.rc_recovery.specs.Reordered.{AreReordered, without_stops};
ghost use Rattle.rc_recovery.specs.Files.{AfterCrash, Files};
ghost use Rattle.rc_recovery.specs.Logging.{BeginsRun, HoldEvents, Logged, unlogged_writes};
ghost use Rattle.rc_recovery.specs.Recoveries.{EndsIn, EndsInOneLine, IsAtRest, IsCrash};
ghost use Rattle.rc_recovery.specs.Recoveries.{IsLineAfter};
ghost use Rattle.rc_recovery.specs.RunLog.{EndsWhole};
ghost use Rattle.rc_recovery.specs.UnderWay.{IsMore};
ghost use Rattle.rc_script.specs.RunLines.{IsEventLine};

use crate::laws::{
    cut_commands_are_entered, cut_runs_are_settled, logs_may_be_reordered, stops_need_no_line,
    what_is_known_to_be_up_is_live,
};
use rc_livetext::laws::{spelling_is_not_refused, spelling_is_unique};
use rc_script::laws::scripts_give_one_list;
use rc_session::laws::{answers_are_one, commands_keep_lines};

/// After a crash of a command at any point, and of any number of recoveries after it, each at any
/// point, the next recovery that is not cut short leaves the text of one line: the line before, or
/// that in which the command is entered with exactly the events of the log, or the new line. The
/// log is never one that can't be entered.
pub fn crashes_leave_one_line()
    ensures { (d : Database) (line new : Line) (l : Logged) (f g : Files) →
        IsCrash d line new l f g → EndsInOneLine d line new l f g }
{
    spelling_is_unique();
    spelling_is_not_refused();
    scripts_give_one_list();
    answers_are_one();
    commands_keep_lines();
    cut_commands_are_entered();
    cut_runs_are_settled();
}

/// The events that workers log of a run of a command begin a run of it, whatever the order of the
/// log. The events that were made and not logged yet follow the logged ones.
pub fn logged_events_begin_a_run()
    ensures { (d : Database) (line : Line) (command : Command) (start : ℕ) (plan : PlanSets)
        (deadline : Option ℕ) (trace : List Event) (steps : List (List Event))
        (events rest : List Event) → IsTask d line command start plan deadline →
        IsRun (course_of d.needs plan deadline) trace →
        AreReordered steps (without_stops trace) (events ++ rest) →
        BeginsRun d line command events }
{
    logs_may_be_reordered();
    stops_need_no_line();
}

/// Nothing is entered from an empty log, whatever the file holds.
pub fn empty_logs_are_at_rest()
    ensures { (d : Database) (file : List ℕ) → IsAtRest d (record { file = file; log = [] }) }
{
    scripts_give_one_list();
}

/// If the end of a transition that was under way is appended to the log of a command that was cut
/// short, a crash within that leaves what a crash leaves of a command that has logged this end,
/// too. So `crashes_leave_one_line` holds of the files, whichever ends are appended, one after the
/// other.
pub fn found_ends_are_logged_ends()
    ensures { (d : Database) (line new : Line) (l : Logged) (events : List Event) (w s : ℕ)
        (text : List ℕ) (f g : Files) → IsCrash d line new l f g → HoldEvents d line l events g →
        EndsWhole g.log → IsHeldBy events w s →
        IsEventLine d.names (Done w s outcome.Ok) text → (more : Logged)
        × IsMore d line new l (events ++ Done w s outcome.Ok ∷ []) text f g more }
{}

/// If all events of a run were logged, the line in which they are entered is the new line of the
/// command. So a crash between its last event and the new text loses nothing.
pub fn complete_logs_give_the_new_line()
    ensures { (d : Database) (line new end : Line) (command : Command) (report : Reported)
        (first : Event) (more : List Event) → DoesByRun d line command report new →
        without_stops (events_of command) ≡ first ∷ more →
        IsLineAfter d line command (first ∷ more) end → end ≡ new }
{
    what_is_known_to_be_up_is_live();
    stops_need_no_line();
}

/// The premises of `crashes_leave_one_line` can hold together, for a crash after an event was
/// logged.
pub fn crashes_are_possible()
    ensures { (d : Database) × (line : Line) × (new : Line) × (l : Logged) × (f : Files)
        × (g : Files) × (event : Event) × IsCrash d line new l f g
        × HoldEvents d line l (event ∷ []) g }
{
    scripts_give_one_list();
}

/// A command that starts no program logs nothing. After a crash of it at any point, the text in the
/// end is the old one or the new one.
pub fn unlogged_commands_leave_one_text()
    ensures { (d : Database) (old new text : List ℕ) (g : Files) →
        AfterCrash (unlogged_writes new) (record { file = old; log = [] }) g → EndsIn d g text →
        (text ≡ old) ⊎ (text ≡ new) }
{
    scripts_give_one_list();
}
