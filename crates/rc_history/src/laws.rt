//! Laws of a history, each the contract of a function that does nothing.
ghost use Rattle.std.specs.Prelude.{◌⊎◌, [], ℕ, Bool, List, Result};
ghost use Rattle.rc_model.specs.Names.{Has};
ghost use Rattle.rc_model.specs.Graph.{IsClosed};
ghost use Rattle.rc_model.specs.declared.Refusal.{Refusal};
ghost use Rattle.rc_model.specs.Database.{Database, IsDatabase};
ghost use Rattle.rc_model.specs.Session.{Command, Reported};
ghost use Rattle.rc_update.specs.Carrying.{Carried, IsUnaltered};
ghost use Rattle.rc_update.specs.Conversions.{Conversion};
ghost use Rattle.rc_history.specs.History.{Generation, History, IsBorder, IsGeneration, IsHistory};
ghost use Rattle.rc_history.specs.Moves.{Enters, IsAcross, MovesInside};
ghost use Rattle.rc_history.specs.Promises.{CutUpdatesAreTakenBack};
ghost use Rattle.rc_history.specs.Promises.{CanStepBack, CanStepOn, DropsEnd, IsEnteredBehind};
ghost use Rattle.rc_history.specs.Promises.{MovesNothing, RedosGoOnInside, RedosLeaveInside};
ghost use Rattle.rc_history.specs.Promises.{StepsBackRestore, StepsOnRestore, UndosGoOnInside};
ghost use Rattle.rc_history.specs.Promises.{FirstHalvesLeaveWhatGoesOn, UndosKeepPlaces};
ghost use Rattle.rc_history.specs.Promises.{UndosLeaveInside, UpdatesAreTakenBack};
ghost use Rattle.rc_history.specs.Stops.{OneUndoTakesBack, Redoes, StandsAfter, StandsBefore};
ghost use Rattle.rc_history.specs.Stops.{Undoes};

/// A database with a line of its states is a history of one generation.
pub fn sessions_are_histories()
    ensures { (g : Generation) → IsGeneration g →
        IsHistory (record { earlier = []; present = g; later = [] }) }
{}

/// Crossing a border, either way, leaves a history.
pub fn crossing_keeps_histories()
    ensures on { (h next : History) → IsAcross h next → IsHistory h → IsHistory next }
    ensures back { (h next : History) → IsAcross h next → IsHistory next → IsHistory h }
{}

/// Each command of the present generation, done or refused, leaves a history.
pub fn commands_keep_histories()
    ensures { (h new : History) (command : Command) (answer : Result Reported Refusal) →
        IsHistory h → MovesInside h command answer new → IsHistory new }
{}

/// Dropping the oldest generation, or the later ones, leaves a history.
pub fn drops_keep_histories()
    ensures { (h new : History) → DropsEnd h new → IsHistory h → IsHistory new }
{}

/// An update that enters its database leaves a history. All places up to the current one stand
/// before the new one, and one step back leads to where the history stood.
pub fn updates_enter_behind()
    ensures { (h new : History) (list : List Conversion) (d : Database) →
        IsHistory h → Enters h list d new → IsEnteredBehind h new }
{}

/// No service moves at a border: the live services on both sides are paired one to one.
pub fn borders_move_nothing()
    ensures { (g next : Generation) → IsDatabase g.base → IsDatabase next.base →
        IsBorder g next → MovesNothing g next }
{}

/// Steps back that all go well, inside generations and across borders, restore each place that
/// the history keeps, in turn: database, live set and bundles.
pub fn steps_back_restore()
    ensures { (h : History) → IsHistory h → StepsBackRestore h }
{}

/// Steps on that all go well, inside generations and across borders, restore each place that the
/// history keeps after the current one, in turn: database, live set and bundles.
pub fn steps_on_restore()
    ensures { (h : History) → IsHistory h → StepsOnRestore h }
{}

/// If there is a place before the current one, a step back can go well. If there is a place after
/// it, a step on can go well.
pub fn steps_are_possible()
    ensures back { (h : History) → IsHistory h → CanStepBack h }
    ensures on { (h : History) → IsHistory h → CanStepOn h }
{}

/// A step that fails leaves exactly what remains, in the present database.
pub fn failed_steps_leave_what_remains()
    ensures undo { (h : History) → IsHistory h → UndosLeaveInside h }
    ensures redo { (h : History) → IsHistory h → RedosLeaveInside h }
{}

/// The next step that goes well ends where the failed one was to end.
pub fn next_step_goes_on()
    ensures undo { (h : History) → IsHistory h → UndosGoOnInside h }
    ensures redo { (h : History) → IsHistory h → RedosGoOnInside h }
{}

/// An undo of a line that is not full loses no place, whether it goes well or not.
pub fn undos_keep_places()
    ensures { (h : History) → IsHistory h → UndosKeepPlaces h }
{}

/// A service goes on unaltered in another database, or it does not: which one can be decided.
pub fn services_go_on_unaltered_or_not()
    ensures { (old new : Database) (list : List Conversion) → IsDatabase old → IsDatabase new
        → (s : ℕ) → IsUnaltered old new list s ⊎ (IsUnaltered old new list s → ⊥) }
{}

/// If the first half of an update goes well, all that is still live goes on unaltered, so the
/// database can be entered.
pub fn first_halves_leave_what_goes_on()
    ensures { (h : History) → IsHistory h → FirstHalvesLeaveWhatGoesOn h }
{}

/// One, two or three steps back that go well take an update back, whatever its second half came
/// to: they restore the database, the live set and the bundles that it found.
pub fn updates_are_taken_back()
    ensures { (h : History) → IsHistory h → UpdatesAreTakenBack h }
{}

/// An undo that goes well goes on from passed places, stands on the nearest stop before, and
/// restores what was there: database, live set and bundles. A redo that goes well does the same
/// forwards.
pub fn undos_stand_on_stops()
    ensures undo { (h new : History) (marks : List Bool) → IsHistory h → Undoes marks h new →
        StandsBefore marks h new }
    ensures redo { (h new : History) (marks : List Bool) → IsHistory h → Redoes marks h new →
        StandsAfter marks h new }
{}

/// One undo that goes well takes an update back, whatever its second half came to.
pub fn one_undo_takes_an_update_back()
    ensures { (h : History) → IsHistory h → OneUndoTakesBack h }
{}

/// At most two steps back that go well take back an update that was cut short.
pub fn cut_updates_are_taken_back()
    ensures { (h : History) → IsHistory h → CutUpdatesAreTakenBack h }
{}
