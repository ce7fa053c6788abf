//! Laws about a run that was cut short. Each is the contract of an empty function.
ghost use Rattle.std.specs.Prelude.{◌≡◌, ◌≢◌, ◌≤◌, ◌↔◌, ◌++◌, ◌∷◌, [], ℕ, List, Bool, Some, All};
ghost use Rattle.rc_model.specs.declared.Event.{Event};
ghost use Rattle.rc_model.specs.declared.Event.TheVariants.{Done};
ghost use Rattle.rc_model.specs.declared.Outcome.TheVariants as outcome;
ghost use Rattle.rc_model.specs.declared.Refusal.{Refusal};
ghost use Rattle.rc_model.specs.Database.{Database};
ghost use Rattle.rc_model.specs.Headline.{HasRun};
ghost use Rattle.rc_model.specs.Line.{Line};
ghost use Rattle.rc_model.specs.Names.{Has};
ghost use Rattle.rc_model.specs.Run.{Course, IsHeldBy, IsLive, IsRun, IsSettled, IsStopped};
ghost use Rattle.rc_model.specs.Run.{NoneHeld};
ghost use Rattle.rc_model.specs.Session.{Command, IsRunFault};
ghost use Rattle.rc_recovery.specs.Ends.{IsEndOf, last_stop, with_ends};
ghost use Rattle.rc_recovery.specs.Recovering.{IsCutShort, called_off};
ghost use Rattle.rc_recovery.specs.Reordered.{AreReordered, without_stops};
ghost use Rattle.rc_recovery.specs.UnderWay.{IsWayOf, unended};

/// The ends of what was under way and a stop settle a run that was cut short, if it has a deadline
/// and was not stopped.
pub fn cut_runs_are_settled()
    ensures stopped { (c : Course) (logged : List Event) (d : ℕ) → IsRun c logged →
        (IsStopped logged → ⊥) → c.deadline ≡ Some d → d ≤ 18446744073709551615 →
        IsSettled c (with_ends logged ++ last_stop ∷ []) }
    ensures run { (c : Course) (logged : List Event) → IsRun c logged →
        IsRun c (with_ends logged) × NoneHeld (with_ends logged) }
{}

/// All that was logged is kept, in its order, and nothing is added but the ends of what was under
/// way.
pub fn what_was_logged_is_kept()
    ensures { (logged : List Event) → (rest : List Event) × (with_ends logged ≡ logged ++ rest)
        × All (IsEndOf logged) rest }
{}

/// After a recovery a service is live if it was up or on its way down when the run was cut short:
/// it was seen to come up, and was not seen to go down.
pub fn what_is_known_to_be_up_is_live()
    ensures ends { (c : Course) (logged : List Event) (s : ℕ) →
        IsLive c (with_ends logged) s ↔ IsLive c logged s }
    ensures stop { (c : Course) (logged : List Event) (s : ℕ) →
        IsLive c (with_ends logged ++ last_stop ∷ []) s ↔ IsLive c logged s }
{}

/// A session never refuses the logged events of a run. With the ends of what was under way and a
/// stop they are a settled run of their command.
pub fn cut_commands_are_entered()
    ensures { (d : Database) (line : Line) (command : Command) (refusal : Refusal) →
        HasRun command → IsCutShort d line command →
        IsRunFault d line (called_off command) refusal → ⊥ }
{}

/// Several workers log their events, each its own in their order: a take after it was made, and an
/// end before it counts. Whatever the order of the log is then, its events are a run, and leave the
/// same services live.
pub fn logs_may_be_reordered()
    ensures run { (c : Course) (steps : List (List Event)) (old new : List Event) →
        AreReordered steps old new → IsRun c old → IsRun c new }
    ensures live { (c : Course) (steps : List (List Event)) (old new : List Event) →
        AreReordered steps old new → IsRun c old → (s : ℕ) → IsLive c new s ↔ IsLive c old s }
{}

/// The events of a run without its stop are a run that was not stopped, and leave the same
/// services live. So a stop needs no line in a log.
pub fn stops_need_no_line()
    ensures run { (c : Course) (events : List Event) → IsRun c events →
        IsRun c (without_stops events) × (IsStopped (without_stops events) → ⊥) }
    ensures live { (c : Course) (events : List Event) (s : ℕ) →
        IsLive c (without_stops events) s ↔ IsLive c events s }
{}

/// Of each transition that events begin and do not end, its worker holds its service.
pub fn what_is_unended_is_held()
    ensures { (live : List Bool) (logged : List Event) →
        All (IsWayOf live logged) (unended live logged) }
{}

/// The end of a transition that was under way turns its service, and no other: the service is live
/// after it exactly if it was not up before the run.
pub fn found_ends_turn_their_service()
    ensures turned { (c : Course) (events : List Event) (w s : ℕ) → IsRun c events →
        IsHeldBy events w s →
        IsLive c (events ++ Done w s outcome.Ok ∷ []) s ↔ (Has c.up s → ⊥) }
    ensures others { (c : Course) (events : List Event) (w s t : ℕ) → s ≢ t →
        IsLive c (events ++ Done w s outcome.Ok ∷ []) t ↔ IsLive c events t }
{}
