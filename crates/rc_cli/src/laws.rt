//! Laws of the definitions. The functions do nothing when they run.
ghost use Rattle.std.specs.Prelude.{◌≡◌, ◌≢◌, ◌↔◌, ℕ, List, []};
ghost use Rattle.rc_model.specs.Names.{Has, Holds};
ghost use Rattle.rc_model.specs.Graph.{UpFrom};
ghost use Rattle.rc_model.specs.Database.{Database, IsDatabase};
ghost use Rattle.rc_model.specs.Line.{Line};
ghost use Rattle.rc_model.specs.Plan.{Ask, IsPlanOf, PlanSets};
ghost use Rattle.rc_model.specs.declared.Mode.TheVariants.{DownAll, Up};
ghost use Rattle.rc_model.specs.Headline.{TargetOfCommand};
ghost use Rattle.rc_model.specs.Session.{Change, Does, IsLineOf, Reported, Undo};
ghost use Rattle.rc_model.specs.declared.Event.{Event};
ghost use Rattle.rc_update.specs.Carrying.{Carried, StaysUp};
ghost use Rattle.rc_update.specs.Conversions.{Conversion};
ghost use Rattle.rc_cli.specs.Failures.{AreOwn, End, Failure, failure_for, last_known, remembered};
ghost use Rattle.rc_cli.specs.Steps.{step_ask};
ghost use Rattle.rc_cli.specs.Updating.{IsUpdate, Parts};

/// The first step of an update lowers exactly what is live and does not stay, and moves nothing
/// else. A service is never moved if it is neither altered, gone nor to be restarted, and depends
/// on nothing that is.
pub fn lowering_spares_the_rest()
    ensures lowers { (old new : Database) (list : List Conversion) (line : Line)
        (parts : Parts) (plan : PlanSets) →
        IsDatabase old → IsLineOf old line → IsUpdate old new list line parts →
        IsPlanOf old line.current.table line.current.live (step_ask DownAll parts.lower) plan →
        Holds plan.lower (λ s. Has line.current.live s
        × (StaysUp old new list (Has line.current.live) s → ⊥)) }
    ensures alone { (old new : Database) (list : List Conversion) (line : Line)
        (parts : Parts) (plan : PlanSets) →
        IsDatabase old → IsLineOf old line → IsUpdate old new list line parts →
        IsPlanOf old line.current.table line.current.live (step_ask DownAll parts.lower) plan →
        (s : ℕ) → Has plan.raise s → ⊥ }
{}

/// The second step of an update raises what is live and goes on, with all its dependencies,
/// except what stayed live. It moves nothing else.
pub fn raising_spares_the_rest()
    ensures raises { (old new : Database) (list : List Conversion) (line : Line)
        (parts : Parts) (plan : PlanSets) →
        IsDatabase new → IsUpdate old new list line parts →
        IsPlanOf new new.table parts.kept (step_ask Up parts.raise) plan →
        Holds plan.raise (λ s. UpFrom new.needs
        (Carried old new list (Has line.current.live)) s × (Has parts.kept s → ⊥)) }
    ensures alone { (old new : Database) (list : List Conversion) (line : Line)
        (parts : Parts) (plan : PlanSets) →
        IsDatabase new → IsUpdate old new list line parts →
        IsPlanOf new new.table parts.kept (step_ask Up parts.raise) plan →
        (s : ℕ) → Has plan.lower s → ⊥ }
{}

/// An undo after the first step of a restart, if that has moved something, leads back to what was
/// live before the restart.
pub fn restarts_come_back()
    ensures { (d : Database) (old middle : Line) (ask : Ask) (events : List Event)
        (told : Reported) (limit : ℕ) →
        IsLineOf d old → Does d old (Change ask events) told middle →
        middle.current.live ≢ old.current.live →
        (s : ℕ) → TargetOfCommand d middle (Undo limit []) s ↔ Has old.current.live s }
{}

/// What is remembered of a service after ends is what the last end of it says, or what was
/// remembered before if no end is of it.
pub fn last_ends_are_remembered()
    ensures { (before : List Failure) (ends : List End) (name : List ℕ) → AreOwn ends →
        failure_for (remembered before ends) name
        ≡ last_known name ends (failure_for before name) }
{}
