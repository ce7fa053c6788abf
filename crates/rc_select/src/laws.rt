//! Laws of the definitions, for the crates above. The functions do nothing when they run.

ghost use Rattle.std.specs.Prelude.{List, Bool};
ghost use Rattle.rc_model.specs.Names.{Has};
ghost use Rattle.rc_model.specs.Graph.{IsClosed};
ghost use Rattle.rc_model.specs.Database.{Bundles, Database};
ghost use Rattle.rc_model.specs.Plan.{Ask, IsEssentialUp, IsWanted, Target};

/// States that the target of a closed set is closed, whatever the request is.
pub fn target_is_closed()
    ensures { (d : Database) (table : Bundles) (up : List Bool) (ask : Ask) →
        IsClosed d.needs (Has up) →
        IsClosed d.needs (Target d.needs (Has up) (IsEssentialUp d (Has up)) ask.mode ask.prune
        (IsWanted d.names table (Has up) ask)) }
{}
