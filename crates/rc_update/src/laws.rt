//! Laws of the definitions. The functions do nothing when they run.
ghost use Rattle.std.specs.Prelude.{◌≡◌, ℕ, List};
ghost use Rattle.rc_model.specs.Database.{Database, IsDatabase};
ghost use Rattle.rc_update.specs.Carrying.{IsTwin};
ghost use Rattle.rc_update.specs.Conversions.{Conversion};
ghost use Rattle.rc_update.specs.Distinct.{AreDistinct};

/// If no two conversions share a name, two services never go on as one.
pub fn none_go_on_as_one()
    ensures { (old new : Database) (list : List Conversion) (s t u : ℕ) →
        IsDatabase old → AreDistinct list →
        IsTwin old new list s u → IsTwin old new list t u → s ≡ t }
{}
