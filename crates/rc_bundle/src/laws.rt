//! Laws of the definitions, for the crates above. The functions do nothing when they run.

ghost use Rattle.std.specs.Prelude.{List};
ghost use Rattle.rc_model.specs.Database.{Bundles};
ghost use Rattle.rc_model.specs.Line.{Alteration, IsEdit, edit_back};

/// States that the edit from one table to another, turned round, is the edit back.
pub fn edits_turn_round()
    ensures { (old new : Bundles) (edit : List Alteration) → IsEdit old new edit →
        IsEdit new old (edit_back edit) }
{}
