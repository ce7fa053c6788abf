//! Laws of the definitions, for the crates above. The functions do nothing when they run.

ghost use Rattle.std.specs.Prelude.{◌≡◌, ℕ, List};
ghost use Rattle.rc_model.specs.Database.{Bundles, IsTable, value_of};

/// States that a table is determined by what it has under each name.
pub fn tables_are_their_values()
    ensures { (a b : Bundles) → IsTable a → IsTable b →
        ((name : List ℕ) → value_of a name ≡ value_of b name) → a ≡ b }
{}
