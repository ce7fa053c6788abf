//! Laws of the text, each the contract of a function that does nothing.
ghost use Rattle.std.specs.Prelude.{◌≡◌, ◌≢◌, ◌++◌, ℕ, List, []};
ghost use Rattle.rc_dbtext.specs.Text.{DbText, IsDbText, db_lines, db_text};
ghost use Rattle.rc_dbtext.specs.Reading.{IsRefused};
ghost use Rattle.rc_dbtext.specs.declared.syntax.fault.FormFault.{FormFault};
ghost use Rattle.rc_dbtext.specs.declared.syntax.fault.FormFault.TheVariants.{Memory};

/// No text is a proper prefix of another, and each is the text of one value.
pub fn text_is_unique()
    ensures front { (a b : DbText) (rest : List ℕ) → IsDbText a → IsDbText b →
        db_text a ++ rest ≡ db_text b → rest ≡ [] }
    ensures value { (a b : DbText) (x y : List ℕ) → IsDbText a → IsDbText b →
        db_text a ++ x ≡ db_text b ++ y → a ≡ b }
{}

/// States that no line of a text refuses bytes that begin with that text, whatever follows.
pub fn text_is_not_refused()
    ensures { (t : DbText) (rest : List ℕ) (fault : FormFault) → IsDbText t →
        IsRefused IsDbText db_lines (db_text t ++ rest) fault → fault ≡ Memory }
{}

/// States that bytes are refused for one reason only, apart from lack of memory: a line that is bad
/// at one place, or another version, or a count above 4,096.
pub fn refusals_are_one()
    ensures { (bytes : List ℕ) (a b : FormFault) → IsRefused IsDbText db_lines bytes a →
        IsRefused IsDbText db_lines bytes b → a ≢ Memory → b ≢ Memory → a ≡ b }
{}
