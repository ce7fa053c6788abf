//! Laws of the text, each the contract of a function that does nothing.
ghost use Rattle.std.specs.Prelude.{◌≡◌, ◌≢◌, ◌++◌, ℕ, List, []};
ghost use Rattle.rc_model.specs.Database.{Database, IsDatabase};
ghost use Rattle.rc_model.specs.Line.{Line};
ghost use Rattle.rc_model.specs.Session.{IsLineOf};
ghost use Rattle.rc_livetext.specs.Text.{IsLiveText};
ghost use Rattle.rc_livetext.specs.Spelling.{spelling, old_spelling, Spells, text_of, old_text_of};
ghost use Rattle.rc_livetext.specs.LiveFaults.{IsLiveFault};
ghost use Rattle.rc_livetext.specs.declared.fault.LiveFault.{LiveFault};
ghost use Rattle.rc_livetext.specs.declared.fault.LiveFault.TheVariants.{Memory};

use crate::form_laws::{refusals_are_one, text_is_not_refused, text_is_unique};

/// Each line of a database can be spelled, in both forms.
pub fn lines_are_texts()
    ensures new { (d : Database) (line : Line) → IsDatabase d → IsLineOf d line
        → IsLiveText (text_of d line) }
    ensures old { (d : Database) (line : Line) → IsDatabase d → IsLineOf d line
        → IsLiveText (old_text_of d line) }
{}

/// No text of a line is a proper prefix of another text, whatever the database. For one database,
/// each text is the text of one line.
pub fn spelling_is_unique()
    ensures front { (d e : Database) (a b : Line) (rest : List ℕ) → IsDatabase d → IsDatabase e
        → IsLineOf d a → IsLineOf e b → spelling d a ++ rest ≡ spelling e b → rest ≡ [] }
    ensures old_front { (d e : Database) (a b : Line) (rest : List ℕ)
        → IsDatabase d → IsDatabase e → IsLineOf d a → IsLineOf e b
        → old_spelling d a ++ rest ≡ old_spelling e b → rest ≡ [] }
    ensures value { (d : Database) (bytes : List ℕ) (a b : Line) → IsDatabase d
        → IsLineOf d a → IsLineOf d b → Spells d bytes a → Spells d bytes b → a ≡ b }
{
    text_is_unique();
}

/// Bytes are refused for one fault only, out of memory aside: the tests exclude each other.
pub fn faults_are_one()
    ensures { (d : Database) (bytes : List ℕ) (a b : LiveFault)
        → IsLiveFault d bytes a → IsLiveFault d bytes b → a ≢ Memory → b ≢ Memory → a ≡ b }
{
    text_is_unique();
    text_is_not_refused();
    refusals_are_one();
}

/// The text of a line, in both forms, is refused only if memory runs out. So what was written is
/// read back as the line that it was.
pub fn spelling_is_not_refused()
    ensures new { (d : Database) (line : Line) (fault : LiveFault) → IsDatabase d
        → IsLineOf d line → IsLiveFault d (spelling d line) fault → fault ≡ Memory }
    ensures old { (d : Database) (line : Line) (fault : LiveFault) → IsDatabase d
        → IsLineOf d line → IsLiveFault d (old_spelling d line) fault → fault ≡ Memory }
{
    text_is_unique();
    text_is_not_refused();
}
