//! Laws of the text, each the contract of a function that does nothing.
ghost use Rattle.std.specs.Prelude.{◌≡◌, ◌≢◌, ◌++◌, ℕ, List, []};
ghost use Rattle.rc_model.specs.Database.{Database, IsDatabase};
ghost use Rattle.rc_db.specs.Database.{IsWritable};
ghost use Rattle.rc_dbtext.specs.Spelling.{spelling};
ghost use Rattle.rc_dbtext.specs.TextFaults.{IsFrontFault, IsWholeFault};
ghost use Rattle.rc_dbtext.specs.declared.fault.TextFault.{TextFault};
ghost use Rattle.rc_dbtext.specs.declared.fault.TextFault.TheVariants.{Memory};

use crate::syntax::laws::{refusals_are_one, text_is_not_refused, text_is_unique};

/// No text of a database is a proper prefix of another, and each is the text of one database.
pub fn spelling_is_unique()
    ensures front { (a b : Database) (rest : List ℕ) → IsDatabase a → IsWritable a →
        IsDatabase b → IsWritable b → spelling a ++ rest ≡ spelling b → rest ≡ [] }
    ensures value { (a b : Database) (x y : List ℕ) → IsDatabase a → IsWritable a →
        IsDatabase b → IsWritable b → spelling a ++ x ≡ spelling b ++ y → a ≡ b }
{
    text_is_unique();
}

/// States that the text of a database is refused only for lack of memory. At the beginning of
/// bytes, this holds whatever follows.
pub fn spelling_is_not_refused()
    ensures front { (d : Database) (rest : List ℕ) (fault : TextFault) → IsDatabase d →
        IsWritable d → IsFrontFault (spelling d ++ rest) fault → fault ≡ Memory }
    ensures whole { (d : Database) (fault : TextFault) → IsDatabase d → IsWritable d →
        IsWholeFault (spelling d) fault → fault ≡ Memory }
{
    text_is_unique();
    text_is_not_refused();
}

/// States that bytes are refused for one reason only, apart from lack of memory: the tests exclude
/// each other.
pub fn faults_are_one()
    ensures front { (bytes : List ℕ) (a b : TextFault) → IsFrontFault bytes a →
        IsFrontFault bytes b → a ≢ Memory → b ≢ Memory → a ≡ b }
    ensures whole { (bytes : List ℕ) (a b : TextFault) → IsWholeFault bytes a →
        IsWholeFault bytes b → a ≢ Memory → b ≢ Memory → a ≡ b }
{
    text_is_unique();
    text_is_not_refused();
    refusals_are_one();
}
