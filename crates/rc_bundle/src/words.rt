ghost use Rattle.std.specs.Prelude.{map, All, Contains, IfSome, IfNone, string_bytes};
ghost use Rattle.rc_model.specs.Database.{IsFirst, IsBundle};

use rc_db::{Db, Table, has_bundle, has_name};

/// Returns the place of the first word that is the name of a service, if there is one.
pub(crate) fn first_service(db: &Db, words: &[String]) -> Option<usize>
    ensures some { IfSome result (IsFirst (Contains db.now.names) (map string_bytes words.now)) }
    ensures none { IfNone result (All (λ word. Contains db.now.names word → ⊥)
        (map string_bytes words.now)) }
{
    for (place, word) in words.iter().enumerate() {
        if has_name(db.names(), word.as_str()) {
            return Some(place);
        }
    }
    None
}

/// Returns the place of the first word that is no bundle's name, if there is one.
pub(crate) fn first_missing(table: &Table, words: &[String]) -> Option<usize>
    ensures some { IfSome result (IsFirst (λ word. IsBundle table.now word → ⊥)
        (map string_bytes words.now)) }
    ensures none { IfNone result (All (IsBundle table.now) (map string_bytes words.now)) }
{
    for (place, word) in words.iter().enumerate() {
        if !has_bundle(table, word.as_str()) {
            return Some(place);
        }
    }
    None
}
