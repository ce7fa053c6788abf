//! Whether conversions name services of both databases.
ghost use Rattle.std.specs.Prelude.{MatchOption};
ghost use Rattle.rc_update.specs.Conversions.{conversion_of, conversions_of};
ghost use Rattle.rc_update.specs.Knowing.{AreKnown, IsFirstStranger, IsKnownIn, IsStranger};

use crate::conversion::Conversion;
use rc_names::Names;

/// Returns the first name of a conversion that its database lacks. Checks the old name before the
/// new one.
pub fn first_unknown<'a>(list: &[Conversion<'a>], old: &Names, new: &Names) -> Option<&'a [u8]>
    ensures { MatchOption result (AreKnown old.now new.now (conversions_of list.now))
        (λ name. IsFirstStranger old.now new.now (conversions_of list.now) name.now) }
{
    for one in list {
        if let Some(name) = unknown_in(*one, old, new) {
            return Some(name);
        }
    }
    None
}

// Returns the name of a conversion that its database lacks.
fn unknown_in<'a>(one: Conversion<'a>, old: &Names, new: &Names) -> Option<&'a [u8]>
    ensures { MatchOption result (IsKnownIn old.now new.now (conversion_of one.entry))
        (λ name. IsStranger old.now new.now (conversion_of one.entry) name.now) }
{
    if old.find_bytes(one.old).is_none() {
        return Some(one.old);
    }
    if new.find_bytes(one.new).is_none() {
        return Some(one.new);
    }
    None
}
