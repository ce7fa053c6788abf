//! Whether two conversions share an old name, or a new one.
ghost use Rattle.std.specs.Prelude.{◌≡◌, MatchOption};
ghost use Rattle.rc_update.specs.Conversions.{conversion_of, conversions_of};
ghost use Rattle.rc_update.specs.Distinct.{AreDistinct, IsFirstTwice, IsNovel, IsTwiceIn};
ghost use Rattle.rc_update.specs.Distinct.{is_converted};

use crate::conversion::{Conversion, conversion_for, is_taken};

/// Returns the first name that a conversion shares with an earlier one. Checks the old name before
/// the new one.
pub fn first_twice<'a>(list: &[Conversion<'a>]) -> Option<&'a [u8]>
    ensures { MatchOption result (AreDistinct (conversions_of list.now))
        (λ name. IsFirstTwice (conversions_of list.now) name.now) }
{
    for place in 0..list.len() {
        if let Some(name) = twice_in(&list[..place], list[place]) {
            return Some(name);
        }
    }
    None
}

// Returns the name that a conversion shares with one of those before it.
fn twice_in<'a>(before: &[Conversion<'a>], one: Conversion<'a>) -> Option<&'a [u8]>
    ensures { MatchOption result (IsNovel (conversions_of before.now) (conversion_of one.entry))
        (λ name. IsTwiceIn (conversions_of before.now) (conversion_of one.entry) name.now) }
{
    if is_converted(before, one.old) {
        return Some(one.old);
    }
    if is_taken(before, one.new) {
        return Some(one.new);
    }
    None
}

// Returns true if a conversion has the given old name.
fn is_converted(list: &[Conversion<'_>], name: &[u8]) -> bool
    ensures { result ≡ is_converted (conversions_of list.now) name.now }
{
    conversion_for(list, name).is_some()
}
