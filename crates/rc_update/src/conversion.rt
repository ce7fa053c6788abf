//! The name under which a service goes on in another database.
ghost use Rattle.std.specs.Prelude.{◌≡◌, None, Some, MatchOption};
ghost use Rattle.std.specs.Str.{bytes_eq};
ghost use Rattle.rc_update.specs.Conversions.{conversion_for, conversion_of, conversions_of};
ghost use Rattle.rc_update.specs.Conversions.{counterpart, is_restarted, is_taken};

/// The service of the old name goes on as the one of the new name.
#[derive(Clone, Copy, Drop)]
pub struct Conversion<'a> {
    pub old: &'a [u8],
    pub new: &'a [u8],
    /// Whether the service is restarted even if nothing else alters it.
    pub restart: bool,
}

/// Returns the name under which the service of a name goes on, if it does.
pub(crate) fn counterpart<'a>(list: &[Conversion<'a>], name: &'a [u8]) -> Option<&'a [u8]>
    ensures { MatchOption result (counterpart (conversions_of list.now) name.now ≡ None)
        (λ other. counterpart (conversions_of list.now) name.now ≡ Some other.now) }
{
    match conversion_for(list, name) {
        Some(conversion) => Some(conversion.new),
        None => {
            if is_taken(list, name) {
                None
            } else {
                Some(name)
            }
        }
    }
}

/// Returns true if the service of a name is to be restarted.
pub(crate) fn is_restarted(list: &[Conversion<'_>], name: &[u8]) -> bool
    ensures { result ≡ is_restarted (conversions_of list.now) name.now }
{
    match conversion_for(list, name) {
        Some(conversion) => conversion.restart,
        None => false,
    }
}

/// Returns the first conversion with the given old name.
pub(crate) fn conversion_for<'a>(list: &[Conversion<'a>], name: &[u8]) -> Option<Conversion<'a>>
    ensures { MatchOption result (conversion_for (conversions_of list.now) name.now ≡ None)
        (λ found. conversion_for (conversions_of list.now) name.now
        ≡ Some (conversion_of found)) }
{
    for one in list {
        if is_same(one.old, name) {
            return Some(*one);
        }
    }
    None
}

// Returns true if two names are the same.
fn is_same(name: &[u8], other: &[u8]) -> bool
    ensures { result ≡ bytes_eq name.now other.now }
{
    name == other
}

/// Returns true if a conversion has the given new name.
pub(crate) fn is_taken(list: &[Conversion<'_>], name: &[u8]) -> bool
    ensures { result ≡ is_taken (conversions_of list.now) name.now }
{
    for one in list {
        if is_same(one.new, name) {
            return true;
        }
    }
    false
}
