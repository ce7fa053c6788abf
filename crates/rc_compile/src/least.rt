// The least of names.
ghost use Rattle.std.specs.Prelude.{◌≡◌, ◌<◌, ℕ, List, [], length, Contains, Some, slice_get, IfOk};
ghost use Rattle.std.specs.Prelude.{IfSome, IfNone};
ghost use Rattle.rc_compile.specs.Along.{IsLeast};

use rc_names::Name;
use rc_set::NoMem;
use std::alloc::Global;

// Returns the least of some names, if there are any.
pub(crate) fn least(alloc: Global, names: &[Name]) -> Result<Option<Name>, NoMem>
    ensures some { IfOk result (λ least. IfSome least (IsLeast (Contains names.now))) }
    ensures none { IfOk result (λ least. IfNone least (names.now ≡ [])) }
{
    if names.is_empty() {
        return Ok(None);
    }
    let place = least_place(names);
    Ok(Some(names[place].copy(alloc)?))
}

// Returns the place of the least of some names.
fn least_place(names: &[Name]) -> usize
    requires { 0 < length names.now }
    ensures within { result < length names.now }
    ensures least { (name : List ℕ) → slice_get names.now result ≡ Some name →
        IsLeast (Contains names.now) name }
{
    let mut least = 0;
    for place in 1..names.len() {
        if names[place].text() < names[least].text() {
            least = place;
        }
    }
    least
}
