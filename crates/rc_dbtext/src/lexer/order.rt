//! Whether names stand in byte order.
ghost use Rattle.std.specs.Prelude.{◌↔◌, IsTrue};
ghost use Rattle.rc_model.specs.Names.{IsBefore, IsInByteOrder};

use crate::lexer::name_word::NameWord;
use std::cmp::Ordering;

/// Returns true if names ascend, each before the next one.
pub fn ascend(names: &[NameWord<'_>]) -> bool
    ensures { IsTrue result ↔ IsInByteOrder names.now }
{
    names.is_sorted_by(is_before)
}

/// Returns true if a name comes before another.
pub fn is_before(first: &NameWord<'_>, second: &NameWord<'_>) -> bool
    ensures { IsTrue result ↔ IsBefore first.now second.now }
{
    first.text().cmp(second.text()) == Ordering::Less
}
