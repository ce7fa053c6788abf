//! Databases, lines and reports side by side. No comparison takes memory.

ghost use Rattle.std.specs.Prelude.{◌≡◌, false};

use rc_bundle::Edit;
use rc_core::Event;
use rc_db::Db;
use rc_line::Line;
use rc_session::{Report, Step};
use rc_set::Set;

/// Returns true if two databases have the same names, services, needs and bundles.
pub fn is_same(one: &Db, other: &Db) -> bool {
    let (names, others) = (one.names(), other.names());
    if names.len() != others.len() {
        return false;
    }
    for id in 0..names.len() {
        if names.name_of(id).text() != others.name_of(id).text()
            || one.graph().needs(id) != other.graph().needs(id)
            || !one.service(id).same(other.service(id))
        {
            return false;
        }
    }
    one.table().same(other.table())
}

/// Returns true if two lines have the same states and bound, and stand on the same state: their
/// current states are the same, and so are all entries.
pub fn is_same_line(one: &Line, other: &Line) -> bool
    requires one { one.now.is_open ≡ false }
    requires other { other.now.is_open ≡ false }
{
    if one.states() != other.states()
        || one.cursor() != other.cursor()
        || one.bound() != other.bound()
        || !is_same_set(Some(one.live()), Some(other.live()))
        || !one.table().same(other.table())
    {
        return false;
    }
    for place in 0..one.states() {
        if !is_same_entry(one, other, place) {
            return false;
        }
    }
    true
}

/// Returns true if two lines have the same entry at a place, or both have none.
fn is_same_entry(one: &Line, other: &Line, place: usize) -> bool
    requires one { one.now.is_open ≡ false }
    requires other { other.now.is_open ≡ false }
{
    if one.states() < 2 || place > one.states() - 2 {
        return one.states() == other.states();
    }
    if other.states() < 2 || place > other.states() - 2 {
        return false;
    }
    let (entry, found) = (one.entry(place), other.entry(place));
    entry.raised() == found.raised()
        && entry.lowered() == found.lowered()
        && is_same_edit(entry.edit(), found.edit())
}

fn is_same_edit(one: &Edit, other: &Edit) -> bool {
    for place in 0..one.len() {
        if place >= other.len() {
            return false;
        }
        let (name, before, after) = one.at(place);
        let (found, was, is) = other.at(place);
        if name.text() != found.text() || !is_same_set(before, was) || !is_same_set(after, is) {
            return false;
        }
    }
    one.len() == other.len()
}

fn is_same_set(one: Option<&Set>, other: Option<&Set>) -> bool {
    match (one, other) {
        (Some(one), Some(other)) => one.bound() == other.bound() && one.same(other),
        (None, None) => true,
        _ => false,
    }
}

/// Returns true if a set has the given ids and no others.
pub fn holds(set: &Set, ids: &[u16]) -> bool {
    for id in ids {
        if *id >= set.bound() || !set.contains(*id) {
            return false;
        }
    }
    usize::from(set.len()) == ids.len()
}

/// All services of the sample.
pub const ALL: [u16; 5] = [0, 1, 2, 3, 4];

/// Returns true if a report is that of a step that moves all services of the sample, or of an edit
/// where all are up.
pub fn is_due(step: &Step, report: &Report) -> bool {
    let none: &[u16] = &[];
    match step {
        Step::Change(_, events) | Step::Redo(_, events) if !events.is_empty() => {
            is_report(report, none, none, &ALL, events)
        }
        Step::Undo(_, events) if !events.is_empty() => is_report(report, &ALL, &ALL, none, events),
        _ => is_report(report, &ALL, none, none, &[]),
    }
}

/// Returns true if `opening` was live in the beginning, `lowered` and `raised` were moved by the
/// events of `trace`, and nothing else happened.
pub fn is_report(
    report: &Report,
    opening: &[u16],
    lowered: &[u16],
    raised: &[u16],
    trace: &[Event],
) -> bool {
    holds(&report.opening, opening)
        && report.lowered.as_slice() == lowered
        && report.raised.as_slice() == raised
        && report.failed.is_empty()
        && report.blocked.is_empty()
        && report.untried.is_empty()
        && report.kept.is_empty()
        && !report.stopped
        && report.trace.as_slice() == trace
}
