//! The states of a generation, by names, as the text of its session gives them.
//!
//! Time and memory grow with the text.
ghost use Rattle.std.specs.Prelude.{◌≡◌, ◌↔◌, IfErr, IfOk, IsTrue};
ghost use Rattle.rc_historytext.specs.States.{IsSession, StandsBetween, newest_state, oldest_state};
ghost use Rattle.rc_historytext.specs.CallFaults.{IsSessionFault};

use crate::fault::HistoryFault;
use rc_dbtext::lexer::{BundleForm, NameWord};
use rc_livetext::form_laws::{text_is_not_refused, text_is_unique};
use rc_livetext::{FormFault, LiveForm, StateForm, read_form};
use std::alloc::Global;

/// Returns the numbers of states before and after the current one of a session.
pub fn states_around(alloc: Global, session: &[u8]) -> Result<(usize, usize), HistoryFault>
    ensures ok { IfOk result (λ around. StandsBetween session.now around.0 around.1) }
    ensures fault { IfErr result (IsSessionFault session.now) }
{
    let form = session_form(alloc, session)?;
    let around = (form.before.len(), form.after.len());
    drop(form);
    Ok(around)
}

/// Parses the text of a session.
pub(crate) fn session_form<'a>(
    alloc: Global,
    session: &'a [u8],
) -> Result<LiveForm<'a>, HistoryFault>
    ensures ok { IfOk result (IsSession session.now) }
    ensures fault { IfErr result (IsSessionFault session.now) }
{
    text_is_unique();
    text_is_not_refused();
    match read_form(alloc, session) {
        Ok((form, rest)) => {
            if rest.is_empty() {
                return Ok(form);
            }
            drop(form);
            Err(HistoryFault::Bad(0))
        }
        Err(FormFault::Bad(_)) => Err(HistoryFault::Bad(0)),
        Err(FormFault::Version) => Err(HistoryFault::Bad(0)),
        Err(FormFault::Memory) => Err(HistoryFault::Memory),
    }
}

/// Returns the oldest state of a session.
pub(crate) fn oldest_of<'s, 'a>(form: &'s LiveForm<'a>) -> &'s StateForm<'a>
    ensures { result.now ≡ oldest_state form.now }
{
    if let Some(first) = form.before.first() {
        return first;
    }
    &form.current
}

/// Returns the newest state of a session.
pub(crate) fn newest_of<'s, 'a>(form: &'s LiveForm<'a>) -> &'s StateForm<'a>
    ensures { result.now ≡ newest_state form.now }
{
    let count = form.after.len();
    if count > 0 {
        return &form.after[count - 1];
    }
    &form.current
}

/// Returns true if two states have the same services up, and the same bundles.
pub(crate) fn are_same(one: &StateForm<'_>, other: &StateForm<'_>) -> bool
    ensures { IsTrue result ↔ (one.now ≡ other.now) }
{
    are_same_names(&one.live, &other.live) && are_same_bundles(&one.bundles, &other.bundles)
}

// Returns true if two lists have the same bundles.
fn are_same_bundles(one: &[BundleForm<'_>], other: &[BundleForm<'_>]) -> bool
    ensures { IsTrue result ↔ (one.now ≡ other.now) }
{
    if one.len() != other.len() {
        return false;
    }
    for at in 0..one.len() {
        if !is_same_bundle(&one[at], &other[at]) {
            return false;
        }
    }
    true
}

// Returns true if two bundles have the same name and the same members.
fn is_same_bundle(one: &BundleForm<'_>, other: &BundleForm<'_>) -> bool
    ensures { IsTrue result ↔ (one.now ≡ other.now) }
{
    is_same_name(&one.name, &other.name) && are_same_names(&one.members, &other.members)
}

// Returns true if two lists have the same names.
fn are_same_names(one: &[NameWord<'_>], other: &[NameWord<'_>]) -> bool
    ensures { IsTrue result ↔ (one.now ≡ other.now) }
{
    if one.len() != other.len() {
        return false;
    }
    for at in 0..one.len() {
        if !is_same_name(&one[at], &other[at]) {
            return false;
        }
    }
    true
}

// Returns true if two names are the same.
fn is_same_name(one: &NameWord<'_>, other: &NameWord<'_>) -> bool
    ensures { IsTrue result ↔ (one.now ≡ other.now) }
{
    one.text() == other.text()
}
