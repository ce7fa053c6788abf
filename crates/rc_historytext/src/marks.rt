//! The marks that the ends of the present generation have after a command, and which of its ends
//! are still there.
ghost use Rattle.std.specs.Prelude.{◌≡◌, ◌↔◌, ◌⊎◌, IfErr, IfOk, IsTrue};
ghost use Rattle.rc_historytext.specs.Marking.{AreMarks, HasMarks, KeepsFirst, KeepsLast};
ghost use Rattle.rc_historytext.specs.Marking.{comes_back, first_mark, is_first, is_last};
ghost use Rattle.rc_historytext.specs.Marking.{last_mark};
ghost use Rattle.rc_historytext.specs.CallFaults.{IsSessionFault};

use crate::fault::HistoryFault;
use crate::forms::GenerationForm;
use crate::keeping::Keeping;
use crate::states::{are_same, newest_of, oldest_of, session_form};
use rc_livetext::LiveForm;
use std::alloc::Global;

/// The marks of the first state and of the last one, and whether these are still there.
#[derive(Clone, Copy)]
pub(crate) struct Marks {
    pub first_passed: bool,
    pub last_passed: bool,
    pub keeps_first: bool,
    pub keeps_last: bool,
}

/// Returns the marks of a generation after a session is put into it.
pub(crate) fn marks_of(
    alloc: Global,
    generation: &GenerationForm<'_>,
    session: &[u8],
    keeping: Keeping,
) -> Result<Marks, HistoryFault>
    ensures ok { IfOk result (HasMarks keeping generation.now session.now) }
    ensures fault { IfErr result (λ fault. IsSessionFault generation.now.session fault
        ⊎ IsSessionFault session.now fault) }
{
    let old = session_form(alloc, generation.session)?;
    let new = match session_form(alloc, session) {
        Ok(new) => new,
        Err(fault) => {
            drop(old);
            return Err(fault);
        }
    };
    let marks = marks_between(generation, &old, &new, keeping);
    drop((old, new));
    Ok(marks)
}

// Returns the marks of a generation after a command has led from its old session to a new one.
fn marks_between(
    generation: &GenerationForm<'_>,
    old: &LiveForm<'_>,
    new: &LiveForm<'_>,
    keeping: Keeping,
) -> Marks
    ensures { AreMarks keeping generation.now old.now new.now result }
{
    let keeps_first = keeps_first(keeping, old, new);
    let keeps_last = keeps_last(keeping, old, new);
    let is_back = keeps_first && new.before.len() < old.before.len();
    let first = keeps_first && first_mark(keeping, generation.first_passed, old);
    let last = last_mark(keeping, is_back, keeps_last && generation.last_passed);
    let is_alone = is_first(new) && is_last(new);
    let only = if comes_back(keeping, is_back) {
        first
    } else {
        last
    };
    Marks {
        first_passed: if is_alone { only } else { first },
        last_passed: if is_alone { only } else { last },
        keeps_first,
        keeps_last,
    }
}

// Returns true if a command keeps the oldest state.
fn keeps_first(keeping: Keeping, old: &LiveForm<'_>, new: &LiveForm<'_>) -> bool
    ensures { IsTrue result ↔ KeepsFirst keeping old.now new.now }
{
    match keeping {
        Keeping::Seal => false,
        _ => are_same(oldest_of(new), oldest_of(old)),
    }
}

// Returns true if a command keeps the newest state.
fn keeps_last(keeping: Keeping, old: &LiveForm<'_>, new: &LiveForm<'_>) -> bool
    ensures { IsTrue result ↔ KeepsLast keeping old.now new.now }
{
    match keeping {
        Keeping::Way => are_same(newest_of(new), newest_of(old)),
        _ => false,
    }
}

// Returns the mark of the first state after a command.
fn first_mark(keeping: Keeping, mark: bool, old: &LiveForm<'_>) -> bool
    ensures { result ≡ first_mark keeping mark old.now }
{
    match keeping {
        Keeping::Command => mark && !is_first(old),
        _ => mark,
    }
}

// Returns the mark of the last state after a command.
fn last_mark(keeping: Keeping, is_back: bool, mark: bool) -> bool
    ensures { result ≡ last_mark keeping is_back mark }
{
    match keeping {
        Keeping::Way => mark,
        Keeping::Step => !is_back,
        _ => false,
    }
}

// Returns true if the only state left has the mark of the first state.
fn comes_back(keeping: Keeping, is_back: bool) -> bool
    ensures { result ≡ comes_back keeping is_back }
{
    match keeping {
        Keeping::Way => true,
        _ => is_back,
    }
}

/// Returns true if no state comes before the current one.
pub(crate) fn is_first(form: &LiveForm<'_>) -> bool
    ensures { result ≡ is_first form.now }
{
    form.before.is_empty()
}

/// Returns true if no state comes after the current one.
pub(crate) fn is_last(form: &LiveForm<'_>) -> bool
    ensures { result ≡ is_last form.now }
{
    form.after.is_empty()
}
