//! The text of a history after a command. The new session replaces that of the present generation,
//! the generation gets the marks that its states have then, and generations beyond a dropped state
//! are dropped.
//!
//! Time and memory grow with all bytes.
ghost use Rattle.std.specs.Prelude.{◌≡◌, ◌↔◌, ◌⊎◌, slice_get, Some, IfErr, IfOk, IsTrue, OnOk};
ghost use Rattle.rc_historytext.specs.Text.{GenerationText, IsHistoryText, IsShort, history_text};
ghost use Rattle.rc_historytext.specs.Keeping.{IsKept, IsKeptStep, IsPut, IsPutOnce};
ghost use Rattle.rc_historytext.specs.Keeping.{PutsInto, StandsThere};
ghost use Rattle.rc_historytext.specs.Keeping.{cut_earlier, cut_later, left_by};
ghost use Rattle.rc_historytext.specs.Faults.{IsHistoryFault};
ghost use Rattle.rc_historytext.specs.CallFaults.{IsKeepFault, IsOnceFault, IsOutOfMemory};
ghost use Rattle.rc_historytext.specs.CallFaults.{IsPutFault, IsSessionFault, IsText};

use crate::fault::HistoryFault;
use crate::forms::HistoryForm;
use crate::marks::{Marks, marks_of};
use crate::read::read_history;
use crate::session_text::cut_session;
use crate::standing::present_of;
use crate::write::write_history;
use std::alloc::Global;

/// What a command does to the states of a session.
#[derive(Clone, Copy, PartialEq, Eq, Debug)]
pub enum Keeping {
    /// A change or an edit: it cuts off what comes after the current state.
    Command,
    /// An undo or a redo.
    Way,
    /// A step of a command that has several. Its state is passed until the command is done, and the
    /// states after it are cut off.
    Step,
    /// A seal: only the current state stays.
    Seal,
}

/// Returns the text of a history after a command has left the given session in its present
/// generation. A step that has moved nothing yet cuts nothing off.
pub fn keep_session(
    alloc: Global,
    history: &[u8],
    session: &[u8],
    keeping: Keeping,
) -> Result<Vec<u8>, HistoryFault>
    ensures ok { IfOk result (λ text. IsKept keeping history.now session.now text.items) }
    ensures fault { IfErr result (IsKeepFault keeping history.now session.now) }
{
    match keeping {
        Keeping::Command => put_once(alloc, history, session, Keeping::Command),
        Keeping::Way => put_once(alloc, history, session, Keeping::Way),
        Keeping::Step => keep_step(alloc, history, session),
        Keeping::Seal => put_session(alloc, history, session, Keeping::Seal),
    }
}

// Returns the text of a history after a step has left the given session in its present generation.
// A step cuts off the states after the current one, unless it has moved nothing yet.
fn keep_step(alloc: Global, history: &[u8], session: &[u8]) -> Result<Vec<u8>, HistoryFault>
    ensures ok { IfOk result (λ text. IsKeptStep history.now session.now text.items) }
    ensures fault { IfErr result (IsOnceFault history.now session.now) }
{
    if stands_there(alloc, history, session)? {
        return copy(alloc, history);
    }
    let cut = cut_session(alloc, session)?;
    let text = put_once(alloc, history, &cut, Keeping::Step);
    drop(cut);
    text
}

// Returns the text of a history with the given session put into its present generation. If the
// session is there already, returns a copy of the text.
fn put_once(
    alloc: Global,
    history: &[u8],
    session: &[u8],
    keeping: Keeping,
) -> Result<Vec<u8>, HistoryFault>
    ensures ok { IfOk result (λ text. IsPutOnce keeping history.now session.now text.items) }
    ensures fault { IfErr result (IsOnceFault history.now session.now) }
{
    if stands_there(alloc, history, session)? {
        return copy(alloc, history);
    }
    put_session(alloc, history, session, keeping)
}

// Returns true if the present session of a history has the given text.
fn stands_there(alloc: Global, history: &[u8], session: &[u8]) -> Result<bool, HistoryFault>
    ensures ok { IfOk result (λ stands. IsTrue stands ↔ StandsThere history.now session.now) }
    ensures text { IfOk result (λ _. IsText history.now) }
    ensures fault { IfErr result (IsHistoryFault history.now) }
{
    let present = present_of(alloc, history)?;
    Ok(present.session == session)
}

// Returns the text of a history with the given session put into its present generation.
fn put_session(
    alloc: Global,
    history: &[u8],
    session: &[u8],
    keeping: Keeping,
) -> Result<Vec<u8>, HistoryFault>
    ensures ok { IfOk result (λ text. IsPut keeping history.now session.now text.items) }
    ensures fault { IfErr result (IsPutFault history.now session.now) }
{
    let mut form = read_history(alloc, history)?;
    match put(alloc, &mut form, session, keeping) {
        Ok(()) => written(alloc, form),
        Err(fault) => {
            drop(form);
            Err(fault)
        }
    }
}

// Replaces the session of the present generation, and drops the generations that lie beyond a
// dropped state.
fn put<'a>(
    alloc: Global,
    form: &mut HistoryForm<'a>,
    session: &'a [u8],
    keeping: Keeping,
) -> Result<(), HistoryFault>
    requires { IsHistoryText form.old }
    ensures ok { OnOk result ((g : GenerationText)
        → slice_get form.old.generations form.old.present ≡ Some g
        → PutsInto keeping form.old g session.now form.new) }
    ensures fault { IfErr result (λ fault. (g : GenerationText)
        → slice_get form.old.generations form.old.present ≡ Some g
        → IsSessionFault g.session fault ⊎ IsSessionFault session.now fault) }
{
    if !is_short(session) {
        return Err(HistoryFault::Memory);
    }
    let generation = &form.generations[form.present as usize];
    let marks = marks_of(alloc, generation, session, keeping)?;
    put_marked(form, session, marks);
    Ok(())
}

// Replaces the session and the marks of the present generation, and drops the generations that lie
// beyond a dropped state.
fn put_marked<'a>(form: &mut HistoryForm<'a>, session: &'a [u8], marks: Marks)
    requires text { IsHistoryText form.old }
    requires short { IsShort session.now }
    ensures is { IsHistoryText form.new }
    ensures left { form.new ≡ left_by marks form.old session.now }
{
    form.replace(session, marks.first_passed, marks.last_passed);
    cut_later(form, marks.keeps_last);
    cut_earlier(form, marks.keeps_first);
}

// Drops the generations after the present one, if its last state is not kept.
fn cut_later(form: &mut HistoryForm<'_>, is_kept: bool)
    requires { IsHistoryText form.old }
    ensures is { IsHistoryText form.new }
    ensures left { form.new ≡ cut_later is_kept form.old }
{
    if !is_kept {
        form.drop_later();
    }
}

// Drops the generations before the present one, if its first state is not kept.
fn cut_earlier(form: &mut HistoryForm<'_>, is_kept: bool)
    requires { IsHistoryText form.old }
    ensures is { IsHistoryText form.new }
    ensures left { form.new ≡ cut_earlier is_kept form.old }
{
    if !is_kept {
        form.drop_earlier();
    }
}

/// Returns true if the length of a text fits in 32 bits.
pub(crate) fn is_short(text: &[u8]) -> bool
    ensures { IsTrue result ↔ IsShort text.now }
{
    text.len() < 4_294_967_296
}

/// Returns the text of a history, and drops the history.
pub(crate) fn written(alloc: Global, form: HistoryForm<'_>) -> Result<Vec<u8>, HistoryFault>
    ensures ok { IfOk result (λ text. text.items ≡ history_text form.entry) }
    ensures fault { IfErr result IsOutOfMemory }
{
    let text = write_history(alloc, &form);
    drop(form);
    match text {
        Ok(text) => Ok(text),
        Err(_) => Err(HistoryFault::Memory),
    }
}

/// Returns a copy of bytes.
pub(crate) fn copy(alloc: Global, bytes: &[u8]) -> Result<Vec<u8>, HistoryFault>
    ensures ok { IfOk result (λ text. text.items ≡ bytes.now) }
    ensures fault { IfErr result IsOutOfMemory }
{
    match Vec::from_slice(alloc, bytes) {
        Ok(text) => Ok(text),
        Err(_) => Err(HistoryFault::Memory),
    }
}
