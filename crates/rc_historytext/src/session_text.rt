//! From the form of a session to its text.
ghost use Rattle.std.specs.Prelude.{◌≡◌, ◌++◌, ◌∷◌, false, map, None, Some, IfErr};
ghost use Rattle.std.specs.Prelude.{IfOk, OnOk};
ghost use Rattle.std.specs.List.{flat_map};
ghost use Rattle.rc_dbtext.specs.Words.{line_of_words};
ghost use Rattle.rc_dbtext.specs.Form.{spells};
ghost use Rattle.rc_dbtext.specs.Lines.{words_after_spaces};
ghost use Rattle.rc_livetext.specs.Text.{OfBound, OfBundle, OfServices, OfState, head_lines};
ghost use Rattle.rc_livetext.specs.Text.{live_text, spell, state_lines, state_word};
ghost use Rattle.rc_historytext.specs.States.{Cuts};
ghost use Rattle.rc_historytext.specs.CallFaults.{IsSessionFault};

use crate::fault::HistoryFault;
use crate::states::session_form;
use rc_dbtext::lexer::{BundleForm, NameWord};
use rc_dbtext::{push_line, push_word};
use rc_livetext::{LiveForm, StateForm};
use std::alloc::{AllocError, Global};

/// Returns the text of a session without the states after the current one.
pub(crate) fn cut_session(alloc: Global, session: &[u8]) -> Result<Vec<u8>, HistoryFault>
    ensures ok { IfOk result (λ cut. Cuts session.now cut.items) }
    ensures fault { IfErr result (IsSessionFault session.now) }
{
    let mut form = session_form(alloc, session)?;
    form.after.clear();
    let cut = write_session(alloc, &form);
    drop(form);
    match cut {
        Ok(cut) => Ok(cut),
        Err(_) => Err(HistoryFault::Memory),
    }
}

// Returns the text of a session, given its form.
fn write_session(alloc: Global, form: &LiveForm<'_>) -> Result<Vec<u8>, AllocError>
    ensures { IfOk result (λ text. text.items ≡ live_text form.now) }
{
    let mut out = Vec::new(alloc);
    push_head(alloc, &mut out, &form.services, form.bound)?;
    push_states(&mut out, &form.before)?;
    push_state(&mut out, true, &form.current)?;
    push_states(&mut out, &form.after)?;
    out.extend_from_slice(b"end\n")?;
    Ok(out)
}

// Appends the lines before the states.
fn push_head(
    alloc: Global,
    out: &mut Vec<u8>,
    services: &[NameWord<'_>],
    bound: Option<u32>,
) -> Result<(), AllocError>
    ensures { OnOk result (out.new.items
        ≡ out.old.items ++ spells spell (head_lines services.now bound)) }
{
    match bound {
        Some(bound) => push_bounded(alloc, out, services, bound),
        None => push_unbounded(out, services),
    }
}

// Appends the lines before the states, with a bound on the number of states.
fn push_bounded(
    alloc: Global,
    out: &mut Vec<u8>,
    services: &[NameWord<'_>],
    bound: u32,
) -> Result<(), AllocError>
    ensures { OnOk result (out.new.items
        ≡ out.old.items ++ spells spell (head_lines services.now (Some bound))) }
{
    push_line(out, b"undorc-live", b"2")?;
    push_names(out, b"services", services)?;
    push_bound(alloc, out, bound)?;
    Ok(())
}

// Appends the lines before the states in the older form, which has no bound.
fn push_unbounded(out: &mut Vec<u8>, services: &[NameWord<'_>]) -> Result<(), AllocError>
    ensures { OnOk result (out.new.items
        ≡ out.old.items ++ spells spell (head_lines services.now None)) }
{
    push_line(out, b"undorc-live", b"1")?;
    push_names(out, b"services", services)?;
    Ok(())
}

// Appends the line of the bound on the number of states.
fn push_bound(alloc: Global, out: &mut Vec<u8>, bound: u32) -> Result<(), AllocError>
    ensures { OnOk result (out.new.items ≡ out.old.items ++ spell (OfBound bound)) }
{
    let number = bound.to_string(alloc)?;
    push_line(out, b"bound", number.as_bytes())
}

// Appends the lines of states that are not the current one.
fn push_states(out: &mut Vec<u8>, states: &[StateForm<'_>]) -> Result<(), AllocError>
    ensures { OnOk result (out.new.items
        ≡ out.old.items ++ spells spell (flat_map (state_lines false) states.now)) }
{
    for state in states {
        push_state(out, false, state)?;
    }
    Ok(())
}

// Appends the lines of a state.
fn push_state(out: &mut Vec<u8>, is_current: bool, state: &StateForm<'_>) -> Result<(), AllocError>
    ensures { OnOk result (out.new.items
        ≡ out.old.items ++ spells spell (state_lines is_current state.now)) }
{
    push_names(out, word_of(is_current), &state.live)?;
    push_bundles(out, &state.bundles)?;
    Ok(())
}

// Returns the first word of the line of a state.
fn word_of(is_current: bool) -> &'static [u8]
    ensures { result.now ≡ state_word is_current }
{
    if is_current { b"now" } else { b"up" }
}

// Appends the lines of bundles.
fn push_bundles(out: &mut Vec<u8>, bundles: &[BundleForm<'_>]) -> Result<(), AllocError>
    ensures { OnOk result (out.new.items
        ≡ out.old.items ++ spells spell (map OfBundle bundles.now)) }
{
    for bundle in bundles {
        push_bundle(out, bundle)?;
    }
    Ok(())
}

// Appends the line of a bundle.
fn push_bundle(out: &mut Vec<u8>, bundle: &BundleForm<'_>) -> Result<(), AllocError>
    ensures { OnOk result (out.new.items ≡ out.old.items ++ spell (OfBundle bundle.now)) }
{
    out.extend_from_slice(b"bundle")?;
    push_word(out, bundle.name.text().as_bytes())?;
    push_spaced(out, &bundle.members)?;
    out.extend_from_slice(b"\n")?;
    Ok(())
}

// Appends a line of a word and names.
fn push_names(out: &mut Vec<u8>, word: &[u8], names: &[NameWord<'_>]) -> Result<(), AllocError>
    ensures { OnOk result (out.new.items ≡ out.old.items ++ line_of_words (word.now ∷ names.now)) }
{
    out.extend_from_slice(word)?;
    push_spaced(out, names)?;
    out.extend_from_slice(b"\n")?;
    Ok(())
}

// Appends names, each after a space.
fn push_spaced(out: &mut Vec<u8>, names: &[NameWord<'_>]) -> Result<(), AllocError>
    ensures { OnOk result (out.new.items ≡ out.old.items ++ words_after_spaces names.now) }
{
    for name in names {
        push_word(out, name.text().as_bytes())?;
    }
    Ok(())
}
