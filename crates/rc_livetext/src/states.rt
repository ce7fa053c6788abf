//! The states of a line, made from the form of a text.
ghost use Rattle.std.specs.Prelude.{◌≡◌, ◌↔◌, ◌++◌, ◌∷◌, [], length, All, IsTrue};
ghost use Rattle.std.specs.Prelude.{IfOk, IfSome, IfNone};
ghost use Rattle.rc_line.specs.State.{states_of};
ghost use Rattle.rc_livetext.specs.Text.{IsLiveText, IsStateText};
ghost use Rattle.rc_livetext.specs.Meaning.{IsKnownState, all_states};
ghost use Rattle.rc_livetext.specs.Parts.{IsWithin, state_texts};
ghost use Rattle.rc_livetext.specs.Spelling.{state_text};

use crate::form_states::StateForm;
use crate::forms::LiveForm;
use rc_db::{NoMem, Table};
use rc_dbtext::{bundles_are_complete, known_set, table_of};
use rc_names::Names;
use rc_set::Set;
use std::alloc::{AllocError, Global};

/// Returns the states of a text, from the oldest to the newest, or `None` if a state has a name
/// that it may not have.
pub(crate) fn states_in(
    alloc: Global,
    form: &LiveForm<'_>,
    names: &Names,
) -> Result<Option<Vec<(Set, Table)>>, NoMem>
    requires { IsLiveText form.now }
    ensures unknown { IfOk result (λ held.
        IfNone held (All (IsKnownState names.now) (all_states form.now) → ⊥)) }
    ensures known { IfOk result (λ held.
        IfSome held (λ _. All (IsKnownState names.now) (all_states form.now))) }
    ensures says { IfOk result (λ held.
        IfSome held (λ held. state_texts names.now held.items ≡ all_states form.now)) }
    ensures sets { IfOk result (λ held.
        IfSome held (λ held. All (IsWithin (length names.now)) (states_of held.items))) }
{
    let mut held = Vec::new(alloc);
    match push_all(alloc, &mut held, form, names) {
        Ok(true) => Ok(Some(held)),
        Ok(false) => {
            drop(held);
            Ok(None)
        }
        Err(_) => {
            drop(held);
            Err(AllocError)
        }
    }
}

// Adds the states of a text to others. Returns false if one of them has a name that it may not
// have.
fn push_all(
    alloc: Global,
    held: &mut Vec<(Set, Table)>,
    form: &LiveForm<'_>,
    names: &Names,
) -> Result<bool, NoMem>
    requires text { IsLiveText form.now }
    requires sets { All (IsWithin (length names.now)) (states_of held.old.items) }
    ensures known { IfOk result (λ known.
        IsTrue known ↔ All (IsKnownState names.now) (all_states form.now)) }
    ensures says { IfOk result (λ known. IsTrue known → state_texts names.now held.new.items
        ≡ state_texts names.now held.old.items ++ all_states form.now) }
    ensures sets { IfOk result (λ known.
        IsTrue known → All (IsWithin (length names.now)) (states_of held.new.items)) }
{
    if !push_states(alloc, held, form.before.as_slice(), names)? {
        return Ok(false);
    }
    if !push_state(alloc, held, &form.current, names)? {
        return Ok(false);
    }
    push_states(alloc, held, form.after.as_slice(), names)
}

// Adds some states to others. Returns false if one of them has a name that it may not have.
fn push_states(
    alloc: Global,
    held: &mut Vec<(Set, Table)>,
    forms: &[StateForm<'_>],
    names: &Names,
) -> Result<bool, NoMem>
    requires text { All IsStateText forms.now }
    requires sets { All (IsWithin (length names.now)) (states_of held.old.items) }
    ensures known { IfOk result (λ known. IsTrue known ↔ All (IsKnownState names.now) forms.now) }
    ensures says { IfOk result (λ known. IsTrue known → state_texts names.now held.new.items
        ≡ state_texts names.now held.old.items ++ forms.now) }
    ensures sets { IfOk result (λ known.
        IsTrue known → All (IsWithin (length names.now)) (states_of held.new.items)) }
{
    for form in forms {
        if !push_state(alloc, held, form, names)? {
            return Ok(false);
        }
    }
    Ok(true)
}

// Adds a state to others. Returns false if it has a name that it may not have.
fn push_state(
    alloc: Global,
    held: &mut Vec<(Set, Table)>,
    form: &StateForm<'_>,
    names: &Names,
) -> Result<bool, NoMem>
    requires text { IsStateText form.now }
    requires sets { All (IsWithin (length names.now)) (states_of held.old.items) }
    ensures known { IfOk result (λ known. IsTrue known ↔ IsKnownState names.now form.now) }
    ensures says { IfOk result (λ known. IsTrue known → state_texts names.now held.new.items
        ≡ state_texts names.now held.old.items ++ form.now ∷ []) }
    ensures sets { IfOk result (λ known.
        IsTrue known → All (IsWithin (length names.now)) (states_of held.new.items)) }
{
    let Some(state) = state_in(alloc, form, names)? else {
        return Ok(false);
    };
    held.push(state)?;
    Ok(true)
}

// Returns the live set and the table of a state in a text, or `None` if the state has a name that
// it may not have.
fn state_in(
    alloc: Global,
    form: &StateForm<'_>,
    names: &Names,
) -> Result<Option<(Set, Table)>, NoMem>
    requires { IsStateText form.now }
    ensures unknown { IfOk result (λ s. IfNone s (IsKnownState names.now form.now → ⊥)) }
    ensures known { IfOk result (λ s. IfSome s (λ _. IsKnownState names.now form.now)) }
    ensures says { IfOk result (λ s. IfSome s (λ s.
        state_text names.now (record { live = s.0; table = s.1 }) ≡ form.now)) }
    ensures sets { IfOk result (λ s. IfSome s (λ s.
        IsWithin (length names.now) (record { live = s.0; table = s.1 }))) }
{
    let Some(live) = known_set(alloc, form.live.as_slice(), names)? else {
        return Ok(None);
    };
    if !bundles_are_complete(form.bundles.as_slice(), names) {
        drop(live);
        return Ok(None);
    }
    let Ok(table) = table_of(alloc, form.bundles.as_slice(), names) else {
        drop(live);
        return Err(AllocError);
    };
    Ok(Some((live, table)))
}
