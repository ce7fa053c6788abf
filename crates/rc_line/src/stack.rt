//! The two stacks of a line: entries, the nearest last.

ghost use Rattle.std.specs.Prelude.{◌≡◌, ◌-◌, ◌<◌, ◌≤◌, [], ◌∷◌, ◌++◌, length, slice_get, OnOk};
ghost use Rattle.std.specs.VecDeque.{deque_len, deque_capacity};
ghost use Rattle.std.specs.Option.{option_copied};
ghost use Rattle.rc_model.specs.Line.{Entry};
ghost use Rattle.rc_line.specs.Keeping.{HasSpare, IsFit};

use crate::entry::Entry;
use rc_set::NoMem;
use std::collections::VecDeque;

/// Returns the nearest entry, if there is one.
pub(crate) fn nearest(stack: &VecDeque<Entry>) -> Option<&Entry>
    ensures { option_copied result ≡ slice_get stack.now.items (length stack.now.items - 1) }
{
    stack.back()
}

/// Removes the nearest entry and returns it.
pub(crate) fn take_last(stack: &mut VecDeque<Entry>) -> Entry
    requires { 0 < deque_len stack.old }
    ensures items { stack.old.items ≡ stack.new.items ++ result ∷ [] }
    ensures capacity { deque_capacity stack.new ≡ deque_capacity stack.old }
{
    match stack.pop_back() {
        Some(entry) => entry,
        None => unreachable!(),
    }
}

/// Drops the farthest entry.
pub(crate) fn drop_first(stack: &mut VecDeque<Entry>)
    requires { 0 < deque_len stack.old }
    ensures { (gone : Entry) × (stack.old.items ≡ gone ∷ stack.new.items) }
{
    match stack.pop_front() {
        Some(entry) => entry.spend(),
        None => unreachable!(),
    }
}

/// Drops all entries.
pub(crate) fn spend_all(stack: &mut VecDeque<Entry>)
    ensures items { stack.new.items ≡ [] }
    ensures capacity { deque_capacity stack.new ≡ deque_capacity stack.old }
{
    while !stack.is_empty() {
        take_last(stack).spend();
    }
}

/// Drops one entry if there is one too many: the farthest behind or, if fewer than two are behind,
/// the farthest ahead. The nearest on each side stays.
pub(crate) fn fit(done: &mut VecDeque<Entry>, undone: &mut VecDeque<Entry>, bound: u32)
    requires { 3 ≤ bound }
    ensures { IsFit bound done.old.items undone.old.items done.new.items undone.new.items }
{
    let many = bound as usize;
    if done.len() < many && undone.len() < many - done.len() {
        return;
    }
    if done.len() >= 2 {
        drop_first(done);
    } else {
        drop_first(undone);
    }
}

/// Frees the room that the nearest entry does not use. A closing takes no memory, so it leaves its
/// entry with all the room that the opening made.
fn trim(stack: &mut VecDeque<Entry>)
    ensures { stack.new.items ≡ stack.old.items }
{
    if let Some(entry) = stack.pop_back() {
        stack.push_back_reserved(entry.trimmed());
    }
}

/// Makes room for one more entry in both stacks.
pub(crate) fn make_room(
    done: &mut VecDeque<Entry>,
    undone: &mut VecDeque<Entry>,
) -> Result<(), NoMem>
    ensures done { done.new.items ≡ done.old.items }
    ensures undone { undone.new.items ≡ undone.old.items }
    ensures done_room { OnOk result (HasSpare (deque_capacity done.new) (deque_len done.new)) }
    ensures undone_room { OnOk result (HasSpare (deque_capacity undone.new)
        (deque_len undone.new)) }
{
    trim(done);
    trim(undone);
    done.reserve(1)?;
    undone.reserve(1)?;
    Ok(())
}
