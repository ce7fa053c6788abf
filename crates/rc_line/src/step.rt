//! How a move to a neighbour ends, over the two stacks.

ghost use Rattle.std.specs.Prelude.{◌≡◌, ◌<◌, length};
ghost use Rattle.std.specs.VecDeque.{deque_len, deque_capacity};
ghost use Rattle.rc_line.specs.Opening.{table_or};
ghost use Rattle.rc_line.specs.Keeping.{state, HasSpare, aim_of, EndsNearest};

use crate::entry::Entry;
use crate::opening::Open;
use crate::stack::take_last;
use crate::tables::replace;
use rc_db::Table;
use rc_set::Set;
use std::collections::VecDeque;

/// Where a move to a neighbour ended, and which way it went.
pub(crate) struct Reached<'a> {
    pub(crate) end: &'a Set,
    pub(crate) ahead: bool,
}

/// Ends a move over the nearest entry of a stack, ahead or back. If the move ends as it aimed, the
/// entry goes to the other stack. If nothing moved, it stays. Otherwise it is split in two. Takes
/// no memory.
pub(crate) fn end_step(
    from: &mut VecDeque<Entry>,
    to: &mut VecDeque<Entry>,
    live: &mut Set,
    table: &mut Table,
    opening: Open,
    reached: Reached<'_>,
)
    requires entry { 0 < deque_len from.old }
    requires room { HasSpare (deque_capacity to.old) (deque_len to.old) }
    requires aim { opening.aim ≡ aim_of reached.ahead }
    requires target { length opening.live ≡ length live.old }
    requires end { length reached.end.now ≡ length live.old }
    ensures { EndsNearest reached.entry.ahead from.old.items to.old.items (state live.old table.old)
        (state opening.live (table_or opening.table table.old)) reached.entry.end.now
        from.new.items to.new.items (state live.new table.new) }
{
    let Reached { end, ahead } = reached;
    let Open {
        aim: _,
        live: target,
        table: next,
        near,
        far,
        no_edit,
    } = opening;
    let entry = take_last(from);
    if target.same(end) {
        to.push_back_reserved(entry);
        *live = target;
        replace(table, next);
        drop((near, far, no_edit));
        return;
    }
    if live.same(end) {
        from.push_back_reserved(entry);
        drop((near, far, no_edit));
        drop((target, next));
        return;
    }
    let Entry {
        raised: _,
        lowered: _,
        edit,
    } = entry;
    from.push_back_reserved(far.entry_along(end, &target, edit, ahead));
    to.push_back_reserved(near.entry_along(live, end, no_edit, ahead));
    live.overwrite(end);
    drop((target, next));
}
