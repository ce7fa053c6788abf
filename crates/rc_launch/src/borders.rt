//! Where the steps of an undo or a redo lead, and whether the borders on the way are joined: no
//! service has to move where one is crossed.
ghost use Rattle.std.specs.Prelude.{IfOk};
ghost use Rattle.rc_historytext.specs.Travelling.{GoesOn};
ghost use Rattle.rc_launch.specs.HeldHistory.{MeetsBorder};
ghost use Rattle.rc_launch.specs.TwoSteps.{GoesBackInside};

use rc_db::Db;
use rc_dbtext::database_of;
use rc_historytext::{
    GenerationForm, HistoryFault, HistoryForm, RenameForm, Standing, read_history, standing_of,
    states_around,
};
use rc_livetext::read_live;
use rc_set::{NoMem, Set};
use rc_update::{Conversion, are_carried};
use std::alloc::Global;

/// Returns true if an undo or a redo goes on from the state on which a history stands: it is
/// passed, and there is one behind it.
pub(crate) fn goes_on_behind(
    alloc: Global,
    history: &[u8],
    is_on: bool,
) -> Result<bool, HistoryFault>
    ensures { IfOk result (GoesOn is_on history.now) }
{
    match standing_of(alloc, history) {
        Ok(standing) => Ok(standing.is_passed() && standing.has_next(is_on)),
        Err(fault) => Err(fault),
    }
}

/// Returns true if the next step of an undo or a redo crosses a border.
pub(crate) fn is_border(alloc: Global, history: &[u8], is_on: bool) -> Result<bool, HistoryFault>
    ensures { IfOk result (MeetsBorder is_on history.now) }
{
    match standing_of(alloc, history) {
        Ok(standing) => Ok(!standing.has_inside(is_on) && standing.crosses_behind(is_on)),
        Err(fault) => Err(fault),
    }
}

/// Returns true if a history stands on a state that is passed, and an undo from there ends in the
/// present generation, as it does after a restart that was cut short.
pub(crate) fn goes_back_inside(alloc: Global, history: &[u8]) -> Result<bool, HistoryFault>
    ensures { IfOk result (GoesBackInside history.now) }
{
    match standing_of(alloc, history) {
        Ok(standing) => {
            let ends_inside = standing.has_inside(false) && !standing.passes_inside(false);
            Ok(standing.is_passed() && ends_inside)
        }
        Err(fault) => Err(fault),
    }
}

/// Returns the first border on the way of an undo or a redo that is not joined. A border is given
/// by the place of the generation behind it.
pub(crate) fn first_unjoined(
    alloc: Global,
    history: &[u8],
    is_on: bool,
) -> Result<Option<usize>, HistoryFault> {
    let form = match read_history(alloc, history) {
        Ok(form) => form,
        Err(fault) => return Err(fault),
    };
    let found = match standing_of(alloc, history) {
        Ok(standing) => unjoined_from(alloc, &form, &standing, is_on),
        Err(fault) => Err(fault),
    };
    drop(form);
    found
}

// Returns the first border that is not joined on the way from where a history stands.
fn unjoined_from(
    alloc: Global,
    form: &HistoryForm<'_>,
    standing: &Standing<'_>,
    is_on: bool,
) -> Result<Option<usize>, HistoryFault> {
    let count = form.generations.len();
    let mut place = standing.earlier;
    let mut crosses = standing.crosses_behind(is_on)
        && (!standing.has_inside(is_on) || standing.passes_inside(is_on));
    for _ in 0..count {
        if !crosses {
            break;
        }
        let border = if is_on {
            place.saturating_add(1)
        } else {
            place
        };
        let (Some(old), Some(new)) = (
            form.generations.get(border.saturating_sub(1)),
            form.generations.get(border),
        ) else {
            break;
        };
        if !is_joined(alloc, old, new)? {
            return Ok(Some(border));
        }
        place = if is_on {
            border
        } else {
            border.saturating_sub(1)
        };
        crosses = match form.generations.get(place) {
            Some(reached) => reached_goes_on(alloc, reached, is_on)?,
            None => false,
        };
    }
    Ok(None)
}

// Returns true if an undo or a redo that has crossed into a generation crosses the border behind
// it, too: the state that it reaches is passed, and is its only one or leads to one that is passed.
fn reached_goes_on(
    alloc: Global,
    reached: &GenerationForm<'_>,
    is_on: bool,
) -> Result<bool, HistoryFault> {
    let (before, after) = states_around(alloc, reached.session)?;
    let (near, far) = if is_on {
        (reached.first_passed, reached.last_passed)
    } else {
        (reached.last_passed, reached.first_passed)
    };
    Ok(near && far && before.saturating_add(after) <= 1)
}

// Returns true if what is live at the end of a generation is what is live at the beginning of the
// next.
fn is_joined(
    alloc: Global,
    old: &GenerationForm<'_>,
    new: &GenerationForm<'_>,
) -> Result<bool, HistoryFault> {
    let list = match conversions(alloc, &new.renames) {
        Ok(list) => list,
        Err(_) => return Err(HistoryFault::Memory),
    };
    let joined = is_joined_by(alloc, old, new, &list);
    drop(list);
    match joined {
        Ok(joined) => Ok(joined),
        Err(_) => Err(HistoryFault::Memory),
    }
}

// Returns true if these conversions carry what is live at the end of a generation to what is live
// at the beginning of the next.
fn is_joined_by(
    alloc: Global,
    old: &GenerationForm<'_>,
    new: &GenerationForm<'_>,
    list: &[Conversion<'_>],
) -> Result<bool, NoMem> {
    let Some((from, left)) = state_at(alloc, old, true)? else {
        return Ok(false);
    };
    let reached = match state_at(alloc, new, false) {
        Ok(Some(reached)) => reached,
        Ok(None) => {
            drop((from, left));
            return Ok(false);
        }
        Err(short) => {
            drop((from, left));
            return Err(short);
        }
    };
    let (to, entered) = reached;
    let fits = left.bound() == from.names().len() && entered.bound() == to.names().len();
    let carried = if fits {
        are_carried(alloc, &from, &to, list, &left, &entered)
    } else {
        Ok(false)
    };
    drop((from, left, to, entered));
    carried
}

// Returns the database of a generation, and what is live in its last state or its first. Returns
// `None` if its texts are not those of a database and a session.
fn state_at(
    alloc: Global,
    generation: &GenerationForm<'_>,
    is_last: bool,
) -> Result<Option<(Db, Set)>, NoMem> {
    let Ok((db, _none)) = database_of(alloc, Some(generation.database), &[]) else {
        return Ok(None);
    };
    let Ok((line, states)) = read_live(alloc, generation.session, &db) else {
        drop(db);
        return Ok(None);
    };
    let place = if is_last { line.states() - 1 } else { 0 };
    let state = line.state(alloc, place);
    drop(line);
    match state {
        Ok((live, table)) => {
            drop(table);
            Ok(Some((db, live)))
        }
        Err(short) => {
            drop(db);
            Err(short)
        }
    }
}

// Returns renames as conversions.
fn conversions<'b>(
    alloc: Global,
    renames: &'b [RenameForm<'_>],
) -> Result<Vec<Conversion<'b>>, NoMem> {
    let mut list = Vec::new(alloc);
    for rename in renames {
        list.push(Conversion {
            old: rename.old.text().as_bytes(),
            new: rename.new.text().as_bytes(),
            restart: false,
        })?;
    }
    Ok(list)
}
