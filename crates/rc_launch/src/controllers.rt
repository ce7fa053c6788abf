//! Whether an undo or a redo of a history would move a longrun that no program controls, in any of
//! its runs.
ghost use Rattle.std.specs.Prelude.{◌≡◌, ◌<◌, IfSome, false, length};
ghost use Rattle.rc_model.specs.Line.{states};

use crate::journal::told_of;
use crate::numbers::{GenerationFault, Numbered, numbered_of};
use rc_args::{Making, SessionRequest};
use rc_db::Db;
use rc_historytext::{GenerationForm, HistoryForm, read_history, states_around};
use rc_line::Line;
use rc_names::Kind;
use rc_set::{NoMem, Set};
use std::alloc::{AllocError, Global};

/// The states from one number to another, along which an undo (not `is_on`) or a redo goes.
#[derive(Clone, Copy)]
struct Stretch {
    low: usize,
    high: usize,
    is_on: bool,
}

/// Returns a longrun that an undo (not `is_on`) or a redo would move on its way to the nearest
/// stop, if the command starts programs and none controls longruns. Returns `None` if there is no
/// such longrun, or a text can't be read.
pub(crate) fn uncontrolled_ahead(
    alloc: Global,
    request: &SessionRequest<'_>,
    history: &[u8],
    is_on: bool,
) -> Result<Option<String>, NoMem> {
    let Some(numbered) = numbered_without(alloc, request, history)? else {
        return Ok(None);
    };
    let (at, stop) = (numbered.at, nearest_stop(&numbered, is_on));
    drop(numbered);
    let stretch = Stretch {
        low: at.min(stop),
        high: at.max(stop),
        is_on,
    };
    longrun_along(alloc, history, stretch)
}

/// Returns a longrun that undos back to a state would move, as `uncontrolled_ahead` does.
pub(crate) fn uncontrolled_back(
    alloc: Global,
    request: &SessionRequest<'_>,
    history: &[u8],
    state: usize,
) -> Result<Option<String>, NoMem> {
    let Some(numbered) = numbered_without(alloc, request, history)? else {
        return Ok(None);
    };
    let stretch = Stretch {
        low: state,
        high: numbered.at,
        is_on: false,
    };
    drop(numbered);
    longrun_along(alloc, history, stretch)
}

// Counts the states of a history, if no controller is named for a command that starts programs.
// Returns `None` if that is not so, or a text can't be read.
fn numbered_without(
    alloc: Global,
    request: &SessionRequest<'_>,
    history: &[u8],
) -> Result<Option<Numbered>, NoMem> {
    if !lacks_controller(request) {
        return Ok(None);
    }
    match numbered_of(alloc, history) {
        Ok(numbered) => Ok(Some(numbered)),
        Err(GenerationFault::Memory) => Err(AllocError),
        Err(GenerationFault::Untold(_)) => Ok(None),
    }
}

// Returns true if the command starts programs and none controls longruns.
fn lacks_controller(request: &SessionRequest<'_>) -> bool {
    match &request.making {
        Making::Table(_) => false,
        Making::Programs(programs) => programs.controller.is_none(),
    }
}

// Returns the number of the state on which an undo or a redo stops if all of it is done.
fn nearest_stop(numbered: &Numbered, is_on: bool) -> usize {
    let mut state = numbered.at;
    for _ in 0..numbered.marks.len() {
        let next = if is_on {
            state.saturating_add(1)
        } else {
            state.saturating_sub(1)
        };
        let Some(is_passed) = numbered.marks.get(next) else {
            return state;
        };
        state = next;
        if !is_passed {
            return state;
        }
    }
    state
}

// Returns the first longrun that is moved along these states of a history.
fn longrun_along(alloc: Global, history: &[u8], stretch: Stretch) -> Result<Option<String>, NoMem> {
    let Ok(form) = read_history(alloc, history) else {
        return Err(AllocError);
    };
    let found = longrun_among(alloc, &form, stretch);
    drop(form);
    found
}

// Returns the first longrun that is moved along these states of all generations.
fn longrun_among(
    alloc: Global,
    form: &HistoryForm<'_>,
    stretch: Stretch,
) -> Result<Option<String>, NoMem> {
    let mut found = None;
    let mut first = 0usize;
    for place in 0..form.generations.len() {
        if stretch.is_on && found.is_some() {
            break;
        }
        let generation = &form.generations[place];
        let Ok((before, after)) = states_around(alloc, generation.session) else {
            drop(found);
            return Err(AllocError);
        };
        let last = first.saturating_add(before).saturating_add(after);
        let inside = Stretch {
            low: stretch.low.max(first).saturating_sub(first),
            high: stretch.high.min(last).saturating_sub(first),
            is_on: stretch.is_on,
        };
        match longrun_inside(alloc, generation, inside) {
            Ok(Some(name)) => {
                drop(found);
                found = Some(name);
            }
            Ok(None) => {}
            Err(short) => {
                drop(found);
                return Err(short);
            }
        }
        first = last.saturating_add(1);
    }
    Ok(found)
}

// Returns the first longrun that is moved along these states of a generation.
fn longrun_inside(
    alloc: Global,
    generation: &GenerationForm<'_>,
    stretch: Stretch,
) -> Result<Option<String>, NoMem> {
    if stretch.low >= stretch.high {
        return Ok(None);
    }
    let Some((db, line)) = told_of(alloc, generation)? else {
        return Ok(None);
    };
    let found = longrun_on(alloc, &db, &line, stretch);
    drop((db, line));
    found
}

// Returns the first longrun that is moved along these states of a line.
fn longrun_on(
    alloc: Global,
    db: &Db,
    line: &Line,
    stretch: Stretch,
) -> Result<Option<String>, NoMem>
    requires closed { line.now.is_open ≡ false }
{
    for turn in 0..stretch.high.saturating_sub(stretch.low) {
        let low = if stretch.is_on {
            stretch.low.saturating_add(turn)
        } else {
            stretch.high.saturating_sub(turn).saturating_sub(1)
        };
        let high = low.saturating_add(1);
        if high >= line.states() {
            continue;
        }
        let (old, new) = if stretch.is_on {
            (low, high)
        } else {
            (high, low)
        };
        match longrun_between(alloc, db, line, old, new) {
            Ok(None) => {}
            found => return found,
        }
    }
    Ok(None)
}

// Returns a longrun that is moved from one state of a line to another: the first that is raised, or
// else the first that is lowered.
fn longrun_between(
    alloc: Global,
    db: &Db,
    line: &Line,
    old: usize,
    new: usize,
) -> Result<Option<String>, NoMem>
    requires closed { line.now.is_open ≡ false }
    requires old { old < length (states line.now.line) }
    requires new { new < length (states line.now.line) }
{
    let (before, table) = line.state(alloc, old)?;
    drop(table);
    let after = match line.state(alloc, new) {
        Ok((after, table)) => {
            drop(table);
            after
        }
        Err(short) => {
            drop(before);
            return Err(short);
        }
    };
    let found = match longrun_only_in(db, &after, &before) {
        None => longrun_only_in(db, &before, &after),
        raised => raised,
    };
    drop((before, after));
    match found {
        Some(service) => {
            let name = String::from_str(alloc, db.names().name_of(service).text())?;
            Ok(Some(name))
        }
        None => Ok(None),
    }
}

// Returns the first longrun of one set of services that another lacks.
fn longrun_only_in(db: &Db, one: &Set, other: &Set) -> Option<u16>
    ensures { IfSome result (λ service. service < length db.now.names) }
{
    let count = db.names().len();
    if one.bound() != count || other.bound() != count {
        return None;
    }
    for service in 0..count {
        let moves = one.contains(service) && !other.contains(service);
        if moves && db.service(service).kind == Kind::Longrun {
            return Some(service);
        }
    }
    None
}
