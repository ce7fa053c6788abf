//! Lines that are made of states, and steps along a line.

ghost use Rattle.std.specs.Prelude.{◌≡◌, false, length, IfOk};

use crate::growths::told::go_on_to;
use crate::samples::{LOG, ROOT, holds, set_of};
use rc_db::Table;
use rc_line::Line;
use rc_set::{NoMem, Set};
use std::alloc::{AllocGlobal, Global};
use std::io::Print;

/// Returns true if the line of two states has them, and stands on the second.
pub fn is_of_states(
    rt: &(impl Print + AllocGlobal),
    before: &Table,
    now: &Table,
) -> Result<bool, NoMem> {
    let first = state_of(rt.alloc(), &[], before)?;
    match state_of(rt.alloc(), &[LOG, ROOT], now) {
        Ok(second) => of_two(rt, first, second),
        Err(short) => {
            drop(first);
            Err(short)
        }
    }
}

/// Returns the state in which the given services are live.
fn state_of(alloc: Global, live: &[u16], table: &Table) -> Result<(Set, Table), NoMem>
    ensures { IfOk result (λ state. length state.0 ≡ 5) }
{
    let live = set_of(alloc, 5, live)?;
    match table.copy(alloc) {
        Ok(table) => Ok((live, table)),
        Err(short) => {
            drop(live);
            Err(short)
        }
    }
}

/// Returns true if different services are live in two states, and their line has them and stands on
/// the second.
fn of_two(
    rt: &(impl Print + AllocGlobal),
    first: (Set, Table),
    second: (Set, Table),
) -> Result<bool, NoMem>
    requires sets { length second.0 ≡ length first.0 }
{
    if first.0.same(&second.0) {
        return Ok(false);
    }
    let held = vec![in rt.alloc(); first, second]?;
    go_on_to(rt, "Line::from_states");
    match Line::from_states(rt.alloc(), held, 1, 3) {
        Ok(line) => Ok(is_line_of_two(&line) && is_fresh_by_last(rt, &line)?),
        Err(short) => Err(short),
    }
}

/// Returns true if a line of at most three states has two and stands on the second, in which two
/// raised services are live, and which has one more bundle.
fn is_line_of_two(line: &Line) -> bool
    requires { line.now.is_open ≡ false }
{
    if line.states() != 2 || line.cursor() != 1 || line.bound() != 3 {
        return false;
    }
    let entry = line.entry(0);
    let is_raised = entry.raised() == [LOG, ROOT].as_slice() && entry.lowered().is_empty();
    is_raised && entry.edit().len() == 1 && holds(line.live(), &[LOG, ROOT])
}

/// Returns true if lines that begin with the last state of a line have that state alone.
fn is_fresh_by_last(rt: &(impl Print + AllocGlobal), line: &Line) -> Result<bool, NoMem>
    requires { line.now.is_open ≡ false }
{
    if line.states() == 0 {
        return Ok(false);
    }
    let place = line.states() - 1;
    go_on_to(rt, "Line::state");
    let (live, table) = line.state(rt.alloc(), place)?;
    let (again, bundles) = line.state(rt.alloc(), place)?;
    go_on_to(rt, "Line::new and with_bound");
    let usual = Line::new(rt.alloc(), live, table);
    let bounded = Line::with_bound(rt.alloc(), again, bundles, 3);
    let is_right = is_fresh(&usual, line, 1024) && is_fresh(&bounded, line, 3);
    drop((usual, bounded));
    Ok(is_right)
}

/// Returns true if a line has only the current state of another.
fn is_fresh(line: &Line, other: &Line, bound: u32) -> bool {
    line.states() == 1
        && line.cursor() == 0
        && line.bound() == bound
        && !line.is_open()
        && holds(line.live(), &[LOG, ROOT])
        && line.table().same(other.table())
}

/// Returns true if a step on from the state before the last leads to the table of the last.
pub fn is_stepped_on(
    rt: &(impl Print + AllocGlobal),
    line: &Line,
    to: &Table,
) -> Result<bool, NoMem>
    requires { line.now.is_open ≡ false }
{
    if line.states() < 2 {
        return Ok(false);
    }
    let place = line.states() - 2;
    let (mut live, mut table) = line.state(rt.alloc(), place)?;
    go_on_to(rt, "Line::step_on");
    let stepped = line.step_on(rt.alloc(), place, &mut live, &mut table);
    let is_same = table.same(to);
    drop((live, table));
    match stepped {
        Ok(()) => Ok(is_same),
        Err(short) => Err(short),
    }
}
