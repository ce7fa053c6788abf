//! Openings of a copy of a line, which are closed or given up.

ghost use Rattle.std.specs.Prelude.{◌≡◌, false, length, IfOk, IfSome};
ghost use Rattle.rc_model.specs.Database.{Bundles};
ghost use Rattle.rc_line.specs.Opening.{IsEditFrom};

use crate::growths::told::{fault_of, go_on_to, show_came, show_line};
use crate::samples::{DB, LOG, NET, ROOT, WEB, is_same_line, set_of};
use rc_bundle::Edit;
use rc_db::Table;
use rc_graph::Graph;
use rc_line::Line;
use rc_select::{Plan, between};
use rc_set::{NoMem, Set};
use std::alloc::{AllocError, AllocGlobal, Global};
use std::io;
use std::io::Print;

/// To what a line is opened, and how that ends.
#[derive(Clone, Copy)]
pub enum Opening {
    /// To an undo, which is given up.
    Undo,
    /// To a redo, which is given up.
    Redo,
    /// To an undo of a change that brought all up, after which one service is live.
    Split,
    /// To a change that lowers all.
    Change,
    /// To an edit that removes all bundles.
    Edit,
}

/// Opens a copy of a line, and prints the result, and what the copy is in the end compared with the
/// line.
pub fn show_opening(
    rt: &(impl Print + AllocGlobal),
    graph: &Graph,
    line: &Line,
    what: &str,
    opening: Opening,
) -> io::Result<()>
    requires { line.now.is_open ≡ false }
{
    let mut copied = line.copy(rt.alloc())?;
    let came = match opening {
        Opening::Edit => emptied(rt, &mut copied, what),
        Opening::Change => lowered_all(rt, graph, &mut copied, what),
        Opening::Split => split(rt, &mut copied, what),
        _ => given_up(rt, &mut copied, what, opening),
    };
    let left = left_so(&copied, line, opening);
    drop(copied);
    show_came(rt, fault_of(came))?;
    show_line(rt, left)
}

/// Returns the word for what a line is in the end, compared with what it was.
fn left_so(copied: &Line, line: &Line, opening: Opening) -> &'static str
    requires { line.now.is_open ≡ false }
{
    if copied.is_open() {
        "left open"
    } else if is_same_line(copied, line) {
        "as before"
    } else if is_moved(copied, opening) {
        "moved"
    } else {
        "altered"
    }
}

/// Returns true if a line of three states has moved: it stands where it must, and the entry by
/// which it came there is right. An undo that was split has a further entry.
fn is_moved(line: &Line, opening: Opening) -> bool
    requires { line.now.is_open ≡ false }
{
    if line.states() != 3 {
        return false;
    }
    let (first, second) = (line.entry(0), line.entry(1));
    match opening {
        Opening::Split => {
            line.cursor() == 1
                && first.raised() == [LOG].as_slice()
                && second.raised() == [DB, NET, ROOT, WEB].as_slice()
        }
        Opening::Change => {
            line.cursor() == 2
                && line.live().is_empty()
                && second.lowered() == [DB, LOG, NET, ROOT, WEB].as_slice()
        }
        _ => line.cursor() == 2 && line.table().len() == 0 && second.edit().len() > 0,
    }
}

fn given_up(
    rt: &(impl Print + AllocGlobal),
    line: &mut Line,
    what: &str,
    opening: Opening,
) -> Result<(), NoMem>
    requires { line.old.is_open ≡ false }
{
    let _ = print!(rt; "{what}: ");
    let opened = match opening {
        Opening::Undo => line.open_undo(rt.alloc()),
        _ => line.open_redo(rt.alloc()),
    };
    match opened {
        Ok(opened) => {
            go_on_to(rt, "give_up");
            line.give_up(opened);
            Ok(())
        }
        Err(_) => Err(AllocError),
    }
}

/// Opens a line to an undo, and closes it with only `log` live.
fn split(rt: &(impl Print + AllocGlobal), line: &mut Line, what: &str) -> Result<(), NoMem>
    requires { line.old.is_open ≡ false }
{
    let live = set_of(rt.alloc(), line.live().bound(), &[LOG])?;
    let _ = print!(rt; "{what}: ");
    let came = closed_on(rt, line, &live);
    drop(live);
    came
}

fn closed_on(rt: &(impl Print + AllocGlobal), line: &mut Line, live: &Set) -> Result<(), NoMem>
    requires closed { line.old.is_open ≡ false }
    requires live { length live.now ≡ length line.old.line.current.live }
{
    match line.open_undo(rt.alloc()) {
        Ok(opening) => {
            go_on_to(rt, "close");
            line.close(opening, live);
            Ok(())
        }
        Err(_) => Err(AllocError),
    }
}

/// Opens a line to a change that lowers all, and closes it.
fn lowered_all(
    rt: &(impl Print + AllocGlobal),
    graph: &Graph,
    line: &mut Line,
    what: &str,
) -> Result<(), NoMem>
    requires { line.old.is_open ≡ false }
{
    let none = Set::empty(rt.alloc(), line.live().bound())?;
    let plan = plan_to(rt.alloc(), graph, line.live(), &none);
    let _ = print!(rt; "{what}: ");
    let came = match plan {
        Ok(Some(plan)) => lowered(rt, line, &plan, &none),
        _ => Err(AllocError),
    };
    drop(none);
    came
}

/// Returns the plan from some services to others. Returns none if one of them lacks a dependency.
pub(crate) fn plan_to(
    alloc: Global,
    graph: &Graph,
    from: &Set,
    to: &Set,
) -> Result<Option<Plan>, NoMem>
    ensures { IfOk result (λ found. IfSome found (λ plan. length plan.opening ≡ length from.now)) }
{
    if from.bound() != graph.len() || to.bound() != graph.len() {
        return Ok(None);
    }
    if !graph.closed(from) || !graph.closed(to) {
        return Ok(None);
    }
    Ok(Some(between(alloc, graph, from, to)?))
}

/// Opens a line to a plan, and closes it with no service live.
fn lowered(
    rt: &(impl Print + AllocGlobal),
    line: &mut Line,
    plan: &Plan,
    none: &Set,
) -> Result<(), NoMem>
    requires closed { line.old.is_open ≡ false }
    requires plan { length plan.now.opening ≡ length line.old.line.current.live }
    requires none { length none.now ≡ length line.old.line.current.live }
{
    match line.open_new(rt.alloc(), plan) {
        Ok(opening) => {
            go_on_to(rt, "close");
            line.close(opening, none);
            Ok(())
        }
        Err(_) => Err(AllocError),
    }
}

/// Opens a line to an edit that removes all bundles, and closes it.
fn emptied(rt: &(impl Print + AllocGlobal), line: &mut Line, what: &str) -> Result<(), NoMem>
    requires { line.old.is_open ≡ false }
{
    let edit = edit_to_none(rt.alloc(), line)?;
    let _ = print!(rt; "{what}: ");
    entered(rt, line, edit)
}

/// Returns the edit that removes all bundles of a line.
fn edit_to_none(alloc: Global, line: &Line) -> Result<Edit, NoMem>
    requires { line.now.is_open ≡ false }
    ensures { IfOk result (λ edit. (table : Bundles) × IsEditFrom line.now.line edit table) }
{
    let none = Table::new(alloc);
    let _bundles = none.len();
    let edit = Edit::between(alloc, line.table(), &none);
    drop(none);
    edit
}

fn entered(rt: &(impl Print + AllocGlobal), line: &mut Line, edit: Edit) -> Result<(), NoMem>
    requires closed { line.old.is_open ≡ false }
    requires made { (table : Bundles) × IsEditFrom line.old.line edit table }
{
    match line.open_edit(rt.alloc(), &edit) {
        Ok(opening) => {
            go_on_to(rt, "close_edit");
            line.close_edit(opening, edit);
            Ok(())
        }
        Err(_) => Err(AllocError),
    }
}
