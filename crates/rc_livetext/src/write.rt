//! From a line of states to its text.
ghost use Rattle.std.specs.Prelude.{◌≡◌, ◌++◌, false, length, map, slice_get, All, Some, IfOk};
ghost use Rattle.std.specs.Prelude.{OnOk};
ghost use Rattle.rc_model.specs.Database.{HaveBound};
ghost use Rattle.rc_model.specs.Line.{states, cursor};
ghost use Rattle.rc_dbtext.specs.Form.{spells};
ghost use Rattle.rc_dbtext.specs.Spelling.{members, name_at};
ghost use Rattle.rc_livetext.specs.Text.{OfServices, OfBound, OfState, spell, head_lines};
ghost use Rattle.rc_livetext.specs.Text.{state_lines, state_word};
ghost use Rattle.rc_livetext.specs.Parts.{IsWithin};
ghost use Rattle.rc_livetext.specs.Spelling.{state_text, spelling};
ghost use Rattle.rc_livetext.specs.Written.{bundle_bytes, state_bytes};

use rc_db::{NoMem, Table};
use rc_dbtext::{push_bundle, push_line, push_set, push_word};
use rc_line::Line;
use rc_names::Names;
use rc_session::Session;
use rc_set::Set;
use std::alloc::Global;

/// Returns the text of a session's line. The line has no text while a run is begun.
pub fn write_live(alloc: Global, session: &Session) -> Result<Vec<u8>, NoMem>
    requires { session.now.begun ≡ false }
    ensures { IfOk result (λ text. text.items ≡ spelling session.now.database session.now.line) }
{
    let names = session.db().names();
    let line = session.journal();
    let mut out = Vec::new(alloc);
    push_head(alloc, &mut out, names, line.bound())?;
    push_whole(alloc, &mut out, names, line)?;
    out.extend_from_slice(b"end\n")?;
    Ok(out)
}

// Appends the lines before the states.
fn push_head(alloc: Global, out: &mut Vec<u8>, names: &Names, bound: u32) -> Result<(), NoMem>
    ensures { OnOk result (out.new.items
        ≡ out.old.items ++ spells spell (head_lines names.now (Some bound))) }
{
    push_line(out, b"undorc-live", b"2")?;
    push_services(out, names)?;
    push_bound(alloc, out, bound)?;
    Ok(())
}

// Appends the line of the bound on the number of states.
fn push_bound(alloc: Global, out: &mut Vec<u8>, bound: u32) -> Result<(), NoMem>
    ensures { OnOk result (out.new.items ≡ out.old.items ++ spell (OfBound bound)) }
{
    let number = bound.to_string(alloc)?;
    push_line(out, b"bound", number.as_bytes())
}

// Appends the line of all services.
fn push_services(out: &mut Vec<u8>, names: &Names) -> Result<(), NoMem>
    ensures { OnOk result (out.new.items ≡ out.old.items ++ spell (OfServices names.now)) }
{
    out.extend_from_slice(b"services")?;
    for id in 0..names.len() {
        push_word(out, names.name_of(id).text().as_bytes())?;
    }
    out.extend_from_slice(b"\n")?;
    Ok(())
}

// Appends the lines of all states.
fn push_whole(alloc: Global, out: &mut Vec<u8>, names: &Names, line: &Line) -> Result<(), NoMem>
    requires closed { line.now.is_open ≡ false }
    requires sets { All (IsWithin (length names.now)) (states line.now.line) }
    ensures { OnOk result (out.new.items ≡ out.old.items
        ++ state_bytes names.now (cursor line.now.line) 0 (states line.now.line)) }
{
    let (mut live, mut table) = line.state(alloc, 0)?;
    let pushed = push_states(alloc, out, names, line, &mut live, &mut table);
    drop((live, table));
    pushed
}

// Appends the lines of all states in turn, from the first one on. Takes each entry once.
fn push_states(
    alloc: Global,
    out: &mut Vec<u8>,
    names: &Names,
    line: &Line,
    live: &mut Set,
    table: &mut Table,
) -> Result<(), NoMem>
    requires sets { All (IsWithin (length names.now)) (states line.now.line) }
    requires first { slice_get (states line.now.line) 0
        ≡ Some (record { live = live.old; table = table.old }) }
    ensures { OnOk result (out.new.items ≡ out.old.items
        ++ state_bytes names.now (cursor line.now.line) 0 (states line.now.line)) }
{
    let cursor = line.cursor();
    let last = line.states() - 1;
    push_state(alloc, out, names, cursor == 0, live, table)?;
    for place in 0..last {
        line.step_on(alloc, place, live, table)?;
        push_state(alloc, out, names, cursor == place + 1, live, table)?;
    }
    Ok(())
}

// Appends the lines of a state.
fn push_state(
    alloc: Global,
    out: &mut Vec<u8>,
    names: &Names,
    current: bool,
    live: &Set,
    table: &Table,
) -> Result<(), NoMem>
    requires { IsWithin (length names.now) (record { live = live.now; table = table.now }) }
    ensures { OnOk result (out.new.items ≡ out.old.items ++ spells spell (state_lines current
        (state_text names.now (record { live = live.now; table = table.now })))) }
{
    push_live(alloc, out, names, current, live)?;
    push_bundles(alloc, out, names, table)?;
    Ok(())
}

// Appends the line of the live services of a state.
fn push_live(
    alloc: Global,
    out: &mut Vec<u8>,
    names: &Names,
    current: bool,
    live: &Set,
) -> Result<(), NoMem>
    requires { length live.now ≡ length names.now }
    ensures { OnOk result (out.new.items ≡ out.old.items
        ++ spell (OfState current (map (name_at names.now) (members live.now)))) }
{
    out.extend_from_slice(word_of(current))?;
    push_set(alloc, out, names, live)?;
    out.extend_from_slice(b"\n")?;
    Ok(())
}

// Returns the first word of the line of a state.
fn word_of(current: bool) -> &'static [u8]
    ensures { result.now ≡ state_word current }
{
    if current { b"now" } else { b"up" }
}

// Appends the lines of bundles.
fn push_bundles(alloc: Global, out: &mut Vec<u8>, names: &Names, table: &Table) -> Result<(), NoMem>
    requires { HaveBound (length names.now) table.now }
    ensures { OnOk result (out.new.items ≡ out.old.items ++ bundle_bytes names.now table.now) }
{
    for place in 0..table.len() {
        let (name, set) = table.at(place);
        push_bundle(alloc, out, names, name, set)?;
    }
    Ok(())
}
