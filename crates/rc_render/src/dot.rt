//! The picture of a database, in the language of graphviz.
ghost use Rattle.std.specs.Prelude.{◌≡◌, ◌<◌, ◌++◌, ◌∷◌, [], false, length, slice_index_or};
ghost use Rattle.std.specs.Prelude.{All, IfOk, OnOk, MatchOption};
ghost use Rattle.std.specs.List.{flat_map, range_with_len};
ghost use Rattle.rc_render.specs.DotText.{bundle_lines, dot_text, edge_line, edge_lines, look};
ghost use Rattle.rc_render.specs.DotText.{marks, member_end, need_end, node_line, in_quotes};
ghost use Rattle.rc_render.specs.DotText.{quoted_byte, service_lines, shape};
ghost use Rattle.rc_render.specs.Lines.{names_at};
ghost use Rattle.rc_render.specs.Names.{names_in};

use rc_db::{Db, Table};
use rc_names::{Kind, Name, Names};
use rc_set::{NoMem, Set};
use std::alloc::Global;

/// Returns the dependency graph as text. Longruns are boxes, and oneshots are ellipses. Essential
/// services have a second outline, and live services are filled. Bundles are folders with dashed
/// edges to their members.
pub fn dot_text(alloc: Global, db: &Db, live: &Set) -> Result<Vec<u8>, NoMem>
    ensures { IfOk result (λ text. text.items ≡ dot_text db.now live.now) }
{
    let mut text = Vec::from_slice(alloc, b"digraph undorc {\n")?;
    add_services(&mut text, db, live)?;
    add_bundles(&mut text, db.names(), db.table())?;
    text.extend_from_slice(b"}\n")?;
    Ok(text)
}

/// Appends the services to a text.
fn add_services(text: &mut Vec<u8>, db: &Db, live: &Set) -> Result<(), NoMem>
    ensures { OnOk result (text.new.items ≡ text.old.items
        ++ flat_map (service_lines db.now live.now) (range_with_len 0 (length db.now.names))) }
{
    for id in 0..db.names().len() {
        add_service(text, db, live, id)?;
    }
    Ok(())
}

/// Appends a service to a text, and the edges to its dependencies.
fn add_service(text: &mut Vec<u8>, db: &Db, live: &Set, id: u16) -> Result<(), NoMem>
    requires { id < length db.now.names }
    ensures { OnOk result (text.new.items ≡ text.old.items ++ service_lines db.now live.now id) }
{
    let names = db.names();
    let name = names.name_of(id);
    let service = db.service(id);
    add_node(text, name, service.kind, service.essential, has(live, id))?;
    add_needs(text, names, name, db.graph().needs(id))?;
    Ok(())
}

/// Returns true if a set contains an id. The id may be any, also one that is out of bounds.
fn has(set: &Set, id: u16) -> bool
    ensures { result ≡ slice_index_or set.now id false }
{
    id < set.bound() && set.contains(id)
}

/// Appends the edges from a service to its dependencies to a text.
fn add_needs(text: &mut Vec<u8>, names: &Names, name: &Name, needs: &[u16]) -> Result<(), NoMem>
    requires { All (λ need. need < length names.now) needs.now }
    ensures { OnOk result (text.new.items ≡ text.old.items
        ++ edge_lines need_end name.now (names_at names.now needs.now)) }
{
    for need in needs {
        add_edge(text, name, names.name_of(*need), b"\n")?;
    }
    Ok(())
}

/// Appends the bundles to a text.
fn add_bundles(text: &mut Vec<u8>, names: &Names, table: &Table) -> Result<(), NoMem>
    ensures { OnOk result (text.new.items ≡ text.old.items
        ++ flat_map (bundle_lines names.now) table.now) }
{
    for place in 0..table.len() {
        let (name, set) = table.at(place);
        add_node(text, name, Kind::Bundle, false, false)?;
        add_members(text, names, name, set)?;
    }
    Ok(())
}

/// Appends the edges from a bundle to its members to a text.
fn add_members(text: &mut Vec<u8>, names: &Names, name: &Name, set: &Set) -> Result<(), NoMem>
    ensures { OnOk result (text.new.items ≡ text.old.items
        ++ edge_lines member_end name.now (names_in names.now set.now)) }
{
    for id in 0..names.len().min(set.bound()) {
        if set.contains(id) {
            add_edge(text, name, names.name_of(id), b" [style=dashed]\n")?;
        }
    }
    Ok(())
}

/// Appends the node of a name to a text.
fn add_node(
    text: &mut Vec<u8>,
    name: &Name,
    kind: Kind,
    essential: bool,
    live: bool,
) -> Result<(), NoMem>
    ensures { OnOk result (text.new.items ≡ text.old.items
        ++ node_line name.now (look kind essential live)) }
{
    text.extend_from_slice(b"  ")?;
    add_quoted(text, name)?;
    text.extend_from_slice(b" [shape=")?;
    text.extend_from_slice(shape(kind))?;
    text.extend_from_slice(marks(essential, live))?;
    text.extend_from_slice(b"]\n")
}

/// Returns the shape of a kind.
fn shape(kind: Kind) -> &'static [u8]
    ensures { result.now ≡ shape kind }
{
    match kind {
        Kind::Oneshot => b"ellipse",
        Kind::Longrun => b"box",
        Kind::Bundle => b"folder",
    }
}

/// Returns the attributes that mark essential services and live ones.
fn marks(essential: bool, live: bool) -> &'static [u8]
    ensures { result.now ≡ marks essential live }
{
    match (essential, live) {
        (false, false) => b"",
        (true, false) => b",peripheries=2",
        (false, true) => b",style=filled",
        (true, true) => b",peripheries=2,style=filled",
    }
}

/// Appends an edge to a text.
fn add_edge(text: &mut Vec<u8>, from: &Name, to: &Name, end: &[u8]) -> Result<(), NoMem>
    ensures { OnOk result (text.new.items ≡ text.old.items
        ++ edge_line end.now from.now to.now) }
{
    text.extend_from_slice(b"  ")?;
    add_quoted(text, from)?;
    text.extend_from_slice(b" -> ")?;
    add_quoted(text, to)?;
    text.extend_from_slice(end)
}

/// Appends a name between quotes to a text.
fn add_quoted(text: &mut Vec<u8>, name: &Name) -> Result<(), NoMem>
    ensures { OnOk result (text.new.items ≡ text.old.items ++ in_quotes name.now) }
{
    text.push(b'"')?;
    for byte in name.text().as_bytes() {
        add_byte(text, *byte)?;
    }
    text.extend_from_slice(b"\"")
}

/// Appends a byte to a text, as it stands between quotes.
fn add_byte(text: &mut Vec<u8>, byte: u8) -> Result<(), NoMem>
    ensures { OnOk result (text.new.items ≡ text.old.items ++ quoted_byte byte) }
{
    match escaped(byte) {
        Some(escape) => text.extend_from_slice(escape),
        None => text.extend_from_slice(&[byte]),
    }
}

/// Returns the escape of a byte that can't stand between quotes as it is, or `None` for any other
/// byte.
fn escaped(byte: u8) -> Option<&'static [u8]>
    ensures { MatchOption result (quoted_byte byte ≡ byte ∷ [])
        (λ escape. quoted_byte byte ≡ escape.now) }
{
    match byte {
        b'"' => Some(b"\\\""),
        b'\\' => Some(b"\\\\"),
        b'&' => Some(b"&amp;"),
        _ => None,
    }
}
