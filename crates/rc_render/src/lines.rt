//! Lines of names.
ghost use Rattle.std.specs.Prelude.{◌≡◌, ◌++◌, ◌<◌, ◌∷◌, length, map, All, IfOk, OnOk};
ghost use Rattle.rc_model.specs.Names.{Has};
ghost use Rattle.rc_render.specs.Lines.{IsLineOf, line, name_lines, names_at, names_line};

use rc_names::{Name, Names};
use rc_set::{NoMem, Set};
use std::alloc::Global;

/// Returns a line of a word and the names of a set, or an empty text if the set is empty.
pub(crate) fn set_line(
    alloc: Global,
    word: &[u8],
    names: &Names,
    set: &Set,
) -> Result<Vec<u8>, NoMem>
    requires { length set.now ≡ length names.now }
    ensures { IfOk result (λ text. IsLineOf word.now names.now (Has set.now) text.items) }
{
    let ids = set.ids(alloc)?;
    line_of(alloc, word, names, &ids)
}

/// Returns a line of a word and the given names, or an empty text if there are none.
fn line_of(alloc: Global, word: &[u8], names: &Names, ids: &[u16]) -> Result<Vec<u8>, NoMem>
    requires { All (λ id. id < length names.now) ids.now }
    ensures { IfOk result (λ text. text.items ≡ names_line word.now (names_at names.now ids.now)) }
{
    let mut text = Vec::new(alloc);
    if ids.is_empty() {
        return Ok(text);
    }
    text.extend_from_slice(word)?;
    for id in ids {
        add_name(&mut text, names.name_of(*id))?;
    }
    text.push(b'\n')?;
    Ok(text)
}

/// Appends a space and a name to a text.
fn add_name(text: &mut Vec<u8>, name: &Name) -> Result<(), NoMem>
    ensures { OnOk result (text.new.items ≡ text.old.items ++ 32 ∷ name.now) }
{
    text.push(b' ')?;
    text.extend_from_slice(name.text().as_bytes())
}

/// Returns the names of services by their ids, one per line.
pub fn id_lines(alloc: Global, names: &Names, ids: &[u16]) -> Result<Vec<u8>, NoMem>
    requires { All (λ id. id < length names.now) ids.now }
    ensures { IfOk result (λ text. text.items ≡ name_lines (names_at names.now ids.now)) }
{
    let mut text = Vec::new(alloc);
    for id in ids {
        add_line(&mut text, names.name_of(*id))?;
    }
    Ok(text)
}

/// Returns names, one per line.
pub fn name_lines(alloc: Global, names: &[&Name]) -> Result<Vec<u8>, NoMem>
    ensures { IfOk result (λ text. text.items ≡ name_lines (map (λ name. name.now) names.now)) }
{
    let mut text = Vec::new(alloc);
    for name in names {
        add_line(&mut text, name)?;
    }
    Ok(text)
}

/// Appends a name and a newline to a text.
fn add_line(text: &mut Vec<u8>, name: &Name) -> Result<(), NoMem>
    ensures { OnOk result (text.new.items ≡ text.old.items ++ line name.now) }
{
    text.extend_from_slice(name.text().as_bytes())?;
    text.push(b'\n')?;
    Ok(())
}
