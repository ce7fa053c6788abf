//! Lines of names after a text.
ghost use Rattle.std.specs.Prelude.{◌≡◌, [], ◌++◌, ◌∷◌, slice_index_or, IfOk, OnOk};
ghost use Rattle.rc_render.specs.Lines.{names_at, names_line};
ghost use Rattle.rc_render.specs.Names.{ok_line, set_line};

use rc_names::Names;
use rc_set::{NoMem, Set};

/// Appends the last line of an answer, which says that the command was carried out.
pub fn with_ok(mut text: Vec<u8>) -> Result<Vec<u8>, NoMem>
    ensures { IfOk result (λ whole. whole.items ≡ text.items ++ ok_line) }
{
    text.extend_from_slice(b"ok\n")?;
    Ok(text)
}

/// Appends a line of a word and names to a text, or nothing if there are no names.
pub(crate) fn add_line(
    text: &mut Vec<u8>,
    word: &[u8],
    names: &Names,
    ids: &[u16],
) -> Result<(), NoMem>
    ensures { OnOk result (text.new.items ≡ text.old.items
        ++ names_line word.now (names_at names.now ids.now)) }
{
    if ids.is_empty() {
        return Ok(());
    }
    text.extend_from_slice(word)?;
    for id in ids {
        add_word(text, name_or_none(names, *id))?;
    }
    text.push(b'\n')?;
    Ok(())
}

/// Appends a line of a word and the names of a set to a text.
pub(crate) fn add_set_line(
    text: &mut Vec<u8>,
    word: &[u8],
    names: &Names,
    set: &Set,
) -> Result<(), NoMem>
    ensures { OnOk result (text.new.items ≡ text.old.items ++ set_line word.now names.now set.now) }
{
    text.extend_from_slice(word)?;
    for id in 0..names.len().min(set.bound()) {
        if set.contains(id) {
            add_word(text, names.name_of(id).text().as_bytes())?;
        }
    }
    text.push(b'\n')?;
    Ok(())
}

/// Appends a space and a word to a text.
fn add_word(text: &mut Vec<u8>, word: &[u8]) -> Result<(), NoMem>
    ensures { OnOk result (text.new.items ≡ text.old.items ++ 32 ∷ word.now) }
{
    text.push(b' ')?;
    text.extend_from_slice(word)
}

/// Returns the name of a service, or an empty name if there is no such service.
fn name_or_none(names: &Names, id: u16) -> &[u8]
    ensures { result.now ≡ slice_index_or names.now id [] }
{
    if id < names.len() {
        names.name_of(id).text().as_bytes()
    } else {
        b""
    }
}
