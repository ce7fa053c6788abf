//! What stands: what is live, and the bundles.
ghost use Rattle.std.specs.Prelude.{◌≡◌, ◌++◌, IfOk, OnOk};
ghost use Rattle.rc_render.specs.Names.{live_text, bundle_line, bundles_text};

use crate::told::add_set_line;
use rc_db::Table;
use rc_names::{Name, Names};
use rc_set::{NoMem, Set};
use std::alloc::Global;

/// Returns the line of what is live.
pub fn live_text(alloc: Global, names: &Names, live: &Set) -> Result<Vec<u8>, NoMem>
    ensures { IfOk result (λ text. text.items ≡ live_text names.now live.now) }
{
    let mut text = Vec::new(alloc);
    add_set_line(&mut text, b"live", names, live)?;
    Ok(text)
}

/// Returns the lines of bundles, in byte order.
pub fn bundles_text(alloc: Global, names: &Names, table: &Table) -> Result<Vec<u8>, NoMem>
    ensures { IfOk result (λ text. text.items ≡ bundles_text names.now table.now) }
{
    let mut text = Vec::new(alloc);
    for place in 0..table.len() {
        let (name, set) = table.at(place);
        add_bundle(&mut text, names, name, set)?;
    }
    Ok(text)
}

/// Appends the line of a bundle to a text.
fn add_bundle(text: &mut Vec<u8>, names: &Names, name: &Name, set: &Set) -> Result<(), NoMem>
    ensures { OnOk result (text.new.items ≡ text.old.items
        ++ bundle_line names.now (name.now, set.now)) }
{
    text.extend_from_slice(b"bundle ")?;
    add_set_line(text, name.text().as_bytes(), names, set)
}
