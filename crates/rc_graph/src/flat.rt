//! The lists of a table one behind the other, so that two tables are compared as two slices.

ghost use Rattle.std.specs.Prelude.{◌≡◌, IfOk};
ghost use Rattle.rc_model.specs.Graph.{AreNeeds};
ghost use Rattle.rc_graph.specs.Flat.{flat_of};
ghost use Rattle.rc_graph.specs.Rows.{rows};

use crate::graph::Row;
use rc_set::NoMem;
use std::alloc::Global;

/// Returns the lists in one list, each behind its length.
pub(crate) fn flat_of(alloc: Global, lists: &[Row]) -> Result<Vec<u16>, NoMem>
    requires { AreNeeds (rows lists.now) }
    ensures { IfOk result (λ flat. flat.items ≡ flat_of (rows lists.now)) }
{
    let mut flat = Vec::with_capacity(alloc, flat_len(lists))?;
    for list in lists {
        flat.push(list.len() as u16)?;
        flat.extend_from_slice(list.as_slice())?;
    }
    Ok(flat)
}

/// Returns the length of the flat list: one for each list, and one for each number in it.
fn flat_len(lists: &[Row]) -> usize {
    let mut len = lists.len();
    for list in lists {
        len = len.saturating_add(list.len());
    }
    len
}
