// All that is reached from one id along lists of ids.
ghost use Rattle.std.specs.Prelude.{◌≡◌, ◌≤◌, ◌<◌, ◌+◌, ◌⊎◌, ◌↔◌, ℕ, not, length, count_by, All};
ghost use Rattle.std.specs.Prelude.{Contains, IfOk, OnOk};
ghost use Rattle.rc_model.specs.Names.{Has, Holds};
ghost use Rattle.rc_model.specs.Graph.{AreServices, UpFrom};
ghost use Rattle.rc_compile.specs.Rows.{rows};
ghost use Rattle.rc_compile.specs.Walking.{Meets};

use rc_set::{NoMem, Set};
use std::alloc::Global;

// The ids that were met, and those of them whose lists are still to be followed.
#[derive(Drop)]
struct Walk {
    seen: Set,
    todo: Vec<u16>,
}

// Returns an id with all that it reaches along the lists. Follows each list at most once.
pub(crate) fn reached(alloc: Global, lists: &[Vec<u16>], start: u16) -> Result<Set, NoMem>
    requires few { length lists.now ≤ 4096 }
    requires known { AreServices (rows lists.now) }
    requires start { start < length lists.now }
    ensures bound { IfOk result (λ set. length set ≡ length lists.now) }
    ensures members { IfOk result (λ set. Holds set (UpFrom (rows lists.now) (λ s. s ≡ start))) }
{
    let mut walk = begin(alloc, lists.len() as u16, start)?;
    while let Some(at) = walk.todo.pop() {
        meet_all(&mut walk, lists[at as usize].as_slice())?;
    }
    let Walk { seen, todo: _ } = walk;
    Ok(seen)
}

// Creates a walk that has met one id.
fn begin(alloc: Global, bound: u16, start: u16) -> Result<Walk, NoMem>
    requires bound { bound ≤ 4096 }
    requires start { start < bound }
    ensures bound { IfOk result (λ walk. length walk.seen ≡ bound) }
    ensures seen { IfOk result (λ walk. Holds walk.seen (λ s. s ≡ start)) }
    ensures todo { IfOk result (λ walk. (s : ℕ) → Contains walk.todo.items s ↔ (s ≡ start)) }
{
    let mut seen = Set::empty(alloc, bound)?;
    seen.insert(start);
    let mut todo = Vec::new(alloc);
    todo.push(start)?;
    Ok(Walk { seen, todo })
}

// Meets all ids of a list.
fn meet_all(walk: &mut Walk, list: &[u16]) -> Result<(), NoMem>
    requires { All (λ t. t < length walk.old.seen) list.now }
    ensures { OnOk result
        (Meets walk.old.seen walk.old.todo.items list.now walk.new.seen walk.new.todo.items) }
{
    for t in list {
        meet(walk, *t)?;
    }
    Ok(())
}

// Meets an id. If the id is new, its list is to be followed.
fn meet(walk: &mut Walk, id: u16) -> Result<(), NoMem>
    requires { id < length walk.old.seen }
    ensures bound { length walk.new.seen ≡ length walk.old.seen }
    ensures members { Holds walk.new.seen (λ s. Has walk.old.seen s ⊎ (s ≡ id)) }
    ensures todo { OnOk result ((s : ℕ) →
        Contains walk.new.todo.items s ↔
        (Contains walk.old.todo.items s ⊎ ((s ≡ id) × (Has walk.old.seen id → ⊥)))) }
    ensures cost { OnOk result
        (count_by not walk.new.seen + length walk.new.todo.items ≤ count_by not
        walk.old.seen + length walk.old.todo.items) }
{
    if walk.seen.insert(id) {
        walk.todo.push(id)?;
    }
    Ok(())
}
