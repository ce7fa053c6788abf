//! Which services a controller found elsewhere than a session says, and whether a longrun is not
//! known.
ghost use Rattle.std.specs.Prelude.{◌≡◌, ◌<◌, ◌++◌, length, map, slice_index_or, string_bytes};
ghost use Rattle.std.specs.Prelude.{false, IfOk, OnOk};
ghost use Rattle.rc_cli.specs.Checking.{answer_at, is_elsewhere, is_elsewhere_at, is_unknown};
ghost use Rattle.rc_cli.specs.Checking.{is_unknown_to, name_if, names_to};

use rc_names::Names;
use rc_runner::Found;
use rc_set::{NoMem, Set};
use std::alloc::Global;

/// Returns the names of the services that are asked about and were found elsewhere: of those that
/// are up and not live (`up`), or of those that are live and down.
pub(crate) fn names_elsewhere(
    alloc: Global,
    names: &Names,
    live: &Set,
    asked: &Set,
    answers: &[Found],
    up: bool,
) -> Result<Vec<String>, NoMem>
    requires live { length live.now ≡ length names.now }
    requires asked { length asked.now ≡ length names.now }
    requires answers { length answers.now ≡ length names.now }
    ensures { IfOk result (λ list. map string_bytes list.items
        ≡ names_to up names.now asked.now live.now answers.now (length names.now)) }
{
    let mut list = Vec::new(alloc);
    for id in 0..names.len() {
        let is_one = is_elsewhere_at(up, asked, live, answers, id);
        push_name_if(alloc, &mut list, names, is_one, id)?;
    }
    Ok(list)
}

// Returns true if a service is asked about and was found elsewhere.
fn is_elsewhere_at(up: bool, asked: &Set, live: &Set, answers: &[Found], id: u16) -> bool
    requires id { id < length answers.now }
    requires live { length live.now ≡ length answers.now }
    requires asked { length asked.now ≡ length answers.now }
    ensures { result ≡ is_elsewhere_at up asked.now live.now answers.now id }
{
    asked.contains(id) && is_elsewhere(up, live.contains(id), answers[id as usize])
}

// Returns true if a service is up and not live (`up`), or live and down.
fn is_elsewhere(up: bool, live: bool, found: Found) -> bool
    ensures { result ≡ is_elsewhere up live found }
{
    match (up, found) {
        (true, Found::Up) => !live,
        (false, Found::Down) => live,
        _ => false,
    }
}

// Appends the name of a service, if it is one of those that are listed.
fn push_name_if(
    alloc: Global,
    list: &mut Vec<String>,
    names: &Names,
    is_one: bool,
    id: u16,
) -> Result<(), NoMem>
    requires { id < length names.now }
    ensures { OnOk result (map string_bytes list.new.items
        ≡ map string_bytes list.old.items ++ name_if names.now is_one id) }
{
    if is_one {
        let name = String::from_str(alloc, names.name_of(id).text())?;
        list.push(name)?;
    }
    Ok(())
}

/// Returns true if one of these longruns is not known.
pub(crate) fn has_unknown(longruns: &Set, answers: &[Found]) -> bool
    requires { length longruns.now ≡ length answers.now }
    ensures { result ≡ is_unknown_to longruns.now answers.now (length answers.now) }
{
    let mut is_unknown = false;
    for id in 0..longruns.bound() {
        if longruns.contains(id) && is_unknown_by(answers[id as usize]) {
            is_unknown = true;
        }
    }
    is_unknown
}

// Returns true if an answer says nothing.
fn is_unknown_by(found: Found) -> bool
    ensures { result ≡ is_unknown found }
{
    match found {
        Found::Up | Found::Down => false,
        Found::Unknown => true,
    }
}
