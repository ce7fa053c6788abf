//! Calls that alter nothing.

ghost use Rattle.std.specs.Prelude.{◌≡◌, false, length};

use crate::growths::asked::{are_listed, are_renames, are_words};
use crate::samples::{ALL, LOG, NET, ROOT, has_ids, holds, is_same_line};
use rc_board::Pad;
use rc_bundle::Edit;
use rc_db::Db;
use rc_graph::Graph;
use rc_line::Line;
use rc_livetext::{FormFault, LiveFault, read_form, read_live, write_live};
use rc_names::{Name, NameFault, Names, is_name};
use rc_select::{Plan, between, plan_up};
use rc_session::Session;
use rc_set::{NoMem, Set};
use rc_update::{Conversion, Difference, Update, carry, difference_of, names_of, staying};
use std::alloc::{AllocError, Global};

/// What a call makes.
#[derive(Clone, Copy)]
pub enum Value {
    SetEmpty,
    SetCopy,
    SetIds,
    NameRead,
    NameOf,
    NameCopy,
    GraphShare,
    UpOf,
    DownOf,
    TableCopy,
    EditBetween,
    EditCopy,
    PlanBetween,
    PlanUp,
    LineCopy,
    LineState,
    WriteLive,
    ReadLive,
    LiveForm,
    PadNew,
    Carry,
    Staying,
    NamesOf,
    Difference,
    Transitions,
    Renames,
}

/// Makes a value, and returns true if it is right.
pub fn is_value(alloc: Global, session: &Session, value: Value, text: &[u8]) -> Result<bool, NoMem>
    requires { session.now.begun ≡ false }
{
    match value {
        Value::SetEmpty | Value::SetCopy | Value::SetIds => is_set(alloc, session.live(), value),
        Value::NameRead => is_read_name(alloc),
        Value::NameOf => is_same_name(alloc, "pair"),
        Value::NameCopy => is_copied(alloc, session.db().names()),
        Value::GraphShare | Value::UpOf | Value::DownOf | Value::PlanBetween => {
            is_on_graph(alloc, session.db().graph(), session.live(), value)
        }
        Value::PlanUp => match session.table().get("site") {
            Some(site) => brings_all_up(alloc, session.db().graph(), session.live(), site),
            None => Ok(false),
        },
        Value::PadNew => Ok(Pad::new(alloc, 5)?.room() == 11),
        Value::Carry | Value::Staying | Value::NamesOf | Value::Difference => {
            is_updated(alloc, session.db(), session.live(), value)
        }
        Value::Transitions => are_listed(alloc),
        Value::Renames => are_renames(alloc),
        _ => is_on_session(alloc, session, value, text),
    }
}

fn is_set(alloc: Global, set: &Set, value: Value) -> Result<bool, NoMem> {
    match value {
        Value::SetEmpty => {
            let mut made = Set::empty(alloc, set.bound())?;
            Ok(is_filled(&mut made, set))
        }
        Value::SetCopy => Ok(set.copy(alloc)?.same(set)),
        _ => has_ids(alloc, set, &ALL),
    }
}

/// Returns true if an empty set becomes equal to another, and then empty again.
fn is_filled(made: &mut Set, set: &Set) -> bool
    requires { length made.old ≡ length set.now }
{
    made.join(set);
    let is_same = made.same(set) && made.len() == set.len();
    if !is_same || made.is_empty() || made.bound() == 0 {
        return false;
    }
    let is_altered = made.remove(0) && !made.contains(0) && made.insert(0);
    made.without(set);
    is_altered && made.is_empty()
}

fn is_read_name(alloc: Global) -> Result<bool, NoMem> {
    match Name::read(alloc, "pair") {
        Ok(name) => Ok(name.text() == "pair"),
        Err(NameFault::Memory) => Err(AllocError),
        Err(_) => Ok(false),
    }
}

fn is_same_name(alloc: Global, text: &str) -> Result<bool, NoMem> {
    if !is_name(text) {
        return Ok(false);
    }
    Ok(Name::of(alloc, text)?.text() == text)
}

/// Returns true if a call of `rc_update` is right for an update from a database to itself, with all
/// services live. A service that is restarted goes down with those that need it.
fn is_updated(alloc: Global, db: &Db, live: &Set, value: Value) -> Result<bool, NoMem> {
    let restart = [Conversion {
        old: b"net",
        new: b"net",
        restart: true,
    }];
    let names = db.names();
    if live.bound() != names.len() || names.len() <= NET || !db.graph().closed(live) {
        return Ok(false);
    }
    match value {
        Value::Carry => is_carried(&carry(alloc, db, db, &restart, live)?),
        Value::Staying => Ok(holds(&staying(alloc, db, db, &restart, live)?, &[LOG, ROOT])),
        Value::NamesOf => {
            let names = names_of(alloc, names, live)?;
            Ok(are_words(&names, &["db", "log", "net", "root", "web"]))
        }
        _ => {
            let found = difference_of(alloc, db, NET, &restart, db)?;
            let other = difference_of(alloc, db, NET, &[], db)?;
            Ok(found == Some(Difference::Restart) && other.is_none())
        }
    }
}

/// Returns true if one service is lowered, two stay, and all are raised.
fn is_carried(update: &Update) -> Result<bool, NoMem> {
    Ok(
        are_words(&update.lower, &["net"])
            && holds(&update.kept, &[LOG, ROOT])
            && are_words(&update.raise, &["db", "log", "net", "root", "web"]),
    )
}

fn is_copied(alloc: Global, names: &Names) -> Result<bool, NoMem> {
    if names.is_empty() {
        return Ok(false);
    }
    Ok(names.name_of(0).copy(alloc)?.text() == "db")
}

fn is_on_graph(alloc: Global, graph: &Graph, set: &Set, value: Value) -> Result<bool, NoMem> {
    if set.bound() != graph.len() || !graph.closed(set) {
        return Ok(false);
    }
    match value {
        Value::GraphShare => Ok(graph.share()?.len() == 5),
        Value::PlanBetween => {
            let plan = between(alloc, graph, set, set)?;
            Ok(plan.lower().is_empty() && plan.raise().is_empty() && holds(plan.opening(), &ALL))
        }
        Value::UpOf => Ok(holds(&graph.up_of(alloc, set)?, &ALL)),
        _ => Ok(holds(&graph.down_of(alloc, set)?, &ALL)),
    }
}

/// Returns true if bringing the given services up where nothing is up brings all up.
fn brings_all_up(alloc: Global, graph: &Graph, up: &Set, wanted: &Set) -> Result<bool, NoMem> {
    if up.bound() != graph.len() || wanted.bound() != graph.len() || !graph.closed(up) {
        return Ok(false);
    }
    let plan = plan_up(alloc, graph, up, wanted)?;
    Ok(is_rise_of_all(&plan))
}

fn is_rise_of_all(plan: &Plan) -> bool {
    plan.opening().is_empty()
        && plan.lower().is_empty()
        && plan.kept().is_empty()
        && holds(plan.raise(), &ALL)
}

fn is_on_session(alloc: Global, session: &Session, value: Value, text: &[u8]) -> Result<bool, NoMem>
    requires { session.now.begun ≡ false }
{
    let (db, table) = (session.db(), session.table());
    match value {
        Value::TableCopy => Ok(table.copy(alloc)?.same(table)),
        Value::EditBetween => Ok(Edit::between(alloc, db.table(), table)?.len() == 1),
        Value::WriteLive => Ok(write_live(alloc, session)?.as_slice() == text),
        Value::ReadLive => is_read(alloc, text, db),
        Value::LiveForm => is_form(alloc, text),
        _ => is_on_line(alloc, session.journal(), value),
    }
}

fn is_read(alloc: Global, text: &[u8], db: &Db) -> Result<bool, NoMem> {
    let read = read_live(alloc, text, db);
    let is_right = match &read {
        Ok((line, count)) => Ok(line.states() == 3 && *count == 3),
        Err(LiveFault::Memory) => Err(AllocError),
        Err(_) => Ok(false),
    };
    drop(read);
    is_right
}

/// Returns true if a text says two states before the current one.
fn is_form(alloc: Global, text: &[u8]) -> Result<bool, NoMem> {
    let read = read_form(alloc, text);
    let is_right = match &read {
        Ok((form, rest)) => Ok(form.before.len() == 2 && rest.is_empty()),
        Err(FormFault::Memory) => Err(AllocError),
        Err(_) => Ok(false),
    };
    drop(read);
    is_right
}

fn is_on_line(alloc: Global, line: &Line, value: Value) -> Result<bool, NoMem>
    requires { line.now.is_open ≡ false }
{
    if line.states() < 3 {
        return Ok(false);
    }
    match value {
        Value::LineCopy => Ok(is_same_line(&line.copy(alloc)?, line)),
        Value::EditCopy => Ok(line.entry(1).edit().copy(alloc)?.len() == 1),
        _ => {
            let state = line.state(alloc, 0)?;
            Ok(state.0.is_empty() && state.1.len() == 1)
        }
    }
}
