//! Queries of the sample database.

use crate::samples::{DB, LOG, NET, ROOT, WEB, holds};
use rc_db::{Db, QueryFault, Which};
use rc_graph::Way;
use rc_names::Name;
use rc_select::{Plan, PlanFault, Request, plan};
use rc_set::{NoMem, Set};
use std::alloc::{AllocError, Global};

/// What is asked of the database.
#[derive(Clone, Copy)]
pub enum Query {
    List,
    Contents,
    Script,
    ServiceScript,
    Pipeline,
    Atomics,
    Dependencies,
    AllDependencies,
    Selected,
    ServiceCopy,
}

/// Returns true if a query answers what is due. The names of the queries that have some are `site`.
pub fn is_answer(alloc: Global, db: &Db, query: Query, words: &[String]) -> Result<bool, NoMem> {
    match query {
        Query::List => is_listed(alloc, db),
        Query::Script => has_script(alloc, db),
        Query::ServiceScript | Query::ServiceCopy => has_text(alloc, db, query),
        Query::Contents => are_ids(db.contents(alloc, "site"), &[4]),
        Query::Pipeline => are_ids(db.pipeline(alloc, "web"), &[1, 4]),
        Query::Selected => is_selected(alloc, db, words),
        _ => are_ids(named(alloc, db, query, words), due(query)),
    }
}

fn named(alloc: Global, db: &Db, query: Query, words: &[String]) -> Result<Vec<u16>, QueryFault> {
    match query {
        Query::Dependencies => db.dependencies(alloc, words, Way::Raise),
        Query::AllDependencies => db.all_dependencies(alloc, words, Way::Raise),
        _ => db.atomics(alloc, words),
    }
}

fn due(query: Query) -> &'static [u16] {
    match query {
        Query::Dependencies => &[0, 1],
        Query::AllDependencies => &[0, 1, 2, 3, 4],
        _ => &[4],
    }
}

/// Returns true if the answer is the given services.
fn are_ids(answer: Result<Vec<u16>, QueryFault>, wanted: &[u16]) -> Result<bool, NoMem> {
    match answer {
        Ok(ids) => Ok(ids.as_slice() == wanted),
        Err(QueryFault::Memory) => Err(AllocError),
        Err(_) => Ok(false),
    }
}

fn is_listed(alloc: Global, db: &Db) -> Result<bool, NoMem> {
    match db.list(alloc, Which::All) {
        Ok(names) => Ok(are_all(&names)),
        Err(_) => Err(AllocError),
    }
}

/// The names of the sample.
const NAMES: [&str; 6] = ["db", "log", "net", "root", "site", "web"];

fn are_all(names: &[&Name]) -> bool {
    for (name, text) in names.iter().zip(&NAMES) {
        if name.text() != *text {
            return false;
        }
    }
    names.len() == NAMES.len()
}

fn has_script(alloc: Global, db: &Db) -> Result<bool, NoMem> {
    match db.script(alloc, "net", Way::Raise) {
        Ok(text) => Ok(text.as_str() == "true\n"),
        Err(QueryFault::Memory) => Err(AllocError),
        Err(_) => Ok(false),
    }
}

/// Returns true if the first oneshot has the right text by itself, or if a copy of it is the same.
fn has_text(alloc: Global, db: &Db, query: Query) -> Result<bool, NoMem> {
    if db.names().len() <= NET {
        return Ok(false);
    }
    let service = db.service(NET);
    if let Query::ServiceCopy = query {
        return Ok(service.copy(alloc)?.same(service));
    }
    let text = service.script(alloc, Way::Raise)?;
    Ok(text.as_str() == "true\n")
}

fn is_selected(alloc: Global, db: &Db, words: &[String]) -> Result<bool, NoMem> {
    match db.selected(alloc, db.table(), words) {
        Ok(set) => Ok(set.bound() == 5 && holds(&set, &[WEB])),
        Err(QueryFault::Memory) => Err(AllocError),
        Err(_) => Ok(false),
    }
}

/// Returns true if a request would bring `root` down as far as it may go.
pub fn is_planned(alloc: Global, db: &Db, up: &Set, request: &Request) -> Result<bool, NoMem> {
    let graph = db.graph();
    if up.bound() != graph.len() || up.bound() != db.names().len() || !graph.closed(up) {
        return Ok(false);
    }
    match plan(alloc, db, db.table(), up, request) {
        Ok(plan) => Ok(is_fall_of_root(&plan)),
        Err(PlanFault::Memory) => Err(AllocError),
        Err(_) => Ok(false),
    }
}

/// Returns true if a plan is the one by which `root` would go down where all are up. The services
/// that need it go down, and it is kept, since it is essential.
pub fn is_fall_of_root(plan: &Plan) -> bool {
    holds(plan.opening(), &[DB, LOG, NET, ROOT, WEB])
        && holds(plan.lower(), &[DB, NET, WEB])
        && plan.raise().is_empty()
        && holds(plan.kept(), &[ROOT])
}
