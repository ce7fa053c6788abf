//! Runs `db`, `plan` and `replay` on the database of `-b` or at the front of standard input.
use crate::fault::OpenFault;
use crate::frontend::databases::Place;
use crate::frontend::files::base_at;
use crate::frontend::hints::{
    Seen, behind_session, tell_failure, tell_file, tell_no_generation, tell_no_history, told_errors,
};
use crate::frontend::terminal::Typed;
use crate::texts::LiveText;
use rc_args::Query as Question;
use rc_cli::queries::{Query, run_query};
use rc_historytext::database_at;
use rc_streams::Noted;
use std::io;

/// Runs a query on the file of `-b`, and returns its status: 0, 1 for a refusal, or 111 for a
/// failure. If the file of `-l` has databases of its own, the query runs on the present one of
/// them, or on that of `-k`. Without `-k` a picture shows the session in the file of `-l`; if that
/// is missing, no service is up.
pub fn query(rt: &HostRuntime, query: Query<'_, '_>, file: Option<&str>) -> u8 {
    match LiveText::read(rt, live_of(query)) {
        Ok(live) => {
            let status = match generation_of(query) {
                Some((path, place)) => query_at(rt, query, path, place, &live),
                None => query_present(rt, query, file, &live),
            };
            drop(live);
            status
        }
        Err(OpenFault::History(path, fault)) => tell_no_history(rt, path, fault),
        Err(fault) => {
            drop(fault);
            tell_failure(rt, "Memory")
        }
    }
}

/// Runs a query on the database of the present generation, or on the file of `-b` if the file of
/// `-l` has no database.
fn query_present(
    rt: &HostRuntime,
    query: Query<'_, '_>,
    file: Option<&str>,
    live: &LiveText<'_>,
) -> u8 {
    match (live.database(), live_of(query)) {
        (Some(base), Some(path)) => {
            let place = Place::Session(path, None);
            query_on(rt, query, place, Some(base), live.found())
        }
        _ => query_in(rt, query, file, live.found()),
    }
}

/// Runs a query on the database of a generation in the file of `-l`.
fn query_at(
    rt: &HostRuntime,
    query: Query<'_, '_>,
    path: &str,
    generation: u32,
    live: &LiveText<'_>,
) -> u8 {
    if let Err(error) = live.found() {
        return tell_file(rt, path, error);
    }
    let Some(history) = live.history() else {
        return tell_no_generation(rt, path, generation, 0);
    };
    match database_at(rt.alloc(), history, generation) {
        Ok(held) => match held.database {
            Some(base) => {
                let place = Place::Session(path, Some(generation));
                query_on(rt, query, place, Some(base), live.found())
            }
            None => tell_no_generation(rt, path, generation, held.count),
        },
        Err(fault) => tell_no_history(rt, path, fault),
    }
}

/// Runs a query on the file of `-b`.
fn query_in(
    rt: &HostRuntime,
    query: Query<'_, '_>,
    file: Option<&str>,
    live: &io::Result<Option<Vec<u8>>>,
) -> u8 {
    match base_at(rt, file) {
        Ok(base) => {
            let status = query_on(rt, query, Place::of(file), base.as_deref(), live);
            drop(base);
            status
        }
        Err(error) => tell_file(rt, file.unwrap_or(""), &error),
    }
}

/// Runs a query on the bytes of both files.
fn query_on(
    rt: &HostRuntime,
    query: Query<'_, '_>,
    place: Place<'_>,
    base: Option<&[u8]>,
    live: &io::Result<Option<Vec<u8>>>,
) -> u8 {
    let text = match live {
        Ok(text) => text.as_deref(),
        Err(error) => return tell_file(rt, live_of(query).unwrap_or(""), error),
    };
    let session = shown_by(query);
    let shown = if session.is_some() { text } else { None };
    let mut typed = Typed::new(rt, Some(input_of(query, base.is_some())));
    let mut told = told_errors(rt);
    let query = showing(query, shown);
    let reader = &mut Noted::new(&mut typed);
    let writer = &mut Noted::new(rt.stdout());
    let status = run_query(rt.alloc(), &query, base, reader, writer, &mut told);
    let seen = Seen::new(place, base, typed.kept());
    behind_session(rt, session, live, None, &seen, &told);
    drop(told);
    drop(typed);
    status
}

/// Returns the query with the text of the session that it shows.
fn showing<'a, 'r>(query: Query<'a, 'r>, shown: Option<&'a [u8]>) -> Query<'a, 'r> {
    match query {
        Query::Db(request, _) => Query::Db(request, shown),
        other => other,
    }
}

/// Returns the file of `-l`, if the query shows the session in it: a picture does without `-k`.
fn shown_by<'r>(query: Query<'_, 'r>) -> Option<&'r str> {
    match query {
        Query::Db(request, _) => match (&request.query, request.generation) {
            (Question::Dot, None) => request.live,
            _ => None,
        },
        Query::Plan(_) | Query::Replay => None,
    }
}

/// Returns the file of `-l` and the generation of `-k`, if the query names one.
fn generation_of<'r>(query: Query<'_, 'r>) -> Option<(&'r str, u32)> {
    match query {
        Query::Db(request, _) => match (request.live, request.generation) {
            (Some(path), Some(generation)) => Some((path, generation)),
            _ => None,
        },
        Query::Plan(_) | Query::Replay => None,
    }
}

/// Returns the file of `-l`, if the query names one.
fn live_of<'r>(query: Query<'_, 'r>) -> Option<&'r str> {
    match query {
        Query::Db(request, _) => request.live,
        Query::Plan(_) | Query::Replay => None,
    }
}

/// Returns the name of what the query reads from standard input. If `is_file`, `-b` names the
/// database.
fn input_of(query: Query<'_, '_>, is_file: bool) -> &'static str {
    match (query, is_file) {
        (Query::Db(..), _) => "the database",
        (Query::Plan(_), true) => "the services that are up",
        (Query::Plan(_), false) => "the database and the services that are up",
        (Query::Replay, true) => "the script",
        (Query::Replay, false) => "the database and the script",
    }
}
