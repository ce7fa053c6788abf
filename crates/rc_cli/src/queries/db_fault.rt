//! The faults of a query of a database, as those of the command, and what helps after them.
ghost use Rattle.std.specs.Prelude.{◌≡◌, [], slice_get, unwrap_or, MatchOption};
ghost use Rattle.rc_args.specs.Query.{names_in, question_of};
ghost use Rattle.rc_cli.specs.DbFaults.{IsFromQuery, IsSortWord};

use crate::fault::{Fault, unknown_name};
use rc_args::Query;
use rc_db::QueryFault;
use rc_streams::Failure;
use std::alloc::Global;

/// Converts a fault of a query into one of the command, with the name that nothing has.
pub(crate) fn query_fault(alloc: Global, fault: QueryFault, query: &Query<'_>) -> Fault
    ensures { IsFromQuery fault (names_in (question_of query.now)) result }
{
    match fault {
        QueryFault::Unknown(place) => unknown_name(alloc, name_at(query, place).as_bytes()),
        QueryFault::NotAtomic => Fault::NotAtomic,
        QueryFault::NotBundle => Fault::NotBundle,
        QueryFault::NotLongrun => Fault::NotLongrun,
        QueryFault::NotOneshot => Fault::NotOneshot,
        QueryFault::Memory => Fault::Device(Failure::Memory),
    }
}

/// Returns the hint that follows the word of a query's fault: the sort of name that the query is
/// about. Returns `None` for any other word.
pub fn query_hint(word: &str) -> Option<&'static str>
    ensures { MatchOption result (IsSortWord word.now → ⊥) (λ hint. IsSortWord word.now) }
{
    match word {
        "NotAtomic" => Some("the name is a bundle's, and a service is asked about"),
        "NotBundle" => Some("the name is a service's, and a bundle is asked about"),
        "NotLongrun" => Some("the name is a oneshot's, and a longrun is asked about"),
        "NotOneshot" => Some("the name is a longrun's, and a oneshot is asked about"),
        _ => None,
    }
}

// Returns the name at a place among those of a query, or an empty name if there is none.
fn name_at<'q>(query: &'q Query<'_>, place: usize) -> &'q str
    ensures { result.now
        ≡ unwrap_or (slice_get (names_in (question_of query.entry.now)) place) [] }
{
    match query {
        Query::OfName(_, name) if place == 0 => name,
        Query::OfNames(_, names) => match names.get(place) {
            Some(name) => name.as_str(),
            None => "",
        },
        _ => "",
    }
}
