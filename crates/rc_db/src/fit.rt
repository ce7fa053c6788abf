ghost use Rattle.std.specs.Prelude.{◌≡◌, ◌≢◌, ◌<◌, ◌↔◌, ℕ, length, All, IsTrue, IfSome, IfNone};
ghost use Rattle.std.specs.Bool.{OnTrue};
ghost use Rattle.rc_model.specs.Graph.{Needs};
ghost use Rattle.rc_model.specs.Database.{HasLimits, HaveBound, IsTable, AreApart, Feeds};
ghost use Rattle.rc_model.specs.Database.{FitTogether, IsDatabase, IsKind};
ghost use Rattle.rc_db.specs.Parts.{database_of};

use crate::named::has_name;
use crate::parts::Parts;
use crate::service::Service;
use crate::table::Table;
use rc_graph::Graph;
use rc_names::{Kind, Names};

/// Returns true if parts fit together, so that they make a database.
pub(crate) fn fit_together(parts: &Parts) -> bool
    ensures fit { IsTrue result ↔ FitTogether (database_of parts.now) }
    ensures database { OnTrue result (IsDatabase (database_of parts.now)) }
{
    // The order is there because no service reaches itself.
    let _order = parts.graph.order();
    let count = parts.names.len();
    if parts.services.len() != count as usize {
        return false;
    }
    if parts.graph.len() != count {
        return false;
    }
    if !are_below(&parts.table, count) {
        return false;
    }
    if !are_services(&parts.services) {
        return false;
    }
    if !all_feed_needed_longruns(parts) {
        return false;
    }
    are_apart(&parts.names, &parts.table)
}

/// Returns true if all sets of a table have the given bound.
fn are_below(table: &Table, bound: u16) -> bool
    ensures bounds { IsTrue result ↔ HaveBound bound table.now }
    ensures table { IsTable table.now }
{
    for place in 0..table.len() {
        let (_, set) = table.at(place);
        if set.bound() != bound {
            return false;
        }
    }
    true
}

/// Returns true if none of the services is a bundle.
fn are_services(services: &[Service]) -> bool
    ensures services { IsTrue result ↔ All (λ s. s.kind ≢ Kind.Bundle) services.now }
    ensures limits { OnTrue result (All HasLimits services.now) }
{
    for service in services {
        if service.kind == Kind::Bundle {
            return false;
        }
    }
    true
}

/// Returns true if each service that writes for another writes for a longrun that it needs.
fn all_feed_needed_longruns(parts: &Parts) -> bool
    requires { length parts.now.services.items ≡ length parts.now.graph }
    ensures { IsTrue result ↔ ((s t : ℕ) → Feeds (database_of parts.now) s t →
        IsKind (database_of parts.now) t Kind.Longrun × Needs parts.now.graph s t) }
{
    for s in 0..parts.graph.len() {
        if !feeds_a_needed_longrun(parts, s) {
            return false;
        }
    }
    true
}

/// Returns true if a service writes for none, or writes for a longrun that it needs.
fn feeds_a_needed_longrun(parts: &Parts, s: u16) -> bool
    requires bound { length parts.now.services.items ≡ length parts.now.graph }
    requires service { s < length parts.now.graph }
    ensures { IsTrue result ↔ ((t : ℕ) → Feeds (database_of parts.now) s t →
        IsKind (database_of parts.now) t Kind.Longrun × Needs parts.now.graph s t) }
{
    match producer_of(parts, s) {
        None => true,
        Some(t) => is_longrun(parts, t) && is_needed(&parts.graph, s, t),
    }
}

/// Returns the service that a service writes for, if there is one.
fn producer_of(parts: &Parts, s: u16) -> Option<u16>
    requires { s < length parts.now.services.items }
    ensures some { IfSome result (λ t. Feeds (database_of parts.now) s t) }
    ensures none { IfNone result ((t : ℕ) → Feeds (database_of parts.now) s t → ⊥) }
{
    parts.services[s as usize].producer_for
}

/// Returns true if a service needs another.
fn is_needed(graph: &Graph, s: u16, t: u16) -> bool
    requires { s < length graph.now }
    ensures { IsTrue result ↔ Needs graph.now s t }
{
    graph.needs(s).contains(&t)
}

/// Returns true if a number is that of a longrun.
fn is_longrun(parts: &Parts, t: u16) -> bool
    ensures { IsTrue result ↔ IsKind (database_of parts.now) t Kind.Longrun }
{
    match parts.services.get(t as usize) {
        None => false,
        Some(service) => service.is_longrun(),
    }
}

/// Returns true if no bundle has the name of a service.
fn are_apart(names: &Names, table: &Table) -> bool
    ensures { IsTrue result ↔ AreApart names.now table.now }
{
    for place in 0..table.len() {
        let (name, _) = table.at(place);
        if has_name(names, name.text()) {
            return false;
        }
    }
    true
}
