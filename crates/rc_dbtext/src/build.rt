//! The names, the graph and the services of a database, made of what a text says.
ghost use Rattle.std.specs.Prelude.{◌≡◌, ◌<◌, ◌≤◌, ◌↔◌, ◌⊎◌, ℕ, List, length, All, Contains, IfOk};
ghost use Rattle.std.specs.Prelude.{IfSome, IsTrue, MatchOption, Some, None, slice_get};
ghost use Rattle.std.specs.Prelude.{string_bytes};
ghost use Rattle.std.specs.List.{AllZip};
ghost use Rattle.std.specs.Option.{option_map};
ghost use Rattle.rc_model.specs.Names.{AreNames, IsInByteOrder};
ghost use Rattle.rc_model.specs.Graph.{Needs};
ghost use Rattle.rc_dbtext.specs.Text.{IsHead, IsServiceText};
ghost use Rattle.rc_graph.specs.Cycle.{IsCycle};
ghost use Rattle.rc_dbtext.specs.Meaning.{service_names};
ghost use Rattle.rc_dbtext.specs.Parts.{AreNeedsOf, FeedsKnown, IsNamed, IsServiceOf};
ghost use Rattle.rc_dbtext.specs.Spelling.{head_of};

use crate::lexer::NameWord;
use crate::syntax::{BodyForm, Head, ServiceForm};
use rc_db::{NoMem, Service};
use rc_graph::{Draft, Graph, GraphFault};
use rc_names::Names;
use std::alloc::{AllocError, Global};

/// Creates the table of the names of services, which ascend.
pub(crate) fn names_of(alloc: Global, services: &[ServiceForm<'_>]) -> Result<Names, NoMem>
    requires few { length services.now ≤ 4096 }
    requires sorted { IsInByteOrder (service_names services.now) }
    ensures { IfOk result (λ names. names ≡ service_names services.now) }
{
    let mut names = Names::new(alloc);
    for service in services {
        let Ok(name) = name_of(service).copy(alloc) else {
            drop(names);
            return Err(AllocError);
        };
        let Ok(_) = names.append(name) else {
            drop(names);
            return Err(AllocError);
        };
    }
    Ok(names)
}

// Returns the name of a service.
fn name_of<'a, 'b>(service: &'b ServiceForm<'a>) -> &'b NameWord<'a>
    ensures { result.now ≡ service.now.head.name }
{
    &service.head.name
}

/// Creates the draft of which service needs which. Returns `None` if a service needs what is no
/// service.
pub(crate) fn draft_of(
    alloc: Global,
    services: &[ServiceForm<'_>],
    names: &Names,
) -> Result<Option<Draft>, NoMem>
    requires names { names.now ≡ service_names services.now }
    requires sorted { All (λ s. IsInByteOrder s.needs) services.now }
    ensures { IfOk result (λ draft. MatchOption draft
        (All (λ s. All (Contains names.now) s.needs) services.now → ⊥)
        (λ draft. All (λ s. All (Contains names.now) s.needs) services.now
        × AreNeedsOf names.now services.now draft)) }
{
    let mut draft = Draft::new(alloc, names.len())?;
    for s in 0..services.len() {
        let service = &services[s];
        if !add_needs(&mut draft, s as u16, service.needs.as_slice(), names)? {
            return Ok(None);
        }
    }
    // Each list ascends.
    let _count = draft.len();
    Ok(Some(draft))
}

// Adds the needs of one service to the draft, and looks up each once. Returns true if all of them
// are names.
fn add_needs(
    draft: &mut Draft,
    service: u16,
    needs: &[NameWord<'_>],
    names: &Names,
) -> Result<bool, NoMem>
    requires bound { length draft.old ≡ length names.now }
    requires service { service < length draft.old }
    ensures bound { length draft.new ≡ length draft.old }
    ensures known { IfOk result (λ known. IsTrue known ↔ All (Contains names.now) needs.now) }
    ensures pairs { IfOk result (λ known. IsTrue known → (s t : ℕ) → Needs draft.new s t ↔
        (Needs draft.old s t ⊎ ((s ≡ service) × IsNamed names.now needs.now t))) }
{
    // The names ascend, and are few.
    let _count = names.len();
    let mut next = 0;
    for need in needs {
        let Some(id) = names.find_near(need.text(), next) else {
            return Ok(false);
        };
        draft.need(service, id)?;
        next = id + 1;
    }
    Ok(true)
}

/// Returns the graph of a draft, or `None` if services need each other in a circle.
pub(crate) fn graph_of(draft: Draft) -> Result<Option<Graph>, NoMem>
    ensures { IfOk result (λ graph. MatchOption graph
        ((cycle : List ℕ) × IsCycle draft cycle) (λ graph. graph ≡ draft)) }
{
    match draft.finish() {
        Ok(graph) => Ok(Some(graph)),
        Err(GraphFault::Cycle(_)) => Ok(None),
        Err(GraphFault::Memory) => Err(AllocError),
    }
}

// Returns the id of a text that is among the names. Looks for it at `place` first.
fn id_of(text: &NameWord<'_>, names: &Names, place: u16) -> u16
    requires { Contains names.now text.now }
    ensures found { slice_get names.now result ≡ Some text.now }
    ensures names { AreNames names.now }
{
    let _count = names.len();
    match names.find_near(text.text(), place) {
        Some(id) => id,
        None => unreachable!(),
    }
}

/// Creates the services that a text describes, one by one.
pub(crate) fn services_of(
    alloc: Global,
    forms: &[ServiceForm<'_>],
    names: &Names,
) -> Result<Vec<Service>, NoMem>
    requires texts { All IsServiceText forms.now }
    requires fed { All (λ s. FeedsKnown names.now s.body) forms.now }
    ensures { IfOk result (λ services. AllZip (IsServiceOf names.now) forms.now services.items) }
{
    let mut services = Vec::new(alloc);
    for form in forms {
        let service = service_of(alloc, form, names)?;
        services.push(service)?;
    }
    Ok(services)
}

// Creates the service that a text describes.
fn service_of(alloc: Global, form: &ServiceForm<'_>, names: &Names) -> Result<Service, NoMem>
    requires text { IsServiceText form.now }
    requires fed { FeedsKnown names.now form.now.body }
    ensures { IfOk result (IsServiceOf names.now form.now) }
{
    match &form.body {
        BodyForm::Longrun(fed) => {
            let producer_for = fed_id(fed, names);
            Ok(service_with(&form.head, None, None, producer_for))
        }
        BodyForm::Oneshot(up, down) => {
            let up = String::from_str(alloc, up)?;
            let down = text_once_more(alloc, down)?;
            Ok(service_with(&form.head, Some(up), down, None))
        }
    }
}

// Returns the id of the longrun that is fed, if there is one. Its name is among the names.
fn fed_id(fed: &Option<NameWord<'_>>, names: &Names) -> Option<u16>
    requires { IfSome fed.now (Contains names.now) }
    ensures { MatchOption fed.now (result ≡ None)
        (λ name. (id : ℕ) × (result ≡ Some id) × (slice_get names.now id ≡ Some name)) }
{
    match fed {
        Some(name) => Some(id_of(name, names, 0)),
        None => None,
    }
}

// Returns a copy of the text, if there is one.
fn text_once_more(alloc: Global, text: &Option<&str>) -> Result<Option<String>, NoMem>
    ensures { IfOk result (λ copy. option_map string_bytes copy
        ≡ option_map (λ text. text.now) text.now) }
{
    match text {
        Some(text) => Ok(Some(String::from_str(alloc, text)?)),
        None => Ok(None),
    }
}

// Creates the service of a first line, with its texts and the longrun that it feeds.
fn service_with(
    head: &Head<'_>,
    text_up: Option<String>,
    text_down: Option<String>,
    producer_for: Option<u16>,
) -> Service
    requires { IsHead head.now }
    ensures head { head_of head.now.name result ≡ head.now }
    ensures up { result.text_up ≡ option_map string_bytes text_up }
    ensures down { result.text_down ≡ option_map string_bytes text_down }
    ensures fed { result.producer_for ≡ producer_for }
{
    let limit_up = head.limit_up;
    let limit_down = head.limit_down;
    Service {
        kind: head.kind,
        essential: head.essential,
        limit_up,
        limit_down,
        text_up,
        text_down,
        producer_for,
    }
}
