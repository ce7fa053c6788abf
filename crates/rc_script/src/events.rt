//! Event lines.
ghost use Rattle.std.specs.Prelude.{◌≡◌, map};
ghost use Rattle.rc_script.specs.Events.{place_of, plain_outcome, outcome_in, take_in, done_in};
ghost use Rattle.rc_script.specs.Events.{stop_in, event_by, event_in};

use crate::numbers::{byte_in, moment_in, status_in};
use rc_core::{Event, Outcome};
use rc_names::Names;

/// Parses an event from the words of a line, over the services of the given names.
pub(crate) fn event_in(names: &Names, words: &[&str]) -> Option<Event>
    ensures { result ≡ event_in names.now (map (λ word. word.now) words.now) }
{
    match words {
        [verb, worker, object, others @ ..] => event_by(names, verb, worker, object, others),
        _ => None,
    }
}

/// Parses an event from its verb and the words after it.
fn event_by(names: &Names, verb: &str, worker: &str, object: &str, words: &[&str]) -> Option<Event>
    ensures { result ≡ event_by names.now verb.now worker.now object.now
        (map (λ word. word.now) words.now) }
{
    match verb {
        "take" => take_in(names, worker, object, words),
        "done" => done_in(names, worker, object, words),
        "stop" => stop_in(worker, object, words),
        _ => None,
    }
}

/// Parses the event of a worker that takes a service.
fn take_in(names: &Names, worker: &str, name: &str, words: &[&str]) -> Option<Event>
    ensures { result ≡ take_in names.now worker.now name.now (map (λ word. word.now) words.now) }
{
    if !words.is_empty() {
        return None;
    }
    let worker = byte_in(worker)?;
    let service = service_in(names, name)?;
    Some(Event::Take(worker, service))
}

/// Parses the event of a worker that is done with a service.
fn done_in(names: &Names, worker: &str, name: &str, words: &[&str]) -> Option<Event>
    ensures { result ≡ done_in names.now worker.now name.now (map (λ word. word.now) words.now) }
{
    let worker = byte_in(worker)?;
    let service = service_in(names, name)?;
    let outcome = outcome_in(words)?;
    Some(Event::Done(worker, service, outcome))
}

/// Parses the event of a worker that stops the run at a moment.
fn stop_in(worker: &str, moment: &str, words: &[&str]) -> Option<Event>
    ensures { result ≡ stop_in worker.now moment.now (map (λ word. word.now) words.now) }
{
    if !words.is_empty() {
        return None;
    }
    let worker = byte_in(worker)?;
    let moment = moment_in(moment)?;
    Some(Event::Stop(worker, moment))
}

/// Parses the outcome of a transition from the words that state it.
fn outcome_in(words: &[&str]) -> Option<Outcome>
    ensures { result ≡ outcome_in (map (λ word. word.now) words.now) }
{
    match words {
        [word] => plain_outcome(word),
        [word, number] if *word == "failed" => Some(Outcome::Failed(status_in(number)?)),
        _ => None,
    }
}

/// Parses the outcome of a transition from the one word that states it.
fn plain_outcome(word: &str) -> Option<Outcome>
    ensures { result ≡ plain_outcome word.now }
{
    match word {
        "ok" => Some(Outcome::Ok),
        "timeout" => Some(Outcome::TimedOut),
        "nostart" => Some(Outcome::NotStarted),
        _ => None,
    }
}

/// Returns the id of the service with the given name.
fn service_in(names: &Names, name: &str) -> Option<u16>
    ensures { result ≡ place_of names.now name.now }
{
    let _known = names.len();
    names.find(name)
}
