//! Steps of a session over the sample.

ghost use Rattle.std.specs.Prelude.{◌≡◌, false, IfOk};

use crate::samples::databases::{name_of, sample, words_of};
use crate::samples::sets::{DB, LOG, NET, ROOT, WEB};
use rc_core::{Event, Outcome};
use rc_select::{Mode, Request};
use rc_session::{Session, Step};
use rc_set::NoMem;
use std::alloc::Global;
use std::test::Fail;

/// The order in which one worker brings all up.
const RISE: [u16; 5] = [ROOT, NET, DB, LOG, WEB];

/// The order in which it brings all down.
const FALL: [u16; 5] = [WEB, LOG, DB, NET, ROOT];

/// What a step does.
enum Act {
    /// Brings `site` up, within a limit if that is not 0.
    Up(u32),
    /// Brings `net` up.
    Net,
    /// Brings `log` up alone, beside what is essential. It has no events.
    Prune,
    /// Brings `site` up within a limit. Only `root` came up.
    Cut,
    /// Undoes a change, by taking these services, or an edit.
    Undo(&'static [u16]),
    /// Redoes a change or an edit.
    Redo(&'static [u16]),
    /// Plans to bring `root` down, beside what is essential. It has no events.
    Down,
    /// Defines the bundle `pair`.
    Add,
    /// Defines the bundle `next`, also where there is one.
    Next,
    /// Removes `site`.
    Delete,
}

/// Returns the act that a word of a row says.
fn act_of(word: &str) -> Option<Act> {
    match word {
        "up" => Some(Act::Up(0)),
        "limited" => Some(Act::Up(5)),
        "net" => Some(Act::Net),
        "prune" => Some(Act::Prune),
        "cut" => Some(Act::Cut),
        "undo" => Some(Act::Undo(&FALL)),
        "redo" => Some(Act::Redo(&RISE)),
        "back" => Some(Act::Undo(&[])),
        "on" => Some(Act::Redo(&[])),
        "down" => Some(Act::Down),
        "add" => Some(Act::Add),
        "next" => Some(Act::Next),
        "delete" => Some(Act::Delete),
        _ => None,
    }
}

/// Returns the steps that the given words say.
pub fn steps_of(alloc: Global, words: &str) -> Result<Vec<Step>, NoMem> {
    let mut steps = Vec::new(alloc);
    for word in words.split(' ') {
        if let Some(act) = act_of(word) {
            steps.push(step_of(alloc, act)?)?;
        }
    }
    Ok(steps)
}

fn step_of(alloc: Global, act: Act) -> Result<Step, NoMem> {
    match act {
        Act::Up(limit) => up_site(alloc, limit, &RISE),
        Act::Net => up_all(alloc, &["net"], 0, &[ROOT, NET]),
        Act::Prune => change_of(alloc, Mode::Up, true, "log"),
        Act::Down => change_of(alloc, Mode::Down, false, "root"),
        Act::Cut => up_site(alloc, 5, &[ROOT]),
        Act::Undo(order) => Ok(Step::Undo(0, run_of(alloc, order)?)),
        Act::Redo(order) => Ok(Step::Redo(0, run_of(alloc, order)?)),
        Act::Add => add_bundle(alloc, "pair", false),
        Act::Next => add_bundle(alloc, "next", true),
        Act::Delete => Ok(Step::Delete(words_of(alloc, &["site"])?, false)),
    }
}

/// Returns the events of a run in which one worker takes the given services and ends them with
/// success.
fn run_of(alloc: Global, services: &[u16]) -> Result<Vec<Event>, NoMem> {
    let mut events = Vec::new(alloc);
    for service in services {
        events.push(Event::Take(1, *service))?;
        events.push(Event::Done(1, *service, Outcome::Ok))?;
    }
    Ok(events)
}

/// Creates a change that brings `site` up, in which one worker takes the given services.
pub fn up_site(alloc: Global, limit: u32, order: &[u16]) -> Result<Step, NoMem> {
    up_all(alloc, &["site"], limit, order)
}

/// Creates a change that brings the given names up, in which one worker takes the given services.
pub fn up_all(alloc: Global, names: &[&str], limit: u32, order: &[u16]) -> Result<Step, NoMem> {
    let request = Request::plain(Mode::Up, words_of(alloc, names)?, limit);
    Ok(Step::Change(request, run_of(alloc, order)?))
}

/// Creates a change of a name without events.
fn change_of(alloc: Global, mode: Mode, prune: bool, name: &str) -> Result<Step, NoMem> {
    let mut request = Request::plain(mode, words_of(alloc, &[name])?, 0);
    request.prune = prune;
    Ok(Step::Change(request, Vec::new(alloc)))
}

/// Creates a step that defines a bundle of two services.
fn add_bundle(alloc: Global, name: &str, force: bool) -> Result<Step, NoMem> {
    let contents = words_of(alloc, &["db", "log"])?;
    Ok(Step::Add(name_of(alloc, name)?, contents, force))
}

/// Creates a session over the sample, in which the steps that the given words say are played. After
/// the word `three` it has at most three states.
pub fn session_after(alloc: Global, words: &str) -> Result<Session, Fail>
    ensures { IfOk result (λ session. session.begun ≡ false) }
{
    let db = sample(alloc)?;
    let mut session = if words.starts_with("three") {
        Session::with_bound(alloc, db, 3)?
    } else {
        Session::new(alloc, db)?
    };
    match set_up(alloc, &mut session, words) {
        Ok(()) => Ok(session),
        Err(short) => {
            drop(session);
            Err(Fail::from(short))
        }
    }
}

fn set_up(alloc: Global, session: &mut Session, words: &str) -> Result<(), NoMem>
    requires { session.old.begun ≡ false }
    ensures { session.new.begun ≡ false }
{
    let steps = steps_of(alloc, words)?;
    let played = session.play(alloc, &steps);
    drop(steps);
    match played {
        Ok(_) => Ok(()),
        Err(short) => Err(short),
    }
}
