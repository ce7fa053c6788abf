//! `status`: where services stand, by the file of a session and, while a command is under way, by
//! its run log.
ghost use Rattle.std.specs.Prelude.{◌≡◌, ◌<◌, ◌↔◌, ◌++◌, ◌∷◌, false, codes, length, map};
ghost use Rattle.std.specs.Prelude.{string_bytes, IfErr, IfOk, IsTrue, OnOk};
ghost use Rattle.std.specs.List.{list_any};
ghost use Rattle.rc_model.specs.Names.{Holds};
ghost use Rattle.rc_model.specs.Run.{after_end, after_event, after_take};
ghost use Rattle.rc_render.specs.Lines.{line};
ghost use Rattle.rc_streams.specs.Noting.{HasFailed, inner_of};
ghost use Rattle.rc_args.specs.NamedAsked.{named_ask_of};
ghost use Rattle.rc_args.specs.SessionAsked.{session_ask_of};
ghost use Rattle.rc_cli.specs.Filing.{file_named};
ghost use Rattle.rc_cli.specs.Status.{AnswersAt, AnswersShown, AnswersStatus, AnswersText};
ghost use Rattle.rc_cli.specs.Status.{AnswersTimed};
ghost use Rattle.rc_cli.specs.Status.{AreOfFile, IsShownAs, IsShownOf, IsTextOf, IsUnanswered};
ghost use Rattle.rc_cli.specs.Status.{IsUnheld, IsUpAs, run_log_of};
ghost use Rattle.rc_cli.specs.Status.{TellsStatus, ending_for, fails, line_of, lines_to};
ghost use Rattle.rc_cli.specs.Status.{standing_after, standing_word, status_of, with_times};

use crate::failures::listed;
use crate::remembered::failed_text;
use crate::sessions::{Devices, LiveFile, SessionFault, begin, spelled, tell_ended};
use crate::shown_failures::{Showing, shown_text};
use crate::since::timed_text;
use log::warn;
use rc_args::{NamedRequest, SessionRequest, Verbosity};
use rc_core::{Event, Outcome, Standing};
use rc_db::{Db, QueryFault};
use rc_names::Names;
use rc_recovery::logged_events;
use rc_render::refusal_text;
use rc_serve::ServeFault;
use rc_session::{Refusal, Session};
use rc_set::{NoMem, Set};
use rc_streams::command_log;
use rc_streams::ending::{DONE, REFUSED};
use rc_streams::messages::{MESSAGE, Messages};
use rc_streams::writing::write_answer;
use std::alloc::{AllocError, Global};
use std::io::Write;

/// A service that was asked about is not up.
const NOT_UP: u8 = 3;

/// How `status` ends.
#[derive(Clone, Copy)]
pub enum Shown {
    /// No service was named, or all that were named are up.
    Up,
    /// One that was named is not.
    NotUp,
    /// A name is unknown.
    Refused,
}

/// An answer, and how `status` ends with it.
#[derive(Drop)]
struct StatusAnswer {
    ending: Shown,
    text: Vec<u8>,
}

/// What was read of the run log beside the file of a session.
#[derive(Clone, Copy)]
pub struct RunLog<'a> {
    pub text: &'a [u8],
    /// Whether its command was cut short, if the log is of the text in the file.
    pub is_cut: bool,
}

/// What was read beside the file of a session: the text of its failures, and that of the log of its
/// commands.
#[derive(Clone, Copy)]
struct Beside<'a> {
    failed: &'a [u8],
    times: &'a [u8],
}

/// Prints where services stand, and returns the exit status: 0; 3 if a named service is not up, or
/// if only failures are wanted and there is one; 1 if a name is unknown or a text is refused; 111
/// for a failure. A service that is down is shown with its failure, if it has one, and one that a
/// command was moving which was cut short as unknown. If the file of the session does not exist, no
/// service is shown.
///
/// `live` is what stood in the file of the session, and `log` is what stood in its run log. The log
/// was read first, so the log of a command that has ended since belongs to another text, and says
/// nothing.
pub fn status_as_asked<R, W: Write, F: Write, S>(
    rt: &HostRuntime,
    request: &NamedRequest<'_>,
    base: &[u8],
    live: LiveFile<'_>,
    log: RunLog<'_>,
    devices: &mut Devices<R, W, F, S>,
) -> u8
    requires writer { HasFailed devices.old.outputs.writer → ⊥ }
    ensures told { TellsStatus base.now (named_ask_of request.now) live.entry
        (run_log_of log.entry) result (HasFailed devices.new.outputs.writer)
        (W.contents (inner_of devices.old.outputs.writer))
        (W.contents (inner_of devices.new.outputs.writer))
        (F.contents devices.old.faults) (F.contents devices.new.faults) }
    ensures unread { devices.new.reader ≡ devices.old.reader }
    ensures unkept { devices.new.outputs.keeper ≡ devices.old.outputs.keeper }
{
    let alloc = rt.alloc();
    let failed = failed_text(rt, request.session.live);
    let times = times_text(rt, &request.session);
    let beside = Beside {
        failed: &failed,
        times: &times,
    };
    let timed = timed_answer(alloc, request, base, live, log, beside);
    drop((failed, times));
    let answer = match timed {
        Ok(answer) => answer,
        Err(fault) => return tell_ended(alloc, &mut devices.faults, Err(fault)),
    };
    let status = status_of(answer.ending);
    let written = write_answer(&mut devices.outputs.writer, &answer.text);
    drop(answer);
    match written {
        Ok(()) => status,
        Err(failure) => {
            let fault = SessionFault::Failed(ServeFault::from(failure));
            tell_ended(alloc, &mut devices.faults, Err(fault))
        }
    }
}

// Returns the answer by the text of the database and those beside the file of the session.
fn timed_answer<'a>(
    alloc: Global,
    request: &NamedRequest<'_>,
    base: &[u8],
    live: LiveFile<'_>,
    log: RunLog<'_>,
    beside: Beside<'_>,
) -> Result<StatusAnswer, SessionFault<'a>>
    ensures answer { IfOk result (λ answer. AnswersTimed base.now (named_ask_of request.now)
        live.entry (run_log_of log.entry) beside.entry.failed.now beside.entry.times.now
        answer.ending answer.text.items) }
    ensures none { IfErr result (IsUnanswered base.now (named_ask_of request.now) live.entry) }
{
    let answer = match shown_answer(alloc, request, base, live, log, beside.failed) {
        Ok(answer) => answer,
        Err(fault) => return Err(fault),
    };
    let text = with_times(alloc, &answer, request.session.verbosity, beside.times);
    let ending = answer.ending;
    drop(answer);
    match text {
        Ok(text) => Ok(StatusAnswer { ending, text }),
        Err(_) => Err(SessionFault::Failed(ServeFault::Memory)),
    }
}

// Returns the lines of an answer, with the times by the log of commands if each transition is
// reported.
fn with_times(
    alloc: Global,
    answer: &StatusAnswer,
    verbosity: Verbosity,
    times: &[u8],
) -> Result<Vec<u8>, NoMem>
    ensures { IfOk result (λ text. text.items
        ≡ with_times verbosity times.now answer.now.ending answer.now.text.items) }
{
    match (verbosity, answer.ending) {
        (Verbosity::Transitions, Shown::Up | Shown::NotUp) => {
            timed_text(alloc, &answer.text, times)
        }
        _ => Vec::from_slice(alloc, &answer.text),
    }
}

// Returns the text of the log of the commands on a session, if each transition is reported, and no
// bytes otherwise. Warns if it can't be read.
fn times_text(rt: &HostRuntime, request: &SessionRequest<'_>) -> Vec<u8> {
    let (Some(path), Verbosity::Transitions) = (request.live, request.verbosity) else {
        return Vec::new(rt.alloc());
    };
    match command_log::read(rt, path) {
        Ok(Some(text)) => text,
        Ok(None) => Vec::new(rt.alloc()),
        Err(error) => {
            warn!(Messages(rt); target: MESSAGE, "{path}.log: {error}: it is left out");
            Vec::new(rt.alloc())
        }
    }
}

// Returns the exit status of an ending.
fn status_of(ending: Shown) -> u8
    ensures { result ≡ status_of ending }
{
    match ending {
        Shown::Up => DONE,
        Shown::NotUp => NOT_UP,
        Shown::Refused => REFUSED,
    }
}

// Returns the answer by the text of the database and that of the failures.
fn shown_answer<'a>(
    alloc: Global,
    request: &NamedRequest<'_>,
    base: &[u8],
    live: LiveFile<'_>,
    log: RunLog<'_>,
    failed: &[u8],
) -> Result<StatusAnswer, SessionFault<'a>>
    ensures answer { IfOk result (λ answer. AnswersShown base.now (named_ask_of request.now)
        live.entry (run_log_of log.entry) failed.now answer.ending answer.text.items) }
    ensures none { IfErr result (IsUnanswered base.now (named_ask_of request.now) live.entry) }
{
    let answer = match text_answer(alloc, request, base, live, log.text) {
        Ok(answer) => answer,
        Err(fault) => return Err(fault),
    };
    let showing = Showing {
        only: request.failed,
        is_cut: log.is_cut,
    };
    let shown = shown_of(alloc, &answer, live, failed, showing);
    drop(answer);
    match shown {
        Ok(answer) => Ok(answer),
        Err(_) => Err(SessionFault::Failed(ServeFault::Memory)),
    }
}

// Returns an answer as it is shown of a file. If the file does not exist, no service is shown.
fn shown_of(
    alloc: Global,
    answer: &StatusAnswer,
    live: LiveFile<'_>,
    failed: &[u8],
    showing: Showing,
) -> Result<StatusAnswer, NoMem>
    ensures { IfOk result (λ shown. IsShownOf live.entry showing.only showing.is_cut failed.now
        answer.now.ending answer.now.text.items shown.ending shown.text.items) }
{
    match live {
        LiveFile::Missing => unheld(alloc, answer, showing.only),
        LiveFile::Text(_) | LiveFile::Unread(_) => with_failures(alloc, answer, failed, showing),
    }
}

// Returns an answer of a session whose file does not exist. If `only`, nothing but failures is
// shown, and there is none.
fn unheld(alloc: Global, answer: &StatusAnswer, only: bool) -> Result<StatusAnswer, NoMem>
    ensures { IfOk result (λ shown. IsUnheld only answer.now.ending answer.now.text.items
        shown.ending shown.text.items) }
{
    let ending = answer.ending;
    if matches!(ending, Shown::Refused) {
        let text = Vec::from_slice(alloc, &answer.text)?;
        return Ok(StatusAnswer { ending, text });
    }
    let ending = if only { Shown::Up } else { ending };
    Ok(StatusAnswer {
        ending,
        text: Vec::new(alloc),
    })
}

// Returns an answer as it is shown with the failures of a text.
fn with_failures(
    alloc: Global,
    answer: &StatusAnswer,
    failed: &[u8],
    showing: Showing,
) -> Result<StatusAnswer, NoMem>
    ensures { IfOk result (λ shown. IsShownAs showing.only showing.is_cut failed.now
        answer.now.ending answer.now.text.items shown.ending shown.text.items) }
{
    let (ending, text) = (answer.ending, &answer.text);
    if matches!(ending, Shown::Refused) {
        let text = Vec::from_slice(alloc, text)?;
        return Ok(StatusAnswer { ending, text });
    }
    let failures = listed(alloc, failed)?;
    let shown = shown_text(alloc, text, &failures, showing);
    drop(failures);
    let text = shown?;
    let ending = if showing.only {
        ending_for(&text)
    } else {
        ending
    };
    Ok(StatusAnswer { ending, text })
}

// Returns the ending of an answer that shows nothing but failures.
fn ending_for(text: &[u8]) -> Shown
    ensures { result ≡ ending_for text.now }
{
    if text.is_empty() {
        Shown::Up
    } else {
        Shown::NotUp
    }
}

// Returns the answer by the text of the database.
fn text_answer<'a>(
    alloc: Global,
    request: &NamedRequest<'_>,
    base: &[u8],
    live: LiveFile<'_>,
    log: &[u8],
) -> Result<StatusAnswer, SessionFault<'a>>
    ensures answer { IfOk result (λ answer. AnswersText base.now (named_ask_of request.now)
        live.entry log.now answer.ending answer.text.items) }
    ensures none { IfErr result (IsUnanswered base.now (named_ask_of request.now) live.entry) }
{
    let db = match spelled(alloc, Some(base), &[]) {
        Ok((db, _none)) => db,
        Err(fault) => return Err(fault),
    };
    let session = match begin(alloc, db, &request.session, live) {
        Ok(session) => session,
        Err(fault) => return Err(fault),
    };
    let live = file_named(&request.session, live);
    let answer = session_answer(alloc, &session, live, log, &request.names);
    drop(session);
    match answer {
        Ok(answer) => Ok(answer),
        Err(_) => Err(SessionFault::Failed(ServeFault::Memory)),
    }
}

// Returns what stood in the named file, or `Missing` if no file is named.
fn file_named<'a>(request: &SessionRequest<'_>, live: LiveFile<'a>) -> LiveFile<'a>
    ensures { result ≡ file_named (session_ask_of request.now).live live.entry }
{
    match request.live {
        Some(_) => live,
        None => LiveFile::Missing,
    }
}

// Returns the answer from where a session stands and from what its run log says.
fn session_answer(
    alloc: Global,
    session: &Session,
    live: LiveFile<'_>,
    log: &[u8],
    names: &[String],
) -> Result<StatusAnswer, NoMem>
    requires closed { session.now.begun ≡ false }
    ensures { IfOk result (λ answer. AnswersAt session.now.database session.now.line live.entry
        log.now (map string_bytes names.now) answer.ending answer.text.items) }
{
    let events = events_of(alloc, session.db(), live, log)?;
    let answer = answer_after(alloc, session, &events, names);
    drop(events);
    answer
}

// Returns the events that the run log beside a file states.
fn events_of(alloc: Global, db: &Db, live: LiveFile<'_>, log: &[u8]) -> Result<Vec<Event>, NoMem>
    ensures { IfOk result (λ events. AreOfFile db.now live.entry log.now events.items) }
{
    match live {
        LiveFile::Text(bytes) => logged_events(alloc, db.names(), bytes, log),
        LiveFile::Missing | LiveFile::Unread(_) => Ok(Vec::new(alloc)),
    }
}

// Returns the answer from where a session stands after the given events.
fn answer_after(
    alloc: Global,
    session: &Session,
    events: &[Event],
    names: &[String],
) -> Result<StatusAnswer, NoMem>
    requires closed { session.now.begun ≡ false }
    ensures { IfOk result (λ answer. AnswersStatus session.now.database session.now.line events.now
        (map string_bytes names.now) answer.ending answer.text.items) }
{
    let _states = session.journal();
    if names.is_empty() {
        return all_answer(alloc, session.db(), session.live(), events);
    }
    match session.db().selected(alloc, session.table(), names) {
        Ok(wanted) => {
            let answer = wanted_answer(alloc, session.db(), session.live(), &wanted, events);
            drop(wanted);
            answer
        }
        Err(QueryFault::Unknown(place)) => {
            let text = refusal_text(alloc, names, Refusal::Unknown(place))?;
            Ok(StatusAnswer {
                ending: Shown::Refused,
                text,
            })
        }
        Err(_) => Err(AllocError),
    }
}

// Returns the answer about all services.
fn all_answer(alloc: Global, db: &Db, live: &Set, events: &[Event]) -> Result<StatusAnswer, NoMem>
    requires live { length live.now ≡ length db.now.names }
    ensures { IfOk result (λ answer. (answer.ending ≡ Shown.Up) × IsTextOf db.now live.now
        events.now (λ s. s < length db.now.names) answer.text.items) }
{
    let all = all_of(alloc, db.names())?;
    let text = lines_of(alloc, db.names(), live, &all, events);
    drop(all);
    Ok(StatusAnswer {
        ending: Shown::Up,
        text: text?,
    })
}

// Returns the answer about the wanted services.
fn wanted_answer(
    alloc: Global,
    db: &Db,
    live: &Set,
    wanted: &Set,
    events: &[Event],
) -> Result<StatusAnswer, NoMem>
    requires live { length live.now ≡ length db.now.names }
    requires wanted { length wanted.now ≡ length db.now.names }
    ensures text { IfOk result (λ answer. answer.text.items ≡ lines_to db.now.names wanted.now
        live.now events.now (length db.now.names)) }
    ensures ending { IfOk result (λ answer. IsUpAs answer.ending wanted.now live.now events.now) }
{
    let ending = ending_of(live, wanted, events);
    let text = lines_of(alloc, db.names(), live, wanted, events)?;
    Ok(StatusAnswer { ending, text })
}

/// Returns the set of all services.
pub(crate) fn all_of(alloc: Global, names: &Names) -> Result<Set, NoMem>
    ensures bound { IfOk result (λ all. length all ≡ length names.now) }
    ensures members { IfOk result (λ all. Holds all (λ s. s < length names.now)) }
{
    let mut all = Set::empty(alloc, names.len())?;
    for id in 0..names.len() {
        all.insert(id);
    }
    Ok(all)
}

// Returns the ending of an answer about the wanted services.
fn ending_of(live: &Set, wanted: &Set, events: &[Event]) -> Shown
    requires { length live.now ≡ length wanted.now }
    ensures { IsUpAs result wanted.now live.now events.now }
{
    for id in 0..wanted.bound() {
        if wanted.contains(id) && !is_up(live.contains(id), events, id) {
            return Shown::NotUp;
        }
    }
    Shown::Up
}

// Returns true if a service is up and no transition of it failed.
fn is_up(live: bool, events: &[Event], s: u16) -> bool
    ensures { IsTrue result ↔ (standing_word (list_any (fails s) events.now)
        (standing_after live events.now s) ≡ codes "up") }
{
    word_of(live, events, s) == b"up".as_slice()
}

// Returns the lines of the wanted services.
fn lines_of(
    alloc: Global,
    names: &Names,
    live: &Set,
    wanted: &Set,
    events: &[Event],
) -> Result<Vec<u8>, NoMem>
    requires live { length live.now ≡ length names.now }
    requires bound { length wanted.now ≡ length names.now }
    ensures { IfOk result (λ text. text.items ≡ lines_to names.now wanted.now
        live.now events.now (length names.now)) }
{
    let mut text = Vec::new(alloc);
    for id in 0..names.len() {
        add_service(&mut text, names, id, live, wanted, events)?;
    }
    Ok(text)
}

// Appends the line of a service, if it is wanted.
fn add_service(
    text: &mut Vec<u8>,
    names: &Names,
    id: u16,
    live: &Set,
    wanted: &Set,
    events: &[Event],
) -> Result<(), NoMem>
    requires id { id < length names.now }
    requires live { length live.now ≡ length names.now }
    requires wanted { length wanted.now ≡ length names.now }
    ensures { OnOk result (text.new.items ≡ text.old.items
        ++ line_of names.now wanted.now live.now events.now id) }
{
    if !wanted.contains(id) {
        return Ok(());
    }
    let word = word_of(live.contains(id), events, id);
    add_line(text, names.name_of(id).text().as_bytes(), word)
}

// Appends a line of two words.
fn add_line(text: &mut Vec<u8>, name: &[u8], word: &[u8]) -> Result<(), NoMem>
    ensures { OnOk result (text.new.items ≡ text.old.items ++ line (name.now ++ 32 ∷ word.now)) }
{
    text.extend_from_slice(name)?;
    text.push(b' ')?;
    text.extend_from_slice(word)?;
    text.push(b'\n')?;
    Ok(())
}

// Returns the word for a service after the given events. `live` is true if it was live before them.
fn word_of(live: bool, events: &[Event], s: u16) -> &'static [u8]
    ensures { result.now ≡ standing_word (list_any (fails s) events.now)
        (standing_after live events.now s) }
{
    standing_word(has_failed(events, s), standing_after(live, events, s))
}

// Returns true if a transition of a service failed in the given events.
fn has_failed(events: &[Event], s: u16) -> bool
    ensures { result ≡ list_any (fails s) events.now }
{
    events.iter().any(|event| fails(s, *event))
}

// Returns the word for where a service stands, or `failed` if a transition of it failed.
fn standing_word(failed: bool, standing: Standing) -> &'static [u8]
    ensures { result.now ≡ standing_word failed standing }
{
    match (failed, standing) {
        (true, _) => b"failed",
        (false, Standing::Down) => b"down",
        (false, Standing::Rising) => b"rising",
        (false, Standing::Up) => b"up",
        (false, Standing::Sinking) => b"sinking",
    }
}

// Returns true if an event says that a transition of the service has failed.
fn fails(s: u16, event: Event) -> bool
    ensures { result ≡ fails s event }
{
    match event {
        Event::Done(_, other, outcome) => other == s && outcome != Outcome::Ok,
        Event::Take(..) | Event::Stop(..) => false,
    }
}

// Returns the standing of a service after the given events.
fn standing_after(live: bool, events: &[Event], s: u16) -> Standing
    ensures { result ≡ standing_after live events.now s }
{
    let mut standing = if live { Standing::Up } else { Standing::Down };
    for event in events {
        standing = after_event(s, standing, *event);
    }
    standing
}

// Returns the standing of a service after one more event.
fn after_event(s: u16, standing: Standing, event: Event) -> Standing
    ensures { result ≡ after_event s standing event }
{
    match event {
        Event::Take(_, other) if other == s => after_take(standing),
        Event::Done(_, other, outcome) if other == s => after_end(outcome == Outcome::Ok, standing),
        _ => standing,
    }
}

// Returns the standing of a service once it is taken.
fn after_take(standing: Standing) -> Standing
    ensures { result ≡ after_take standing }
{
    match standing {
        Standing::Down => Standing::Rising,
        Standing::Up => Standing::Sinking,
        moving => moving,
    }
}

// Returns the standing of a service once its transition has ended, with success or without.
fn after_end(well: bool, standing: Standing) -> Standing
    ensures { result ≡ after_end well standing }
{
    match (standing, well) {
        (Standing::Rising, true) | (Standing::Sinking, false) => Standing::Up,
        (Standing::Rising, false) | (Standing::Sinking, true) => Standing::Down,
        (still, _) => still,
    }
}
