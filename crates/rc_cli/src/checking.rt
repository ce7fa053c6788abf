//! `check`: whether services are where a session says, by the answers of their controller.
ghost use Rattle.std.specs.Prelude.{◌≡◌, ◌<◌, ◌++◌, All, false, length, map};
ghost use Rattle.std.specs.Prelude.{string_bytes, IfErr, IfOk, OnOk};
ghost use Rattle.rc_args.specs.Making.{making_ask_of};
ghost use Rattle.rc_args.specs.NamedAsked.{named_ask_of};
ghost use Rattle.rc_args.specs.SessionAsked.{session_ask_of};
ghost use Rattle.rc_db.specs.QueryFaults.{IsNamesFault};
ghost use Rattle.rc_model.specs.Database.{IsKind, IsKnown};
ghost use Rattle.rc_model.specs.Names.{Has, Holds};
ghost use Rattle.rc_model.specs.declared.Kind.TheVariants.{Longrun};
ghost use Rattle.rc_render.specs.RefusalText.{refusal_text};
ghost use Rattle.rc_streams.specs.Noting.{HasFailed, inner_of};
ghost use Rattle.rc_cli.specs.Checking.{AnswersCheck, AreAsked, CanAsk, Checks, ChecksText};
ghost use Rattle.rc_cli.specs.Checking.{IsMeant, IsNamedBy, IsUnasked, IsUnchecked, IsUnmet};
ghost use Rattle.rc_cli.specs.Checking.{ShowsCheck, TellsCheck, TellsNoCheck, controller_by};
ghost use Rattle.rc_cli.specs.Checking.{finding_of, found_by, found_word, is_there, line_by};
ghost use Rattle.rc_cli.specs.Checking.{line_of, lines_to, live_word, refused_by, status_by};
ghost use Rattle.rc_cli.specs.declared.sessions.session_fault.SessionFault.TheVariants.{Failed};
ghost use Rattle.rc_serve.specs.declared.fault.ServeFault.TheVariants.{Memory};

use crate::controlled::{is_longrun, lacks_controller, name_in};
use crate::findings::{has_unknown, names_elsewhere};
use crate::sessions::{Devices, LiveFile, SessionFault, begin, spelled, tell_ended};
use crate::status::all_of;
use rc_args::{Making, NamedRequest, SessionRequest};
use rc_db::{Db, QueryFault};
use rc_names::Names;
use rc_render::refusal_text;
use rc_runner::{Found, ask, question_for};
use rc_serve::ServeFault;
use rc_session::{Refusal, Session};
use rc_set::{NoMem, Set};
use rc_streams::ending::{DONE, REFUSED};
use rc_streams::writing::write_answer;
use std::alloc::Global;
use std::io::Write;

/// A service is not known to be where the session says.
const ELSEWHERE: u8 = 3;

/// What a check found.
#[derive(Drop)]
pub struct Findings {
    /// The exit status: 0; 3 if a line is printed; 1 if a name is unknown, and then nothing is
    /// found.
    pub status: u8,
    /// What is printed.
    text: Vec<u8>,
    /// The names of the services that are live and were found down.
    pub fallen: Vec<String>,
    /// The names of the services that were found up and are not live.
    pub strays: Vec<String>,
    /// Whether a longrun is not known to be anywhere.
    pub is_unknown: bool,
}

/// The services that are asked about, and the longruns among them.
#[derive(Drop)]
pub(crate) struct Asked {
    pub all: Set,
    pub longruns: Set,
}

/// A controller that is asked.
#[derive(Clone, Copy)]
struct Asker<'r> {
    rt: &'r HostRuntime,
    words: &'r [String],
}

/// Asks the controller about services, prints those that it does not find where a session says, and
/// returns the exit status: 0; 3 if a line is printed; 1 if a name is unknown, there is no
/// controller or a text is refused; 111 for a failure. A oneshot that is not known has no line.
///
/// `live` is what stood in the file of the session. Nothing is read and nothing is kept.
pub fn check_as_asked<R, W: Write, F: Write, S>(
    rt: &HostRuntime,
    request: &NamedRequest<'_>,
    base: &[u8],
    live: LiveFile<'_>,
    devices: &mut Devices<R, W, F, S>,
) -> u8
    requires writer { HasFailed devices.old.outputs.writer → ⊥ }
    ensures told { TellsCheck base.now (named_ask_of request.now) live.entry result
        (HasFailed devices.new.outputs.writer)
        (W.contents (inner_of devices.old.outputs.writer))
        (W.contents (inner_of devices.new.outputs.writer))
        (F.contents devices.old.faults) (F.contents devices.new.faults) }
    ensures unread { devices.new.reader ≡ devices.old.reader }
    ensures unkept { devices.new.outputs.keeper ≡ devices.old.outputs.keeper }
{
    match find_as_asked(rt, request, base, live, devices) {
        Ok(findings) => {
            let status = findings.status;
            drop(findings);
            status
        }
        Err(status) => status,
    }
}

/// Asks the controller about services, prints those that it does not find where a session says, and
/// returns what it found. Returns the exit status of a refusal or a failure that is reported.
///
/// `live` is what stood in the file of the session. Nothing is read and nothing is kept.
pub fn find_as_asked<R, W: Write, F: Write, S>(
    rt: &HostRuntime,
    request: &NamedRequest<'_>,
    base: &[u8],
    live: LiveFile<'_>,
    devices: &mut Devices<R, W, F, S>,
) -> Result<Findings, u8>
    requires writer { HasFailed devices.old.outputs.writer → ⊥ }
    ensures found { IfOk result (λ findings. ShowsCheck base.now (named_ask_of request.now)
        live.entry (finding_of findings) (W.contents (inner_of devices.old.outputs.writer))
        (W.contents (inner_of devices.new.outputs.writer))
        (F.contents devices.old.faults) (F.contents devices.new.faults)) }
    ensures sound { OnOk result (HasFailed devices.new.outputs.writer → ⊥) }
    ensures fault { IfErr result (λ status. TellsNoCheck base.now (named_ask_of request.now)
        live.entry status (HasFailed devices.new.outputs.writer)
        (W.contents (inner_of devices.old.outputs.writer))
        (W.contents (inner_of devices.new.outputs.writer))
        (F.contents devices.old.faults) (F.contents devices.new.faults)) }
    ensures unread { devices.new.reader ≡ devices.old.reader }
    ensures unkept { devices.new.outputs.keeper ≡ devices.old.outputs.keeper }
{
    let findings = match text_answer(rt, request, base, live) {
        Ok(findings) => findings,
        Err(fault) => return Err(tell_ended(rt.alloc(), &mut devices.faults, Err(fault))),
    };
    match write_answer(&mut devices.outputs.writer, &findings.text) {
        Ok(()) => Ok(findings),
        Err(failure) => {
            drop(findings);
            let fault = SessionFault::Failed(ServeFault::from(failure));
            Err(tell_ended(rt.alloc(), &mut devices.faults, Err(fault)))
        }
    }
}

// Returns the answer by the text of the database.
fn text_answer<'a>(
    rt: &HostRuntime,
    request: &NamedRequest<'_>,
    base: &[u8],
    live: LiveFile<'_>,
) -> Result<Findings, SessionFault<'a>>
    ensures answer { IfOk result (λ answer. ChecksText base.now (named_ask_of request.now)
        live.entry (finding_of answer)) }
    ensures none { IfErr result (IsUnchecked base.now (named_ask_of request.now) live.entry) }
{
    let db = match spelled(rt.alloc(), Some(base), &[]) {
        Ok((db, _none)) => db,
        Err(fault) => return Err(fault),
    };
    let session = match begin(rt.alloc(), db, &request.session, live) {
        Ok(session) => session,
        Err(fault) => return Err(fault),
    };
    let answer = session_answer(rt, &session, request);
    drop(session);
    answer
}

// Returns the answer about a session, or that a name is unknown.
fn session_answer<'a>(
    rt: &HostRuntime,
    session: &Session,
    request: &NamedRequest<'_>,
) -> Result<Findings, SessionFault<'a>>
    requires closed { session.now.begun ≡ false }
    ensures answer { IfOk result (λ answer. AnswersCheck session.now.database session.now.line
        (named_ask_of request.now) (finding_of answer)) }
    ensures none { IfErr result
        (IsUnmet session.now.database session.now.line (named_ask_of request.now)) }
{
    let _states = session.journal();
    match asked_of(rt.alloc(), session, &request.names) {
        Ok(asked) => {
            let db = session.db();
            let answer = asked_answer(rt, db, session.live(), &asked, &request.session);
            drop(asked);
            answer
        }
        Err(QueryFault::Unknown(place)) => unknown_answer(rt.alloc(), &request.names, place),
        Err(_) => Err(SessionFault::Failed(ServeFault::Memory)),
    }
}

// Returns the answer that the name at a place is unknown.
fn unknown_answer<'a>(
    alloc: Global,
    names: &[String],
    place: usize,
) -> Result<Findings, SessionFault<'a>>
    ensures answer { IfOk result (λ answer. finding_of answer ≡ refused_by
        (refusal_text (map string_bytes names.now) (Refusal.Unknown place))) }
    ensures none { IfErr result (λ fault. fault ≡ Failed Memory) }
{
    match refusal_text(alloc, names, Refusal::Unknown(place)) {
        Ok(text) => Ok(Findings {
            status: REFUSED,
            text,
            fallen: Vec::new(alloc),
            strays: Vec::new(alloc),
            is_unknown: false,
        }),
        Err(_) => Err(SessionFault::Failed(ServeFault::Memory)),
    }
}

// Returns the services of these names, or all services if there is no name, and the longruns among
// them.
fn asked_of(alloc: Global, session: &Session, names: &[String]) -> Result<Asked, QueryFault>
    requires closed { session.now.begun ≡ false }
    ensures bound { IfOk result (λ asked. length asked.all ≡ length session.now.database.names) }
    ensures longruns { IfOk result (λ asked.
        length asked.longruns ≡ length session.now.database.names) }
    ensures members { IfOk result (λ asked. AreAsked session.now.database
        session.now.line.current.table (map string_bytes names.now) asked.all asked.longruns) }
    ensures known { OnOk result (All (IsKnown session.now.database.names
        session.now.line.current.table) (map string_bytes names.now)) }
    ensures fault { IfErr result (IsNamesFault session.now.database.names
        session.now.line.current.table (map string_bytes names.now)) }
{
    let all = match wanted_of(alloc, session, names) {
        Ok(all) => all,
        Err(fault) => return Err(fault),
    };
    match longruns_of(alloc, session.db(), &all) {
        Ok(longruns) => Ok(Asked { all, longruns }),
        Err(_) => {
            drop(all);
            Err(QueryFault::Memory)
        }
    }
}

// Returns the services of these names, or all services if there is no name.
fn wanted_of(alloc: Global, session: &Session, names: &[String]) -> Result<Set, QueryFault>
    requires closed { session.now.begun ≡ false }
    ensures bound { IfOk result (λ wanted. length wanted ≡ length session.now.database.names) }
    ensures members { IfOk result (λ wanted. Holds wanted (IsMeant session.now.database
        session.now.line.current.table (map string_bytes names.now))) }
    ensures known { OnOk result (All (IsKnown session.now.database.names
        session.now.line.current.table) (map string_bytes names.now)) }
    ensures fault { IfErr result (IsNamesFault session.now.database.names
        session.now.line.current.table (map string_bytes names.now)) }
{
    let _states = session.journal();
    if names.is_empty() {
        return match all_of(alloc, session.db().names()) {
            Ok(all) => Ok(all),
            Err(_) => Err(QueryFault::Memory),
        };
    }
    session.db().selected(alloc, session.table(), names)
}

// Returns the longruns of a set of services.
fn longruns_of(alloc: Global, db: &Db, wanted: &Set) -> Result<Set, NoMem>
    requires { length wanted.now ≡ length db.now.names }
    ensures bound { IfOk result (λ asked. length asked ≡ length db.now.names) }
    ensures members { IfOk result (λ asked. Holds asked
        (λ s. Has wanted.now s × IsKind db.now s Longrun)) }
{
    let mut asked = Set::empty(alloc, wanted.bound())?;
    for id in 0..wanted.bound() {
        if wanted.contains(id) && is_longrun(db, id) {
            asked.insert(id);
        }
    }
    Ok(asked)
}

// Returns the answer about services. Fails if there is a longrun and no controller.
#[tactic(auto, using(crate::proofs::CheckingLemmas::told_first, crate::proofs::CheckingLemmas::checks_by))]
fn asked_answer<'a>(
    rt: &HostRuntime,
    db: &Db,
    live: &Set,
    asked: &Asked,
    request: &SessionRequest<'_>,
) -> Result<Findings, SessionFault<'a>>
    requires live { length live.now ≡ length db.now.names }
    requires asked { length asked.now.all ≡ length db.now.names }
    requires longruns { length asked.now.longruns ≡ length db.now.names }
    ensures answer { IfOk result (λ answer. Checks db.now asked.now.all asked.now.longruns
        live.now (finding_of answer)) }
    ensures controlled { OnOk result (CanAsk (session_ask_of request.now) asked.now.longruns) }
    ensures none { IfErr result (IsUnasked db.now asked.now.longruns
        (session_ask_of request.now)) }
{
    if lacks_controller(request) {
        if let Some(first) = asked.longruns.next_from(0) {
            return Err(uncontrolled(rt.alloc(), db, first));
        }
    }
    let Ok(words) = controller_of(rt.alloc(), &request.making) else {
        return Err(SessionFault::Failed(ServeFault::Memory));
    };
    let asker = Asker { rt, words: &words };
    let answers = answers_of(&asker, db, &asked.all);
    drop(words);
    let Ok(answers) = answers else {
        return Err(SessionFault::Failed(ServeFault::Memory));
    };
    let findings = findings_of(rt.alloc(), db.names(), live, asked, &answers);
    drop(answers);
    match findings {
        Ok(findings) => Ok(findings),
        Err(_) => Err(SessionFault::Failed(ServeFault::Memory)),
    }
}

// Returns the fault that no controller is named for a longrun.
fn uncontrolled<'a>(alloc: Global, db: &Db, service: u16) -> SessionFault<'a>
    requires { service < length db.now.names }
    ensures { IsNamedBy db.now service result }
{
    match name_in(alloc, db, service) {
        Ok(Some(name)) => SessionFault::NoController(name),
        _ => SessionFault::Failed(ServeFault::Memory),
    }
}

/// Returns the words of a controller, or no words if there is none.
pub fn controller_of(alloc: Global, making: &Making<'_>) -> Result<Vec<String>, NoMem>
    ensures { IfOk result (λ words. map string_bytes words.items
        ≡ controller_by (making_ask_of making.now)) }
{
    match making {
        Making::Programs(programs) => programs.controller_words(alloc),
        Making::Table(_) => Ok(Vec::new(alloc)),
    }
}

// Returns the exit status with the lines of services.
fn status_by(text: &[u8]) -> u8
    ensures { result ≡ status_by text.now }
{
    if text.is_empty() { DONE } else { ELSEWHERE }
}

// Asks about services one after the other, and returns the answers. One that is not asked about is
// not known.
fn answers_of(asker: &Asker<'_>, db: &Db, asked: &Set) -> Result<Vec<Found>, NoMem>
    requires { length asked.now ≡ length db.now.names }
    ensures { IfOk result (λ answers. length answers.items ≡ length db.now.names) }
{
    let mut answers = Vec::new(asker.rt.alloc());
    for id in 0..db.names().len() {
        answers.push(answer_of(asker, db, id, asked))?;
    }
    Ok(answers)
}

// Asks about a service, if it is among those that are asked about.
fn answer_of(asker: &Asker<'_>, db: &Db, id: u16, asked: &Set) -> Found
    requires id { id < length db.now.names }
    requires asked { length asked.now ≡ length db.now.names }
    ensures { (Has asked.now id → ⊥) → result ≡ Found.Unknown }
{
    if !asked.contains(id) {
        return Found::Unknown;
    }
    let name = db.names().name_of(id).text();
    match question_for(db.service(id).kind) {
        Some(question) => ask(asker.rt, asker.rt.alloc(), asker.words, question, name),
        None => Found::Unknown,
    }
}

// Returns what these answers about services come to.
fn findings_of(
    alloc: Global,
    names: &Names,
    live: &Set,
    asked: &Asked,
    answers: &[Found],
) -> Result<Findings, NoMem>
    requires live { length live.now ≡ length names.now }
    requires asked { length asked.now.all ≡ length names.now }
    requires longruns { length asked.now.longruns ≡ length names.now }
    requires answers { length answers.now ≡ length names.now }
    ensures { IfOk result (λ findings. finding_of findings ≡ found_by names.now asked.now.all
        asked.now.longruns live.now answers.now) }
{
    let text = lines_of(alloc, names, live, asked, answers)?;
    let fallen = names_elsewhere(alloc, names, live, &asked.all, answers, false)?;
    let strays = names_elsewhere(alloc, names, live, &asked.all, answers, true)?;
    Ok(Findings {
        status: status_by(&text),
        text,
        fallen,
        strays,
        is_unknown: has_unknown(&asked.longruns, answers),
    })
}

// Returns the lines of services by these answers.
fn lines_of(
    alloc: Global,
    names: &Names,
    live: &Set,
    asked: &Asked,
    answers: &[Found],
) -> Result<Vec<u8>, NoMem>
    requires live { length live.now ≡ length names.now }
    requires asked { length asked.now.all ≡ length names.now }
    requires longruns { length asked.now.longruns ≡ length names.now }
    requires answers { length answers.now ≡ length names.now }
    ensures { IfOk result (λ text. text.items ≡ lines_to names.now asked.now.all
        asked.now.longruns live.now answers.now (length names.now)) }
{
    let mut text = Vec::new(alloc);
    for id in 0..names.len() {
        add_service(&mut text, names, id, live, asked, answers[id as usize])?;
    }
    Ok(text)
}

// Appends the line of a service by its answer, if it is among those that are asked about.
fn add_service(
    text: &mut Vec<u8>,
    names: &Names,
    id: u16,
    live: &Set,
    asked: &Asked,
    found: Found,
) -> Result<(), NoMem>
    requires id { id < length names.now }
    requires live { length live.now ≡ length names.now }
    requires asked { length asked.now.all ≡ length names.now }
    requires longruns { length asked.now.longruns ≡ length names.now }
    ensures { OnOk result (text.new.items ≡ text.old.items
        ++ line_of names.now asked.now.all asked.now.longruns live.now found id) }
{
    if !asked.all.contains(id) {
        return Ok(());
    }
    let name = names.name_of(id).text();
    let (is_longrun, is_live) = (asked.longruns.contains(id), live.contains(id));
    add_line(text, name.as_bytes(), is_longrun, is_live, found)
}

// Appends the line of a service, unless it is where the session says or is a oneshot that is not
// known.
fn add_line(
    text: &mut Vec<u8>,
    name: &[u8],
    is_longrun: bool,
    live: bool,
    found: Found,
) -> Result<(), NoMem>
    ensures { OnOk result (text.new.items
        ≡ text.old.items ++ line_by name.now is_longrun live found) }
{
    if is_there(is_longrun, live, found) {
        return Ok(());
    }
    text.extend_from_slice(name)?;
    text.extend_from_slice(live_word(live))?;
    text.extend_from_slice(found_word(found))?;
    text.push(b'\n')?;
    Ok(())
}

// Returns true if a service is where the session says, or is a oneshot that is not known.
fn is_there(is_longrun: bool, live: bool, found: Found) -> bool
    ensures { result ≡ is_there is_longrun live found }
{
    match found {
        Found::Up => live,
        Found::Down => !live,
        Found::Unknown => !is_longrun,
    }
}

// Returns where the session has a service, as its line says it.
fn live_word(live: bool) -> &'static [u8]
    ensures { result.now ≡ live_word live }
{
    if live {
        b" live, but "
    } else {
        b" not live, but "
    }
}

// Returns the word for where a service was found.
fn found_word(found: Found) -> &'static [u8]
    ensures { result.now ≡ found_word found }
{
    match found {
        Found::Up => b"up",
        Found::Down => b"down",
        Found::Unknown => b"unknown",
    }
}
