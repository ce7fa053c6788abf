//! Commands of two steps, an update and a restart. The state between them is passed. Each first
//! takes back what was cut short before it: an update all of it, a restart what an undo takes back
//! without crossing a border.
ghost use Rattle.std.specs.Prelude.{◌≡◌, ◌≢◌, ◌<◌, ◌^◌, ℕ, List, None, Some, IfErr, IfOk, IfSome};
ghost use Rattle.std.specs.Prelude.{IsTrue, Ok, OnOk, false, length, map, string_bytes, true};
ghost use Rattle.rc_streams.specs.Noting.{HasFailed};
ghost use Rattle.rc_update.specs.Conversions.{conversions_of};
ghost use Rattle.rc_historytext.specs.Halting.{Halts};
ghost use Rattle.rc_historytext.specs.Present.{IsPresent};
ghost use Rattle.rc_historytext.specs.Travelling.{GoesOn};
ghost use Rattle.rc_historytext.specs.Updating.{IsSettled};
ghost use Rattle.rc_serve.specs.declared.ending.Ending.{Ending};
ghost use Rattle.rc_cli.specs.SessionFaults.{status_of};
ghost use Rattle.rc_cli.specs.Storing.{store_of};
ghost use Rattle.rc_launch.specs.Anew.{UpdatesAnew};
ghost use Rattle.rc_launch.specs.Frames.{IsToBegin};
ghost use Rattle.rc_launch.specs.Halted.{HasHalted, IsRefusedOn};
ghost use Rattle.rc_launch.specs.HeldHistory.{Leads, LeadsOn, history_held};
ghost use Rattle.rc_launch.specs.Loading.{NamesFile, bytes_of};
ghost use Rattle.rc_launch.specs.TwoSteps.{CarriesBy, GoesBackInside, HoldsFor, IsKeptUpdate};
ghost use Rattle.rc_launch.specs.TwoSteps.{IsTaken, IsToUpdate, RestartsBy, RestartsFrom};
ghost use Rattle.rc_launch.specs.TwoSteps.{StopsTakingBack, TakesBack, TakesBackInside};
ghost use Rattle.rc_launch.specs.TwoSteps.{UpdatesFrom};

use crate::borders::{goes_back_inside, goes_on_behind};
use crate::execution::Execution;
use crate::live_store::LiveStore;
use crate::loading::bytes_of;
use crate::opened::Opened;
use crate::outcomes::{fail_on, hindered, say_done, word_of};
use crate::serving::{read_of, serve, serve_on, serve_update};
use crate::travel::{Way, travel};
use rc_args::{NamedRequest, UpdateRequest};
use rc_cli::sessions::{Devices, LiveFile, Service};
use rc_historytext::{HistoryFault, present_of};
use rc_streams::Failure;
use rc_streams::ending::{DONE, FAILED};
use rc_update::Conversion;
use std::alloc::Global;
use std::io::{Read, Write};
use std::sync::Wait;
use std::thread::Threads;

/// The texts of a generation.
#[derive(Drop)]
pub(crate) struct Texts {
    pub database: Vec<u8>,
    pub session: Vec<u8>,
}

/// Carries out an update, and returns the status. Once all is done, makes the current state a stop.
pub(crate) fn update<'x, T: Threads + Wait + Sync, R: Read, W: Write, F: Write>(
    execution: &Execution<'x, '_, T>,
    request: &'x UpdateRequest<'x>,
    devices: &mut Devices<R, W, F, LiveStore<'x>>,
) -> u8
    requires reader { HasFailed devices.old.reader → ⊥ }
    requires writer { HasFailed devices.old.outputs.writer → ⊥ }
    ensures ended { (ending : Ending) → result ≡ status_of ending →
        NamesFile execution.now.opened.now.loaded → IsKeptUpdate request.now →
        Leads (store_of devices.old.outputs.keeper) (store_of devices.new.outputs.keeper)
        (UpdatesFrom ending (bytes_of execution.now.opened.now.loaded.new)
        (conversions_of request.now.conversions.items)) }
    ensures begins { (ending : Ending) → result ≡ status_of ending → IsKeptUpdate request.now →
        IsToBegin (bytes_of execution.now.opened.now.loaded.base)
        (store_of devices.old.outputs.keeper).frame →
        UpdatesAnew execution.now.opened.now request.now ending
        (store_of devices.old.outputs.keeper).frame (store_of devices.new.outputs.keeper) }
{
    match all_taken_back(execution, devices) {
        Ok(true) => hindered(carry_over(execution, request, devices)),
        Ok(false) => carry_over(execution, request, devices),
        Err(code) => code,
    }
}

/// Carries out a restart, and returns the status.
pub(crate) fn restart<'x, T: Threads + Wait + Sync, R: Read, W: Write, F: Write>(
    execution: &Execution<'x, '_, T>,
    request: &NamedRequest<'_>,
    devices: &mut Devices<R, W, F, LiveStore<'x>>,
) -> u8
    requires reader { HasFailed devices.old.reader → ⊥ }
    requires writer { HasFailed devices.old.outputs.writer → ⊥ }
    ensures ended { (ending : Ending) → result ≡ status_of ending →
        NamesFile execution.now.opened.now.loaded →
        Leads (store_of devices.old.outputs.keeper) (store_of devices.new.outputs.keeper)
        (RestartsFrom ending (map string_bytes request.now.names.items)) }
{
    match inside_taken_back(execution, devices) {
        Ok(true) => hindered(serve_restart(execution, request, devices)),
        Ok(false) => serve_restart(execution, request, devices),
        Err(code) => code,
    }
}

// Undoes what was cut short. Returns true if something was, or the status of an undo that was not
// done.
fn all_taken_back<'x, T: Threads + Wait + Sync, R: Read, W: Write, F: Write>(
    execution: &Execution<'x, '_, T>,
    devices: &mut Devices<R, W, F, LiveStore<'x>>,
) -> Result<bool, u8>
    requires reader { HasFailed devices.old.reader → ⊥ }
    requires writer { HasFailed devices.old.outputs.writer → ⊥ }
    ensures reader { OnOk result (HasFailed devices.new.reader → ⊥) }
    ensures writer { OnOk result (HasFailed devices.new.outputs.writer → ⊥) }
    ensures bare { history_held (store_of devices.old.outputs.keeper) ≡ None →
        result ≡ Ok false }
    ensures still { history_held (store_of devices.old.outputs.keeper) ≡ None →
        store_of devices.new.outputs.keeper ≡ store_of devices.old.outputs.keeper }
    ensures fault { IfErr result (λ code. code ≢ 0) }
    ensures taken { IfOk result (λ taken. NamesFile execution.now.opened.now.loaded →
        Leads (store_of devices.old.outputs.keeper) (store_of devices.new.outputs.keeper)
        (TakesBack taken)) }
    ensures stops { IfErr result (λ code. (ending : Ending) → code ≡ status_of ending →
        NamesFile execution.now.opened.now.loaded →
        Leads (store_of devices.old.outputs.keeper) (store_of devices.new.outputs.keeper)
        (StopsTakingBack ending (GoesOn false))) }
{
    let is_cut = is_cut_in(execution.rt.alloc(), devices);
    taken_back(execution, is_cut, devices)
}

/// Undoes what was cut short, if an undo takes it back without crossing a border. Returns true if
/// it was, or the status of an undo that was not done.
pub(crate) fn inside_taken_back<'x, T: Threads + Wait + Sync, R: Read, W: Write, F: Write>(
    execution: &Execution<'x, '_, T>,
    devices: &mut Devices<R, W, F, LiveStore<'x>>,
) -> Result<bool, u8>
    requires reader { HasFailed devices.old.reader → ⊥ }
    requires writer { HasFailed devices.old.outputs.writer → ⊥ }
    ensures reader { OnOk result (HasFailed devices.new.reader → ⊥) }
    ensures writer { OnOk result (HasFailed devices.new.outputs.writer → ⊥) }
    ensures fault { IfErr result (λ code. code ≢ 0) }
    ensures taken { IfOk result (λ taken. NamesFile execution.now.opened.now.loaded →
        Leads (store_of devices.old.outputs.keeper) (store_of devices.new.outputs.keeper)
        (TakesBackInside taken)) }
    ensures stops { IfErr result (λ code. (ending : Ending) → code ≡ status_of ending →
        NamesFile execution.now.opened.now.loaded →
        Leads (store_of devices.old.outputs.keeper) (store_of devices.new.outputs.keeper)
        (StopsTakingBack ending GoesBackInside)) }
{
    let is_cut = is_cut_inside(execution.rt.alloc(), devices);
    taken_back(execution, is_cut, devices)
}

// Returns true if an undo goes on from where the history stands, if there is one.
fn is_cut_in<R, W, F>(
    alloc: Global,
    devices: &Devices<R, W, F, LiveStore<'_>>,
) -> Result<bool, HistoryFault>
    ensures goes { IfOk result (λ goes. (was : List ℕ) →
        history_held (store_of devices.now.outputs.keeper) ≡ Some was → GoesOn false was goes) }
    ensures bare { history_held (store_of devices.now.outputs.keeper) ≡ None →
        result ≡ Ok false }
{
    match devices.outputs.keeper.store.history() {
        Some(history) => goes_on_behind(alloc, history, false),
        None => Ok(false),
    }
}

// Returns true if an undo from the passed state on which the history stands ends in the present
// generation, if there is a history.
fn is_cut_inside<R, W, F>(
    alloc: Global,
    devices: &Devices<R, W, F, LiveStore<'_>>,
) -> Result<bool, HistoryFault>
    ensures { IfOk result (λ goes. (was : List ℕ) →
        history_held (store_of devices.now.outputs.keeper) ≡ Some was →
        GoesBackInside was goes) }
{
    match devices.outputs.keeper.store.history() {
        Some(history) => goes_back_inside(alloc, history),
        None => Ok(false),
    }
}

// Undoes what was cut short, if something was. Returns true if it was, or the status of an undo
// that was not done.
fn taken_back<'x, T: Threads + Wait + Sync, R: Read, W: Write, F: Write>(
    execution: &Execution<'x, '_, T>,
    is_cut: Result<bool, HistoryFault>,
    devices: &mut Devices<R, W, F, LiveStore<'x>>,
) -> Result<bool, u8>
    requires reader { HasFailed devices.old.reader → ⊥ }
    requires writer { HasFailed devices.old.outputs.writer → ⊥ }
    ensures reader { OnOk result (HasFailed devices.new.reader → ⊥) }
    ensures writer { OnOk result (HasFailed devices.new.outputs.writer → ⊥) }
    ensures cut { IfOk result (λ taken. is_cut ≡ Ok taken) }
    ensures whole { is_cut ≡ Ok false → result ≡ Ok false }
    ensures still { is_cut ≡ Ok false →
        store_of devices.new.outputs.keeper ≡ store_of devices.old.outputs.keeper }
    ensures fault { IfErr result (λ code. code ≢ 0) }
    ensures taken { IfOk result (λ taken. NamesFile execution.now.opened.now.loaded →
        Leads (store_of devices.old.outputs.keeper) (store_of devices.new.outputs.keeper)
        (IsTaken taken)) }
    ensures tried { IfErr result (λ code. HasHalted code → is_cut ≡ Ok true) }
    ensures halted { IfErr result (λ code. HasHalted code →
        NamesFile execution.now.opened.now.loaded →
        Leads (store_of devices.old.outputs.keeper) (store_of devices.new.outputs.keeper)
        (Halts false)) }
    ensures refused { IfErr result (λ code. code ≡ 1 →
        NamesFile execution.now.opened.now.loaded →
        Leads (store_of devices.old.outputs.keeper) (store_of devices.new.outputs.keeper)
        (IsRefusedOn false)) }
{
    match is_cut {
        Ok(true) => {}
        Ok(false) => return Ok(false),
        Err(_) => return Err(fail_on(b"Memory", devices)),
    }
    let way = Way {
        is_on: false,
        limit: u32::MAX,
    };
    match travel(execution, way, devices) {
        DONE => {}
        code => return Err(code),
    }
    if devices.reader.failed() || devices.outputs.writer.failed() {
        return Err(FAILED);
    }
    Ok(true)
}

// Serves a restart in the present generation, and returns the status.
fn serve_restart<'x, T: Threads + Wait + Sync, R: Read, W: Write, F: Write>(
    execution: &Execution<'x, '_, T>,
    request: &NamedRequest<'_>,
    devices: &mut Devices<R, W, F, LiveStore<'x>>,
) -> u8
    requires reader { HasFailed devices.old.reader → ⊥ }
    requires writer { HasFailed devices.old.outputs.writer → ⊥ }
    ensures ended { (ending : Ending) → result ≡ status_of ending →
        NamesFile execution.now.opened.now.loaded →
        Leads (store_of devices.old.outputs.keeper) (store_of devices.new.outputs.keeper)
        (RestartsBy ending (map string_bytes request.now.names.items)) }
{
    devices.outputs.keeper.store.begin_steps();
    match texts_in(execution.rt.alloc(), devices) {
        Some(Ok(texts)) => {
            let code = restart_on(execution, request, &texts, devices);
            drop(texts);
            code
        }
        Some(Err(_)) => fail_on(b"Memory", devices),
        None => serve(execution.rt, execution.threads, execution.opened, devices).code(),
    }
}

// Serves a restart on the texts of the present generation, and returns the status.
fn restart_on<'x, T: Threads + Wait + Sync, R: Read, W: Write, F: Write>(
    execution: &Execution<'x, '_, T>,
    request: &NamedRequest<'_>,
    texts: &Texts,
    devices: &mut Devices<R, W, F, LiveStore<'x>>,
) -> u8
    requires reader { HasFailed devices.old.reader → ⊥ }
    requires writer { HasFailed devices.old.outputs.writer → ⊥ }
    ensures ended { (ending : Ending) → result ≡ status_of ending →
        NamesFile execution.now.opened.now.loaded →
        (was : List ℕ) → HoldsFor None (store_of devices.old.outputs.keeper) was →
        IsPresent was texts.now.database.items texts.now.session.items →
        LeadsOn was (store_of devices.new.outputs.keeper)
        (RestartsBy ending (map string_bytes request.now.names.items)) }
{
    let service = Service::Restart(&request.names);
    let live = LiveFile::Text(&texts.session);
    serve_on(execution, service, &texts.database, live, devices)
}

// Carries the session over to the new database, and returns the status.
fn carry_over<'x, T: Threads + Wait + Sync, R: Read, W: Write, F: Write>(
    execution: &Execution<'x, '_, T>,
    request: &'x UpdateRequest<'x>,
    devices: &mut Devices<R, W, F, LiveStore<'x>>,
) -> u8
    requires reader { HasFailed devices.old.reader → ⊥ }
    requires writer { HasFailed devices.old.outputs.writer → ⊥ }
    ensures ended { (ending : Ending) → result ≡ status_of ending → IsKeptUpdate request.now →
        Leads (store_of devices.old.outputs.keeper) (store_of devices.new.outputs.keeper)
        (CarriesBy ending (bytes_of execution.now.opened.now.loaded.new)
        (conversions_of request.now.conversions.items)) }
    ensures begins { (ending : Ending) → result ≡ status_of ending → IsKeptUpdate request.now →
        IsToBegin (bytes_of execution.now.opened.now.loaded.base)
        (store_of devices.old.outputs.keeper).frame →
        UpdatesAnew execution.now.opened.now request.now ending
        (store_of devices.old.outputs.keeper).frame (store_of devices.new.outputs.keeper) }
{
    let opened = execution.opened;
    let Some(new) = opened.new_base() else {
        return fail_on(b"Strange", devices);
    };
    devices
        .outputs
        .keeper
        .store
        .begin_update(new, &request.conversions);
    match texts_in(execution.rt.alloc(), devices) {
        Some(Ok(texts)) => {
            let code = carry_texts(execution, request, &texts.database, &texts.session, devices);
            drop(texts);
            code
        }
        Some(Err(_)) => fail_on(b"Memory", devices),
        None => {
            let base = bytes_of(&opened.loaded.base);
            bounds_fit(request.session.bound);
            let code = serve_update(execution, request, base, read_of(opened), devices);
            settled(code, devices)
        }
    }
}

// Proves, as a law, that a bound on the number of states fits its type.
fn bounds_fit(bound: u32)
    ensures { bound < 2 ^ 32 }
{}

// Carries the texts of the present generation over to the new database, and returns the status. If
// it is their database already, and there are no conversions, it is not entered.
fn carry_texts<'x, T: Threads + Wait + Sync, R: Read, W: Write, F: Write>(
    execution: &Execution<'x, '_, T>,
    request: &UpdateRequest<'_>,
    database: &[u8],
    session: &[u8],
    devices: &mut Devices<R, W, F, LiveStore<'x>>,
) -> u8
    requires writer { HasFailed devices.old.outputs.writer → ⊥ }
    ensures ended { (ending : Ending) → result ≡ status_of ending → IsKeptUpdate request.now →
        IsToUpdate (bytes_of execution.now.opened.now.loaded.new)
        (conversions_of request.now.conversions.items) (store_of devices.old.outputs.keeper) →
        (was : List ℕ) → history_held (store_of devices.old.outputs.keeper) ≡ Some was →
        IsPresent was database.now session.now →
        LeadsOn was (store_of devices.new.outputs.keeper)
        (CarriesBy ending (bytes_of execution.now.opened.now.loaded.new)
        (conversions_of request.now.conversions.items)) }
{
    if is_up_to_date(execution.opened, request.conversions.as_slice(), database) {
        return say_done(b"ok\nok\n", devices);
    }
    let live = LiveFile::Text(session);
    let code = serve_update(execution, request, database, live, devices);
    settled(code, devices)
}

// Returns true if a database is the new one of an update, and there are no conversions.
fn is_up_to_date(opened: &Opened<'_>, list: &[Conversion<'_>], database: &[u8]) -> bool
    ensures list { IsTrue result → length list.now ≡ 0 }
    ensures new { IsTrue result → bytes_of opened.now.loaded.new ≡ database.now }
{
    list.is_empty() && bytes_of(&opened.loaded.new) == database
}

// Turns the state to which a command of several steps has come into a stop, if all is done. Returns
// the status.
fn settled<R, W, F: Write>(code: u8, devices: &mut Devices<R, W, F, LiveStore<'_>>) -> u8
    ensures code { (ending : Ending) → result ≡ status_of ending → code ≡ status_of ending }
    ensures halted { HasHalted result →
        store_of devices.new.outputs.keeper ≡ store_of devices.old.outputs.keeper }
    ensures done { result ≡ 0 →
        Leads (store_of devices.old.outputs.keeper) (store_of devices.new.outputs.keeper)
        IsSettled }
{
    if code != DONE {
        return code;
    }
    match devices.outputs.keeper.store.settle() {
        Ok(()) => DONE,
        Err(fault) => fail_on(word_of(fault), devices),
    }
}

/// Returns the texts of the present generation, or `None` if there is no history.
pub(crate) fn texts_in<R, W, F>(
    alloc: Global,
    devices: &Devices<R, W, F, LiveStore<'_>>,
) -> Option<Result<Texts, HistoryFault>>
    ensures present { IfSome result (λ made. IfOk made (λ texts. (was : List ℕ) →
        history_held (store_of devices.now.outputs.keeper) ≡ Some was →
        IsPresent was texts.database.items texts.session.items)) }
    ensures none { result ≡ None →
        history_held (store_of devices.now.outputs.keeper) ≡ None }
    ensures bare { history_held (store_of devices.now.outputs.keeper) ≡ None → result ≡ None }
{
    let history = devices.outputs.keeper.store.history()?;
    Some(texts_of(alloc, history))
}

// Returns the texts of the present generation of a history.
fn texts_of(alloc: Global, history: &[u8]) -> Result<Texts, HistoryFault>
    ensures { IfOk result (λ texts.
        IsPresent history.now texts.database.items texts.session.items) }
{
    let present = present_of(alloc, history)?;
    let Ok(database) = Vec::from_slice(alloc, present.database) else {
        return Err(HistoryFault::Memory);
    };
    match Vec::from_slice(alloc, present.session) {
        Ok(session) => Ok(Texts { database, session }),
        Err(_) => {
            drop(database);
            Err(HistoryFault::Memory)
        }
    }
}
