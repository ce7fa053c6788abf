//! `check -r`: what is up and not live is brought down, and what is live and down is restarted. As
//! a restart, it first takes back what was cut short before it, without crossing a border.
ghost use Rattle.std.specs.Prelude.{◌≡◌, ◌⊎◌, ℕ, List, [], None};
ghost use Rattle.std.specs.Borrow.{Bor};
ghost use Rattle.rc_streams.specs.Noting.{HasFailed};
ghost use Rattle.rc_args.specs.NamedAsked.{named_ask_of};
ghost use Rattle.rc_args.specs.SessionAsked.{session_ask_of};
ghost use Rattle.rc_historytext.specs.Present.{IsPresent};
ghost use Rattle.rc_serve.specs.declared.ending.Ending.TheVariants.{Done};
ghost use Rattle.rc_cli.specs.Checking.{finding_of};
ghost use Rattle.rc_cli.specs.Storing.{store_of};
ghost use Rattle.rc_cli.specs.declared.sessions.keeping.LiveFile.TheVariants.{Text};
ghost use Rattle.rc_launch.specs.HeldHistory.{Leads, LeadsOn};
ghost use Rattle.rc_launch.specs.Loading.{NamesFile, session_in};
ghost use Rattle.rc_launch.specs.Mending.{AreLowered, Mends, MendsFrom, Repairs, mended_status};
ghost use Rattle.rc_launch.specs.TwoSteps.{HoldsFor, Restarts};

use crate::execution::Execution;
use crate::live_store::LiveStore;
use crate::loading::bytes_of;
use crate::outcomes::{fail_on, hindered};
use crate::serving::{read_of, serve_on, serve_strays};
use crate::two_steps::{inside_taken_back, texts_in};
use rc_args::NamedRequest;
use rc_cli::sessions::{Devices, LiveFile, Service};
use rc_cli::{Findings, find_as_asked};
use rc_streams::ending::{DONE, FAILED, REFUSED};
use std::io::{Read, Write};
use std::sync::Wait;
use std::thread::Threads;

/// A stray could not be brought down.
const HINDERED: u8 = 2;

/// A longrun is not known to be where the session says.
const ELSEWHERE: u8 = 3;

/// Carries out a check that repairs what it finds, and returns the status.
pub(crate) fn mend<'x, T: Threads + Wait + Sync, R: Read, W: Write, F: Write>(
    execution: &Execution<'x, '_, T>,
    request: &NamedRequest<'_>,
    devices: &mut Devices<R, W, F, LiveStore<'x>>,
) -> u8
    requires reader { HasFailed devices.old.reader → ⊥ }
    requires writer { HasFailed devices.old.outputs.writer → ⊥ }
    ensures done { result ≡ 0 → NamesFile execution.now.opened.now.loaded →
        Leads (store_of devices.old.outputs.keeper) (store_of devices.new.outputs.keeper)
        (MendsFrom (named_ask_of request.now)
        (session_ask_of (session_in execution.now.opened.now.loaded))) }
{
    match inside_taken_back(execution, devices) {
        Ok(true) => hindered(mend_present(execution, request, devices)),
        Ok(false) => mend_present(execution, request, devices),
        Err(code) => code,
    }
}

// Checks and repairs in the present generation, and returns the status.
fn mend_present<'x, T: Threads + Wait + Sync, R: Read, W: Write, F: Write>(
    execution: &Execution<'x, '_, T>,
    request: &NamedRequest<'_>,
    devices: &mut Devices<R, W, F, LiveStore<'x>>,
) -> u8
    requires reader { HasFailed devices.old.reader → ⊥ }
    requires writer { HasFailed devices.old.outputs.writer → ⊥ }
    ensures done { result ≡ 0 → NamesFile execution.now.opened.now.loaded →
        Leads (store_of devices.old.outputs.keeper) (store_of devices.new.outputs.keeper)
        (Mends (named_ask_of request.now)
        (session_ask_of (session_in execution.now.opened.now.loaded))) }
{
    devices.outputs.keeper.store.begin_steps();
    match texts_in(execution.rt.alloc(), devices) {
        Some(Ok(texts)) => {
            let live = LiveFile::Text(&texts.session);
            let code = mend_on(execution, request, &texts.database, live, devices);
            drop(texts);
            code
        }
        Some(Err(_)) => fail_on(b"Memory", devices),
        None => {
            let opened = execution.opened;
            let base = bytes_of(&opened.loaded.base);
            mend_on(execution, request, base, read_of(opened), devices)
        }
    }
}

// Checks and repairs on these texts of a database and of a session, and returns the status.
fn mend_on<'x, T: Threads + Wait + Sync, R: Read, W: Write, F: Write>(
    execution: &Execution<'x, '_, T>,
    request: &NamedRequest<'_>,
    base: &[u8],
    live: LiveFile<'_>,
    devices: &mut Devices<R, W, F, LiveStore<'x>>,
) -> u8
    requires reader { HasFailed devices.old.reader → ⊥ }
    requires writer { HasFailed devices.old.outputs.writer → ⊥ }
    ensures done { result ≡ 0 → NamesFile execution.now.opened.now.loaded →
        (session : Bor (List ℕ)) → live.entry ≡ Text session → (was : List ℕ) →
        HoldsFor None (store_of devices.old.outputs.keeper) was →
        IsPresent was base.now session.now →
        LeadsOn was (store_of devices.new.outputs.keeper) (Mends (named_ask_of request.now)
        (session_ask_of (session_in execution.now.opened.now.loaded))) }
{
    match find_as_asked(execution.rt, request, base, live, devices) {
        Ok(findings) => {
            let code = move_found(execution, &findings, base, live, devices);
            drop(findings);
            code
        }
        Err(code) => code,
    }
}

// Moves what was found elsewhere, strays first, and returns the status.
fn move_found<'x, T: Threads + Wait + Sync, R: Read, W: Write, F: Write>(
    execution: &Execution<'x, '_, T>,
    findings: &Findings,
    base: &[u8],
    live: LiveFile<'_>,
    devices: &mut Devices<R, W, F, LiveStore<'x>>,
) -> u8
    requires reader { HasFailed devices.old.reader → ⊥ }
    requires writer { HasFailed devices.old.outputs.writer → ⊥ }
    ensures done { result ≡ 0 → NamesFile execution.now.opened.now.loaded →
        (session : Bor (List ℕ)) → live.entry ≡ Text session → (was : List ℕ) →
        HoldsFor None (store_of devices.old.outputs.keeper) was →
        IsPresent was base.now session.now →
        LeadsOn was (store_of devices.new.outputs.keeper)
        (Repairs (finding_of findings.now) base.now
        (session_ask_of (session_in execution.now.opened.now.loaded))) }
{
    if findings.status == REFUSED {
        return REFUSED;
    }
    let lowered = lower_found(execution, findings, base, devices);
    if lowered == FAILED || devices.reader.failed() || devices.outputs.writer.failed() {
        return FAILED;
    }
    let restarted = restart_found(execution, findings, base, live, devices);
    mended_status(restarted, lowered, findings.is_unknown)
}

// Brings the strays down that were found, and returns the status.
fn lower_found<'x, T: Threads + Wait + Sync, R: Read, W: Write, F: Write>(
    execution: &Execution<'x, '_, T>,
    findings: &Findings,
    base: &[u8],
    devices: &mut Devices<R, W, F, LiveStore<'x>>,
) -> u8
    requires writer { HasFailed devices.old.outputs.writer → ⊥ }
    ensures done { result ≡ 0 → ((finding_of findings.now).strays ≡ [])
        ⊎ AreLowered base.now (session_ask_of (session_in execution.now.opened.now.loaded))
        (finding_of findings.now).strays }
    ensures same { store_of devices.new.outputs.keeper ≡ store_of devices.old.outputs.keeper }
{
    if findings.strays.is_empty() {
        return DONE;
    }
    serve_strays(execution, &findings.strays, base, devices)
}

// Restarts what was found down and is live, and returns the status.
fn restart_found<'x, T: Threads + Wait + Sync, R: Read, W: Write, F: Write>(
    execution: &Execution<'x, '_, T>,
    findings: &Findings,
    base: &[u8],
    live: LiveFile<'_>,
    devices: &mut Devices<R, W, F, LiveStore<'x>>,
) -> u8
    requires reader { HasFailed devices.old.reader → ⊥ }
    requires writer { HasFailed devices.old.outputs.writer → ⊥ }
    ensures done { result ≡ 0 → NamesFile execution.now.opened.now.loaded →
        (session : Bor (List ℕ)) → live.entry ≡ Text session → (was : List ℕ) →
        HoldsFor None (store_of devices.old.outputs.keeper) was →
        IsPresent was base.now session.now →
        LeadsOn was (store_of devices.new.outputs.keeper)
        (λ bytes is. (((finding_of findings.now).fallen ≡ []) × (is ≡ bytes))
        ⊎ Restarts Done (finding_of findings.now).fallen bytes is) }
{
    if findings.fallen.is_empty() {
        return DONE;
    }
    let service = Service::Restart(&findings.fallen);
    serve_on(execution, service, base, live, devices)
}

// Returns the status of a repair: that of the restart if it is not 0; else 2 if a stray is still
// up; else 3 if the state of a longrun is unknown; else 0.
fn mended_status(restarted: u8, lowered: u8, is_unknown: bool) -> u8
    ensures { result ≡ mended_status restarted lowered is_unknown }
{
    if restarted != DONE {
        return restarted;
    }
    if lowered != DONE {
        return HINDERED;
    }
    if is_unknown { ELSEWHERE } else { DONE }
}
