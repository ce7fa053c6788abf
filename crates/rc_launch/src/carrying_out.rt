//! A command is carried out on the files that were opened for it.
ghost use Rattle.std.specs.Prelude.{◌≡◌, ◌⊎◌, ℕ, Bool, false, IsSome, IsTrue, List, None, Some};
ghost use Rattle.std.specs.Prelude.{is_some, map, string_bytes};
ghost use Rattle.rc_update.specs.Conversions.{conversions_of};
ghost use Rattle.rc_streams.specs.Noting.{HasFailed, inner_of};
ghost use Rattle.rc_serve.specs.declared.ending.Ending.{Ending};
ghost use Rattle.rc_args.specs.OnceAsked.{once_saying_of};
ghost use Rattle.rc_args.specs.NamedAsked.{named_ask_of};
ghost use Rattle.rc_args.specs.SessionAsked.{session_ask_of};
ghost use Rattle.rc_args.specs.declared.named_words.NamedRequest.{NamedRequest};
ghost use Rattle.rc_args.specs.declared.update_words.UpdateRequest.{UpdateRequest};
ghost use Rattle.rc_cli.specs.Session.{dealt};
ghost use Rattle.rc_cli.specs.SessionFaults.{status_of};
ghost use Rattle.rc_cli.specs.Storing.{store_of};
ghost use Rattle.rc_cli.specs.declared.sessions.keeping.LiveFile.{LiveFile};
ghost use Rattle.rc_historytext.specs.Halting.{Halts};
ghost use Rattle.rc_historytext.specs.Travelling.{Travels};
ghost use Rattle.rc_launch.specs.Alone.{IsServed, StaysInside};
ghost use Rattle.rc_launch.specs.Anew.{UpdatesAnew};
ghost use Rattle.rc_launch.specs.Frames.{IsToBegin};
ghost use Rattle.rc_launch.specs.Halted.{HasHalted, IsRefusedOn};
ghost use Rattle.rc_launch.specs.HeldHistory.{Leads, history_held, session_kept};
ghost use Rattle.rc_launch.specs.HistoryJournal.{AnswersJournal};
ghost use Rattle.rc_launch.specs.Loading.{NamesFile, bytes_of, session_in};
ghost use Rattle.rc_launch.specs.Mending.{MendsFrom};
ghost use Rattle.rc_launch.specs.Readable.{IsOpenedRead, IsPresentRead};
ghost use Rattle.rc_launch.specs.TwoSteps.{RestartsFrom, UpdatesFrom};
ghost use Rattle.rc_launch.specs.Back.{ComesBackTo, StopsBack};
ghost use Rattle.rc_launch.specs.Serving.{Carries, IsReadAs, logged_of};
ghost use Rattle.rc_launch.specs.Ways.{AsksBack, AsksJournal, AsksMend, AsksRestart, AsksUpdate};
ghost use Rattle.rc_launch.specs.Ways.{AsksWay, IsJournalLine, IsLedAlone, IsLedBack, IsLedJournal};
ghost use Rattle.rc_launch.specs.Ways.{IsLedMend, IsLedOn, IsLedRestart, IsLedUpdate, IsWayLine};

use crate::execution::Execution;
use crate::going_back::{Aim, go_back};
use crate::journal::tell_journal;
use crate::live_store::LiveStore;
use crate::mending::mend;
use crate::opened::Opened;
use crate::serving::{Status, serve, status_of};
use crate::showing::{Shown, show};
use crate::travel::{Way, travel};
use crate::two_steps::{restart, update};
use rc_args::{NamedRequest, Once, SessionCommand, UpdateRequest};
use rc_cli::sessions::Devices;
use rc_script::SessionLine;
use rc_session::Command;
use std::io::{Read, Write};
use std::sync::Wait;
use std::thread::Threads;

/// How a command is led.
#[derive(Clone, Copy)]
enum Led<'a> {
    /// As an undo or a redo of a history.
    Way(Way),
    /// As an undo that goes back to a state.
    Back(Aim),
    /// As one that is shown.
    Shown(Shown<'a>),
    /// As the journal of a history.
    Journal,
    Update(&'a UpdateRequest<'a>),
    Restart(&'a NamedRequest<'a>),
    /// As a check that repairs what it finds.
    Mend(&'a NamedRequest<'a>),
    /// As on a session that is kept alone.
    Alone,
}

/// Carries a command out on the files that were opened for it, and returns the status, as `serve`
/// does. On a history it goes on as far as the command leads. The devices must not have failed
/// before.
pub fn carry_out<'x, T: Threads + Wait + Sync, R: Read, W: Write, F: Write>(
    rt: &'x HostRuntime,
    threads: &'x T,
    opened: &'x Opened<'_>,
    devices: &mut Devices<R, W, F, LiveStore<'x>>,
) -> Status
    requires reader { HasFailed devices.old.reader → ⊥ }
    requires writer { HasFailed devices.old.outputs.writer → ⊥ }

    // An undo or a redo with status 0 leads, on a history, to the nearest stop.
    ensures travels { (on : Bool) (limit : ℕ) → AsksWay opened.now.loaded.command on limit →
        NamesFile opened.now.loaded → result.code ≡ 0 →
        Leads (store_of devices.old.outputs.keeper) (store_of devices.new.outputs.keeper)
        (Travels on) }

    // One with status 1 or 2 has taken whole steps, and left what remains of one more.
    ensures halts { (on : Bool) (limit : ℕ) → AsksWay opened.now.loaded.command on limit →
        NamesFile opened.now.loaded → HasHalted result.code →
        Leads (store_of devices.old.outputs.keeper) (store_of devices.new.outputs.keeper)
        (Halts on) }

    // One with status 1 has crossed borders alone, and left the line of states as it was.
    ensures refused { (on : Bool) (limit : ℕ) → AsksWay opened.now.loaded.command on limit →
        NamesFile opened.now.loaded → result.code ≡ 1 →
        Leads (store_of devices.old.outputs.keeper) (store_of devices.new.outputs.keeper)
        (IsRefusedOn on) }

    // An undo that goes back to a state has come there with status 0.
    ensures back { (state limit : ℕ) → AsksBack opened.now.loaded.command state limit →
        NamesFile opened.now.loaded → result.code ≡ 0 →
        Leads (store_of devices.old.outputs.keeper) (store_of devices.new.outputs.keeper)
        (ComesBackTo state) }

    // With status 2 it has stopped before, at an undo that is not done.
    ensures stopped { (state limit : ℕ) → AsksBack opened.now.loaded.command state limit →
        NamesFile opened.now.loaded → result.code ≡ 2 →
        Leads (store_of devices.old.outputs.keeper) (store_of devices.new.outputs.keeper)
        (StopsBack state) }

    // With status 0 the texts of the present generation are those of a database and of a session of
    // it. Where FILE holds no history, it has come to state 0, and that holds of what was opened.
    ensures read { (state limit : ℕ) → AsksBack opened.now.loaded.command state limit →
        result.code ≡ 0 → (bytes : List ℕ) →
        history_held (store_of devices.old.outputs.keeper) ≡ Some bytes →
        IsPresentRead (session_in opened.now.loaded) bytes }
    ensures bare { (state limit : ℕ) → AsksBack opened.now.loaded.command state limit →
        result.code ≡ 0 → history_held (store_of devices.old.outputs.keeper) ≡ None →
        (state ≡ 0) × IsOpenedRead opened.now }

    // With status 1 it is refused, as an undo is.
    ensures unmoved { (state limit : ℕ) → AsksBack opened.now.loaded.command state limit →
        NamesFile opened.now.loaded → result.code ≡ 1 →
        Leads (store_of devices.old.outputs.keeper) (store_of devices.new.outputs.keeper)
        (IsRefusedOn false) }

    // An update first takes back what was cut short, and then carries the history over to its
    // database by both steps, or leaves it, where it is up to date. Its status says where that has
    // ended: with 1 it is refused, with 2 not all of a step is done, and none follows.
    ensures updates { (request : UpdateRequest) → AsksUpdate opened.now.loaded.command request →
        NamesFile opened.now.loaded → (ending : Ending) → result.code ≡ status_of ending →
        Leads (store_of devices.old.outputs.keeper) (store_of devices.new.outputs.keeper)
        (UpdatesFrom ending (bytes_of opened.now.loaded.new)
        (conversions_of request.conversions.items)) }

    // If FILE holds no history, an update begins one with the database and the session that were
    // read, and carries that over by both steps. With status 1 it begins none.
    ensures begins { (request : UpdateRequest) → AsksUpdate opened.now.loaded.command request →
        NamesFile opened.now.loaded → (ending : Ending) → result.code ≡ status_of ending →
        IsToBegin (bytes_of opened.now.loaded.base)
        (store_of devices.old.outputs.keeper).frame →
        UpdatesAnew opened.now request ending (store_of devices.old.outputs.keeper).frame
        (store_of devices.new.outputs.keeper) }

    // A restart first takes back what an undo takes back inside the present generation, and then
    // takes both of its steps there. Its status says where that has ended.
    ensures restarts { (request : NamedRequest) →
        AsksRestart opened.now.loaded.command request →
        NamesFile opened.now.loaded → (ending : Ending) → result.code ≡ status_of ending →
        Leads (store_of devices.old.outputs.keeper) (store_of devices.new.outputs.keeper)
        (RestartsFrom ending (map string_bytes request.names.items)) }

    // A check that repairs, with status 0, first takes back what a restart does. Then all that it
    // found elsewhere is where the session says: strays are down, and what has fallen is restarted.
    ensures mends { (request : NamedRequest) → AsksMend opened.now.loaded.command request →
        NamesFile opened.now.loaded → result.code ≡ 0 →
        Leads (store_of devices.old.outputs.keeper) (store_of devices.new.outputs.keeper)
        (MendsFrom (named_ask_of request) (session_ask_of (session_in opened.now.loaded))) }

    // The journal of a history is printed with all its states, and nothing else changes.
    ensures journal { AsksJournal opened.now.loaded.command → (bytes : List ℕ) →
        history_held (store_of devices.old.outputs.keeper) ≡ Some bytes →
        AnswersJournal (session_in opened.now.loaded) bytes result.code
        (W.contents (inner_of devices.old.outputs.writer))
        (W.contents (inner_of devices.new.outputs.writer))
        (F.contents devices.old.faults) (F.contents devices.new.faults)
        × (devices.new.outputs.keeper ≡ devices.old.outputs.keeper) }

    // What leads no further than one session is carried out as `serve` does it.
    ensures served { IsServed opened.now.loaded.command
        (is_some (history_held (store_of devices.old.outputs.keeper))) →
        (file : LiveFile) × IsReadAs (λ bytes. bytes.items) opened.now.live.found file
        × Carries opened.now.loaded (logged_of opened.now.note) file result.code
        (dealt R.remaining W.contents session_kept devices.old.reader devices.new.reader
        devices.old.outputs devices.new.outputs)
        (HasFailed devices.new.reader) (HasFailed devices.new.outputs.writer)
        (IsSome (store_of devices.new.outputs.keeper).error)
        (F.contents devices.old.faults) (F.contents devices.new.faults) }
{
    let execution = Execution {
        rt,
        threads,
        opened,
    };
    let is_history = devices.outputs.keeper.store.has_history();
    match led_by(&opened.loaded.command, is_history) {
        Led::Way(way) => status_of(travel(&execution, way, devices)),
        Led::Back(aim) => status_of(go_back(&execution, aim, devices)),
        Led::Shown(shown) => status_of(show(&execution, shown, devices)),
        Led::Journal => status_of(tell_journal(&execution, devices)),
        Led::Update(request) => status_of(update(&execution, request, devices)),
        Led::Restart(request) => status_of(restart(&execution, request, devices)),
        Led::Mend(request) => status_of(mend(&execution, request, devices)),
        Led::Alone => serve(rt, threads, opened, devices),
    }
}

// Returns how a command is led on a history, or on a session that is kept alone.
fn led_by<'a>(command: &'a SessionCommand<'_>, is_history: bool) -> Led<'a>
    ensures way { (on : Bool) (limit : ℕ) → AsksWay command.now on limit → IsTrue is_history →
        IsLedOn on result }
    ensures back { (state limit : ℕ) → AsksBack command.now state limit →
        IsLedBack state result }
    ensures update { (request : UpdateRequest) → AsksUpdate command.now request →
        IsLedUpdate request result }
    ensures restart { (request : NamedRequest) → AsksRestart command.now request →
        IsLedRestart request result }
    ensures mend { (request : NamedRequest) → AsksMend command.now request →
        IsLedMend request result }
    ensures journal { AsksJournal command.now → IsTrue is_history → IsLedJournal result }
    ensures served { IsServed command.now is_history → IsLedAlone result }
{
    match command {
        SessionCommand::Line(request) => led_to(&request.once, request.to, is_history),
        SessionCommand::Update(request) if !request.dry => Led::Update(request),
        SessionCommand::Restart(request) => Led::Restart(request),
        SessionCommand::Check(request) if request.repairs => Led::Mend(request),
        _ => Led::Alone,
    }
}

// Returns how a line is led, by the state to which it goes back, if it names one.
fn led_to(once: &Once, to: Option<u32>, is_history: bool) -> Led<'_>
    ensures way { (on : Bool) (limit : ℕ) → IsWayLine once.now on limit → to ≡ None →
        IsTrue is_history → IsLedOn on result }
    ensures back { (state limit : ℕ) → IsWayLine once.now false limit → to ≡ Some state →
        IsLedBack state result }
    ensures journal { IsJournalLine once.now → to ≡ None → IsTrue is_history →
        IsLedJournal result }
    ensures served { to ≡ None →
        (is_history ≡ false) ⊎ StaysInside (once_saying_of once.now) → IsLedAlone result }
{
    match to {
        Some(state) => led_back(once, state),
        None if is_history => led_line(once),
        None => Led::Alone,
    }
}

// Returns how an undo is led that goes back to a state.
fn led_back(once: &Once, state: u32) -> Led<'_>
    ensures { (limit : ℕ) → IsWayLine once.now false limit → IsLedBack state result }
{
    match once {
        Once::Line(SessionLine::Command(Command::Undo(limit))) => Led::Back(Aim {
            state,
            limit: *limit,
        }),
        _ => Led::Alone,
    }
}

// Returns how a line is led on a history.
fn led_line(once: &Once) -> Led<'_>
    ensures way { (on : Bool) (limit : ℕ) → IsWayLine once.now on limit → IsLedOn on result }
    ensures journal { IsJournalLine once.now → IsLedJournal result }
    ensures served { StaysInside (once_saying_of once.now) → IsLedAlone result }
{
    match once {
        Once::DryUndo => Led::Shown(Shown { once, is_on: false }),
        Once::DryRedo => Led::Shown(Shown { once, is_on: true }),
        Once::Line(SessionLine::Command(Command::Undo(limit))) => Led::Way(Way {
            is_on: false,
            limit: *limit,
        }),
        Once::Line(SessionLine::Command(Command::Redo(limit))) => Led::Way(Way {
            is_on: true,
            limit: *limit,
        }),
        Once::Line(SessionLine::Journal) => Led::Journal,
        Once::Line(_) | Once::DryRestart(_) | Once::Down => Led::Alone,
    }
}
