//! `update`: what is live is carried over from one database to another.
ghost use Rattle.std.specs.Prelude.{◌≡◌};
ghost use Rattle.rc_streams.specs.Noting.{HasFailed, inner_of};
ghost use Rattle.rc_args.specs.UpdateAsked.{update_ask_of};
ghost use Rattle.rc_serve.specs.declared.ending.Ending.{Ending};
ghost use Rattle.rc_cli.specs.SessionFaults.{status_of};
ghost use Rattle.rc_cli.specs.Storing.{store_of};
ghost use Rattle.rc_cli.specs.UpdateEnds.{Leads, Updates};

use crate::sessions::{Devices, Host, LiveFile, Store, spelled, tell_ended};
use crate::updating::update_on;
use log::Log;
use rc_args::UpdateRequest;
use std::io::Write;
use std::sync::Wait;
use std::thread::Threads;

/// Carries what is live over from the database of the text `old` to that of the text `new`, and
/// returns the exit status: 0 if all is done or shown; 1 if it is refused, and nothing has moved; 2
/// if it was carried out, and something failed, was blocked or was not tried; 111 for a failure.
///
/// Two lines are served, and their answers are written. The first one lowers, by the old database,
/// what is altered or gone, with all that needs it. If all of it is done, the second one is served
/// on a session of the new database. The line of that session has one state, in which the services
/// are live that were live and were not lowered. The second one raises what was live and is still
/// there. The file of `-l` is kept as by sessions of these lines, so it has the text of the new
/// database once the first one is done, and not before. If the lines are only shown, nothing is
/// moved and nothing is kept.
///
/// `live` is what stood in that file. Nothing is read. The writer must not have failed before.
pub fn update_as_asked<T: Threads + Wait + Sync, R, W: Write, F: Write, S: Store, L: Log + Sync>(
    host: &Host<'_, T, L>,
    request: &UpdateRequest<'_>,
    old: &[u8],
    new: &[u8],
    live: LiveFile<'_>,
    devices: &mut Devices<R, W, F, S>,
) -> u8
    requires writer { HasFailed devices.old.outputs.writer → ⊥ }
    ensures ended { Updates old.now new.now (update_ask_of request.now) live.entry result
        (S.holds (store_of devices.old.outputs.keeper))
        (S.holds (store_of devices.new.outputs.keeper))
        (W.contents (inner_of devices.old.outputs.writer))
        (W.contents (inner_of devices.new.outputs.writer))
        (HasFailed devices.new.outputs.writer) (S.failed (store_of devices.new.outputs.keeper))
        (F.contents devices.old.faults) (F.contents devices.new.faults) }

    // With status 0, the store is led so: the text of where the old session stands, the one that
    // the first step leaves, that an update has entered its database, and the same of the second
    // step. With status 2 the last step that was begun is not all done. With status 1 the store is
    // left alone.
    ensures led { (ending : Ending) → result ≡ status_of ending →
        Leads S.put S.entered old.now new.now (update_ask_of request.now) live.entry ending
        (store_of devices.old.outputs.keeper) (store_of devices.new.outputs.keeper) }
    ensures unread { devices.new.reader ≡ devices.old.reader }
{
    let from = match spelled(host.alloc, Some(old), &[]) {
        Ok((from, _none)) => from,
        Err(fault) => return tell_ended(host.alloc, &mut devices.faults, Err(fault)),
    };
    let to = match spelled(host.alloc, Some(new), &[]) {
        Ok((to, _none)) => to,
        Err(fault) => {
            drop(from);
            return tell_ended(host.alloc, &mut devices.faults, Err(fault));
        }
    };
    let ended = update_on(host, request, from, to, live, &mut devices.outputs);
    tell_ended(host.alloc, &mut devices.faults, ended)
}
