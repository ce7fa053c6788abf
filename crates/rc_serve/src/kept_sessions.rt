//! A session over a reader and a writer, which a keeper keeps.
ghost use Rattle.std.specs.Prelude.{◌≡◌, ◌⊎◌, ◌≤◌, ◌↔◌, ℕ, Bool, false, Err, IfOk, OnOk};
ghost use Rattle.std.specs.Prelude.{IfErr, IsTrue, MatchOption, MatchResult};
ghost use Rattle.rc_streams.specs.Exchange.{exchanged};
ghost use Rattle.rc_streams.specs.Input.{ConsumesAtMost};
ghost use Rattle.rc_streams.specs.Noting.{HasFailed, IsFlushed, inner_of};
ghost use Rattle.rc_streams.specs.Taking.{HandsNothing};
ghost use Rattle.rc_script.specs.Says.{saying_of};
ghost use Rattle.rc_graph.specs.declared.Way.{Way};
ghost use Rattle.rc_board.specs.Crew.{IsCrew};
ghost use Rattle.rc_serve.specs.Faults.{IsOfAnswer, IsServeFault, IsSpoiledBy};
ghost use Rattle.rc_serve.specs.Keeping.{AltersNone, IsKeptUp, ServesFrontFailingKept};
ghost use Rattle.rc_serve.specs.Keeping.{ServesFrontKept};
ghost use Rattle.rc_serve.specs.Meeting.{IsDoneBy};
ghost use Rattle.rc_serve.specs.Serving.{HandsSaying, ServesAll, StandsUnread, Stays};
ghost use Rattle.rc_serve.specs.Playing.{PlaysInput};
ghost use Rattle.rc_serve.specs.SessionText.{FailsExactly, IsTimeless, ServesFailing};

use crate::fault::ServeFault;
use crate::keeper::Keeper;
use crate::one_line::answer_once;
use rc_board::{Executor, Gate};
use rc_script::{SessionLine, read_line};
use rc_session::Session;
use rc_streams::{Lines, Noted};
use std::alloc::Global;
use std::io::{Read, Write};
use std::sync::Wait;
use std::thread::Threads;

/// The most workers of a session.
const MAX_WORKERS: u8 = 64;

/// Runs a session as `serve` does, and keeps it: what a line alters is kept before its answer is
/// written.
///
/// An answer is written whole and flushed. A refused command is answered too, and the session goes
/// on. The session ends with the input, or with a fault. After a fault, the lines before were done
/// and answered whole. The line whose answer could not be made or written may be done as well, and
/// nothing after it is.
///
/// Time grows with the bytes of the lines and with what the commands do. A line costs no more the
/// longer the journal is, except for `journal`, which shows it.
pub fn serve_kept<T: Threads + Wait + Sync, R: Read, W: Write, K: Keeper, G: Gate>(
    executor: &Executor<'_, T, G>,
    reader: &mut Noted<R>,
    writer: &mut Noted<W>,
    session: &mut Session,
    keeper: &mut K,
) -> Result<(), ServeFault>
    requires closed { session.old.begun ≡ false }
    requires reader { HasFailed reader.old → ⊥ }
    requires writer { HasFailed writer.old → ⊥ }

    // The whole input was read, and what was written is the answers to all its lines.
    ensures done { OnOk result (ServesAll
        (IsDoneBy executor.now.workers (G.answers executor.now.gate.now)
        (G.gives executor.now.gate.now))
        (exchanged R.remaining W.contents reader.old reader.new writer.old writer.new)
        session.old session.new) }

    // The line of states that stands is kept, or none was altered.
    ensures kept { OnOk result (IsKeptUp (K.keeps keeper.old) (K.keeps keeper.new)
        session.old.database session.old.line session.new.line) }

    // A session none of whose lines alters the line of states keeps nothing.
    ensures unaltered { AltersNone
        (IsDoneBy executor.now.workers (G.answers executor.now.gate.now)
        (G.gives executor.now.gate.now))
        (R.remaining (inner_of reader.old)) session.old.database session.old.line
        → keeper.new ≡ keeper.old }

    // Lines at the beginning of the input were met and answered whole, and then one more at most,
    // of whose answer a prefix was written. There is one more only where it could not be kept, its
    // answer could not be written, or memory was wanting. A read fails only where no whole line is
    // left. TooLong comes only where none is left, and the input passes its bound, or where the
    // next line passes its own. Workers fail only where the next line is a command that moves a
    // service. The line of states that stands is kept, or none was altered; or keeping it has
    // failed: then nothing was written of its answer, and the one before it is kept.
    ensures begun { IfErr result (λ fault. ServesFrontKept
        (IsDoneBy executor.now.workers (G.answers executor.now.gate.now)
        (G.gives executor.now.gate.now)) fault
        K.fails (K.keeps keeper.old) (K.keeps keeper.new)
        (exchanged R.remaining W.contents reader.old reader.new writer.old writer.new)
        session.old session.new) }

    // Where the gate lets exactly certain transitions fail, and no limit is reached, what was
    // written is the text of the session for these, or a prefix of it: its bytes depend neither on
    // the number of workers nor on who was quicker.
    ensures text { (fails : ℕ → Way → Bool) →
        FailsExactly (G.answers executor.now.gate.now) fails →
        IsTimeless (G.gives executor.now.gate.now) (R.remaining (inner_of reader.old)) →
        OnOk result (ServesFailing fails
        (exchanged R.remaining W.contents reader.old reader.new writer.old writer.new)
        session.old session.new) }
    ensures front { (fails : ℕ → Way → Bool) →
        FailsExactly (G.answers executor.now.gate.now) fails →
        IsTimeless (G.gives executor.now.gate.now) (R.remaining (inner_of reader.old)) →
        IfErr result (λ fault. ServesFrontFailingKept fault
        K.fails (K.keeps keeper.old) (K.keeps keeper.new) fails
        (exchanged R.remaining W.contents reader.old reader.new writer.old writer.new)
        session.old session.new) }

    // Whatever the result, the commands among the lines that were met are played,
    // and the headline holds all along.
    ensures play { PlaysInput
        (R.remaining (inner_of reader.old)) (R.remaining (inner_of reader.new))
        session.old session.new }

    // Answers are flushed at the end, and before each read.
    ensures flushed { MatchResult result (λ _.
        IsFlushed writer.old → IsFlushed writer.new) (λ fault.
        IsOfAnswer fault ⊎ (IsFlushed writer.old → IsFlushed writer.new)) }

    // With a wrong number of workers nothing is read and nothing written, and
    // with a right one that is no fault.
    ensures crew { OnOk result (IsCrew executor.now.workers) }
    ensures workers { (result ≡ Err ServeFault.Workers) ↔ (IsCrew executor.now.workers → ⊥) }
    ensures unread { result ≡ Err ServeFault.Workers → reader.new ≡ reader.old }
    ensures unwritten { result ≡ Err ServeFault.Workers → writer.new ≡ writer.old }
    ensures same { result ≡ Err ServeFault.Workers → session.new ≡ session.old }
    ensures unkept { result ≡ Err ServeFault.Workers → keeper.new ≡ keeper.old }

    // Where a device has failed it ends by a fault, and by one of the reader or the writer
    // only where that one has failed.
    ensures sound { OnOk result ((HasFailed reader.new → ⊥) × (HasFailed writer.new → ⊥)) }
    ensures read { result ≡ Err ServeFault.Read → HasFailed reader.new }

    // If the reader has failed, the fault is Read: all lines that were read are answered before
    // the next read.
    ensures told { HasFailed reader.new → result ≡ Err ServeFault.Read }
    ensures written { result ≡ Err ServeFault.Write → HasFailed writer.new }

    // It ends as Io only where the keeper has failed.
    ensures io { result ≡ Err ServeFault.Io → K.failed keeper.new }

    // A session is poisoned by a strange fault, and by nothing else.
    ensures whole { IsSpoiledBy result session.old session.new }

    // Whatever the result, the database stays, nothing is begun, and one byte past the
    // bound is the last that is taken.
    ensures stays { Stays session.old session.new }
    ensures taken { ConsumesAtMost (R.remaining (inner_of reader.old))
        (R.remaining (inner_of reader.new)) 16777217 }
{
    // The session tells that its line is one of its database.
    let _ = session.db();
    let _ = session.journal();
    if !is_crew(executor.workers) {
        return Err(ServeFault::Workers);
    }
    let mut lines = Lines::new(executor.alloc);
    loop {
        let (said, ends) = match next_said(executor.alloc, &mut lines, reader) {
            Ok(Some(next)) => next,
            Ok(None) => return Ok(()),
            Err(fault) => return Err(fault),
        };
        let ended = answer_once(executor, session, keeper, &said, writer);
        drop(said);
        match ended {
            Ok(_) => {
                if !ends {
                    return Ok(());
                }
            }
            Err(fault) => return Err(fault),
        }
    }
}

/// Returns true if a session may have so many workers.
fn is_crew(workers: u8) -> bool
    ensures { IsTrue result ↔ IsCrew workers }
{
    workers >= 1 && workers <= MAX_WORKERS
}

/// Returns what the next line says, and whether it ends in a newline. One that does not is the
/// last. Returns none if no line is left.
fn next_said<R: Read>(
    alloc: Global,
    lines: &mut Lines,
    reader: &mut Noted<R>,
) -> Result<Option<(SessionLine, bool)>, ServeFault>
    requires { HasFailed reader.old → ⊥ }
    ensures said { IfOk result (λ next. MatchOption next
        (HandsNothing (R.remaining (inner_of reader.old))
        (R.remaining (inner_of reader.new)) lines.old lines.new)
        (λ found. HandsSaying found.1 (R.remaining (inner_of reader.old))
        (R.remaining (inner_of reader.new)) lines.old lines.new (saying_of found.0))) }
    ensures fault { IfErr result (λ fault. StandsUnread fault (R.remaining (inner_of reader.old))
        (R.remaining (inner_of reader.new)) lines.old lines.new) }
    ensures device { IfErr result (IsServeFault (HasFailed reader.new) ⊥ ⊥) }
    ensures sound { OnOk result (HasFailed reader.new → ⊥) }
    ensures told { HasFailed reader.new → result ≡ Err ServeFault.Read }
    ensures within { lines.new.taken ≤ 16777217 }
{
    match lines.next(alloc, reader) {
        Ok(Some((line, ends))) => match read_line(alloc, &line) {
            Ok(said) => Ok(Some((said, ends))),
            Err(_) => Err(ServeFault::Memory),
        },
        Ok(None) => Ok(None),
        Err(failure) => Err(ServeFault::from(failure)),
    }
}
