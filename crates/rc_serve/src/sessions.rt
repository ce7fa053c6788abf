//! A session over a reader and a writer.
ghost use Rattle.std.specs.Prelude.{◌≡◌, ◌≢◌, ◌⊎◌, ◌↔◌, ℕ, Bool, false, Err, OnOk, IfErr};
ghost use Rattle.std.specs.Prelude.{MatchResult};
ghost use Rattle.rc_streams.specs.Exchange.{exchanged};
ghost use Rattle.rc_streams.specs.Input.{ConsumesAtMost};
ghost use Rattle.rc_streams.specs.Noting.{HasFailed, IsFlushed, inner_of};
ghost use Rattle.rc_graph.specs.declared.Way.{Way};
ghost use Rattle.rc_board.specs.Crew.{IsCrew};
ghost use Rattle.rc_serve.specs.Faults.{IsOfAnswer, IsSpoiledBy};
ghost use Rattle.rc_serve.specs.Meeting.{IsDoneBy};
ghost use Rattle.rc_serve.specs.Serving.{ServesAll, ServesFront, Stays};
ghost use Rattle.rc_serve.specs.Playing.{PlaysInput};
ghost use Rattle.rc_serve.specs.SessionText.{FailsExactly, IsDoneFailing, IsTimeless};
ghost use Rattle.rc_serve.specs.SessionText.{ServesFailing};

use crate::fault::ServeFault;
use crate::keeper::Unkept;
use crate::kept_sessions::serve_kept;
use rc_board::{Executor, Gate};
use rc_session::Session;
use rc_streams::Noted;
use std::alloc::Global;
use std::io::{Read, Write};
use std::sync::Wait;
use std::thread::Threads;

/// Runs a session: reads lines, carries each out, and answers it before it waits for the next one.
/// Nothing keeps the session; `serve_kept` does the same with a keeper.
///
/// An answer is written whole and flushed. A refused command is answered too, and the session goes
/// on. The session ends with the input, or with a fault. After a fault, the lines before were done
/// and answered whole. The line whose answer could not be made or written may be done as well, and
/// nothing after it is.
///
/// Time grows with the bytes of the lines and with what the commands do. A line costs no more the
/// longer the journal is, except for `journal`, which shows it.
pub fn serve<T: Threads + Wait + Sync, R: Read, W: Write, G: Gate>(
    rt: &T,
    alloc: Global,
    reader: &mut Noted<R>,
    writer: &mut Noted<W>,
    session: &mut Session,
    gate: &G,
    workers: u8,
) -> Result<(), ServeFault>
    requires closed { session.old.begun ≡ false }
    requires reader { HasFailed reader.old → ⊥ }
    requires writer { HasFailed writer.old → ⊥ }

    // The whole input was read, and what was written is the answers to all its lines.
    ensures done { OnOk result (ServesAll (IsDoneBy workers (G.answers gate.now) (G.gives gate.now))
        (exchanged R.remaining W.contents reader.old reader.new writer.old writer.new)
        session.old session.new) }

    // Lines at the beginning of the input were met and answered whole, and then one more at most,
    // of whose answer a prefix was written. There is one more only where its answer could not be
    // made or written. A read fails only where no whole line is left. TooLong comes only where none
    // is left, and the input passes its bound, or where the next line passes its own. Workers fail
    // only where the next line is a command that moves a service.
    ensures begun { IfErr result (λ fault. ServesFront
        (IsDoneBy workers (G.answers gate.now) (G.gives gate.now)) fault
        (exchanged R.remaining W.contents reader.old reader.new writer.old writer.new)
        session.old session.new) }

    // Where the gate lets exactly certain transitions fail, and no limit is reached, what was
    // written is the text of the session for these, or a prefix of it: its bytes depend neither on
    // the number of workers nor on who was quicker.
    ensures text { (fails : ℕ → Way → Bool) →
        FailsExactly (G.answers gate.now) fails →
        IsTimeless (G.gives gate.now) (R.remaining (inner_of reader.old)) →
        OnOk result (ServesFailing fails
        (exchanged R.remaining W.contents reader.old reader.new writer.old writer.new)
        session.old session.new) }
    ensures front { (fails : ℕ → Way → Bool) →
        FailsExactly (G.answers gate.now) fails →
        IsTimeless (G.gives gate.now) (R.remaining (inner_of reader.old)) →
        IfErr result (λ fault. ServesFront (IsDoneFailing fails) fault
        (exchanged R.remaining W.contents reader.old reader.new writer.old writer.new)
        session.old session.new) }

    // Whatever the result, the commands among the lines that were met are played, and the headline
    // holds all along.
    ensures play { PlaysInput
        (R.remaining (inner_of reader.old)) (R.remaining (inner_of reader.new))
        session.old session.new }

    // Answers are flushed at the end, and before each read.
    ensures flushed { MatchResult result (λ _.
        IsFlushed writer.old → IsFlushed writer.new) (λ fault.
        IsOfAnswer fault ⊎ (IsFlushed writer.old → IsFlushed writer.new)) }

    // With a wrong number of workers nothing is read and nothing written, and with a right one that
    // is no fault.
    ensures crew { OnOk result (IsCrew workers) }
    ensures workers { (result ≡ Err ServeFault.Workers) ↔ (IsCrew workers → ⊥) }
    ensures unread { result ≡ Err ServeFault.Workers → reader.new ≡ reader.old }
    ensures unwritten { result ≡ Err ServeFault.Workers → writer.new ≡ writer.old }
    ensures same { result ≡ Err ServeFault.Workers → session.new ≡ session.old }

    // Where a device has failed it ends by a fault, and by one of the reader or the writer only
    // where that one has failed. Where the reader has failed, that is the fault: no read is made
    // before the lines that were read are answered.
    ensures sound { OnOk result ((HasFailed reader.new → ⊥) × (HasFailed writer.new → ⊥)) }
    ensures read { result ≡ Err ServeFault.Read → HasFailed reader.new }
    ensures told { HasFailed reader.new → result ≡ Err ServeFault.Read }
    ensures written { result ≡ Err ServeFault.Write → HasFailed writer.new }

    // Nothing is kept, so nothing fails to be.
    ensures unkept { result ≢ Err ServeFault.Io }

    // A session is poisoned by a strange fault, and by nothing else.
    ensures whole { IsSpoiledBy result session.old session.new }

    // Whatever the result, the database stays, nothing is begun, and one byte past the bound is the
    // last that is taken.
    ensures stays { Stays session.old session.new }
    ensures taken { ConsumesAtMost (R.remaining (inner_of reader.old))
        (R.remaining (inner_of reader.new)) 16777217 }
{
    let executor = Executor {
        rt,
        alloc,
        gate,
        workers,
    };
    serve_kept(&executor, reader, writer, session, &mut Unkept)
}
