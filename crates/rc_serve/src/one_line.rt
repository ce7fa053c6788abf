//! A session of one line.
ghost use Rattle.std.specs.Prelude.{◌≡◌, ◌⊎◌, ℕ, List, false, IfErr, IfOk, MatchResult};
ghost use Rattle.std.specs.Prelude.{OnOk, Ok};
ghost use Rattle.std.specs.Io.KnownBytes.{Appends};
ghost use Rattle.rc_streams.specs.Noting.{HasFailed, IsFlushed, inner_of};
ghost use Rattle.rc_board.specs.Crew.{IsCrew};
ghost use Rattle.rc_script.specs.Says.{saying_of};
ghost use Rattle.rc_serve.specs.Ending.{ArrivesSaying, Ends, IsDoneAs, StopsOnce};
ghost use Rattle.rc_serve.specs.Faults.{IsOfAnswer, IsServeFault, IsSpoiledBy};
ghost use Rattle.rc_serve.specs.Keeping.{IsKeptOnce, IsKeptUp};
ghost use Rattle.rc_serve.specs.Meeting.{IsDoneBy};
ghost use Rattle.rc_serve.specs.Serving.{Stays};
ghost use Rattle.rc_serve.specs.declared.ending.Ending.TheVariants.{Done};

use crate::altered::{begin_command, keep_altered};
use crate::answers::step_answer;
use crate::ending::Ending;
use crate::fault::ServeFault;
use crate::keeper::Keeper;
use rc_board::{Executor, Gate};
use rc_script::SessionLine;
use rc_session::Session;
use rc_streams::Noted;
use rc_streams::writing::write_answer;
use std::alloc::Global;
use std::io::Write;
use std::sync::Wait;
use std::thread::Threads;

/// Carries one line out, keeps what it altered, and writes its answer, as `serve_kept` does for
/// each line of its input. Returns how the line ended.
pub fn answer_once<T: Threads + Wait + Sync, W: Write, K: Keeper, G: Gate>(
    executor: &Executor<'_, T, G>,
    session: &mut Session,
    keeper: &mut K,
    said: &SessionLine,
    writer: &mut Noted<W>,
) -> Result<Ending, ServeFault>
    requires closed { session.old.begun ≡ false }
    requires crew { IsCrew executor.now.workers }
    requires writer { HasFailed writer.old → ⊥ }

    // What is said was met, it ended so, and what was written is its answer.
    ensures ended { IfOk result (λ ending. (text : List ℕ) × Ends
        (IsDoneAs executor.now.workers (G.answers executor.now.gate.now)
        (G.gives executor.now.gate.now)) ending
        session.old.database session.old.line (saying_of said.now) text session.new.line
        × Appends (W.contents (inner_of writer.old)) (W.contents (inner_of writer.new)) text) }

    // Where all that was planned is done, what is live is the target of the plan.
    ensures arrives { result ≡ Ok Done → ArrivesSaying session.old.database session.old.line
        (saying_of said.now) session.new.line }

    // The line of states that stands is kept, or it is as it was.
    ensures kept { OnOk result (IsKeptUp (K.keeps keeper.old) (K.keeps keeper.new)
        session.old.database session.old.line session.new.line) }
    ensures unaltered { session.new.line ≡ session.old.line → keeper.new ≡ keeper.old }

    // It is kept once where it was altered, and else not at all.
    ensures led { OnOk result (IsKeptOnce K.went session.old.database session.old.line
        session.new.line keeper.old keeper.new) }

    // A fault comes as in a session. Nothing of an answer is written before the line is kept.
    ensures stopped { IfErr result (λ fault. StopsOnce
        (IsDoneBy executor.now.workers (G.answers executor.now.gate.now)
        (G.gives executor.now.gate.now)) fault
        K.fails (K.keeps keeper.old) (K.keeps keeper.new) (saying_of said.now)
        (W.contents (inner_of writer.old)) (W.contents (inner_of writer.new))
        session.old session.new) }
    ensures fault { IfErr result (IsServeFault ⊥ (HasFailed writer.new) (K.failed keeper.new)) }
    ensures sound { OnOk result (HasFailed writer.new → ⊥) }
    ensures flushed { MatchResult result (λ _. IsFlushed writer.new) (λ fault. IsOfAnswer fault
        ⊎ (IsFlushed writer.old → IsFlushed writer.new)) }
    ensures stays { Stays session.old session.new }
    ensures whole { IsSpoiledBy result session.old session.new }
{
    // The session tells that its line is one of its database.
    let _ = session.db();
    let _ = session.journal();
    let Ok(before) = begin_command(executor, session, said) else {
        return Err(ServeFault::Memory);
    };
    let answer = step_answer(executor, session, said);
    let _ = session.journal();
    let answer = keep_altered(executor, session, keeper, &before, answer);
    drop(before);
    match answer {
        Ok(answer) => match write_answer(writer, &answer.text) {
            Ok(()) => Ok(answer.ending),
            Err(failure) => Err(ServeFault::from(failure)),
        },
        Err(fault) => Err(fault),
    }
}
