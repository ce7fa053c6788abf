//! Keeps what a command has altered.
ghost use Rattle.std.specs.Prelude.{◌≡◌, ◌⊎◌, ◌↔◌, false, length, IsTrue, IfOk, MatchOption};
ghost use Rattle.std.specs.Prelude.{OnOk};
ghost use Rattle.rc_script.specs.Says.{saying_of};
ghost use Rattle.rc_serve.specs.Keeping.{IsBefore, IsKeptAs, IsStill};

use crate::ending::Answer;
use crate::fault::ServeFault;
use crate::keeper::Keeper;
use rc_board::{Executor, Gate};
use rc_db::Table;
use rc_script::SessionLine;
use rc_session::Session;
use rc_set::{NoMem, Set};
use std::alloc::Global;

/// Tells the gate that a command begins, and returns a copy of the current state. Does nothing and
/// returns none for a line that is not a command.
pub(crate) fn begin_command<T, G: Gate>(
    executor: &Executor<'_, T, G>,
    session: &Session,
    said: &SessionLine,
) -> Result<Option<(Set, Table)>, NoMem>
    requires closed { session.now.begun ≡ false }
    ensures before { IfOk result (λ before.
        IsBefore before (saying_of said.now) session.now.line) }
{
    let SessionLine::Command(command) = said else {
        return Ok(None);
    };
    let before = current(executor.alloc, session)?;
    executor.gate.begin(session, command);
    Ok(Some(before))
}

/// Keeps the line of states if its current state is not the one from before the command, and
/// returns the answer. The line has changed exactly if that state has, since neighbours differ.
///
/// Tells the gate that the command is over, unless that failed and altered nothing: then services
/// may have moved.
pub(crate) fn keep_altered<T, K: Keeper, G: Gate>(
    executor: &Executor<'_, T, G>,
    session: &Session,
    keeper: &mut K,
    before: &Option<(Set, Table)>,
    answer: Result<Answer, ServeFault>,
) -> Result<Answer, ServeFault>
    requires closed { session.now.begun ≡ false }
    requires size { MatchOption before.now (Unit {0}) (λ state.
        length state.0 ≡ length session.now.line.current.live) }
    ensures kept { (IsStill before.now session.now.line × (result ≡ answer)
        × (keeper.new ≡ keeper.old))
        ⊎ ((IsStill before.now session.now.line → ⊥) × IsKeptAs answer result K.fails
        (K.failed keeper.new) (K.keeps keeper.old) (K.keeps keeper.new)
        session.now.database session.now.line) }
    ensures led { OnOk result ((IsStill before.now session.now.line × (keeper.new ≡ keeper.old))
        ⊎ ((IsStill before.now session.now.line → ⊥)
        × K.went keeper.old session.now.database session.now.line keeper.new)) }
{
    let Some((live, table)) = before else {
        return answer;
    };
    if is_current(session, live, table) {
        if answer.is_ok() {
            executor.gate.end();
        }
        return answer;
    }
    match keeper.keep(executor.alloc, session) {
        Ok(()) => {
            executor.gate.end();
            answer
        }
        Err(fault) => Err(ServeFault::from(fault)),
    }
}

/// Returns a copy of the current state.
fn current(alloc: Global, session: &Session) -> Result<(Set, Table), NoMem>
    ensures { IfOk result (λ state. (state.0 ≡ session.now.line.current.live)
        × (state.1 ≡ session.now.line.current.table)) }
{
    let live = session.live().copy(alloc)?;
    let table = session.table().copy(alloc)?;
    Ok((live, table))
}

/// Returns true if the current state is this one.
fn is_current(session: &Session, live: &Set, table: &Table) -> bool
    requires { length live.now ≡ length session.now.line.current.live }
    ensures { IsTrue result ↔ ((session.now.line.current.live ≡ live.now)
        × (session.now.line.current.table ≡ table.now)) }
{
    session.live().same(live) && session.table().same(table)
}
