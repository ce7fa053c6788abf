//! What keeps the line of states of a session, so that it outlasts the program.
ghost use Rattle.std.specs.Prelude.{◌≡◌, ◌⊎◌, false, OnOk, OnErr, IfErr};
ghost use Rattle.rc_model.specs.Database.{Database};
ghost use Rattle.rc_model.specs.Line.{Line};
ghost use Rattle.rc_serve.specs.Keeping.{IsKeptOn};
ghost use Rattle.rc_serve.specs.declared.keeper.KeepFault.{KeepFault as Failing};

use rc_session::Session;
use std::alloc::Global;
use thiserror::Error;

/// Why a line of states is not kept.
#[derive(Clone, Copy, PartialEq, Eq, Debug, Error)]
pub enum KeepFault {
    /// It could not be written.
    #[error("Io")]
    Io = 1,
    #[error("Memory")]
    Memory = 2,
}

/// What keeps the line of states of a session.
pub trait Keeper {
    /// States that this line of states of a database is kept.
    ghost keeps: { Self → Database → Line → Type 0 };

    /// States that the keeper may return this fault.
    ghost fails: { Failing → Type 0 };

    /// States that the keeper has failed.
    ghost failed: { Self → Type 0 };

    /// States that keeping this line of states of a database has led from one keeper to another.
    ghost went: { Self → Database → Line → Self → Type 0 };

    /// Keeps the line of states as it stands, in place of what was kept. If that fails, what was
    /// kept before is still kept, or the line is.
    fn keep(&mut self, alloc: Global, session: &Session) -> Result<(), KeepFault>
        requires { session.now.begun ≡ false }
        ensures kept { OnOk result (keeps self.new session.now.database session.now.line) }
        ensures led { OnOk result
            (went self.old session.now.database session.now.line self.new) }
        ensures left { OnErr result (IsKeptOn (keeps self.old) (keeps self.new)
            ⊎ keeps self.new session.now.database session.now.line) }
        ensures fault { IfErr result fails }
        ensures io { IfErr result (λ fault. fault ≡ KeepFault.Io → failed self.new) };
}

/// A keeper that keeps nothing, and never fails.
#[derive(Clone, Copy, Debug)]
pub struct Unkept;

impl Keeper for Unkept {
    ghost keeps = { λ keeper d line. Unit {0} };

    ghost fails = { λ fault. ⊥ };

    ghost failed = { λ keeper. ⊥ };

    ghost went = { λ old d line new. Unit {0} };

    fn keep(&mut self, _alloc: Global, _session: &Session) -> Result<(), KeepFault> {
        Ok(())
    }
}
