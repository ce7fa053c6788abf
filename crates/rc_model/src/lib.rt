//! What the headline says, and all that it rests on: the enums below, to be read first, then eight
//! modules of definitions in `specs/`, in this order: Names, Graph, Database, Plan, Run, Line,
//! Session, Headline. A ninth, Beside, holds words of other contracts, on which the headline does
//! not rest. How formulas are read is said in `docs/PROOF.md`, "How to read a promise".
#![tactic(auto)]

use std::alloc::AllocError;
use std::fmt;
use thiserror::Error;

/// The most services that a database has. It has no more bundles than that either.
pub const MAX_NAMES: u16 = 4096;

/// What a name stands for.
#[derive(Clone, Copy, PartialEq, Eq, Debug)]
pub enum Kind {
    /// A program that runs once and ends.
    Oneshot,
    /// A daemon, which runs until it is stopped.
    Longrun,
    /// A set of services.
    Bundle,
}

/// Which way a change goes.
#[derive(Clone, Copy, PartialEq, Eq, Debug)]
pub enum Mode {
    /// The wanted come up, with all that they need.
    Up,
    /// The wanted go down, with all that need them; what is marked as essential and is up stays,
    /// with all that it needs.
    Down,
    /// The wanted go down, with all that need them, whatever is essential.
    DownAll,
}

/// Why there is no plan. The first fault in this order is the one that is reported.
#[derive(Clone, Copy, PartialEq, Eq, Debug, Error)]
pub enum PlanFault {
    /// Only a change upwards prunes, that is, takes down what is not wanted.
    PruneNeedsUp,
    /// The word at this place, counted from 0, is the name of nothing.
    Unknown(usize),
    /// Memory ran out.
    Memory,
}

impl fmt::Display for PlanFault {
    fn fmt<W: fmt::Write>(&self, f: &mut fmt::Formatter<W>) -> fmt::Result {
        f.write_str(told_of(&Refusal::from(*self)))
    }
}

impl From<AllocError> for PlanFault {
    ghost use Rattle.std.specs.Prelude.{◌≡◌};
    ghost use Rattle.rc_model.specs.declared.PlanFault.TheVariants.{Memory};

    ghost from_gives = { λ _ fault. fault ≡ Memory };

    fn from(_: AllocError) -> PlanFault {
        PlanFault::Memory
    }
}

/// Why bundles are not defined or removed. Nothing has changed. Which fault comes first is said in
/// `specs/Line`.
#[derive(Clone, Copy, PartialEq, Eq, Debug, Error)]
pub enum BundleFault {
    /// The word at this place is the name of a service. In a definition place 0 is the name.
    IsAtomic(usize),
    /// The name is a bundle's, and nothing is forced.
    Exists,
    /// The word at this place is no bundle's name, and nothing is forced.
    Missing(usize),
    /// The word at this place is the name of nothing. The contents of a definition count from 1.
    Unknown(usize),
    /// Memory ran out.
    Memory,
    /// The name is new, and the table has as many bundles as it may have.
    Full,
}

impl fmt::Display for BundleFault {
    fn fmt<W: fmt::Write>(&self, f: &mut fmt::Formatter<W>) -> fmt::Result {
        f.write_str(told_of(&Refusal::from(*self)))
    }
}

impl From<AllocError> for BundleFault {
    ghost use Rattle.std.specs.Prelude.{◌≡◌};
    ghost use Rattle.rc_model.specs.declared.BundleFault.TheVariants.{Memory};

    ghost from_gives = { λ _ fault. fault ≡ Memory };

    fn from(_: AllocError) -> BundleFault {
        BundleFault::Memory
    }
}

/// How a transition ended.
#[derive(Clone, Copy, Debug, PartialEq, Eq)]
pub enum Outcome {
    /// It succeeded.
    Ok,
    /// It ended with this status.
    Failed(u8),
    /// It took longer than its service lets it.
    TimedOut,
    /// It could not be started.
    NotStarted,
}

/// One step of a run. Workers are numbers from 1 to 64, moments are in milliseconds.
#[derive(Clone, Copy, Debug, PartialEq, Eq)]
pub enum Event {
    /// A worker takes a service.
    Take(u8, u16),
    /// The transition of the service that a worker holds has ended.
    Done(u8, u16, Outcome),
    /// A worker saw at this moment that the deadline has come, and stops the run.
    Stop(u8, u64),
}

/// Where a service stands.
#[derive(Clone, Copy, Debug, PartialEq, Eq)]
pub enum Standing {
    Down,
    /// On its way up: a worker holds it.
    Rising,
    Up,
    /// On its way down: a worker holds it.
    Sinking,
}

/// Why a command is refused. Nothing has changed then.
#[derive(Clone, Copy, PartialEq, Eq, Debug, Error)]
pub enum Refusal {
    /// The event at this place is not legal after those before it.
    BadEvent(usize),
    /// The events are legal and leave something to do. The place is their number.
    NotSettled(usize),
    PruneNeedsUp,
    /// The word at this place is the name of nothing.
    Unknown(usize),
    /// The word at this place is the name of a service.
    IsAtomic(usize),
    Exists,
    /// The word at this place is no bundle.
    Missing(usize),
    Full,
    NothingToUndo,
    NothingToRedo,
    /// Services move between the current state and the one beside it. Only the calls that undo or
    /// redo an edit, and no run, give this. No answer of the eight modules is this, `Strange` or
    /// `Memory`.
    NotEdit,
    /// The session is poisoned: a run of it was lost, so nobody can tell what is live.
    Strange,
    Memory,
}

// Returns the message of a refusal.
fn told_of(refusal: &Refusal) -> &'static str {
    match refusal {
        Refusal::BadEvent(_) => "an event is not legal after those before it",
        Refusal::NotSettled(_) => "the events leave something to do",
        Refusal::PruneNeedsUp => "prune goes with up alone",
        Refusal::Unknown(_) => "unknown name",
        Refusal::IsAtomic(_) => "a service has that name",
        Refusal::Exists => "there is such a bundle",
        Refusal::Missing(_) => "there is no such bundle",
        Refusal::Full => "there are too many bundles",
        Refusal::NothingToUndo => "there is nothing to undo",
        Refusal::NothingToRedo => "there is nothing to redo",
        Refusal::NotEdit => "services moved between the two states",
        Refusal::Strange => "the session is poisoned",
        Refusal::Memory => "out of memory",
    }
}

impl fmt::Display for Refusal {
    fn fmt<W: fmt::Write>(&self, f: &mut fmt::Formatter<W>) -> fmt::Result {
        f.write_str(told_of(self))
    }
}

impl From<AllocError> for Refusal {
    ghost use Rattle.std.specs.Prelude.{◌≡◌};
    ghost use Rattle.rc_model.specs.declared.Refusal.TheVariants.{Memory};

    ghost from_gives = { λ _ refusal. refusal ≡ Memory };

    fn from(_: AllocError) -> Refusal {
        Refusal::Memory
    }
}

impl From<PlanFault> for Refusal {
    ghost use Rattle.std.specs.Prelude.{◌≡◌};
    ghost use Rattle.rc_model.specs.Beside.{of_plan};

    ghost from_gives = { λ fault refusal. refusal ≡ of_plan fault };

    fn from(fault: PlanFault) -> Refusal {
        match fault {
            PlanFault::PruneNeedsUp => Refusal::PruneNeedsUp,
            PlanFault::Unknown(place) => Refusal::Unknown(place),
            PlanFault::Memory => Refusal::Memory,
        }
    }
}

/// Why a change, an edit, an undo or a redo was not begun on a line of states. Nothing has changed.
/// It is in none of the eight modules: calls below a session give it.
#[derive(Clone, Copy, PartialEq, Eq, Debug, Error)]
pub enum LineFault {
    /// The current state is the first.
    NothingToUndo = 1,
    /// The current state is the last.
    NothingToRedo = 2,
    /// Memory ran out.
    Memory = 3,
}

impl fmt::Display for LineFault {
    fn fmt<W: fmt::Write>(&self, f: &mut fmt::Formatter<W>) -> fmt::Result {
        f.write_str(told_of(&Refusal::from(*self)))
    }
}

impl From<AllocError> for LineFault {
    ghost use Rattle.std.specs.Prelude.{◌≡◌};
    ghost use Rattle.rc_model.specs.declared.LineFault.TheVariants.{Memory};

    ghost from_gives = { λ _ fault. fault ≡ Memory };

    fn from(_: AllocError) -> LineFault {
        LineFault::Memory
    }
}

impl From<LineFault> for Refusal {
    ghost use Rattle.std.specs.Prelude.{◌≡◌};
    ghost use Rattle.rc_model.specs.Beside.{of_line};

    ghost from_gives = { λ fault refusal. refusal ≡ of_line fault };

    fn from(fault: LineFault) -> Refusal {
        match fault {
            LineFault::NothingToUndo => Refusal::NothingToUndo,
            LineFault::NothingToRedo => Refusal::NothingToRedo,
            LineFault::Memory => Refusal::Memory,
        }
    }
}

impl From<BundleFault> for Refusal {
    ghost use Rattle.std.specs.Prelude.{◌≡◌};
    ghost use Rattle.rc_model.specs.Beside.{of_bundle};

    ghost from_gives = { λ fault refusal. refusal ≡ of_bundle fault };

    fn from(fault: BundleFault) -> Refusal {
        match fault {
            BundleFault::IsAtomic(place) => Refusal::IsAtomic(place),
            BundleFault::Exists => Refusal::Exists,
            BundleFault::Missing(place) => Refusal::Missing(place),
            BundleFault::Unknown(place) => Refusal::Unknown(place),
            BundleFault::Memory => Refusal::Memory,
            BundleFault::Full => Refusal::Full,
        }
    }
}
