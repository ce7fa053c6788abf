use std::alloc::AllocError;
use std::fmt;
use thiserror::Error;

/// Why a query has no answer. The first fault in this order is the one that is reported.
#[derive(Clone, Copy, PartialEq, Eq, Debug, Error)]
pub enum QueryFault {
    /// The word at this place, counted from 0, is the name of nothing.
    Unknown(usize),
    /// The name is a bundle's, where a service's is asked for.
    NotAtomic,
    /// The name is a service's, where a bundle's is asked for.
    NotBundle,
    /// The name is a oneshot's, where a longrun's is asked for.
    NotLongrun,
    /// The name is a longrun's, where a oneshot's is asked for.
    NotOneshot,
    /// There was no room for the answer.
    Memory,
}

// Returns the message of a fault.
fn told_of(fault: &QueryFault) -> &'static str {
    match fault {
        QueryFault::Unknown(_) => "unknown name",
        QueryFault::NotAtomic => "a bundle",
        QueryFault::NotBundle => "no bundle",
        QueryFault::NotLongrun => "no longrun",
        QueryFault::NotOneshot => "no oneshot",
        QueryFault::Memory => "out of memory",
    }
}

impl fmt::Display for QueryFault {
    fn fmt<W: fmt::Write>(&self, f: &mut fmt::Formatter<W>) -> fmt::Result {
        f.write_str(told_of(self))
    }
}

impl From<AllocError> for QueryFault {
    ghost use Rattle.std.specs.Prelude.{◌≡◌};
    ghost use Rattle.rc_db.specs.declared.fault.QueryFault.TheVariants.{Memory};

    ghost from_gives = { λ _ fault. fault ≡ Memory };

    fn from(_: AllocError) -> QueryFault {
        QueryFault::Memory
    }
}
