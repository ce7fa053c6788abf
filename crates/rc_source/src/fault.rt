use std::alloc::{AllocError, AllocFailed};
use std::fmt;
use thiserror::Error;

/// What is wrong with an entry of a tree.
#[derive(Clone, Copy, PartialEq, Eq, Debug, Error)]
pub enum Flaw {
    Io = 1,
    NotText = 2,
    TooLong = 3,
    BadName = 4,
    Twice = 5,
    NoType = 6,
    BadType = 7,
    NoUp = 8,
    NoRun = 9,
    BadTimeout = 10,
    Memory = 11,
}

impl fmt::Display for Flaw {
    fn fmt<W: fmt::Write>(&self, f: &mut fmt::Formatter<W>) -> fmt::Result {
        write!(f, "{self:?}")
    }
}

impl From<AllocError> for Flaw {
    ghost use Rattle.std.specs.Prelude.{◌≡◌};
    ghost use Rattle.rc_source.specs.declared.fault.Flaw.TheVariants.{Memory};

    ghost from_gives = { λ _ flaw. flaw ≡ Memory };

    fn from(_fault: AllocError) -> Flaw {
        Flaw::Memory
    }
}

impl<T: Drop> From<AllocFailed<T>> for Flaw {
    ghost use Rattle.std.specs.Prelude.{◌≡◌};
    ghost use Rattle.rc_source.specs.declared.fault.Flaw.TheVariants.{Memory};

    ghost from_gives = { λ _ flaw. flaw ≡ Memory };

    fn from(_fault: AllocFailed<T>) -> Flaw {
        Flaw::Memory
    }
}

/// Why trees give no definitions, and the name of the entry. The name is empty if a tree could not
/// be listed.
#[derive(Debug, Drop, Error)]
pub enum SourceFault {
    Io(String),
    NotText(String),
    TooLong(String),
    BadName(String),
    Twice(String),
    NoType(String),
    BadType(String),
    NoUp(String),
    NoRun(String),
    BadTimeout(String),
    Memory,
}

impl SourceFault {
    ghost use Rattle.std.specs.Prelude.{◌≡◌};
    ghost use Rattle.rc_source.specs.Tests.{name_carried, flaw_of};

    /// Returns the flaw that the fault reports.
    pub fn flaw(&self) -> Flaw
        ensures { result ≡ flaw_of self.now }
    {
        match self {
            SourceFault::Io(_) => Flaw::Io,
            SourceFault::NotText(_) => Flaw::NotText,
            SourceFault::TooLong(_) => Flaw::TooLong,
            SourceFault::BadName(_) => Flaw::BadName,
            SourceFault::Twice(_) => Flaw::Twice,
            SourceFault::NoType(_) => Flaw::NoType,
            SourceFault::BadType(_) => Flaw::BadType,
            SourceFault::NoUp(_) => Flaw::NoUp,
            SourceFault::NoRun(_) => Flaw::NoRun,
            SourceFault::BadTimeout(_) => Flaw::BadTimeout,
            SourceFault::Memory => Flaw::Memory,
        }
    }

    /// Returns the name of the entry. It is empty if a tree could not be listed or memory ran out.
    pub fn entry(&self) -> &str
        ensures { result.now ≡ name_carried self.now }
    {
        match self {
            SourceFault::Io(name)
            | SourceFault::NotText(name)
            | SourceFault::TooLong(name)
            | SourceFault::BadName(name)
            | SourceFault::Twice(name)
            | SourceFault::NoType(name)
            | SourceFault::BadType(name)
            | SourceFault::NoUp(name)
            | SourceFault::NoRun(name)
            | SourceFault::BadTimeout(name) => name.as_str(),
            SourceFault::Memory => "",
        }
    }
}

impl fmt::Display for SourceFault {
    fn fmt<W: fmt::Write>(&self, f: &mut fmt::Formatter<W>) -> fmt::Result {
        match self {
            SourceFault::Memory => write!(f, "Memory"),
            fault => write!(f, "{} {}", fault.flaw(), fault.entry()),
        }
    }
}

impl From<AllocError> for SourceFault {
    ghost use Rattle.std.specs.Prelude.{◌≡◌};
    ghost use Rattle.rc_source.specs.declared.fault.SourceFault.TheVariants.{Memory};

    ghost from_gives = { λ _ fault. fault ≡ Memory };

    fn from(_fault: AllocError) -> SourceFault {
        SourceFault::Memory
    }
}
