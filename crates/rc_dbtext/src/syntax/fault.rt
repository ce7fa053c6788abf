use std::fmt;
use thiserror::Error;

/// Why bytes do not begin with the text of a database, by their form alone.
#[derive(Clone, Copy, PartialEq, Eq, Debug, Error)]
pub enum FormFault {
    /// A line does not have the form that is due. This many bytes are left, from that line on.
    Bad(usize),
    /// The first line names another version.
    Version,
    /// A count is above 4,096.
    TooMany,
    Memory,
}

// Returns the message of a fault, without its place.
fn told_of(fault: &FormFault) -> &'static str {
    match fault {
        FormFault::Bad(_) => "a line has not the form that is due",
        FormFault::Version => "another version",
        FormFault::TooMany => "more than 4,096 services or bundles",
        FormFault::Memory => "out of memory",
    }
}

impl fmt::Display for FormFault {
    fn fmt<W: fmt::Write>(&self, f: &mut fmt::Formatter<W>) -> fmt::Result {
        match self {
            FormFault::Bad(left) => write!(f, "{}, {left} bytes before the end", told_of(self)),
            fault => f.write_str(told_of(fault)),
        }
    }
}
