ghost use Rattle.std.specs.Prelude.{◌≡◌, ◌↔◌, IfOk, IfErr, IsTrue};
ghost use Rattle.rc_model.specs.Names.{HasNameBytes, IsName};
ghost use Rattle.rc_names.specs.Name.{IsWrongBy};

use crate::NoMem;
use std::alloc::Global;
use std::fmt;
use std::marker::Model;
use thiserror::Error;

// The most bytes of a name.
const MAX_BYTES: usize = 255;

// The prefix of the names that no service may have.
const RESERVED: &str = "s6rc-";

/// Why a text is no name. The first fault in this order is the one that is reported.
#[derive(Clone, Copy, PartialEq, Eq, Debug, Error)]
pub enum NameFault {
    Empty = 1,
    Long = 2,
    BadByte = 3,
    Reserved = 4,
    Memory = 5,
}

// Returns the message of a fault.
fn told_of(fault: &NameFault) -> &'static str {
    match fault {
        NameFault::Empty => "a name has at least one byte",
        NameFault::Long => "a name has at most 255 bytes",
        NameFault::BadByte =>
            "a name has no control character, space or slash, and begins with neither `-` nor `#`",
        NameFault::Reserved => "names that begin with `s6rc-` are reserved",
        NameFault::Memory => "out of memory",
    }
}

impl fmt::Display for NameFault {
    fn fmt<W: fmt::Write>(&self, f: &mut fmt::Formatter<W>) -> fmt::Result {
        f.write_str(told_of(self))
    }
}

/// The name of a service.
#[derive(Debug)]
pub struct Name {
    text: String,
}

impl Model for Name {
    ghost use Rattle.std.specs.Prelude.{ℕ, List};
    ghost use Rattle.std.specs.String.{string_bytes};
    ghost use Rattle.rc_model.specs.Names.{IsName};

    ghost Value = { List ℕ };

    ghost view = { λ name. string_bytes name.text };

    ghost invariant = { λ name. IsName (string_bytes name.text) };
}

// Not derived: a crate that drops a value calls this, and proves nothing of its parts.
impl Drop for Name {
    fn drop(self) {
        let Name { text: _ } = self;
    }
}

impl Name {
    /// Reads a text as a name.
    pub fn read(alloc: Global, text: &str) -> Result<Name, NameFault>
        ensures name { IfOk result (λ name. (name ≡ text.now) × IsName text.now) }
        ensures fault { IfErr result (λ fault. IsWrongBy fault text.now) }
    {
        if text.is_empty() {
            return Err(NameFault::Empty);
        }
        if text.len() > MAX_BYTES {
            return Err(NameFault::Long);
        }
        if !has_name_bytes(text.as_bytes()) {
            return Err(NameFault::BadByte);
        }
        if text.starts_with(RESERVED) {
            return Err(NameFault::Reserved);
        }
        match String::from_str(alloc, text) {
            Ok(text) => Ok(Name { text }),
            Err(_) => Err(NameFault::Memory),
        }
    }

    /// Returns the name as text.
    pub fn text(&self) -> &str
        ensures bytes { result.now ≡ self.now }
        ensures name { IsName self.now }
    {
        self.text.as_str()
    }

    /// Creates a name from a text that [`is_name`] accepts.
    pub fn of(alloc: Global, text: &str) -> Result<Name, NoMem>
        requires { IsName text.now }
        ensures { IfOk result (λ name. name ≡ text.now) }
    {
        let text = String::from_str(alloc, text)?;
        Ok(Name { text })
    }

    /// Returns a copy of the name.
    pub fn copy(&self, alloc: Global) -> Result<Name, NoMem>
        ensures { IfOk result (λ copy. copy ≡ self.now) }
    {
        Name::of(alloc, self.text())
    }
}

/// Returns true if a text is a name.
pub fn is_name(text: &str) -> bool
    ensures { IsTrue result ↔ IsName text.now }
{
    !text.is_empty()
        && text.len() <= MAX_BYTES
        && has_name_bytes(text.as_bytes())
        && !text.starts_with(RESERVED)
}

// Returns true if these bytes may stand in a name, the first of them at its start.
fn has_name_bytes(bytes: &[u8]) -> bool
    ensures { IsTrue result ↔ HasNameBytes bytes.now }
{
    let starts_well = !matches!(bytes.first(), Some(b'-' | b'#'));
    starts_well
        && bytes
            .iter()
            .all(|&byte| byte > 32 && byte != b'/' && byte != 127)
}
