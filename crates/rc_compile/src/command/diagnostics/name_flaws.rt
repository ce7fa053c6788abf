//! Why a text is no name, in words.
ghost use Rattle.std.specs.Prelude.{IfSome, IfOk, IfNone};
ghost use Rattle.rc_model.specs.Names.{IsName};

use rc_names::{Name, NameFault, NoMem};
use std::alloc::Global;

/// What is wrong with a text that is to be a name.
#[derive(Clone, Copy)]
pub enum WrongName {
    /// In words.
    Said(&'static str),
    /// It holds this byte, which has no other name.
    Byte(u8),
}

const NO_TEXT: &str = "a name is UTF-8";

const EMPTY: &str = "a name has at least one byte";

const LONG: &str = "a name has at most 255 bytes";

const RESERVED: &str = "names that begin with 's6rc-' are reserved";

/// Returns the flaw of a text that is to be a name, or None if it is one.
pub fn wrong_name(alloc: Global, text: &[u8]) -> Result<Option<WrongName>, NoMem>
    ensures wrong { IfOk result (λ wrong. IfSome wrong (λ _. IsName text.now → ⊥)) }
    ensures right { IfOk result (λ wrong. IfNone wrong (IsName text.now)) }
{
    let Ok(name) = std::str::from_utf8(text) else {
        return Ok(Some(WrongName::Said(NO_TEXT)));
    };
    match Name::read(alloc, name) {
        Ok(_) => Ok(None),
        Err(NameFault::Empty) => Ok(Some(WrongName::Said(EMPTY))),
        Err(NameFault::Long) => Ok(Some(WrongName::Said(LONG))),
        Err(NameFault::BadByte) => Ok(Some(wrong_byte(text))),
        Err(NameFault::Reserved) => Ok(Some(WrongName::Said(RESERVED))),
        Err(NameFault::Memory) => Err(std::alloc::AllocError),
    }
}

// Returns the flaw of a text with a byte that may not stand where it does.
fn wrong_byte(text: &[u8]) -> WrongName {
    match text.first() {
        Some(b'-') => return WrongName::Said("a name can't begin with '-'"),
        Some(b'#') => return WrongName::Said("a name can't begin with '#'"),
        _ => {}
    }
    for byte in text {
        let byte = *byte;
        if byte <= b' ' || byte == b'/' || byte == 127 {
            return held(byte);
        }
    }
    WrongName::Said(NO_TEXT)
}

// Returns the flaw of a name that holds this byte.
fn held(byte: u8) -> WrongName {
    match byte {
        b'\r' => WrongName::Said("a name can't hold byte 13 (a Windows line end?)"),
        b' ' => WrongName::Said("a name can't hold a space (one name a line)"),
        b'\t' => WrongName::Said("a name can't hold a tab (one name a line)"),
        b'/' => WrongName::Said("a name can't hold a slash"),
        _ => WrongName::Byte(byte),
    }
}
