//! The text that is printed of a call.

use rc_board::Fault;
use rc_session::Refusal;
use rc_set::NoMem;
use std::io;
use std::io::Print;

/// Prints that a call is done, and names the next one.
pub fn go_on_to(rt: &impl Print, what: &str) {
    let _ = print!(rt; "done; {what}: ");
}

/// Returns the result of a call, with a lack of memory as a refusal.
pub(crate) fn fault_of(came: Result<(), NoMem>) -> Result<(), Fault> {
    match came {
        Ok(()) => Ok(()),
        Err(_) => Err(Fault::Refused(Refusal::Memory)),
    }
}

/// Returns the result of a call whose answer is checked: a wrong answer is strange, and a lack of
/// memory is a refusal.
pub(crate) fn came_of(is_right: Result<bool, NoMem>) -> Result<(), Fault> {
    match is_right {
        Ok(true) => Ok(()),
        Ok(false) => Err(Fault::Strange),
        Err(short) => fault_of(Err(short)),
    }
}

/// Prints the result of a call, with more to follow on the line.
pub fn show_came(rt: &impl Print, came: Result<(), Fault>) -> io::Result<()> {
    match came {
        Ok(()) => print!(rt; "done, "),
        Err(fault) => print!(rt; "{fault}, "),
    }
}

/// Prints the result of a call, and whether the value on which it was made is as before.
pub(crate) fn show_end(rt: &impl Print, came: Result<(), NoMem>, is_same: bool) -> io::Result<()> {
    show_came(rt, fault_of(came))?;
    show_same(rt, is_same)
}

/// Prints whether the value on which a call was made is as before.
pub(crate) fn show_same(rt: &impl Print, is_same: bool) -> io::Result<()> {
    show_line(rt, if is_same { "as before" } else { "altered" })
}

/// Prints the given text, and ends the line.
pub fn show_line(rt: &impl Print, line: &str) -> io::Result<()> {
    println!(rt; "{line}")
}
