//! The words of refusals that no command prints.

use rc_core::NotLegal;
use rc_model::LineFault;
use rc_names::NameFault;
use std::io;

const NAME_FAULTS: [NameFault; 5] = [
    NameFault::Empty,
    NameFault::Long,
    NameFault::BadByte,
    NameFault::Reserved,
    NameFault::Memory,
];

const LINE_FAULTS: [LineFault; 3] = [
    LineFault::NothingToUndo,
    LineFault::NothingToRedo,
    LineFault::Memory,
];

pub(crate) fn show_words(rt: &impl Print) -> io::Result<()> {
    for fault in &NAME_FAULTS {
        println!(rt; "{} {fault}", *fault as u8)?;
    }
    for fault in &LINE_FAULTS {
        println!(rt; "{} {fault}", *fault as u8)?;
    }
    println!(rt; "{NotLegal}")
}
