//! The faults that `clap` finds in arguments with control characters, which messages show escaped.

use crate::asked::WordsFault;
use crate::cmdline::{is_memory, matches_of};
use clap::Error as ClapError;
use rc_streams::escaping::Shown;
use std::alloc::{AllocError, Global};

/// Returns the fault of arguments that `clap` refuses with the given error. If they have control
/// characters, it is the fault that `clap` finds in their escapes. Its message then has no newlines
/// except those of `clap`.
pub(crate) fn shown_fault(alloc: Global, words: &[String], error: ClapError) -> WordsFault {
    if !has_controls(words) {
        return WordsFault::Found(error);
    }
    match shown_words(alloc, words) {
        Ok(shown) => {
            let fault = fault_of_shown(alloc, &shown, error);
            drop(shown);
            fault
        }
        Err(_) => {
            drop(error);
            WordsFault::Memory
        }
    }
}

// Returns the fault that `clap` finds in the arguments, or the given error if it finds none.
fn fault_of_shown(alloc: Global, words: &[String], error: ClapError) -> WordsFault {
    match matches_of(alloc, words) {
        Ok(matches) => {
            drop(matches);
            WordsFault::Found(error)
        }
        Err(shown) => {
            drop(error);
            if is_memory(&shown) {
                drop(shown);
                WordsFault::Memory
            } else {
                WordsFault::Found(shown)
            }
        }
    }
}

// Returns true if any argument has a control character.
fn has_controls(words: &[String]) -> bool {
    words.iter().any(|word| word
        .as_str()
        .chars()
        .any(|character| character.is_control()))
}

// Copies the arguments, with escapes in place of their control characters.
fn shown_words(alloc: Global, words: &[String]) -> Result<Vec<String>, AllocError> {
    let mut shown = Vec::new(alloc);
    for word in words {
        let word = Shown(word);
        shown.push(format!(in alloc; "{word}")?)?;
    }
    Ok(shown)
}
