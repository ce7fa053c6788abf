//! Tests of the libraries that no command of the built program can make. It prints what each shows:
//! the words of some refusals, the text of the sample, and workers whose transitions wait for each
//! other.
//!
//! With an argument, the program makes the calls of `growths` instead.
#![tactic(auto)]

mod crews;
mod growths;
mod sample_text;
mod samples;
mod words;

use crate::crews::show_crews;
use crate::growths::show_growths;
use crate::sample_text::show_sample_text;
use crate::words::show_words;
use std::test::Fail;
use std::{env, io};

fn main(rt: HostRuntime) -> Result<(), Fail> {
    if has_word(&rt)? {
        return show_growths(&rt, &rt);
    }
    show_words(&rt)?;
    show_sample_text(&rt)?;
    show_crews(&rt)
}

/// Returns true if a word follows the program's name.
fn has_word(rt: &HostRuntime) -> io::Result<bool> {
    Ok(env::args(rt)?.len() > 1)
}
