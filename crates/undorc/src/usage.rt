//! Messages about a wrong command line.
use log::info;
use rc_args::{WordsFault, asks_help, lacks_words, tell_words};
use rc_launch::frontend::ForShell;
use rc_streams::escaping::Escaped;
use rc_streams::messages::{HINT, Messages};
use std::fmt::{self, Display, Formatter};

/// Returns true if the arguments only want the version, by an option that other programs have.
pub fn asks_version(words: &[String]) -> bool {
    match words {
        [_, word] => matches!(word.as_str(), "--version" | "-V"),
        _ => false,
    }
}

/// Prints help on standard output, or the fault of the arguments and what helps on standard error.
/// Returns the status.
pub fn tell_wrong(rt: &HostRuntime, words: &[String], fault: &WordsFault) -> u8 {
    if asks_help(fault) {
        return tell_words(&mut rt.stdout(), fault);
    }
    let status = tell_words(&mut Escaped::of_text(rt.stderr()), fault);
    if let [_, word, rest @ ..] = words {
        tell_meant(rt, word.as_str(), rest, fault);
    }
    status
}

/// Prints the command that may have been meant by a word and the arguments behind it.
fn tell_meant(rt: &HostRuntime, word: &str, rest: &[String], fault: &WordsFault) {
    let words = Typed(rest);
    match word {
        "up" => info!(Messages(rt); target: HINT, "undorc start{words} brings services up"),
        "down" => info!(Messages(rt); target: HINT, "undorc stop{words} brings services down"),
        "stop" if lacks_words(fault) => {
            let live = LiveOption(rest);
            info!(Messages(rt); target: HINT, "undorc cancel{live} calls a command off");
        }
        _ => {}
    }
}

/// Arguments as a shell reads them, or a place for a name if there are none.
#[derive(Clone, Copy)]
struct Typed<'a>(&'a [String]);

impl Display for Typed<'_> {
    fn fmt<W: fmt::Write>(&self, f: &mut Formatter<W>) -> fmt::Result {
        if self.0.is_empty() {
            return f.write_str(" NAME");
        }
        for word in self.0 {
            let word = ForShell(word.as_str());
            write!(f, " {word}")?;
        }
        Ok(())
    }
}

/// The option -l among arguments, if it stands there alone.
#[derive(Clone, Copy)]
struct LiveOption<'a>(&'a [String]);

impl Display for LiveOption<'_> {
    fn fmt<W: fmt::Write>(&self, f: &mut Formatter<W>) -> fmt::Result {
        let mut is_next = false;
        for word in self.0 {
            if is_next {
                let path = ForShell(word.as_str());
                return write!(f, " -l {path}");
            }
            is_next = word.as_str() == "-l";
        }
        Ok(())
    }
}
