//! Calls that append to a text, which has bytes before.

ghost use Rattle.std.specs.Prelude.{◌≡◌, length};

use crate::growths::told::{fault_of, show_came, show_line};
use rc_db::Db;
use rc_dbtext::{push_bundle, push_line, push_set, push_word};
use rc_names::{Name, Names};
use rc_set::{NoMem, Set};
use std::alloc::{AllocGlobal, Global};
use std::io;
use std::io::Print;

/// What is appended.
#[derive(Clone, Copy)]
pub enum Pushed {
    /// A bundle as a line.
    Bundle,
    /// The names of a set.
    Set,
    /// A word.
    Word,
    /// A line of two words.
    Line,
}

/// The bytes that the text has before.
const HEAD: &[u8] = b"bundles 1\n";

/// Returns the bytes that a call must append.
fn due(pushed: Pushed) -> &'static [u8] {
    match pushed {
        Pushed::Bundle => b"bundle site web\n",
        Pushed::Set => b" web",
        Pushed::Word => b" a-word-that-is-longer-than-what-is-there",
        Pushed::Line => b"a-word-that-is-longer-than-what-is-there and-a-second-one\n",
    }
}

/// Appends to a text, and prints whether the text is as before, appended to or altered.
pub fn show_pushed(
    rt: &(impl Print + AllocGlobal),
    db: &Db,
    what: &str,
    pushed: Pushed,
) -> io::Result<()> {
    let table = db.table();
    if table.len() == 0 {
        return show_line(rt, "no bundle");
    }
    let (name, set) = table.at(0);
    let mut text = Vec::from_slice(rt.alloc(), HEAD)?;
    let _ = print!(rt; "{what}: ");
    let came = push(rt.alloc(), &mut text, db.names(), name, set, pushed);
    show_came(rt, fault_of(came))?;
    let left = left_of(&text, due(pushed));
    drop(text);
    show_line(rt, left)
}

fn push(
    alloc: Global,
    text: &mut Vec<u8>,
    names: &Names,
    name: &Name,
    set: &Set,
    pushed: Pushed,
) -> Result<(), NoMem>
    requires { length set.now ≡ length names.now }
{
    match pushed {
        Pushed::Bundle => push_bundle(alloc, text, names, name, set),
        Pushed::Set => push_set(alloc, text, names, set),
        Pushed::Word => push_word(text, b"a-word-that-is-longer-than-what-is-there"),
        Pushed::Line => {
            let first = b"a-word-that-is-longer-than-what-is-there";
            push_line(text, first, b"and-a-second-one")
        }
    }
}

/// Returns the word for a text, compared with what it was.
fn left_of(text: &[u8], due: &[u8]) -> &'static str {
    match text.strip_prefix(HEAD) {
        Some(rest) if rest.is_empty() => "as before",
        Some(rest) if rest == due => "appended",
        _ => "altered",
    }
}
