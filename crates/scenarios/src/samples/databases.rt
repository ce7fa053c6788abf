//! Small databases.

ghost use Rattle.std.specs.Prelude.{◌<◌, length};

use rc_db::{Db, NoMem, Table};
use rc_dbtext::read_db;
use rc_names::Name;
use rc_set::Set;
use std::alloc::{AllocError, Global};
use std::test::Fail;

/// The text of the sample. Each oneshot runs the same text on both ways, but an essential one has
/// nothing to run on the way down.
const SAMPLE: &str = "undorc-db 1
services 5
service db longrun plain 0 0
needs net
producer -
service log longrun plain 0 0
needs
producer -
service net oneshot plain 0 0
needs root
up 5
true

down 5
true

service root oneshot essential 0 0
needs
up 5
true

down -
service web longrun plain 0 0
needs db log
producer log
bundles 1
bundle site web
end
";

/// Creates the sample.
pub fn sample(alloc: Global) -> Result<Db, Fail> {
    read_of(alloc, SAMPLE.as_bytes())
}

/// Reads the text of a database.
fn read_of(alloc: Global, text: &[u8]) -> Result<Db, Fail> {
    match read_db(alloc, text) {
        Ok(db) => Ok(db),
        Err(fault) => Err(Fail::new(fault)),
    }
}

/// Creates a database of so many longruns that need nothing, and of the bundle `all` that has them.
pub fn many_longruns(alloc: Global, many: u16) -> Result<Db, Fail> {
    read_of(alloc, longruns_text(alloc, many)?.as_bytes())
}

/// Returns the text of a database of so many longruns. The names are numbers of three digits, so at
/// most 900 of them ascend.
fn longruns_text(alloc: Global, many: u16) -> Result<String, NoMem> {
    let mut text = format!(in alloc; "undorc-db 1\nservices {many}\n")?;
    let mut bundle = String::from_str(alloc, "bundles 1\nbundle all")?;
    for id in 0..many {
        let name = id.saturating_add(100);
        text.push_str(&format!(in alloc;
            "service {name} longrun plain 0 0\nneeds\nproducer -\n"
        )?)?;
        bundle.push_str(&format!(in alloc; " {name}")?)?;
    }
    text.push_str(&bundle)?;
    text.push_str("\nend\n")?;
    Ok(text)
}

/// Reads a text that is a name.
pub fn name_of(alloc: Global, text: &str) -> Result<Name, NoMem> {
    match Name::read(alloc, text) {
        Ok(name) => Ok(name),
        Err(_) => Err(AllocError),
    }
}

/// Puts a bundle into a table, in place of one of its name.
pub fn put(alloc: Global, table: &mut Table, text: &str, set: Set) -> Result<(), NoMem>
    requires { length table.old < 4096 }
{
    let name = name_of(alloc, text)?;
    let put = table.set(&name, set);
    drop(name);
    match put {
        Ok(_) => Ok(()),
        Err(_) => Err(AllocError),
    }
}

/// Returns the given words as owned text.
pub fn words_of(alloc: Global, words: &[&str]) -> Result<Vec<String>, NoMem> {
    let mut texts = Vec::new(alloc);
    for word in words {
        texts.push(String::from_str(alloc, word)?)?;
    }
    Ok(texts)
}
