//! `journal -v`: which command made each entry of the journal, by the log of commands.
use rc_names::NoMem;
use rc_streams::escaping::Shown;
use std::alloc::Global;
use std::io::{self, Write};

/// What a command does to the entries of the journal.
#[derive(Clone, Copy)]
enum Effect {
    /// It makes the entry in front of the state that it leads to.
    Makes,
    /// It goes on to another database, and makes the entries up to the state that it leads to.
    Carries,
    /// It goes to another state.
    Goes,
    /// It drops the entries behind the current state.
    Drops,
    /// It begins the journal anew, or may have made any number of entries.
    Forgets,
}

/// A command in the log: the number of the state that it led to, the rest of its line, and the line
/// of what it moved, if it moved something.
#[derive(Clone, Copy)]
struct Logged<'a> {
    state: usize,
    about: &'a [u8],
    moves: &'a [u8],
}

/// Which commands made the entries of a journal, from the first one on, and the number of the
/// current state. An entry whose command is not known has none.
#[derive(Drop)]
pub struct Makers<'a> {
    alloc: Global,
    made: Vec<Option<Logged<'a>>>,
    state: usize,
}

impl<'a> Makers<'a> {
    /// Returns what the text of a log says.
    pub fn read(alloc: Global, log: &'a [u8]) -> Result<Makers<'a>, NoMem> {
        let mut makers = Makers {
            alloc,
            made: Vec::new(alloc),
            state: 0,
        };
        let mut last = None;
        for line in log.split(|byte| *byte == b'\n') {
            if let Some((state, about)) = numbered(line) {
                makers.enter_last(last)?;
                last = Some(Logged {
                    state,
                    about,
                    moves: &[],
                });
            } else if line.starts_with(b" ") {
                last = with_moves(last, line);
            }
        }
        makers.enter_last(last)?;
        Ok(makers)
    }

    /// Enters a command, if there is one.
    fn enter_last(&mut self, last: Option<Logged<'a>>) -> Result<(), NoMem> {
        match last {
            Some(command) => self.enter(command),
            None => Ok(()),
        }
    }

    /// Enters a command.
    fn enter(&mut self, command: Logged<'a>) -> Result<(), NoMem> {
        match effect_of(command.about) {
            Effect::Makes => self.make(command)?,
            Effect::Carries => self.carry(command)?,
            Effect::Goes => {}
            Effect::Drops => self.made.truncate(command.state),
            Effect::Forgets => self.made.clear(),
        }
        self.state = command.state;
        Ok(())
    }

    /// Enters a command that made an entry. A full journal dropped its first entry for that. If
    /// commands before it are missing in the log, nothing is known of the entries before.
    fn make(&mut self, command: Logged<'a>) -> Result<(), NoMem> {
        let Some(entry) = command.state.checked_sub(1) else {
            self.made.clear();
            return Ok(());
        };
        if command.state == self.state {
            self.drop_first(command.state)?;
        } else if entry != self.state {
            self.made.clear();
        }
        self.fit(entry)?;
        self.made.push(Some(command))?;
        Ok(())
    }

    /// Enters a command that made the entries from the current state on. If there are none, the
    /// journal was cut, and nothing is known of the entries before.
    fn carry(&mut self, command: Logged<'a>) -> Result<(), NoMem> {
        if command.state <= self.state {
            self.made.clear();
            return Ok(());
        }
        self.fit(self.state)?;
        for _ in self.state..command.state {
            self.made.push(Some(command))?;
        }
        Ok(())
    }

    /// Drops the first of so many entries.
    fn drop_first(&mut self, count: usize) -> Result<(), NoMem> {
        self.fit(count)?;
        let mut rest = Vec::new(self.alloc);
        for maker in self.made.iter().skip(1) {
            rest.push(*maker)?;
        }
        self.made = rest;
        Ok(())
    }

    /// Makes this the number of entries. Of entries that are added, no command is known.
    fn fit(&mut self, count: usize) -> Result<(), NoMem> {
        self.made.truncate(count);
        for _ in self.made.len()..count {
            self.made.push(None)?;
        }
        Ok(())
    }

    /// Prints the text of a journal, with the command that made it behind each entry.
    pub fn print(&self, rt: &HostRuntime, journal: &[u8]) -> io::Result<()> {
        let mut out = rt.stdout();
        for line in journal.split(|byte| *byte == b'\n') {
            if line.is_empty() {
                continue;
            }
            out.write_all(line)?;
            out.write_all(b"\n")?;
            if let Some(maker) = self.maker_of(line) {
                let about = String::from_utf8_lossy(self.alloc, maker.about)?;
                let printed = writeln!(out, "  {}", Shown(&about.as_str()));
                drop(about);
                printed?;
            }
        }
        out.flush()
    }

    /// Returns the command that made the entry of a line of a journal, if it is known and moved
    /// just that. An update made the border that it crossed, and is shown there alone.
    fn maker_of(&self, line: &[u8]) -> Option<Logged<'a>> {
        let (entry, moves) = numbered(line)?;
        let command = (*self.made.get(entry)?)?;
        let is_maker = match effect_of(command.about) {
            Effect::Carries => moves.split(|byte| *byte == b' ').next() == Some(b"update"),
            _ => are_same(moves, command.moves),
        };
        if is_maker { Some(command) } else { None }
    }
}

/// Returns a command, if there is one, with the line of what it moved.
fn with_moves<'a>(command: Option<Logged<'a>>, moves: &'a [u8]) -> Option<Logged<'a>> {
    let Logged {
        state,
        about,
        moves: _,
    } = command?;
    Some(Logged {
        state,
        about,
        moves,
    })
}

/// Returns the number at the front of a line, and what follows the blank behind it.
fn numbered(line: &[u8]) -> Option<(usize, &[u8])> {
    let number = line.split(|byte| *byte == b' ').next()?;
    let rest = line.get(number.len() + 1..)?;
    let state = std::str::from_utf8(number).ok()?.parse::<u16>().ok()?;
    Some((usize::from(state), rest))
}

/// Returns what a command does, by its line behind the number of the state.
fn effect_of(about: &[u8]) -> Effect {
    let Some(word) = command_in(about) else {
        return Effect::Forgets;
    };
    match word {
        "change" | "start" | "stop" | "add" | "delete" => Effect::Makes,
        "update" => Effect::Carries,
        "undo" | "redo" => Effect::Goes,
        "restart" | "check" => Effect::Drops,
        _ => Effect::Forgets,
    }
}

/// Returns the first word of a command, by its line behind the number of the state.
fn command_in(about: &[u8]) -> Option<&str> {
    let text = std::str::from_utf8(about).ok()?;
    let (_, words) = text.split_once(": ")?;
    words.split(' ').next()
}

/// Returns true if two lines have the same words that begin with a sign. In both the names are in
/// byte order behind each sign.
fn are_same(one: &[u8], other: &[u8]) -> bool {
    are_same_by(b'+', one, other) && are_same_by(b'-', one, other)
}

/// Returns true if two lines have the same words that begin with this sign, in the same order.
fn are_same_by(sign: u8, one: &[u8], other: &[u8]) -> bool {
    let mut left = other;
    for word in one.split(|byte| *byte == b' ') {
        if !word.starts_with(&[sign]) {
            continue;
        }
        match next_by(sign, left) {
            Some((found, rest)) if found == word => left = rest,
            _ => return false,
        }
    }
    next_by(sign, left).is_none()
}

/// Returns the place behind a word and the blank that follows it.
fn end_of(place: usize, word: &[u8]) -> usize {
    place.saturating_add(word.len()).saturating_add(1)
}

/// Returns the first word of a line that begins with a sign, and what follows it.
fn next_by(sign: u8, line: &[u8]) -> Option<(&[u8], &[u8])> {
    let mut behind = 0;
    for word in line.split(|byte| *byte == b' ') {
        behind = end_of(behind, word);
        if word.starts_with(&[sign]) {
            return Some((word, line.get(behind..).unwrap_or(&[])));
        }
    }
    None
}
