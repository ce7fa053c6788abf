//! Standard output, with a hint for people after an answer that refuses a request: which name may
//! have been meant, or what to request instead. The answers are written unchanged.
use crate::frontend::databases::Place;
use crate::frontend::hints::{tell_hint, tell_near};
use crate::frontend::typing::FileOptions;
use log::info;
use rc_names::NoMem;
use rc_streams::messages::{HINT, Messages};
use std::io::{self, Stdout, Write};

/// More bytes than the refusal of a name has, since the longest name has 255.
const MOST: usize = 300;

/// Standard output, the database in which a name may be looked for, and the answer that is not
/// flushed yet, as far as it is short and there was memory for it.
#[derive(Drop)]
pub struct Answers<'a> {
    rt: &'a HostRuntime,
    inner: Stdout,
    base: Option<&'a [u8]>,
    place: Place<'a>,
    files: FileOptions<'a>,
    answer: Vec<u8>,
    lacks: bool,
    unknown: Vec<String>,
}

impl<'a> Answers<'a> {
    /// Creates standard output with hints. If the database is known, hints on names follow each
    /// answer. Otherwise `tell_all` prints them after all answers. Commands in hints name the place
    /// of the database, and the given files.
    pub fn new(
        rt: &'a HostRuntime,
        base: Option<&'a [u8]>,
        place: Place<'a>,
        files: FileOptions<'a>,
    ) -> Answers<'a> {
        Answers {
            rt,
            inner: rt.stdout(),
            base,
            place,
            files,
            answer: Vec::new(rt.alloc()),
            lacks: false,
            unknown: Vec::new(rt.alloc()),
        }
    }

    /// Prints the hints that follow all answers, on names of this database.
    pub fn tell_all(&self, database: &[u8]) {
        for name in &self.unknown {
            tell_near(self.rt, self.place, database, name.as_str());
        }
    }

    /// Prints the hint after an answer, or keeps the unknown name for `tell_all`.
    fn look_at_answer(&mut self) -> Result<(), NoMem> {
        if self.lacks {
            return Ok(());
        }
        if let Some(hint) = refusal_hint(&self.answer) {
            self.tell_refusal(&hint);
            return Ok(());
        }
        let Some(name) = refused_name(&self.answer) else {
            return Ok(());
        };
        if name.starts_with('-') {
            tell_hint(
                self.rt,
                "options stand in front of a line's word: -u change web",
            );
            return Ok(());
        }
        let base = self.base;
        match base {
            Some(database) => tell_near(self.rt, self.place, database, name),
            None => self.unknown.push(String::from_str(self.rt.alloc(), name)?)?,
        }
        Ok(())
    }

    /// Prints the hint for a refusal, with its command if both files that the command needs are
    /// named.
    fn tell_refusal(&self, hint: &RefusalHint) {
        let RefusalHint { what, command } = *hint;
        match command {
            Some((name, shows)) if self.files.are_both() => {
                let files = self.files;
                info!(Messages(self.rt); target: HINT, "{what}; undorc {name}{files} {shows}");
            }
            _ => tell_hint(self.rt, what),
        }
    }
}

impl Write for Answers<'_> {
    fn write(&mut self, buf: &[u8]) -> io::Result<usize> {
        let outcome = self.inner.write(buf);
        if let Ok(count) = &outcome {
            if self.answer.len() < MOST {
                let front = buf.get(..(*count).min(MOST)).unwrap_or(buf);
                if self.answer.extend_from_slice(front).is_err() {
                    self.lacks = true;
                }
            }
        }
        outcome
    }

    fn flush(&mut self) -> io::Result<()> {
        let outcome = self.inner.flush();
        let _ = self.look_at_answer();
        self.answer.clear();
        self.lacks = false;
        outcome
    }
}

/// What helps after an answer that refuses a request: a sentence, and a command by its name and by
/// what it does.
#[derive(Clone, Copy)]
struct RefusalHint {
    what: &'static str,
    command: Option<(&'static str, &'static str)>,
}

/// Creates a hint without a command.
fn plain(what: &'static str) -> Option<RefusalHint> {
    Some(RefusalHint {
        what,
        command: None,
    })
}

/// Creates a hint with a command.
fn with(what: &'static str, name: &'static str, shows: &'static str) -> Option<RefusalHint> {
    let command = Some((name, shows));
    Some(RefusalHint { what, command })
}

/// Returns the hint for an answer that refuses a request, if it does not depend on a database.
fn refusal_hint(answer: &[u8]) -> Option<RefusalHint> {
    let text = std::str::from_utf8(answer).ok()?;
    if text.starts_with("refused IsAtomic ") {
        return plain("a service has this name, and only bundles are added and deleted");
    }
    if text.starts_with("refused Missing ") {
        return with("no bundle has this name", "bundles", "prints them");
    }
    if text.starts_with("refused Exists ") {
        return plain("a bundle has this name; -f replaces it");
    }
    match text {
        "refused NothingToUndo\n" => {
            with(
                "no change is left to undo",
                "journal",
                "prints those that are kept",
            )
        }
        "refused NothingToRedo\n" => {
            with(
                "no change is undone",
                "journal",
                "prints where the session stands",
            )
        }
        "refused PruneNeedsUp\n" => plain("-p goes with neither -d nor -D"),
        _ => None,
    }
}

/// Returns the name that an answer refuses as unknown.
fn refused_name(answer: &[u8]) -> Option<&str> {
    let text = std::str::from_utf8(answer).ok()?;
    text.strip_prefix("refused Unknown ")?.strip_suffix('\n')
}
