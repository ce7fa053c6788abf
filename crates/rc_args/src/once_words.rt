//! The arguments of a session of one line.
ghost use Rattle.std.specs.Prelude.{◌≡◌, ◌≢◌, ◌↔◌, ℕ, [], codes, map, All, IfErr, IfOk};
ghost use Rattle.std.specs.Prelude.{IsTrue, Option};
ghost use Rattle.clap.specs.Words.{Text, found_of, rows_of};
ghost use Rattle.rc_args.specs.Defaults.{session_by, defaults_ask_of};
ghost use Rattle.rc_args.specs.OnceAsked.{AreOneLine, IsOneLine, IsShown, LacksFile, LacksNames};
ghost use Rattle.rc_args.specs.Words.{words_in as words_rows};
ghost use Rattle.rc_args.specs.OnceAsked.{Adds, AsksOnceIn, AsksStateIn, AsksWhat, OnceAsk};
ghost use Rattle.rc_args.specs.OnceAsked.{OnceSaying};
ghost use Rattle.rc_args.specs.OnceAsked.{once_ask_of, once_command, once_saying_of};
ghost use Rattle.rc_args.specs.declared.asked.WordsFault.TheVariants.{Memory};

use crate::asked::{WordsFault, plan_in};
use crate::cmdline::is_on;
use crate::command_words::Meaning;
use crate::defaults::Defaults;
use crate::limits::{run_limit_of, state_of};
use crate::session_request::SessionRequest;
use crate::session_words::session_in;
use crate::texts::{strings_of, words_in};
use clap::ArgMatches;
use rc_names::{Name, NameFault};
use rc_script::SessionLine;
use rc_session::Command;
use std::alloc::Global;

/// What a session of one line is to do.
#[derive(Drop)]
pub enum Once {
    /// What this line says.
    Line(SessionLine),
    /// To show what an undo would move.
    DryUndo,
    /// To show what a redo would move.
    DryRedo,
    /// To show what a restart of these names would move.
    DryRestart(Vec<String>),
    /// To show what is down.
    Down,
}

/// The arguments of a session of one line.
#[derive(Drop)]
pub struct OnceRequest<'a> {
    /// What it is to do.
    pub once: Once,
    /// The state to which it goes back by one undo after the other, if it names one.
    pub to: Option<u32>,
    /// The options of the session.
    pub session: SessionRequest<'a>,
}

impl<'a> OnceRequest<'a> {
    /// Returns this request with the given defaults for the files and programs that it does not
    /// name.
    pub fn with_defaults(self, defaults: Defaults<'a>) -> OnceRequest<'a>
        ensures { once_ask_of result ≡ record (once_ask_of self.entry) {
          session = session_by (defaults_ask_of defaults.entry) (once_ask_of self.entry).session;
        } }
    {
        let OnceRequest { once, to, session } = self;
        OnceRequest {
            once,
            to,
            session: session.with_defaults(defaults),
        }
    }

    /// Returns true if the request needs the file of a session and names none. Without it, nobody
    /// would know what the request starts.
    pub fn lacks_file(&self) -> bool
        ensures { IsTrue result ↔ LacksFile (once_ask_of self.now) }
    {
        self.session.live.is_none() && self.session.starts() && !self.once.is_shown()
    }
}

impl Once {
    /// Returns true if the session only shows what would move.
    fn is_shown(&self) -> bool
        ensures { IsTrue result ↔ IsShown (once_saying_of self.now) }
    {
        match self {
            Once::Line(SessionLine::Dry(_)) | Once::DryUndo | Once::DryRedo | Once::DryRestart(_) =>
                true,
            Once::Line(_) | Once::Down => false,
        }
    }
}

/// Reads the arguments of a command, which is a session of one line and of which a flag may count
/// as given, from its matches.
pub(crate) fn once_in<'a>(
    alloc: Global,
    meaning: Meaning<'_>,
    matches: &ArgMatches<'a>,
) -> Result<OnceRequest<'a>, WordsFault>
    ensures named { IfOk result (λ request.
        meaning.entry.command.now ≡ once_command (once_saying_of request.once)) }
    ensures asked { IfOk result (λ request. AsksOnceIn meaning.entry.flag.now
        (rows_of (found_of matches.now)) (once_ask_of request)) }
    ensures wrong { IfErr result (λ fault. fault ≢ Memory → (ask : OnceAsk) →
        meaning.entry.command.now ≡ once_command ask.what →
        AsksOnceIn meaning.entry.flag.now (rows_of (found_of matches.now)) ask → ⊥) }
{
    if !are_one_line(matches) {
        return Err(WordsFault::Newline);
    }
    if lacks_names(matches, meaning.flag) {
        return Err(WordsFault::Names);
    }
    let to = state_in(matches)?;
    let once = what_in(alloc, meaning, matches)?;
    let session = session_in(alloc, matches)?;
    Ok(OnceRequest { once, to, session })
}

/// Returns true if the positional arguments have no newline.
pub(crate) fn are_one_line(matches: &ArgMatches<'_>) -> bool
    ensures { IsTrue result ↔ AreOneLine (words_rows (rows_of (found_of matches.now))) }
{
    match matches.get_strs("words") {
        Some(words) => are_all_one_line(words),
        None => true,
    }
}

// Returns true if the given words have no newline.
fn are_all_one_line(words: &[&str]) -> bool
    ensures { IsTrue result ↔ All (λ (word : _). IsOneLine word.now) words.now }
{
    words.iter().all(|word| is_one_line(word))
}

// Returns true if a word has no newline.
#[tactic(auto, unfolding(crate::specs::OnceAsked::IsOneLine))]
fn is_one_line(word: &str) -> bool
    ensures { IsTrue result ↔ IsOneLine word.now }
{
    !word.as_bytes().contains(&b'\n')
}

// Returns the state to which an undo is to go back, if its matches name one.
fn state_in(matches: &ArgMatches<'_>) -> Result<Option<u32>, WordsFault>
    ensures asked { IfOk result (AsksStateIn (rows_of (found_of matches.now))) }
    ensures wrong { IfErr result (λ fault. fault ≢ Memory → (to : Option ℕ) →
        AsksStateIn (rows_of (found_of matches.now)) to → ⊥) }
{
    state_of(matches.get_str("to"), is_on(matches, "dry"))
}

// Returns true if a flag counts as given and the matches name nothing.
fn lacks_names(matches: &ArgMatches<'_>, flag: &str) -> bool
    ensures { IsTrue result ↔ LacksNames flag.now (rows_of (found_of matches.now)) }
{
    !flag.is_empty() && has_no_words(matches) && !is_on(matches, "all")
}

// Returns true if there are no positional arguments.
fn has_no_words(matches: &ArgMatches<'_>) -> bool
    ensures { IsTrue result ↔ (words_rows (rows_of (found_of matches.now)) ≡ []) }
{
    match matches.get_strs("words") {
        Some(words) => words.is_empty(),
        None => true,
    }
}

// Returns what a command is to do, of which a flag may count as given, according to its matches.
fn what_in(
    alloc: Global,
    meaning: Meaning<'_>,
    matches: &ArgMatches<'_>,
) -> Result<Once, WordsFault>
    ensures asked { IfOk result (λ once. AsksWhat meaning.entry.command.now meaning.entry.flag.now
        (rows_of (found_of matches.now)) (once_saying_of once)) }
    ensures wrong { IfErr result (λ fault. fault ≢ Memory → (what : OnceSaying) →
        AsksWhat meaning.entry.command.now meaning.entry.flag.now
        (rows_of (found_of matches.now)) what → ⊥) }
{
    match meaning.command {
        "change" => change_in(alloc, matches, meaning.flag),
        "undo" => undo_in(alloc, matches),
        "redo" => redo_in(alloc, matches),
        "add" => add_in(alloc, matches),
        "delete" => delete_in(alloc, matches),
        "live" => Ok(live_in(matches)),
        "restart" => dry_restart_in(alloc, matches),
        "bundles" => Ok(Once::Line(SessionLine::Bundles)),
        "journal" => Ok(Once::Line(SessionLine::Journal)),
        _ => Err(WordsFault::OtherCommand),
    }
}

// Returns what `change` is to do, according to its matches and the flag that counts as given.
fn change_in(alloc: Global, matches: &ArgMatches<'_>, flag: &str) -> Result<Once, WordsFault>
    ensures asked { IfOk result (λ once. AsksWhat (codes "change") flag.now
        (rows_of (found_of matches.now)) (once_saying_of once)) }
    ensures wrong { IfErr result (λ fault. fault ≢ Memory → (what : OnceSaying) →
        AsksWhat (codes "change") flag.now (rows_of (found_of matches.now)) what → ⊥) }
{
    let Some(limit) = run_limit_of(matches.get_str("limit")) else {
        return Err(WordsFault::Limit);
    };
    let mut request = plan_in(alloc, matches, flag)?;
    request.limit = limit;
    if is_on(matches, "dry") {
        return Ok(Once::Line(SessionLine::Dry(request)));
    }
    Ok(Once::Line(SessionLine::Command(Command::Change(request))))
}

// Returns what `undo` is to do, according to its matches.
fn undo_in(alloc: Global, matches: &ArgMatches<'_>) -> Result<Once, WordsFault>
    ensures asked { IfOk result (λ once. (flag : Text) →
        AsksWhat (codes "undo") flag (rows_of (found_of matches.now)) (once_saying_of once)) }
    ensures wrong { IfErr result (λ fault. fault ≢ Memory →
        (flag : Text) (what : OnceSaying) →
        AsksWhat (codes "undo") flag (rows_of (found_of matches.now)) what → ⊥) }
{
    let Some(limit) = run_limit_of(matches.get_str("limit")) else {
        return Err(WordsFault::Limit);
    };
    if is_on(matches, "dry") {
        return Ok(Once::DryUndo);
    }
    Ok(Once::Line(SessionLine::Command(Command::Undo(limit))))
}

// Returns what `redo` is to do, according to its matches.
fn redo_in(alloc: Global, matches: &ArgMatches<'_>) -> Result<Once, WordsFault>
    ensures asked { IfOk result (λ once. (flag : Text) →
        AsksWhat (codes "redo") flag (rows_of (found_of matches.now)) (once_saying_of once)) }
    ensures wrong { IfErr result (λ fault. fault ≢ Memory →
        (flag : Text) (what : OnceSaying) →
        AsksWhat (codes "redo") flag (rows_of (found_of matches.now)) what → ⊥) }
{
    let Some(limit) = run_limit_of(matches.get_str("limit")) else {
        return Err(WordsFault::Limit);
    };
    if is_on(matches, "dry") {
        return Ok(Once::DryRedo);
    }
    Ok(Once::Line(SessionLine::Command(Command::Redo(limit))))
}

// Returns what `add` is to do, according to its matches.
fn add_in(alloc: Global, matches: &ArgMatches<'_>) -> Result<Once, WordsFault>
    ensures asked { IfOk result (λ once. (flag : Text) →
        AsksWhat (codes "add") flag (rows_of (found_of matches.now)) (once_saying_of once)) }
    ensures wrong { IfErr result (λ fault. fault ≢ Memory →
        (flag : Text) (what : OnceSaying) →
        AsksWhat (codes "add") flag (rows_of (found_of matches.now)) what → ⊥) }
{
    let force = is_on(matches, "force");
    match matches.get_strs("words") {
        Some(words) => bundle_of(alloc, words, force),
        None => Err(WordsFault::Name),
    }
}

// Creates the command that adds a bundle. The first word is its name, and the others name what it
// holds.
fn bundle_of(alloc: Global, words: &[&str], force: bool) -> Result<Once, WordsFault>
    ensures asked { IfOk result (λ once.
        Adds (map (λ word. word.now) words.now) force (once_saying_of once)) }
    ensures wrong { IfErr result (λ fault. fault ≢ Memory → (what : OnceSaying) →
        Adds (map (λ word. word.now) words.now) force what → ⊥) }
{
    let Some((first, rest)) = words.split_first() else {
        return Err(WordsFault::Name);
    };
    let name = match Name::read(alloc, first) {
        Ok(name) => name,
        Err(NameFault::Memory) => return Err(WordsFault::Memory),
        Err(_) => return Err(WordsFault::Name),
    };
    let contents = strings_of(alloc, rest)?;
    Ok(Once::Line(SessionLine::Command(Command::Add(name, contents, force))))
}

// Returns what `delete` is to do, according to its matches.
fn delete_in(alloc: Global, matches: &ArgMatches<'_>) -> Result<Once, WordsFault>
    ensures asked { IfOk result (λ once. (flag : Text) →
        AsksWhat (codes "delete") flag (rows_of (found_of matches.now)) (once_saying_of once)) }
    ensures wrong { IfErr result (λ fault. fault ≡ Memory) }
{
    let names = words_in(alloc, matches)?;
    let command = Command::Delete(names, is_on(matches, "force"));
    Ok(Once::Line(SessionLine::Command(command)))
}

// Returns what `live` is to show, according to its matches.
fn live_in(matches: &ArgMatches<'_>) -> Once
    ensures { (flag : Text) →
        AsksWhat (codes "live") flag (rows_of (found_of matches.now)) (once_saying_of result) }
{
    if is_on(matches, "down") {
        return Once::Down;
    }
    Once::Line(SessionLine::Live)
}

// Returns that a restart is to be shown, if its matches have the flag for that.
fn dry_restart_in(alloc: Global, matches: &ArgMatches<'_>) -> Result<Once, WordsFault>
    ensures asked { IfOk result (λ once. (flag : Text) →
        AsksWhat (codes "restart") flag (rows_of (found_of matches.now)) (once_saying_of once)) }
    ensures wrong { IfErr result (λ fault. fault ≢ Memory → (flag : Text) (what : OnceSaying) →
        AsksWhat (codes "restart") flag (rows_of (found_of matches.now)) what → ⊥) }
{
    if !is_on(matches, "dry") {
        return Err(WordsFault::OtherCommand);
    }
    Ok(Once::DryRestart(words_in(alloc, matches)?))
}
