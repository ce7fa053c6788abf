//! What a change is asked to do, and the options that say so.
ghost use Rattle.std.specs.Prelude.{◌≡◌, ◌↔◌, ◌∷◌, [], ℕ, Bool, List, IsTrue, IfOk, map};
ghost use Rattle.std.specs.Prelude.{string_bytes, if◌then◌else◌};
ghost use Rattle.rc_select.specs.Ask.{ask_of, plain_ask, way_letter, letters_of, choice_of};
ghost use Rattle.rc_select.specs.Ask.{none_chosen};
ghost use Rattle.rc_select.specs.Ask.{with_choice, with_choices, chosen_in, mode_of, asked_with};

pub use rc_model::{Mode, PlanFault};
use rc_set::NoMem;
use std::alloc::Global;

/// What a change is asked to do.
#[derive(Drop)]
pub struct Request {
    pub mode: Mode,
    /// On the way up: what is not wanted goes down, but for what essential services hold up.
    pub prune: bool,
    /// All that is up is wanted too.
    pub all: bool,
    /// Names of services and bundles.
    pub names: Vec<String>,
    /// How long the change may take, in milliseconds; 0 is no limit.
    pub limit: u32,
}

impl Request {
    /// Creates a request that moves names under a limit, without other options.
    pub fn plain(mode: Mode, names: Vec<String>, limit: u32) -> Request
        ensures { ask_of result ≡ plain_ask mode (map string_bytes names.items) limit }
    {
        Request {
            mode,
            prune: false,
            all: false,
            names,
            limit,
        }
    }

    /// Returns true if the request moves these names under this limit, without other options.
    pub fn is_plain(&self, mode: Mode, names: &[String], limit: u32) -> bool
        ensures { IsTrue result
            ↔ (ask_of self.now ≡ plain_ask mode (map string_bytes names.now) limit) }
    {
        if self.mode != mode || self.prune || self.all || self.limit != limit {
            return false;
        }
        are_same(&self.names, names)
    }

    /// Returns true if the request equals another one but for its limit, which is `limit`.
    pub fn is_limited(&self, other: &Request, limit: u32) -> bool
        ensures { IsTrue result
            ↔ (ask_of self.now ≡ record (ask_of other.now) { limit = limit }) }
    {
        if self.mode != other.mode || self.prune != other.prune || self.all != other.all {
            return false;
        }
        self.limit == limit && are_same(&self.names, &other.names)
    }

    /// Returns the letters of the request's options, as they stand in front of a session line.
    pub fn letters(&self, alloc: Global) -> Result<String, NoMem>
        ensures { IfOk result (λ letters. string_bytes letters ≡ letters_of (ask_of self.now)) }
    {
        let mut letters = String::from_str(alloc, way_letter(self.mode))?;
        letters.push_str(letter_if(self.prune, "p"))?;
        letters.push_str(letter_if(self.all, "a"))?;
        Ok(letters)
    }
}

// Returns the letter of a mode.
fn way_letter(mode: Mode) -> &'static str
    ensures { result.now ≡ way_letter mode ∷ [] }
{
    match mode {
        Mode::Up => "u",
        Mode::Down => "d",
        Mode::DownAll => "D",
    }
}

// Returns a letter if its flag is on, and nothing otherwise.
fn letter_if(is_on: bool, letter: &str) -> &str
    ensures { result.now ≡ (if is_on then letter.now else []) }
{
    if is_on { letter } else { "" }
}

// Returns true if two lists of names are equal.
fn are_same(names: &[String], others: &[String]) -> bool
    ensures { IsTrue result ↔ (map string_bytes names.now ≡ map string_bytes others.now) }
{
    names == others
}

/// What one option of a change chooses.
#[derive(Clone, Copy, PartialEq, Eq)]
pub enum Choice {
    /// Bring up, the default.
    Up,
    /// Bring down, but for what essential services hold up.
    Down,
    /// Bring down.
    DownAll,
    /// Lower what is not named.
    Prune,
    /// Name all that is up too.
    All,
    /// A limit in milliseconds, 0 for none.
    Limit(u32),
}

impl Choice {
    /// Returns the choice of a letter, if it has one.
    pub fn of(letter: u8) -> Option<Choice>
        ensures { result ≡ choice_of letter }
    {
        match letter {
            b'u' => Some(Choice::Up),
            b'd' => Some(Choice::Down),
            b'D' => Some(Choice::DownAll),
            b'p' => Some(Choice::Prune),
            b'a' => Some(Choice::All),
            _ => None,
        }
    }
}

/// Flags that are on or off, each by its name.
pub trait Flags {
    ghost on: { Self → List ℕ → Bool };

    /// Returns true if a flag is on.
    fn is_on(&self, name: &str) -> bool
        ensures { result ≡ on self.now name.now };
}

/// What the options of a change come to.
#[derive(Clone, Copy)]
pub struct Chosen {
    pub up: bool,
    pub down: bool,
    pub down_all: bool,
    pub prune: bool,
    pub all: bool,
    pub limit: u32,
}

impl Chosen {
    /// Returns the options with nothing chosen.
    fn none() -> Chosen
        ensures { result ≡ none_chosen }
    {
        Chosen {
            up: false,
            down: false,
            down_all: false,
            prune: false,
            all: false,
            limit: 0,
        }
    }

    /// Returns the options with one more choice.
    fn with(mut self, choice: Choice) -> Chosen
        ensures { result ≡ with_choice self choice }
    {
        match choice {
            Choice::Up => self.up = true,
            Choice::Down => self.down = true,
            Choice::DownAll => self.down_all = true,
            Choice::Prune => self.prune = true,
            Choice::All => self.all = true,
            Choice::Limit(limit) => self.limit = limit,
        }
        self
    }

    /// Returns the options with these choices made, in this order.
    pub fn by(choices: &[Choice]) -> Chosen
        ensures { result ≡ with_choices none_chosen choices.now }
    {
        let mut chosen = Chosen::none();
        for choice in choices {
            chosen = chosen.with(*choice);
        }
        chosen
    }

    /// Returns the options that the flags of a command line choose, without a limit.
    pub fn given<F: Flags>(flags: &F) -> Chosen
        ensures { result ≡ chosen_in (F.on flags.now) }
    {
        Chosen {
            up: flags.is_on("up"),
            down: flags.is_on("down"),
            down_all: flags.is_on("down-all"),
            prune: flags.is_on("prune"),
            all: flags.is_on("all"),
            limit: 0,
        }
    }

    /// Returns the mode that is chosen, or up if none is. At most one of the three ways may be
    /// chosen.
    pub fn mode(self) -> Option<Mode>
        ensures { result ≡ mode_of self }
    {
        match (self.up, self.down, self.down_all) {
            (_, false, false) => Some(Mode::Up),
            (false, true, false) => Some(Mode::Down),
            (false, false, true) => Some(Mode::DownAll),
            _ => None,
        }
    }

    /// Creates the request for these names in that mode.
    pub fn request(self, mode: Mode, names: Vec<String>) -> Request
        ensures { ask_of result ≡ asked_with self (map string_bytes names.items) mode }
    {
        Request {
            mode,
            prune: self.prune,
            all: self.all,
            names,
            limit: self.limit,
        }
    }
}
