//! Where a history stands: the texts of its present generation, the generations and the states on
//! both sides, and whether an undo and a redo go on from there. And the database of any generation.
//!
//! Time and memory grow with the lines outside the texts and, for `standing_of`, also with the text
//! of the present session.
ghost use Rattle.std.specs.Prelude.{◌≡◌, ◌||◌, option_map, IfErr, IfOk};
ghost use Rattle.rc_historytext.specs.Faults.{IsHistoryFault};
ghost use Rattle.rc_historytext.specs.Present.{HoldsAt, IsPresent, StandsAt, crosses, has_inside};
ghost use Rattle.rc_historytext.specs.Present.{passes, passes_next};
ghost use Rattle.rc_historytext.specs.CallFaults.{IsStandingFault};

use crate::fault::HistoryFault;
use crate::read::read_history;
use crate::states::states_around;
use std::alloc::Global;
use std::marker::Model;

/// The texts of the present generation of a history.
#[derive(Clone, Copy, Drop)]
pub struct Present<'a> {
    pub database: &'a [u8],
    pub session: &'a [u8],
}

/// The database of one generation of a history, if the history has that generation, and how many
/// generations it has.
#[derive(Clone, Copy, Drop)]
pub struct Held<'a> {
    pub count: usize,
    pub database: Option<&'a [u8]>,
}

/// Where a history stands.
#[derive(Drop)]
pub struct Standing<'a> {
    /// The texts of the present generation.
    pub database: &'a [u8],
    pub session: &'a [u8],
    /// How many generations come before it, and after it.
    pub earlier: usize,
    pub later: usize,
    /// How many states of it come before the current one, and after it.
    pub before: usize,
    pub after: usize,
    /// Whether an undo and a redo go on from the first state of the present generation, and from
    /// its last.
    pub first_passed: bool,
    pub last_passed: bool,
}

impl<'a> Model for Standing<'a> {
    ghost use Rattle.rc_historytext.specs.Present.{StandingText};

    ghost Value = { StandingText };

    ghost view = { λ s. record {
      database = s.database.now;
      session = s.session.now;
      earlier = s.earlier;
      later = s.later;
      before = s.before;
      after = s.after;
      first_passed = s.first_passed;
      last_passed = s.last_passed;
    } };
}

impl Standing<'_> {
    /// Returns true if an undo and a redo go on from the current state.
    pub fn is_passed(&self) -> bool
        ensures { result ≡ passes self.now }
    {
        (self.before == 0 && self.first_passed) || (self.after == 0 && self.last_passed)
    }

    /// Returns true if there is a state after the current one (`is_on`) or before it (not `is_on`).
    pub fn has_next(&self, is_on: bool) -> bool
        ensures { result ≡ (has_inside is_on self.now || crosses is_on self.now) }
    {
        self.has_inside(is_on) || self.crosses_behind(is_on)
    }

    /// Returns true if the present generation has a state after the current one (`is_on`) or before
    /// it (not `is_on`).
    pub fn has_inside(&self, is_on: bool) -> bool
        ensures { result ≡ has_inside is_on self.now }
    {
        if is_on {
            self.after > 0
        } else {
            self.before > 0
        }
    }

    /// Returns true if there is a generation after the present one (`is_on`) or before it (not
    /// `is_on`).
    pub fn crosses_behind(&self, is_on: bool) -> bool
        ensures { result ≡ crosses is_on self.now }
    {
        if is_on {
            self.later > 0
        } else {
            self.earlier > 0
        }
    }

    /// Returns true if a redo (`is_on`) or an undo (not `is_on`) goes on from the next state in the
    /// present generation.
    pub fn passes_inside(&self, is_on: bool) -> bool
        ensures { result ≡ passes_next is_on self.now }
    {
        if is_on {
            self.after == 1 && self.last_passed
        } else {
            self.before == 1 && self.first_passed
        }
    }
}

/// Returns true if bytes begin as the text of a history does.
pub fn is_history(bytes: &[u8]) -> bool {
    bytes.starts_with(b"undorc-history ")
}

/// Returns the texts of the present generation of a history.
pub fn present_of<'a>(alloc: Global, history: &'a [u8]) -> Result<Present<'a>, HistoryFault>
    ensures ok { IfOk result (λ p. IsPresent history.now p.database.now p.session.now) }
    ensures fault { IfErr result (IsHistoryFault history.now) }
{
    let form = read_history(alloc, history)?;
    let generation = &form.generations[form.present as usize];
    let present = Present {
        database: generation.database,
        session: generation.session,
    };
    drop(form);
    Ok(present)
}

/// Returns the database of the generation at a place of a history. Places count from 0, the oldest
/// generation first.
pub fn database_at<'a>(
    alloc: Global,
    history: &'a [u8],
    place: u32,
) -> Result<Held<'a>, HistoryFault>
    ensures ok { IfOk result (λ held.
        HoldsAt history.now place held.count (option_map (λ d. d.now) held.database)) }
    ensures fault { IfErr result (IsHistoryFault history.now) }
{
    let form = read_history(alloc, history)?;
    let count = form.generations.len();
    let database = match form.generations.get(place as usize) {
        Some(generation) => Some(generation.database),
        None => None,
    };
    drop(form);
    Ok(Held { count, database })
}

/// Returns the standing of a history, given its text.
pub fn standing_of<'a>(alloc: Global, history: &'a [u8]) -> Result<Standing<'a>, HistoryFault>
    ensures ok { IfOk result (StandsAt history.now) }
    ensures fault { IfErr result (IsStandingFault history.now) }
{
    let form = read_history(alloc, history)?;
    let generation = &form.generations[form.present as usize];
    let (database, session) = (generation.database, generation.session);
    let (first_passed, last_passed) = (generation.first_passed, generation.last_passed);
    let earlier = form.present as usize;
    let later = form.generations.len() - earlier - 1;
    drop(form);
    let (before, after) = states_around(alloc, session)?;
    Ok(Standing {
        database,
        session,
        earlier,
        later,
        before,
        after,
        first_passed,
        last_passed,
    })
}
