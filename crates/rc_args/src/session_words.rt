//! The options of a session, read from the matches of a command.
ghost use Rattle.std.specs.Prelude.{◌≢◌, ◌≤◌, ℕ, option_map, IfErr, IfNone, IfOk, IfSome};
ghost use Rattle.clap.specs.Words.{found_of, rows_of};
ghost use Rattle.rc_args.specs.SessionAsked.{AsksLinesIn, AsksOptionsIn, AsksSessionIn, IsBoundIn};
ghost use Rattle.rc_args.specs.SessionAsked.{IsCrewIn, SessionAsk, SpellsBound, SpellsCrew};
ghost use Rattle.rc_args.specs.SessionAsked.{session_ask_of};
ghost use Rattle.rc_args.specs.declared.asked.WordsFault.TheVariants.{Memory};

use crate::asked::WordsFault;
use crate::cmdline::is_on;
use crate::program_words::making_in;
use crate::session_request::SessionRequest;
use crate::texts::text_in;
use crate::verbosity::{Verbosity, command_verbosity, lines_verbosity};
use clap::ArgMatches;
use rc_line::USUAL_BOUND;
use std::alloc::Global;

/// The workers of a session, where no number is given.
const USUAL_WORKERS: u8 = 4;

/// The most workers of a session.
const MAX_WORKERS: u8 = 64;

/// The least bound on the number of states of a session.
const LEAST_BOUND: u32 = 3;

/// Reads the options of `session` from its matches.
pub(crate) fn lines_in<'a>(
    alloc: Global,
    matches: &ArgMatches<'a>,
) -> Result<SessionRequest<'a>, WordsFault>
    ensures asked { IfOk result (λ request.
        AsksLinesIn (rows_of (found_of matches.now)) (session_ask_of request)) }
    ensures wrong { IfErr result (λ fault. fault ≢ Memory → (ask : SessionAsk) →
        AsksLinesIn (rows_of (found_of matches.now)) ask → ⊥) }
{
    options_in(alloc, matches, lines_verbosity(matches))
}

/// Reads the options of the session of any other command from its matches.
pub(crate) fn session_in<'a>(
    alloc: Global,
    matches: &ArgMatches<'a>,
) -> Result<SessionRequest<'a>, WordsFault>
    ensures asked { IfOk result (λ request.
        AsksSessionIn (rows_of (found_of matches.now)) (session_ask_of request)) }
    ensures wrong { IfErr result (λ fault. fault ≢ Memory → (ask : SessionAsk) →
        AsksSessionIn (rows_of (found_of matches.now)) ask → ⊥) }
{
    options_in(alloc, matches, command_verbosity(matches))
}

// Reads the options of a session that reports the given transitions from the matches of a command.
fn options_in<'a>(
    alloc: Global,
    matches: &ArgMatches<'a>,
    verbosity: Verbosity,
) -> Result<SessionRequest<'a>, WordsFault>
    ensures asked { IfOk result (λ request.
        AsksOptionsIn (rows_of (found_of matches.now)) verbosity (session_ask_of request)) }
    ensures wrong { IfErr result (λ fault. fault ≢ Memory → (ask : SessionAsk) →
        AsksOptionsIn (rows_of (found_of matches.now)) verbosity ask → ⊥) }
{
    let Some(workers) = workers_of(matches.get_str("workers")) else {
        return Err(WordsFault::Workers);
    };
    let Some(bound) = bound_of(matches.get_str("bound")) else {
        return Err(WordsFault::Bound);
    };
    match making_in(alloc, matches) {
        Ok(making) => Ok(SessionRequest {
            workers,
            making,
            verbosity,
            bound,
            live: text_in(matches, "live"),
            waits: is_on(matches, "wait"),
            output: text_in(matches, "output"),
        }),
        Err(fault) => Err(fault),
    }
}

// Returns the given number of workers, or the default if none is given. Returns `None` if the text
// spells no number of workers.
fn workers_of(given: Option<&str>) -> Option<u8>
    ensures some { IfSome result (λ workers.
        IsCrewIn (option_map (λ text. text.now) given.entry) workers) }
    ensures none { IfNone result ((workers : ℕ) →
        IsCrewIn (option_map (λ text. text.now) given.entry) workers → ⊥) }
    ensures crew { IfSome result (λ workers. (1 ≤ workers) × (workers ≤ 64)) }
{
    match given {
        Some(text) => crew_of(text),
        None => Some(USUAL_WORKERS),
    }
}

// Returns the number of workers that a text spells, or `None` if it spells none.
fn crew_of(text: &str) -> Option<u8>
    ensures some { IfSome result (λ workers. SpellsCrew text.now workers) }
    ensures none { IfNone result ((workers : ℕ) → SpellsCrew text.now workers → ⊥) }
{
    match text.parse::<u8>() {
        Ok(workers) => {
            if 1 <= workers && workers <= MAX_WORKERS {
                Some(workers)
            } else {
                None
            }
        }
        Err(_) => None,
    }
}

// Returns the given bound, or the default if none is given. Returns `None` if the text spells no
// bound.
fn bound_of(given: Option<&str>) -> Option<u32>
    ensures some { IfSome result (λ bound.
        IsBoundIn (option_map (λ text. text.now) given.entry) bound) }
    ensures none { IfNone result ((bound : ℕ) →
        IsBoundIn (option_map (λ text. text.now) given.entry) bound → ⊥) }
    ensures least { IfSome result (λ bound. 3 ≤ bound) }
{
    match given {
        Some(text) => most_of(text),
        None => Some(USUAL_BOUND),
    }
}

// Returns the bound that a text spells, or `None` if it spells none.
fn most_of(text: &str) -> Option<u32>
    ensures some { IfSome result (λ bound. SpellsBound text.now bound) }
    ensures none { IfNone result ((bound : ℕ) → SpellsBound text.now bound → ⊥) }
{
    match text.parse::<u32>() {
        Ok(bound) => {
            if LEAST_BOUND <= bound {
                Some(bound)
            } else {
                None
            }
        }
        Err(_) => None,
    }
}
