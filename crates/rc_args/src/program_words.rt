//! How the options of a command say that transitions are made.
ghost use Rattle.std.specs.Prelude.{◌≡◌, ◌≢◌, Option, Some, map, option_map, string_bytes, IfErr};
ghost use Rattle.std.specs.Prelude.{IfOk};
ghost use Rattle.clap.specs.Words.{Text, found_of, rows_of};
ghost use Rattle.rc_args.specs.Making.{making_ask_of};
ghost use Rattle.rc_args.specs.Programs.{MakesBy, MakesIn, MakingAsk, controller_in, runner_in};
ghost use Rattle.rc_script.specs.Words.{words_in as spaced};
ghost use Rattle.rc_args.specs.declared.asked.WordsFault.TheVariants.{Memory};

use crate::asked::WordsFault;
use crate::limits::limit_of;
use crate::texts::{strings_of, text_in};
use crate::transitions::{ListFault, Transition, transitions_of};
use clap::ArgMatches;
use rc_script::{texts_of, words_of};
use std::alloc::{AllocError, Global};

/// The runner, where none is named.
const USUAL_RUNNER: &str = "/bin/sh -c";

/// The programs that make the transitions of a session. The words of each stand in one text,
/// between spaces and tabs.
#[derive(Clone, Copy)]
pub struct Programs<'a> {
    /// Runs the text of a oneshot, if one is named.
    pub runner: Option<&'a str>,
    /// Moves a longrun, if one is named.
    pub controller: Option<&'a str>,
    /// The limit of services that have none, in milliseconds; 0 is none.
    pub limit: u32,
}

impl Programs<'_> {
    /// Returns the words of the runner, which are those of `/bin/sh -c` if none is named.
    pub fn runner_words(&self, alloc: Global) -> Result<Vec<String>, AllocError>
        ensures { IfOk result (λ words. map string_bytes words.items
            ≡ runner_in (option_map (λ text. text.now) self.now.runner)) }
    {
        spaced(alloc, self.runner.unwrap_or(USUAL_RUNNER))
    }

    /// Returns the words of the controller, or no words if none is named.
    pub fn controller_words(&self, alloc: Global) -> Result<Vec<String>, AllocError>
        ensures { IfOk result (λ words. map string_bytes words.items
            ≡ controller_in (option_map (λ text. text.now) self.now.controller)) }
    {
        spaced(alloc, self.controller.unwrap_or(""))
    }
}

/// How the transitions of a session are made.
#[derive(Drop)]
pub enum Making<'a> {
    /// No program is started, and these transitions fail.
    Table(Vec<Transition<'a>>),
    /// By programs that are started.
    Programs(Programs<'a>),
}

/// Reads how transitions are made from the matches of a command on a session.
pub(crate) fn making_in<'a>(
    alloc: Global,
    matches: &ArgMatches<'a>,
) -> Result<Making<'a>, WordsFault>
    ensures asked { IfOk result (λ making.
        MakesIn (rows_of (found_of matches.now)) (making_ask_of making)) }
    ensures wrong { IfErr result (λ fault. fault ≢ Memory →
        (ask : MakingAsk) → MakesIn (rows_of (found_of matches.now)) ask → ⊥) }
{
    match matches.get_str("failing") {
        Some(list) => table_in(alloc, list),
        None => match limit_of(matches.get_str("usual")) {
            Some(limit) => Ok(Making::Programs(Programs {
                runner: text_in(matches, "runner"),
                controller: text_in(matches, "controller"),
                limit,
            })),
            None => Err(WordsFault::Limit),
        },
    }
}

// Parses a list of transitions into a table. Programs and a limit that are named have no effect.
fn table_in<'a>(alloc: Global, list: &'a str) -> Result<Making<'a>, WordsFault>
    ensures asked { IfOk result (λ making. (runner controller limit : Option Text) →
        MakesBy (Some list.entry.now) runner controller limit (making_ask_of making)) }
    ensures wrong { IfErr result (λ fault. fault ≢ Memory →
        (runner controller limit : Option Text) (ask : MakingAsk) →
        MakesBy (Some list.entry.now) runner controller limit ask → ⊥) }
{
    match transitions_of(alloc, list.as_bytes()) {
        Ok(failing) => Ok(Making::Table(failing)),
        Err(ListFault::Form) => Err(WordsFault::List),
        Err(ListFault::Memory) => Err(WordsFault::Memory),
    }
}

// Splits a text into its words, at spaces and tabs.
fn spaced(alloc: Global, text: &str) -> Result<Vec<String>, AllocError>
    ensures { IfOk result (λ words. map string_bytes words.items ≡ spaced text.now) }
{
    let words = words_of(alloc, text.as_bytes())?;
    match texts_of(alloc, &words)? {
        Some(texts) => strings_of(alloc, &texts),
        None => unreachable!(),
    }
}
