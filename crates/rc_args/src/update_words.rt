//! The arguments of `update`.
ghost use Rattle.std.specs.Prelude.{◌≡◌, ◌≢◌, codes, map, IfErr, IfOk};
ghost use Rattle.clap.specs.Words.{found_of, rows_of};
ghost use Rattle.rc_args.specs.Words.{values_in};
ghost use Rattle.rc_args.specs.UpdateAsked.{AsksUpdateIn, UpdateAsk, restart_of, update_ask_of};
ghost use Rattle.rc_args.specs.Defaults.{session_by, defaults_ask_of};
ghost use Rattle.rc_args.specs.declared.asked.WordsFault.TheVariants.{Memory};
ghost use Rattle.rc_update.specs.Conversions.{conversion_of, conversions_of};

use crate::asked::WordsFault;
use crate::cmdline::is_on;
use crate::defaults::Defaults;
use crate::session_request::SessionRequest;
use crate::session_words::session_in;
use crate::texts::text_in;
use clap::ArgMatches;
use rc_update::Conversion;
use std::alloc::{AllocError, Global};

/// The arguments of `update`.
#[derive(Drop)]
pub struct UpdateRequest<'a> {
    /// The options of its two sessions, and the file that says what is live.
    pub session: SessionRequest<'a>,
    /// The file of the new database, if another is named than that of `-b`.
    pub new: Option<&'a str>,
    /// The file of the renames, if there is one.
    pub renames: Option<&'a str>,
    /// Services that go on under another name, or restart though unchanged. Argument parsing sets
    /// those of `-R` only.
    pub conversions: Vec<Conversion<'a>>,
    /// Whether the plans are printed and nothing moves.
    pub dry: bool,
}

impl<'a> UpdateRequest<'a> {
    /// Returns this request with the given defaults for the files and programs that it does not
    /// name.
    pub fn with_defaults(self, defaults: Defaults<'a>) -> UpdateRequest<'a>
        ensures { update_ask_of result ≡ record (update_ask_of self.entry) {
          session = session_by (defaults_ask_of defaults.entry) (update_ask_of self.entry).session;
        } }
    {
        let UpdateRequest {
            session,
            new,
            renames,
            conversions,
            dry,
        } = self;
        UpdateRequest {
            session: session.with_defaults(defaults),
            new,
            renames,
            conversions,
            dry,
        }
    }

    /// Returns this request with the given conversions in place of its own.
    pub fn with_conversions(self, conversions: Vec<Conversion<'a>>) -> UpdateRequest<'a>
        ensures { update_ask_of result ≡ record (update_ask_of self.entry) {
          conversions = conversions_of conversions.entry.items;
        } }
    {
        let UpdateRequest {
            session,
            new,
            renames,
            conversions: _,
            dry,
        } = self;
        UpdateRequest {
            session,
            new,
            renames,
            conversions,
            dry,
        }
    }
}

/// Reads the arguments of `update` from its matches.
pub(crate) fn update_in<'a>(
    alloc: Global,
    matches: &ArgMatches<'a>,
) -> Result<UpdateRequest<'a>, WordsFault>
    ensures asked { IfOk result (λ request.
        AsksUpdateIn (rows_of (found_of matches.now)) (update_ask_of request)) }
    ensures wrong { IfErr result (λ fault. fault ≢ Memory → (ask : UpdateAsk) →
        AsksUpdateIn (rows_of (found_of matches.now)) ask → ⊥) }
{
    let session = session_in(alloc, matches)?;
    let conversions = restarts_in(alloc, matches)?;
    Ok(UpdateRequest {
        session,
        new: text_in(matches, "new"),
        renames: text_in(matches, "renames"),
        conversions,
        dry: is_on(matches, "dry"),
    })
}

// Returns the conversions of the services that are restarted though unchanged.
fn restarts_in<'a>(
    alloc: Global,
    matches: &ArgMatches<'a>,
) -> Result<Vec<Conversion<'a>>, AllocError>
    ensures { IfOk result (λ list. conversions_of list.items
        ≡ map restart_of (values_in (codes "restarts") (rows_of (found_of matches.now)))) }
{
    match matches.get_strs("restarts") {
        Some(names) => restarts_of(alloc, names),
        None => Ok(Vec::new(alloc)),
    }
}

// Creates the conversions that restart the named services.
fn restarts_of<'a>(alloc: Global, names: &[&'a str]) -> Result<Vec<Conversion<'a>>, AllocError>
    ensures { IfOk result (λ list.
        conversions_of list.items ≡ map (λ name. restart_of name.now) names.now) }
{
    let mut list = Vec::new(alloc);
    for name in names {
        list.push(restart_of(name))?;
    }
    Ok(list)
}

// Creates the conversion that restarts a service under its own name.
fn restart_of<'a>(name: &'a str) -> Conversion<'a>
    ensures { conversion_of result ≡ restart_of name.entry.now }
{
    Conversion {
        old: name.as_bytes(),
        new: name.as_bytes(),
        restart: true,
    }
}
