//! The arguments of the commands on a session that name services and bundles.
ghost use Rattle.std.specs.Prelude.{◌≡◌, ◌≢◌, IfErr, IfOk};
ghost use Rattle.clap.specs.Words.{found_of, rows_of};
ghost use Rattle.rc_args.specs.NamedAsked.{AsksNamesIn, NamedAsk, named_ask_of};
ghost use Rattle.rc_args.specs.Defaults.{session_by, defaults_ask_of};
ghost use Rattle.rc_args.specs.declared.asked.WordsFault.TheVariants.{Memory};

use crate::asked::WordsFault;
use crate::cmdline::is_on;
use crate::defaults::Defaults;
use crate::once_words::are_one_line;
use crate::session_request::SessionRequest;
use crate::session_words::session_in;
use crate::texts::words_in;
use clap::ArgMatches;
use std::alloc::Global;

/// The arguments of `restart`, `status` or `check`.
#[derive(Drop)]
pub struct NamedRequest<'a> {
    /// The options of the session.
    pub session: SessionRequest<'a>,
    /// The names of services and bundles.
    pub names: Vec<String>,
    /// Whether nothing but failures is shown.
    pub failed: bool,
    /// Whether services are brought where the session says.
    pub repairs: bool,
}

impl<'a> NamedRequest<'a> {
    /// Returns this request with the given defaults for the files and programs that it does not
    /// name.
    pub fn with_defaults(self, defaults: Defaults<'a>) -> NamedRequest<'a>
        ensures { named_ask_of result ≡ record (named_ask_of self.entry) {
          session = session_by (defaults_ask_of defaults.entry) (named_ask_of self.entry).session;
        } }
    {
        let NamedRequest {
            session,
            names,
            failed,
            repairs,
        } = self;
        NamedRequest {
            session: session.with_defaults(defaults),
            names,
            failed,
            repairs,
        }
    }
}

/// Reads the arguments of `restart`, `status` or `check` from its matches.
pub(crate) fn named_in<'a>(
    alloc: Global,
    matches: &ArgMatches<'a>,
) -> Result<NamedRequest<'a>, WordsFault>
    ensures asked { IfOk result (λ request.
        AsksNamesIn (rows_of (found_of matches.now)) (named_ask_of request)) }
    ensures wrong { IfErr result (λ fault. fault ≢ Memory → (ask : NamedAsk) →
        AsksNamesIn (rows_of (found_of matches.now)) ask → ⊥) }
{
    if !are_one_line(matches) {
        return Err(WordsFault::Newline);
    }
    let session = session_in(alloc, matches)?;
    let names = words_in(alloc, matches)?;
    Ok(NamedRequest {
        session,
        names,
        failed: is_on(matches, "failed"),
        repairs: is_on(matches, "repair"),
    })
}
