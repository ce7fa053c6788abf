//! The arguments of `compile`.
ghost use Rattle.std.specs.Prelude.{IfOk};
ghost use Rattle.clap.specs.Words.{found_of, rows_of};
ghost use Rattle.rc_args.specs.CompileAsked.{AsksCompileIn, compile_ask_of};

use crate::cmdline::is_on;
use crate::texts::{text_in, words_in};
use clap::ArgMatches;
use std::alloc::{AllocError, Global};

/// The arguments of `compile`.
#[derive(Drop)]
pub struct CompileRequest<'a> {
    /// The source directories.
    pub sources: Vec<String>,
    /// The file that the database is put into, in place of standard output.
    pub output: Option<&'a str>,
    /// Whether the files that were not looked at are reported.
    pub tells: bool,
}

/// Reads the arguments of `compile` from its matches.
pub(crate) fn compile_in<'a>(
    alloc: Global,
    matches: &ArgMatches<'a>,
) -> Result<CompileRequest<'a>, AllocError>
    ensures { IfOk result (λ request.
        AsksCompileIn (rows_of (found_of matches.now)) (compile_ask_of request)) }
{
    Ok(CompileRequest {
        sources: words_in(alloc, matches)?,
        output: text_in(matches, "output"),
        tells: is_on(matches, "verbose"),
    })
}
