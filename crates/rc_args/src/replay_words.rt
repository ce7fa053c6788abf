//! The arguments of `replay`.
ghost use Rattle.std.specs.Prelude.{◌≡◌, ◌≢◌, codes, map, None, string_bytes, IfErr, OnOk};
ghost use Rattle.rc_args.specs.ReplayAsked.{AsksReplay};
ghost use Rattle.rc_args.specs.Words.{rows_for};
ghost use Rattle.rc_args.specs.declared.asked.WordsFault.TheVariants.{Memory};

use crate::asked::WordsFault;
use crate::matched::{command_in, matches_in};
use std::alloc::Global;

/// Checks whether the arguments are those of `replay`. The first argument is the program's own
/// name.
pub fn replay_asked(alloc: Global, words: &[String]) -> Result<(), WordsFault>
    ensures asked { OnOk result (AsksReplay (map string_bytes words.now)) }
    ensures wrong { IfErr result (λ fault.
        fault ≢ Memory → rows_for (codes "replay") (map string_bytes words.now) ≡ None) }
{
    match matches_in(alloc, words) {
        Ok(matches) => match command_in(&matches, "replay") {
            Some(_) => {
                drop(matches);
                Ok(())
            }
            None => {
                drop(matches);
                Err(WordsFault::OtherCommand)
            }
        },
        Err(fault) => Err(fault),
    }
}
