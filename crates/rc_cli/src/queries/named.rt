//! Words that name services.
ghost use Rattle.std.specs.Prelude.{◌≡◌, ◌<◌, length, map, IfOk, IfErr};
ghost use Rattle.rc_model.specs.Names.{Holds};
ghost use Rattle.rc_cli.specs.Named.{IsNamed, AreNamed, IsNamedFault, word_lines};

use crate::fault::{Fault, unknown_name};
use rc_names::Names;
use rc_set::{NoMem, Set};
use std::alloc::Global;

/// Splits a list of words into its lines. Empty lines do not count, and the last line may lack its
/// newline.
pub(crate) fn word_lines<'a>(alloc: Global, bytes: &'a [u8]) -> Result<Vec<&'a [u8]>, NoMem>
    ensures { IfOk result (λ lines. map (λ line. line.now) lines.items
        ≡ word_lines bytes.entry.now) }
{
    bytes
        .split(|byte| *byte == b'\n')
        .filter(|line| line.len() > 0)
        .collect(alloc)
}

/// Returns the set of the services that words name.
pub(crate) fn named_set(alloc: Global, names: &Names, words: &[&[u8]]) -> Result<Set, Fault>
    ensures bound { IfOk result (λ set. length set ≡ length names.now) }
    ensures members { IfOk result (λ set. Holds set
        (IsNamed names.now (map (λ w. w.now) words.now))) }
    ensures known { IfOk result (λ set. AreNamed names.now (map (λ w. w.now) words.now)) }
    ensures fault { IfErr result (λ fault. IsNamedFault fault names.now
        (map (λ w. w.now) words.now)) }
{
    let mut set = Set::empty(alloc, names.len())?;
    for word in words {
        match names.find_bytes(word) {
            Some(id) => set.insert(id),
            None => return Err(unknown_name(alloc, word)),
        };
    }
    Ok(set)
}
