//! Numbers in event lines.
ghost use Rattle.std.specs.Prelude.{◌≡◌};
ghost use Rattle.rc_script.specs.Numbers.{is_plain, number_in, status_in};

use crate::words::is_digits;

/// Parses a number of 8 bits.
pub(crate) fn byte_in(word: &str) -> Option<u8>
    ensures { result ≡ number_in 8 word.now }
{
    if is_plain(word) {
        word.parse().ok()
    } else {
        None
    }
}

/// Parses a number of 64 bits.
pub(crate) fn moment_in(word: &str) -> Option<u64>
    ensures { result ≡ number_in 64 word.now }
{
    if is_plain(word) {
        word.parse().ok()
    } else {
        None
    }
}

/// Parses an exit status that is not 0.
pub(crate) fn status_in(word: &str) -> Option<u8>
    ensures { result ≡ status_in word.now }
{
    if word == "0" { None } else { byte_in(word) }
}

/// Returns true if a word consists of digits, with no zero in front of others.
fn is_plain(word: &str) -> bool
    ensures { result ≡ is_plain word.now }
{
    is_digits(word) && (word.len() < 2 || word.as_bytes().first() != Some(&b'0'))
}
