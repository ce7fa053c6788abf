//! What bytes begin with.
ghost use Rattle.std.specs.Prelude.{◌≡◌, ◌++◌, ◌↔◌, ℕ, List, IsTrue, MatchOption, Some};
ghost use Rattle.rc_launch.specs.Logs.{IsCutBy};

/// Returns true if a log begins with the text of a session, and has more.
pub(crate) fn is_of(text: &[u8], log: &[u8]) -> bool
    ensures { IsTrue result ↔ IsCutBy (Some text.now) log.now }
{
    match behind(text, log) {
        Some(rest) => !rest.is_empty(),
        None => false,
    }
}

/// Returns the bytes after a front, if they begin with it.
pub(crate) fn behind<'a>(front: &[u8], bytes: &'a [u8]) -> Option<&'a [u8]>
    ensures { MatchOption result ((rest : List ℕ) → bytes.now ≡ front.now ++ rest → ⊥)
        (λ rest. bytes.now ≡ front.now ++ rest.now) }
{
    bytes.strip_prefix(front)
}
