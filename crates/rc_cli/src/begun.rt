//! What the head of a run log says of its command: that it is a step of several, or an undo or a
//! redo.
ghost use Rattle.std.specs.Prelude.{◌≡◌, ◌≢◌, ◌⊎◌, ◌++◌, ◌∷◌, ◌↔◌, [], ℕ, List, All, IsTrue};
ghost use Rattle.std.specs.Prelude.{IfOk, IfNone, IfSome, MatchOption};
ghost use Rattle.rc_model.specs.Session.{Redo, Undo};
ghost use Rattle.rc_session.specs.Commands.{plain_of};
ghost use Rattle.rc_cli.specs.Begun.{LogsStep, LogsWay, SaysMarked, SaysWay};

use memchr::memchr;
use rc_script::laws::lines_say_one_thing;
use rc_script::{STEP_MARK, SessionLine, read_line};
use rc_session::Command;
use rc_set::NoMem;
use std::alloc::Global;

/// Returns true if a run log is marked as that of a command of several steps, of the session whose
/// text is `file`.
pub fn logs_step(file: &[u8], log: &[u8]) -> bool
    ensures { IsTrue result ↔ LogsStep file.now log.now }
{
    let Some(rest) = behind(file, log) else {
        return false;
    };
    says_marked(rest)
}

/// Returns true if a run log is that of an undo or a redo, of the session whose text is `file`.
pub fn logs_way(alloc: Global, file: &[u8], log: &[u8]) -> Result<bool, NoMem>
    ensures { IfOk result (λ is. IsTrue is ↔ LogsWay file.now log.now) }
{
    let Some(rest) = behind(file, log) else {
        return Ok(false);
    };
    says_way(alloc, rest)
}

// Returns what follows the given bytes, or `None` if `bytes` does not begin with them.
fn behind<'a>(front: &[u8], bytes: &'a [u8]) -> Option<&'a [u8]>
    ensures { MatchOption result ((rest : List ℕ) → bytes.now ≡ front.now ++ rest → ⊥)
        (λ rest. bytes.now ≡ front.now ++ rest.now) }
{
    bytes.strip_prefix(front)
}

// Returns true if the mark of a step follows the first line of these bytes.
fn says_marked(bytes: &[u8]) -> bool
    ensures { IsTrue result ↔ SaysMarked bytes.now }
{
    let Some((_line, rest)) = first_line(bytes) else {
        return false;
    };
    behind(STEP_MARK.as_bytes(), rest).is_some()
}

// Returns true if the first line of these bytes is that of an undo or a redo.
fn says_way(alloc: Global, bytes: &[u8]) -> Result<bool, NoMem>
    ensures { IfOk result (λ says. IsTrue says ↔ SaysWay bytes.now) }
{
    lines_say_one_thing();
    let Some((line, _rest)) = first_line(bytes) else {
        return Ok(false);
    };
    match read_line(alloc, line)? {
        SessionLine::Command(command) => {
            let is = is_way(&command);
            drop(command);
            Ok(is)
        }
        _ => Ok(false),
    }
}

// Returns the first line without its newline, and what follows it. Returns `None` if there is no
// newline.
fn first_line(bytes: &[u8]) -> Option<(&[u8], &[u8])>
    ensures line { IfSome result (λ cut. (bytes.now ≡ cut.0.now ++ 10 ∷ cut.1.now)
        × All (λ byte. byte ≢ 10) cut.0.now) }
    ensures none { IfNone result (All (λ byte. byte ≢ 10) bytes.now) }
{
    let end = memchr(b'\n', bytes)?;
    Some((&bytes[..end], &bytes[end + 1..]))
}

// Returns true if a command is an undo or a redo under the least limit.
fn is_way(command: &Command) -> bool
    ensures { IsTrue result
        ↔ ((plain_of command.now ≡ Undo 1 []) ⊎ (plain_of command.now ≡ Redo 1 [])) }
{
    match command {
        Command::Undo(limit) | Command::Redo(limit) => *limit == 1,
        _ => false,
    }
}
