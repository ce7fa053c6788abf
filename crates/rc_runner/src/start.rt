//! Programs that are started, waited for, and ended where they take too long.

ghost use Rattle.std.specs.Prelude.{◌≡◌, ◌≤◌, ◌↔◌, ◌++◌, ◌∷◌, [], map, string_bytes, unwrap_or};
ghost use Rattle.std.specs.Prelude.{IsTrue, IfOk, IfSome, OnOk, Ok, None};
ghost use Rattle.std.specs.Process.{command_program, command_args, child_status};
ghost use Rattle.rc_runner.specs.Ended.{CountsAs, IsEndOf, IsWaited, outcome_of};
ghost use Rattle.rc_runner.specs.Orders.{IsCommandOf};
ghost use Rattle.rc_runner.specs.Shell.{MayEnd};

use rc_core::Outcome;
use std::alloc::{AllocError, Global};
use std::fs::File;
use std::io::Stderr;
use std::os::fd::AsFd;
use std::process::{Child, Command, ExitStatus, OpenProcess, Processes, Stdio};
use std::time::{Clock, Duration, Instant};
use std::{io, thread};

/// How long a program that was asked to end may take to do so, in milliseconds.
pub(crate) const GRACE: u64 = 5000;

/// The texts by which a shell asks the session of a program to end, ends it, and ends what is left
/// of it five seconds after the program. `$0` is the number of the program.
pub(crate) const ASK: &str = "kill -TERM \"-$0\"";

pub(crate) const END: &str = "kill -KILL \"-$0\"";

pub(crate) const END_REST: &str =
    "n=0; while [ $n -lt 50 ] && kill -0 \"-$0\"; do sleep 0.1; n=$((n+1)); done; kill -KILL \"-$0\"";

/// The texts by which a shell asks a program to end that may lead no process group, and ends it.
pub(crate) const ASK_ONE: &str = "kill -TERM \"-$0\" || kill -TERM \"$0\"";

pub(crate) const END_ONE: &str = "kill -KILL \"-$0\" || kill -KILL \"$0\"";

/// The first and the longest pause while a program is waited for, in microseconds.
pub(crate) const FIRST_PAUSE: u64 = 50;

const LONGEST_PAUSE: u64 = 10_000;

/// What is known of a program when a time is over.
enum Waited {
    Ended(ExitStatus),
    Running,
    /// It can't be waited for.
    Lost,
}

/// Creates the command of the given words under a limit, 0 for none. Under a limit it leads a
/// session of its own, so that all that it starts can be ended. Returns none if there is no word.
pub(crate) fn command_under(
    alloc: Global,
    words: &[String],
    limit: u32,
) -> Result<Option<Command>, AllocError>
    ensures some { IfOk result (λ made. IfSome made
        (IsCommandOf limit (map string_bytes words.now))) }
    ensures none { result ≡ Ok None → words.now ≡ [] }
{
    if limit == 0 || words.is_empty() {
        return command_of(alloc, words);
    }
    let mut command = Command::new(alloc, "setsid")?;
    add_words(&mut command, words)?;
    Ok(Some(command))
}

/// Creates the command of the given words. Returns none if there is no word.
fn command_of(alloc: Global, words: &[String]) -> Result<Option<Command>, AllocError>
    ensures some { IfOk result (λ made. IfSome made
        (IsCommandOf 0 (map string_bytes words.now))) }
    ensures none { result ≡ Ok None → words.now ≡ [] }
{
    let Some((program, rest)) = words.split_first() else {
        return Ok(None);
    };
    let mut command = Command::new(alloc, program.as_str())?;
    add_words(&mut command, rest)?;
    Ok(Some(command))
}

/// Appends words to those of a command.
fn add_words(command: &mut Command, words: &[String]) -> Result<(), AllocError>
    ensures args { OnOk result
        (command_args command.new ≡ command_args command.old ++ map string_bytes words.now) }
    ensures program { OnOk result (command_program command.new ≡ command_program command.old) }
{
    for word in words {
        command.arg(word.as_str())?;
    }
    Ok(())
}

/// Appends two words to those of a command.
pub(crate) fn add_two(command: &mut Command, one: &str, two: &str) -> Result<(), AllocError>
    ensures args { OnOk result
        (command_args command.new ≡ command_args command.old ++ one.now ∷ two.now ∷ []) }
    ensures program { OnOk result (command_program command.new ≡ command_program command.old) }
{
    command.arg(one)?;
    command.arg(two)?;
    Ok(())
}

/// What a program writes to.
#[derive(Drop)]
pub(crate) enum Output {
    /// Nothing: its output is discarded.
    Null,
    /// The errors of this program.
    Errors(Stderr),
    /// A file.
    Kept(File),
}

/// Starts a program. It reads nothing, and both its streams go to `output`. With a pipe, a child
/// that it leaves behind would have to be waited for.
pub(crate) fn start<R: Processes>(
    rt: &R,
    command: &mut Command,
    output: &Output,
) -> io::Result<Child<R::Started>> {
    command
        .stdin(Stdio::null())
        .stdout(stream_to(output))
        .stderr(stream_to(output));
    command.spawn(rt)
}

/// Returns the stream to which a program writes: a copy of that of `output`, or the null device if
/// there is no such copy.
fn stream_to(output: &Output) -> Stdio {
    match output {
        Output::Null => Stdio::null(),
        Output::Errors(errors) => match errors.as_fd().try_clone_to_owned() {
            Ok(open) => Stdio::from(open),
            Err(_) => Stdio::null(),
        },
        Output::Kept(file) => match file.try_clone() {
            Ok(open) => Stdio::from(open),
            Err(_) => Stdio::null(),
        },
    }
}

/// Waits for a program under a limit in seconds, 0 for none, and returns how it ended. Ends a
/// program that exceeds the limit.
pub(crate) fn end_of<R: Processes + Clock, P: OpenProcess + Drop>(
    rt: &R,
    alloc: Global,
    child: &mut Child<P>,
    seconds: u64,
) -> Outcome
    ensures told { IsEndOf seconds (child_status child.new) result }
    ensures may { MayEnd seconds result }
{
    if seconds == 0 {
        return match child.wait() {
            Ok(status) => told(status, 0),
            Err(_) => Outcome::NotStarted,
        };
    }
    match wait_for(rt, child, seconds.saturating_mul(1000)) {
        Waited::Ended(status) => told(status, seconds),
        Waited::Lost => Outcome::NotStarted,
        Waited::Running => {
            end(rt, alloc, child);
            Outcome::TimedOut
        }
    }
}

/// Returns the outcome for an exit status under a limit in seconds, 0 for none.
fn told(status: ExitStatus, seconds: u64) -> Outcome
    ensures counts { CountsAs seconds status result }
    ensures may { MayEnd seconds result }
{
    let Some(code) = status.code() else {
        return Outcome::Failed(255);
    };
    match u8::try_from(code) {
        Ok(code) => counted(code, seconds),
        Err(_) => Outcome::Failed(255),
    }
}

/// Returns the outcome for an exit code under a limit in seconds, 0 for none.
fn counted(code: u8, seconds: u64) -> Outcome
    ensures exact { result ≡ outcome_of seconds code }
    ensures may { MayEnd seconds result }
{
    if code == 0 {
        return Outcome::Ok;
    }
    if seconds == 0 {
        return Outcome::Failed(code);
    }
    if code == 124 {
        return Outcome::TimedOut;
    }
    if code == 126 || code == 127 {
        return Outcome::NotStarted;
    }
    Outcome::Failed(code)
}

/// Waits for a program, at most so many milliseconds. If the clock cannot be read, counts the
/// pauses.
fn wait_for<R: Clock, P: OpenProcess + Drop>(rt: &R, child: &mut Child<P>, limit: u64) -> Waited
    ensures { IsWaited (child_status child.new) result }
{
    let start = Instant::now(rt).ok();
    let mut paused: u64 = 0;
    let mut pause = FIRST_PAUSE;
    for _ in 0..u64::MAX {
        match child.try_wait() {
            Ok(Some(status)) => return Waited::Ended(status),
            Ok(None) => {}
            Err(_) => return Waited::Lost,
        }
        if is_over(limit, millis_since(rt, start), paused / 1000) {
            break;
        }
        thread::sleep(rt, Duration::from_micros(pause));
        paused = paused.saturating_add(pause);
        pause = longer(pause);
    }
    Waited::Running
}

/// Returns true if so many milliseconds are over, by the clock, or by the pauses if it cannot be
/// read.
pub(crate) fn is_over(limit: u64, past: Option<u64>, paused: u64) -> bool
    ensures { IsTrue result ↔ limit ≤ unwrap_or past paused }
{
    limit <= past.unwrap_or(paused)
}

/// Returns the pause after one, in microseconds. It is twice as long, up to `LONGEST_PAUSE`, so
/// that a program that ends soon is found soon, and one that does not costs little.
pub(crate) fn longer(pause: u64) -> u64 {
    pause.saturating_mul(2).min(LONGEST_PAUSE)
}

/// Returns the milliseconds since a moment. Returns none if the clock cannot be read, or could not
/// be read then.
pub(crate) fn millis_since<R: Clock>(rt: &R, start: Option<Instant>) -> Option<u64> {
    let past = start?.elapsed(rt).ok()?;
    Some(u64::try_from(past.as_millis()).unwrap_or(u64::MAX))
}

/// Ends a program and all of its session. Asks them to end, and kills them if they do not end in
/// time or cannot be asked.
fn end<R: Processes + Clock, P: OpenProcess + Drop>(rt: &R, alloc: Global, child: &mut Child<P>) {
    let leader = child.id() as u64;
    if signal(rt, alloc, ASK, leader).is_ok() {
        match wait_for(rt, child, GRACE) {
            Waited::Ended(_) | Waited::Lost => {
                let _ = signal(rt, alloc, END_REST, leader);
                return;
            }
            Waited::Running => {}
        }
    }
    let _ = signal(rt, alloc, END, leader);
    if child.kill().is_ok() {
        let _ = child.wait();
    }
}

/// Sends a signal to the session of a program through a shell that runs the given text. While the
/// program is not waited for, or a process of its session still runs, no other process has its
/// number.
pub(crate) fn signal<R: Processes>(
    rt: &R,
    alloc: Global,
    text: &str,
    leader: u64,
) -> io::Result<ExitStatus> {
    let mut command = Command::new(alloc, "/bin/sh")?;
    let Ok(()) = add_text(alloc, &mut command, text, leader) else {
        drop(command);
        return Err(io::Error::from(AllocError));
    };
    let ended = status_of(rt, &mut command);
    drop(command);
    ended
}

/// Appends the arguments by which a shell runs a text with the given number as `$0`.
fn add_text(
    alloc: Global,
    command: &mut Command,
    text: &str,
    leader: u64,
) -> Result<(), AllocError> {
    let number = format!(in alloc; "{leader}")?;
    add_two(command, "-c", text)?;
    command.arg(number.as_str())?;
    Ok(())
}

/// Runs a program that reads nothing and whose output is discarded, and returns its exit status.
fn status_of<R: Processes>(rt: &R, command: &mut Command) -> io::Result<ExitStatus> {
    command
        .stdin(Stdio::null())
        .stdout(Stdio::null())
        .stderr(Stdio::null());
    command.status(rt)
}
