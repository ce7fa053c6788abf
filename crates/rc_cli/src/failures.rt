//! The failures that are remembered beside the file of a session: their text, and what the ends of
//! transitions make of them.
ghost use Rattle.std.specs.Prelude.{◌≡◌, ◌==◌, ◌++◌, ◌∷◌, [], None, Some, codes, map, option_map};
ghost use Rattle.std.specs.Prelude.{IfOk, OnOk, if◌then◌else◌};
ghost use Rattle.std.specs.List.{slice_split};
ghost use Rattle.std.specs.Str.{bytes_eq};
ghost use Rattle.rc_script.specs.Words.{words_in};
ghost use Rattle.rc_cli.specs.Failures.{about, done_by, end_by, end_of, ends_of, failed_at};
ghost use Rattle.rc_cli.specs.Failures.{failure_line, failure_of, failures_in, failures_of};
ghost use Rattle.rc_cli.specs.Failures.{has_ended, headed, is_among, kept, last_failures};
ghost use Rattle.rc_cli.specs.Failures.{logged_ends, outcome_by, read_line, read_lines, way_from};
ghost use Rattle.rc_cli.specs.Failures.{entered, failures_before, listed, remembered, text_if};
ghost use Rattle.rc_cli.specs.Failures.{text_of};

use rc_script::words_of;
use std::alloc::{AllocError, Global};

/// The first line of a text of failures.
const HEAD: &[u8] = b"undorc-failed 1";

/// A transition that did not succeed: of which service, which way, how it ended, when that was
/// entered, and from which state of the journal it went. What stands before the outcome is in
/// `front`.
#[derive(Clone, Copy)]
pub struct Failure<'a> {
    pub name: &'a [u8],
    pub way: &'a [u8],
    pub front: &'a [u8],
    pub outcome: &'a [u8],
    pub time: &'a [u8],
    pub state: &'a [u8],
}

/// The end of a transition of a service: its failure, or none if it succeeded.
#[derive(Clone, Copy)]
pub struct End<'a> {
    pub name: &'a [u8],
    pub failure: Option<Failure<'a>>,
}

/// Parses a text of failures. Returns none if it is no such text.
pub fn failures_in<'a>(
    alloc: Global,
    text: &'a [u8],
) -> Result<Option<Vec<Failure<'a>>>, AllocError>
    ensures { IfOk result (λ found. option_map (λ list. failures_of list.items) found
        ≡ failures_in text.entry.now) }
{
    let lines = lines_of(alloc, text)?;
    let found = headed(alloc, &lines);
    drop(lines);
    found
}

/// Splits a text into its lines.
pub(crate) fn lines_of<'a>(alloc: Global, text: &'a [u8]) -> Result<Vec<&'a [u8]>, AllocError>
    ensures { IfOk result (λ lines. map (λ line. line.now) lines.items
        ≡ slice_split (λ byte. byte == 10) text.entry.now) }
{
    text.split(|byte| *byte == b'\n').collect(alloc)
}

// Parses the lines of a text of failures.
fn headed<'a>(alloc: Global, lines: &[&'a [u8]]) -> Result<Option<Vec<Failure<'a>>>, AllocError>
    ensures { IfOk result (λ found. option_map (λ list. failures_of list.items) found
        ≡ headed (map (λ line. line.now) lines.now)) }
{
    match lines {
        [head, more @ ..] if is(head, HEAD) => read_lines(alloc, more),
        _ => Ok(None),
    }
}

// Parses lines after the head.
fn read_lines<'a>(alloc: Global, lines: &[&'a [u8]]) -> Result<Option<Vec<Failure<'a>>>, AllocError>
    ensures { IfOk result (λ found. option_map (λ list. failures_of list.items) found
        ≡ read_lines [] (map (λ line. line.now) lines.now)) }
{
    let mut list = Vec::new(alloc);
    for place in 0..lines.len() {
        if !read_line(alloc, &mut list, lines[place])? {
            return Ok(None);
        }
    }
    Ok(Some(list))
}

// Appends the failure of a line, if it states one. Returns false if it states something else.
fn read_line<'a>(
    alloc: Global,
    list: &mut Vec<Failure<'a>>,
    line: &'a [u8],
) -> Result<bool, AllocError>
    ensures { IfOk result (λ is_read. (if is_read then Some (failures_of list.new.items) else None)
        ≡ read_line (failures_of list.old.items) (words_in line.entry.now)) }
{
    let words = words_of(alloc, line)?;
    read_words(list, &words)
}

// Appends the failure of the words of a line, if they state one. Returns false if they state
// something else.
fn read_words<'a>(list: &mut Vec<Failure<'a>>, words: &[&'a [u8]]) -> Result<bool, AllocError>
    ensures { IfOk result (λ is_read. (if is_read then Some (failures_of list.new.items) else None)
        ≡ read_line (failures_of list.old.items) (map (λ word. word.now) words.now)) }
{
    match words {
        [] => Ok(true),
        [name, way, outcome, time, state] => {
            list.push(Failure {
                name,
                way,
                front: &[],
                outcome,
                time,
                state,
            })?;
            Ok(true)
        }
        _ => Ok(false),
    }
}

/// Returns the failures after ends of transitions: those before of services that none of them is
/// of, and then the last end of each other service, if it is a failure.
pub fn remembered<'a>(
    alloc: Global,
    before: &[Failure<'a>],
    ends: &[End<'a>],
) -> Result<Vec<Failure<'a>>, AllocError>
    ensures { IfOk result (λ list. failures_of list.items
        ≡ remembered (failures_of before.now) (ends_of ends.now)) }
{
    let mut list = kept(alloc, before, ends)?;
    for place in 0..ends.len() {
        add_last(&mut list, ends[place], &ends[place + 1..])?;
    }
    Ok(list)
}

// Returns the failures of services that no end is of.
fn kept<'a>(
    alloc: Global,
    before: &[Failure<'a>],
    ends: &[End<'a>],
) -> Result<Vec<Failure<'a>>, AllocError>
    ensures { IfOk result (λ list. failures_of list.items
        ≡ kept (failures_of before.now) (ends_of ends.now)) }
{
    let mut list = Vec::new(alloc);
    for place in 0..before.len() {
        add_kept(&mut list, before[place], ends)?;
    }
    Ok(list)
}

// Appends a failure, unless an end is of its service.
fn add_kept<'a>(
    list: &mut Vec<Failure<'a>>,
    one: Failure<'a>,
    ends: &[End<'a>],
) -> Result<(), AllocError>
    ensures { OnOk result (failures_of list.new.items ≡ failures_of list.old.items
        ++ kept (failure_of one.entry ∷ []) (ends_of ends.now)) }
{
    if !has_ended(ends, one.name) {
        list.push(one)?;
    }
    Ok(())
}

// Appends the failure of an end, if it is one and the last end of its service.
fn add_last<'a>(
    list: &mut Vec<Failure<'a>>,
    end: End<'a>,
    later: &[End<'a>],
) -> Result<(), AllocError>
    ensures { OnOk result (failures_of list.new.items ++ last_failures (ends_of later.now)
        ≡ failures_of list.old.items
        ++ last_failures (end_of end.entry ∷ ends_of later.now)) }
{
    if has_ended(later, end.name) {
        return Ok(());
    }
    if let Some(failure) = end.failure {
        list.push(failure)?;
    }
    Ok(())
}

// Returns true if an end is of a service of this name.
fn has_ended(ends: &[End<'_>], name: &[u8]) -> bool
    ensures { result ≡ has_ended (ends_of ends.now) name.now }
{
    for end in ends {
        if end.name == name {
            return true;
        }
    }
    false
}

/// Returns the text of failures.
pub fn text_of(alloc: Global, failures: &[Failure<'_>]) -> Result<Vec<u8>, AllocError>
    ensures { IfOk result (λ text. text.items ≡ text_of (failures_of failures.now)) }
{
    let mut text = Vec::from_slice(alloc, HEAD)?;
    text.push(b'\n')?;
    for place in 0..failures.len() {
        add_line(&mut text, &failures[place])?;
    }
    Ok(text)
}

// Appends the line of a failure.
fn add_line(text: &mut Vec<u8>, failure: &Failure<'_>) -> Result<(), AllocError>
    ensures { OnOk result (text.new.items
        ≡ text.old.items ++ failure_line (failure_of failure.now)) }
{
    text.extend_from_slice(failure.name)?;
    text.push(b' ')?;
    add_about(text, failure)?;
    text.push(b'\n')?;
    Ok(())
}

/// Appends the words about a failure.
pub(crate) fn add_about(text: &mut Vec<u8>, failure: &Failure<'_>) -> Result<(), AllocError>
    ensures { OnOk result (text.new.items ≡ text.old.items ++ about (failure_of failure.now)) }
{
    text.extend_from_slice(failure.way)?;
    text.push(b' ')?;
    text.extend_from_slice(failure.front)?;
    text.extend_from_slice(failure.outcome)?;
    text.push(b' ')?;
    text.extend_from_slice(failure.time)?;
    text.push(b' ')?;
    text.extend_from_slice(failure.state)?;
    Ok(())
}

/// When a run ended, and the number of the state from which it went.
#[derive(Clone, Copy)]
pub struct Stamp<'a> {
    pub time: &'a [u8],
    pub state: &'a [u8],
}

/// Returns the ends that lines of a run log state, where the services of these names were up before
/// the run. A transition that has begun counts as cut short, unless a later line has its end.
pub fn logged_ends<'a>(
    alloc: Global,
    lines: &[&'a [u8]],
    ups: &[&[u8]],
    stamp: Stamp<'a>,
) -> Result<Vec<End<'a>>, AllocError>
    ensures { IfOk result (λ list. ends_of list.items
        ≡ logged_ends (map (λ name. name.now) ups.now) stamp.entry.time.now stamp.entry.state.now []
        (map (λ line. line.now) lines.now)) }
{
    let mut list = Vec::new(alloc);
    for place in 0..lines.len() {
        if let Some(end) = end_in(alloc, lines[place], ups, stamp)? {
            list.push(end)?;
        }
    }
    Ok(list)
}

// Returns the end that a line of a run log states, if it states one.
fn end_in<'a>(
    alloc: Global,
    line: &'a [u8],
    ups: &[&[u8]],
    stamp: Stamp<'a>,
) -> Result<Option<End<'a>>, AllocError>
    ensures { IfOk result (λ end. option_map end_of end
        ≡ end_by (map (λ name. name.now) ups.now) stamp.entry.time.now stamp.entry.state.now
        (words_in line.entry.now)) }
{
    let words = words_of(alloc, line)?;
    Ok(end_by(&words, ups, stamp))
}

// Returns the end that the words of a line state, if they state one.
fn end_by<'a>(words: &[&'a [u8]], ups: &[&[u8]], stamp: Stamp<'a>) -> Option<End<'a>>
    ensures { option_map end_of result
        ≡ end_by (map (λ name. name.now) ups.now) stamp.entry.time.now stamp.entry.state.now
        (map (λ word. word.now) words.now) }
{
    match words {
        [verb, _, name] => {
            let end = begun(name, is_among(ups, name), stamp);
            end_if(is(verb, b"take"), end)
        }
        [verb, _, name, word] => {
            let end = done(name, is_among(ups, name), word, stamp);
            end_if(is(verb, b"done"), end)
        }
        [verb, _, name, _, number] => {
            let end = exited(name, is_among(ups, name), number, stamp);
            end_if(is(verb, b"done"), end)
        }
        _ => None,
    }
}

// Returns an end if it is stated, and none otherwise.
fn end_if(is_stated: bool, end: End<'_>) -> Option<End<'_>>
    ensures { option_map end_of result
        ≡ (if is_stated then Some (end_of end.entry) else None) }
{
    if is_stated { Some(end) } else { None }
}

// Returns the end of a service whose transition has begun.
fn begun<'a>(name: &'a [u8], was_up: bool, stamp: Stamp<'a>) -> End<'a>
    ensures { end_of result ≡ failed_at was_up stamp.entry.time.now stamp.entry.state.now
        name.entry.now (codes "cut-short") }
{
    failed(name, was_up, b"", b"cut-short", stamp)
}

// Returns the end of a service whose program exited with this number.
fn exited<'a>(name: &'a [u8], was_up: bool, number: &'a [u8], stamp: Stamp<'a>) -> End<'a>
    ensures { end_of result ≡ failed_at was_up stamp.entry.time.now stamp.entry.state.now
        name.entry.now (codes "failed:" ++ number.entry.now) }
{
    failed(name, was_up, b"failed:", number, stamp)
}

// Returns the end of a service that the word of a run log for its outcome states.
fn done<'a>(name: &'a [u8], was_up: bool, word: &'a [u8], stamp: Stamp<'a>) -> End<'a>
    ensures { end_of result ≡ done_by was_up stamp.entry.time.now stamp.entry.state.now
        name.entry.now word.entry.now }
{
    if is(word, b"ok") {
        End {
            name,
            failure: None,
        }
    } else {
        failed(name, was_up, b"", outcome_by(word), stamp)
    }
}

// Returns how the word of a run log for an outcome is written.
fn outcome_by(word: &[u8]) -> &[u8]
    ensures { result.now ≡ outcome_by word.entry.now }
{
    if is(word, b"timeout") {
        b"timed-out"
    } else if is(word, b"nostart") {
        b"not-started"
    } else {
        word
    }
}

// Returns a failure of a service that was up before, or was not.
fn failed<'a>(
    name: &'a [u8],
    was_up: bool,
    front: &'a [u8],
    outcome: &'a [u8],
    stamp: Stamp<'a>,
) -> End<'a>
    ensures { end_of result ≡ failed_at was_up stamp.entry.time.now stamp.entry.state.now
        name.entry.now (front.entry.now ++ outcome.entry.now) }
{
    End {
        name,
        failure: Some(Failure {
            name,
            way: way_from(was_up),
            front,
            outcome,
            time: stamp.time,
            state: stamp.state,
        }),
    }
}

// Returns the word for the way of a service that was up before, or was not.
fn way_from(was_up: bool) -> &'static [u8]
    ensures { result.now ≡ way_from was_up }
{
    if was_up { b"down" } else { b"up" }
}

// Returns true if a name is among these.
fn is_among(names: &[&[u8]], name: &[u8]) -> bool
    ensures { result ≡ is_among (map (λ name. name.now) names.now) name.now }
{
    for one in names {
        if *one == name {
            return true;
        }
    }
    false
}

// Returns true if a word is the given text.
pub(crate) fn is(word: &[u8], text: &[u8]) -> bool
    ensures { result ≡ bytes_eq word.now text.now }
{
    word == text
}

/// Returns the text of the failures after the ends that lines of a run log state, and no bytes if
/// there is none. Returns none if `before` is not empty and no text of failures.
pub(crate) fn entered(
    alloc: Global,
    before: &[u8],
    lines: &[&[u8]],
    ups: &[&[u8]],
    stamp: Stamp<'_>,
) -> Result<Option<Vec<u8>>, AllocError>
    ensures { IfOk result (λ made. option_map (λ text. text.items) made
        ≡ entered before.now (map (λ name. name.now) ups.now) stamp.entry.time.now
        stamp.entry.state.now (map (λ line. line.now) lines.now)) }
{
    match failures_before(alloc, before)? {
        Some(old) => {
            let text = entered_behind(alloc, &old, lines, ups, stamp);
            drop(old);
            Ok(Some(text?))
        }
        None => Ok(None),
    }
}

/// Returns the failures of a text. A text that is none of failures counts as one without any.
pub(crate) fn listed<'a>(alloc: Global, text: &'a [u8]) -> Result<Vec<Failure<'a>>, AllocError>
    ensures { IfOk result (λ list. failures_of list.items ≡ listed text.entry.now) }
{
    match failures_in(alloc, text)? {
        Some(list) => Ok(list),
        None => Ok(Vec::new(alloc)),
    }
}

// Parses what was remembered. No bytes are no failures.
fn failures_before<'a>(
    alloc: Global,
    text: &'a [u8],
) -> Result<Option<Vec<Failure<'a>>>, AllocError>
    ensures { IfOk result (λ found. option_map (λ list. failures_of list.items) found
        ≡ failures_before text.entry.now) }
{
    if text.is_empty() {
        return Ok(Some(Vec::new(alloc)));
    }
    failures_in(alloc, text)
}

// Returns the text of these failures after the ends that lines of a run log state.
fn entered_behind(
    alloc: Global,
    before: &[Failure<'_>],
    lines: &[&[u8]],
    ups: &[&[u8]],
    stamp: Stamp<'_>,
) -> Result<Vec<u8>, AllocError>
    ensures { IfOk result (λ text. text.items ≡ text_if (remembered (failures_of before.now)
        (logged_ends (map (λ name. name.now) ups.now) stamp.entry.time.now stamp.entry.state.now []
        (map (λ line. line.now) lines.now)))) }
{
    let ends = logged_ends(alloc, lines, ups, stamp)?;
    let list = remembered(alloc, before, &ends)?;
    text_if(alloc, &list)
}

// Returns the text of failures, and no bytes if there is none.
fn text_if(alloc: Global, failures: &[Failure<'_>]) -> Result<Vec<u8>, AllocError>
    ensures { IfOk result (λ text. text.items ≡ text_if (failures_of failures.now)) }
{
    if failures.is_empty() {
        return Ok(Vec::new(alloc));
    }
    text_of(alloc, failures)
}
