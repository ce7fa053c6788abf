//! The options in front of the word that says what a line does.
ghost use Rattle.std.specs.Prelude.{◌≡◌, ◌<◌, false, true, None, map, option_map, length};
ghost use Rattle.std.specs.Prelude.{IfOk, MatchBool, MatchOption, string_bytes};
ghost use Rattle.rc_select.specs.Ask.{ask_of};
ghost use Rattle.rc_script.specs.Options.{IsOption, has_option, choices_of, word_choices};
ghost use Rattle.rc_script.specs.Options.{front_of, ask_chosen, only_limit};

use crate::words::limit_of;
use rc_names::NoMem;
use rc_select::{Choice, Chosen, Request};
use std::alloc::Global;

/// Parses the options in front of a line. Returns their choices and the words after them, or `None`
/// if an option is malformed.
pub(crate) fn front_of<'a, 'b>(
    alloc: Global,
    words: &'b [&'a str],
) -> Result<Option<(Vec<Choice>, &'b [&'a str])>, NoMem>
    ensures { IfOk result (λ front. option_map
        (λ f. record { choices = f.0.items; words = map (λ word. word.now) f.1.now }) front
        ≡ front_of false (map (λ word. word.now) words.entry.now)) }
{
    let mut choices = Vec::new(alloc);
    let mut start = 0;
    while has_option(&words[start..]) {
        match add_option(alloc, &mut choices, &words[start..])? {
            Some(count) => start += count,
            None => return Ok(None),
        }
    }
    Ok(Some((choices, &words[start..])))
}

/// Returns true if the words begin with an option.
fn has_option(words: &[&str]) -> bool
    ensures { result ≡ has_option (map (λ word. word.now) words.now) }
{
    match words {
        [] => false,
        [first, ..] => matches!(first.as_bytes(), [b'-', ..]),
    }
}

/// Adds the choices of the option at the beginning, and returns how many words it takes. Returns
/// `None` if the option is malformed.
fn add_option(
    alloc: Global,
    choices: &mut Vec<Choice>,
    words: &[&str],
) -> Result<Option<usize>, NoMem>
    requires { has_option (map (λ word. word.now) words.now) ≡ true }
    ensures { IfOk result (λ count. MatchOption count
        (front_of false (map (λ word. word.now) words.now) ≡ None)
        (IsOption false choices.old.items choices.new.items (map (λ word. word.now) words.now))) }
{
    if words[0] == "-t" {
        return match add_limit(choices, &words[1..]) {
            Ok(true) => Ok(Some(2)),
            Ok(false) => Ok(None),
            Err(fault) => Err(fault),
        };
    }
    let Some(letters) = letters_of(alloc, words[0])? else {
        return Ok(None);
    };
    let added = choices.extend_from_slice(&letters);
    drop(letters);
    match added {
        Ok(()) => Ok(Some(1)),
        Err(fault) => Err(fault),
    }
}

/// Adds the limit that the first word gives, and returns true. Returns false if it gives none.
fn add_limit(choices: &mut Vec<Choice>, words: &[&str]) -> Result<bool, NoMem>
    ensures { IfOk result (λ added. MatchBool added
        (IsOption true choices.old.items choices.new.items (map (λ word. word.now) words.now) 1)
        (front_of true (map (λ word. word.now) words.now) ≡ None)) }
{
    let Some(number) = words.first() else {
        return Ok(false);
    };
    match limit_of(number) {
        Some(limit) => {
            choices.push(Choice::Limit(limit))?;
            Ok(true)
        }
        None => Ok(false),
    }
}

/// Returns the choices of the letters of a word after its dash. Returns `None` if there are no
/// letters, or if one of them chooses nothing.
fn letters_of(alloc: Global, word: &str) -> Result<Option<Vec<Choice>>, NoMem>
    requires { 0 < length word.now }
    ensures { IfOk result (λ choices. option_map (λ choices. choices.items) choices
        ≡ word_choices word.now) }
{
    let letters = &word.as_bytes()[1..];
    if letters.is_empty() {
        return Ok(None);
    }
    choices_of(alloc, letters)
}

/// Returns the choices of letters, or `None` if one of them chooses nothing.
fn choices_of(alloc: Global, letters: &[u8]) -> Result<Option<Vec<Choice>>, NoMem>
    ensures { IfOk result (λ choices. option_map (λ choices. choices.items) choices
        ≡ choices_of letters.now) }
{
    let mut choices = Vec::new(alloc);
    for letter in letters {
        match Choice::of(*letter) {
            Some(choice) => choices.push(choice)?,
            None => return Ok(None),
        }
    }
    Ok(Some(choices))
}

/// Creates the request of a change from its choices and its words.
pub(crate) fn request_of(
    alloc: Global,
    choices: &[Choice],
    words: &[&str],
) -> Result<Option<Request>, NoMem>
    ensures { IfOk result (λ request. option_map ask_of request
        ≡ ask_chosen choices.now (map (λ word. word.now) words.now)) }
{
    let chosen = Chosen::by(choices);
    match chosen.mode() {
        Some(mode) => Ok(Some(chosen.request(mode, strings_of(alloc, words)?))),
        None => Ok(None),
    }
}

/// Returns the limit of a line that may have nothing else in front, or 0 if it has no limit.
/// Returns `None` if the choices are others.
pub(crate) fn only_limit(choices: &[Choice]) -> Option<u32>
    ensures { result ≡ only_limit choices.now }
{
    match choices {
        [] => Some(0),
        [Choice::Limit(limit)] => Some(*limit),
        _ => None,
    }
}

/// Copies the words into owned strings.
pub(crate) fn strings_of(alloc: Global, words: &[&str]) -> Result<Vec<String>, NoMem>
    ensures { IfOk result (λ strings. map string_bytes strings.items
        ≡ map (λ word. word.now) words.now) }
{
    let mut strings = Vec::new(alloc);
    for word in words {
        strings.push(String::from_str(alloc, word)?)?;
    }
    Ok(strings)
}
