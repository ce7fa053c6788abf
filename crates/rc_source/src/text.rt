// What the bytes of one file say.
ghost use Rattle.std.specs.Prelude.{◌≡◌, ◌≢◌, ◌<◌, ◌≤◌, ◌+◌, ◌*◌, ◌↔◌, ◌==◌, ◌||◌, ◌∷◌, ◌++◌, []};
ghost use Rattle.std.specs.Prelude.{IfOk, IfErr, IfSome, IfNone, OnOk, IsTrue, Some, None, All};
ghost use Rattle.std.specs.Prelude.{filter, length, map, reverse, slice_get, string_bytes};
ghost use Rattle.std.specs.List.{slice_split};
ghost use Rattle.std.specs.Char.{digit_value};
ghost use Rattle.std.specs.Str.Parse.{digits_value};
ghost use Rattle.rc_model.specs.Names.{IsName};
ghost use Rattle.rc_source.specs.Kinds.{OneName};
ghost use Rattle.rc_source.specs.Files.{IsWrong};
ghost use Rattle.rc_source.specs.Texts.{IsText, IsLimit, without_newline, kind_of_word};
ghost use Rattle.rc_source.specs.Texts.{without_blanks, trimmed_line, counts, names_in};

use crate::fault::Flaw;
use rc_names::{Kind, Name, NameFault, NoMem};
use std::alloc::Global;

// The most digits of a limit.
const MAX_DIGITS: usize = 10;

// The largest limit.
const MAX_LIMIT: u64 = 4294967295;

// Returns the text of bytes. Fails if they are not text.
pub(crate) fn text_of(bytes: Vec<u8>) -> Result<String, Flaw>
    ensures text { IfOk result (λ text. (string_bytes text ≡ bytes.items) × IsText bytes.items) }
    ensures fault { IfErr result (λ flaw. (flaw ≡ Flaw.NotText) × (IsText bytes.items → ⊥)) }
{
    if !is_text(&bytes) {
        return Err(Flaw::NotText);
    }
    match String::from_utf8(bytes) {
        Ok(text) => Ok(text),
        Err(_) => Err(Flaw::NotText),
    }
}

// Returns true if bytes are text.
fn is_text(bytes: &[u8]) -> bool
    ensures { IsTrue result ↔ IsText bytes.now }
{
    std::str::from_utf8(bytes).is_ok() && !bytes.contains(&0)
}

// Returns a text without the newline at its end.
fn unended_of(text: &[u8]) -> &[u8]
    ensures { result.now ≡ without_newline text.now }
{
    if text.is_empty() {
        return text;
    }
    let end = text.len() - 1;
    if text[end] == b'\n' {
        &text[..end]
    } else {
        text
    }
}

// Returns the kind that the text of a file `type` gives.
pub(crate) fn kind_in(text: &str) -> Result<Kind, Flaw>
    ensures kind { IfOk result (λ kind. kind_of_word (without_newline text.now) ≡ Some kind) }
    ensures fault { IfErr result (λ flaw.
        (flaw ≡ Flaw.BadType) × (kind_of_word (without_newline text.now) ≡ None)) }
{
    match kind_named(unended_of(text.as_bytes())) {
        Some(kind) => Ok(kind),
        None => Err(Flaw::BadType),
    }
}

// Returns the kind that a word names.
fn kind_named(word: &[u8]) -> Option<Kind>
    ensures { result ≡ kind_of_word word.now }
{
    if word == b"oneshot".as_slice() {
        Some(Kind::Oneshot)
    } else if word == b"longrun".as_slice() {
        Some(Kind::Longrun)
    } else if word == b"bundle".as_slice() {
        Some(Kind::Bundle)
    } else {
        None
    }
}

// Returns the limit that a text gives, in milliseconds.
pub(crate) fn limit_in(text: &str) -> Result<u32, Flaw>
    ensures limit { IfOk result (λ limit.
        IsLimit (without_newline text.now) × (limit ≡ digits_value 10 (without_newline text.now))) }
    ensures fault { IfErr result (λ flaw.
        (flaw ≡ Flaw.BadTimeout) × (IsLimit (without_newline text.now) → ⊥)) }
{
    let digits = unended_of(text.as_bytes());
    if !are_few_digits(digits) {
        return Err(Flaw::BadTimeout);
    }
    match number_of(digits) {
        Some(limit) => Ok(limit),
        None => Err(Flaw::BadTimeout),
    }
}

// Returns true if bytes are 1 to 10 digits.
fn are_few_digits(digits: &[u8]) -> bool
    ensures { IsTrue result ↔ (0 < length digits.now) × (length digits.now ≤ 10)
        × All (λ digit. (48 ≤ digit) × (digit ≤ 57)) digits.now }
{
    !digits.is_empty()
        && digits.len() <= MAX_DIGITS
        && digits.iter().all(|&digit| digit >= b'0' && digit <= b'9')
}

// Returns the number that digits write, if it has at most 32 bits.
#[tactic(auto, using(crate::proofs::Digits::too_large))]
fn number_of(digits: &[u8]) -> Option<u32>
    requires { All (λ digit. (48 ≤ digit) × (digit ≤ 57)) digits.now }
    ensures number { IfSome result (λ number. number ≡ digits_value 10 digits.now) }
    ensures none { IfNone result (4294967295 < digits_value 10 digits.now) }
{
    let mut number = 0u32;
    for digit in digits {
        match with_digit(number, *digit) {
            Some(more) => number = more,
            None => return None,
        }
    }
    Some(number)
}

// Returns a number with one more digit after it, if the result has at most 32 bits.
#[tactic(auto, using(crate::proofs::Digits::digit_is))]
fn with_digit(number: u32, digit: u8) -> Option<u32>
    requires { (48 ≤ digit) × (digit ≤ 57) }
    ensures more { IfSome result (λ more. more ≡ number * 10 + digit_value digit) }
    ensures none { IfNone result (4294967295 < number * 10 + digit_value digit) }
{
    let more = number as u64 * 10 + (digit - b'0') as u64;
    if more > MAX_LIMIT {
        return None;
    }
    Some(more as u32)
}

// Returns true if a byte is a space or a tab.
fn is_blank(byte: u8) -> bool
    ensures { result ≡ ((byte == 32) || (byte == 9)) }
{
    byte == b' ' || byte == b'\t'
}

// Returns a line without the spaces and tabs at its start.
fn without_front(line: &[u8]) -> &[u8]
    ensures { result.now ≡ without_blanks line.now }
{
    let mut start = 0;
    while start < line.len() && is_blank(line[start]) {
        start += 1;
    }
    &line[start..]
}

// Returns a line without the spaces and tabs at its end.
fn without_end(line: &[u8]) -> &[u8]
    ensures { result.now ≡ reverse (without_blanks (reverse line.now)) }
{
    let mut end = line.len();
    while end > 0 && is_blank(line[end - 1]) {
        end -= 1;
    }
    &line[..end]
}

// Returns true if a trimmed line gives a name.
fn is_counted(line: &[u8]) -> bool
    ensures { result ≡ counts line.now }
{
    match line {
        [] => false,
        [first, ..] => *first != b'#',
    }
}

// Splits a text into its lines.
fn lines_of(alloc: Global, text: &[u8]) -> Result<Vec<&[u8]>, NoMem>
    ensures { IfOk result (λ lines. map (λ line. line.now) lines.items
        ≡ slice_split (λ byte. byte == 10) text.now) }
{
    text.split(|byte| *byte == b'\n').collect(alloc)
}

// Returns the names that a text gives, one a line, in its order.
pub(crate) fn names_of(alloc: Global, text: &str) -> Result<Vec<Name>, Flaw>
    ensures names { IfOk result (λ names. names.items ≡ names_in text.now) }
    ensures each { OnOk result (All IsName (names_in text.now)) }
    ensures fault { IfErr result (λ flaw.
        flaw ≢ Flaw.Memory → (flaw ≡ Flaw.BadName) × (All IsName (names_in text.now) → ⊥)) }
{
    let lines = lines_of(alloc, text.as_bytes())?;
    let mut names = Vec::new(alloc);
    for line in &lines {
        add_line(alloc, &mut names, line)?;
    }
    Ok(names)
}

// Adds the name that a line gives, if it gives one.
fn add_line(alloc: Global, names: &mut Vec<Name>, line: &[u8]) -> Result<(), Flaw>
    ensures names { OnOk result (names.new.items ≡ names.old.items
        ++ filter counts (trimmed_line line.now ∷ [])) }
    ensures each { OnOk result (All IsName (filter counts (trimmed_line line.now ∷ []))) }
    ensures fault { IfErr result (λ flaw.
        flaw ≢ Flaw.Memory → (flaw ≡ Flaw.BadName)
        × (All IsName (filter counts (trimmed_line line.now ∷ [])) → ⊥)) }
{
    let line = without_end(without_front(line));
    if !is_counted(line) {
        return Ok(());
    }
    let name = name_in(alloc, line)?;
    names.push(name)?;
    Ok(())
}

// Reads bytes as a name.
pub(crate) fn name_in(alloc: Global, bytes: &[u8]) -> Result<Name, Flaw>
    ensures name { IfOk result (λ name. (name ≡ bytes.now) × IsName bytes.now) }
    ensures fault { IfErr result (λ flaw.
        flaw ≢ Flaw.Memory → (flaw ≡ Flaw.BadName) × (IsName bytes.now → ⊥)) }
{
    let Ok(text) = std::str::from_utf8(bytes) else {
        return Err(Flaw::BadName);
    };
    match Name::read(alloc, text) {
        Ok(name) => Ok(name),
        Err(NameFault::Memory) => Err(Flaw::Memory),
        Err(_) => Err(Flaw::BadName),
    }
}

// Returns the one name that a text gives, if it gives one. Fails if it gives more.
pub(crate) fn one_name_in(alloc: Global, text: &str) -> Result<Option<Name>, Flaw>
    ensures name { IfOk result (λ name. name ≡ slice_get (names_in text.now) 0) }
    ensures is_name { IfOk result (λ name. IfSome name IsName) }
    ensures right { OnOk result (IsWrong OneName text.now → ⊥) }
    ensures fault { IfErr result (λ flaw.
        flaw ≢ Flaw.Memory → (flaw ≡ Flaw.BadName) × IsWrong OneName text.now) }
{
    let mut names = names_of(alloc, text)?;
    if names.len() > 1 {
        return Err(Flaw::BadName);
    }
    Ok(names.pop())
}
