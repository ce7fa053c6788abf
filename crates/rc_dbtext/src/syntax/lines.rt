//! The lines of a database text, a function for each kind of line.
ghost use Rattle.std.specs.Prelude.{◌≡◌, ◌≤◌, ℕ, List, [], ◌∷◌, ◌++◌, All, IfOk, IfErr, IfSome};
ghost use Rattle.std.specs.Prelude.{MatchOption, codes, length, Bool};
ghost use Rattle.std.specs.Fmt.{decimal};
ghost use Rattle.std.specs.Option.{option_map};
ghost use Rattle.rc_model.specs.Names.{IsName};
ghost use Rattle.rc_model.specs.declared.Kind.{Kind};
ghost use Rattle.rc_model.specs.declared.Kind.TheVariants as kinds;
ghost use Rattle.rc_db.specs.Service.{IsScript};
ghost use Rattle.rc_dbtext.specs.Text.{First, OfService, OfNeeds, OfProducer, OfUp, OfDown};
ghost use Rattle.rc_dbtext.specs.Text.{OfBundle, Last, IsHead, IsBundleText};
ghost use Rattle.rc_dbtext.specs.Text.{line_of_words, spell};
ghost use Rattle.rc_dbtext.specs.Text.{kind_word, flag_word, text_behind};
ghost use Rattle.rc_dbtext.specs.Reading.{IsNoCount};
ghost use Rattle.rc_dbtext.specs.Reading.{IsRead, IsRefused, one};
ghost use Rattle.rc_dbtext.specs.LineValues.{IsPlain, IsOfWords, IsOfNoWords};

use crate::lexer::{
    BundleForm, NameWord, Words, argument, arguments, is, names_of, number_of, value_of,
};
use crate::syntax::fault::FormFault;
use crate::syntax::words::{MAX_TEXT, number_line, text_of, words_of};
use rc_db::NoMem;
use rc_names::Kind;
use std::alloc::Global;
use std::marker::Model;

/// The most services, and the most bundles.
const MAX_COUNT: u32 = 4096;

/// What the first line of a service says.
#[derive(Drop)]
pub struct Head<'a> {
    pub name: NameWord<'a>,
    pub kind: Kind,
    pub essential: bool,
    /// In milliseconds, 0 for none.
    pub limit_up: u32,
    /// In milliseconds, 0 for none.
    pub limit_down: u32,
}

impl<'a> Model for Head<'a> {
    ghost use Rattle.rc_dbtext.specs.Text as text;

    ghost Value = { text.Head };

    ghost view = { λ h. record {
      name = h.name;
      kind = h.kind;
      essential = h.essential;
      limit_up = h.limit_up;
      limit_down = h.limit_down;
    } };
}

impl<'a> Head<'a> {
    /// Returns the kind of the service, a oneshot or a longrun.
    pub fn kind(&self) -> Kind
        ensures { result ≡ self.now.kind }
    {
        self.kind
    }
}

/// Reads the first line, and returns what follows it.
pub(crate) fn first_line(bytes: &[u8]) -> Result<&[u8], FormFault>
    ensures ok { IfOk result (λ rest. bytes.now ≡ spell First ++ rest.now) }
    ensures fault { IfErr result (λ fault.
        IsRefused (λ (u : Unit {0}). Unit {0}) (one (λ _. First)) bytes.now fault) }
{
    let (number, rest) = number_line(bytes, "undorc-db")?;
    if is(number, "1") {
        Ok(rest)
    } else {
        Err(FormFault::Version)
    }
}

/// Reads the line of `word` and a count. Returns the count and what follows that line.
pub(crate) fn count_line<'a>(bytes: &'a [u8], word: &str) -> Result<(u32, &'a [u8]), FormFault>
    requires { IsPlain word.now }
    ensures ok { IfOk result (λ read. (read.0 ≤ 4096)
        × (bytes.now ≡ line_of_words (word.now ∷ decimal read.0 ∷ []) ++ read.1.now)) }
    ensures fault { IfErr result (IsNoCount word.now bytes.now) }
{
    let (number, rest) = number_line(bytes, word)?;
    match value_of(number, MAX_COUNT) {
        Some(count) => Ok((count, rest)),
        None => Err(FormFault::TooMany),
    }
}

/// Reads the first line of a service. Returns what it says, and what follows it.
pub(crate) fn head_line(bytes: &[u8]) -> Result<(Head<'_>, &[u8]), FormFault>
    ensures ok { IfOk result (λ read. IsRead IsHead (one OfService) bytes.now read.0 read.1.now) }
    ensures fault { IfErr result (IsRefused IsHead (one OfService) bytes.now) }
{
    let (words, rest) = words_of(bytes)?;
    match head_of(words) {
        Some(head) => Ok((head, rest)),
        None => Err(FormFault::Bad(bytes.len())),
    }
}

/// Reads the line of what a service needs. Returns the needs and what follows that line.
pub(crate) fn needs_line<'a>(
    alloc: Global,
    bytes: &'a [u8],
) -> Result<(Vec<NameWord<'a>>, &'a [u8]), FormFault>
    ensures ok { IfOk result (λ read. IsRead (All IsName)
        (one OfNeeds) bytes.now read.0.items read.1.now) }
    ensures fault { IfErr result (IsRefused (All IsName) (one OfNeeds) bytes.now) }
{
    let (words, rest) = words_of(bytes)?;
    match needs_of(alloc, words) {
        Ok(Some(needs)) => Ok((needs, rest)),
        Ok(None) => Err(FormFault::Bad(bytes.len())),
        Err(_) => Err(FormFault::Memory),
    }
}

/// Reads the line of what a longrun feeds. Returns the name, if any, and what follows that line.
pub(crate) fn producer_line(bytes: &[u8]) -> Result<(Option<NameWord<'_>>, &[u8]), FormFault>
    ensures ok { IfOk result (λ read. IsRead (λ p. IfSome p IsName)
        (one OfProducer) bytes.now read.0 read.1.now) }
    ensures fault { IfErr result (IsRefused (λ p. IfSome p IsName) (one OfProducer) bytes.now) }
{
    let (words, rest) = words_of(bytes)?;
    match producer_of(words) {
        Some(producer_for) => Ok((producer_for, rest)),
        None => Err(FormFault::Bad(bytes.len())),
    }
}

/// Reads the line of a bundle. Returns the bundle and what follows its line.
pub(crate) fn bundle_line<'a>(
    alloc: Global,
    bytes: &'a [u8],
) -> Result<(BundleForm<'a>, &'a [u8]), FormFault>
    ensures ok { IfOk result (λ read. IsRead IsBundleText
        (one OfBundle) bytes.now read.0 read.1.now) }
    ensures fault { IfErr result (IsRefused IsBundleText (one OfBundle) bytes.now) }
{
    let (words, rest) = words_of(bytes)?;
    match bundle_of(alloc, words) {
        Ok(Some(bundle)) => Ok((bundle, rest)),
        Ok(None) => Err(FormFault::Bad(bytes.len())),
        Err(_) => Err(FormFault::Memory),
    }
}

/// Reads the last line, and returns what follows it.
pub(crate) fn last_line(bytes: &[u8]) -> Result<&[u8], FormFault>
    ensures ok { IfOk result (λ rest. bytes.now ≡ spell Last ++ rest.now) }
    ensures fault { IfErr result (λ fault.
        IsRefused (λ (u : Unit {0}). Unit {0}) (one (λ _. Last)) bytes.now fault) }
{
    let (words, rest) = words_of(bytes)?;
    let Some(mut others) = arguments(words, "end") else {
        return Err(FormFault::Bad(bytes.len()));
    };
    match others.next_word() {
        Some(_) => Err(FormFault::Bad(bytes.len())),
        None => Ok(rest),
    }
}

/// Reads the text of a oneshot for the way up. Returns it and what follows it.
pub(crate) fn up_line(bytes: &[u8]) -> Result<(&str, &[u8]), FormFault>
    ensures ok { IfOk result (λ read. IsRead IsScript (one OfUp) bytes.now
        read.0.now read.1.now) }
    ensures fault { IfErr result (IsRefused IsScript (one OfUp) bytes.now) }
{
    let (words, rest) = words_of(bytes)?;
    let Some(long) = argument(words, "up") else {
        return Err(FormFault::Bad(bytes.len()));
    };
    match text_after(long, rest) {
        Some((text, behind)) => Ok((text, behind)),
        None => Err(FormFault::Bad(bytes.len())),
    }
}

/// Reads the text of a oneshot for the way down. Returns the text, if there is one, and what
/// follows it.
pub(crate) fn down_line(bytes: &[u8]) -> Result<(Option<&str>, &[u8]), FormFault>
    ensures ok { IfOk result (λ read. IsRead (λ t. IfSome t IsScript) (one OfDown) bytes.now
        (option_map (λ text. text.now) read.0) read.1.now) }
    ensures fault { IfErr result (IsRefused (λ t. IfSome t IsScript) (one OfDown) bytes.now) }
{
    let (words, rest) = words_of(bytes)?;
    let Some(long) = argument(words, "down") else {
        return Err(FormFault::Bad(bytes.len()));
    };
    if is(long, "-") {
        return Ok((None, rest));
    }
    match text_after(long, rest) {
        Some((text, behind)) => Ok((Some(text), behind)),
        None => Err(FormFault::Bad(bytes.len())),
    }
}

#[tactic(auto, using(crate::proofs::KindLines::same_length))]
// Reads the text that stands here, if it is as long as the word says. Returns it and what follows
// it.
fn text_after<'a>(long: &str, bytes: &'a [u8]) -> Option<(&'a str, &'a [u8])>
    ensures { MatchOption result
        ((text rest : List ℕ) → IsScript text → long.now ≡ decimal (length text) → bytes.now
        ≡ text_behind (OfUp text) ++ rest → ⊥)
        (λ read. IsScript read.0.now × (long.now ≡ decimal (length read.0.now))
        × (bytes.now ≡ text_behind (OfUp read.0.now) ++ read.1.now)) }
{
    let Some(count) = number_of(long, MAX_TEXT) else {
        return None;
    };
    match text_of(bytes, count) {
        Some((text, rest)) => Some((text, rest)),
        None => None,
    }
}

// Returns the needs that the words of a line give.
fn needs_of<'a>(alloc: Global, words: Words<'a>) -> Result<Option<Vec<NameWord<'a>>>, NoMem>
    ensures { IfOk result (λ needs. MatchOption needs
        (IsOfNoWords (All IsName) OfNeeds words.entry)
        (λ needs. IsOfWords (All IsName) OfNeeds words.entry needs.items)) }
{
    match arguments(words, "needs") {
        Some(names) => names_of(alloc, names),
        None => Ok(None),
    }
}

// Returns the bundle that the words of a line give.
fn bundle_of<'a>(alloc: Global, words: Words<'a>) -> Result<Option<BundleForm<'a>>, NoMem>
    ensures { IfOk result (λ bundle. MatchOption bundle
        (IsOfNoWords IsBundleText OfBundle words.entry)
        (IsOfWords IsBundleText OfBundle words.entry)) }
{
    let Some(mut others) = arguments(words, "bundle") else {
        return Ok(None);
    };
    match others.next_word() {
        Some(name) => bundle_from(alloc, name, others),
        None => Ok(None),
    }
}

// Creates the bundle of this name and these members.
fn bundle_from<'a>(
    alloc: Global,
    name: &'a str,
    members: Words<'a>,
) -> Result<Option<BundleForm<'a>>, NoMem>
    ensures { IfOk result (λ bundle. MatchOption bundle
        (IsOfNoWords IsBundleText OfBundle
        (codes "bundle" ∷ name.now ∷ members.entry))
        (IsOfWords IsBundleText OfBundle
        (codes "bundle" ∷ name.now ∷ members.entry))) }
{
    let Some(name) = NameWord::read(name) else {
        return Ok(None);
    };
    match names_of(alloc, members)? {
        Some(members) => Ok(Some(BundleForm { name, members })),
        None => Ok(None),
    }
}

// Returns the longrun that a longrun feeds, if any, from the words of a line.
fn producer_of<'a>(words: Words<'a>) -> Option<Option<NameWord<'a>>>
    ensures { MatchOption result
        (IsOfNoWords (λ p. IfSome p IsName) OfProducer words.entry)
        (IsOfWords (λ p. IfSome p IsName) OfProducer words.entry) }
{
    let word = argument(words, "producer")?;
    if is(word, "-") {
        return Some(None);
    }
    match NameWord::read(word) {
        Some(name) => Some(Some(name)),
        None => None,
    }
}

// Returns the head that the words of a service's first line give.
fn head_of<'a>(words: Words<'a>) -> Option<Head<'a>>
    ensures { MatchOption result (IsOfNoWords IsHead OfService words.entry)
        (IsOfWords IsHead OfService words.entry) }
{
    let Some(mut others) = arguments(words, "service") else {
        return None;
    };
    let Some(name) = others.next_word() else {
        return None;
    };
    let (Some(kind), Some(flag)) = (others.next_word(), others.next_word()) else {
        return None;
    };
    let (Some(up), Some(down)) = (others.next_word(), others.next_word()) else {
        return None;
    };
    match others.next_word() {
        Some(_) => None,
        None => head_from(name, kind, flag, up, down),
    }
}

// Creates the head of a service from the words of its first line.
fn head_from<'a>(name: &'a str, kind: &str, flag: &str, up: &str, down: &str) -> Option<Head<'a>>
    ensures { MatchOption result
        (IsOfNoWords IsHead OfService (codes "service" ∷ name.now ∷ kind.now ∷ flag.now ∷ up.now
        ∷ down.now ∷ []))
        (IsOfWords IsHead OfService (codes "service" ∷ name.now ∷ kind.now ∷ flag.now ∷ up.now
        ∷ down.now ∷ [])) }
{
    let (Some(kind), Some(essential)) = (kind_of(kind), flag_of(flag)) else {
        return None;
    };
    let (Some(limit_up), Some(limit_down)) = (number_of(up, u32::MAX), number_of(down, u32::MAX))
    else {
        return None;
    };
    match NameWord::read(name) {
        Some(name) => Some(Head {
            name,
            kind,
            essential,
            limit_up,
            limit_down,
        }),
        None => None,
    }
}

// Returns the kind that a word says.
fn kind_of(word: &str) -> Option<Kind>
    ensures { MatchOption result ((kind : Kind) → ((kind ≡ kinds.Bundle) → ⊥) →
        word.now ≡ kind_word kind → ⊥)
        (λ kind. ((kind ≡ kinds.Bundle) → ⊥) × (word.now ≡ kind_word kind)) }
{
    if is(word, "oneshot") {
        Some(Kind::Oneshot)
    } else if is(word, "longrun") {
        Some(Kind::Longrun)
    } else {
        None
    }
}

// Parses the word that says whether a service is essential.
fn flag_of(word: &str) -> Option<bool>
    ensures { MatchOption result ((flag : Bool) → word.now ≡ flag_word flag → ⊥)
        (λ flag. word.now ≡ flag_word flag) }
{
    if is(word, "essential") {
        Some(true)
    } else if is(word, "plain") {
        Some(false)
    } else {
        None
    }
}
