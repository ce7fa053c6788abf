//! The lines of a text, written at the end of bytes.
ghost use Rattle.std.specs.Prelude.{◌≡◌, ◌<◌, ◌∷◌, ◌++◌, [], length, map, All, IfSome, OnOk, OnErr};
ghost use Rattle.std.specs.Prelude.{codes, string_bytes, unwrap_or};
ghost use Rattle.std.specs.Fmt.{decimal};
ghost use Rattle.std.specs.Option.{option_map};
ghost use Rattle.rc_dbtext.specs.Text.{OfDown, OfNeeds, OfProducer, OfService, OfUp, body_lines};
ghost use Rattle.rc_dbtext.specs.Text.{spell, spells, line_of_words};
ghost use Rattle.rc_dbtext.specs.Text as text;
ghost use Rattle.rc_dbtext.specs.Lines.{words_after_spaces};
ghost use Rattle.rc_dbtext.specs.Spelling.{body_of, head_of, members, name_at};

use rc_db::{NoMem, Service};
use rc_names::{Kind, Name, Names};
use rc_set::Set;
use std::alloc::{AllocError, Global};

/// Appends the first line of a service.
pub(crate) fn push_head(
    alloc: Global,
    out: &mut Vec<u8>,
    name: &Name,
    service: &Service,
) -> Result<(), NoMem>
    ensures { OnOk result (out.new.items ≡ out.old.items
        ++ spell (OfService (head_of name.now service.now))) }
{
    let up = service.limit_up.to_string(alloc)?;
    let down = service.limit_down.to_string(alloc)?;
    push_head_with(out, name, service, up.as_bytes(), down.as_bytes())
}

// Appends the first line of a service, with its limits as they are written.
#[tactic(auto, using(crate::proofs::LineLemmas::six_words))]
fn push_head_with(
    out: &mut Vec<u8>,
    name: &Name,
    service: &Service,
    up: &[u8],
    down: &[u8],
) -> Result<(), NoMem>
    ensures { OnOk result (out.new.items ≡ out.old.items
        ++ (line_of_words (codes "service" ∷ name.now
        ∷ text.kind_word service.now.kind ∷ text.flag_word service.now.essential
        ∷ up.now ∷ down.now ∷ []) ++ [])) }
{
    out.extend_from_slice(b"service")?;
    push_word(out, name.text().as_bytes())?;
    push_word(out, kind_word(service.kind))?;
    push_word(out, flag_word(service.essential))?;
    push_word(out, up)?;
    push_word(out, down)?;
    out.extend_from_slice(b"\n")?;
    Ok(())
}

/// Appends the line of what a service needs.
#[tactic(auto, using(crate::proofs::LineLemmas::needs_line))]
pub(crate) fn push_needs(out: &mut Vec<u8>, names: &Names, needs: &[u16]) -> Result<(), NoMem>
    requires { All (λ id. id < length names.now) needs.now }
    ensures { OnOk result (out.new.items ≡ out.old.items
        ++ spell (OfNeeds (map (name_at names.now) needs.now))) }
{
    out.extend_from_slice(b"needs")?;
    push_ids(out, names, needs)?;
    out.extend_from_slice(b"\n")?;
    Ok(())
}

/// Appends the line of a bundle: its name, and those of its services. If memory runs out, the bytes
/// stay as they were.
#[tactic(auto, using(crate::proofs::LineLemmas::bundle_line))]
pub fn push_bundle(
    alloc: Global,
    out: &mut Vec<u8>,
    names: &Names,
    name: &Name,
    set: &Set,
) -> Result<(), NoMem>
    requires { length set.now ≡ length names.now }
    ensures written { OnOk result (out.new.items ≡ out.old.items
        ++ line_of_words (codes "bundle" ∷ name.now ∷ map (name_at names.now) (members set.now))) }
    ensures same { OnErr result (out.new.items ≡ out.old.items) }
{
    let before = out.len();
    out.extend_from_slice(b"bundle")?;
    if push_word(out, name.text().as_bytes()).is_ok()
        && push_set(alloc, out, names, set).is_ok()
        && out.extend_from_slice(b"\n").is_ok()
    {
        return Ok(());
    }
    out.truncate(before);
    Err(AllocError)
}

/// Appends the names of the services of a set, with a space before each. If memory runs out, the
/// bytes stay as they were.
pub fn push_set(alloc: Global, out: &mut Vec<u8>, names: &Names, set: &Set) -> Result<(), NoMem>
    requires { length set.now ≡ length names.now }
    ensures written { OnOk result (out.new.items ≡ out.old.items
        ++ words_after_spaces (map (name_at names.now) (members set.now))) }
    ensures same { OnErr result (out.new.items ≡ out.old.items) }
{
    // The names ascend.
    let _count = names.len();
    let ids = set.ids(alloc)?;
    push_ids(out, names, ids.as_slice())?;
    Ok(())
}

/// Appends the lines that follow the needs of a service.
pub(crate) fn push_body(
    alloc: Global,
    out: &mut Vec<u8>,
    names: &Names,
    service: &Service,
) -> Result<(), NoMem>
    requires { IfSome service.now.producer_for (λ id. id < length names.now) }
    ensures { OnOk result (out.new.items ≡ out.old.items
        ++ spells (body_lines (body_of names.now service.now.kind service.now))) }
{
    match service.kind {
        Kind::Oneshot => {
            push_up(alloc, out, &service.text_up)?;
            push_down(alloc, out, &service.text_down)
        }
        Kind::Longrun | Kind::Bundle => push_producer(out, names, service.producer_for),
    }
}

// Appends the line of what a longrun feeds.
fn push_producer(out: &mut Vec<u8>, names: &Names, producer_for: Option<u16>) -> Result<(), NoMem>
    requires { IfSome producer_for (λ id. id < length names.now) }
    ensures { OnOk result (out.new.items ≡ out.old.items
        ++ spell (OfProducer (option_map (name_at names.now) producer_for))) }
{
    push_line(out, b"producer", fed_word(names, producer_for))
}

// Returns the name of the longrun that is fed, or a dash if there is none.
fn fed_word<'a>(names: &'a Names, producer_for: Option<u16>) -> &'a [u8]
    requires { IfSome producer_for (λ id. id < length names.now) }
    ensures { result.now ≡ text.or_dash (option_map (name_at names.now) producer_for) }
{
    match producer_for {
        Some(id) => word_at(names, id),
        None => b"-",
    }
}

// Returns the name of a service, as bytes.
fn word_at(names: &Names, id: u16) -> &[u8]
    requires { id < length names.now }
    ensures { result.now ≡ name_at names.now id }
{
    names.name_of(id).text().as_bytes()
}

// Appends the text of a oneshot for the way up, which is empty if there is none.
fn push_up(alloc: Global, out: &mut Vec<u8>, text: &Option<String>) -> Result<(), NoMem>
    ensures { OnOk result (out.new.items ≡ out.old.items
        ++ spell (OfUp (unwrap_or (option_map string_bytes text.now) []))) }
{
    match text {
        Some(text) => push_text(alloc, out, b"up", text.as_bytes()),
        None => push_text(alloc, out, b"up", b""),
    }
}

// Appends the text of a oneshot for the way down, or a dash if there is none.
fn push_down(alloc: Global, out: &mut Vec<u8>, text: &Option<String>) -> Result<(), NoMem>
    ensures { OnOk result (out.new.items ≡ out.old.items
        ++ spell (OfDown (option_map string_bytes text.now))) }
{
    match text {
        Some(text) => push_text(alloc, out, b"down", text.as_bytes()),
        None => push_line(out, b"down", b"-"),
    }
}

// Appends a text after the line that gives its length.
fn push_text(alloc: Global, out: &mut Vec<u8>, word: &[u8], text: &[u8]) -> Result<(), NoMem>
    ensures { OnOk result (out.new.items ≡ out.old.items
        ++ (line_of_words (word.now ∷ decimal (length text.now) ∷ []) ++ (text.now ++ 10 ∷ []))) }
{
    let long = text.len().to_string(alloc)?;
    push_line(out, word, long.as_bytes())?;
    out.extend_from_slice(text)?;
    out.extend_from_slice(b"\n")?;
    Ok(())
}

/// Appends the line of a word and a count.
pub(crate) fn push_count(
    alloc: Global,
    out: &mut Vec<u8>,
    word: &[u8],
    count: u16,
) -> Result<(), NoMem>
    ensures { OnOk result (out.new.items ≡ out.old.items
        ++ line_of_words (word.now ∷ decimal count ∷ [])) }
{
    let number = count.to_string(alloc)?;
    push_line(out, word, number.as_bytes())
}

/// Appends a line of two words. If memory runs out, the bytes stay as they were.
#[tactic(auto, using(crate::proofs::LineLemmas::two_words))]
pub fn push_line(out: &mut Vec<u8>, first: &[u8], second: &[u8]) -> Result<(), NoMem>
    ensures written { OnOk result (out.new.items ≡ out.old.items
        ++ line_of_words (first.now ∷ second.now ∷ [])) }
    ensures same { OnErr result (out.new.items ≡ out.old.items) }
{
    let before = out.len();
    out.extend_from_slice(first)?;
    if push_word(out, second).is_ok() && out.extend_from_slice(b"\n").is_ok() {
        return Ok(());
    }
    out.truncate(before);
    Err(AllocError)
}

// Appends the names of services, with a space before each. If memory runs out, the bytes stay as
// they were.
fn push_ids(out: &mut Vec<u8>, names: &Names, ids: &[u16]) -> Result<(), NoMem>
    requires { All (λ id. id < length names.now) ids.now }
    ensures written { OnOk result (out.new.items ≡ out.old.items
        ++ words_after_spaces (map (name_at names.now) ids.now)) }
    ensures same { OnErr result (out.new.items ≡ out.old.items) }
{
    let before = out.len();
    for id in ids {
        let Ok(()) = push_word(out, word_at(names, *id)) else {
            out.truncate(before);
            return Err(AllocError);
        };
    }
    Ok(())
}

/// Appends a space and a word. If memory runs out, the bytes stay as they were.
pub fn push_word(out: &mut Vec<u8>, word: &[u8]) -> Result<(), NoMem>
    ensures written { OnOk result (out.new.items ≡ out.old.items ++ 32 ∷ word.now) }
    ensures same { OnErr result (out.new.items ≡ out.old.items) }
{
    let before = out.len();
    out.extend_from_slice(b" ")?;
    if out.extend_from_slice(word).is_err() {
        out.truncate(before);
        return Err(AllocError);
    }
    Ok(())
}

// Returns the word that is written for a kind.
fn kind_word(kind: Kind) -> &'static [u8]
    ensures { result.now ≡ text.kind_word kind }
{
    match kind {
        Kind::Oneshot => b"oneshot",
        Kind::Longrun => b"longrun",
        Kind::Bundle => b"bundle",
    }
}

// Returns the word that is written for the flag.
fn flag_word(essential: bool) -> &'static [u8]
    ensures { result.now ≡ text.flag_word essential }
{
    if essential { b"essential" } else { b"plain" }
}
