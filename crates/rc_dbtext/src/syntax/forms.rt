//! What a database text says, read front to back.
ghost use Rattle.std.specs.Prelude.{◌≡◌, IfOk, IfErr};
ghost use Rattle.std.specs.List.{flat_map};
ghost use Rattle.rc_model.specs.declared.Kind.TheVariants as kinds;
ghost use Rattle.rc_dbtext.specs.Text.{ServiceCount, BundleCount, IsBody, IsServiceText};
ghost use Rattle.rc_dbtext.specs.Text.{IsBundleText, IsDbText, AreFew, body_lines, service_lines};
ghost use Rattle.rc_dbtext.specs.Text.{bundle_lines, count_and_lines, db_lines};
ghost use Rattle.rc_dbtext.specs.Reading.{IsRead, IsRefused, AreSo};
ghost use Rattle.rc_dbtext.specs.FormText.{body_text};

use crate::lexer::{BundleForm, NameWord};
use crate::syntax::fault::FormFault;
use crate::syntax::lines::{
    Head, bundle_line, count_line, down_line, first_line, head_line, last_line, needs_line,
    producer_line, up_line,
};
use rc_names::Kind;
use std::alloc::Global;
use std::marker::Model;

/// What follows the needs of a service.
#[derive(Drop)]
pub enum BodyForm<'a> {
    Longrun(Option<NameWord<'a>>),
    Oneshot(&'a str, Option<&'a str>),
}

/// A service as the text gives it.
#[derive(Drop)]
pub struct ServiceForm<'a> {
    pub head: Head<'a>,
    pub needs: Vec<NameWord<'a>>,
    pub body: BodyForm<'a>,
}

impl<'a> Model for ServiceForm<'a> {
    ghost use Rattle.rc_dbtext.specs.Text.{ServiceText};
    ghost use Rattle.rc_dbtext.specs.FormText.{body_text};

    ghost Value = { ServiceText };

    ghost view = { λ s. record { head = s.head; needs = s.needs.items; body = body_text s.body } };
}

/// A database as its text gives it.
#[derive(Drop)]
pub struct DbForm<'a> {
    pub services: Vec<ServiceForm<'a>>,
    pub bundles: Vec<BundleForm<'a>>,
}

impl<'a> Model for DbForm<'a> {
    ghost use Rattle.rc_dbtext.specs.Text.{DbText};

    ghost Value = { DbText };

    ghost view = { λ f. record { services = f.services.items; bundles = f.bundles.items } };
}

/// Parses the text at the beginning of the bytes. Returns what it says, and what follows it.
pub fn read_form<'a>(alloc: Global, bytes: &'a [u8]) -> Result<(DbForm<'a>, &'a [u8]), FormFault>
    ensures ok { IfOk result (λ read. IsRead IsDbText db_lines bytes.now read.0 read.1.now) }
    ensures fault { IfErr result (IsRefused IsDbText db_lines bytes.now) }
{
    let first = first_line(bytes)?;
    let (services, rest) = all_services(alloc, first)?;
    let (bundles, rest) = all_bundles(alloc, rest)?;
    let last = last_line(rest)?;
    Ok((DbForm { services, bundles }, last))
}

// Parses the services after their count. Returns them and what follows them.
fn all_services<'a>(
    alloc: Global,
    bytes: &'a [u8],
) -> Result<(Vec<ServiceForm<'a>>, &'a [u8]), FormFault>
    ensures ok { IfOk result (λ read. IsRead (AreFew IsServiceText)
        (count_and_lines ServiceCount service_lines) bytes.now read.0.items read.1.now) }
    ensures fault { IfErr result (IsRefused (AreFew IsServiceText)
        (count_and_lines ServiceCount service_lines) bytes.now) }
{
    let (count, rest) = count_line(bytes, "services")?;
    let (services, rest) = services_of(alloc, rest, count)?;
    Ok((services, rest))
}

// Parses the bundles after their count. Returns them and what follows them.
fn all_bundles<'a>(
    alloc: Global,
    bytes: &'a [u8],
) -> Result<(Vec<BundleForm<'a>>, &'a [u8]), FormFault>
    ensures ok { IfOk result (λ read. IsRead (AreFew IsBundleText)
        (count_and_lines BundleCount bundle_lines) bytes.now read.0.items read.1.now) }
    ensures fault { IfErr result (IsRefused (AreFew IsBundleText)
        (count_and_lines BundleCount bundle_lines) bytes.now) }
{
    let (count, rest) = count_line(bytes, "bundles")?;
    let (bundles, rest) = bundles_of(alloc, rest, count)?;
    Ok((bundles, rest))
}

// Parses `count` services. Returns them and what follows them.
fn services_of<'a>(
    alloc: Global,
    bytes: &'a [u8],
    count: u32,
) -> Result<(Vec<ServiceForm<'a>>, &'a [u8]), FormFault>
    ensures ok { IfOk result (λ read. IsRead (AreSo IsServiceText count)
        (flat_map service_lines) bytes.now read.0.items read.1.now) }
    ensures fault { IfErr result (IsRefused (AreSo IsServiceText count)
        (flat_map service_lines) bytes.now) }
{
    let mut services = Vec::new(alloc);
    let mut rest = bytes;
    for _ in 0..count {
        let (service, behind) = service_of(alloc, rest)?;
        if services.push(service).is_err() {
            return Err(FormFault::Memory);
        }
        rest = behind;
    }
    Ok((services, rest))
}

// Parses `count` bundles. Returns them and what follows them.
fn bundles_of<'a>(
    alloc: Global,
    bytes: &'a [u8],
    count: u32,
) -> Result<(Vec<BundleForm<'a>>, &'a [u8]), FormFault>
    ensures ok { IfOk result (λ read. IsRead (AreSo IsBundleText count)
        (flat_map bundle_lines) bytes.now read.0.items read.1.now) }
    ensures fault { IfErr result (IsRefused (AreSo IsBundleText count)
        (flat_map bundle_lines) bytes.now) }
{
    let mut bundles = Vec::new(alloc);
    let mut rest = bytes;
    for _ in 0..count {
        let (bundle, behind) = bundle_line(alloc, rest)?;
        if bundles.push(bundle).is_err() {
            return Err(FormFault::Memory);
        }
        rest = behind;
    }
    Ok((bundles, rest))
}

// Parses a service. Returns it and what follows it.
fn service_of<'a>(alloc: Global, bytes: &'a [u8]) -> Result<(ServiceForm<'a>, &'a [u8]), FormFault>
    ensures ok { IfOk result (λ read.
        IsRead IsServiceText service_lines bytes.now read.0 read.1.now) }
    ensures fault { IfErr result (IsRefused IsServiceText service_lines bytes.now) }
{
    let (head, rest) = head_line(bytes)?;
    let (needs, rest) = needs_line(alloc, rest)?;
    let (body, rest) = body_of(rest, head.kind())?;
    Ok((ServiceForm { head, needs, body }, rest))
}

// Parses the lines after the needs of a service of this kind. Returns them and what follows them.
fn body_of(bytes: &[u8], kind: Kind) -> Result<(BodyForm<'_>, &[u8]), FormFault>
    requires { (kind ≡ kinds.Bundle) → ⊥ }
    ensures ok { IfOk result (λ read. IsRead (IsBody kind) body_lines bytes.now
        (body_text read.0) read.1.now) }
    ensures fault { IfErr result (IsRefused (IsBody kind) body_lines bytes.now) }
{
    match kind {
        Kind::Oneshot => oneshot_of(bytes),
        Kind::Longrun => longrun_of(bytes),
        Kind::Bundle => unreachable!(),
    }
}

// Parses the lines after the needs of a oneshot. Returns them and what follows them.
fn oneshot_of(bytes: &[u8]) -> Result<(BodyForm<'_>, &[u8]), FormFault>
    ensures ok { IfOk result (λ read. IsRead (IsBody kinds.Oneshot) body_lines bytes.now
        (body_text read.0) read.1.now) }
    ensures fault { IfErr result (IsRefused (IsBody kinds.Oneshot) body_lines bytes.now) }
{
    let (up, rest) = up_line(bytes)?;
    let (down, rest) = down_line(rest)?;
    Ok((BodyForm::Oneshot(up, down), rest))
}

// Parses the line after the needs of a longrun. Returns it and what follows it.
fn longrun_of(bytes: &[u8]) -> Result<(BodyForm<'_>, &[u8]), FormFault>
    ensures ok { IfOk result (λ read. IsRead (IsBody kinds.Longrun) body_lines bytes.now
        (body_text read.0) read.1.now) }
    ensures fault { IfErr result (IsRefused (IsBody kinds.Longrun) body_lines bytes.now) }
{
    let (producer_for, rest) = producer_line(bytes)?;
    Ok((BodyForm::Longrun(producer_for), rest))
}
