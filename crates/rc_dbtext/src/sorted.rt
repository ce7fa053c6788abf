//! Whether the names of a text ascend.
ghost use Rattle.std.specs.Prelude.{◌↔◌, All, IsTrue};
ghost use Rattle.rc_model.specs.Names.{IsInByteOrder};
ghost use Rattle.rc_dbtext.specs.Meaning.{IsSorted, bundle_names, service_names};

use crate::lexer::{BundleForm, ascend, is_before};
use crate::syntax::{DbForm, ServiceForm};

/// Returns true if all lists of names ascend.
pub(crate) fn is_sorted(form: &DbForm<'_>) -> bool
    ensures { IsTrue result ↔ IsSorted form.now }
{
    services_are_sorted(form.services.as_slice()) && bundles_are_sorted(form.bundles.as_slice())
}

// Returns true if the services ascend, and what each of them needs.
fn services_are_sorted(services: &[ServiceForm<'_>]) -> bool
    ensures { IsTrue result ↔ (IsInByteOrder (service_names services.now)
        × All (λ s. IsInByteOrder s.needs) services.now) }
{
    services_ascend(services) && needs_ascend(services)
}

// Returns true if the bundles ascend, and the members of each.
fn bundles_are_sorted(bundles: &[BundleForm<'_>]) -> bool
    ensures { IsTrue result ↔ (IsInByteOrder (bundle_names bundles.now)
        × All (λ b. IsInByteOrder b.members) bundles.now) }
{
    bundles_ascend(bundles) && members_ascend(bundles)
}

// Returns true if the names of services ascend.
fn services_ascend(services: &[ServiceForm<'_>]) -> bool
    ensures { IsTrue result ↔ IsInByteOrder (service_names services.now) }
{
    services.is_sorted_by(|first, second| is_before(&first.head.name, &second.head.name))
}

// Returns true if the needs of each service ascend.
fn needs_ascend(services: &[ServiceForm<'_>]) -> bool
    ensures { IsTrue result ↔ All (λ s. IsInByteOrder s.needs) services.now }
{
    services
        .iter()
        .all(|service| ascend(service.needs.as_slice()))
}

// Returns true if the names of bundles ascend.
fn bundles_ascend(bundles: &[BundleForm<'_>]) -> bool
    ensures { IsTrue result ↔ IsInByteOrder (bundle_names bundles.now) }
{
    bundles.is_sorted_by(|first, second| is_before(&first.name, &second.name))
}

// Returns true if the members of each bundle ascend.
fn members_ascend(bundles: &[BundleForm<'_>]) -> bool
    ensures { IsTrue result ↔ All (λ b. IsInByteOrder b.members) bundles.now }
{
    bundles
        .iter()
        .all(|bundle| ascend(bundle.members.as_slice()))
}
