//! Whether the names that a text speaks of stand for what they may.
ghost use Rattle.std.specs.Prelude.{◌≡◌, ◌↔◌, All, Contains, IsTrue};
ghost use Rattle.rc_dbtext.specs.Meaning.{FeedsWell, IsComplete, IsLongrunName, service_names};
ghost use Rattle.rc_dbtext.specs.Parts.{AreBundlesComplete, AreKnown, IsApart, IsKnown};

use crate::lexer::{BundleForm, NameWord};
use crate::syntax::{BodyForm, DbForm, ServiceForm};
use rc_names::{Kind, Names};

/// Returns true if each member is a service, each service that is fed is a longrun that the feeding
/// service needs, and no bundle has the name of a service. Each need must be a service.
pub(crate) fn is_complete(form: &DbForm<'_>, names: &Names) -> bool
    requires names { names.now ≡ service_names form.now.services }
    requires known { All (λ s. AreKnown names.now s.needs) form.now.services }
    ensures { IsTrue result ↔ IsComplete form.now }
{
    all_feed_well(form.services.as_slice(), names)
        && bundles_are_complete(form.bundles.as_slice(), names)
}

/// Returns true if each member of a bundle is among the names, and no bundle has the name of a
/// service.
pub fn bundles_are_complete(bundles: &[BundleForm<'_>], names: &Names) -> bool
    ensures { IsTrue result ↔ AreBundlesComplete names.now bundles.now }
{
    all_members_known(bundles, names) && all_apart(bundles, names)
}

// Returns true if the members of all bundles are among the names.
fn all_members_known(bundles: &[BundleForm<'_>], names: &Names) -> bool
    ensures { IsTrue result ↔ All (λ b. AreKnown names.now b.members) bundles.now }
{
    bundles
        .iter()
        .all(|bundle| are_known(bundle.members.as_slice(), names))
}

// Returns true if no bundle has one of the names.
fn all_apart(bundles: &[BundleForm<'_>], names: &Names) -> bool
    ensures { IsTrue result ↔ All (λ b. IsApart names.now b.name) bundles.now }
{
    bundles.iter().all(|bundle| is_apart(&bundle.name, names))
}

// Returns true if each service that feeds another feeds a longrun that it needs.
fn all_feed_well(services: &[ServiceForm<'_>], names: &Names) -> bool
    requires { names.now ≡ service_names services.now }
    ensures { IsTrue result ↔ All (λ s. FeedsWell services.now s.needs s.body) services.now }
{
    services
        .iter()
        .all(|service| feeds_well(service, services, names))
}

// Returns true if a service feeds none, or feeds a longrun that it needs.
fn feeds_well(service: &ServiceForm<'_>, services: &[ServiceForm<'_>], names: &Names) -> bool
    requires { names.now ≡ service_names services.now }
    ensures { IsTrue result ↔ FeedsWell services.now service.now.needs service.now.body }
{
    match &service.body {
        BodyForm::Longrun(Some(fed)) => {
            is_longrun(fed, services, names) && is_among(fed, service.needs.as_slice())
        }
        BodyForm::Longrun(None) => true,
        BodyForm::Oneshot(_, _) => true,
    }
}

// Returns true if a name is that of a longrun.
fn is_longrun(name: &NameWord<'_>, services: &[ServiceForm<'_>], names: &Names) -> bool
    requires { names.now ≡ service_names services.now }
    ensures { IsTrue result ↔ IsLongrunName services.now name.now }
{
    // The names ascend.
    let _count = names.len();
    match names.find(name.text()) {
        Some(id) => is_of_longrun(&services[id as usize]),
        None => false,
    }
}

// Returns true if a service is a longrun.
fn is_of_longrun(service: &ServiceForm<'_>) -> bool
    ensures { IsTrue result ↔ (service.now.head.kind ≡ Kind.Longrun) }
{
    service.head.kind() == Kind::Longrun
}

// Returns true if all texts are among the names. Looks for each text after the one before.
fn are_known(texts: &[NameWord<'_>], names: &Names) -> bool
    ensures { IsTrue result ↔ AreKnown names.now texts.now }
{
    // The names are few.
    let _count = names.len();
    let mut next = 0;
    for text in texts {
        let Some(id) = names.find_near(text.text(), next) else {
            return false;
        };
        next = id + 1;
    }
    true
}

// Returns true if a text is not among the names.
#[tactic(auto, unfolding(crate::specs::Parts::IsApart))]
fn is_apart(text: &NameWord<'_>, names: &Names) -> bool
    ensures { IsTrue result ↔ IsApart names.now text.now }
{
    !is_known(text, names)
}

// Returns true if a text is among the names.
#[tactic(auto, unfolding(crate::specs::Parts::IsKnown))]
fn is_known(text: &NameWord<'_>, names: &Names) -> bool
    ensures { IsTrue result ↔ IsKnown names.now text.now }
{
    names.find(text.text()).is_some()
}

// Returns true if a name is one of the others.
fn is_among(name: &NameWord<'_>, others: &[NameWord<'_>]) -> bool
    ensures { IsTrue result ↔ Contains others.now name.now }
{
    others.iter().any(|other| other.text() == name.text())
}
