//! The states of a live text, each with its bundles.
ghost use Rattle.std.specs.Prelude.{◌≡◌, ◌↔◌, ◌++◌, List, true, IfOk, IfErr, IsTrue, MatchOption};
ghost use Rattle.std.specs.Bool.{OnFalse};
ghost use Rattle.rc_model.specs.Names.{IsBefore};
ghost use Rattle.rc_dbtext.specs.Words.{BundleText};
ghost use Rattle.rc_livetext.specs.Text.{AreAscending, IsBundleText, OfBundle, OfState, Last};
ghost use Rattle.rc_livetext.specs.Text.{spell};
ghost use Rattle.rc_livetext.specs.Following.{MayAdd, AtStates, InState};
ghost use Rattle.rc_livetext.specs.Held.{AreBundles, HasBundles, HasNo, HasNoMore, HasStates};
ghost use Rattle.rc_livetext.specs.Held.{Stops};

use crate::form_fault::FormFault;
use crate::heads::next_line;
use crate::lines::{LineForm, line_of};
use rc_dbtext::lexer::{BundleForm, NameWord, is_before};
use std::alloc::{AllocError, Global};
use std::marker::Model;

/// The maximum number of bundles of a state.
const MAX_BUNDLES: usize = 4096;

/// A state as the text gives it.
#[derive(Drop)]
pub struct StateForm<'a> {
    pub live: Vec<NameWord<'a>>,
    pub bundles: Vec<BundleForm<'a>>,
}

impl<'a> Model for StateForm<'a> {
    ghost use Rattle.rc_livetext.specs.Text.{StateText};

    ghost Value = { StateText };

    ghost view = { λ s. record { live = s.live.items; bundles = s.bundles.items } };
}

/// Reads the states up to the line of the current one. Returns the states before it, the names of
/// what is up in it, and the bytes after its line.
pub(crate) fn states_to_current<'a>(
    alloc: Global,
    bytes: &'a [u8],
) -> Result<(Vec<StateForm<'a>>, Vec<NameWord<'a>>, &'a [u8]), FormFault>
    ensures ok { IfOk result (λ read. AreAscending read.1.items
        × HasStates bytes.now read.0.items (spell (OfState true read.1.items) ++ read.2.now)) }
    ensures fault { IfErr result (Stops AtStates bytes.now) }
{
    let mut before = Vec::new(alloc);
    let mut rest = bytes;
    loop {
        let (line, behind) = next_line(alloc, rest)?;
        let LineForm::State(current, live) = line else {
            return Err(FormFault::Bad(rest.len()));
        };
        if current {
            return Ok((before, live, behind));
        }
        let (bundles, behind) = bundles_at(alloc, behind)?;
        if before.push(StateForm { live, bundles }).is_err() {
            return Err(FormFault::Memory);
        }
        rest = behind;
    }
}

/// Reads the states after the current one, and the last line. Returns the states and the bytes
/// after that line.
pub(crate) fn states_to_last<'a>(
    alloc: Global,
    bytes: &'a [u8],
) -> Result<(Vec<StateForm<'a>>, &'a [u8]), FormFault>
    ensures ok { IfOk result (λ read.
        HasStates bytes.now read.0.items (spell Last ++ read.1.now)) }
    ensures fault { IfErr result (λ fault. (bundles : List BundleText)
        → HasNoMore bundles bytes.now → Stops (InState true bundles) bytes.now fault) }
{
    let mut after = Vec::new(alloc);
    let mut rest = bytes;
    loop {
        let (line, behind) = next_line(alloc, rest)?;
        match line {
            LineForm::Last => return Ok((after, behind)),
            LineForm::State(current, live) => {
                if current {
                    return Err(FormFault::Bad(rest.len()));
                }
                let (bundles, behind) = bundles_at(alloc, behind)?;
                if after.push(StateForm { live, bundles }).is_err() {
                    return Err(FormFault::Memory);
                }
                rest = behind;
            }
            _ => return Err(FormFault::Bad(rest.len())),
        }
    }
}

/// Reads as many bundles as may follow the line of a state. Returns them and the bytes after them.
pub(crate) fn bundles_at<'a>(
    alloc: Global,
    bytes: &'a [u8],
) -> Result<(Vec<BundleForm<'a>>, &'a [u8]), FormFault>
    ensures ok { IfOk result (λ read. HasBundles bytes.now read.0.items read.1.now
        × HasNoMore read.0.items read.1.now) }
    ensures fault { IfErr result (λ fault. fault ≡ FormFault.Memory) }
{
    let mut bundles = Vec::new(alloc);
    let mut rest = bytes;
    loop {
        let Ok(read) = bundle_line(alloc, rest) else {
            return Err(FormFault::Memory);
        };
        let Some((bundle, behind)) = read else {
            return Ok((bundles, rest));
        };
        if !may_add(bundles.as_slice(), &bundle) {
            return Ok((bundles, rest));
        }
        if bundles.push(bundle).is_err() {
            return Err(FormFault::Memory);
        }
        rest = behind;
    }
}

// Reads the line of a bundle at the front of bytes. Returns the bundle and the bytes after its
// line, or `None` if no such line stands there.
fn bundle_line<'a>(
    alloc: Global,
    bytes: &'a [u8],
) -> Result<Option<(BundleForm<'a>, &'a [u8])>, AllocError>
    ensures { IfOk result (λ read. MatchOption read (HasNo IsBundleText OfBundle bytes.now)
        (λ read. IsBundleText read.0 × (bytes.now ≡ spell (OfBundle read.0) ++ read.1.now))) }
{
    if !may_be_bundle(bytes) {
        return Ok(None);
    }
    let Some((line, rest)) = line_of(alloc, bytes)? else {
        return Ok(None);
    };
    let LineForm::Bundle(bundle) = line else {
        return Ok(None);
    };
    Ok(Some((bundle, rest)))
}

// Returns true if the line of a bundle may begin here. The first byte of most other lines shows
// that none does.
fn may_be_bundle(bytes: &[u8]) -> bool
    ensures { OnFalse result (HasNo IsBundleText OfBundle bytes.now) }
{
    !bytes.is_empty() && bytes[0] == b'b'
}

// Returns true if a bundle may follow others.
fn may_add(bundles: &[BundleForm<'_>], bundle: &BundleForm<'_>) -> bool
    requires before { AreBundles bundles.now }
    requires bundle { IsBundleText bundle.now }
    ensures { IsTrue result ↔ MayAdd bundles.now bundle.now }
{
    let Some(last) = bundles.last() else {
        return true;
    };
    let has_room = bundles.len() < MAX_BUNDLES;
    has_room && comes_before(last, bundle)
}

// Returns true if the name of a bundle comes before that of another.
fn comes_before(first: &BundleForm<'_>, second: &BundleForm<'_>) -> bool
    ensures { IsTrue result ↔ IsBefore first.now.name second.now.name }
{
    is_before(&first.name, &second.name)
}
