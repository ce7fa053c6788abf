//! A history in which a session is kept, as a command goes on.
//!
//! Time and memory grow with all bytes.
ghost use Rattle.std.specs.Prelude.{◌≡◌, ◌↔◌, IfErr, IfOk, IsTrue};
ghost use Rattle.rc_update.specs.Conversions.{conversions_of};
ghost use Rattle.rc_historytext.specs.CallFaults.{IsEnterFault, IsKeepFault, IsOutOfMemory};
ghost use Rattle.rc_historytext.specs.Faults.{IsHistoryFault};
ghost use Rattle.rc_historytext.specs.Framing.{BeginsOn, IsFraming, KeepsOn};
ghost use Rattle.rc_historytext.specs.Keeping.{IsKept, StandsThere};
ghost use Rattle.rc_historytext.specs.Updating.{IsBegun, IsEntered};

use crate::fault::HistoryFault;
use crate::keeping::{Keeping, copy, keep_session};
use crate::standing::present_of;
use crate::updating::{enter_generation, new_history};
use rc_update::Conversion;
use std::alloc::Global;
use std::marker::Model;

/// A history, the session that was kept in it last, and the history before that.
#[derive(Drop)]
pub struct Framed {
    base: Vec<u8>,
    keeping: Keeping,
    kept: Vec<u8>,
    whole: Vec<u8>,
}

impl Model for Framed {
    ghost use Rattle.rc_historytext.specs.Framing.{FramedText, IsFraming};

    ghost Value = { FramedText };

    ghost view = { λ f. record {
      base = f.base.items;
      keeping = f.keeping;
      kept = f.kept.items;
      whole = f.whole.items;
    } };

    ghost invariant = { λ f. IsFraming (record {
      base = f.base.items;
      keeping = f.keeping;
      kept = f.kept.items;
      whole = f.whole.items;
    }) };
}

impl Framed {
    /// Creates the frame of a history in which nothing was kept yet.
    pub fn new(alloc: Global, whole: Vec<u8>, keeping: Keeping) -> Result<Framed, HistoryFault>
        ensures ok { IfOk result (BeginsOn whole.items keeping) }
        ensures stands { IfOk result (λ f. StandsThere whole.items f.kept) }
        ensures fault { IfErr result (IsHistoryFault whole.items) }
    {
        let kept = match session_in(alloc, &whole) {
            Ok(kept) => kept,
            Err(fault) => {
                drop(whole);
                return Err(fault);
            }
        };
        match standing_in(alloc, whole, kept, keeping) {
            Ok(framed) => Ok(framed),
            Err(_) => Err(HistoryFault::Memory),
        }
    }

    /// Creates the frame of a new history with one generation.
    pub fn begun(
        alloc: Global,
        database: &[u8],
        session: &[u8],
        keeping: Keeping,
    ) -> Result<Framed, HistoryFault>
        ensures ok { IfOk result (λ f. IsBegun database.now session.now f.whole) }
        ensures kept { IfOk result (λ f. (f.kept ≡ session.now) × (f.keeping ≡ keeping)) }
        ensures fault { IfErr result IsOutOfMemory }
    {
        let whole = new_history(alloc, database, session)?;
        let kept = match copy(alloc, session) {
            Ok(kept) => kept,
            Err(fault) => {
                drop(whole);
                return Err(fault);
            }
        };
        standing_in(alloc, whole, kept, keeping)
    }

    /// Returns the frame with another session kept in the current history.
    pub fn with(
        &self,
        alloc: Global,
        session: &[u8],
        keeping: Keeping,
    ) -> Result<Framed, HistoryFault>
        ensures ok { IfOk result (KeepsOn self.now.whole session.now keeping) }
        ensures fault { IfErr result (IsKeepFault keeping self.now.whole session.now) }
    {
        kept_on(alloc, &self.whole, session, keeping)
    }

    /// Returns the frame with another session kept in the history before, in place of the one that
    /// was kept last.
    pub fn instead(
        &self,
        alloc: Global,
        session: &[u8],
        keeping: Keeping,
    ) -> Result<Framed, HistoryFault>
        ensures ok { IfOk result (KeepsOn self.now.base session.now keeping) }
        ensures fault { IfErr result (IsKeepFault keeping self.now.base session.now) }
    {
        kept_on(alloc, &self.base, session, keeping)
    }

    /// Returns the frame of the history after an update has entered a database, in which its
    /// session has one state.
    pub fn entered<'n>(
        &self,
        alloc: Global,
        database: &'n [u8],
        session: &'n [u8],
        list: &[Conversion<'n>],
    ) -> Result<Framed, HistoryFault>
        ensures ok { IfOk result (λ f. IsEntered self.now.whole database.now session.now
            (conversions_of list.now) f.whole) }
        ensures kept { IfOk result
            (λ f. (f.kept ≡ session.now) × (f.keeping ≡ self.now.keeping)) }
        ensures fault { IfErr result (IsEnterFault self.now.whole (conversions_of list.now)) }
    {
        let whole = enter_generation(alloc, &self.whole, database, session, list)?;
        let kept = match copy(alloc, session) {
            Ok(kept) => kept,
            Err(_) => {
                drop(whole);
                return Err(HistoryFault::Memory);
            }
        };
        match standing_in(alloc, whole, kept, self.keeping) {
            Ok(framed) => Ok(framed),
            Err(_) => Err(HistoryFault::Memory),
        }
    }

    /// Returns the history.
    pub fn whole(&self) -> &[u8]
        ensures { result.now ≡ self.now.whole }
    {
        &self.whole
    }

    /// Returns true if the session was kept in this history, and so. Returns false if it was kept
    /// in another one, or in another way.
    pub fn was_kept_in(&self, base: &[u8], keeping: Keeping) -> bool
        ensures on { IsTrue result ↔ (self.now.base ≡ base.now) × (self.now.keeping ≡ keeping) }
        ensures framing { IsFraming self.now }
    {
        self.base.as_slice() == base && self.keeping == keeping
    }
}

// Returns a copy of the present session of a history.
fn session_in(alloc: Global, history: &[u8]) -> Result<Vec<u8>, HistoryFault>
    ensures ok { IfOk result (λ session. StandsThere history.now session.items) }
    ensures fault { IfErr result (IsHistoryFault history.now) }
{
    let present = present_of(alloc, history)?;
    match copy(alloc, present.session) {
        Ok(session) => Ok(session),
        Err(_) => Err(HistoryFault::Memory),
    }
}

// Creates the frame of a history in which a session stands.
fn standing_in(
    alloc: Global,
    whole: Vec<u8>,
    kept: Vec<u8>,
    keeping: Keeping,
) -> Result<Framed, HistoryFault>
    requires { StandsThere whole.items kept.items }
    ensures begun { IfOk result (BeginsOn whole.items keeping) }
    ensures kept { IfOk result (λ f. f.kept ≡ kept.items) }
    ensures fault { IfErr result IsOutOfMemory }
{
    match copy(alloc, &whole) {
        Ok(base) => Ok(Framed {
            base,
            keeping,
            kept,
            whole,
        }),
        Err(fault) => {
            drop((whole, kept));
            Err(fault)
        }
    }
}

// Creates the frame of a history in which a session is kept.
fn kept_on(
    alloc: Global,
    base: &[u8],
    session: &[u8],
    keeping: Keeping,
) -> Result<Framed, HistoryFault>
    ensures ok { IfOk result (KeepsOn base.now session.now keeping) }
    ensures fault { IfErr result (IsKeepFault keeping base.now session.now) }
{
    let whole = keep_session(alloc, base, session, keeping)?;
    match framed_with(alloc, base, session, keeping, whole) {
        Ok(framed) => Ok(framed),
        Err(_) => Err(HistoryFault::Memory),
    }
}

// Creates the frame of a history that keeping a session has made.
fn framed_with(
    alloc: Global,
    base: &[u8],
    session: &[u8],
    keeping: Keeping,
    whole: Vec<u8>,
) -> Result<Framed, HistoryFault>
    requires { IsKept keeping base.now session.now whole.items }
    ensures ok { IfOk result (KeepsOn base.now session.now keeping) }
    ensures fault { IfErr result IsOutOfMemory }
{
    let base = match copy(alloc, base) {
        Ok(base) => base,
        Err(fault) => {
            drop(whole);
            return Err(fault);
        }
    };
    match copy(alloc, session) {
        Ok(kept) => Ok(Framed {
            base,
            keeping,
            kept,
            whole,
        }),
        Err(fault) => {
            drop((base, whole));
            Err(fault)
        }
    }
}
