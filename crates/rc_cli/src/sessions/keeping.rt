//! Where a session is kept: a store of one text, which is replaced whole.
ghost use Rattle.std.specs.Prelude.{◌≡◌, ◌⊎◌, ℕ, false, List, Option, IfSome, IfErr, IsSome, OnErr};
ghost use Rattle.std.specs.Prelude.{OnOk};
ghost use Rattle.rc_livetext.specs.Spelling.{spelling};
ghost use Rattle.rc_serve.specs.declared.keeper.KeepFault.TheVariants.{Io};
ghost use Rattle.rc_cli.specs.Storing.{HoldsText, kept_bytes, store_of};

use rc_livetext::write_live;
use rc_serve::{KeepFault, Keeper};
use rc_session::Session;
use std::alloc::Global;

/// What stood in the file of a session when it was read.
#[derive(Clone, Copy)]
pub enum LiveFile<'a> {
    /// No such file is there.
    Missing,
    /// This text.
    Text(&'a [u8]),
    /// It could not be read.
    Unread(KeepFault),
}

/// The text of a session, as it is to be kept. A keeper makes it, and nothing else can.
#[derive(Drop)]
pub struct KeptText<'a> {
    bytes: &'a [u8],
}

impl<'a> KeptText<'a> {
    /// Returns the bytes of the text.
    pub fn bytes(&self) -> &'a [u8]
        ensures { result.now ≡ kept_bytes self.now }
    {
        self.bytes
    }
}

/// Where the text of a session is kept.
pub trait Store {
    ghost use Rattle.rc_cli.specs.Storing.{kept_bytes};

    /// Returns the bytes that the store holds, or `None` if nobody can say, as for a file.
    ghost holds: { Self → Option (List ℕ) };

    /// States that the store has failed.
    ghost failed: { Self → Type 0 };

    /// States that putting this text into the one store has left the other.
    ghost put: { Self → List ℕ → Self → Type 0 };

    /// States that the announcement of an update in the one store has left the other.
    ghost entered: { Self → Self → Type 0 };

    /// Replaces what the store holds by the given text. If that fails, the store holds its old text
    /// or the new one. If the bytes of a store can be said, they still can be afterwards.
    fn replace(&mut self, text: KeptText<'_>) -> Result<(), KeepFault>
        ensures put { OnOk result (IfSome (holds self.new) (λ held. held ≡ kept_bytes text.entry)) }
        ensures led { OnOk result (put self.old (kept_bytes text.entry) self.new) }
        ensures known { IsSome (holds self.old) → IsSome (holds self.new) }
        ensures left { OnErr result ((holds self.new ≡ holds self.old)
            ⊎ IfSome (holds self.new) (λ held. held ≡ kept_bytes text.entry)) }
        ensures io { IfErr result (λ fault. fault ≡ KeepFault.Io → failed self.new) };

    /// Announces that each text from now on is of a session on the new database of an update. What
    /// the store holds stays until then.
    fn enter(&mut self)
        ensures same { holds self.new ≡ holds self.old }
        ensures led { entered self.old self.new };
}

/// Keeps the text of a session in a store.
#[derive(Drop)]
pub struct TextKeeper<S> {
    pub store: S,
}

impl<S: Store> TextKeeper<S> {
    /// Creates a keeper with the given store.
    pub fn new(store: S) -> TextKeeper<S>
        ensures { store_of result ≡ store }
    {
        TextKeeper { store }
    }

    /// Announces that each session from now on is on the new database of an update.
    pub(crate) fn enter(&mut self)
        ensures same { S.holds (store_of self.new) ≡ S.holds (store_of self.old) }
        ensures led { S.entered (store_of self.old) (store_of self.new) }
    {
        self.store.enter();
    }

    /// Returns the store.
    pub fn into_store(self) -> S
        ensures { result ≡ store_of self }
    {
        let TextKeeper { store } = self;
        store
    }
}

impl<S: Store> Keeper for TextKeeper<S> {
    ghost keeps = { λ k d line. HoldsText (S.holds k.store) d line };

    ghost fails = { λ fault. Unit {0} };

    ghost failed = { λ k. S.failed k.store };

    ghost went = { λ old d line new. S.put old.store (spelling d line) new.store };

    fn keep(&mut self, alloc: Global, session: &Session) -> Result<(), KeepFault>
        requires { session.now.begun ≡ false }
        ensures kept { OnOk result (HoldsText (S.holds (store_of self.new))
            session.now.database session.now.line) }
        ensures led { OnOk result (S.put (store_of self.old)
            (spelling session.now.database session.now.line) (store_of self.new)) }
        ensures known { IsSome (S.holds (store_of self.old)) →
            IsSome (S.holds (store_of self.new)) }
        ensures left { OnErr result ((S.holds (store_of self.new) ≡ S.holds (store_of self.old))
            ⊎ HoldsText (S.holds (store_of self.new)) session.now.database session.now.line) }
        ensures io { IfErr result (λ fault. fault ≡ KeepFault.Io
            → S.failed (store_of self.new)) }
    {
        let Ok(text) = write_live(alloc, session) else {
            return Err(KeepFault::Memory);
        };
        let kept = self.store.replace(KeptText { bytes: &text });
        drop(text);
        kept
    }
}
