ghost use Rattle.std.specs.Prelude.{◌≡◌, ◌↔◌, IsTrue, IfOk, None, false, option_map, string_bytes};
ghost use Rattle.rc_db.specs.Service.{script_of};

use rc_graph::Way;
use rc_names::Kind;
use rc_set::NoMem;
use std::alloc::Global;
use std::marker::Model;

/// What a database says of one service, beside its name and what it needs.
pub struct Service {
    /// A oneshot or a longrun.
    pub kind: Kind,
    /// Whether it stays up where a change of mode `Down` or a pruning one would lower it, even if
    /// it is named.
    pub essential: bool,
    /// How long it may take to come up, in milliseconds; 0 is no limit.
    pub limit_up: u32,
    /// How long it may take to go down, in milliseconds; 0 is no limit.
    pub limit_down: u32,
    /// What a oneshot runs to come up.
    pub text_up: Option<String>,
    /// What a oneshot runs to go down.
    pub text_down: Option<String>,
    /// The longrun that reads what this one writes.
    pub producer_for: Option<u16>,
}

impl Model for Service {
    ghost use Rattle.rc_model.specs.Database.{Service as Facts};
    ghost use Rattle.std.specs.Prelude.{◌<◌, ◌^◌};
    ghost use Rattle.std.specs.Option.{option_map};
    ghost use Rattle.std.specs.String.{string_bytes};

    ghost Value = { Facts };

    ghost view = { λ s. record {
      kind = s.kind;
      essential = s.essential;
      limit_up = s.limit_up;
      limit_down = s.limit_down;
      text_up = option_map string_bytes s.text_up;
      text_down = option_map string_bytes s.text_down;
      producer_for = s.producer_for;
    } };

    ghost invariant = { λ s. (s.limit_up < 2 ^ 32) × (s.limit_down < 2 ^ 32) };
}

// Not derived: a crate that drops a service calls this, and proves nothing about its parts.
impl Drop for Service {
    fn drop(self) {
        let Service {
            kind: _,
            essential: _,
            limit_up: _,
            limit_down: _,
            text_up: _,
            text_down: _,
            producer_for: _,
        } = self;
    }
}

impl Service {
    /// Creates a service of a kind, with nothing else set.
    pub fn plain(kind: Kind) -> Service
        ensures { result ≡ record {
          kind = kind;
          essential = false;
          limit_up = 0;
          limit_down = 0;
          text_up = None;
          text_down = None;
          producer_for = None;
        } }
    {
        Service {
            kind,
            essential: false,
            limit_up: 0,
            limit_down: 0,
            text_up: None,
            text_down: None,
            producer_for: None,
        }
    }

    /// Returns true if the service is a oneshot.
    pub fn is_oneshot(&self) -> bool
        ensures { IsTrue result ↔ (self.now.kind ≡ Kind.Oneshot) }
    {
        self.kind == Kind::Oneshot
    }

    /// Returns true if the service is a longrun.
    pub fn is_longrun(&self) -> bool
        ensures { IsTrue result ↔ (self.now.kind ≡ Kind.Longrun) }
    {
        self.kind == Kind::Longrun
    }

    /// Returns true if the service is of a kind.
    pub(crate) fn is_of(&self, kind: Kind) -> bool
        ensures { IsTrue result ↔ (self.now.kind ≡ kind) }
    {
        self.kind == kind
    }

    /// Returns true if two services are described alike.
    pub fn same(&self, other: &Service) -> bool
        ensures { IsTrue result ↔ (self.now ≡ other.now) }
    {
        self.kind == other.kind
            && self.essential == other.essential
            && self.limit_up == other.limit_up
            && self.limit_down == other.limit_down
            && same_text(&self.text_up, &other.text_up)
            && same_text(&self.text_down, &other.text_down)
            && self.producer_for == other.producer_for
    }

    /// Creates another service that is described alike.
    pub fn copy(&self, alloc: Global) -> Result<Service, NoMem>
        ensures { IfOk result (λ made. made ≡ self.now) }
    {
        Ok(Service {
            kind: self.kind,
            essential: self.essential,
            limit_up: self.limit_up,
            limit_down: self.limit_down,
            text_up: copy_of_text(alloc, &self.text_up)?,
            text_down: copy_of_text(alloc, &self.text_down)?,
            producer_for: self.producer_for,
        })
    }

    /// Returns the text that is run for the service on its way, which is empty if there is none.
    pub fn script(&self, alloc: Global, way: Way) -> Result<String, NoMem>
        ensures { IfOk result (λ text. string_bytes text ≡ script_of self.now way) }
    {
        let text = match way {
            Way::Raise => &self.text_up,
            Way::Lower => &self.text_down,
        };
        match text {
            Some(text) => String::from_str(alloc, text.as_str()),
            None => Ok(String::new(alloc)),
        }
    }
}

/// Returns true if two texts are equal, or both are missing.
fn same_text(one: &Option<String>, other: &Option<String>) -> bool
    ensures { IsTrue result
        ↔ (option_map string_bytes one.now ≡ option_map string_bytes other.now) }
{
    match (one, other) {
        (Some(one), Some(other)) => one == other,
        (None, None) => true,
        _ => false,
    }
}

/// Returns a copy of a text, if there is one.
fn copy_of_text(alloc: Global, text: &Option<String>) -> Result<Option<String>, NoMem>
    ensures { IfOk result
        (λ made. option_map string_bytes made ≡ option_map string_bytes text.now) }
{
    match text {
        Some(text) => Ok(Some(String::from_str(alloc, text.as_str())?)),
        None => Ok(None),
    }
}
