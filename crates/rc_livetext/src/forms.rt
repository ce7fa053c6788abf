//! What a live text says, read front to back.
ghost use Rattle.std.specs.Prelude.{IfOk, IfErr};
ghost use Rattle.rc_livetext.specs.Refusals.{BeginsWith, IsRefused};

use crate::form_fault::FormFault;
use crate::form_states::{StateForm, bundles_at, states_to_current, states_to_last};
use crate::heads::head;
use rc_dbtext::lexer::NameWord;
use std::alloc::Global;
use std::marker::Model;

/// A line of states as its text gives it.
#[derive(Drop)]
pub struct LiveForm<'a> {
    pub services: Vec<NameWord<'a>>,
    /// The bound on the number of states, if the text has one.
    pub bound: Option<u32>,
    pub before: Vec<StateForm<'a>>,
    pub current: StateForm<'a>,
    pub after: Vec<StateForm<'a>>,
}

impl<'a> Model for LiveForm<'a> {
    ghost use Rattle.rc_livetext.specs.Text.{LiveText};

    ghost Value = { LiveText };

    ghost view = { λ f. record {
      services = f.services.items;
      bound = f.bound;
      before = f.before.items;
      current = f.current;
      after = f.after.items;
    } };
}

/// Parses the live text at the front of bytes. Returns its form and the bytes after it.
pub fn read_form<'a>(alloc: Global, bytes: &'a [u8]) -> Result<(LiveForm<'a>, &'a [u8]), FormFault>
    ensures ok { IfOk result (λ read. BeginsWith bytes.now read.0 read.1.now) }
    ensures fault { IfErr result (IsRefused bytes.now) }
{
    let (services, bound, rest) = head(alloc, bytes)?;
    let (before, live, rest) = match states_to_current(alloc, rest) {
        Ok(read) => read,
        Err(fault) => {
            drop(services);
            return Err(fault);
        }
    };
    let (bundles, rest) = match bundles_at(alloc, rest) {
        Ok(read) => read,
        Err(fault) => {
            drop((services, before, live));
            return Err(fault);
        }
    };
    let (after, rest) = match states_to_last(alloc, rest) {
        Ok(read) => read,
        Err(fault) => {
            drop((services, before, live, bundles));
            return Err(fault);
        }
    };
    let current = StateForm { live, bundles };
    Ok((
        LiveForm {
            services,
            bound,
            before,
            current,
            after,
        },
        rest,
    ))
}
