//! From bytes to a line of states.
ghost use Rattle.std.specs.Prelude.{◌≡◌, false, [], length, All, IfOk, IfErr};
ghost use Rattle.rc_model.specs.Database.{Database};
ghost use Rattle.rc_model.specs.Line.{states};
ghost use Rattle.rc_model.specs.Session.{IsLineOf};
ghost use Rattle.rc_livetext.specs.Text.{IsLiveText};
ghost use Rattle.rc_livetext.specs.Refusals.{BeginsWith, IsRefused};
ghost use Rattle.rc_livetext.specs.Meaning.{PassesNames, all_states};
ghost use Rattle.rc_livetext.specs.Parts.{IsTextOf, IsWithin, state_texts};
ghost use Rattle.rc_line.specs.State.{states_of};
ghost use Rattle.rc_livetext.specs.Spelling.{Spells};
ghost use Rattle.rc_livetext.specs.LiveFaults.{IsLiveFault, IsMeaningFault};

use crate::fault::LiveFault;
use crate::form_fault::FormFault;
use crate::forms::{LiveForm, read_form};
use crate::known::are_services;
use crate::making::bound_of_line;
use crate::states::states_in;
use rc_db::{Db, Table};
use rc_line::Line;
use rc_set::Set;
use std::alloc::Global;

/// Parses the text of a line, which must be all of the bytes. Returns the line and the number of
/// its states.
pub fn read_live(alloc: Global, bytes: &[u8], db: &Db) -> Result<(Line, usize), LiveFault>
    ensures text { IfOk result (λ read. Spells db.now bytes.now read.0.line) }
    ensures line { IfOk result (λ read.
        IsLineOf db.now read.0.line × (read.0.is_open ≡ false)) }
    ensures count { IfOk result (λ read. read.1 ≡ length (states read.0.line)) }
    ensures fault { IfErr result (IsLiveFault db.now bytes.now) }
{
    let form = match whole_form(alloc, bytes) {
        Ok(form) => form,
        Err(fault) => return Err(fault),
    };
    match line_of(alloc, &form, db) {
        Ok(line) => {
            let count = line.states();
            Ok((line, count))
        }
        Err(fault) => Err(fault),
    }
}

// Parses a live text, which must be all of the bytes, into its form.
fn whole_form<'a>(alloc: Global, bytes: &'a [u8]) -> Result<LiveForm<'a>, LiveFault>
    ensures ok { IfOk result (λ form. BeginsWith bytes.now form []) }
    ensures fault { IfErr result (λ fault. (d : Database) → IsLiveFault d bytes.now fault) }
{
    let (form, rest) = match read_form(alloc, bytes) {
        Ok(read) => read,
        Err(fault) => return Err(told(fault, bytes)),
    };
    if rest.is_empty() {
        Ok(form)
    } else {
        Err(LiveFault::Bad(bytes.len() - rest.len()))
    }
}

// Returns the fault of a text for a fault of its form, with the offset at which the line begins.
fn told(fault: FormFault, bytes: &[u8]) -> LiveFault
    requires { IsRefused bytes.now fault }
    ensures { (d : Database) → IsLiveFault d bytes.now result }
{
    match fault {
        FormFault::Bad(left) => LiveFault::Bad(bytes.len() - left),
        FormFault::Version => LiveFault::Version,
        FormFault::Memory => LiveFault::Memory,
    }
}

// Creates the line of a text, given the form of the text.
fn line_of(alloc: Global, form: &LiveForm<'_>, db: &Db) -> Result<Line, LiveFault>
    requires { IsLiveText form.now }
    ensures text { IfOk result (λ line. IsTextOf db.now form.now line.line form.now.bound) }
    ensures line { IfOk result (λ line. IsLineOf db.now line.line × (line.is_open ≡ false)) }
    ensures fault { IfErr result (IsMeaningFault db.now form.now) }
{
    let names = db.names();
    if !are_services(form.services.as_slice(), names) {
        return Err(LiveFault::OtherDb);
    }
    match states_in(alloc, form, names) {
        Ok(Some(held)) => joined(alloc, form, db, held),
        Ok(None) => Err(LiveFault::Unknown),
        Err(_) => Err(LiveFault::Memory),
    }
}

// Creates the line of the states of a text whose names are those of the database.
fn joined(
    alloc: Global,
    form: &LiveForm<'_>,
    db: &Db,
    held: Vec<(Set, Table)>,
) -> Result<Line, LiveFault>
    requires text { IsLiveText form.now }
    requires names { PassesNames db.now form.now }
    requires says { state_texts db.now.names held.items ≡ all_states form.now }
    requires sets { All (IsWithin (length db.now.names)) (states_of held.items) }
    ensures text { IfOk result (λ line. IsTextOf db.now form.now line.line form.now.bound) }
    ensures line { IfOk result (λ line. IsLineOf db.now line.line × (line.is_open ≡ false)) }
    ensures fault { IfErr result (IsMeaningFault db.now form.now) }
{
    // The contract of `names` gives that this is a database.
    let _names = db.names();
    let bound = match bound_of_line(held.as_slice(), form.bound, db.graph()) {
        Ok(bound) => bound,
        Err(fault) => {
            drop(held);
            return Err(fault);
        }
    };
    let Ok(line) = Line::from_states(alloc, held, form.before.len(), bound) else {
        return Err(LiveFault::Memory);
    };
    // The contract of `states` gives that this is a line.
    let _count = line.states();
    Ok(line)
}
