//! The steps of an update on the text of a history: to begin a generation, to cross a border, and
//! to make a state a stop.
//!
//! Time and memory grow with all bytes.
ghost use Rattle.std.specs.Prelude.{◌≡◌, ◌==◌, ◌&&◌, ◌++◌, ◌∷◌, ◌⊎◌, [], not, if◌then◌else◌};
ghost use Rattle.std.specs.Prelude.{All, IfErr, IfOk, OnOk};
ghost use Rattle.rc_model.specs.Names.{IsName};
ghost use Rattle.rc_update.specs.Conversions.{conversion_of, conversions_of};
ghost use Rattle.rc_historytext.specs.Text.{IsGenerationText, IsHistoryText, IsRename};
ghost use Rattle.rc_historytext.specs.Updating.{BeginsBehind, IsBegun, IsCrossed, IsEntered};
ghost use Rattle.rc_historytext.specs.Updating.{IsLeft, IsSettled, LeavesWith, crossed, entered};
ghost use Rattle.rc_historytext.specs.Updating.{rename_of, renames_of};
ghost use Rattle.rc_historytext.specs.Keeping.{StandsThere};
ghost use Rattle.rc_historytext.specs.Faults.{IsHistoryFault};
ghost use Rattle.rc_historytext.specs.CallFaults.{IsEnterFault, IsOutOfMemory, IsRenamesFault};
ghost use Rattle.rc_historytext.specs.CallFaults.{IsStandingFault};
ghost use Rattle.rc_historytext.specs.declared.fault.HistoryFault.TheVariants.{Bad};

use crate::fault::HistoryFault;
use crate::forms::{GenerationForm, HistoryForm, RenameForm};
use crate::keeping::{is_short, written};
use crate::read::read_history;
use crate::session_text::cut_session;
use crate::standing::present_of;
use crate::states::states_around;
use rc_dbtext::lexer::NameWord;
use rc_update::Conversion;
use std::alloc::Global;

/// Returns the text of a new history of one generation, whose states are stops.
pub fn new_history(alloc: Global, database: &[u8], session: &[u8]) -> Result<Vec<u8>, HistoryFault>
    ensures ok { IfOk result (λ text. IsBegun database.now session.now text.items) }
    ensures present { IfOk result (λ text. StandsThere text.items session.now) }
    ensures fault { IfErr result IsOutOfMemory }
{
    if !is_short(database) || !is_short(session) {
        return Err(HistoryFault::Memory);
    }
    let first = GenerationForm {
        first_passed: false,
        last_passed: false,
        database,
        session,
        renames: Vec::new(alloc),
    };
    let mut generations = Vec::new(alloc);
    push(&mut generations, first)?;
    let form = HistoryForm {
        present: 0,
        generations,
    };
    written(alloc, form)
}

/// Returns the text of a history after an update has entered a database, in which its session has
/// one state. That state is passed until the update is done.
pub fn enter_generation<'n>(
    alloc: Global,
    history: &[u8],
    database: &'n [u8],
    session: &'n [u8],
    list: &[Conversion<'n>],
) -> Result<Vec<u8>, HistoryFault>
    ensures ok { IfOk result (λ text. IsEntered history.now database.now session.now
        (conversions_of list.now) text.items) }
    ensures present { IfOk result (λ text. StandsThere text.items session.now) }
    ensures fault { IfErr result (IsEnterFault history.now (conversions_of list.now)) }
{
    let left = leave(alloc, history)?;
    let text = enter_left(alloc, &left, database, session, list);
    drop(left);
    text
}

/// Returns the text of a history that has crossed the border after its present generation (`is_on`)
/// or before it (not `is_on`). If there is no such border, the text is as it was.
pub fn cross_border(alloc: Global, history: &[u8], is_on: bool) -> Result<Vec<u8>, HistoryFault>
    ensures ok { IfOk result (λ text. IsCrossed is_on history.now text.items) }
    ensures fault { IfErr result (IsHistoryFault history.now) }
{
    let mut form = read_history(alloc, history)?;
    cross(&mut form, is_on);
    written(alloc, form)
}

/// Returns the text of a history with its current state made a stop.
pub fn settle_state(alloc: Global, history: &[u8]) -> Result<Vec<u8>, HistoryFault>
    ensures ok { IfOk result (λ text. IsSettled history.now text.items) }
    ensures fault { IfErr result (IsStandingFault history.now) }
{
    let mut form = read_history(alloc, history)?;
    let generation = &form.generations[form.present as usize];
    let session = generation.session;
    let (first, last) = (generation.first_passed, generation.last_passed);
    let (before, after) = match states_around(alloc, session) {
        Ok(around) => around,
        Err(fault) => {
            drop(form);
            return Err(fault);
        }
    };
    form.replace(session, stays(first, before), stays(last, after));
    let text = written(alloc, form)?;
    Ok(text)
}

// Adds a generation to a list.
fn push<'a>(
    generations: &mut Vec<GenerationForm<'a>>,
    next: GenerationForm<'a>,
) -> Result<(), HistoryFault>
    ensures ok { OnOk result (generations.new.items ≡ generations.old.items ++ next.entry ∷ []) }
    ensures fault { IfErr result IsOutOfMemory }
{
    match generations.push(next) {
        Ok(()) => Ok(()),
        Err(_) => Err(HistoryFault::Memory),
    }
}

// Returns the mark of the first or last state once the current one is a stop, given the number of
// other states on that side of the current one.
fn stays(mark: bool, others: usize) -> bool
    ensures { result ≡ (mark && not (others == 0)) }
{
    mark && others != 0
}

// Crosses a border, if there is one.
fn cross(form: &mut HistoryForm<'_>, is_on: bool)
    requires { IsHistoryText form.old }
    ensures { form.new ≡ crossed is_on form.old }
{
    if is_on {
        if (form.present as usize) + 1 < form.generations.len() {
            form.cross_on();
        }
    } else if form.present > 0 {
        form.cross_back();
    }
}

// Returns the text of a history with its present session cut off after the current state.
fn leave(alloc: Global, history: &[u8]) -> Result<Vec<u8>, HistoryFault>
    ensures ok { IfOk result (λ text. IsLeft history.now text.items) }
    ensures fault { IfErr result (IsStandingFault history.now) }
{
    let present = present_of(alloc, history)?;
    let cut = cut_session(alloc, present.session)?;
    let left = leave_with(alloc, history, &cut);
    drop(cut);
    left
}

// Returns the text of a history with the given cut session in place of the present one.
fn leave_with(alloc: Global, history: &[u8], cut: &[u8]) -> Result<Vec<u8>, HistoryFault>
    ensures ok { IfOk result (λ text. LeavesWith history.now cut.now text.items) }
    ensures fault { IfErr result (IsStandingFault history.now) }
{
    if !is_short(cut) {
        return Err(HistoryFault::Memory);
    }
    let mut form = read_history(alloc, history)?;
    let generation = &form.generations[form.present as usize];
    let (first, last) = (generation.first_passed, generation.last_passed);
    let (before, after) = match states_around(alloc, generation.session) {
        Ok(around) => around,
        Err(fault) => {
            drop(form);
            return Err(fault);
        }
    };
    form.replace(cut, first, mark_of_cut(first, last, before, after));
    let text = written(alloc, form)?;
    Ok(text)
}

// Returns the mark of the last state once the states after the current one are cut off, which is
// the mark of the current one.
fn mark_of_cut(first: bool, last: bool, before: usize, after: usize) -> bool
    ensures { result ≡ (if after == 0 then last else (before == 0 && first)) }
{
    if after == 0 {
        last
    } else {
        before == 0 && first
    }
}

// Returns the text of a history with a new generation after the present one.
fn enter_left<'n>(
    alloc: Global,
    left: &[u8],
    database: &'n [u8],
    session: &'n [u8],
    list: &[Conversion<'n>],
) -> Result<Vec<u8>, HistoryFault>
    ensures ok { IfOk result (λ text. BeginsBehind left.now
        (entered database.now session.now (conversions_of list.now)) text.items) }
    ensures fault { IfErr result (λ fault. IsHistoryFault left.now fault
        ⊎ IsRenamesFault (conversions_of list.now) fault) }
{
    let renames = renames_of(alloc, list)?;
    if !is_short(database) || !is_short(session) || renames.len() > 4096 {
        drop(renames);
        return Err(HistoryFault::Memory);
    }
    let next = GenerationForm {
        first_passed: true,
        last_passed: true,
        database,
        session,
        renames,
    };
    begun_behind(alloc, left, next)
}

// Returns the text of a history with the given generation begun after the present one.
fn begun_behind(
    alloc: Global,
    left: &[u8],
    next: GenerationForm<'_>,
) -> Result<Vec<u8>, HistoryFault>
    requires { IsGenerationText next }
    ensures ok { IfOk result (λ text. BeginsBehind left.now next.entry text.items) }
    ensures fault { IfErr result (IsHistoryFault left.now) }
{
    match read_history(alloc, left) {
        Ok(form) => match form.begin(next) {
            Ok(form) => written(alloc, form),
            Err(_) => Err(HistoryFault::Memory),
        },
        Err(fault) => {
            drop(next);
            Err(fault)
        }
    }
}

// Returns the renames of conversions. A service that is only restarted goes on under its own name.
fn renames_of<'n>(
    alloc: Global,
    list: &[Conversion<'n>],
) -> Result<Vec<RenameForm<'n>>, HistoryFault>
    ensures renames { IfOk result (λ kept. kept.items ≡ renames_of (conversions_of list.now)) }
    ensures each { IfOk result (λ renames. All IsRename renames.items) }
    ensures fault { IfErr result (IsRenamesFault (conversions_of list.now)) }
{
    let mut renames = Vec::new(alloc);
    for one in list {
        add_rename(&mut renames, *one)?;
    }
    Ok(renames)
}

// Adds the rename of a conversion, unless it only restarts a service.
fn add_rename<'n>(
    renames: &mut Vec<RenameForm<'n>>,
    one: Conversion<'n>,
) -> Result<(), HistoryFault>
    ensures renames { OnOk result (renames.new.items
        ≡ renames.old.items ++ renames_of (conversion_of one.entry ∷ [])) }
    ensures each { OnOk result (All IsRename renames.old.items → All IsRename renames.new.items) }
    ensures fault { IfErr result (IsRenamesFault (conversion_of one.entry ∷ [])) }
{
    if one.restart {
        return Ok(());
    }
    let rename = rename_of(one)?;
    match renames.push(rename) {
        Ok(()) => Ok(()),
        Err(_) => Err(HistoryFault::Memory),
    }
}

// Returns the rename of a conversion.
fn rename_of<'n>(one: Conversion<'n>) -> Result<RenameForm<'n>, HistoryFault>
    ensures renames { IfOk result (λ rename. rename ≡ rename_of (conversion_of one.entry)) }
    ensures is { IfOk result IsRename }
    ensures fault { IfErr result (λ fault. (fault ≡ Bad 0)
        × (IsRename (rename_of (conversion_of one.entry)) → ⊥)) }
{
    Ok(RenameForm {
        old: name_of(one.old)?,
        new: name_of(one.new)?,
    })
}

// Parses a name from its bytes.
fn name_of(bytes: &[u8]) -> Result<NameWord<'_>, HistoryFault>
    ensures ok { IfOk result (λ name. (name ≡ bytes.now) × IsName bytes.now) }
    ensures fault { IfErr result (λ fault. (fault ≡ Bad 0) × (IsName bytes.now → ⊥)) }
{
    match str::from_utf8(bytes) {
        Ok(text) => match NameWord::read(text) {
            Some(name) => Ok(name),
            None => Err(HistoryFault::Bad(0)),
        },
        Err(_) => Err(HistoryFault::Bad(0)),
    }
}
