//! The journal of a history: the states of all its generations, and the borders between them.
ghost use Rattle.std.specs.Prelude.{◌≡◌, ◌<◌, ◌+◌, ◌^◌, ◌∷◌, ◌++◌, ◌↔◌, ◌&&◌, [], ℕ, List, false};
ghost use Rattle.std.specs.Prelude.{codes, length, nat_lt, Some, IfErr, IfNone, IfOk, IfSome};
ghost use Rattle.std.specs.Prelude.{IsTrue, OnOk};
ghost use Rattle.rc_streams.specs.Noting.{inner_of};
ghost use Rattle.rc_model.specs.Database.{Database};
ghost use Rattle.rc_model.specs.Line.{Line as LineStates, states};
ghost use Rattle.rc_model.specs.Session.{IsLineOf};
ghost use Rattle.rc_dbtext.specs.Base.{Spells};
ghost use Rattle.rc_livetext.specs.Spelling.{Spells as SpellsLine};
ghost use Rattle.rc_livetext.specs.declared.fault.LiveFault.TheVariants as live_fault;
ghost use Rattle.rc_render.specs.JournalText.{AreEntryLines};
ghost use Rattle.rc_render.specs.Names.{ok_line};
ghost use Rattle.rc_cli.specs.Storing.{store_of};
ghost use Rattle.rc_historytext.specs.Text.{IsHistoryText, history_text};
ghost use Rattle.rc_launch.specs.HeldHistory.{history_held};
ghost use Rattle.rc_launch.specs.HistoryJournal.{AnswersJournal, AreLines, AreLinesOf, ArePassing};
ghost use Rattle.rc_launch.specs.HistoryJournal.{IsHistoryJournal, border_line, border_text};
ghost use Rattle.rc_launch.specs.HistoryJournal.{passes_first, rename_text};
ghost use Rattle.rc_launch.specs.Loading.{session_in};
ghost use Rattle.rc_launch.specs.Numbers.{IsUntold, IsUntoldFault, Told};

use crate::execution::Execution;
use crate::going_back::unread;
use crate::live_store::LiveStore;
use crate::numbers::{GenerationFault, numbered_of};
use crate::outcomes::{say_done, tell_refused, tell_untold};
use crate::travel::history_in;
use rc_cli::sessions::Devices;
use rc_db::Db;
use rc_dbtext::{TextFault, database_of, laws as text_laws};
use rc_historytext::{GenerationForm, HistoryForm, RenameForm, read_history};
use rc_line::Line;
use rc_livetext::{LiveFault, laws as live_laws, read_live};
use rc_render::{add_entries, place_text, with_ok};
use rc_set::NoMem;
use std::alloc::{AllocError, Global};
use std::io::Write;

/// Prints the journal of the history that is kept, and returns the status.
pub(crate) fn tell_journal<'x, T, R, W: Write, F: Write>(
    execution: &Execution<'x, '_, T>,
    devices: &mut Devices<R, W, F, LiveStore<'x>>,
) -> u8
    ensures answers { (bytes : List ℕ) →
        history_held (store_of devices.old.outputs.keeper) ≡ Some bytes →
        AnswersJournal (session_in execution.now.opened.now.loaded) bytes result
        (W.contents (inner_of devices.old.outputs.writer))
        (W.contents (inner_of devices.new.outputs.writer))
        (F.contents devices.old.faults) (F.contents devices.new.faults) }
    ensures kept { devices.new.outputs.keeper ≡ devices.old.outputs.keeper }
{
    let alloc = execution.rt.alloc();
    match unread(execution, devices.outputs.keeper.store.history()) {
        Some(fault) => return tell_refused(alloc, fault, devices),
        None => {}
    }
    match answer_of(alloc, history_in(devices)) {
        Ok(answer) => {
            let status = say_done(&answer, devices);
            drop(answer);
            status
        }
        Err(fault) => tell_untold(alloc, fault, devices),
    }
}

// Returns the answer that is the journal of a history.
fn answer_of(alloc: Global, history: &[u8]) -> Result<Vec<u8>, GenerationFault>
    ensures answer { IfOk result (λ answer. (text : List ℕ) × IsHistoryJournal history.now text
        × (answer.items ≡ text ++ ok_line)) }
    ensures fault { IfErr result (IsUntoldFault history.now) }
{
    match with_ok(journal_of(alloc, history)?) {
        Ok(answer) => Ok(answer),
        Err(_) => Err(GenerationFault::Memory),
    }
}

/// Returns the journal of a history as text.
///
/// Takes time that grows with the bytes of all its texts.
pub(crate) fn journal_of(alloc: Global, history: &[u8]) -> Result<Vec<u8>, GenerationFault>
    ensures text { IfOk result (λ text. IsHistoryJournal history.now text.items) }
    ensures fault { IfErr result (IsUntoldFault history.now) }
{
    let numbered = numbered_of(alloc, history)?;
    let place = place_text(alloc, numbered.at, numbered.marks.len());
    drop(numbered);
    let Ok(mut text) = place else {
        return Err(GenerationFault::Memory);
    };
    let Ok(form) = read_history(alloc, history) else {
        return Err(GenerationFault::Memory);
    };
    let added = add_generations(&mut text, alloc, &form);
    drop(form);
    match added {
        Ok(()) => Ok(text),
        Err(fault) => Err(fault),
    }
}

// Appends the lines of all generations of a history.
fn add_generations(
    text: &mut Vec<u8>,
    alloc: Global,
    form: &HistoryForm<'_>,
) -> Result<(), GenerationFault>
    requires { IsHistoryText form.now }
    ensures lines { OnOk result ((lines : List ℕ) × AreLines 0 form.now.generations lines
        × (text.new.items ≡ text.old.items ++ lines)) }
    ensures fault { IfErr result (λ why. (bytes : List ℕ) → bytes ≡ history_text form.now
        → IsUntoldFault bytes why) }
{
    let mut first = 0;
    for place in 0..form.generations.len() {
        first = match add_generation(text, alloc, &form.generations[place], first) {
            Ok(Some(next)) => next,
            Ok(None) => return Err(GenerationFault::Untold(place)),
            Err(_) => return Err(GenerationFault::Memory),
        };
    }
    Ok(())
}

// Appends the lines of a generation, whose first state has this number. Returns the number behind
// its last one, or none if its texts are not those of a database and of a session of it.
fn add_generation(
    text: &mut Vec<u8>,
    alloc: Global,
    generation: &GenerationForm<'_>,
    first: usize,
) -> Result<Option<usize>, NoMem>
    ensures some { IfOk result (λ next. IfSome next (λ next. (told : Told generation.now)
        × (own : List ℕ) × AreLinesOf first generation.now told own
        × (next ≡ first + length (states told.line)) × (text.new.items ≡ text.old.items ++ own))) }
    ensures none { IfOk result (λ next. IfNone next (IsUntold generation.now)) }
{
    let Some((db, line)) = told_of(alloc, generation)? else {
        return Ok(None);
    };
    let added = add_lines(text, alloc, generation, &db, &line, first);
    drop((db, line));
    match added {
        Ok(next) => Ok(Some(next)),
        Err(short) => Err(short),
    }
}

/// Reads the database of a generation and the line of its session. Returns none if its texts are
/// not those of such.
pub(crate) fn told_of(
    alloc: Global,
    generation: &GenerationForm<'_>,
) -> Result<Option<(Db, Line)>, NoMem>
    ensures some { IfOk result (λ read. IfSome read (λ told.
        Spells (Some generation.now.database) [] told.0 [] × IsLineOf told.0 told.1.line
        × SpellsLine told.0 generation.now.session told.1.line)) }
    ensures closed { IfOk result (λ read. IfSome read (λ told. told.1.is_open ≡ false)) }
    ensures none { IfOk result (λ read. IfNone read (Told generation.now → ⊥)) }
{
    text_laws::spelling_is_unique();
    let Some(db) = base_in(alloc, generation.database)? else {
        return Ok(None);
    };
    match line_in(alloc, generation.session, &db) {
        Ok(Some(line)) => Ok(Some((db, line))),
        Ok(None) => {
            drop(db);
            Ok(None)
        }
        Err(short) => {
            drop(db);
            Err(short)
        }
    }
}

// Reads the database of a text. Returns none if the text is not that of a database.
fn base_in(alloc: Global, text: &[u8]) -> Result<Option<Db>, NoMem>
    ensures some { IfOk result (λ read. IfSome read (λ d. Spells (Some text.now) [] d [])) }
    ensures none { IfOk result (λ read. IfNone read (
        (d : Database) → Spells (Some text.now) [] d [] → ⊥)) }
{
    text_laws::spelling_is_not_refused();
    match database_of(alloc, Some(text), &[]) {
        Ok((db, _none)) => Ok(Some(db)),
        Err(TextFault::Memory) => Err(AllocError),
        Err(_) => Ok(None),
    }
}

// Reads the line of the session of a database. Returns none if the text is not that of one.
fn line_in(alloc: Global, text: &[u8], db: &Db) -> Result<Option<Line>, NoMem>
    ensures some { IfOk result (λ read. IfSome read (λ line. IsLineOf db.now line.line
        × SpellsLine db.now text.now line.line)) }
    ensures closed { IfOk result (λ read. IfSome read (λ line. line.is_open ≡ false)) }
    ensures none { IfOk result (λ read. IfNone read (
        (line : LineStates) → IsLineOf db.now line → SpellsLine db.now text.now line → ⊥)) }
{
    live_laws::spelling_is_not_refused();
    let _names = db.names();
    match read_live(alloc, text, db) {
        Ok((line, _count)) => Ok(Some(line)),
        Err(fault) if is_memory(fault) => Err(AllocError),
        Err(_) => Ok(None),
    }
}

// Returns true if memory ran out.
fn is_memory(fault: LiveFault) -> bool
    ensures { IsTrue result ↔ (fault ≡ live_fault.Memory) }
{
    matches!(fault, LiveFault::Memory)
}

// Appends the border in front of a generation, if there is one, and the lines of its entries.
// Returns the number behind that of its last state.
fn add_lines(
    text: &mut Vec<u8>,
    alloc: Global,
    generation: &GenerationForm<'_>,
    db: &Db,
    line: &Line,
    first: usize,
) -> Result<usize, NoMem>
    requires closed { line.now.is_open ≡ false }
    requires line { IsLineOf db.now line.now.line }
    ensures { IfOk result (λ next. (next ≡ first + length (states line.now.line))
        × ((lines : List ℕ) × (entries : List ℕ)
        × AreEntryLines db.now.names first (states line.now.line) lines
        × ArePassing (generation.now.last_passed && nat_lt 1 (length (states line.now.line)))
        lines entries
        × (text.new.items ≡ text.old.items
        ++ (border_text first generation.now (length (states line.now.line)) ++ entries)))) }
{
    let count = line.states();
    let Some(next) = first.checked_add(count) else {
        return Err(AllocError);
    };
    add_border(text, alloc, generation, first, count)?;
    add_entries(text, alloc, db, line, first)?;
    if generation.last_passed && 1 < count {
        pass_last(text)?;
    }
    Ok(next)
}

// Appends the border in front of a generation of so many states, if there is one.
fn add_border(
    text: &mut Vec<u8>,
    alloc: Global,
    generation: &GenerationForm<'_>,
    first: usize,
    count: usize,
) -> Result<(), NoMem>
    ensures { OnOk result (text.new.items
        ≡ text.old.items ++ border_text first generation.now count) }
{
    if first == 0 {
        return Ok(());
    }
    let border = border_of(alloc, first - 1, generation, count)?;
    text.extend_from_slice(&border)
}

// Returns the line of the border in front of a generation of so many states.
fn border_of(
    alloc: Global,
    number: usize,
    generation: &GenerationForm<'_>,
    count: usize,
) -> Result<Vec<u8>, NoMem>
    ensures { IfOk result (λ text. text.items
        ≡ border_line number generation.now.renames (passes_first generation.now count)) }
{
    let mut text = format!(in alloc; "{number} update")?.into_bytes();
    for rename in &generation.renames {
        add_rename(&mut text, rename)?;
    }
    if generation.first_passed || (count == 1 && generation.last_passed) {
        text.extend_from_slice(b" ..")?;
    }
    text.push(b'\n')?;
    Ok(text)
}

// Appends the old and the new name of a service that goes on under another one.
fn add_rename(text: &mut Vec<u8>, rename: &RenameForm<'_>) -> Result<(), NoMem>
    ensures { OnOk result (text.new.items ≡ text.old.items ++ rename_text rename.now) }
{
    text.push(b' ')?;
    text.extend_from_slice(rename.old.text().as_bytes())?;
    text.push(b'>')?;
    text.extend_from_slice(rename.new.text().as_bytes())
}

// Appends to the last line of a text that the state to which it leads is passed.
fn pass_last(text: &mut Vec<u8>) -> Result<(), NoMem>
    ensures { OnOk result ((front : List ℕ) → text.old.items ≡ front ++ 10 ∷ []
        → text.new.items ≡ front ++ codes " ..\n") }
{
    let _newline = text.pop();
    text.extend_from_slice(b" ..\n")
}
