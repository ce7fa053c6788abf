//! The numbers of the states of a history. The states of all generations are counted, from 0.
ghost use Rattle.std.specs.Prelude.{◌≡◌, ◌+◌, ◌++◌, ℕ, List, length, IfErr, IfOk, OnOk};
ghost use Rattle.rc_livetext.specs.Text.{LiveText};
ghost use Rattle.rc_historytext.specs.States.{IsSession};
ghost use Rattle.rc_historytext.specs.CallFaults.{IsSessionFault};
ghost use Rattle.rc_historytext.specs.Text.{IsHistoryText, history_text};
ghost use Rattle.rc_launch.specs.Numbers.{AreNumbered, IsUntoldFault, SaySessions, marks_in};
ghost use Rattle.rc_launch.specs.Numbers.{marks_of, number_at, states_behind};

use rc_historytext::{GenerationForm, HistoryFault, HistoryForm, read_history, states_around};
use std::alloc::{AllocError, Global};

/// Why something is not made of a history.
#[derive(Clone, Copy, PartialEq, Eq, Debug)]
pub(crate) enum GenerationFault {
    /// The texts of the generation at this place are not those of a database and of a session of
    /// it.
    Untold(usize),
    Memory,
}

/// The number of the state on which a history stands, and for each state whether an undo and a redo
/// go on from it.
#[derive(Drop)]
pub(crate) struct Numbered {
    pub at: usize,
    pub marks: Vec<bool>,
}

/// Counts the states of a history.
pub(crate) fn numbered_of(alloc: Global, history: &[u8]) -> Result<Numbered, GenerationFault>
    ensures numbers { IfOk result (λ numbered.
        AreNumbered history.now numbered.at numbered.marks.items) }
    ensures fault { IfErr result (IsUntoldFault history.now) }
{
    let Ok(form) = read_history(alloc, history) else {
        return Err(GenerationFault::Memory);
    };
    let numbered = numbered_in(alloc, &form);
    drop(form);
    numbered
}

// Counts the states of all generations.
fn numbered_in(alloc: Global, form: &HistoryForm<'_>) -> Result<Numbered, GenerationFault>
    requires { IsHistoryText form.now }
    ensures numbers { IfOk result (λ numbered. (sessions : List LiveText)
        × SaySessions form.now.generations sessions
        × (numbered.at ≡ number_at form.now.present sessions)
        × (numbered.marks.items ≡ marks_in form.now.generations sessions)) }
    ensures fault { IfErr result (λ why. (bytes : List ℕ) → bytes ≡ history_text form.now
        → IsUntoldFault bytes why) }
{
    let mut marks = Vec::new(alloc);
    let mut at = 0;
    for place in 0..form.generations.len() {
        let number = match add_generation(alloc, &mut marks, &form.generations[place]) {
            Ok(number) => number,
            Err(HistoryFault::Memory) => return Err(GenerationFault::Memory),
            Err(_) => return Err(GenerationFault::Untold(place)),
        };
        if place == form.present as usize {
            at = number;
        }
    }
    Ok(Numbered { at, marks })
}

// Appends the marks of the states of a generation. Returns the number of its current state, where
// the states of the marks before come before its own.
fn add_generation(
    alloc: Global,
    marks: &mut Vec<bool>,
    generation: &GenerationForm<'_>,
) -> Result<usize, HistoryFault>
    ensures number { IfOk result (λ number. (s : LiveText) × IsSession generation.now.session s
        × (number ≡ length marks.old.items + length s.before)
        × (marks.new.items ≡ marks.old.items
        ++ marks_of generation.now.first_passed generation.now.last_passed (states_behind s))) }
    ensures fault { IfErr result (IsSessionFault generation.now.session) }
{
    let (before, after) = states_around(alloc, generation.session)?;
    let (Some(number), Some(behind)) = (marks.len().checked_add(before), before.checked_add(after))
    else {
        return Err(HistoryFault::Memory);
    };
    match add_marks(
        marks,
        generation.first_passed,
        generation.last_passed,
        behind,
    ) {
        Ok(()) => Ok(number),
        Err(_) => Err(HistoryFault::Memory),
    }
}

// Appends the marks of a generation whose oldest state has so many behind it.
fn add_marks(
    marks: &mut Vec<bool>,
    first: bool,
    last: bool,
    behind: usize,
) -> Result<(), AllocError>
    ensures { OnOk result (marks.new.items ≡ marks.old.items ++ marks_of first last behind) }
{
    if behind == 0 {
        marks.push(first || last)?;
        return Ok(());
    }
    marks.push(first)?;
    for _turn in 0..behind - 1 {
        marks.push(false)?;
    }
    marks.push(last)?;
    Ok(())
}
