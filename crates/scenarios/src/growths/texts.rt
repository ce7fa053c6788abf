//! Texts of what a session has, and lines that are read and written.

ghost use Rattle.std.specs.Prelude.{◌≡◌, false};

use crate::growths::openings::plan_to;
use crate::samples::ROOT;
use rc_core::Event;
use rc_dbtext::{TextFault, text_word};
use rc_graph::Graph;
use rc_livetext::{LiveFault, live_word};
use rc_names::Names;
use rc_render::{
    add_refusal_text, answer_text, bundles_text, dot_text, id_lines, journal_text, live_text,
    name_lines, plan_text, refusal_text, report_text, step_refusal_text, unknown_word, with_ok,
};
use rc_script::{ScriptFault, SessionLine, event_line, read_line, read_script, step_line};
use rc_select::{Mode, Request};
use rc_session::{Command, Refusal, Report, Session, Step};
use rc_set::{NoMem, Set};
use std::alloc::{AllocError, Global};

/// What is written or read.
#[derive(Clone, Copy)]
pub enum Text {
    Live,
    Bundles,
    Names,
    Ids,
    Dot,
    Journal,
    Plan,
    Report,
    Ok,
    Refusal,
    StepRefusal,
    AddRefusal,
    Answer,
    StepLine,
    EventLine,
    ReadLine,
    ReadScript,
    Letters,
    TextWord,
    LiveWord,
    UnknownWord,
}

/// Writes a text, or reads one. Returns true if it is the one that is due.
pub fn is_text(alloc: Global, session: &Session, text: Text, due: &str) -> Result<bool, NoMem>
    requires { session.now.begun ≡ false }
{
    let names = session.db().names();
    match text {
        Text::StepLine | Text::EventLine => is_line(alloc, names, text, due),
        Text::ReadLine => is_command(read_line(alloc, due.as_bytes())),
        Text::ReadScript => is_one_step(read_script(alloc, names, due.as_bytes())),
        _ => {
            let written = written(alloc, session, names, text)?;
            Ok(written.as_slice() == due.as_bytes())
        }
    }
}

/// Writes what a session has, or what it answers, as text.
fn written(alloc: Global, session: &Session, names: &Names, text: Text) -> Result<Vec<u8>, NoMem>
    requires { session.now.begun ≡ false }
{
    match text {
        Text::Live => live_text(alloc, names, session.live()),
        Text::Bundles => bundles_text(alloc, names, session.table()),
        Text::Names if !names.is_empty() => name_lines(alloc, &[names.name_of(0)]),
        Text::Ids if !names.is_empty() => id_lines(alloc, names, &[0]),
        Text::Dot => dot_text(alloc, session.db(), session.live()),
        Text::Journal => journal_text(alloc, session.db(), session.journal()),
        Text::Plan => planned(alloc, names, session.db().graph(), session.live()),
        Text::Report => reported(alloc, names, session.live()),
        Text::Ok => with_ok(Vec::new(alloc)),
        Text::Refusal => refusal_text(alloc, &[], Refusal::NothingToUndo),
        Text::AddRefusal if !names.is_empty() => {
            add_refusal_text(alloc, names.name_of(0), &[], Refusal::Exists)
        }
        Text::Letters => letters(alloc),
        Text::TextWord => text_word(alloc, TextFault::Bad(326)),
        Text::LiveWord => live_word(alloc, LiveFault::NotClosed(0)),
        Text::UnknownWord => unknown_word(alloc, b"nosuch"),
        _ => refused_step(alloc, names, text),
    }
}

/// Returns the letters of a change with all options.
fn letters(alloc: Global) -> Result<Vec<u8>, NoMem> {
    let mut request = Request::plain(Mode::DownAll, Vec::new(alloc), 0);
    request.prune = true;
    request.all = true;
    Ok(request.letters(alloc)?.into_bytes())
}

/// Writes the plan that brings the given services up where nothing is up.
fn planned(alloc: Global, names: &Names, graph: &Graph, up: &Set) -> Result<Vec<u8>, NoMem> {
    if up.bound() != names.len() {
        return Ok(Vec::new(alloc));
    }
    let none = Set::empty(alloc, up.bound())?;
    let plan = plan_to(alloc, graph, &none, up);
    drop(none);
    match plan {
        Ok(Some(plan)) => plan_text(alloc, names, &plan),
        Ok(None) => Ok(Vec::new(alloc)),
        Err(short) => Err(short),
    }
}

/// Writes the answer to a command that has brought the given services up.
fn reported(alloc: Global, names: &Names, up: &Set) -> Result<Vec<u8>, NoMem> {
    let opening = Set::empty(alloc, up.bound())?;
    let raised = up.ids(alloc)?;
    let report = Report {
        opening,
        lowered: Vec::new(alloc),
        raised,
        failed: Vec::new(alloc),
        blocked: Vec::new(alloc),
        untried: Vec::new(alloc),
        kept: Vec::new(alloc),
        stopped: false,
        trace: Vec::new(alloc),
    };
    let text = report_text(alloc, names, &report);
    drop(report);
    text
}

/// Writes the answer to an undo that is refused.
fn refused_step(alloc: Global, names: &Names, text: Text) -> Result<Vec<u8>, NoMem> {
    let step = Step::Undo(0, Vec::new(alloc));
    let refused = match text {
        Text::StepRefusal => step_refusal_text(alloc, &step, Refusal::NothingToUndo),
        _ => answer_text(alloc, names, &step, &Err(Refusal::NothingToUndo)),
    };
    drop(step);
    refused
}

/// Returns true if the line of a step or an event is the one that is due.
fn is_line(alloc: Global, names: &Names, text: Text, due: &str) -> Result<bool, NoMem> {
    let command = Command::Undo(0);
    let line = match text {
        Text::StepLine => step_line(alloc, &command),
        _ => event_line(alloc, names, Event::Take(1, ROOT)),
    };
    drop(command);
    match line {
        Ok(Some(line)) => Ok(line.as_str() == due),
        Ok(None) => Ok(false),
        Err(short) => Err(short),
    }
}

/// Returns true if a line is a command.
fn is_command(read: Result<SessionLine, NoMem>) -> Result<bool, NoMem> {
    match read {
        Ok(line) => {
            let is_command = matches!(&line, SessionLine::Command(_));
            drop(line);
            Ok(is_command)
        }
        Err(short) => Err(short),
    }
}

/// Returns true if a script has one step.
fn is_one_step(read: Result<Vec<Step>, ScriptFault>) -> Result<bool, NoMem> {
    match read {
        Ok(steps) => {
            let is_one = steps.len() == 1;
            drop(steps);
            Ok(is_one)
        }
        Err(ScriptFault::Memory) => Err(AllocError),
        Err(ScriptFault::BadLine(_)) => Ok(false),
    }
}
