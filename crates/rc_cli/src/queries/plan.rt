//! The command `plan`: what a change would lower, raise and keep.
ghost use Rattle.std.specs.Prelude.{◌≡◌, ◌≢◌, ◌⊎◌, ◌<◌, ◌≤◌, ◌+◌, ℕ, [], None, length, map};
ghost use Rattle.std.specs.Prelude.{string_bytes, IfOk, IfErr, IfSome};
ghost use Rattle.std.specs.Io.KnownBytes.{IsAtEnd};
ghost use Rattle.rc_model.specs.Names.{Has};
ghost use Rattle.rc_model.specs.Graph.{IsClosed};
ghost use Rattle.rc_select.specs.Ask.{ask_of};
ghost use Rattle.rc_args.specs.Asked.{plan_asked};
ghost use Rattle.rc_dbtext.specs.Base.{bytes_of};
ghost use Rattle.rc_dbtext.specs.Opening.{IsWrongBase};
ghost use Rattle.rc_streams.specs.Input.{ConsumesAtMost, FailsWith, TellsFailure, WritesAll};
ghost use Rattle.rc_streams.specs.Input.{WritesFront};
ghost use Rattle.rc_streams.specs.Noting.{HasFailed, inner_of};
ghost use Rattle.rc_cli.specs.Named.{word_lines};
ghost use Rattle.rc_cli.specs.PlanText.{IsAnswer, IsPlanIn, IsTextFor, IsUpSet};
ghost use Rattle.rc_cli.specs.PlanFaults.{IsAskFault, IsFromPlan, IsNameFault, IsUpFault};
ghost use Rattle.rc_cli.specs.Queries.{TellsFault};

use crate::fault::{Fault, unknown_name};
use crate::queries::named::{named_set, word_lines};
use crate::queries::running::{Query, run_query};
use rc_args::{plan_asked, tell_words};
use rc_db::Db;
use rc_graph::Graph;
use rc_names::Names;
use rc_render::plan_text;
use rc_select::{Plan, PlanFault, Request, plan};
use rc_set::Set;
use rc_streams::{Failure, MAX_INPUT, Noted};
use std::alloc::Global;
use std::io::{Read, Write};

/// Runs `undorc plan` with its arguments, and returns the exit status.
///
/// The database is `base`, if there is one, which is checked before anything is read. Otherwise the
/// database is the beginning of the input. After it the input has the names that are up, one per
/// line. The plan is written to `writer`, and the reason why there is none to `faults`.
pub fn plan_run<R: Read, W: Write, F: Write>(
    alloc: Global,
    words: &[String],
    base: Option<&[u8]>,
    reader: &mut Noted<R>,
    writer: &mut Noted<W>,
    faults: &mut F,
) -> u8
    ensures statuses { (result ≡ 0) ⊎ (result ≡ 1) ⊎ (result ≡ 100) ⊎ (result ≡ 111) }

    // What was written is the plan for what the words ask, and nothing was told.
    ensures done { result ≡ 0 → IfSome (R.remaining (inner_of reader.old)) (λ input. WritesAll
        (IsAnswer (map string_bytes words.now) (bytes_of base.entry) input)
        (W.contents (inner_of writer.old)) (W.contents (inner_of writer.new))) }
    ensures untold { result ≡ 0 → F.contents faults.new ≡ F.contents faults.old }

    // A refusal holds, and a prefix of its line was told, or all of it.
    ensures refused { result ≡ 1 → IfSome (R.remaining (inner_of reader.old)) (λ input. TellsFault
        (map string_bytes words.now) (bytes_of base.entry) input (F.contents faults.old)
        (F.contents faults.new)) }

    // A wrong command line is found before anything is read.
    ensures wrong { result ≡ 100 → plan_asked (map string_bytes words.now) ≡ None }
    ensures right { result ≢ 100 → result ≢ 111 → plan_asked (map string_bytes words.now) ≢ None }
    ensures unread { result ≡ 100 → R.remaining (inner_of reader.new)
        ≡ R.remaining (inner_of reader.old) }

    // A failure is told by the line of its cause, and what was written is
    // nothing or a prefix of the plan.
    ensures failed { result ≡ 111 → TellsFailure (R.remaining (inner_of reader.old))
        (HasFailed reader.new) (HasFailed writer.new)
        (F.contents faults.old) (F.contents faults.new) }
    ensures read { HasFailed reader.new → HasFailed reader.old
        ⊎ FailsWith Failure.Read result (F.contents faults.old) (F.contents faults.new) }
    ensures written { HasFailed writer.new → HasFailed writer.old
        ⊎ FailsWith Failure.Write result (F.contents faults.old) (F.contents faults.new) }
    ensures begun { result ≡ 111 → (W.contents (inner_of writer.new)
        ≡ W.contents (inner_of writer.old))
        ⊎ IfSome (R.remaining (inner_of reader.old)) (λ input. WritesFront
        (IsAnswer (map string_bytes words.now) (bytes_of base.entry) input)
        (W.contents (inner_of writer.old)) (W.contents (inner_of writer.new))) }
    ensures unwritten { (result ≡ 1) ⊎ (result ≡ 100) → W.contents (inner_of writer.new)
        ≡ W.contents (inner_of writer.old) }

    // A base comes first: where it is wrong the reader is as it was, there is no plan, and why is
    // told whatever the reader has.
    ensures first { IsWrongBase (bytes_of base.entry) → reader.new ≡ reader.old }
    ensures based { result ≡ 0 → IsWrongBase (bytes_of base.entry) → ⊥ }
    ensures untrue { result ≡ 1 → IsWrongBase (bytes_of base.entry)
        → TellsFault (map string_bytes words.now) (bytes_of base.entry) [] (F.contents faults.old)
        (F.contents faults.new) }

    // Any other input that was answered was read to its end, and whatever the status, one byte past
    // the bound is the last that is taken.
    ensures within { (result ≡ 0) ⊎ (result ≡ 1) → IsWrongBase (bytes_of base.entry)
        ⊎ IfSome (R.remaining (inner_of reader.old)) (λ input. length input ≤ MAX_INPUT) }
    ensures end { (result ≡ 0) ⊎ (result ≡ 1) → IsWrongBase (bytes_of base.entry)
        ⊎ IsAtEnd (R.remaining (inner_of reader.new)) }
    ensures taken { ConsumesAtMost (R.remaining (inner_of reader.old))
        (R.remaining (inner_of reader.new)) (MAX_INPUT + 1) }
{
    match plan_asked(alloc, words) {
        Ok(request) => run_query(alloc, &Query::Plan(&request), base, reader, writer, faults),
        Err(fault) => tell_words(faults, &fault),
    }
}

/// Returns the lines of the plan for a request on a database. The lines of a text name what is up.
pub(crate) fn plan_of(
    alloc: Global,
    request: &Request,
    db: &Db,
    rest: &[u8],
) -> Result<Vec<u8>, Fault>
    ensures plan { IfOk result (λ text. IsTextFor db.now (word_lines rest.now)
        (ask_of request.now) text.items) }
    ensures fault { IfErr result (λ fault. IsNameFault fault db.now (word_lines rest.now)
        (ask_of request.now)) }
{
    let ups = word_lines(alloc, rest)?;
    text_for(alloc, db, &ups, request)
}

/// Returns the lines of the plan for a request, where the given names are up.
fn text_for(alloc: Global, db: &Db, ups: &[&[u8]], request: &Request) -> Result<Vec<u8>, Fault>
    ensures plan { IfOk result (λ text. IsTextFor db.now (map (λ w. w.now) ups.now)
        (ask_of request.now) text.items) }
    ensures fault { IfErr result (λ fault. IsNameFault fault db.now (map (λ w. w.now) ups.now)
        (ask_of request.now)) }
{
    let up = match up_set(alloc, db.names(), db.graph(), ups) {
        Ok(up) => up,
        Err(fault) => return Err(fault),
    };
    let plan = planned(alloc, db, &up, request);
    drop(up);
    let plan = plan?;
    let text = plan_text(alloc, db.names(), &plan);
    drop(plan);
    Ok(text?)
}

/// Returns the set of the services that are up.
fn up_set(alloc: Global, names: &Names, graph: &Graph, ups: &[&[u8]]) -> Result<Set, Fault>
    requires { length names.now ≡ length graph.now }
    ensures up { IfOk result (IsUpSet names.now graph.now (map (λ w. w.now) ups.now)) }
    ensures fault { IfErr result (λ fault. IsUpFault fault names.now graph.now
        (map (λ w. w.now) ups.now)) }
{
    let up = match named_set(alloc, names, ups) {
        Ok(up) => up,
        Err(fault) => return Err(fault),
    };
    if graph.closed(&up) {
        Ok(up)
    } else {
        Err(Fault::NotClosed)
    }
}

/// Returns the plan for a request, where the given services are up.
fn planned(alloc: Global, db: &Db, up: &Set, request: &Request) -> Result<Plan, Fault>
    requires bound { length up.now ≡ length db.now.names }
    requires closed { IsClosed db.now.needs (Has up.now) }
    ensures plan { IfOk result (IsPlanIn db.now up.now (ask_of request.now)) }
    ensures fault { IfErr result (λ fault. IsAskFault fault db.now (ask_of request.now)) }
{
    match plan(alloc, db, db.table(), up, request) {
        Ok(plan) => Ok(plan),
        Err(fault) => Err(fault_of(alloc, fault, request)),
    }
}

/// Converts a refusal of the plan into a fault, with the word that is the name of nothing.
fn fault_of(alloc: Global, fault: PlanFault, request: &Request) -> Fault
    requires { (place : ℕ) → fault ≡ PlanFault.Unknown place
        → place < length request.now.names.items }
    ensures { IsFromPlan fault (ask_of request.now) result }
{
    match fault {
        PlanFault::PruneNeedsUp => Fault::PruneNeedsUp,
        PlanFault::Unknown(place) => unknown_name(alloc, request.names[place].as_bytes()),
        PlanFault::Memory => Fault::Device(Failure::Memory),
    }
}
