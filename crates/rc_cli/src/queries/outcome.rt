//! What a query comes to: an answer or a fault.
ghost use Rattle.std.specs.Prelude.{◌≡◌, ◌⊎◌, ◌+◌, [], Err, Some, IfErr, IfOk};
ghost use Rattle.rc_dbtext.specs.Base.{bytes_of};
ghost use Rattle.rc_dbtext.specs.Opening.{IsOpenFault, IsWrongBase, Opens};
ghost use Rattle.rc_streams.specs.Input.{ConsumesAtMost};
ghost use Rattle.rc_streams.specs.Noting.{HasFailed, inner_of};
ghost use Rattle.rc_cli.specs.Queries.{HasOutcome, IsAnswerIn, IsFaultIn, ReadsNothing, input_of};
ghost use Rattle.rc_cli.specs.Queries.{query_ask_of, reads_of};

use crate::fault::Fault;
use crate::queries::db_answer::answer_to;
use crate::queries::plan::plan_of;
use crate::queries::played::replay_text;
use crate::queries::running::Query;
use rc_db::Db;
use rc_dbtext::laws::spelling_is_not_refused;
use rc_dbtext::{OpenFault, Opened, open, read_db};
use rc_streams::{Failure, MAX_INPUT, Noted};
use std::alloc::Global;
use std::io::Read;

/// Returns the outcome of a query, with the database of a base or of the input.
pub(crate) fn outcome_of<R: Read>(
    alloc: Global,
    query: &Query<'_, '_>,
    base: Option<&[u8]>,
    reader: &mut Noted<R>,
) -> Result<Vec<u8>, Fault>
    ensures outcome { HasOutcome (query_ask_of query.now) (bytes_of base.entry)
        (input_of (reads_of query.now) (bytes_of base.entry) (R.remaining (inner_of reader.old)))
        (input_of (reads_of query.now) (bytes_of base.entry) (R.remaining (inner_of reader.new)))
        (HasFailed reader.new) result }
    ensures told { HasFailed reader.new → HasFailed reader.old
        ⊎ (result ≡ Err (Fault.Device Failure.Read)) }
    ensures first { IsWrongBase (bytes_of base.entry) → reader.new ≡ reader.old }
    ensures unread { ReadsNothing (reads_of query.now) (bytes_of base.entry)
        → reader.new ≡ reader.old }
    ensures taken { ConsumesAtMost (R.remaining (inner_of reader.old))
        (R.remaining (inner_of reader.new)) (MAX_INPUT + 1) }
{
    match open_for(alloc, query.reads(), base, reader) {
        Ok(Opened { db, input, start }) => answer(alloc, query, db, &input[start..]),
        Err(fault) => Err(Fault::from(fault)),
    }
}

/// Reads the database, and the text after it if that is wanted.
fn open_for<R: Read>(
    alloc: Global,
    reads: bool,
    base: Option<&[u8]>,
    reader: &mut Noted<R>,
) -> Result<Opened, OpenFault>
    ensures opened { IfOk result (λ opened. Opens (bytes_of base.entry)
        (input_of reads (bytes_of base.entry) (R.remaining (inner_of reader.old)))
        (input_of reads (bytes_of base.entry) (R.remaining (inner_of reader.new)))
        opened.db opened.input.items opened.start) }
    ensures fault { IfErr result (IsOpenFault (bytes_of base.entry)
        (input_of reads (bytes_of base.entry) (R.remaining (inner_of reader.old)))
        (input_of reads (bytes_of base.entry) (R.remaining (inner_of reader.new)))
        (HasFailed reader.new)) }
    ensures told { HasFailed reader.new → HasFailed reader.old
        ⊎ (result ≡ Err (OpenFault.Failed Failure.Read)) }
    ensures first { IsWrongBase (bytes_of base.entry) → reader.new ≡ reader.old }
    ensures unread { ReadsNothing reads (bytes_of base.entry) → reader.new ≡ reader.old }
    ensures taken { ConsumesAtMost (R.remaining (inner_of reader.old))
        (R.remaining (inner_of reader.new)) (MAX_INPUT + 1) }
{
    if reads {
        return open(alloc, base, reader);
    }
    match base {
        Some(bytes) => open_base(alloc, bytes),
        None => open(alloc, None, reader),
    }
}

/// Reads the database of a base, and nothing else.
fn open_base(alloc: Global, base: &[u8]) -> Result<Opened, OpenFault>
    ensures opened { IfOk result (λ opened. Opens (Some base.now) (Some []) (Some [])
        opened.db opened.input.items opened.start) }
    ensures fault { IfErr result (IsOpenFault (Some base.now) (Some []) (Some []) ⊥) }
{
    spelling_is_not_refused();
    match read_db(alloc, base) {
        Ok(db) => {
            let _names = db.names();
            Ok(Opened {
                db,
                input: Vec::new(alloc),
                start: 0,
            })
        }
        Err(wrong) => Err(OpenFault::OfText(wrong)),
    }
}

/// Returns the answer of a query, by a database and the text after it, or the fault if there is
/// none. Calls no device.
fn answer(alloc: Global, query: &Query<'_, '_>, db: Db, rest: &[u8]) -> Result<Vec<u8>, Fault>
    ensures answer { IfOk result (λ text.
        IsAnswerIn (query_ask_of query.now) db rest.now text.items) }
    ensures fault { IfErr result (IsFaultIn (query_ask_of query.now) db rest.now) }
{
    match query {
        Query::Plan(request) => {
            let answer = plan_of(alloc, request, &db, rest);
            drop(db);
            answer
        }
        Query::Db(request, shown) => {
            let answer = answer_to(alloc, &db, request, *shown);
            drop(db);
            answer
        }
        Query::Replay => replay_text(alloc, db, rest),
    }
}
