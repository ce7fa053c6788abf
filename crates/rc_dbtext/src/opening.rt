//! A database and an input: a base comes first, and without one the
//! database stands at the beginning.
ghost use Rattle.std.specs.Prelude.{◌≡◌, ◌⊎◌, ◌+◌, Err, None, Some, IfErr, IfOk};
ghost use Rattle.rc_dbtext.specs.Base.{bytes_of};
ghost use Rattle.rc_dbtext.specs.Opening.{IsBaseFault, IsInputFault, IsOpenFault, IsWrongBase};
ghost use Rattle.rc_dbtext.specs.Opening.{Opens};
ghost use Rattle.rc_dbtext.specs.Opening.{ReadsAll};
ghost use Rattle.rc_model.specs.Database.{IsDatabase};
ghost use Rattle.rc_db.specs.Database.{IsWritable};
ghost use Rattle.rc_dbtext.specs.Spelling.{spelling};
ghost use Rattle.rc_streams.specs.Input.{ConsumesAtMost};
ghost use Rattle.rc_streams.specs.Noting.{HasFailed, inner_of};

use crate::fault::TextFault;
use crate::laws::spelling_is_not_refused;
use crate::read::{read_db, read_db_front};
use rc_db::Db;
use rc_streams::{Failure, MAX_INPUT, Noted, read_all};
use std::alloc::Global;
use std::io::Read;
use thiserror::Error;

/// Why there is no database with its input.
#[derive(Clone, Copy, PartialEq, Eq, Debug, Error)]
pub enum OpenFault {
    /// The database text is refused.
    #[error(transparent)]
    OfText(TextFault),
    /// The input was not read whole.
    #[error(transparent)]
    Failed(Failure),
}

/// A database, and an input that was read whole.
#[derive(Drop)]
pub struct Opened {
    pub db: Db,
    pub input: Vec<u8>,
    /// The offset in `input` of what follows the database.
    pub start: usize,
}

/// Reads the database and the whole input. If there is a base, reads nothing before the base's text
/// is found right.
pub fn open<R: Read>(
    alloc: Global,
    base: Option<&[u8]>,
    reader: &mut Noted<R>,
) -> Result<Opened, OpenFault>
    ensures opened { IfOk result (λ opened. Opens (bytes_of base.entry)
        (R.remaining (inner_of reader.old)) (R.remaining (inner_of reader.new))
        opened.db opened.input.items opened.start) }
    ensures fault { IfErr result (IsOpenFault (bytes_of base.entry)
        (R.remaining (inner_of reader.old)) (R.remaining (inner_of reader.new))
        (HasFailed reader.new)) }

    // A read that has failed is reported as such.
    ensures told { HasFailed reader.new → HasFailed reader.old
        ⊎ (result ≡ Err (OpenFault.Failed Failure.Read)) }

    // If the base is wrong, the reader is as it was.
    ensures first { IsWrongBase (bytes_of base.entry) → reader.new ≡ reader.old }
    ensures taken { ConsumesAtMost (R.remaining (inner_of reader.old))
        (R.remaining (inner_of reader.new)) (MAX_INPUT + 1) }
{
    match base {
        Some(bytes) => open_base(alloc, bytes, reader),
        None => open_front(alloc, reader),
    }
}

// Reads the database of a base, and then the whole input.
fn open_base<R: Read>(
    alloc: Global,
    base: &[u8],
    reader: &mut Noted<R>,
) -> Result<Opened, OpenFault>
    ensures opened { IfOk result (λ opened. Opens (Some base.now)
        (R.remaining (inner_of reader.old)) (R.remaining (inner_of reader.new))
        opened.db opened.input.items opened.start) }
    ensures fault { IfErr result (IsOpenFault (Some base.now) (R.remaining (inner_of reader.old))
        (R.remaining (inner_of reader.new)) (HasFailed reader.new)) }
    ensures first { IsWrongBase (Some base.now) → reader.new ≡ reader.old }
    ensures told { HasFailed reader.new → HasFailed reader.old
        ⊎ (result ≡ Err (OpenFault.Failed Failure.Read)) }
    ensures taken { ConsumesAtMost (R.remaining (inner_of reader.old))
        (R.remaining (inner_of reader.new)) (MAX_INPUT + 1) }
{
    let db = base_db(alloc, base)?;
    let input = whole_input(alloc, reader)?;
    Ok(Opened {
        db,
        input,
        start: 0,
    })
}

// Reads the whole input, and the database from its beginning.
fn open_front<R: Read>(alloc: Global, reader: &mut Noted<R>) -> Result<Opened, OpenFault>
    ensures opened { IfOk result (λ opened. Opens None (R.remaining (inner_of reader.old))
        (R.remaining (inner_of reader.new))
        opened.db opened.input.items opened.start) }
    ensures fault { IfErr result (IsOpenFault None (R.remaining (inner_of reader.old))
        (R.remaining (inner_of reader.new)) (HasFailed reader.new)) }
    ensures told { HasFailed reader.new → HasFailed reader.old
        ⊎ (result ≡ Err (OpenFault.Failed Failure.Read)) }
    ensures taken { ConsumesAtMost (R.remaining (inner_of reader.old))
        (R.remaining (inner_of reader.new)) (MAX_INPUT + 1) }
{
    let all = whole_input(alloc, reader)?;
    match read_db_front(alloc, &all) {
        Ok((db, start)) => {
            let _names = db.names();
            Ok(Opened {
                db,
                input: all,
                start,
            })
        }
        Err(wrong) => Err(OpenFault::OfText(wrong)),
    }
}

// Reads the database of a base.
fn base_db(alloc: Global, base: &[u8]) -> Result<Db, OpenFault>
    ensures spelled { IfOk result (λ db. IsDatabase db × IsWritable db × (base.now ≡ spelling db)) }
    ensures fault { IfErr result (IsBaseFault base.now) }
{
    spelling_is_not_refused();
    match read_db(alloc, base) {
        Ok(db) => {
            let _names = db.names();
            Ok(db)
        }
        Err(wrong) => Err(OpenFault::OfText(wrong)),
    }
}

// Reads the whole input.
fn whole_input<R: Read>(alloc: Global, reader: &mut Noted<R>) -> Result<Vec<u8>, OpenFault>
    ensures whole { IfOk result (λ all. ReadsAll (R.remaining (inner_of reader.old))
        (R.remaining (inner_of reader.new)) all.items) }
    ensures fault { IfErr result (IsInputFault (R.remaining (inner_of reader.old))
        (HasFailed reader.new)) }
    ensures told { HasFailed reader.new → HasFailed reader.old
        ⊎ (result ≡ Err (OpenFault.Failed Failure.Read)) }
    ensures taken { ConsumesAtMost (R.remaining (inner_of reader.old))
        (R.remaining (inner_of reader.new)) (MAX_INPUT + 1) }
{
    match read_all(alloc, reader) {
        Ok(all) => Ok(all),
        Err(failure) => Err(OpenFault::Failed(failure)),
    }
}
