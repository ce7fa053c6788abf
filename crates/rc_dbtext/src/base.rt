//! The database of a command: a text of its own, or the beginning of the input.
ghost use Rattle.std.specs.Prelude.{IfErr, IfOk};
ghost use Rattle.rc_dbtext.specs.Base.{IsTextFault, Spells, bytes_of};

use crate::fault::TextFault;
use crate::read::{read_db, read_db_front};
use rc_db::Db;
use std::alloc::Global;

/// Reads the database from `base`, or from the beginning of the input if there is no base. Returns
/// the database and the rest of the input.
pub fn database_of<'a>(
    alloc: Global,
    base: Option<&[u8]>,
    input: &'a [u8],
) -> Result<(Db, &'a [u8]), TextFault>
    ensures spelled { IfOk result (λ read.
        Spells (bytes_of base.entry) input.entry.now read.0 read.1.now) }
    ensures fault { IfErr result (IsTextFault (bytes_of base.entry) input.entry.now) }
{
    match base {
        Some(bytes) => {
            let db = read_db(alloc, bytes)?;
            let _names = db.names();
            Ok((db, input))
        }
        None => {
            let (db, taken) = read_db_front(alloc, input)?;
            let _names = db.names();
            Ok((db, &input[taken..]))
        }
    }
}
