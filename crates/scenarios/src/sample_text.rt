//! The text of the sample, read and written.

use crate::samples::sample;
use rc_db::Db;
use rc_dbtext::{read_db, write_db};
use std::test::Fail;
use std::{io, str};

/// Shows the text of the sample after it is read and written once more.
pub(crate) fn show_sample_text(rt: &(impl Print + AllocGlobal)) -> Result<(), Fail> {
    let db = sample(rt.alloc())?;
    let shown = show_text_of(rt, &db);
    drop(db);
    shown
}

/// Shows the text of a database after it is read and written once more.
fn show_text_of(rt: &(impl Print + AllocGlobal), db: &Db) -> Result<(), Fail> {
    let text = write_db(rt.alloc(), db)?;
    match read_db(rt.alloc(), &text) {
        Ok(read) => {
            let again = write_db(rt.alloc(), &read);
            drop(read);
            let again = again?;
            println!(rt; "the sample, {} bytes:", again.len())?;
            Ok(show_text(rt, &again)?)
        }
        Err(fault) => Ok(println!(rt; "{fault}")?),
    }
}

fn show_text(rt: &impl Print, text: &[u8]) -> io::Result<()> {
    print!(rt; "{}", str::from_utf8(text).unwrap_or("no text"))
}
