//! Why the files of a command are not opened.
use rc_historytext::HistoryFault;
use rc_streams::inherited::Unfit;
use std::io;
use thiserror::Error;

/// Why the files of a command are not opened. Nothing has moved then.
#[derive(Debug, Drop, Error)]
pub enum OpenFault<'a> {
    /// Scripts can't be run with what the program inherits.
    #[error("scripts can't be run")]
    Unfit(Unfit),
    /// This file can't be read.
    #[error("a file can't be read")]
    File(&'a str, io::Error),
    /// This directory can't keep what scripts write.
    #[error("a directory can't keep what scripts write")]
    Output(&'a str, io::Error),
    /// The text of this file is to be a history, and is none.
    #[error("a file is no history")]
    History(&'a str, HistoryFault),
    /// Another program goes on with the session of this file, of this process id where that is
    /// known.
    #[error("another program goes on with the session")]
    Busy(&'a str, Option<u32>),
    /// The file of the lock of this file can't be opened.
    #[error("the lock can't be opened")]
    Lock(&'a str, io::Error),
    /// The run log of this file can't be read, written or removed.
    #[error("the run log can't be used")]
    Log(&'a str, io::Error),
    /// The file by which the command on this file is called off can't be used.
    #[error("the file that calls a command off can't be used")]
    Stop(&'a str, io::Error),
    /// The command needs a database: this file of its session has none, and none is named.
    #[error("no database is named")]
    NoDatabase(&'a str),
    /// The run log of this file is of a command that was cut short, and no database is named.
    #[error("the run log needs a database")]
    NoBase(&'a str),
    /// The run log of this file is of another database.
    #[error("the run log is of another database")]
    OtherBase(&'a str),
    #[error("out of memory")]
    Memory,
}
