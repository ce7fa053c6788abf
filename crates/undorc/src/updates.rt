//! `update`: carries what is live over to another database.

use crate::commands::carry_out;
use rc_args::{SessionCommand, UpdateRequest, renames_in};
use rc_launch::frontend::{tell_file, tell_renames};
use rc_streams::whole_file;
use std::sync::Wait;
use std::thread::Threads;

/// Carries out an update with what the file of the renames says, and returns the status.
pub fn update<'x, T: Threads + Wait + Sync>(
    rt: &HostRuntime,
    threads: &T,
    request: UpdateRequest<'x>,
    file: Option<&'x str>,
) -> u8 {
    let text = match renames_at(rt, request.renames) {
        Ok(text) => text,
        Err(status) => {
            drop(request);
            return status;
        }
    };
    let status = update_by(rt, threads, request, file, &text);
    drop(text);
    status
}

/// Carries out an update with the text of the file of the renames, and returns the status.
fn update_by<'x, T: Threads + Wait + Sync>(
    rt: &HostRuntime,
    threads: &T,
    request: UpdateRequest<'x>,
    file: Option<&'x str>,
    text: &'x [u8],
) -> u8 {
    match renames_in(rt.alloc(), &request.conversions, text) {
        Ok(list) => {
            let request = request.with_conversions(list);
            carry_out(rt, threads, SessionCommand::Update(request), file)
        }
        Err(fault) => tell_renames(rt, request.renames, &fault),
    }
}

/// Reads the file of the renames, or returns nothing if none is named. If it can't be read, reports
/// why and returns the status.
fn renames_at(rt: &HostRuntime, path: Option<&str>) -> Result<Vec<u8>, u8> {
    let Some(path) = path else {
        return Ok(Vec::new(rt.alloc()));
    };
    match whole_file::read(rt, path) {
        Ok(text) => Ok(text),
        Err(error) => Err(tell_file(rt, path, &error)),
    }
}
