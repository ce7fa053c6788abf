//! `status -v`: what the scripts of the named services wrote last.
use crate::defaults::output_of;
use log::warn;
use rc_args::SessionCommand;
use rc_launch::Opened;
use rc_streams::ending::{FAILED, REFUSED};
use rc_streams::escaping::Shown;
use rc_streams::messages::{MESSAGE, Messages};
use rc_streams::output_folder::OutputFolder;
use std::io::{self, Write};

/// The most lines that are shown of a service.
const COUNT: usize = 10;

/// Prints the last lines that the script of each named service wrote, behind the answer of
/// `status`, if they are asked for and a directory keeps them.
pub fn show_tails(rt: &HostRuntime, opened: &Opened<'_>, status: u8) {
    let SessionCommand::Status(request) = opened.command() else {
        return;
    };
    let Some(path) = output_of(opened.command()) else {
        return;
    };
    if status == REFUSED || status == FAILED {
        return;
    }
    let folder = OutputFolder::at(rt, path);
    for name in &request.names {
        if let Err(error) = show_tail(rt, folder, name.as_str()) {
            warn!(Messages(rt); target: MESSAGE, "{path}/{name}: {error}: it is left out");
        }
    }
}

/// Prints the last lines that the script of a service wrote, if there are any.
fn show_tail(rt: &HostRuntime, folder: OutputFolder<'_>, name: &str) -> io::Result<()> {
    let lines = folder.last_lines(name, COUNT)?;
    let text = String::from_utf8_lossy(rt.alloc(), &lines);
    drop(lines);
    let text = text?;
    let shown = if text.is_empty() {
        Ok(())
    } else {
        show_lines(rt, name, text.as_str())
    };
    drop(text);
    shown
}

/// Prints the name of a service, and lines behind it.
fn show_lines(rt: &HostRuntime, name: &str, text: &str) -> io::Result<()> {
    let mut out = rt.stdout();
    writeln!(out, "{name} wrote:")?;
    for line in text.lines() {
        writeln!(out, "  {}", Shown(&line))?;
    }
    out.flush()
}
