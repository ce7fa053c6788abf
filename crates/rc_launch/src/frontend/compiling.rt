//! `compile`: the database of source directories, on standard output or in a file.
use crate::frontend::exposure::{restrict, warn_of_links};
use crate::frontend::hints;
use rc_args::CompileRequest;
use rc_compile::command::{compile_run, tell_trees, text_of};
use rc_names::NoMem;
use rc_source::FolderTree;
use rc_streams::Noted;
use rc_streams::replaced_file::replace;
use std::fs::{self, File};
use std::io;
use std::os::unix::fs::FileExt;

/// What a database begins with.
const FRONT: &[u8] = b"undorc-db ";

/// Compiles source directories, and returns the status.
pub fn compile(rt: &HostRuntime, request: &CompileRequest<'_>) -> u8 {
    let mut trees = Vec::new(rt.alloc());
    let opened = open_all(rt, &request.sources, &mut trees);
    let status = match opened {
        Ok(()) => compile_trees(rt, request, &mut trees),
        Err(_) => hints::tell_failure(rt, "Memory"),
    };
    drop(trees);
    status
}

/// Compiles the trees of source directories, and returns the status.
fn compile_trees(
    rt: &HostRuntime,
    request: &CompileRequest<'_>,
    trees: &mut [FolderTree<HostRuntime>],
) -> u8 {
    let mut told = hints::told_errors(rt);
    let status = match request.output {
        Some(path) => compile_into(rt, request, trees, path, &mut told),
        None => compile_run(rt.alloc(), trees, &mut Noted::new(rt.stdout()), &mut told),
    };
    hints::behind_compile(rt, request, &told);
    if status == 0 && libc::geteuid() == 0 && have_links(trees) {
        let _ = warn_of_links(rt, &request.sources);
    }
    drop(told);
    status
}

/// Returns true if a link was read in one of the trees.
fn have_links(trees: &[FolderTree<HostRuntime>]) -> bool {
    trees.iter().any(|tree| tree.has_links())
}

/// Puts the database into a file, and returns the status. If there is no database, the file is left
/// alone. Nobody may read the file who may not read the sources.
fn compile_into(
    rt: &HostRuntime,
    request: &CompileRequest<'_>,
    trees: &mut [FolderTree<HostRuntime>],
    path: &str,
    told: &mut hints::ToldErrors,
) -> u8 {
    match may_replace(rt, path) {
        Ok(true) => {}
        Ok(false) => return hints::tell_not_database(rt, path),
        Err(error) => return hints::tell_file(rt, path, &error),
    }
    match text_of(rt.alloc(), trees) {
        Ok(text) => {
            let replaced = replace_restricted(rt, request, path, &text);
            drop(text);
            match replaced {
                Ok(()) => 0,
                Err(error) => hints::tell_file(rt, path, &error),
            }
        }
        Err(fault) => tell_trees(rt.alloc(), told, &fault),
    }
}

/// Returns true if a database may replace what stands at a path: a database, an empty file,
/// something that is no plain file, or nothing.
fn may_replace(rt: &HostRuntime, path: &str) -> io::Result<bool> {
    match fs::metadata(rt, path) {
        Ok(found) if found.is_file() && found.len() > 0 => begins_a_database(rt, path),
        _ => Ok(true),
    }
}

/// Returns true if a file begins as a database does.
fn begins_a_database(rt: &HostRuntime, path: &str) -> io::Result<bool> {
    let file = File::open(rt, path)?;
    let mut front = [0; FRONT.len()];
    let count = file.read_at(&mut front, 0);
    drop(file);
    Ok(count? == FRONT.len() && front.as_slice() == FRONT)
}

/// Replaces the file. Nobody may read it who may not read the sources.
fn replace_restricted(
    rt: &HostRuntime,
    request: &CompileRequest<'_>,
    path: &str,
    text: &[u8],
) -> io::Result<()> {
    let is_made = restrict(rt, &request.sources, path)?;
    let replaced = replace(rt, path, text);
    if is_made && replaced.is_err() {
        let _ = fs::remove_file(rt, path);
    }
    replaced
}

/// Adds the trees of directories. Nothing is read yet.
fn open_all(
    rt: &HostRuntime,
    paths: &[String],
    trees: &mut Vec<FolderTree<HostRuntime>>,
) -> Result<(), NoMem> {
    for path in paths {
        open_tree(rt, path.as_str(), trees)?;
    }
    Ok(())
}

/// Adds the tree of a directory.
fn open_tree(
    rt: &HostRuntime,
    path: &str,
    trees: &mut Vec<FolderTree<HostRuntime>>,
) -> Result<(), NoMem> {
    trees.push(FolderTree::open(rt.clone()?, rt.alloc(), path)?)?;
    Ok(())
}
