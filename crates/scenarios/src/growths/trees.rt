//! Trees: calls that alter a tree, what a tree says, what is read from it, and what is compiled
//! from that.

ghost use Rattle.std.specs.Prelude.{IfOk, map};
ghost use Rattle.rc_source.specs.Meaning.{AreMeanings};
ghost use Rattle.rc_source.specs.Said.{meaning_of};

use crate::growths::devices::{Due, ended};
use crate::growths::told::{fault_of, go_on_to, show_came, show_same};
use rc_cli::compile_run;
use rc_compile::{CompileFault, compile};
use rc_db::Db;
use rc_set::NoMem;
use rc_source::{Definition, FolderTree, MemoryTree, SourceFault, Tree, TreeFault, read_all};
use rc_streams::Noted;
use std::alloc::{AllocError, AllocGlobal, Global};
use std::io;
use std::io::Print;

/// A call that alters a tree.
#[derive(Clone, Copy)]
pub enum Altering {
    /// A service directory is made.
    Folder,
    /// A file is written, of a service that has none.
    Put,
    /// A file is written in place of another.
    PutAgain,
}

/// The files of a oneshot and of the longrun that it needs.
const FILES: &str = "a/type=oneshot a/up=true a/dependencies.d/b= b/type=longrun b/run=";

/// Alters a tree in memory, and prints whether it has the files that it had.
pub fn show_tree(
    rt: &(impl Print + AllocGlobal),
    what: &str,
    altering: Altering,
) -> io::Result<()> {
    let mut tree = MemoryTree::new(rt.alloc());
    let shown = show_altered(rt, what, &mut tree, altering);
    drop(tree);
    shown
}

fn show_altered(
    rt: &(impl Print + AllocGlobal),
    what: &str,
    tree: &mut MemoryTree,
    altering: Altering,
) -> io::Result<()> {
    put_all(tree, FILES)?;
    let _ = print!(rt; "{what}: ");
    let came = altered(tree, altering);
    show_came(rt, fault_of(came))?;
    show_same(rt, has_files(rt.alloc(), tree).unwrap_or(false))
}

fn altered(tree: &mut MemoryTree, altering: Altering) -> Result<(), NoMem> {
    match altering {
        Altering::Folder => tree.folder("c"),
        Altering::Put => tree.put("c", "type", b"bundle"),
        Altering::PutAgain => tree.put("a", "up", b"false"),
    }
}

/// Returns true if a tree has both services, no third one, and the `up` file that it had.
fn has_files(alloc: Global, tree: &mut MemoryTree) -> Result<bool, TreeFault> {
    Ok(has_two(alloc, tree)? && has_up(alloc, tree)? && !tree.has(alloc, "c", "type")?)
}

/// Returns true if a tree has two entries.
fn has_two<T: Tree>(alloc: Global, tree: &mut T) -> Result<bool, TreeFault> {
    Ok(tree.entries(alloc)?.len() == 2)
}

/// Returns true if the text that runs `true` is there.
fn has_up<T: Tree>(alloc: Global, tree: &mut T) -> Result<bool, TreeFault> {
    match tree.bytes(alloc, "a", "up")? {
        Some(bytes) => Ok(bytes.as_slice() == b"true".as_slice()),
        None => Ok(false),
    }
}

/// Compiles the given files with those of both services, and prints the result.
pub(crate) fn show_compiled(
    rt: &(impl Print + AllocGlobal),
    what: &str,
    files: &str,
    written: &'static str,
    said: &'static str,
) -> io::Result<()> {
    let mut trees = [MemoryTree::new(rt.alloc())];
    let shown = show_run(rt, &mut trees, what, files, written, said);
    drop(trees);
    shown
}

fn show_run(
    rt: &(impl Print + AllocGlobal),
    trees: &mut [MemoryTree],
    what: &str,
    files: &str,
    written: &'static str,
    said: &'static str,
) -> io::Result<()> {
    for tree in &mut *trees {
        put_all(tree, FILES)?;
        put_all(tree, files)?;
    }
    let (mut writer, mut faults) = (Due::new(written), Due::new(said));
    let _ = print!(rt; "{what}: ");
    let status = compile_run(rt.alloc(), trees, &mut Noted::new(&mut writer), &mut faults);
    let due = u8::from(!said.is_empty());
    show_came(rt, ended(status, due, &writer, &faults))?;
    show_same(rt, true)
}

/// Returns true if a tree in memory says what it holds, and is compiled.
pub fn is_from_memory(rt: &(impl Print + AllocGlobal)) -> Result<bool, NoMem> {
    let mut trees = [MemoryTree::new(rt.alloc())];
    let is_right = is_filled(rt, &mut trees);
    drop(trees);
    is_right
}

fn is_filled(rt: &(impl Print + AllocGlobal), trees: &mut [MemoryTree]) -> Result<bool, NoMem> {
    for tree in &mut *trees {
        put_all(tree, FILES)?;
    }
    go_on_to(rt, "entries");
    is_read(rt, trees)
}

/// Returns true if the tree of a directory says what it holds, and is compiled.
pub fn is_from_folder(rt: &HostRuntime, path: &str) -> Result<bool, NoMem> {
    let mut trees = [FolderTree::open(rt.clone()?, rt.alloc(), path)?];
    go_on_to(rt, "entries");
    let is_right = is_read(rt, &mut trees);
    drop(trees);
    is_right
}

/// Returns true if trees say that they hold the files, and what is read from them is compiled.
fn is_read<T: Tree>(rt: &(impl Print + AllocGlobal), trees: &mut [T]) -> Result<bool, NoMem> {
    for tree in &mut *trees {
        if !is_answer(says_files(rt, tree))? {
            return Ok(false);
        }
    }
    go_on_to(rt, "read_all");
    is_compiled(rt, read_all(rt.alloc(), trees))
}

fn says_files<T: Tree>(rt: &(impl Print + AllocGlobal), tree: &mut T) -> Result<bool, TreeFault> {
    let alloc = rt.alloc();
    let has_two = has_two(alloc, tree)?;
    go_on_to(rt, "listing");
    let has_one_need = has_one_need(alloc, tree)?;
    go_on_to(rt, "bytes");
    let has_up = has_up(alloc, tree)?;
    go_on_to(rt, "has");
    Ok(has_two && has_one_need && has_up && tree.has(alloc, "b", "run")?)
}

/// Returns true if one dependency of the oneshot is listed.
fn has_one_need<T: Tree>(alloc: Global, tree: &mut T) -> Result<bool, TreeFault> {
    match tree.listing(alloc, "a", "dependencies.d")? {
        Some(names) => Ok(names.len() == 1),
        None => Ok(false),
    }
}

fn is_answer(answer: Result<bool, TreeFault>) -> Result<bool, NoMem> {
    match answer {
        Ok(is_right) => Ok(is_right),
        Err(TreeFault::Memory) => Err(AllocError),
        Err(_) => Ok(false),
    }
}

/// Returns true if the definitions of both services were read, and make a database.
fn is_compiled(
    rt: &(impl Print + AllocGlobal),
    read: Result<Vec<Definition>, SourceFault>,
) -> Result<bool, NoMem>
    requires { IfOk read (λ definitions. AreMeanings (map meaning_of definitions.items)) }
{
    let is_right = match &read {
        Ok(definitions) => {
            go_on_to(rt, "compile");
            is_of_two(compile(rt.alloc(), definitions))
        }
        Err(SourceFault::Memory) => Err(AllocError),
        Err(_) => Ok(false),
    };
    drop(read);
    is_right
}

/// Returns true if this is a database of two services, of which the first needs the second.
fn is_of_two(compiled: Result<Db, CompileFault>) -> Result<bool, NoMem> {
    let is_right = match &compiled {
        Ok(db) => Ok(db.graph().len() == 2 && db.graph().needs(0) == [1].as_slice()),
        Err(CompileFault::Memory) => Err(AllocError),
        Err(_) => Ok(false),
    };
    drop(compiled);
    is_right
}

/// Puts files into a tree.
fn put_all(tree: &mut MemoryTree, files: &str) -> Result<(), AllocError> {
    for file in files.split(' ') {
        if !file.is_empty() {
            put(tree, file)?;
        }
    }
    Ok(())
}

fn put(tree: &mut MemoryTree, file: &str) -> Result<(), AllocError> {
    match file.split_once('/') {
        Some((service, file)) => {
            let (path, text) = file.split_once('=').unwrap_or((file, ""));
            tree.put(service, path, text.as_bytes())
        }
        None => tree.folder(file),
    }
}
