//! The compiler: from definitions to a database. The module `command` has the command `compile`, of
//! source directories, and what helps where they have a fault.
#![tactic(auto)]

ghost use Rattle.std.specs.Prelude.{◌≡◌, IfOk, IfErr, OnOk, map};
ghost use Rattle.rc_source.specs.Meaning.{AreMeanings};
ghost use Rattle.rc_source.specs.Said.{meaning_of};
ghost use Rattle.rc_db.specs.Database.{IsWritable};
ghost use Rattle.rc_compile.specs.Compiled.{IsDatabaseOf};
ghost use Rattle.rc_compile.specs.CompileFaults.{HaveNoFlaw, IsCompileFault};

mod book;
mod build;
pub mod command;
mod database;
mod flaws;
mod join;
pub mod laws;
mod least;
mod members;
mod needs;
mod pipes;
mod scan;
mod services;
mod table;
mod tables;
mod tests;
mod unknown;

use crate::book::book_of;
use crate::build::build;
use crate::tests::test_all;
use rc_db::Db;
use rc_names::Name;
use rc_source::Definition;
use std::alloc::{AllocError, Global};
use std::fmt;
use thiserror::Error;

/// Why definitions make no database. The first fault in this order is reported, for the least entry
/// that has it.
#[derive(Debug, Drop, Error)]
pub enum CompileFault {
    /// There are more than 4,096 services, or more than 4,096 names of bundles and pipelines.
    TooMany,
    /// The entry has a name that stands for nothing: the entry, and the name.
    UnknownIn(Name, Name),
    /// Bundles hold one another in a circle, which begins with its least name.
    BundleCycle(Vec<Name>),
    /// The service writes to or reads from something that is not a longrun, or is not a longrun
    /// itself.
    PipelineType(Name),
    /// The service names a neighbour in a pipe that does not name it.
    PipelineMismatch(Name),
    /// The service names a pipeline by a name that is taken.
    PipelineName(Name),
    /// Services need one another in a circle, which begins with its least name.
    Cycle(Vec<Name>),
    /// There was no room for the database.
    Memory,
}

// Returns the message of a fault.
fn told_of(fault: &CompileFault) -> &'static str {
    match fault {
        CompileFault::TooMany => "too many names",
        CompileFault::UnknownIn(_, _) => "unknown name",
        CompileFault::BundleCycle(_) => "bundles hold one another in a circle",
        CompileFault::PipelineType(_) => "a pipe joins longruns alone",
        CompileFault::PipelineMismatch(_) => "a pipe is named from one side alone",
        CompileFault::PipelineName(_) => "the name of a pipeline is taken",
        CompileFault::Cycle(_) => "services need one another in a circle",
        CompileFault::Memory => "out of memory",
    }
}

impl fmt::Display for CompileFault {
    fn fmt<W: fmt::Write>(&self, f: &mut fmt::Formatter<W>) -> fmt::Result {
        f.write_str(told_of(self))
    }
}

impl From<AllocError> for CompileFault {
    ghost use Rattle.rc_compile.specs.declared.CompileFault.TheVariants.{Memory};

    ghost from_gives = { λ _ fault. fault ≡ Memory };

    fn from(_fault: AllocError) -> CompileFault {
        CompileFault::Memory
    }
}

/// Compiles definitions to a database. They are given by `read_all` or written by a caller.
#[tactic(auto, unfolding(crate::specs::CompileFaults::AreFreeBefore))]
pub fn compile(alloc: Global, definitions: &[Definition]) -> Result<Db, CompileFault>
    requires { AreMeanings (map meaning_of definitions.now) }
    ensures db { IfOk result (λ db. IsDatabaseOf (map meaning_of definitions.now) db) }
    ensures writable { IfOk result (λ db. IsWritable db) }
    ensures free { OnOk result (HaveNoFlaw (map meaning_of definitions.now)) }
    ensures fault { IfErr result (IsCompileFault (map meaning_of definitions.now)) }
{
    let book = book_of(alloc, definitions)?;
    let contents = match test_all(alloc, definitions, &book) {
        Ok(contents) => contents,
        Err(fault) => {
            drop(book);
            return Err(fault);
        }
    };
    let db = build(alloc, definitions, book, &contents);
    drop(contents);
    db
}
