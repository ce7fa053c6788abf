//! The command `compile`: source directories as the text of a database.
ghost use Rattle.std.specs.Prelude.{◌≡◌, ◌⊎◌, map, IfOk, IfErr};
ghost use Rattle.rc_source.specs.Tests.{SomeFailed};
ghost use Rattle.rc_source.specs.Meaning.{AreMeanings};
ghost use Rattle.rc_source.specs.Said.{meaning_of};
ghost use Rattle.rc_dbtext.specs.Spelling.{spelling};
ghost use Rattle.rc_compile.specs.declared.command.compile_faults.TreesFault.TheVariants.{Memory};
ghost use Rattle.rc_compile.specs.CompiledText.{IsCompiled, IsTextOf};
ghost use Rattle.rc_compile.specs.CompileRefusals.{IsDefinitionsFault, IsDeviceFault};
ghost use Rattle.rc_compile.specs.CompileRefusals.{IsTreesFault, TellsDevice, TellsRefusal};
ghost use Rattle.rc_compile.specs.CompileRefusals.{TellsWant};
ghost use Rattle.rc_streams.specs.Input.{FailsWith, WritesAll, WritesFront};
ghost use Rattle.rc_streams.specs.Noting.{HasFailed, inner_of};

use crate::command::compile_faults::{TreesFault, tell_trees};
use crate::compile;
use rc_db::Db;
use rc_dbtext::write_db;
use rc_source::{Definition, Tree, read_all};
use rc_streams::ending::write_answer;
use rc_streams::{Failure, Noted};
use std::alloc::Global;
use std::io::Write;

/// Compiles the service directories of trees, and returns the exit status.
///
/// Writes the text of their database to `writer`, or the reason why there is none to `faults`.
pub fn compile_run<T: Tree, W: Write, F: Write>(
    alloc: Global,
    trees: &mut [T],
    writer: &mut Noted<W>,
    faults: &mut F,
) -> u8
    ensures statuses { (result ≡ 0) ⊎ (result ≡ 1) ⊎ (result ≡ 111) }

    // The text of the database of what the trees' files say was written, and nothing was reported.
    ensures done { result ≡ 0 → WritesAll (IsCompiled (map T.held trees.old))
        (W.contents (inner_of writer.old)) (W.contents (inner_of writer.new)) }
    ensures untold { result ≡ 0 → F.contents faults.new ≡ F.contents faults.old }

    // The refusal is right. Its line, or a prefix of it, was reported, and nothing was written.
    ensures refused { result ≡ 1 → TellsRefusal (map T.held trees.old) (F.contents faults.old)
        (F.contents faults.new) }
    ensures unwritten { result ≡ 1 → W.contents (inner_of writer.new)
        ≡ W.contents (inner_of writer.old) }

    // A device that failed is reported with its entry, and a writer that failed as such. Otherwise
    // it is reported that memory ran out. Nothing or a prefix of the text was written.
    ensures failed { result ≡ 111 → TellsDevice (map T.held trees.old) (map T.failed trees.old)
        (map T.failed trees.new) (F.contents faults.old) (F.contents faults.new)
        ⊎ TellsWant (HasFailed writer.new) (F.contents faults.old) (F.contents faults.new) }
    ensures written { HasFailed writer.new → HasFailed writer.old
        ⊎ FailsWith Failure.Write result (F.contents faults.old) (F.contents faults.new) }
    ensures begun { result ≡ 111 → (W.contents (inner_of writer.new)
        ≡ W.contents (inner_of writer.old))
        ⊎ WritesFront (IsCompiled (map T.held trees.old)) (W.contents (inner_of writer.old))
        (W.contents (inner_of writer.new)) }

    ensures same { map T.held trees.new ≡ map T.held trees.old }
{
    match text_of(alloc, trees) {
        Ok(text) => write_answer(writer, faults, &text),
        Err(fault) => tell_trees(alloc, faults, &fault),
    }
}

/// Returns the text of the database of what the trees' files say, for a caller that has its own
/// place for it. If there is none, `tell_trees` reports why.
pub fn text_of<T: Tree>(alloc: Global, trees: &mut [T]) -> Result<Vec<u8>, TreesFault>
    ensures text { IfOk result (λ text. IsCompiled (map T.held trees.old) text.items) }
    ensures fault { IfErr result (IsTreesFault (map T.held trees.old)) }
    ensures io { IfErr result (λ fault. IsDeviceFault fault
        → SomeFailed (map T.failed trees.old) (map T.failed trees.new)) }
    ensures same { map T.held trees.new ≡ map T.held trees.old }
{
    let definitions = match read_all(alloc, trees) {
        Ok(definitions) => definitions,
        Err(fault) => return Err(TreesFault::Source(fault)),
    };
    compiled(alloc, &definitions)
}

/// Returns the text of the database of definitions.
fn compiled(alloc: Global, definitions: &[Definition]) -> Result<Vec<u8>, TreesFault>
    requires { AreMeanings (map meaning_of definitions.now) }
    ensures text { IfOk result (λ text. IsTextOf (map meaning_of definitions.now) text.items) }
    ensures fault { IfErr result (IsDefinitionsFault (map meaning_of definitions.now)) }
{
    let db = match compile(alloc, definitions) {
        Ok(db) => db,
        Err(fault) => return Err(TreesFault::Definitions(fault)),
    };
    let _names = db.names();
    let text = written(alloc, &db);
    drop(db);
    text
}

/// Returns the text of a database.
fn written(alloc: Global, db: &Db) -> Result<Vec<u8>, TreesFault>
    ensures text { IfOk result (λ text. text.items ≡ spelling db.now) }
    ensures fault { IfErr result (λ fault. fault ≡ Memory) }
{
    Ok(write_db(alloc, db)?)
}
