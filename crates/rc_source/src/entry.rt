// What the files of an entry say, read in the order of their tests.
ghost use Rattle.std.specs.Prelude.{◌≡◌, ◌≢◌, ◌∷◌, [], false, All, Contains, IfOk, IfErr};
ghost use Rattle.std.specs.Prelude.{OnOk, Some, None, codes, option_map, string_bytes};
ghost use Rattle.rc_model.specs.Names.{IsName};
ghost use Rattle.rc_model.specs.declared.Kind.TheVariants.{Oneshot, Longrun, Bundle};
ghost use Rattle.rc_source.specs.Tree.{Source, file_at};
ghost use Rattle.rc_source.specs.Asked.{IsAsked};
ghost use Rattle.rc_source.specs.Kinds.{Names, NameEach, limit_files, pipe_files, files_of_atomic};
ghost use Rattle.rc_source.specs.Kinds.{files_of_kind, kind_of};
ghost use Rattle.rc_source.specs.Files.{FilePasses, StopsAtFile, FilesPass, StopsInFiles};
ghost use Rattle.rc_source.specs.Tests.{files_of_entry};
ghost use Rattle.rc_source.specs.Meaning.{ListsNames, Means, IsMeaning, given_in};
ghost use Rattle.rc_source.specs.Said.{meaning_of, IsNamedIn, SayLimits, AreLimits, SayPipes};
ghost use Rattle.rc_source.specs.Said.{ArePipes, SayService, IsSaid};

use crate::definition::Definition;
use crate::fault::Flaw;
use crate::tree::Tree;
use crate::{file, folder, sets};
use rc_names::{Kind, Name};
use std::alloc::Global;
use std::collections::BTreeSet;

// The limits of a service, in milliseconds, 0 for none.
#[derive(Clone, Copy)]
pub(crate) struct Limits {
    pub(crate) up: u32,
    pub(crate) down: u32,
}

// What a service says of the pipeline that it is in.
#[derive(Drop)]
pub(crate) struct Pipes {
    pub(crate) producer_for: Option<Name>,
    pub(crate) consumer_for: Vec<Name>,
    pub(crate) pipeline_name: Option<Name>,
}

// The content of the files that services of both kinds have.
#[derive(Drop)]
pub(crate) struct Service {
    pub(crate) limits: Limits,
    pub(crate) essential: bool,
    pub(crate) dependencies: Vec<Name>,
    pub(crate) pipes: Pipes,
}

// Reads the limits of an entry.
fn limits_at<T: Tree>(alloc: Global, tree: &mut T, entry: &str) -> Result<Limits, Flaw>
    ensures says { IfOk result (λ limits.
        (source : Source) → T.held tree.old ≡ Some source → SayLimits source entry.now limits) }
    ensures limits { IfOk result AreLimits }
    ensures passes { OnOk result ((source : Source) → T.held tree.old ≡ Some source →
        FilesPass source entry.now limit_files) }
    ensures fault { IfErr result (λ flaw.
        flaw ≢ Flaw.Memory → (source : Source) → T.held tree.old ≡ Some source →
        StopsInFiles source entry.now limit_files flaw) }
    ensures asked { IsAsked result (T.held tree.old) (T.held tree.new)
        (T.failed tree.old) (T.failed tree.new) }
{
    let up = file::limit_at(alloc, tree, entry, "timeout-up")?;
    let down = file::limit_at(alloc, tree, entry, "timeout-down")?;
    Ok(Limits { up, down })
}

// Reads the names in a file and in the folder beside it. Returns each once, in byte order.
fn joined_at<T: Tree>(
    alloc: Global,
    tree: &mut T,
    entry: &str,
    file: &str,
    folder: &str,
) -> Result<Vec<Name>, Flaw>
    ensures names { IfOk result (λ names.
        (source : Source) → T.held tree.old ≡ Some source →
        ListsNames (IsNamedIn source entry.now file.now folder.now) names.items) }
    ensures each { IfOk result (λ names. All IsName names.items) }
    ensures passes { OnOk result ((source : Source) → T.held tree.old ≡ Some source →
        FilesPass source entry.now ((file.now, Names) ∷ (folder.now, NameEach) ∷ [])) }
    ensures fault { IfErr result (λ flaw.
        flaw ≢ Flaw.Memory → (source : Source) → T.held tree.old ≡ Some source →
        StopsInFiles source entry.now ((file.now, Names) ∷ (folder.now, NameEach) ∷ []) flaw) }
    ensures asked { IsAsked result (T.held tree.old) (T.held tree.new)
        (T.failed tree.old) (T.failed tree.new) }
{
    let mut set = BTreeSet::new(alloc);
    file::add_names_at(alloc, tree, entry, file, &mut set)?;
    folder::add_folder_at(alloc, tree, entry, folder, &mut set)?;
    Ok(sets::names(alloc, &set)?)
}

// Reads the names of the longruns whose output an entry reads. Returns each once, in byte order.
fn consumer_for_at<T: Tree>(alloc: Global, tree: &mut T, entry: &str) -> Result<Vec<Name>, Flaw>
    ensures names { IfOk result (λ names.
        (source : Source) → T.held tree.old ≡ Some source →
        ListsNames (Contains (given_in (file_at source entry.now
        (codes "consumer-for")))) names.items) }
    ensures each { IfOk result (λ names. All IsName names.items) }
    ensures passes { OnOk result ((source : Source) → T.held tree.old ≡ Some source →
        FilePasses source entry.now (codes "consumer-for", Names)) }
    ensures fault { IfErr result (λ flaw.
        flaw ≢ Flaw.Memory → (source : Source) → T.held tree.old ≡ Some source →
        StopsAtFile source entry.now (codes "consumer-for", Names) flaw) }
    ensures asked { IsAsked result (T.held tree.old) (T.held tree.new)
        (T.failed tree.old) (T.failed tree.new) }
{
    let mut set = BTreeSet::new(alloc);
    file::add_names_at(alloc, tree, entry, "consumer-for", &mut set)?;
    Ok(sets::names(alloc, &set)?)
}

// Reads what an entry says of the pipeline that it is in.
fn pipes_at<T: Tree>(alloc: Global, tree: &mut T, entry: &str) -> Result<Pipes, Flaw>
    ensures says { IfOk result (λ pipes.
        (source : Source) → T.held tree.old ≡ Some source → SayPipes source entry.now pipes) }
    ensures pipes { IfOk result ArePipes }
    ensures passes { OnOk result ((source : Source) → T.held tree.old ≡ Some source →
        FilesPass source entry.now pipe_files) }
    ensures fault { IfErr result (λ flaw.
        flaw ≢ Flaw.Memory → (source : Source) → T.held tree.old ≡ Some source →
        StopsInFiles source entry.now pipe_files flaw) }
    ensures asked { IsAsked result (T.held tree.old) (T.held tree.new)
        (T.failed tree.old) (T.failed tree.new) }
{
    let producer_for = file::one_name_at(alloc, tree, entry, "producer-for")?;
    let consumer_for = consumer_for_at(alloc, tree, entry)?;
    let pipeline_name = file::one_name_at(alloc, tree, entry, "pipeline-name")?;
    Ok(Pipes {
        producer_for,
        consumer_for,
        pipeline_name,
    })
}

// Reads the files of an entry that services of both kinds have.
fn service_at<T: Tree>(alloc: Global, tree: &mut T, entry: &str) -> Result<Service, Flaw>
    ensures says { IfOk result (λ service.
        (source : Source) → T.held tree.old ≡ Some source → SayService source entry.now service) }
    ensures service { IfOk result IsSaid }
    ensures passes { OnOk result ((source : Source) → T.held tree.old ≡ Some source →
        FilesPass source entry.now files_of_atomic) }
    ensures fault { IfErr result (λ flaw.
        flaw ≢ Flaw.Memory → (source : Source) → T.held tree.old ≡ Some source →
        StopsInFiles source entry.now files_of_atomic flaw) }
    ensures asked { IsAsked result (T.held tree.old) (T.held tree.new)
        (T.failed tree.old) (T.failed tree.new) }
{
    let limits = limits_at(alloc, tree, entry)?;
    let essential = file::flag_at(alloc, tree, entry)?;
    let dependencies = joined_at(alloc, tree, entry, "dependencies", "dependencies.d")?;
    let pipes = pipes_at(alloc, tree, entry)?;
    Ok(Service {
        limits,
        essential,
        dependencies,
        pipes,
    })
}

// Creates the definition of a service from its texts and from what both kinds have.
fn definition_of(
    alloc: Global,
    name: Name,
    kind: Kind,
    texts: (Option<String>, Option<String>),
    service: Service,
) -> Definition
    ensures { meaning_of result ≡ record {
      name = name;
      kind = kind;
      limit_up = service.limits.up;
      limit_down = service.limits.down;
      essential = service.essential;
      up = option_map string_bytes texts.0;
      down = option_map string_bytes texts.1;
      producer_for = service.pipes.producer_for;
      pipeline_name = service.pipes.pipeline_name;
      dependencies = service.dependencies.items;
      consumer_for = service.pipes.consumer_for.items;
      contents = [];
    } }
{
    let (up, down) = texts;
    let Service {
        limits,
        essential,
        dependencies,
        pipes,
    } = service;
    let Pipes {
        producer_for,
        consumer_for,
        pipeline_name,
    } = pipes;
    Definition {
        name,
        kind,
        timeout_up: limits.up,
        timeout_down: limits.down,
        essential,
        up,
        down,
        producer_for,
        pipeline_name,
        dependencies,
        consumer_for,
        contents: Vec::new(alloc),
    }
}

// Creates the definition of a bundle.
fn bundle_of(alloc: Global, name: Name, contents: Vec<Name>) -> Definition
    ensures { meaning_of result ≡ record {
      name = name;
      kind = Bundle;
      limit_up = 0;
      limit_down = 0;
      essential = false;
      up = None;
      down = None;
      producer_for = None;
      pipeline_name = None;
      dependencies = [];
      consumer_for = [];
      contents = contents.items;
    } }
{
    Definition {
        name,
        kind: Kind::Bundle,
        timeout_up: 0,
        timeout_down: 0,
        essential: false,
        up: None,
        down: None,
        producer_for: None,
        pipeline_name: None,
        dependencies: Vec::new(alloc),
        consumer_for: Vec::new(alloc),
        contents,
    }
}

// Reads the definition that the files of a oneshot give.
fn oneshot_at<T: Tree>(alloc: Global, tree: &mut T, name: Name) -> Result<Definition, Flaw>
    ensures says { IfOk result (λ d. (source : Source) → T.held tree.old ≡ Some source →
        kind_of source name ≡ Some Oneshot → Means source name (meaning_of d)) }
    ensures meaning { IfOk result (λ d. IsMeaning (meaning_of d)) }
    ensures named { IfOk result (λ d. d.name ≡ name) }
    ensures passes { OnOk result ((source : Source) → T.held tree.old ≡ Some source →
        FilesPass source name (files_of_kind Oneshot)) }
    ensures fault { IfErr result (λ flaw.
        flaw ≢ Flaw.Memory → (source : Source) → T.held tree.old ≡ Some source →
        StopsInFiles source name (files_of_kind Oneshot) flaw) }
    ensures asked { IsAsked result (T.held tree.old) (T.held tree.new)
        (T.failed tree.old) (T.failed tree.new) }
{
    let up = file::up_at(alloc, tree, name.text())?;
    let down = file::down_at(alloc, tree, name.text())?;
    let service = service_at(alloc, tree, name.text())?;
    Ok(definition_of(alloc, name, Kind::Oneshot, (Some(up), down), service))
}

// Reads the definition that the files of a longrun give.
fn longrun_at<T: Tree>(alloc: Global, tree: &mut T, name: Name) -> Result<Definition, Flaw>
    ensures says { IfOk result (λ d. (source : Source) → T.held tree.old ≡ Some source →
        kind_of source name ≡ Some Longrun → Means source name (meaning_of d)) }
    ensures meaning { IfOk result (λ d. IsMeaning (meaning_of d)) }
    ensures named { IfOk result (λ d. d.name ≡ name) }
    ensures passes { OnOk result ((source : Source) → T.held tree.old ≡ Some source →
        FilesPass source name (files_of_kind Longrun)) }
    ensures fault { IfErr result (λ flaw.
        flaw ≢ Flaw.Memory → (source : Source) → T.held tree.old ≡ Some source →
        StopsInFiles source name (files_of_kind Longrun) flaw) }
    ensures asked { IsAsked result (T.held tree.old) (T.held tree.new)
        (T.failed tree.old) (T.failed tree.new) }
{
    file::test_run(alloc, tree, name.text())?;
    let service = service_at(alloc, tree, name.text())?;
    Ok(definition_of(alloc, name, Kind::Longrun, (None, None), service))
}

// Reads the definition that the files of a bundle give.
fn bundle_at<T: Tree>(alloc: Global, tree: &mut T, name: Name) -> Result<Definition, Flaw>
    ensures says { IfOk result (λ d. (source : Source) → T.held tree.old ≡ Some source →
        kind_of source name ≡ Some Bundle → Means source name (meaning_of d)) }
    ensures meaning { IfOk result (λ d. IsMeaning (meaning_of d)) }
    ensures named { IfOk result (λ d. d.name ≡ name) }
    ensures passes { OnOk result ((source : Source) → T.held tree.old ≡ Some source →
        FilesPass source name (files_of_kind Bundle)) }
    ensures fault { IfErr result (λ flaw.
        flaw ≢ Flaw.Memory → (source : Source) → T.held tree.old ≡ Some source →
        StopsInFiles source name (files_of_kind Bundle) flaw) }
    ensures asked { IsAsked result (T.held tree.old) (T.held tree.new)
        (T.failed tree.old) (T.failed tree.new) }
{
    let contents = joined_at(alloc, tree, name.text(), "contents", "contents.d")?;
    Ok(bundle_of(alloc, name, contents))
}

// Reads the definition that the files of an entry give.
pub(crate) fn definition_at<T: Tree>(
    alloc: Global,
    tree: &mut T,
    name: Name,
) -> Result<Definition, Flaw>
    ensures says { IfOk result (λ d. (source : Source) → T.held tree.old ≡ Some source →
        Means source name (meaning_of d)) }
    ensures meaning { IfOk result (λ d. IsMeaning (meaning_of d)) }
    ensures named { IfOk result (λ d. d.name ≡ name) }
    ensures passes { OnOk result ((source : Source) → T.held tree.old ≡ Some source →
        FilesPass source name (files_of_entry source name)) }
    ensures fault { IfErr result (λ flaw.
        flaw ≢ Flaw.Memory → (source : Source) → T.held tree.old ≡ Some source →
        StopsInFiles source name (files_of_entry source name) flaw) }
    ensures asked { IsAsked result (T.held tree.old) (T.held tree.new)
        (T.failed tree.old) (T.failed tree.new) }
{
    let kind = file::kind_at(alloc, tree, name.text())?;
    match kind {
        Kind::Oneshot => oneshot_at(alloc, tree, name),
        Kind::Longrun => longrun_at(alloc, tree, name),
        Kind::Bundle => bundle_at(alloc, tree, name),
    }
}
