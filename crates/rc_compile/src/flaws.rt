// What each entry is tested for: the flaws, their order, the tests, and the faults that report
// them.
ghost use Rattle.std.specs.Prelude.{◌≡◌, ◌↔◌, map, Contains, IsTrue};
ghost use Rattle.rc_source.specs.Meaning.{AreMeanings};
ghost use Rattle.rc_source.specs.Said.{meaning_of};
ghost use Rattle.rc_compile.specs.Book.{IsBook};
ghost use Rattle.rc_compile.specs.CompileFaults.{HasFlaw, entry_fault, entry_flaws};

use crate::CompileFault;
use crate::book::Book;
use crate::pipes::{has_taken_name, is_unmatched, joins_other};
use rc_names::Name;
use rc_source::Definition;

// What is wrong with an entry. The first flaw in this order is reported, for the least entry that
// has it.
#[derive(Clone, Copy)]
pub(crate) enum EntryFlaw {
    PipelineType,
    PipelineMismatch,
    PipelineName,
}

impl EntryFlaw {
    // Returns the fault that reports the flaw of an entry.
    pub(crate) fn of(self, entry: Name) -> CompileFault
        ensures { result ≡ entry_fault self entry }
    {
        match self {
            EntryFlaw::PipelineType => CompileFault::PipelineType(entry),
            EntryFlaw::PipelineMismatch => CompileFault::PipelineMismatch(entry),
            EntryFlaw::PipelineName => CompileFault::PipelineName(entry),
        }
    }
}

// Returns the flaws in the order of their tests.
pub(crate) fn entry_flaws() -> &'static [EntryFlaw]
    ensures { result.now ≡ entry_flaws }
{
    &[
        EntryFlaw::PipelineType,
        EntryFlaw::PipelineMismatch,
        EntryFlaw::PipelineName,
    ]
}

// Returns true if an entry has a flaw.
pub(crate) fn has_flaw(
    definitions: &[Definition],
    book: &Book,
    definition: &Definition,
    flaw: EntryFlaw,
) -> bool
    requires meanings { AreMeanings (map meaning_of definitions.now) }
    requires book { IsBook (map meaning_of definitions.now) book.now }
    requires within { Contains (map meaning_of definitions.now) (meaning_of definition.now) }
    ensures { IsTrue result ↔ HasFlaw (map meaning_of definitions.now) flaw definition.now.name }
{
    match flaw {
        EntryFlaw::PipelineType => joins_other(&book.services, &book.longruns, definition),
        EntryFlaw::PipelineMismatch => {
            is_unmatched(&book.services, &book.feeds, &book.matched, definition)
        }
        EntryFlaw::PipelineName => {
            has_taken_name(&book.services, &book.bundles, &book.shared, definition)
        }
    }
}
