//! Laws of the definitions.

ghost use Rattle.std.specs.Prelude.{◌≡◌, ℕ, List, Contains};
ghost use Rattle.rc_source.specs.Meaning.{Meaning};
ghost use Rattle.rc_model.specs.Database.{Database, IsDatabase};
ghost use Rattle.rc_compile.specs.declared.CompileFault.{CompileFault};
ghost use Rattle.rc_compile.specs.Along.{IsShownCycle};
ghost use Rattle.rc_compile.specs.Pipelines.{IsDefined, IsService, IsLongrun, WritesTo};
ghost use Rattle.rc_compile.specs.Pipelines.{InPipelineOf};
ghost use Rattle.rc_compile.specs.Standing.{HoldsName, StandsFor, NeedsNamed};
ghost use Rattle.rc_compile.specs.Compiled.{IsDatabaseOf};
ghost use Rattle.rc_compile.specs.CompileFaults.{HaveNoFlaw, IsCompileFault};

/// Definitions without a flaw are refused only if memory runs out.
pub fn what_compiles_is_not_refused()
    ensures { (ms : List Meaning) (fault : CompileFault) → HaveNoFlaw ms → IsCompileFault ms fault →
        fault ≡ CompileFault.Memory }
{}

/// A bundle stands for what the bundles in it stand for. A service that needs a bundle needs all of
/// that.
pub fn needs_go_through_bundles()
    ensures bundles { (ms : List Meaning) (name inner s : List ℕ) → HoldsName ms name inner →
        StandsFor ms inner s → StandsFor ms name s }
    ensures needs { (ms : List Meaning) (s name t : List ℕ) → IsService ms s →
        IsDefined ms (λ m. Contains m.dependencies name) s → StandsFor ms name t →
        NeedsNamed ms s t }
{}

/// A longrun that writes to a service of a pipeline is in the pipeline too.
pub fn pipelines_reach_back()
    ensures { (ms : List Meaning) (s p q : List ℕ) → IsLongrun ms p → WritesTo ms p q →
        InPipelineOf ms s q → InPipelineOf ms s p }
{}

/// Definitions with a database have no cycle to show.
pub fn compiled_definitions_have_no_cycle()
    ensures { (ms : List Meaning) (d : Database) (names : List (List ℕ)) → IsDatabaseOf ms d →
        IsDatabase d → IsShownCycle (NeedsNamed ms) names → ⊥ }
{}

/// Definitions have at most one database.
pub fn databases_of_definitions_are_one()
    ensures { (ms : List Meaning) (d e : Database) → IsDatabase d → IsDatabase e →
        IsDatabaseOf ms d → IsDatabaseOf ms e → d ≡ e }
{}
