//! Laws of the tests and of the meanings, each the contract of a function that does nothing.
ghost use Rattle.std.specs.Prelude.{◌≡◌, ◌≢◌, ℕ, List, [], ◌∷◌, ◌++◌, Some, None, codes};
ghost use Rattle.rc_model.specs.declared.Kind.TheVariants.{Oneshot};
ghost use Rattle.rc_source.specs.declared.fault.Flaw.{Flaw};
ghost use Rattle.rc_source.specs.declared.fault.Flaw.TheVariants.{Io};
ghost use Rattle.rc_source.specs.Tree.{Source, names_next};
ghost use Rattle.rc_source.specs.Texts.{without_newline, kind_of_word, names_in};
ghost use Rattle.rc_source.specs.Meaning.{Meaning, Means, limit_in};
ghost use Rattle.rc_source.specs.Tests.{Test, AllPass, StopsInTests, entries_of};

/// If all tests pass, only a device that fails keeps trees from being read.
pub fn sound_sources_are_refused_by_devices_alone()
    ensures { (tests : List Test) (flaw : Flaw) (name : List ℕ) → AllPass tests →
        StopsInTests tests flaw name → flaw ≡ Io }
{}

/// Files are refused for one flaw of one entry, whatever a device does.
pub fn refusals_are_one()
    ensures { (tests : List Test) (a b : Flaw) (x y : List ℕ) → StopsInTests tests a x →
        StopsInTests tests b y → a ≢ Io → b ≢ Io → (a ≡ b) × (x ≡ y) }
{}

/// An entry means one thing.
pub fn meanings_are_one()
    ensures { (source : Source) (entry : List ℕ) (a b : Meaning) → Means source entry a →
        Means source entry b → a ≡ b }
{}

/// States the meaning of some texts.
pub fn texts_say_so()
    ensures kind { kind_of_word (without_newline (codes "oneshot" ++ 10 ∷ [])) ≡ Some Oneshot }
    ensures kind_once { kind_of_word (without_newline (codes "oneshot" ++ 10 ∷ 10 ∷ [])) ≡ None }
    ensures names { names_in (codes " a  " ++ 10 ∷ 10 ∷ codes "# b" ++ 10 ∷ codes "  #c" ++ 10 ∷ 9
        ∷ codes "d e") ≡ codes "a" ∷ codes "d e" ∷ [] }
    ensures limit { limit_in (Some (codes "0010" ++ 10 ∷ [])) ≡ 10 }
    ensures folder { (entries : List (List ℕ)) →
        names_next (record { entries = entries; files = (codes "a/dependencies.d/db", []) ∷ [] })
        (codes "a") (codes "dependencies.d") ≡ codes "db" ∷ [] }
    ensures entries { (files : List (List ℕ × List ℕ)) →
        entries_of (record { entries = codes ".git" ∷ codes "b" ∷ []; files = files }) ≡ codes "b"
        ∷ [] }
{}
