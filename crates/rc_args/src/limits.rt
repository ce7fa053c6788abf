//! Numbers of milliseconds among the words, that of a state, and that of a generation.
ghost use Rattle.std.specs.Prelude.{◌≢◌, ℕ, Option, option_map, IfErr, IfNone, IfOk, IfSome};
ghost use Rattle.rc_args.specs.Limits.{IsGenerationIn, IsLimitIn, IsRunLimitIn, IsStateIn};
ghost use Rattle.rc_args.specs.Limits.{SpellsLimit};
ghost use Rattle.rc_args.specs.declared.asked.WordsFault.TheVariants.{Memory};

use crate::asked::WordsFault;

/// Parses the limit of a run. Returns the greatest limit if none is given, and `None` if the text
/// is no limit.
pub(crate) fn run_limit_of(given: Option<&str>) -> Option<u32>
    ensures some { IfSome result (λ limit.
        IsRunLimitIn (option_map (λ text. text.now) given.entry) limit) }
    ensures none { IfNone result ((limit : ℕ) →
        IsRunLimitIn (option_map (λ text. text.now) given.entry) limit → ⊥) }
{
    match given {
        None => Some(u32::MAX),
        Some(text) => number_of(text),
    }
}

/// Parses a limit. Returns 0, which means no limit, if none is given, and `None` if the text is no
/// limit.
pub(crate) fn limit_of(given: Option<&str>) -> Option<u32>
    ensures some { IfSome result (λ limit.
        IsLimitIn (option_map (λ text. text.now) given.entry) limit) }
    ensures none { IfNone result ((limit : ℕ) →
        IsLimitIn (option_map (λ text. text.now) given.entry) limit → ⊥) }
{
    match given {
        Some(text) => number_of(text),
        None => Some(0),
    }
}

/// Parses the state to which an undo goes back, if one is given. Fails if the text is no number, or
/// if what would move is only to be shown.
pub(crate) fn state_of(given: Option<&str>, is_dry: bool) -> Result<Option<u32>, WordsFault>
    ensures asked { IfOk result (IsStateIn (option_map (λ text. text.now) given.entry) is_dry) }
    ensures wrong { IfErr result (λ fault. fault ≢ Memory → (to : Option ℕ) →
        IsStateIn (option_map (λ text. text.now) given.entry) is_dry to → ⊥) }
{
    let Some(text) = given else {
        return Ok(None);
    };
    if is_dry {
        return Err(WordsFault::Shown);
    }
    match number_of(text) {
        Some(state) => Ok(Some(state)),
        None => Err(WordsFault::State),
    }
}

/// Parses the generation of a history, if one is given. Fails if the file of the history is not
/// given, or if the text is no number.
pub(crate) fn generation_of(
    given: Option<&str>,
    live: Option<&str>,
) -> Result<Option<u32>, WordsFault>
    ensures asked { IfOk result (IsGenerationIn (option_map (λ text. text.now) given.entry)
        (option_map (λ text. text.now) live.entry)) }
    ensures wrong { IfErr result (λ fault. (generation : Option ℕ) →
        IsGenerationIn (option_map (λ text. text.now) given.entry)
        (option_map (λ text. text.now) live.entry) generation → ⊥) }
{
    let Some(text) = given else {
        return Ok(None);
    };
    if live.is_none() {
        return Err(WordsFault::Live);
    }
    match number_of(text) {
        Some(place) => Ok(Some(place)),
        None => Err(WordsFault::Generation),
    }
}

// Returns the number that a text spells, or `None` if it spells none.
fn number_of(text: &str) -> Option<u32>
    ensures some { IfSome result (λ limit. SpellsLimit text.now limit) }
    ensures none { IfNone result ((limit : ℕ) → SpellsLimit text.now limit → ⊥) }
{
    text.parse::<u32>().ok()
}
