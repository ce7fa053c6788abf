// What a database says of each service.
ghost use Rattle.std.specs.Prelude.{◌≡◌, ◌<◌, ℕ, List, length, map, string_bytes, Contains};
ghost use Rattle.std.specs.Prelude.{Option, Some, IfOk, IfSome, slice_get, All};
ghost use Rattle.std.specs.Option.{option_map};
ghost use Rattle.rc_source.specs.Meaning.{Meaning, AreMeanings};
ghost use Rattle.rc_source.specs.Said.{meaning_of};
ghost use Rattle.rc_compile.specs.Compiled.{IsAsDefined};
ghost use Rattle.rc_compile.specs.Placed.{ArePlacesOf, AreAsDefined};

use rc_db::Service;
use rc_names::Names;
use rc_set::NoMem;
use rc_source::Definition;
use std::alloc::Global;

// Returns the service of each name of a table, as its definition describes it.
pub(crate) fn services_of(
    alloc: Global,
    definitions: &[Definition],
    names: &Names,
    places: &[usize],
) -> Result<Vec<Service>, NoMem>
    requires places { ArePlacesOf (map meaning_of definitions.now) names.now places.now }
    requires known { All (λ m. IfSome m.producer_for (Contains names.now))
        (map meaning_of definitions.now) }
    ensures { IfOk result (λ services. AreAsDefined
        (map meaning_of definitions.now) names.now services.items) }
{
    let mut services = Vec::new(alloc);
    for place in places {
        services.push(service_at(alloc, definitions, names, *place)?)?;
    }
    Ok(services)
}

// Returns the service that the definition at a place describes.
fn service_at(
    alloc: Global,
    definitions: &[Definition],
    names: &Names,
    place: usize,
) -> Result<Service, NoMem>
    requires place { place < length definitions.now }
    requires known { All (λ m. IfSome m.producer_for (Contains names.now))
        (map meaning_of definitions.now) }
    ensures { IfOk result (λ service. (m : Meaning)
        × (slice_get (map meaning_of definitions.now) place ≡ Some m)
        × IsAsDefined names.now m service) }
{
    service_of(alloc, names, &definitions[place])
}

// Returns the service that a definition describes.
fn service_of(alloc: Global, names: &Names, definition: &Definition) -> Result<Service, NoMem>
    requires { IfSome (meaning_of definition.now).producer_for (Contains names.now) }
    ensures { IfOk result (IsAsDefined names.now (meaning_of definition.now)) }
{
    let (limit_up, limit_down) = (definition.timeout_up, definition.timeout_down);
    let text_up = copy_text(alloc, &definition.up)?;
    let text_down = copy_text(alloc, &definition.down)?;
    Ok(Service {
        kind: definition.kind,
        essential: definition.essential,
        limit_up,
        limit_down,
        text_up,
        text_down,
        producer_for: producer_of(names, definition),
    })
}

// Returns the place of the service that a definition writes to, if it writes to one.
fn producer_of(names: &Names, definition: &Definition) -> Option<u16>
    requires { IfSome (meaning_of definition.now).producer_for (Contains names.now) }
    ensures { option_map (slice_get names.now) result
        ≡ option_map (λ name. Some name) (meaning_of definition.now).producer_for }
{
    match &definition.producer_for {
        Some(name) => names.find(name.text()),
        None => None,
    }
}

// Returns a copy of a text, if there is one.
fn copy_text(alloc: Global, text: &Option<String>) -> Result<Option<String>, NoMem>
    ensures { IfOk result (λ copy. option_map string_bytes copy
        ≡ option_map string_bytes text.now) }
{
    match text {
        Some(text) => Ok(Some(String::from_str(alloc, text.as_str())?)),
        None => Ok(None),
    }
}

// Returns the place of the definition of each name.
pub(crate) fn places_of(
    alloc: Global,
    definitions: &[Definition],
    names: &Names,
) -> Result<Vec<usize>, NoMem>
    requires meanings { AreMeanings (map meaning_of definitions.now) }
    requires known { (name : List ℕ) → Contains names.now name →
        (m : Meaning) × Contains (map meaning_of definitions.now) m × (m.name ≡ name) }
    ensures { IfOk result (λ places. ArePlacesOf
        (map meaning_of definitions.now) names.now places.items) }
{
    let mut places = vec![in alloc; 0; names.len() as usize]?;
    for place in 0..definitions.len() {
        if let Some(id) = names.find(definitions[place].name.text()) {
            places[id as usize] = place;
        }
    }
    Ok(places)
}
