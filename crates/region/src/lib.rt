// Regions by identifier and by place. An identifier is the number that a scene's author gives a region; a place is the
// region's row and column in the matrix. They are types of their own: `lookup` is the only passage from an identifier to a place,
// and `identifier_at` the only way back.
#![tactic(auto)]

ghost use Rattle.std.specs.Prelude.{◌≡◌};
ghost use Rattle.region.specs.Lookup.{lookup_of};
ghost use Rattle.region.specs.Named.{identifier_at};

#[derive(Clone, Copy, PartialEq, Eq, Debug)]
pub struct Identifier(pub u32);

#[derive(Clone, Copy, PartialEq, Eq, Debug)]
pub struct Place(pub usize);

// The place of the first of `count` entries that holds it. No slice for both: the clause, public, speaks of a count past the end too.
#[tactic(auto, unfolding(crate::specs::Lookup::lookup_of))]
pub fn lookup(identifiers: &[u32], count: usize, wanted: Identifier) -> Option<Place>
    ensures { result ≡ lookup_of identifiers.now count wanted }
{
    // A part of them, so that there is one bound: where that is a constant, several entries are compared at once.
    identifiers[..count.min(identifiers.len())]
        .iter()
        .position(|entry| *entry == wanted.0)
        .map(Place)
}

// The region's identifier; 0, which none has, past the last: no Option, by the clause on `result.0`, and a call that cannot fail must not.
pub fn identifier_at(identifiers: &[u32], place: Place) -> Identifier
    ensures { result.0 ≡ identifier_at identifiers.now place }
{
    identifiers
        .get(place.0)
        .map_or(Identifier(0), |entry| Identifier(*entry))
}
