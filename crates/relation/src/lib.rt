// Sets of the eight relations between two regions, each set one byte: membership, intersection, converse, composition.
// Every method is total; what each answers is a definition of specs/.
#![tactic(auto)]

mod table;

ghost use Rattle.std.specs.Prelude.{◌≡◌, [], ◌∷◌, eqb};
ghost use Rattle.relation.specs.Relations.{disjoint, meet, equal, inside, covered_by, contains, covers, overlap};
ghost use Rattle.relation.specs.Sets.{has, only, empty, universal, intersect, subset, size};
ghost use Rattle.relation.specs.Converse.{converse};
ghost use Rattle.relation.specs.Composition.{compose};
ghost use Rattle.relation.specs.Lent.{listed, compose_by};

use table::COMPOSITIONS;

#[derive(Clone, Copy, PartialEq, Eq, Debug)]
pub struct RelationSet(pub u8);

// The table that composing reads: a set on the left, a single relation on the right.
pub type Compositions = [u8; 2048];

// The table, to be made once for a whole call and lent: a constant is filled anew wherever it is named.
pub fn compositions() -> Compositions
    ensures { result ≡ listed }
{
    COMPOSITIONS
}

impl RelationSet {
    pub const EMPTY: RelationSet = RelationSet(0);

    pub const DISJOINT: RelationSet = RelationSet(1);

    pub const MEET: RelationSet = RelationSet(2);

    pub const EQUAL: RelationSet = RelationSet(4);

    pub const INSIDE: RelationSet = RelationSet(8);

    pub const COVERED_BY: RelationSet = RelationSet(16);

    pub const CONTAINS: RelationSet = RelationSet(32);

    pub const COVERS: RelationSet = RelationSet(64);

    pub const OVERLAP: RelationSet = RelationSet(128);

    pub const UNIVERSAL: RelationSet = RelationSet(255);

    // The empty set, the eight relations in the order of the bits, and the universal set, as they are named above.
    pub fn named() -> [u8; 10]
        ensures { result ≡ empty ∷ only disjoint ∷ only meet ∷ only equal ∷ only inside ∷ only covered_by ∷ only contains
            ∷ only covers ∷ only overlap ∷ universal ∷ [] }
    {
        [
            RelationSet::EMPTY,
            RelationSet::DISJOINT,
            RelationSet::MEET,
            RelationSet::EQUAL,
            RelationSet::INSIDE,
            RelationSet::COVERED_BY,
            RelationSet::CONTAINS,
            RelationSet::COVERS,
            RelationSet::OVERLAP,
            RelationSet::UNIVERSAL,
        ]
        .map(|set| set.0)
    }

    // Whether the relation with this place in the order of the bits is a member. No kind of its own: `has_unique` speaks of every number.
    pub fn has(self, relation: usize) -> bool
        ensures { result ≡ has self.0 relation }
    {
        relation < 8 && (self.0 >> relation) % 2 == 1
    }

    // Whether every member of other is a member.
    pub fn contains(self, other: Self) -> bool
        ensures { result ≡ subset other.0 self.0 }
    {
        other.intersect(self) == other
    }

    pub fn intersect(self, other: Self) -> Self
        ensures { result.0 ≡ intersect self.0 other.0 }
    {
        RelationSet(self.0 & other.0)
    }

    pub fn is_empty(self) -> bool
        ensures { result ≡ eqb self.0 empty }
    {
        self == RelationSet::EMPTY
    }

    // How many members there are.
    pub fn size(self) -> u32
        ensures { result ≡ size self.0 }
    {
        self.0.count_ones()
    }

    pub fn converse(self) -> Self
        ensures { result.0 ≡ converse self.0 }
    {
        let set = self.0;
        let up = (set / 8 % 4) * 32;
        let down = (set / 32 % 4) * 8;
        RelationSet(set / 128 * 128 + up + down + set % 8)
    }

    // The composition by a table that the caller lends, in at most eight reads; by that of `compositions` it is the composition of
    // the two sets.
    #[tactic(auto, using(crate::proofs::Over::upto_laws), unfolding(crate::specs::Lent::compose_by))]
    pub fn compose_by(self, entries: &Compositions, other: Self) -> Self
        ensures { result.0 ≡ compose_by entries.now self.0 other.0 }
    {
        let from = 8 * usize::from(self.0);
        let mut union = 0;
        for relation in 0..8 {
            if other.has(relation) {
                union |= entries[from + relation];
            }
        }
        RelationSet(union)
    }

    pub fn compose(self, other: Self) -> Self
        ensures { result.0 ≡ compose self.0 other.0 }
    {
        let entries = compositions();
        self.compose_by(&entries, other)
    }
}
