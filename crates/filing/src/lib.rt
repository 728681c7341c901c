// Filing what was said: which place an identifier names, and statements into cells. While it is not known how many regions there
// will be, the cells stand in rows of 64. Every call is total.
#![tactic(auto)]

ghost use Rattle.std.specs.Prelude.{◌≡◌, ◌+◌, ◌*◌, ◌<◌, length, get_or, replicate, set, take};
ghost use Rattle.filing.specs.Said.{naming, statement};
ghost use Rattle.filing.specs.Places.{place_of};
ghost use Rattle.filing.specs.Areas.{holding, are_lent, started, emptied, filed_in, marked_in, packed};
ghost use Rattle.filing.specs.LentAreas.{held, SameAreas};
ghost use Rattle.filing.specs.Inner.{Rows};

use matrix::MOST_REGIONS;
use region::{Identifier, Place, lookup};
use relation::RelationSet;

// The identifiers that are lent, one for each region that there may be.
pub const LENT_IDENTIFIERS: usize = 64;

// The cells that are lent: 64 rows of 64.
pub const LENT_CELLS: usize = 4096;

// Whether the areas have these lengths; there is a mark for each cell.
#[tactic(auto, unfolding(crate::specs::Areas::are_lent))]
pub fn are_lent(identifiers: &[u32], cells: &[u8], marks: &[u16]) -> bool
    ensures { result ≡ are_lent (holding identifiers.now cells.now marks.now) }
{
    identifiers.len() == LENT_IDENTIFIERS && cells.len() == LENT_CELLS && marks.len() == LENT_CELLS
}

// The place that an identifier names among the first `count` entries. No slice: the clause, public, speaks of a count past the end too.
#[tactic(auto, using(crate::proofs::PlaceLaws::place_front))]
pub fn place_of(identifiers: &[u32], count: usize, wanted: Identifier) -> Option<Place>
    ensures { result ≡ place_of (naming (take count identifiers.now)) wanted }
{
    lookup(identifiers, count, wanted)
}

// Nothing is said yet: no identifier, every cell the one that it starts at, and no mark.
pub fn begin(identifiers: &mut [u32], cells: &mut [u8], marks: &mut [u16], start: RelationSet)
    ensures { holding identifiers.new cells.new marks.new
        ≡ started start.0 (holding identifiers.old cells.old marks.old) }
{
    identifiers.fill(0);
    matrix::fill(cells, start.0);
    marks.fill(0);
}

// All areas all 0.
pub fn clear(identifiers: &mut [u32], cells: &mut [u8], marks: &mut [u16])
    ensures { holding identifiers.new cells.new marks.new
        ≡ emptied (holding identifiers.old cells.old marks.old) }
{
    begin(identifiers, cells, marks, RelationSet::EMPTY);
}

// An entry at a place, if the area has one there. By index, since `get_mut` does not say that the area stays where it has none.
fn put<T: Copy>(area: &mut [T], at: usize, entry: T)
    ensures { area.new ≡ set area.old at entry }
{
    if at < area.len() {
        area[at] = entry;
    }
}

// A region takes a place, if the area has an entry for it.
pub fn put_region(identifiers: &mut [u32], place: Place, identifier: Identifier)
    ensures { identifiers.new ≡ set identifiers.old place.0 identifier.0 }
{
    put(identifiers, place.0, identifier.0);
}

// A statement takes the mark of its own cell, in rows of 64, where it removes a relation. The clause, public, speaks of its parts.
pub fn mark(
    cells: &[u8],
    marks: &mut [u16],
    from: Place,
    to: Place,
    stated: RelationSet,
    number: u16,
)
    ensures { marks.new ≡ marked_in cells.now marks.old (statement from to stated.0) number }
{
    let set = matrix::at(MOST_REGIONS, cells, from.0, to.0);
    let left = set.intersect(stated);
    if left != set {
        let at = from.0 * MOST_REGIONS + to.0;
        put(marks, at, number);
    }
}

// A statement is intersected into its own cell, in rows of 64. The clause, public, speaks of its parts.
pub fn file(cells: &mut [u8], from: Place, to: Place, stated: RelationSet)
    ensures { cells.new ≡ filed_in cells.old (statement from to stated.0) }
{
    matrix::narrow(MOST_REGIONS, cells, from.0, to.0, stated);
}

// What belongs at a place once the rows have n entries: the entry that stands there then, and padding past the last.
#[tactic(auto, using(crate::proofs::Packing::packed_read, crate::proofs::Packing::packed_past))]
fn packed_entry<T: Copy>(entries: &[T], n: usize, at: usize, padding: T) -> T
    requires { Rows entries.now n }
    ensures { result ≡ get_or (packed padding n entries.now) at padding }
{
    if n * n <= at {
        return padding;
    }
    let row = at / n;
    let column = at % n;
    let source = row * MOST_REGIONS + column;
    entries[source]
}

// In place. No entry moves towards the end, so none is lost.
#[tactic(auto, using(crate::proofs::Packing::packing_more))]
fn pack_rows<T: Copy>(entries: &mut [T], n: usize, padding: T)
    requires { Rows entries.old n }
    ensures { entries.new ≡ packed padding n entries.old }
{
    for at in 0..entries.len() {
        entries[at] = packed_entry(entries, n, at, padding);
    }
}

// Rows of 64 cells or marks into n rows of n, and padding behind them; entries that are not such rows are left as they were.
#[tactic(auto, unfolding(crate::specs::Areas::packed))]
pub fn pack<T: Copy>(entries: &mut [T], n: usize, padding: T)
    ensures { entries.new ≡ packed padding n entries.old }
{
    if entries.len() == LENT_CELLS && n <= MOST_REGIONS {
        pack_rows(entries, n, padding);
    }
}

// The areas that a caller lends: identifiers by place, cells, and a mark for each cell. They stay the caller's.
#[derive(Drop)]
pub struct LentAreas<'a> {
    pub identifiers: &'a mut [u32],
    pub cells: &'a mut [u8],
    pub marks: &'a mut [u16],
}

impl LentAreas<'_> {
    // Whether the areas have the right lengths.
    pub fn are_lent(&self) -> bool
        ensures { result ≡ are_lent (held self.now) }
    {
        are_lent(self.identifiers, self.cells, self.marks)
    }

    // The identifiers by place, to look at.
    pub fn identifiers(&self) -> &[u32]
        ensures { result.now ≡ self.now.identifiers.now }
    {
        &*self.identifiers
    }

    // Nothing is said yet.
    pub fn begin(&mut self, start: RelationSet)
        ensures same { SameAreas self.old self.new }
        ensures said { held self.new ≡ started start.0 (held self.old) }
    {
        begin(self.identifiers, self.cells, self.marks, start);
    }

    // All areas all 0.
    pub fn clear(&mut self)
        ensures same { SameAreas self.old self.new }
        ensures said { held self.new ≡ emptied (held self.old) }
    {
        clear(self.identifiers, self.cells, self.marks);
    }

    // A region takes a place.
    pub fn put_region(&mut self, place: Place, identifier: Identifier)
        ensures same { SameAreas self.old self.new }
        ensures said { held self.new ≡ holding (set self.old.identifiers.now place.0 identifier.0)
            self.old.cells.now self.old.marks.now }
    {
        put_region(self.identifiers, place, identifier);
    }

    // A statement takes the mark of its own cell.
    pub fn mark(&mut self, from: Place, to: Place, stated: RelationSet, number: u16)
        ensures same { SameAreas self.old self.new }
        ensures said { held self.new ≡ holding self.old.identifiers.now self.old.cells.now
            (marked_in self.old.cells.now self.old.marks.now (statement from to stated.0) number) }
    {
        let cells = &mut *self.cells;
        mark(cells, self.marks, from, to, stated, number);
    }

    // A statement is intersected into its own cell.
    pub fn file(&mut self, from: Place, to: Place, stated: RelationSet)
        ensures same { SameAreas self.old self.new }
        ensures said { held self.new ≡ holding self.old.identifiers.now
            (filed_in self.old.cells.now (statement from to stated.0)) self.old.marks.now }
    {
        file(self.cells, from, to, stated);
    }
}
