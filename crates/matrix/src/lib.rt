// Matrices of relation sets as lists of cells, row by row: definitions, their laws, and what every layer does to cells alike.
#![tactic(auto)]

ghost use Rattle.std.specs.Prelude.{◌≡◌, ◌==◌, not, length, replicate, position, zip};
ghost use Rattle.relation.specs.Sets.{empty};
ghost use Rattle.matrix.specs.Square.{in_range};
ghost use Rattle.matrix.specs.Cells.{cell_or_empty, narrowed_cells};
ghost use Rattle.matrix.specs.Inner.{cell_place};

use relation::RelationSet;

// The most regions of a matrix.
pub const MOST_REGIONS: usize = 64;

// Whether the number of regions is from 1 to 64.
#[tactic(auto, using(std::proofs::lemmas::Bool::Decides::nat_tests), unfolding(crate::specs::Square::in_range))]
pub fn in_range(n: usize) -> bool
    ensures { result ≡ in_range n }
{
    (1..=MOST_REGIONS).contains(&n)
}

// The place of cell (i, j) in rows of a length, if there is such a cell. No struct of the three: the clauses, public, of `at` and `narrow`.
#[tactic(auto, using(std::proofs::lemmas::Bool::Decides::nat_tests))]
fn cell_place(width: usize, i: usize, j: usize) -> Option<usize>
    ensures { result ≡ cell_place width i j }
{
    if width <= MOST_REGIONS && i < width && j < width {
        Some(i * width + j)
    } else {
        None
    }
}

// Cell (i, j) in rows of a length; the empty set where there is no such cell.
#[tactic(auto, using(std::proofs::lemmas::Bool::Decides::nat_tests), unfolding(crate::specs::Cells::cell_or_empty))]
pub fn at(width: usize, cells: &[u8], i: usize, j: usize) -> RelationSet
    ensures { result.0 ≡ cell_or_empty width cells.now i j }
{
    match cell_place(width, i, j).and_then(|place| cells.get(place)) {
        Some(cell) => RelationSet(*cell),
        None => RelationSet::EMPTY,
    }
}

// A set is intersected into cell (i, j) in rows of a length, if there is such a cell.
#[tactic(auto, using(std::proofs::lemmas::Bool::Decides::nat_tests), unfolding(crate::specs::Cells::narrowed_cells))]
pub fn narrow(width: usize, cells: &mut [u8], i: usize, j: usize, set: RelationSet)
    ensures { cells.new ≡ narrowed_cells width cells.old i j set.0 }
{
    if let Some(place) = cell_place(width, i, j)
        && place < cells.len()
    {
        cells[place] = RelationSet(cells[place]).intersect(set).0;
    }
}

// Every cell becomes the same entry. The library's method under a name of its own: `fill_unique` keeps the function.
pub fn fill(cells: &mut [u8], entry: u8)
    ensures { cells.new ≡ replicate (length cells.old) entry }
{
    cells.fill(entry);
}

// The place of the first empty cell, if there is one.
pub fn first_empty(cells: &[u8]) -> Option<usize>
    ensures { result ≡ position (λ cell. cell == empty) cells.now }
{
    cells.iter().position(|cell| *cell == RelationSet::EMPTY.0)
}

// The first place where two matrices differ, if they do in the cells that both have.
pub fn first_change(new: &[u8], old: &[u8]) -> Option<usize>
    ensures { result ≡ position (λ both. not (both.0 == both.1)) (zip new.now old.now) }
{
    new.iter().zip(old).position(|(new, old)| new != old)
}
