// What comes before the rounds: the node rule and the arc rule, from the cells into the first area.
ghost use Rattle.std.specs.Prelude.{◌≡◌, ◌<◌};
ghost use Rattle.lists.specs.Least.{found_below};
ghost use Rattle.matrix.specs.Square.{Square};
ghost use Rattle.refinement.specs.Node.{node_cell, node, empty_region};
ghost use Rattle.refinement.specs.Arc.{arc_cell};
ghost use Rattle.refinement.specs.Prepare.{prepared};
ghost use Rattle.network.specs.Inner.{Prepares, Readies, started_with};

use crate::Unrefined;
use crate::areas::clear;
use crate::lent::Matrix;
use refinement::Contradiction;
use region::Place;
use relation::RelationSet;

// Cell (i, j) by the node rule.
#[tactic(auto, using(std::proofs::lemmas::Bool::Decides::nat_tests))]
fn node_cell(cells: &Matrix, i: usize, j: usize) -> RelationSet
    requires { (i < cells.now.n) × (j < cells.now.n) }
    ensures { result.0 ≡ node_cell cells.now.n cells.now.cells.now i j }
{
    let stated = cells.at(i, j);
    if i == j {
        stated.intersect(RelationSet::EQUAL)
    } else {
        stated
    }
}

// The least region whose own cell the node rule leaves empty.
fn emptied_region(cells: &Matrix) -> Option<usize>
    ensures { result ≡ found_below cells.now.n (empty_region cells.now.n (node cells.now.n cells.now.cells.now)) }
{
    for i in 0..cells.n {
        if node_cell(cells, i, i).is_empty() {
            return Some(i);
        }
    }
    None
}

// Cell (i, j) by the node rule and then the arc rule.
#[tactic(auto, using(crate::proofs::Prepared::arc_of_nodes))]
fn arc_cell(cells: &Matrix, i: usize, j: usize) -> RelationSet
    requires { (i < cells.now.n) × (j < cells.now.n) }
    ensures { result.0 ≡ arc_cell cells.now.n (node cells.now.n cells.now.cells.now) i j }
{
    let opposite = node_cell(cells, j, i);
    let converse = opposite.converse();
    node_cell(cells, i, j).intersect(converse)
}

// The node rule and the arc rule, from the cells into an area.
fn arc_stage(cells: &Matrix, area: &mut [u8])
    requires { Square cells.now.n area.old }
    ensures { area.new ≡ prepared cells.now.n cells.now.cells.now }
{
    for (place, cell) in area.iter_mut().enumerate() {
        *cell = arc_cell(cells, place / cells.n, place % cells.n).0;
    }
}

// The node and arc rules; the first area then holds what the rounds start from, unless a set ran empty.
fn node_and_arc(cells: &Matrix, first: &mut [u8]) -> Result<(), Contradiction>
    requires { Square cells.now.n first.old }
    ensures { Prepares cells.now.n cells.now.cells.now first.old first.new result }
{
    if let Some(i) = emptied_region(cells) {
        return Err(Contradiction::Region(Place(i)));
    }
    arc_stage(cells, first);
    match matrix::first_empty(first) {
        Some(place) => Err(Contradiction::Pair(Place(place / cells.n), Place(place % cells.n))),
        None => Ok(()),
    }
}

// Preparation in areas of exactly n² bytes: a contradiction clears both.
// No `WorkAreas`: `node_and_arc` writes the first alone, and a field that is lent so is not covered where the struct is made here.
pub(crate) fn make_ready(
    n: usize,
    cells: &[u8],
    first: &mut [u8],
    second: &mut [u8],
) -> Result<(), Unrefined>
    requires { Square n cells.now × Square n first.old × Square n second.old }
    ensures { Readies n (started_with n cells.now) first.old second.old first.new second.new result }
{
    if let Err(contradiction) = node_and_arc(&Matrix { n, cells }, first) {
        clear(first, second);
        return Err(Unrefined::Refused(contradiction, 0));
    }
    Ok(())
}
