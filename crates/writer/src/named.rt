// A matrix whose regions have identifiers: what a scene is written from.
ghost use Rattle.std.specs.Prelude.{◌≡◌, length};
ghost use Rattle.matrix.specs.Cells.{row, column};
ghost use Rattle.writer.specs.Scene.{stated_count, scene_of};
ghost use Rattle.writer.specs.Writable.{Sized};

use region::Place;
use relation::RelationSet;
use scene::format::{REGION_BYTES, STATEMENT_BYTES};

// An identifier for each of the n regions, and the cells row by row.
// No matrix inside: `n` is the number of identifiers too, so one would only be one more field to reach through.
#[derive(Clone, Copy)]
pub(crate) struct NamedMatrix<'a> {
    pub(crate) n: usize,
    pub(crate) identifiers: &'a [u32],
    pub(crate) cells: &'a [u8],
    ghost sized: { Sized n identifiers.now cells.now },
}

// How many cells are to be stated: those that are not 255. By `filter` and `count`, which branch at each, a write of 64 regions took 1.3
// times as long.
fn stated_count(cells: &[u8]) -> usize
    ensures { result ≡ stated_count (length cells.now) cells.now }
{
    let mut stated = 0;
    for set in cells {
        if *set != RelationSet::UNIVERSAL.0 {
            stated += 1;
        }
    }
    stated
}

impl NamedMatrix<'_> {
    // The regions of the row and of the column in which a cell stands.
    pub(crate) fn regions_of(&self, cell: usize) -> (Place, Place)
        ensures row { result.0.0 ≡ row self.now.n cell }
        ensures column { result.1.0 ≡ column self.now.n cell }
    {
        (Place(cell / self.n), Place(cell % self.n))
    }

    // How many bytes its scene has: five for each region, ten for each statement, one for End.
    #[tactic(auto, using(crate::proofs::SceneLaws::counted_most, crate::proofs::SceneLaws::few_cells, crate::proofs::SceneLaws::length_sized))]
    pub(crate) fn scene_length(&self) -> usize
        ensures { result ≡ length (scene_of self.now.n self.now.identifiers.now self.now.cells.now) }
    {
        REGION_BYTES * self.n + STATEMENT_BYTES * stated_count(self.cells) + 1
    }
}
