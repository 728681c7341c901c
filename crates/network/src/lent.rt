// A matrix in a lent area.
ghost use Rattle.std.specs.Prelude.{◌≡◌, ◌*◌, ◌≤◌, ◌<◌, length};
ghost use Rattle.matrix.specs.Cells.{cell};

use relation::RelationSet;

// Of n regions, from 1 to 64, in exactly n² bytes.
// Not a type of crate `matrix`: `NamedMatrix` and `Stated` hold more, so it would only be one more field to reach through there.
#[derive(Clone, Copy)]
pub(crate) struct Matrix<'a> {
    pub(crate) n: usize,
    pub(crate) cells: &'a [u8],
    ghost some: { 1 ≤ n },
    ghost few: { n ≤ 64 },
    ghost size: { length cells.now ≡ n * n },
}

impl Matrix<'_> {
    // The set of region i towards region j.
    #[tactic(auto, using(crate::proofs::Searches::cell_in))]
    pub(crate) fn at(&self, i: usize, j: usize) -> RelationSet
        requires { (i < self.now.n) × (j < self.now.n) }
        ensures { result.0 ≡ cell self.now.n self.now.cells.now i j }
    {
        matrix::at(self.n, self.cells, i, j)
    }
}
