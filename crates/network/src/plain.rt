// Whether rounds can start from a matrix: no set empty, the diagonal equal, every pair converse.
ghost use Rattle.std.specs.Prelude.{◌≡◌, ◌<◌};
ghost use Rattle.refinement.specs.Run.{is_plain_cell, is_plain};

use crate::lent::Matrix;
use relation::RelationSet;

// Cell (i, j) is not empty, the converse of its opposite, and only equal on the diagonal.
#[tactic(auto, using(std::proofs::lemmas::Bool::Decides::nat_tests))]
fn is_plain_cell(matrix: &Matrix, i: usize, j: usize) -> bool
    requires { (i < matrix.now.n) × (j < matrix.now.n) }
    ensures { result ≡ is_plain_cell matrix.now.n matrix.now.cells.now i j }
{
    let set = matrix.at(i, j);
    let converse = matrix.at(j, i).converse();
    !set.is_empty() && set == converse && (i != j || set == RelationSet::EQUAL)
}

// Every cell is.
pub(crate) fn is_plain(matrix: &Matrix) -> bool
    ensures { result ≡ is_plain matrix.now.n matrix.now.cells.now }
{
    (0..matrix.cells.len()).all(|place| is_plain_cell(matrix, place / matrix.n, place % matrix.n))
}
