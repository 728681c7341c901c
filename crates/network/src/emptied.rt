// Where a set ran empty in a round: the region on the way.
ghost use Rattle.std.specs.Prelude.{◌≡◌, ◌<◌};
ghost use Rattle.lists.specs.Least.{found_below};
ghost use Rattle.relation.specs.Composition.{compose};
ghost use Rattle.relation.specs.Lent.{listed};
ghost use Rattle.matrix.specs.Cells.{cell};
ghost use Rattle.refinement.specs.Round.{ran_out};

use crate::lent::Matrix;
use relation::{Compositions, RelationSet, compositions};

// (i, k) composed with (k, j).
#[tactic(auto, using(crate::proofs::Running::composed_by_listed))]
fn along(entries: &Compositions, old: &Matrix, i: usize, k: usize, j: usize) -> RelationSet
    requires { (i < old.now.n) × (k < old.now.n) × (j < old.now.n) × (entries.now ≡ listed) }
    ensures { result.0 ≡ compose (cell old.now.n old.now.cells.now i k) (cell old.now.n old.now.cells.now k j) }
{
    let onward = old.at(k, j);
    old.at(i, k).compose_by(entries, onward)
}

// The least k at which (i, j), intersected with the compositions through 0..k, has run empty. A `find` would have to write its running set.
fn ran_out_by(entries: &Compositions, old: &Matrix, i: usize, j: usize) -> Option<usize>
    requires { (i < old.now.n) × (j < old.now.n) × (entries.now ≡ listed) }
    ensures { result ≡ found_below old.now.n (ran_out old.now.n old.now.cells.now i j) }
{
    let mut set = old.at(i, j);
    for k in 0..old.n {
        set = set.intersect(along(entries, old, i, k, j));
        if set.is_empty() {
            return Some(k);
        }
    }
    None
}

// The same, with the table made for it.
pub(crate) fn ran_out(old: &Matrix, i: usize, j: usize) -> Option<usize>
    requires { (i < old.now.n) × (j < old.now.n) }
    ensures { result ≡ found_below old.now.n (ran_out old.now.n old.now.cells.now i j) }
{
    let entries = compositions();
    ran_out_by(&entries, old, i, j)
}
