// The cells of a matrix into planes, and back.
ghost use Rattle.std.specs.Prelude.{◌≡◌, length};
ghost use Rattle.planes.specs.Planes.{matrix_planes, planes_matrix};
ghost use Rattle.planes.specs.Calls.{serves_cells, taken, given};
ghost use Rattle.planes.specs.Inner.{Square};

use crate::words::{block_at, put_block};
use matrix::in_range;
use rows::{give_row, take_row};

// Every row into its block.
fn take_rows(n: usize, cells: &[u8], planes: &mut [u64])
    requires { Square n (length cells.now) (length planes.old) }
    ensures { planes.new ≡ matrix_planes n cells.now }
{
    for (i, row) in cells.chunks_exact(n).enumerate() {
        put_block(planes, i, take_row(row));
    }
}

// Every row from its block.
fn give_rows(n: usize, planes: &[u64], cells: &mut [u8])
    requires { Square n (length cells.old) (length planes.now) }
    ensures { cells.new ≡ planes_matrix n planes.now }
{
    // By places: of what is written through `chunks_exact_mut` a proof keeps the lengths alone.
    for i in 0..n {
        give_row(block_at(planes, i), &mut cells[i * n..i * n + n]);
    }
}

// Whether n is in range and both lengths serve.
#[tactic(auto, using(std::proofs::lemmas::Bool::Decides::nat_tests), unfolding(matrix::specs::Square::in_range))]
fn serves(n: usize, cells: usize, planes: usize) -> bool
    ensures { result ≡ serves_cells n cells planes }
{
    in_range(n) && cells == n * n && planes == 8 * n
}

// The cells of n regions into planes.
#[tactic(auto, unfolding(crate::specs::Calls::taken))]
pub fn take(n: usize, cells: &[u8], planes: &mut [u64])
    ensures { planes.new ≡ taken n cells.now planes.old }
{
    if serves(n, cells.len(), planes.len()) {
        take_rows(n, cells, planes);
    }
}

// The cells of n regions from planes.
#[tactic(auto, unfolding(crate::specs::Calls::given))]
pub fn give(n: usize, planes: &[u64], cells: &mut [u8])
    ensures { cells.new ≡ given n planes.now cells.old }
{
    if serves(n, cells.len(), planes.len()) {
        give_rows(n, planes, cells);
    }
}
