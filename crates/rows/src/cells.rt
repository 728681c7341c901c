// The cells of a row into words and back, eight at a time.
ghost use Rattle.std.specs.Prelude.{◌≡◌, ◌+◌, ◌*◌, ◌/◌, ◌%◌, ◌^◌, ◌<◌, ◌≤◌, length, take, get_or};
ghost use Rattle.std.specs.Int.Bits.{bit_or};
ghost use Rattle.lanes.specs.Lists.{list_of};
ghost use Rattle.rows.specs.Rows.{row_words, row_cells, row_after};
ghost use Rattle.rows.specs.Inner.{eight_from};

use crate::square::turned;
use std::array;

// Eight cells from `at` on; the universal set past the end.
fn eight_cells(cells: &[u8], at: usize) -> [u8; 8]
    requires { at ≤ 56 }
    ensures { result ≡ list_of 8 (λ g. get_or cells.now (at + g) 255) }
{
    array::from_fn(|g| cells.get(at + g).copied().unwrap_or(255))
}

// The words with eight more lanes, from lane `at` on.
fn with_lanes(w: [u64; 8], at: usize, lanes: [u8; 8]) -> [u64; 8]
    requires { at < 64 }
    ensures { result ≡ list_of 8 (λ k. bit_or (get_or w k 0) (get_or lanes k 0 * 2 ^ at % 2 ^ 64)) }
{
    array::from_fn(|r| w[r] | u64::from(lanes[r]) << at)
}

// A row of cells, of which the first 64 count; lanes past its end have the universal set.
pub fn take_row(cells: &[u8]) -> [u64; 8]
    ensures { result ≡ row_words cells.now }
{
    let mut w = [0u64; 8];
    for block in 0..8 {
        let at = 8 * block;
        if cells.len() <= at {
            return w.map(|word| word | u64::MAX << at);
        }
        // First under a name: a call's result is not laid in a local that holds an array (tried).
        let more = with_lanes(w, at, turned(eight_cells(cells, at)));
        w = more;
    }
    w
}

// Eight lanes from `at` on.
fn eight_lanes(w: [u64; 8], at: usize) -> [u8; 8]
    requires { at < 64 }
    ensures { result ≡ eight_from at w }
{
    w.map(|word| (word >> at & 0xff) as u8)
}

// As many of the bytes as there are cells. Out of one word: copying as many as are left calls the C library's `memcpy`, which the archive
// for C does not need.
fn give_rest(bytes: [u8; 8], cells: &mut [u8])
    requires { length cells.old ≤ 8 }
    ensures { cells.new ≡ take (length cells.old) bytes }
{
    let word = u64::from_le_bytes(bytes);
    for (place, cell) in cells.iter_mut().enumerate() {
        *cell = (word >> (8 * place) & 0xff) as u8;
    }
}

// The first lanes as cells, as many as there are cells.
fn give_lanes(w: [u64; 8], cells: &mut [u8])
    requires { length cells.old ≤ 64 }
    ensures { cells.new ≡ row_cells (length cells.old) w }
{
    // By places, whole blocks and then the rest: after `chunks_mut`, which has both, a proof knows the lengths alone (tried).
    for block in 0..cells.len() / 8 {
        let at = 8 * block;
        cells[at..at + 8].copy_from_slice(&turned(eight_lanes(w, at)));
    }
    let at = cells.len() / 8 * 8;
    if at < cells.len() {
        give_rest(turned(eight_lanes(w, at)), &mut cells[at..]);
    }
}

// The first lanes as cells, as many as there are cells; more than 64 cells stay as they are.
pub fn give_row(w: [u64; 8], cells: &mut [u8])
    ensures { cells.new ≡ row_after w cells.old }
{
    if cells.len() <= 64 {
        give_lanes(w, cells);
    }
}
