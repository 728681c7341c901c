// One relation composed with the set of each lane. `w` has a word for each relation q; word r of the answer is the union of the words q
// with r in the composition of the relation with q.
ghost use Rattle.std.specs.Prelude.{◌≡◌, ◌<◌, cond, fold};
ghost use Rattle.std.specs.List.{zip};
ghost use Rattle.std.specs.Int.Bits.{bit_or};
ghost use Rattle.relation.specs.Sets.{has};
ghost use Rattle.lanes.specs.Words.{wired};
ghost use Rattle.lanes.specs.Inner.{wired_by};

use relation::RelationSet;
use std::array;

// Table 1: entry q of row p is the composition of relation p with relation q.
// Not the table of `relation`: a const parameter needs a constant. The prover ties both to the definitions, by `wired` and by `listed`.
const ROWS: [[u8; 8]; 8] = [
    [255, 155, 1, 155, 155, 1, 1, 155],
    [227, 215, 2, 152, 154, 1, 3, 155],
    [1, 2, 4, 8, 16, 32, 64, 128],
    [1, 1, 8, 8, 8, 255, 155, 155],
    [1, 3, 16, 8, 24, 227, 215, 155],
    [227, 224, 32, 252, 224, 32, 32, 224],
    [227, 226, 64, 152, 212, 32, 96, 224],
    [227, 227, 128, 152, 152, 227, 227, 255],
];

// The union of the words whose entry in the row has r.
fn united(w: [u64; 8], row: [u8; 8], r: usize) -> u64
    requires { r < 8 }
    ensures { result ≡ fold (λ all p. cond (has p.1 r) (bit_or all p.0) all) 0 (zip w row) }
{
    w.iter().zip(&row).fold(0, |all, (word, entry)| {
        if RelationSet(*entry).has(r) {
            all | *word
        } else {
            all
        }
    })
}

// Each word so, by one row.
fn along(row: [u8; 8], w: [u64; 8]) -> [u64; 8]
    ensures { result ≡ wired_by row w }
{
    array::from_fn(|r| united(w, row, r))
}

// By the row of relation P. P is a constant, so no test of the row's bits is left in the code.
fn composed_with<const P: usize>(w: [u64; 8]) -> [u64; 8]
    requires { P < 8 }
    ensures { result ≡ wired P w }
{
    along(ROWS[P], w)
}

// The relation with this place in the order of the bits, composed with the sets of all lanes; no relation has a place above 7.
// A number, and no kind of its own: the clause and `composed_unique` speak of every number.
pub fn composed(relation: usize, b: [u64; 8]) -> [u64; 8]
    ensures { result ≡ wired relation b }
{
    // A match: by a looked-up row a round takes 10.9 µs for 4.3 (32 regions), 28.6 for 15.5 (64), and falls behind the queue in C at 32.
    match relation {
        0 => composed_with::<0>(b),
        1 => composed_with::<1>(b),
        2 => composed_with::<2>(b),
        3 => composed_with::<3>(b),
        4 => composed_with::<4>(b),
        5 => composed_with::<5>(b),
        6 => composed_with::<6>(b),
        7 => composed_with::<7>(b),
        _ => [0; 8],
    }
}
