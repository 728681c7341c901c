// One round on planes.
ghost use Rattle.std.specs.Prelude.{◌≡◌, ◌*◌, ◌≤◌, length};
ghost use Rattle.round.specs.Calls.{serves_round, below, Rounds};
ghost use Rattle.round.specs.Inner.{Ready, Wiring, Blocks, Made};

use crate::onward::spread_out;
use crate::through::{chosen, empty_lane, through};
use crate::words::differing;
use matrix::in_range;
use planes::{block_at, put_block};

// Where the first empty set is, in row order.
#[derive(Clone, Copy, PartialEq, Eq, Debug)]
pub struct Emptied {
    pub row: usize,
    pub column: usize,
}

// The blocks of the round, up to the first with an empty set; where there is none, the columns that changed.
fn make_blocks(
    n: usize,
    live: u64,
    old: &[u64],
    new: &mut [u64],
    onward: &[u64],
) -> Result<u64, Emptied>
    requires { Ready n live (length old.now) (length new.old) (length onward.now) × Wiring live old.now onward.now }
    ensures { Blocks n live old.now new.old new.new result }
{
    let mut changed = 0;
    for row in 0..n {
        let w = block_at(old, row);
        let all = through(w, chosen(live, w, row), onward);
        put_block(new, row, all);
        if let Some(column) = empty_lane(all) {
            return Err(Emptied { row, column });
        }
        changed |= differing(all, w);
    }
    Ok(changed)
}

// The round, where n and all lengths serve and the live regions are below n.
// No struct of the five: `Rounds`, the clause of `round`, speaks of each, and after `spread_out` `onward` is only read and `new` written.
fn make_round(
    n: usize,
    live: u64,
    old: &[u64],
    new: &mut [u64],
    onward: &mut [u64],
) -> Result<u64, Emptied>
    requires { Ready n live (length old.now) (length new.old) (length onward.old) }
    ensures { Made n live old.now new.old onward.old new.new onward.new result }
{
    spread_out(live, old, onward);
    make_blocks(n, live, old, new, onward)
}

// Whether n is in range and every length serves.
#[tactic(auto, using(std::proofs::lemmas::Bool::Decides::nat_tests), unfolding(matrix::specs::Square::in_range))]
fn serves(n: usize, old: usize, new: usize, onward: usize) -> bool
    ensures { result ≡ serves_round n old new onward }
{
    in_range(n) && old == 8 * n && new == 8 * n && 64 * n <= onward
}

// The regions of a mask that are below n.
fn below(n: usize, live: u64) -> u64
    requires { (1 ≤ n) × (n ≤ 64) }
    ensures { result ≡ below n live }
{
    live & (u64::MAX >> (64 - n))
}

// A round from `old` to `new` through the live regions: the columns that changed, live in the next round, or where the first empty set is.
// `onward` is room for what the live rows give: 64 words to a region.
pub fn round(
    n: usize,
    live: u64,
    old: &[u64],
    new: &mut [u64],
    onward: &mut [u64],
) -> Result<u64, Emptied>
    ensures { Rounds n live old.now new.old onward.old new.new onward.new result }
{
    if serves(n, old.len(), new.len(), onward.len()) {
        return make_round(n, below(n, live), old, new, onward);
    }
    // No case of its own: the clause `Rounds` fixes row 0, column 0 where n or a length does not serve.
    Err(Emptied { row: 0, column: 0 })
}
