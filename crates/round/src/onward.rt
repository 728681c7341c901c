// What each relation gives with the sets of a row: 64 words, made once for every live region and read by every block.
ghost use Rattle.std.specs.Prelude.{◌≡◌, length};
ghost use Rattle.round.specs.Onward.{wired_all, onward_of};
ghost use Rattle.round.specs.Inner.{Room};

use lanes::{composed, places_of};
use planes::{block_at, put_block};

// What each relation gives with the sets of b: the eight words of relation p are block p.
fn put_onward(b: [u64; 8], onward: &mut [u64])
    requires { length onward.old ≡ 64 }
    ensures { onward.new ≡ wired_all b }
{
    for p in 0..8 {
        put_block(onward, p, composed(p, b));
    }
}

// The rows of the live regions, each made ready for composition.
pub(crate) fn spread_out(live: u64, old: &[u64], onward: &mut [u64])
    requires { Room live (length old.now) (length onward.old) }
    ensures { onward.new ≡ onward_of live old.now onward.old }
{
    for k in places_of(live) {
        put_onward(block_at(old, k), &mut onward[64 * k..64 * k + 64]);
    }
}
