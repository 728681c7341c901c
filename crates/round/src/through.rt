// A block of rows through the regions that it is worth going through.
ghost use Rattle.std.specs.Prelude.{◌≡◌, ◌<◌, eqb, length};
ghost use Rattle.lists.specs.Least.{least, found_below};
ghost use Rattle.lanes.specs.Words.{set_at};
ghost use Rattle.round.specs.Inner.{Room, Chosen, block_through};

use crate::words::{common, everywhere, members, narrow};
use lanes::{lowest, places_of};

// The live regions, other than b itself, at which row b has another set than the universal one.
pub(crate) fn chosen(live: u64, w: [u64; 8], b: usize) -> u64
    requires { b < 64 }
    ensures { Chosen live w b result }
{
    live & !common(w) & !(1u64 << b)
}

// A block through the regions ks.
pub(crate) fn through(w: [u64; 8], ks: u64, onward: &[u64]) -> [u64; 8]
    requires { Room ks 512 (length onward.now) }
    ensures { result ≡ block_through w ks onward.now }
{
    let mut all = w;
    for k in places_of(ks) {
        // First under a name: a call's result is not laid in a local that holds an array (tried).
        let next = narrow(all, everywhere(w, k), &onward[64 * k..64 * k + 64]);
        all = next;
    }
    all
}

// The first lane whose set is empty.
pub(crate) fn empty_lane(w: [u64; 8]) -> Option<usize>
    ensures { result ≡ found_below 64 (least 64 (λ x. eqb (set_at w x) 0)) }
{
    lowest(!members(w))
}
