// Some rounds, from a matrix in one of the areas.
ghost use Rattle.std.specs.Prelude.{◌≡◌, ◌*◌, ◌≤◌, length};
ghost use Rattle.matrix.specs.Square.{Square};
ghost use Rattle.refinement.specs.Refine.{rounds};
ghost use Rattle.network.specs.Areas.{chosen};
ghost use Rattle.network.specs.Inner.{Room, Startable, Meets, rounds_or};
ghost use Rattle.network.specs.WorkAreas.{SameAreas};

use crate::leaving::WorkAreas;
use crate::plain::is_plain;
use crate::turning::some_rounds;
use crate::{Accepted, Area, Unrefined};

// The rounds in the room lent for their planes, and what they leave.
// A struct of `old`, `new` and `onward` would be taken apart at each round, which reads one and writes two.
fn run_in(
    areas: &mut WorkAreas,
    area: Area,
    most: usize,
    old: &mut [u64],
    new: &mut [u64],
    onward: &mut [u64],
) -> Result<Accepted, Unrefined>
    requires { Startable areas.old.n (chosen area areas.old.first.now areas.old.second.now)
        × Room areas.old.n (length old.old) (length new.old) (length onward.old) }
    ensures same { SameAreas areas.old areas.new }
    ensures left { Meets areas.old.n area (rounds most areas.old.n 0 (chosen area areas.old.first.now areas.old.second.now))
        areas.old.first.now areas.old.second.now areas.new.first.now areas.new.second.now result }
{
    let matrix = areas.matrix(area);
    let ended = some_rounds(matrix.n, most, matrix.cells, old, new, onward);
    areas.leave(area, ended, old, new)
}

// The rounds with room for so many words of planes, which is filled with 0 before anything else.
fn run_with_room<const WORDS: usize, const ONWARD: usize>(
    areas: &mut WorkAreas,
    area: Area,
    most: usize,
) -> Result<Accepted, Unrefined>
    requires room { (8 * areas.old.n ≤ WORDS) × (64 * areas.old.n ≤ ONWARD) × (WORDS ≤ 512) × (ONWARD ≤ 4096) }
    requires from { Startable areas.old.n (chosen area areas.old.first.now areas.old.second.now) }
    ensures same { SameAreas areas.old areas.new }
    ensures left { Meets areas.old.n area (rounds most areas.old.n 0 (chosen area areas.old.first.now areas.old.second.now))
        areas.old.first.now areas.old.second.now areas.new.first.now areas.new.second.now result }
{
    let words = 8 * areas.n;
    let mut old = [0u64; WORDS];
    let mut new = [0u64; WORDS];
    let mut onward = [0u64; ONWARD];
    run_in(
        areas,
        area,
        most,
        &mut old[..words],
        &mut new[..words],
        &mut onward,
    )
}

// A run in areas of exactly n² bytes: the matrix is tested first.
// Made one here: with `first: &mut first[..n * n]` in the struct, what the front holds afterwards stayed open in the proof.
pub(crate) fn run(
    n: usize,
    area: Area,
    most: usize,
    first: &mut [u8],
    second: &mut [u8],
) -> Result<Accepted, Unrefined>
    requires { Square n first.old × Square n second.old }
    ensures { Meets n area (rounds_or n most (chosen area first.old second.old)) first.old second.old first.new second.new result }
{
    let mut areas = WorkAreas { n, first, second };
    if !is_plain(&areas.matrix(area)) {
        return Err(Unrefined::Unprepared);
    }
    // Up to 16 regions need a quarter of the room.
    if n <= 16 {
        run_with_room::<128, 1024>(&mut areas, area, most)
    } else {
        run_with_room::<512, 4096>(&mut areas, area, most)
    }
}
