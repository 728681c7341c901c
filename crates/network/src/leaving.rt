// The two lent work areas of a run, what some rounds leave in them, and their verdict.
ghost use Rattle.std.specs.Prelude.{◌≡◌, ◌*◌, ◌≤◌, ◌<◌, length, Ok, Err};
ghost use Rattle.planes.specs.Planes.{planes_matrix};
ghost use Rattle.refinement.specs.Round.{ran_out};
ghost use Rattle.network.specs.Areas.{chosen};
ghost use Rattle.network.specs.Inner.{Placed, Refuses, Rests, Shares, Stops, Leaves};

use crate::areas::{self, clear, holds, other};
use crate::emptied::ran_out;
use crate::lent::Matrix;
use crate::turning::Ended;
use crate::{Accepted, Area, Contradiction, Unrefined};
use planes::give;
use region::Place;

// Of n regions, from 1 to 64, in exactly n² bytes each. They stay the caller's.
// Planes stay slices: a struct of them has an n of its own, which each clause would call the areas' where it now gives a length.
#[derive(Drop)]
pub(crate) struct WorkAreas<'a> {
    pub(crate) n: usize,
    pub(crate) first: &'a mut [u8],
    pub(crate) second: &'a mut [u8],
    ghost some: { 1 ≤ n },
    ghost few: { n ≤ 64 },
    ghost first_size: { length first.now ≡ n * n },
    ghost second_size: { length second.now ≡ n * n },
}

impl WorkAreas<'_> {
    ghost use Rattle.network.specs.WorkAreas.{SameAreas};

    // The matrix in the area named.
    pub(crate) fn matrix(&self, area: Area) -> Matrix<'_>
        ensures size { result.n ≡ self.now.n }
        ensures cells { result.cells.now ≡ chosen area self.now.first.now self.now.second.now }
    {
        match area {
            Area::First => Matrix {
                n: self.n,
                cells: &*self.first,
            },
            Area::Second => Matrix {
                n: self.n,
                cells: &*self.second,
            },
        }
    }

    // A set ran empty in the round from `old`: the triple is told, and both areas are cleared.
    fn refuse(&mut self, row: usize, column: usize, round: usize, old: &[u64]) -> Unrefined
        requires placed { (row < self.old.n) × (column < self.old.n)
            × (ran_out self.old.n (planes_matrix self.old.n old.now) row column < self.old.n) }
        requires long { length old.now ≡ 8 * self.old.n }
        ensures same { SameAreas self.old self.new }
        ensures left { Refuses self.old.n row column round old.now
            self.old.first.now self.old.second.now self.new.first.now self.new.second.now (Err result) }
    {
        give(self.n, old, self.first);
        let k = ran_out(&self.matrix(Area::First), row, column).unwrap();
        clear(self.first, self.second);
        Unrefined::Refused(
            Contradiction::Triple(Place(row), Place(k), Place(column)),
            round,
        )
    }

    // Nothing changed: both areas hold the network.
    #[tactic(auto, using(round::proofs::Steps::gives))]
    fn accept(&mut self, area: Area, count: usize, old: &[u64]) -> Accepted
        requires { length old.now ≡ 8 * self.old.n }
        ensures same { SameAreas self.old self.new }
        ensures left { Rests self.old.n area count old.now self.new.first.now self.new.second.now (Ok result) }
    {
        give(self.n, old, self.first);
        give(self.n, old, self.second);
        Accepted {
            regions: self.n,
            rounds: count,
            area: holds(other(area), count),
        }
    }

    // The rounds are used up: the last one's matrix into the area named, the one before it into the other.
    fn give_both(&mut self, area: Area, old: &[u64], new: &[u64])
        requires { (length old.now ≡ 8 * self.old.n) × (length new.now ≡ 8 * self.old.n) }
        ensures same { SameAreas self.old self.new }
        ensures left { Shares self.old.n area old.now new.now self.new.first.now self.new.second.now }
    {
        give(self.n, areas::named(area, new, old), self.first);
        give(self.n, areas::named(area, old, new), self.second);
    }

    // The rounds are used up; where none was made, both areas are as they were.
    fn use_up(&mut self, area: Area, count: usize, old: &[u64], new: &[u64]) -> Unrefined
        requires { (length old.now ≡ 8 * self.old.n) × (length new.now ≡ 8 * self.old.n) }
        ensures same { SameAreas self.old self.new }
        ensures left { Stops self.old.n area count old.now new.now
            self.old.first.now self.old.second.now self.new.first.now self.new.second.now (Err result) }
    {
        let last = holds(area, count);
        if count != 0 {
            self.give_both(last, old, new);
        }
        Unrefined::Unfinished {
            rounds: count,
            area: last,
        }
    }

    // By how the rounds ended.
    #[tactic(auto, unfolding(crate::specs::Inner::Placed, crate::specs::Inner::Leaves))]
    pub(crate) fn leave(
        &mut self,
        area: Area,
        ended: Ended,
        old: &[u64],
        new: &[u64],
    ) -> Result<Accepted, Unrefined>
        requires { Placed self.old.n old.now ended × (length old.now ≡ 8 * self.old.n) × (length new.now ≡ 8 * self.old.n) }
        ensures same { SameAreas self.old self.new }
        ensures left { Leaves self.old.n area ended old.now new.now
            self.old.first.now self.old.second.now self.new.first.now self.new.second.now result }
    {
        match ended {
            Ended::Empty { row, column, round } => Err(self.refuse(row, column, round, old)),
            Ended::Same { rounds } => Ok(self.accept(area, rounds, old)),
            Ended::UsedUp { rounds } => Err(self.use_up(area, rounds, old, new)),
        }
    }
}
