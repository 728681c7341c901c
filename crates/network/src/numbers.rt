// The documents' numbers of a verdict and of a preparation.
ghost use Rattle.std.specs.Prelude.{◌≡◌};
ghost use Rattle.answer.specs.Told.{told};
ghost use Rattle.network.specs.Numbers.{area_number, area_numbered, answer_of, answer_of_start};

use crate::{Accepted, Area, Contradiction, Unrefined};
use answer::{Numbers, tell};

// The numbers of a contradiction that a refinement ran into after so many rounds: of two values, which no From takes.
fn of_contradiction(contradiction: Contradiction, rounds: usize) -> Numbers
    ensures { told result ≡ answer_of (Err (Unrefined.Refused contradiction rounds)) }
{
    match contradiction {
        Contradiction::Region(i) => tell(21, i.0, 0, 0, rounds),
        Contradiction::Pair(i, j) => tell(22, i.0, j.0, 0, rounds),
        Contradiction::Triple(i, k, j) => tell(23, i.0, k.0, j.0, rounds),
    }
}

// 1 for the first area and 2 for the second.
impl From<Area> for usize {
    ghost from_gives = { λ area number. number ≡ area_number area };

    fn from(area: Area) -> usize {
        match area {
            Area::First => 1,
            Area::Second => 2,
        }
    }
}

// The area with a number; a number that no area has is out of range.
impl TryFrom<usize> for Area {
    type Error = Unrefined;

    ghost try_from_gives = { λ number area. area ≡ area_numbered number };

    fn try_from(number: usize) -> Result<Area, Unrefined> {
        match number {
            1 => Ok(Area::First),
            2 => Ok(Area::Second),
            _ => Err(Unrefined::OutOfRange),
        }
    }
}

// The numbers of a call that leaves no refined network. A From would be public, a second way to what `of_verdict` gives.
fn of_unrefined(unrefined: Unrefined) -> Numbers
    ensures { told result ≡ answer_of (Err unrefined) }
{
    match unrefined {
        Unrefined::Refused(contradiction, rounds) => of_contradiction(contradiction, rounds),
        Unrefined::Unfinished { rounds, area } => tell(24, usize::from(area), 0, 0, rounds),
        Unrefined::Unprepared => tell(25, 0, 0, 0, 0),
        Unrefined::OutOfRange => tell(1, 0, 0, 0, 0),
        Unrefined::WrongLength => tell(2, 0, 0, 0, 0),
    }
}

// A function and no From, as `of_start`: docs/PROOFS.md has their contracts by these names.
pub fn of_verdict(verdict: Result<Accepted, Unrefined>) -> Numbers
    ensures { told result ≡ answer_of verdict }
{
    match verdict {
        Ok(accepted) => tell(0, 0, 0, 0, accepted.rounds),
        Err(unrefined) => of_unrefined(unrefined),
    }
}

pub fn of_start(start: Result<(), Unrefined>) -> Numbers
    ensures { told result ≡ answer_of_start start }
{
    match start {
        Ok(()) => tell(0, 0, 0, 0, 0),
        Err(unrefined) => of_unrefined(unrefined),
    }
}
