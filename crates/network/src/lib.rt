// The refinement of a matrix of relation sets, whole or a few rounds at a time, and the network that it hands back.
#![tactic(auto)]

mod areas;
mod emptied;
mod leaving;
mod lent;
pub mod numbers;
mod plain;
mod preparing;
mod rounds;
mod turning;

ghost use Rattle.std.specs.Prelude.{◌≡◌};
ghost use Rattle.network.specs.Prepared.{Prepared};
ghost use Rattle.network.specs.Ran.{Ran};
ghost use Rattle.network.specs.Refined.{Refined};
ghost use Rattle.network.specs.Handed.{Handed};
ghost use Rattle.network.specs.Inner.{size_within};

pub use refinement::Contradiction;

// One of the two lent work areas.
#[derive(Clone, Copy, PartialEq, Eq, Debug)]
pub enum Area {
    First,
    Second,
}

// Refined: the number of regions, how many rounds changed something, and the area that the confirming round wrote.
#[derive(Clone, Copy, PartialEq, Eq, Debug)]
pub struct Accepted {
    pub regions: usize,
    pub rounds: usize,
    pub area: Area,
}

// Why a call leaves no refined network, or a preparation nothing to start from.
#[derive(Clone, Copy, PartialEq, Eq, Debug)]
pub enum Unrefined {
    // A contradiction, with the number of the refusing round, or 0 before the first.
    Refused(Contradiction, usize),
    // The rounds are used up: how many were made, and the area that holds the last one's network.
    Unfinished { rounds: usize, area: Area },
    // The network to start from has an empty set, a diagonal other than equal, or a pair not converse.
    Unprepared,
    // The number of regions is not from 1 to 64, or no area has the number given.
    OutOfRange,
    // The cells are not n², or an area is shorter.
    WrongLength,
}

// One more than the rounds that can change something of 64 regions.
const ENOUGH: usize = 14113;

// How many cells n regions have, if n is in range and both areas, of these lengths, have so many.
#[tactic(auto, using(crate::proofs::Fronts::cells_fit))]
fn size_within(n: usize, first: usize, second: usize) -> Result<usize, Unrefined>
    ensures { result ≡ size_within n first second }
{
    if !matrix::in_range(n) {
        return Err(Unrefined::OutOfRange);
    }
    let size = n * n;
    if first < size || second < size {
        return Err(Unrefined::WrongLength);
    }
    Ok(size)
}

// Prepares the matrix of n regions: the checks, then the node and arc rules. The rounds can start from the first area.
pub fn prepare(n: usize, cells: &[u8], first: &mut [u8], second: &mut [u8]) -> Result<(), Unrefined>
    ensures { Prepared n cells.now first.old second.old first.new second.new result }
{
    let size = size_within(n, first.len(), second.len())?;
    if cells.len() != size {
        return Err(Unrefined::WrongLength);
    }
    preparing::make_ready(n, cells, &mut first[..size], &mut second[..size])
}

// Up to so many rounds, the confirming one included, from the network in the area named.
pub fn run(
    n: usize,
    area: Area,
    most: usize,
    first: &mut [u8],
    second: &mut [u8],
) -> Result<Accepted, Unrefined>
    ensures { Ran n area most first.old second.old first.new second.new result }
{
    let size = size_within(n, first.len(), second.len())?;
    rounds::run(n, area, most, &mut first[..size], &mut second[..size])
}

// Refines the matrix of n regions; the cells are read only, the two areas are worked in.
pub fn refine(
    n: usize,
    cells: &[u8],
    first: &mut [u8],
    second: &mut [u8],
) -> Result<Accepted, Unrefined>
    ensures { Refined n cells.now first.old second.old first.new second.new result }
{
    prepare(n, cells, first, second)?;
    run(n, Area::First, ENOUGH, first, second)
}

// The network of an accepting verdict: the first n² bytes of the area that it names, that area itself. An empty part of the
// first area for a refusal, an n outside 1 to 64, or an area shorter than n².
pub fn network<'a>(
    first: &'a [u8],
    second: &'a [u8],
    verdict: Result<Accepted, Unrefined>,
) -> &'a [u8]
    ensures { Handed first.now second.now first.entry.ref_ptr second.entry.ref_ptr verdict result.now result.ref_ptr }
{
    let Ok(Accepted { regions, area, .. }) = verdict else {
        return &first[..0];
    };
    let Ok(cells) = size_within(regions, first.len(), second.len()) else {
        return &first[..0];
    };
    &areas::named(area, first, second)[..cells]
}
