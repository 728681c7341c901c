// Rounds a few at a time for a host in C: an area crosses as its number.
ghost use Rattle.chachaqom.specs.RunExport.{RunExport};

use network::numbers::of_verdict;
use network::{Area, Unrefined};

// Up to so many rounds, the confirming one included, from the network of n regions in the area named, and answers in 20 bytes.
#[unsafe(no_mangle)]
pub extern "C" fn chachaqom_run(
    n: usize,
    area: usize,
    rounds: usize,
    first: &mut [u8],
    second: &mut [u8],
    answer: &mut [u8],
) -> u32
    ensures { RunExport n area rounds first.old second.old answer.old first.new second.new answer.new result }
{
    // A number where Rattle has a Result, and lengths that are tested: the C interface.
    if answer.len() != 20 {
        return 2;
    }
    let Ok(from) = Area::try_from(area) else {
        return answer::put_answer(answer, of_verdict(Err(Unrefined::OutOfRange)));
    };
    let verdict = network::run(n, from, rounds, first, second);
    answer::put_answer(answer, of_verdict(verdict))
}
