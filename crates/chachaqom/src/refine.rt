// Refining for a host in C.
ghost use Rattle.chachaqom.specs.RefineExport.{RefineExport};

use network::numbers::of_verdict;

// Refines the matrix of n regions in two lent work areas, and answers in 20 bytes.
#[unsafe(no_mangle)]
pub extern "C" fn chachaqom_refine(
    n: usize,
    cells: &[u8],
    first: &mut [u8],
    second: &mut [u8],
    answer: &mut [u8],
) -> u32
    ensures { RefineExport n cells.now first.old second.old answer.old first.new second.new answer.new result }
{
    // A number where Rattle has a Result, and lengths that are tested: the C interface.
    if answer.len() != 20 {
        return 2;
    }
    let verdict = network::refine(n, cells, first, second);
    answer::put_answer(answer, of_verdict(verdict))
}
