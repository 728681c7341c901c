// The refinement on cases from outside: for each the five numbers of the answer, whether both work areas are untouched from where
// they should be, and the network that is handed back.
use crate::console::{print_first, print_sum};
use relation::RelationSet;
use std::io;

// What both areas hold before a call.
const MARK: u8 = 170;

// Whether the area still holds the mark from a place on.
fn is_kept(area: &[u8], from: usize) -> bool {
    area.iter().skip(from).all(|entry| *entry == MARK)
}

// The matrix of n regions with these sets stated, each for a row and a column.
fn matrix_of<const CELLS: usize>(n: usize, stated: &[(usize, usize, u8)]) -> [u8; CELLS] {
    let mut cells = [255u8; CELLS];
    for &(i, j, set) in stated {
        matrix::narrow(n, &mut cells, i, j, RelationSet(set));
    }
    cells
}

fn print_network<R: Print>(rt: &R, network: &[u8]) -> io::Result<()> {
    print!(rt; "  network {}:", network.len())?;
    if network.len() <= 16 {
        print_first(rt, network, 16)?;
    } else {
        print_sum(rt, network)?;
    }
    println!(rt; "")
}

// One case: both areas should be untouched from a place on.
fn run<R: Print>(rt: &R, name: &str, n: usize, cells: &[u8], untouched: usize) -> io::Result<()> {
    let mut first = [MARK; 4200];
    let mut second = [MARK; 4200];
    let verdict = network::refine(n, cells, &mut first, &mut second);
    let told = network::numbers::of_verdict(verdict);
    print!(rt;
        "{name}: {} {} {} {} {}",
        told.number, told.first, told.second, told.third, told.count
    )?;
    if is_kept(&first, untouched) {
        print!(rt; " first kept")?;
    }
    if is_kept(&second, untouched) {
        print!(rt; " second kept")?;
    }
    println!(rt; "")?;
    print_network(rt, network::network(&first, &second, verdict))
}

// The paper's examples, its regions A to D at places 0 to 3.
fn examples<R: Print>(rt: &R) -> io::Result<()> {
    let twelve: [u8; 16] = matrix_of(4, &[(0, 1, 8), (1, 2, 8), (2, 3, 8)]);
    run(rt, "example 12", 4, &twelve, 16)?;
    let thirteen: [u8; 16] = matrix_of(4, &[(0, 1, 32), (1, 2, 2), (0, 3, 1), (3, 2, 128)]);
    run(rt, "example 13", 4, &thirteen, 16)?;
    let fourteen: [u8; 16] = matrix_of(4, &[(0, 3, 128), (1, 3, 128), (2, 1, 8), (2, 0, 1)]);
    run(rt, "example 14", 4, &fourteen, 16)?;
    let fifteen: [u8; 9] = matrix_of(3, &[(1, 2, 155), (1, 0, 64), (0, 2, 2)]);
    run(rt, "example 15", 3, &fifteen, 9)
}

// Sets that run out along a triple, and a network that no arrangement fits but no triple refuses.
fn four_regions<R: Print>(rt: &R) -> io::Result<()> {
    let triple: [u8; 16] = matrix_of(
        4,
        &[(0, 2, 64), (0, 3, 2), (1, 2, 2), (1, 3, 16), (2, 3, 129)],
    );
    run(rt, "along a triple", 4, &triple, 16)?;
    let unrealisable: [u8; 16] = matrix_of(
        4,
        &[
            (0, 1, 44),
            (0, 2, 80),
            (0, 3, 80),
            (1, 2, 129),
            (1, 3, 196),
            (2, 3, 40),
        ],
    );
    run(rt, "without an arrangement", 4, &unrealisable, 16)
}

// Contradictions before the first round.
fn before_rounds<R: Print>(rt: &R) -> io::Result<()> {
    let region: [u8; 9] = matrix_of(3, &[(1, 1, 251)]);
    run(rt, "at a region", 3, &region, 9)?;
    let pair: [u8; 9] = matrix_of(3, &[(0, 2, 8), (2, 0, 8)]);
    run(rt, "at a pair", 3, &pair, 9)
}

// The largest matrix, and numbers of regions that are none.
fn sizes<R: Print>(rt: &R) -> io::Result<()> {
    let open = [255u8; 4096];
    run(rt, "64 regions", 64, &open, 4096)?;
    run(rt, "64 regions, a cell short", 64, &open[..4095], 0)?;
    run(rt, "63 regions, cells of 64", 63, &open, 0)?;
    run(rt, "no region", 0, &open[..0], 0)?;
    run(rt, "65 regions", 65, &open, 0)?;
    run(rt, "2^32 regions", 4294967296, &open[..0], 0)?;
    run(rt, "the most a number holds", usize::MAX, &open[..1], 0)
}

pub(crate) fn run_all<R: Print>(rt: &R) -> io::Result<()> {
    examples(rt)?;
    four_regions(rt)?;
    before_rounds(rt)?;
    sizes(rt)
}
