// Rounds in planes, one after the other.
ghost use Rattle.std.specs.Prelude.{◌≡◌, length};
ghost use Rattle.network.specs.Inner.{Room, Startable, Ends};

use planes::take;
use round::{Emptied, round};

// What some rounds came to, and how many of them changed something: three ways to end, so no Result.
#[derive(Clone, Copy)]
pub(crate) enum Ended {
    // The round of this number left a set empty, first in row order here.
    Empty {
        row: usize,
        column: usize,
        round: usize,
    },
    // The next one changed nothing.
    Same {
        rounds: usize,
    },
    // There is none left.
    UsedUp {
        rounds: usize,
    },
}

// The planes of `new` into `old`. Word by word: `copy_from_slice` calls the C library's `memmove`, which the archive for C does not need.
fn keep(new: &[u64], old: &mut [u64])
    requires { length old.old ≡ length new.now }
    ensures { old.new ≡ new.now }
{
    for (place, word) in old.iter_mut().enumerate() {
        *word = new[place];
    }
}

// Up to so many rounds, the confirming one included, from a matrix: `new` has the last one's planes, `old` those that it was made from.
pub(crate) fn some_rounds(
    n: usize,
    most: usize,
    cells: &[u8],
    old: &mut [u64],
    new: &mut [u64],
    onward: &mut [u64],
) -> Ended
    requires { Startable n cells.now × Room n (length old.old) (length new.old) (length onward.old) }
    ensures { Ends n most cells.now old.new new.new result }
{
    take(n, cells, new);
    let mut live = u64::MAX;
    for count in 0..most {
        keep(new, old);
        match round(n, live, old, new, onward) {
            Err(Emptied { row, column }) => {
                return Ended::Empty {
                    row,
                    column,
                    round: count + 1,
                };
            }
            Ok(0) => return Ended::Same { rounds: count },
            Ok(changed) => live = changed,
        }
    }
    Ended::UsedUp { rounds: most }
}
