// What the programs read: bytes into a space that is lent, until it is full or the input ends.
#![tactic(auto)]

ghost use Rattle.std.specs.Prelude.{IfOk};
ghost use Rattle.input.specs.Filled.{Filled};

use std::io::{self, Read};

// Reads until the space is full, the input ends or a read fails; how many bytes were read, from the beginning of the space on.
// The library's `read_to_end` needs an allocator, whose calls would be assumed too, and its `read_exact` takes a short input for a failure.
pub fn read_full<R: Read>(reader: &mut R, space: &mut [u8]) -> io::Result<usize>
    ensures { IfOk result (Filled (R.remaining reader.old) (R.remaining reader.new) space.new) }
{
    let mut done = 0;
    while done < space.len() {
        match reader.read(&mut space[done..])? {
            0 => break,
            more => done += more,
        }
    }
    Ok(done)
}
