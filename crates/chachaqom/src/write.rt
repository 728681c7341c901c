// Writing a scene for a host in C: the identifiers come as bytes.
ghost use Rattle.std.specs.Prelude.{◌≡◌, ◌≤◌, length};
ghost use Rattle.lists.specs.BigEndian.{numbers_in};
ghost use Rattle.writer.specs.Writes.{Writes};
ghost use Rattle.chachaqom.specs.WriteExport.{identifiers_lent, WriteExport};

use writer::Unwritten;
use writer::numbers::of_writing;

// As many identifiers as there is room for, four bytes each; past the last byte they are 0. Lent: to make all 64 takes a call with few
// regions up to six times as long, and to hand back an array calls the C library's `memcpy`, which the archive for C does not need.
fn identifiers_in(bytes: &[u8], identifiers: &mut [u32])
    requires { length identifiers.old ≤ 64 }
    ensures { identifiers.new ≡ numbers_in (length identifiers.old) bytes.now }
{
    for (place, identifier) in identifiers.iter_mut().enumerate() {
        *identifier = lists::number_at(bytes, 4 * place);
    }
}

// Writes the scene of n regions whose identifiers come as bytes, with room for as many numbers.
fn write_named(
    n: usize,
    bytes: &[u8],
    identifiers: &mut [u32],
    cells: &[u8],
    buffer: &mut [u8],
) -> Result<usize, Unwritten>
    requires { length identifiers.old ≤ 64 }
    ensures { Writes n (numbers_in (length identifiers.old) bytes.now) cells.now buffer.old buffer.new result }
{
    identifiers_in(bytes, identifiers);
    writer::write(n, identifiers, cells, buffer)
}

// Writes the scene of n regions whose identifiers are lent as 4 n bytes.
fn write_lent(
    n: usize,
    identifiers: &[u8],
    cells: &[u8],
    buffer: &mut [u8],
) -> Result<usize, Unwritten>
    ensures { Writes n (identifiers_lent n identifiers.now) cells.now buffer.old buffer.new result }
{
    if !matrix::in_range(n) {
        return Err(Unwritten::OutOfRange);
    }
    if identifiers.len() != 4 * n {
        return Err(Unwritten::WrongLength);
    }
    let mut numbers = [0u32; 64];
    write_named(n, identifiers, &mut numbers[..n], cells, buffer)
}

// Writes the scene of n regions, whose identifiers are lent as 4 n bytes, into the front of the buffer, and answers in 20 bytes.
#[unsafe(no_mangle)]
pub extern "C" fn chachaqom_write(
    n: usize,
    identifiers: &[u8],
    cells: &[u8],
    buffer: &mut [u8],
    answer: &mut [u8],
) -> u32
    ensures { WriteExport n identifiers.now cells.now buffer.old answer.old buffer.new answer.new result }
{
    // A number where Rattle has a Result, and lengths that are tested: the C interface.
    if answer.len() != 20 {
        return 2;
    }
    let writing = write_lent(n, identifiers, cells, buffer);
    answer::put_answer(answer, of_writing(writing))
}
