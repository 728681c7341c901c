// What both kinds of cases print with: entries, their sum and bytes on standard output.
use std::fmt::Display;
use std::io;

// The first `count` entries at most.
pub(crate) fn print_first<R: Print, T: Display>(
    rt: &R,
    entries: &[T],
    count: usize,
) -> io::Result<()> {
    for entry in entries.iter().take(count) {
        print!(rt; " {entry}")?;
    }
    Ok(())
}

// The sum of cells that are too many to print.
pub(crate) fn print_sum<R: Print>(rt: &R, cells: &[u8]) -> io::Result<()> {
    let sum = cells
        .iter()
        .fold(0u32, |sum, cell| sum.wrapping_add(u32::from(*cell)));
    print!(rt; " {sum}")
}

// The first ten bytes at most, in hex.
pub(crate) fn print_bytes<R: Print>(rt: &R, bytes: &[u8]) -> io::Result<()> {
    for byte in bytes.iter().take(10) {
        print!(rt; " {byte:02x}")?;
    }
    Ok(())
}
