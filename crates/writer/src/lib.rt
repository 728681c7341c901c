// The scene writer: identifiers and cells become a scene that the reader gives back unchanged.
#![tactic(auto)]

mod checks;
mod named;
pub mod numbers;
mod put;

ghost use Rattle.writer.specs.Writes.{Writes};

use checks::first_bad;
use named::NamedMatrix;
use region::{Place, identifier_at};
use scene::format::MOST_BYTES;

// Why a scene is not written.
#[derive(Clone, Copy, PartialEq, Eq, Debug)]
pub enum Unwritten {
    // The number of regions is not from 1 to 64.
    OutOfRange,
    // The identifiers are not n, or the cells not n².
    WrongLength,
    // The identifier at this place is 0.
    IdentifierZero(Place),
    // The identifier at this place stands at an earlier one too.
    DeclaredTwice(Place),
    // The first empty cell, by row and column.
    EmptySet(Place, Place),
    // The scene would have more than 32,768 bytes.
    TooLong,
    // The buffer is shorter than the scene.
    NoRoom,
}

// Writes the scene of n regions into the front of the buffer, and answers how many bytes it has; a refused write leaves the buffer
// untouched. The matrix comes in three parts, since `Writes` answers 1 and 2 about them where they make none.
pub fn write(
    n: usize,
    identifiers: &[u32],
    cells: &[u8],
    buffer: &mut [u8],
) -> Result<usize, Unwritten>
    ensures { Writes n identifiers.now cells.now buffer.old buffer.new result }
{
    if !matrix::in_range(n) {
        return Err(Unwritten::OutOfRange);
    }
    if identifiers.len() != n || cells.len() != n * n {
        return Err(Unwritten::WrongLength);
    }
    if let Some(bad) = first_bad(identifiers) {
        if identifier_at(identifiers, Place(bad)).0 == 0 {
            return Err(Unwritten::IdentifierZero(Place(bad)));
        }
        return Err(Unwritten::DeclaredTwice(Place(bad)));
    }
    let matrix = NamedMatrix {
        n,
        identifiers,
        cells,
    };
    if let Some(empty) = matrix::first_empty(cells) {
        let (row, column) = matrix.regions_of(empty);
        return Err(Unwritten::EmptySet(row, column));
    }
    let length = matrix.scene_length();
    if MOST_BYTES < length {
        return Err(Unwritten::TooLong);
    }
    if buffer.len() < length {
        return Err(Unwritten::NoRoom);
    }
    matrix.put_scene(buffer);
    Ok(length)
}
