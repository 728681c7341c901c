// Document 01's numbers of a writing.
ghost use Rattle.std.specs.Prelude.{◌≡◌};
ghost use Rattle.answer.specs.Told.{told};
ghost use Rattle.writer.specs.Numbers.{answer_of};

use crate::Unwritten;
use answer::{Numbers, tell};
use scene::format::MOST_BYTES;

// A function and no From: docs/PROOFS.md has its contract by this name.
pub fn of_writing(writing: Result<usize, Unwritten>) -> Numbers
    ensures { told result ≡ answer_of writing }
{
    match writing {
        Ok(bytes) => tell(0, 0, 0, 0, bytes),
        Err(Unwritten::OutOfRange) => tell(1, 0, 0, 0, 0),
        Err(Unwritten::WrongLength) => tell(2, 0, 0, 0, 0),
        Err(Unwritten::IdentifierZero(place)) => tell(6, place.0, 0, 0, 0),
        Err(Unwritten::DeclaredTwice(place)) => tell(7, place.0, 0, 0, 0),
        Err(Unwritten::EmptySet(i, j)) => tell(10, i.0, j.0, 0, 0),
        Err(Unwritten::TooLong) => tell(3, MOST_BYTES, 0, 0, 0),
        Err(Unwritten::NoRoom) => tell(12, 0, 0, 0, 0),
    }
}
