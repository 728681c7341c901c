// Document 01's numbers of a reading.
ghost use Rattle.std.specs.Prelude.{◌≡◌};
ghost use Rattle.answer.specs.Told.{told};
ghost use Rattle.scene.specs.Numbers.{answer_of};

use crate::Unread;
use crate::format::MOST_BYTES;
use answer::{Numbers, tell};

// A function and no From: docs/PROOFS.md has its contract by this name.
pub fn of_reading(reading: Result<usize, Unread>) -> Numbers
    ensures { told result ≡ answer_of reading }
{
    match reading {
        Ok(regions) => tell(0, 0, 0, 0, regions),
        Err(Unread::WrongLength) => tell(2, 0, 0, 0, 0),
        Err(Unread::TooLong) => tell(3, MOST_BYTES, 0, 0, 0),
        Err(Unread::Refused(refusal, offset)) => tell(refusal.number(), offset, 0, 0, 0),
    }
}
