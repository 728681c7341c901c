// What every call answers: the document's five numbers, and the 20 bytes in which they cross to a host in C.
#![tactic(auto)]

ghost use Rattle.std.specs.Prelude.{◌≡◌};
ghost use Rattle.lists.specs.BigEndian.{big_endian};
ghost use Rattle.answer.specs.Answer.{answer};
ghost use Rattle.answer.specs.Told.{told};
ghost use Rattle.answer.specs.Bytes.{Answers};

// The refusal number or 0, three places (unused ones 0), and a count.
#[derive(Clone, Copy, PartialEq, Eq, Debug)]
pub struct Numbers {
    pub number: u32,
    pub first: usize,
    pub second: usize,
    pub third: usize,
    pub count: usize,
}

// Here alone the five stand side by side, the refusal as its number, as it crosses to C: the clause, public, speaks of all five.
pub fn tell(number: u32, first: usize, second: usize, third: usize, count: usize) -> Numbers
    ensures { told result ≡ answer number first second third count }
{
    Numbers {
        number,
        first,
        second,
        third,
        count,
    }
}

// The low 32 bits of a number, as they cross to C; no number of an answer is wider.
fn crossing(number: usize) -> [u8; 4]
    ensures { result ≡ big_endian number }
{
    ((number & 0xffff_ffff) as u32).to_be_bytes()
}

// An answer into an area of exactly 20 bytes, and its number handed back; 2, the document's number for C in `Answers`, for another length.
pub fn put_answer(area: &mut [u8], numbers: Numbers) -> u32
    ensures { Answers (told numbers) area.old area.new result }
{
    if area.len() != 20 {
        return 2;
    }
    // A widening `as`, since `usize` has no `From<u32>`.
    let number = numbers.number as usize;
    let bytes = [
        number,
        numbers.first,
        numbers.second,
        numbers.third,
        numbers.count,
    ]
    .map(crossing);
    area.copy_from_slice(bytes.as_flattened());
    numbers.number
}
