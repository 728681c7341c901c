// Reading a scene for a host in C: identifiers and marks go out as bytes.
ghost use Rattle.std.specs.Prelude.{◌≡◌, length};
ghost use Rattle.scene.specs.Numbers.{answer_of};
ghost use Rattle.chachaqom.specs.ReadExport.{ReadExport};
ghost use Rattle.chachaqom.specs.Inner.{HandedOver};

use crate::crossing::put_each;
use scene::Unread;
use scene::numbers::of_reading;

// Writes the identifiers and the marks that a reading left, unless it left them as they were.
fn hand_over(
    identifiers: &mut [u8],
    marks: &mut [u8],
    numbers: &[u32; 64],
    statements: &[u16; 4096],
    reading: Result<usize, Unread>,
)
    requires { (length identifiers.old ≡ 256) × (length marks.old ≡ 8192) }
    ensures { HandedOver (answer_of reading).number numbers.now statements.now identifiers.old marks.old identifiers.new marks.new }
{
    if reading != Err(Unread::WrongLength) {
        put_each(identifiers, numbers);
        put_each(marks, statements);
    }
}

// Reads a scene into 64 identifiers of four bytes, 4,096 cells and as many marks of two bytes, and answers in 20 bytes.
#[unsafe(no_mangle)]
pub extern "C" fn chachaqom_read(
    scene: &[u8],
    identifiers: &mut [u8],
    cells: &mut [u8],
    marks: &mut [u8],
    answer: &mut [u8],
) -> u32
    ensures { ReadExport scene.now identifiers.old cells.old marks.old answer.old identifiers.new cells.new marks.new answer.new result }
{
    // A number where Rattle has a Result, and lengths that are tested: the C interface.
    if answer.len() != 20 {
        return 2;
    }
    if identifiers.len() != 256 || marks.len() != 8192 {
        return answer::put_answer(answer, of_reading(Err(Unread::WrongLength)));
    }
    let mut numbers = [0u32; 64];
    let mut statements = [0u16; 4096];
    let reading = scene::read(scene, &mut numbers, cells, &mut statements);
    hand_over(identifiers, marks, &numbers, &statements, reading);
    answer::put_answer(answer, of_reading(reading))
}
