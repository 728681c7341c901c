// Scene files: the reader, and the bytes of a refused record.
#![tactic(auto)]

pub mod format;
pub mod numbers;
mod record;
mod records;
mod span;

ghost use Rattle.std.specs.Prelude.{◌≡◌};
ghost use Rattle.filing.specs.Areas.{holding};
ghost use Rattle.scene.specs.Reading.{read_scene};
ghost use Rattle.scene.specs.Numbers.{number_of};
ghost use Rattle.scene.specs.Reads.{Reads};
ghost use Rattle.scene.specs.Span.{RefusedPart};

use filing::{LENT_CELLS, LENT_IDENTIFIERS, LentAreas};
use records::read_records;
use span::span_of;

// Why a record is refused.
#[derive(Clone, Copy, PartialEq, Eq, Debug)]
pub enum Refusal {
    NoRegion,
    CutShort,
    UnknownKind,
    IdentifierZero,
    DeclaredTwice,
    TooManyRegions,
    NotDeclared,
    EmptySet,
    BytesLeft,
}

impl Refusal {
    // Document 01's number. A `match`: discriminants differ, and must-fail/nine_for_ten makes two the same.
    pub fn number(self) -> u32
        ensures { result ≡ number_of self }
    {
        match self {
            Refusal::NoRegion => 1,
            Refusal::CutShort => 4,
            Refusal::UnknownKind => 5,
            Refusal::IdentifierZero => 6,
            Refusal::DeclaredTwice => 7,
            Refusal::TooManyRegions => 8,
            Refusal::NotDeclared => 9,
            Refusal::EmptySet => 10,
            Refusal::BytesLeft => 11,
        }
    }
}

// Why a scene is not read.
#[derive(Clone, Copy, PartialEq, Eq, Debug)]
pub enum Unread {
    // The lent identifiers are not 64, or the cells or their marks not 4,096.
    WrongLength,
    // The scene has more than 32,768 bytes.
    TooLong,
    // A record is refused, at this byte of the scene.
    Refused(Refusal, usize),
}

// Reads a scene of n regions into 64 identifiers and 4,096 cells with a mark for each: the first n identifiers, and cells and marks in
// rows of n. A mark is the number of the last statement that removed a relation from the cell.
pub fn read(
    scene: &[u8],
    identifiers: &mut [u32],
    cells: &mut [u8],
    marks: &mut [u16],
) -> Result<usize, Unread>
    ensures { Reads scene.now (holding identifiers.old cells.old marks.old)
        (holding identifiers.new cells.new marks.new) result }
{
    let mut areas = LentAreas {
        identifiers,
        cells,
        marks,
    };
    if !areas.are_lent() {
        return Err(Unread::WrongLength);
    }
    let reading = read_records(scene, &mut areas);
    if reading.is_err() {
        areas.clear();
    }
    reading
}

// The refused record's own bytes, as a part of the scene: its full length or what remains of it, one byte for an unknown kind,
// everything left for bytes after the end; an empty part where no record is refused.
pub fn refused_record(scene: &[u8]) -> &[u8]
    ensures { RefusedPart scene.now (read_scene scene.now) scene.entry.ref_ptr result.now result.ref_ptr }
{
    let mut identifiers = [0u32; LENT_IDENTIFIERS];
    let mut cells = [0u8; LENT_CELLS];
    let mut marks = [0u16; LENT_CELLS];
    let span = span_of(scene, read(scene, &mut identifiers, &mut cells, &mut marks));
    &scene[span]
}
