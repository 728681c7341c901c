// The records of a scene, one after the other, into areas of the right lengths.
ghost use Rattle.std.specs.Prelude.{OnErr};
ghost use Rattle.filing.specs.Areas.{Lent};
ghost use Rattle.filing.specs.LentAreas.{held, SameAreas};
ghost use Rattle.scene.specs.Inner.{ReadInto};

use crate::Unread;
use crate::format::{MOST_BYTES, REGION_BYTES, STATEMENT_BYTES};
use crate::record::{Record, record_at};
use filing::LentAreas;
use region::Place;
use relation::RelationSet;

// Reads the records until the scene ends or one is refused. A region takes the next place, a statement the next number.
#[tactic(auto, unfolding(crate::specs::Reading::read_scene))]
pub(crate) fn read_records(scene: &[u8], areas: &mut LentAreas) -> Result<usize, Unread>
    requires { Lent (held areas.old) }
    ensures same { SameAreas areas.old areas.new }
    ensures lent { OnErr result (Lent (held areas.new)) }
    ensures read { ReadInto scene.now (held areas.old) (held areas.new) result }
{
    if MOST_BYTES < scene.len() {
        return Err(Unread::TooLong);
    }
    areas.begin(RelationSet::UNIVERSAL);
    let mut at: usize = 0;
    // How much of the lent area is filled: the library has no heap for a list that grows.
    let mut count: usize = 0;
    let mut statements: u16 = 0;
    // A `loop`: an iterator over the records would borrow the identifiers, which each record is judged by and the body writes.
    loop {
        match record_at(scene, &areas.identifiers()[..count], at)? {
            Record::Region(identifier) => {
                areas.put_region(Place(count), identifier);
                count += 1;
                at += REGION_BYTES;
            }
            Record::Statement(from, to, set) => {
                statements += 1;
                areas.mark(from, to, set, statements);
                areas.file(from, to, set);
                at += STATEMENT_BYTES;
            }
            Record::End => {
                filing::pack(areas.cells, count, 0);
                filing::pack(areas.marks, count, 0);
                return Ok(count);
            }
        }
    }
}
