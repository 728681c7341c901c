// Which identifiers may not be written.
ghost use Rattle.std.specs.Prelude.{◌≡◌, ◌||◌, length};
ghost use Rattle.lists.specs.Least.{found_below};
ghost use Rattle.writer.specs.Writing.{is_zero, is_repeated, first_bad};

use filing::place_of;
use region::{Place, identifier_at};

// Whether the identifier at a place is 0 or names an earlier place too.
fn is_bad(identifiers: &[u32], place: usize) -> bool
    ensures { result ≡ (is_zero identifiers.now place || is_repeated identifiers.now place) }
{
    let identifier = identifier_at(identifiers, Place(place));
    identifier.0 == 0 || place_of(identifiers, place, identifier).is_some()
}

// The least place whose identifier is 0 or a repeated one.
pub(crate) fn first_bad(identifiers: &[u32]) -> Option<usize>
    ensures { result ≡ found_below (length identifiers.now) (first_bad (length identifiers.now) identifiers.now) }
{
    (0..identifiers.len()).find(|place| is_bad(identifiers, *place))
}
