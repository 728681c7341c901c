// The two lent work areas.
ghost use Rattle.std.specs.Prelude.{◌≡◌};
ghost use Rattle.network.specs.Areas.{other, chosen, holds};
ghost use Rattle.network.specs.Inner.{Clears};

use crate::Area;

pub(crate) fn other(area: Area) -> Area
    ensures { result ≡ other area }
{
    match area {
        Area::First => Area::Second,
        Area::Second => Area::First,
    }
}

// The area that holds the network after so many rounds from the one named.
pub(crate) fn holds(area: Area, count: usize) -> Area
    ensures { result ≡ holds area count }
{
    if count % 2 == 0 {
        return area;
    }
    other(area)
}

// What belongs to the area named.
pub(crate) fn named<'a, T>(area: Area, first: &'a [T], second: &'a [T]) -> &'a [T]
    ensures bytes { result.now ≡ chosen area first.now second.now }
    ensures itself { result.ref_ptr ≡ chosen area first.entry.ref_ptr second.entry.ref_ptr }
{
    match area {
        Area::First => first,
        Area::Second => second,
    }
}

// Every byte of both areas becomes 0.
pub(crate) fn clear(first: &mut [u8], second: &mut [u8])
    ensures { Clears first.old second.old first.new second.new }
{
    matrix::fill(first, 0);
    matrix::fill(second, 0);
}
