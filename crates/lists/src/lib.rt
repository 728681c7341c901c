// What every layer does to lists: the least entry that passes a test, an area that is filled in front, numbers of 32 and of 16 bits as
// bytes, big-endian. Every call is total.
#![tactic(auto)]

ghost use Rattle.std.specs.Prelude.{◌≡◌, ◌+◌, get_or};
ghost use Rattle.lists.specs.BigEndian.{number_at, bytes_put, number_put, two_bytes_put};

// The byte so many bytes behind an offset; past the end it counts as 0.
fn byte_behind(bytes: &[u8], at: usize, behind: usize) -> u8
    ensures { result ≡ get_or bytes.now (at + behind) 0 }
{
    at.checked_add(behind)
        .and_then(|place| bytes.get(place))
        .copied()
        .unwrap_or(0)
}

// The number whose four bytes begin at an offset.
pub fn number_at(bytes: &[u8], at: usize) -> u32
    ensures { result ≡ number_at bytes.now at }
{
    u32::from_be_bytes([0, 1, 2, 3].map(|behind| byte_behind(bytes, at, behind)))
}

// Bytes into those that begin at an offset, if all of them are there.
#[tactic(auto, using(crate::proofs::BigEndianLaws::bytes_between))]
fn put_bytes(area: &mut [u8], at: usize, bytes: &[u8])
    ensures { area.new ≡ bytes_put area.old at bytes.now }
{
    if at <= area.len() && bytes.len() <= area.len() - at {
        area[at..at + bytes.len()].copy_from_slice(bytes);
    }
}

// A number into the four bytes that begin at an offset, if all four are there.
pub fn put_number(area: &mut [u8], at: usize, number: u32)
    ensures { area.new ≡ number_put area.old at number }
{
    put_bytes(area, at, &u32::to_be_bytes(number));
}

// A number of 16 bits into the two bytes that begin at an offset, if both are there.
pub fn put_two_bytes(area: &mut [u8], at: usize, number: u16)
    ensures { area.new ≡ two_bytes_put area.old at number }
{
    put_bytes(area, at, &u16::to_be_bytes(number));
}
