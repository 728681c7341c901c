// Eight bytes are a square of bits, turned about its diagonal.
ghost use Rattle.std.specs.Prelude.{◌≡◌};
ghost use Rattle.rows.specs.Inner.{turned_of, Flipped};

// Three exchanges of bits: of neighbours, of squares of two by two, of squares of four by four.
fn flipped(x: u64) -> u64
    ensures { Flipped x result }
{
    let s = (x ^ (x >> 7)) & 0x00aa_00aa_00aa_00aa;
    let y = x ^ s ^ (s << 7);
    let t = (y ^ (y >> 14)) & 0x0000_cccc_0000_cccc;
    let z = y ^ t ^ (t << 14);
    let u = (z ^ (z >> 28)) & 0x0000_0000_f0f0_f0f0;
    z ^ u ^ (u << 28)
}

pub(crate) fn turned(square: [u8; 8]) -> [u8; 8]
    ensures { result ≡ turned_of square }
{
    flipped(u64::from_le_bytes(square)).to_le_bytes()
}
