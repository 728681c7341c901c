// Numbers as they cross to C: as bytes, the highest first.
ghost use Rattle.std.specs.Prelude.{◌≡◌, ◌+◌, ◌*◌, ◌≤◌, ℕ, List, length, refl};
ghost use Rattle.std.specs.List.{flat_map};
ghost use Rattle.lists.specs.BigEndian.{big_endian, two_bytes, bytes_put};

// A number that crosses as so many bytes.
pub(crate) trait Crossing: Copy {
    ghost bytes_of: { Self → List ℕ };

    ghost width: { ℕ };

    // Puts the number into its bytes, those of as many numbers before it passed over.
    fn put(self, area: &mut [u8], place: usize)
        requires { width * place + width ≤ length area.old }
        ensures { area.new ≡ bytes_put area.old (width * place) (bytes_of self) };

    ghost wide: { (number : Self) → length (bytes_of number) ≡ width };
}

impl Crossing for u32 {
    ghost bytes_of = { big_endian };

    ghost width = { 4 };

    ghost wide = { λ number. refl };

    fn put(self, area: &mut [u8], place: usize) {
        lists::put_number(area, 4 * place, self);
    }
}

impl Crossing for u16 {
    ghost bytes_of = { two_bytes };

    ghost width = { 2 };

    ghost wide = { λ number. refl };

    fn put(self, area: &mut [u8], place: usize) {
        lists::put_two_bytes(area, 2 * place, self);
    }
}

// Puts numbers one behind the other into as many bytes as they have.
// By offset: of `chunks_exact_mut` a proof knows no element afterwards, and `as_flattened` takes 8 KB of stack more than the header states.
pub(crate) fn put_each<N: Crossing>(bytes: &mut [u8], numbers: &[N])
    requires { length bytes.old ≡ N.width * length numbers.now }
    ensures { bytes.new ≡ flat_map N.bytes_of numbers.now }
{
    for (place, number) in numbers.iter().enumerate() {
        number.put(bytes, place);
    }
}
