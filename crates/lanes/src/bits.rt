// The places of a word's bits, lowest first.
ghost use Rattle.std.specs.Prelude.{◌≡◌};
ghost use Rattle.std.specs.Iterator.{YieldsFirst, item_count};
ghost use Rattle.lists.specs.Least.{found_below};
ghost use Rattle.lanes.specs.Places.{lowest_of, without_lowest, places};
ghost use Rattle.lanes.specs.Going.{places_left};

// The place of the lowest bit, if there is one.
#[tactic(auto, using(std::proofs::lemmas::Bool::Decides::nat_tests))]
pub fn lowest(word: u64) -> Option<usize>
    ensures { result ≡ found_below 64 (lowest_of word) }
{
    // A widening `as`, since `usize` has no `From<u32>`.
    let place = word.trailing_zeros() as usize;
    if place < 64 { Some(place) } else { None }
}

// The word less its lowest bit; 0 stays 0.
pub fn without_lowest(word: u64) -> u64
    ensures { result ≡ without_lowest word }
{
    if word == 0 {
        return 0;
    }
    word & (word - 1)
}

// Goes through the places of a word's bits; it has the bits whose places are still to come.
#[derive(Clone, Copy)]
pub struct Places(u64);

// The places of the word's bits.
pub fn places_of(word: u64) -> Places
    ensures { places_left result ≡ places word }
{
    Places(word)
}

impl Iterator for Places {
    type Item = usize;

    ghost next_gives = { YieldsFirst places_left };

    ghost remaining = { item_count places_left };

    fn next(&mut self) -> Option<usize> {
        let place = lowest(self.0)?;
        self.0 = without_lowest(self.0);
        Some(place)
    }
}
