// Text on a lent buffer: words and decimal numbers, each put behind the one before it if there is room for all of it.
#![tactic(auto)]

ghost use Rattle.text.specs.Decimal.{decimal};
ghost use Rattle.text.specs.Put.{PutsOn};

use itoa::Buffer;

// A lent buffer, and the offset at which the next text goes.
#[derive(Drop)]
pub struct Page<'a> {
    pub buffer: &'a mut [u8],
    pub at: usize,
}

impl Page<'_> {
    // Puts a word at the offset, which moves behind it; without room nothing is written and the offset is the same.
    #[tactic(auto, using(crate::proofs::PutLaws::put_copied))]
    pub fn put_word(&mut self, word: &[u8])
        ensures { PutsOn word.now self.old self.new }
    {
        let Some(end) = self.at.checked_add(word.len()) else {
            return;
        };
        if self.buffer.len() < end {
            return;
        }
        self.buffer[self.at..end].copy_from_slice(word);
        self.at = end;
    }

    // Puts a number in decimal, as `put_word` puts a word.
    #[tactic(auto, using(crate::proofs::DecimalLaws::decimal_printed))]
    pub fn put_decimal(&mut self, number: usize)
        ensures { PutsOn (decimal number) self.old self.new }
    {
        self.put_word(Buffer::new().format(number).as_bytes());
    }
}
