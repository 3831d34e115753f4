// Fields put into lent bytes one after the other (document 01, Copies and frames): most significant bit first, and zero
// bits to the end of the last byte. A buffer that is too short holds the first bytes.
#![tactic(auto)]

ghost use Rattle.std.specs.Prelude.{◌≡◌, List, [], ◌++◌, ℕ, ◌≤◌, ◌<◌, ◌^◌};
ghost use Rattle.bits.specs.Packing.{bits_of};
ghost use Rattle.packing.specs.Inked.{Inked, Finished, Countable};

use stored_words::{store_four, store_some};

// Where bits are put: `at` times four bytes are written, and the last `filled` bits of `word` wait. The bytes are lent to
// each step and not held: with a pen that holds them, a loop over copies takes a third longer if the pen is lent to it, and
// if it is handed on, nothing is proved of the bytes at its end.
#[derive(Clone, Copy)]
pub struct Pen {
    pub at: usize,
    pub filled: u32,
    pub word: u64,
}

impl Pen {
    // A pen that has put nothing.
    pub fn new() -> Pen
        ensures fresh { result ≡ record { at = 0; filled = 0; word = 0 } }
        ensures nothing { (held : List ℕ) → Inked held held result [] }
    {
        Pen {
            at: 0,
            filled: 0,
            word: 0,
        }
    }

    // One more field: `width` bits with this value.
    pub fn put(self, bytes: &mut [u8], width: u32, value: u32) -> Pen
        ensures { (held bits : List ℕ) → Inked held bytes.old self bits → Countable bits → width ≤ 32
            → value < 2 ^ width → Inked held bytes.new result (bits ++ bits_of width value) }
    {
        let wide = width % 64;
        let word = (self.word << wide) | u64::from(value);
        let filled = self.filled % 32 + wide;
        let at = self.at;
        if filled < 32 {
            return Pen { at, filled, word };
        }
        let rest = filled - 32;
        let next = store_four(bytes, at, word >> rest);
        Pen {
            at: next,
            filled: rest,
            word,
        }
    }

    // The bits that wait, and zero bits to the end of the byte; how many bytes all bits take.
    pub fn finish(self, bytes: &mut [u8]) -> usize
        ensures { (held bits : List ℕ) → Inked held bytes.old self bits → Countable bits
            → Finished held bytes.new bits result }
    {
        let at = self.at % 2305843009213693952;
        let filled = self.filled % 32;
        let count = ((filled + 7) / 8) as usize;
        store_some(bytes, at, self.word << (32 - filled), count);
        4 * at + count
    }
}
