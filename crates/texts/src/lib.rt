// The text of the printing program, made in lent bytes (document 01, The printing program): bytes, words and numbers put one
// after the other. What a line says: crates/printing, specs/.
#![tactic(auto)]

ghost use Rattle.std.specs.Prelude.{[], ◌∷◌};
ghost use Rattle.printing.specs.Words.{decimal, named};
ghost use Rattle.texts.specs.Puts.{Puts};

use itoa::Buffer;

// Lent bytes, and the place in them where the text goes on.
#[derive(Drop)]
pub struct Text<'a> {
    pub bytes: &'a mut [u8],
    pub at: usize,
}

impl<'a> Text<'a> {
    // A byte, if there is room for it.
    pub fn put_byte(&mut self, byte: u8)
        ensures { Puts self.old self.new (byte ∷ []) }
    {
        if self.at < self.bytes.len() {
            self.bytes[self.at] = byte;
            self.at += 1;
        }
    }

    // The bytes of a word.
    pub fn put_word(&mut self, word: &[u8])
        ensures { Puts self.old self.new word.now }
    {
        for byte in word {
            self.put_byte(*byte);
        }
    }

    // A number in decimal. Most have one digit or two, and are put at once: by the library's buffer each takes half as long
    // again.
    pub fn put_number(&mut self, number: u64)
        ensures { Puts self.old self.new (decimal number) }
    {
        if number < 10 {
            self.put_byte(b'0' + number as u8);
        } else if number < 100 {
            self.put_byte(b'0' + (number / 10) as u8);
            self.put_byte(b'0' + (number % 10) as u8);
        } else {
            let mut digits = Buffer::new();
            self.put_word(digits.format(number).as_bytes());
        }
    }

    // A word, and a number after one space.
    pub fn put_named(&mut self, word: &[u8], number: u64)
        ensures { Puts self.old self.new (named word.now number) }
    {
        self.put_word(word);
        self.put_byte(b' ');
        self.put_number(number);
    }
}
