// Text in fixed memory, put together from words and numbers.
ghost use Rattle.std.specs.Prelude.{◌≡◌, ◌+◌, ◌*◌, ◌≤◌, List, length, take, [], ◌++◌, ℕ};
ghost use Rattle.standard.specs.Journal.{decimal, spaced};
ghost use Rattle.journals.specs.Texts.{Puts, Appended};
ghost use Rattle.journals.specs.Padded.{Padded, padded, text_length, bytes-back, length-back};

use std::marker::Model;

// In a contract it is the bytes that were put. Behind them stand zeros, so that they tell the whole array.
#[derive(Clone, Copy)]
pub struct Text<const N: usize> {
    bytes: [u8; N],
    length: usize,
}

impl<const N: usize> Model for Text<N> {
    ghost Value = { List ℕ };

    ghost view = { λ t. take t.length t.bytes };

    ghost invariant = { λ t. (t.length ≤ N) × Padded N t.length t.bytes };

    ghost inverse = { λ s. record { bytes = padded N s; length = text_length s } };

    ghost inverse_ok = { λ t h i. record { bytes = bytes-back h.0 h.1 i; length = length-back h.0 h.1 i } };
}

impl<const N: usize> Text<N> {
    pub fn new() -> Self
        ensures { result ≡ [] }
    {
        Text {
            bytes: [0; N],
            length: 0,
        }
    }

    pub fn as_bytes(&self) -> &[u8]
        ensures bytes { result.now ≡ self.now }
        ensures short { length result.now ≤ N }
    {
        &self.bytes[..self.length]
    }

    // How many bytes more have room.
    pub fn room(&self) -> usize
        ensures { length self.now + result ≡ N }
    {
        N - self.length
    }

    pub fn clear(&mut self)
        ensures { self.new ≡ [] }
    {
        self.bytes[..self.length].fill(0);
        self.length = 0;
    }

    pub fn push(&mut self, word: &[u8])
        requires { length self.old + length word.now ≤ N }
        ensures { self.new ≡ self.old ++ word.now }
    {
        let end = self.length + word.len();
        let all = &mut self.bytes[..];
        all[self.length..end].copy_from_slice(word);
        self.length = end;
    }

    // The word is put where it has room; else nothing is changed.
    pub fn append(&mut self, word: &[u8])
        ensures { Appended N self.old word.now self.new }
    {
        if word.len() <= self.room() {
            self.push(word);
        }
    }

    // The digits before the last one first: no more than 20 calls deep.
    pub fn push_decimal(&mut self, number: u64)
        requires { length self.old + 20 ≤ N }
        ensures { Puts 20 self.old (decimal number) self.new }
    {
        if number < 10 {
            return self.push(&[b'0' + number as u8]);
        }
        self.push_decimal(number / 10);
        self.push(&[b'0' + (number % 10) as u8]);
    }

    // Each behind a space.
    pub fn push_numbers(&mut self, numbers: &[u64])
        requires { length self.old + 21 * length numbers.now ≤ N }
        ensures { Puts (21 * length numbers.now) self.old (spaced numbers.now) self.new }
    {
        for number in numbers {
            self.push(&[b' ']);
            self.push_decimal(*number);
        }
    }
}
