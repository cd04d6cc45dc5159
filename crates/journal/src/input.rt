// Bytes of the input that are not used yet.
ghost use Rattle.std.specs.Prelude.{◌≡◌, ◌-◌, ◌<◌, ◌≤◌, ℕ, List, [], length, take, drop};
ghost use Rattle.journal.specs.Reads.{Arrives};

use std::io;
use std::io::Read;
use std::marker::Model;

// Two longest records: while one has not arrived whole, there is room to read.
pub const INPUT_LENGTH: usize = 131078;

// `from` is the first byte that is not used, and `to` is behind the last that has arrived.
#[derive(Drop)]
pub struct Arrived {
    bytes: [u8; INPUT_LENGTH],
    from: usize,
    to: usize,
}

impl Model for Arrived {
    ghost Value = { List ℕ };

    ghost view = { λ a. take (a.to - a.from) (drop a.from a.bytes) };

    ghost invariant = { λ a. (a.from ≤ a.to) × (a.to ≤ 131078) };
}

impl Arrived {
    pub fn new() -> Self
        ensures { result ≡ [] }
    {
        Arrived {
            bytes: [0; INPUT_LENGTH],
            from: 0,
            to: 0,
        }
    }

    pub fn unused(&self) -> &[u8]
        ensures { result.now ≡ self.now }
    {
        &self.bytes[self.from..self.to]
    }

    pub fn use_up(&mut self, count: usize)
        requires { count ≤ length self.old }
        ensures { self.new ≡ drop count self.old }
    {
        self.from += count;
    }

    // Reads once, and answers how many bytes came: none at the end, so there has to be room for some.
    pub fn read_from<R: Read>(&mut self, input: &mut R) -> io::Result<usize>
        requires { length self.old < 131078 }
        ensures { Arrives self.old result self.new }
    {
        self.bytes.copy_within(self.from..self.to, 0);
        self.to -= self.from;
        self.from = 0;
        let count = input.read(&mut self.bytes[self.to..])?;
        self.to += count;
        Ok(count)
    }
}
