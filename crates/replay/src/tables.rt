// The four lent tables before a payload, and what must be there after it.
use crate::table::{BEHIND, Table};
use crate::tally::{Part, Tally};
use oamd::{DecodeError, Frame};
use rows::numbers::{BLOCKS_LENGTH, RETAINED_LENGTH, START_LENGTH, TIMINGS_LENGTH};

pub const RETAINED_LENT: usize = RETAINED_LENGTH + BEHIND;

const START_LENT: usize = START_LENGTH + BEHIND;

const BLOCKS_LENT: usize = BLOCKS_LENGTH + BEHIND;

const TIMINGS_LENT: usize = TIMINGS_LENGTH + BEHIND;

const SENTINEL: i16 = 21845;

const TIMINGS_SENTINEL: u16 = 43690;

pub type Retained = Table<i16, RETAINED_LENT>;

#[derive(Drop)]
pub struct Tables {
    pub retained: Retained,
    pub start: Table<i16, START_LENT>,
    pub blocks: Table<i16, BLOCKS_LENT>,
    pub timings: Table<u16, TIMINGS_LENT>,
}

impl Tables {
    pub fn new() -> Self {
        Tables {
            retained: renewed(),
            start: Table::new(Part::Start, START_LENGTH, SENTINEL),
            blocks: Table::new(Part::Blocks, BLOCKS_LENGTH, SENTINEL),
            timings: Table::new(Part::Timings, TIMINGS_LENGTH, TIMINGS_SENTINEL),
        }
    }

    // All becomes the sentinel, but for what is retained.
    pub fn fill(&mut self) {
        self.retained.fill(RETAINED_LENGTH);
        self.start.fill(0);
        self.blocks.fill(0);
        self.timings.fill(0);
    }

    pub fn decode(&mut self, payload: &[u8]) -> Result<Frame, DecodeError> {
        oamd::decode(
            payload,
            &mut self.retained.numbers,
            &mut self.start.numbers,
            &mut self.blocks.numbers,
            &mut self.timings.numbers,
        )
    }

    // The frame tables should hold the sentinel still.
    pub fn untouched(&self, tally: &mut Tally) {
        self.start.untouched(tally, 0);
        self.blocks.untouched(tally, 0);
        self.timings.untouched(tally, 0);
    }

    // The frame tables should be zero in the needed lengths.
    pub fn zeroed(&self, tally: &mut Tally) {
        self.start.zeroed(tally, 0);
        self.blocks.zeroed(tally, 0);
        self.timings.zeroed(tally, 0);
    }
}

// A retained table of zeros, and the sentinel behind what is needed.
pub fn renewed() -> Retained {
    Table::new(Part::Retained, RETAINED_LENGTH, SENTINEL)
}
