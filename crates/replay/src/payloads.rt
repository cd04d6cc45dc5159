// One payload: decoded, and every number compared with the answer in the list.
use crate::answers::{HEAD_LENGTH, Head};
use crate::tables::{Retained, Tables};
use crate::tally::{Part, Record, Tally};
use bits::Fault;
use rows::numbers::{
    BLOCKS_LENGTH, PAYLOAD_LIMIT, RETAINED_HEAD, RETAINED_LENGTH, ROW_WIDTH, START_LENGTH,
    TIMINGS_LENGTH,
};

// One byte more than decode reads.
pub const LONGEST_PAYLOAD: usize = PAYLOAD_LIMIT + 1;

// Behind the head a timing takes two bytes, and any other number one.
pub const LONGEST_ANSWER: usize = HEAD_LENGTH
    + 2 * TIMINGS_LENGTH
    + RETAINED_LENGTH
    + START_LENGTH
    + BLOCKS_LENGTH;

// The tables of an accepted answer, as they stand in the list: the retained table without the zeros behind its rows.
#[derive(Clone, Copy)]
struct Listed<'a> {
    timings: &'a [u8],
    head: [u8; RETAINED_HEAD],
    start: &'a [u8],
    retained: &'a [u8],
    blocks: &'a [u8],
}

impl<'a> Listed<'a> {
    // None where the answer is too short. The block rows stand last, so its length says how many numbers they are.
    fn new(answer: &'a [u8], head: Head) -> Option<Self> {
        let row = head.objects as usize * ROW_WIDTH;
        let (_, tables) = answer.split_at_checked(HEAD_LENGTH)?;
        let (timings, rest) = tables.split_at_checked(4 * head.blocks as usize)?;
        let (head, rows) = rest.split_first_chunk()?;
        let (start, rest) = rows.split_at_checked(row)?;
        let (retained, blocks) = rest.split_at_checked(row)?;
        Some(Listed {
            timings,
            head: *head,
            start,
            retained,
            blocks,
        })
    }

    fn compare(self, tally: &mut Tally, tables: &Tables) {
        let pairs = self.timings.chunks_exact(2);
        let timings = pairs.map(|pair| u16::from_be_bytes([pair[0], pair[1]]));
        let pair_count = timings.len();
        tables.timings.listed(tally, 0, timings);
        tables.start.listed(tally, 0, self.start.iter().map(signed));
        tables
            .blocks
            .listed(tally, 0, self.blocks.iter().map(signed));
        self.compare_retained(tally, &tables.retained);
        tables.start.untouched(tally, self.start.len());
        tables.blocks.untouched(tally, self.blocks.len());
        tables.timings.untouched(tally, pair_count);
    }

    // Count and doubt, the rows, and nothing behind them.
    fn compare_retained(self, tally: &mut Tally, table: &Retained) {
        table.listed(tally, 0, self.head.iter().map(|byte| i16::from(*byte)));
        let rows = self.retained.iter().map(signed);
        table.listed(tally, RETAINED_HEAD, rows);
        table.zeroed(tally, RETAINED_HEAD + self.retained.len());
    }
}

// The numbers of a row lie between -128 and 127.
fn signed(byte: &u8) -> i16 {
    i16::from(byte.cast_signed())
}

// Compares what an accepted payload should have left. An answer that is too short for it is one difference.
fn accepted(tally: &mut Tally, answer: &[u8], head: Head, tables: &Tables) {
    match Listed::new(answer, head) {
        Some(listed) => listed.compare(tally, tables),
        None => tally.differs(Part::Answer, 0),
    }
}

pub fn replay(tally: &mut Tally, payload: &[u8], answer: &[u8], tables: &mut Tables) {
    tables.fill();
    let before = tables.retained.numbers;
    let given = Head::from(tables.decode(payload));
    let listed = Head::listed(answer);
    tally.record(if listed.number == 0 {
        Record::Accepted
    } else {
        Record::Refused
    });
    given.compare(listed, tally);
    if listed.number == 0 {
        return accepted(tally, answer, listed, tables);
    }
    tables.retained.same(tally, &before);
    // A payload that is refused clears the frame; where a fault is told, nothing was read.
    if listed.number < Fault::Room.number() {
        tables.zeroed(tally);
    } else {
        tables.untouched(tally);
    }
}
