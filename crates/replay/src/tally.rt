// What was replayed so far, and the first difference.
use std::fmt;

// The parts of a record in which a number can differ.
#[derive(Clone, Copy)]
pub enum Part {
    Answer,
    Timings,
    Start,
    Blocks,
    Retained,
}

impl fmt::Display for Part {
    fn fmt<W: fmt::Write>(&self, f: &mut fmt::Formatter<W>) -> fmt::Result {
        f.write_str(match self {
            Part::Answer => "answer",
            Part::Timings => "timings",
            Part::Start => "start",
            Part::Blocks => "blocks",
            Part::Retained => "retained",
        })
    }
}

// The record, counted from 1 with the sequences' marks, its part, and the index there.
#[derive(Clone, Copy)]
pub struct Difference {
    pub record: u64,
    pub part: Part,
    pub index: usize,
}

// What a record is counted as. A payload is accepted or refused by what the list says.
#[derive(Clone, Copy)]
pub enum Record {
    Sequence,
    Start,
    Reset,
    Gap,
    Accepted,
    Refused,
}

#[derive(Clone, Copy, Default)]
pub struct Tally {
    pub sequences: u64,
    pub accepted: u64,
    pub refused: u64,
    pub starts: u64,
    pub resets: u64,
    pub gaps: u64,
    pub differences: u64,
    pub first: Option<Difference>,
    records: u64,
}

fn count(number: &mut u64) {
    *number = number.wrapping_add(1);
}

impl Tally {
    pub fn record(&mut self, record: Record) {
        count(&mut self.records);
        match record {
            Record::Sequence => count(&mut self.sequences),
            Record::Start => count(&mut self.starts),
            Record::Reset => count(&mut self.resets),
            Record::Gap => count(&mut self.gaps),
            Record::Accepted => count(&mut self.accepted),
            Record::Refused => count(&mut self.refused),
        }
    }

    // A number in a part of the present record is not what it should be.
    pub fn differs(&mut self, part: Part, index: usize) {
        count(&mut self.differences);
        let difference = Difference {
            record: self.records,
            part,
            index,
        };
        self.first.get_or_insert(difference);
    }
}
