// Replays the oracle's fixed list from standard input: each record goes through the decoder, and every number is compared.
#![tactic(auto)]

mod answers;
mod list;
mod payloads;
mod report;
mod retained;
mod table;
mod tables;
mod tally;

use crate::payloads::{LONGEST_ANSWER, LONGEST_PAYLOAD};
use crate::tables::Tables;
use crate::tally::{Record, Tally};
use std::io;
use std::io::{ErrorKind, Read};

// A payload record: its two lengths, the payload, the answer.
fn payload<R: Read>(input: &mut R, tally: &mut Tally, tables: &mut Tables) -> io::Result<()> {
    let mut payload = [0u8; LONGEST_PAYLOAD];
    let mut answer = [0u8; LONGEST_ANSWER];
    let [p0, p1, a0, a1] = list::bytes::<R, 4>(input)?;
    let payload_length = u16::from_be_bytes([p0, p1]) as usize;
    let answer_length = u16::from_be_bytes([a0, a1]) as usize;
    let payload = list::front(input, &mut payload, payload_length)?;
    let answer = list::front(input, &mut answer, answer_length)?;
    payloads::replay(tally, payload, answer, tables);
    Ok(())
}

// Up to the mark of the end. Nothing says that the input ends, and a loop has to: no list has so many records.
fn replay<R: Read>(input: &mut R, tally: &mut Tally) -> io::Result<()> {
    let mut tables = Tables::new();
    for _ in 0..u64::MAX {
        match u8::from_be_bytes(list::bytes(input)?) {
            b'S' => tally.record(Record::Sequence),
            b'B' => retained::start(tally, &mut tables.retained),
            b'R' => retained::reset(tally, &mut tables.retained),
            b'G' => retained::gap(tally, &mut tables.retained),
            b'P' => payload(input, tally, &mut tables)?,
            b'E' => return Ok(()),
            _ => break,
        }
    }
    Err(ErrorKind::InvalidData.into())
}

fn main(rt: HostRuntime) {
    let mut tally = Tally::default();
    let torn = replay(&mut rt.stdin(), &mut tally).is_err();
    // What cannot be written is left out.
    report::print(&mut rt.stdout(), &tally, torn);
}
