// The call over four lent tables: it reads a payload, writes its frame, and retains the last block.
ghost use Rattle.std.specs.Prelude.{◌≡◌};
ghost use Rattle.standard.specs.Calls as calls;
ghost use Rattle.oamd.specs.Ends.{Tested, Retainable, Retained};
ghost use Rattle.oamd.specs.Promises.{Left, lent};
ghost use Rattle.oamd.specs.declared.decoder.DecodeError.TheVariants.{Refused, Unread};

use crate::payload::{Counts, parse_payload};
use crate::tables::{BlockTables, Held};
use crate::unsettled::count_unsettled;
use bits::{BitCursor, BitPlace, ByteCount, Fault, Refusal};
use rows::form::in_form;
use rows::numbers::{
    BLOCKS_LENGTH, PAYLOAD_LIMIT, RETAINED_LENGTH, ROW_WIDTH, START_LENGTH, TIMINGS_LENGTH,
};
use rows::retained::keep_rows;

#[derive(Clone, Copy, PartialEq, Eq)]
pub struct Frame {
    pub objects: u32,
    pub blocks: u32,
    pub unsettled: u32,
}

// A refusal of the payload stands at a place of it; a fault says why it was not read.
#[derive(Clone, Copy, PartialEq, Eq)]
pub enum DecodeError {
    Refused(Refusal),
    Unread(Fault),
}

impl From<Refusal> for DecodeError {
    ghost from_gives = { λ refusal error. error ≡ Refused refusal };

    fn from(refusal: Refusal) -> DecodeError {
        DecodeError::Refused(refusal)
    }
}

impl From<Fault> for DecodeError {
    ghost from_gives = { λ fault error. error ≡ Unread fault };

    fn from(fault: Fault) -> DecodeError {
        DecodeError::Unread(fault)
    }
}

// Four slices, since C lends four tables.
pub fn decode(
    payload: &[u8],
    retained: &mut [i16],
    start: &mut [i16],
    blocks: &mut [i16],
    timings: &mut [u16],
) -> Result<Frame, DecodeError>
    ensures { Left (calls.decode payload.now (lent retained.old start.old blocks.old timings.old)) result retained.new start.new blocks.new timings.new }
{
    test(payload, retained, start, blocks, timings)?;
    let mut tables = BlockTables {
        blocks,
        timings,
        found: None,
    };
    let held = Held { table: retained };
    let limit = ByteCount(payload.len()).bits();
    let mut bits = BitCursor::new(payload, limit, BitPlace(0));
    match parse_payload(&mut bits, held, start, &mut tables) {
        Ok(counts) => Ok(retain(retained, &tables, counts)),
        Err(refusal) => {
            start[..START_LENGTH].fill(0);
            tables.clear();
            Err(refusal.into())
        }
    }
}

// Room comes before form, and form before size.
#[tactic(auto, using(std::proofs::lemmas::Bool::Decides::nat_tests), unfolding(standard::specs::Calls::decode, standard::specs::Calls::has_room, standard::specs::Numbers::retained_length, standard::specs::Numbers::start_length, standard::specs::Numbers::blocks_length, standard::specs::Numbers::timings_length, standard::specs::Numbers::payload_limit))]
fn test(
    payload: &[u8],
    retained: &[i16],
    start: &[i16],
    blocks: &[i16],
    timings: &[u16],
) -> Result<(), Fault>
    ensures { Tested payload.now (lent retained.now start.now blocks.now timings.now) result }
{
    if retained.len() < RETAINED_LENGTH
        || start.len() < START_LENGTH
        || blocks.len() < BLOCKS_LENGTH
        || timings.len() < TIMINGS_LENGTH
    {
        return Err(Fault::Room);
    }
    if !in_form(retained) {
        return Err(Fault::Form);
    }
    if payload.len() > PAYLOAD_LIMIT {
        return Err(Fault::Size);
    }
    Ok(())
}

// The last block is kept for the next payload.
#[tactic(auto, unfolding(standard::specs::Numbers::row_width))]
fn retain(retained: &mut [i16], tables: &BlockTables, counts: Counts) -> Frame
    requires { Retainable counts retained.old tables.now.blocks.now }
    ensures { Retained counts tables.now.blocks.now result retained.old retained.new }
{
    let count = counts.objects as usize;
    let from = (counts.blocks as usize - 1) * count * ROW_WIDTH;
    keep_rows(retained, tables.blocks, from, count);
    Frame {
        objects: counts.objects,
        blocks: counts.blocks,
        unsettled: count_unsettled(tables.blocks, from, count),
    }
}
