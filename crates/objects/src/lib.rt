// The object element: its timings, and the rows of each object in each block.
#![tactic(auto)]

ghost use Rattle.std.specs.Prelude.{◌≡◌, OnErr, map, length};
ghost use Rattle.standard.specs.Tables.{rows_of};
ghost use Rattle.rows.specs.Kinds.{kind_said};
ghost use Rattle.objects.specs.Element.{Room, ReadElement};

use crate::timings::parse_block_timings;
use crate::walk::parse_objects;
use bits::{BitCursor, Refusal};
use rows::row::Kind;

mod contexts;
mod timings;
mod walk;

// The answer is the number of blocks. A refusal may leave the tables half written.
pub fn parse_object_element(
    bits: &mut BitCursor,
    kinds: &[Kind],
    start: &[i16],
    blocks: &mut [i16],
    timings: &mut [u16],
) -> Result<u32, Refusal>
    requires { Room (length kinds.now) start.now blocks.old timings.old }
    ensures reads { ReadElement (map kind_said kinds.now) (rows_of (length kinds.now) start.now) bits.old result bits.new blocks.old blocks.new timings.old timings.new }
    ensures stays { OnErr result (bits.new ≡ bits.old) }
{
    let mut ahead = *bits;
    let block_count = parse_block_timings(&mut ahead, timings)?;
    parse_objects(&mut ahead, kinds, block_count as usize, start, blocks)?;
    *bits = ahead;
    Ok(block_count)
}
