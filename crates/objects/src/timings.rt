// What stands before the objects: the number of blocks, their timings and the reserved bits.
ghost use Rattle.std.specs.Prelude.{◌≡◌, ◌+◌, ◌*◌, ◌≤◌, ◌<◌, ◌^◌, length};
ghost use Rattle.bits.specs.Parsed.{map_p, times};
ghost use Rattle.bits.specs.Say.{Reads};
ghost use Rattle.standard.specs.Numbers.{timings_length};
ghost use Rattle.standard.specs.Calls.{over};
ghost use Rattle.standard.specs.Syntax as paper;
ghost use Rattle.standard.specs.Tables.{timing_numbers};
ghost use Rattle.objects.specs.Fills.{Fills, put_timing};
ghost use Rattle.objects.specs.Element.{ReadTimings, chosen_ramp};

use crate::contexts;
use bits::{BitCursor, Refusal};

// A block starts a multiple of so many samples behind the offset.
const BLOCK_OFFSET: u32 = 32;

const SAMPLE_OFFSETS: [u32; 4] = [8, 16, 18, 24];

const DURATIONS: [u32; 16] = [
    32, 64, 128, 256, 320, 480, 1000, 1001, 1024, 1600, 1601, 1602, 1920, 2000, 2002, 2048,
];

// The answer is the number of blocks.
pub fn parse_block_timings(bits: &mut BitCursor, timings: &mut [u16]) -> Result<u32, Refusal>
    requires { timings_length ≤ length timings.old }
    ensures { ReadTimings bits.old timings.old result bits.new timings.new }
{
    let sample_offset = read_sample_offset(bits)?;
    let later_blocks = bits.read(3, contexts::UPDATE_BLOCK_COUNT)?;
    let block_count = later_blocks + 1;
    parse_timings(bits, sample_offset, block_count as usize, timings)?;
    skip_reserved(bits)?;
    Ok(block_count)
}

fn read_sample_offset(bits: &mut BitCursor) -> Result<u32, Refusal>
    ensures { Reads paper.sample_offset bits.old result bits.new }
{
    let at = bits.position;
    match bits.read(2, contexts::SAMPLE_OFFSET_CODE)? {
        0 => Ok(0),
        1 => {
            let index = bits.read(2, contexts::SAMPLE_OFFSET_INDEX)?;
            Ok(SAMPLE_OFFSETS[index as usize])
        }
        2 => bits.read(5, contexts::SAMPLE_OFFSET),
        _ => Err(Refusal::invalid(contexts::SAMPLE_OFFSET_CODE, at)),
    }
}

// Where each block starts, and how long its ramp is. Tried by chunks of two: the proof didn't close.
fn parse_timings(
    bits: &mut BitCursor,
    sample_offset: u32,
    block_count: usize,
    timings: &mut [u16],
) -> Result<(), Refusal>
    requires { (sample_offset < 2 ^ 5) × (2 * block_count ≤ length timings.old) }
    ensures { Fills (2 * block_count) (map_p (λ ts. over (timing_numbers ts) timings.old) (times block_count (paper.timing sample_offset))) bits.old timings.old result bits.new timings.new }
{
    for block in 0..block_count {
        parse_timing(bits, sample_offset, timings, 2 * block)?;
    }
    Ok(())
}

// The two numbers take the places that begin at `first`.
fn parse_timing(
    bits: &mut BitCursor,
    sample_offset: u32,
    timings: &mut [u16],
    first: usize,
) -> Result<(), Refusal>
    requires { (sample_offset < 2 ^ 5) × (first + 2 ≤ length timings.old) }
    ensures { Fills (first + 2) (map_p (put_timing timings.old first) (paper.timing sample_offset)) bits.old timings.old result bits.new timings.new }
{
    let factor = bits.read(6, contexts::BLOCK_OFFSET_FACTOR)?;
    let ramp_duration = read_ramp_duration(bits)?;
    timings[first] = (sample_offset + factor * BLOCK_OFFSET) as u16;
    timings[first + 1] = ramp_duration as u16;
    Ok(())
}

fn read_ramp_duration(bits: &mut BitCursor) -> Result<u32, Refusal>
    ensures { Reads paper.ramp bits.old result bits.new }
{
    match bits.read(2, contexts::RAMP_DURATION_CODE)? {
        0 => Ok(0),
        1 => Ok(512),
        2 => Ok(1536),
        _ => read_chosen_duration(bits),
    }
}

fn read_chosen_duration(bits: &mut BitCursor) -> Result<u32, Refusal>
    ensures { Reads chosen_ramp bits.old result bits.new }
{
    if !bits.read_flag(contexts::INDEXED_RAMP_DURATION_FLAG)? {
        return bits.read(11, contexts::RAMP_DURATION);
    }
    let index = bits.read(4, contexts::RAMP_DURATION_INDEX)?;
    Ok(DURATIONS[index as usize])
}

// Absent, or five zero bits.
fn skip_reserved(bits: &mut BitCursor) -> Result<(), Refusal>
    ensures { Reads paper.reserved bits.old result bits.new }
{
    if bits.read_flag(contexts::RESERVED_DATA_NOT_PRESENT_FLAG)? {
        return Ok(());
    }
    let at = bits.position;
    let reserved = bits.read(5, contexts::OBJECT_ELEMENT_RESERVED_DATA)?;
    if reserved != 0 {
        return Err(Refusal::invalid(contexts::OBJECT_ELEMENT_RESERVED_DATA, at));
    }
    Ok(())
}
