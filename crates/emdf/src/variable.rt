// Numbers of variable length, group by group: a value that passes every limit stays there.
ghost use Rattle.std.specs.Prelude.{◌≤◌};
ghost use Rattle.standard.specs.Container as paper;
ghost use Rattle.emdf.specs.Say.{ReadsContainer, nearly};

use crate::fields::{read, read_flag};
use bits::{BitCursor, Fault, two_to};

// Twice the largest container.
const LARGE: u32 = 131072;

// Not as `bits` reads it: what is added to the largest value is variable bits, and no field.
#[inline(always)]
pub fn read_extended(bits: &mut BitCursor, width: usize) -> Result<u32, Fault>
    requires { width ≤ 11 }
    ensures { ReadsContainer (nearly (paper.extended width)) bits.old result bits.new }
{
    let value = read(bits, width)?;
    if value != two_to(width) - 1 {
        return Ok(value);
    }
    let more = read_variable_bits(bits, width)?;
    Ok((value + more).min(LARGE))
}

// Not as `bits` reads it: the end alone limits the groups, and no count, so the value is kept small. As a call it would not know its width.
#[inline(always)]
pub fn read_variable_bits(bits: &mut BitCursor, width: usize) -> Result<u32, Fault>
    requires { width ≤ 11 }
    ensures { ReadsContainer (nearly (paper.variable width)) bits.old result bits.new }
{
    let span = two_to(width);
    let mut value = read(bits, width)?;
    while read_flag(bits)? {
        let group = read(bits, width)?;
        value = (value * span + span + group).min(LARGE);
    }
    Ok(value)
}
