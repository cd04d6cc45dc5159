// Beds: how many there are, and each is an Lfe alone, or the channels of an assignment.
ghost use Rattle.std.specs.Prelude.{◌≡◌, ◌<◌, ◌^◌};
ghost use Rattle.bits.specs.Say.{Reads};
ghost use Rattle.standard.specs.Assignment as paper;
ghost use Rattle.assignment.specs.Kinds.{Adds};
ghost use Rattle.assignment.specs.Parts.{bed_count};

use crate::channels::{
    NONSTANDARD_LFE, NONSTANDARD_WIDTHS, STANDARD_LFE, STANDARD_WIDTHS, extend_chosen,
};
use crate::contexts;
use crate::kinds::Kinds;
use bits::{BitCursor, Refusal};
use rows::row::Kind;

pub fn parse_beds(bits: &mut BitCursor, kinds: &mut Kinds) -> Result<(), Refusal>
    requires { kinds.old.count ≡ 0 }
    ensures { Adds paper.beds bits.old kinds.old result bits.new kinds.new }
{
    let _distribute = bits.read_flag(contexts::BED_CHANNEL_DISTRIBUTION_FLAG)?;
    for _ in 0..read_bed_count(bits)? {
        parse_bed(bits, kinds)?;
    }
    Ok(())
}

fn read_bed_count(bits: &mut BitCursor) -> Result<u32, Refusal>
    ensures { Reads bed_count bits.old result bits.new }
{
    if !bits.read_flag(contexts::MULTIPLE_BED_INSTANCES_FLAG)? {
        return Ok(1);
    }
    Ok(bits.read(3, contexts::BED_INSTANCE_COUNT)? + 2)
}

// An arm for each assignment, as in the ported Rust: one function for both would take five parameters, and be no plainer.
fn parse_bed(bits: &mut BitCursor, kinds: &mut Kinds) -> Result<(), Refusal>
    requires { kinds.old.count < 2 ^ 16 }
    ensures { Adds paper.one_bed bits.old kinds.old result bits.new kinds.new }
{
    if bits.read_flag(contexts::LFE_ONLY_BED_FLAG)? {
        kinds.push(Kind::Lfe);
    } else if bits.read_flag(contexts::STANDARD_BED_ASSIGNMENT_FLAG)? {
        let assignment = bits.read(STANDARD_WIDTHS.len(), contexts::STANDARD_BED_ASSIGNMENT)?;
        extend_chosen(kinds, assignment, &STANDARD_WIDTHS, STANDARD_LFE);
    } else {
        let context = contexts::NONSTANDARD_BED_ASSIGNMENT;
        let assignment = bits.read(NONSTANDARD_WIDTHS.len(), context)?;
        extend_chosen(kinds, assignment, &NONSTANDARD_WIDTHS, NONSTANDARD_LFE);
    }
    Ok(())
}
