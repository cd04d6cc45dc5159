// From the payload's version to the kinds of its objects.
#![tactic(auto)]

ghost use Rattle.std.specs.Prelude.{◌≡◌, ◌<◌, OnErr, map, length};
ghost use Rattle.bits.specs.Say.{Reads, ReadsAs};
ghost use Rattle.rows.specs.Kinds.{kind_said};
ghost use Rattle.standard.specs.Assignment as paper;

use crate::contents::parse_contents;
use crate::kinds::Kinds;
use bits::{BitCursor, Refusal};
use rows::numbers::OBJECT_LIMIT;
use rows::row::Kind;

mod beds;
mod channels;
mod contents;
mod contexts;
mod kinds;

pub fn read_version(bits: &mut BitCursor) -> Result<(), Refusal>
    ensures reads { Reads paper.version bits.old result bits.new }
    ensures stays { OnErr result (bits.new ≡ bits.old) }
{
    let at = bits.position;
    let mut ahead = *bits;
    let version = ahead.read_extended(2, contexts::VERSION, 3, contexts::EXTENDED_VERSION)?;
    if version != 0 {
        return Err(Refusal::unsupported(contexts::VERSION, at));
    }
    *bits = ahead;
    Ok(())
}

pub fn read_object_count(bits: &mut BitCursor) -> Result<usize, Refusal>
    ensures reads { Reads paper.object_count bits.old result bits.new }
    ensures stays { OnErr result (bits.new ≡ bits.old) }
{
    let at = bits.position;
    let mut ahead = *bits;
    let coded = ahead.read_extended(
        5,
        contexts::OBJECT_COUNT,
        7,
        contexts::EXTENDED_OBJECT_COUNT,
    )?;
    let object_count = coded as usize + 1;
    if object_count > OBJECT_LIMIT {
        return Err(Refusal::limit(contexts::OBJECT_COUNT, at));
    }
    *bits = ahead;
    Ok(object_count)
}

// The kind of each object; there are as many as the lent places. A refusal may leave these half written.
pub fn parse_program_assignment(bits: &mut BitCursor, kinds: &mut [Kind]) -> Result<(), Refusal>
    requires { 0 < length kinds.old }
    ensures reads { ReadsAs (λ _. map kind_said kinds.new) (paper.assignment (length kinds.old)) bits.old result bits.new }
    ensures stays { OnErr result (bits.new ≡ bits.old) }
{
    let at = bits.position;
    let mut ahead = *bits;
    if ahead.read_flag(contexts::DYNAMIC_ONLY_PROGRAM_FLAG)? {
        parse_dynamic_only(&mut ahead, kinds)?;
        *bits = ahead;
        return Ok(());
    }
    let mut kinds = Kinds {
        table: kinds,
        count: 0,
    };
    parse_contents(&mut ahead, &mut kinds)?;
    if kinds.count != kinds.table.len() {
        return Err(Refusal::invalid(contexts::PROGRAM_ASSIGNMENT_OBJECT_COUNT, at));
    }
    *bits = ahead;
    Ok(())
}

// The optional Lfe comes first.
fn parse_dynamic_only(bits: &mut BitCursor, kinds: &mut [Kind]) -> Result<(), Refusal>
    requires { 0 < length kinds.old }
    ensures { ReadsAs (λ _. map kind_said kinds.new) (paper.only_dynamic (length kinds.old)) bits.old result bits.new }
{
    let lfe_present = bits.read_flag(contexts::LFE_PRESENT_FLAG)?;
    kinds.fill(Kind::Dynamic);
    if lfe_present {
        kinds[0] = Kind::Lfe;
    }
    Ok(())
}
