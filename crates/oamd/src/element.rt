// How many elements there are, and what each begins with.
ghost use Rattle.bits.specs.Say.{Reads, ReadsAs};
ghost use Rattle.standard.specs.Syntax.{element_count, alternate};
ghost use Rattle.oamd.specs.Head.{element_end};
ghost use Rattle.oamd.specs.Say.{said_place};

use crate::contexts;
use bits::{BitCursor, BitPlace, ByteCount, Refusal};

const MAX_OAMD_ELEMENTS: u32 = 31;

pub fn read_element_count(bits: &mut BitCursor) -> Result<u32, Refusal>
    ensures { Reads element_count bits.old result bits.new }
{
    let limited = Refusal::limit(contexts::ELEMENT_COUNT, bits.position);
    let element_count = bits.read_extended(
        4,
        contexts::ELEMENT_COUNT,
        5,
        contexts::EXTENDED_ELEMENT_COUNT,
    )?;
    if element_count > MAX_OAMD_ELEMENTS {
        return Err(limited);
    }
    Ok(element_count)
}

// The place where an element ends. Its size is coded less one.
pub fn read_element_end(bits: &mut BitCursor) -> Result<BitPlace, Refusal>
    ensures { ReadsAs said_place element_end bits.old result bits.new }
{
    let size_bits = bits.read_variable_bits_max(4, contexts::ELEMENT_SIZE)?;
    let inside = bits.position;
    let element_bits = ByteCount(size_bits as usize + 1).bits();
    let remained = bits.limit.0 - inside.0;
    if element_bits.0 > remained {
        return Err(Refusal::truncated(
            contexts::ELEMENT,
            inside,
            element_bits.0 as u32,
            remained as u32,
        ));
    }
    Ok(BitPlace(inside.0 + element_bits.0))
}

// Only the id 0 is supported.
pub fn parse_alternate_data(element: &mut BitCursor, alternate_data: bool) -> Result<(), Refusal>
    ensures { Reads (alternate alternate_data) element.old result element.new }
{
    if !alternate_data {
        return Ok(());
    }
    let id_at = element.position;
    let alternate_id = element.read(4, contexts::ALTERNATE_OBJECT_DATA_ID)?;
    if alternate_id != 0 {
        return Err(Refusal::unsupported(contexts::ALTERNATE_OBJECT_DATA_TYPE, id_at));
    }
    Ok(())
}
