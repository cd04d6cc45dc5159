// The elements of a payload, one after the other.
ghost use Rattle.oamd.specs.Frame.{element_in, elements_in};
ghost use Rattle.oamd.specs.Reading.{Framing};
ghost use Rattle.oamd.specs.Say.{said_frame, said_kinds, starts_of};

use crate::content::parse_content;
use crate::contexts;
use crate::element::{parse_alternate_data, read_element_end};
use crate::tables::{BlockTables, Objects};
use bits::{BitCursor, Refusal};

pub fn parse_elements(
    bits: &mut BitCursor,
    count: u32,
    alternate_data: bool,
    objects: Objects,
    tables: &mut BlockTables,
) -> Result<(), Refusal>
    ensures { Framing (elements_in (starts_of objects.entry) count alternate_data (said_kinds objects.entry) (said_frame tables.old)) bits.old tables.old result bits.new tables.new }
{
    for _element in 0..count {
        parse_element(bits, alternate_data, objects, tables)?;
    }
    Ok(())
}

// The reads inside an element end with it, and after it the payload goes on there.
fn parse_element(
    bits: &mut BitCursor,
    alternate_data: bool,
    objects: Objects,
    tables: &mut BlockTables,
) -> Result<(), Refusal>
    ensures { Framing (element_in (starts_of objects.entry) alternate_data (said_kinds objects.entry) (said_frame tables.old)) bits.old tables.old result bits.new tables.new }
{
    let at = bits.position;
    let id = bits.read(4, contexts::ELEMENT_ID)?;
    let end = read_element_end(bits)?;
    let mut element = BitCursor::new(bits.payload, end, bits.position);
    parse_alternate_data(&mut element, alternate_data)?;
    let _discard_unknown = element.read_flag(contexts::DISCARD_UNKNOWN_ELEMENT_FLAG)?;
    parse_content(&mut element, id, at, objects, tables)?;
    bits.position = end;
    Ok(())
}
