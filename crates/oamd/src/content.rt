// The content of an element, by its id; what is left of the element is zero.
ghost use Rattle.oamd.specs.Frame.{once_in, content_in};
ghost use Rattle.oamd.specs.Reading.{Framing};
ghost use Rattle.oamd.specs.Say.{said_found, said_frame, said_kinds, starts_of};

use crate::contexts;
use crate::tables::{BlockTables, Objects};
use crate::trim::parse_trim_element;
use bits::{BitCursor, BitPlace, Refusal};
use objects::parse_object_element;

const OBJECT_ELEMENT_ID: u32 = 1;

const TRIM_ELEMENT_ID: u32 = 2;

// The id stands at `at`. What an unknown element holds is free.
pub fn parse_content(
    element: &mut BitCursor,
    id: u32,
    at: BitPlace,
    objects: Objects,
    tables: &mut BlockTables,
) -> Result<(), Refusal>
    ensures { Framing (content_in (starts_of objects.entry) (said_kinds objects.entry) (record { at = at.0; id = id; end = element.old.limit.0 }) (said_frame tables.old)) element.old tables.old result element.new tables.new }
{
    match id {
        OBJECT_ELEMENT_ID => parse_object_content(element, at, objects, tables)?,
        TRIM_ELEMENT_ID => parse_trim_element(element, objects.kinds.len() as u32)?,
        _ => return Ok(()),
    }
    element.consume_zero_padding(contexts::ELEMENT_PADDING)
}

fn parse_object_content(
    element: &mut BitCursor,
    at: BitPlace,
    objects: Objects,
    tables: &mut BlockTables,
) -> Result<(), Refusal>
    ensures { Framing (once_in (starts_of objects.entry) (said_kinds objects.entry) at.0 (said_found tables.old.found) (said_frame tables.old)) element.old tables.old result element.new tables.new }
{
    if tables.found.is_some() {
        return Err(Refusal::invalid(contexts::DUPLICATE_OBJECT_ELEMENT, at));
    }
    let block_count = parse_object_element(
        element,
        objects.kinds,
        objects.start,
        tables.blocks,
        tables.timings,
    )?;
    tables.found = Some(block_count);
    Ok(())
}
