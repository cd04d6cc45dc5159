// The whole payload, read into the lent tables. A refusal leaves them half written: the caller clears them.
ghost use Rattle.std.specs.Prelude.{map, ◌≤◌, ◌<◌, length};
ghost use Rattle.standard.specs.Numbers.{object_limit};
ghost use Rattle.standard.specs.Tables.{state_of};
ghost use Rattle.rows.specs.Kinds.{kind_said};
ghost use Rattle.oamd.specs.Asked.{Ready};
ghost use Rattle.oamd.specs.Whole.{body_in, program_in, payload_in};
ghost use Rattle.oamd.specs.Telling.{Telling, lending};

use crate::contexts;
use crate::element::read_element_count;
use crate::elements::parse_elements;
use crate::starts::write_starts;
use crate::tables::{BlockTables, Held, Objects};
use assignment::{parse_program_assignment, read_object_count, read_version};
use bits::{BitCursor, Refusal};
use rows::numbers::OBJECT_LIMIT;
use rows::row::Kind;

// How many objects a payload has, and how many blocks.
#[derive(Clone, Copy)]
pub struct Counts {
    pub objects: u32,
    pub blocks: u32,
}

pub fn parse_payload(
    bits: &mut BitCursor,
    held: Held,
    start: &mut [i16],
    tables: &mut BlockTables,
) -> Result<Counts, Refusal>
    requires { Ready start.old tables.old }
    ensures { Telling (payload_in (state_of held.entry.table.now) (lending start.old tables.old)) bits.old start.old tables.old result bits.new start.new tables.new }
{
    read_version(bits)?;
    let object_count = read_object_count(bits)?;
    let mut kinds = [Kind::Lfe; OBJECT_LIMIT];
    parse_program(bits, &mut kinds[..object_count], held, start, tables)
}

// What follows the object count.
fn parse_program(
    bits: &mut BitCursor,
    kinds: &mut [Kind],
    held: Held,
    start: &mut [i16],
    tables: &mut BlockTables,
) -> Result<Counts, Refusal>
    requires { ((0 < length kinds.old) × (length kinds.old ≤ object_limit)) × Ready start.old tables.old }
    ensures { Telling (program_in (state_of held.entry.table.now) (lending start.old tables.old) (length kinds.old)) bits.old start.old tables.old result bits.new start.new tables.new }
{
    parse_program_assignment(bits, kinds)?;
    parse_body(bits, kinds, held, start, tables)
}

// What follows the kinds. The elements begin after the start rows, so these are written first.
fn parse_body(
    bits: &mut BitCursor,
    kinds: &[Kind],
    held: Held,
    start: &mut [i16],
    tables: &mut BlockTables,
) -> Result<Counts, Refusal>
    requires { (length kinds.now ≤ object_limit) × Ready start.old tables.old }
    ensures { Telling (body_in (state_of held.entry.table.now) (lending start.old tables.old) (map kind_said kinds.now)) bits.old start.old tables.old result bits.new start.new tables.new }
{
    let alternate_data = bits.read_flag(contexts::ALTERNATE_OBJECT_DATA_FLAG)?;
    let count = read_element_count(bits)?;
    write_starts(held, kinds, start);
    let objects = Objects { kinds, start };
    parse_elements(bits, count, alternate_data, objects, tables)?;
    // The padding comes before a missing object element.
    bits.consume_zero_padding(contexts::PAYLOAD_PADDING)?;
    let missing = Refusal::invalid(contexts::MISSING_OBJECT_ELEMENT, bits.limit);
    let blocks = tables.found.ok_or(missing)?;
    Ok(Counts {
        objects: kinds.len() as u32,
        blocks,
    })
}
