// The rows of the objects: object by object, and in each block by block.
ghost use Rattle.std.specs.Prelude.{◌≡◌, map, ◌+◌, ◌*◌, ◌≤◌, ◌<◌, ◌^◌, length};
ghost use Rattle.standard.specs.Numbers.{row_width};
ghost use Rattle.rows.specs.Say.{row_said};
ghost use Rattle.rows.specs.Kinds.{kind_said};
ghost use Rattle.objects.specs.Fills.{Fills};
ghost use Rattle.objects.specs.Walk.{place, gain_before, column_from, objects_from};

use bits::{BitCursor, Refusal};
use rows::numbers::{GAIN, ROW_WIDTH};
use rows::row::{Kind, Row};
use rows::table::{part_at, put_row, row_at};
use update::{apply, read_update};

// The rows of one object, of a kind: its place among so many objects, in each of so many blocks.
#[derive(Clone, Copy)]
struct Column {
    kind: Kind,
    object: usize,
    objects: usize,
    blocks: usize,
}

// Each object begins after its row of the start table.
pub fn parse_objects(
    bits: &mut BitCursor,
    kinds: &[Kind],
    block_count: usize,
    start: &[i16],
    blocks: &mut [i16],
) -> Result<(), Refusal>
    requires { (length kinds.now * row_width ≤ length start.now) × (block_count * length kinds.now * row_width ≤ length blocks.old) }
    ensures { Fills (block_count * length kinds.now * row_width) (objects_from (length kinds.now) block_count start.now 0 (map kind_said kinds.now) blocks.old) bits.old blocks.old result bits.new blocks.new }
{
    for (object, kind) in kinds.iter().enumerate() {
        let column = Column {
            kind: *kind,
            object,
            objects: kinds.len(),
            blocks: block_count,
        };
        let first = row_at(start, object * ROW_WIDTH);
        parse_object(bits, column, first, blocks)?;
    }
    Ok(())
}

// In each block the object goes on from its row of the block before. A row has its place by the number of its block.
fn parse_object(
    bits: &mut BitCursor,
    column: Column,
    first: Row,
    blocks: &mut [i16],
) -> Result<(), Refusal>
    requires { (column.object < column.objects) × (column.blocks * column.objects * row_width ≤ length blocks.old) }
    ensures { Fills (column.blocks * column.objects * row_width) (column_from column.objects column.object (kind_said column.kind) column.blocks 0 (row_said first) blocks.old) bits.old blocks.old result bits.new blocks.new }
{
    let mut row = first;
    for block in 0..column.blocks {
        let words = read_update(bits, column.kind, block == 0)?;
        let gain = column.gain_before(blocks, block);
        row = apply(words, column.kind, gain, row);
        put_row(blocks, column.place(block), row);
    }
    Ok(())
}

impl Column {
    // Where its row of a block begins.
    #[tactic(auto, unfolding(crate::specs::Walk::place, standard::specs::Numbers::row_width))]
    fn place(self, block: usize) -> usize
        requires { place self.objects block self.object < 2 ^ 64 }
        ensures { result ≡ place self.objects block self.object }
    {
        (block * self.objects + self.object) * ROW_WIDTH
    }

    // The gain of the object before, whose row ends where this one begins; 0 dB before the first object.
    fn gain_before(self, blocks: &[i16], block: usize) -> i16
        requires { place self.objects block self.object ≤ length blocks.now }
        ensures { result ≡ gain_before self.objects block self.object blocks.now }
    {
        if self.object == 0 {
            return 0;
        }
        part_at(blocks, self.place(block) - ROW_WIDTH)[GAIN]
    }
}
