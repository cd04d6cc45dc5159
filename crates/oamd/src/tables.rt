// The lent tables of a frame's blocks, its objects with their start rows, and the retained table.
ghost use Rattle.std.specs.Prelude.{◌≡◌, ◌*◌, ◌≤◌, length, drop};
ghost use Rattle.std.specs.Simd.{first_chunks};
ghost use Rattle.standard.specs.Numbers.{row_width, object_limit, retained_head, retained_length, blocks_length, timings_length};
ghost use Rattle.standard.specs.Tables.{count_of};
ghost use Rattle.rows.specs.Retained.{Countable, Counted};

use rows::numbers::{BLOCKS_LENGTH, RETAINED_HEAD, ROW_WIDTH, TIMINGS_LENGTH};
use rows::retained::count_of;
use rows::row::Kind;
use rows::table::parts;

// The retained table, once its form was tested.
#[derive(Clone, Copy)]
pub struct Held<'a> {
    pub table: &'a [i16],
    ghost long: { retained_length ≤ length table.now },
    ghost countable: { Countable table.now },
}

impl<'a> Held<'a> {
    pub fn count(self) -> usize
        ensures { Counted self.entry.table.now result }
    {
        count_of(self.table)
    }

    // Each row as its numbers.
    #[tactic(auto, unfolding(standard::specs::Numbers::retained_length))]
    pub fn rows(self) -> &'a [[i16; ROW_WIDTH]]
        ensures { result.now ≡ first_chunks row_width (count_of self.entry.table.now) (drop retained_head self.entry.table.now) }
    {
        parts(&self.table[RETAINED_HEAD..], self.count())
    }
}

// The kind of each object, and its start row.
#[derive(Clone, Copy)]
pub struct Objects<'a> {
    pub kinds: &'a [Kind],
    pub start: &'a [i16],
    ghost few: { length kinds.now ≤ object_limit },
    ghost its_start: { length kinds.now * row_width ≤ length start.now },
}

// `found` is the number of blocks, once an object element was read. The start rows stay apart: elements read them, and
// behind a field of this struct a slice that is lent to read is known by its length alone.
#[derive(Drop)]
pub struct BlockTables<'a> {
    pub blocks: &'a mut [i16],
    pub timings: &'a mut [u16],
    pub found: Option<u32>,
    ghost for_blocks: { blocks_length ≤ length blocks.now },
    ghost for_timings: { timings_length ≤ length timings.now },
}

impl<'a> BlockTables<'a> {
    ghost use Rattle.oamd.specs.Tables.{Cleared};

    // The needed lengths alone: what lies behind them stays.
    #[tactic(auto, unfolding(standard::specs::Numbers::blocks_length, standard::specs::Numbers::timings_length))]
    pub fn clear(&mut self)
        ensures { Cleared self.old self.new }
    {
        self.blocks[..BLOCKS_LENGTH].fill(0);
        self.timings[..TIMINGS_LENGTH].fill(0);
    }
}
