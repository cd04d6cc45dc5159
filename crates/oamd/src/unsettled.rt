// How many objects of the last block are unsettled.
ghost use Rattle.std.specs.Prelude.{◌≡◌, ◌+◌, ◌*◌, ◌≤◌, length, drop, not};
ghost use Rattle.standard.specs.Numbers.{row_width, object_limit};
ghost use Rattle.standard.specs.Marks.{is_settled};
ghost use Rattle.standard.specs.Meaning.{unsettled_count};
ghost use Rattle.standard.specs.Tables.{row_of, rows_of};

use rows::numbers::{MARK, ROW_WIDTH, SETTLED};
use rows::table::parts;

// A row with any group unsettled counts.
pub fn count_unsettled(blocks: &[i16], from: usize, count: usize) -> u32
    requires { (count ≤ object_limit) × (from + count * row_width ≤ length blocks.now) }
    ensures { result ≡ unsettled_count (rows_of count (drop from blocks.now)) }
{
    parts(&blocks[from..], count)
        .iter()
        .filter(|part| is_unsettled(part))
        .count() as u32
}

#[tactic(auto, unfolding(standard::specs::Tables::row_of))]
fn is_unsettled(part: &[i16; ROW_WIDTH]) -> bool
    ensures { result ≡ not (is_settled (row_of part.now).mark) }
{
    part[MARK] != SETTLED
}
