// The retained table: its object count, and the rows that are kept for the next payload.
ghost use Rattle.std.specs.Prelude.{◌≡◌, pos, drop};
ghost use Rattle.standard.specs.Tables.{rows_of, state_numbers};
ghost use Rattle.standard.specs.Calls.{over};
ghost use Rattle.rows.specs.Retained.{Countable, Counted, Keepable};

use crate::numbers::{COUNT, DOUBT, RETAINED_HEAD, RETAINED_LENGTH, ROW_WIDTH};
use crate::table::copy;

// A count that is known to be in form.
#[tactic(auto, unfolding(standard::specs::Tables::count_of, standard::specs::Numbers::object_limit))]
pub fn count_of(table: &[i16]) -> usize
    requires { Countable table.now }
    ensures { Counted table.now result }
{
    let count = table[COUNT];
    count as usize
}

// All is written anew: `count`, no doubt, the rows of `blocks` that begin at `from`, and zeros.
#[tactic(auto, unfolding(standard::specs::Numbers::row_width, standard::specs::Numbers::object_limit, standard::specs::Numbers::retained_length))]
pub fn keep_rows(retained: &mut [i16], blocks: &[i16], from: usize, count: usize)
    requires { Keepable retained.old blocks.now from count }
    ensures { retained.new ≡ over (state_numbers (record { doubt = pos 0; rows = rows_of count (drop from blocks.now) })) retained.old }
{
    let end = RETAINED_HEAD + count * ROW_WIDTH;
    retained[COUNT] = count as i16;
    retained[DOUBT] = 0;
    copy(
        &blocks[from..from + count * ROW_WIDTH],
        &mut retained[RETAINED_HEAD..end],
    );
    retained[end..RETAINED_LENGTH].fill(0);
}
