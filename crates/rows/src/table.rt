// The rows of a table, by the places where they begin. A struct of table and place would be no plainer than the two.
ghost use Rattle.std.specs.Prelude.{◌≡◌, ◌+◌, ◌*◌, ◌≤◌, length, take, drop};
ghost use Rattle.std.specs.Simd.{first_chunks};
ghost use Rattle.standard.specs.Numbers.{row_width};
ghost use Rattle.rows.specs.Say.{row_said};
ghost use Rattle.rows.specs.Places.{row_at, put};

use crate::numbers::ROW_WIDTH;
use crate::row::Row;

// The numbers of the row that begins at a place.
#[tactic(auto, unfolding(standard::specs::Numbers::row_width))]
pub fn part_at(table: &[i16], at: usize) -> &[i16; ROW_WIDTH]
    requires { at + row_width ≤ length table.now }
    ensures { result.now ≡ take row_width (drop at table.now) }
{
    // `first_chunk` would test the length once more.
    &table[at..].as_chunks().0[0]
}

// The first `count` rows of a table, each as its numbers.
#[tactic(auto, unfolding(standard::specs::Numbers::row_width))]
pub fn parts(table: &[i16], count: usize) -> &[[i16; ROW_WIDTH]]
    requires { count * row_width ≤ length table.now }
    ensures { result.now ≡ first_chunks row_width count table.now }
{
    table[..count * ROW_WIDTH].as_chunks().0
}

#[tactic(auto, unfolding(crate::specs::Places::row_at))]
pub fn row_at(table: &[i16], at: usize) -> Row
    requires { at + row_width ≤ length table.now }
    ensures { row_said result ≡ row_at table.now at }
{
    Row::from(part_at(table, at))
}

#[tactic(auto, unfolding(standard::specs::Numbers::row_width, crate::specs::Places::put))]
pub fn put_row(table: &mut [i16], at: usize, row: Row)
    requires { at + row_width ≤ length table.old }
    ensures { table.new ≡ put table.old at (row_said row) }
{
    copy(
        &<[i16; ROW_WIDTH]>::from(row),
        &mut table[at..at + ROW_WIDTH],
    );
}

// Not `copy_from_slice`, for which C's archive would need a memmove from outside.
pub fn copy(from: &[i16], to: &mut [i16])
    requires { length from.now ≡ length to.old }
    ensures { to.new ≡ from.now }
{
    for (index, number) in from.iter().enumerate() {
        to[index] = *number;
    }
}
