// The start rows: the retained ones where the kinds are the same, default ones where they are not.
ghost use Rattle.std.specs.Prelude.{◌≡◌, map, ◌≤◌, length};
ghost use Rattle.standard.specs.Numbers.{object_limit, start_length};
ghost use Rattle.standard.specs.Tree.{kind_code};
ghost use Rattle.standard.specs.Rows.{is};
ghost use Rattle.standard.specs.Marks.{doubted};
ghost use Rattle.standard.specs.Meaning.{held_row, held_rows, default_row, same_kinds, start_rows};
ghost use Rattle.standard.specs.Tables.{row_of, rows_numbers, state_of};
ghost use Rattle.standard.specs.Calls.{over};
ghost use Rattle.rows.specs.Say.{row_said};
ghost use Rattle.rows.specs.Kinds.{kind_said};

use crate::tables::Held;
use rows::numbers::{DOUBT, KIND, PRIORITY_LIMIT, RETAINED_HEAD, ROW_WIDTH, SETTLED, UNSETTLED};
use rows::row::{Kind, Row, default_picture};
use rows::table::{copy, put_row};

#[tactic(auto, using(rows::proofs::Tests::back), unfolding(standard::specs::Meaning::start_rows, standard::specs::Tables::state_of, standard::specs::Numbers::retained_length))]
pub fn write_starts(held: Held, kinds: &[Kind], start: &mut [i16])
    requires { (length kinds.now ≤ object_limit) × (start_length ≤ length start.old) }
    ensures { start.new ≡ over (rows_numbers (start_rows (state_of held.entry.table.now) (map kind_said kinds.now))) start.old }
{
    if same_kinds(held, kinds) {
        write_held(held, start);
    } else {
        write_defaults(kinds, held.table[DOUBT], start);
    }
}

// The retained rows. Without doubt they are copied as they stand.
#[tactic(auto, unfolding(standard::specs::Numbers::retained_length, standard::specs::Numbers::start_length, standard::specs::Numbers::object_limit, standard::specs::Numbers::row_width))]
pub fn write_held(held: Held, start: &mut [i16])
    requires { start_length ≤ length start.old }
    ensures { start.new ≡ over (rows_numbers (held_rows (state_of held.entry.table.now))) start.old }
{
    let count = held.count();
    let doubt = held.table[DOUBT];
    if doubt == 0 {
        let end = RETAINED_HEAD + count * ROW_WIDTH;
        copy(
            &held.table[RETAINED_HEAD..end],
            &mut start[..count * ROW_WIDTH],
        );
        return;
    }
    let rows = held.rows();
    for (object, part) in rows.iter().enumerate() {
        put_row(start, object * ROW_WIDTH, held_row(Row::from(part), doubt));
    }
}

// A row is put at a place, so the place is counted; one function over the rows of this and of `write_held` would be no plainer.
fn write_defaults(kinds: &[Kind], doubt: i16, start: &mut [i16])
    requires { (length kinds.now ≤ object_limit) × (start_length ≤ length start.old) }
    ensures { start.new ≡ over (rows_numbers (map (default_row doubt) (map kind_said kinds.now))) start.old }
{
    for (object, kind) in kinds.iter().enumerate() {
        put_row(start, object * ROW_WIDTH, default_row(*kind, doubt));
    }
}

#[tactic(auto, unfolding(standard::specs::Numbers::retained_length))]
fn same_kinds(held: Held, kinds: &[Kind]) -> bool
    ensures { result ≡ same_kinds (map kind_said kinds.now) (state_of held.entry.table.now).rows }
{
    let rows = held.rows();
    rows.len() == kinds.len()
        && kinds
            .iter()
            .zip(rows)
            .all(|(kind, part)| is_kind(part, *kind))
}

#[tactic(auto, unfolding(standard::specs::Tables::row_of))]
fn is_kind(part: &[i16; ROW_WIDTH], kind: Kind) -> bool
    ensures { result ≡ is (kind_code (kind_said kind)) (row_of part.now).kind }
{
    part[KIND] == kind.number()
}

#[tactic(auto, using(rows::proofs::Tests::back), unfolding(standard::specs::Meaning::held_row))]
fn held_row(mut row: Row, doubt: i16) -> Row
    ensures { row_said result ≡ held_row doubt (row_said row) }
{
    row.mark = doubted(doubt, row.mark);
    row
}

// The row of an object that is new, or whose program has changed.
#[tactic(auto, using(rows::proofs::Tests::back), unfolding(standard::specs::Meaning::default_row))]
fn default_row(kind: Kind, doubt: i16) -> Row
    ensures { row_said result ≡ default_row doubt (kind_said kind) }
{
    Row {
        kind: kind.number(),
        active: 1,
        gain: 0,
        priority: PRIORITY_LIMIT,
        picture: default_picture(),
        mark: doubted(doubt, SETTLED),
    }
}

// In doubt no row is settled.
fn doubted(doubt: i16, mark: i16) -> i16
    ensures { result ≡ doubted doubt mark }
{
    if doubt == 0 { mark } else { UNSETTLED }
}
