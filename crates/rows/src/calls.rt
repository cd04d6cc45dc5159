// The public calls that need a table alone: programme start, reset, gap, and the row of an object. None asks anything of its caller.
ghost use Rattle.std.specs.Prelude.{◌<◌, ◌≡◌, pos, length, set};
ghost use Rattle.standard.specs.Numbers.{doubt_at};
ghost use Rattle.standard.specs.Calls.{programme_start, reset, gap, part_call};
ghost use Rattle.rows.specs.Promises.{Left, Handed};

use crate::form::in_form;
use crate::numbers::{DOUBT, RETAINED_LENGTH, ROW_WIDTH};
use crate::row::Row;
use crate::table::part_at;
use bits::Fault;

// A fresh decoder, at the head of a programme.
#[tactic(auto, using(std::proofs::lemmas::Bool::Decides::nat_tests), unfolding(standard::specs::Calls::programme_start, standard::specs::Calls::renewed, standard::specs::Numbers::retained_length))]
pub fn programme_start(retained: &mut [i16]) -> Result<(), Fault>
    ensures { Left (programme_start retained.old) result retained.new }
{
    if retained.len() < RETAINED_LENGTH {
        return Err(Fault::Room);
    }
    retained[..RETAINED_LENGTH].fill(0);
    Ok(())
}

// A programme may be under way: the same start, but in doubt.
#[tactic(auto, using(crate::proofs::Resets::resets))]
pub fn reset(retained: &mut [i16]) -> Result<(), Fault>
    ensures { Left (reset retained.old) result retained.new }
{
    programme_start(retained)?;
    doubt(retained);
    Ok(())
}

// Only the doubt changes.
#[tactic(auto, using(std::proofs::lemmas::Bool::Decides::nat_tests), unfolding(standard::specs::Calls::gap, standard::specs::Numbers::retained_length))]
pub fn gap(retained: &mut [i16]) -> Result<(), Fault>
    ensures { Left (gap retained.old) result retained.new }
{
    if retained.len() < RETAINED_LENGTH {
        return Err(Fault::Room);
    }
    if !in_form(retained) {
        return Err(Fault::Form);
    }
    doubt(retained);
    Ok(())
}

fn doubt(retained: &mut [i16])
    requires { doubt_at < length retained.old }
    ensures { retained.new ≡ set retained.old doubt_at (pos 1) }
{
    retained[DOUBT] = 1;
}

// The row at an index, as the part of the table where it lies.
#[tactic(auto, using(std::proofs::lemmas::Bool::Decides::nat_tests), unfolding(standard::specs::Calls::part_call, standard::specs::Calls::row_number, standard::specs::Calls::row_part, standard::specs::Numbers::row_width))]
pub fn row_part(table: &[i16], index: usize) -> Result<&[i16; ROW_WIDTH], Fault>
    ensures { Handed (part_call table.now index) result }
{
    // The rows are counted first, since the index may be any number.
    let rows = table.len() / ROW_WIDTH;
    if rows <= index {
        return Err(Fault::Index);
    }
    let part = part_at(table, index * ROW_WIDTH);
    if Row::from(part).shown_form() {
        Ok(part)
    } else {
        Err(Fault::Form)
    }
}
