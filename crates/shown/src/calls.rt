// The public call on a row to be shown. It asks nothing of its caller.
ghost use Rattle.standard.specs.Calls.{shown_call};
ghost use Rattle.shown.specs.Promises.{Viewed};

use crate::view::Shown;
use bits::Fault;
use rows::calls::row_part;
use rows::row::Row;

#[tactic(auto, unfolding(standard::specs::Calls::part_call, standard::specs::Calls::shown_call))]
pub fn shown(table: &[i16], index: usize) -> Result<Shown, Fault>
    ensures { Viewed (shown_call table.now index) result }
{
    let part = row_part(table, index)?;
    Ok(Shown::from(Row::from(part)))
}
