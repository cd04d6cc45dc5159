// All three layers at once: the line of the record at the head of the bytes that have arrived.
ghost use Rattle.standard.specs.Journal.{step};
ghost use Rattle.oamd.specs.Promises.{lent};
ghost use Rattle.journals.specs.Turns.{turn_on};
ghost use Rattle.std.specs.Prelude.{◌≡◌, []};
ghost use Rattle.journals.specs.Prints.{PrintLeft, printed_in};

use crate::lines::{Line, write_line};
use crate::records::Pause;
use crate::turns::advance;

// The line of a record, and how many bytes the record has.
#[derive(Clone, Copy)]
pub struct Printed {
    pub line: Line,
    pub used: usize,
}

pub fn print_next(
    arrived: &[u8],
    number: u64,
    offset: u64,
    retained: &mut [i16],
    start: &mut [i16],
    blocks: &mut [i16],
    timings: &mut [u16],
) -> Result<Printed, Pause>
    ensures { PrintLeft number offset (turn_on (lent retained.old start.old blocks.old timings.old) (step arrived.now)) arrived.now result retained.new start.new blocks.new timings.new }
{
    let mut line = Line::new();
    let used = print_into(
        arrived, number, offset, retained, start, blocks, timings, &mut line,
    )?;
    Ok(Printed { line, used })
}

// The same, into a line that is lent empty: a line that is handed back is copied on its way.
pub fn print_into(
    arrived: &[u8],
    number: u64,
    offset: u64,
    retained: &mut [i16],
    start: &mut [i16],
    blocks: &mut [i16],
    timings: &mut [u16],
    line: &mut Line,
) -> Result<usize, Pause>
    requires { line.old ≡ [] }
    ensures { PrintLeft number offset (turn_on (lent retained.old start.old blocks.old timings.old) (step arrived.now)) arrived.now (printed_in line.new result) retained.new start.new blocks.new timings.new }
{
    let turn = advance(arrived, retained, start, blocks, timings)?;
    write_line(line, number, offset, turn.reply);
    Ok(turn.used)
}
