// One turn of the journal: the record at the head of the bytes that have arrived is answered.
ghost use Rattle.standard.specs.Journal.{step};
ghost use Rattle.oamd.specs.Promises.{lent};
ghost use Rattle.journals.specs.Turns.{turn_on, TurnLeft};

use crate::records::{Pause, step};
use crate::replies::{Reply, reply_to};

// The record that was answered had so many bytes: the next turn begins behind them.
#[derive(Clone, Copy, PartialEq, Eq)]
pub struct Turn {
    pub reply: Reply,
    pub used: usize,
}

// Four tables and no struct of them, since each may have any length: a struct of `&mut`s would have to say in each
// contract which table every one of them is.
pub fn advance(
    arrived: &[u8],
    retained: &mut [i16],
    start: &mut [i16],
    blocks: &mut [i16],
    timings: &mut [u16],
) -> Result<Turn, Pause>
    ensures { TurnLeft (turn_on (lent retained.old start.old blocks.old timings.old) (step arrived.now)) arrived.now result retained.new start.new blocks.new timings.new }
{
    let found = step(arrived)?;
    let reply = reply_to(found.what, retained, start, blocks, timings);
    Ok(Turn {
        reply,
        used: found.length,
    })
}
