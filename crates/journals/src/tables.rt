// The four tables of a program that plays journals.
ghost use Rattle.std.specs.Prelude.{◌≡◌, []};
ghost use Rattle.standard.specs.Journal.{step, fresh_tables};
ghost use Rattle.journals.specs.Turns.{turn_on};
ghost use Rattle.journals.specs.Prints.{PrintLeft, printed_in};
ghost use Rattle.journals.specs.Say.{lent_of};

use crate::lines::Line;
use crate::prints::{Printed, print_into, print_next};
use crate::records::Pause;
use rows::calls::programme_start;
use rows::numbers::{BLOCKS_LENGTH, RETAINED_LENGTH, START_LENGTH, TIMINGS_LENGTH};

#[derive(Drop)]
pub struct Tables {
    pub retained: [i16; RETAINED_LENGTH],
    pub start: [i16; START_LENGTH],
    pub blocks: [i16; BLOCKS_LENGTH],
    pub timings: [u16; TIMINGS_LENGTH],
}

impl Tables {
    // Begun with a programme. The table has room, so there is no fault.
    pub fn new() -> Self
        ensures { lent_of result ≡ fresh_tables }
    {
        let mut retained = [0; RETAINED_LENGTH];
        let _ = programme_start(&mut retained);
        Tables {
            retained,
            start: [0; START_LENGTH],
            blocks: [0; BLOCKS_LENGTH],
            timings: [0; TIMINGS_LENGTH],
        }
    }

    // The same, into a line that is lent empty.
    pub fn print_into(
        &mut self,
        arrived: &[u8],
        number: u64,
        offset: u64,
        line: &mut Line,
    ) -> Result<usize, Pause>
        requires { line.old ≡ [] }
        ensures { PrintLeft number offset (turn_on (lent_of self.old) (step arrived.now)) arrived.now (printed_in line.new result) self.new.retained self.new.start self.new.blocks self.new.timings }
    {
        print_into(
            arrived,
            number,
            offset,
            &mut self.retained,
            &mut self.start,
            &mut self.blocks,
            &mut self.timings,
            line,
        )
    }

    pub fn print_next(&mut self, arrived: &[u8], number: u64, offset: u64) -> Result<Printed, Pause>
        ensures { PrintLeft number offset (turn_on (lent_of self.old) (step arrived.now)) arrived.now result self.new.retained self.new.start self.new.blocks self.new.timings }
    {
        print_next(
            arrived,
            number,
            offset,
            &mut self.retained,
            &mut self.start,
            &mut self.blocks,
            &mut self.timings,
        )
    }
}
