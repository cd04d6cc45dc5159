// Plays a journal turn by turn: what has arrived is answered, and what waits is written before more is read.
ghost use Rattle.std.specs.Prelude.{◌≡◌, ◌<◌, [], length};
ghost use Rattle.journals.specs.Promises.{record_limit};
ghost use Rattle.journal.specs.Steps.{standing, Begins, Stopped, ReadOn, Turned, Played};

use crate::input::Arrived;
use crate::output::{Lines, emit, flush};
use journals::lines::{Ending, Line, put_last};
use journals::records::Pause;
use journals::tables::Tables;
use std::io;
use std::io::{Read, Write};

// How many records and bytes of the journal are used, what has arrived behind them, and the lines that wait.
#[derive(Drop)]
pub struct Player {
    pub records: u64,
    pub offset: u64,
    pub tables: Tables,
    pub arrived: Arrived,
    pub lines: Lines,
}

impl Player {
    pub fn new() -> Self
        ensures { Begins result }
    {
        let tables = Tables::new();
        Player {
            records: 0,
            offset: 0,
            tables,
            arrived: Arrived::new(),
            lines: Lines::new(),
        }
    }

    // Turn after turn to the last line, or until lines cannot be written. Nothing says that the input ends, so the
    // turns are counted to a number that no journal uses up.
    pub fn play<R: Read, W: Write>(&mut self, input: &mut R, output: &mut W) -> io::Result<()>
        requires { Begins self.old }
        ensures { Played result (standing self.new) self.new.lines }
    {
        for _ in 0..u64::MAX {
            if !self.turn(input, output)? {
                break;
            }
        }
        Ok(())
    }

    // Says whether the journal goes on. One of 2^64 bytes would begin its offsets again.
    fn turn<R: Read, W: Write>(&mut self, input: &mut R, output: &mut W) -> io::Result<bool>
        ensures { Turned (standing self.old) self.old.lines result (standing self.new) self.new.lines }
    {
        let number = self.records.wrapping_add(1);
        let mut line = Line::new();
        match self
            .tables
            .print_into(self.arrived.unused(), number, self.offset, &mut line)
        {
            Ok(used) => {
                self.arrived.use_up(used);
                self.records = number;
                self.offset = self.offset.wrapping_add(used as u64);
                emit(output, &mut self.lines, &line);
                Ok(true)
            }
            Err(Pause::More) => self.read_on(input, output),
            Err(Pause::Unknown) => Ok(self.stop(output, Ending::BadMark(self.offset))),
        }
    }

    // Whoever waits for the lines of what has arrived gets them before the program waits for more.
    fn read_on<R: Read, W: Write>(&mut self, input: &mut R, output: &mut W) -> io::Result<bool>
        requires { length self.old.arrived < record_limit }
        ensures { ReadOn self.old result self.new }
    {
        flush(output, &mut self.lines)?;
        match self.arrived.read_from(input) {
            Ok(0) if self.arrived.unused().is_empty() => Ok(self.stop(output, Ending::Complete)),
            Ok(0) => Ok(self.stop(output, Ending::Torn(self.offset))),
            Ok(_) => Ok(true),
            Err(_) => Ok(self.stop(output, Ending::Fault(self.offset))),
        }
    }

    // The last line waits behind the others, and the journal goes on no more.
    fn stop<W: Write>(&mut self, output: &mut W, ending: Ending) -> bool
        ensures { Stopped self.old ending result self.new }
    {
        emit(output, &mut self.lines, &put_last(self.records, ending));
        false
    }
}
