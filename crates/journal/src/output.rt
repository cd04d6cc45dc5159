// Lines wait in a buffer, and are written together.
ghost use Rattle.std.specs.Prelude.{◌≡◌, []};
ghost use Rattle.journal.specs.Waits.{Emits};

use journals::lines::Line;
use journals::texts::Text;
use std::io;
use std::io::Write;

pub const OUTPUT_LENGTH: usize = 65536;

pub type Lines = Text<OUTPUT_LENGTH>;

// None wait any more, also where they could not be written.
pub fn flush<W: Write>(output: &mut W, lines: &mut Lines) -> io::Result<()>
    ensures { lines.new ≡ [] }
{
    let written = output.write_all(lines.as_bytes());
    lines.clear();
    written
}

// The line waits behind the others; where it has no room they are written first.
pub fn emit<W: Write>(output: &mut W, lines: &mut Lines, line: &Line)
    ensures { Emits lines.old line.now lines.new }
{
    let text = line.as_bytes();
    if lines.room() < text.len() {
        let _ = flush(output, lines);
    }
    lines.append(text);
}
