// One journal, printed under its title.
use journals::lines::{Ending, Line, put_last};
use journals::records::Pause;
use journals::tables::Tables;
use std::io::Write;

// A text that cannot be written is left out.
fn print<W: Write>(output: &mut W, line: &Line) {
    let _ = output.write_all(line.as_bytes());
}

// Written at once with its newline, as each line is.
fn heading(title: &str) -> Line {
    let mut line = Line::new();
    line.append(title.as_bytes());
    line.append(b"\n");
    line
}

// Each turn but the last uses two bytes at least, so as many turns as bytes, and one, suffice.
pub fn show<W: Write>(output: &mut W, title: &str, journal: &[u8]) {
    print(output, &heading(title));
    let mut tables = Tables::new();
    let mut rest = journal;
    let mut records = 0u64;
    let mut offset = 0u64;
    for _ in 0..=journal.len() {
        let number = records.wrapping_add(1);
        let ending = match tables.print_next(rest, number, offset) {
            Ok(printed) => {
                print(output, &printed.line);
                rest = &rest[printed.used..];
                records = number;
                offset = offset.wrapping_add(printed.used as u64);
                continue;
            }
            Err(Pause::More) if rest.is_empty() => Ending::Complete,
            Err(Pause::More) => Ending::Torn(offset),
            Err(Pause::Unknown) => Ending::BadMark(offset),
        };
        return print(output, &put_last(records, ending));
    }
}
