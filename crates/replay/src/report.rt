// The lines that are printed at the end. What cannot be written is left out.
use crate::tally::Tally;
use std::io::Write;

pub fn print<W: Write>(output: &mut W, tally: &Tally, torn: bool) {
    let lines = [
        ("sequences", tally.sequences),
        ("payloads", tally.accepted.wrapping_add(tally.refused)),
        ("accepted", tally.accepted),
        ("refused", tally.refused),
        ("starts", tally.starts),
        ("resets", tally.resets),
        ("gaps", tally.gaps),
        ("differences", tally.differences),
    ];
    for (name, number) in lines {
        let _ = writeln!(output, "{name} {number}");
    }
    if let Some(first) = tally.first {
        let _ = writeln!(
            output,
            "first difference: record {}, {} number {}",
            first.record, first.part, first.index
        );
    }
    if torn {
        let _ = writeln!(output, "the list is torn");
    }
}
