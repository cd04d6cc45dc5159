// Prints several journals that it holds in memory, each under a title: one for each ending, and those at a limit.
#![tactic(auto)]

mod shown;

use crate::shown::show;
use rows::numbers::PAYLOAD_LIMIT;
use std::io::Write;

// The mark and the length of a payload.
const HEAD: usize = 4;

const AT_THE_LIMIT: usize = HEAD + PAYLOAD_LIMIT;

const OVER_THE_LIMIT: usize = AT_THE_LIMIT + 1;

// The longest record, and a gap behind it.
const LONGEST: usize = HEAD + 0xffff;

const WITH_GAP: usize = LONGEST + 2;

fn endings<W: Write>(output: &mut W) {
    let cases: [(&str, &[u8]); 11] = [
        ("empty", b""),
        ("two records", b"GPRS"),
        ("a lone byte", b"G"),
        ("a lone byte behind a record", b"GPR"),
        ("a lone byte that begins two marks", b"P"),
        ("a start cut after its first byte", b"PSP"),
        ("a mark alone", b"PL"),
        ("one byte of a length", b"PL\x00"),
        ("a length alone", b"PL\x00\x06"),
        ("inside a payload", b"PL\x00\x06\x01\x04\x48\x00\x06"),
        ("an unknown mark", b"GPPGRS"),
    ];
    for (title, journal) in cases {
        show(output, title, journal);
    }
}

fn doubts<W: Write>(output: &mut W) {
    let cases: [(&str, &[u8]); 6] = [
        (
            "the journal of the specification",
            b"GPPL\x00\x06\x01\x04\x48\x00\x06\x00PL\x00\x00PL\x00",
        ),
        (
            "a reset leaves doubt",
            b"GPRSPL\x00\x06\x01\x04\x48\x00\x06\x00",
        ),
        (
            "a refusal leaves it",
            b"GPPL\x00\x00PL\x00\x06\x01\x04\x48\x00\x06\x00PL\x00\x06\x01\x04\x48\x00\x06\x00",
        ),
        (
            "a start ends the doubt of a gap",
            b"GPPSPL\x00\x06\x01\x04\x48\x00\x06\x00",
        ),
        (
            "a start ends the doubt of a reset",
            b"RSPSPL\x00\x06\x01\x04\x48\x00\x06\x00",
        ),
        (
            "all four marks",
            b"GPPL\x00\x06\x01\x04\x48\x00\x06\x00RSPL\x00\x06\x01\x04\x48\x00\x06\x00PSPL\x00\x06\x01\x04\x48\x00\x06\x00",
        ),
    ];
    for (title, journal) in cases {
        show(output, title, journal);
    }
}

// Cut payloads: as Truncated they miss bits, as Limit none.
fn cuts<W: Write>(output: &mut W) {
    let cases: [(&str, &[u8]); 2] = [
        (
            "a payload without its last byte",
            b"PL\x00\x05\x01\x04\x48\x00\x06",
        ),
        (
            "a size cut behind its first group",
            b"PL\x00\x03\x01\x04\x42",
        ),
    ];
    for (title, journal) in cases {
        show(output, title, journal);
    }
}

// Payloads of zeros, by the two bytes of their length.
fn lengths<W: Write>(output: &mut W) {
    let mut bytes = [0u8; WITH_GAP];
    bytes[0] = b'P';
    bytes[1] = b'L';
    bytes[2] = 0x40;
    show(output, "16,384 bytes", &bytes[..AT_THE_LIMIT]);
    bytes[3] = 0x01;
    show(output, "16,385 bytes", &bytes[..OVER_THE_LIMIT]);
    show(
        output,
        "16,385 bytes, the last missing",
        &bytes[..AT_THE_LIMIT],
    );
    bytes[2] = 0xff;
    bytes[3] = 0xff;
    bytes[LONGEST] = b'G';
    bytes[LONGEST + 1] = b'P';
    show(output, "65,535 bytes, and a gap", &bytes);
}

fn main(rt: HostRuntime) {
    let mut output = rt.stdout();
    endings(&mut output);
    doubts(&mut output);
    cuts(&mut output);
    lengths(&mut output);
}
