// Bytes to records: what stands at the head of the bytes that have arrived.
ghost use Rattle.std.specs.Prelude.{◌≡◌, ◌+◌, length};
ghost use Rattle.standard.specs.Journal.{step, payload_step};
ghost use Rattle.journals.specs.Promises.{Stepped};

#[derive(Clone, Copy)]
pub enum Record<'a> {
    Payload(&'a [u8]),
    Gap,
    Reset,
    Start,
}

// A whole record, and how many bytes it has with its mark.
#[derive(Clone, Copy)]
pub struct Found<'a> {
    pub what: Record<'a>,
    pub length: usize,
}

// Why there is no record yet: it has not arrived whole, or no record has such a mark.
#[derive(Clone, Copy, PartialEq, Eq)]
pub enum Pause {
    More,
    Unknown,
}

// Each record begins with a mark.
const MARK_LENGTH: usize = 2;

// A payload's 16-bit big-endian length follows its mark.
const PAYLOAD_AT: usize = 4;

pub fn step(arrived: &[u8]) -> Result<Found<'_>, Pause>
    ensures { Stepped (step arrived.now) (length arrived.now) result }
{
    match arrived {
        [b'P', b'L', behind @ ..] => payload_step(behind),
        [b'G', b'P', ..] => Ok(bare(Record::Gap)),
        [b'R', b'S', ..] => Ok(bare(Record::Reset)),
        [b'P', b'S', ..] => Ok(bare(Record::Start)),
        [_, _, ..] => Err(Pause::Unknown),
        _ => Err(Pause::More),
    }
}

// A record that is its mark alone.
fn bare(what: Record<'_>) -> Found<'_>
    ensures { result ≡ record { what = what.entry; length = 2 } }
{
    Found {
        what,
        length: MARK_LENGTH,
    }
}

// What follows a payload's mark.
fn payload_step(behind: &[u8]) -> Result<Found<'_>, Pause>
    ensures { Stepped (payload_step behind.now) (2 + length behind.now) result }
{
    let [high, low, rest @ ..] = behind else {
        return Err(Pause::More);
    };
    let length = u16::from_be_bytes([*high, *low]) as usize;
    if rest.len() < length {
        return Err(Pause::More);
    }
    Ok(Found {
        what: Record::Payload(&rest[..length]),
        length: PAYLOAD_AT + length,
    })
}
