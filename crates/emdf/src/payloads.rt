// The list of payloads, up to its first object payload.
ghost use Rattle.std.specs.Prelude.{◌*◌, ◌≤◌};
ghost use Rattle.bits.specs.Parsed.{map_p};
ghost use Rattle.bits.specs.Say.{ReadsBy};
ghost use Rattle.standard.specs.Numbers.{container_limit};
ghost use Rattle.standard.specs.Container as paper;
ghost use Rattle.emdf.specs.Say.{ReadsContainer, fault, near_header, nearly, said_header};

use crate::config::skip_config;
use crate::fields::skip;
use crate::variable::{read_extended, read_variable_bits};
use bits::{BitCursor, Fault};

const OBJECT_ID: u32 = 11;

#[derive(Clone, Copy)]
pub struct Header {
    pub id: u32,
    pub size: u32,
}

// The size of the first object payload. Its first bit is where the cursor then stands.
pub fn find_object(bits: &mut BitCursor) -> Result<u32, Fault>
    requires { bits.old.limit.0 ≤ container_limit * 8 }
    ensures { ReadsContainer (nearly paper.opening) bits.old result bits.new }
{
    let version = read_extended(bits, 2)?;
    if version != 0 {
        return Err(Fault::OtherVersion);
    }
    let _key = read_extended(bits, 3)?;
    first_object(bits)
}

// A size past the container is a cut, however large.
fn first_object(bits: &mut BitCursor) -> Result<u32, Fault>
    requires { bits.old.limit.0 ≤ container_limit * 8 }
    ensures { ReadsContainer (nearly paper.first_object) bits.old result bits.new }
{
    loop {
        let header = read_header(bits)?;
        if header.id == OBJECT_ID {
            return Ok(header.size);
        }
        skip(bits, header.size * 8)?;
    }
}

fn read_header(bits: &mut BitCursor) -> Result<Header, Fault>
    ensures { ReadsBy said_header fault (map_p near_header paper.header) bits.old result bits.new }
{
    let id = read_extended(bits, 5)?;
    if id == 0 {
        return Err(Fault::NoObject);
    }
    skip_config(bits)?;
    let size = read_variable_bits(bits, 8)?;
    Ok(Header { id, size })
}
