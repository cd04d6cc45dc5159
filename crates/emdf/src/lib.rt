// The call on containers: the first object payload of one, copied out.
#![tactic(auto)]

ghost use Rattle.standard.specs.Calls as calls;
ghost use Rattle.bits.specs.Faults.{number_of};
ghost use Rattle.emdf.specs.Promises.{Left, length_of};

use crate::copies::copy_bytes;
use crate::fields::skip;
use crate::payloads::find_object;
use bits::{BitCursor, BitPlace, ByteCount, Fault};

mod config;
mod copies;
mod fields;
mod payloads;
mod variable;

const PAYLOAD_LIMIT: usize = 16384;

const CONTAINER_LIMIT: usize = 65536;

// The length of the payload, which is then at the front of the buffer. On a refusal the buffer stays.
pub fn take(container: &[u8], buffer: &mut [u8]) -> Result<u32, Fault>
    ensures { Left (calls.emdf_call container.now buffer.old) (number_of result) (length_of result) buffer.new }
{
    if buffer.len() < PAYLOAD_LIMIT {
        return Err(Fault::Room);
    }
    if container.len() > CONTAINER_LIMIT {
        return Err(Fault::Size);
    }
    let limit = ByteCount(container.len()).bits();
    let mut bits = BitCursor::new(container, limit, BitPlace(0));
    let size = find_object(&mut bits)?;
    let too_large = size as usize > PAYLOAD_LIMIT;
    if too_large {
        return Err(Fault::Size);
    }
    let first = bits.position;
    skip(&mut bits, size * 8)?;
    copy_bytes(container, first.0, &mut buffer[..size as usize]);
    Ok(size)
}
