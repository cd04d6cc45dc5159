// Statuses, the parts that they say, and a word that a flag asks for.
ghost use Rattle.std.specs.Prelude.{◌≤◌};
ghost use Rattle.std.specs.Fn.{FnOnceReturnsAtMut};
ghost use Rattle.bits.specs.Say.{Reads};
ghost use Rattle.standard.specs.Updates as standard;
ghost use Rattle.update.specs.Asked.{Asked};

use crate::words::Placed;
use bits::{BitCursor, Refusal, two_to};

// In block 0 a status is 1, and is not read. It stays a number: an enum would be made here and matched in the next call.
pub fn read_status(bits: &mut BitCursor, first: bool, context: u8) -> Result<u32, Refusal>
    ensures { Reads (standard.status first context) bits.old result bits.new }
{
    if first { Ok(1) } else { bits.read(2, context) }
}

// A flag for each part, the first one highest. Status 1 says all parts, and has no flags.
pub fn read_parts(
    bits: &mut BitCursor,
    status: u32,
    parts: usize,
    context: u8,
) -> Result<u32, Refusal>
    requires { parts ≤ 17 }
    ensures { Reads (standard.parts status parts context) bits.old result bits.new }
{
    if status == 1 {
        return Ok(two_to(parts) - 1);
    }
    bits.read(parts, context)
}

// A word that is read where it is asked for, with the place where its reading begins.
pub fn read_asked<T, F: FnOnce(&mut BitCursor) -> Result<T, Refusal>>(
    bits: &mut BitCursor,
    asked: bool,
    read: F,
) -> Result<Option<Placed<T>>, Refusal>
    requires { F.IsAlwaysCallable read }
    ensures { Asked (FnOnceReturnsAtMut F.FnOnce read) asked bits.old result bits.new }
{
    if !asked {
        return Ok(None);
    }
    let at = bits.position;
    let word = read(bits)?;
    Ok(Some(Placed { word, at }))
}
