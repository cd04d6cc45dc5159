// The trim element: its settings are tested and dropped.
ghost use Rattle.standard.specs.Syntax.{trim};
ghost use Rattle.bits.specs.Say.{Reads};

use crate::contexts;
use bits::{BitCursor, Refusal};

pub fn parse_trim_element(bits: &mut BitCursor, object_count: u32) -> Result<(), Refusal>
    ensures { Reads (trim object_count) bits.old result bits.new }
{
    let warp_at = bits.position;
    let warp_mode = bits.read(2, contexts::TRIM_WARP_MODE)?;
    if warp_mode > 1 {
        return Err(Refusal::invalid(contexts::TRIM_WARP_MODE, warp_at));
    }
    let reserved_at = bits.position;
    let reserved = bits.read(2, contexts::TRIM_RESERVED_BITS)?;
    if reserved != 0 {
        return Err(Refusal::invalid(contexts::TRIM_RESERVED_BITS, reserved_at));
    }
    let mode_at = bits.position;
    match bits.read(2, contexts::GLOBAL_TRIM_MODE)? {
        2 => return Err(Refusal::unsupported(contexts::CUSTOM_TRIM_CONFIGURATION, mode_at)),
        3 => return Err(Refusal::invalid(contexts::GLOBAL_TRIM_MODE, mode_at)),
        _ => {}
    }
    let disabling = bits.read_flag(contexts::PER_OBJECT_TRIM_DISABLE_FLAG)?;
    if disabling {
        bits.skip(object_count, contexts::PER_OBJECT_TRIM_DISABLE_FLAGS)?;
    }
    Ok(())
}
