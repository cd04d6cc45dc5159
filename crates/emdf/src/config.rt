// A payload's config, passed over.
ghost use Rattle.standard.specs.Container as paper;
ghost use Rattle.emdf.specs.Say.{ReadsContainer, Skips};

use crate::fields::{read_flag, skip};
use crate::variable::read_variable_bits;
use bits::{BitCursor, Fault};

pub fn skip_config(bits: &mut BitCursor) -> Result<(), Fault>
    ensures { ReadsContainer paper.config bits.old result bits.new }
{
    let offset = read_flag(bits)?;
    if offset {
        skip(bits, 12)?;
    }
    skip_after_offset(bits, offset)
}

fn skip_after_offset(bits: &mut BitCursor, offset: bool) -> Result<(), Fault>
    ensures { ReadsContainer (paper.after_offset offset) bits.old result bits.new }
{
    // Duration, group and codec data.
    skip_flagged(bits, |bits| read_variable_bits(bits, 11))?;
    skip_flagged(bits, |bits| read_variable_bits(bits, 2))?;
    skip_flagged(bits, |bits| skip(bits, 8))?;
    let discard_unknown = read_flag(bits)?;
    if discard_unknown {
        return Ok(());
    }
    skip_handling(bits, offset)
}

fn skip_handling(bits: &mut BitCursor, offset: bool) -> Result<(), Fault>
    ensures { ReadsContainer (paper.handling offset) bits.old result bits.new }
{
    if offset {
        skip(bits, 7)
    } else {
        skip_flagged(bits, |bits| skip(bits, 9))
    }
}

// A flag, and what `skip_it` passes over where the flag is set.
fn skip_flagged<T: Copy, F: FnOnce(&mut BitCursor) -> Result<T, Fault>>(
    bits: &mut BitCursor,
    skip_it: F,
) -> Result<(), Fault>
    requires { F.IsAlwaysCallable skip_it }
    ensures { (m : _) → Skips F.FnOnce skip_it m → ReadsContainer (paper.flagged m) bits.old result bits.new }
{
    if read_flag(bits)? {
        skip_it(bits)?;
    }
    Ok(())
}
