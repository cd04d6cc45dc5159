// The reads of a container: of one that its end cuts, that alone is said.
#![tactic(auto, using(crate::proofs::Reading::ends_early), unfolding(standard::specs::Container::bits, standard::specs::Container::flag, standard::specs::Container::pass))]

ghost use Rattle.std.specs.Prelude.{◌≤◌};
ghost use Rattle.standard.specs.Container as paper;
ghost use Rattle.emdf.specs.Say.{ReadsContainer};

use bits::{BitCursor, Fault};

// A fault is told by its number alone, so no context is.
const NO_CONTEXT: u8 = 0;

pub fn read(bits: &mut BitCursor, width: usize) -> Result<u32, Fault>
    requires { width ≤ 17 }
    ensures { ReadsContainer (paper.bits width) bits.old result bits.new }
{
    bits.read(width, NO_CONTEXT).or(Err(Fault::EndsEarly))
}

pub fn read_flag(bits: &mut BitCursor) -> Result<bool, Fault>
    ensures { ReadsContainer paper.flag bits.old result bits.new }
{
    bits.read_flag(NO_CONTEXT).or(Err(Fault::EndsEarly))
}

pub fn skip(bits: &mut BitCursor, count: u32) -> Result<(), Fault>
    ensures { ReadsContainer (paper.pass count) bits.old result bits.new }
{
    bits.skip(count, NO_CONTEXT).or(Err(Fault::EndsEarly))
}
