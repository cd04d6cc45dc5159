// The public calls on a frame's timings. Neither asks anything of its caller.
ghost use Rattle.std.specs.Prelude.{◌≡◌};
ghost use Rattle.bits.specs.Faults.{number_of};
ghost use Rattle.standard.specs.Calls.{timing_call, ramp_call};
ghost use Rattle.timing.specs.Promises.{Ramped};

use crate::ramps::{Ramp, sample_in_frame};
use crate::updates::Timings;
use bits::Fault;

pub fn timing(timings: &[u16], blocks: u32) -> Result<(), Fault>
    ensures { number_of result ≡ timing_call timings.now blocks }
{
    Timings::new(timings, blocks)?.test_in_frame()
}

// Nothing is carried into the frame.
pub fn ramp(timings: &[u16], blocks: u32, sample: u32) -> Result<Ramp, Fault>
    ensures { Ramped (ramp_call timings.now blocks sample) result }
{
    let sample = sample_in_frame(sample)?;
    let timings = Timings::new(timings, blocks)?;
    Ok(timings.ramp(sample, None))
}
