// Between which rows a sample lies, and how far.
ghost use Rattle.std.specs.Prelude.{◌≡◌, ◌<◌, cond, ltb, Ok, Err};
ghost use Rattle.bits.specs.declared.refusals.Fault.TheVariants.{Query};
ghost use Rattle.standard.specs.Numbers.{frame_length};
ghost use Rattle.standard.specs.Ramps.{still, choice};
ghost use Rattle.standard.specs.Carried.{rule2, choice_by};
ghost use Rattle.standard.specs.CarriedCalls.{ramp_under};

use crate::carried::Going;
use crate::numbers::{CARRIED_ROW, SAMPLES_PER_JOC_FRAME};
use crate::updates::{OamdTiming, Timings};
use bits::Fault;

// From one row to another: row 0 is the start row, row b + 1 that of block b, and row 9 that of a carried ramp.
#[derive(Clone, Copy)]
pub struct Choice {
    pub from: u32,
    pub to: u32,
    pub elapsed: u16,
    pub duration: u16,
    pub ghost lasts: { 0 < duration },
}

// A choice with its fraction.
#[derive(Clone, Copy)]
pub struct Ramp {
    pub choice: Choice,
    pub alpha: f32,
}

impl Choice {
    ghost use Rattle.timing.specs.Say.{choice_said};
    ghost use Rattle.timing.specs.Promises.{Rounded};

    // A row that stands still: 1/1.
    fn still(row: u32) -> Self
        ensures { choice_said result ≡ still row }
    {
        Choice {
            from: row,
            to: row,
            elapsed: 1,
            duration: 1,
        }
    }

    // The Rust ends its walk where this division is below 1: exactly where elapsed < duration.
    pub fn fraction(self) -> f32
        ensures { Rounded (choice_said self) result }
    {
        self.elapsed as f32 / self.duration as f32
    }
}

// A sample of the frame fits u16, as every start does.
pub fn sample_in_frame(sample: u32) -> Result<u16, Fault>
    ensures { result ≡ cond (ltb sample frame_length) (Ok sample) (Err Query) }
{
    if SAMPLES_PER_JOC_FRAME <= sample {
        return Err(Fault::Query);
    }
    Ok(sample as u16)
}

impl Timings<'_> {
    ghost use Rattle.timing.specs.Say.{choice_said, going_said};
    ghost use Rattle.timing.specs.Promises.{Ramped};

    pub fn ramp(&self, sample: u16, going: Option<Going>) -> Ramp
        ensures { Ramped (ramp_under rule2 self.now (going_said going) sample) (Ok result) }
    {
        let choice = self.choose_going(sample, going);
        let alpha = choice.fraction();
        Ramp { choice, alpha }
    }

    // A carried ramp runs first. What has elapsed of it may pass u16, but not while it runs.
    fn choose_going(&self, sample: u16, going: Option<Going>) -> Choice
        ensures { let g = going_said going in choice_said result ≡ choice_by rule2 g.elapsed g.duration sample self.now }
    {
        if let Some(ramp) = going {
            let elapsed = ramp.elapsed as u32 + sample as u32;
            if elapsed < ramp.duration as u32 {
                return Choice {
                    from: CARRIED_ROW,
                    to: 0,
                    elapsed: elapsed as u16,
                    duration: ramp.duration,
                };
            }
        }
        self.choose(sample)
    }

    // When the walk comes to a block, the row before it stands still, and that row's number is the block's.
    pub fn choose(&self, sample: u16) -> Choice
        ensures { choice_said result ≡ choice sample self.now }
    {
        for (row, block) in self.blocks.iter().enumerate() {
            let row = row as u32;
            let timing = OamdTiming::from(*block);
            if sample < timing.start_sample {
                return Choice::still(row);
            }
            // A ramp of 0 is over at its start.
            let elapsed = sample - timing.start_sample;
            if elapsed < timing.ramp_duration {
                return Choice {
                    from: row,
                    to: row + 1,
                    elapsed,
                    duration: timing.ramp_duration,
                };
            }
        }
        Choice::still(self.blocks.len() as u32)
    }
}
