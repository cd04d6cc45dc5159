// The timings of a frame's updates, and the tests of them, as joc_renderer.rs has them.
ghost use Rattle.std.specs.Prelude.{◌≡◌, ◌==◌, ◌*◌, ◌<◌, ◌≤◌, cond, get_or, length, option_map, ℕ};
ghost use Rattle.bits.specs.Faults.{number_of};
ghost use Rattle.standard.specs.Tree.{Timing};
ghost use Rattle.standard.specs.Numbers.{accepted, ordering};
ghost use Rattle.standard.specs.Tables.{timings_of};
ghost use Rattle.standard.specs.Timing.{end_of, rising, apart, timing_test};
ghost use Rattle.standard.specs.Carried.{rule2, following, timing_by};
ghost use Rattle.timing.specs.Blocks.{timing_of, last_said, spaced};
ghost use Rattle.timing.specs.Say.{timing_said, Tells};
ghost use Rattle.timing.specs.Promises.{Timed};

use crate::numbers::SAMPLES_PER_JOC_FRAME;
use bits::Fault;
use rows::numbers::BLOCK_LIMIT;
use std::marker::Model;

#[derive(Clone, Copy)]
pub struct OamdTiming {
    pub start_sample: u16,
    pub ramp_duration: u16,
}

// A frame's timings: two numbers for each of its blocks, whose number fits u32. They are seen as the paper's list.
#[derive(Drop)]
pub struct Timings<'a> {
    pub(crate) blocks: &'a [[u16; 2]],
}

impl<'a> Model for Timings<'a> {
    ghost use Rattle.std.specs.Prelude.{List, ◌<◌, ◌^◌, length, map};
    ghost use Rattle.standard.specs.Tree.{Timing};
    ghost use Rattle.timing.specs.Blocks.{timing_of};

    ghost Value = { List Timing };

    ghost view = { λ a. map timing_of a.blocks.now };

    ghost invariant = { λ a. length a.blocks.now < 2 ^ 32 };
}

impl From<[u16; 2]> for OamdTiming {
    ghost from_gives = { λ block timing. timing_said timing ≡ timing_of block };

    fn from(block: [u16; 2]) -> Self {
        let [start_sample, ramp_duration] = block;
        OamdTiming {
            start_sample,
            ramp_duration,
        }
    }
}

impl OamdTiming {
    pub fn start(self) -> u32
        ensures { result ≡ (timing_said self).start }
    {
        self.start_sample as u32
    }

    // A start and a ramp add up as u32: their sum may pass u16.
    pub fn end(self) -> u32
        ensures { result ≡ end_of (timing_said self) }
    {
        self.start_sample as u32 + self.ramp_duration as u32
    }
}

impl<'a> Timings<'a> {
    // The first `blocks` pairs of a lent table.
    pub fn new(table: &'a [u16], blocks: u32) -> Result<Self, Fault>
        ensures { Timed table.now blocks result }
    {
        if BLOCK_LIMIT < blocks as usize {
            return Err(Fault::Query);
        }
        let (pairs, _) = table.as_chunks::<2>();
        let blocks = pairs.get(..blocks as usize).ok_or(Fault::Room)?;
        Ok(Timings { blocks })
    }

    // Of as many blocks as the table has pairs for: the limit is `new`'s alone.
    pub fn first(table: &'a [u16], blocks: u32) -> Self
        requires { 2 * blocks ≤ length table.now }
        ensures { result ≡ timings_of blocks table.now }
    {
        let (pairs, _) = table.as_chunks::<2>();
        Timings {
            blocks: &pairs[..blocks as usize],
        }
    }

    pub fn len(&self) -> usize
        ensures { result ≡ length self.now }
    {
        self.blocks.len()
    }

    pub fn is_empty(&self) -> bool
        ensures { result ≡ (length self.now == 0) }
    {
        self.blocks.is_empty()
    }

    pub fn timing_at(&self, block: usize) -> OamdTiming
        requires { block < length self.now }
        ensures { (none : Timing) → timing_said result ≡ get_or self.now block none }
    {
        let pairs = self.blocks;
        OamdTiming::from(pairs[block])
    }

    pub fn last(&self) -> Option<OamdTiming>
        ensures { option_map timing_said result ≡ last_said self.now }
    {
        let block = self.blocks.last()?;
        Some(OamdTiming::from(*block))
    }

    // A start that falls comes first, under either rule.
    pub fn test_in_frame(&self) -> Result<(), Fault>
        ensures { number_of result ≡ timing_test self.now }
    {
        self.starts_rise()?;
        self.validate_oamd_timing()
    }

    // `remains` samples of a carried ramp are left.
    pub fn test_over_edge(&self, remains: u32) -> Result<(), Fault>
        ensures { number_of result ≡ timing_by rule2 remains self.now }
    {
        self.starts_rise()?;
        self.validate_following(remains)
    }

    // No start falls below the one before it.
    pub fn starts_rise(&self) -> Result<(), Fault>
        ensures { number_of result ≡ cond (rising 0 self.now) accepted ordering }
    {
        if !self.blocks.is_sorted_by_key(|block| block[0]) {
            return Err(Fault::Ordering);
        }
        Ok(())
    }

    pub fn validate_oamd_timing(&self) -> Result<(), Fault>
        ensures { number_of result ≡ apart 0 self.now }
    {
        self.validate_within(0, |timing| timing.end())
    }

    // Rule 2 tests no end: the next start decides. The ramp before the first block ends at `end`.
    pub fn validate_following(&self, end: u32) -> Result<(), Fault>
        ensures { number_of result ≡ following end self.now }
    {
        self.validate_within(end, |timing| timing.start())
    }

    // No block starts before the ramp before it ends, and what `last` gives of it is not past the frame's end.
    fn validate_within<F: Fn(OamdTiming) -> u32>(&self, end: u32, last: F) -> Result<(), Fault>
        requires { F.IsAlwaysCallable last }
        ensures { (told : Timing → ℕ) → Tells (F.post last) told → number_of result ≡ spaced told end self.now }
    {
        let mut previous_end = end;
        for block in self.blocks {
            let timing = OamdTiming::from(*block);
            if timing.start() < previous_end {
                return Err(Fault::Overlap);
            }
            if last(timing) > SAMPLES_PER_JOC_FRAME {
                return Err(Fault::CrossFrame);
            }
            previous_end = timing.end();
        }
        Ok(())
    }
}
