// What goes over a frame's end: the last block's ramp, or what was carried through a frame without blocks.
ghost use Rattle.std.specs.Prelude.{◌≡◌, List, ◌-◌, ◌≤◌, ℤ, length};
ghost use Rattle.standard.specs.Numbers.{object_limit, block_limit, frame_length, start_length, blocks_length};
ghost use Rattle.standard.specs.Rows.{Row};
ghost use Rattle.standard.specs.Tables.{rows_numbers};
ghost use Rattle.standard.specs.Carried.{over_edge, onward};
ghost use Rattle.standard.specs.Calls.{over};
ghost use Rattle.standard.specs.CarriedCalls.{carried_of, going_of, table_rows};
ghost use Rattle.timing.specs.Say.{timing_said, going_said};
ghost use Rattle.timing.specs.Frames.{Behind, Onward};

use crate::carried::Going;
use crate::frame::Frame;
use crate::numbers::SAMPLES_PER_JOC_FRAME;
use crate::updates::{OamdTiming, Timings};
use rows::numbers::ROW_WIDTH;
use rows::table::copy;

// Through a frame without blocks, until it is over.
fn onward(going: Going) -> Option<Going>
    ensures { (l : List ℤ) → going_said result ≡ going_of (onward (carried_of (going_said (Some going)) l)) }
{
    let elapsed = going.elapsed as u32 + SAMPLES_PER_JOC_FRAME;
    if elapsed < going.duration as u32 {
        return Some(Going {
            objects: going.objects,
            elapsed: elapsed as u16,
            duration: going.duration,
        });
    }
    None
}

// A ramp that ends past the frame; one that ends with it is over.
fn over_edge(timing: OamdTiming, objects: usize) -> Option<Going>
    requires { (timing.start_sample ≤ frame_length) × (objects ≤ object_limit) }
    ensures { (rows : List Row) → length rows ≡ objects → going_said result ≡ going_of (over_edge rows (timing_said timing)) }
{
    if timing.end() <= SAMPLES_PER_JOC_FRAME {
        return None;
    }
    Some(Going {
        objects: objects as u16,
        elapsed: (SAMPLES_PER_JOC_FRAME - timing.start()) as u16,
        duration: timing.ramp_duration,
    })
}

impl Timings<'_> {
    // Behind a frame of so many objects, whose timings passed.
    pub fn carried_on(&self, objects: usize, going: Option<Going>) -> Option<Going>
        requires { Behind self.now objects }
        ensures { Onward self.now objects going result }
    {
        match self.last() {
            Some(timing) => over_edge(timing, objects),
            None => onward(going?),
        }
    }
}

impl Frame<'_> {
    pub fn keep_before(&self, block_rows: &[i16], carried: &mut [i16])
        requires { (length self.now.timings ≤ block_limit) × ((blocks_length ≤ length block_rows.now) × (start_length ≤ length carried.old)) }
        ensures { carried.new ≡ over (rows_numbers (table_rows self.now.start.now block_rows.now self.now.objects (length self.now.timings - 1))) carried.old }
    {
        let rows = self.rows_before(block_rows);
        copy(rows, &mut carried[..rows.len()]);
    }

    // The rows before the last block: the start rows, where it is the first.
    fn rows_before<'a>(&'a self, block_rows: &'a [i16]) -> &'a [i16]
        requires { (length self.now.timings ≤ block_limit) × (blocks_length ≤ length block_rows.now) }
        ensures before { result.now ≡ rows_numbers (table_rows self.now.start.now block_rows.now self.now.objects (length self.now.timings - 1)) }
        ensures fit { length result.now ≤ start_length }
    {
        let n = self.objects * ROW_WIDTH;
        match self.timings.len() {
            0 | 1 => &self.start[..n],
            blocks => &block_rows[(blocks - 2) * n..][..n],
        }
    }
}
