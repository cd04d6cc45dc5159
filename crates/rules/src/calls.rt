// The public calls by rule, with the parameters of their C twins. None asks anything of its caller.
ghost use Rattle.std.specs.Prelude.{◌≡◌};
ghost use Rattle.standard.specs.CarriedCalls.{timing_by_rule, ramp_by_rule, carry, drop_ramp};
ghost use Rattle.timing.specs.Going.{going_in};
ghost use Rattle.timing.specs.Promises.{Ramped};
ghost use Rattle.rules.specs.Promises.{TimingLeft, CarryLeft};

use crate::rule::Rule;
use bits::Fault;
use rows::numbers::BLOCKS_LENGTH;
use timing::carried::Going;
use timing::frame::Frame;
use timing::ramps::{Ramp, sample_in_frame};
use timing::updates::Timings;

// Before a frame: whether its timings pass, and what it takes up of what is carried.
pub fn timing_by_rule(
    rule: u32,
    timings: &[u16],
    blocks: u32,
    objects: u32,
    start: &[i16],
    carried: &[i16],
    state: &mut [u16; 3],
) -> Result<(), Fault>
    ensures { TimingLeft (timing_by_rule rule timings.now blocks objects start.now carried.now (going_in state.old)) result state.new }
{
    let rule = Rule::try_from(rule)?;
    let frame = Frame::new(timings, blocks, objects, start)?;
    let going = rule.carried(state, carried)?;
    let taken = frame.taken_up(going, carried);
    // Timings that are refused drop it.
    drop_ramp(state);
    rule.test(&frame.timings, Going::remains(taken))?;
    Going::put(taken, state);
    Ok(())
}

// At a sample.
pub fn ramp_by_rule(
    rule: u32,
    timings: &[u16],
    blocks: u32,
    sample: u32,
    state: &[u16; 3],
) -> Result<Ramp, Fault>
    ensures { Ramped (ramp_by_rule rule timings.now blocks sample (going_in state.now)) result }
{
    let rule = Rule::try_from(rule)?;
    let sample = sample_in_frame(sample)?;
    let timings = Timings::new(timings, blocks)?;
    let going = rule.going(state)?;
    Ok(timings.ramp(sample, going))
}

// Behind a frame whose timings passed: what goes over its end.
pub fn carry(
    rule: u32,
    timings: &[u16],
    blocks: u32,
    objects: u32,
    start: &[i16],
    block_rows: &[i16],
    carried: &mut [i16],
    state: &mut [u16; 3],
) -> Result<(), Fault>
    ensures { CarryLeft (carry rule timings.now blocks objects start.now block_rows.now carried.old (going_in state.old)) result state.new carried.new }
{
    let rule = Rule::try_from(rule)?;
    let frame = Frame::new(timings, blocks, objects, start)?;
    if block_rows.len() < BLOCKS_LENGTH {
        return Err(Fault::Room);
    }
    let going = rule.carried(state, carried)?;
    // Timings that are refused drop it.
    drop_ramp(state);
    rule.test(&frame.timings, Going::remains(going))?;
    let next = rule.carried_on(&frame, going);
    Going::put(next, state);
    // What was carried through a frame without blocks keeps its rows.
    if next.is_some() && !frame.timings.is_empty() {
        frame.keep_before(block_rows, carried);
    }
    Ok(())
}

// A gap, a reset or a programme start drops what is carried.
pub fn drop_ramp(state: &mut [u16; 3])
    ensures { going_in state.new ≡ drop_ramp (going_in state.old) }
{
    Going::put(None, state);
}
