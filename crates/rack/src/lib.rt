// What a rack links: the public calls under their C names, and nothing else.
#![tactic(auto)]

ghost use Rattle.std.specs.Prelude.{◌≡◌};
ghost use Rattle.standard.specs.Calls as calls;
ghost use Rattle.standard.specs.CarriedCalls as edge;
ghost use Rattle.bits.specs.Faults.{number_of};
ghost use Rattle.oamd.specs.Promises.{lent};
ghost use Rattle.timing.specs.Going.{going_in};
ghost use Rattle.timing.specs.Say.{ramp_said};
ghost use Rattle.emdf.specs.Promises as emdf;
ghost use Rattle.rack.specs.Twins.{DecodeLeft, KeptLeft, RampPut, RampLeft, ShownLeft, HoldLeft, TimingLeft, CarryLeft};

use bits::Fault;
use oamd::DecodeError;
use shown::view::Gain;
use timing::ramps::Ramp;

// 0 where a call is accepted.
fn number_of<T: Copy>(answer: Result<T, Fault>) -> u32
    ensures { result ≡ number_of answer }
{
    match answer {
        Ok(_) => 0,
        Err(fault) => fault.number(),
    }
}

// A decoding: the answer is context, place, objects, blocks, unsettled, missing.
#[unsafe(no_mangle)]
pub extern "C" fn oamd_decode(
    payload: &[u8],
    retained: &mut [i16],
    start: &mut [i16],
    blocks: &mut [i16],
    timings: &mut [u16],
    answer: &mut [u32; 6],
) -> u32
    ensures { DecodeLeft (calls.decode payload.now (lent retained.old start.old blocks.old timings.old)) result answer.new retained.new start.new blocks.new timings.new }
{
    match oamd::decode(payload, retained, start, blocks, timings) {
        Ok(frame) => {
            *answer = [0, 0, frame.objects, frame.blocks, frame.unsettled, 0];
            0
        }
        Err(DecodeError::Refused(refusal)) => {
            *answer = [
                refusal.context as u32,
                refusal.place.0 as u32,
                0,
                0,
                0,
                refusal.missing,
            ];
            refusal.cause.number()
        }
        Err(DecodeError::Unread(fault)) => {
            *answer = [0; 6];
            fault.number()
        }
    }
}

// Writes zeros: a fresh decoder, at the head of a programme.
#[unsafe(no_mangle)]
pub extern "C" fn oamd_start(retained: &mut [i16]) -> u32
    ensures { KeptLeft (calls.programme_start retained.old) result retained.new }
{
    number_of(rows::calls::programme_start(retained))
}

// Writes zeros but for the doubt: a programme may be under way.
#[unsafe(no_mangle)]
pub extern "C" fn oamd_reset(retained: &mut [i16]) -> u32
    ensures { KeptLeft (calls.reset retained.old) result retained.new }
{
    number_of(rows::calls::reset(retained))
}

// Sets doubt: something was missed.
#[unsafe(no_mangle)]
pub extern "C" fn oamd_gap(retained: &mut [i16]) -> u32
    ensures { KeptLeft (calls.gap retained.old) result retained.new }
{
    number_of(rows::calls::gap(retained))
}

// The timing test of a frame's blocks.
#[unsafe(no_mangle)]
pub extern "C" fn oamd_timing(timings: &[u16], blocks: u32) -> u32
    ensures { result ≡ calls.timing_call timings.now blocks }
{
    number_of(timing::calls::timing(timings, blocks))
}

// The ramp at a sample: the answer is from, to, elapsed, duration.
#[unsafe(no_mangle)]
pub extern "C" fn oamd_ramp(
    timings: &[u16],
    blocks: u32,
    sample: u32,
    answer: &mut [u32; 4],
    fraction: &mut f32,
) -> u32
    ensures { RampLeft (calls.ramp_call timings.now blocks sample) result answer.new fraction.new }
{
    put_ramp(
        timing::calls::ramp(timings, blocks, sample),
        answer,
        fraction,
    )
}

fn put_ramp(ramp: Result<Ramp, Fault>, answer: &mut [u32; 4], fraction: &mut f32) -> u32
    ensures { RampPut (ramp_said ramp) result answer.new fraction.new }
{
    match ramp {
        Ok(ramp) => {
            *answer = [
                ramp.choice.from,
                ramp.choice.to,
                ramp.choice.elapsed as u32,
                ramp.choice.duration as u32,
            ];
            *fraction = ramp.alpha;
            0
        }
        Err(fault) => {
            *answer = [0; 4];
            *fraction = 0.0;
            fault.number()
        }
    }
}

// The start rows of a frame without blocks.
#[unsafe(no_mangle)]
pub extern "C" fn oamd_hold(retained: &[i16], start: &mut [i16], objects: &mut u32) -> u32
    ensures { HoldLeft (edge.hold retained.now start.old) result objects.new start.new }
{
    let held = oamd::hold::hold(retained, start);
    *objects = held.unwrap_or(0);
    number_of(held)
}

// Before a frame: the timing test by a rule, and what the frame takes up. The state is objects, elapsed, duration.
#[unsafe(no_mangle)]
pub extern "C" fn oamd_timing_by_rule(
    rule: u32,
    timings: &[u16],
    blocks: u32,
    objects: u32,
    start: &[i16],
    carried: &[i16],
    state: &mut [u16; 3],
) -> u32
    ensures { TimingLeft (edge.timing_by_rule rule timings.now blocks objects start.now carried.now (going_in state.old)) result state.new }
{
    number_of(rules::calls::timing_by_rule(rule, timings, blocks, objects, start, carried, state))
}

// The ramp at a sample, by a rule.
#[unsafe(no_mangle)]
pub extern "C" fn oamd_ramp_by_rule(
    rule: u32,
    timings: &[u16],
    blocks: u32,
    sample: u32,
    state: &[u16; 3],
    answer: &mut [u32; 4],
    fraction: &mut f32,
) -> u32
    ensures { RampLeft (edge.ramp_by_rule rule timings.now blocks sample (going_in state.now)) result answer.new fraction.new }
{
    put_ramp(
        rules::calls::ramp_by_rule(rule, timings, blocks, sample, state),
        answer,
        fraction,
    )
}

// Behind a frame whose timings passed: what goes over its end.
#[unsafe(no_mangle)]
pub extern "C" fn oamd_carry(
    rule: u32,
    timings: &[u16],
    blocks: u32,
    objects: u32,
    start: &[i16],
    block_rows: &[i16],
    carried: &mut [i16],
    state: &mut [u16; 3],
) -> u32
    ensures { CarryLeft (edge.carry rule timings.now blocks objects start.now block_rows.now carried.old (going_in state.old)) result state.new carried.new }
{
    number_of(rules::calls::carry(
        rule, timings, blocks, objects, start, block_rows, carried, state,
    ))
}

// A gap, a reset or a programme start drops what is carried.
#[unsafe(no_mangle)]
pub extern "C" fn oamd_drop(state: &mut [u16; 3])
    ensures { going_in state.new ≡ edge.drop_ramp (going_in state.old) }
{
    rules::calls::drop_ramp(state);
}

// The number of the row part at an index. C has the table, so it finds the part itself.
#[unsafe(no_mangle)]
pub extern "C" fn oamd_row(table: &[i16], index: u32) -> u32
    ensures { result ≡ (calls.part_call table.now index).number }
{
    number_of(rows::calls::row_part(table, index as usize))
}

// What is shown of a row: x, y, z, width, depth, height, priority, decibels. Silence has no decibels, but a 0.
#[unsafe(no_mangle)]
pub extern "C" fn oamd_shown(
    table: &[i16],
    index: u32,
    values: &mut [f32; 8],
    silent: &mut u32,
) -> u32
    ensures { ShownLeft (calls.shown_call table.now index) result values.new silent.new }
{
    match shown::calls::shown(table, index as usize) {
        Ok(s) => {
            match s.gain {
                Gain::Silence => {
                    *values = [s.x, s.y, s.z, s.width, s.depth, s.height, s.priority, 0.0];
                    *silent = 1;
                }
                Gain::Decibels(level) => {
                    *values = [s.x, s.y, s.z, s.width, s.depth, s.height, s.priority, level];
                    *silent = 0;
                }
            }
            0
        }
        Err(fault) => {
            *values = [0.0; 8];
            *silent = 1;
            fault.number()
        }
    }
}

// The first object payload of a container, at the front of the buffer.
#[unsafe(no_mangle)]
pub extern "C" fn oamd_emdf(container: &[u8], buffer: &mut [u8], length: &mut u32) -> u32
    ensures { emdf.Left (calls.emdf_call container.now buffer.old) result length.new buffer.new }
{
    let taken = emdf::take(container, buffer);
    *length = taken.unwrap_or(0);
    number_of(taken)
}
