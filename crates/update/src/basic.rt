// Basic information: the words of an object's gain and priority.
ghost use Rattle.std.specs.Prelude.{◌≡◌, cond, ◌<◌, eqb, pos};
ghost use Rattle.bits.specs.Say.{Reads, ReadsAs};
ghost use Rattle.standard.specs.Numbers.{silence};
ghost use Rattle.standard.specs.Updates as standard;
ghost use Rattle.update.specs.Say.{gain_said, basic_said};

use crate::contexts::{
    DEFAULT_OBJECT_PRIORITY_FLAG, MIXED_BASIC_INFO_FLAGS, OBJECT_GAIN, OBJECT_GAIN_INDEX,
    OBJECT_PRIORITY,
};
use crate::statuses::{read_asked, read_parts};
use crate::words::{Basic, GainWord, Placed};
use bits::{BitCursor, BitPlace, Refusal, is_set};
use rows::numbers::{HIGHEST_GAIN, PRIORITY_LIMIT, SILENCE};

// The status was read at a place before. Status 0 says silence and priority 0 itself; status 2 says nothing.
pub fn read_basic_info(
    bits: &mut BitCursor,
    status: u32,
    status_at: BitPlace,
) -> Result<Basic, Refusal>
    ensures { ReadsAs basic_said (standard.basic status_at.0 status) bits.old result bits.new }
{
    match status {
        0 => Ok(Basic {
            gain: Some(Placed {
                word: GainWord::Level(SILENCE),
                at: status_at,
            }),
            priority: Some(Placed {
                word: 0,
                at: status_at,
            }),
        }),
        2 => Ok(Basic {
            gain: None,
            priority: None,
        }),
        _ => {
            let flags = read_parts(bits, status, 2, MIXED_BASIC_INFO_FLAGS)?;
            read_levels(bits, flags)
        }
    }
}

// The gain, then the priority.
fn read_levels(bits: &mut BitCursor, flags: u32) -> Result<Basic, Refusal>
    ensures { ReadsAs basic_said (standard.levels flags) bits.old result bits.new }
{
    let gain = read_asked(bits, is_set(flags, 1), read_gain)?;
    let priority = read_asked(bits, is_set(flags, 0), read_priority)?;
    Ok(Basic { gain, priority })
}

fn read_gain(bits: &mut BitCursor) -> Result<GainWord, Refusal>
    ensures { ReadsAs gain_said standard.gain_word bits.old result bits.new }
{
    // An arm each for 0 and 1 would make it a jump table, which is slower (docs/SPEED.md).
    match bits.read(2, OBJECT_GAIN_INDEX)? {
        2 => {
            let word = bits.read(6, OBJECT_GAIN)?;
            Ok(GainWord::Level(gain_db(word)))
        }
        3 => Ok(GainWord::Copied),
        index => Ok(GainWord::Level(level(index))),
    }
}

// The level that an index says alone.
fn level(index: u32) -> i16
    ensures { result ≡ cond (eqb index 1) silence (pos 0) }
{
    if index == 1 { SILENCE } else { 0 }
}

// No word says 0 dB.
fn gain_db(word: u32) -> i16
    requires { word < 64 }
    ensures { result ≡ standard.decibels word }
{
    let number = word as i16;
    if number < HIGHEST_GAIN {
        HIGHEST_GAIN - number
    } else {
        HIGHEST_GAIN - 1 - number
    }
}

fn read_priority(bits: &mut BitCursor) -> Result<i16, Refusal>
    ensures { Reads standard.priority_word bits.old result bits.new }
{
    if bits.read_flag(DEFAULT_OBJECT_PRIORITY_FLAG)? {
        return Ok(PRIORITY_LIMIT);
    }
    let priority = bits.read(5, OBJECT_PRIORITY)?;
    Ok(priority as i16)
}
