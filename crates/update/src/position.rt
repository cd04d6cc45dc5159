// The word of an object's position: the point, absolute or by steps, and the distance.
ghost use Rattle.std.specs.Prelude.{◌≡◌, false, cond, ◌≤◌, ◌<◌, min, pos, neg_ℤ};
ghost use Rattle.bits.specs.Parsed.{pure};
ghost use Rattle.bits.specs.Reads.{flag};
ghost use Rattle.bits.specs.Say.{Reads, ReadsAs};
ghost use Rattle.standard.specs.Contexts as context;
ghost use Rattle.standard.specs.Numbers.{side_limit, height_limit};
ghost use Rattle.standard.specs.Updates as standard;
ghost use Rattle.update.specs.Say.{point_word_said, position_said};

use crate::contexts::{
    DIFFERENTIAL_POSITION_FLAG, DIFFERENTIAL_X, DIFFERENTIAL_Y, DIFFERENTIAL_Z,
    DISTANCE_FACTOR_INDEX, OBJECT_AT_INFINITY_FLAG, OBJECT_DISTANCE_SPECIFIED_FLAG, POSITION_X,
    POSITION_Y, POSITION_Z, POSITION_Z_SIGN,
};
use crate::words::{PointWord, PositionWord};
use bits::{BitCursor, Refusal};
use rows::numbers::{INFINITY, SIDE_LIMIT};
use rows::row::Point;

pub fn read_position(bits: &mut BitCursor, first: bool) -> Result<PositionWord, Refusal>
    ensures { ReadsAs position_said (standard.position_word first) bits.old result bits.new }
{
    let differential = read_differential(bits, first)?;
    let point = read_point(bits, differential)?;
    let distance = read_distance(bits)?;
    Ok(PositionWord { point, distance })
}

// In block 0 no position is differential, and no flag says so.
fn read_differential(bits: &mut BitCursor, first: bool) -> Result<bool, Refusal>
    ensures { Reads (cond first (pure false) (flag context.differential-position-flag)) bits.old result bits.new }
{
    if first {
        return Ok(false);
    }
    bits.read_flag(DIFFERENTIAL_POSITION_FLAG)
}

fn read_point(bits: &mut BitCursor, differential: bool) -> Result<PointWord, Refusal>
    ensures { ReadsAs point_word_said (cond differential standard.differential standard.absolutely) bits.old result bits.new }
{
    if differential {
        read_steps(bits)
    } else {
        read_absolute(bits)
    }
}

fn read_steps(bits: &mut BitCursor) -> Result<PointWord, Refusal>
    ensures { ReadsAs point_word_said standard.differential bits.old result bits.new }
{
    let x = bits.read_signed(3, DIFFERENTIAL_X)?;
    let y = bits.read_signed(3, DIFFERENTIAL_Y)?;
    let z = bits.read_signed(3, DIFFERENTIAL_Z)?;
    Ok(PointWord::Moved(Point { x, y, z }))
}

fn read_absolute(bits: &mut BitCursor) -> Result<PointWord, Refusal>
    ensures { ReadsAs point_word_said standard.absolutely bits.old result bits.new }
{
    let x = bits.read(6, POSITION_X)?;
    let y = bits.read(6, POSITION_Y)?;
    let positive = bits.read_flag(POSITION_Z_SIGN)?;
    let z = bits.read(4, POSITION_Z)?;
    Ok(PointWord::Absolute(Point {
        x: coordinate(x),
        y: coordinate(y),
        z: height(positive, z),
    }))
}

fn coordinate(word: u32) -> i16
    ensures { result ≡ pos (min word side_limit) }
{
    word.min(SIDE_LIMIT as u32) as i16
}

fn height(positive: bool, word: u32) -> i16
    requires { word ≤ height_limit }
    ensures { result ≡ cond positive (pos word) (neg_ℤ (pos word)) }
{
    let number = word as i16;
    if positive { number } else { -number }
}

// 0 where none is specified, the factor index and one, or infinity.
fn read_distance(bits: &mut BitCursor) -> Result<i16, Refusal>
    ensures { Reads standard.distance bits.old result bits.new }
{
    if !bits.read_flag(OBJECT_DISTANCE_SPECIFIED_FLAG)? {
        return Ok(0);
    }
    if bits.read_flag(OBJECT_AT_INFINITY_FLAG)? {
        return Ok(INFINITY);
    }
    let index = bits.read(4, DISTANCE_FACTOR_INDEX)?;
    Ok(index as i16 + 1)
}
