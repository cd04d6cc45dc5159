// Render information: the words of an object's picture, group by group.
ghost use Rattle.std.specs.Prelude.{◌≡◌, ◌≤◌};
ghost use Rattle.bits.specs.Parsed.{map_p};
ghost use Rattle.bits.specs.Reads.{flag};
ghost use Rattle.bits.specs.Say.{Reads, ReadsAs};
ghost use Rattle.standard.specs.Contexts as context;
ghost use Rattle.standard.specs.Numbers.{size_limit};
ghost use Rattle.standard.specs.Updates as standard;
ghost use Rattle.rows.specs.Say.{zone_said, size_said};
ghost use Rattle.update.specs.Say.{position_said, groups_said, render_said};

use crate::contexts::{
    DEPTH_FACTOR_INDEX, ELEVATION_ENABLED_FLAG, MIXED_RENDER_INFO_FLAGS, OBJECT_DEPTH,
    OBJECT_HEIGHT, OBJECT_SIZE, OBJECT_SIZE_INDEX, OBJECT_SNAP_FLAG, OBJECT_WIDTH, SCREEN_FACTOR,
    SCREEN_REFERENCE_FLAG, ZONE_CONSTRAINTS_INDEX,
};
use crate::position::read_position;
use crate::statuses::{read_asked, read_parts};
use crate::words::{Groups, Placed, Render};
use bits::{BitCursor, BitPlace, Refusal, is_set};
use rows::numbers::ZONE_LIMIT;
use rows::row::{Size, Zone};

// The status was read at a place before. Status 0 takes the default picture, and status 2 keeps the picture.
pub fn read_render_info(
    bits: &mut BitCursor,
    status: u32,
    status_at: BitPlace,
    first: bool,
) -> Result<Render, Refusal>
    ensures { ReadsAs render_said (standard.render first status_at.0 status) bits.old result bits.new }
{
    match status {
        0 => Ok(Render::Default(status_at)),
        2 => Ok(Render::Kept),
        _ => {
            let flags = read_parts(bits, status, 4, MIXED_RENDER_INFO_FLAGS)?;
            let groups = read_groups(bits, flags, first)?;
            Ok(Render::Given(groups))
        }
    }
}

// Each group is read where the one before it ends.
fn read_groups(bits: &mut BitCursor, flags: u32, first: bool) -> Result<Groups, Refusal>
    ensures { ReadsAs groups_said (standard.groups first flags) bits.old result bits.new }
{
    let position = read_asked(
        bits,
        is_set(flags, 3),
        |bits|
            ensures { ReadsAs position_said (standard.position_word first) bits.old result bits.new }
        { read_position(bits, first) },
    )?;
    let zone = read_asked(bits, is_set(flags, 2), read_zone)?;
    let size = read_asked(bits, is_set(flags, 1), read_size)?;
    let screen = read_asked(bits, is_set(flags, 0), read_screen)?;
    let at = bits.position;
    let word = read_lock(bits)?;
    Ok(Groups {
        position,
        zone,
        size,
        screen,
        lock: Placed { word, at },
    })
}

fn read_zone(bits: &mut BitCursor) -> Result<Zone, Refusal>
    ensures { ReadsAs zone_said standard.zone_word bits.old result bits.new }
{
    let at = bits.position;
    let zone = bits.read(3, ZONE_CONSTRAINTS_INDEX)?;
    if zone > ZONE_LIMIT as u32 {
        return Err(Refusal::invalid(ZONE_CONSTRAINTS_INDEX, at));
    }
    let elevated = bits.read_flag(ELEVATION_ENABLED_FLAG)?;
    Ok(Zone {
        zone: zone as i16,
        elevation: i16::from(elevated),
    })
}

fn read_size(bits: &mut BitCursor) -> Result<Size, Refusal>
    ensures { ReadsAs size_said standard.size_word bits.old result bits.new }
{
    let at = bits.position;
    let index = bits.read(2, OBJECT_SIZE_INDEX)?;
    // Not one match: as a jump table it is slower (docs/SPEED.md).
    if index % 2 == 0 {
        if index == 0 {
            return Ok(size_of(0, 0, 0));
        }
        return read_sizes(bits);
    }
    if index != 1 {
        return Err(Refusal::invalid(OBJECT_SIZE_INDEX, at));
    }
    let size = bits.read(5, OBJECT_SIZE)?;
    Ok(size_of(size, size, size))
}

fn read_sizes(bits: &mut BitCursor) -> Result<Size, Refusal>
    ensures { ReadsAs size_said standard.three_sizes bits.old result bits.new }
{
    let width = bits.read(5, OBJECT_WIDTH)?;
    let depth = bits.read(5, OBJECT_DEPTH)?;
    let height = bits.read(5, OBJECT_HEIGHT)?;
    Ok(size_of(width, depth, height))
}

fn size_of(width: u32, depth: u32, height: u32) -> Size
    requires { (width ≤ size_limit) × (depth ≤ size_limit) × (height ≤ size_limit) }
    ensures { size_said result ≡ standard.sized width depth height }
{
    Size {
        width: width as i16,
        depth: depth as i16,
        height: height as i16,
    }
}

// Two factors behind a set flag are dropped.
fn read_screen(bits: &mut BitCursor) -> Result<i16, Refusal>
    ensures { Reads standard.screen_word bits.old result bits.new }
{
    if !bits.read_flag(SCREEN_REFERENCE_FLAG)? {
        return Ok(0);
    }
    bits.read(3, SCREEN_FACTOR)?;
    bits.read(2, DEPTH_FACTOR_INDEX)?;
    Ok(1)
}

fn read_lock(bits: &mut BitCursor) -> Result<i16, Refusal>
    ensures { Reads (map_p standard.bit (flag context.object-snap-flag)) bits.old result bits.new }
{
    let lock = bits.read_flag(OBJECT_SNAP_FLAG)?;
    Ok(i16::from(lock))
}
