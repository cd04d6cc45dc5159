// Every size, column and range of what is lent, each named once.
pub const ROW_WIDTH: usize = 16;

pub const OBJECT_LIMIT: usize = 128;

pub const BLOCK_LIMIT: usize = 8;

// The object count and the doubt stand before the rows.
pub const COUNT: usize = 0;

pub const DOUBT: usize = 1;

pub const RETAINED_HEAD: usize = 2;

pub const START_LENGTH: usize = ROW_WIDTH * OBJECT_LIMIT;

pub const RETAINED_LENGTH: usize = RETAINED_HEAD + START_LENGTH;

pub const BLOCKS_LENGTH: usize = START_LENGTH * BLOCK_LIMIT;

pub const TIMINGS_LENGTH: usize = 2 * BLOCK_LIMIT;

// Where each number of a row stands in it.
pub const KIND: usize = 0;

pub const ACTIVE: usize = 1;

pub const GAIN: usize = 2;

pub const PRIORITY: usize = 3;

pub const X: usize = 4;

pub const Y: usize = 5;

pub const Z: usize = 6;

pub const WIDTH: usize = 7;

pub const DEPTH: usize = 8;

pub const HEIGHT: usize = 9;

pub const SCREEN: usize = 10;

pub const LOCK: usize = 11;

pub const ZONE: usize = 12;

pub const ELEVATION: usize = 13;

pub const DISTANCE: usize = 14;

pub const MARK: usize = 15;

// How far each number of a row goes: x and y from 0, z to either side, sizes, zone and priority from 0.
pub const SIDE_LIMIT: i16 = 62;

pub const HEIGHT_LIMIT: i16 = 15;

pub const SIZE_LIMIT: i16 = 31;

pub const ZONE_LIMIT: i16 = 5;

// The distance of an object at infinity, and the largest.
pub const INFINITY: i16 = 17;

pub const PRIORITY_LIMIT: i16 = 32;

pub const LOWEST_GAIN: i16 = -49;

pub const HIGHEST_GAIN: i16 = 15;

// The gain of minus infinity.
pub const SILENCE: i16 = -128;

// x and y of the default picture.
pub const MIDDLE: i16 = 31;

// The marks of a row with no group settled, and with every one; and how many marks there are. A lent row holds them, and
// C reads them.
pub const UNSETTLED: i16 = 0;

pub const SETTLED: i16 = 31;

pub const MARKS: u32 = 32;

// A mark has a bit for each group of the picture.
pub const POSITION_BIT: u32 = 1;

pub const ZONE_BIT: u32 = 2;

pub const SIZE_BIT: u32 = 4;

pub const SCREEN_BIT: u32 = 8;

pub const LOCK_BIT: u32 = 16;

// The longest payload that is read, in bytes.
pub const PAYLOAD_LIMIT: usize = 16384;
