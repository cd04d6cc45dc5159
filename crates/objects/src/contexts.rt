// The context numbers of refusals, named after the strings of oamd.rs.
// They are numbers and no enum: the reads of `bits` hand a context on, and know no syntax.
pub const SAMPLE_OFFSET_CODE: u8 = 35;

pub const SAMPLE_OFFSET_INDEX: u8 = 36;

pub const SAMPLE_OFFSET: u8 = 37;

pub const UPDATE_BLOCK_COUNT: u8 = 38;

pub const BLOCK_OFFSET_FACTOR: u8 = 39;

pub const RAMP_DURATION_CODE: u8 = 40;

pub const INDEXED_RAMP_DURATION_FLAG: u8 = 41;

pub const RAMP_DURATION_INDEX: u8 = 42;

pub const RAMP_DURATION: u8 = 43;

pub const RESERVED_DATA_NOT_PRESENT_FLAG: u8 = 45;

pub const OBJECT_ELEMENT_RESERVED_DATA: u8 = 46;
