// The context numbers of refusals, each named after its string in oamd.rs.
// They are numbers and no enum: the reads of `bits` hand a context on, and know no syntax.
pub const OBJECT_NOT_ACTIVE_FLAG: u8 = 47;

pub const BASIC_INFO_STATUS: u8 = 48;

pub const RENDER_INFO_STATUS: u8 = 49;

pub const ADDITIONAL_TABLE_DATA_FLAG: u8 = 50;

pub const ADDITIONAL_TABLE_DATA_SIZE: u8 = 51;

pub const ADDITIONAL_TABLE_DATA: u8 = 52;

pub const MIXED_BASIC_INFO_FLAGS: u8 = 53;

pub const OBJECT_GAIN_INDEX: u8 = 54;

pub const OBJECT_GAIN: u8 = 55;

pub const DEFAULT_OBJECT_PRIORITY_FLAG: u8 = 56;

pub const OBJECT_PRIORITY: u8 = 57;

pub const MIXED_RENDER_INFO_FLAGS: u8 = 58;

pub const DIFFERENTIAL_POSITION_FLAG: u8 = 59;

pub const DIFFERENTIAL_X: u8 = 60;

pub const DIFFERENTIAL_Y: u8 = 61;

pub const DIFFERENTIAL_Z: u8 = 62;

pub const POSITION_X: u8 = 63;

pub const POSITION_Y: u8 = 64;

pub const POSITION_Z_SIGN: u8 = 65;

pub const POSITION_Z: u8 = 66;

pub const OBJECT_DISTANCE_SPECIFIED_FLAG: u8 = 67;

pub const OBJECT_AT_INFINITY_FLAG: u8 = 68;

pub const DISTANCE_FACTOR_INDEX: u8 = 69;

pub const ZONE_CONSTRAINTS_INDEX: u8 = 70;

pub const ELEVATION_ENABLED_FLAG: u8 = 71;

pub const OBJECT_SIZE_INDEX: u8 = 72;

pub const OBJECT_SIZE: u8 = 73;

pub const OBJECT_WIDTH: u8 = 74;

pub const OBJECT_DEPTH: u8 = 75;

pub const OBJECT_HEIGHT: u8 = 76;

pub const SCREEN_REFERENCE_FLAG: u8 = 77;

pub const SCREEN_FACTOR: u8 = 78;

pub const DEPTH_FACTOR_INDEX: u8 = 79;

pub const OBJECT_SNAP_FLAG: u8 = 80;
