// The context numbers of refusals, named after the strings of oamd.rs.
// They are numbers and no enum: the reads of `bits` hand a context on, and know no syntax.
pub const VERSION: u8 = 1;

pub const EXTENDED_VERSION: u8 = 2;

pub const OBJECT_COUNT: u8 = 3;

pub const EXTENDED_OBJECT_COUNT: u8 = 4;

pub const DYNAMIC_ONLY_PROGRAM_FLAG: u8 = 19;

pub const LFE_PRESENT_FLAG: u8 = 20;

pub const CONTENT_DESCRIPTION: u8 = 21;

pub const BED_CHANNEL_DISTRIBUTION_FLAG: u8 = 22;

pub const MULTIPLE_BED_INSTANCES_FLAG: u8 = 23;

pub const BED_INSTANCE_COUNT: u8 = 24;

pub const LFE_ONLY_BED_FLAG: u8 = 25;

pub const STANDARD_BED_ASSIGNMENT_FLAG: u8 = 26;

pub const STANDARD_BED_ASSIGNMENT: u8 = 27;

pub const NONSTANDARD_BED_ASSIGNMENT: u8 = 28;

pub const INTERMEDIATE_SPATIAL_FORMAT_INDEX: u8 = 29;

pub const DYNAMIC_OBJECT_COUNT: u8 = 30;

pub const EXTENDED_DYNAMIC_OBJECT_COUNT: u8 = 31;

pub const RESERVED_DATA_SIZE: u8 = 32;

pub const PROGRAM_ASSIGNMENT_RESERVED_DATA: u8 = 33;

pub const PROGRAM_ASSIGNMENT_OBJECT_COUNT: u8 = 34;
