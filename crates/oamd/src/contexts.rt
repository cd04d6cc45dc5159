// The contexts of this crate's refusals, by the numbers of docs/CONTEXTS.md.
// They are numbers and no enum: the reads of `bits` hand a context on, and know no syntax.
pub const ALTERNATE_OBJECT_DATA_FLAG: u8 = 5;

pub const ELEMENT_COUNT: u8 = 6;

pub const EXTENDED_ELEMENT_COUNT: u8 = 7;

pub const ELEMENT_ID: u8 = 8;

pub const ELEMENT_SIZE: u8 = 9;

pub const ELEMENT: u8 = 11;

pub const ALTERNATE_OBJECT_DATA_ID: u8 = 12;

pub const ALTERNATE_OBJECT_DATA_TYPE: u8 = 13;

pub const DISCARD_UNKNOWN_ELEMENT_FLAG: u8 = 14;

pub const DUPLICATE_OBJECT_ELEMENT: u8 = 15;

pub const ELEMENT_PADDING: u8 = 16;

pub const PAYLOAD_PADDING: u8 = 17;

pub const MISSING_OBJECT_ELEMENT: u8 = 18;

pub const TRIM_WARP_MODE: u8 = 81;

pub const TRIM_RESERVED_BITS: u8 = 82;

pub const GLOBAL_TRIM_MODE: u8 = 83;

pub const CUSTOM_TRIM_CONFIGURATION: u8 = 84;

pub const PER_OBJECT_TRIM_DISABLE_FLAG: u8 = 85;

pub const PER_OBJECT_TRIM_DISABLE_FLAGS: u8 = 86;
