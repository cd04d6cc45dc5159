// The length of a frame, and the number of the carried row, each named once.
pub const SAMPLES_PER_JOC_FRAME: u32 = 1536;

// The number of the row that a carried ramp comes from: behind the start row, and those of eight blocks.
pub const CARRIED_ROW: u32 = 9;
