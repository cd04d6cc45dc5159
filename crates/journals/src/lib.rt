// The journal as a library: bytes to records, records to replies, replies to lines.
#![tactic(auto)]

pub mod buffers;
pub mod lines;
pub mod prints;
pub mod records;
pub mod replies;
pub mod tables;
pub mod texts;
pub mod turns;
