// The decoder: trim, elements, the whole payload, and the call over the lent tables.
#![tactic(auto)]

mod content;
mod contexts;
pub mod decoder;
mod element;
mod elements;
pub mod hold;
mod payload;
mod starts;
mod tables;
mod trim;
mod unsettled;

pub use decoder::{DecodeError, Frame, decode};
