// The float views of a row, and the call that hands them back.
#![tactic(auto)]

pub mod calls;
pub mod view;
