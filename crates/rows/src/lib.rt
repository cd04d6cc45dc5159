// Rows of the lent tables: read, written, cleared, copied and tested, and the calls that need nothing else.
#![tactic(auto)]

pub mod calls;
pub mod form;
pub mod numbers;
pub mod retained;
pub mod row;
pub mod table;
