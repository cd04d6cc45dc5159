// The reading layer: places and sizes, refusals, and the cursor that reads a payload's bits, the highest of each byte first.
#![tactic(auto)]

ghost use Rattle.std.specs.Prelude.{◌≡◌, ◌*◌, ◌<◌, ◌^◌};

mod bytes;
mod cursor;
mod refusals;
mod values;

pub use cursor::BitCursor;
pub use refusals::{Cause, Fault, Refusal};
pub use values::{is_set, two_to};

// Sizes in bytes and places in bits are kept apart: `bits` is the one way across.
#[derive(Clone, Copy, PartialEq, Eq, PartialOrd, Ord)]
pub struct ByteCount(pub usize);

#[derive(Clone, Copy, PartialEq, Eq, PartialOrd, Ord)]
pub struct BitPlace(pub usize);

impl ByteCount {
    // From 2 to the 61st on, eight times the count would not fit.
    pub fn bits(self) -> BitPlace
        requires { self.0 < 2 ^ 61 }
        ensures { result.0 ≡ self.0 * 8 }
    {
        BitPlace(self.0 * 8)
    }
}
