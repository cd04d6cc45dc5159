// Why a payload is refused, and why a call gives nothing: by the numbers of the specification.
ghost use Rattle.std.specs.Prelude.{◌≡◌, ◌≤◌};
ghost use Rattle.bits.specs.Parsed.{truncated, invalid, limit, unsupported};
ghost use Rattle.bits.specs.Faults.{fault_number};
ghost use Rattle.bits.specs.Say.{cause_number, refusal};

use crate::BitPlace;

#[derive(Clone, Copy, PartialEq, Eq)]
pub enum Cause {
    Truncated = 1,
    Invalid = 2,
    Limit = 3,
    Unsupported = 4,
}

// A refusal of the payload stands at a place of it. In this order it takes two words.
#[derive(Clone, Copy, PartialEq, Eq)]
pub struct Refusal {
    pub cause: Cause,
    pub context: u8,
    pub missing: u32,
    pub place: BitPlace,
}

// Of these the number alone is told.
#[derive(Clone, Copy, PartialEq, Eq)]
pub enum Fault {
    Room = 5,
    Form = 6,
    Size = 7,
    Ordering = 8,
    Overlap = 9,
    CrossFrame = 10,
    Query = 11,
    Index = 12,
    EndsEarly = 13,
    OtherVersion = 14,
    NoObject = 15,
    UnknownRule = 16,
}

impl Cause {
    pub fn number(self) -> u32
        ensures { result ≡ cause_number self }
    {
        self as u32
    }
}

impl Fault {
    pub fn number(self) -> u32
        ensures { result ≡ fault_number self }
    {
        self as u32
    }
}

impl Refusal {
    // What was wanted less what remained is missing; the other three miss nothing.
    pub fn truncated(context: u8, place: BitPlace, wanted: u32, remained: u32) -> Refusal
        requires { remained ≤ wanted }
        ensures { refusal result ≡ truncated context place.0 wanted remained }
    {
        Refusal {
            cause: Cause::Truncated,
            context,
            missing: wanted - remained,
            place,
        }
    }

    pub fn invalid(context: u8, place: BitPlace) -> Refusal
        ensures { refusal result ≡ invalid context place.0 }
    {
        Refusal::whole(Cause::Invalid, context, place)
    }

    pub fn limit(context: u8, place: BitPlace) -> Refusal
        ensures { refusal result ≡ limit context place.0 }
    {
        Refusal::whole(Cause::Limit, context, place)
    }

    pub fn unsupported(context: u8, place: BitPlace) -> Refusal
        ensures { refusal result ≡ unsupported context place.0 }
    {
        Refusal::whole(Cause::Unsupported, context, place)
    }

    // No bits are missing.
    fn whole(cause: Cause, context: u8, place: BitPlace) -> Refusal
        ensures { refusal result ≡ record { number = cause_number cause; context = context; place = place.0; missing = 0 } }
    {
        Refusal {
            cause,
            context,
            missing: 0,
            place,
        }
    }
}
