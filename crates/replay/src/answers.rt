// What decode answers, and what the list has in its place.
use crate::tally::{Part, Tally};
use bits::{Fault, Refusal};
use oamd::{DecodeError, Frame};

// The bytes of the list that these numbers take.
pub const HEAD_LENGTH: usize = 13;

// The numbers of decode's answer. Those that a case doesn't have are 0.
#[derive(Clone, Copy, Default)]
pub struct Head {
    pub number: u32,
    pub context: u8,
    pub place: usize,
    pub objects: u32,
    pub blocks: u32,
    pub unsettled: u32,
    pub missing: u32,
}

impl Head {
    // Numbers of more than one byte have the highest first. What the list's answer is too short for is 0.
    pub fn listed(answer: &[u8]) -> Self {
        let mut head = [0u8; HEAD_LENGTH];
        for (byte, listed) in head.iter_mut().zip(answer) {
            *byte = *listed;
        }
        let [
            number,
            context,
            p0,
            p1,
            p2,
            p3,
            objects,
            blocks,
            unsettled,
            m0,
            m1,
            m2,
            m3,
        ] = head;
        Head {
            number: number.into(),
            context,
            place: u32::from_be_bytes([p0, p1, p2, p3]) as usize,
            objects: objects.into(),
            blocks: blocks.into(),
            unsettled: unsettled.into(),
            missing: u32::from_be_bytes([m0, m1, m2, m3]),
        }
    }

    pub fn compare(self, listed: Self, tally: &mut Tally) {
        let pairs = self.numbers().into_iter().zip(listed.numbers());
        for (index, (given, listed)) in pairs.enumerate() {
            if given != listed {
                tally.differs(Part::Answer, index);
            }
        }
    }

    // In the order of the list.
    fn numbers(self) -> [usize; 7] {
        [
            self.number as usize,
            self.context as usize,
            self.place,
            self.objects as usize,
            self.blocks as usize,
            self.unsettled as usize,
            self.missing as usize,
        ]
    }
}

impl From<Frame> for Head {
    fn from(frame: Frame) -> Self {
        Head {
            objects: frame.objects,
            blocks: frame.blocks,
            unsettled: frame.unsettled,
            ..Head::default()
        }
    }
}

impl From<Refusal> for Head {
    fn from(refusal: Refusal) -> Self {
        Head {
            number: refusal.cause.number(),
            context: refusal.context,
            place: refusal.place.0,
            missing: refusal.missing,
            ..Head::default()
        }
    }
}

impl From<Fault> for Head {
    fn from(fault: Fault) -> Self {
        Head {
            number: fault.number(),
            ..Head::default()
        }
    }
}

impl From<Result<Frame, DecodeError>> for Head {
    fn from(decoded: Result<Frame, DecodeError>) -> Self {
        match decoded {
            Ok(frame) => frame.into(),
            Err(DecodeError::Refused(refusal)) => refusal.into(),
            Err(DecodeError::Unread(fault)) => fault.into(),
        }
    }
}
