// Records to replies: a payload is decoded into the lent tables, and a notice changes the retained one.
ghost use Rattle.std.specs.Prelude.{◌≡◌};
ghost use Rattle.standard.specs.Journal as paper;
ghost use Rattle.oamd.specs.Promises.{lent, said_decoded};
ghost use Rattle.journals.specs.Say.{said_record, said_answer};
ghost use Rattle.journals.specs.Promises.{Left};

use crate::records::Record;
use oamd::{DecodeError, Frame, decode};
use rows::calls::{gap, programme_start, reset};

// The number of a payload that was accepted.
pub const ACCEPTED: u64 = 0;

// The numbers of a decoding, wide enough for any of them.
#[derive(Clone, Copy, PartialEq, Eq)]
pub struct Answer {
    pub number: u64,
    pub context: u64,
    pub place: u64,
    pub missing: u64,
    pub objects: u64,
    pub blocks: u64,
    pub unsettled: u64,
}

// What was not accepted has no counts, and what was not read has its number alone.
impl From<Result<Frame, DecodeError>> for Answer {
    ghost from_gives = { λ decoded answer. said_answer answer ≡ said_decoded decoded };

    fn from(decoded: Result<Frame, DecodeError>) -> Answer {
        let nothing = Answer {
            number: ACCEPTED,
            context: 0,
            place: 0,
            missing: 0,
            objects: 0,
            blocks: 0,
            unsettled: 0,
        };
        match decoded {
            Ok(frame) => Answer {
                objects: frame.objects as u64,
                blocks: frame.blocks as u64,
                unsettled: frame.unsettled as u64,
                ..nothing
            },
            Err(DecodeError::Refused(refusal)) => Answer {
                number: refusal.cause.number() as u64,
                context: refusal.context as u64,
                place: refusal.place.0 as u64,
                missing: refusal.missing as u64,
                ..nothing
            },
            Err(DecodeError::Unread(fault)) => Answer {
                number: fault.number() as u64,
                ..nothing
            },
        }
    }
}

#[derive(Clone, Copy, PartialEq, Eq)]
pub enum Reply {
    Answered(Result<Frame, DecodeError>),
    Noted,
    Cleared,
    Started,
}

// The number of a notice's call is not told.
pub fn reply_to(
    what: Record<'_>,
    retained: &mut [i16],
    start: &mut [i16],
    blocks: &mut [i16],
    timings: &mut [u16],
) -> Reply
    ensures { Left (paper.reply_to (lent retained.old start.old blocks.old timings.old) (said_record what.entry)) result retained.new start.new blocks.new timings.new }
{
    match what {
        Record::Payload(payload) => {
            Reply::Answered(decode(payload, retained, start, blocks, timings))
        }
        Record::Gap => {
            let _ = gap(retained);
            Reply::Noted
        }
        Record::Reset => {
            let _ = reset(retained);
            Reply::Cleared
        }
        Record::Start => {
            let _ = programme_start(retained);
            Reply::Started
        }
    }
}
