// The reader of a payload: each read answers a value or a refusal, and goes on from where the one before it ended.
ghost use Rattle.std.specs.Prelude.{◌≡◌, ◌-◌, ◌≤◌, ◌<◌, ◌^◌, OnErr};
ghost use Rattle.bits.specs.Reads as reads;
ghost use Rattle.bits.specs.Say.{Reads};

use crate::bytes::bits_from;
use crate::values::{two_to, with_sign, zeros_before};
use crate::{BitPlace, ByteCount, Refusal};

const MAX_VARIABLE_BITS_GROUPS: usize = 4;

// A payload with the place where the next read begins, and the end that cuts the reads.
#[derive(Clone, Copy)]
pub struct BitCursor<'a> {
    pub payload: &'a [u8],
    pub limit: BitPlace,
    pub position: BitPlace,
}

impl<'a> BitCursor<'a> {
    pub fn new(payload: &'a [u8], limit: BitPlace, position: BitPlace) -> BitCursor<'a>
        ensures { result ≡ record { payload = payload.entry; limit = limit; position = position } }
    {
        BitCursor {
            payload,
            limit,
            position,
        }
    }

    pub fn read(&mut self, width: usize, context: u8) -> Result<u32, Refusal>
        requires { width ≤ 17 }
        ensures reads { Reads (reads.read width context) self.old result self.new }
        ensures stays { OnErr result (self.new ≡ self.old) }
    {
        // A field ends where a run of its width does, so a cut is found in one place.
        let from = self.position.0;
        self.skip(width as u32, context)?;
        Ok(bits_from(self.payload, from, width))
    }

    pub fn read_flag(&mut self, context: u8) -> Result<bool, Refusal>
        ensures reads { Reads (reads.flag context) self.old result self.new }
        ensures stays { OnErr result (self.new ≡ self.old) }
    {
        Ok(self.read(1, context)? == 1)
    }

    pub fn read_signed(&mut self, width: usize, context: u8) -> Result<i16, Refusal>
        requires { (0 < width) × (width < 15) }
        ensures reads { Reads (reads.read_signed width context) self.old result self.new }
        ensures stays { OnErr result (self.new ≡ self.old) }
    {
        let value = self.read(width, context)?;
        Ok(with_sign(value, width))
    }

    // A number of `width` bits, to whose largest value `extra` more bits are added.
    pub fn read_extended(
        &mut self,
        width: usize,
        context: u8,
        extra: usize,
        extra_context: u8,
    ) -> Result<u32, Refusal>
        requires { (width ≤ 17) × (extra ≤ 17) }
        ensures reads { Reads (reads.extended width context (2 ^ width - 1) extra extra_context) self.old result self.new }
        ensures stays { OnErr result (self.new ≡ self.old) }
    {
        let largest = two_to(width) - 1;
        // Reads in a row go ahead on a copy: a refusal leaves the cursor where it was.
        let mut ahead = *self;
        let head = ahead.read(width, context)?;
        if head != largest {
            *self = ahead;
            return Ok(head);
        }
        let more = ahead.read(extra, extra_context)?;
        *self = ahead;
        Ok(largest + more)
    }

    pub fn read_variable_bits_max(&mut self, width: usize, context: u8) -> Result<u32, Refusal>
        requires { width ≤ 4 }
        ensures reads { Reads (reads.variable_bits width 3 context) self.old result self.new }
        ensures stays { OnErr result (self.new ≡ self.old) }
    {
        // A fifth group, and a later group that is cut short, are refused where the number begins.
        let limited = Refusal::limit(context, self.position);
        let span = two_to(width);
        let mut ahead = *self;
        let mut value = ahead.read(width, context)?;
        for _groups in 1..MAX_VARIABLE_BITS_GROUPS {
            let another = ahead.read_flag(context)?;
            if !another {
                *self = ahead;
                return Ok(value);
            }
            let group = ahead.read(width, context).or(Err(limited))?;
            value = value * span + span + group;
        }
        let more = ahead.read_flag(context)?;
        if more {
            return Err(limited);
        }
        *self = ahead;
        Ok(value)
    }

    pub fn skip(&mut self, count: u32, context: u8) -> Result<(), Refusal>
        ensures reads { Reads (reads.skip count context) self.old result self.new }
        ensures stays { OnErr result (self.new ≡ self.old) }
    {
        let at = self.position;
        if self.limit.0 < at.0 {
            return Err(Refusal::truncated(context, at, count, 0));
        }
        // The sum of place and count may not fit, so the room is compared.
        let remained = self.limit.0 - at.0;
        if remained < count as usize {
            return Err(Refusal::truncated(context, at, count, remained as u32));
        }
        self.position = BitPlace(at.0 + count as usize);
        Ok(())
    }

    // A count of bytes less 1 in 4 bits, and so many bytes passed over.
    pub fn skip_bytes(&mut self, context: u8, data_context: u8) -> Result<(), Refusal>
        ensures reads { Reads (reads.skip_bytes context data_context) self.old result self.new }
        ensures stays { OnErr result (self.new ≡ self.old) }
    {
        let mut ahead = *self;
        let coded = ahead.read(4, context)?;
        let run = ByteCount(coded as usize + 1).bits();
        ahead.skip(run.0 as u32, data_context)?;
        *self = ahead;
        Ok(())
    }

    // What is left of each byte is one field, so a turn goes on by a width. Only in the byte that has a 1 is its place sought.
    pub fn consume_zero_padding(&mut self, context: u8) -> Result<(), Refusal>
        ensures reads { Reads (reads.padding context) self.old result self.new }
        ensures stays { OnErr result (self.new ≡ self.old) }
    {
        let mut place = self.position.0;
        while place < self.limit.0 {
            let width = (8 - place % 8).min(self.limit.0 - place);
            let rest = bits_from(self.payload, place, width);
            if rest != 0 {
                let set = place + zeros_before(rest, width);
                return Err(Refusal::invalid(context, BitPlace(set)));
            }
            place += width;
        }
        self.position = BitPlace(place);
        Ok(())
    }
}
