// A frame by its timings, objects and start rows, and what it takes up of what is carried.
ghost use Rattle.std.specs.Prelude.{◌≡◌, ◌*◌, ◌≤◌, length, IfSome};
ghost use Rattle.standard.specs.Numbers.{row_width, object_limit, start_length};
ghost use Rattle.standard.specs.Tables.{rows_of};
ghost use Rattle.standard.specs.Carried.{kinds_agree};

use crate::carried::Going;
use crate::updates::Timings;
use bits::Fault;
use rows::numbers::{KIND, OBJECT_LIMIT, START_LENGTH};
use rows::table::parts;

// The start rows lie at the head of their table.
#[derive(Drop)]
pub struct Frame<'a> {
    pub timings: Timings<'a>,
    pub start: &'a [i16],
    pub objects: usize,
    pub ghost started: { start_length ≤ length start.now },
    pub ghost few: { objects ≤ object_limit },
}

impl<'a> Frame<'a> {
    ghost use Rattle.timing.specs.Frames.{Framed, TakenUp};

    pub fn new(
        timings: &'a [u16],
        blocks: u32,
        objects: u32,
        start: &'a [i16],
    ) -> Result<Self, Fault>
        ensures { Framed timings.now blocks objects start.now result }
    {
        let objects = objects as usize;
        if OBJECT_LIMIT < objects {
            return Err(Fault::Query);
        }
        let timings = Timings::new(timings, blocks)?;
        if start.len() < START_LENGTH {
            return Err(Fault::Room);
        }
        Ok(Frame {
            timings,
            start,
            objects,
        })
    }

    // A change of kinds drops what is carried.
    pub fn taken_up(&self, going: Option<Going>, carried: &[i16]) -> Option<Going>
        requires { IfSome going (λ g. start_length ≤ length carried.now) }
        ensures { TakenUp self.now going carried.now result }
    {
        let ramp = going?;
        self.takes(ramp, carried).then_some(ramp)
    }

    // As many objects, and of one kind object by object.
    fn takes(&self, ramp: Going, carried: &[i16]) -> bool
        requires { start_length ≤ length carried.now }
        ensures { result ≡ kinds_agree (rows_of ramp.objects carried.now) (rows_of self.now.objects self.now.start.now) }
    {
        ramp.objects as usize == self.objects && kinds_agree(carried, self.start, self.objects)
    }
}

fn kinds_agree(carried: &[i16], start: &[i16], objects: usize) -> bool
    requires { (objects * row_width ≤ length carried.now) × (objects * row_width ≤ length start.now) }
    ensures { result ≡ kinds_agree (rows_of objects carried.now) (rows_of objects start.now) }
{
    parts(carried, objects)
        .iter()
        .zip(parts(start, objects))
        .all(|(carried, start)| carried[KIND] == start[KIND])
}
