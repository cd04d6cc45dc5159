// What is carried into a frame: three lent numbers and a table of rows, and their form.
ghost use Rattle.std.specs.Prelude.{◌≡◌, ◌-◌, ◌<◌};

use bits::Fault;
use rows::form::all_shown;
use rows::numbers::{OBJECT_LIMIT, START_LENGTH};

// A ramp: of how many objects, what has elapsed of it at the frame's sample 0, and of how much, which is not 0.
#[derive(Clone, Copy)]
pub struct Going {
    pub objects: u16,
    pub elapsed: u16,
    pub duration: u16,
    pub ghost lasts: { 0 < duration },
}

impl Going {
    ghost use Rattle.timing.specs.Say.{going_said};
    ghost use Rattle.timing.specs.Going.{going_in, Read, ReadWith};

    // A duration of 0 says that nothing is carried, and then the other two numbers say nothing.
    pub fn read(state: &[u16; 3]) -> Result<Option<Self>, Fault>
        ensures { Read (going_in state.now) result }
    {
        let [objects, elapsed, duration] = *state;
        if duration == 0 {
            return Ok(None);
        }
        if (duration <= elapsed) | (OBJECT_LIMIT < objects as usize) {
            return Err(Fault::Form);
        }
        Ok(Some(Going {
            objects,
            elapsed,
            duration,
        }))
    }

    // With its rows, which are counted only once their number is known to be in form.
    pub fn read_with(state: &[u16; 3], carried: &[i16]) -> Result<Option<Self>, Fault>
        ensures { ReadWith (going_in state.now) carried.now result }
    {
        if carried.len() < START_LENGTH {
            return Err(Fault::Room);
        }
        let going = Self::read(state)?;
        if let Some(ramp) = going {
            if !all_shown(carried, ramp.objects as usize) {
                return Err(Fault::Form);
            }
        }
        Ok(going)
    }

    // Nothing is written as zeros.
    pub fn put(going: Option<Self>, state: &mut [u16; 3])
        ensures { going_in state.new ≡ going_said going }
    {
        *state = match going {
            Some(ramp) => [ramp.objects, ramp.elapsed, ramp.duration],
            None => [0, 0, 0],
        };
    }

    // How many samples are left of what is carried.
    pub fn remains(going: Option<Self>) -> u32
        ensures { let g = going_said going in result ≡ g.duration - g.elapsed }
    {
        match going {
            Some(ramp) => ramp.duration.saturating_sub(ramp.elapsed) as u32,
            None => 0,
        }
    }
}
