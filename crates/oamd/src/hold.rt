// The public call of a frame without blocks. It asks nothing of its caller.
ghost use Rattle.standard.specs.CarriedCalls.{hold};
ghost use Rattle.oamd.specs.Promises.{HoldLeft};

use crate::starts::write_held;
use crate::tables::Held;
use bits::Fault;
use rows::form::in_form;
use rows::numbers::{RETAINED_LENGTH, START_LENGTH};

// Its start rows are the retained rows; how many is its answer. C lends both tables by their lengths.
#[tactic(auto, using(std::proofs::lemmas::Bool::Decides::nat_tests), unfolding(standard::specs::CarriedCalls::hold, standard::specs::Numbers::retained_length, standard::specs::Numbers::start_length))]
pub fn hold(retained: &[i16], start: &mut [i16]) -> Result<u32, Fault>
    ensures { HoldLeft (hold retained.now start.old) result start.new }
{
    if retained.len() < RETAINED_LENGTH || start.len() < START_LENGTH {
        return Err(Fault::Room);
    }
    if !in_form(retained) {
        return Err(Fault::Form);
    }
    let held = Held { table: retained };
    write_held(held, start);
    Ok(held.count() as u32)
}
