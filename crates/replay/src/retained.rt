// The three calls on the retained table alone.
use crate::tables::{RETAINED_LENT, Retained, renewed};
use crate::tally::{Part, Record, Tally};
use bits::Fault;
use rows::calls;
use rows::numbers::{DOUBT, RETAINED_LENGTH};

// All that is needed becomes 0.
pub fn start(tally: &mut Tally, retained: &mut Retained) {
    tally.record(Record::Start);
    retained.fill(RETAINED_LENGTH);
    let wanted = renewed().numbers;
    called(tally, retained, calls::programme_start, &wanted);
}

// The same, but for the doubt.
pub fn reset(tally: &mut Tally, retained: &mut Retained) {
    tally.record(Record::Reset);
    retained.fill(RETAINED_LENGTH);
    let mut wanted = renewed().numbers;
    wanted[DOUBT] = 1;
    called(tally, retained, calls::reset, &wanted);
}

// The doubt becomes 1, and nothing else changes.
pub fn gap(tally: &mut Tally, retained: &mut Retained) {
    tally.record(Record::Gap);
    retained.fill(RETAINED_LENGTH);
    let mut wanted = retained.numbers;
    wanted[DOUBT] = 1;
    called(tally, retained, calls::gap, &wanted);
}

// The call should accept, and leave this.
fn called<C: FnOnce(&mut [i16]) -> Result<(), Fault>>(
    tally: &mut Tally,
    retained: &mut Retained,
    call: C,
    wanted: &[i16; RETAINED_LENT],
)
    requires { C.IsAlwaysCallable call }
{
    if call(&mut retained.numbers).is_err() {
        tally.differs(Part::Answer, 0);
    }
    retained.same(tally, wanted);
}
