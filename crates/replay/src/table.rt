// One lent table: what a call needs of it, and some numbers behind that no call touches.
use crate::tally::{Part, Tally};
use std::ops::Range;

// Numbers lent behind what is needed.
pub const BEHIND: usize = 17;

// No call writes the sentinel: the specification's numbers are smaller. `part` says where in a record the table is.
#[derive(Drop)]
pub struct Table<T: Drop, const LENT: usize> {
    pub numbers: [T; LENT],
    part: Part,
    needed: usize,
    sentinel: T,
}

impl<T: Copy + Default + PartialEq, const LENT: usize> Table<T, LENT> {
    // All zeros, and the sentinel behind what is needed.
    pub fn new(part: Part, needed: usize, sentinel: T) -> Self {
        let mut table = Table {
            numbers: [T::default(); LENT],
            part,
            needed,
            sentinel,
        };
        table.fill(needed);
        table
    }

    // Numbers from `from` on become the sentinel. The library's `fill` would ask that a clone of `T` cannot fail.
    pub fn fill(&mut self, from: usize) {
        let sentinel = self.sentinel;
        if let Some(numbers) = self.numbers.get_mut(from..) {
            for number in numbers {
                *number = sentinel;
            }
        }
    }

    // All numbers of a range should be this value.
    fn all(&self, tally: &mut Tally, range: Range<usize>, value: T) {
        let first = range.start;
        if let Some(numbers) = self.numbers.get(range) {
            for (index, number) in numbers.iter().enumerate() {
                if *number != value {
                    tally.differs(self.part, first + index);
                }
            }
        }
    }

    // From this number on, the table should hold the sentinel still.
    pub fn untouched(&self, tally: &mut Tally, from: usize) {
        self.all(tally, from..LENT, self.sentinel);
    }

    // From this number on, all that is needed should be zero, and behind it the sentinel.
    pub fn zeroed(&self, tally: &mut Tally, from: usize) {
        self.all(tally, from..self.needed, T::default());
        self.untouched(tally, self.needed);
    }

    // The numbers from `from` on should be those listed. Where the table ends too early, that is one difference more.
    pub fn listed<I: ExactSizeIterator<Item = T> + Drop>(
        &self,
        tally: &mut Tally,
        from: usize,
        listed: I,
    )
        requires { I.can_next listed }
    {
        let too_early = LENT.saturating_sub(from) < listed.len();
        let numbers = self.numbers.iter().enumerate().skip(from);
        for ((index, number), wanted) in numbers.zip(listed) {
            if *number != wanted {
                tally.differs(self.part, index);
            }
        }
        if too_early {
            tally.differs(self.part, LENT);
        }
    }

    // All that is lent should be this.
    pub fn same(&self, tally: &mut Tally, wanted: &[T; LENT]) {
        self.listed(tally, 0, wanted.iter().copied());
    }
}
