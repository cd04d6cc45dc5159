// The kinds of the objects as they are read, from the start of a lent table: those past its end are counted, not stored.
ghost use Rattle.std.specs.Prelude.{◌≡◌, [], ◌∷◌, ◌+◌, ◌<◌, ◌^◌, replicate};
ghost use Rattle.rows.specs.Kinds.{kind_said};
ghost use Rattle.assignment.specs.Kinds.{Filled};

use rows::row::Kind;

// How many more may come differs from call to call: a clause bounds the count, and no field can.
#[derive(Drop)]
pub struct Kinds<'a> {
    pub table: &'a mut [Kind],
    pub count: usize,
}

impl<'a> Kinds<'a> {
    pub fn push(&mut self, kind: Kind)
        requires { self.old.count + 1 < 2 ^ 64 }
        ensures { Filled (kind_said kind ∷ []) self.old self.new }
    {
        if self.count < self.table.len() {
            self.table[self.count] = kind;
        }
        self.count += 1;
    }

    pub fn extend(&mut self, kind: Kind, number: usize)
        requires { self.old.count + number < 2 ^ 64 }
        ensures { Filled (replicate number (kind_said kind)) self.old self.new }
    {
        for _ in 0..number {
            self.push(kind);
        }
    }
}
