// What can be said of one object in one block, as in the paper's tree: words, each with the bit place of its reading.
ghost use Rattle.std.specs.Prelude.{◌≡◌};
ghost use Rattle.standard.specs.Marks.{is_absolute};
ghost use Rattle.update.specs.Say.{point_word_said};

use bits::BitPlace;
use rows::row::{Point, Size, Zone};

#[derive(Clone, Copy)]
pub struct Placed<T> {
    pub word: T,
    pub at: BitPlace,
}

// A copied gain is that of the object before.
#[derive(Clone, Copy)]
pub enum GainWord {
    Level(i16),
    Copied,
}

#[derive(Clone, Copy)]
pub struct Basic {
    pub gain: Option<Placed<GainWord>>,
    pub priority: Option<Placed<i16>>,
}

#[derive(Clone, Copy)]
pub enum PointWord {
    Absolute(Point),
    Moved(Point),
}

impl PointWord {
    pub fn is_absolute(self) -> bool
        ensures { result ≡ is_absolute (point_word_said self) }
    {
        matches!(self, PointWord::Absolute(_))
    }
}

#[derive(Clone, Copy)]
pub struct PositionWord {
    pub point: PointWord,
    pub distance: i16,
}

// A lock is always said.
#[derive(Clone, Copy)]
pub struct Groups {
    pub position: Option<Placed<PositionWord>>,
    pub zone: Option<Placed<Zone>>,
    pub size: Option<Placed<Size>>,
    pub screen: Option<Placed<i16>>,
    pub lock: Placed<i16>,
}

// The default picture is said by the status at a place.
#[derive(Clone, Copy)]
pub enum Render {
    Default(BitPlace),
    Kept,
    Given(Groups),
}

// An object is inactive by the flag at a place.
#[derive(Clone, Copy)]
pub enum Update {
    Inactive(BitPlace),
    Active(Basic, Render),
}
