// A row by value, nested as in the paper: read from its numbers, and laid out as numbers again.
ghost use Rattle.std.specs.Prelude.{◌≡◌};
ghost use Rattle.standard.specs.Tree.{is_dynamic, kind_number};
ghost use Rattle.standard.specs.Rows.{default_picture};
ghost use Rattle.standard.specs.Tables.{row_numbers, row_of};
ghost use Rattle.rows.specs.Kinds.{kind_said, kind_of};
ghost use Rattle.rows.specs.Say.{point_said, zone_said, size_said, picture_said, row_said};

use crate::numbers::{
    ACTIVE, DEPTH, DISTANCE, ELEVATION, GAIN, HEIGHT, KIND, LOCK, MARK, MIDDLE, PRIORITY,
    ROW_WIDTH, SCREEN, WIDTH, X, Y, Z, ZONE,
};

// All but the last are fixed.
#[derive(Clone, Copy, PartialEq, Eq)]
pub enum Kind {
    Lfe = 0,
    Bed = 1,
    Isf = 2,
    Dynamic = 3,
}

impl Kind {
    // As a row holds it.
    pub fn number(self) -> i16
        ensures { result ≡ kind_number (kind_said self) }
    {
        self as i16
    }

    pub fn is_dynamic(self) -> bool
        ensures { result ≡ is_dynamic (kind_said self) }
    {
        self == Kind::Dynamic
    }
}

impl From<i16> for Kind {
    ghost from_gives = { λ number kind. kind_said kind ≡ kind_of number };

    // A number that is no kind's is read as a Dynamic.
    #[tactic(auto, unfolding(crate::specs::Kinds::kind_of))]
    fn from(number: i16) -> Kind {
        match number {
            0 => Kind::Lfe,
            1 => Kind::Bed,
            2 => Kind::Isf,
            _ => Kind::Dynamic,
        }
    }
}

#[derive(Clone, Copy, PartialEq, Eq)]
pub struct Point {
    pub x: i16,
    pub y: i16,
    pub z: i16,
}

#[derive(Clone, Copy, PartialEq, Eq)]
pub struct Zone {
    pub zone: i16,
    pub elevation: i16,
}

#[derive(Clone, Copy, PartialEq, Eq)]
pub struct Size {
    pub width: i16,
    pub depth: i16,
    pub height: i16,
}

// Point and distance are the paper's position. As one struct they would be moved as eight bytes, and taken apart again.
#[derive(Clone, Copy, PartialEq, Eq)]
pub struct Picture {
    pub point: Point,
    pub distance: i16,
    pub zone: Zone,
    pub size: Size,
    pub screen: i16,
    pub lock: i16,
}

// The kind is a number, since a lent row may hold one that is no kind's.
#[derive(Clone, Copy)]
pub struct Row {
    pub kind: i16,
    pub active: i16,
    pub gain: i16,
    pub priority: i16,
    pub picture: Picture,
    pub mark: i16,
}

#[tactic(auto, unfolding(standard::specs::Rows::default_picture))]
pub fn default_picture() -> Picture
    ensures { picture_said result ≡ default_picture }
{
    Picture {
        point: Point {
            x: MIDDLE,
            y: MIDDLE,
            z: 0,
        },
        distance: 0,
        zone: Zone {
            zone: 0,
            elevation: 1,
        },
        size: Size {
            width: 0,
            depth: 0,
            height: 0,
        },
        screen: 0,
        lock: 0,
    }
}

impl From<&[i16; ROW_WIDTH]> for Row {
    ghost from_gives = { λ part row. row_said row ≡ row_of part.now };

    #[tactic(auto, unfolding(standard::specs::Tables::row_of))]
    fn from(part: &[i16; ROW_WIDTH]) -> Row {
        let picture = Picture {
            point: Point {
                x: part[X],
                y: part[Y],
                z: part[Z],
            },
            distance: part[DISTANCE],
            zone: Zone {
                zone: part[ZONE],
                elevation: part[ELEVATION],
            },
            size: Size {
                width: part[WIDTH],
                depth: part[DEPTH],
                height: part[HEIGHT],
            },
            screen: part[SCREEN],
            lock: part[LOCK],
        };
        Row {
            kind: part[KIND],
            active: part[ACTIVE],
            gain: part[GAIN],
            priority: part[PRIORITY],
            picture,
            mark: part[MARK],
        }
    }
}

// In the order of a table.
impl From<Row> for [i16; ROW_WIDTH] {
    ghost from_gives = { λ row numbers. numbers ≡ row_numbers (row_said row) };

    #[tactic(auto, using(crate::proofs::Tests::back), unfolding(standard::specs::Tables::row_numbers))]
    fn from(row: Row) -> [i16; ROW_WIDTH] {
        let picture = row.picture;
        [
            row.kind,
            row.active,
            row.gain,
            row.priority,
            picture.point.x,
            picture.point.y,
            picture.point.z,
            picture.size.width,
            picture.size.depth,
            picture.size.height,
            picture.screen,
            picture.lock,
            picture.zone.zone,
            picture.zone.elevation,
            picture.distance,
            row.mark,
        ]
    }
}
