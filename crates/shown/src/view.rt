// What is shown of a row: each number but the gain by one division.
ghost use Rattle.std.specs.Prelude.{◌≡◌};
ghost use Rattle.standard.specs.Shown.{shown_gain, shown};
ghost use Rattle.rows.specs.Say.{row_said};
ghost use Rattle.shown.specs.Say.{gain_said, shown_said};
ghost use Rattle.shown.specs.Promises.{Stands};

use rows::numbers::{HEIGHT_LIMIT, PRIORITY_LIMIT, SIDE_LIMIT, SILENCE, SIZE_LIMIT};
use rows::row::{Kind, Row};

// Silence is a gain of its own, as in the paper, and not one that is missing: so no Option.
#[derive(Clone, Copy)]
pub enum Gain {
    Silence,
    Decibels(f32),
}

#[derive(Clone, Copy)]
pub struct Shown {
    pub x: f32,
    pub y: f32,
    pub z: f32,
    pub width: f32,
    pub depth: f32,
    pub height: f32,
    pub priority: f32,
    pub gain: Gain,
}

#[derive(Clone, Copy)]
struct Place {
    x: f32,
    y: f32,
    z: f32,
}

// An Lfe has one place, whatever its row says.
fn place_of(row: Row) -> Place
    ensures { Stands (shown (row_said row)) result }
{
    if row.kind == Kind::Lfe.number() {
        return Place {
            x: -1.0,
            y: 1.0,
            z: -1.0,
        };
    }
    let point = row.picture.point;
    Place {
        x: point.x as f32 / SIDE_LIMIT as f32,
        y: point.y as f32 / SIDE_LIMIT as f32,
        z: point.z as f32 / HEIGHT_LIMIT as f32,
    }
}

impl From<i16> for Gain {
    ghost from_gives = { λ number gain. gain_said gain ≡ shown_gain number };

    #[tactic(auto, using(rows::proofs::Tests::joins), unfolding(standard::specs::Shown::shown_gain))]
    fn from(number: i16) -> Gain {
        if number == SILENCE {
            Gain::Silence
        } else {
            Gain::Decibels(number as f32)
        }
    }
}

impl From<Row> for Shown {
    ghost from_gives = { λ row view. shown_said view ≡ shown (row_said row) };

    #[tactic(auto, unfolding(standard::specs::Shown::shown))]
    fn from(row: Row) -> Shown {
        let place = place_of(row);
        let size = row.picture.size;
        Shown {
            x: place.x,
            y: place.y,
            z: place.z,
            width: size.width as f32 / SIZE_LIMIT as f32,
            depth: size.depth as f32 / SIZE_LIMIT as f32,
            height: size.height as f32 / SIZE_LIMIT as f32,
            priority: row.priority as f32 / PRIORITY_LIMIT as f32,
            gain: Gain::from(row.gain),
        }
    }
}
