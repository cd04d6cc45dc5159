// What the words of one object in one block do to its row. It cannot refuse.
ghost use Rattle.std.specs.Prelude.{◌≡◌, cond, ◌||◌, ◌<◌, ◌≤ℤ◌, pos, ◌+ℤ◌};
ghost use Rattle.standard.specs.Tree.{given};
ghost use Rattle.standard.specs.Rows.{Group};
ghost use Rattle.standard.specs.Marks as marks;
ghost use Rattle.standard.specs.Meaning as meaning;
ghost use Rattle.rows.specs.Kinds.{kind_said};
ghost use Rattle.rows.specs.Say.{point_said, picture_said, row_said};
ghost use Rattle.update.specs.Say.{asked_said, word_or, gain_said, point_word_said, position_said, groups_said, render_said, update_said};

use crate::words::{GainWord, Groups, Placed, PointWord, PositionWord, Render, Update};
use rows::numbers::{
    HEIGHT_LIMIT, LOCK_BIT, MARKS, POSITION_BIT, SCREEN_BIT, SETTLED, SIDE_LIMIT, SILENCE,
    SIZE_BIT, ZONE_BIT,
};
use rows::row::{Kind, Picture, Point, Row, default_picture};

// `row` is the row before; the previous gain is that of the preceding object in this block, 0 before object 0.
pub fn apply(words: Update, kind: Kind, previous_gain: i16, row: Row) -> Row
    ensures { row_said result ≡ meaning.updated (kind_said kind) previous_gain (update_said words) (row_said row) }
{
    let dynamic = kind.is_dynamic();
    match words {
        Update::Inactive(_) => Row {
            kind: kind.number(),
            active: 0,
            gain: SILENCE,
            priority: 0,
            picture: row.picture,
            mark: row_mark(dynamic, Render::Kept, row.mark),
        },
        Update::Active(basic, render) => Row {
            kind: kind.number(),
            active: 1,
            gain: new_gain(basic.gain, previous_gain, row.gain),
            priority: or_before(basic.priority, row.priority),
            picture: row_picture(dynamic, render, row.picture),
            mark: row_mark(dynamic, render, row.mark),
        },
    }
}

// What is said, or else what was before.
fn or_before<T: Copy>(said: Option<Placed<T>>, before: T) -> T
    ensures { result ≡ word_or said before }
{
    said.map_or(before, |placed| placed.word)
}

fn new_gain(said: Option<Placed<GainWord>>, previous: i16, before: i16) -> i16
    ensures { result ≡ meaning.new_gain previous (asked_said gain_said said) before }
{
    match said {
        None => before,
        Some(gain) => gain_after(gain.word, previous),
    }
}

fn gain_after(gain: GainWord, previous: i16) -> i16
    ensures { result ≡ meaning.gain_said previous (gain_said gain) }
{
    match gain {
        GainWord::Level(level) => level,
        GainWord::Copied => copied_gain(previous),
    }
}

// Silence is copied as 0 dB.
fn copied_gain(previous: i16) -> i16
    ensures { result ≡ meaning.copied_gain previous }
{
    if previous == SILENCE { 0 } else { previous }
}

// Fixed kinds keep their picture.
fn row_picture(dynamic: bool, render: Render, before: Picture) -> Picture
    ensures { picture_said result ≡ cond dynamic (meaning.new_picture (render_said render) (picture_said before)) (picture_said before) }
{
    if !dynamic {
        return before;
    }
    match render {
        Render::Default(_) => default_picture(),
        Render::Kept => before,
        Render::Given(groups) => new_picture(groups, before),
    }
}

fn new_picture(groups: Groups, before: Picture) -> Picture
    ensures { picture_said result ≡ meaning.new_picture (given (groups_said groups)) (picture_said before) }
{
    Picture {
        zone: or_before(groups.zone, before.zone),
        size: or_before(groups.size, before.size),
        screen: or_before(groups.screen, before.screen),
        lock: groups.lock.word,
        ..moved(groups.position, before)
    }
}

// Steps move the point alone: a distance is said with them, too.
fn moved(position: Option<Placed<PositionWord>>, before: Picture) -> Picture
    ensures { picture_said result ≡ record (picture_said before) { position = meaning.new_position (asked_said position_said position) (picture_said before).position } }
{
    match position {
        None => before,
        Some(Placed { word, .. }) => Picture {
            point: new_point(word.point, before.point),
            distance: word.distance,
            ..before
        },
    }
}

fn new_point(word: PointWord, before: Point) -> Point
    ensures { point_said result ≡ meaning.point_said (point_word_said word) (point_said before) }
{
    match word {
        PointWord::Absolute(point) => point,
        PointWord::Moved(steps) => stepped(steps, before),
    }
}

fn stepped(steps: Point, before: Point) -> Point
    ensures { point_said result ≡ meaning.stepped (point_said steps) (point_said before) }
{
    Point {
        x: step(before.x, steps.x, 0, SIDE_LIMIT),
        y: step(before.y, steps.y, 0, SIDE_LIMIT),
        z: step(before.z, steps.z, -HEIGHT_LIMIT, HEIGHT_LIMIT),
    }
}

// A step beyond an end stays there. Nothing is asked of either number.
fn step(coordinate: i16, by: i16, low: i16, high: i16) -> i16
    requires { low ≤ℤ high }
    ensures { result ≡ meaning.clamp low high (coordinate +ℤ by) }
{
    coordinate.saturating_add(by).clamp(low, high)
}

// Fixed kinds are settled in every block.
fn row_mark(dynamic: bool, render: Render, before: i16) -> i16
    ensures { result ≡ cond dynamic (marks.new_mark (render_said render) «before») marks.settled }
{
    if !dynamic {
        return SETTLED;
    }
    match render {
        Render::Default(_) => SETTLED,
        Render::Kept => risen(0, before),
        Render::Given(groups) => risen(settled_by(groups), before),
    }
}

// The bits of the groups that are read, the position's if it is absolute. A lock is always read.
fn settled_by(groups: Groups) -> u32
    ensures { result ≡ marks.bits_of (λ g. marks.settles g (given (groups_said groups))) }
{
    let position = u32::from(is_placed(groups.position)) * POSITION_BIT;
    let zone = u32::from(groups.zone.is_some()) * ZONE_BIT;
    let size = u32::from(groups.size.is_some()) * SIZE_BIT;
    let screen = u32::from(groups.screen.is_some()) * SCREEN_BIT;
    position + zone + size + screen + LOCK_BIT
}

// Steps do not place the point.
fn is_placed(position: Option<Placed<PositionWord>>) -> bool
    ensures { result ≡ marks.absolutely_said (asked_said position_said position) }
{
    position.is_some_and(|position| position.word.point.is_absolute())
}

// A bit that is set stays set. A number below 0 is no mark.
fn risen(bits: u32, before: i16) -> i16
    ensures { result ≡ pos (marks.bits_of (λ g. marks.marked g (pos bits) || marks.marked g «before»)) }
{
    ((bits | before.max(0) as u32) % MARKS) as i16
}
