// The form of a row, of rows and of the retained table. A row's tests are computed with hardly a branch.
ghost use Rattle.std.specs.Prelude.{◌≡◌, ◌+◌, ◌*◌, ◌≤◌, length, drop};
ghost use Rattle.standard.specs.Numbers.{row_width, retained_head, retained_length};
ghost use Rattle.standard.specs.Tables.{between, gain_form, point_form, position_form, zone_form, size_form, picture_form, is_default, active_form, fixed_form, shown_form, row_form, rows_of, all_shown, all_form, in_form};
ghost use Rattle.rows.specs.Say.{point_said, position_said, zone_said, size_said, picture_said, row_said};

use crate::numbers::{
    COUNT, DOUBT, HEIGHT_LIMIT, HIGHEST_GAIN, INFINITY, LOWEST_GAIN, OBJECT_LIMIT, PRIORITY_LIMIT,
    RETAINED_HEAD, SETTLED, SIDE_LIMIT, SILENCE, SIZE_LIMIT, UNSETTLED, ZONE_LIMIT,
};
use crate::retained::count_of;
use crate::row::{Kind, Picture, Point, Row, Size, Zone, default_picture};
use crate::table::parts;

// One place for the range, so that the tests below are proved by the check alone.
fn within(lo: i16, hi: i16, v: i16) -> bool
    ensures { result ≡ between lo hi v }
{
    (lo..=hi).contains(&v)
}

#[tactic(auto, using(crate::proofs::Tests::joins), unfolding(standard::specs::Tables::gain_form))]
fn gain_form(v: i16) -> bool
    ensures { result ≡ gain_form v }
{
    (v == SILENCE) | within(LOWEST_GAIN, HIGHEST_GAIN, v)
}

impl Point {
    #[tactic(auto, using(crate::proofs::Tests::joins), unfolding(standard::specs::Tables::point_form, standard::specs::Tables::point_tests))]
    fn in_form(self) -> bool
        ensures { result ≡ point_form (point_said self) }
    {
        within(0, SIDE_LIMIT, self.x)
            & within(0, SIDE_LIMIT, self.y)
            & within(-HEIGHT_LIMIT, HEIGHT_LIMIT, self.z)
    }
}

impl Zone {
    #[tactic(auto, using(crate::proofs::Tests::joins), unfolding(standard::specs::Tables::zone_form))]
    fn in_form(self) -> bool
        ensures { result ≡ zone_form (zone_said self) }
    {
        within(0, ZONE_LIMIT, self.zone) & within(0, 1, self.elevation)
    }
}

impl Size {
    #[tactic(auto, using(crate::proofs::Tests::joins), unfolding(standard::specs::Tables::size_form))]
    fn in_form(self) -> bool
        ensures { result ≡ size_form (size_said self) }
    {
        within(0, SIZE_LIMIT, self.width)
            & within(0, SIZE_LIMIT, self.depth)
            & within(0, SIZE_LIMIT, self.height)
    }
}

impl Picture {
    fn position_form(self) -> bool
        ensures { result ≡ position_form (position_said self.point self.distance) }
    {
        self.point.in_form() & within(0, INFINITY, self.distance)
    }

    fn in_form(self) -> bool
        ensures { result ≡ picture_form (picture_said self) }
    {
        self.position_form()
            & self.zone.in_form()
            & self.size.in_form()
            & within(0, 1, self.screen)
            & within(0, 1, self.lock)
    }

    fn is_default(self) -> bool
        ensures { result ≡ is_default (picture_said self) }
    {
        self == default_picture()
    }
}

impl Row {
    // An inactive row is silent and has priority 0.
    #[tactic(auto, using(crate::proofs::Tests::joins), unfolding(standard::specs::Tables::active_form))]
    fn active_form(self) -> bool
        ensures { result ≡ active_form (row_said self) }
    {
        (self.active == 1) | ((self.gain == SILENCE) & (self.priority == 0))
    }

    // A fixed kind has the default picture. Most rows are Dynamic, and theirs is not looked at.
    #[tactic(auto, using(crate::proofs::Tests::joins), unfolding(standard::specs::Tables::fixed_form))]
    fn fixed_form(self) -> bool
        ensures { result ≡ fixed_form (row_said self) }
    {
        self.kind == Kind::Dynamic.number() || self.picture.is_default()
    }

    // To be shown: a fixed kind has any mark. As a call it would take each row by way of memory.
    #[inline(always)]
    pub fn shown_form(self) -> bool
        ensures { result ≡ shown_form (row_said self) }
    {
        within(0, Kind::Dynamic.number(), self.kind)
            & within(0, 1, self.active)
            & gain_form(self.gain)
            & within(0, PRIORITY_LIMIT, self.priority)
            & self.picture.in_form()
            & within(UNSETTLED, SETTLED, self.mark)
            & self.active_form()
            & self.fixed_form()
    }

    // To be retained: a fixed kind is settled.
    #[tactic(auto, using(crate::proofs::Tests::joins), unfolding(standard::specs::Tables::row_form))]
    pub fn row_form(self) -> bool
        ensures { result ≡ row_form (row_said self) }
    {
        self.shown_form() & ((self.kind == Kind::Dynamic.number()) | (self.mark == SETTLED))
    }
}

// The first `count` rows may be shown. This and `rows_form` are two short loops: one function of a table and a test would be no plainer.
// By `all` a row's tests would come apart, with a branch for each.
pub fn all_shown(table: &[i16], count: usize) -> bool
    requires { count * row_width ≤ length table.now }
    ensures { result ≡ all_shown (rows_of count table.now) }
{
    for part in parts(table, count) {
        if !Row::from(part).shown_form() {
            return false;
        }
    }
    true
}

#[tactic(auto, unfolding(standard::specs::Numbers::row_width, standard::specs::Numbers::retained_head))]
fn rows_form(table: &[i16], count: usize) -> bool
    requires { retained_head + count * row_width ≤ length table.now }
    ensures { result ≡ all_form (rows_of count (drop retained_head table.now)) }
{
    for part in parts(&table[RETAINED_HEAD..], count) {
        if !Row::from(part).row_form() {
            return false;
        }
    }
    true
}

// The retained table. The rows are counted only once the count is known to be in form.
#[tactic(auto, unfolding(standard::specs::Tables::in_form, standard::specs::Numbers::retained_length))]
pub fn in_form(table: &[i16]) -> bool
    requires { retained_length ≤ length table.now }
    ensures { result ≡ in_form table.now }
{
    let counted = within(0, OBJECT_LIMIT as i16, table[COUNT]);
    let doubted = within(0, 1, table[DOUBT]);
    counted & doubted && rows_form(table, count_of(table))
}
