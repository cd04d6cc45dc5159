// One object in one block: the words that are said of it, and what they do to its row.
#![tactic(auto)]

ghost use Rattle.std.specs.Prelude.{◌≡◌, OnErr};
ghost use Rattle.bits.specs.Say.{Reads, ReadsAs};
ghost use Rattle.standard.specs.Updates as standard;
ghost use Rattle.rows.specs.Kinds.{kind_said};
ghost use Rattle.update.specs.Say.{render_said, update_said};

mod basic;
mod contexts;
mod meaning;
mod position;
mod render;
mod statuses;
mod words;

use basic::read_basic_info;
use bits::{BitCursor, BitPlace, Refusal};
use contexts::{
    ADDITIONAL_TABLE_DATA, ADDITIONAL_TABLE_DATA_FLAG, ADDITIONAL_TABLE_DATA_SIZE,
    BASIC_INFO_STATUS, OBJECT_NOT_ACTIVE_FLAG, RENDER_INFO_STATUS,
};
pub use meaning::apply;
use render::read_render_info;
use rows::row::Kind;
use statuses::read_status;
use words::Render;
pub use words::Update;

pub fn read_update(bits: &mut BitCursor, kind: Kind, first: bool) -> Result<Update, Refusal>
    ensures reads { ReadsAs update_said (standard.update (kind_said kind) first) bits.old result bits.new }
    ensures stays { OnErr result (bits.new ≡ bits.old) }
{
    let at = bits.position;
    let answer = read_words(bits, kind, first);
    if answer.is_err() {
        bits.position = at;
    }
    answer
}

fn read_words(bits: &mut BitCursor, kind: Kind, first: bool) -> Result<Update, Refusal>
    ensures { ReadsAs update_said (standard.update (kind_said kind) first) bits.old result bits.new }
{
    let at = bits.position;
    let inactive = bits.read_flag(OBJECT_NOT_ACTIVE_FLAG)?;
    let update = if inactive {
        Update::Inactive(at)
    } else {
        read_active(bits, kind, first)?
    };
    skip_table_data(bits)?;
    Ok(update)
}

fn read_active(bits: &mut BitCursor, kind: Kind, first: bool) -> Result<Update, Refusal>
    ensures { ReadsAs update_said (standard.active_update (kind_said kind) first) bits.old result bits.new }
{
    let at = bits.position;
    let status = read_status(bits, first, BASIC_INFO_STATUS)?;
    let basic = read_basic_info(bits, status, at)?;
    let render = read_render_of(bits, kind, first)?;
    Ok(Update::Active(basic, render))
}

// Nothing is said of the picture of a fixed kind.
fn read_render_of(bits: &mut BitCursor, kind: Kind, first: bool) -> Result<Render, Refusal>
    ensures { ReadsAs render_said (standard.render_of (kind_said kind) first) bits.old result bits.new }
{
    if !kind.is_dynamic() {
        return Ok(Render::Kept);
    }
    let at = bits.position;
    let status = read_status(bits, first, RENDER_INFO_STATUS)?;
    read_render_info(bits, status, at, first)
}

fn skip_table_data(bits: &mut BitCursor) -> Result<(), Refusal>
    ensures { Reads standard.table_data bits.old result bits.new }
{
    if !bits.read_flag(ADDITIONAL_TABLE_DATA_FLAG)? {
        return Ok(());
    }
    bits.skip_bytes(ADDITIONAL_TABLE_DATA_SIZE, ADDITIONAL_TABLE_DATA)
}
