// The channels of a bed: those whose bits are set in an assignment, from the lowest.
ghost use Rattle.std.specs.Prelude.{◌≡◌, ◌≤◌, ◌<◌, ◌^◌, length};
ghost use Rattle.rows.specs.Kinds.{kind_said};
ghost use Rattle.standard.specs.Assignment.{chosen};
ghost use Rattle.assignment.specs.Kinds.{Filled};
ghost use Rattle.assignment.specs.Parts.{channel_kind, channels};

use crate::kinds::Kinds;
use bits::is_set;
use rows::row::Kind;

// The widths of the channels, from bit 0; bit 0 and one more are Lfe.
pub const STANDARD_WIDTHS: [u8; 10] = [1, 2, 2, 2, 2, 2, 2, 1, 1, 2];

pub const STANDARD_LFE: usize = 7;

pub const NONSTANDARD_WIDTHS: [u8; 17] = [1; 17];

pub const NONSTANDARD_LFE: usize = 13;

pub fn extend_chosen(kinds: &mut Kinds, assignment: u32, widths: &[u8], second_lfe: usize)
    requires { (length widths.now ≤ 17) × (kinds.old.count < 2 ^ 16) }
    ensures { Filled (chosen (channels second_lfe 0 widths.now) assignment) kinds.old kinds.new }
{
    for (index, &width) in widths.iter().enumerate() {
        if is_set(assignment, index) {
            kinds.extend(channel_kind(second_lfe, index), width as usize);
        }
    }
}

fn channel_kind(second_lfe: usize, index: usize) -> Kind
    ensures { kind_said result ≡ channel_kind second_lfe index }
{
    if index == 0 || index == second_lfe {
        Kind::Lfe
    } else {
        Kind::Bed
    }
}
