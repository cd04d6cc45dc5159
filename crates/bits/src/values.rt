// Small functions of numbers: a sign, single bits, bits cut out, the first 1.
ghost use Rattle.std.specs.Prelude.{◌≡◌, ◌-◌, ◌/◌, ◌%◌, ◌≤◌, ◌<◌, ◌^◌};
ghost use Rattle.bits.specs.Bits.{is_set};
ghost use Rattle.bits.specs.Reads as reads;

// The upper half of the range stands for the numbers below zero.
pub fn with_sign(value: u32, width: usize) -> i16
    requires { ((0 < width) × (width < 15)) × (value < 2 ^ width) }
    ensures { result ≡ reads.signed width value }
{
    let number = value as i16;
    if value < two_to(width - 1) {
        number
    } else {
        number - two_to(width) as i16
    }
}

pub fn two_to(exponent: usize) -> u32
    requires { exponent < 32 }
    ensures { result ≡ 2 ^ exponent }
{
    1 << exponent
}

// Counted from the lowest.
#[tactic(auto, unfolding(crate::specs::Bits::is_set))]
pub fn is_set(value: u32, bit: usize) -> bool
    requires { bit < 32 }
    ensures { result ≡ is_set bit value }
{
    (value >> bit) % 2 == 1
}

// The `width` bits of a number that stand above its lowest `below`.
pub fn cut(number: u32, below: usize, width: usize) -> u32
    requires { (below < 32) × (width < 32) }
    ensures { result ≡ number / 2 ^ below % 2 ^ width }
{
    (number >> below) % two_to(width)
}

// How many zeros a number of `width` bits has before its first 1.
pub fn zeros_before(number: u32, width: usize) -> usize
    requires { (0 < number) × ((width ≤ 32) × (number < 2 ^ width)) }
    ensures { (result < width) × (number / 2 ^ (width - 1 - result) ≡ 1) }
{
    width - (32 - u32::leading_zeros(number) as usize)
}
