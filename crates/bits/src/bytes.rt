// The bits of a payload as a number, byte by byte.
ghost use Rattle.std.specs.Prelude.{◌≡◌, ◌+◌, ◌≤◌, ◌<◌, ◌^◌, get_or};
ghost use Rattle.bits.specs.Bits.{field};

use crate::values::cut;

// Each byte that the field covers is fetched once, and no other: payloads may lie behind a slow bus.
pub fn bits_from(payload: &[u8], from: usize, width: usize) -> u32
    requires { (width ≤ 17) × (from + width < 2 ^ 64) }
    ensures { result ≡ field payload.now from width }
{
    if width == 0 {
        return 0;
    }
    let first = from / 8;
    // Counted from the first byte on, so that it is seen to be three at most.
    let count = (from % 8 + width + 7) / 8;
    // Known before the bytes are there.
    let behind = 7 - (from + width - 1) % 8;
    let mut value = 0;
    for index in first..first + count {
        value = value * 256 + byte_at(payload, index) as u32;
    }
    cut(value, behind, width)
}

// A limit past the payload reads zero bits there.
fn byte_at(payload: &[u8], index: usize) -> u8
    ensures { result ≡ get_or payload.now index 0 }
{
    payload.get(index).copied().unwrap_or(0)
}
