// Bytes that begin at any bit, copied into a buffer.
ghost use Rattle.std.specs.Prelude.{◌≡◌, ◌+◌, ◌*◌, ◌-◌, ◌/◌, ◌%◌, ◌^◌, ◌≤◌, ◌<◌, length};
ghost use Rattle.emdf.specs.Say.{bytes_from};

// As many as the buffer takes.
pub fn copy_bytes(container: &[u8], from: usize, buffer: &mut [u8])
    requires { from + length buffer.old * 8 ≤ length container.now * 8 }
    ensures { buffer.new ≡ bytes_from container.now from (length buffer.old) }
{
    let first = from / 8;
    let end = first + buffer.len();
    let shift = from % 8;
    if shift == 0 {
        copy(&container[first..end], buffer);
    } else {
        copy_shifted(&container[first..end + 1], shift, buffer);
    }
}

// Not `copy_from_slice`, for which C's archive would need a memmove from outside.
fn copy(from: &[u8], to: &mut [u8])
    requires { length from.now ≡ length to.old }
    ensures { to.new ≡ from.now }
{
    for (index, byte) in from.iter().enumerate() {
        to[index] = *byte;
    }
}

// Each byte stands in two neighbours, and the second of them is the first of the next.
fn copy_shifted(bytes: &[u8], shift: usize, buffer: &mut [u8])
    requires { (length bytes.now ≡ length buffer.old + 1) × (shift < 8) }
    ensures { buffer.new ≡ bytes_from bytes.now shift (length buffer.old) }
{
    let mut high = bytes[0];
    for (index, low) in bytes[1..].iter().enumerate() {
        buffer[index] = joined(high, *low, shift);
        high = *low;
    }
}

fn joined(high: u8, low: u8, shift: usize) -> u8
    requires { shift < 8 }
    ensures { result ≡ (high * 256 + low) / 2 ^ (8 - shift) % 256 }
{
    let pair = u16::from(high) * 256 + u16::from(low);
    ((pair >> (8 - shift)) % 256) as u8
}
