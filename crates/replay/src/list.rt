// The list's bytes, as they come from the input. An error says that the list is torn.
use std::io;
use std::io::{ErrorKind, Read};

// The next `N` bytes.
pub fn bytes<R: Read, const N: usize>(input: &mut R) -> io::Result<[u8; N]> {
    let mut bytes = [0u8; N];
    input.read_exact(&mut bytes)?;
    Ok(bytes)
}

// The next `length` bytes, at the front of a buffer. Where that has no room, the list is torn too.
pub fn front<'a, R: Read>(
    input: &mut R,
    buffer: &'a mut [u8],
    length: usize,
) -> io::Result<&'a [u8]> {
    let front = buffer.get_mut(..length).ok_or(ErrorKind::InvalidData)?;
    input.read_exact(front)?;
    Ok(front)
}
