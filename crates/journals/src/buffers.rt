// Buffers of a program: a part of what has arrived, what is kept of it, and lines that wait to be written.
ghost use Rattle.std.specs.Prelude.{◌≡◌};
ghost use Rattle.journals.specs.Buffers.{part, Kept, Appended};

// The bytes from one place to before another, as far as there are any.
pub fn part(bytes: &[u8], from: usize, to: usize) -> &[u8]
    ensures { result.now ≡ part bytes.now from to }
{
    let end = to.min(bytes.len());
    &bytes[from.min(end)..end]
}

// That part goes to the front, and all behind it stays; the answer says how many bytes it has.
pub fn keep(bytes: &mut [u8], from: usize, to: usize) -> usize
    ensures { Kept bytes.old from to result bytes.new }
{
    let end = to.min(bytes.len());
    let start = from.min(end);
    bytes.copy_within(start..end, 0);
    end - start
}

// The text is put at a place if it has room there, and the answer is the place behind it; else nothing is changed.
pub fn append(out: &mut [u8], at: usize, text: &[u8]) -> usize
    ensures { Appended out.old at text.now result out.new }
{
    match at.checked_add(text.len()) {
        Some(end) if end <= out.len() => {
            out[at..end].copy_from_slice(text);
            end
        }
        _ => at,
    }
}
