//! Places in texts.
ghost use Rattle.std.specs.Prelude.{◌≡◌, ◌+◌, ◌==◌, take};
ghost use Rattle.std.specs.List.{count_by};

/// Returns the number of the line in which the byte at an offset stands, from 1.
pub fn line_at(text: &[u8], offset: usize) -> usize
    ensures { result ≡ 1 + count_by (λ byte. byte == 10) (take offset text.now) }
{
    let front = match text.get(..offset) {
        Some(front) => front,
        None => text,
    };
    let mut number = 1usize;
    for byte in front {
        if *byte == b'\n' {
            number += 1;
        }
    }
    number
}

/// Returns the offset of the first byte that has the given value.
pub(crate) fn offset_of(text: &[u8], byte: u8) -> Option<usize> {
    for (offset, other) in text.iter().enumerate() {
        if *other == byte {
            return Some(offset);
        }
    }
    None
}

/// Returns the bytes before and after the first byte that has the given value.
pub fn cut_at(bytes: &[u8], byte: u8) -> (&[u8], &[u8]) {
    let end = offset_of(bytes, byte).unwrap_or(bytes.len());
    let front = bytes.get(..end).unwrap_or(bytes);
    match bytes.get(end..) {
        Some([_, rest @ ..]) => (front, rest),
        _ => (front, &[]),
    }
}
