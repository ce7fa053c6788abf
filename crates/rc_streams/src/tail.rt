//! The last lines of a text.

ghost use Rattle.std.specs.Prelude.{◌≡◌};
ghost use Rattle.rc_streams.specs.LastLines.{behind_lines, ends_line, last_lines, line_count};

/// Returns the last lines of a text, at most so many.
pub fn last_lines(bytes: &[u8], count: usize) -> &[u8]
    ensures { result.now ≡ last_lines bytes.now count }
{
    behind_lines(bytes, line_count(bytes).saturating_sub(count))
}

/// Returns the number of lines, of which the last may lack its newline.
fn line_count(bytes: &[u8]) -> usize
    ensures { result ≡ line_count bytes.now }
{
    let mut count: usize = 0;
    let mut rest = bytes;
    while let Some((byte, behind)) = rest.split_first() {
        if ends_line(*byte, behind) {
            count += 1;
        }
        rest = behind;
    }
    count
}

/// Returns true if a byte with these bytes behind it ends a line.
fn ends_line(byte: u8, behind: &[u8]) -> bool
    ensures { result ≡ ends_line byte behind.now }
{
    byte == b'\n' || behind.is_empty()
}

/// Returns what is behind so many lines.
fn behind_lines(bytes: &[u8], count: usize) -> &[u8]
    ensures { result.now ≡ behind_lines count bytes.now }
{
    let mut left = count;
    let mut rest = bytes;
    while left > 0 {
        let Some((byte, behind)) = rest.split_first() else {
            break;
        };
        if *byte == b'\n' {
            left -= 1;
        }
        rest = behind;
    }
    rest
}
