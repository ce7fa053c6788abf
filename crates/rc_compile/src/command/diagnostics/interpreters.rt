//! The interpreters of scripts.
ghost use Rattle.std.specs.Prelude.{◌≡◌, ◌≤◌, length, option_map};
ghost use Rattle.std.specs.List.{position_or_len, prefix_len};
ghost use Rattle.rc_compile.specs.Interpreters.{ends_word, interpreter_in, is_blank};

/// Returns the interpreter that the first line of a script names, if it begins with `#!`.
pub(crate) fn interpreter_of(script: &[u8]) -> Option<&[u8]>
    ensures { option_map (λ word. word.now) result ≡ interpreter_in script.now }
{
    match script {
        [b'#', b'!', line @ ..] => {
            let (_, words) = line.split_at(blanks_of(line));
            let (word, _) = words.split_at(word_len(words));
            Some(word)
        }
        _ => None,
    }
}

/// Returns how many spaces and tabs a line begins with.
fn blanks_of(line: &[u8]) -> usize
    ensures exact { result ≡ prefix_len is_blank line.now }
    ensures bound { result ≤ length line.now }
{
    let mut count = 0;
    while count < line.len() {
        if !is_blank(line[count]) {
            return count;
        }
        count += 1;
    }
    count
}

/// Returns how many bytes stand before the first blank or the end of a line.
fn word_len(line: &[u8]) -> usize
    ensures exact { result ≡ position_or_len ends_word line.now }
    ensures bound { result ≤ length line.now }
{
    let mut count = 0;
    while count < line.len() {
        if ends_word(line[count]) {
            return count;
        }
        count += 1;
    }
    count
}

/// Returns true if a byte is a space or a tab.
fn is_blank(byte: u8) -> bool
    ensures { result ≡ is_blank byte }
{
    byte == b' ' || byte == b'\t'
}

/// Returns true if a byte is a blank or ends a line.
fn ends_word(byte: u8) -> bool
    ensures { result ≡ ends_word byte }
{
    is_blank(byte) || byte == b'\n'
}
