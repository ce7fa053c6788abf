//! Files that list names, line by line.

/// Returns the text of a file, or an empty text if its bytes are not text.
pub fn text_of(bytes: &[u8]) -> &str {
    std::str::from_utf8(bytes).unwrap_or("")
}

/// Returns the name that a line gives, without the spaces and tabs at its ends, or an empty text if
/// it gives none.
pub(crate) fn name_on(line: &str) -> &str {
    let name = line.trim_matches([' ', '\t']);
    if name.starts_with('#') { "" } else { name }
}

/// Returns the number of the first line that gives a name, from 1.
pub(crate) fn line_of(list: &str, name: &str) -> Option<usize> {
    let mut number = 0usize;
    for line in list.split('\n') {
        number = number.saturating_add(1);
        if name_on(line) == name {
            return Some(number);
        }
    }
    None
}

/// Returns the name at a place of a list, from 0, and the number of its line, from 1.
pub(crate) fn name_at(list: &str, place: usize) -> Option<(usize, &str)> {
    let mut number = 0usize;
    let mut before = place;
    for line in list.split('\n') {
        number = number.saturating_add(1);
        let name = name_on(line);
        if !name.is_empty() {
            if before == 0 {
                return Some((number, name));
            }
            before -= 1;
        }
    }
    None
}

/// Returns the part of a text before its first space, or all of it.
pub fn first_word(words: &str) -> &str {
    match words.split_once(' ') {
        Some((word, _)) => word,
        None => words,
    }
}
