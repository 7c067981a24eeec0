//! Lines of a file of cases.

/// The first word of a line, and what stands behind the blank after it.
pub fn first_word(line: &str) -> (&str, &str) {
    line.split_once(' ').unwrap_or((line, ""))
}

/// What stands behind this word in the last line that begins with it.
pub fn last_line<'a>(lines: &'a str, word: &str) -> Option<&'a str> {
    let mut found = None;
    for line in lines.split('\n') {
        let (first, rest) = first_word(line);
        if first == word {
            found = Some(rest);
        }
    }
    found
}
