//! The lines of a case, cut into their fields.
use case_files::Printer;
use cocoon_num::NoMemory;
use std::alloc::Global;

/// What stands behind each field, and behind each line, once they are cut.
const FIELD: char = '\u{1f}';

pub const LINE: char = '\u{1e}';

/// What the next letter of a line belongs to.
#[derive(Clone, Copy, Drop)]
enum Mode {
    Between,
    Bare,
    Quoted,
    Escaped,
}

/// What a letter behind `\` stands for.
fn escape(letter: char) -> char {
    match letter {
        'n' => '\n',
        'r' => '\r',
        't' => '\t',
        '0' => '\0',
        other => other,
    }
}

/// Puts the fields of a line.
fn put_fields(line: &str, cut: &mut Printer) {
    let mut mode = Mode::Between;
    for letter in line.chars() {
        mode = match (mode, letter) {
            (Mode::Between, ' ') => Mode::Between,
            (Mode::Between, '"') => Mode::Quoted,
            (Mode::Bare, ' ') | (Mode::Quoted, '"') => {
                cut.put_letter(FIELD);
                Mode::Between
            }
            (Mode::Quoted, '\\') => Mode::Escaped,
            (Mode::Quoted, other) => {
                cut.put_letter(other);
                Mode::Quoted
            }
            (Mode::Escaped, other) => {
                cut.put_letter(escape(other));
                Mode::Quoted
            }
            (_, other) => {
                cut.put_letter(other);
                Mode::Bare
            }
        };
    }
    match mode {
        Mode::Between => {}
        Mode::Bare => cut.put_letter(FIELD),
        // it counts as two, so that the line has too many
        Mode::Quoted | Mode::Escaped => cut.put("\u{1f}\u{1f}"),
    }
    cut.put_letter(LINE);
}

/// Puts the fields of lines. Empty lines and comments say nothing.
pub fn put_lines(lines: &str, cut: &mut Printer) {
    for line in lines.lines() {
        if !line.is_empty() && !line.starts_with('#') {
            put_fields(line, cut);
        }
    }
}

/// The first fields of a line. Those that are not there are empty. What they say depends on the word.
#[derive(Clone, Copy, Drop)]
pub struct Line<'a> {
    pub word: &'a str,
    pub name: &'a str,
    pub old: &'a str,
    pub new: &'a str,
    pub count: &'a str,
    pub first: &'a str,
}

/// The first fields of a cut line.
pub fn line_of(cut: &str) -> Line<'_> {
    let mut fields = cut.split(FIELD);
    Line {
        word: fields.next().unwrap_or_default(),
        name: fields.next().unwrap_or_default(),
        old: fields.next().unwrap_or_default(),
        new: fields.next().unwrap_or_default(),
        count: fields.next().unwrap_or_default(),
        first: fields.next().unwrap_or_default(),
    }
}

/// How many fields a cut line has.
pub fn count_fields(cut: &str) -> usize {
    cut.split(FIELD).count().saturating_sub(1)
}

/// The last line that begins with this word; its fields are empty where there is none.
pub fn last_line<'a>(lines: &'a str, word: &str) -> Line<'a> {
    let mut found = line_of("");
    for cut in lines.split(LINE) {
        let line = line_of(cut);
        if line.word == word {
            found = line;
        }
    }
    found
}

/// Whether a line begins with this word.
pub fn has_line(lines: &str, word: &str) -> bool {
    last_line(lines, word).word == word
}

/// Puts the status and the report that the last lines with these two words want.
pub fn put_wanted(lines: &str, (status, report): (&str, &str), wanted: &mut Printer) {
    let status = last_line(lines, status).name;
    let report = last_line(lines, report).name;
    wanted.put(status);
    wanted.put(" ");
    wanted.put(report);
    if !report.is_empty() {
        wanted.put("\n");
    }
}

/// What stands behind the first field of the last line with this word: words, the program's name first.
pub fn words_of(alloc: Global, lines: &str, word: &str) -> Result<Vec<String>, NoMemory> {
    let mut words = Vec::new(alloc);
    for cut in lines.split(LINE) {
        if let Some((first, behind)) = cut.split_once(FIELD) {
            if first == word {
                words.clear();
                push_words(alloc, &mut words, behind)?;
            }
        }
    }
    Ok(words)
}

fn push_words(alloc: Global, words: &mut Vec<String>, fields: &str) -> Result<(), NoMemory> {
    let Some(fields) = fields.strip_suffix(FIELD) else {
        return Ok(());
    };
    for field in fields.split(FIELD) {
        words.push(String::from_str(alloc, field)?)?;
    }
    Ok(())
}
