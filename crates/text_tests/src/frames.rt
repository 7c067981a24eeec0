//! What stands around the texts of cases, and around what is wanted of them.
use crate::answers::{Kind, kind_named, put_answer};
use case_files::{Printer, first_word, put_framed};

/// What stands around the texts of some cases and around what is wanted of them, with `...` where
/// these stand.
#[derive(Clone, Copy, Drop)]
struct Frame<'a> {
    kind: Kind,
    text: &'a str,
    wanted: &'a str,
}

impl<'a> Frame<'a> {
    /// The frame of the cases below one more line.
    fn below(self, line: &'a str) -> Frame<'a> {
        let (word, text) = first_word(line);
        match kind_named(word) {
            Some(kind) => Frame {
                kind,
                text,
                wanted: "...",
            },
            None if word == "wanted" => Frame {
                kind: self.kind,
                text: self.text,
                wanted: text,
            },
            None => self,
        }
    }
}

/// The frame of the cases below these lines.
fn frame_of(lines: &str) -> Frame<'_> {
    let mut frame = Frame {
        kind: Kind::Design,
        text: "...",
        wanted: "...",
    };
    for line in lines.split('\n') {
        frame = frame.below(line);
    }
    frame
}

/// What was found, without the frame that it is to stand in, where it does.
fn inner<'a>(frame: &str, found: &'a str) -> &'a str {
    let (before, behind) = frame.split_once("...").unwrap_or_default();
    match found.strip_prefix(before) {
        Some(rest) => rest.strip_suffix(behind).unwrap_or(found),
        None => found,
    }
}

/// Puts what was found, without its frame. Where `read` is wanted, that stands for any tree.
fn put_inner(frame: &str, wanted: &str, found: &str, given: &mut Printer) {
    let found = found.trim_end();
    if wanted == "read" && found.starts_with('(') && found.ends_with(')') {
        given.put("read");
    } else {
        given.put(inner(frame, found));
    }
}

fn put_in_frame(
    rt: &HostRuntime,
    frame: Frame<'_>,
    asked: &str,
    wanted: &str,
    given: &mut Printer,
) {
    let mut text = Printer::new(rt.alloc());
    put_framed(rt, frame.text, asked, &mut text);
    let mut found = Printer::new(rt.alloc());
    put_answer(rt.alloc(), frame.kind, text.text().as_bytes(), &mut found);
    put_inner(frame.wanted, wanted, found.text(), given);
    given.lose_with(&text);
    given.lose_with(&found);
}

/// Puts what the text of a case reads as, in the frame of the lines above.
pub fn put_of_texts(rt: &HostRuntime, above: &str, asked: &str, wanted: &str, given: &mut Printer) {
    put_in_frame(rt, frame_of(above), asked, wanted, given);
}
