//! Networks whose programs differ.
use crate::network_words::{Draft, put_both};
use case_files::{Printer, first_word, number};
use p4_ir::{NetData, Program};
use p4_read::read;
use std::alloc::Global;

/// A text of a program has fewer bytes than this.
const TOO_LONG: usize = 0x8000_0000;

/// The program that a text is.
fn program(alloc: Global, text: &str) -> Option<Program> {
    let bytes = text.as_bytes();
    if bytes.len() >= TOO_LONG {
        return None;
    }
    read(alloc, bytes).ok()
}

/// A network of three switches with the program of this text, one of them, that of this index, with another.
fn network(alloc: Global, base: &str, index: u64, other: &str) -> Option<NetData> {
    let mut draft = Draft::new(alloc);
    for at in 0..3u16 {
        let text = if u64::from(at) == index { other } else { base };
        draft.add_switch(at, program(alloc, text)?)?;
    }
    Some(draft.finish())
}

/// The text with the first `OLD` as `NEW`, by words `OLD => NEW`.
fn edited(alloc: Global, base: &str, words: &str) -> Option<Printer> {
    let (old, new) = words.split_once(" => ")?;
    let (before, behind) = base.split_once(old)?;
    let mut text = Printer::new(alloc);
    text.put(before);
    text.put(new);
    text.put(behind);
    Some(text)
}

/// Puts how two networks of three switches with the base differ, where in the second one the switch of an index has the base with
/// an edit: `INDEX OLD => NEW`.
pub fn put_edited(alloc: Global, base: &str, asked: &str, given: &mut Printer) {
    let (index, words) = first_word(asked);
    let Some(index) = number(index) else {
        return given.put("no index");
    };
    let Some(text) = edited(alloc, base, words) else {
        return given.put("nothing to edit");
    };
    match (
        network(alloc, base, index, base),
        network(alloc, base, index, text.text()),
    ) {
        (Some(old), Some(new)) => put_both(&old, &new, given),
        _ => given.put("no program"),
    }
    given.lose_with(&text);
}
