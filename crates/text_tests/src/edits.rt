//! Texts that are changed in some places.
use case_files::{Printer, put_expanded};

/// A text with one edit, as `OLD => NEW`: the first old piece becomes the new one. There is none where it does not stand there.
fn with_edit(rt: &HostRuntime, text: &str, edit: &str) -> Option<Printer> {
    let (old, new) = edit.split_once(" =>")?;
    let mut piece = Printer::new(rt.alloc());
    put_expanded(rt, old, &mut piece);
    let (before, behind) = text.split_once(piece.text())?;
    let mut whole = Printer::new(rt.alloc());
    whole.put(before);
    put_expanded(rt, new.strip_prefix(' ').unwrap_or(new), &mut whole);
    whole.put(behind);
    whole.lose_with(&piece);
    Some(whole)
}

/// A text with edits one after the other, between which `also` stands.
pub fn edited(rt: &HostRuntime, text: &str, edits: &str) -> Option<Printer> {
    let mut whole = Printer::new(rt.alloc());
    whole.put(text);
    for edit in edits.split(" also ") {
        let next = with_edit(rt, whole.text(), edit)?;
        whole = next;
    }
    Some(whole)
}
