//! Whether certificates are accepted for a design, in the words of the cases.
use crate::texts::checked_design;
use case_files::{Printer, first_word, last_line, put_expanded};
use cert_text::{CertFault, from_json, recheck};
use cocoon_resolve::Checked;
use std::alloc::Global;
use std::str;

/// Puts a fault: its kind, and what it tells.
fn put_fault(fault: &CertFault, given: &mut Printer) {
    match fault {
        CertFault::NotJson => given.put("not json"),
        CertFault::Shape(pointer) => {
            given.put("shape ");
            given.put_bytes(pointer.bytes());
        }
        CertFault::Refused(number) => {
            given.put("refused ");
            given.put_number(u64::from(*number));
        }
        CertFault::Count(found, wanted) => {
            given.put("count ");
            given.put_number(u64::from(*found));
            given.put(" ");
            given.put_number(u64::from(*wanted));
        }
        CertFault::Paths(leaves) => {
            given.put("leaves ");
            given.put_number(*leaves);
        }
        CertFault::Big(clauses) => {
            given.put("clauses ");
            given.put_number(*clauses);
        }
        CertFault::NoMemory => given.lose(),
    }
}

/// Reads certificates, and checks them for the design.
fn rechecked(alloc: Global, checked: &Checked, text: &[u8]) -> Result<(), CertFault> {
    let certs = from_json(alloc, text)?;
    recheck(alloc, checked, &certs)
}

/// Puts whether these certificates are accepted for the design of a text, or why they are not.
fn put_rechecked(alloc: Global, design: &[u8], certs: &[u8], given: &mut Printer) {
    match checked_design(alloc, design) {
        Some(checked) => match rechecked(alloc, &checked, certs) {
            Ok(()) => given.put("accepted"),
            Err(fault) => put_fault(&fault, given),
        },
        None => given.put("no design"),
    }
}

/// Puts whether certificates are accepted, behind the design that they are for and a line `certificates`.
pub fn put_of_input(alloc: Global, input: &[u8], given: &mut Printer) {
    let text = str::from_utf8(input).unwrap_or_default();
    let (design, certs) = text.split_once("\ncertificates\n").unwrap_or_default();
    put_rechecked(alloc, design.as_bytes(), certs.as_bytes(), given);
    given.put("\n");
}

/// Puts a text with a quotation mark for each `'`.
fn put_quoted(text: &str, given: &mut Printer) {
    for letter in text.chars() {
        given.put_letter(if letter == '\'' { '"' } else { letter });
    }
}

/// Puts a text with the first `OLD` as `NEW`, by words `OLD => NEW`; without such words, as it is.
fn put_with_edit(base: &str, words: &str, given: &mut Printer) {
    let (old, new) = words.split_once(" => ").unwrap_or_default();
    match base.split_once(old) {
        Some((before, behind)) => {
            given.put(before);
            given.put(new);
            given.put(behind);
        }
        None => given.put("nothing to edit"),
    }
}

/// Puts whether the certificates in the last line `certs`, with an edit if one is said, are accepted for the design in the last line
/// `design`.
pub fn put_edited(rt: &HostRuntime, above: &str, asked: &str, given: &mut Printer) {
    let alloc = rt.alloc();
    let mut design = Printer::new(alloc);
    put_expanded(
        rt,
        last_line(above, "design").unwrap_or_default(),
        &mut design,
    );
    let mut certs = Printer::new(alloc);
    put_expanded(
        rt,
        last_line(above, "certs").unwrap_or_default(),
        &mut certs,
    );
    let (_, words) = first_word(asked);
    let mut edited = Printer::new(alloc);
    put_with_edit(certs.text(), words, &mut edited);
    let mut text = Printer::new(alloc);
    put_quoted(edited.text(), &mut text);
    put_rechecked(
        alloc,
        design.text().as_bytes(),
        text.text().as_bytes(),
        given,
    );
    given.lose_with(&design);
    given.lose_with(&certs);
    given.lose_with(&edited);
    given.lose_with(&text);
}
