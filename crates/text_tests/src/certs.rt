//! What bytes read as.
use case_files::Printer;
use cert_text::json_reading::from_json;
use cert_text::{FormFault, to_json};
use cnf_core::Certs;
use cocoon_num::Text;
use std::alloc::Global;

/// Puts a pointer, or `-` for that of the whole file.
pub fn put_pointer(pointer: &Text, given: &mut Printer) {
    if pointer.bytes().is_empty() {
        given.put("-");
    } else {
        given.put_bytes(pointer.bytes());
    }
}

/// Puts a fault: its kind, and the pointer that it tells.
fn put_fault(fault: &FormFault, given: &mut Printer) {
    match fault {
        FormFault::NotJson => given.put("NotJson"),
        FormFault::Shape(pointer) => {
            given.put("Shape ");
            put_pointer(pointer, given);
        }
        FormFault::NoMemory => given.lose(),
    }
}

/// Puts the text that is written of certificates, with a `'` for each quotation mark.
fn put_written(alloc: Global, certs: &Certs, given: &mut Printer) {
    match to_json(alloc, certs) {
        Ok(text) => {
            for byte in text.iter() {
                let letter = char::from(*byte);
                given.put_letter(if letter == '"' { '\'' } else { letter });
            }
        }
        Err(_) => given.lose(),
    }
}

/// Puts the text that is written of the certificates that the bytes read as, or the fault.
pub fn put_reading(alloc: Global, bytes: &[u8], given: &mut Printer) {
    match from_json(alloc, bytes) {
        Ok(certs) => put_written(alloc, &certs, given),
        Err(fault) => put_fault(&fault, given),
    }
}

/// Puts how many certificates the bytes read as, or the fault.
pub fn put_count(alloc: Global, bytes: &[u8], given: &mut Printer) {
    match from_json(alloc, bytes) {
        Ok(certs) => given.put_number(certs.certs.items().len() as u64),
        Err(fault) => put_fault(&fault, given),
    }
}
