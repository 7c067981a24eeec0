//! The pieces that each kind of tree has.
use case_files::Printer;
use cocoon_num::{Bits, Text};
use cocoon_syntax::{Name, Param};
use std::fmt::Debug;

pub fn put_number(out: &mut Printer, number: u32) {
    out.put_number(u64::from(number));
}

/// A number with its width, as `8w1`.
pub fn put_bits(out: &mut Printer, bits: &Bits) {
    out.put_bits(bits.width, bits.value);
}

/// A line and a column, as `1:6`.
pub fn put_position(out: &mut Printer, (line, column): (u32, u32)) {
    put_number(out, line);
    out.put(":");
    put_number(out, column);
}

/// A token index, as `@3`.
pub fn put_token_index(out: &mut Printer, index: u32) {
    out.put("@");
    put_number(out, index);
}

/// A text and its token index, as `a@3`.
pub fn put_text(out: &mut Printer, text: &Text, index: u32) {
    out.put_bytes(text.bytes());
    put_token_index(out, index);
}

/// A name behind a blank, as ` a@3`.
pub fn put_name(out: &mut Printer, name: &Name) {
    out.put(" ");
    put_text(out, &name.text, name.at);
}

/// A name with its width, as ` a@3:8`.
pub fn put_typed(out: &mut Printer, name: &Name, width: u32) {
    put_name(out, name);
    out.put(":");
    put_number(out, width);
}

/// A header and its field, as ` h@3.x@5`.
pub fn put_field(out: &mut Printer, header: &Name, field: &Name) {
    put_name(out, header);
    out.put(".");
    put_text(out, &field.text, field.at);
}

pub fn put_names(out: &mut Printer, names: &[Name]) {
    for name in names {
        put_name(out, name);
    }
}

pub fn put_params(out: &mut Printer, params: &[Param]) {
    for param in params {
        put_typed(out, &param.name, param.width);
    }
}

/// The beginning of a node, as ` (send@3`.
pub fn open(out: &mut Printer, kind: &str, index: u32) {
    open_plain(out, kind);
    put_token_index(out, index);
}

/// The beginning of a node of an operator, as ` (Sub@3`.
pub fn open_operator<T: Debug>(out: &mut Printer, op: &T, index: u32) {
    out.put(" (");
    out.put_debug(op);
    put_token_index(out, index);
}

/// The beginning of a node without a token index, as ` (role`.
pub fn open_plain(out: &mut Printer, kind: &str) {
    out.put(" (");
    out.put(kind);
}

pub fn close(out: &mut Printer) {
    out.put(")");
}
