//! Definitions as they are written in cases.
use crate::pieces::{close, open_plain, put_bits, put_name};
use case_files::Printer;
use cocoon_syntax::{Const, DefsText, Entry, Pattern};

fn put_pattern(out: &mut Printer, pattern: &Pattern) {
    out.put(" ");
    match pattern {
        Pattern::Literal(bits) => put_bits(out, bits),
        Pattern::Masked(bits, mask) => {
            put_bits(out, bits);
            out.put("&&&");
            put_bits(out, mask);
        }
        Pattern::Any => out.put("_"),
    }
}

fn put_value(out: &mut Printer, value: &Const) {
    out.put(" = ");
    match value {
        Const::Number(bits) => put_bits(out, bits),
        Const::Truth(truth) => out.put_debug(truth),
    }
}

fn put_entry(out: &mut Printer, entry: &Entry) {
    match entry {
        Entry::Default(function, value) => {
            open_plain(out, "default");
            put_name(out, function);
            put_value(out, value);
        }
        Entry::Define(function, patterns, value) => {
            open_plain(out, "define");
            put_name(out, function);
            for pattern in patterns {
                put_pattern(out, pattern);
            }
            put_value(out, value);
        }
    }
    close(out);
}

/// Definitions, as `(definitions (default f@1 = true))`.
pub fn put_definitions(out: &mut Printer, definitions: &DefsText) {
    out.put("(definitions");
    for entry in &definitions.entries {
        put_entry(out, entry);
    }
    close(out);
}
