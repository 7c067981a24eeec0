//! How the prefixes of a design read, each of which ends with a token.
ghost use Rattle.std.specs.Prelude.{◌<◌, ◌^◌, length};

use case_files::Printer;
use cocoon_text::{FaultKind, TextFault, Token, Unread, lex, read_design};
use std::alloc::Global;

/// Puts a sign for each token: how the prefix reads that ends with it.
pub fn put_prefixes(alloc: Global, text: &[u8], out: &mut Printer)
    requires { length text.now < 2 ^ 31 }
{
    match lex(alloc, text) {
        Ok(tokens) => put_signs(alloc, text, &tokens, out),
        Err(_) => out.put("no tokens"),
    }
}

fn put_signs(alloc: Global, text: &[u8], tokens: &[Token], out: &mut Printer)
    requires { length text.now < 2 ^ 31 }
{
    for token in tokens {
        let prefix = text.get(..token.end as usize).unwrap_or_default();
        out.put(sign(alloc, prefix));
    }
}

/// `+` for a prefix that is a design, and `-` for one whose fault is that it ends.
fn sign(alloc: Global, prefix: &[u8]) -> &'static str
    requires { length prefix.now < 2 ^ 31 }
{
    match read_design(alloc, prefix) {
        Ok(_) => "+ ",
        Err(Unread::Faulty(fault)) if is_at_end(fault, prefix) => "-",
        Err(_) => "?",
    }
}

fn is_at_end(fault: TextFault, prefix: &[u8]) -> bool {
    let TextFault { kind, line, column } = fault;
    kind == FaultKind::Unexpected && (line, column) == end_position(prefix)
}

/// The line and the column behind a text.
fn end_position(text: &[u8]) -> (u32, u32) {
    let mut line: u32 = 1;
    let mut column: u32 = 1;
    for byte in text {
        if *byte == b'\n' {
            line = line.saturating_add(1);
            column = 1;
        } else {
            column = column.saturating_add(1);
        }
    }
    (line, column)
}
