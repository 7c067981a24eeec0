//! The words that say a program.
use crate::declaration_words::add_declaration;
use crate::draft::Draft;
use crate::expression_words::{add_expr, add_index};
use crate::statement_words::{add_numbered, add_stmt};
use p4_ir::Program;
use std::alloc::Global;

/// Adds what a word says, if it says something there.
fn add(draft: &mut Draft, word: &str) -> Option<()> {
    match word.split_once(':') {
        Some((kind, rest)) => match kind {
            "field" | "header" | "meta" | "exact" | "ternary" => add_declaration(draft, kind, rest),
            "set" | "apply" | "verdict" => add_numbered(draft, kind, rest),
            _ => add_index(draft, kind, rest),
        },
        None => match word {
            "{" | "}" | "if" | "else" | "egress_port" | "group" | "return" | "egress" => {
                add_stmt(draft, word)
            }
            _ => add_expr(draft, word),
        },
    }
}

/// The program that words say, if they say one.
pub fn program_of(alloc: Global, words: &str) -> Option<Program> {
    let mut draft = Draft::new(alloc);
    for word in words.split_ascii_whitespace() {
        add(&mut draft, word)?;
    }
    Some(draft.finish())
}
