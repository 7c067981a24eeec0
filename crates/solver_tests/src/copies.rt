//! Copies of terms.
use crate::drafts::Draft;
use bv_terms::{Copied, Node, Terms, copy};
use case_files::Printer;
use std::alloc::Global;

fn put_head(node: &Node, given: &mut Printer) {
    match node {
        Node::Constant(value) => given.put_bits(value.width, value.value),
        Node::Input(input, width) => {
            given.put("x");
            given.put_number(u64::from(*input));
            given.put(".");
            given.put_number(u64::from(*width));
        }
        Node::Apply(function, _, width) => {
            given.put("Apply.");
            given.put_number(u64::from(*function));
            given.put(".");
            given.put_number(u64::from(*width));
        }
        Node::Not(_) => given.put("Not"),
        Node::Binary(op, _, _) => given.put_debug(op),
        Node::Slice(_, high, low) => {
            given.put("Slice.");
            given.put_number(u64::from(*high));
            given.put(".");
            given.put_number(u64::from(*low));
        }
        Node::Pick(_, _, _) => given.put("Pick"),
    }
}

/// Puts a node, with the numbers of its parts.
fn put_node(node: &Node, given: &mut Printer) {
    put_head(node, given);
    for place in 0..node.part_count() {
        given.put(if place == 0 { "(" } else { " " });
        given.put_number(u64::from(node.part(place)));
    }
    if node.part_count() > 0 {
        given.put(")");
    }
}

/// Puts the nodes of the arena, and then the inputs that were copied.
fn put_copy(terms: &Terms, copied: &Copied, given: &mut Printer) {
    for id in 0..terms.count() {
        if id > 0 {
            given.put(", ");
        }
        put_node(terms.node(id), given);
    }
    given.put(" of");
    for input in copied.inputs.items() {
        given.put(" ");
        given.put_number(u64::from(*input));
    }
}

/// Puts an arena with one input of 8 bits and a copy of the last term of the words.
pub fn put_copied(alloc: Global, words: &str, given: &mut Printer) {
    let Some((draft, term)) = Draft::read(alloc, words, None) else {
        return given.put("no term");
    };
    let mut other = Terms::new(alloc);
    if term >= draft.terms.count() || other.input(8).is_err() {
        return given.put("no term");
    }
    match copy(alloc, &draft.terms, term, &mut other) {
        Ok(copied) => put_copy(&other, &copied, given),
        Err(_) => given.lose(),
    }
}
