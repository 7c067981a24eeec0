//! Goals without functions: their clauses, and the applications that became inputs.
ghost use Rattle.std.specs.Prelude.{◌≡◌, ◌<◌, IfSome, IsTrue, length, map};
ghost use Rattle.bit_blast.specs.Goals.{IsGoal};
ghost use Rattle.bv_terms.specs.Arenas.{term_at, width_at};
ghost use Rattle.flat_laws.specs.Meant.{AppliesAlike};
ghost use Rattle.solver_tests.specs.Plain.{AreAllAlike, CanBeFlat, IsLikeAll, NodesAlike};

use crate::drafts::Draft;
use crate::goals::put_clauses_made;
use bit_blast::blast;
use bv_terms::{Node, TermId, Terms};
use case_files::Printer;
use cnf_core::{Clause, Cnf};
use flat_goals::{Applied, Flat, flatten};
use std::alloc::Global;

/// Whether terms have the widths of others, one by one.
fn have_widths_of(terms: &Terms, args: &[TermId], others: &[TermId]) -> bool
    ensures { IsTrue result
        → map (width_at terms.now) args.now ≡ map (width_at terms.now) others.now }
{
    if args.len() != others.len() {
        return false;
    }
    let mut at = 0;
    while at < args.len() {
        let (first, second) = (args[at], others[at]);
        if first >= terms.count() || second >= terms.count() {
            return false;
        }
        if terms.width(first) != terms.width(second) {
            return false;
        }
        at += 1;
    }
    true
}

/// Whether two nodes have equal widths, if they apply one function.
fn are_alike(terms: &Terms, first: &Node, second: &Node) -> bool
    ensures { IsTrue result → NodesAlike (width_at terms.now) first.now second.now }
{
    match (first, second) {
        (Node::Apply(f, args, v), Node::Apply(g, others, w)) => {
            f != g || v == w && have_widths_of(terms, args.items(), others.items())
        }
        _ => true,
    }
}

fn is_like_all(terms: &Terms, node: &Node) -> bool
    ensures { IsTrue result → IsLikeAll terms.now node.now }
{
    for other in 0..terms.count() {
        if !are_alike(terms, node, terms.node(other)) {
            return false;
        }
    }
    true
}

/// Whether any two applications of a function have equal widths.
fn are_all_alike(terms: &Terms) -> bool
    ensures { IsTrue result → AreAllAlike terms.now }
{
    for term in 0..terms.count() {
        if !is_like_all(terms, terms.node(term)) {
            return false;
        }
    }
    true
}

/// Whether a term can be flattened.
fn can_be_flat(terms: &Terms, term: TermId) -> bool
    ensures { IsTrue result → CanBeFlat terms.now term }
{
    if term >= terms.count() {
        return false;
    }
    terms.width(term) == 1 && are_all_alike(terms)
}

/// The terms of some words, of which the last is flattened.
#[derive(Drop)]
struct FlatDraft {
    terms: Terms,
    flat: Flat,
}

fn flattened(alloc: Global, words: &str) -> Option<FlatDraft>
    ensures there { IfSome result (λ made. made.flat.goal < length made.terms) }
    ensures goal { IfSome result (λ made. IsGoal (term_at made.terms made.flat.goal)) }
{
    let (mut draft, goal) = Draft::read(alloc, words, None)?;
    if !can_be_flat(&draft.terms, goal) {
        return None;
    }
    let flat = flatten(alloc, goal, &mut draft.terms).ok()?;
    Some(FlatDraft {
        terms: draft.terms,
        flat,
    })
}

/// Puts how many clauses the flat goal of the words has and over how many variables, or how many are refused.
pub fn put_flat_size(alloc: Global, words: &str, given: &mut Printer) {
    match flattened(alloc, words) {
        Some(made) => put_clauses_made(blast(alloc, &made.terms, made.flat.goal), given),
        None => given.put("no goal"),
    }
}

fn put_clause(clause: &Clause, given: &mut Printer) {
    for lit in clause.lits.items() {
        given.put(" ");
        given.put_debug(&lit.number);
    }
    given.put(" 0");
}

fn put_list(cnf: &Cnf, given: &mut Printer) {
    given.put_number(u64::from(cnf.vars));
    for clause in cnf.clauses.items() {
        put_clause(clause, given);
    }
}

/// Puts how many variables the flat goal of the words has, and behind it its clauses, as DIMACS writes them.
pub fn put_flat_clauses(alloc: Global, words: &str, given: &mut Printer) {
    let Some(made) = flattened(alloc, words) else {
        return given.put("no goal");
    };
    match blast(alloc, &made.terms, made.flat.goal) {
        Ok((cnf, _)) => put_list(&cnf, given),
        Err(_) => given.put("no list"),
    }
}

/// Puts an argument: an input, a number, or a dot for any other term.
fn put_argument(terms: &Terms, term: TermId, given: &mut Printer) {
    if term >= terms.count() {
        return given.put("?");
    }
    match terms.node(term) {
        Node::Input(input, _) => {
            given.put("x");
            given.put_number(u64::from(*input));
        }
        Node::Constant(number) => given.put_bits(number.width, number.value),
        _ => given.put("."),
    }
}

/// Puts an application as `FUNCTION(ARGUMENTS)=INPUT`.
fn put_one(terms: &Terms, applied: &Applied, given: &mut Printer) {
    given.put_number(u64::from(applied.function));
    given.put("(");
    let mut is_first = true;
    for arg in applied.args.items() {
        if !is_first {
            given.put(" ");
        }
        put_argument(terms, *arg, given);
        is_first = false;
    }
    given.put(")=x");
    given.put_number(u64::from(applied.result));
}

/// Puts the applications of the last term of the words, in order.
pub fn put_flat_applied(alloc: Global, words: &str, given: &mut Printer) {
    let Some(made) = flattened(alloc, words) else {
        return given.put("no goal");
    };
    let mut is_first = true;
    for applied in made.flat.applied.items() {
        if !is_first {
            given.put(" ");
        }
        put_one(&made.terms, applied, given);
        is_first = false;
    }
}
