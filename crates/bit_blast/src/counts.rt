//! How many clauses a goal has.
ghost use Rattle.std.specs.Prelude.{◌≡◌, ◌≤◌, ◌<◌, ◌+◌, All, IfOk, length};
ghost use Rattle.bv_terms.specs.Arenas.{term_at};
ghost use Rattle.bit_blast.specs.Counts.{operator_clauses, term_clauses, total_clauses};
ghost use Rattle.bit_blast.specs.Orders.{terms_of};

use bv_terms::{Node, TermId, TermOp, Terms};
use cocoon_num::NoMemory;

/// What an operator of two terms of this width has.
fn of_operator(op: TermOp, width: u8) -> u64
    requires { 1 ≤ width }
    ensures { result ≡ operator_clauses op width }
{
    let width = u64::from(width);
    match op {
        TermOp::Add | TermOp::Sub => 14 * width,
        TermOp::And | TermOp::Or => 3 * width,
        TermOp::Xor => 4 * width,
        TermOp::Concat => 0,
        TermOp::Equal => 7 * width - 3,
        TermOp::Less => 10 * width,
    }
}

/// What a term has, its parts aside.
fn of_term(terms: &Terms, term: TermId) -> u64
    requires { term < length terms.now }
    ensures { result ≡ term_clauses (term_at terms.now term) }
{
    match terms.node(term) {
        Node::Binary(op, a, _) => of_operator(*op, terms.width(*a)),
        Node::Pick(_, a, _) => 6 * u64::from(terms.width(*a)),
        Node::Constant(_) | Node::Input(_, _) | Node::Apply(_, _, _) => 0,
        Node::Not(_) | Node::Slice(_, _, _) => 0,
    }
}

fn sum(count: u64, more: u64) -> Result<u64, NoMemory>
    ensures { IfOk result (λ sum. sum ≡ count + more) }
{
    count.checked_add(more).ok_or(NoMemory)
}

/// What these terms have, with the clauses of the constant and of the goal.
pub(crate) fn clause_count(terms: &Terms, order: &[TermId]) -> Result<u64, NoMemory>
    requires { All (λ id. id < length terms.now) order.now }
    ensures { IfOk result (λ count. count ≡ total_clauses (terms_of terms.now order.now) + 2) }
{
    let mut count = 2u64;
    for term in order {
        count = sum(count, of_term(terms, *term))?;
    }
    Ok(count)
}
