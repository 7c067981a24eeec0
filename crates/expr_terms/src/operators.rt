//! Operators of terms.
ghost use Rattle.std.specs.Prelude.{◌≡◌, ◌<◌, ◌≤◌, All, IfOk, length};
ghost use Rattle.cocoon_syntax.specs.TreeOf.{binary_of};
ghost use Rattle.bv_terms.specs.Arenas.{term_at, width_at};
ghost use Rattle.bv_terms.specs.TermTrees as term;
ghost use Rattle.bv_terms.specs.TermTrees.{IsWidth, OperandsFit};
ghost use Rattle.obligation_laws.specs.TermOf.{args_of, binary_term};
ghost use Rattle.obligation_laws.specs.Shown.{WidthsFit};
ghost use Rattle.expr_terms.specs.Variables.{AreThere, IsThere, Keeps, Makes, found_term, terms_at};

use bv_terms::{FunId, TermId, TermOp, Terms};
use cocoon_num::{Bits, NoMemory};
use cocoon_syntax::BinaryOp;

/// The term that a name stands for, if it is in scope.
pub(crate) fn named(terms: &mut Terms, found: Option<TermId>) -> Result<TermId, NoMemory>
    requires { IsThere terms.old found }
    ensures made { IfOk result (λ id. Makes terms.new id (found_term terms.old found)) }
    ensures kept { Keeps terms.old terms.new }
{
    match found {
        Some(id) => Ok(id),
        None => terms.constant(Bits::new(1, 0)),
    }
}

pub(crate) fn constant(terms: &mut Terms, value: Bits) -> Result<TermId, NoMemory>
    ensures made { IfOk result (λ id.
        Makes terms.new id (term.constant value.width value.value)) }
    ensures kept { Keeps terms.old terms.new }
{
    terms.constant(value)
}

pub(crate) fn not(terms: &mut Terms, a: TermId) -> Result<TermId, NoMemory>
    requires { a < length terms.old }
    ensures made { IfOk result (λ id. Makes terms.new id (term.not_ (term_at terms.old a))) }
    ensures kept { Keeps terms.old terms.new }
{
    terms.not(a)
}

fn joined(terms: &mut Terms, op: TermOp, a: TermId, b: TermId) -> Result<TermId, NoMemory>
    requires operands { (a < length terms.old) × (b < length terms.old) }
    requires widths { OperandsFit op (width_at terms.old a) (width_at terms.old b) }
    ensures made { IfOk result (λ id.
        Makes terms.new id (term.binary op (term_at terms.old a) (term_at terms.old b))) }
    ensures kept { Keeps terms.old terms.new }
{
    terms.binary(op, a, b)
}

/// The opposite of what two terms give.
fn opposite(terms: &mut Terms, op: TermOp, a: TermId, b: TermId) -> Result<TermId, NoMemory>
    requires operands { (a < length terms.old) × (b < length terms.old) }
    requires widths { OperandsFit op (width_at terms.old a) (width_at terms.old b) }
    ensures made { IfOk result (λ id. Makes terms.new id
        (term.not_ (term.binary op (term_at terms.old a) (term_at terms.old b)))) }
    ensures kept { Keeps terms.old terms.new }
{
    let both = joined(terms, op, a, b)?;
    not(terms, both)
}

/// Not the first, or the second.
fn implied(terms: &mut Terms, a: TermId, b: TermId) -> Result<TermId, NoMemory>
    requires operands { (a < length terms.old) × (b < length terms.old) }
    requires widths { width_at terms.old a ≡ width_at terms.old b }
    ensures made { IfOk result (λ id. Makes terms.new id
        (term.binary TermOp.Or (term.not_ (term_at terms.old a)) (term_at terms.old b))) }
    ensures kept { Keeps terms.old terms.new }
{
    let not_a = not(terms, a)?;
    joined(terms, TermOp::Or, not_a, b)
}

pub(crate) fn binary(
    terms: &mut Terms,
    op: BinaryOp,
    a: TermId,
    b: TermId,
) -> Result<TermId, NoMemory>
    requires operands { (a < length terms.old) × (b < length terms.old) }
    requires widths { WidthsFit (binary_of op) (width_at terms.old a) (width_at terms.old b) }
    ensures made { IfOk result (λ id. Makes terms.new id
        (binary_term (binary_of op) (term_at terms.old a) (term_at terms.old b))) }
    ensures kept { Keeps terms.old terms.new }
{
    match op {
        BinaryOp::Add => joined(terms, TermOp::Add, a, b),
        BinaryOp::Sub => joined(terms, TermOp::Sub, a, b),
        BinaryOp::BitAnd => joined(terms, TermOp::And, a, b),
        BinaryOp::BitOr => joined(terms, TermOp::Or, a, b),
        BinaryOp::BitXor => joined(terms, TermOp::Xor, a, b),
        BinaryOp::Concat => joined(terms, TermOp::Concat, a, b),
        BinaryOp::Equal => joined(terms, TermOp::Equal, a, b),
        BinaryOp::Unequal => opposite(terms, TermOp::Equal, a, b),
        BinaryOp::Less => joined(terms, TermOp::Less, a, b),
        BinaryOp::LessEqual => opposite(terms, TermOp::Less, b, a),
        BinaryOp::Greater => joined(terms, TermOp::Less, b, a),
        BinaryOp::GreaterEqual => opposite(terms, TermOp::Less, a, b),
        BinaryOp::And => joined(terms, TermOp::And, a, b),
        BinaryOp::Or => joined(terms, TermOp::Or, a, b),
        BinaryOp::Implies => implied(terms, a, b),
    }
}

/// The bits from `high` down to `low`, both included and counted from 0.
pub(crate) fn slice(terms: &mut Terms, a: TermId, high: u32, low: u32) -> Result<TermId, NoMemory>
    requires operand { a < length terms.old }
    requires places { (low ≤ high) × (high < width_at terms.old a) }
    ensures made { IfOk result (λ id.
        Makes terms.new id (term.slice (term_at terms.old a) high low)) }
    ensures kept { Keeps terms.old terms.new }
{
    prove!(high < u32::from(terms.width(a)));
    terms.slice(a, high as u8, low as u8)
}

/// `a` where `c` is true, else `b`.
pub(crate) fn pick(terms: &mut Terms, c: TermId, a: TermId, b: TermId) -> Result<TermId, NoMemory>
    requires operands { (c < length terms.old) × (a < length terms.old) × (b < length terms.old) }
    requires choice { width_at terms.old c ≡ 1 }
    requires widths { width_at terms.old a ≡ width_at terms.old b }
    ensures made { IfOk result (λ id. Makes terms.new id
        (term.pick (term_at terms.old c) (term_at terms.old a) (term_at terms.old b))) }
    ensures kept { Keeps terms.old terms.new }
{
    terms.pick(c, a, b)
}

/// A run-time function at terms, of a width in bits.
pub(crate) fn apply(
    terms: &mut Terms,
    function: FunId,
    args: &[TermId],
    width: u8,
) -> Result<TermId, NoMemory>
    requires there { AreThere terms.old args.now }
    requires narrow { All (λ a. width_at terms.old a ≤ 64) args.now }
    requires width { IsWidth width }
    ensures made { IfOk result (λ id. Makes terms.new id
        (term.apply function (args_of (terms_at terms.old args.now)) width)) }
    ensures kept { Keeps terms.old terms.new }
{
    terms.apply(function, args, width)
}
