//! The operators that stand between two expressions.
ghost use Rattle.std.specs.Prelude.{◌≡◌, Some, List, ℕ, option_map};
ghost use Rattle.cocoon_num.specs.Reads.{of_cmp, of_expr, of_or, of_and, of_cat, of_bit, of_sum};
ghost use Rattle.cocoon_text.specs.Kinds.{kind_of};
ghost use Rattle.cocoon_syntax.specs.TreeOf.{binary_of};
ghost use Rattle.cocoon_text.specs.Agrees.{mark_kind};
ghost use Rattle.cocoon_text.specs.ExprPhrases.{level_of};
ghost use Rattle.parsing.specs.PlainParser.{op_at, op_in, ops_of};

use crate::token::{Keyword, Mark, TokenKind};
use cocoon_syntax::BinaryOp;

/// A level of operators that group to the left, from the loosest on.
#[derive(Clone, Copy, Drop)]
pub enum Chain {
    Or,
    And,
    Concat,
    Bits,
    Sum,
}

/// The operator of a chain.
pub fn chained(kind: TokenKind, level: Chain) -> Option<BinaryOp>
    ensures { (bytes : List ℕ)
        → option_map binary_of result ≡ op_at (level_of level) (Some (kind_of kind bytes)) }
{
    match level {
        Chain::Or => or(kind),
        Chain::And => and(kind),
        Chain::Concat => concat(kind),
        Chain::Bits => bits(kind),
        Chain::Sum => sum(kind),
    }
}

fn or(kind: TokenKind) -> Option<BinaryOp>
    ensures { (bytes : List ℕ)
        → option_map binary_of result ≡ op_at of_or (Some (kind_of kind bytes)) }
{
    match kind {
        TokenKind::Keyword(keyword) => if keyword == Keyword::Or {
            Some(BinaryOp::Or)
        } else {
            None
        },
        _ => None,
    }
}

fn and(kind: TokenKind) -> Option<BinaryOp>
    ensures { (bytes : List ℕ)
        → option_map binary_of result ≡ op_at of_and (Some (kind_of kind bytes)) }
{
    match kind {
        TokenKind::Keyword(keyword) => if keyword == Keyword::And {
            Some(BinaryOp::And)
        } else {
            None
        },
        _ => None,
    }
}

fn concat(kind: TokenKind) -> Option<BinaryOp>
    ensures { (bytes : List ℕ)
        → option_map binary_of result ≡ op_at of_cat (Some (kind_of kind bytes)) }
{
    match kind {
        TokenKind::Mark(mark) => if mark == Mark::PlusPlus {
            Some(BinaryOp::Concat)
        } else {
            None
        },
        _ => None,
    }
}

fn bits(kind: TokenKind) -> Option<BinaryOp>
    ensures { (bytes : List ℕ)
        → option_map binary_of result ≡ op_at of_bit (Some (kind_of kind bytes)) }
{
    match kind {
        TokenKind::Mark(mark) => bits_mark(mark),
        _ => None,
    }
}

fn bits_mark(mark: Mark) -> Option<BinaryOp>
    ensures { option_map binary_of result ≡ op_in (ops_of of_bit) (mark_kind mark) }
{
    match mark {
        Mark::And => Some(BinaryOp::BitAnd),
        Mark::Or => Some(BinaryOp::BitOr),
        Mark::Xor => Some(BinaryOp::BitXor),
        _ => None,
    }
}

fn sum(kind: TokenKind) -> Option<BinaryOp>
    ensures { (bytes : List ℕ)
        → option_map binary_of result ≡ op_at of_sum (Some (kind_of kind bytes)) }
{
    match kind {
        TokenKind::Mark(mark) => sum_mark(mark),
        _ => None,
    }
}

fn sum_mark(mark: Mark) -> Option<BinaryOp>
    ensures { option_map binary_of result ≡ op_in (ops_of of_sum) (mark_kind mark) }
{
    match mark {
        Mark::Plus => Some(BinaryOp::Add),
        Mark::Minus => Some(BinaryOp::Sub),
        _ => None,
    }
}

/// The operator of a comparison.
pub fn compared(kind: TokenKind) -> Option<BinaryOp>
    ensures { (bytes : List ℕ)
        → option_map binary_of result ≡ op_at of_cmp (Some (kind_of kind bytes)) }
{
    match kind {
        TokenKind::Mark(mark) => compared_mark(mark),
        _ => None,
    }
}

fn compared_mark(mark: Mark) -> Option<BinaryOp>
    ensures { option_map binary_of result ≡ op_in (ops_of of_cmp) (mark_kind mark) }
{
    match mark {
        Mark::Equal => Some(BinaryOp::Equal),
        Mark::Unequal => Some(BinaryOp::Unequal),
        Mark::Less => Some(BinaryOp::Less),
        Mark::LessEqual => Some(BinaryOp::LessEqual),
        Mark::Greater => Some(BinaryOp::Greater),
        Mark::GreaterEqual => Some(BinaryOp::GreaterEqual),
        _ => None,
    }
}

/// The implication.
pub fn implied(kind: TokenKind) -> Option<BinaryOp>
    ensures { (bytes : List ℕ)
        → option_map binary_of result ≡ op_at of_expr (Some (kind_of kind bytes)) }
{
    match kind {
        TokenKind::Mark(mark) => if mark == Mark::Implies {
            Some(BinaryOp::Implies)
        } else {
            None
        },
        _ => None,
    }
}
