//! Words for expressions, each behind those of its operands.
use crate::declaration_words::{byte, index};
use crate::draft::Draft;
use crate::literals::bits;
use case_files::wide_number;
use p4_ir::{P4Binary, P4Expr, P4Unary};

/// The pair `HEADER.FIELD`.
pub fn header_field(word: &str) -> Option<(u32, u32)> {
    let (header, field) = word.split_once('.')?;
    Some((index(header)?, index(field)?))
}

/// The number `WIDTHwVALUE`.
fn literal(word: &str) -> Option<P4Expr> {
    let (width, value) = word.split_once('w')?;
    Some(P4Expr::Lit(bits(byte(width)?, wide_number(value)?)?))
}

fn operator(word: &str) -> Option<P4Binary> {
    match word {
        "+" => Some(P4Binary::Add),
        "-" => Some(P4Binary::Sub),
        "&" => Some(P4Binary::BitAnd),
        "|" => Some(P4Binary::BitOr),
        "^" => Some(P4Binary::BitXor),
        "++" => Some(P4Binary::Concat),
        "==" => Some(P4Binary::Equal),
        "!=" => Some(P4Binary::Unequal),
        "<" => Some(P4Binary::Less),
        "<=" => Some(P4Binary::LessEqual),
        ">" => Some(P4Binary::Greater),
        ">=" => Some(P4Binary::GreaterEqual),
        "&&" => Some(P4Binary::And),
        "||" => Some(P4Binary::Or),
        _ => None,
    }
}

fn add_unary(draft: &mut Draft, op: P4Unary) -> Option<()> {
    let a = draft.take_boxed()?;
    draft.add_expr(P4Expr::Unary(op, a))
}

fn add_binary(draft: &mut Draft, op: P4Binary) -> Option<()> {
    let right = draft.take_boxed()?;
    let left = draft.take_boxed()?;
    draft.add_expr(P4Expr::Binary(op, left, right))
}

fn add_pick(draft: &mut Draft) -> Option<()> {
    let second = draft.take_boxed()?;
    let first = draft.take_boxed()?;
    let condition = draft.take_boxed()?;
    draft.add_expr(P4Expr::Pick(condition, first, second))
}

/// Adds the slice `HIGH.LOW` of the last expression.
fn add_slice(draft: &mut Draft, word: &str) -> Option<()> {
    let (high, low) = word.split_once('.')?;
    let (high, low) = (byte(high)?, byte(low)?);
    let a = draft.take_boxed()?;
    draft.add_expr(P4Expr::Slice(a, high, low))
}

/// Adds an operator over the last expressions, or a number.
fn add_value(draft: &mut Draft, word: &str) -> Option<()> {
    match operator(word) {
        Some(op) => add_binary(draft, op),
        None => draft.add_expr(literal(word)?),
    }
}

/// Adds an expression: `true`, `false`, `port`, `rid`, `WIDTHwVALUE`, or an operator over the last expressions.
pub fn add_expr(draft: &mut Draft, word: &str) -> Option<()> {
    match word {
        "true" => draft.add_expr(P4Expr::Truth(true)),
        "false" => draft.add_expr(P4Expr::Truth(false)),
        "port" => draft.add_expr(P4Expr::Port),
        "rid" => draft.add_expr(P4Expr::Rid),
        "~" => add_unary(draft, P4Unary::Flip),
        "!" => add_unary(draft, P4Unary::Not),
        "?" => add_pick(draft),
        _ => add_value(draft, word),
    }
}

/// Adds a meta field `m:INDEX`, a field `h:HEADER.FIELD`, or `slice:HIGH.LOW` of the last expression.
pub fn add_index(draft: &mut Draft, kind: &str, rest: &str) -> Option<()> {
    match kind {
        "m" => draft.add_expr(P4Expr::Meta(index(rest)?)),
        "h" => {
            let (header, field) = header_field(rest)?;
            draft.add_expr(P4Expr::Field(header, field))
        }
        "slice" => add_slice(draft, rest),
        _ => None,
    }
}
