//! Words for statements, each behind those of its expression and its blocks.
use crate::declaration_words::{byte, index};
use crate::draft::Draft;
use crate::expression_words::header_field;
use p4_ir::P4Stmt;

fn add_if(draft: &mut Draft) -> Option<()> {
    let first = draft.take_block()?;
    let condition = draft.take_expr()?;
    draft.add_stmt(P4Stmt::If(condition, first))
}

fn add_else(draft: &mut Draft) -> Option<()> {
    let second = draft.take_block()?;
    let first = draft.take_block()?;
    let condition = draft.take_expr()?;
    draft.add_stmt(P4Stmt::IfElse(condition, first, second))
}

fn add_port(draft: &mut Draft) -> Option<()> {
    let port = draft.take_expr()?;
    draft.add_stmt(P4Stmt::EgressPort(port))
}

fn add_group(draft: &mut Draft) -> Option<()> {
    let group = draft.take_expr()?;
    draft.add_stmt(P4Stmt::Group(group))
}

/// Adds a statement: `if` of the last block, `else` of the last two, `egress_port`, `group`, `return`. Or begins a block, by
/// `{`, or ends one, by `}`, or begins the egress control.
pub fn add_stmt(draft: &mut Draft, word: &str) -> Option<()> {
    match word {
        "{" => draft.open(),
        "}" => draft.close(),
        "if" => add_if(draft),
        "else" => add_else(draft),
        "egress_port" => add_port(draft),
        "group" => add_group(draft),
        "return" => draft.add_stmt(P4Stmt::Return),
        _ => {
            draft.end_ingress();
            Some(())
        }
    }
}

/// Adds what sets a meta field, or a field of a header.
fn add_set(draft: &mut Draft, rest: &str) -> Option<()> {
    let value = draft.take_expr()?;
    match header_field(rest) {
        Some((header, field)) => draft.add_stmt(P4Stmt::SetField(header, field, value)),
        None => draft.add_stmt(P4Stmt::SetMeta(index(rest)?, value)),
    }
}

/// Adds `set:INDEX` or `set:HEADER.FIELD` of the last expression, `apply:NUMBER` or `verdict:NUMBER`.
pub fn add_numbered(draft: &mut Draft, kind: &str, rest: &str) -> Option<()> {
    match kind {
        "set" => add_set(draft, rest),
        "apply" => draft.add_stmt(P4Stmt::Apply(index(rest)?)),
        _ => draft.add_stmt(P4Stmt::Verdict(byte(rest)?)),
    }
}
