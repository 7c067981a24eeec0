//! Statements: what each means, and whether it keeps its rules.
ghost use Rattle.std.specs.Prelude.{◌≡◌, ◌==◌, ◌&&◌, ◌||◌, ◌∷◌, [], nat_le, false, true, IfErr, IfOk, MatchOption, List, length, map, not, ℕ};
ghost use Rattle.p4_ir.specs.P4Kinds.{Within, is_empty};
ghost use Rattle.p4_ir.specs.P4Tree as tree;
ghost use Rattle.p4_ir.specs.Program as ir;
ghost use Rattle.p4_kinds.specs.Typed.{sort_of};
ghost use Rattle.p4_texts.specs.KindFaults.{block_pieces, stmt_keeps, stmt_pieces};
ghost use Rattle.p4_texts.specs.Meant.{block_meant, expr_meant, number_in};
ghost use Rattle.p4_resolve.specs.Judged.{Breaks, StopsBy};
ghost use Rattle.p4_resolve.specs.Scopes.{Knows};
ghost use Rattle.p4_resolve.specs.StmtForms.{BlockKeeps, ConditionKeeps, StmtKeeps, ValueKeeps, condition_piece, value_fits};
ghost use Rattle.p4_resolve.specs.Typed.{Means};
ghost use Rattle.p4_texts.specs.Written as text;
ghost use Rattle.p4_texts.specs.Written.{ProgramText};
ghost use Rattle.p4_texts.specs.TreeOf.{body_of, expr_of, stmt_of};

use crate::exprs::{Typed, after_expr, meaning};
use crate::fault::KindFault;
use crate::numbers::{is_numbered, table_number};
use crate::pieces::{after, pass};
use crate::scope::Scope;
use cocoon_num::Bits;
use p4_ir::{P4Expr, P4Stmt};
use p4_kinds::sort::{Sort, are_same};
use p4_texts::written::{WrittenExpr, WrittenStmt};
use std::alloc::Global;

/// The expression, if it has the type that is wanted, and may stand there.
fn fitting(found: Option<Typed>, wanted: Option<Sort>, allowed: bool) -> Option<P4Expr>
    ensures { (c : Within) (e : tree.P4Expr) → Means c e found
        → MatchOption result (value_fits c (sort_of wanted) allowed e ≡ false)
        (λ made. (value_fits c (sort_of wanted) allowed e ≡ true) × (ir.expr_of made ≡ e)) }
{
    match found {
        Some(found) => {
            if are_same(wanted, Some(found.sort)) && allowed {
                Some(found.expr)
            } else {
                None
            }
        }
        None => None,
    }
}

/// The value of a statement that begins at the one token, and itself at the other.
fn value(
    alloc: Global,
    scope: &Scope,
    at: u32,
    begin: u32,
    wanted: Option<Sort>,
    allowed: bool,
    expr: &WrittenExpr,
) -> Result<(P4Expr, u32), KindFault>
    ensures keeps { (t : ProgramText) (c : Within) → Knows scope.now t c
        → IfOk result (λ made. ValueKeeps t c (sort_of wanted) allowed (expr_of expr.now) begin
        (ir.expr_of made.0) made.1) }
    ensures breaks { (t : ProgramText) (c : Within) → Knows scope.now t c → IfErr result
        (Breaks at (value_fits c (sort_of wanted) allowed (expr_meant t (expr_of expr.now)))) }
{
    let end = after_expr(begin, expr);
    let found = meaning(alloc, scope, expr)?;
    match fitting(found, wanted, allowed) {
        Some(made) => Ok((made, end)),
        None => Err(KindFault::Kind(at)),
    }
}

fn set_meta(
    alloc: Global,
    scope: &Scope,
    at: u32,
    name: &[u8],
    expr: &WrittenExpr,
) -> Result<(P4Stmt, u32), KindFault>
    ensures keeps { (t : ProgramText) (c : Within) → Knows scope.now t c
        → IfOk result (λ made. StmtKeeps t c (text.w_set_meta name.now (expr_of expr.now)) at
        (ir.stmt_of made.0) made.1) }
    ensures stops { (t : ProgramText) (c : Within) → Knows scope.now t c
        → IfErr result (StopsBy at
        (stmt_pieces t c (text.w_set_meta name.now (expr_of expr.now)))) }
{
    let index = scope.meta(name);
    let begin = after(at, 4);
    let (made, end) = value(alloc, scope, at, begin, scope.meta_sort(index), true, expr)?;
    let next = after(end, 1);
    Ok((P4Stmt::SetMeta(index, made), next))
}

fn set_field(
    alloc: Global,
    scope: &Scope,
    at: u32,
    header: &[u8],
    field: &[u8],
    expr: &WrittenExpr,
) -> Result<(P4Stmt, u32), KindFault>
    ensures keeps { (t : ProgramText) (c : Within) → Knows scope.now t c
        → IfOk result (λ made.
        StmtKeeps t c (text.w_set_field header.now field.now (expr_of expr.now)) at
        (ir.stmt_of made.0) made.1) }
    ensures stops { (t : ProgramText) (c : Within) → Knows scope.now t c
        → IfErr result (StopsBy at
        (stmt_pieces t c (text.w_set_field header.now field.now (expr_of expr.now)))) }
{
    let header = scope.header(header);
    let field = scope.field(header, field);
    let begin = after(at, 6);
    let sort = scope.field_sort(header, field);
    let (made, end) = value(alloc, scope, at, begin, sort, true, expr)?;
    let next = after(end, 1);
    Ok((P4Stmt::SetField(header, field, made), next))
}

fn egress_port(
    alloc: Global,
    scope: &Scope,
    at: u32,
    expr: &WrittenExpr,
) -> Result<(P4Stmt, u32), KindFault>
    ensures keeps { (t : ProgramText) (c : Within) → Knows scope.now t c
        → IfOk result (λ made. StmtKeeps t c (text.w_egress_port (expr_of expr.now)) at
        (ir.stmt_of made.0) made.1) }
    ensures stops { (t : ProgramText) (c : Within) → Knows scope.now t c
        → IfErr result (StopsBy at (stmt_pieces t c (text.w_egress_port (expr_of expr.now)))) }
{
    let begin = after(at, 2);
    let (made, end) = value(alloc, scope, at, begin, Some(Sort::Bits(16)), true, expr)?;
    let next = after(end, 1);
    Ok((P4Stmt::EgressPort(made), next))
}

/// A group is set in ingress alone.
fn group(
    alloc: Global,
    scope: &Scope,
    at: u32,
    expr: &WrittenExpr,
) -> Result<(P4Stmt, u32), KindFault>
    ensures keeps { (t : ProgramText) (c : Within) → Knows scope.now t c
        → IfOk result (λ made. StmtKeeps t c (text.w_group (expr_of expr.now)) at
        (ir.stmt_of made.0) made.1) }
    ensures stops { (t : ProgramText) (c : Within) → Knows scope.now t c
        → IfErr result (StopsBy at (stmt_pieces t c (text.w_group (expr_of expr.now)))) }
{
    let begin = after(at, 2);
    let wanted = Some(Sort::Bits(16));
    let (made, end) = value(alloc, scope, at, begin, wanted, scope.in_ingress, expr)?;
    let next = after(end, 1);
    Ok((P4Stmt::Group(made), next))
}

/// 0 and 1 stand everywhere, and 2 in ingress.
fn verdict_fits(bits: Bits, in_ingress: bool) -> bool
    ensures { result ≡ ((bits.width == 8)
        && (nat_le bits.value 1 || (in_ingress && (bits.value == 2)))) }
{
    bits.width == 8 && (bits.value <= 1 || in_ingress && bits.value == 2)
}

/// The statement `verdict = WwN;`
fn verdict(scope: &Scope, at: u32, bits: Bits) -> Result<(P4Stmt, u32), KindFault>
    ensures keeps { (t : ProgramText) (c : Within) → Knows scope.now t c
        → IfOk result (λ made. StmtKeeps t c (text.w_verdict bits.width bits.value) at
        (ir.stmt_of made.0) made.1) }
    ensures stops { (t : ProgramText) (c : Within) → Knows scope.now t c
        → IfErr result (StopsBy at (stmt_pieces t c (text.w_verdict bits.width bits.value))) }
{
    let end = pass(at, 4, verdict_fits(bits, scope.in_ingress))?;
    Ok((P4Stmt::Verdict(bits.value as u8), end))
}

/// The table of this control that has this name.
fn applied(scope: &Scope, name: &[u8]) -> Option<u32>
    ensures { (t : ProgramText) (c : Within) → Knows scope.now t c
        → MatchOption result (stmt_keeps t c (text.w_apply name.now) ≡ false)
        (λ number. (stmt_keeps t c (text.w_apply name.now) ≡ true)
        × (number ≡ number_in name.now)) }
{
    if !is_numbered(b't', name) {
        return None;
    }
    let number = table_number(name)?;
    if scope.tables.contains(&number) {
        Some(number)
    } else {
        None
    }
}

/// The statement `NAME.apply();`
fn apply(scope: &Scope, at: u32, name: &[u8]) -> Result<(P4Stmt, u32), KindFault>
    ensures keeps { (t : ProgramText) (c : Within) → Knows scope.now t c
        → IfOk result (λ made. StmtKeeps t c (text.w_apply name.now) at
        (ir.stmt_of made.0) made.1) }
    ensures stops { (t : ProgramText) (c : Within) → Knows scope.now t c
        → IfErr result (StopsBy at (stmt_pieces t c (text.w_apply name.now))) }
{
    match applied(scope, name) {
        Some(number) => Ok((P4Stmt::Apply(number), after(at, 6))),
        None => Err(KindFault::Kind(at)),
    }
}

/// `if (E) {`, where the block of an `else` is filled if there is one.
fn condition(
    alloc: Global,
    scope: &Scope,
    at: u32,
    expr: &WrittenExpr,
    is_filled: bool,
) -> Result<(P4Expr, u32), KindFault>
    ensures keeps { (t : ProgramText) (c : Within) → Knows scope.now t c
        → IfOk result (λ made. ConditionKeeps t c (expr_of expr.now) is_filled at
        (ir.expr_of made.0) made.1) }
    ensures stops { (t : ProgramText) (c : Within) → Knows scope.now t c
        → IfErr result (StopsBy at (condition_piece t c (expr_of expr.now) is_filled ∷ [])) }
{
    let begin = after(at, 2);
    let (made, end) = value(alloc, scope, at, begin, Some(Sort::Truth), is_filled, expr)?;
    let next = after(end, 2);
    Ok((made, next))
}

fn is_filled(stmts: &Vec<WrittenStmt>) -> bool
    ensures { result ≡ not (length stmts.now.items == 0) }
{
    !stmts.is_empty()
}

/// A statement that begins at this token.
#[cycle(stmts)]
fn stmt(
    alloc: Global,
    scope: &Scope,
    at: u32,
    stmt: &WrittenStmt,
) -> Result<(P4Stmt, u32), KindFault>
    ensures keeps { (t : ProgramText) (c : Within) → Knows scope.now t c
        → IfOk result (λ made. StmtKeeps t c (stmt_of stmt.now) at (ir.stmt_of made.0) made.1) }
    ensures stops { (t : ProgramText) (c : Within) → Knows scope.now t c
        → IfErr result (StopsBy at (stmt_pieces t c (stmt_of stmt.now))) }
{
    match stmt {
        WrittenStmt::SetMeta(name, expr) => set_meta(alloc, scope, at, name.bytes(), expr),
        WrittenStmt::SetField(header, field, expr) => {
            set_field(alloc, scope, at, header.bytes(), field.bytes(), expr)
        }
        WrittenStmt::Apply(name) => apply(scope, at, name.bytes()),
        WrittenStmt::If(expr, first) => {
            let (test, begin) = condition(alloc, scope, at, expr, true)?;
            let (first, close) = block(alloc, scope, begin, first)?;
            let end = after(close, 1);
            Ok((P4Stmt::If(test, first), end))
        }
        WrittenStmt::IfElse(expr, first, second) => {
            let (test, begin) = condition(alloc, scope, at, expr, is_filled(second))?;
            let (first, close) = block(alloc, scope, begin, first)?;
            let other = after(close, 3);
            let (second, last) = block(alloc, scope, other, second)?;
            let end = after(last, 1);
            Ok((P4Stmt::IfElse(test, first, second), end))
        }
        WrittenStmt::Verdict(bits) => verdict(scope, at, *bits),
        WrittenStmt::EgressPort(expr) => egress_port(alloc, scope, at, expr),
        WrittenStmt::Group(expr) => group(alloc, scope, at, expr),
        WrittenStmt::Return => Ok((P4Stmt::Return, after(at, 2))),
    }
}

/// Statements one after the other.
#[cycle(stmts)]
pub(crate) fn block(
    alloc: Global,
    scope: &Scope,
    at: u32,
    stmts: &[WrittenStmt],
) -> Result<(Vec<P4Stmt>, u32), KindFault>
    ensures keeps { (t : ProgramText) (c : Within) → Knows scope.now t c
        → IfOk result (λ made. BlockKeeps t c (body_of stmts.now) at
        (ir.block_of (map ir.stmt_of made.0.items)) made.1) }
    ensures stops { (t : ProgramText) (c : Within) → Knows scope.now t c
        → IfErr result (StopsBy at (block_pieces t c (body_of stmts.now))) }
{
    let mut made = Vec::new(alloc);
    let mut next = at;
    for written in stmts {
        let (stmt, end) = stmt(alloc, scope, next, written)?;
        made.push(stmt)?;
        next = end;
    }
    Ok((made, next))
}
