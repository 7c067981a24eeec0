//! The text of a program. A printer goes over two at once, those of a `SwitchProgram`: where their literals differ, it prints the number
//! of the switch. So the programs of many switches are printed without being made.
ghost use Rattle.std.specs.Prelude.{◌≡◌, ◌+◌, ◌++◌, codes, IfOk, map};
ghost use Rattle.p4_ir.specs.P4Reads.{P4Reads};
ghost use Rattle.p4_ir.specs.P4Tree.{meta_width};
ghost use Rattle.p4_ir.specs.WellKinded.{WellKinded};
ghost use Rattle.p4_emit.specs.Pieces.{piece_of};
ghost use Rattle.p4_emit.specs.Printed as spec;
ghost use Rattle.shared_net.specs.Merging.{block_merged, expr_merged, stmt_merged};
ghost use Rattle.shared_net.specs.Shared.{switch_program};
ghost use Rattle.text_lines.specs.Printing.{literal_text, Prints};
ghost use Rattle.p4_ir.specs.Program.{expr_of, stmt_of, block_of, field_of, header_of, table_of, control_of, program_of, unary_of, binary_of};

use cocoon_num::{Bits, NoMemory};
use p4_ir::{P4Binary, P4Expr, P4Field, P4Header, P4Stmt, P4Unary, Program, Table};
use shared_net::{SwitchProgram, beside};
use std::alloc::Global;
use text_lines::Printer;

/// The pieces that every program has.
#[derive(Clone, Copy, Debug, Drop)]
pub enum Fixed {
    Architecture,
    Headers,
    Meta,
    Parser,
    Ingress,
    IngressBegin,
    Egress,
    EgressBegin,
    Deparser,
    Main,
}

#[tactic(auto, unfolding(crate::specs::Printed::fixed))]
fn fixed_text<'a>(piece: Fixed) -> &'a str
    ensures { result.now ≡ spec.fixed (piece_of piece) }
{
    match piece {
        Fixed::Architecture =>
            "#include <core.p4>\nparser CocoonParser<H, M>(packet_in b, out H h, inout M m);\ncontrol CocoonIngress<H, M>(inout H h, inout M m, in bit<16> port, out bit<8> verdict, out bit<16> egress_port, out bit<16> group);\ncontrol CocoonEgress<H, M>(inout H h, inout M m, in bit<64> rid, out bit<8> verdict, out bit<16> egress_port);\ncontrol CocoonDeparser<H>(packet_out b, in H h);\npackage CocoonSwitch<H, M>(CocoonParser<H, M> p, CocoonIngress<H, M> i, CocoonEgress<H, M> e, CocoonDeparser<H> d);",
        Fixed::Headers => "\nstruct Headers {",
        Fixed::Meta => "\n}\nstruct Meta {",
        Fixed::Parser =>
            "\n}\nparser Prs(packet_in b, out Headers h, inout Meta m) {\n  state start {",
        Fixed::Ingress =>
            "\n    transition accept;\n  }\n}\ncontrol Ing(inout Headers h, inout Meta m, in bit<16> port, out bit<8> verdict, out bit<16> egress_port, out bit<16> group) {",
        Fixed::IngressBegin =>
            "\n  apply {\n    verdict = 8w0;\n    egress_port = 16w0;\n    group = 16w0;",
        Fixed::Egress =>
            "\n  }\n}\ncontrol Egr(inout Headers h, inout Meta m, in bit<64> rid, out bit<8> verdict, out bit<16> egress_port) {",
        Fixed::EgressBegin => "\n  apply {\n    verdict = 8w0;\n    egress_port = 16w0;",
        Fixed::Deparser => "\n  }\n}\ncontrol Dep(packet_out b, in Headers h) {\n  apply {",
        Fixed::Main => "\n  }\n}\nCocoonSwitch(Prs(), Ing(), Egr(), Dep()) main;\n",
    }
}

fn push_fixed(out: &mut Printer, piece: Fixed)
    ensures { Prints out.old (spec.fixed (piece_of piece)) out.new }
{
    out.push(fixed_text(piece));
}

fn push_meta(out: &mut Printer, program: &Program, i: u32)
    ensures { Prints out.old (spec.meta_text (program_of program.now) i) out.new }
{
    if let Some(field) = program.meta.items().get(i as usize) {
        out.push("m.");
        out.push_name(&field.name);
    }
}

fn push_field_of(out: &mut Printer, header: &P4Header, f: u32)
    ensures { Prints out.old (spec.field_of_text (header_of header.now) f) out.new }
{
    if let Some(field) = header.fields.items().get(f as usize) {
        out.push("h.h_");
        out.push_name(&header.name);
        out.push(".f_");
        out.push_name(&field.name);
    }
}

fn push_field(out: &mut Printer, program: &Program, h: u32, f: u32)
    ensures { Prints out.old (spec.field_text (program_of program.now) h f) out.new }
{
    if let Some(header) = program.headers.items().get(h as usize) {
        push_field_of(out, header, f);
    }
}

fn unary_text<'a>(op: P4Unary) -> &'a str
    ensures { result.now ≡ spec.unary_text (unary_of op) }
{
    match op {
        P4Unary::Flip => "(~",
        P4Unary::Not => "(!",
    }
}

fn binary_text<'a>(op: P4Binary) -> &'a str
    ensures { result.now ≡ spec.binary_text (binary_of op) }
{
    match op {
        P4Binary::Add => " + ",
        P4Binary::Sub => " - ",
        P4Binary::BitAnd => " & ",
        P4Binary::BitOr => " | ",
        P4Binary::BitXor => " ^ ",
        P4Binary::Concat => " ++ ",
        P4Binary::Equal => " == ",
        P4Binary::Unequal => " != ",
        P4Binary::Less => " < ",
        P4Binary::LessEqual => " <= ",
        P4Binary::Greater => " > ",
        P4Binary::GreaterEqual => " >= ",
        P4Binary::And => " && ",
        P4Binary::Or => " || ",
    }
}

/// `[HIGH:LOW]`
fn push_bounds(out: &mut Printer, high: u8, low: u8)
    ensures { Prints out.old (spec.bounds_text high low) out.new }
{
    out.push("[");
    out.push_width(high);
    out.push(":");
    out.push_width(low);
    out.push("]");
}

fn push_bits(out: &mut Printer, bits: Bits)
    ensures { Prints out.old (literal_text bits.width bits.value) out.new }
{
    out.push_literal(bits.width, bits.value)
}

/// An expression, beside which this one stands in the other program.
#[cycle(expr)]
fn emit_expr(out: &mut Printer, switch: &SwitchProgram, expr: &P4Expr, other: &P4Expr)
    ensures { Prints out.old (spec.expr_text (program_of switch.now.program.now)
        (expr_merged switch.now.number (expr_of expr.now) (expr_of other.now))) out.new }
{
    match expr {
        P4Expr::Lit(bits) => push_bits(out, beside::literal(*bits, other, switch.number)),
        P4Expr::Truth(true) => out.push("true"),
        P4Expr::Truth(false) => out.push("false"),
        P4Expr::Meta(i) => push_meta(out, switch.program, *i),
        P4Expr::Field(h, f) => push_field(out, switch.program, *h, *f),
        P4Expr::Port => out.push("port"),
        P4Expr::Rid => out.push("rid"),
        P4Expr::Unary(op, a) => {
            out.push(unary_text(*op));
            emit_expr(out, switch, a, beside::operand(a, other));
            out.push(")");
        }
        P4Expr::Binary(op, a, b) => {
            let (x, y) = beside::operands(a, b, other);
            out.push("(");
            emit_expr(out, switch, a, x);
            out.push(binary_text(*op));
            emit_expr(out, switch, b, y);
            out.push(")");
        }
        P4Expr::Slice(a, high, low) => {
            emit_expr(out, switch, a, beside::sliced(a, other));
            push_bounds(out, *high, *low)
        }
        P4Expr::Pick(c, a, b) => {
            let (z, x, y) = beside::picked(c, a, b, other);
            out.push("(");
            emit_expr(out, switch, c, z);
            out.push(" ? ");
            emit_expr(out, switch, a, x);
            out.push(" : ");
            emit_expr(out, switch, b, y);
            out.push(")");
        }
    }
}

/// ` = E;` after what is set.
fn push_value(out: &mut Printer, switch: &SwitchProgram, value: &P4Expr, other: &P4Expr)
    ensures { Prints out.old (codes " = " ++ (spec.expr_text (program_of switch.now.program.now)
        (expr_merged switch.now.number (expr_of value.now) (expr_of other.now)) ++ codes ";")) out.new }
{
    out.push(" = ");
    emit_expr(out, switch, value, other);
    out.push(";");
}

fn push_verdict(out: &mut Printer, verdict: u8)
    ensures { Prints out.old (spec.verdict_text verdict) out.new }
{
    out.push("verdict = ");
    out.push_literal(8, u128::from(verdict));
    out.push(";");
}

fn push_egress_port(out: &mut Printer, switch: &SwitchProgram, value: &P4Expr, other: &P4Expr)
    ensures { Prints out.old (spec.egress_port_text (program_of switch.now.program.now)
        (expr_merged switch.now.number (expr_of value.now) (expr_of other.now))) out.new }
{
    out.push("egress_port");
    push_value(out, switch, value, other)
}

fn push_group(out: &mut Printer, switch: &SwitchProgram, value: &P4Expr, other: &P4Expr)
    ensures { Prints out.old (spec.group_text (program_of switch.now.program.now)
        (expr_merged switch.now.number (expr_of value.now) (expr_of other.now))) out.new }
{
    out.push("group");
    push_value(out, switch, value, other)
}

fn push_if(out: &mut Printer, switch: &SwitchProgram, condition: &P4Expr, other: &P4Expr)
    ensures { Prints out.old (spec.if_text (program_of switch.now.program.now)
        (expr_merged switch.now.number (expr_of condition.now) (expr_of other.now))) out.new }
{
    out.push("if (");
    emit_expr(out, switch, condition, other);
    out.push(") {");
}

fn push_else(out: &mut Printer, indent: u32)
    ensures { Prints out.old (spec.else_text indent) out.new }
{
    out.new_line(indent);
    out.push("} else {");
}

fn push_end(out: &mut Printer, indent: u32)
    ensures { Prints out.old (spec.end_text indent) out.new }
{
    out.new_line(indent);
    out.push("}");
}

/// A statement, beside which this one stands in the other program.
#[cycle(block)]
fn emit_stmt(out: &mut Printer, switch: &SwitchProgram, indent: u32, stmt: &P4Stmt, other: &P4Stmt)
    ensures { Prints out.old (spec.stmt_text (program_of switch.now.program.now) indent
        (stmt_merged switch.now.number (stmt_of stmt.now) (stmt_of other.now))) out.new }
{
    match stmt {
        P4Stmt::SetMeta(i, e) => {
            push_meta(out, switch.program, *i);
            push_value(out, switch, e, beside::meta_value(e, other))
        }
        P4Stmt::SetField(h, f, e) => {
            push_field(out, switch.program, *h, *f);
            push_value(out, switch, e, beside::field_value(e, other))
        }
        P4Stmt::Apply(n) => {
            out.push("t");
            out.push_number(*n);
            out.push(".apply();");
        }
        P4Stmt::If(e, first) => {
            let (condition, x) = beside::guarded(e, first, other);
            push_if(out, switch, e, condition);
            emit_inside(out, switch, indent, first, x);
            push_end(out, indent)
        }
        P4Stmt::IfElse(e, first, second) => {
            let (condition, x, y) = beside::branches(e, first, second, other);
            push_if(out, switch, e, condition);
            emit_inside(out, switch, indent, first, x);
            push_else(out, indent);
            emit_inside(out, switch, indent, second, y);
            push_end(out, indent)
        }
        P4Stmt::Verdict(n) => push_verdict(out, *n),
        P4Stmt::EgressPort(e) => push_egress_port(out, switch, e, beside::port_value(e, other)),
        P4Stmt::Group(e) => push_group(out, switch, e, beside::group_value(e, other)),
        P4Stmt::Return => out.push("return;"),
    }
}

/// A block inside a statement of this indentation.
#[cycle(block)]
fn emit_inside(
    out: &mut Printer,
    switch: &SwitchProgram,
    indent: u32,
    stmts: &[P4Stmt],
    others: &[P4Stmt],
)
    ensures { Prints out.old (spec.block_text (program_of switch.now.program.now) (indent + 2)
        (block_merged switch.now.number (block_of (map stmt_of stmts.now))
        (block_of (map stmt_of others.now)))) out.new }
{
    match indent.checked_add(2) {
        Some(inner) => emit_block(out, switch, inner, stmts, others),
        None => out.lose(),
    }
}

/// Statements, beside which these stand in the other program.
#[cycle(block)]
fn emit_block(
    out: &mut Printer,
    switch: &SwitchProgram,
    indent: u32,
    stmts: &[P4Stmt],
    others: &[P4Stmt],
)
    ensures { Prints out.old (spec.block_text (program_of switch.now.program.now) indent
        (block_merged switch.now.number (block_of (map stmt_of stmts.now))
        (block_of (map stmt_of others.now)))) out.new }
{
    let mut left = others;
    for stmt in stmts {
        let (other, rest) = beside::first(stmt, left);
        out.new_line(indent);
        emit_stmt(out, switch, indent, stmt, other);
        left = rest;
    }
}

fn push_header_field(out: &mut Printer, field: &P4Field)
    ensures { Prints out.old (spec.header_field_text (field_of field.now)) out.new }
{
    out.push("\n  bit<");
    out.push_width(field.width);
    out.push("> f_");
    out.push_name(&field.name);
    out.push(";");
}

fn push_header_fields(out: &mut Printer, fields: &[P4Field])
    ensures { Prints out.old
        (spec.each_text spec.header_field_text (map field_of fields.now))
        out.new }
{
    for field in fields {
        push_header_field(out, field);
    }
}

fn push_header(out: &mut Printer, header: &P4Header)
    ensures { Prints out.old (spec.header_text (header_of header.now)) out.new }
{
    out.push("\nheader ht_");
    out.push_name(&header.name);
    out.push(" {");
    push_header_fields(out, header.fields.items());
    out.push("\n}");
}

fn push_headers(out: &mut Printer, headers: &[P4Header])
    ensures { Prints out.old (spec.each_text spec.header_text (map header_of headers.now)) out.new }
{
    for header in headers {
        push_header(out, header);
    }
}

fn push_member(out: &mut Printer, header: &P4Header)
    ensures { Prints out.old (spec.member_text (header_of header.now)) out.new }
{
    out.push("\n  ht_");
    out.push_name(&header.name);
    out.push(" h_");
    out.push_name(&header.name);
    out.push(";");
}

fn push_members(out: &mut Printer, headers: &[P4Header])
    ensures { Prints out.old (spec.each_text spec.member_text (map header_of headers.now)) out.new }
{
    for header in headers {
        push_member(out, header);
    }
}

fn push_meta_member(out: &mut Printer, field: &P4Field)
    ensures { Prints out.old (spec.meta_member_text (field_of field.now)) out.new }
{
    out.push("\n  bit<");
    out.push_width(field.width);
    out.push("> ");
    out.push_name(&field.name);
    out.push(";");
}

fn push_meta_members(out: &mut Printer, fields: &[P4Field])
    ensures { Prints out.old
        (spec.each_text spec.meta_member_text (map field_of fields.now))
        out.new }
{
    for field in fields {
        push_meta_member(out, field);
    }
}

fn push_extract(out: &mut Printer, header: &P4Header)
    ensures { Prints out.old (spec.extract_text (header_of header.now)) out.new }
{
    out.push("\n    b.extract(h.h_");
    out.push_name(&header.name);
    out.push(");");
}

fn push_extracts(out: &mut Printer, headers: &[P4Header])
    ensures { Prints out.old
        (spec.each_text spec.extract_text (map header_of headers.now))
        out.new }
{
    for header in headers {
        push_extract(out, header);
    }
}

fn push_deparse(out: &mut Printer, header: &P4Header)
    ensures { Prints out.old (spec.deparse_text (header_of header.now)) out.new }
{
    out.push("\n    b.emit(h.h_");
    out.push_name(&header.name);
    out.push(");");
}

fn push_deparses(out: &mut Printer, headers: &[P4Header])
    ensures { Prints out.old
        (spec.each_text spec.deparse_text (map header_of headers.now))
        out.new }
{
    for header in headers {
        push_deparse(out, header);
    }
}

fn kind_text<'a>(exact: bool) -> &'a str
    ensures { result.now ≡ spec.kind_text exact }
{
    if exact { " : exact;" } else { " : ternary;" }
}

fn push_key(out: &mut Printer, program: &Program, exact: bool, key: u32)
    ensures { Prints out.old (spec.key_text (program_of program.now) exact key) out.new }
{
    out.push(" ");
    push_meta(out, program, key);
    out.push(kind_text(exact));
}

fn push_keys(out: &mut Printer, program: &Program, exact: bool, keys: &[u32])
    ensures { Prints out.old
        (spec.each_text (spec.key_text (program_of program.now) exact) keys.now)
        out.new }
{
    for key in keys {
        push_key(out, program, exact, *key);
    }
}

/// The width of a table's result.
fn result_width(program: &Program, table: &Table) -> u8
    ensures { result ≡ meta_width (program_of program.now) (table_of table.now).result }
{
    match program.meta.items().get(table.result as usize) {
        Some(field) => field.width,
        None => 0,
    }
}

fn push_action(out: &mut Printer, program: &Program, table: &Table)
    ensures { Prints out.old
        (spec.action_text (program_of program.now) (table_of table.now))
        out.new }
{
    out.push("\n  action a");
    out.push_number(table.number);
    out.push("(bit<");
    out.push_width(result_width(program, table));
    out.push("> v) { ");
    push_meta(out, program, table.result);
    out.push(" = v; }");
}

fn push_table_keys(out: &mut Printer, program: &Program, table: &Table)
    ensures { Prints out.old
        (spec.keys_text (program_of program.now) (table_of table.now))
        out.new }
{
    out.push("\n  table t");
    out.push_number(table.number);
    out.push(" {\n    key = {");
    push_keys(out, program, table.exact, table.keys.items());
    out.push(" }");
}

fn push_default(out: &mut Printer, program: &Program, table: &Table)
    ensures { Prints out.old
        (spec.default_text (program_of program.now) (table_of table.now))
        out.new }
{
    out.push("\n    actions = { a");
    out.push_number(table.number);
    out.push("; }\n    default_action = a");
    out.push_number(table.number);
    out.push("(");
    out.push_literal(result_width(program, table), 0);
    out.push(");\n  }");
}

fn push_table(out: &mut Printer, program: &Program, table: &Table)
    ensures { Prints out.old
        (spec.table_text (program_of program.now) (table_of table.now))
        out.new }
{
    push_action(out, program, table);
    push_table_keys(out, program, table);
    push_default(out, program, table)
}

fn push_tables(out: &mut Printer, program: &Program, tables: &[Table])
    ensures { Prints out.old
        (spec.each_text (spec.table_text (program_of program.now)) (map table_of tables.now))
        out.new }
{
    for table in tables {
        push_table(out, program, table);
    }
}

fn push_heads(out: &mut Printer, switch: &SwitchProgram)
    ensures { Prints out.old (spec.heads_text (switch_program switch.now)) out.new }
{
    let program = switch.program;
    push_fixed(out, Fixed::Architecture);
    push_headers(out, program.headers.items());
    push_fixed(out, Fixed::Headers);
    push_members(out, program.headers.items());
    push_fixed(out, Fixed::Meta);
    push_meta_members(out, program.meta.items());
    push_fixed(out, Fixed::Parser);
    push_extracts(out, program.headers.items());
}

fn push_ingress(out: &mut Printer, switch: &SwitchProgram)
    ensures { Prints out.old (spec.ingress_text (switch_program switch.now)) out.new }
{
    let (control, other) = (&switch.program.ingress, &switch.other.ingress);
    push_fixed(out, Fixed::Ingress);
    push_tables(out, switch.program, control.tables.items());
    push_fixed(out, Fixed::IngressBegin);
    emit_block(out, switch, 4, control.body.items(), other.body.items());
}

fn push_egress(out: &mut Printer, switch: &SwitchProgram)
    ensures { Prints out.old (spec.egress_text (switch_program switch.now)) out.new }
{
    let (control, other) = (&switch.program.egress, &switch.other.egress);
    push_fixed(out, Fixed::Egress);
    push_tables(out, switch.program, control.tables.items());
    push_fixed(out, Fixed::EgressBegin);
    emit_block(out, switch, 4, control.body.items(), other.body.items());
    push_fixed(out, Fixed::Deparser);
    push_deparses(out, switch.program.headers.items());
    push_fixed(out, Fixed::Main);
}

fn text_of(alloc: Global, switch: &SwitchProgram) -> Result<Vec<u8>, NoMemory>
    ensures { IfOk result (λ v. v.items ≡ spec.printed (switch_program switch.now)) }
{
    let mut out = Printer::new(alloc);
    push_heads(&mut out, switch);
    push_ingress(&mut out, switch);
    push_egress(&mut out, switch);
    out.finish()
}

/// The text of the program of a switch. Nothing is made but the text.
pub fn emit_switch(alloc: Global, switch: &SwitchProgram) -> Result<Vec<u8>, NoMemory>
    requires well_kinded { WellKinded (switch_program switch.now) }
    ensures text { IfOk result (λ v. v.items ≡ spec.printed (switch_program switch.now)) }
    ensures reads { IfOk result (λ v. P4Reads v.items (switch_program switch.now)) }
{
    text_of(alloc, switch)
}

/// The text of a program.
pub fn emit(alloc: Global, program: &Program) -> Result<Vec<u8>, NoMemory>
    requires well_kinded { WellKinded (program_of program.now) }
    ensures text { IfOk result (λ v. v.items ≡ spec.printed (program_of program.now)) }
    ensures reads { IfOk result (λ v. P4Reads v.items (program_of program.now)) }
{
    emit_switch(alloc, &SwitchProgram::of(program))
}
