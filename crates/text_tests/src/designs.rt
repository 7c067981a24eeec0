//! Designs as they are written in cases.
use crate::expressions::put_expr;
use crate::pieces::{close, open, open_plain, put_name, put_names, put_number, put_params};
use crate::statements::put_block;
use case_files::Printer;
use cocoon_syntax::{Decl, Design, FunctionDecl, HeaderDecl, Refine, ResultKind, Role};

fn put_function(out: &mut Printer, function: &FunctionDecl) {
    open_plain(out, "function");
    put_name(out, &function.name);
    put_params(out, &function.params);
    match function.result {
        ResultKind::Width(width) => {
            out.put(" ");
            put_number(out, width);
        }
        ResultKind::Truth => out.put(" bool"),
    }
    match &function.body {
        Some(body) => put_expr(out, body),
        None => out.put(" none"),
    }
}

fn put_role(out: &mut Printer, role: &Role) {
    open_plain(out, "role");
    put_name(out, &role.name);
    put_params(out, &role.params);
    put_expr(out, &role.guard);
    match &role.body {
        Some(body) => put_block(out, body),
        None => out.put(" none"),
    }
}

fn put_decl(out: &mut Printer, decl: &Decl) {
    match decl {
        Decl::Function(function) => put_function(out, function),
        Decl::Assume(assume) => {
            open(out, "assume", assume.at);
            put_params(out, &assume.params);
            put_expr(out, &assume.body);
        }
        Decl::Role(role) => put_role(out, role),
        Decl::Host(host) => {
            open(out, "host", host.at);
            put_name(out, &host.entry);
            put_name(out, &host.sink);
        }
        Decl::Switch(switch) => {
            open(out, "switch", switch.at);
            put_name(out, &switch.into);
            put_name(out, &switch.out);
            out.put(" ");
            put_number(out, switch.ports);
        }
    }
    close(out);
}

fn put_decls(out: &mut Printer, decls: &[Decl]) {
    for decl in decls {
        put_decl(out, decl);
    }
}

fn put_header(out: &mut Printer, header: &HeaderDecl) {
    open_plain(out, "header");
    put_name(out, &header.name);
    put_params(out, &header.fields);
    close(out);
}

fn put_refine(out: &mut Printer, refine: &Refine) {
    open(out, "refine", refine.at);
    put_names(out, &refine.roles);
    out.put(" ");
    put_number(out, refine.within);
    put_decls(out, &refine.decls);
    close(out);
}

/// A design, as `(design (header h@3 x@5:8))`.
pub fn put_design(out: &mut Printer, design: &Design) {
    out.put("(design");
    for header in &design.headers {
        put_header(out, header);
    }
    put_decls(out, &design.decls);
    for refine in &design.refines {
        put_refine(out, refine);
    }
    close(out);
}
