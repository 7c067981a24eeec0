//! Whole texts.
ghost use Rattle.std.specs.Prelude.{◌≡◌, ◌<◌, ◌^◌, [], IfErr, IfOk, OnOk, length};
ghost use Rattle.p4_ir.specs.Program as ir;
ghost use Rattle.p4_ir.specs.Program.{program_of};
ghost use Rattle.p4_texts.specs.KindFaults.{kind_faults, pieces};
ghost use Rattle.p4_texts.specs.Meant.{program_of_text};
ghost use Rattle.p4_resolve.specs.Controls.{KnowsText};
ghost use Rattle.p4_resolve.specs.FirstKind.{IsFirstKind};
ghost use Rattle.p4_resolve.specs.Judged.{StopsBy};
ghost use Rattle.p4_resolve.specs.Parts.{ControlsKeep, Declared};
ghost use Rattle.p4_texts.specs.Written.{text_tokens};
ghost use Rattle.p4_texts.specs.TreeOf.{text_of};

use crate::controls::{Before, control};
use crate::fault::KindFault;
use crate::fields::meta_fields;
use crate::headers::headers;
use crate::lines::{lines, members};
use crate::pieces::after;
use crate::scope::Scope;
use p4_ir::{Control, Program};
use p4_texts::program_laws::faults_are_tokens;
use p4_texts::written::WrittenProgram;
use std::alloc::Global;
use std::collections::BTreeSet;

/// The headers, the lines that name them and the meta fields, up to the first table.
fn declarations(alloc: Global, text: &WrittenProgram) -> Result<(Scope, u32), KindFault>
    requires few { length (text_tokens (text_of text.now)) < 2 ^ 32 }
    ensures keeps { IfOk result (λ made. Declared (text_of text.now) made.0 made.1) }
    ensures stops { IfErr result (StopsBy 0 (pieces (text_of text.now))) }
{
    let (headers, members_at) = headers(alloc, 157, text.headers.items())?;
    let first_member = after(members_at, 3);
    let meta_at = members(first_member, &headers, text.members.items())?;
    let first_meta = after(meta_at, 4);
    let (meta, parser_at) = meta_fields(alloc, first_meta, text.meta.items())?;
    let first_extract = after(parser_at, 19);
    let ingress_at = lines(first_extract, &headers, text.extracts.items())?;
    let first_table = after(ingress_at, 45);
    let scope = Scope::new(alloc, text, headers, meta)?;
    Ok((scope, first_table))
}

/// Both controls, from the first table on.
fn controls(
    alloc: Global,
    text: &WrittenProgram,
    at: u32,
    scope: &mut Scope,
) -> Result<((Control, Control), u32), KindFault>
    ensures keeps { Declared (text_of text.now) scope.old at → IfOk result (λ made.
        ControlsKeep (text_of text.now) (ir.control_of made.0.0) (ir.control_of made.0.1) made.1) }
    ensures known { Declared (text_of text.now) scope.old at
        → OnOk result (KnowsText scope.new (text_of text.now)) }
    ensures stops { Declared (text_of text.now) scope.old at
        → IfErr result (StopsBy 0 (pieces (text_of text.now))) }
{
    let mut before = Before::none(alloc);
    let (ingress, egress_at) = control(alloc, at, scope, &mut before, 14, &text.ingress)?;
    scope.in_ingress = false;
    let first = after(egress_at, 33);
    let (egress, deparser_at) = control(alloc, first, scope, &mut before, 10, &text.egress)?;
    Ok(((ingress, egress), deparser_at))
}

/// The program that a text stands for, where it breaks no kind rule. Tokens are counted from 0.
pub fn resolve(alloc: Global, text: &WrittenProgram) -> Result<Program, KindFault>
    requires few { length (text_tokens (text_of text.now)) < 2 ^ 32 }
    ensures keeps { IfOk result (λ p. kind_faults (text_of text.now) ≡ []) }
    ensures stands { IfOk result (λ p. program_of p ≡ program_of_text (text_of text.now)) }
    ensures fault { IfErr result (IsFirstKind (text_of text.now)) }
{
    faults_are_tokens();
    let (mut scope, at) = declarations(alloc, text)?;
    let ((ingress, egress), deparser_at) = controls(alloc, text, at, &mut scope)?;
    let first_emit = after(deparser_at, 13);
    let _end = lines(first_emit, scope.headers(), text.emits.items())?;
    Ok(scope.into_program(ingress, egress))
}
