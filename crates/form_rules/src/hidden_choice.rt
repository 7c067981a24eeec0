//! The first hidden choice of a body.
ghost use Rattle.std.specs.Prelude.{◌≡◌, IfOk, OnOk, map};
ghost use Rattle.cocoon_num.specs.Tree.{Design};
ghost use Rattle.cocoon_syntax.specs.TreeOf.{block_of, header_of, stmt_of};
ghost use Rattle.cocoon_types.specs.ReadBack.{hidden_in};
ghost use Rattle.form_rules.specs.Least.{IsLeast};
ghost use Rattle.form_rules.specs.Following.{IsLeastHidden, IsLeastOf, at_start};
ghost use Rattle.form_rules.specs.Following as spec;
ghost use Rattle.form_rules.specs.Steps.{is_hidden_by};

use crate::body_choices::note_block;
use crate::resolve::resolve_block;
use crate::run::run_steps;
use crate::scope::{FieldName, Scope, field_names};
use crate::state::first_state;
use crate::steps::Step;
use cocoon_num::NoMemory;
use cocoon_syntax::{HeaderDecl, Stmt};
use std::alloc::Global;

/// The least token index of a hidden choice of a body, if there is any, in a design with these
/// headers. Names are resolved once; then each choice costs a walk through the body. Paths on which
/// values hold the same of a choice are followed as one; where they differ, each `if` can double the
/// time. More than 2^20 that differ are out of memory.
pub fn first_hidden(
    alloc: Global,
    headers: &[HeaderDecl],
    body: &[Stmt],
) -> Result<Option<u32>, NoMemory>
    ensures { IfOk result (λ found. (d : Design) → d.headers ≡ map header_of headers.now →
        IsLeast found (hidden_in d (block_of (map stmt_of body.now)))) }
{
    let mut choices = Vec::new(alloc);
    note_block(&mut choices, body)?;
    if choices.is_empty() {
        return Ok(None);
    }
    hidden_among(alloc, headers, body, &choices)
}

/// The least of some choices that is hidden, if one of them is.
fn hidden_among(
    alloc: Global,
    headers: &[HeaderDecl],
    body: &[Stmt],
    choices: &[u32],
) -> Result<Option<u32>, NoMemory>
    ensures { IfOk result (λ found. IsLeastHidden (map header_of headers.now)
        (block_of (map stmt_of body.now)) choices.now found) }
{
    let mut scope = Scope {
        fields: field_names(alloc, headers)?,
        vars: Vec::new(alloc),
    };
    let steps = resolve_block(alloc, &mut scope, body)?;
    least_hidden(alloc, &scope.fields, &steps, choices)
}

/// The same of a body's steps, in a packet with these fields.
fn least_hidden(
    alloc: Global,
    fields: &[FieldName],
    steps: &[Step],
    choices: &[u32],
) -> Result<Option<u32>, NoMemory>
    ensures { IfOk result (λ found. IsLeastOf
        (λ c. is_hidden_by c steps.now (at_start fields.now)) choices.now found) }
{
    let mut least = None;
    for choice in choices {
        least = lesser(alloc, fields, steps, *choice, least)?;
    }
    Ok(least)
}

/// The choice if it is hidden and comes before the least so far, else that.
fn lesser(
    alloc: Global,
    fields: &[FieldName],
    steps: &[Step],
    choice: u32,
    least: Option<u32>,
) -> Result<Option<u32>, NoMemory>
    ensures { IfOk result (λ found. found ≡ spec.lesser
        (λ c. is_hidden_by c steps.now (at_start fields.now)) choice least) }
{
    if comes_before(choice, least) && is_hidden(alloc, fields, steps, choice)? {
        Ok(Some(choice))
    } else {
        Ok(least)
    }
}

fn comes_before(choice: u32, least: Option<u32>) -> bool
    ensures { result ≡ spec.comes_before choice least }
{
    match least {
        Some(least) => choice < least,
        None => true,
    }
}

/// Whether the choice is hidden on some path.
fn is_hidden(
    alloc: Global,
    fields: &[FieldName],
    steps: &[Step],
    choice: u32,
) -> Result<bool, NoMemory>
    ensures { IfOk result (λ found. found ≡ is_hidden_by choice steps.now (at_start fields.now)) }
{
    let mut states = Vec::new(alloc);
    states.push(first_state(alloc, fields)?)?;
    let reached = run_steps(alloc, choice, steps, states)?;
    Ok(reached.hides)
}
