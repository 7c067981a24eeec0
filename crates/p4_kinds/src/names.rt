//! The rules of names. Names are told apart by a set of those that stand later.
ghost use Rattle.std.specs.Prelude.{◌≡◌, ◌&&◌, IfOk, map};
ghost use Rattle.cocoon_num.specs.Lists.{all_distinct, each};
ghost use Rattle.cocoon_num.specs.Tokens as tokens;
ghost use Rattle.p4_ir.specs.P4Kinds as rules;
ghost use Rattle.p4_ir.specs.Program.{field_of, header_of, program_of};
ghost use Rattle.p4_kinds.specs.Parts.{field_name, header_name, header_names_fit};
ghost use Rattle.p4_kinds.specs.Seen.{Joins};

use crate::bytes::{is_meta_name, is_run};
use cocoon_num::NoMemory;
use p4_ir::{P4Field, P4Header, Program};
use std::alloc::Global;
use std::collections::BTreeSet;

/// Adds a name; says whether it was not there.
pub fn is_new(alloc: Global, names: &mut BTreeSet<Vec<u8>>, name: &[u8]) -> Result<bool, NoMemory>
    ensures { IfOk result (λ is_new. Joins name.now names.old.keys names.new.keys is_new) }
{
    let key = name.to_vec(alloc)?;
    let is_new = names.insert(key)?;
    Ok(is_new)
}

fn are_distinct_fields(alloc: Global, fields: &[P4Field]) -> Result<bool, NoMemory>
    ensures { IfOk result (λ all. all
        ≡ all_distinct (map field_name (map field_of fields.now))) }
{
    let mut later = BTreeSet::new(alloc);
    let mut left = fields.len();
    while left > 0 {
        left -= 1;
        let field = &fields[left];
        if !is_new(alloc, &mut later, field.name.bytes())? {
            return Ok(false);
        }
    }
    Ok(true)
}

fn are_distinct_headers(alloc: Global, headers: &[P4Header]) -> Result<bool, NoMemory>
    ensures { IfOk result (λ all. all
        ≡ all_distinct (map header_name (map header_of headers.now))) }
{
    let mut later = BTreeSet::new(alloc);
    let mut left = headers.len();
    while left > 0 {
        left -= 1;
        let header = &headers[left];
        if !is_new(alloc, &mut later, header.name.bytes())? {
            return Ok(false);
        }
    }
    Ok(true)
}

/// What follows `f_` is one or more letters, digits and `_`.
fn are_runs(fields: &[P4Field]) -> bool
    ensures { result ≡ each (λ f. tokens.is_run f.name) (map field_of fields.now) }
{
    for field in fields {
        if !is_run(field.name.bytes()) {
            return false;
        }
    }
    true
}

fn are_meta_names(fields: &[P4Field]) -> bool
    ensures { result ≡ each (λ f. rules.is_meta_name f.name) (map field_of fields.now) }
{
    for field in fields {
        if !is_meta_name(field.name.bytes()) {
            return false;
        }
    }
    true
}

fn is_header_named(alloc: Global, header: &P4Header) -> Result<bool, NoMemory>
    ensures { IfOk result (λ fits. fits ≡ header_names_fit (header_of header.now)) }
{
    let distinct = are_distinct_fields(alloc, header.fields.items())?;
    Ok(is_run(header.name.bytes()) && are_runs(header.fields.items()) && distinct)
}

fn are_headers_named(alloc: Global, headers: &[P4Header]) -> Result<bool, NoMemory>
    ensures { IfOk result (λ fit. fit ≡ each header_names_fit (map header_of headers.now)) }
{
    for header in headers {
        if !is_header_named(alloc, header)? {
            return Ok(false);
        }
    }
    Ok(true)
}

/// What follows `ht_` and `h_` is fit and distinct, and so are the names of each header's fields.
fn headers_fit(alloc: Global, headers: &[P4Header]) -> Result<bool, NoMemory>
    ensures { IfOk result (λ fit. fit ≡ (each header_names_fit (map header_of headers.now)
        && all_distinct (map header_name (map header_of headers.now)))) }
{
    let named = are_headers_named(alloc, headers)?;
    let distinct = are_distinct_headers(alloc, headers)?;
    Ok(named && distinct)
}

pub(crate) fn names_fit(alloc: Global, program: &Program) -> Result<bool, NoMemory>
    ensures { IfOk result (λ fit. fit ≡ rules.names_fit (program_of program.now)) }
{
    if !headers_fit(alloc, program.headers.items())? {
        return Ok(false);
    }
    if !are_meta_names(program.meta.items()) {
        return Ok(false);
    }
    are_distinct_fields(alloc, program.meta.items())
}
