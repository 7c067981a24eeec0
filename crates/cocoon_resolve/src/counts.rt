//! The counts of each limit, up to the first that is over it.
ghost use Rattle.std.specs.Prelude.{◌≡◌, ◌∷◌, ◌<◌, ◌-◌, ◌^◌, [], filter_map, IfOk, length, List, map, option_and_then, option_map, reverse, ℕ};
ghost use Rattle.cocoon_num.specs.Packets.{total};
ghost use Rattle.cocoon_num.specs.Tree.{FunctionDecl};
ghost use Rattle.cocoon_syntax.specs.TreeOf.{block_of, decl_of, header_of, refine_of, stmt_of};
ghost use Rattle.cocoon_types.specs.Design.{as_function, as_role, as_switch};
ghost use Rattle.cocoon_types.specs.Limits.{as_assumption, block_nodes, first_above, new_names, path_count, reported};
ghost use Rattle.cocoon_types.specs.RuleParts.{role_names};
ghost use Rattle.cocoon_types.specs.Sites.{params_of};
ghost use Rattle.cocoon_resolve.specs.Forms.{Knows};
ghost use Rattle.cocoon_resolve.specs.Seen.{Sees, SeesName};

use crate::body_nodes::count_nodes;
use crate::forms::Known;
use crate::ways::count_paths;
use cocoon_num::NoMemory;
use cocoon_syntax::{Decl, HeaderDecl, Refine, Stmt};
use std::alloc::Global;
use std::collections::BTreeSet;

/// A count as it is reported, if it is over a number.
pub(crate) fn over(count: u64, most: u64) -> Option<u64>
    requires { most < 2 ^ 64 - 1 }
    ensures { (n : ℕ) → count ≡ reported n
        → result ≡ option_map reported (first_above most (n ∷ [])) }
{
    if_over(count, most)
}

fn if_over(count: u64, most: u64) -> Option<u64>
    ensures { result ≡ option_map reported (first_above most (count ∷ [])) }
{
    if most < count { Some(count) } else { None }
}

pub(crate) fn block_count(blocks: &[Refine]) -> u64
    ensures { result ≡ reported (length (map refine_of blocks.now)) }
{
    blocks.len() as u64
}

pub(crate) fn header_count(headers: &[HeaderDecl]) -> u64
    ensures { result ≡ reported (length (map header_of headers.now)) }
{
    headers.len() as u64
}

/// The first number after `within` that is over a number.
pub(crate) fn within_over(blocks: &[Refine], most: u64) -> Option<u64>
    ensures { result ≡ option_map reported (first_above most
        (map (λ b. b.within) (map refine_of blocks.now))) }
{
    for block in blocks {
        let within = u64::from(block.within);
        if most < within {
            return Some(within);
        }
    }
    None
}

/// The number after `ports`, if it is over a number.
pub(crate) fn ports_over(decls: &[&Decl], most: u64) -> Option<u64>
    ensures { result ≡ option_map reported (first_above most
        (map (λ s. s.ports) (filter_map as_switch (map (λ d. decl_of d.now) decls.now)))) }
{
    for decl in decls {
        if let Decl::Switch(switch) = *decl {
            let ports = u64::from(switch.ports);
            if most < ports {
                return Some(ports);
            }
        }
    }
    None
}

/// The first count of parameters that is over a number.
pub(crate) fn params_over(decls: &[&Decl], most: u64) -> Option<u64>
    ensures { result ≡ option_map reported (first_above most
        (map (λ x. length (params_of x)) (map (λ d. decl_of d.now) decls.now))) }
{
    for decl in decls {
        let count = param_count(decl);
        if most < count {
            return Some(count);
        }
    }
    None
}

fn param_count(decl: &Decl) -> u64
    ensures { result ≡ length (params_of (decl_of decl.now)) }
{
    match decl {
        Decl::Function(function) => function.params.len() as u64,
        Decl::Assume(assume) => assume.params.len() as u64,
        Decl::Role(role) => role.params.len() as u64,
        Decl::Host(_) => 0,
        Decl::Switch(_) => 0,
    }
}

/// 1 for a function, else 0.
fn is_function(decl: &Decl) -> u64
    ensures { result ≡ length (filter_map as_function (decl_of decl.now ∷ [])) }
{
    match decl {
        Decl::Function(_) => 1,
        Decl::Assume(_) => 0,
        Decl::Role(_) => 0,
        Decl::Host(_) => 0,
        Decl::Switch(_) => 0,
    }
}

pub(crate) fn function_count(decls: &[&Decl]) -> u64
    ensures { result ≡ reported (length
        (filter_map as_function (map (λ d. decl_of d.now) decls.now))) }
{
    let mut count: u64 = 0;
    for decl in decls {
        count = count.saturating_add(is_function(decl));
    }
    count
}

/// 1 for an assumption, else 0.
fn is_assumption(decl: &Decl) -> u64
    ensures { result ≡ length (filter_map as_assumption (decl_of decl.now ∷ [])) }
{
    match decl {
        Decl::Function(_) => 0,
        Decl::Assume(_) => 1,
        Decl::Role(_) => 0,
        Decl::Host(_) => 0,
        Decl::Switch(_) => 0,
    }
}

pub(crate) fn assumption_count(decls: &[&Decl]) -> u64
    ensures { result ≡ reported (length
        (filter_map as_assumption (map (λ d. decl_of d.now) decls.now))) }
{
    let mut count: u64 = 0;
    for decl in decls {
        count = count.saturating_add(is_assumption(decl));
    }
    count
}

pub(crate) fn field_count(headers: &[HeaderDecl]) -> u64
    ensures { result ≡ reported (total (map (λ h. length h.fields) (map header_of headers.now))) }
{
    let mut count: u64 = 0;
    for header in headers {
        count = count.saturating_add(header.fields.len() as u64);
    }
    count
}

/// How many different roles are declared.
pub(crate) fn role_count(alloc: Global, decls: &[&Decl]) -> Result<u64, NoMemory>
    ensures { IfOk result (λ count. count ≡ reported
        (new_names [] (role_names (map (λ d. decl_of d.now) decls.now)))) }
{
    let mut seen = BTreeSet::new(alloc);
    let mut count: u64 = 0;
    for decl in decls {
        count = count.saturating_add(new_role(alloc, &mut seen, decl)?);
    }
    Ok(count)
}

/// 1 for a role whose name is not among those seen, to which it is added; else 0.
fn new_role(alloc: Global, seen: &mut BTreeSet<Vec<u8>>, decl: &Decl) -> Result<u64, NoMemory>
    ensures { IfOk result (λ count.
        Sees (as_role (decl_of decl.now)) seen.old.keys seen.new.keys count) }
{
    match decl {
        Decl::Role(role) => new_name(alloc, seen, role.name.text.bytes()),
        Decl::Function(_) => Ok(0),
        Decl::Assume(_) => Ok(0),
        Decl::Host(_) => Ok(0),
        Decl::Switch(_) => Ok(0),
    }
}

fn new_name(alloc: Global, seen: &mut BTreeSet<Vec<u8>>, name: &[u8]) -> Result<u64, NoMemory>
    ensures { IfOk result (λ count. SeesName name.now seen.old.keys seen.new.keys count) }
{
    let key = name.to_vec(alloc)?;
    let is_new = seen.insert(key)?;
    Ok(if is_new { 1 } else { 0 })
}

/// The first count of ways through a body that is over a number.
pub(crate) fn paths_over(decls: &[&Decl], most: u64) -> Option<u64>
    requires { most < 2 ^ 64 - 1 }
    ensures { result ≡ option_map reported (first_above most
        (map path_count (filter_map (λ r. r.body)
        (filter_map as_role (map (λ d. decl_of d.now) decls.now))))) }
{
    for decl in decls {
        if let Some(body) = body_in(decl) {
            let count = count_paths(body);
            if most < count {
                return Some(count);
            }
        }
    }
    None
}

/// The first count of nodes of a body that is over a number.
pub(crate) fn nodes_over(decls: &[&Decl], known: &[Known], most: u64) -> Option<u64>
    requires { most < 2 ^ 64 - 1 }
    ensures { (fs : List FunctionDecl) → Knows fs (reverse known.now)
        → result ≡ option_map reported (first_above most
        (map (block_nodes fs) (filter_map (λ r. r.body)
        (filter_map as_role (map (λ d. decl_of d.now) decls.now))))) }
{
    for decl in decls {
        if let Some(body) = body_in(decl) {
            let count = count_nodes(known, body);
            if most < count {
                return Some(count);
            }
        }
    }
    None
}

/// The body, where it is a role that has one.
fn body_in<'t>(decl: &'t Decl) -> Option<&'t [Stmt]>
    ensures { option_map (λ b. block_of (map stmt_of b.now)) result
        ≡ option_and_then (λ r. r.body) (as_role (decl_of decl.now)) }
{
    match decl {
        Decl::Role(role) => match &role.body {
            Some(body) => Some(body.as_slice()),
            None => None,
        },
        _ => None,
    }
}
