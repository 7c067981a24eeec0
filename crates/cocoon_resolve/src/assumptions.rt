//! The assumptions of a design, in the order of the text, and how many of them each level has with those before it.
ghost use Rattle.std.specs.Prelude.{◌≡◌, ◌∷◌, [], ◌++◌, filter_map, IfOk, length, map, OnOk};
ghost use Rattle.cocoon_syntax.specs.TreeOf.{assume_of, decl_of, design_of};
ghost use Rattle.cocoon_types.specs.Limits.{as_assumption};
ghost use Rattle.cocoon_resolve.specs.Kept.{HoldsAssumptions};

use cocoon_num::NoMemory;
use cocoon_num::copies::{both, copy_list};
use cocoon_syntax::{AssumeDecl, Decl, Design};
use std::alloc::Global;

/// The assumptions, and for each level their count up to it.
#[derive(Drop)]
pub(crate) struct Assumptions {
    pub(crate) held: Vec<AssumeDecl>,
    pub(crate) counts: Vec<u32>,
}

fn copy_of(alloc: Global, assumption: &AssumeDecl) -> Result<AssumeDecl, NoMemory>
    ensures { IfOk result (λ copy. assume_of copy ≡ assume_of assumption.now) }
{
    let (params, body) = both(
        copy_list(alloc, &assumption.params),
        assumption.body.copy(alloc),
    )?;
    Ok(AssumeDecl {
        at: assumption.at,
        params,
        body,
    })
}

fn append(alloc: Global, held: &mut Vec<AssumeDecl>, decl: &Decl) -> Result<(), NoMemory>
    ensures { OnOk result (map assume_of held.new.items
        ≡ map assume_of held.old.items ++ filter_map as_assumption (decl_of decl.now ∷ [])) }
{
    if let Decl::Assume(assumption) = decl {
        held.push(copy_of(alloc, assumption)?)?;
    }
    Ok(())
}

fn append_level(alloc: Global, held: &mut Vec<AssumeDecl>, decls: &[Decl]) -> Result<(), NoMemory>
    ensures { OnOk result (map assume_of held.new.items
        ≡ map assume_of held.old.items ++ filter_map as_assumption (map decl_of decls.now)) }
{
    for decl in decls {
        append(alloc, held, decl)?;
    }
    Ok(())
}

impl Assumptions {
    pub(crate) fn new(alloc: Global, design: &Design) -> Result<Assumptions, NoMemory>
        ensures { IfOk result (λ table. HoldsAssumptions table (design_of design.now)) }
    {
        let mut held = Vec::new(alloc);
        let mut counts = Vec::new(alloc);
        append_level(alloc, &mut held, &design.decls)?;
        counts.push(count(&held)?)?;
        for block in &design.refines {
            append_level(alloc, &mut held, &block.decls)?;
            counts.push(count(&held)?)?;
        }
        Ok(Assumptions { held, counts })
    }
}

fn count(held: &[AssumeDecl]) -> Result<u32, NoMemory>
    ensures { IfOk result (λ n. n ≡ length held.now) }
{
    u32::try_from(held.len()).map_err(|_| NoMemory)
}
