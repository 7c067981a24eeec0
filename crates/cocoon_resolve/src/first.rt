//! The first limit that a design is over.
ghost use Rattle.std.specs.Prelude.{◌≡◌, IfOk, map, option_map};
ghost use Rattle.cocoon_syntax.specs.TreeOf.{decl_of, design_of};
ghost use Rattle.cocoon_types.specs.Design.{all_decls as all_of};
ghost use Rattle.cocoon_types.specs.Limits.{counts, first_above, limits, most, reported};
ghost use Rattle.cocoon_resolve.specs.First.{IsFirstOver};

use crate::counts;
use crate::decls::all_decls;
use crate::functions::forms_of;
use cocoon_num::{LimitName, NoMemory};
use cocoon_syntax::{Decl, Design};
use std::alloc::Global;

/// The first limit that a design is over, with the first of its counts that is over it. The tree
/// may be any; it need keep no rule.
pub fn first_limit(alloc: Global, design: &Design) -> Result<Option<(LimitName, u64)>, NoMemory>
    ensures { IfOk result (λ found. IsFirstOver (design_of design.now) found) }
{
    let decls = all_decls(alloc, design)?;
    for name in &order() {
        let found = count_over(alloc, design, &decls, *name)?;
        if let Some(count) = found {
            return Ok(Some((*name, count)));
        }
    }
    Ok(None)
}

/// The most that a count of a limit may be; 0 for a limit that is tested elsewhere.
pub fn most_of(name: LimitName) -> u64
    ensures { result ≡ most name }
{
    match name {
        LimitName::Refines => 16,
        LimitName::Within => 12,
        LimitName::Ports => 256,
        LimitName::Roles => 64,
        LimitName::Functions => 128,
        LimitName::Assumptions => 64,
        LimitName::Params => 8,
        LimitName::Headers => 16,
        LimitName::Fields => 64,
        LimitName::Paths => 4096,
        LimitName::Expanded => 65536,
        _ => 0,
    }
}

/// The limits, in the order in which they are tested.
fn order() -> [LimitName; 11]
    ensures { result ≡ limits }
{
    [
        LimitName::Refines,
        LimitName::Within,
        LimitName::Ports,
        LimitName::Roles,
        LimitName::Functions,
        LimitName::Assumptions,
        LimitName::Params,
        LimitName::Headers,
        LimitName::Fields,
        LimitName::Paths,
        LimitName::Expanded,
    ]
}

/// The first count of a limit that is over it. `decls` are the declarations of all levels.
fn count_over(
    alloc: Global,
    design: &Design,
    decls: &[&Decl],
    name: LimitName,
) -> Result<Option<u64>, NoMemory>
    requires { map (λ d. decl_of d.now) decls.now ≡ all_of (design_of design.now) }
    ensures { IfOk result (λ found. found
        ≡ option_map reported (first_above (most name) (counts (design_of design.now) name))) }
{
    let most = most_of(name);
    match name {
        LimitName::Refines => Ok(counts::over(counts::block_count(&design.refines), most)),
        LimitName::Within => Ok(counts::within_over(&design.refines, most)),
        LimitName::Ports => Ok(counts::ports_over(decls, most)),
        LimitName::Roles => Ok(counts::over(counts::role_count(alloc, decls)?, most)),
        LimitName::Functions => Ok(counts::over(counts::function_count(decls), most)),
        LimitName::Assumptions => Ok(counts::over(counts::assumption_count(decls), most)),
        LimitName::Params => Ok(counts::params_over(decls, most)),
        LimitName::Headers => Ok(counts::over(counts::header_count(&design.headers), most)),
        LimitName::Fields => Ok(counts::over(counts::field_count(&design.headers), most)),
        LimitName::Paths => Ok(counts::paths_over(decls, most)),
        LimitName::Expanded => {
            let known = forms_of(alloc, decls)?;
            Ok(counts::nodes_over(decls, &known, most))
        }
        _ => Ok(None),
    }
}
