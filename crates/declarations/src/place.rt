//! Where a declaration stands.
ghost use Rattle.std.specs.Prelude.{◌≡◌, map, option_map, slice_get};
ghost use Rattle.cocoon_syntax.specs.TreeOf.{decl_of, design_of};
ghost use Rattle.declarations.specs.Places as spec;

use cocoon_syntax::{Decl, Design};

/// A level, and the index of a declaration among those of that level. The level of those outside the blocks is 0.
#[derive(Clone, Copy, Drop)]
pub struct Place {
    pub level: u32,
    pub index: u32,
}

/// The item of this index.
pub(crate) fn item<T>(items: &[T], index: usize) -> Option<&T>
    ensures { option_map (λ x. x.now) result ≡ slice_get items.now index }
{
    items.get(index)
}

/// The declarations of a level.
fn level_decls<'d>(design: &'d Design, level: u32) -> Option<&'d [Decl]>
    ensures { option_map (λ ds. map decl_of ds.now) result
        ≡ spec.level_decls (design_of design.now) level }
{
    match level.checked_sub(1) {
        None => Some(&design.decls),
        Some(block) => Some(&item(&design.refines, block as usize)?.decls),
    }
}

/// The declaration that stands there.
pub(crate) fn decl_at<'d>(design: &'d Design, place: Place) -> Option<&'d Decl>
    ensures { option_map (λ d. decl_of d.now) result ≡ spec.decl_at (design_of design.now) place }
{
    item(level_decls(design, place.level)?, place.index as usize)
}
