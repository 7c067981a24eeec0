//! Trees of roles.
ghost use Rattle.std.specs.Prelude.{◌≡◌, ◌<◌, ◌≤◌, ◌+◌, ◌-◌, ◌^◌, false, IfErr, IfOk, IfSome, OnErr, OnOk, Some, ℕ};
ghost use Rattle.cocoon_resolve.specs.Readers.{all_widths, HasRole};
ghost use Rattle.cocoon_syntax.specs.TreeOf.{design_of, role_of};
ghost use Rattle.cocoon_types.specs.Design.{last_level, role_at};
ghost use Rattle.bv_terms.specs.Arenas.{KeepsTerms, inputs_in};
ghost use Rattle.expr_terms.specs.Sizes.{AreSizes};
ghost use Rattle.refinement.specs.Segments.{is_new};
ghost use Rattle.obligation_laws.specs.Counts.{leaf_count};
ghost use Rattle.obligation_laws.specs.Leaves as laws;
ghost use Rattle.obligation_laws.specs.Leaves.{inlined, tree_of};
ghost use Rattle.symbolic_runs.specs.Reading.{world_in};
ghost use Rattle.obligation_gen.specs.Bodies.{design_in, new_in};
ghost use Rattle.obligation_gen.specs.CountedTrees.{OfRole, TellsCount, most_leaves};
ghost use Rattle.obligation_gen.specs.ShownTrees.{ShowsTree};

use crate::hops::{Hops, hop};
use crate::inputs::{Inputs, new_inputs, param_widths};
use crate::tree::{InlineFault, Tree};
use bv_terms::Terms;
use cocoon_num::{List, NoMemory};
use cocoon_resolve::Checked;
use cocoon_syntax::Role;
use declarations::RoleId;
use expr_terms::CallSizes;
use role_values::laws::{fields_are_declared, role_params_are_declared};
use std::alloc::Global;
use symbolic_runs::{World, begin};

/// More leaves are a fault.
const MOST_LEAVES: u64 = 4096;

/// The tree of a role, with its body and those of new roles behind it, at most so many.
fn tree<'d>(
    alloc: Global,
    hops: &Hops<'d>,
    role: &'d Role,
    bodies: u32,
    terms: &mut Terms,
) -> Result<Tree, NoMemory>
    requires level { IfSome hops.now.above (λ above. above + 1 < 2 ^ 32) }
    requires bodies { 1 ≤ bodies }
    requires sizes { AreSizes (design_in hops.now) hops.now.world.sizes.now }
    requires role { role_at hops.now.world.level (design_in hops.now) (role_of role.now).name.text
        ≡ Some (role_of role.now) }
    ensures tree { IfOk result (λ tree. ShowsTree (design_in hops.now) terms.new tree
        (tree_of (world_in hops.now.world) (all_widths (design_in hops.now).headers)
        (new_in hops.now) bodies (role_of role.now).name.text (inputs_in terms.old))) }
    ensures next { OnOk result (inputs_in terms.new
        ≡ (tree_of (world_in hops.now.world) (all_widths (design_in hops.now).headers)
        (new_in hops.now) bodies (role_of role.now).name.text (inputs_in terms.old)).next) }
    ensures kept { KeepsTerms terms.old terms.new }
{
    fields_are_declared();
    role_params_are_declared();
    let checked = hops.world.checked;
    let _design = checked.design();
    let widths = param_widths(alloc, &role.params)?;
    let args = new_inputs(alloc, &widths, terms)?;
    let fields = new_inputs(alloc, checked.field_widths(), terms)?;
    let name = role.name.text.bytes();
    let state = begin(alloc, &hops.world, name, args.terms, fields.terms, terms)?;
    let leaves = hop(alloc, hops, bodies, state, terms)?;
    Ok(Tree {
        args: List::from(args.numbers),
        fields: List::from(fields.numbers),
        leaves: List::from(leaves),
    })
}

/// The tree of a role that a block refines, where the block allows so many bodies: that of the level behind it. A way that sends to
/// a role of the block that is new goes on with that role's body. Inputs are new ones: parameters, fields, and then choices.
/// Leaves are counted before anything is made. Time and memory are in proportion to the terms made, and to the ways with
/// their variables and fields.
pub fn inline(
    alloc: Global,
    checked: &Checked,
    level: u32,
    role: RoleId,
    within: u32,
    terms: &mut Terms,
) -> Result<Tree, InlineFault>
    requires level { (1 ≤ level) × (level ≤ last_level (design_of checked.now)) }
    requires role { HasRole (design_of checked.now) role level }
    requires bodies { (1 ≤ within) × (within ≤ 12) }
    ensures tree { OfRole (design_of checked.now) role (λ name. IfOk result (λ tree.
        ShowsTree (design_of checked.now) terms.new tree
        (inlined (level - 1) (design_of checked.now) name within (inputs_in terms.old)))) }
    ensures next { OfRole (design_of checked.now) role (λ name. OnOk result (inputs_in terms.new
        ≡ (inlined (level - 1) (design_of checked.now) name within (inputs_in terms.old)).next)) }
    ensures few { OfRole (design_of checked.now) role (λ name. OnOk result
        (leaf_count (role_at level (design_of checked.now))
        (is_new (level - 1) (design_of checked.now)) within name ≤ most_leaves)) }
    ensures paths { OfRole (design_of checked.now) role (λ name. IfErr result
        (TellsCount (leaf_count (role_at level (design_of checked.now))
        (is_new (level - 1) (design_of checked.now)) within name))) }
    ensures unmade { OfRole (design_of checked.now) role (λ name. most_leaves
        < leaf_count (role_at level (design_of checked.now))
        (is_new (level - 1) (design_of checked.now)) within name → terms.new ≡ terms.old) }
    ensures kept { KeepsTerms terms.old terms.new }
{
    let declared = checked.role(role, level);
    let above = level - 1;
    let leaves = crate::counts::leaf_count(
        alloc,
        checked,
        above,
        declared.name.text.bytes(),
        within,
    )?;
    if leaves > MOST_LEAVES {
        return Err(InlineFault::Paths(leaves));
    }
    let sizes = CallSizes::new(alloc, checked)?;
    let hops = Hops {
        world: World {
            checked,
            sizes: &sizes,
            level,
        },
        above: Some(above),
    };
    Ok(tree(alloc, &hops, declared, within, terms)?)
}

/// The tree of one body at a level, where no role is new, so that no leaf ends inside. All else is as above.
pub fn body_tree(
    alloc: Global,
    checked: &Checked,
    level: u32,
    role: RoleId,
    terms: &mut Terms,
) -> Result<Tree, InlineFault>
    requires { HasRole (design_of checked.now) role level }
    ensures tree { OfRole (design_of checked.now) role (λ name. IfOk result (λ tree.
        ShowsTree (design_of checked.now) terms.new tree
        (laws.body_tree level (design_of checked.now) name (inputs_in terms.old)))) }
    ensures next { OfRole (design_of checked.now) role (λ name. OnOk result (inputs_in terms.new
        ≡ (laws.body_tree level (design_of checked.now) name (inputs_in terms.old)).next)) }
    ensures few { OfRole (design_of checked.now) role (λ name. OnOk result
        (leaf_count (role_at level (design_of checked.now)) (λ r. false) 1 name ≤ most_leaves)) }
    ensures paths { OfRole (design_of checked.now) role (λ name. IfErr result
        (TellsCount (leaf_count (role_at level (design_of checked.now)) (λ r. false) 1 name))) }
    ensures unmade { OfRole (design_of checked.now) role (λ name. most_leaves
        < leaf_count (role_at level (design_of checked.now)) (λ r. false) 1 name
        → terms.new ≡ terms.old) }
    ensures kept { KeepsTerms terms.old terms.new }
{
    let declared = checked.role(role, level);
    let leaves = crate::counts::body_leaf_count(checked, level, declared.name.text.bytes());
    if leaves > MOST_LEAVES {
        return Err(InlineFault::Paths(leaves));
    }
    let sizes = CallSizes::new(alloc, checked)?;
    let hops = Hops {
        world: World {
            checked,
            sizes: &sizes,
            level,
        },
        above: None,
    };
    Ok(tree(alloc, &hops, declared, 1, terms)?)
}
