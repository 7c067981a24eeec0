//! Obligations of levels.
ghost use Rattle.std.specs.Prelude.{◌≡◌, ◌≤◌, ◌-◌, ℕ, IfErr, IfOk, List, OnOk, Some, slice_get};
ghost use Rattle.cocoon_syntax.specs.TreeOf.{design_of, refine_of};
ghost use Rattle.cocoon_types.specs.Design.{last_level};
ghost use Rattle.cocoon_types.specs.Limits.{first_above};
ghost use Rattle.bv_terms.specs.Arenas.{KeepsTerms, inputs_in};
ghost use Rattle.obligation_gen.specs.Bodies.{IsDeclared};
ghost use Rattle.obligation_gen.specs.CountedTrees.{most_leaves};
ghost use Rattle.obligation_laws.specs.Obligations as laws;
ghost use Rattle.obligation_laws.specs.Obligations.{obligations_behind};
ghost use Rattle.obligation_gen.specs.Counted.{AreFew, TellsFirst, all_counts, counts_behind};
ghost use Rattle.obligation_gen.specs.Shown.{ShowsObligations};

use crate::counting::count_leaves;
use crate::inlining::{body_tree, inline};
use crate::obligation::Obligation;
use crate::refined::Refined;
use crate::sizes::joined_terms;
use crate::tree::{InlineFault, Tree};
use bv_terms::Terms;
use cocoon_num::NoMemory;
use cocoon_resolve::Checked;
use cocoon_syntax::Refine;
use obligation_laws::form_laws::formulas_fit;
use obligation_laws::tree_laws::{leaves_are_counted, leaves_have_widths};
use sound_types::laws::code_literals_fit;
use std::alloc::Global;

/// Formulas of which more terms are joined are out of memory.
const MOST_JOINED: u64 = 1 << 25;

/// The tree, if there is memory for it: leaves were counted before.
fn made(tree: Result<Tree, InlineFault>) -> Result<Tree, NoMemory>
    ensures { IfOk result (λ made. tree ≡ Ok made) }
{
    match tree {
        Ok(tree) => Ok(tree),
        Err(_) => Err(NoMemory),
    }
}

/// What is owed of one role of a block.
fn of_role(
    alloc: Global,
    checked: &Checked,
    level: u32,
    block: &Refine,
    name: &[u8],
    terms: &mut Terms,
) -> Result<Vec<Obligation>, NoMemory>
    requires level { (1 ≤ level) × (level ≤ last_level (design_of checked.now)) }
    requires block { slice_get (design_of checked.now).refines (level - 1)
        ≡ Some (refine_of block.now) }
    requires bodies { (1 ≤ block.now.within) × (block.now.within ≤ 12) }
    requires above { IsDeclared (design_of checked.now) (level - 1) name.now }
    requires declared { IsDeclared (design_of checked.now) level name.now }
    ensures owed { IfOk result (λ all. ShowsObligations (design_of checked.now) terms.new all.items
        (laws.of_role (level - 1) (design_of checked.now) (refine_of block.now) name.now
        (inputs_in terms.old)).0) }
    ensures next { OnOk result (inputs_in terms.new
        ≡ (laws.of_role (level - 1) (design_of checked.now) (refine_of block.now) name.now
        (inputs_in terms.old)).1) }
    ensures kept { KeepsTerms terms.old terms.new }
{
    formulas_fit();
    leaves_are_counted();
    leaves_have_widths();
    code_literals_fit();
    let _design = checked.design();
    let _names = checked.names();
    let role = checked.role_of(name).unwrap();
    let tree = made(inline(alloc, checked, level, role, block.within, terms))?;
    let old = made(body_tree(alloc, checked, level - 1, role, terms))?;
    if joined_terms(&old, &tree) > MOST_JOINED {
        return Err(NoMemory);
    }
    let refined = Refined {
        level,
        role,
        old: &old,
        tree: &tree,
    };
    refined.obligations(alloc, terms)
}

/// What the block behind the level before this one owes.
fn of_block(
    alloc: Global,
    checked: &Checked,
    level: u32,
    terms: &mut Terms,
) -> Result<Vec<Obligation>, NoMemory>
    requires { (1 ≤ level) × (level ≤ last_level (design_of checked.now)) }
    ensures owed { IfOk result (λ all. ShowsObligations (design_of checked.now) terms.new all.items
        (obligations_behind (level - 1) (design_of checked.now) (inputs_in terms.old)).0) }
    ensures next { OnOk result (inputs_in terms.new
        ≡ (obligations_behind (level - 1) (design_of checked.now) (inputs_in terms.old)).1) }
    ensures kept { KeepsTerms terms.old terms.new }
{
    let block = &checked.design().refines[(level - 1) as usize];
    let mut all = Vec::new(alloc);
    for name in &block.roles {
        let mut more = of_role(alloc, checked, level, block, name.text.bytes(), terms)?;
        all.append(&mut more)?;
    }
    Ok(all)
}

/// What the block behind the level before this one owes: role by role, in the order of its list,
/// and leaf by leaf. Leaves are counted before anything is made. Time and memory are in proportion
/// to the leaves of a role, times the leaves of its body above that send to the same roles, and to
/// all that these are made of: for each leaf once, or once for each old leaf if other choices are
/// read back beside each.
pub fn obligations(
    alloc: Global,
    checked: &Checked,
    level: u32,
    terms: &mut Terms,
) -> Result<Vec<Obligation>, InlineFault>
    requires { (1 ≤ level) × (level ≤ last_level (design_of checked.now)) }
    ensures owed { IfOk result (λ all. ShowsObligations (design_of checked.now) terms.new all.items
        (obligations_behind (level - 1) (design_of checked.now) (inputs_in terms.old)).0) }
    ensures next { OnOk result (inputs_in terms.new
        ≡ (obligations_behind (level - 1) (design_of checked.now) (inputs_in terms.old)).1) }
    ensures few { OnOk result (AreFew (counts_behind (level - 1) (design_of checked.now))) }
    ensures paths { IfErr result
        (TellsFirst (counts_behind (level - 1) (design_of checked.now))) }
    ensures unmade { (count : ℕ) → first_above most_leaves
        (counts_behind (level - 1) (design_of checked.now)) ≡ Some count → terms.new ≡ terms.old }
    ensures kept { KeepsTerms terms.old terms.new }
{
    count_leaves(alloc, checked, level)?;
    Ok(of_block(alloc, checked, level, terms)?)
}

/// Counts the leaves of all trees of a design.
fn count_all(alloc: Global, checked: &Checked) -> Result<(), InlineFault>
    ensures few { OnOk result (AreFew (all_counts (design_of checked.now))) }
    ensures told { IfErr result (TellsFirst (all_counts (design_of checked.now))) }
{
    for level in 1..checked.levels() {
        count_leaves(alloc, checked, level)?;
    }
    Ok(())
}

/// What a design owes, level by level.
fn of_levels(
    alloc: Global,
    checked: &Checked,
    terms: &mut Terms,
) -> Result<Vec<Obligation>, NoMemory>
    requires { inputs_in terms.old ≡ 0 }
    ensures owed { IfOk result (λ all. ShowsObligations (design_of checked.now) terms.new all.items
        (laws.all_obligations (design_of checked.now))) }
    ensures kept { KeepsTerms terms.old terms.new }
{
    let mut all = Vec::new(alloc);
    for level in 1..checked.levels() {
        let mut more = of_block(alloc, checked, level, terms)?;
        all.append(&mut more)?;
    }
    Ok(all)
}

/// What a design owes, level by level, in an arena without inputs. The leaves of all levels are
/// counted before anything is made. For the rest time and memory are as above.
pub fn all_obligations(
    alloc: Global,
    checked: &Checked,
    terms: &mut Terms,
) -> Result<Vec<Obligation>, InlineFault>
    requires { inputs_in terms.old ≡ 0 }
    ensures owed { IfOk result (λ all. ShowsObligations (design_of checked.now) terms.new all.items
        (laws.all_obligations (design_of checked.now))) }
    ensures few { OnOk result (AreFew (all_counts (design_of checked.now))) }
    ensures paths { IfErr result (TellsFirst (all_counts (design_of checked.now))) }
    ensures unmade { (count : ℕ) → first_above most_leaves (all_counts (design_of checked.now))
        ≡ Some count → terms.new ≡ terms.old }
    ensures kept { KeepsTerms terms.old terms.new }
{
    count_all(alloc, checked)?;
    Ok(of_levels(alloc, checked, terms)?)
}
