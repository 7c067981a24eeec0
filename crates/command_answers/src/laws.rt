//! What follows from the promises of the crates below, for what a command answers. The function does
//! nothing; its contract is the law.
ghost use Rattle.cocoon_num.specs.Tree.{DefsText, Design};
ghost use Rattle.cocoon_types.specs.DefsRules.{DefsFit};
ghost use Rattle.cocoon_types.specs.Design.{last_level};
ghost use Rattle.cocoon_types.specs.Rules.{WellFormed};
ghost use Rattle.cocoon_types.specs.Tables.{defs_of};
ghost use Rattle.lowering.specs.Delivers.{DeliversExactly, DeliversWithin};
ghost use Rattle.p4_ir.specs.NetTree.{NetData};
ghost use Rattle.refinement.specs.Assumptions.{Meets};
ghost use Rattle.refinement.specs.Owed.{Refines};
ghost use Rattle.sound_types.specs.Literals.{DesignLiteralsFit, EntriesFit};

use refinement::laws::levels_compose;

/// What a network delivers that delivers exactly what the last level does, the topmost specification
/// may make, if each block of the design is contained and bounded, under definitions that meet all
/// assumptions.
pub fn deliveries_stay_within()
    ensures { (d : Design) (es : DefsText) (net : NetData) → WellFormed d → DesignLiteralsFit d
        → DefsFit d es → EntriesFit es → Refines d → Meets (last_level d) d (defs_of d es)
        → DeliversExactly net d (defs_of d es) → DeliversWithin net d (defs_of d es) }
{
    levels_compose();
}
