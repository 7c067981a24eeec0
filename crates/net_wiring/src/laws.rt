//! Differences are exact: laws, each the contract of a function that does nothing.
ghost use Rattle.std.specs.Prelude.{◌≡◌};
ghost use Rattle.p4_ir.specs.NetTree.{NetData};
ghost use Rattle.net_wiring.specs.Differences.{FirstDifference, SameWires, programs};
ghost use Rattle.net_wiring.specs.declared.wiring.Wiring.{Wiring};

/// Two networks have one first difference at most.
pub fn one_first_difference()
    ensures { (old new : NetData) (v w : Wiring) → FirstDifference old new v
        → FirstDifference old new w → v ≡ w }
{}

/// And they have none where their wires and programs are the same.
pub fn same_have_no_difference()
    ensures { (old new : NetData) (w : Wiring) → SameWires old new
        → programs old.switches ≡ programs new.switches → FirstDifference old new w → ⊥ }
{}
