//! What designs and networks deliver.
ghost use Rattle.std.specs.Prelude.{◌≡◌, List, ℕ};
ghost use Rattle.cocoon_num.specs.Tree.{Design};
ghost use Rattle.cocoon_types.specs.Runs.{LastGo};
ghost use Rattle.cocoon_types.specs.Tables.{Defs};
ghost use Rattle.p4_ir.specs.NetRuns.{NetGo};
ghost use Rattle.p4_ir.specs.NetTree.{NetData};

use cocoon_types::runs::one_end;

/// With the same choices and number of visits the last level delivers one thing at most.
pub fn one_delivery_of_a_design()
    ensures { (design : Design) (defs : Defs) (a : ℕ) (bytes choices : List ℕ)
        (visits b c : ℕ) (x y : List ℕ)
        → LastGo design defs a bytes choices visits b x
        → LastGo design defs a bytes choices visits c y → (b ≡ c) × (x ≡ y) }
{
    one_end();
}

/// With the same members and number of visits a network delivers one thing at most.
pub fn one_delivery_of_a_network()
    ensures { (net : NetData) (a : ℕ) (bytes choices : List ℕ) (visits b c : ℕ) (x y : List ℕ)
        → NetGo net a bytes choices visits b x
        → NetGo net a bytes choices visits c y → (b ≡ c) × (x ≡ y) }
{}
