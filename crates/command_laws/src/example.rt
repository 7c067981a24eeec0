//! The first example, worked out from the definitions.
ghost use Rattle.std.specs.Prelude.{[], ◌∷◌, ◌≡◌, List, None, codes, ℕ};
ghost use Rattle.cocoon_num.specs.Reads.{Reads, ReadsDefs};
ghost use Rattle.cocoon_types.specs.Rules.{WellFormed};
ghost use Rattle.cocoon_types.specs.Runs.{LastGo};
ghost use Rattle.cocoon_types.specs.Tables.{defs_of};
ghost use Rattle.lowering_correct.specs.Network.{IsNetwork};
ghost use Rattle.net_bundle.specs.Bundle.{bundle};
ghost use Rattle.net_bundle.specs.Network.{Network};
ghost use Rattle.p4_ir.specs.NetRuns.{NetGo};
ghost use Rattle.runtime_defs.specs.Bound.{IsBound};
ghost use Rattle.runtime_defs.specs.Places.{Places};
ghost use Rattle.command_laws.specs.ExampleDesign.{c_definitions, c_defs, c_design, c_tree};
ghost use Rattle.command_laws.specs.ExampleNet.{c_bundle, c_files, c_net};

use cocoon_types::runs::runs_are_taken;

/// The texts of the example read as these trees. The design keeps all rules, and the definitions fit it.
pub fn example_reads()
    ensures design { Reads c_design c_tree }
    ensures definitions { ReadsDefs c_defs c_definitions }
    ensures rules { WellFormed c_tree }
{}

/// The network of the example is that of its design under the tables of its definitions. These files are its bundle, and
/// they read as this network. It delivers at host 1 what has the tag and at host 2 what has not, and nothing of no bytes.
pub fn example_network()
    ensures lowered { (places : Places) × IsBound c_tree c_definitions places
        × IsNetwork c_tree places c_net }
    ensures written { bundle c_design c_net None ≡ c_bundle }
    ensures network { Network c_files (codes "one") c_net }
    ensures tagged { NetGo c_net 0 (1 ∷ 255 ∷ []) [] 1 1 (1 ∷ 255 ∷ []) }
    ensures untagged { NetGo c_net 3 (2 ∷ []) [] 1 2 (2 ∷ []) }
    ensures too_short { (a : ℕ) (choices : List ℕ) (visits b : ℕ) (out : List ℕ)
        → NetGo c_net a [] choices visits b out → ⊥ }
{}

/// The last level of the design delivers at host 1 what has the tag and at host 2 what has not, and nothing of no bytes.
pub fn example_delivers()
    ensures tagged { LastGo c_tree (defs_of c_tree c_definitions) 0 (1 ∷ 255 ∷ []) [] 1 1
        (1 ∷ 255 ∷ []) }
    ensures untagged { LastGo c_tree (defs_of c_tree c_definitions) 3 (2 ∷ []) [] 1 2 (2 ∷ []) }
    ensures too_short { (a : ℕ) (choices : List ℕ) (visits b : ℕ) (out : List ℕ)
        → LastGo c_tree (defs_of c_tree c_definitions) a [] choices visits b out → ⊥ }
{
    runs_are_taken();
}
