//! What runs of bodies are. The functions do nothing; their contracts are the laws.
ghost use Rattle.std.specs.Prelude.{◌++◌, ◌≡◌, List, ℕ};
ghost use Rattle.cocoon_num.specs.Packets.{Packet};
ghost use Rattle.cocoon_num.specs.Tree.{Block};
ghost use Rattle.cocoon_types.specs.Runs.{DoesAll, End, World};
ghost use Rattle.cocoon_types.specs.Taken.{RunsAreTaken};
ghost use Rattle.cocoon_types.specs.Val.{Env};

/// A block's run has one end, and at most one prefix of a list of choices gives any.
pub fn one_end()
    ensures { (w : World) (b : Block) (env : Env) (packet : Packet)
        (cs ds rest more : List ℕ) (x y : End)
        → DoesAll w b env packet cs x → DoesAll w b env packet ds y
        → cs ++ rest ≡ ds ++ more → (x ≡ y) × (rest ≡ more) }
{}

/// The program that takes choices from a list computes the runs, of one body and of several.
pub fn runs_are_taken()
    ensures { RunsAreTaken }
{}
