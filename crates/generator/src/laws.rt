//! Laws of counts. The functions do nothing; their contracts are the laws.
ghost use Rattle.std.specs.Prelude.{◌≡◌, ℕ};
ghost use Rattle.cocoon_num.specs.Tree.{Design};
ghost use Rattle.cocoon_types.specs.Tables.{Defs};
ghost use Rattle.lowering.specs.Delivers.{DeliversExactly};
ghost use Rattle.p4_ir.specs.NetTree.{NetData};
ghost use Rattle.generator.specs.Arriving.{Arrives, IsReached};
ghost use Rattle.generator.specs.Counting.{IsCount};

/// Of so many packets a network delivers one number.
pub fn one_count()
    ensures { (net : NetData) (hosts packets m n : ℕ) → IsCount (Arrives net hosts) packets m
        → IsCount (Arrives net hosts) packets n → m ≡ n }
{}

/// A network that delivers exactly what the last level of a design does delivers as many packets.
pub fn as_many_are_reached()
    ensures { (net : NetData) (design : Design) (defs : Defs) → DeliversExactly net design defs
        → (hosts packets count : ℕ) → IsCount (Arrives net hosts) packets count
        → IsCount (IsReached design defs hosts) packets count }
{}
