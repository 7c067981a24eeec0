//! The wires of the network that the compiler makes of a design.
ghost use Rattle.std.specs.Prelude.{IfOk};
ghost use Rattle.cocoon_num.specs.Tree.{DefsText};
ghost use Rattle.cocoon_syntax.specs.TreeOf.{design_of};
ghost use Rattle.net_wiring.specs.Differences.{SameWires};
ghost use Rattle.p4_ir.specs.NetOf.{net_of};
ghost use Rattle.p4_ir.specs.NetTree as tree;
ghost use Rattle.runtime_defs.specs.Fitting.{FitsDesign};
ghost use Rattle.lower_p4.specs.Lowering.{AreOfText};
ghost use Rattle.lower_p4.specs.Lowers.{Lowers};

use crate::laws::one_lowering;
use cocoon_num::NoMemory;
use cocoon_resolve::Checked;
use p4_ir::NetData;
use runtime_defs::Defs;
use std::alloc::Global;

/// The wires of the network of a design under its definitions, also where its files would be too long. Its switches have empty
/// programs and no rows.
pub fn wires(alloc: Global, checked: &Checked, defs: &Defs) -> Result<NetData, NoMemory>
    requires { FitsDesign (design_of checked.now) defs.now }
    ensures { IfOk result (λ wires. (text : DefsText) (net : tree.NetData)
        → AreOfText (design_of checked.now) text defs.now
        → Lowers (design_of checked.now) text net → SameWires (net_of wires) net) }
{
    one_lowering();
    lower_net::wires(alloc, checked, defs)
}
