//! The packet with which wires are run.
ghost use Rattle.std.specs.Prelude.{◌≡◌, IfOk, map};
ghost use Rattle.cocoon_num.specs.PacketForms.{FieldsFit};
ghost use Rattle.cocoon_resolve.specs.Readers.{field_widths};
ghost use Rattle.cocoon_syntax.specs.TreeOf.{design_of};
ghost use Rattle.cocoon_types.specs.Design.{layout};
ghost use Rattle.lower_net.specs.Idle.{zeros};
ghost use Rattle.lowering_correct.specs.Wires as spec;
ghost use Rattle.role_meaning.specs.Located.{sent_of};

use cocoon_num::{List, NoMemory};
use cocoon_resolve::Checked;
use role_meaning::Packet;
use std::alloc::Global;

/// As many zeros as there are widths.
fn zeros(alloc: Global, widths: &[u8]) -> Result<Vec<u64>, NoMemory>
    ensures { IfOk result (λ ns. ns.items ≡ zeros widths.now) }
{
    let mut numbers = Vec::new(alloc);
    for _ in widths {
        numbers.push(0)?;
    }
    Ok(numbers)
}

/// A packet whose fields are all 0.
#[tactic(auto, using(crate::proofs::Still::zeros_fit, crate::proofs::Still::still))]
pub(crate) fn idle(alloc: Global, checked: &Checked) -> Result<Packet, NoMemory>
    ensures fits { IfOk result (λ packet.
        FieldsFit (field_widths (design_of checked.now)) packet.fields) }
    ensures is { IfOk result (λ packet. sent_of (design_of checked.now) packet
        ≡ spec.idle (layout (design_of checked.now))) }
{
    let fields = List::from(zeros(alloc, checked.field_widths())?);
    Ok(Packet { fields })
}
