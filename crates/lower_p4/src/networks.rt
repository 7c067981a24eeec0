//! The network that the compiler makes of a design.
ghost use Rattle.std.specs.Prelude.{◌≡◌, ◌<◌, ◌^◌, All, IfErr, IfOk, length, nat_lt, OnOk, Some};
ghost use Rattle.cocoon_num.specs.Tree.{DefsText};
ghost use Rattle.cocoon_syntax.specs.TreeOf.{design_of};
ghost use Rattle.runtime_defs.specs.Fitting.{FitsDesign};
ghost use Rattle.lowering_correct.specs.Network.{IsNetwork};
ghost use Rattle.lower_net.specs.Refused.{FirstSwitch};
ghost use Rattle.lower_p4.specs.Grounds.{FirstFits, HoldsFields};
ghost use Rattle.lower_p4.specs.LowerLimits.{IsWithin};
ghost use Rattle.lower_p4.specs.Lowering.{AreOfText, HasNoNetwork, IsLowering, NotLowered, StartsShort};
ghost use Rattle.lower_p4.specs.Lowers.{Lowers, RunsProgram};
ghost use Rattle.p4_emit.specs.Printed.{printed};
ghost use Rattle.p4_ir.specs.FileSizes.{most_file_bytes};
ghost use Rattle.p4_ir.specs.P4Tree as tree;
ghost use Rattle.p4_ir.specs.Program.{program_of};
ghost use Rattle.shared_net.specs.Shared.{shared_of};

use crate::laws::{
    first_programs_are_kinded, first_texts_are_long, large_programs_are_long,
    networks_are_writable, networks_deliver, switches_run_programs,
};
use cocoon_num::NoMemory;
use cocoon_resolve::Checked;
use lower_net::{LowerFault, first_switch, program};
use p4_emit::emit;
use p4_ir::{MOST_FILE_BYTES, Program};
use runtime_defs::Defs;
use shared_net::SharedNet;
use sound_types::laws::code_literals_fit;
use std::alloc::Global;

/// Ports are numbers of 16 bits.
fn know_ports(net: &SharedNet)
    ensures { (shared_of net.now).ports < 2 ^ 16 }
{
    let _ports = net.ports;
}

/// The meta fields of a program are held in memory.
fn know_meta(program: &Program)
    ensures { length (program_of program.now).meta < 2 ^ 63 }
{
    let _count = program.meta.items().len();
}

/// Those of each switch are, too, since all switches have one program.
fn know_sizes(net: &SharedNet)
    ensures { All HoldsFields (shared_of net.now).switches }
{
    know_meta(&net.switches.program);
}

/// Whether the text of the program of the first switch is longer than its file may be.
fn has_long_text(
    alloc: Global,
    checked: &Checked,
    defs: &Defs,
    switch: u16,
) -> Result<bool, NoMemory>
    requires fits { FitsDesign (design_of checked.now) defs.now }
    requires first { FirstSwitch (design_of checked.now) defs.now (Some switch) }
    ensures { (p : tree.Program) → RunsProgram (design_of checked.now) switch p
        → IfOk result (λ long. long ≡ nat_lt most_file_bytes (length (printed p))) }
{
    first_programs_are_kinded();
    code_literals_fit();
    checked.design();
    checked.know_reading();
    let program = program(alloc, checked, defs, switch)?;
    know_meta(&program);
    let text = emit(alloc, &program)?;
    Ok(text.len() as u64 > MOST_FILE_BYTES)
}

/// Why there is no network, where a limit is exceeded or the text of the program of the first switch is longer than its file may be.
/// No other program is made.
fn judge(alloc: Global, checked: &Checked, defs: &Defs) -> Result<(), LowerFault>
    requires { FitsDesign (design_of checked.now) defs.now }
    ensures fits { OnOk result (FirstFits (design_of checked.now) defs.now) }
    ensures over { IfErr result (λ fault. HasNoNetwork (design_of checked.now) defs.now fault) }
{
    large_programs_are_long();
    first_texts_are_long();
    let Some(switch) = first_switch(alloc, checked, defs)? else {
        return Ok(());
    };
    if has_long_text(alloc, checked, defs, switch)? {
        return Err(LowerFault::LongProgram(switch));
    }
    Ok(())
}

/// The network of a design under its definitions, if they are within the limits: at its last level, whatever levels and
/// assumptions it has.
pub fn lower(alloc: Global, checked: &Checked, defs: &Defs) -> Result<SharedNet, LowerFault>
    requires { FitsDesign (design_of checked.now) defs.now }

    // what the network is to the design
    ensures lowering { IfOk result (λ net. (text : DefsText)
        → AreOfText (design_of checked.now) text defs.now
        → IsLowering (design_of checked.now) text (shared_of net)) }

    // and which one it is
    ensures lowers { IfOk result (λ net. (text : DefsText)
        → AreOfText (design_of checked.now) text defs.now
        → Lowers (design_of checked.now) text (shared_of net)) }
    ensures within { IfOk result (λ net. (text : DefsText)
        → AreOfText (design_of checked.now) text defs.now
        → IsWithin (design_of checked.now) text) }
    ensures refused { IfErr result (λ fault. (text : DefsText)
        → AreOfText (design_of checked.now) text defs.now
        → NotLowered (design_of checked.now) text fault) }

    // of tables alone, also of such as no text has
    ensures network { IfOk result (λ net. IsNetwork
        (design_of checked.now) defs.now (shared_of net)) }
    ensures short { IfOk result (λ net. StartsShort (shared_of net).switches) }
    ensures over { IfErr result (λ fault. HasNoNetwork (design_of checked.now) defs.now fault) }
{
    networks_deliver();
    switches_run_programs();
    networks_are_writable();
    code_literals_fit();
    checked.design();
    checked.know_reading();
    large_programs_are_long();
    judge(alloc, checked, defs)?;
    let net = lower_net::lower(alloc, checked, defs)?;
    know_ports(&net);
    know_sizes(&net);
    Ok(net)
}
