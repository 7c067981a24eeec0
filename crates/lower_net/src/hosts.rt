//! Where hosts are attached.
ghost use Rattle.std.specs.Prelude.{◌≡◌, IfOk, map};
ghost use Rattle.cocoon_syntax.specs.TreeOf.{design_of, host_of, switch_of};
ghost use Rattle.lowering_correct.specs.Wires as spec;
ghost use Rattle.p4_ir.specs.NetOf.{host_port_of};
ghost use Rattle.runtime_defs.specs.Fitting.{FitsDesign};

use crate::ends::as_port;
use crate::led::led;
use cocoon_num::NoMemory;
use cocoon_resolve::Checked;
use cocoon_syntax::{HostDecl, SwitchDecl};
use p4_ir::HostPort;
use runtime_defs::Defs;
use std::alloc::Global;

fn host_port(
    alloc: Global,
    checked: &Checked,
    defs: &Defs,
    switches: &SwitchDecl,
    hosts: &HostDecl,
    host: u64,
) -> Result<HostPort, NoMemory>
    requires { FitsDesign (design_of checked.now) defs.now }
    ensures { IfOk result (λ at. host_port_of at ≡ spec.host_port (design_of checked.now) defs.now
        (switch_of switches.now) (host_of hosts.now) host) }
{
    let values = vec![in alloc; host]?;
    let to = led(alloc, checked, defs, hosts.entry.text.bytes(), values)?;
    let attach = as_port(checked, switches, to)?;
    Ok(HostPort { host, attach })
}

/// Each host, with the switch and the port to which the entry role leads its packets.
pub(crate) fn host_ports(
    alloc: Global,
    checked: &Checked,
    defs: &Defs,
    switches: &SwitchDecl,
    hosts: &HostDecl,
    numbers: &[u64],
) -> Result<Vec<HostPort>, NoMemory>
    requires { FitsDesign (design_of checked.now) defs.now }
    ensures { IfOk result (λ ports. map host_port_of ports.items
        ≡ map (spec.host_port (design_of checked.now) defs.now (switch_of switches.now)
        (host_of hosts.now)) numbers.now) }
{
    let mut ports = Vec::new(alloc);
    for host in numbers {
        ports.push(host_port(alloc, checked, defs, switches, hosts, *host)?)?;
    }
    Ok(ports)
}
