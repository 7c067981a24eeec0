//! What a location of a wire's end stands for.
ghost use Rattle.std.specs.Prelude.{◌≡◌, IfOk, IfSome, option_and_then, option_map};
ghost use Rattle.cocoon_num.specs.Names.{same_name};
ghost use Rattle.cocoon_resolve.specs.Readers.{HasRole};
ghost use Rattle.cocoon_syntax.specs.TreeOf.{design_of, host_of, switch_of};
ghost use Rattle.cocoon_types.specs.Design.{last_level};
ghost use Rattle.lowering_correct.specs.Wires as spec;
ghost use Rattle.p4_ir.specs.NetOf.{end_of};
ghost use Rattle.p4_ir.specs.NetTree.{to_host, to_switch};
ghost use Rattle.role_meaning.specs.Located.{loc_of, role_name};

use cocoon_num::NoMemory;
use cocoon_resolve::Checked;
use cocoon_syntax::{HostDecl, SwitchDecl};
use declarations::RoleId;
use p4_ir::LinkEnd;
use role_meaning::Loc;

/// A number of 16 bits. There is no memory where it has more, which no value of a port or switch has.
fn short(number: u64) -> Result<u16, NoMemory>
    ensures { IfOk result (λ n. n ≡ number) }
{
    u16::try_from(number).map_err(|_| NoMemory)
}

/// Two values.
fn two_numbers(values: &[u64]) -> Result<Option<(u16, u16)>, NoMemory>
    ensures { IfOk result (λ ns. ns ≡ spec.two_numbers values.now) }
{
    match values {
        [switch, port] => {
            let switch = short(*switch)?;
            Ok(Some((switch, short(*port)?)))
        }
        _ => Ok(None),
    }
}

/// One value.
fn one_number(values: &[u64]) -> Option<u64>
    ensures { result ≡ spec.one_number values.now }
{
    match values {
        [number] => Some(*number),
        _ => None,
    }
}

/// Whether the role of this number has this name.
fn is_role(checked: &Checked, role: RoleId, name: &[u8]) -> bool
    requires { HasRole (design_of checked.now) role (last_level (design_of checked.now)) }
    ensures { result ≡ same_name (role_name (design_of checked.now) role) name.now }
{
    match checked.role_of(name) {
        Some(number) => number == role,
        None => false,
    }
}

/// The switch and the port of a location of the ingress role.
fn port_at(
    checked: &Checked,
    switches: &SwitchDecl,
    to: &Loc,
) -> Result<Option<(u16, u16)>, NoMemory>
    requires { HasRole (design_of checked.now) to.now.role (last_level (design_of checked.now)) }
    ensures { IfOk result (λ at. at
        ≡ spec.as_port (switch_of switches.now) (loc_of (design_of checked.now) to.now)) }
{
    if is_role(checked, to.role, switches.into.text.bytes()) {
        two_numbers(to.values.items())
    } else {
        Ok(None)
    }
}

/// The same, where there is a location.
pub(crate) fn as_port(
    checked: &Checked,
    switches: &SwitchDecl,
    to: Option<Loc>,
) -> Result<Option<(u16, u16)>, NoMemory>
    requires { IfSome to (λ l.
        HasRole (design_of checked.now) l.role (last_level (design_of checked.now))) }
    ensures { IfOk result (λ at. at ≡ option_and_then (spec.as_port (switch_of switches.now))
        (option_map (loc_of (design_of checked.now)) to)) }
{
    match to {
        Some(to) => port_at(checked, switches, &to),
        None => Ok(None),
    }
}

/// A port of a switch as the end of a link.
fn switch_end(at: Option<(u16, u16)>) -> Option<LinkEnd>
    ensures { option_map end_of result ≡ option_map (λ x. to_switch x.0 x.1) at }
{
    let (switch, port) = at?;
    Some(LinkEnd::Switch(switch, port))
}

/// A host as the end of a link.
fn host_end(host: Option<u64>) -> Option<LinkEnd>
    ensures { option_map end_of result ≡ option_map to_host host }
{
    Some(LinkEnd::Host(host?))
}

/// The port or the host of a location.
fn end_at(
    checked: &Checked,
    switches: &SwitchDecl,
    hosts: &HostDecl,
    to: &Loc,
) -> Result<Option<LinkEnd>, NoMemory>
    requires { HasRole (design_of checked.now) to.now.role (last_level (design_of checked.now)) }
    ensures { IfOk result (λ end. option_map end_of end
        ≡ spec.as_end (switch_of switches.now) (host_of hosts.now)
        (loc_of (design_of checked.now) to.now)) }
{
    if is_role(checked, to.role, switches.into.text.bytes()) {
        Ok(switch_end(two_numbers(to.values.items())?))
    } else if is_role(checked, to.role, hosts.sink.text.bytes()) {
        Ok(host_end(one_number(to.values.items())))
    } else {
        Ok(None)
    }
}

/// The same, where there is a location.
pub(crate) fn as_end(
    checked: &Checked,
    switches: &SwitchDecl,
    hosts: &HostDecl,
    to: Option<Loc>,
) -> Result<Option<LinkEnd>, NoMemory>
    requires { IfSome to (λ l.
        HasRole (design_of checked.now) l.role (last_level (design_of checked.now))) }
    ensures { IfOk result (λ end. option_map end_of end
        ≡ option_and_then (spec.as_end (switch_of switches.now) (host_of hosts.now))
        (option_map (loc_of (design_of checked.now)) to)) }
{
    match to {
        Some(to) => end_at(checked, switches, hosts, &to),
        None => Ok(None),
    }
}
