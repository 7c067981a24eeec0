//! What a network is made of, beside its definitions.
ghost use Rattle.std.specs.Prelude.{◌≡◌, ◌∷◌, [], option_map};
ghost use Rattle.cocoon_syntax.specs.TreeOf.{body_of, design_of, param_of, role_of, switch_of};
ghost use Rattle.lowering.specs.Roles.{net_parts};
ghost use Rattle.lower_net.specs.NetDeclarations.{ingress_of, into_of, parts_of, parts_with_body, role_parts};

use cocoon_resolve::Checked;
use cocoon_syntax::{HostDecl, Param, Role, Stmt, SwitchDecl};

/// The role that the switches run at the last level.
#[derive(Clone, Copy, Drop)]
pub struct Ingress<'d> {
    /// The name of the parameter that is the number of the switch.
    pub switch: &'d [u8],
    /// The name of the parameter that is the port.
    pub port: &'d [u8],
    pub body: &'d [Stmt],
}

/// The declarations of switches and of hosts, and the role that the switches run.
#[derive(Clone, Copy, Drop)]
pub struct Parts<'d> {
    pub switches: &'d SwitchDecl,
    pub hosts: &'d HostDecl,
    pub ingress: Ingress<'d>,
}

/// The names of two parameters, and the body, if there is one.
fn with_body<'d>(
    switch: &'d Param,
    port: &'d Param,
    body: &'d Option<Vec<Stmt>>,
) -> Option<Ingress<'d>>
    ensures { option_map ingress_of result ≡ parts_with_body
        (param_of switch.now ∷ param_of port.now ∷ []) (option_map body_of body.now) }
{
    match body {
        Some(body) => Some(Ingress {
            switch: switch.name.text.bytes(),
            port: port.name.text.bytes(),
            body,
        }),
        None => None,
    }
}

/// The role, if it has two parameters and a body.
fn as_ingress(role: &Role) -> Option<Ingress<'_>>
    ensures { option_map ingress_of result ≡ role_parts (role_of role.now) }
{
    match role.params.as_slice() {
        [switch, port] => with_body(switch, port, &role.body),
        _ => None,
    }
}

/// The ingress role at the last level.
fn find_ingress<'d>(checked: &'d Checked, switches: &SwitchDecl) -> Option<Ingress<'d>>
    ensures { option_map ingress_of result
        ≡ into_of (design_of checked.now) (switch_of switches.now) }
{
    let last = checked.levels() - 1;
    let name = switches.into.text.bytes();
    as_ingress(checked.names().role_at(checked.design(), name, last)?)
}

/// The parts of a design. Every design that keeps the rules has them.
pub fn find_parts(checked: &Checked) -> Option<Parts<'_>>
    ensures { option_map (parts_of (design_of checked.now)) result
        ≡ net_parts (design_of checked.now) }
{
    let switches = checked.names().switch(checked.design())?;
    let hosts = checked.names().host(checked.design())?;
    let ingress = find_ingress(checked, switches)?;
    Some(Parts {
        switches,
        hosts,
        ingress,
    })
}
