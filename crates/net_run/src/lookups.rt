//! Networks are made, and their switches, hosts and links are looked up by halving.
ghost use Rattle.std.specs.Prelude.{◌≡◌, IfErr, IfOk, IsTrue, None, option_map};
ghost use Rattle.cocoon_num.specs.Lists.{each, has_number};
ghost use Rattle.net_run.specs.LoadFaults.{first_load_fault, TellsFirst};
ghost use Rattle.net_run.specs.Nets.{net_in};
ghost use Rattle.net_run.specs.Runs.{runs_in, runs_of};
ghost use Rattle.net_run.specs.Switches.{net_with};
ghost use Rattle.p4_ir.specs.NetFits.{wiring_of};
ghost use Rattle.p4_ir.specs.NetOf.{end_of, net_of};
ghost use Rattle.p4_ir.specs.NetRuns as runs;
ghost use Rattle.p4_ir.specs.NetTree as tree;
ghost use Rattle.p4_ir.specs.WellKinded.{is_well_kinded};
ghost use Rattle.p4_ir.specs.Wiring.{host_numbers, wiring_fits};

use crate::finding::{host_at, link_at, switch_at};
use crate::loading::{NetFault, load_all};
use crate::net::Net;
use crate::switch::LoadedSwitch;
use cocoon_num::List;
use p4_ir::{HostPort, Link, LinkEnd, NetData};
use p4_run::Loaded;
use std::alloc::Global;

impl Net {
    /// Loads the rows of all switches. A fault is that of the first switch whose rows do not load.
    pub fn new(alloc: Global, parts: NetData) -> Result<Net, NetFault>
        requires wired { IsTrue (wiring_fits (wiring_of (net_of parts))) }
        requires kinds { IsTrue (each (λ (f : tree.SwitchFiles). is_well_kinded f.program)
            (net_of parts).switches) }
        ensures parts { IfOk result (λ net. net_in net ≡ net_of parts) }
        ensures loads { IfOk result (λ net. first_load_fault (net_of parts).switches ≡ None) }
        ensures fault { IfErr result (λ fault.
            TellsFirst fault (first_load_fault (net_of parts).switches)) }
    {
        let switches = load_all(alloc, parts.switches.items())?;
        Ok(Net {
            ports: parts.ports,
            switches,
            links: parts.links,
            hosts: parts.hosts,
        })
    }

    /// A network of switches that were loaded one by one.
    pub fn from_loaded(
        ports: u16,
        switches: Vec<LoadedSwitch>,
        links: List<Link>,
        hosts: List<HostPort>,
    ) -> Net
        requires { IsTrue (wiring_fits (wiring_of (net_with ports switches.items links hosts))) }
        ensures { net_in result ≡ net_with ports switches.items links hosts }
    {
        Net {
            ports,
            switches,
            links,
            hosts,
        }
    }

    /// How many ports each switch has, from 0.
    pub fn ports(&self) -> u16
        ensures { result ≡ (net_in self.now).ports }
    {
        self.ports
    }

    /// The switch of this number, loaded.
    pub fn loaded(&self, switch: u16) -> Option<&Loaded>
        ensures { ∥ option_map (λ l. runs_in l.now) result
            ≡ option_map runs_of (runs.switch_at (net_in self.now).switches switch) ∥₁ }
    {
        match switch_at(&self.switches, switch) {
            Some(known) => Some(&known.loaded),
            None => None,
        }
    }

    /// Whether there is a host of this number.
    pub fn has_host(&self, host: u64) -> bool
        ensures { result ≡ has_number host (host_numbers (net_in self.now).hosts) }
    {
        host_at(self.hosts.items(), host).is_some()
    }

    /// The switch and the port to which a host is attached.
    pub fn attachment(&self, host: u64) -> Option<(u16, u16)>
        ensures { result ≡ runs.attach_at (net_in self.now).hosts host }
    {
        match host_at(self.hosts.items(), host) {
            Some(known) => known.attach,
            None => None,
        }
    }

    /// Where what leaves at a port of a switch arrives.
    pub fn link(&self, switch: u16, port: u16) -> Option<LinkEnd>
        ensures { option_map end_of result
            ≡ runs.link_at (net_in self.now).links switch port }
    {
        match link_at(self.links.items(), switch, port) {
            Some(known) => Some(known.to),
            None => None,
        }
    }
}
