//! The reading of a bundle.
ghost use Rattle.std.specs.Prelude.{◌≡◌, ◌≤◌, IfErr, IfOk, IsTrue};
ghost use Rattle.net_bundle.specs.NetForm.{file_fits};
ghost use Rattle.bundle_reader.specs.Alone.{IsOfFile, WiresRead};
ghost use Rattle.bundle_reader.specs.FolderCounts.{NamesFailure, ReadFaultRose};
ghost use Rattle.bundle_reader.specs.Parts.{OfFiles};
ghost use Rattle.bundle_reader.specs.Readings.{ContentFault, ContentReads, IsFirstFault, NetReads};
ghost use Rattle.bundle_reader.specs.Told.{IsTold};
ghost use Rattle.net_run.specs.Nets.{net_in};
ghost use Rattle.net_bundle.specs.NetFileOf.{net_file_of};
ghost use Rattle.p4_ir.specs.NetFits.{wiring_of};
ghost use Rattle.p4_ir.specs.NetOf.{net_of};
ghost use Rattle.p4_ir.specs.Wiring.{wiring_fits};

use crate::fault::ReadFault;
use crate::files::{form_fault, read_file};
use crate::switches::read_switches;
use cocoon_io::Folder;
use cocoon_num::List;
use net_bundle::form_laws::net_form_is_exact;
use net_bundle::net_json::NetFile;
use net_bundle::{BundleFile, read_net};
use net_run::Net;
use net_wiring::bare_switches;
use p4_ir::NetData;
use std::alloc::Global;

/// The file of the network.
fn read_network<F: Folder>(alloc: Global, folder: &mut F, out: &str) -> Result<NetFile, ReadFault>
    ensures fits { IfOk result (λ file. IsTrue (file_fits (net_file_of file))) }
    ensures file { IfOk result (λ file. OfFiles (F.content folder.old)
        (λ files. NetReads files out.now (net_file_of file))) }
    ensures refused { IfErr result (λ fault. OfFiles (F.content folder.old)
        (λ files. IsFirstFault files out.now fault)) }
    ensures about { IfErr result (IsOfFile BundleFile.Network) }
    ensures told { IfErr result IsTold }
    ensures same { F.content folder.new ≡ F.content folder.old }
    ensures failed { IfErr result (ReadFaultRose F.last_read_fault
        (F.read_faults folder.old) (F.read_faults folder.new)) }
    ensures counted { IfOk result (λ _. F.read_faults folder.new ≡ F.read_faults folder.old) }
    ensures named { IfErr result (NamesFailure (F.last_failure folder.new) out.now) }
    ensures reads { F.read_faults folder.old ≤ F.read_faults folder.new }
    ensures writes { F.write_faults folder.new ≡ F.write_faults folder.old }
{
    net_form_is_exact();
    let text = read_file(alloc, folder, out, BundleFile::Network)?;
    match read_net(alloc, &text) {
        Ok(file) => Ok(file),
        Err(fault) => Err(form_fault(BundleFile::Network, fault)),
    }
}

/// Reads the bundle `out` of a folder: the file of the network, then for each switch its program and its rows. The first fault
/// is answered.
pub fn read_bundle<F: Folder>(alloc: Global, folder: &mut F, out: &str) -> Result<Net, ReadFault>
    ensures network { IfOk result (λ net.
        ContentReads (F.content folder.old) out.now (net_in net)) }
    ensures refused { IfErr result (ContentFault (F.content folder.old) out.now) }
    ensures told { IfErr result IsTold }
    ensures same { F.content folder.new ≡ F.content folder.old }
    ensures failed { IfErr result (ReadFaultRose F.last_read_fault
        (F.read_faults folder.old) (F.read_faults folder.new)) }
    ensures counted { IfOk result (λ net. F.read_faults folder.new ≡ F.read_faults folder.old) }
    ensures named { IfErr result (NamesFailure (F.last_failure folder.new) out.now) }
    ensures reads { F.read_faults folder.old ≤ F.read_faults folder.new }
    ensures writes { F.write_faults folder.new ≡ F.write_faults folder.old }
{
    net_form_is_exact();
    let file = read_network(alloc, folder, out)?;
    let switches = read_switches(alloc, folder, out, &file)?;
    let links = List::from(file.links);
    let hosts = List::from(file.hosts);
    Ok(Net::from_loaded(file.ports, switches, links, hosts))
}

/// Reads the file of the network of the bundle `out` alone. The switches that it names have empty programs and no rows.
pub fn read_wiring<F: Folder>(
    alloc: Global,
    folder: &mut F,
    out: &str,
) -> Result<NetData, ReadFault>
    ensures wires { IfOk result (λ net. OfFiles (F.content folder.old)
        (λ files. WiresRead files out.now (net_of net))) }
    ensures fits { IfOk result (λ net. IsTrue (wiring_fits (wiring_of (net_of net)))) }
    ensures refused { IfErr result (ContentFault (F.content folder.old) out.now) }
    ensures about { IfErr result (IsOfFile BundleFile.Network) }
    ensures told { IfErr result IsTold }
    ensures same { F.content folder.new ≡ F.content folder.old }
    ensures failed { IfErr result (ReadFaultRose F.last_read_fault
        (F.read_faults folder.old) (F.read_faults folder.new)) }
    ensures counted { IfOk result (λ net. F.read_faults folder.new ≡ F.read_faults folder.old) }
    ensures named { IfErr result (NamesFailure (F.last_failure folder.new) out.now) }
    ensures reads { F.read_faults folder.old ≤ F.read_faults folder.new }
    ensures writes { F.write_faults folder.new ≡ F.write_faults folder.old }
{
    let file = read_network(alloc, folder, out)?;
    let switches = bare_switches(alloc, &file.switches)?;
    Ok(NetData {
        ports: file.ports,
        switches: List::from(switches),
        links: List::from(file.links),
        hosts: List::from(file.hosts),
    })
}
