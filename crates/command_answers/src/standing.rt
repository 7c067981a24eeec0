//! The bundle that stands under the name of an `update`: its certificates, checked against what the design
//! owes, and the wires of its network. No search is made.
ghost use Rattle.std.specs.Prelude.{◌≡◌, IfErr, IfOk, map, Ok, OnOk};
ghost use Rattle.std.specs.List.{AllZip};
ghost use Rattle.cert_text.specs.CertsForm.{certs_form};
ghost use Rattle.cert_text.specs.Certifying.{CertsShow};
ghost use Rattle.cert_text.specs.Faults.{IsNoFile};
ghost use Rattle.cert_text.specs.Rechecking.{IsAccepted, Tells};
ghost use Rattle.cert_text.specs.declared.fault.CertFault.{CertFault as Fault};
ghost use Rattle.cnf_core.specs.CertsOf.{cert_of};
ghost use Rattle.cocoon_syntax.specs.TreeOf.{design_of};
ghost use Rattle.json_forms.specs.Reading.{Answered};
ghost use Rattle.obligation_gen.specs.Counted.{AreFew, all_counts};
ghost use Rattle.obligation_laws.specs.Obligations.{all_obligations};
ghost use Rattle.p4_ir.specs.NetOf.{net_of};
ghost use Rattle.refinement.specs.Owed.{Refines};
ghost use Rattle.bundle_reader.specs.declared.fault.ReadFault.{ReadFault};
ghost use Rattle.command_reports.specs.Refusals.{unread_as};
ghost use Rattle.command_answers.specs.FolderCalls.{count, CalledUnder, IsQuiet};
ghost use Rattle.command_answers.specs.Standing.{GivesWires, LacksWires};
ghost use Rattle.command_answers.specs.Updating.{Accepts, HasStanding, HoldsCertificates, HoldsNoCertificates, NotAccepts, NotStanding, certificates_refusal};

use bundle_reader::{read_certificates, read_wiring};
use cert_text::laws::files_are_read_as_they_certify;
use cert_text::{CertFault, Certs, from_json, recheck};
use cocoon_io::Folder;
use cocoon_num::LimitName;
use cocoon_resolve::Checked;
use command_reports::{BundleCause, Refusal, unread};
use net_bundle::BundleFile;
use p4_ir::NetData;
use std::alloc::Global;

/// What is told of certificates that are not accepted.
fn certificates_refusal(fault: CertFault) -> Refusal
    ensures refusal { result ≡ certificates_refusal fault }
    ensures quiet { IsQuiet result }
{
    let file = BundleFile::Certificates;
    match fault {
        CertFault::NotJson => Refusal::Unread(file, BundleCause::NotJson),
        CertFault::Shape(pointer) => Refusal::Unread(file, BundleCause::Shape(pointer)),
        CertFault::Refused(number) => Refusal::Unread(file, BundleCause::Refused(number)),
        CertFault::Count(found, wanted) => {
            Refusal::Unread(file, BundleCause::Count(found, wanted))
        }
        CertFault::Paths(leaves) => Refusal::OverLimit(LimitName::Leaves, leaves),
        CertFault::Big(clauses) => Refusal::OverLimit(LimitName::Clauses, clauses),
        CertFault::NoMemory => Refusal::NoMemory,
    }
}

/// The certificates of a file.
fn certificates_in(alloc: Global, bytes: &[u8]) -> Result<Certs, Refusal>
    ensures read { IfOk result (λ certs.
        Answered certs_form bytes.now (Ok (map cert_of certs.certs))) }
    ensures refused { IfErr result (λ r. (fault : Fault) × IsNoFile bytes.now fault
        × (r ≡ certificates_refusal fault)) }
    ensures quiet { IfErr result IsQuiet }
{
    match from_json(alloc, bytes) {
        Ok(certs) => Ok(certs),
        Err(fault) => Err(certificates_refusal(fault)),
    }
}

/// Accepts certificates, if they show what a design owes.
fn check(alloc: Global, checked: &Checked, certs: &Certs) -> Result<(), Refusal>
    ensures few { OnOk result (AreFew (all_counts (design_of checked.now))) }
    ensures accepted { OnOk result (AllZip (IsAccepted (design_of checked.now))
        (all_obligations (design_of checked.now)) certs.now.certs) }
    ensures show { OnOk result (CertsShow (design_of checked.now) certs.now.certs) }
    ensures refines { OnOk result (Refines (design_of checked.now)) }
    ensures refused { IfErr result (λ r. (fault : Fault)
        × Tells (design_of checked.now) certs.now.certs fault × (r ≡ certificates_refusal fault)) }
    ensures quiet { IfErr result IsQuiet }
{
    match recheck(alloc, checked, certs) {
        Ok(()) => Ok(()),
        Err(fault) => Err(certificates_refusal(fault)),
    }
}

/// How many certificates a file has, if they show what a design owes.
fn accept(alloc: Global, checked: &Checked, bytes: &[u8]) -> Result<u64, Refusal>
    ensures accepts { IfOk result (Accepts (design_of checked.now) bytes.now) }
    ensures refused { IfErr result (NotAccepts (design_of checked.now) bytes.now) }
    ensures quiet { IfErr result IsQuiet }
{
    files_are_read_as_they_certify();
    let certs = certificates_in(alloc, bytes)?;
    check(alloc, checked, &certs)?;
    Ok(certs.certs.items().len() as u64)
}

/// The bytes of the certificates of the bundle `out`.
fn read_bytes<F: Folder>(alloc: Global, folder: &mut F, out: &str) -> Result<Vec<u8>, Refusal>
    ensures held { IfOk result (λ bytes.
        HoldsCertificates (F.content folder.old) out.now bytes.items) }
    ensures refused { IfErr result (HoldsNoCertificates (F.content folder.old) out.now) }
    ensures same { F.content folder.new ≡ F.content folder.old }
    ensures called { CalledUnder (F.last_failure folder.new) out.now
        (count F.last_read_fault (F.read_faults folder.old) (F.read_faults folder.new))
        (count F.last_write_fault (F.write_faults folder.old) (F.write_faults folder.new))
        result }
{
    match read_certificates(alloc, folder, out) {
        Ok(bytes) => Ok(bytes),
        Err(fault) => Err(unread(fault)),
    }
}

/// The wires of the network of the bundle `out`.
fn read_wires<F: Folder>(alloc: Global, folder: &mut F, out: &str) -> Result<NetData, Refusal>
    ensures given { IfOk result (λ wires.
        GivesWires (F.content folder.old) out.now (net_of wires)) }
    ensures refused { IfErr result (λ r. (fault : ReadFault)
        × LacksWires (F.content folder.old) out.now fault × (r ≡ unread_as fault)) }
    ensures same { F.content folder.new ≡ F.content folder.old }
    ensures called { CalledUnder (F.last_failure folder.new) out.now
        (count F.last_read_fault (F.read_faults folder.old) (F.read_faults folder.new))
        (count F.last_write_fault (F.write_faults folder.old) (F.write_faults folder.new))
        result }
{
    match read_wiring(alloc, folder, out) {
        Ok(wires) => Ok(wires),
        Err(fault) => Err(unread(fault)),
    }
}

/// What stands under a name.
#[derive(Drop)]
pub struct Standing {
    /// How many certificates there are: one for each obligation of the design.
    pub obligations: u64,
    /// The wires of the network. Its switches have empty programs and no rows.
    pub wires: NetData,
}

/// What stands under the name `out`, if its certificates show what the design owes. They are read and checked
/// first, and then the wires are read.
pub fn read_standing<F: Folder>(
    alloc: Global,
    folder: &mut F,
    out: &str,
    checked: &Checked,
) -> Result<Standing, Refusal>
    ensures stands { IfOk result (λ standing. HasStanding (F.content folder.old) out.now
        (design_of checked.now) standing.obligations (net_of standing.wires)) }
    ensures refused { IfErr result
        (NotStanding (F.content folder.old) out.now (design_of checked.now)) }
    ensures same { F.content folder.new ≡ F.content folder.old }
    ensures called { CalledUnder (F.last_failure folder.new) out.now
        (count F.last_read_fault (F.read_faults folder.old) (F.read_faults folder.new))
        (count F.last_write_fault (F.write_faults folder.old) (F.write_faults folder.new))
        result }
{
    let bytes = read_bytes(alloc, folder, out)?;
    let obligations = accept(alloc, checked, &bytes)?;
    let wires = read_wires(alloc, folder, out)?;
    Ok(Standing { obligations, wires })
}
