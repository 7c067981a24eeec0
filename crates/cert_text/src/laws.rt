//! What certificates say that were written. The functions do nothing; their contracts are the laws.
ghost use Rattle.std.specs.Prelude.{ℕ, List, Ok};
ghost use Rattle.cocoon_num.specs.Tree.{Design};
ghost use Rattle.json_forms.specs.Reading.{Answered};
ghost use Rattle.cnf_core.specs.CertsOf.{certs_of};
ghost use Rattle.cnf_core.specs.declared.certificates.Cert.{Cert};
ghost use Rattle.cnf_core.specs.declared.certificates.Certs.{Certs};
ghost use Rattle.cert_text.specs.CertsForm.{certs_form};
ghost use Rattle.cert_text.specs.Certifying.{Certifies, CertsShow};
ghost use Rattle.cert_text.specs.Rechecking.{Tells};
ghost use Rattle.cert_text.specs.declared.fault.CertFault.TheVariants as fault;

use crate::json_laws::{certs_form_is_exact, written_reads_back};

/// Certificates that show what a design owes are as many as its obligations, and none of them is refused.
pub fn certificates_that_show_are_not_refused()
    ensures refused { (d : Design) (certs : List Cert) → CertsShow d certs
        → (number : ℕ) → Tells d certs (fault.Refused number) → ⊥ }
    ensures counted { (d : Design) (certs : List Cert) → CertsShow d certs
        → (found wanted : ℕ) → Tells d certs (fault.Count found wanted) → ⊥ }
{}

/// What is read of a file whose certificates show what a design owes shows it too, and a file whose certificates are read
/// and show it is such a file.
pub fn files_are_read_as_they_certify()
    ensures read { (d : Design) (bytes : List ℕ) (certs : Certs) → Certifies d bytes
        → Answered certs_form bytes (Ok (certs_of certs)) → CertsShow d certs.certs }
    ensures written { (d : Design) (bytes : List ℕ) (certs : Certs)
        → Answered certs_form bytes (Ok (certs_of certs)) → CertsShow d certs.certs
        → Certifies d bytes }
{
    certs_form_is_exact();
    written_reads_back();
}
