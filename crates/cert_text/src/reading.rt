//! Certificates as text.
ghost use Rattle.std.specs.Prelude.{◌≡◌, IfErr, IfOk, Ok};
ghost use Rattle.json_forms.specs.Reading.{Answered};
ghost use Rattle.cnf_core.specs.CertsOf.{certs_of};
ghost use Rattle.cert_text.specs.CertsForm.{certs_form};
ghost use Rattle.cert_text.specs.Faults.{IsNoFile};

use crate::fault::CertFault;
use cnf_core::Certs;
use std::alloc::Global;

/// The certificates of these bytes, or why they are no file of certificates.
pub fn from_json(alloc: Global, bytes: &[u8]) -> Result<Certs, CertFault>
    ensures certs { IfOk result (λ certs. Answered certs_form bytes.now (Ok (certs_of certs))) }
    ensures fault { IfErr result (IsNoFile bytes.now) }
{
    Ok(crate::json_reading::from_json(alloc, bytes)?)
}
