//! The certificates of a design, checked one after another.
ghost use Rattle.std.specs.Prelude.{◌≡◌, ◌<◌, All, IfErr, length, OnOk};
ghost use Rattle.std.specs.List.{AllZip};
ghost use Rattle.cocoon_syntax.specs.TreeOf.{design_of};
ghost use Rattle.refinement.specs.Owed.{Refines};
ghost use Rattle.obligation_laws.specs.Failing.{NeverFails};
ghost use Rattle.obligation_laws.specs.Obligations as laws;
ghost use Rattle.obligation_gen.specs.Counted.{AreFew, all_counts};
ghost use Rattle.obligation_gen.specs.Shown.{ShowsObligations};
ghost use Rattle.cert_text.specs.Certifying.{CertsShow};
ghost use Rattle.cert_text.specs.Rechecking.{AtNumber, Decides, FirstIs, IsAccepted, Tells, reported};

use crate::fault::CertFault;
use bv_terms::Terms;
use cnf_core::{Cert, Certs};
use cocoon_resolve::Checked;
use obligation_gen::{Obligation, all_obligations};
use obligation_laws::laws::blocks_that_never_fail_are_refined;
use queries::recheck_one;
use sound_types::laws::code_literals_fit;
use std::alloc::Global;

/// The number that tells a count.
fn report(count: usize) -> u32
    ensures { result ≡ reported count }
{
    if count < u32::MAX as usize {
        count as u32
    } else {
        u32::MAX
    }
}

/// Accepts the certificate of this number, if it shows its obligation.
fn accept(
    alloc: Global,
    checked: &Checked,
    terms: &Terms,
    obligations: &[Obligation],
    certs: &[Cert],
    number: usize,
) -> Result<(), CertFault>
    requires owed { ShowsObligations (design_of checked.now) terms.now obligations.now
        (laws.all_obligations (design_of checked.now)) }
    requires there { (number < length obligations.now) × (number < length certs.now) }
    ensures accepted { OnOk result (AtNumber (design_of checked.now) certs.now number
        (λ o cert. IsAccepted (design_of checked.now) o cert
        × NeverFails (design_of checked.now) o)) }
    ensures fault { IfErr result (λ fault. AtNumber (design_of checked.now) certs.now number
        (λ o cert. Decides (design_of checked.now) number o cert fault)) }
{
    let obligation = &obligations[number];
    let cert = &certs[number];
    let shows = recheck_one(alloc, checked, terms, obligation, cert)?;
    if shows {
        Ok(())
    } else {
        Err(CertFault::Refused(report(number)))
    }
}

/// Accepts as many certificates as there are obligations, one after another, if each shows its own.
fn accept_each(
    alloc: Global,
    checked: &Checked,
    terms: &Terms,
    obligations: &[Obligation],
    certs: &[Cert],
) -> Result<(), CertFault>
    requires owed { ShowsObligations (design_of checked.now) terms.now obligations.now
        (laws.all_obligations (design_of checked.now)) }
    requires as_many { length certs.now ≡ length obligations.now }
    ensures accepted { OnOk result (AllZip (IsAccepted (design_of checked.now))
        (laws.all_obligations (design_of checked.now)) certs.now) }
    ensures holds { OnOk result (All (NeverFails (design_of checked.now))
        (laws.all_obligations (design_of checked.now))) }
    ensures fault { IfErr result (λ fault. FirstIs (design_of checked.now) certs.now
        (λ number o cert. Decides (design_of checked.now) number o cert fault)) }
{
    for number in 0..certs.len() {
        accept(alloc, checked, terms, obligations, certs, number)?;
    }
    Ok(())
}

/// Accepts certificates, if they are as many as the obligations and each shows its own.
fn accept_all(
    alloc: Global,
    checked: &Checked,
    terms: &Terms,
    obligations: &[Obligation],
    certs: &[Cert],
) -> Result<(), CertFault>
    requires owed { ShowsObligations (design_of checked.now) terms.now obligations.now
        (laws.all_obligations (design_of checked.now)) }
    requires few { AreFew (all_counts (design_of checked.now)) }
    ensures accepted { OnOk result (AllZip (IsAccepted (design_of checked.now))
        (laws.all_obligations (design_of checked.now)) certs.now) }
    ensures holds { OnOk result (All (NeverFails (design_of checked.now))
        (laws.all_obligations (design_of checked.now))) }
    ensures fault { IfErr result (Tells (design_of checked.now) certs.now) }
{
    if certs.len() != obligations.len() {
        let found = report(certs.len());
        return Err(CertFault::Count(found, report(obligations.len())));
    }
    accept_each(alloc, checked, terms, obligations, certs)
}

/// Whether the certificates show all that the design owes: they are as many as its obligations, and
/// each one shows its own. The trees of the design are counted first, then the certificates, and
/// then each is checked in order. For one certificate the time is in proportion to its query and
/// its log, whatever the others are.
pub fn recheck(alloc: Global, checked: &Checked, certs: &Certs) -> Result<(), CertFault>
    ensures few { OnOk result (AreFew (all_counts (design_of checked.now))) }
    ensures accepted { OnOk result (AllZip (IsAccepted (design_of checked.now))
        (laws.all_obligations (design_of checked.now)) certs.now.certs) }
    ensures show { OnOk result (CertsShow (design_of checked.now) certs.now.certs) }
    ensures holds { OnOk result (All (NeverFails (design_of checked.now))
        (laws.all_obligations (design_of checked.now))) }
    ensures refines { OnOk result (Refines (design_of checked.now)) }
    ensures fault { IfErr result (Tells (design_of checked.now) certs.now.certs) }
{
    blocks_that_never_fail_are_refined();
    code_literals_fit();
    let _design = checked.design();
    let mut terms = Terms::new(alloc);
    let obligations = all_obligations(alloc, checked, &mut terms)?;
    accept_all(alloc, checked, &terms, &obligations, certs.certs.items())
}
