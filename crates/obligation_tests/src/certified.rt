//! Certificates by search.
ghost use Rattle.cocoon_syntax.specs.TreeOf.{design_of};
ghost use Rattle.obligation_gen.specs.Shown.{ShowsObligations};
ghost use Rattle.obligation_laws.specs.Obligations as laws;

use crate::texts::checked_design;
use bv_terms::Terms;
use case_files::Printer;
use cert_text::to_json;
use cnf_core::Certs;
use cocoon_num::{List, NoMemory};
use cocoon_resolve::Checked;
use discharge::Budget;
use obligation_gen::{Obligation, all_obligations};
use std::alloc::Global;
use verdicts::{Verdict, decide};

/// Enough conflicts for each search.
const CONFLICTS: u64 = 1 << 24;

/// As many rounds as the program has for each obligation if it is not told.
const ROUNDS: u32 = 64;

/// What is kept of verdicts on obligations.
#[derive(Drop)]
enum Kept {
    /// Each says that its obligation holds: the certificates, in the same order.
    Certs(Certs),
    /// The index of the first that says something else.
    Other(usize),
}

/// What is kept of the verdicts on obligations, in order.
fn decided(
    alloc: Global,
    checked: &Checked,
    terms: &Terms,
    obligations: &[Obligation],
) -> Result<Kept, NoMemory>
    requires { ShowsObligations (design_of checked.now) terms.now obligations.now
        (laws.all_obligations (design_of checked.now)) }
{
    let budget = Budget {
        conflicts: CONFLICTS,
        rounds: ROUNDS,
    };
    let mut certs = Vec::new(alloc);
    for number in 0..obligations.len() {
        let obligation = &obligations[number];
        match decide(alloc, checked, terms, obligation, &budget)? {
            Verdict::Holds(cert) => certs.push(cert)?,
            _ => return Ok(Kept::Other(number)),
        }
    }
    Ok(Kept::Certs(Certs {
        certs: List::from(certs),
    }))
}

/// Puts the text of what is kept.
fn put_kept(alloc: Global, kept: &Kept, given: &mut Printer) {
    match kept {
        Kept::Certs(certs) => match to_json(alloc, certs) {
            Ok(text) => given.put_bytes(&text),
            Err(NoMemory) => given.lose(),
        },
        Kept::Other(number) => {
            given.put("not shown ");
            given.put_number(*number as u64);
        }
    }
}

/// Puts the certificates of a design, each by a search in rounds.
fn put_certs_of(alloc: Global, checked: &Checked, given: &mut Printer) {
    let mut terms = Terms::new(alloc);
    let Ok(obligations) = all_obligations(alloc, checked, &mut terms) else {
        return given.put("no obligations");
    };
    match decided(alloc, checked, &terms, &obligations) {
        Ok(kept) => put_kept(alloc, &kept, given),
        Err(NoMemory) => given.lose(),
    }
}

/// Puts the certificates of the design of a text, or the number of the first obligation that is not shown.
pub fn put_certified(alloc: Global, design: &[u8], given: &mut Printer) {
    match checked_design(alloc, design) {
        Some(checked) => put_certs_of(alloc, &checked, given),
        None => given.put("no design"),
    }
}
