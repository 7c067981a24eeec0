//! Whether a certificate shows a formula of an obligation to be never true.
ghost use Rattle.std.specs.Prelude.{◌≡◌, ◌≤◌, ◌<◌, ◌↔◌, IfErr, IfOk, IsTrue, length, Ok, OnOk, true};
ghost use Rattle.cocoon_syntax.specs.TreeOf.{design_of};
ghost use Rattle.cocoon_types.specs.Design.{last_level};
ghost use Rattle.bit_blast.specs.Blasting.{most_clauses};
ghost use Rattle.bit_blast.specs.Clauses.{count_of};
ghost use Rattle.bv_terms.specs.Arenas.{term_at};
ghost use Rattle.query_laws.specs.LeafTerms.{Stands};
ghost use Rattle.obligation_laws.specs.Failing.{NeverTrue};
ghost use Rattle.query_laws.specs.Certified.{AllFit, IsCert};
ghost use Rattle.query_laws.specs.Queries as spec;
ghost use Rattle.queries.specs.Asked.{IsQuery};
ghost use Rattle.queries.specs.Checked.{Tells};

use crate::asking::{OwnGoal, query};
use crate::fitting::all_fit;
use bit_blast::{BlastFault, blast};
use bv_terms::{TermId, Terms};
use cnf_core::Cert;
use cocoon_num::NoMemory;
use cocoon_resolve::Checked;
use proof_check::check_log;
use query_laws::laws::refuted_formulas_are_never_true;
use sound_types::laws::code_literals_fit;
use std::alloc::Global;

/// Why a certificate is not checked.
#[derive(Clone, Copy, Debug)]
pub enum RecheckFault {
    /// The query has so many clauses, more than 4,000,000.
    Big(u64),
    NoMemory,
}

impl From<NoMemory> for RecheckFault {
    ghost use Rattle.std.specs.Prelude.{◌≡◌};
    ghost use Rattle.queries.specs.declared.checking.RecheckFault.TheVariants.{NoMemory};

    ghost from_gives = { λ _ fault. fault ≡ NoMemory };

    fn from(_: NoMemory) -> RecheckFault {
        RecheckFault::NoMemory
    }
}

/// Whether the instances of a certificate fit the levels up to this one, and its log derives the
/// empty clause from the clauses of the formula's query with them. Nothing is searched.
pub fn check_cert(
    alloc: Global,
    checked: &Checked,
    terms: &Terms,
    level: u32,
    formula: TermId,
    cert: &Cert,
) -> Result<bool, RecheckFault>
    requires level { level ≤ last_level (design_of checked.now) }
    requires there { formula < length terms.now }
    requires stands { Stands (design_of checked.now) 1 (term_at terms.now formula) }
    ensures exact { IfOk result (λ answer. IsTrue answer
        ↔ IsCert (design_of checked.now) level (term_at terms.now formula) cert.now) }
    ensures holds { result ≡ Ok true
        → NeverTrue level (design_of checked.now) (term_at terms.now formula) }
    ensures fault { IfErr result
        (Tells (design_of checked.now) level (term_at terms.now formula) cert.now) }
    ensures few { OnOk result (AllFit (design_of checked.now) level cert.now.instances
        → count_of (spec.query (design_of checked.now) level (term_at terms.now formula)
        cert.now.instances) ≤ most_clauses) }
{
    refuted_formulas_are_never_true();
    code_literals_fit();
    let _design = checked.design();
    if !all_fit(checked, level, cert.instances.items()) {
        return Ok(false);
    }
    let own = query(
        alloc,
        checked,
        terms,
        level,
        formula,
        cert.instances.items(),
    )?;
    match blast(alloc, &own.terms, own.goal) {
        Ok((cnf, _)) => Ok(check_log(alloc, &cnf, &cert.log)?),
        Err(BlastFault::Clauses(count)) => Err(RecheckFault::Big(count)),
        Err(BlastFault::NoMemory) => Err(RecheckFault::NoMemory),
    }
}
