//! Whether certificates show that obligations of a design never fail. Nothing is searched here.
ghost use Rattle.std.specs.Prelude.{◌≡◌, ◌≤◌, ◌↔◌, IfErr, IfOk, IsTrue, Ok, OnOk, true};
ghost use Rattle.cocoon_syntax.specs.TreeOf.{design_of};
ghost use Rattle.bit_blast.specs.Blasting.{most_clauses};
ghost use Rattle.bit_blast.specs.Clauses.{count_of};
ghost use Rattle.bv_terms.specs.Arenas.{term_at};
ghost use Rattle.obligation_gen.specs.Owed.{IsOwed, NeverFailsHere};
ghost use Rattle.query_laws.specs.Certified.{AllFit, IsCert};
ghost use Rattle.query_laws.specs.Queries.{query};
ghost use Rattle.queries.specs.Checked.{Tells};

use crate::checking::{RecheckFault, check_cert};
use bv_terms::Terms;
use cnf_core::Cert;
use cocoon_resolve::Checked;
use obligation_gen::Obligation;
use obligation_laws::laws::untrue_formulas_never_fail;
use query_laws::formula_laws::{formulas_apply_declared_functions, obligations_have_levels};
use sound_types::laws::code_literals_fit;
use std::alloc::Global;

/// Whether the instances of a certificate fit the levels up to the obligation's, and its log
/// derives the empty clause from the clauses of the obligation's query with them. The obligation is
/// one of the design, and the arena holds its formula.
pub fn recheck_one(
    alloc: Global,
    checked: &Checked,
    terms: &Terms,
    obligation: &Obligation,
    cert: &Cert,
) -> Result<bool, RecheckFault>
    requires { IsOwed (design_of checked.now) terms.now obligation.now }
    ensures exact { IfOk result (λ answer. IsTrue answer ↔ IsCert (design_of checked.now)
        obligation.now.level (term_at terms.now obligation.now.formula) cert.now) }
    ensures holds { result ≡ Ok true
        → NeverFailsHere (design_of checked.now) terms.now obligation.now }
    ensures fault { IfErr result (Tells (design_of checked.now) obligation.now.level
        (term_at terms.now obligation.now.formula) cert.now) }
    ensures few { OnOk result
        (AllFit (design_of checked.now) obligation.now.level cert.now.instances
        → count_of (query (design_of checked.now) obligation.now.level
        (term_at terms.now obligation.now.formula) cert.now.instances) ≤ most_clauses) }
{
    formulas_apply_declared_functions();
    obligations_have_levels();
    untrue_formulas_never_fail();
    code_literals_fit();
    let _design = checked.design();
    check_cert(
        alloc,
        checked,
        terms,
        obligation.level,
        obligation.formula,
        cert,
    )
}
