//! What certificates of searches show of a design. The function does nothing; its contract is the law.
ghost use Rattle.std.specs.Prelude.{All, List, ℕ};
ghost use Rattle.bv_terms.specs.declared.node.Node.{Node};
ghost use Rattle.cert_text.specs.Certifying.{CertsShow};
ghost use Rattle.cnf_core.specs.declared.certificates.Cert.{Cert};
ghost use Rattle.cocoon_num.specs.Tree.{Design};
ghost use Rattle.obligation_gen.specs.Shown.{ShowsObligations};
ghost use Rattle.obligation_gen.specs.declared.obligation.Obligation.{Obligation};
ghost use Rattle.obligation_laws.specs.Failing.{NeverFails};
ghost use Rattle.obligation_laws.specs.Obligations.{all_obligations};
ghost use Rattle.cert_text.specs.Keeping.{AreShown};

/// If each obligation of the code is shown by its certificate, and these obligations are those of the design, the
/// certificates show what the design owes, and none of its leaves ever fails.
pub fn shown_obligations_are_certified()
    ensures show { (d : Design) (nodes : List Node) (obligations : List Obligation)
        → (certs : List Cert) → ShowsObligations d nodes obligations (all_obligations d)
        → AreShown d nodes obligations certs → CertsShow d certs }
    ensures holds { (d : Design) (nodes : List Node) (obligations : List Obligation)
        → (certs : List Cert) → ShowsObligations d nodes obligations (all_obligations d)
        → AreShown d nodes obligations certs → All (NeverFails d) (all_obligations d) }
{}
