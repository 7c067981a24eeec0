//! What logs show. The function does nothing; its contract is the law.
ghost use Rattle.cnf_core.specs.Deriving.{Derives};
ghost use Rattle.cnf_core.specs.Satisfying.{Satisfies, WellNamed};
ghost use Rattle.cnf_core.specs.declared.clauses.Assignment.{Assignment};
ghost use Rattle.cnf_core.specs.declared.clauses.Cnf.{Cnf};
ghost use Rattle.cnf_core.specs.declared.log.Log.{Log};

/// No assignment satisfies clauses from which a log derives the empty clause.
pub fn derived_clauses_have_no_model()
    ensures { (cnf : Cnf) (log : Log) (a : Assignment)
        → WellNamed cnf → Derives cnf log → Satisfies a cnf → ⊥ }
{}
