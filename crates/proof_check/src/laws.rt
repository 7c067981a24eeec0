//! How long logs get. The function does nothing; its contract is the law.
ghost use Rattle.std.specs.Prelude.{◌<◌, ◌^◌, ℕ};
ghost use Rattle.cnf_core.specs.Licensing.{Licensed};
ghost use Rattle.cnf_core.specs.declared.clauses.Cnf.{Cnf};
ghost use Rattle.cnf_core.specs.declared.log.Log.{Log};

/// A licensed log has fewer steps than there are clauses without repeated or opposite literals over its variables, the
/// empty one among them.
pub fn licensed_logs_are_short()
    ensures { (cnf : Cnf) (log : Log) (count : ℕ) → Licensed cnf log count → count < 3 ^ cnf.vars }
{}
