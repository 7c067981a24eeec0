//! What a case has of runs. The function does nothing; its contract is the law.
ghost use Rattle.std.specs.Prelude.{◌≡◌, ℕ, Option};
ghost use Rattle.step_cases.specs.Cases.{Case};
ghost use Rattle.step_cases.specs.Stepping.{Steps};
ghost use Rattle.step_cases.specs.declared.sent.Sent.{Sent};
ghost use Rattle.cocoon_num.specs.Tree.{Design};
ghost use Rattle.cocoon_types.specs.Tables.{Defs};

use cocoon_types::runs::one_end;

/// A case has one run at most, so one thing is told of it.
pub fn one_step()
    ensures { (level : ℕ) (d : Design) (defs : Defs) (case : Case) (told other : Option Sent)
        → Steps level d defs case told → Steps level d defs case other → other ≡ told }
{
    one_end();
}
