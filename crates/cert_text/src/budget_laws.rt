//! What the file of a spent budget says: a law, the contract of a function that does nothing.
ghost use Rattle.std.specs.Prelude.{◌≡◌, ℕ, List};
ghost use Rattle.cert_text.specs.BudgetJson.{IsBudgetFile};
ghost use Rattle.cert_text.specs.Spent.{Spent};

/// A file says of one thing that a budget was spent on it.
pub fn files_are_of_one()
    ensures { (bytes : List ℕ) (spent other : Spent) → IsBudgetFile spent bytes
        → IsBudgetFile other bytes → spent ≡ other }
{}
