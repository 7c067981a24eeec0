//! What the definitions say of terms with choices over rows. The functions do nothing; their contracts are the laws.
ghost use Rattle.std.specs.Prelude.{◌≡◌};
ghost use Rattle.bv_terms.specs.TermTrees.{IsTerm, Term, width};
ghost use Rattle.bv_terms.specs.TermValues.{Functions, Inputs, term_value};
ghost use Rattle.bv_terms.specs.ByTables.{by_tables};
ghost use Rattle.bv_terms.specs.Fitting.{TablesFit};
ghost use Rattle.bv_terms.specs.WithRows.{Tables, with_rows};

/// A term with choices over rows has the value that the term has by the tables: that of the first row that matches, else the
/// default.
pub fn rows_keep_values()
    ensures values { (tables : Tables) (others : Functions) (ins : Inputs) (t : Term)
        → IsTerm t → TablesFit tables t
        → term_value others ins (with_rows tables t) ≡ term_value (by_tables tables others) ins t }
    ensures widths { (tables : Tables) (t : Term) → TablesFit tables t
        → width (with_rows tables t) ≡ width t }
{}
