//! Other names for the inputs of terms.
ghost use Rattle.std.specs.Prelude.{◌≡◌, ℕ, [], map};
ghost use Rattle.bv_terms.specs.Inputs.{AreApart, Mentions, renamed};
ghost use Rattle.bv_terms.specs.TermTrees.{Term};
ghost use Rattle.bv_terms.specs.TermValues.{Functions, Inputs, term_value};
ghost use Rattle.bv_terms.specs.Walks.{walk};
ghost use Rattle.bit_blast.specs.Clauses.{clauses_of, vars_of};
ghost use Rattle.bit_blast.specs.Readings.{input_bits};

/// A term with other names for its inputs has the value of the term, if its inputs do.
pub fn names_keep_values()
    ensures { (t : Term) (name : ℕ → ℕ) (F : Functions) (ins : Inputs)
        → term_value F ins (renamed name t) ≡ term_value F (λ i. ins (name i)) t }
{}

/// A walk leaves the same terms in the same order.
pub fn names_keep_the_walk()
    ensures { (t : Term) (name : ℕ → ℕ) → AreApart name t
        → walk (renamed name t) [] ≡ map (renamed name) (walk t []) }
{}

/// A goal has the same clauses over the same variables, and an input has the same literals under its other name.
pub fn names_keep_the_clauses()
    ensures clauses { (goal : Term) (name : ℕ → ℕ) → AreApart name goal
        → clauses_of (renamed name goal) ≡ clauses_of goal }
    ensures vars { (goal : Term) (name : ℕ → ℕ) → AreApart name goal
        → vars_of (renamed name goal) ≡ vars_of goal }
    ensures bits { (goal : Term) (name : ℕ → ℕ) → AreApart name goal → (i w : ℕ) → Mentions goal i w
        → input_bits (renamed name goal) (name i) w ≡ input_bits goal i w }
{}
