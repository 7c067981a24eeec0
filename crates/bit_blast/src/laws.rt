//! What the definitions say of gates and clauses. The functions do nothing; their contracts are the laws.
ghost use Rattle.std.specs.Prelude.{◌≡◌, ◌≢◌, ◌↔◌, IsTrue, ℕ, length, ◌&&◌, ◌||◌, [], ◌∷◌, Bool, List, if◌then◌else◌, negsuc, not, pos, true, ℤ};
ghost use Rattle.bv_terms.specs.TermTrees.{Term, binary, input};
ghost use Rattle.bv_terms.specs.declared.node.TermOp.TheVariants.{And};
ghost use Rattle.bit_blast.specs.Clauses.{clauses_of, vars_of};
ghost use Rattle.std.specs.Bool.{beq};
ghost use Rattle.bit_blast.specs.Gates.{and_gate, carry_gate, choice_gate, or_gate, same_gate, xor_gate};
ghost use Rattle.bit_blast.specs.Meanings.{IsValuation, all_hold};
ghost use Rattle.bit_blast.specs.Blasting.{IsClauses};
ghost use Rattle.bit_blast.specs.Goals.{IsGoal};
ghost use Rattle.bit_blast.specs.Readings.{Extends, ReadsAs, input_bits};
ghost use Rattle.bv_terms.specs.Inputs.{InputsFit, Mentions};
ghost use Rattle.bv_terms.specs.TermValues.{Functions, Inputs, term_value};
ghost use Rattle.cnf_core.specs.Satisfying.{Satisfies, makes_true};
ghost use Rattle.cnf_core.specs.declared.clauses.Assignment.{Assignment};
ghost use Rattle.cnf_core.specs.declared.clauses.Cnf.{Cnf};
ghost use Rattle.cocoon_num.specs.Values.{number};

/// No gate is left out because it is trivial: 1 is the constant, 2 the input, 3 the gate.
pub fn and_of_one_input_has_five_clauses()
    ensures clauses { clauses_of (binary And (input 0 1) (input 0 1))
        ≡ (pos 1 ∷ []) ∷ (negsuc 2 ∷ pos 2 ∷ []) ∷ (negsuc 2 ∷ pos 2 ∷ [])
        ∷ (pos 3 ∷ negsuc 1 ∷ negsuc 1 ∷ []) ∷ (pos 3 ∷ []) ∷ [] }
    ensures vars { vars_of (binary And (input 0 1) (input 0 1)) ≡ 3 }
{}

/// The clauses of a gate hold exactly where the gate has the value that its bits give.
pub fn gates_mean_their_operations()
    ensures and { (v : ℤ → Bool) → IsValuation v → (g a b : ℤ) → g ≢ pos 0 → a ≢ pos 0 → b ≢ pos 0
        → all_hold v (and_gate g a b) ≡ beq (v g) (v a && v b) }
    ensures or { (v : ℤ → Bool) → IsValuation v → (g a b : ℤ) → g ≢ pos 0 → a ≢ pos 0 → b ≢ pos 0
        → all_hold v (or_gate g a b) ≡ beq (v g) (v a || v b) }
    ensures xor { (v : ℤ → Bool) → IsValuation v → (g a b : ℤ) → g ≢ pos 0 → a ≢ pos 0 → b ≢ pos 0
        → all_hold v (xor_gate g a b) ≡ beq (v g) (not (beq (v a) (v b))) }
    ensures same { (v : ℤ → Bool) → IsValuation v → (g a b : ℤ) → g ≢ pos 0 → a ≢ pos 0 → b ≢ pos 0
        → all_hold v (same_gate g a b) ≡ beq (v g) (beq (v a) (v b)) }
    ensures choice { (v : ℤ → Bool) → IsValuation v → (c g a b : ℤ)
        → c ≢ pos 0 → g ≢ pos 0 → a ≢ pos 0 → b ≢ pos 0
        → all_hold v (choice_gate c g a b) ≡ beq (v g) (if v c then v a else v b) }
    ensures carry { (v : ℤ → Bool) → IsValuation v → (g a b c : ℤ)
        → g ≢ pos 0 → a ≢ pos 0 → b ≢ pos 0 → c ≢ pos 0
        → all_hold v (carry_gate g a b c) ≡ beq (v g) (v a && v b || v a && v c || v b && v c) }
{}

/// Both directions: values of the inputs extend to an assignment under which the clauses hold exactly where the goal is
/// true of them, and from each such assignment values are read of which the goal is true.
pub fn clauses_mean_the_goal()
    ensures reads { (goal : Term) → IsGoal goal → (a : Assignment)
        → IsTrue (all_hold (makes_true a) (clauses_of goal))
        → (F : Functions) (ins : Inputs) → ReadsAs goal (makes_true a) ins
        → term_value F ins goal ≡ number 1 1 }
    ensures extends { (goal : Term) → IsGoal goal → (F : Functions) (ins : Inputs)
        → InputsFit goal ins
        → ((a : Assignment) × Extends goal ins a) ↔ (term_value F ins goal ≡ number 1 1) }
{}

/// To satisfy the clauses that are made is to make the clauses of the goal hold.
pub fn satisfying_is_making_hold()
    ensures { (cnf : Cnf) (goal : Term) → IsClauses cnf goal → (a : Assignment)
        → Satisfies a cnf ↔ IsTrue (all_hold (makes_true a) (clauses_of goal)) }
{}

/// An input of a goal has a literal for each of its bits. Any other has none, so it is read as 0.
pub fn inputs_have_their_bits()
    ensures present { (goal : Term) → IsGoal goal → (i w : ℕ) → Mentions goal i w
        → length (input_bits goal i w) ≡ w }
    ensures absent { (goal : Term) → IsGoal goal → (i w : ℕ) → (Mentions goal i w → ⊥)
        → input_bits goal i w ≡ [] }
{}
