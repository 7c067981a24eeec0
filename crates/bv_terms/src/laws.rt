//! What the definitions say of terms and of arenas. The functions do nothing; their contracts are the laws.
ghost use Rattle.std.specs.Prelude.{◌≡◌, ◌<◌, ℕ, List, length, true};
ghost use Rattle.bv_terms.specs.declared.node.Node.{Node};
ghost use Rattle.bv_terms.specs.TermTrees.{Term};
ghost use Rattle.bv_terms.specs.Arenas.{IsArena, term_at};
ghost use Rattle.bv_terms.specs.Walks.{same_term};

/// In an arena a term has one number.
pub fn equal_terms_have_one_number()
    ensures { (nodes : List Node) → IsArena nodes → (j k : ℕ)
        → j < length nodes → k < length nodes → term_at nodes j ≡ term_at nodes k → j ≡ k }
{}

/// Terms are told apart by how they are built, inputs by their numbers.
pub fn equal_terms_are_the_same()
    ensures itself { (t : Term) → same_term t t ≡ true }
    ensures only { (t u : Term) → same_term t u ≡ true → t ≡ u }
{}
