//! Patterns and tuples of small terms. The functions do nothing; their contracts are the laws.
ghost use Rattle.std.specs.Prelude.{[], ◌∷◌, ◌≡◌, filter_map};
ghost use Rattle.bv_terms.specs.TermTrees.{apply, arg, binary, constant, input, no_args};
ghost use Rattle.bv_terms.specs.Walks.{applications};
ghost use Rattle.bv_terms.specs.declared.node.TermOp.TheVariants.{Equal};
ghost use Rattle.query_laws.specs.Patterns.{pattern_of};
ghost use Rattle.query_laws.specs.Tuples.{distinct_tuples, tuples_at};

/// A term stands where its parameter does, whatever its place in the application is.
pub fn parameters_in_another_order()
    ensures { distinct_tuples (tuples_at
        (filter_map (pattern_of 2)
        (applications (apply 3 (arg (input 1 8) (arg (input 0 8) no_args)) 1)))
        (applications (apply 3 (arg (constant 8 5) (arg (constant 8 6) no_args)) 1)))
        ≡ (constant 8 6 ∷ constant 8 5 ∷ []) ∷ [] }
{}

/// Two patterns of one application, and a tuple that comes again.
pub fn two_patterns()
    ensures { distinct_tuples (tuples_at
        (filter_map (pattern_of 2) (applications (binary Equal
        (apply 3 (arg (input 0 8) (arg (input 1 8) no_args)) 8)
        (apply 3 (arg (input 1 8) (arg (input 0 8) no_args)) 8))))
        (applications (binary Equal
        (apply 3 (arg (constant 8 5) (arg (constant 8 6) no_args)) 8)
        (apply 3 (arg (constant 8 6) (arg (constant 8 6) no_args)) 8))))
        ≡ (constant 8 5 ∷ constant 8 6 ∷ []) ∷ (constant 8 6 ∷ constant 8 5 ∷ [])
        ∷ (constant 8 6 ∷ constant 8 6 ∷ []) ∷ [] }
{}

/// Neither a parameter that is left out nor another argument makes a pattern, and a pattern is of its
/// function alone.
pub fn no_patterns()
    ensures arguments { filter_map (pattern_of 2) (applications (binary Equal
        (apply 3 (arg (input 0 8) (arg (input 0 8) no_args)) 8)
        (apply 4 (arg (input 0 8) (arg (input 1 8) (arg (constant 8 1) no_args))) 8)))
        ≡ [] }
    ensures functions { tuples_at
        (filter_map (pattern_of 1) (applications (apply 3 (arg (input 0 8) no_args) 8)))
        (applications (apply 4 (arg (input 0 8) no_args) 8)) ≡ [] }
{}
