//! Small goals, flattened. The functions do nothing; their contracts are the laws.
ghost use Rattle.std.specs.Prelude.{[], ◌∷◌, ◌≡◌};
ghost use Rattle.bv_terms.specs.TermTrees.{apply, arg, binary, constant, input, no_args, not_, pick};
ghost use Rattle.bv_terms.specs.declared.node.TermOp.TheVariants.{And, Equal, Less, Or};
ghost use Rattle.flat_laws.specs.Flat.{flattened};

/// A goal without applications stays as it is.
pub fn plain_goals_stay()
    ensures { flattened (binary Less (input 0 8) (input 1 8)) 2
        ≡ binary Less (input 0 8) (input 1 8) }
{}

/// An application inside an argument comes first, and its input stands in the arguments.
pub fn nested_applications()
    ensures { flattened (binary Equal
        (apply 3 (arg (apply 3 (arg (input 0 8) no_args) 8) no_args) 8) (input 1 8)) 2
        ≡ binary And (binary Equal (input 3 8) (input 1 8))
        (binary Or (not_ (binary Equal (input 0 8) (input 2 8)))
        (binary Equal (input 2 8) (input 3 8))) }
{}

/// Pairs are of one function; an application that occurs twice is one input.
pub fn pairs_of_functions()
    ensures { flattened (binary And
        (binary And (apply 1 (arg (input 0 8) (arg (input 1 8) no_args)) 1)
        (apply 2 (arg (input 0 8) no_args) 1))
        (binary And (apply 1 (arg (input 1 8) (arg (input 0 8) no_args)) 1)
        (apply 1 (arg (input 0 8) (arg (input 1 8) no_args)) 1))) 5
        ≡ binary And
        (binary And (binary And (input 5 1) (input 6 1)) (binary And (input 7 1) (input 5 1)))
        (binary Or
        (not_ (binary And (binary Equal (input 0 8) (input 1 8)) (binary Equal (input 1 8) (input 0 8))))
        (binary Equal (input 5 1) (input 7 1))) }
{}

/// Applications come in the order of the walk, and each is paired with the earlier ones from the first on.
pub fn pairs_in_order()
    ensures { flattened (binary And
        (binary And (apply 4 (arg (input 1 8) no_args) 1) (apply 4 (arg (input 0 8) no_args) 1))
        (pick (apply 4 (arg (input 2 8) no_args) 1)
        (apply 4 (arg (input 0 8) no_args) 1) (apply 4 (arg (input 1 8) no_args) 1))) 3
        ≡ binary And (binary And (binary And
        (binary And (binary And (input 3 1) (input 4 1))
        (pick (input 5 1) (input 4 1) (input 3 1)))
        (binary Or (not_ (binary Equal (input 1 8) (input 0 8)))
        (binary Equal (input 3 1) (input 4 1))))
        (binary Or (not_ (binary Equal (input 1 8) (input 2 8)))
        (binary Equal (input 3 1) (input 5 1))))
        (binary Or (not_ (binary Equal (input 0 8) (input 2 8)))
        (binary Equal (input 4 1) (input 5 1))) }
{}
