//! What designs have that keep the rules, and what is listed of definitions. The functions do nothing; their contracts
//! are the laws.
ghost use Rattle.std.specs.Prelude.{All, ◌≡◌, ◌∷◌, [], ℕ, length, List, None, slice_get, Some};
ghost use Rattle.cocoon_num.specs.Tree.{Design, FunctionDecl};
ghost use Rattle.cocoon_num.specs.Values.{fits_width};
ghost use Rattle.cocoon_resolve.specs.Resolved.{Resolves};
ghost use Rattle.cocoon_types.specs.Design.{functions, widths_of};
ghost use Rattle.runtime_defs.specs.Fitting.{FitsDesign};
ghost use Rattle.runtime_defs.specs.Guards.{fits_params, ListedAreDefined, switch_function};
ghost use Rattle.runtime_defs.specs.Places.{AllDeclared, Places, TakesArgs};

/// Of definitions that were bound, the hosts and the switches are the numbers at which the definitions of the text give
/// `true` for the functions of the guards.
pub fn listed_are_defined()
    ensures { ListedAreDefined }
{}

/// In a design that keeps the rules the parameters of functions have widths of declarations.
pub fn params_are_declared()
    ensures { (design : Design) → Resolves design
        → All (λ (d : FunctionDecl). AllDeclared (widths_of d.params)) (functions design) }
{}

/// A function that is defined at run time has a table, which takes as many arguments as it has parameters.
pub fn functions_have_tables()
    ensures { (design : Design) (places : Places) (n : ℕ) (f : FunctionDecl)
        → FitsDesign design places → slice_get (functions design) n ≡ Some f → f.body ≡ None
        → TakesArgs places n (length f.params) }
{}

/// In a design that keeps the rules the function of the switch roles' guards takes one number of 16 bits: so none at which
/// it is true is left out of the switches.
pub fn switch_numbers_are_short()
    ensures { (design : Design) (f : List ℕ) (n : ℕ)
        → Resolves design → switch_function design ≡ Some f
        → fits_params design f (n ∷ []) ≡ fits_width 16 n }
{}
