//! How the names of a design are spelled that was read, as laws: the contracts of functions that do nothing.

ghost use Rattle.std.specs.Prelude.{All, IsTrue, List, ℕ};
ghost use Rattle.cocoon_num.specs.Reads.{Reads};
ghost use Rattle.cocoon_num.specs.Spelled.{is_spelled};
ghost use Rattle.cocoon_num.specs.Tree.{Design};
ghost use Rattle.cocoon_types.specs.Design.{functions};
ghost use Rattle.cocoon_types.specs.Names.{IsNamed};

/// The functions of a design that was read have names of the language, and parameters.
pub fn functions_are_named()
    ensures { (text : List ℕ) (design : Design) → Reads text design
        → All IsNamed (functions design) }
{}

/// The headers and fields of a design that was read have names of letters, digits and `_`.
pub fn headers_are_spelled()
    ensures { (text : List ℕ) (design : Design) → Reads text design
        → IsTrue (is_spelled design) }
{}
