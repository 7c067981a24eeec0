//! The rows of lowered programs: they serve the program that they are made for, and they load into it. The functions do
//! nothing; their contracts are the laws.

ghost use Rattle.std.specs.Prelude.{◌≡◌, ◌<◌, ◌≤◌, ◌^◌, ℕ, true, length, List, reverse, Some};
ghost use Rattle.cocoon_num.specs.Lists.{is_one_of};
ghost use Rattle.cocoon_num.specs.Tree.{DefsText, Design, FunctionDecl};
ghost use Rattle.cocoon_types.specs.DefsRules.{fork_calls, runtime_named};
ghost use Rattle.cocoon_types.specs.Design.{functions};
ghost use Rattle.cocoon_types.specs.Rules.{WellFormed};
ghost use Rattle.cocoon_types.specs.Tables.{Defs};
ghost use Rattle.lowering.specs.Log.{tables_in};
ghost use Rattle.lowering.specs.Lower.{Made};
ghost use Rattle.lowering.specs.Whole.{SwitchRole};
ghost use Rattle.lowering_correct.specs.Groups.{fork_groups};
ghost use Rattle.lowering.specs.Roles.{NetParts, net_parts};
ghost use Rattle.lowering.specs.Serving.{AllServe, GroupsServe, MembersFit};
ghost use Rattle.lowering.specs.SwitchProgram.{switch_made, switch_program};
ghost use Rattle.lowering_correct.specs.SwitchRows.{switch_rows};
ghost use Rattle.lowering.specs.Forks.{GroupsAre};
ghost use Rattle.lowering_correct.specs.Logs.{filling, IsLogOf};
ghost use Rattle.lowering_correct.specs.Totals.{rows_in};
ghost use Rattle.p4_ir.specs.Loading.{rows_file_fits, rows_load as loads_rows};
ghost use Rattle.runtime_defs.specs.Bound.{IsBound, row_count};
ghost use Rattle.runtime_defs.specs.Fitting.{FitsDesign};
ghost use Rattle.runtime_defs.specs.Places.{Places};
ghost use Rattle.runtime_defs.specs.Stands.{Stands};

use lowering::bodies::all_numbered;

/// The rows of a log's tables give the values of the functions that the tables hold, and the numbers of their groups.
pub fn tables_serve()
    ensures { (d : Design) (places : Places) (defs : Defs) (made : List Made)
        → WellFormed d → FitsDesign d places → Stands d places defs → IsLogOf d made
        → AllServe (filling d places defs) (switch_rows d places made) made }
{}

/// The members of a function's group are the choices at which the function is true; and they fit its last parameter.
pub fn groups_serve()
    ensures groups { (d : Design) (places : Places) (defs : Defs) (made : List Made)
        (f : List ℕ) (g : FunctionDecl)
        → WellFormed d → FitsDesign d places → Stands d places defs
        → is_one_of (fork_calls d) f ≡ true → runtime_named d f ≡ Some g
        → GroupsServe (filling d places defs) (switch_rows d places made) f g.params }
    ensures members { (d : Design) (places : Places) (defs : Defs) (made : List Made)
        (f : List ℕ) (g : FunctionDecl)
        → WellFormed d → FitsDesign d places → 1 ≤ length g.params
        → is_one_of (fork_calls d) f ≡ true → runtime_named d f ≡ Some g
        → MembersFit (filling d places defs) (switch_rows d places made) f g.params }
    ensures forks { (d : Design) (places : Places) (defs : Defs) (made : List Made)
        → WellFormed d → FitsDesign d places → Stands d places defs
        → GroupsAre (filling d places defs) (switch_rows d places made)
        (reverse (functions d)) (fork_calls d) }
{}

/// The rows of a program load into it, and their numbers are in their ranges.
pub fn rows_load()
    ensures loads { (d : Design) (places : Places) (r : SwitchRole) (s : ℕ)
        → WellFormed d → FitsDesign d places → IsLogOf d (switch_made r s)
        → length (fork_groups d places) < 2 ^ 16
        → loads_rows (switch_program r s) (switch_rows d places (switch_made r s)) ≡ true }
    ensures fits { (d : Design) (places : Places) (made : List Made)
        → WellFormed d → FitsDesign d places → IsLogOf d made
        → length (fork_groups d places) < 2 ^ 16 → length (tables_in made) < 2 ^ 32
        → rows_file_fits (switch_rows d places made) ≡ true }
{}

/// What is made of the role that switches run is a log of the design.
pub fn logs_are_made()
    ensures { (d : Design) (parts : NetParts) (s : ℕ)
        → WellFormed d → net_parts d ≡ Some parts → IsLogOf d (switch_made parts.role s) }
{
    all_numbered();
}

/// There are no more groups than rows.
pub fn groups_are_few()
    ensures { (d : Design) (places : Places) → length (fork_groups d places) ≤ rows_in places }
{}

/// Tables that are bound to a text of definitions have no more rows than the text.
pub fn rows_are_few()
    ensures { (d : Design) (es : DefsText) (places : Places) → WellFormed d → IsBound d es places
        → rows_in places ≤ row_count es }
{}
