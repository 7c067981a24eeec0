//! What tables stand for that were not read of a text. The function does nothing; its contract is
//! the law.
ghost use Rattle.std.specs.Prelude.{All, ◌≡◌, List, Option};
ghost use Rattle.cocoon_num.specs.Tree.{Design};
ghost use Rattle.cocoon_num.specs.declared.fun_table.FunTable.{FunTable};
ghost use Rattle.cocoon_types.specs.Rules.{WellFormed};
ghost use Rattle.cocoon_types.specs.Tables.{defs_of};
ghost use Rattle.runtime_defs.specs.Printable.{FitsDesign, IsMasked};
ghost use Rattle.runtime_defs.specs.EntryPlaces.{entries_of_places};
ghost use Rattle.refinement.specs.Assumptions.{AreDefinitions};
ghost use Rattle.runtime_defs.specs.Stands.{Stands};

use runtime_defs::text_laws::{definitions_fit, tables_come_back};

/// The text of tables that fit a design has definitions of it, and the tables stand for these, if
/// their values are masked. No other tables have the same entries.
pub fn tables_are_definitions()
    ensures definitions { (d : Design) (tables : List (Option FunTable)) → WellFormed d
        → FitsDesign d tables → AreDefinitions d (defs_of d (entries_of_places d tables)) }
    ensures stands { (d : Design) (tables : List (Option FunTable)) → WellFormed d
        → FitsDesign d tables → All IsMasked tables
        → Stands d tables (defs_of d (entries_of_places d tables)) }
    ensures determined { (d : Design) (tables others : List (Option FunTable)) → WellFormed d
        → FitsDesign d tables → FitsDesign d others → All IsMasked tables → All IsMasked others
        → entries_of_places d tables ≡ entries_of_places d others → tables ≡ others }
{
    definitions_fit();
    tables_come_back();
}
