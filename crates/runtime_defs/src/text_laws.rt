//! What the text of definitions stands for. The functions do nothing; their contracts are the laws.
ghost use Rattle.std.specs.Prelude.{All, List, Option};
ghost use Rattle.std.specs.List.{AllZip};
ghost use Rattle.cocoon_num.specs.Tree.{Design};
ghost use Rattle.cocoon_num.specs.declared.fun_table.FunTable.{FunTable};
ghost use Rattle.cocoon_types.specs.DefsRules.{DefsFit};
ghost use Rattle.cocoon_types.specs.Design.{functions};
ghost use Rattle.cocoon_types.specs.Rules.{WellFormed};
ghost use Rattle.runtime_defs.specs.Printable.{FitsDesign, FitsPlace, IsMasked};
ghost use Rattle.runtime_defs.specs.EntryPlaces.{entries_of_places};
ghost use Rattle.runtime_defs.specs.Tabled.{IsPlace};

/// The definitions of tables have these tables, where values are already masked.
pub fn tables_come_back()
    ensures { (design : Design) (places : List (Option FunTable)) → WellFormed design
        → AllZip FitsPlace (functions design) places → All IsMasked places
        → AllZip (IsPlace (entries_of_places design places)) (functions design) places }
{}

/// The definitions of tables have no fault, the limit on rows aside.
pub fn definitions_fit()
    ensures { (design : Design) (places : List (Option FunTable)) → WellFormed design
        → FitsDesign design places → DefsFit design (entries_of_places design places) }
{}
