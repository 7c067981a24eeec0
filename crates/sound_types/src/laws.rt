//! Type soundness, by tables of functions and under the definitions of a text. The functions do
//! nothing; their contracts are the laws.
ghost use Rattle.std.specs.Prelude.{◌≡◌, false, filter_map, List, ℕ, Option, slice_get, Some};
ghost use Rattle.cocoon_num.specs.PacketForms.{FieldsFit, PacketFits};
ghost use Rattle.cocoon_num.specs.Packets.{enter, Layout, Packet};
ghost use Rattle.cocoon_num.specs.Sorts.{truth_sort};
ghost use Rattle.cocoon_num.specs.Tree.{AssumeDecl, DefsText, Design, Param, Role};
ghost use Rattle.cocoon_num.specs.declared.fun_table.FunTable.{FunTable};
ghost use Rattle.cocoon_syntax.specs.TreeOf.{design_of, entries_of};
ghost use Rattle.cocoon_syntax.specs.declared.decl.Design as syntax;
ghost use Rattle.cocoon_syntax.specs.declared.defs.DefsText.{DefsText as Text};
ghost use Rattle.cocoon_types.specs.Design.{decls_to, layout, role_at, widths_of};
ghost use Rattle.cocoon_types.specs.Limits.{as_assumption};
ghost use Rattle.cocoon_types.specs.Rules.{WellFormed};
ghost use Rattle.cocoon_types.specs.Runs.{Loc, world};
ghost use Rattle.cocoon_types.specs.Tables.{Defs, defs_of};
ghost use Rattle.cocoon_types.specs.Taken.{go, guard_at, walk};
ghost use Rattle.cocoon_types.specs.Val.{bind, context, Env};
ghost use Rattle.role_values.specs.FittingRuns.{fitting_go};
ghost use Rattle.role_values.specs.Stands.{Stands};
ghost use Rattle.role_values.specs.Worlds.{world_by};
ghost use Rattle.sound_types.specs.Defined.{HasDefinitions, HasTables};
ghost use Rattle.sound_types.specs.Ends.{LocFits};
ghost use Rattle.sound_types.specs.Literals.{DesignLiteralsFit, EntriesFit};
ghost use Rattle.sound_types.specs.Matching.{Binds};
ghost use Rattle.sound_types.specs.Soundness.{BodiesAreSound, IsSound, KeepsTypes};
ghost use Rattle.sound_types.specs.WellTyped.{HasType, IsTypedRole, scope_at};

use role_values::laws::tables_give_values;

/// In a design that keeps the rules the latest role of a name is well typed at each level, and an
/// assumption of a level is a truth value.
pub fn declarations_are_typed()
    ensures roles { (d : Design) → WellFormed d → DesignLiteralsFit d
        → (level : ℕ) (name : List ℕ) (r : Role) → role_at level d name ≡ Some r
        → IsTypedRole d level r }
    ensures assumptions { (d : Design) → WellFormed d → DesignLiteralsFit d
        → (level n : ℕ) (a : AssumeDecl)
        → slice_get (filter_map as_assumption (decls_to level d)) n ≡ Some a
        → HasType (scope_at d level a.params false) truth_sort a.body }
{}

/// Where runs start: parameters are bound to numbers that fit them, and a packet that enters fits.
pub fn starts_fit()
    ensures parameters { (params : List Param) (ns : List ℕ) → FieldsFit (widths_of params) ns
        → (env : Env) × (bind params ns ≡ Some env) × Binds params env }
    ensures packets { (layout : Layout) (bytes : List ℕ) (packet : Packet) (payload : List ℕ)
        → enter layout bytes ≡ Some (packet, payload) → PacketFits layout packet }
{}

/// Progress: well-typed expressions have values of their types.
pub fn expressions_have_values()
    ensures by_tables { (d : Design) (tables : List (Option FunTable)) → HasTables d tables
        → (level : ℕ) → IsSound d (world_by tables level d).context }
    ensures by_definitions { (d : Design) (es : DefsText) → HasDefinitions d es
        → IsSound d (context d (defs_of d es)) }
{}

/// Functions with a body: its body is well typed, and what is well typed in it has a value.
pub fn bodies_have_values()
    ensures { (d : Design) (tables : List (Option FunTable)) → HasTables d tables
        → BodiesAreSound d tables }
{}

/// Preservation: runs of well-typed blocks and bodies end with what fits.
pub fn runs_keep_types()
    ensures by_tables { (d : Design) (tables : List (Option FunTable)) → HasTables d tables
        → (level : ℕ) → KeepsTypes level d (world_by tables level d) }
    ensures by_definitions { (d : Design) (es : DefsText) → HasDefinitions d es
        → (level : ℕ) → KeepsTypes level d (world level d (defs_of d es)) }
{}

/// Runs by tables are the runs under the definitions that the tables stand for: from a location and a
/// packet that fit, with any choices.
pub fn runs_by_tables()
    ensures guards { (d : Design) (tables : List (Option FunTable)) (defs : Defs)
        → HasTables d tables → Stands d tables defs
        → (level : ℕ) (at : Loc) → LocFits level d at
        → guard_at (world_by tables level d) at ≡ guard_at (world level d defs) at }
    ensures runs { (d : Design) (tables : List (Option FunTable)) (defs : Defs)
        → HasTables d tables → Stands d tables defs
        → (level : ℕ) (at : Loc) (packet : Packet) (choices : List ℕ)
        → LocFits level d at → PacketFits (layout d) packet
        → go (world_by tables level d) at packet choices
        ≡ go (world level d defs) at packet choices }
    ensures walks { (d : Design) (tables : List (Option FunTable)) (defs : Defs)
        → HasTables d tables → Stands d tables defs
        → (level bodies : ℕ) (at : Loc) (packet : Packet) (choices : List ℕ)
        → LocFits level d at → PacketFits (layout d) packet
        → walk (world_by tables level d) bodies at packet choices
        ≡ walk (world level d defs) bodies at packet choices }
{
    tables_give_values();
}

/// A run in which each number that is set has to fit its field, and each variable that is chosen a
/// width of declarations, is the run: from a location and a packet that fit, with any choices.
pub fn fitting_runs_are_runs()
    ensures { (d : Design) (tables : List (Option FunTable)) → HasTables d tables
        → (level : ℕ) (at : Loc) (packet : Packet) (choices : List ℕ)
        → LocFits level d at → PacketFits (layout d) packet
        → fitting_go (world_by tables level d) at packet choices
        ≡ go (world_by tables level d) at packet choices }
{}

/// In trees of the code all literals fit their widths, and so do the values of definitions.
pub fn code_literals_fit()
    ensures designs { (d : syntax.Design) → DesignLiteralsFit (design_of d) }
    ensures definitions { (t : Text) → EntriesFit (entries_of t) }
{}
