//! What tables stand for, and what designs have that keep the rules. The functions do nothing; their
//! contracts are the laws.
ghost use Rattle.std.specs.Prelude.{◌≡◌, ℕ, List, Some};
ghost use Rattle.cocoon_num.specs.PacketForms.{AllWhole};
ghost use Rattle.cocoon_num.specs.Tree.{Design, Role};
ghost use Rattle.cocoon_resolve.specs.Readers.{all_widths};
ghost use Rattle.cocoon_resolve.specs.Resolved.{Resolves};
ghost use Rattle.cocoon_types.specs.Design.{layout, role_at, widths_of};
ghost use Rattle.role_values.specs.DeclaredWidths.{AllDeclared};
ghost use Rattle.role_values.specs.Stands.{TablesGiveValues};

/// A value by tables is the value under the definitions that they stand for.
pub fn tables_give_values()
    ensures { TablesGiveValues }
{}

/// In a design that keeps the rules fields have widths of declarations.
pub fn fields_are_declared()
    ensures { (design : Design) → Resolves design → AllDeclared (all_widths design.headers) }
{}

/// Each header fills whole bytes.
pub fn headers_are_whole()
    ensures { (design : Design) → Resolves design → AllWhole (layout design) }
{}

/// The parameters of roles have widths of declarations, too, at each level; of functions `runtime_defs` says it.
pub fn role_params_are_declared()
    ensures { (design : Design) → Resolves design → (level : ℕ) (x : List ℕ) (r : Role)
        → role_at level design x ≡ Some r → AllDeclared (widths_of r.params) }
{}
