//! One body's run at a level of a design.
ghost use Rattle.std.specs.Prelude.{◌≡◌, ℕ, All, IfOk, IfSome, length, List as Items, Option, option_map, Some};
ghost use Rattle.cocoon_num.specs.PacketForms.{FieldsFit, PacketFits};
ghost use Rattle.cocoon_num.specs.Packets.{Packet as Sent};
ghost use Rattle.cocoon_num.specs.Tree.{Design, FunctionDecl, Role};
ghost use Rattle.cocoon_num.specs.declared.fun_table.FunTable.{FunTable as Table};
ghost use Rattle.cocoon_resolve.specs.Readers.{all_widths, field_widths, HasRole};
ghost use Rattle.cocoon_resolve.specs.Resolved.{Resolves};
ghost use Rattle.cocoon_syntax.specs.TreeOf.{design_of};
ghost use Rattle.cocoon_syntax.specs.declared.decl.Design.{Design as Syntax};
ghost use Rattle.cocoon_types.specs.Design.{functions, layout, role_at, widths_of};
ghost use Rattle.cocoon_types.specs.Runs.{Loc as At, world};
ghost use Rattle.cocoon_types.specs.Tables.{Defs as Definitions};
ghost use Rattle.cocoon_types.specs.Taken as taken;
ghost use Rattle.cocoon_types.specs.Taken.{RunsAreTaken};
ghost use Rattle.role_meaning.specs.Goings as spec;
ghost use Rattle.role_meaning.specs.Leading.{Leads, LeadsOn};
ghost use Rattle.role_meaning.specs.Located.{loc_of, sent_of};
ghost use Rattle.role_meaning.specs.declared.place.Led.{Led as AsLed};
ghost use Rattle.role_values.specs.DeclaredWidths.{AllDeclared};
ghost use Rattle.role_values.specs.FittingRuns.{fitting_go};
ghost use Rattle.role_values.specs.Stands as values;
ghost use Rattle.role_values.specs.Worlds.{world_by};
ghost use Rattle.runtime_defs.specs.Fitting.{FitsDesign};
ghost use Rattle.runtime_defs.specs.Stands.{Stands};
ghost use Rattle.sound_types.specs.Defined.{HasTables};
ghost use Rattle.sound_types.specs.Ends.{LocFits};
ghost use Rattle.sound_types.specs.Literals.{DesignLiteralsFit};

use crate::going::run_role;
use crate::level::Level;
use crate::place::{Led, Loc, Packet};
use cocoon_num::NoMemory;
use cocoon_resolve::Checked;
use cocoon_types::runs::runs_are_taken;
use role_values::Scene;
use role_values::laws::{fields_are_declared, role_params_are_declared};
use runtime_defs::Defs;
use runtime_defs::laws::params_are_declared;
use sound_types::laws::{code_literals_fit, fitting_runs_are_runs, runs_by_tables};
use std::alloc::Global;

/// Where the body of a role leads, where functions are looked up in tables.
fn lead_by_tables<'c>(
    alloc: Global,
    checked: &Checked,
    defs: &Defs,
    level: u32,
    at: &Loc,
    packet: &Packet,
    choices: &'c [u64],
) -> Result<Option<Led<'c>>, NoMemory>
    requires count { length defs.now ≡ length (functions (design_of checked.now)) }
    requires role { HasRole (design_of checked.now) at.now.role level }
    requires fits { FieldsFit (field_widths (design_of checked.now)) packet.now.fields }
    ensures fits { IfOk result (λ led. IfSome led (λ r.
        FieldsFit (field_widths (design_of checked.now)) r.packet.fields)) }
    ensures at { IfOk result (λ led. IfSome led (λ r.
        HasRole (design_of checked.now) r.to.role level)) }
    ensures leads { IfOk result (λ led. option_map (spec.led_of (design_of checked.now)) led
        ≡ fitting_go (world_by defs.now level (design_of checked.now))
        (loc_of (design_of checked.now) at.now) (sent_of (design_of checked.now) packet.now)
        choices.now) }
{
    declared_widths();
    let design = checked.design();
    let scene = Scene {
        checked,
        defs,
        before: defs.tables().len() as u32,
        headers: &design.headers,
    };
    let number = level;
    run_role(alloc, &Level { scene, number }, at, packet, choices)
}

/// Where one body's run leads from a location of a level under these definitions, if it takes its
/// choices, in the order in which they are made, from the front of these. The choices behind them are
/// handed on. `None` where it leads nowhere: where the values do not fit or a guard is not true, where
/// a path ends without a `send`, where a choice does not fit or is missing, and at the sink. The
/// meaning is that of docs/LANGUAGE.md, "A body's run".
///
/// The time is in proportion to the statements that are run, with their expressions, and for each
/// look-up to the rows that are looked at, of a table whose rows compare all bits to the logarithm of
/// its rows; a variable is looked up among all that are in scope.
pub fn lead<'c>(
    alloc: Global,
    checked: &Checked,
    defs: &Defs,
    level: u32,
    at: &Loc,
    packet: &Packet,
    choices: &'c [u64],
) -> Result<Option<Led<'c>>, NoMemory>
    requires defs { FitsDesign (design_of checked.now) defs.now }
    requires role { HasRole (design_of checked.now) at.now.role level }
    requires fits { FieldsFit (field_widths (design_of checked.now)) packet.now.fields }
    ensures leads { IfOk result (λ led. (defined : Definitions)
        → Stands (design_of checked.now) defs.now defined
        → LeadsOn (design_of checked.now) (world level (design_of checked.now) defined)
        at.now packet.now choices.now led) }

    // the same, as what the run computes
    ensures runs { IfOk result (λ led. (defined : Definitions)
        → Stands (design_of checked.now) defs.now defined
        → option_map (spec.led_of (design_of checked.now)) led
        ≡ taken.go (world level (design_of checked.now) defined)
        (loc_of (design_of checked.now) at.now) (sent_of (design_of checked.now) packet.now)
        choices.now) }

    // and, by the tables alone
    ensures tables { IfOk result (λ led. option_map (spec.led_of (design_of checked.now)) led
        ≡ taken.go (world_by defs.now level (design_of checked.now))
        (loc_of (design_of checked.now) at.now) (sent_of (design_of checked.now) packet.now)
        choices.now) }
    ensures fits { IfOk result (λ led. IfSome led (λ r.
        FieldsFit (field_widths (design_of checked.now)) r.packet.fields)) }
    ensures at { IfOk result (λ led. IfSome led (λ r.
        HasRole (design_of checked.now) r.to.role level)) }
{
    go_laws(checked);
    lead_by_tables(alloc, checked, defs, level, at, packet, choices)
}

/// Where it leads, if no choice is left.
fn where_none_is_left(led: Option<Led<'_>>) -> Option<(Loc, Packet)>
    ensures leads { (d : Design) → option_map (spec.went_of d) result
        ≡ spec.all_taken (option_map (spec.led_of d) led.entry) }
    ensures same { IfSome result (λ r. (l : AsLed) × (led.entry ≡ Some l)
        × (l.to ≡ r.0) × (l.packet ≡ r.1)) }
{
    let led = led?;
    if led.rest.is_empty() {
        Some((led.to, led.packet))
    } else {
        None
    }
}

/// Where one body's run leads from a location of a level under these definitions, with exactly these
/// choices, in the order in which they are made. `None` where it leads nowhere: where the values do
/// not fit or a guard is not true, where a path ends without a `send`, where a choice does not fit, is
/// missing or is left over, and at the sink. The meaning is that of docs/LANGUAGE.md, "A body's run".
///
/// The time is in proportion to the statements that are run, with their expressions, and for each
/// look-up to the rows that are looked at, of a table whose rows compare all bits to the logarithm of
/// its rows; a variable is looked up among all that are in scope.
pub fn go(
    alloc: Global,
    checked: &Checked,
    defs: &Defs,
    level: u32,
    at: &Loc,
    packet: &Packet,
    choices: &[u64],
) -> Result<Option<(Loc, Packet)>, NoMemory>
    requires defs { FitsDesign (design_of checked.now) defs.now }
    requires role { HasRole (design_of checked.now) at.now.role level }
    requires fits { FieldsFit (field_widths (design_of checked.now)) packet.now.fields }
    ensures goes { IfOk result (λ to. (defined : Definitions)
        → Stands (design_of checked.now) defs.now defined
        → Leads (design_of checked.now) (world level (design_of checked.now) defined)
        at.now packet.now choices.now to) }

    // and, by the tables alone
    ensures tables { IfOk result (λ to. option_map (spec.went_of (design_of checked.now)) to
        ≡ spec.all_taken (taken.go (world_by defs.now level (design_of checked.now))
        (loc_of (design_of checked.now) at.now) (sent_of (design_of checked.now) packet.now)
        choices.now)) }
    ensures fits { IfOk result (λ to. IfSome to (λ r.
        FieldsFit (field_widths (design_of checked.now)) r.1.fields)) }
    ensures at { IfOk result (λ to. IfSome to (λ r.
        HasRole (design_of checked.now) r.0.role level)) }
{
    runs_are_taken();
    let led = lead(alloc, checked, defs, level, at, packet, choices)?;
    Ok(where_none_is_left(led))
}

/// The laws by which a run by tables is the run.
fn go_laws(checked: &Checked)
    ensures rules { Resolves (design_of checked.now) }
    ensures literals { (d : Syntax) → DesignLiteralsFit (design_of d) }
    ensures fitting { (d : Design) (tables : Items (Option Table)) → HasTables d tables
        → (level : ℕ) (at : At) (packet : Sent) (choices : Items ℕ)
        → LocFits level d at → PacketFits (layout d) packet
        → fitting_go (world_by tables level d) at packet choices
        ≡ taken.go (world_by tables level d) at packet choices }
    ensures runs { (d : Design) (tables : Items (Option Table)) (defined : Definitions)
        → HasTables d tables → values.Stands d tables defined
        → (level : ℕ) (at : At) (packet : Sent) (choices : Items ℕ)
        → LocFits level d at → PacketFits (layout d) packet
        → taken.go (world_by tables level d) at packet choices
        ≡ taken.go (world level d defined) at packet choices }
    ensures taken { RunsAreTaken }
{
    checked.design();
    code_literals_fit();
    fitting_runs_are_runs();
    runs_by_tables();
    runs_are_taken();
}

/// The laws of declared widths.
fn declared_widths()
    ensures functions { (design : Design) → Resolves design
        → All (λ (d : FunctionDecl). AllDeclared (widths_of d.params)) (functions design) }
    ensures fields { (design : Design) → Resolves design → AllDeclared (all_widths design.headers) }
    ensures roles { (design : Design) → Resolves design → (level : ℕ) (x : Items ℕ) (r : Role)
        → role_at level design x ≡ Some r → AllDeclared (widths_of r.params) }
{
    params_are_declared();
    fields_are_declared();
    role_params_are_declared();
}
