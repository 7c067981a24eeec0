//! The phases of the rules, one after the other, and then the limits.
ghost use Rattle.std.specs.Prelude.{◌≡◌, IfErr, IfOk, OnOk};
ghost use Rattle.cocoon_syntax.specs.TreeOf.{design_of};
ghost use Rattle.cocoon_types.specs.FirstFault.{is_fault};
ghost use Rattle.cocoon_types.specs.Limits.{WithinLimits};
ghost use Rattle.cocoon_types.specs.Noting.{FirstOf};
ghost use Rattle.cocoon_types.specs.Rules.{WellFormed};
ghost use Rattle.declarations.specs.Declares.{Declares};
ghost use Rattle.cocoon_resolve.specs.Resolved.{IsRefused, Resolves, WasRead};

use crate::checked::Checked;
use crate::fault::TypeFault;
use crate::first::first_limit;
use cocoon_num::NoMemory;
use cocoon_syntax::Design;
use cocoon_types::Noted;
use cocoon_types::first_faults::{earlier_phases, found_none, noting_laws};
use declarations::Declarations;
use form_rules::note_forms;
use name_rules::note_names;
use std::alloc::Global;
use type_rules::note_types;

/// The design, if it keeps all rules and is within all limits; else its first fault, by phases, token indices and the order
/// of the rules, or the first limit that it is over. It has to be the tree of a text.
pub fn resolve(alloc: Global, design: Design) -> Result<Checked, TypeFault>
    requires { WasRead (design_of design) }
    ensures ok { IfOk result (λ checked. checked ≡ design) }
    ensures resolves { IfOk result (λ checked. Resolves (design_of design)) }
    ensures refused { IfErr result (IsRefused (design_of design)) }
{
    let names = Declarations::new(alloc, &design)?;
    test_rules(alloc, &names, &design)?;
    test_limits(alloc, &design)?;
    Ok(Checked::new(alloc, names, design)?)
}

/// Tests the rules.
fn test_rules(alloc: Global, names: &Declarations, design: &Design) -> Result<(), TypeFault>
    requires { Declares names.now (design_of design.now) }
    ensures keeps { OnOk result (WellFormed (design_of design.now)) }
    ensures refused { IfErr result (IsRefused (design_of design.now)) }
{
    found_none();
    let noted = note_all(alloc, names, design)?;
    match noted.found() {
        Some((rule, at)) => Err(TypeFault::Rule(rule, at)),
        None => Ok(()),
    }
}

/// Notes the first fault: a later phase is looked at only where the earlier ones have none.
fn note_all(alloc: Global, names: &Declarations, design: &Design) -> Result<Noted, NoMemory>
    requires { Declares names.now (design_of design.now) }
    ensures { IfOk result (FirstOf (is_fault (design_of design.now))) }
{
    noting_laws();
    earlier_phases();
    let mut noted = Noted::new();
    note_names(alloc, names, design, &mut noted)?;
    if noted.found().is_some() {
        return Ok(noted);
    }
    note_types(alloc, names, design, &mut noted)?;
    if noted.found().is_some() {
        return Ok(noted);
    }
    note_forms(alloc, names, design, &mut noted)?;
    Ok(noted)
}

/// Tests the limits of a design that keeps the rules.
fn test_limits(alloc: Global, design: &Design) -> Result<(), TypeFault>
    ensures within { OnOk result (WithinLimits (design_of design.now)) }
    ensures refused { WellFormed (design_of design.now)
        → IfErr result (IsRefused (design_of design.now)) }
{
    match first_limit(alloc, design)? {
        Some((name, count)) => Err(TypeFault::Limit(name, count)),
        None => Ok(()),
    }
}
