//! The rules on forms, one after the other.
ghost use Rattle.std.specs.Prelude.{OnOk};
ghost use Rattle.cocoon_syntax.specs.TreeOf.{design_of};
ghost use Rattle.cocoon_types.specs.FirstFault.{is_fault_of};
ghost use Rattle.cocoon_types.specs.Noting.{Notes};
ghost use Rattle.declarations.specs.Declares.{Declares};

use crate::bodies::note_bodies;
use crate::declared::all_roles;
use crate::guards::note_guard_form;
use crate::hidden::note_hidden_choice;
use crate::refined::note_header_changed;
use crate::roles::note_sink_form;
use crate::switches::note_not_switch_form;
use cocoon_num::NoMemory;
use cocoon_syntax::Design;
use cocoon_types::Noted;
use cocoon_types::first_faults::noting_laws;
use declarations::Declarations;
use std::alloc::Global;

/// Notes the faults of a design by the rules on forms. Its tables are those of its declarations.
pub fn note_forms(
    alloc: Global,
    names: &Declarations,
    design: &Design,
    noted: &mut Noted,
) -> Result<(), NoMemory>
    requires { Declares names.now (design_of design.now) }
    ensures { OnOk result (Notes (is_fault_of 3 (design_of design.now)) noted.old noted.new) }
{
    noting_laws();
    let roles = all_roles(alloc, design)?;
    note_sink_form(names, design, &roles, noted);
    note_header_changed(names, design, noted)?;
    note_guard_form(names, design, &roles, noted);
    note_not_switch_form(names, design, &roles, noted);
    note_bodies(alloc, names, design, noted)?;
    note_hidden_choice(alloc, names, design, noted)?;
    Ok(())
}
