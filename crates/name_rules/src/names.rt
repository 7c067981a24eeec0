//! All passes over a design.
ghost use Rattle.std.specs.Prelude.{OnOk};
ghost use Rattle.cocoon_syntax.specs.TreeOf.{design_of};
ghost use Rattle.cocoon_types.specs.FirstFault.{is_fault_of};
ghost use Rattle.cocoon_types.specs.Noting.{Notes};
ghost use Rattle.cocoon_types.specs.Rules.{twice};
ghost use Rattle.declarations.specs.Declares.{Declares};
ghost use Rattle.cocoon_types.specs.Among.{among};
ghost use Rattle.name_rules.specs.Among.{is_list_fault, twice_declared};

use crate::again::{note_fields, note_functions, note_headers};
use crate::hosts::{note_no_host, note_no_switch};
use crate::later::{note_hosts, note_switches};
use crate::listed::note_not_refinable;
use crate::note_uses;
use crate::params::note_all_params;
use crate::redeclared::note_roles_again;
use crate::refined::note_sink_refined;
use crate::unknown::note_unknown_roles;
use cocoon_num::NoMemory;
use cocoon_syntax::Design;
use cocoon_types::first_faults::noting_laws;
use cocoon_types::{Noted, among_laws};
use declarations::Declarations;
use std::alloc::Global;

/// Notes names that stand twice among declarations.
fn note_twice(
    alloc: Global,
    names: &Declarations,
    design: &Design,
    noted: &mut Noted,
) -> Result<(), NoMemory>
    requires { Declares names.now (design_of design.now) }
    ensures { OnOk result (Notes (among twice (twice_declared (design_of design.now)))
        noted.old noted.new) }
{
    among_laws();
    note_headers(alloc, &design.headers, noted)?;
    note_fields(alloc, &design.headers, noted)?;
    note_functions(alloc, design, noted)?;
    note_all_params(alloc, design, noted)?;
    note_roles_again(alloc, names, design, noted)?;
    note_hosts(design, noted);
    note_switches(design, noted);
    Ok(())
}

/// Notes what is wrong with roles where declarations and lists name them, and that hosts or switches are missing.
fn note_lists(
    alloc: Global,
    names: &Declarations,
    design: &Design,
    noted: &mut Noted,
) -> Result<(), NoMemory>
    requires { Declares names.now (design_of design.now) }
    ensures { OnOk result (Notes (is_list_fault (design_of design.now)) noted.old noted.new) }
{
    noting_laws();
    note_unknown_roles(names, design, noted)?;
    note_not_refinable(alloc, names, design, noted)?;
    note_sink_refined(names, design, noted);
    note_no_host(names, design, noted);
    note_no_switch(names, design, noted);
    Ok(())
}

/// Notes the faults of a design by the rules on names. Its tables are those of its declarations.
pub fn note_names(
    alloc: Global,
    names: &Declarations,
    design: &Design,
    noted: &mut Noted,
) -> Result<(), NoMemory>
    requires { Declares names.now (design_of design.now) }
    ensures { OnOk result (Notes (is_fault_of 1 (design_of design.now)) noted.old noted.new) }
{
    noting_laws();
    note_twice(alloc, names, design, noted)?;
    note_lists(alloc, names, design, noted)?;
    note_uses(alloc, names, design, noted)?;
    Ok(())
}
