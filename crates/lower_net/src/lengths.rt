//! Which files would be too long, as far as that is known before they are made. Of such a network no rows are made, and no
//! program but the first, since its files may find no memory.
ghost use Rattle.std.specs.Prelude.{◌≡◌, IfOk, length, map};
ghost use Rattle.cocoon_syntax.specs.TreeOf.{design_of};
ghost use Rattle.cocoon_types.specs.Design as design;
ghost use Rattle.lower_net.specs.Limits.{long_program, many_rows};
ghost use Rattle.lower_rows.specs.AllGroups.{fork_group_of};
ghost use Rattle.lower_net.specs.NetDeclarations.{switch_role};
ghost use Rattle.lowering_correct.specs.Groups as spec;

use crate::{Parts, program_size, switch_code};
use cocoon_num::NoMemory;
use cocoon_resolve::Checked;
use lower_rows::{ForkGroup, has_more_rows};
use p4_ir::MOST_FILE_BYTES;
use runtime_defs::Defs;
use std::alloc::Global;

/// The most rows that a file can hold, since its text has at least 20 bytes for each.
pub const MOST_FILE_ROWS: u64 = 209_715;

/// The first switch, where the code of its program is too large: the text has at least as many bytes as the code is large.
pub(crate) fn find_long_program(
    alloc: Global,
    checked: &Checked,
    functions: u32,
    parts: &Parts<'_>,
    numbers: &[u16],
) -> Result<Option<u16>, NoMemory>
    requires { functions ≡ length (design.functions (design_of checked.now)) }
    ensures { IfOk result (λ switch. switch
        ≡ long_program (switch_role (design_of checked.now) parts.now.ingress) numbers.now) }
{
    let Some(number) = numbers.first() else {
        return Ok(None);
    };
    let size = program_size(alloc, checked, functions, &parts.ingress)?;
    if size > MOST_FILE_BYTES {
        Ok(Some(*number))
    } else {
        Ok(None)
    }
}

/// The first switch, where it has too many rows.
pub(crate) fn find_many_rows(
    alloc: Global,
    checked: &Checked,
    defs: &Defs,
    functions: u32,
    parts: &Parts<'_>,
    groups: &[ForkGroup<'_>],
    numbers: &[u16],
) -> Result<Option<u16>, NoMemory>
    requires functions { functions ≡ length (design.functions (design_of checked.now)) }
    requires groups { map fork_group_of groups.now
        ≡ spec.fork_groups (design_of checked.now) defs.now }
    ensures { IfOk result (λ switch. switch ≡ many_rows (design_of checked.now) defs.now
        (switch_role (design_of checked.now) parts.now.ingress) numbers.now) }
{
    let Some(number) = numbers.first() else {
        return Ok(None);
    };
    let code = switch_code(alloc, checked, functions, &parts.ingress, *number)?;
    if has_more_rows(
        checked,
        defs,
        groups,
        &code.ingress,
        &code.egress,
        MOST_FILE_ROWS,
    ) {
        Ok(Some(*number))
    } else {
        Ok(None)
    }
}
