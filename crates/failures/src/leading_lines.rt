//! The lines before the definitions.
ghost use Rattle.std.specs.Prelude.{◌≡◌};
ghost use Rattle.cocoon_num.specs.PacketForms.{FieldsFit};
ghost use Rattle.cocoon_resolve.specs.Readers.{field_widths, HasRole};
ghost use Rattle.cocoon_syntax.specs.TreeOf.{design_of};
ghost use Rattle.role_meaning.specs.Located.{loc_of, role_name, sent_of};
ghost use Rattle.refinement.specs.Sending.{flat};
ghost use Rattle.text_lines.specs.Printing.{Prints};
ghost use Rattle.failures.specs.Found.{FailureFits, failure_of};
ghost use Rattle.failures.specs.FailureTexts as spec;

use crate::Failure;
use crate::numbers::push_list;
use cocoon_resolve::Checked;
use declarations::RoleId;
use role_meaning::{Loc, Packet};
use std::alloc::Global;
use text_lines::Printer;

/// The name of a role that is there at a level.
fn role_text(checked: &Checked, level: u32, role: RoleId) -> &[u8]
    requires { HasRole (design_of checked.now) role level }
    ensures { result.now ≡ role_name (design_of checked.now) role }
{
    let declared = checked.role(role, level);
    declared.name.text.bytes()
}

/// WORD ROLE VALUES
fn push_place(alloc: Global, checked: &Checked, level: u32, word: &str, at: &Loc, out: &mut Printer)
    requires { HasRole (design_of checked.now) at.now.role level }
    ensures { Prints out.old
        (spec.place_line word.now (loc_of (design_of checked.now) at.now)) out.new }
{
    out.push(word);
    out.push(" ");
    out.push_bytes(role_text(checked, level, at.role));
    push_list(alloc, at.values.items(), out);
    out.push("\n");
}

/// WORD NUMBERS
fn push_line(alloc: Global, word: &str, numbers: &[u64], out: &mut Printer)
    ensures { Prints out.old (spec.numbers_line word.now numbers.now) out.new }
{
    out.push(word);
    push_list(alloc, numbers, out);
    out.push("\n");
}

/// WORD FIELDS
fn push_packet(alloc: Global, checked: &Checked, word: &str, packet: &Packet, out: &mut Printer)
    requires { FieldsFit (field_widths (design_of checked.now)) packet.now.fields }
    ensures { Prints out.old (spec.numbers_line word.now
        (flat (sent_of (design_of checked.now) packet.now))) out.new }
{
    push_line(alloc, word, packet.fields.items(), out);
}

/// WORD level LEVEL role ROLE leaf LEAF
pub(crate) fn push_first(
    checked: &Checked,
    word: &str,
    level: u32,
    role: RoleId,
    leaf: u32,
    out: &mut Printer,
)
    requires { HasRole (design_of checked.now) role level }
    ensures { Prints out.old (spec.first_line word.now level
        (role_name (design_of checked.now) role) leaf) out.new }
{
    out.push(word);
    out.push(" level ");
    out.push_number(level);
    out.push(" role ");
    out.push_bytes(role_text(checked, level, role));
    out.push(" leaf ");
    out.push_number(leaf);
    out.push("\n");
}

/// Where the run begins, with what, and where it leads.
pub(crate) fn push_run(
    alloc: Global,
    checked: &Checked,
    level: u32,
    failure: &Failure,
    out: &mut Printer,
)
    requires { FailureFits level (design_of checked.now) failure.now }
    ensures { Prints out.old
        (spec.run_lines (failure_of (design_of checked.now) failure.now)) out.new }
{
    push_place(alloc, checked, level, "at", &failure.at, out);
    push_packet(alloc, checked, "packet", &failure.packet, out);
    push_line(alloc, "choices", failure.choices.items(), out);
    push_place(alloc, checked, level, "to", &failure.to, out);
    push_packet(alloc, checked, "sent", &failure.sent, out);
}
