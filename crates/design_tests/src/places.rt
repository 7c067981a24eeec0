//! Locations and packets, as cases write them: a role with its values, and the values of fields.
ghost use Rattle.std.specs.Prelude.{◌≡◌, ◌∷◌, [], IfSome, true};
ghost use Rattle.cocoon_num.specs.PacketForms.{FieldsFit};
ghost use Rattle.cocoon_resolve.specs.Readers.{field_widths, HasRole};
ghost use Rattle.cocoon_syntax.specs.TreeOf.{design_of};

use case_files::{Printer, first_word, numbers};
use cocoon_num::List;
use cocoon_resolve::Checked;
use declarations::RoleId;
use role_meaning::{Loc, Packet};
use role_values::bindings::fits;
use std::alloc::Global;

/// The numbers of a text with blanks between them; none for `-`.
pub fn listed(alloc: Global, text: &str) -> Option<Vec<u64>> {
    if text == "-" {
        return Some(Vec::new(alloc));
    }
    numbers(alloc, text, ' ')
}

/// The number of the role of a name that is there at a level.
fn role_there(checked: &Checked, level: u32, name: &[u8]) -> Option<RoleId>
    ensures { IfSome result (λ role. HasRole (design_of checked.now) role level) }
{
    checked.names().role_at(checked.design(), name, level)?;
    checked.role_of(name)
}

/// The location that a text says, of a role that is there at a level.
pub fn location(alloc: Global, checked: &Checked, level: u32, text: &str) -> Option<Loc>
    ensures { IfSome result (λ at. HasRole (design_of checked.now) at.role level) }
{
    let (name, words) = first_word(text);
    let role = role_there(checked, level, name.as_bytes())?;
    let values = List::from(listed(alloc, words)?);
    Some(Loc { role, values })
}

/// Whether the number fits so many bits.
fn is_within(width: u8, number: u64) -> bool
    ensures { result ≡ true → FieldsFit (width ∷ []) (number ∷ []) }
{
    width <= 64 && fits(u32::from(width), u128::from(number))
}

/// Whether the numbers are as many as the widths, and each fits.
fn all_within(widths: &[u8], numbers: &[u64]) -> bool
    ensures { result ≡ true → FieldsFit widths.now numbers.now }
{
    match (widths.split_first(), numbers.split_first()) {
        (Some((width, widths)), Some((number, numbers))) => {
            is_within(*width, *number) && all_within(widths, numbers)
        }
        (None, None) => true,
        _ => false,
    }
}

/// The packet of these fields.
pub fn packet(alloc: Global, checked: &Checked, text: &str) -> Option<Packet>
    ensures { IfSome result (λ p. FieldsFit (field_widths (design_of checked.now)) p.fields) }
{
    let fields = listed(alloc, text)?;
    if all_within(checked.field_widths(), &fields) {
        let fields = List::from(fields);
        Some(Packet { fields })
    } else {
        None
    }
}

/// Puts each number behind a blank.
fn put_numbers(numbers: &[u64], given: &mut Printer) {
    for number in numbers {
        given.put(" ");
        given.put_number(*number);
    }
}

/// Puts a location and a packet, as `Out 1 : 2 3`.
pub fn put_place(checked: &Checked, level: u32, at: &Loc, packet: &Packet, given: &mut Printer)
    requires { HasRole (design_of checked.now) at.now.role level }
{
    let role = checked.role(at.role, level);
    given.put_bytes(role.name.text.bytes());
    put_numbers(at.values.items(), given);
    given.put(" :");
    put_numbers(packet.fields.items(), given);
}
