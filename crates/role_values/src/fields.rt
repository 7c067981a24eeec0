//! The fields of a packet, whose numbers lie one after another in the order of declaration.
ghost use Rattle.std.specs.Prelude.{◌≡◌, ◌<◌, false, if◌then◌else◌, IfSome, length, map, None, option_map, Some};
ghost use Rattle.cocoon_num.specs.PacketForms.{FieldsFit};
ghost use Rattle.cocoon_resolve.specs.Readers.{all_widths};
ghost use Rattle.cocoon_syntax.specs.TreeOf.{header_of, param_of};
ghost use Rattle.cocoon_types.specs.Design as design;
ghost use Rattle.cocoon_types.specs.Design.{widths_of};
ghost use Rattle.role_values.specs.DeclaredWidths.{AllDeclared};
ghost use Rattle.role_values.specs.FieldPlaces as places;
ghost use Rattle.role_values.specs.Flat.{packet_of};
ghost use Rattle.role_values.specs.Meant.{meant};
ghost use Rattle.role_values.specs.Written.{written};

use crate::bindings::{fits, is_same, number_value};
use crate::value::Value;
use cocoon_syntax::{HeaderDecl, Param};

/// The value of a field among those of one header.
fn read_in(params: &[Param], numbers: &[u64], field: &[u8]) -> Option<Value>
    requires widths { AllDeclared (widths_of (map param_of params.now)) }
    requires fits { FieldsFit (widths_of (map param_of params.now)) numbers.now }
    ensures { option_map meant result
        ≡ design.read_in (map param_of params.now) numbers.now field.now }
{
    for (index, param) in params.iter().enumerate() {
        if is_same(field, param.name.text.bytes()) {
            return Some(number_value(param.width, u128::from(numbers[index])));
        }
    }
    None
}

/// The value of a field of a header.
pub(crate) fn read_field(
    headers: &[HeaderDecl],
    numbers: &[u64],
    header: &[u8],
    field: &[u8],
) -> Option<Value>
    requires widths { AllDeclared (all_widths (map header_of headers.now)) }
    requires fits { FieldsFit (all_widths (map header_of headers.now)) numbers.now }
    ensures { option_map meant result ≡ design.read_field (map header_of headers.now)
        (packet_of (map header_of headers.now) numbers.now) header.now field.now }
{
    let mut rest = numbers;
    for declared in headers {
        let (own, others) = rest.split_at(declared.fields.len());
        if is_same(header, declared.name.text.bytes()) {
            return read_in(&declared.fields, own, field);
        }
        rest = others;
    }
    None
}

/// Where a field lies among the numbers of all fields, and its width in bits.
#[derive(Clone, Copy, Drop)]
pub(crate) struct FieldPlace {
    pub(crate) index: usize,
    pub(crate) width: u32,
}

/// The place of a field among those of one header.
fn place_in(params: &[Param], field: &[u8]) -> Option<FieldPlace>
    ensures { result ≡ places.place_in (map param_of params.now) field.now }
{
    for (index, param) in params.iter().enumerate() {
        if is_same(field, param.name.text.bytes()) {
            return Some(FieldPlace {
                index,
                width: param.width,
            });
        }
    }
    None
}

/// The place of a field of a header, whose numbers are these.
fn place_of(
    headers: &[HeaderDecl],
    numbers: &[u64],
    header: &[u8],
    field: &[u8],
) -> Option<FieldPlace>
    requires { FieldsFit (all_widths (map header_of headers.now)) numbers.now }
    ensures { result ≡ places.place_of (map header_of headers.now) header.now field.now }
{
    let mut before = 0;
    for declared in headers {
        if is_same(header, declared.name.text.bytes()) {
            let place = place_in(&declared.fields, field)?;
            return Some(FieldPlace {
                index: before + place.index,
                width: place.width,
            });
        }
        before += declared.fields.len();
    }
    None
}

/// Sets a field of a header. False where there is no such field, or the number does not fit it.
pub fn write_field(
    headers: &[HeaderDecl],
    numbers: &mut Vec<u64>,
    header: &[u8],
    field: &[u8],
    number: u128,
) -> bool
    requires widths { AllDeclared (all_widths (map header_of headers.now)) }
    requires fits { FieldsFit (all_widths (map header_of headers.now)) numbers.old.items }
    ensures fits { FieldsFit (all_widths (map header_of headers.now)) numbers.new.items }
    ensures writes { (if result
        then Some (packet_of (map header_of headers.now) numbers.new.items) else None)
        ≡ written (map header_of headers.now)
        (packet_of (map header_of headers.now) numbers.old.items)
        header.now field.now number }
    ensures same { result ≡ false → numbers.new.items ≡ numbers.old.items }
{
    let Some(place) = place_of(headers, numbers, header, field) else {
        return false;
    };
    if !fits(place.width, number) {
        return false;
    }
    numbers[place.index] = number as u64;
    true
}
