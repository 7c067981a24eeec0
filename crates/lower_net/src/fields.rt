//! The texts of meta fields.
ghost use Rattle.std.specs.Prelude.{◌≡◌, ◌++◌, ◌∷◌, [], IfOk, map, OnOk};
ghost use Rattle.cocoon_num.specs.Tree.{Design};
ghost use Rattle.lowering.specs.Lower.{key_name, result_name, site_name, var_name};
ghost use Rattle.lower_code.specs.Growth.{field_name_of, made_in, made_of};
ghost use Rattle.lowering.specs.SwitchProgram as spec;
ghost use Rattle.p4_ir.specs.Program.{field_of};

use cocoon_num::{NoMemory, Text};
use lower_code::{FieldName, Made, MetaField};
use p4_ir::P4Field;
use std::alloc::Global;
use text_lines::Printer;

fn key_text(alloc: Global, app: u32, key: u32) -> Result<Vec<u8>, NoMemory>
    ensures { IfOk result (λ t. t.items ≡ spec.field_text (key_name app key)) }
{
    let mut printer = Printer::new(alloc);
    printer.push("k");
    printer.push_number(app);
    printer.push("_");
    printer.push_number(key);
    printer.finish()
}

fn result_text(alloc: Global, app: u32) -> Result<Vec<u8>, NoMemory>
    ensures { IfOk result (λ t. t.items ≡ spec.field_text (result_name app)) }
{
    let mut printer = Printer::new(alloc);
    printer.push("r");
    printer.push_number(app);
    printer.finish()
}

fn variable_text(alloc: Global, number: u32) -> Result<Vec<u8>, NoMemory>
    ensures { IfOk result (λ t. t.items ≡ spec.field_text (var_name number)) }
{
    let mut printer = Printer::new(alloc);
    printer.push("v");
    printer.push_number(number);
    printer.finish()
}

fn site_text(alloc: Global) -> Result<Vec<u8>, NoMemory>
    ensures { IfOk result (λ t. t.items ≡ spec.field_text site_name) }
{
    Ok(b"site".to_vec(alloc)?)
}

/// The text of a field's name.
fn field_text(alloc: Global, name: FieldName) -> Result<Vec<u8>, NoMemory>
    ensures { IfOk result (λ t. t.items ≡ spec.field_text (field_name_of name)) }
{
    match name {
        FieldName::Site => site_text(alloc),
        FieldName::Key(app, key) => key_text(alloc, app, key),
        FieldName::Result(app) => result_text(alloc, app),
        FieldName::Variable(number) => variable_text(alloc, number),
    }
}

/// A meta field. There is no memory where its width does not fit a byte, which no width of a checked design does.
fn p4_field(alloc: Global, field: &MetaField) -> Result<P4Field, NoMemory>
    ensures { IfOk result (λ f. field_of f
        ≡ record {
          name = spec.field_text (field_name_of field.now.name);
          width = field.now.width;
        }) }
{
    let text = field_text(alloc, field.name)?;
    let width = u8::try_from(field.width).map_err(|_| NoMemory)?;
    let name = Text::from(alloc, &text)?;
    Ok(P4Field { name, width })
}

/// Puts a meta field that was made at the end; of a table nothing.
fn push_field(alloc: Global, fields: &mut Vec<P4Field>, part: &Made) -> Result<(), NoMemory>
    ensures { (d : Design) → OnOk result (map field_of fields.new.items
        ≡ map field_of fields.old.items ++ spec.fields_in (made_of d part.now ∷ [])) }
{
    match part {
        Made::Field(field) => {
            fields.push(p4_field(alloc, field)?)?;
            Ok(())
        }
        Made::Table(_, _) => Ok(()),
        Made::Group(_, _) => Ok(()),
    }
}

/// Puts the meta fields that were made at the end, in order.
pub(crate) fn push_fields(
    alloc: Global,
    fields: &mut Vec<P4Field>,
    made: &[Made],
) -> Result<(), NoMemory>
    ensures { (d : Design) → OnOk result (map field_of fields.new.items
        ≡ map field_of fields.old.items ++ spec.fields_in (made_in d made.now)) }
{
    for part in made {
        push_field(alloc, fields, part)?;
    }
    Ok(())
}

/// The field that holds the number of a fork.
pub(crate) fn site_field(alloc: Global) -> Result<P4Field, NoMemory>
    ensures { IfOk result (λ f. field_of f
        ≡ record { name = spec.field_text site_name; width = 8 }) }
{
    let text = site_text(alloc)?;
    let name = Text::from(alloc, &text)?;
    Ok(P4Field { name, width: 8 })
}
