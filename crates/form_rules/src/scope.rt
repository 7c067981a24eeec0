//! What is bound where a path stands.
ghost use Rattle.std.specs.Prelude.{◌≡◌, ◌++◌, IfOk, OnOk, length, map};
ghost use Rattle.cocoon_num.specs.Names.{same_name};
ghost use Rattle.cocoon_syntax.specs.TreeOf.{header_of, name_of};
ghost use Rattle.form_rules.specs.Following as spec;
ghost use Rattle.form_rules.specs.Following.{bound, first_vars, names_in, names_of};

use cocoon_num::{NoMemory, Text};
use cocoon_syntax::{HeaderDecl, Name};
use std::alloc::Global;

/// A field of the packet.
#[derive(Drop)]
pub(crate) struct FieldName {
    pub(crate) header: Text,
    pub(crate) field: Text,
}

/// The fields of the packet, and the variables, the latest last.
#[derive(Drop)]
pub(crate) struct Scope {
    pub(crate) fields: Vec<FieldName>,
    pub(crate) vars: Vec<Text>,
}

/// Binds one more variable.
pub(crate) fn bind(alloc: Global, scope: &mut Scope, name: &Name) -> Result<(), NoMemory>
    ensures { OnOk result (names_of scope.new ≡ bound (name_of name.now) (names_of scope.old)) }
{
    let text = Text::from(alloc, name.text.bytes())?;
    scope.vars.push(text)?;
    Ok(())
}

/// How many variables are bound.
pub(crate) fn count(scope: &Scope) -> usize
    ensures { result ≡ length (names_of scope.now).vars }
{
    scope.vars.len()
}

/// Ends all but the first variables.
pub(crate) fn unbind(scope: &mut Scope, count: usize)
    ensures { names_of scope.new ≡ first_vars count (names_of scope.old) }
{
    scope.vars.truncate(count);
}

/// The index of the latest variable of a name.
#[tactic(auto, using(crate::proofs::Values::latest_push))]
pub(crate) fn latest(vars: &[Text], name: &[u8]) -> Option<usize>
    ensures { result ≡ spec.latest vars.now name.now }
{
    let mut earlier = vars;
    while let Some((last, rest)) = earlier.split_last() {
        if is_same(name, last.bytes()) {
            return Some(rest.len());
        }
        earlier = rest;
    }
    None
}

/// The index of the first field of a name.
pub(crate) fn first_field(fields: &[FieldName], header: &[u8], field: &[u8]) -> Option<usize>
    ensures { result ≡ spec.first_field fields.now header.now field.now }
{
    for (i, name) in fields.iter().enumerate() {
        if is_same(header, name.header.bytes()) && is_same(field, name.field.bytes()) {
            return Some(i);
        }
    }
    None
}

fn is_same(name: &[u8], other: &[u8]) -> bool
    ensures { result ≡ same_name name.now other.now }
{
    name == other
}

/// The fields of the headers of a packet, in order.
pub(crate) fn field_names(alloc: Global, headers: &[HeaderDecl]) -> Result<Vec<FieldName>, NoMemory>
    ensures { IfOk result (λ fields. fields.items ≡ names_in (map header_of headers.now)) }
{
    let mut fields = Vec::new(alloc);
    for header in headers {
        push_fields(alloc, &mut fields, header)?;
    }
    Ok(fields)
}

fn push_fields(
    alloc: Global,
    fields: &mut Vec<FieldName>,
    header: &HeaderDecl,
) -> Result<(), NoMemory>
    ensures { OnOk result (fields.new.items ≡
        fields.old.items ++ spec.names_of_header (header_of header.now)) }
{
    for field in &header.fields {
        fields.push(FieldName {
            header: Text::from(alloc, header.name.text.bytes())?,
            field: Text::from(alloc, field.name.text.bytes())?,
        })?;
    }
    Ok(())
}
