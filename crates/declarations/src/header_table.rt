//! Headers and their fields, by name.
ghost use Rattle.std.specs.Prelude.{◌≡◌, List, ℕ, IfOk, map, option_map};
ghost use Rattle.cocoon_num.specs.Tree.{HeaderDecl as Header};
ghost use Rattle.cocoon_num.specs.Names.{named};
ghost use Rattle.cocoon_syntax.specs.TreeOf.{header_of, param_of};
ghost use Rattle.cocoon_types.specs.Design.{field_width};
ghost use Rattle.numbering.specs.NameNumbers.{Numbers};
ghost use Rattle.declarations.specs.Declares as spec;
ghost use Rattle.declarations.specs.Declares.{width_in, HoldsFields, HoldsHeaders, field_texts, header_texts};

use crate::place::item;
use cocoon_num::NoMemory;
use cocoon_syntax::{HeaderDecl, Param};
use numbering::NameTable;
use std::alloc::Global;

/// The headers, and the fields of each.
#[derive(Drop)]
pub struct HeaderTable {
    headers: NameTable,
    fields: Vec<NameTable>,
}

/// The width of the field of this number.
fn width_at(header: &HeaderDecl, index: u32) -> Option<u32>
    ensures { result ≡ spec.width_at index (header_of header.now) }
{
    Some(item(&header.fields, index as usize)?.width)
}

fn field_table(alloc: Global, fields: &[Param]) -> Result<NameTable, NoMemory>
    ensures { IfOk result (λ table. Numbers table (field_texts (map param_of fields.now))) }
{
    let mut table = NameTable::new(alloc);
    for field in fields {
        table.append(alloc, field.name.text.bytes())?;
    }
    Ok(table)
}

fn field_tables(alloc: Global, headers: &[HeaderDecl]) -> Result<Vec<NameTable>, NoMemory>
    ensures { IfOk result (λ tables. HoldsFields tables.items (map header_of headers.now)) }
{
    let mut tables = Vec::new(alloc);
    for header in headers {
        tables.push(field_table(alloc, &header.fields)?)?;
    }
    Ok(tables)
}

fn header_names(alloc: Global, headers: &[HeaderDecl]) -> Result<NameTable, NoMemory>
    ensures { IfOk result (λ table. Numbers table (header_texts (map header_of headers.now))) }
{
    let mut table = NameTable::new(alloc);
    for header in headers {
        table.append(alloc, header.name.text.bytes())?;
    }
    Ok(table)
}

impl HeaderTable {
    pub fn new(alloc: Global, headers: &[HeaderDecl]) -> Result<HeaderTable, NoMemory>
        ensures { IfOk result (λ table. HoldsHeaders table (map header_of headers.now)) }
    {
        let names = header_names(alloc, headers)?;
        Ok(HeaderTable {
            headers: names,
            fields: field_tables(alloc, headers)?,
        })
    }

    /// The header of this name.
    pub fn header<'d>(&self, headers: &'d [HeaderDecl], name: &[u8]) -> Option<&'d HeaderDecl>
        requires { HoldsHeaders self.now (map header_of headers.now) }
        ensures { option_map (λ h. header_of h.now) result
            ≡ named (λ (h : Header). h.name) name.now (map header_of headers.now) }
    {
        item(headers, self.headers.number(name)? as usize)
    }

    /// The width of a field of the header of this number.
    fn width_in(&self, headers: &[HeaderDecl], number: usize, field: &[u8]) -> Option<u32>
        ensures { result
            ≡ width_in self.now.fields.items (map header_of headers.now) field.now number }
    {
        let index = item(&self.fields, number)?.number(field)?;
        width_at(item(headers, number)?, index)
    }

    /// The width of a field.
    pub fn field_width(&self, headers: &[HeaderDecl], header: &[u8], field: &[u8]) -> Option<u32>
        requires { HoldsHeaders self.now (map header_of headers.now) }
        ensures { result ≡ field_width (map header_of headers.now) header.now field.now }
    {
        self.width_in(headers, self.headers.number(header)? as usize, field)
    }
}
