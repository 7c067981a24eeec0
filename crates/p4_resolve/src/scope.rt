//! What the names of a text stand for. They are put into tables once.
ghost use Rattle.std.specs.Prelude.{◌≡◌, ◌<◌, ◌^◌, IfOk, List as Items, length, map, option_map, slice_get, true, ℕ};
ghost use Rattle.p4_ir.specs.P4Kinds as rules;
ghost use Rattle.p4_ir.specs.Program as ir;
ghost use Rattle.p4_ir.specs.P4Kinds.{Within};
ghost use Rattle.p4_kinds.specs.Typed.{sort_of};
ghost use Rattle.p4_texts.specs.Meant as meant;
ghost use Rattle.p4_resolve.specs.Controls.{KnowsText};
ghost use Rattle.numbering.specs.NameNumbers.{Numbers};
ghost use Rattle.p4_resolve.specs.Scopes.{EachFew, EachNumbers, Knows, member_names};
ghost use Rattle.p4_texts.specs.Written.{ProgramText, text_tokens};
ghost use Rattle.p4_texts.specs.TreeOf.{field_of, header_of, member_of, text_of};

use cocoon_num::{List, NoMemory};
use numbering::NameTable;
use p4_ir::{Control, P4Field, P4Header, Program};
use p4_kinds::exprs::{field_sort, meta_sort};
use p4_kinds::sort::Sort;
use p4_texts::written::{WrittenField, WrittenHeader, WrittenMember, WrittenProgram};
use std::alloc::Global;
use std::collections::BTreeSet;

/// The place of the first that is this name, and else how many there are.
pub(crate) fn place(names: &NameTable, name: &[u8]) -> u32
    ensures { (all : Items (Items ℕ)) → Numbers names.now all
        → result ≡ meant.place_in all name.now }
{
    names.number(name).unwrap_or(names.count())
}

fn field_names(alloc: Global, fields: &[WrittenField]) -> Result<NameTable, NoMemory>
    requires few { length fields.now < 2 ^ 32 }
    ensures { IfOk result (λ names. Numbers names (meant.names_of (map field_of fields.now))) }
{
    let mut names = NameTable::new(alloc);
    for field in fields {
        names.add(alloc, field.name.bytes())?;
    }
    Ok(names)
}

fn names_of_members(alloc: Global, members: &[WrittenMember]) -> Result<NameTable, NoMemory>
    requires few { length members.now < 2 ^ 32 }
    ensures { IfOk result (λ names. Numbers names (member_names (map member_of members.now))) }
{
    let mut names = NameTable::new(alloc);
    for member in members {
        names.add(alloc, member.name.bytes())?;
    }
    Ok(names)
}

fn names_of_headers(alloc: Global, headers: &[WrittenHeader]) -> Result<Vec<NameTable>, NoMemory>
    requires few { EachFew (map header_of headers.now) }
    ensures { IfOk result (λ names. EachNumbers names.items (map header_of headers.now)) }
{
    let mut names = Vec::new(alloc);
    for header in headers {
        names.push(field_names(alloc, header.fields.items())?)?;
    }
    Ok(names)
}

fn names_at(names: &Vec<NameTable>, index: u32) -> Option<&NameTable>
    ensures { option_map (λ found. found.now) result ≡ slice_get names.now.items index }
{
    names.get(index as usize)
}

/// What the names of a text stand for, and where a statement stands. The program has no statements.
#[derive(Drop)]
pub(crate) struct Scope {
    pub program: Program,
    pub meta: NameTable,
    headers: NameTable,
    fields: Vec<NameTable>,
    pub in_ingress: bool,
    pub tables: BTreeSet<u32>,
}

fn empty_control(alloc: Global) -> Control {
    Control {
        tables: List::from(Vec::new(alloc)),
        body: List::from(Vec::new(alloc)),
    }
}

/// A program with these declarations, and nothing else.
fn declared(alloc: Global, headers: Vec<P4Header>, meta: Vec<P4Field>) -> Program
    ensures headers { result.headers ≡ headers.items }
    ensures meta { result.meta ≡ meta.items }
{
    let headers = List::from(headers);
    let meta = List::from(meta);
    let (ingress, egress) = (empty_control(alloc), empty_control(alloc));
    Program {
        headers,
        meta,
        ingress,
        egress,
    }
}

impl Scope {
    /// That of a text with these headers and meta fields, in ingress, with no tables.
    pub fn new(
        alloc: Global,
        text: &WrittenProgram,
        headers: Vec<P4Header>,
        meta: Vec<P4Field>,
    ) -> Result<Scope, NoMemory>
        requires few { length (text_tokens (text_of text.now)) < 2 ^ 32 }
        ensures known { map ir.header_of headers.items
            ≡ map meant.header_meant (text_of text.now).headers
            → map ir.field_of meta.items ≡ map meant.meta_meant (text_of text.now).rest.meta
            → IfOk result (λ scope. KnowsText scope (text_of text.now)) }
        ensures in_ingress { IfOk result (λ scope. scope.in_ingress ≡ true) }
    {
        let program = declared(alloc, headers, meta);
        let meta = field_names(alloc, text.meta.items())?;
        let headers = names_of_members(alloc, text.members.items())?;
        let fields = names_of_headers(alloc, text.headers.items())?;
        let tables = BTreeSet::new(alloc);
        Ok(Scope {
            program,
            meta,
            headers,
            fields,
            in_ingress: true,
            tables,
        })
    }

    pub fn headers(&self) -> &[P4Header]
        ensures { result.now ≡ self.now.program.headers }
    {
        self.program.headers.items()
    }

    /// The program of these declarations and controls.
    pub fn into_program(self, ingress: Control, egress: Control) -> Program
        ensures { (t : ProgramText) → KnowsText self t
            → ir.control_of ingress ≡ meant.control_meant t t.rest.ingress
            → ir.control_of egress ≡ meant.control_meant t t.rest.egress
            → ir.program_of result ≡ meant.program_of_text t }
    {
        Program {
            headers: self.program.headers,
            meta: self.program.meta,
            ingress,
            egress,
        }
    }

    /// The number of a meta field.
    pub fn meta(&self, name: &[u8]) -> u32
        ensures { (t : ProgramText) (c : Within) → Knows self.now t c
            → result ≡ meant.meta_at t name.now }
    {
        place(&self.meta, name)
    }

    /// The number of a header.
    pub fn header(&self, name: &[u8]) -> u32
        ensures { (t : ProgramText) (c : Within) → Knows self.now t c
            → result ≡ meant.header_at t name.now }
    {
        place(&self.headers, name)
    }

    /// The number of a field of this header.
    pub fn field(&self, header: u32, name: &[u8]) -> u32
        ensures { (t : ProgramText) (c : Within) → Knows self.now t c
            → result ≡ meant.field_at t header name.now }
    {
        match names_at(&self.fields, header) {
            Some(names) => place(names, name),
            None => 0,
        }
    }

    /// The type of a meta field, if there is one of this number.
    pub fn meta_sort(&self, index: u32) -> Option<Sort>
        ensures { (t : ProgramText) (c : Within) → Knows self.now t c
            → sort_of result ≡ rules.meta_sort c.program index }
    {
        meta_sort(&self.program, index)
    }

    /// The type of a field of a header, if there is one of these numbers.
    pub fn field_sort(&self, header: u32, field: u32) -> Option<Sort>
        ensures { (t : ProgramText) (c : Within) → Knows self.now t c
            → sort_of result ≡ rules.field_sort c.program header field }
    {
        field_sort(&self.program, header, field)
    }
}
