//! The tables of a design, and their readers.
ghost use Rattle.std.specs.Prelude.{◌≡◌, ◌<◌, ℕ, List, IfOk, Some, length, map, option_map, slice_get};
ghost use Rattle.cocoon_num.specs.Tree.{FunctionDecl as Function, HeaderDecl as Header};
ghost use Rattle.cocoon_num.specs.Names.{named};
ghost use Rattle.cocoon_syntax.specs.TreeOf.{design_of, function_of, header_of, host_of, role_of, switch_of};
ghost use Rattle.cocoon_types.specs.Design.{as_function, as_host, as_role, as_switch, field_width, functions, host_decl, role_at, switch_decl};
ghost use Rattle.cocoon_types.specs.TypeRules.{first_role};
ghost use Rattle.declarations.specs.Declares.{Declares, fetch, function_number, role_number};

use crate::decl_table::DeclTable;
use crate::header_table::HeaderTable;
use crate::place::{Place, decl_at};
use cocoon_num::NoMemory;
use cocoon_syntax::{Decl, Design, FunctionDecl, HeaderDecl, HostDecl, Role, SwitchDecl};
use std::alloc::Global;

/// The number of a function, in the order of declaration.
pub type FunId = u32;

/// The number of a role, in the order of first declarations.
pub type RoleId = u32;

/// The tables of one design. Each reader is given that design.
#[derive(Drop)]
pub struct Declarations {
    headers: HeaderTable,
    decls: DeclTable,
}

fn function_at<'d>(design: &'d Design, place: Place) -> Option<&'d FunctionDecl>
    ensures { option_map (λ f. function_of f.now) result
        ≡ fetch as_function (design_of design.now) place }
{
    match decl_at(design, place)? {
        Decl::Function(function) => Some(function),
        _ => None,
    }
}

fn role_declared_at<'d>(design: &'d Design, place: Place) -> Option<&'d Role>
    ensures { option_map (λ r. role_of r.now) result ≡ fetch as_role (design_of design.now) place }
{
    match decl_at(design, place)? {
        Decl::Role(role) => Some(role),
        _ => None,
    }
}

fn host_at<'d>(design: &'d Design, place: Place) -> Option<&'d HostDecl>
    ensures { option_map (λ h. host_of h.now) result ≡ fetch as_host (design_of design.now) place }
{
    match decl_at(design, place)? {
        Decl::Host(host) => Some(host),
        _ => None,
    }
}

fn switch_at<'d>(design: &'d Design, place: Place) -> Option<&'d SwitchDecl>
    ensures { option_map (λ s. switch_of s.now) result
        ≡ fetch as_switch (design_of design.now) place }
{
    match decl_at(design, place)? {
        Decl::Switch(switch) => Some(switch),
        _ => None,
    }
}

impl Declarations {
    /// The tables of a design: each name is put in once.
    pub fn new(alloc: Global, design: &Design) -> Result<Declarations, NoMemory>
        ensures { IfOk result (λ tables. Declares tables (design_of design.now)) }
    {
        let headers = HeaderTable::new(alloc, &design.headers)?;
        Ok(Declarations {
            headers,
            decls: DeclTable::new(alloc, design)?,
        })
    }

    /// The first header of this name.
    pub fn header<'d>(&self, design: &'d Design, name: &[u8]) -> Option<&'d HeaderDecl>
        requires { Declares self.now (design_of design.now) }
        ensures { option_map (λ h. header_of h.now) result
            ≡ named (λ (h : Header). h.name) name.now (design_of design.now).headers }
    {
        self.headers.header(&design.headers, name)
    }

    /// The width in bits of a field of a header.
    pub fn field_width(&self, design: &Design, header: &[u8], field: &[u8]) -> Option<u32>
        requires { Declares self.now (design_of design.now) }
        ensures { result ≡ field_width (design_of design.now).headers header.now field.now }
    {
        self.headers.field_width(&design.headers, header, field)
    }

    /// The number of the first function of this name.
    pub fn function_of(&self, design: &Design, name: &[u8]) -> Option<FunId>
        requires { Declares self.now (design_of design.now) }
        ensures { result ≡ function_number (design_of design.now) name.now }
    {
        self.decls.functions.number(name)
    }

    /// The function of this number, if there are so many.
    pub fn function<'d>(&self, design: &'d Design, function: FunId) -> Option<&'d FunctionDecl>
        requires { Declares self.now (design_of design.now) }
        ensures { option_map (λ f. function_of f.now) result
            ≡ slice_get (functions (design_of design.now)) function }
    {
        function_at(design, self.decls.functions.place(function)?)
    }

    /// The first function of this name.
    pub fn function_named<'d>(&self, design: &'d Design, name: &[u8]) -> Option<&'d FunctionDecl>
        requires { Declares self.now (design_of design.now) }
        ensures { option_map (λ f. function_of f.now) result
            ≡ named (λ (f : Function). f.name) name.now (functions (design_of design.now)) }
    {
        self.function(design, self.function_of(design, name)?)
    }

    /// The number of the role of this name.
    pub fn role_of(&self, design: &Design, name: &[u8]) -> Option<RoleId>
        requires { Declares self.now (design_of design.now) }
        ensures { result ≡ role_number (design_of design.now) name.now }
    {
        self.decls.roles.number(name)
    }

    /// The first declaration of the role of this name.
    pub fn first_role<'d>(&self, design: &'d Design, name: &[u8]) -> Option<&'d Role>
        requires { Declares self.now (design_of design.now) }
        ensures { option_map (λ r. role_of r.now) result
            ≡ first_role (design_of design.now) name.now }
    {
        role_declared_at(design, self.decls.roles.first(self.role_of(design, name)?)?)
    }

    /// The latest declaration of a role at a level of at most this.
    pub fn role<'d>(&self, design: &'d Design, role: RoleId, level: u32) -> Option<&'d Role>
        requires tables { Declares self.now (design_of design.now) }
        requires known { (name : List ℕ) × (role_number (design_of design.now) name ≡ Some role) }
        ensures { (name : List ℕ) → role_number (design_of design.now) name ≡ Some role
            → option_map (λ r. role_of r.now) result ≡ role_at level (design_of design.now) name }
    {
        role_declared_at(design, self.decls.roles.latest(role, level)?)
    }

    /// The latest declaration of the role of this name at a level of at most this.
    pub fn role_at<'d>(&self, design: &'d Design, name: &[u8], level: u32) -> Option<&'d Role>
        requires { Declares self.now (design_of design.now) }
        ensures { option_map (λ r. role_of r.now) result
            ≡ role_at level (design_of design.now) name.now }
    {
        self.role(design, self.role_of(design, name)?, level)
    }

    /// The first declaration of hosts.
    pub fn host<'d>(&self, design: &'d Design) -> Option<&'d HostDecl>
        requires { Declares self.now (design_of design.now) }
        ensures { option_map (λ h. host_of h.now) result ≡ host_decl (design_of design.now) }
    {
        host_at(design, self.decls.host?)
    }

    /// The first declaration of switches.
    pub fn switch<'d>(&self, design: &'d Design) -> Option<&'d SwitchDecl>
        requires { Declares self.now (design_of design.now) }
        ensures { option_map (λ s. switch_of s.now) result ≡ switch_decl (design_of design.now) }
    {
        switch_at(design, self.decls.switch?)
    }
}
