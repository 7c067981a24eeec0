//! Declarations, and designs. Widths are in bits.
ghost use Rattle.std.specs.Prelude.{◌≡◌, IfOk, map, option_map};
ghost use Rattle.cocoon_num.specs.Tree.{Decl as Declared, HeaderDecl as Header, Param as Parameter, Refine as Refined};
ghost use Rattle.cocoon_syntax.specs.TreeOf.{assume_of, body_of, decl_of, design_of, expr_of, function_of, header_of, host_of, param_of, refine_of, role_of, switch_of};

use crate::expr::Expr;
use crate::name::Name;
use crate::stmt::{Stmt, copy_stmts};
use cocoon_num::copies::{Copied, copy_list};
use cocoon_num::{NoMemory, both, three};
use std::alloc::Global;

/// A name with a width: a parameter, or a field of a header.
#[derive(Drop)]
pub struct Param {
    pub name: Name,
    pub width: u32,
}

/// What a function gives: a number of a width, or a truth value.
#[derive(Clone, Copy, Drop, PartialEq, Eq)]
pub enum ResultKind {
    Width(u32),
    Truth,
}

/// A function. One without a body is defined at run time.
#[derive(Drop)]
pub struct FunctionDecl {
    pub name: Name,
    pub params: Vec<Param>,
    pub result: ResultKind,
    pub body: Option<Expr>,
}

/// A demand on the functions that are defined at run time, for all values of the parameters.
#[derive(Drop)]
pub struct AssumeDecl {
    pub at: u32,
    pub params: Vec<Param>,
    pub body: Expr,
}

/// A role: its instances are the values of its parameters at which the guard is true.
#[derive(Drop)]
pub struct Role {
    pub name: Name,
    pub params: Vec<Param>,
    pub guard: Expr,
    pub body: Option<Vec<Stmt>>,
}

/// The role at which packets enter, and the role at which they are delivered.
#[derive(Drop)]
pub struct HostDecl {
    pub at: u32,
    pub entry: Name,
    pub sink: Name,
}

/// The two roles of the switches, and how many ports a switch has.
#[derive(Drop)]
pub struct SwitchDecl {
    pub at: u32,
    pub into: Name,
    pub out: Name,
    pub ports: u32,
}

#[derive(Drop)]
pub enum Decl {
    Function(FunctionDecl),
    Assume(AssumeDecl),
    Role(Role),
    Host(HostDecl),
    Switch(SwitchDecl),
}

/// A refinement of roles: the declarations of its level, and how many bodies a refined run may
/// take.
#[derive(Drop)]
pub struct Refine {
    pub at: u32,
    pub roles: Vec<Name>,
    pub within: u32,
    pub decls: Vec<Decl>,
}

/// A header, with its fields in the order in which they lie in a packet.
#[derive(Drop)]
pub struct HeaderDecl {
    pub name: Name,
    pub fields: Vec<Param>,
}

/// A design: the headers of its packets, the declarations of level 0, and the refinements in order.
#[derive(Drop)]
pub struct Design {
    pub headers: Vec<HeaderDecl>,
    pub decls: Vec<Decl>,
    pub refines: Vec<Refine>,
}

impl Copied for Param {
    ghost Meaning = { Parameter };

    ghost meaning = { param_of };

    fn copy(&self, alloc: Global) -> Result<Param, NoMemory>
        ensures { IfOk result (λ copy. param_of copy ≡ param_of self.now) }
    {
        Ok(Param {
            name: self.name.copy(alloc)?,
            width: self.width,
        })
    }
}

impl FunctionDecl {
    fn copy(&self, alloc: Global) -> Result<FunctionDecl, NoMemory>
        ensures { IfOk result (λ copy. function_of copy ≡ function_of self.now) }
    {
        let (name, params, body) = three(
            self.name.copy(alloc),
            copy_list(alloc, &self.params),
            copy_value(alloc, &self.body),
        )?;
        Ok(FunctionDecl {
            name,
            params,
            result: self.result,
            body,
        })
    }
}

impl AssumeDecl {
    fn copy(&self, alloc: Global) -> Result<AssumeDecl, NoMemory>
        ensures { IfOk result (λ copy. assume_of copy ≡ assume_of self.now) }
    {
        let (params, body) = both(copy_list(alloc, &self.params), self.body.copy(alloc))?;
        Ok(AssumeDecl {
            at: self.at,
            params,
            body,
        })
    }
}

impl Role {
    /// The same tree, in memory of its own.
    pub fn copy(&self, alloc: Global) -> Result<Role, NoMemory>
        ensures { IfOk result (λ copy. role_of copy ≡ role_of self.now) }
    {
        let (name, params) = both(self.name.copy(alloc), copy_list(alloc, &self.params))?;
        let (guard, body) = both(self.guard.copy(alloc), copy_body(alloc, &self.body))?;
        Ok(Role {
            name,
            params,
            guard,
            body,
        })
    }
}

impl HostDecl {
    fn copy(&self, alloc: Global) -> Result<HostDecl, NoMemory>
        ensures { IfOk result (λ copy. host_of copy ≡ host_of self.now) }
    {
        let (entry, sink) = both(self.entry.copy(alloc), self.sink.copy(alloc))?;
        Ok(HostDecl {
            at: self.at,
            entry,
            sink,
        })
    }
}

impl SwitchDecl {
    fn copy(&self, alloc: Global) -> Result<SwitchDecl, NoMemory>
        ensures { IfOk result (λ copy. switch_of copy ≡ switch_of self.now) }
    {
        let (into, out) = both(self.into.copy(alloc), self.out.copy(alloc))?;
        Ok(SwitchDecl {
            at: self.at,
            into,
            out,
            ports: self.ports,
        })
    }
}

impl Copied for Decl {
    ghost Meaning = { Declared };

    ghost meaning = { decl_of };

    fn copy(&self, alloc: Global) -> Result<Decl, NoMemory>
        ensures { IfOk result (λ copy. decl_of copy ≡ decl_of self.now) }
    {
        match self {
            Decl::Function(function) => Ok(Decl::Function(function.copy(alloc)?)),
            Decl::Assume(assume) => Ok(Decl::Assume(assume.copy(alloc)?)),
            Decl::Role(role) => Ok(Decl::Role(role.copy(alloc)?)),
            Decl::Host(host) => Ok(Decl::Host(host.copy(alloc)?)),
            Decl::Switch(switch) => Ok(Decl::Switch(switch.copy(alloc)?)),
        }
    }
}

impl Copied for Refine {
    ghost Meaning = { Refined };

    ghost meaning = { refine_of };

    fn copy(&self, alloc: Global) -> Result<Refine, NoMemory>
        ensures { IfOk result (λ copy. refine_of copy ≡ refine_of self.now) }
    {
        let (roles, decls) = both(copy_list(alloc, &self.roles), copy_list(alloc, &self.decls))?;
        Ok(Refine {
            at: self.at,
            roles,
            within: self.within,
            decls,
        })
    }
}

impl Copied for HeaderDecl {
    ghost Meaning = { Header };

    ghost meaning = { header_of };

    fn copy(&self, alloc: Global) -> Result<HeaderDecl, NoMemory>
        ensures { IfOk result (λ copy. header_of copy ≡ header_of self.now) }
    {
        let (name, fields) = both(self.name.copy(alloc), copy_list(alloc, &self.fields))?;
        Ok(HeaderDecl { name, fields })
    }
}

impl Design {
    /// The same tree, in memory of its own.
    pub fn copy(&self, alloc: Global) -> Result<Design, NoMemory>
        ensures { IfOk result (λ copy. design_of copy ≡ design_of self.now) }
    {
        let (headers, decls, refines) = three(
            copy_list(alloc, &self.headers),
            copy_list(alloc, &self.decls),
            copy_list(alloc, &self.refines),
        )?;
        Ok(Design {
            headers,
            decls,
            refines,
        })
    }
}

fn copy_value(alloc: Global, value: &Option<Expr>) -> Result<Option<Expr>, NoMemory>
    ensures { IfOk result (λ copy. option_map expr_of copy ≡ option_map expr_of value.now) }
{
    match value {
        Some(expr) => Ok(Some(expr.copy(alloc)?)),
        None => Ok(None),
    }
}

fn copy_body(alloc: Global, body: &Option<Vec<Stmt>>) -> Result<Option<Vec<Stmt>>, NoMemory>
    ensures { IfOk result (λ copy. option_map body_of copy ≡ option_map body_of body.now) }
{
    match body {
        Some(stmts) => Ok(Some(copy_stmts(alloc, stmts)?)),
        None => Ok(None),
    }
}
