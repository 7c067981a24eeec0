//! A design that keeps the rules and the limits, and its readers.
ghost use Rattle.std.specs.Prelude.{◌≡◌, ◌+◌, ◌/◌, ◌<◌, ◌≤◌, ℕ, All, IfOk, IsTrue, List, Some, length, slice_get};
ghost use Rattle.cocoon_num.specs.Packets.{total};
ghost use Rattle.cocoon_num.specs.Spelled.{is_spelled};
ghost use Rattle.cocoon_syntax.specs.TreeOf.{assume_of, design_of, function_of, role_of};
ghost use Rattle.cocoon_types.specs.Design.{functions, last_level, role_at};
ghost use Rattle.declarations.specs.Declares.{Declares, function_number, role_number};
ghost use Rattle.cocoon_resolve.specs.Readers.{all_assumptions, assumptions_to, field_widths, HasRole, IsRuntime, ReadsBack};
ghost use Rattle.cocoon_resolve.specs.Resolved.{Resolves, WasRead};
ghost use Rattle.cocoon_types.specs.Names.{IsNamed};

use crate::assumptions::Assumptions;
use crate::bodies::Bodies;
use crate::layout::{bytes, widths};
use cocoon_num::NoMemory;
use cocoon_syntax::{AssumeDecl, Design, FunctionDecl, Role};
use cocoon_types::tree_names::{functions_are_named, headers_are_spelled};
use declarations::{Declarations, FunId, RoleId};
use std::alloc::Global;
use std::marker::Model;

/// A design that was read and keeps all rules, within all limits. The readers take no memory, and constant or logarithmic time.
#[derive(Drop)]
pub struct Checked {
    design: Design,
    names: Declarations,
    assumptions: Assumptions,
    bodies: Bodies,
    field_widths: Vec<u8>,
    header_bytes: u32,
}

impl Model for Checked {
    ghost use Rattle.cocoon_syntax.specs.declared.decl.Design.{Design};
    ghost use Rattle.cocoon_syntax.specs.contracts.expr.Expr as expr;
    ghost use Rattle.cocoon_syntax.specs.contracts.stmt.Stmt as stmt;
    ghost use Rattle.cocoon_syntax.specs.TreeOf.{design_of};
    ghost use Rattle.cocoon_resolve.specs.Kept.{IsKept};
    ghost use Rattle.std.specs.Coded.{codes};

    ghost Value = { Design };

    ghost coded = { Prim.hlevel (codes, expr.the_row.coded, stmt.the_row.coded) };

    ghost view = { λ checked. checked.design };

    ghost invariant = { λ checked. IsKept checked.names checked.assumptions checked.bodies
        checked.field_widths.items checked.header_bytes (design_of checked.design) };
}

impl Checked {
    /// Keeps a design with the tables of its declarations.
    pub(crate) fn new(
        alloc: Global,
        names: Declarations,
        design: Design,
    ) -> Result<Checked, NoMemory>
        requires declares { Declares names (design_of design) }
        requires resolves { Resolves (design_of design) }
        requires read { WasRead (design_of design) }
        ensures { IfOk result (λ checked. checked ≡ design) }
    {
        functions_are_named();
        headers_are_spelled();
        let assumptions = Assumptions::new(alloc, &design)?;
        let bodies = Bodies::new(alloc, &names, &design)?;
        let field_widths = widths(alloc, &design.headers)?;
        let header_bytes = bytes(&field_widths);
        Ok(Checked {
            design,
            names,
            assumptions,
            bodies,
            field_widths,
            header_bytes,
        })
    }

    /// The design itself.
    pub fn design(&self) -> &Design
        ensures is { result.now ≡ self.now }
        ensures resolves { Resolves (design_of self.now) }
    {
        &self.design
    }

    /// A text reads as the design, so its names are spelled as in a text. The call does nothing.
    pub fn know_reading(&self)
        ensures read { WasRead (design_of self.now) }
        ensures spelled { IsTrue (is_spelled (design_of self.now)) }
        ensures named { All IsNamed (functions (design_of self.now)) }
    {
        let _kept = self.header_bytes;
    }

    /// The tables of its declarations, which find what a name stands for.
    pub fn names(&self) -> &Declarations
        ensures { Declares result.now (design_of self.now) }
    {
        &self.names
    }

    /// How many levels there are: level 0, and one for each `refine` block.
    pub fn levels(&self) -> u32
        ensures { result ≡ length (design_of self.now).refines + 1 }
    {
        self.design.refines.len() as u32 + 1
    }

    /// The number of the role of this name: numbers are given in the order of first declarations, from 0.
    pub fn role_of(&self, name: &[u8]) -> Option<RoleId>
        ensures { result ≡ role_number (design_of self.now) name.now }
    {
        self.names.role_of(&self.design, name)
    }

    /// The number of the function of this name: numbers are given in the order of declaration, from 0.
    pub fn function_of(&self, name: &[u8]) -> Option<FunId>
        ensures { result ≡ function_number (design_of self.now) name.now }
    {
        self.names.function_of(&self.design, name)
    }

    /// The latest declaration of a role at a level of at most this.
    pub fn role(&self, role: RoleId, level: u32) -> &Role
        requires { HasRole (design_of self.now) role level }
        ensures { (name : List ℕ) → role_number (design_of self.now) name ≡ Some role
            → role_at level (design_of self.now) name ≡ Some (role_of result.now) }
    {
        self.names.role(&self.design, role, level).unwrap()
    }

    /// The function of this number.
    pub fn function(&self, function: FunId) -> &FunctionDecl
        requires { function < length (functions (design_of self.now)) }
        ensures { slice_get (functions (design_of self.now)) function
            ≡ Some (function_of result.now) }
    {
        self.names.function(&self.design, function).unwrap()
    }

    /// The function is defined at run time: it has no body.
    pub fn is_runtime(&self, function: FunId) -> bool
        requires { function < length (functions (design_of self.now)) }
        ensures { IsRuntime (design_of self.now) function result }
    {
        self.function(function).body.is_none()
    }

    /// How many assumptions there are at levels up to this.
    pub fn assume_count(&self, level: u32) -> u32
        requires { level ≤ last_level (design_of self.now) }
        ensures { result ≡ length (assumptions_to level (design_of self.now)) }
    {
        self.assumptions.counts[level as usize]
    }

    /// The assumption of this number: numbers are given in the order of the text, from 0.
    pub fn assumption(&self, index: u32) -> &AssumeDecl
        requires { index < length (all_assumptions (design_of self.now)) }
        ensures { slice_get (all_assumptions (design_of self.now)) index
            ≡ Some (assume_of result.now) }
    {
        &self.assumptions.held[index as usize]
    }

    /// Whether the body of a role that is in force at a level reads back: no choice of it is hidden.
    pub fn reads_back(&self, role: RoleId, level: u32) -> bool
        requires level { level ≤ last_level (design_of self.now) }
        requires role { HasRole (design_of self.now) role level }
        ensures { ReadsBack (design_of self.now) role level result }
    {
        self.bodies.reads_back(role, level)
    }

    /// The widths in bits of all fields, header by header.
    pub fn field_widths(&self) -> &[u8]
        ensures { result.now ≡ field_widths (design_of self.now) }
    {
        &self.field_widths
    }

    /// How many bytes the headers of a packet have.
    pub fn header_bytes(&self) -> u32
        ensures { result ≡ total (field_widths (design_of self.now)) / 8 }
    {
        self.header_bytes
    }
}
