//! The program of a switch.
ghost use Rattle.std.specs.Prelude.{◌≡◌, ◌++◌, ◌∷◌, codes, IfOk, length, map};
ghost use Rattle.cocoon_num.specs.Tree.{Design};
ghost use Rattle.cocoon_syntax.specs.TreeOf.{design_of};
ghost use Rattle.cocoon_types.specs.Design as design;
ghost use Rattle.lowering.specs.Log.{tables_in};
ghost use Rattle.lowering.specs.Whole.{role_lowered, role_vars};
ghost use Rattle.lower_code.specs.Blocks.{site_of};
ghost use Rattle.lower_code.specs.Growth.{counts_of, made_in};
ghost use Rattle.lower_code.specs.Scopes.{callees_in, design_in, SeesFunctions};
ghost use Rattle.lower_code.specs.Variables.{variables_of};
ghost use Rattle.lower_net.specs.Halves.{egress_half, half_of, ingress_half, program_with, SeesAll};
ghost use Rattle.lower_net.specs.NetDeclarations.{switch_role};
ghost use Rattle.lowering.specs.SwitchProgram as spec;
ghost use Rattle.p4_ir.specs.Program.{block_of, control_of, field_of, program_of, stmt_of};

use crate::fields::{push_fields, site_field};
use crate::headers::headers;
use crate::net_declarations::Ingress;
use crate::switch_tables::tables;
use cocoon_num::{List, NoMemory};
use cocoon_resolve::Checked;
use lower_code::{
    Counts, Frame, Lowering, Made, Reading, Scope, Site, Variable, lower_block, lower_sites,
};
use p4_ir::{Control, P4Field, P4Stmt, Program};
use std::alloc::Global;

/// The program of a switch, and what was made for it, in order: the tables with the functions that they hold.
#[derive(Drop)]
pub struct SwitchCode {
    pub program: Program,
    pub ingress: Vec<Made>,
    pub egress: Vec<Made>,
}

/// The code of ingress, what it needs, and the forks.
#[derive(Drop)]
pub(crate) struct Half<'d> {
    code: Vec<P4Stmt>,
    to: Lowering,
    sites: Vec<Site<'d>>,
}

/// The variables with which the body of the role begins.
fn first_variables<'d>(
    alloc: Global,
    ingress: &Ingress<'d>,
    number: u16,
) -> Result<Vec<Variable<'d>>, NoMemory>
    ensures { (d : Design) → IfOk result (λ vs. variables_of vs.items
        ≡ role_vars (switch_role d ingress.now) number) }
{
    let port = Variable {
        name: ingress.port,
        reading: Reading::Port,
    };
    let switch = Variable {
        name: ingress.switch,
        reading: Reading::Switch(number),
    };
    Ok(vec![in alloc; port, switch]?)
}

/// Lowers the body of the role.
fn lower_ingress<'d>(
    alloc: Global,
    scope: &Scope<'d>,
    ingress: &Ingress<'d>,
    number: u16,
) -> Result<Half<'d>, NoMemory>
    requires { SeesAll scope.now ingress.now }
    ensures { IfOk result (λ h. half_of (design_in scope.now) h
        ≡ ingress_half (switch_role (design_in scope.now) ingress.now) number) }
{
    let counts = Counts {
        app: 0,
        variable: 0,
        field: 1,
        site: 1,
    };
    let mut to = Lowering {
        counts,
        made: Vec::new(alloc),
    };
    let mut frame = Frame {
        variables: first_variables(alloc, ingress, number)?,
        sites: Vec::new(alloc),
    };
    let mut code = Vec::new(alloc);
    lower_block(alloc, scope, &mut to, &mut code, &mut frame, ingress.body)?;
    let sites = frame.sites;
    Ok(Half { code, to, sites })
}

/// Lowers the blocks of the forks, after ingress.
fn lower_egress<'d>(
    alloc: Global,
    scope: &Scope<'d>,
    counts: Counts,
    sites: &[Site<'d>],
) -> Result<Half<'d>, NoMemory>
    requires { SeesFunctions scope.now }
    ensures { IfOk result (λ h. half_of (design_in scope.now) h
        ≡ egress_half (callees_in scope.now) (counts_of counts) (map site_of sites.now)) }
{
    let mut to = Lowering {
        counts,
        made: Vec::new(alloc),
    };
    let mut code = Vec::new(alloc);
    lower_sites(alloc, scope, &mut to, &mut code, sites)?;
    let sites = Vec::new(alloc);
    Ok(Half { code, to, sites })
}

/// The meta fields of both controls.
fn meta(alloc: Global, ingress: &[Made], egress: &[Made]) -> Result<Vec<P4Field>, NoMemory>
    ensures { (d : Design) → IfOk result (λ fs. map field_of fs.items
        ≡ record { name = codes "site"; width = 8 }
        ∷ spec.fields_in (made_in d ingress.now ++ made_in d egress.now)) }
{
    let mut fields = Vec::new(alloc);
    fields.push(site_field(alloc)?)?;
    push_fields(alloc, &mut fields, ingress)?;
    push_fields(alloc, &mut fields, egress)?;
    Ok(fields)
}

fn control(alloc: Global, code: Vec<P4Stmt>, made: &[Made]) -> Result<Control, NoMemory>
    ensures { (d : Design) → IfOk result (λ c. control_of c
        ≡ record {
          tables = tables_in (made_in d made.now);
          body = block_of (map stmt_of code.items);
        }) }
{
    let tables = List::from(tables(alloc, made)?);
    let body = List::from(code);
    Ok(Control { tables, body })
}

/// The program with the code of both controls.
fn whole(
    alloc: Global,
    checked: &Checked,
    ingress: Half<'_>,
    egress: Half<'_>,
) -> Result<SwitchCode, NoMemory>
    ensures program { IfOk result (λ c. program_of c.program
        ≡ program_with (design_of checked.now).headers
        (half_of (design_of checked.now) ingress.entry)
        (half_of (design_of checked.now) egress.entry)) }
    ensures ingress { IfOk result (λ c. c.ingress ≡ ingress.entry.to.made) }
    ensures egress { IfOk result (λ c. c.egress ≡ egress.entry.to.made) }
{
    let headers = List::from(headers(alloc, &checked.design().headers)?);
    let meta = List::from(meta(alloc, &ingress.to.made, &egress.to.made)?);
    let into = control(alloc, ingress.code, &ingress.to.made)?;
    let out = control(alloc, egress.code, &egress.to.made)?;
    let program = Program {
        headers,
        meta,
        ingress: into,
        egress: out,
    };
    Ok(SwitchCode {
        program,
        ingress: ingress.to.made,
        egress: egress.to.made,
    })
}

/// The program of the switch of this number, where so many functions are all of the design's. There is no memory where the
/// program has more than 255 forks, either.
pub fn switch_code(
    alloc: Global,
    checked: &Checked,
    functions: u32,
    ingress: &Ingress<'_>,
    number: u16,
) -> Result<SwitchCode, NoMemory>
    requires { functions ≡ length (design.functions (design_of checked.now)) }
    ensures program { IfOk result (λ c. program_of c.program
        ≡ spec.switch_program (switch_role (design_of checked.now) ingress.now) number) }
    ensures made { IfOk result (λ c.
        made_in (design_of checked.now) (c.ingress.items ++ c.egress.items)
        ≡ spec.switch_made (switch_role (design_of checked.now) ingress.now) number) }
    ensures ingress { IfOk result (λ c. made_in (design_of checked.now) c.ingress.items
        ≡ (role_lowered (switch_role (design_of checked.now) ingress.now) number).made) }
{
    let scope = Scope {
        checked,
        before: functions,
        port: ingress.port,
    };
    let into = lower_ingress(alloc, &scope, ingress, number)?;
    let out = lower_egress(alloc, &scope, into.to.counts, &into.sites)?;
    let code = whole(alloc, checked, into, out)?;
    Ok(code)
}
