//! The headers of a program: those of the design.
ghost use Rattle.std.specs.Prelude.{◌≡◌, ◌≤◌, IfOk, map};
ghost use Rattle.cocoon_resolve.specs.Kept.{AreDeclared};
ghost use Rattle.cocoon_resolve.specs.Readers.{all_widths};
ghost use Rattle.cocoon_syntax.specs.TreeOf as tree;
ghost use Rattle.cocoon_types.specs.Design.{widths_of};
ghost use Rattle.lowering.specs.SwitchProgram as spec;
ghost use Rattle.p4_ir.specs.Program.{field_of, header_of};

use cocoon_num::{List, NoMemory, Text};
use cocoon_syntax::{HeaderDecl, Param};
use p4_ir::{P4Field, P4Header};
use std::alloc::Global;

/// A field.
fn field(alloc: Global, param: &Param) -> Result<P4Field, NoMemory>
    requires { param.now.width ≤ 64 }
    ensures { IfOk result (λ f. field_of f ≡ spec.p4_field (tree.param_of param.now)) }
{
    let width = param.width as u8;
    let name = Text::from(alloc, param.name.text.bytes())?;
    Ok(P4Field { name, width })
}

fn fields(alloc: Global, params: &[Param]) -> Result<Vec<P4Field>, NoMemory>
    requires { AreDeclared (widths_of (map tree.param_of params.now)) }
    ensures { IfOk result (λ fs. map field_of fs.items
        ≡ map spec.p4_field (map tree.param_of params.now)) }
{
    let mut lowered = Vec::new(alloc);
    for param in params {
        lowered.push(field(alloc, param)?)?;
    }
    Ok(lowered)
}

fn header(alloc: Global, header: &HeaderDecl) -> Result<P4Header, NoMemory>
    requires { AreDeclared (widths_of (tree.header_of header.now).fields) }
    ensures { IfOk result (λ h. header_of h ≡ spec.p4_header (tree.header_of header.now)) }
{
    let name = Text::from(alloc, header.name.text.bytes())?;
    let fields = List::from(fields(alloc, &header.fields)?);
    Ok(P4Header { name, fields })
}

/// The headers, in the order of the design.
pub(crate) fn headers(alloc: Global, headers: &[HeaderDecl]) -> Result<Vec<P4Header>, NoMemory>
    requires { AreDeclared (all_widths (map tree.header_of headers.now)) }
    ensures { IfOk result (λ hs. map header_of hs.items
        ≡ map spec.p4_header (map tree.header_of headers.now)) }
{
    let mut lowered = Vec::new(alloc);
    for each in headers {
        lowered.push(header(alloc, each)?)?;
    }
    Ok(lowered)
}
