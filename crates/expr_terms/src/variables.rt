//! Variables and their terms, the last that was bound last.
ghost use Rattle.std.specs.Prelude.{◌≡◌, ℕ, IfOk, List, map};
ghost use Rattle.cocoon_num.specs.Names.{same_name};
ghost use Rattle.cocoon_syntax.specs.TreeOf.{param_of};
ghost use Rattle.bv_terms.specs.declared.node.Node.{Node};
ghost use Rattle.obligation_laws.specs.TermOf.{bind_terms, variable_term};
ghost use Rattle.expr_terms.specs.Variables.{AreThere, IsThere, VariablesThere, found_term, terms_at, variables_of};

use bv_terms::TermId;
use cocoon_num::NoMemory;
use cocoon_syntax::Param;
use std::alloc::Global;

/// A variable and its term.
#[derive(Clone, Copy, Drop)]
pub struct Variable<'d> {
    pub name: &'d [u8],
    pub term: TermId,
}

/// Whether two names are the same.
pub(crate) fn is_same(name: &[u8], other: &[u8]) -> bool
    ensures { result ≡ same_name name.now other.now }
{
    name == other
}

/// The term of the variable of this name: the last that was bound.
pub(crate) fn variable_named(variables: &[Variable<'_>], name: &[u8]) -> Option<TermId>
    ensures found { (nodes : List Node)
        → variable_term (variables_of nodes variables.now) name.now ≡ found_term nodes result }
    ensures there { (nodes : List Node) → VariablesThere nodes variables.now
        → IsThere nodes result }
{
    let mut at = variables.len();
    while at > 0 {
        at -= 1;
        let variable = &variables[at];
        if is_same(name, variable.name) {
            return Some(variable.term);
        }
    }
    None
}

/// Parameters with terms in their order, as far as there are both: the variables that a role, a function or an assumption
/// begins with.
pub fn bind<'d>(
    alloc: Global,
    params: &'d [Param],
    args: &[TermId],
) -> Result<Vec<Variable<'d>>, NoMemory>
    ensures bound { IfOk result (λ bound. (nodes : List Node) → variables_of nodes bound.items
        ≡ bind_terms (map param_of params.now) (terms_at nodes args.now)) }
    ensures there { IfOk result (λ bound. (nodes : List Node)
        → AreThere nodes args.now → VariablesThere nodes bound.items) }
{
    let mut bound = Vec::new(alloc);
    let mut at = params.len().min(args.len());
    while at > 0 {
        at -= 1;
        let name = params[at].name.text.bytes();
        let term = args[at];
        bound.push(Variable { name, term })?;
    }
    Ok(bound)
}
