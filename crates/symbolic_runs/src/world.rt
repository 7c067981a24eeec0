//! What bodies are followed in, and the terms of expressions there.
ghost use Rattle.std.specs.Prelude.{◌≡◌, ◌<◌, IfOk, length, map};
ghost use Rattle.cocoon_syntax.specs.TreeOf.{design_of, expr_of, exprs_of};
ghost use Rattle.bv_terms.specs.Arenas.{KeepsTerms, inputs_in, term_at};
ghost use Rattle.bv_terms.specs.TermTrees as term;
ghost use Rattle.obligation_laws.specs.TermOf.{terms_of};
ghost use Rattle.expr_terms.specs.Sizes.{AreSizes};
ghost use Rattle.expr_terms.specs.Variables.{Makes, MakesAll, terms_at};
ghost use Rattle.obligation_laws.specs.States.{guard_term};
ghost use Rattle.obligation_laws.specs.Following.{term_at as term_in};
ghost use Rattle.symbolic_runs.specs.Fitting.{CanEnter, HasTerm, HaveTerms, IsReady};
ghost use Rattle.symbolic_runs.specs.Reading.{state_of, world_in};

use crate::states::State;
use bv_terms::{TermId, Terms};
use cocoon_num::{Bits, NoMemory};
use cocoon_resolve::Checked;
use cocoon_syntax::Expr;
use expr_terms::{CallSizes, bind, expr_term, expr_terms};
use obligation_laws::expr_laws::terms_have_widths;
use sound_types::laws::{code_literals_fit, declarations_are_typed};
use std::alloc::Global;

/// A level of a design, by its number, and the sizes of the design's functions.
#[derive(Clone, Copy, Drop)]
pub struct World<'d> {
    pub checked: &'d Checked,
    pub sizes: &'d CallSizes,
    pub level: u32,
}

impl World<'_> {
    /// What following asks of a level. The call does nothing.
    pub(crate) fn know(&self)
        requires { AreSizes (design_of self.now.checked.now) self.now.sizes.now }
        ensures { IsReady self.now }
    {
        terms_have_widths();
        declarations_are_typed();
        code_literals_fit();
        let _design = self.checked.design();
    }

    /// The term of an expression in a state.
    pub(crate) fn term(
        &self,
        alloc: Global,
        state: &State<'_>,
        expr: &Expr,
        terms: &mut Terms,
    ) -> Result<TermId, NoMemory>
        requires ready { IsReady self.now }
        requires can { HasTerm self.now terms.old state.now (expr_of expr.now) }
        ensures made { IfOk result (λ id. Makes terms.new id
            (term_in (world_in self.now) (state_of terms.old state.now) (expr_of expr.now))) }
        ensures kept { KeepsTerms terms.old terms.new }
        ensures inputs { inputs_in terms.new ≡ inputs_in terms.old }
    {
        let (checked, sizes) = (self.checked, self.sizes);
        let (variables, fields) = (&state.variables, &state.fields);
        expr_term(alloc, checked, sizes, variables, fields, terms, expr)
    }

    /// The terms of the values of a `send` in a state, from left to right.
    pub(crate) fn values(
        &self,
        alloc: Global,
        state: &State<'_>,
        exprs: &[Expr],
        terms: &mut Terms,
    ) -> Result<Vec<TermId>, NoMemory>
        requires ready { IsReady self.now }
        requires can { HaveTerms self.now terms.old state.now (exprs_of (map expr_of exprs.now)) }
        ensures made { IfOk result (λ ids. MakesAll terms.new ids.items
            (terms_of (world_in self.now).context (state_of terms.old state.now).vars
            (state_of terms.old state.now).fields (exprs_of (map expr_of exprs.now)))) }
        ensures kept { KeepsTerms terms.old terms.new }
        ensures inputs { inputs_in terms.new ≡ inputs_in terms.old }
    {
        let (checked, sizes) = (self.checked, self.sizes);
        let (variables, fields) = (&state.variables, &state.fields);
        expr_terms(alloc, checked, sizes, variables, fields, terms, exprs)
    }

    /// The term of the guard of a role at some values.
    pub(crate) fn guard(
        &self,
        alloc: Global,
        role: &[u8],
        values: &[TermId],
        terms: &mut Terms,
    ) -> Result<TermId, NoMemory>
        requires ready { IsReady self.now }
        requires can { CanEnter self.now terms.old role.now values.now }
        ensures made { IfOk result (λ id. Makes terms.new id (guard_term (world_in self.now)
            (record { role = role.now; values = terms_at terms.old values.now }))) }
        ensures kept { KeepsTerms terms.old terms.new }
        ensures inputs { inputs_in terms.new ≡ inputs_in terms.old }
    {
        let checked = self.checked;
        let design = checked.design();
        let Some(role) = checked.names().role_at(design, role, self.level) else {
            return terms.constant(Bits::new(1, 0));
        };
        let bound = bind(alloc, &role.params, values)?;
        expr_term(alloc, checked, self.sizes, &bound, &[], terms, &role.guard)
    }
}

/// The opposite of a truth value.
pub(crate) fn opposite(terms: &mut Terms, part: TermId) -> Result<TermId, NoMemory>
    requires { part < length terms.old }
    ensures made { IfOk result (λ id. Makes terms.new id (term.not_ (term_at terms.old part))) }
    ensures kept { KeepsTerms terms.old terms.new }
    ensures inputs { inputs_in terms.new ≡ inputs_in terms.old }
{
    terms.not(part)
}
