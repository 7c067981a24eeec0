//! Clauses over variables, and which assignments of the variables satisfy them.
ghost use Rattle.std.specs.Prelude.{◌≡◌, ◌↔◌, false, IsTrue, slice_index_or};
ghost use Rattle.cnf_core.specs.Satisfying.{Satisfies};
ghost use Rattle.cnf_core.specs.Satisfying as spec;

use crate::lit::Lit;
use crate::literals::Literals;
use cocoon_num::List;

/// It holds where one of its literals is true. The order of the literals and repeated ones make no difference to that.
#[derive(Drop)]
pub struct Clause {
    pub lits: Literals,
}

#[derive(Drop)]
pub struct Cnf {
    /// How many variables there are: 1, 2 and so on, up to this number.
    pub vars: u32,
    pub clauses: List<Clause>,
}

/// A truth value for each variable, that of variable 1 first.
#[derive(Drop)]
pub struct Assignment {
    pub values: List<bool>,
}

impl Assignment {
    fn makes_true(&self, lit: Lit) -> bool
        ensures { result ≡ spec.makes_true self.now lit.number }
    {
        let at = lit.variable() as usize - 1;
        let is_set = is_set_at(self.values.items(), at);
        if lit.number < 0 { !is_set } else { is_set }
    }

    fn satisfies_clause(&self, clause: &Clause) -> bool
        ensures { result ≡ spec.satisfies_clause self.now clause.now }
    {
        for lit in clause.lits.items() {
            if self.makes_true(*lit) {
                return true;
            }
        }
        false
    }
}

fn is_set_at(values: &[bool], at: usize) -> bool
    ensures { result ≡ slice_index_or values.now at false }
{
    match values.get(at) {
        Some(value) => *value,
        None => false,
    }
}

/// Whether every clause has a true literal.
pub fn satisfies(cnf: &Cnf, assignment: &Assignment) -> bool
    ensures { IsTrue result ↔ Satisfies assignment.now cnf.now }
{
    for clause in cnf.clauses.items() {
        if !assignment.satisfies_clause(clause) {
            return false;
        }
    }
    true
}
