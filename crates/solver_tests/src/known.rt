//! Values of variables that are found one after another.
use cnf_core::{Assignment, Clause, Cnf, Lit};
use cocoon_num::{Bits, List};
use std::alloc::Global;

/// What is known of each variable, at its number.
#[derive(Drop)]
pub(crate) struct Known {
    values: Vec<Option<bool>>,
}

impl Known {
    /// Nothing is known of so many variables.
    pub(crate) fn new(alloc: Global, vars: u32) -> Option<Known> {
        let mut values = Vec::new(alloc);
        for _ in 0..=u64::from(vars) {
            values.push(None).ok()?;
        }
        Some(Known { values })
    }

    /// Whether a literal is true, if that is known.
    fn value(&self, lit: Lit) -> Option<bool> {
        match self.values.get(lit.variable() as usize) {
            Some(Some(value)) => Some(*value == (lit.number > 0)),
            _ => None,
        }
    }

    fn set(&mut self, variable: u32, value: bool) {
        if let Some(slot) = self.values.get_mut(variable as usize) {
            *slot = Some(value);
        }
    }

    /// Sets variables to the bits of a number. Answers the next variable.
    fn set_number(&mut self, first: u32, number: Bits) -> u32 {
        let mut variable = first;
        let mut rest = number.value;
        for _ in 0..number.width {
            self.set(variable, rest % 2 == 1);
            rest /= 2;
            variable = variable.saturating_add(1);
        }
        variable
    }

    /// Sets the variables from 2 on to the bits of inputs, one after another.
    pub(crate) fn set_inputs(&mut self, inputs: &[Bits]) {
        let mut next = 2;
        for input in inputs {
            next = self.set_number(next, *input);
        }
    }

    /// The literal that is not known yet, where it is the only one and no other is true.
    fn forced(&self, clause: &Clause) -> Option<Lit> {
        let mut open = None;
        for lit in clause.lits.items() {
            match self.value(*lit) {
                Some(true) => return None,
                Some(false) => (),
                None if open.is_some() => return None,
                None => open = Some(*lit),
            }
        }
        open
    }

    /// Goes once along the clauses, and makes true what they force.
    pub(crate) fn extend(&mut self, cnf: &Cnf) {
        for clause in cnf.clauses.items() {
            if let Some(lit) = self.forced(clause) {
                self.set(lit.variable(), lit.number > 0);
            }
        }
    }

    /// The values of all variables. What is not known is false.
    pub(crate) fn assignment(&self, alloc: Global) -> Option<Assignment> {
        let mut values = Vec::new(alloc);
        for value in self.values.iter().skip(1) {
            values.push(*value == Some(true)).ok()?;
        }
        Some(Assignment {
            values: List::from(values),
        })
    }
}
