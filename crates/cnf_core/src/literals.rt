//! The literals of a clause, seen by contracts as a list.
ghost use Rattle.std.specs.Prelude.{◌≡◌, ◌∷◌, []};

use crate::lit::Lit;
use std::marker::Model;

/// Literals in order. Up to three lie in the value itself, since nearly all clauses of gates are so short.
#[derive(Drop)]
pub struct Literals {
    held: Held,
}

/// Where they lie.
#[derive(Drop)]
enum Held {
    One([Lit; 1]),
    Two([Lit; 2]),
    Three([Lit; 3]),
    Many(Vec<Lit>),
}

impl Model for Literals {
    ghost use Rattle.std.specs.Prelude.{List as Items};
    ghost use Rattle.cnf_core.specs.Held.{items_of};
    ghost use Rattle.cnf_core.specs.declared.lit.Lit.{Lit};

    ghost Value = { Items Lit };

    ghost view = { λ literals. items_of literals.held };
}

impl Literals {
    pub fn one(a: Lit) -> Literals
        ensures { result ≡ a ∷ [] }
    {
        Literals {
            held: Held::One([a]),
        }
    }

    pub fn two(a: Lit, b: Lit) -> Literals
        ensures { result ≡ a ∷ b ∷ [] }
    {
        Literals {
            held: Held::Two([a, b]),
        }
    }

    pub fn three(a: Lit, b: Lit, c: Lit) -> Literals
        ensures { result ≡ a ∷ b ∷ c ∷ [] }
    {
        Literals {
            held: Held::Three([a, b, c]),
        }
    }

    /// These literals.
    pub fn from(lits: Vec<Lit>) -> Literals
        ensures { result ≡ lits.items }
    {
        match lits.as_slice() {
            [a] => Literals::one(*a),
            [a, b] => Literals::two(*a, *b),
            [a, b, c] => Literals::three(*a, *b, *c),
            _ => Literals {
                held: Held::Many(lits),
            },
        }
    }

    /// The literals, in order.
    pub fn items(&self) -> &[Lit]
        ensures { result.now ≡ self.now }
    {
        match &self.held {
            Held::One(lits) => lits,
            Held::Two(lits) => lits,
            Held::Three(lits) => lits,
            Held::Many(lits) => lits,
        }
    }
}
