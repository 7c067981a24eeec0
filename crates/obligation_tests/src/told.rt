//! Obligations, told in words: what each is of, and where its formula is true.
use crate::copies::copied_tables;
use crate::fitting::value;
use crate::inputs::{put_in, zeros};
use crate::names::role_name;
use crate::texts::Question;
use bv_terms::{Env, Terms};
use case_files::{Printer, numbers};
use cocoon_num::List;
use cocoon_resolve::Checked;
use obligation_gen::{Kind, Obligation};
use std::alloc::Global;

/// What is owed, with the arena of the formulas.
#[derive(Drop)]
pub struct Owed {
    pub terms: Terms,
    pub all: Vec<Obligation>,
}

/// Numbers of one tuple `NUMBERS;NUMBERS;NUMBERS`: of parameters, of fields, and of choices in the order in which a leaf takes them.
#[derive(Drop)]
struct Tuple {
    args: Vec<u64>,
    fields: Vec<u64>,
    choices: Vec<u64>,
}

/// The tuples of a line, and the tables of the functions.
#[derive(Drop)]
pub struct Given {
    tuples: Vec<Tuple>,
    env: Env,
}

fn read_tuple(alloc: Global, word: &str) -> Option<Tuple> {
    let (args, rest) = word.split_once(';')?;
    let (fields, choices) = rest.split_once(';')?;
    Some(Tuple {
        args: numbers(alloc, args, ',')?,
        fields: numbers(alloc, fields, ',')?,
        choices: numbers(alloc, choices, ',')?,
    })
}

impl Given {
    pub fn read(alloc: Global, question: &Question, line: &str) -> Option<Given> {
        let mut tuples = Vec::new(alloc);
        for word in line.split(' ') {
            tuples.push(read_tuple(alloc, word)?).ok()?;
        }
        let env = Env {
            inputs: List::from(Vec::new(alloc)),
            tables: List::from(copied_tables(alloc, question.defs.tables())?),
        };
        Some(Given { tuples, env })
    }
}

impl Owed {
    /// Gives an obligation's inputs the numbers of a tuple. What is not said is 0.
    fn put_numbers(
        &self,
        alloc: Global,
        owed: &Obligation,
        tuple: &Tuple,
        env: &mut Env,
    ) -> Option<()> {
        let mut inputs = zeros(alloc, &self.terms)?;
        put_in(&mut inputs, owed.tree.args.items(), &tuple.args);
        put_in(&mut inputs, owed.tree.fields.items(), &tuple.fields);
        for leaf in owed.tree.leaves.items() {
            put_in(&mut inputs, leaf.choices.items(), &tuple.choices);
        }
        env.inputs = List::from(inputs);
        Some(())
    }

    /// Puts the truth of an obligation's formula at each tuple.
    fn put_truths(
        &self,
        alloc: Global,
        owed: &Obligation,
        at: &mut Given,
        given: &mut Printer,
    ) -> Option<()> {
        for tuple in &at.tuples {
            self.put_numbers(alloc, owed, tuple, &mut at.env)?;
            let truth = value(alloc, &self.terms, owed.formula, &at.env)?;
            given.put(if truth.value == 1 { "1" } else { "0" });
        }
        Some(())
    }

    /// Puts one obligation: `LEVEL ROLE LEAF KIND TRUTHS`.
    pub fn put_one(
        &self,
        alloc: Global,
        checked: &Checked,
        owed: &Obligation,
        at: &mut Given,
        given: &mut Printer,
    ) -> Option<()> {
        given.put_number(u64::from(owed.level));
        given.put(" ");
        given.put_bytes(role_name(checked, owed.role)?);
        given.put(" ");
        given.put_number(u64::from(owed.leaf));
        given.put(match owed.kind {
            Kind::Contained => " contained ",
            Kind::Bounded => " bounded ",
        });
        self.put_truths(alloc, owed, at, given)
    }
}
