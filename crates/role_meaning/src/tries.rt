//! The choices that are tried where a path sends.
ghost use Rattle.std.specs.Prelude.{◌≡◌, ℕ, IfOk, List, map};
ghost use Rattle.cocoon_syntax.specs.TreeOf.{expr_of, exprs_of};
ghost use Rattle.refinement.specs.Trails as spec;
ghost use Rattle.role_meaning.specs.Views.{marks_at};

use crate::trail::{Trail, exprs_choices, fields_choices};
use cocoon_num::NoMemory;
use cocoon_syntax::Expr;
use std::alloc::Global;

/// The numbers that are wanted where a body sends: those of the parameters, and of the fields.
#[derive(Clone, Copy)]
pub(crate) struct Wanted<'w> {
    pub(crate) to: &'w [u64],
    pub(crate) sent: &'w [u64],
}

fn is_choice(value: Option<u32>, choice: u32) -> bool
    ensures { result ≡ spec.is_same value choice }
{
    match value {
        Some(at) => choice == at,
        None => false,
    }
}

/// The number of the first value that is the choice.
fn number_in(choice: u32, values: &[Option<u32>], numbers: &[u64]) -> Option<u64>
    ensures { result ≡ spec.number_in choice values.now numbers.now }
{
    let mut values = values;
    let mut numbers = numbers;
    while let Some((value, more)) = values.split_first() {
        let (number, others) = numbers.split_first()?;
        if is_choice(*value, choice) {
            return Some(*number);
        }
        values = more;
        numbers = others;
    }
    None
}

/// The number that is wanted of a choice; 0 if it is none of the values.
fn number_for(choice: u32, args: &[Option<u32>], fields: &[Option<u32>], wanted: &Wanted<'_>) -> u64
    ensures { result
        ≡ spec.wanted args.now wanted.now.to.now fields.now wanted.now.sent.now choice }
{
    match number_in(choice, args, wanted.to) {
        Some(number) => number,
        None => number_in(choice, fields, wanted.sent).unwrap_or(0),
    }
}

fn numbers_for(
    alloc: Global,
    choices: &[u32],
    args: &[Option<u32>],
    fields: &[Option<u32>],
    wanted: &Wanted<'_>,
) -> Result<Vec<u64>, NoMemory>
    ensures { IfOk result (λ numbers. numbers.items ≡ map
        (spec.wanted args.now wanted.now.to.now fields.now wanted.now.sent.now) choices.now) }
{
    let mut numbers = Vec::new(alloc);
    for choice in choices {
        numbers.push(number_for(*choice, args, fields, wanted))?;
    }
    Ok(numbers)
}

/// The choices that are tried where a path sends these arguments.
pub(crate) fn tried(
    alloc: Global,
    wanted: &Wanted<'_>,
    trail: &Trail<'_>,
    args: &[Expr],
) -> Result<Vec<u64>, NoMemory>
    ensures { IfOk result (λ numbers. numbers.items
        ≡ spec.tried wanted.now.to.now wanted.now.sent.now (marks_at trail.now)
        (spec.exprs_choices (marks_at trail.now) (exprs_of (map expr_of args.now)))) }
{
    let args = exprs_choices(alloc, trail, args)?;
    let fields = fields_choices(alloc, &trail.fields)?;
    numbers_for(alloc, &trail.choices, &args, &fields, wanted)
}
