//! Values of terms.
ghost use Rattle.std.specs.Prelude.{◌≡◌, ◌<◌, ◌≤◌, ◌==◌, ◌^◌, ℕ, List, IfOk, IsTrue, Some, All, if◌then◌else◌, length, slice_get};
ghost use Rattle.std.specs.Option.{IsSome};
ghost use Rattle.cocoon_num.specs.Values as values;
ghost use Rattle.cocoon_num.specs.BitsOf.{value_of};
ghost use Rattle.bv_terms.specs.TermTrees.{OperandsFit};
ghost use Rattle.bv_terms.specs.TermValues.{term_number, number_in, operated, term_value};
ghost use Rattle.bv_terms.specs.Arenas.{term_at};
ghost use Rattle.bv_terms.specs.Environments.{Covers, HasInput, HasTable, functions_of, inputs_of};
ghost use Rattle.bv_terms.specs.Evaluated.{IsReady, node_value, numbers_in, value_in, width_in};
ghost use Rattle.bv_terms.specs.TermMaps.{value_at};

use crate::arena::Terms;
use crate::node::{FunId, InputId, Node, TermId, TermOp};
use crate::term_map::TermMap;
use cocoon_num::{Bits, FunTable, List, NoMemory};
use std::alloc::Global;

/// The numbers of inputs, and tables of functions, each at its own number.
#[derive(Drop)]
pub struct Env {
    pub inputs: List<Bits>,
    pub tables: List<Option<FunTable>>,
}

/// Truth as a number of width 1.
fn truth(holds: bool) -> Bits
    ensures { value_of result ≡ term_number (Some (values.truth holds)) }
{
    Bits::new(1, u128::from(holds))
}

fn operate(op: TermOp, a: Bits, b: Bits) -> Bits
    requires { OperandsFit op a.width b.width }
    ensures { value_of result ≡ operated op (value_of a) (value_of b) }
{
    match op {
        TermOp::Add => a.add(b),
        TermOp::Sub => a.sub(b),
        TermOp::And => a.and(b),
        TermOp::Or => a.or(b),
        TermOp::Xor => a.xor(b),
        TermOp::Concat => a.concat(b),
        TermOp::Equal => truth(a.equal(b)),
        TermOp::Less => truth(a.less(b)),
    }
}

/// The value of a part.
fn part(values: &TermMap<Bits>, id: TermId) -> Bits
    requires { IsSome (value_at values.now id) }
    ensures value { value_of result ≡ value_in values.now id }
    ensures width { result.width ≡ width_in values.now id }
{
    match values.get(id) {
        Some(value) => value,
        None => unreachable!(),
    }
}

/// The number of an argument.
fn argument(values: &TermMap<Bits>, id: TermId) -> u64
    requires there { IsSome (value_at values.now id) }
    requires narrow { width_in values.now id ≤ 64 }
    ensures { result ≡ number_in (value_in values.now id) }
{
    part(values, id).value as u64
}

fn arguments(alloc: Global, values: &TermMap<Bits>, args: &[TermId]) -> Result<Vec<u64>, NoMemory>
    requires there { All (λ a. IsSome (value_at values.now a)) args.now }
    requires narrow { All (λ a. width_in values.now a ≤ 64) args.now }
    ensures { IfOk result (λ numbers. numbers.items ≡ numbers_in values.now args.now) }
{
    let mut numbers = Vec::with_capacity(alloc, args.len())?;
    for arg in args {
        numbers.push(argument(values, *arg))?;
    }
    Ok(numbers)
}

impl Env {
    fn input(&self, input: InputId, width: u8) -> Bits
        requires { HasInput self.now input width }
        ensures { value_of result ≡ values.number width (inputs_of self.now input) }
    {
        self.inputs.items()[input as usize]
    }

    /// What a function gives of width `width`.
    fn look(&self, function: FunId, args: &[u64], width: u8) -> Bits
        requires { (widths : List ℕ) × HasTable self.now function widths width
            × (length args.now ≡ length widths) }
        ensures { value_of result
            ≡ values.number width (functions_of self.now function args.now) }
    {
        match &self.tables.items()[function as usize] {
            Some(table) => table.look(args),
            None => unreachable!(),
        }
    }

    /// The value of a node whose parts have these values.
    fn value(&self, alloc: Global, values: &TermMap<Bits>, node: &Node) -> Result<Bits, NoMemory>
        requires { IsReady self.now values.now node.now }
        ensures { IfOk result (λ value. value_of value ≡ node_value self.now values.now node.now) }
    {
        Ok(match node {
            Node::Constant(value) => *value,
            Node::Input(input, width) => self.input(*input, *width),
            Node::Apply(function, args, width) => {
                self.look(*function, &arguments(alloc, values, args.items())?, *width)
            }
            Node::Not(a) => part(values, *a).not(),
            Node::Binary(op, a, b) => operate(*op, part(values, *a), part(values, *b)),
            Node::Slice(a, high, low) => part(values, *a).slice(*high, *low),
            Node::Pick(c, a, b) => picked(part(values, *c), part(values, *a), part(values, *b)),
        })
    }
}

/// The first where it is true, else the second.
fn picked(choice: Bits, first: Bits, second: Bits) -> Bits
    ensures { result ≡ (if choice.value == 1 then first else second) }
{
    if choice.value == 1 { first } else { second }
}

impl Terms {
    /// The value of a term, by that of its inputs and functions.
    pub fn eval(&self, alloc: Global, id: TermId, env: &Env) -> Result<Bits, NoMemory>
        requires there { id < length self.now }
        requires covered { Covers env.now (term_at self.now id) }
        ensures { IfOk result (λ value. value_of value
            ≡ term_value (functions_of env.now) (inputs_of env.now) (term_at self.now id)) }
    {
        let ids = self.needed(alloc, id)?;
        let mut values = TermMap::over(alloc, &ids)?;
        let mut at = ids.len();
        while at > 0 {
            at -= 1;
            let value = env.value(alloc, &values, self.node(ids[at]))?;
            values.set(ids[at], value)?;
        }
        Ok(part(&values, id))
    }
}
