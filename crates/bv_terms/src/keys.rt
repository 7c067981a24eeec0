//! What tells one node from another.
ghost use Rattle.std.specs.Prelude.{◌≡◌, ◌/◌, ◌%◌, ◌∷◌, IfOk};
ghost use Rattle.bv_terms.specs.TermTrees.{op_number};
ghost use Rattle.bv_terms.specs.Keys.{half, node_key};

use crate::node::{FunId, Node, TermId, TermOp};
use cocoon_num::NoMemory;
use smallvec::SmallVec;
use std::alloc::Global;

/// Numbers that tell a node. All but those of applications are so few.
pub(crate) type Key = SmallVec<u64, 4>;

/// Above the lower half of the bits of a number.
const HALF: u128 = 1 << 64;

fn operator(op: TermOp) -> u64
    ensures { result ≡ op_number op }
{
    match op {
        TermOp::Add => 0,
        TermOp::Sub => 1,
        TermOp::And => 2,
        TermOp::Or => 3,
        TermOp::Xor => 4,
        TermOp::Concat => 5,
        TermOp::Equal => 6,
        TermOp::Less => 7,
    }
}

/// The lower and the upper 64 bits of a number.
fn halves(value: u128) -> (u64, u64)
    ensures { (result.0 ≡ value % half) × (result.1 ≡ value / half) }
{
    ((value % HALF) as u64, (value / HALF) as u64)
}

fn apply_key(alloc: Global, function: FunId, args: &[TermId], width: u8) -> Result<Key, NoMemory>
    ensures { IfOk result (λ key. key.items ≡ 2 ∷ function ∷ width ∷ args.now) }
{
    let mut key = Key::from_slice(alloc, &[2, u64::from(function), u64::from(width)])?;
    for arg in args {
        key.push(u64::from(*arg))?;
    }
    Ok(key)
}

/// Two nodes are equal where these numbers are.
pub(crate) fn key_of(alloc: Global, node: &Node) -> Result<Key, NoMemory>
    ensures { IfOk result (λ key. key.items ≡ node_key node.now) }
{
    Ok(match node {
        Node::Constant(bits) => {
            let (low, high) = halves(bits.value);
            Key::from_slice(alloc, &[0, u64::from(bits.width), low, high])?
        }
        Node::Input(input, width) => {
            Key::from_slice(alloc, &[1, u64::from(*input), u64::from(*width)])?
        }
        Node::Apply(function, args, width) => apply_key(alloc, *function, args.items(), *width)?,
        Node::Not(a) => Key::from_slice(alloc, &[3, u64::from(*a)])?,
        Node::Binary(op, a, b) => {
            Key::from_slice(alloc, &[4, operator(*op), u64::from(*a), u64::from(*b)])?
        }
        Node::Slice(a, high, low) => {
            Key::from_slice(
                alloc,
                &[5, u64::from(*a), u64::from(*high), u64::from(*low)],
            )?
        }
        Node::Pick(c, a, b) => {
            Key::from_slice(alloc, &[6, u64::from(*c), u64::from(*a), u64::from(*b)])?
        }
    })
}
