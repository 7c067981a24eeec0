//! How large formulas are.
ghost use Rattle.std.specs.Prelude.{◌≡◌};
ghost use Rattle.cocoon_types.specs.Limits.{reported};
ghost use Rattle.obligation_gen.specs.Sent.{role_in};
ghost use Rattle.obligation_gen.specs.Joined.{count_to, joined, joined_to, sent};

use crate::tree::{End, Leaf, Tree};
use declarations::RoleId;

/// The role that a leaf leads to.
fn role(leaf: &Leaf) -> RoleId
    ensures { result ≡ role_in leaf.now.end }
{
    match &leaf.end {
        End::Sent(role, _, _) => *role,
        End::Inside(role, _, _) => *role,
    }
}

/// How many values and fields are sent: none where a leaf ends inside.
fn sent(end: &End) -> u64
    ensures { result ≡ reported (sent end.now) }
{
    match end {
        End::Sent(_, values, fields) => {
            let values = values.items().len() as u64;
            values.saturating_add(fields.items().len() as u64)
        }
        End::Inside(_, _, _) => 0,
    }
}

/// How many leaves lead to a role.
fn count_to(leaves: &[Leaf], to: RoleId) -> u64
    ensures { result ≡ reported (count_to to leaves.now) }
{
    let mut count: u64 = 0;
    for leaf in leaves {
        if role(leaf) == to {
            count = count.saturating_add(1);
        }
    }
    count
}

/// How many terms are joined to the formula of a leaf.
fn joined_to(old: &[Leaf], leaf: &Leaf) -> u64
    ensures { result ≡ reported (joined_to old.now leaf.now) }
{
    let each = sent(&leaf.end).saturating_mul(2).saturating_add(1);
    count_to(old, role(leaf)).saturating_mul(each)
}

/// How many terms are joined to the formulas of a tree: for each pair of a leaf and an old leaf that
/// lead to one role an equation and a conjunction for each value and field, and a disjunction.
pub(crate) fn joined_terms(old: &Tree, tree: &Tree) -> u64
    ensures { result ≡ reported (joined old.now tree.now) }
{
    let mut joined: u64 = 0;
    for leaf in tree.leaves.items() {
        joined = joined.saturating_add(joined_to(old.leaves.items(), leaf));
    }
    joined
}
