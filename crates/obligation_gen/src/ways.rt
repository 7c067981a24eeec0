//! Ways through bodies that send, each with the leaves behind it.
ghost use Rattle.std.specs.Prelude.{◌≡◌, map};
ghost use Rattle.cocoon_num.specs.Names.{same_name};
ghost use Rattle.cocoon_syntax.specs.TreeOf.{block_of, stmt_of};
ghost use Rattle.cocoon_types.specs.Limits.{either, followed_by, reported};
ghost use Rattle.obligation_gen.specs.Weighed.{leaves_in, reported_ways, sent_only, ways_of, weighed, weighed_in};

use cocoon_syntax::{Stmt, StmtKind};

/// A role, and the leaves behind a way that sends to it.
#[derive(Clone, Copy, Drop)]
pub(crate) struct RoleLeaves<'d> {
    pub(crate) name: &'d [u8],
    pub(crate) leaves: u64,
}

/// Whether two names are the same.
#[tactic(auto, using(crate::proofs::NameTests::same_is))]
fn is_same(name: &[u8], other: &[u8]) -> bool
    ensures { result ≡ same_name name.now other.now }
{
    name == other
}

/// The leaves behind a way that sends to a role: 1 for a role that is not told.
fn leaves_at(roles: &[RoleLeaves], name: &[u8]) -> u64
    ensures { result ≡ leaves_in roles.now name.now }
{
    for role in roles {
        if is_same(name, role.name) {
            return role.leaves;
        }
    }
    1
}

/// The leaves behind the ways through some statements that end in them, and how many ways go on.
#[derive(Clone, Copy, Drop)]
struct Ways {
    ended: u64,
    going: u64,
}

impl Ways {
    fn one_going() -> Ways
        ensures { result ≡ record { ended = 0; going = 1 } }
    {
        Ways { ended: 0, going: 1 }
    }

    fn either(self, other: Ways) -> Ways
        ensures { result ≡ reported_ways (either (ways_of self) (ways_of other)) }
    {
        Ways {
            ended: self.ended.saturating_add(other.ended),
            going: self.going.saturating_add(other.going),
        }
    }

    #[tactic(auto, using(crate::proofs::Saturation::sum_right))]
    fn followed_by(self, next: Ways) -> Ways
        ensures { result ≡ reported_ways (followed_by (ways_of self) (ways_of next)) }
    {
        Ways {
            ended: self
                .ended
                .saturating_add(self.going.saturating_mul(next.ended)),
            going: self.going.saturating_mul(next.going),
        }
    }

    fn sent_only(self) -> Ways
        ensures { result ≡ reported_ways (sent_only (ways_of self)) }
    {
        Ways {
            ended: self.ended,
            going: 0,
        }
    }
}

/// The leaves behind the ways of a body that send.
pub(crate) fn body_leaves(body: &[Stmt], roles: &[RoleLeaves]) -> u64
    ensures { result ≡ reported (weighed_in (leaves_in roles.now)
        (block_of (map stmt_of body.now))).ended }
{
    block_ways(body, roles).ended
}

#[cycle(ways)]
fn stmt_ways(stmt: &Stmt, roles: &[RoleLeaves]) -> Ways
    ensures { result ≡ reported_ways (weighed (leaves_in roles.now) (stmt_of stmt.now)) }
{
    match &stmt.kind {
        StmtKind::If(_, first, second) => block_ways(first, roles).either(block_ways(
            second, roles,
        )),
        StmtKind::Fork(_, _, _, body) => block_ways(body, roles).sent_only(),
        StmtKind::Send(role, _) => Ways {
            ended: leaves_at(roles, role.text.bytes()),
            going: 0,
        },
        StmtKind::Let(_, _, _) => Ways::one_going(),
        StmtKind::SetField(_, _, _) => Ways::one_going(),
        StmtKind::Filter(_) => Ways::one_going(),
        StmtKind::HavocVar(_, _) => Ways::one_going(),
        StmtKind::HavocField(_, _) => Ways::one_going(),
        StmtKind::Assume(_) => Ways::one_going(),
    }
}

#[cycle(ways)]
fn block_ways(stmts: &[Stmt], roles: &[RoleLeaves]) -> Ways
    ensures { result ≡ reported_ways (weighed_in (leaves_in roles.now)
        (block_of (map stmt_of stmts.now))) }
{
    let mut ways = Ways::one_going();
    for stmt in stmts {
        ways = ways.followed_by(stmt_ways(stmt, roles));
    }
    ways
}
