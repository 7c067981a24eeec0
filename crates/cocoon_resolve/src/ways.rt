//! Ways through bodies.
ghost use Rattle.std.specs.Prelude.{◌≡◌, map};
ghost use Rattle.cocoon_syntax.specs.TreeOf.{block_of, stmt_of};
ghost use Rattle.cocoon_types.specs.Limits.{all_end, either, followed_by, path_count, reported, ways, ways_in};
ghost use Rattle.cocoon_resolve.specs.Saturated.{reported_ways, ways_of};

use cocoon_syntax::{Stmt, StmtKind};

/// How many ways through some statements end in them, and how many go on.
#[derive(Clone, Copy, Drop)]
struct Ways {
    ended: u64,
    going: u64,
}

impl Ways {
    fn one_going() -> Ways
        ensures { result ≡ record { ended = 0; going = 1 } }
    {
        Ways { ended: 0, going: 1 }
    }

    fn either(self, other: Ways) -> Ways
        ensures { result ≡ reported_ways (either (ways_of self) (ways_of other)) }
    {
        Ways {
            ended: self.ended.saturating_add(other.ended),
            going: self.going.saturating_add(other.going),
        }
    }

    #[tactic(auto, using(crate::proofs::Saturation::sum_right))]
    fn followed_by(self, next: Ways) -> Ways
        ensures { result ≡ reported_ways (followed_by (ways_of self) (ways_of next)) }
    {
        Ways {
            ended: self
                .ended
                .saturating_add(self.going.saturating_mul(next.ended)),
            going: self.going.saturating_mul(next.going),
        }
    }

    fn all_end(self) -> Ways
        ensures { result ≡ reported_ways (all_end (ways_of self)) }
    {
        Ways {
            ended: self.ended.saturating_add(self.going),
            going: 0,
        }
    }
}

/// The number of ways through a body.
pub(crate) fn count_paths(body: &[Stmt]) -> u64
    ensures { result ≡ reported (path_count (block_of (map stmt_of body.now))) }
{
    block_ways(body).all_end().ended
}

#[cycle(ways)]
fn stmt_ways(stmt: &Stmt) -> Ways
    ensures { result ≡ reported_ways (ways (stmt_of stmt.now)) }
{
    match &stmt.kind {
        StmtKind::If(_, first, second) => block_ways(first).either(block_ways(second)),
        StmtKind::Fork(_, _, _, body) => block_ways(body).all_end(),
        StmtKind::Send(_, _) => Ways { ended: 1, going: 0 },
        StmtKind::Let(_, _, _) => Ways::one_going(),
        StmtKind::SetField(_, _, _) => Ways::one_going(),
        StmtKind::Filter(_) => Ways::one_going(),
        StmtKind::HavocVar(_, _) => Ways::one_going(),
        StmtKind::HavocField(_, _) => Ways::one_going(),
        StmtKind::Assume(_) => Ways::one_going(),
    }
}

#[cycle(ways)]
fn block_ways(stmts: &[Stmt]) -> Ways
    ensures { result ≡ reported_ways (ways_in (block_of (map stmt_of stmts.now))) }
{
    let mut ways = Ways::one_going();
    for stmt in stmts {
        ways = ways.followed_by(stmt_ways(stmt));
    }
    ways
}
