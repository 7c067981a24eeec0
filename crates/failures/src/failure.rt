//! Runs that show that a refinement does not hold.
ghost use Rattle.std.specs.Prelude.{◌≡◌};

use cocoon_num::List;
use role_meaning::{Followed, Loc, Packet};
use runtime_defs::Defs;

/// Where a run begins, with which packet, and which choices are made on it.
#[derive(Drop)]
pub struct Begin {
    pub at: Loc,
    pub packet: Packet,
    /// Those of all bodies, in the order in which they are made.
    pub choices: List<u64>,
}

/// A run that shows that a refinement does not hold, and the definitions under which it does.
#[derive(Drop)]
pub struct Failure {
    pub defs: Defs,
    /// Where the run begins.
    pub at: Loc,
    pub packet: Packet,
    /// Those of all bodies, in the order in which they are made.
    pub choices: List<u64>,
    /// Where it leads.
    pub to: Loc,
    /// The packet that it sends there.
    pub sent: Packet,
}

/// The failure of a run that begins and ends so.
pub(crate) fn joined(defs: Defs, begin: Begin, end: Followed) -> Failure
    ensures { result ≡ record {
      defs = defs;
      at = begin.at;
      packet = begin.packet;
      choices = begin.choices;
      to = end.to;
      sent = end.sent;
    } }
{
    Failure {
        defs,
        at: begin.at,
        packet: begin.packet,
        choices: begin.choices,
        to: end.to,
        sent: end.sent,
    }
}
