//! The limits of lowering.
ghost use Rattle.std.specs.Prelude.{◌≡◌, map};
ghost use Rattle.lower_net.specs.Limits.{of_groups, of_network, of_program};
ghost use Rattle.lower_rows.specs.AllGroups.{fork_group_of};
ghost use Rattle.lowering_correct.specs.Counts as spec;

use crate::ProgramCounts;
use cocoon_num::LimitName;
use lower_rows::ForkGroup;

/// The most switches that a network may have.
pub const MOST_SWITCHES: u64 = 64;

/// The most hosts, those at no port counted.
pub const MOST_HOSTS: u64 = 1024;

/// The most tables of one program.
pub const MOST_TABLES: u64 = 256;

/// The most forks of one program.
pub const MOST_SITES: u64 = 255;

/// The most members of one group.
pub const MOST_MEMBERS: u64 = 256;

/// The first limit that so many switches and hosts exceed, with the count.
pub(crate) fn network_over(switches: u64, hosts: u64) -> Option<(LimitName, u64)>
    ensures { result ≡ spec.first_over (of_network switches hosts) }
{
    if switches > MOST_SWITCHES {
        Some((LimitName::Switches, switches))
    } else if hosts > MOST_HOSTS {
        Some((LimitName::Hosts, hosts))
    } else {
        None
    }
}

/// That which these counts of a program exceed.
pub(crate) fn program_over(counts: ProgramCounts) -> Option<(LimitName, u64)>
    ensures { result ≡ spec.first_over (of_program counts.tables counts.forks) }
{
    if counts.tables > MOST_TABLES {
        Some((LimitName::Tables, counts.tables))
    } else if counts.forks > MOST_SITES {
        Some((LimitName::Sites, counts.forks))
    } else {
        None
    }
}

/// That which the first group with too many members exceeds.
pub(crate) fn groups_over(groups: &[ForkGroup<'_>]) -> Option<(LimitName, u64)>
    ensures { result ≡ spec.first_over (of_groups (map fork_group_of groups.now)) }
{
    for group in groups {
        let count = group.grouped.members.len() as u64;
        if count > MOST_MEMBERS {
            return Some((LimitName::Members, count));
        }
    }
    None
}
